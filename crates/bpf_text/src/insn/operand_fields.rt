//! The fields of an instruction, read from the operands of a line.
//!
//! There is one function for each kind of field. It returns `Shape` if the operand is of another
//! kind, otherwise `Range` if its number is outside the range of the field.
//!
//! `Shape` says that no instruction with the mnemonic accepts operands of these kinds, whatever
//! their numbers. So it is reported even if a number before it is out of range. And `lddw r1, -1`
//! is `Range`: `lddw` accepts a register and a number, but no negative one.
//!
//! Which field an operand goes to is decided in `make.rt`. Numbers have no limit until they get
//! here (`number.rt`).

ghost use Rattle.bpf_text.specs.insn.OperandFields.{register_field, imm_field, offset_field};
ghost use Rattle.bpf_text.specs.insn.OperandFields.{imm64_field, source_field, address_field};
ghost use Rattle.bpf_text.specs.insn.OperandFields.{FieldIsRead, BothRead};

use crate::insn::fault::LineCause;
use crate::insn::read_operand::ReadOperand;
use bpf_insn::{Operand, Reg};

/// A base register and an offset.
pub(crate) type Address = (Reg, i16);

/// A register.
pub(crate) fn register(operand: ReadOperand) -> Result<Reg, LineCause>
    ensures { FieldIsRead register_field operand result }
{
    match operand {
        ReadOperand::Register(register) => Ok(register),
        _ => Err(LineCause::Shape),
    }
}

/// A 32-bit immediate.
pub(crate) fn imm(operand: ReadOperand) -> Result<i32, LineCause>
    ensures { FieldIsRead imm_field operand result }
{
    match operand {
        ReadOperand::Literal(number) => i32::try_from(number).or(Err(LineCause::Range)),
        _ => Err(LineCause::Shape),
    }
}

/// A 16-bit offset.
pub(crate) fn offset(operand: ReadOperand) -> Result<i16, LineCause>
    ensures { FieldIsRead offset_field operand result }
{
    match operand {
        ReadOperand::Literal(number) => i16::try_from(number).or(Err(LineCause::Range)),
        _ => Err(LineCause::Shape),
    }
}

/// The 64-bit immediate of a wide load.
pub(crate) fn imm64(operand: ReadOperand) -> Result<u64, LineCause>
    ensures { FieldIsRead imm64_field operand result }
{
    match operand {
        ReadOperand::Literal(number) => u64::try_from(number).or(Err(LineCause::Range)),
        _ => Err(LineCause::Shape),
    }
}

/// The second operand of arithmetic and branches: a register or an immediate.
pub(crate) fn source(operand: ReadOperand) -> Result<Operand, LineCause>
    ensures { FieldIsRead source_field operand result }
{
    match operand {
        ReadOperand::Register(register) => Ok(Operand::Reg(register)),
        ReadOperand::Literal(_) => Ok(Operand::Imm(imm(operand)?)),
        ReadOperand::Memory(_, _) => Err(LineCause::Shape),
    }
}

/// A base register and an offset, in brackets.
pub(crate) fn address(operand: ReadOperand) -> Result<Address, LineCause>
    ensures { FieldIsRead address_field operand result }
{
    match operand {
        ReadOperand::Memory(base, number) => Ok((base, offset(ReadOperand::Literal(number))?)),
        _ => Err(LineCause::Shape),
    }
}

/// Both of two results. `Shape` is reported rather than `Range`, whichever operand is faulty first.
pub(crate) fn both<A: Drop, B: Drop>(
    first: Result<A, LineCause>,
    second: Result<B, LineCause>,
) -> Result<(A, B), LineCause>
    ensures { BothRead first second result }
{
    match (first, second) {
        (Ok(a), Ok(b)) => Ok((a, b)),
        (Err(LineCause::Range), Err(LineCause::Shape)) => Err(LineCause::Shape),
        (Err(cause), _) | (Ok(_), Err(cause)) => Err(cause),
    }
}
