//! Making an instruction from its mnemonic and operands.

ghost use Rattle.std.specs.Prelude.{◌≡◌, length};
ghost use Rattle.bpf_text.specs.insn.OperandFields as spec;
ghost use Rattle.bpf_text.specs.insn.OperandFields.{InsnIsRead};
ghost use Rattle.bpf_text.specs.declared.insn.mnemonic.Mnemonic.{Mnemonic};

use crate::insn::fault::LineCause;
use crate::insn::mnemonic::{Mnemonic, WideKind};
use crate::insn::operand_fields::{address, both, imm, imm64, offset, register, source};
use crate::insn::read_operand::ReadOperand;
use bpf_insn::{Insn, WideOf};

/// The number of operands that follow a mnemonic.
#[rattlefmt::skip]
fn operand_count(mnemonic: Mnemonic) -> usize
    ensures { result ≡ spec.operand_count mnemonic }
{
    match mnemonic {
        Mnemonic::Exit => 0,
        Mnemonic::Neg(_) | Mnemonic::Swap(_, _) | Mnemonic::Jump | Mnemonic::JumpLong
        | Mnemonic::CallHelper | Mnemonic::CallLocal | Mnemonic::PacketAbs(_) => 1,
        Mnemonic::Branch(_, _)
        | Mnemonic::Wide(WideKind::MapValueFd | WideKind::VarAddr | WideKind::MapValueIdx) => 3,
        _ => 2,
    }
}

/// The wide load of this kind with these operands.
#[rattlefmt::skip]
fn wide_from_operands(kind: WideKind, operands: &[ReadOperand]) -> Result<Insn, LineCause>
    requires { length operands.now ≡ spec.operand_count (Mnemonic.Wide kind) }
    ensures { InsnIsRead (Mnemonic.Wide kind) operands.now result }
{
    match kind {
        WideKind::Number => both(register(operands[0]), imm64(operands[1]))
            .map(|(dst, number)| Insn::Wide { dst, what: WideOf::Number(number) }),
        WideKind::MapFd => both(register(operands[0]), imm(operands[1]))
            .map(|(dst, fd)| Insn::Wide { dst, what: WideOf::MapFd(fd) }),
        WideKind::MapValueFd =>
            both(register(operands[0]), both(imm(operands[1]), imm(operands[2])))
                .map(|(dst, (fd, off))| Insn::Wide { dst, what: WideOf::MapValueFd(fd, off) }),
        WideKind::VarAddr =>
            both(register(operands[0]), both(imm(operands[1]), imm(operands[2])))
                .map(|(dst, (id, next))| Insn::Wide { dst, what: WideOf::VarAddr(id, next) }),
        WideKind::CodeAddr => both(register(operands[0]), imm(operands[1]))
            .map(|(dst, off)| Insn::Wide { dst, what: WideOf::CodeAddr(off) }),
        WideKind::MapIdx => both(register(operands[0]), imm(operands[1]))
            .map(|(dst, index)| Insn::Wide { dst, what: WideOf::MapIdx(index) }),
        WideKind::MapValueIdx =>
            both(register(operands[0]), both(imm(operands[1]), imm(operands[2])))
                .map(|(dst, (idx, off))| Insn::Wide { dst, what: WideOf::MapValueIdx(idx, off) }),
    }
}

/// The instruction with this mnemonic and these operands, whose number is that of the mnemonic.
#[rattlefmt::skip]
fn insn_of_form(mnemonic: Mnemonic, operands: &[ReadOperand]) -> Result<Insn, LineCause>
    requires { length operands.now ≡ spec.operand_count mnemonic }
    ensures { InsnIsRead mnemonic operands.now result }
{
    match mnemonic {
        Mnemonic::Alu(width, op) => both(register(operands[0]), source(operands[1]))
            .map(|(dst, arg)| Insn::Alu { width, op, dst, arg }),
        Mnemonic::Movsx(form) => both(register(operands[0]), register(operands[1]))
            .map(|(dst, src)| Insn::Movsx { form, dst, src }),
        Mnemonic::Neg(width) => register(operands[0]).map(|dst| Insn::Neg { width, dst }),
        Mnemonic::Swap(kind, bits) =>
            register(operands[0]).map(|dst| Insn::Swap { kind, bits, dst }),
        Mnemonic::Jump => offset(operands[0]).map(|off| Insn::Jump { off }),
        Mnemonic::JumpLong => imm(operands[0]).map(|imm| Insn::JumpLong { imm }),
        Mnemonic::Branch(width, op) =>
            both(register(operands[0]), both(source(operands[1]), offset(operands[2])))
                .map(|(dst, (arg, off))| Insn::Branch { width, op, dst, arg, off }),
        Mnemonic::CallHelper => imm(operands[0]).map(|id| Insn::CallHelper { id }),
        Mnemonic::CallLocal => imm(operands[0]).map(|imm| Insn::CallLocal { imm }),
        Mnemonic::CallBtf => both(imm(operands[0]), offset(operands[1]))
            .map(|(id, off)| Insn::CallBtf { id, off }),
        Mnemonic::Exit => Ok(Insn::Exit),
        Mnemonic::Load(size) => both(register(operands[0]), address(operands[1]))
            .map(|(dst, (src, off))| Insn::Load { size, dst, src, off }),
        Mnemonic::LoadSigned(size) => both(register(operands[0]), address(operands[1]))
            .map(|(dst, (src, off))| Insn::LoadSigned { size, dst, src, off }),
        Mnemonic::StoreImm(size) => both(address(operands[0]), imm(operands[1]))
            .map(|((dst, off), imm)| Insn::StoreImm { size, dst, off, imm }),
        Mnemonic::StoreReg(size) => both(address(operands[0]), register(operands[1]))
            .map(|((dst, off), src)| Insn::StoreReg { size, dst, src, off }),
        Mnemonic::Atomic(width, op) => both(address(operands[0]), register(operands[1]))
            .map(|((dst, off), src)| Insn::Atomic { width, op, dst, src, off }),
        Mnemonic::Wide(kind) => wide_from_operands(kind, operands),
        Mnemonic::PacketAbs(size) => imm(operands[0]).map(|imm| Insn::PacketAbs { size, imm }),
        Mnemonic::PacketInd(size) => both(register(operands[0]), imm(operands[1]))
            .map(|(src, imm)| Insn::PacketInd { size, src, imm }),
    }
}

/// The instruction with this mnemonic and these operands. `Shape` is reported rather than `Range`,
/// whichever operand is faulty first.
pub(crate) fn insn_from_operands(
    mnemonic: Mnemonic,
    operands: &[ReadOperand],
) -> Result<Insn, LineCause>
    ensures { InsnIsRead mnemonic operands.now result }
{
    if operands.len() != operand_count(mnemonic) {
        return Err(LineCause::Shape);
    }
    insn_of_form(mnemonic, operands)
}
