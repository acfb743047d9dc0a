//! Instructions as records of a fixed size.
//!
//! The memory of a record is the caller's and may be uninitialised, so its fields are integers, of
//! which any bytes are a value. A field that a form doesn't use is 0, so equal instructions have
//! equal records, except for `pos`. Whether an array is aligned is checked in C, because a
//! reference in Rattle always is.

ghost use Rattle.std.specs.Prelude.{◌≡◌};
ghost use Rattle.bpf_insn.specs.{Table.movsx_bits, Table.source, Table.source_bit};
ghost use Rattle.bpf_insn.specs.{Table.immediate, Table.wide_source, Table.wide_imm};
ghost use Rattle.bpf_insn.specs.{Table.wide_next_imm, Table.register_number};
ghost use Rattle.bpfcanon_c.specs.InsnRows as spec;

use bpf_insn::{
    AluOp, Group, Insn, MovsxForm, Operand, Reg, Size, SmallSize, WideOf, Width, group_of,
};

/// An instruction: `bpfcanon_insn` of `capi/bpfcanon.h`, field by field. A field that its form does
/// not have is 0.
#[repr(C)]
#[derive(Clone, Copy, PartialEq, Eq)]
pub struct InsnRow {
    /// Its form: the index of its variant of `Insn`, from 1.
    pub form: u8,
    /// The number of the arithmetic operation, comparison, byte swap, atomic operation or kind of
    /// wide load.
    pub op: u8,
    /// The width of the operation in bits, or the size of the memory that it reads or writes.
    pub bits: u8,
    /// The number of bits that a sign-extending move reads.
    pub from: u8,
    /// The destination register, 0 to 10.
    pub dst: u8,
    /// The source register, 0 to 10.
    pub src: u8,
    /// 1 if the second operand is the source register, 0 if it is the immediate.
    pub by_reg: u8,
    /// The length of the encoding in bytes, 8 or 16.
    pub len: u8,
    /// The offset field: of a jump in slots, of a load or store in bytes.
    pub off: i16,
    /// The conformance group (RFC 9669 section 2.4), as a bit.
    pub group: u16,
    /// The immediate.
    pub imm: i32,
    /// The immediate of the second slot of a wide load.
    pub next_imm: i32,
    /// Unused: 0.
    pub zero: u32,
    /// The offset of the encoding in bytes from the start of the input.
    pub pos: u64,
}

/// A record with this form, a length of 8 bytes, and 0 in each other field.
#[inline(always)]
pub fn bare_row(form: u8) -> InsnRow
    ensures { result ≡ spec.bare_row form }
{
    InsnRow {
        form,
        op: 0,
        bits: 0,
        from: 0,
        dst: 0,
        src: 0,
        by_reg: 0,
        len: 8,
        off: 0,
        group: 0,
        imm: 0,
        next_imm: 0,
        zero: 0,
        pos: 0,
    }
}

/// The number of bits of a width.
#[inline(always)]
fn width_bits(width: Width) -> u8
    ensures { result ≡ spec.width_bits width }
{
    match width {
        Width::W32 => 32,
        Width::W64 => 64,
    }
}

/// The number of bits of a size.
#[inline(always)]
fn size_bits(size: Size) -> u8
    ensures { result ≡ spec.size_bits size }
{
    match size {
        Size::B => 8,
        Size::H => 16,
        Size::W => 32,
        Size::D => 64,
    }
}

/// Likewise for a size of at most 4 bytes.
#[inline(always)]
fn small_size_bits(size: SmallSize) -> u8
    ensures { result ≡ spec.small_size_bits size }
{
    match size {
        SmallSize::B => 8,
        SmallSize::H => 16,
        SmallSize::W => 32,
    }
}

/// The number of bits that a sign-extending move reads.
#[inline(always)]
fn movsx_from(form: MovsxForm) -> u8
    ensures { result ≡ movsx_bits form }
{
    match form {
        MovsxForm::W32From8 | MovsxForm::W64From8 => 8,
        MovsxForm::W32From16 | MovsxForm::W64From16 => 16,
        MovsxForm::W64From32 => 32,
    }
}

/// The number of bits that a sign-extending move writes.
#[inline(always)]
fn movsx_to(form: MovsxForm) -> u8
    ensures { result ≡ spec.movsx_to form }
{
    match form {
        MovsxForm::W32From8 | MovsxForm::W32From16 => 32,
        _ => 64,
    }
}

/// The source bit, the src field and the immediate of a second operand.
#[inline(always)]
fn operand_parts(arg: Operand) -> (u8, u8, i32)
    ensures bit { result.0 ≡ source_bit arg }
    ensures source { result.1 ≡ source arg }
    ensures imm { result.2 ≡ immediate arg }
{
    match arg {
        Operand::Imm(imm) => (0, 0, imm),
        Operand::Reg(src) => (1, src.number(), 0),
    }
}

/// The src field, imm and next_imm of a wide load.
#[inline(always)]
fn wide_parts(what: WideOf) -> (u8, i32, i32)
    ensures source { result.0 ≡ wide_source what }
    ensures imm { result.1 ≡ wide_imm what }
    ensures next_imm { result.2 ≡ wide_next_imm what }
{
    match what {
        WideOf::Number(number) => (
            0,
            ((number % 0x1_0000_0000) as u32).cast_signed(),
            ((number / 0x1_0000_0000) as u32).cast_signed(),
        ),
        WideOf::MapFd(fd) => (1, fd, 0),
        WideOf::MapValueFd(fd, offset) => (2, fd, offset),
        WideOf::VarAddr(id, next) => (3, id, next),
        WideOf::CodeAddr(offset) => (4, offset, 0),
        WideOf::MapIdx(index) => (5, index, 0),
        WideOf::MapValueIdx(index, offset) => (6, index, offset),
    }
}

/// The bit of a group.
#[inline(always)]
fn group_bit(group: Group) -> u16
    ensures { result ≡ spec.group_bit group }
{
    match group {
        Group::Base32 => 1,
        Group::Base64 => 2,
        Group::Atomic32 => 4,
        Group::Atomic64 => 8,
        Group::Divmul32 => 16,
        Group::Divmul64 => 32,
        Group::Packet => 64,
    }
}

/// The number of an arithmetic operation: its code in the standard, plus 16 if it is signed.
#[inline(always)]
fn alu_number(op: AluOp) -> u8
    ensures { result ≡ spec.alu_number op }
{
    op as u8
}

/// The record of an instruction with two registers, a width or size, and an offset.
#[inline(always)]
fn two_registers(form: u8, bits: u8, dst: Reg, src: Reg, off: i16) -> InsnRow
    ensures { result
        ≡ spec.two_registers form bits (register_number dst) (register_number src) off }
{
    InsnRow {
        bits,
        dst: dst.number(),
        src: src.number(),
        off,
        ..bare_row(form)
    }
}

/// The record of an instruction, without its group and its offset in the file.
#[rattlefmt::skip]
#[inline(always)]
pub fn form_row(insn: Insn) -> InsnRow
    ensures { result ≡ spec.form_row insn }
{
    match insn {
        Insn::Alu { width, op, dst, arg } => {
            let (by_reg, src, imm) = operand_parts(arg);
            let (op, bits, dst) = (alu_number(op), width_bits(width), dst.number());
            InsnRow { op, bits, dst, src, by_reg, imm, ..bare_row(1) }
        }
        Insn::Movsx { form, dst, src } =>
            InsnRow { from: movsx_from(form), ..two_registers(2, movsx_to(form), dst, src, 0) },
        Insn::Neg { width, dst } =>
            InsnRow { bits: width_bits(width), dst: dst.number(), ..bare_row(3) },
        Insn::Swap { kind, bits, dst } =>
            InsnRow { op: kind as u8, bits: bits as u8, dst: dst.number(), ..bare_row(4) },
        Insn::Jump { off } => InsnRow { off, ..bare_row(5) },
        Insn::JumpLong { imm } => InsnRow { imm, ..bare_row(6) },
        Insn::Branch { width, op, dst, arg, off } => {
            let (by_reg, src, imm) = operand_parts(arg);
            let (op, bits, dst) = (op as u8, width_bits(width), dst.number());
            InsnRow { op, bits, dst, src, by_reg, off, imm, ..bare_row(7) }
        }
        Insn::CallHelper { id } => InsnRow { imm: id, ..bare_row(8) },
        Insn::CallLocal { imm } => InsnRow { imm, ..bare_row(9) },
        Insn::CallBtf { id, off } => InsnRow { imm: id, off, ..bare_row(10) },
        Insn::Exit => bare_row(11),
        Insn::Load { size, dst, src, off } => two_registers(12, size_bits(size), dst, src, off),
        Insn::LoadSigned { size, dst, src, off } =>
            two_registers(13, small_size_bits(size), dst, src, off),
        Insn::StoreImm { size, dst, off, imm } =>
            InsnRow { bits: size_bits(size), dst: dst.number(), off, imm, ..bare_row(14) },
        Insn::StoreReg { size, dst, src, off } => two_registers(15, size_bits(size), dst, src, off),
        Insn::Atomic { width, op, dst, src, off } =>
            InsnRow { op: op as u8, ..two_registers(16, width_bits(width), dst, src, off) },
        Insn::Wide { dst, what } => {
            let (op, imm, next_imm) = wide_parts(what);
            InsnRow { op, bits: 64, dst: dst.number(), len: 16, imm, next_imm, ..bare_row(17) }
        }
        Insn::PacketAbs { size, imm } =>
            InsnRow { bits: small_size_bits(size), imm, ..bare_row(18) },
        Insn::PacketInd { size, src, imm } =>
            InsnRow { bits: small_size_bits(size), src: src.number(), imm, ..bare_row(19) },
    }
}

/// The record of an instruction at this offset of its file.
#[inline(always)]
pub fn row_at(pos: u64, insn: Insn) -> InsnRow
    ensures { result ≡ spec.row_at pos insn }
{
    InsnRow {
        group: group_bit(group_of(insn)),
        pos,
        ..form_row(insn)
    }
}
