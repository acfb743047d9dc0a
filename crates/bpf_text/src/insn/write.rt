//! Writing instructions as lines.

ghost use Rattle.std.specs.Prelude.{◌≡◌, ℕ, ◌+◌, ◌<◌, ◌≤◌, List, [], ◌∷◌, ◌++◌, length, map, drop};
ghost use Rattle.std.specs.Prelude.{codes, decimal, OnOk, OnErr, IfOk};
ghost use Rattle.std.specs.Fmt.{signed_decimal};
ghost use Rattle.bpf_insn.specs.Table.{IsInsn};
ghost use Rattle.bpf_text.specs.insn.Operands.{signed_text, register_text, operand_text};
ghost use Rattle.bpf_text.specs.insn.Table.{operands_of};
ghost use Rattle.bpf_text.specs.insn.Table as spec;
ghost use Rattle.bpf_text.specs.insn.Lines.{spaced, line_of, listing_of};
ghost use Rattle.bpf_text.specs.insn.{Listing.Lists, Written.operand_written};

use crate::insn::mnemonic::Mnemonic;
use crate::insn::write::WrittenOperand::{Memory, Number, Register, Signed, Unsigned};
use bpf_insn::{Insn, Operand, Reg, WideOf};
use itoa::write_digits;
use std::alloc::{AllocError, Allocator};
use std::marker::Model;

/// An operand of a line. A `Number` is written with a sign only if it is negative, a `Signed`
/// number always.
#[derive(Clone, Copy)]
enum WrittenOperand {
    Register(Reg),
    Number(i32),
    Unsigned(u64),
    Signed(i32),
    Memory(Reg, i16),
}

/// The size of the buffer for a line, in bytes. A mnemonic has at most 14, the operands have at
/// most 83 with their separators, and a newline follows.
const LINE_SIZE: usize = 112;

/// The end of a line: the bytes of the buffer from `start` on. The line is written from its last
/// byte to its first, since the digits of a number are found in this order.
///
/// So each method writes in front of what is already there. What it requires of the length leaves
/// room for the longest string that it writes, such as the 3 bytes of `r10`.
#[derive(Drop)]
struct Line {
    bytes: [u8; LINE_SIZE],
    start: usize,
}

impl Model for Line {
    ghost use Rattle.std.specs.Prelude.{◌≤◌, ℕ, List, drop};
    ghost use Rattle.bpf_text.specs.declared.insn.write.TheConstants.{LINE_SIZE};

    ghost Value = { List ℕ };

    ghost view = { λ line. drop line.start line.bytes };

    ghost invariant = { λ line. line.start ≤ LINE_SIZE };
}

impl Line {
    /// A newline.
    fn new() -> Line
        ensures { result ≡ codes "\n" }
    {
        let mut bytes = [0; LINE_SIZE];
        bytes[LINE_SIZE - 1] = b'\n';
        Line {
            bytes,
            start: LINE_SIZE - 1,
        }
    }

    /// The bytes that have been written.
    fn as_bytes(&self) -> &[u8]
        ensures { result.now ≡ self.now }
    {
        &self.bytes[self.start..]
    }

    /// Writes a byte.
    #[inline(always)]
    fn byte(&mut self, byte: u8)
        requires { length self.old < LINE_SIZE }
        ensures { self.new ≡ byte ∷ self.old }
    {
        let start = self.start - 1;
        self.bytes[start] = byte;
        // Stored last, here and in `text`: after a store that may alias it, the compiler would load
        // it again.
        self.start = start;
    }

    /// Writes a string.
    #[inline(always)]
    fn text(&mut self, text: &[u8])
        requires { length text.now + length self.old ≤ LINE_SIZE }
        ensures { self.new ≡ text.now ++ self.old }
    {
        let end = self.start;
        let start = end - text.len();
        self.bytes[start..end].copy_from_slice(text);
        self.start = start;
    }

    /// Writes the decimal digits of a number.
    fn digits(&mut self, number: u64)
        requires { length self.old + 20 ≤ LINE_SIZE }
        ensures text { self.new ≡ decimal number ++ self.old }
        ensures len { length self.new ≤ length self.old + 20 }
    {
        self.start = write_digits(number, &mut self.bytes, self.start);
    }

    /// Writes a register.
    #[inline(always)]
    fn register(&mut self, register: Reg)
        requires { length self.old + 3 ≤ LINE_SIZE }
        ensures text { self.new ≡ register_text register ++ self.old }
        ensures len { length self.new ≤ length self.old + 3 }
    {
        let number = register.number();
        if number < 10 {
            self.text(&[b'r', b'0' + number]);
        } else {
            self.text(b"r10");
        }
    }

    /// Writes a number, with a sign if it is negative.
    #[inline(always)]
    fn number(&mut self, number: i32)
        requires { length self.old + 21 ≤ LINE_SIZE }
        ensures text { self.new ≡ signed_decimal number ++ self.old }
        ensures len { length self.new ≤ length self.old + 21 }
    {
        self.digits(u64::from(number.unsigned_abs()));
        if number < 0 {
            self.byte(b'-');
        }
    }

    /// Writes a number, always with a sign.
    #[inline(always)]
    fn signed(&mut self, number: i32)
        requires { length self.old + 21 ≤ LINE_SIZE }
        ensures text { self.new ≡ signed_text number ++ self.old }
        ensures len { length self.new ≤ length self.old + 21 }
    {
        self.digits(u64::from(number.unsigned_abs()));
        self.byte(if number < 0 { b'-' } else { b'+' });
    }

    /// Writes a base register and an offset in brackets.
    #[inline(always)]
    fn memory(&mut self, base: Reg, offset: i16)
        requires { length self.old + 26 ≤ LINE_SIZE }
        ensures text { self.new
            ≡ codes "[" ++ register_text base ++ signed_text offset ++ codes "]" ++ self.old }
        ensures len { length self.new ≤ length self.old + 26 }
    {
        self.byte(b']');
        self.signed(i32::from(offset));
        self.register(base);
        self.byte(b'[');
    }

    /// Writes an operand.
    #[inline(always)]
    fn operand(&mut self, operand: WrittenOperand)
        requires { length self.old + 26 ≤ LINE_SIZE }
        ensures text { self.new ≡ operand_text (operand_written operand) ++ self.old }
        ensures len { length self.new ≤ length self.old + 26 }
    {
        match operand {
            Register(register) => self.register(register),
            Number(number) => self.number(number),
            Unsigned(number) => self.digits(number),
            Signed(number) => self.signed(number),
            Memory(base, offset) => self.memory(base, offset),
        }
    }

    /// Writes a space and an operand.
    #[inline(always)]
    fn one(&mut self, first: WrittenOperand)
        requires { length self.old + 27 ≤ LINE_SIZE }
        ensures text { self.new ≡ spaced (operand_written first ∷ []) ++ self.old }
        ensures len { length self.new ≤ length self.old + 27 }
    {
        self.operand(first);
        self.byte(b' ');
    }

    /// Writes a space and two operands.
    #[inline(always)]
    fn two(&mut self, first: WrittenOperand, second: WrittenOperand)
        requires { length self.old + 55 ≤ LINE_SIZE }
        ensures text { self.new
            ≡ spaced (operand_written first ∷ operand_written second ∷ []) ++ self.old }
        ensures len { length self.new ≤ length self.old + 55 }
    {
        self.operand(second);
        self.text(b", ");
        self.one(first);
    }

    /// Writes a space and three operands.
    #[inline(always)]
    fn three(&mut self, first: WrittenOperand, second: WrittenOperand, third: WrittenOperand)
        requires { length self.old + 83 ≤ LINE_SIZE }
        ensures text { self.new
            ≡ spaced (map operand_written (first ∷ second ∷ third ∷ [])) ++ self.old }
        ensures len { length self.new ≤ length self.old + 83 }
    {
        self.operand(third);
        self.text(b", ");
        self.two(first, second);
    }

    /// Writes the operands of an instruction.
    #[inline(always)]
    #[rattlefmt::skip]
    fn operands(&mut self, insn: &Insn)
        requires { length self.old + 83 ≤ LINE_SIZE }
        ensures text { self.new ≡ spaced (operands_of insn.now) ++ self.old }
        ensures len { length self.new ≤ length self.old + 83 }
    {
        match *insn {
            Insn::Alu { dst, arg, .. } => self.two(Register(dst), source_operand(arg)),
            Insn::Movsx { dst, src, .. } => self.two(Register(dst), Register(src)),
            Insn::Neg { dst, .. } | Insn::Swap { dst, .. } => self.one(Register(dst)),
            Insn::Jump { off } => self.one(Signed(i32::from(off))),
            Insn::JumpLong { imm } | Insn::CallLocal { imm } => self.one(Signed(imm)),
            Insn::Branch { dst, arg, off, .. } =>
                self.three(Register(dst), source_operand(arg), Signed(i32::from(off))),
            Insn::CallHelper { id } => self.one(Number(id)),
            Insn::CallBtf { id, off } => self.two(Number(id), Number(i32::from(off))),
            Insn::Exit => {}
            Insn::Load { dst, src, off, .. } => self.two(Register(dst), Memory(src, off)),
            Insn::LoadSigned { dst, src, off, .. } => self.two(Register(dst), Memory(src, off)),
            Insn::StoreImm { dst, off, imm, .. } => self.two(Memory(dst, off), Number(imm)),
            Insn::StoreReg { dst, src, off, .. } => self.two(Memory(dst, off), Register(src)),
            Insn::Atomic { dst, src, off, .. } => self.two(Memory(dst, off), Register(src)),
            Insn::Wide { dst, what: WideOf::Number(number) } =>
                self.two(Register(dst), Unsigned(number)),
            Insn::Wide {
                dst, what: WideOf::MapFd(imm) | WideOf::CodeAddr(imm) | WideOf::MapIdx(imm),
            } => self.two(Register(dst), Number(imm)),
            Insn::Wide {
                dst,
                what: WideOf::MapValueFd(imm, next) | WideOf::VarAddr(imm, next)
                    | WideOf::MapValueIdx(imm, next),
            } => self.three(Register(dst), Number(imm), Number(next)),
            Insn::PacketAbs { imm, .. } => self.one(Number(imm)),
            Insn::PacketInd { src, imm, .. } => self.two(Register(src), Number(imm)),
        }
    }
}

/// The second operand of arithmetic and branches, as it is written.
#[inline(always)]
fn source_operand(operand: Operand) -> WrittenOperand
    ensures { operand_written result ≡ spec.source_operand operand }
{
    match operand {
        Operand::Imm(number) => Number(number),
        Operand::Reg(register) => Register(register),
    }
}

/// Appends the line of an instruction and a newline (docs/FORMATS.md, "Listings").
///
/// # Errors
///
/// `AllocError` if the vector can't grow. It is then unchanged.
#[tactic(auto, using(crate::proofs::InsnLemmas::MnemonicTokens::mnemonic_is_short))]
pub fn push_line<A: Allocator>(out: &mut Vec<u8, A>, insn: Insn) -> Result<(), AllocError>
    ensures ok { OnOk result (out.new.items ≡ out.old.items ++ line_of insn ++ codes "\n") }
    ensures err { OnErr result (out.new.items ≡ out.old.items) }

    // Every field is in the range of its type.
    ensures in_range { IsInsn insn }
{
    let mut line = Line::new();
    line.operands(&insn);
    line.text(Mnemonic::of(&insn).text().as_bytes());
    out.extend_from_slice(line.as_bytes())
}

/// The listing of instructions: a line for each, with a newline (docs/FORMATS.md, "Listings").
///
/// # Errors
///
/// `AllocError` if memory for the listing can't be allocated.
pub fn listing<A: Allocator>(alloc: A, insns: &[Insn]) -> Result<Vec<u8, A>, AllocError>
    ensures text { IfOk result (λ text. text.items ≡ listing_of insns.now) }

    // The reader returns the same instructions.
    ensures listed { IfOk result (λ text. Lists text.items insns.now) }
{
    let mut text = Vec::new(alloc);
    for insn in insns {
        push_line(&mut text, *insn)?;
    }
    Ok(text)
}
