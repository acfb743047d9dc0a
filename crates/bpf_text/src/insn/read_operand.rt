//! Reading the operands of a line from its tokens.

ghost use Rattle.std.specs.Prelude.{◌≡◌, ◌∷◌, [], List, map, length, ◌+◌, ◌≤◌, drop, IfSome};
ghost use Rattle.bpf_insn.specs.declared.insn.Reg.{Reg};
ghost use Rattle.bpf_text.specs.insn.Operands.{LineOperand, SpellsOperands, SpellsRegister};
ghost use Rattle.bpf_text.specs.insn.Operands as spec;
ghost use Rattle.bpf_text.specs.insn.Numbers.{IsReadAs, ReadsOperand};
ghost use Rattle.std.specs.{Prelude.IfNone, List.AllZip, List.position_or_len};

use crate::insn::number::{signed_number, unsigned_number};
use arrayvec::ArrayVec;
use bpf_insn::Reg;

/// An operand that tokens spell. Numbers of 2^64 or more are represented by 2^64 with their sign.
#[derive(Clone, Copy)]
pub(crate) enum ReadOperand {
    Register(Reg),
    Literal(i128),
    Memory(Reg, i128),
}

/// The largest number of operands that an instruction has.
pub(crate) const MOST_OPERANDS: usize = 3;

/// The operands of a line, stored on the stack.
pub(crate) type Operands = ArrayVec<ReadOperand, MOST_OPERANDS>;

impl Default for ReadOperand {
    fn default() -> ReadOperand {
        ReadOperand::Literal(0)
    }
}

/// The register that a token spells.
fn register_of(token: &[u8]) -> Option<Reg>
    ensures none { IfNone result ((r : Reg) → ¬ SpellsRegister token.now r) }
    ensures some { IfSome result (λ r. SpellsRegister token.now r) }
{
    match token {
        b"r10" => Reg::new(10),
        [b'r', digit @ b'0'..=b'9'] => Reg::new(*digit - b'0'),
        _ => None,
    }
}

/// A register, or a number without a sign.
fn of_one(token: &[u8]) -> Option<ReadOperand>
    ensures { ReadsOperand (token.now ∷ []) result }
{
    if let Some(register) = register_of(token) {
        return Some(ReadOperand::Register(register));
    }
    Some(ReadOperand::Literal(unsigned_number(token)?))
}

/// The operand that the tokens between two commas spell.
pub(crate) fn operand_from_tokens(tokens: &[&[u8]]) -> Option<ReadOperand>
    ensures { ReadsOperand (map (λ t. t.now) tokens.now) result }
{
    match tokens {
        [token] => of_one(token),
        [sign, token] => Some(ReadOperand::Literal(signed_number(sign, token)?)),
        [b"[", base, b"]"] => Some(ReadOperand::Memory(register_of(base)?, 0)),
        [b"[", base, sign, token, b"]"] => Some(ReadOperand::Memory(
            register_of(base)?,
            signed_number(sign, token)?,
        )),
        _ => None,
    }
}

/// Whether a token is a comma.
fn is_comma(token: &[u8]) -> bool
    ensures { result ≡ spec.is_comma token.now }
{
    token == b",".as_slice()
}

/// The end of the operand that starts at an index: the next comma, or the end of the tokens.
fn part_end(tokens: &[&[u8]], start: usize) -> usize
    requires { start ≤ length tokens.now }
    ensures value { result
        ≡ start + position_or_len (λ t. spec.is_comma t.now) (drop start tokens.now) }
    ensures within { result ≤ length tokens.now }
    ensures from { start ≤ result }
{
    for i in start..tokens.len() {
        if is_comma(tokens[i]) {
            return i;
        }
    }
    tokens.len()
}

/// The operands that the tokens after a mnemonic spell, if there are at most three.
pub(crate) fn operands_from_tokens(tokens: &[&[u8]]) -> Option<Operands>
    ensures none { IfNone result ((spelled : List LineOperand) → length spelled ≤ MOST_OPERANDS →
        ¬ SpellsOperands (map (λ t. t.now) tokens.now) spelled) }
    ensures some { IfSome result (λ found. (spelled : List LineOperand)
        × SpellsOperands (map (λ t. t.now) tokens.now) spelled
        × AllZip IsReadAs found.items spelled) }
{
    let mut operands = ArrayVec::new();
    if tokens.is_empty() {
        return Some(operands);
    }
    let mut start: usize = 0;
    'parts: loop {
        let end = part_end(tokens, start);
        let operand = operand_from_tokens(&tokens[start..end])?;
        if operands.try_push(operand).is_err() {
            return None;
        }
        if end == tokens.len() {
            return Some(operands);
        }
        start = end + 1;
    }
}
