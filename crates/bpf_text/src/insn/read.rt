//! Reading a listing into its instructions.
//!
//! The reader accepts more than the writer writes. The last line may lack its newline. `;` or `#`
//! begins a comment, which may contain any bytes. Blanks are space, tab and carriage return. A
//! token is a maximal run of `a` to `z`, `0` to `9` and `_`, or one of `, [ ] + -`. A number is
//! decimal, or hexadecimal after `0x`. Outside brackets it may follow one `+` or `-`; inside, the
//! offset is omitted or follows one.
//!
//! Lines are found by memchr, and read one at a time: a line becomes its code without a comment
//! (`token.rt`), a mnemonic (`mnemonic.rt`) with operands (`read_operand.rt`), and an instruction
//! (`make.rt`). What is done with each instruction is the caller's, so the list and the bytes of a
//! listing have one reader.

ghost use Rattle.std.specs.Prelude.{◌≡◌, ℕ, ◌<◌, [], ◌∷◌, List, length, false, Err, IfOk, IfSome};
ghost use Rattle.std.specs.Prelude.{MatchOption, MatchResult};
ghost use Rattle.std.specs.{Option.option_to_list, List.list_any};
ghost use Rattle.bpf_insn.specs.declared.insn.Insn.{Insn};
ghost use Rattle.bpf_text.specs.insn.Tokens.{is_stray, AreTokens};
ghost use Rattle.bpf_text.specs.declared.insn.fault.{LineFault.LineFault, ListError.ListError};
ghost use Rattle.bpf_text.specs.insn.Listing.{lines_of, Lists, IsListFault, IsCause, ListsLine};
ghost use Rattle.bpf_text.specs.insn.Reading.{ReadsTokens, RefusesText, RefusesLine, TakesAll};

use crate::insn::fault::{LineCause, LineFault, ListError};
use crate::insn::make::insn_from_operands;
use crate::insn::mnemonic::Mnemonic;
use crate::insn::read_operand::operands_from_tokens;
use crate::insn::token::{Tokens, known_code, next_token, read_tokens};
use arrayvec::ArrayVec;
use bpf_insn::Insn;
use memchr::memchr;
use std::alloc::{AllocError, Allocator};

/// The instruction whose mnemonic is the first token, with the operands in the rest of the line.
/// The caller passes the tokens of the previous line, whose buffer is reused: to make a new array
/// for each line is slower than reading its tokens.
fn insn_from_tokens<'a>(
    tokens: &mut Tokens<'a>,
    first_token: &[u8],
    following: &'a [u8],
) -> Result<Insn, LineCause>
    requires { list_any is_stray following.now ≡ false }
    ensures { (tokens : List (List ℕ)) → AreTokens following.now tokens
        → ReadsTokens first_token.now tokens result }
{
    let Some(mnemonic) = Mnemonic::read(first_token) else {
        return Err(LineCause::Word);
    };
    if !read_tokens(tokens, following) {
        return Err(LineCause::Shape);
    }
    let Some(operands) = operands_from_tokens(tokens.as_slice()) else {
        return Err(LineCause::Shape);
    };
    insn_from_operands(mnemonic, operands.as_slice())
}

/// The first line of an input, and the bytes after its newline, if it has one.
fn first_line(text: &[u8]) -> (&[u8], Option<&[u8]>)
    ensures lines { MatchOption result.1 (lines_of text.now ≡ result.0.now ∷ [])
        (λ following. lines_of text.now ≡ result.0.now ∷ lines_of following.now) }
    ensures shorter { IfSome result.1 (λ following. length following.now < length text.now) }
{
    match memchr(b'\n', text) {
        Some(end) => (&text[..end], Some(&text[end + 1..])),
        None => (text, None),
    }
}

/// The instruction of a line, or `None` if it has no tokens.
fn read_line<'a>(tokens: &mut Tokens<'a>, line: &'a [u8]) -> Result<Option<Insn>, LineCause>
    ensures { MatchResult result (λ found.
        ListsLine line.now (option_to_list found)) (IsCause line.now) }
{
    let Some(code) = known_code(line) else {
        return Err(LineCause::Char);
    };
    match next_token(code) {
        None => Ok(None),
        Some((first, following)) => insn_from_tokens(tokens, first, following).map(Some),
    }
}

/// The instruction of a line, or `None` if it has no tokens. An error includes the line number.
fn read_numbered<'a>(
    tokens: &mut Tokens<'a>,
    text: &'a [u8],
    line: u64,
) -> Result<Option<Insn>, ListError>
    ensures { MatchResult result (λ found.
        ListsLine text.now (option_to_list found)) (RefusesLine text.now line) }
{
    read_line(tokens, text).map_err(|cause| ListError::Fault(LineFault { line, cause }))
}

/// Calls `take` with the sink and each instruction, in the order of the lines. On an error the sink
/// may already have taken those of the first lines.
pub(crate) fn read_lines<S, F>(sink: &mut S, text: &[u8], take: F) -> Result<(), ListError>
where
    F: Fn(&mut S, Insn) -> Result<(), AllocError>,
    requires { F.IsAlwaysCallable take }
    ensures { MatchResult result
        (λ _. (l : List Insn) × Lists text.now l × TakesAll (F.post take) sink.old l sink.new)
        (RefusesText text.now) }
{
    let mut tokens = ArrayVec::new();
    let mut rest = text;
    let mut number: u64 = 1;
    'lines: loop {
        let (line, following) = first_line(rest);
        if let Some(insn) = read_numbered(&mut tokens, line, number)? {
            take(sink, insn)?;
        }
        let Some(following) = following else {
            return Ok(());
        };
        rest = following;
        number += 1;
    }
}

/// The instructions of a listing (docs/FORMATS.md, "Reading a listing"), one for each line with
/// tokens. Memory is allocated only for the returned list.
///
/// # Errors
///
/// `Fault` with the first faulty line, counted from 1, and the first cause that applies to it.
/// `Memory` if memory for the list can't be allocated.
pub fn read_listing<A: Allocator>(alloc: A, text: &[u8]) -> Result<Vec<Insn, A>, ListError>
    ensures found { IfOk result (λ insns. Lists text.now insns.items) }

    // A listing is read, unless memory runs out.
    ensures all { (l : List Insn) → Lists text.now l →
        MatchResult result (λ insns. insns.items ≡ l) (λ e. e ≡ ListError.Memory) }
    ensures fault { (f : LineFault) → result ≡ Err (ListError.Fault f) → IsListFault text.now f }
{
    let mut insns = Vec::new(alloc);
    read_lines(&mut insns, text, |insns, insn| Ok(insns.push(insn)?))?;
    Ok(insns)
}
