//! The tokens of a line.
//!
//! The class of a byte is looked up, which is one load in place of several comparisons. A line is
//! passed over once to find its first byte that is neither blank nor part of a token. Comments
//! begin with such a byte, so this is the end of the line's code, or its fault. No line of an
//! instruction has more than 17 tokens after its mnemonic, so they fit on the stack and reading a
//! line allocates nothing.

ghost use Rattle.std.specs.Prelude.{◌≡◌, ℕ, ◌<◌, ◌≤◌, false, List, length, map, IsTrue, IfSome};
ghost use Rattle.std.specs.Prelude.{IfNone, MatchBool};
ghost use Rattle.std.specs.List.{list_any, list_all, prefix_len, position_or_len};
ghost use Rattle.bpf_text.specs.insn.Tokens.{code_of, StartsWithToken, AreTokens};
ghost use Rattle.bpf_text.specs.insn.Tokens as spec;

use arrayvec::ArrayVec;

/// The largest number of tokens in the operands of a line: 5 for each of 3 operands, and 2 commas.
pub(crate) const MOST_TOKENS: usize = 17;

/// The tokens after a mnemonic, stored on the stack.
pub(crate) type Tokens<'a> = ArrayVec<&'a [u8], MOST_TOKENS>;

/// The class of each byte: `b` for blanks, `w` for letters, digits and `_`, `s` for symbols, `.`
/// for all others.
static CLASSES: [u8; 256] = *b"\
    .........b...b..................\
    b..........sss..wwwwwwwwww......\
    ...........................s.s.w\
    .wwwwwwwwwwwwwwwwwwwwwwwwww.....\
    ................................\
    ................................\
    ................................\
    ................................";

/// Whether a byte begins a comment.
fn is_comment_mark(b: u8) -> bool
    ensures { result ≡ spec.is_comment_mark b }
{
    b == b';' || b == b'#'
}

/// Whether a byte is a space, a tab or a carriage return.
fn is_blank(b: u8) -> bool
    ensures { result ≡ spec.is_blank b }
{
    b == b' ' || b == b'\t' || b == b'\r'
}

/// Whether a byte is `a` to `z`, `0` to `9` or `_`.
#[inline(always)]
fn is_word_byte(b: u8) -> bool
    ensures { result ≡ spec.is_word_byte b }
{
    CLASSES[b as usize] == b'w'
}

/// Whether a byte is neither blank nor part of a token.
#[inline(always)]
fn is_stray(b: u8) -> bool
    ensures { result ≡ spec.is_stray b }
{
    CLASSES[b as usize] == b'.'
}

/// The number of bytes before the first stray byte.
#[tactic(auto, using(crate::proofs::InsnLemmas::TokenLemmas::length_of_run))]
fn known_len(bytes: &[u8]) -> usize
    ensures value { result ≡ position_or_len spec.is_stray bytes.now }
    ensures within { result ≤ length bytes.now }
{
    bytes.iter().take_while(|b| !is_stray(**b)).count()
}

/// A line without its comment, if each byte before the comment is blank or part of a token. The
/// characters that begin a comment are stray bytes too, so the first stray byte is the end.
pub(crate) fn known_code(line: &[u8]) -> Option<&[u8]>
    ensures none { IfNone result (IsTrue (list_any spec.is_stray (code_of line.now))) }
    ensures some { IfSome result (λ code. (code.now ≡ code_of line.now)
        × (list_any spec.is_stray code.now ≡ false)) }
{
    let end = known_len(line);
    if end < line.len() && !is_comment_mark(line[end]) {
        return None;
    }
    Some(&line[..end])
}

/// The number of blanks at the start.
#[tactic(auto, using(crate::proofs::InsnLemmas::TokenLemmas::length_of_run))]
fn blank_len(bytes: &[u8]) -> usize
    ensures value { result ≡ prefix_len spec.is_blank bytes.now }
    ensures within { result ≤ length bytes.now }
{
    bytes.iter().take_while(|b| is_blank(**b)).count()
}

/// The number of letters, digits and `_` at the start.
#[tactic(auto, using(crate::proofs::InsnLemmas::TokenLemmas::length_of_run))]
fn word_len(bytes: &[u8]) -> usize
    ensures value { result ≡ prefix_len spec.is_word_byte bytes.now }
    ensures within { result ≤ length bytes.now }
{
    bytes.iter().take_while(|b| is_word_byte(**b)).count()
}

/// The first token and the bytes after it, or `None` if all bytes are blank.
pub(crate) fn next_token(bytes: &[u8]) -> Option<(&[u8], &[u8])>
    requires { list_any spec.is_stray bytes.now ≡ false }
    ensures none { IfNone result (IsTrue (list_all spec.is_blank bytes.now)) }
    ensures some { IfSome result (λ x. StartsWithToken bytes.now x.0.now x.1.now) }
{
    let (_, rest) = bytes.split_at(blank_len(bytes));
    if rest.is_empty() {
        return None;
    }
    let run = word_len(rest);
    Some(rest.split_at(if run == 0 { 1 } else { run }))
}

/// Replaces the tokens by those of a line without its comment. Returns `false` if there are more
/// than [`MOST_TOKENS`].
pub(crate) fn read_tokens<'a>(tokens: &mut Tokens<'a>, code: &'a [u8]) -> bool
    requires { list_any spec.is_stray code.now ≡ false }
    ensures { MatchBool result (AreTokens code.now (map (λ t. t.now) tokens.new.items))
        ((tokens : List (List ℕ)) → AreTokens code.now tokens → MOST_TOKENS < length tokens) }
{
    tokens.clear();
    let mut rest = code;
    while let Some((token, after)) = next_token(rest) {
        if tokens.try_push(token).is_err() {
            return false;
        }
        rest = after;
    }
    true
}
