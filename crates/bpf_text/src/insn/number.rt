//! Numbers in a listing.
//!
//! A numeral is read to its end, however long it is, because whether it is too large depends on the
//! field that it goes to (`operand_fields.rt`). No field holds 2^64, so from there on the value
//! doesn't matter: 2^64 stands for all larger numbers, with their sign.

ghost use Rattle.std.specs.Prelude.{ℕ, ◌+◌, ◌*◌, ◌<◌, ◌≤◌, ℤ, ◌≤ℤ◌, pos, IfSome, IfNone};
ghost use Rattle.std.specs.Str.Parse.{IsNumeral, digits_value};
ghost use Rattle.bpf_text.specs.insn.Operands.{SpellsMagnitude, SpellsSigned};
ghost use Rattle.bpf_text.specs.insn.Numbers.{IsMagnitude, IsNumber};

/// A magnitude below 2^64, or `None` for all larger ones.
type Magnitude = Option<u64>;

/// What stands for a number of 2^64 or more, which is outside the range of every field.
const FAR: i128 = 0x1_0000_0000_0000_0000;

/// The number with one more digit appended.
fn with_digit(number: Magnitude, radix: u32, digit: u32) -> Magnitude
    requires { 0 < radix }
    ensures { (n : ℕ) → IsMagnitude number n → IsMagnitude result (n * radix + digit) }
{
    number?
        .checked_mul(u64::from(radix))?
        .checked_add(u64::from(digit))
}

/// The number that the digits spell. `None` if they are empty or a byte isn't a digit.
fn digits_magnitude(radix: u32, digits: &[u8]) -> Option<Magnitude>
    requires low { 2 ≤ radix }
    requires high { radix ≤ 36 }
    ensures none { IfNone result (¬ IsNumeral radix digits.now) }
    ensures some { IfSome result
        (λ m. IsNumeral radix digits.now × IsMagnitude m (digits_value radix digits.now)) }
{
    if digits.is_empty() {
        return None;
    }
    let mut number = Some(0);
    for b in digits {
        let digit = char::from(*b).to_digit(radix)?;
        number = with_digit(number, radix, digit);
    }
    Some(number)
}

/// The number that a token spells: decimal, or hexadecimal after `0x`.
#[inline(always)]
fn magnitude_of(token: &[u8]) -> Option<Magnitude>
    ensures none { IfNone result ((n : ℕ) → ¬ SpellsMagnitude token.now n) }
    ensures some { IfSome result (λ m. (n : ℕ) × SpellsMagnitude token.now n × IsMagnitude m n) }
{
    match token.strip_prefix(b"0x") {
        Some(digits) => digits_magnitude(16, digits),
        None => digits_magnitude(10, token),
    }
}

/// The number that a token spells without a sign. [`FAR`] stands for all numbers of 2^64 or more.
pub(crate) fn unsigned_number(token: &[u8]) -> Option<i128>
    ensures none { IfNone result ((n : ℕ) → ¬ SpellsMagnitude token.now n) }
    ensures some { IfSome result (λ k. (n : ℕ) × SpellsMagnitude token.now n × IsNumber k (pos n)) }
    ensures within { IfSome result (λ k. (pos 0 ≤ℤ k) × (k ≤ℤ FAR)) }
{
    Some(magnitude_of(token)?.map_or(FAR, i128::from))
}

/// The number that a sign and a token spell.
pub(crate) fn signed_number(sign: &[u8], token: &[u8]) -> Option<i128>
    ensures none { IfNone result ((z : ℤ) → ¬ SpellsSigned sign.now token.now z) }
    ensures some { IfSome result (λ k. (z : ℤ) × SpellsSigned sign.now token.now z × IsNumber k z) }
{
    match sign {
        b"+" => unsigned_number(token),
        b"-" => Some(-unsigned_number(token)?),
        _ => None,
    }
}
