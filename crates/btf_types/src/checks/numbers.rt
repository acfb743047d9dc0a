//! Checks of a record's fields that need only numbers (btf.rst section 2.2). Each `_fault` function
//! returns the first cause, in the order of the causes, that applies to a 32-bit field, or `None`.

ghost use Rattle.std.specs.Prelude.{◌≡◌};
ghost use Rattle.btf_types.specs.checks.Numbers as spec;
ghost use Rattle.btf_types.specs.checks.FieldFaults as words;
ghost use Rattle.btf_types.specs.checks.NameFaults.{IntFault, LinkageFault, MemberPlaceFault};

use crate::values::{Encoding, Linkage};
use btf_raw::BtfCause;

/// Checks the 32 bits that follow an INT: that the unused bits are 0, its encoding, and its number
/// of bits, which is at most 128 and no more than its size.
#[tactic(auto, unfolding(crate::specs::checks::Numbers::bits_fit))]
pub fn int_fault(size: u32, word: u32) -> Option<BtfCause>
    ensures { spec.IsLeastOf (IntFault size word) result }
{
    let unused = (word >> 28) + (word >> 8 & 0xff);
    let encoding = Encoding::from_number(word >> 24 & 0xf);
    let bits = word & 0xff;
    let bits_fit = bits <= 128 && u64::from(bits) <= 8 * u64::from(size);
    (unused != 0 || encoding.is_none() || !bits_fit).then_some(BtfCause::IntWord)
}

/// The bit offset that a member's offset field contains. `flag` is the record's kind_flag.
pub fn bit_offset_of(flag: u32, word: u32) -> u32
    ensures { result ≡ words.offset_in flag word }
{
    if flag == 0 { word } else { word & 0xff_ffff }
}

/// The bit-field width that a member's offset field contains. `flag` is the record's kind_flag; if
/// it is 0, so is the width.
pub fn width_of(flag: u32, word: u32) -> u8
    ensures { result ≡ words.width_in flag word }
{
    if flag == 0 { 0 } else { (word >> 24) as u8 }
}

/// Checks that a member's end, rounded up to bytes, is at most `size`, the record's size in bytes.
#[tactic(auto, unfolding(crate::specs::checks::Numbers::member_fits))]
pub fn member_place_fault(size: u32, bit_offset: u32, width: u8) -> Option<BtfCause>
    ensures { spec.IsLeastOf (MemberPlaceFault size bit_offset width) result }
{
    let end = (u64::from(bit_offset) + u64::from(width) + 7) / 8;
    (end > u64::from(size)).then_some(BtfCause::MemberPlace)
}

/// Checks the linkage of a VAR.
pub fn linkage_fault(word: u32) -> Option<BtfCause>
    ensures { spec.IsLeastOf (LinkageFault word) result }
{
    Linkage::from_number(word)
        .is_none()
        .then_some(BtfCause::Linkage)
}
