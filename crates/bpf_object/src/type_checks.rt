//! The rules on a record of .BTF and on its items.

ghost use Rattle.std.specs.Prelude.{◌≡◌, ◌+◌, ◌*◌, ◌^◌, ◌<◌, ◌==◌, true, length, position};
ghost use Rattle.bpf_elf.specs.Rules.{each};
ghost use Rattle.bpf_elf.specs.Kinds.{is_reserved as spec_reserved};
ghost use Rattle.bpf_elf.specs.Names.{is_closed, string_at as spec_string_at};
ghost use Rattle.btf_raw.specs.Frames.{IsFrame};
ghost use Rattle.btf_types.specs.tables.OffsetWords.{ReadsRecord};
ghost use Rattle.bpf_object.specs.Faults.{Checks};
ghost use Rattle.bpf_object.specs.Types as spec;

use crate::fault::{ObjectCause, ObjectFault, require};
use bpf_elf::{is_reserved, string_at};
use btf_raw::info::{has_item_names, is_struct, item_words};
use btf_raw::{DATASEC, FUNC, FWD, TYPE_TAG, VAR};
use btf_types::Record;

/// So many bytes of a name tell whether it is reserved: the longest reserved name has 13.
const NAME_START: usize = 16;

/// The longest name, in bytes, of a record whose name is compared with others.
const NAME_LIMIT: usize = 1_024;

/// Whether a name_off is 0, or leads to a name.
fn leads_to_name(strings: &[u8], off: u32) -> bool
    requires { off < length strings.now }
    ensures { result ≡ spec.leads_to_name strings.now off }
{
    off == 0 || strings[off as usize] != 0
}

/// Whether a record whose name is compared with others has a longer name than is compared: it is the
/// first one, so the bytes of a long string are read once.
#[tactic(auto, using(crate::proofs::RecordLemmas::name_inside))]
fn has_long_name(strings: &[u8], this: &Record<'_>) -> bool
    requires closed { is_closed strings.now ≡ true }
    requires reads { ReadsRecord strings.now this.now }
    ensures { result ≡ spec.has_long_name strings.now this.now }
{
    matches!(this.kind(), FWD | FUNC | VAR | TYPE_TAG)
        && string_at(strings, this.word(0) as usize).len() > NAME_LIMIT
}

/// Where the first NUL is.
fn first_nul(bytes: &[u8]) -> Option<usize>
    ensures { result ≡ position (λ c. c == 0) bytes.now }
{
    bytes.iter().position(|byte| *byte == 0)
}

/// Whether a reserved name is at an offset. No more than its start is read: it may be long, and any
/// number of records may have it.
fn is_reserved_at(strings: &[u8], off: u32) -> bool
    requires { off < length strings.now }
    ensures { result ≡ spec_reserved (spec_string_at strings.now off) }
{
    let rest = &strings[off as usize..];
    let start = &rest[..NAME_START.min(rest.len())];
    let end = first_nul(start).unwrap_or(start.len());
    is_reserved(&start[..end])
}

/// Whether a record is a struct or union without bit-fields whose kind_flag is 1.
#[tactic(auto, using(crate::proofs::RecordLemmas::flagged_is))]
fn is_flagged(this: &Record<'_>) -> bool
    requires { IsFrame this.now }
    ensures { result ≡ spec.is_flagged this.now }
{
    is_struct(this.kind()) && this.kind_flag() != 0 && !this.has_bit_fields()
}

/// Checks the fields of a record itself.
fn check_head(strings: &[u8], this: &Record<'_>, pos: u64) -> Result<(), ObjectFault>
    requires closed { is_closed strings.now ≡ true }
    requires reads { ReadsRecord strings.now this.now }
    requires near { pos + 4 * length this.now < 2 ^ 64 }
    ensures { Checks (spec.head_rules strings.now pos this.now) result }
{
    let name = this.word(0);
    require(leads_to_name(strings, name), pos, ObjectCause::TypesName)?;
    let is_long = has_long_name(strings, this);
    require(!is_long, pos, ObjectCause::TypesName)?;
    let is_reserved = this.kind() == DATASEC && is_reserved_at(strings, name);
    require(!is_reserved, pos, ObjectCause::TypesSection)?;
    require(!is_flagged(this), pos + 4, ObjectCause::TypesFlag)
}

/// The number of items with names.
pub(crate) fn named_items(this: &Record<'_>) -> usize
    ensures { result ≡ spec.named_items this.now }
{
    if has_item_names(this.kind()) {
        usize::from(this.vlen())
    } else {
        0
    }
}

/// The field that is the name_off of an item.
#[tactic(auto, using(crate::proofs::RecordLemmas::item_inside))]
pub(crate) fn item_name(this: &Record<'_>, k: usize) -> usize
    requires frame { IsFrame this.now }
    requires there { k < spec.named_items this.now }
    ensures value { result ≡ spec.item_name this.now k }
    ensures inside { result < length this.now }
{
    3 + item_words(this.kind()) * k
}

/// Checks the name of an item.
#[tactic(auto, using(crate::proofs::RecordLemmas::item_name_inside))]
fn check_item(strings: &[u8], this: &Record<'_>, pos: u64, k: usize) -> Result<(), ObjectFault>
    requires reads { ReadsRecord strings.now this.now }
    requires near { pos + 4 * length this.now < 2 ^ 64 }
    requires there { k < spec.named_items this.now }
    ensures { Checks (spec.item_rules strings.now pos this.now k) result }
{
    let j = item_name(this, k);
    let is_named = leads_to_name(strings, this.word(j));
    require(is_named, pos + 4 * j as u64, ObjectCause::TypesName)
}

/// Checks the names of the items.
fn check_items(strings: &[u8], this: &Record<'_>, pos: u64) -> Result<(), ObjectFault>
    requires reads { ReadsRecord strings.now this.now }
    requires near { pos + 4 * length this.now < 2 ^ 64 }
    ensures { Checks (each (spec.named_items this.now)
        (spec.item_rules strings.now pos this.now)) result }
{
    for k in 0..named_items(this) {
        check_item(strings, this, pos, k)?;
    }
    Ok(())
}

/// Checks a record at an offset of the file, and then its items.
pub(crate) fn check_record(strings: &[u8], this: &Record<'_>, pos: u64) -> Result<(), ObjectFault>
    requires closed { is_closed strings.now ≡ true }
    requires reads { ReadsRecord strings.now this.now }
    requires near { pos + 4 * length this.now < 2 ^ 64 }
    ensures { Checks (spec.record_rules strings.now pos this.now) result }
{
    check_head(strings, this, pos)?;
    check_items(strings, this, pos)
}
