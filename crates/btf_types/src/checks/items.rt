//! Checks the items of a record (btf.rst section 2.2): members, parameters, enum values and DATASEC
//! entries. There is a function with its own loop for each, which checks the items in file order,
//! so the kind isn't matched again for every item.

ghost use Rattle.std.specs.Prelude.{◌≡◌, IsTrue, [], ◌∷◌, length};
ghost use Rattle.btf_raw.specs.KindNumbers as kinds;
ghost use Rattle.btf_raw.specs.Kinds.{one_of, item_words, is_struct};
ghost use Rattle.btf_raw.specs.Frames.{IsFrame, kind};
ghost use Rattle.btf_types.specs.checks.RecordFaults.{FirstWithin};

use crate::checks::numbers::{bit_offset_of, member_place_fault, width_of};
use crate::checks::references::{item_name_fault, member_type_fault, named_type_fault};
use crate::checks::section::Section;
use crate::record_words::Record;
use btf_raw::{BtfCause, DATASEC, FUNC_PROTO};

/// The index of the first faulty field in the members of a STRUCT or UNION, and its cause. The size
/// of the record, and whether it has bit-fields, are determined once, before any member is checked.
/// The name, the type and the offset field of a member are checked in this order.
#[tactic(auto, using(crate::proofs::CheckLemmas::RecordSteps::members_end))]
pub fn members_fault(section: &Section, this: &Record) -> Option<(usize, BtfCause)>
    requires frame { IsFrame this.now }
    requires kind { IsTrue (is_struct (kind this.now)) }
    ensures { FirstWithin section.now this.now 3 (length this.now) result }
{
    let bit_fields = this.has_widths();
    let flag = this.kind_flag();
    let size = this.word(2);
    for k in 0..usize::from(this.vlen()) {
        let j = 3 + 3 * k;
        if let Some(cause) = item_name_fault(section, this.word(j)) {
            return Some((j, cause));
        }
        if let Some(cause) = member_type_fault(section, bit_fields, this.word(j + 1)) {
            return Some((j + 1, cause));
        }
        let offset = this.word(j + 2);
        let bit_offset = bit_offset_of(flag, offset);
        if let Some(cause) = member_place_fault(size, bit_offset, width_of(flag, offset)) {
            return Some((j + 2, cause));
        }
    }
    None
}

/// The index of the first faulty field in the parameters of a FUNC_PROTO, and its cause. The name
/// of a parameter is checked before its type.
#[tactic(auto, using(crate::proofs::CheckLemmas::RecordSteps::params_end))]
pub fn params_fault(section: &Section, this: &Record) -> Option<(usize, BtfCause)>
    requires frame { IsFrame this.now }
    requires kind { kind this.now ≡ kinds.FUNC_PROTO }
    ensures { FirstWithin section.now this.now 3 (length this.now) result }
{
    for k in 0..usize::from(this.vlen()) {
        let j = 3 + 2 * k;
        if let Some(cause) = item_name_fault(section, this.word(j)) {
            return Some((j, cause));
        }
        if let Some(cause) = named_type_fault(section, FUNC_PROTO, this.word(j + 1)) {
            return Some((j + 1, cause));
        }
    }
    None
}

/// The index of the first faulty field in the values of an ENUM or ENUM64, and its cause. Only the
/// names can be faulty. A value consists of `step` fields, and its name is the first of them.
pub fn values_fault(section: &Section, this: &Record, step: usize) -> Option<(usize, BtfCause)>
    requires frame { IsFrame this.now }
    requires kind { IsTrue (one_of (kinds.ENUM ∷ kinds.ENUM64 ∷ []) (kind this.now)) }
    requires step { step ≡ item_words (kind this.now) }
    ensures { FirstWithin section.now this.now 3 (length this.now) result }
{
    for k in 0..usize::from(this.vlen()) {
        let first = 3 + step * k;
        if let Some(cause) = item_name_fault(section, this.word(first)) {
            return Some((first, cause));
        }
    }
    None
}

/// The index of the first faulty field in the entries of a DATASEC, and its cause. Only type IDs
/// can be faulty. An entry consists of three fields, and its type ID is the first of them.
#[tactic(auto, using(crate::proofs::CheckLemmas::RecordSteps::entries_end))]
pub fn entries_fault(section: &Section, this: &Record) -> Option<(usize, BtfCause)>
    requires frame { IsFrame this.now }
    requires kind { kind this.now ≡ kinds.DATASEC }
    ensures { FirstWithin section.now this.now 3 (length this.now) result }
{
    for k in 0..usize::from(this.vlen()) {
        let target = this.word(3 + 3 * k);
        if let Some(cause) = named_type_fault(section, DATASEC, target) {
            return Some((3 + 3 * k, cause));
        }
    }
    None
}
