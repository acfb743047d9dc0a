//! Checks of a record's first three fields (btf.rst section 2.2), and of the names and types to which
//! these and its other fields refer: they exist, and fit. A type is read only if its kind or size
//! matters.

ghost use Rattle.std.specs.Prelude.{◌≡◌, ◌↔◌, ◌<◌, ℕ, List, IsTrue, IsUtf8, length};
ghost use Rattle.btf_raw.specs.{Frames.IsFrame, Names.TextAt};
ghost use Rattle.btf_raw.specs.Kinds as kinds;
ghost use Rattle.btf_types.specs.{checks.Numbers.type_at, Sections.facts_in};
ghost use Rattle.btf_types.specs.checks.NameFaults as faults;
ghost use Rattle.btf_types.specs.checks.Numbers as spec;
ghost use Rattle.btf_types.specs.checks.{RecordFaults.FirstWithin, Texts.HasMarks};

use crate::checks::section::Section;
use crate::checks::utf8::begins_char;
use crate::record_words::Record;
use crate::values::Linkage;
use btf_raw::info::{Naming, Third, layout_of};
use btf_raw::{
    BtfCause, DATASEC, DECL_TAG, ENUM, ENUM64, FLOAT, FUNC, FUNC_PROTO, INT, STRUCT, TYPEDEF,
    UNION, VAR,
};

/// Whether the string at offset `off` of a section is UTF-8. `marks` are those of the section.
fn is_utf8(strings: &[u8], marks: Option<&[bool]>, off: usize) -> bool
    requires marks { HasMarks strings.now marks }
    requires there { off < length strings.now }
    ensures { (text : List ℕ) → TextAt strings.now off text → (IsTrue result ↔ IsUtf8 text) }
{
    match marks {
        None => begins_char(strings[off]),
        Some(marks) => marks[off],
    }
}

/// Checks the name field of an item: its offset must be within the string section, and the string
/// at this offset must be UTF-8.
#[inline(always)]
pub fn item_name_fault(section: &Section, off: u32) -> Option<BtfCause>
    ensures { spec.IsLeastOf (faults.ItemNameFault section.now.strings off) result }
{
    let strings = section.strings;
    let off = off as usize;
    if off >= strings.len() {
        return Some(BtfCause::NameRange);
    }
    if !is_utf8(strings, section.marks, off) {
        return Some(BtfCause::NameUtf8);
    }
    None
}

/// Checks a record's own name field: first like that of an item, then whether a name is missing or
/// not allowed. `name` is what the row of the record's kind says.
#[tactic(auto, using(crate::proofs::CheckLemmas::NameSteps::item_to_name))]
fn name_fault(section: &Section, name: Naming, off: u32) -> Option<BtfCause>
    ensures { (kind : ℕ) → (kinds.layout_of kind).name ≡ name
        → spec.IsLeastOf (faults.NameFault section.now.strings kind off) result }
{
    if let Some(cause) = item_name_fault(section, off) {
        return Some(cause);
    }
    let empty = section.strings[off as usize] == 0;
    match name {
        Naming::Needed => empty.then_some(BtfCause::NameMissing),
        Naming::Unnamed => (!empty).then_some(BtfCause::NameUnwanted),
        Naming::Free => None,
    }
}

/// Checks the linkage of a FUNC, which is stored in its vlen.
fn second_fault(kind: u8, vlen: u16) -> Option<BtfCause>
    ensures { spec.IsLeastOf (spec.SecondFault kind vlen) result }
{
    (kind == FUNC && Linkage::from_number(u32::from(vlen)).is_none()).then_some(BtfCause::Linkage)
}

/// Whether a record of this kind may have this size in bytes. `count` is its number of values, for
/// an ENUM or ENUM64. Any size fits a kind other than ENUM, ENUM64 and FLOAT.
#[tactic(auto, unfolding(crate::specs::checks::Numbers::size_fits))]
fn size_fits(kind: u8, size: u32, count: u16) -> bool
    ensures { result ≡ spec.size_fits kind size count }
{
    match kind {
        ENUM | ENUM64 => matches!(size, 1 | 2 | 4 | 8) || (size == 0 && count == 0),
        FLOAT => matches!(size, 2 | 4 | 8 | 12 | 16),
        _ => true,
    }
}

/// Whether a record of this kind may refer to the type with the ID `target`.
#[tactic(auto, unfolding(crate::specs::checks::Numbers::target_fits))]
#[inline(always)]
fn named_kind_fits(section: &Section, kind: u8, target: u32) -> bool
    ensures { result ≡ spec.target_fits kind (type_at (facts_in section.now) target).kind }
{
    if !matches!(kind, FUNC | DATASEC | DECL_TAG) {
        return true;
    }
    let target = section.record(target).map_or(0, |this| this.kind());
    match kind {
        FUNC => target == FUNC_PROTO,
        DATASEC => matches!(target, VAR | FUNC),
        _ => matches!(target, STRUCT | UNION | FUNC | VAR | TYPEDEF),
    }
}

/// Checks the size or type field of a record. `field` is what the row of its kind says of it: a
/// size, a type ID, or 0.
fn third_fault(section: &Section, kind: u8, field: Third, third: u32, vlen: u16) -> Option<BtfCause>
    requires kind { IsTrue (kinds.is_kind kind) }
    requires field { field ≡ (kinds.layout_of kind).third }
    ensures { spec.IsLeastOf (spec.ThirdFault kind third vlen (length (facts_in section.now))
        (type_at (facts_in section.now) third).kind) result }
{
    match field {
        Third::Zero => (third != 0).then_some(BtfCause::NotZero),
        Third::Size => (!size_fits(kind, third, vlen)).then_some(BtfCause::Size),
        Third::TypeId => named_type_fault(section, kind, third),
    }
}

/// The index of the first faulty field among a record's first three, and its cause.
pub fn first_words_fault(section: &Section, this: &Record) -> Option<(usize, BtfCause)>
    requires { IsFrame this.now }
    ensures { FirstWithin section.now this.now 0 3 result }
{
    let kind = this.kind();
    let vlen = this.vlen();
    let layout = layout_of(kind);
    if let Some(cause) = name_fault(section, layout.name, this.word(0)) {
        return Some((0, cause));
    }
    if let Some(cause) = second_fault(kind, vlen) {
        return Some((1, cause));
    }
    third_fault(section, kind, layout.third, this.word(2), vlen).map(|cause| (2, cause))
}

/// Checks a type ID: whether the type exists, and whether the record may refer to it.
#[inline(always)]
pub fn named_type_fault(section: &Section, kind: u8, target: u32) -> Option<BtfCause>
    ensures { spec.IsLeastOf (faults.NamedTypeFault (facts_in section.now) kind target) result }
{
    if target as usize > section.offsets.len() {
        return Some(BtfCause::Reference);
    }
    (!named_kind_fits(section, kind, target)).then_some(BtfCause::TargetKind)
}

/// Whether a member may have this type if its record has bit-fields: it isn't an INT, or it is an
/// INT with offset 0 and 8, 16, 32, 64 or 128 bits.
#[tactic(auto, using(crate::proofs::CheckLemmas::SectionSteps::int_has_word))]
fn member_int_fits(section: &Section, target: u32) -> bool
    ensures { result ≡ spec.member_int_fits (facts_in section.now) target }
{
    match section.record(target) {
        Some(this) if this.kind() == INT => {
            let data = this.word(3);
            data >> 16 & 0xff == 0 && matches!(data & 0xff, 8 | 16 | 32 | 64 | 128)
        }
        _ => true,
    }
}

/// Checks the type of a member. `bit_fields` is whether its record has bit-fields.
pub fn member_type_fault(section: &Section, bit_fields: bool, target: u32) -> Option<BtfCause>
    ensures { spec.IsLeastOf
        (faults.MemberTypeFault (facts_in section.now) bit_fields target) result }
{
    if target as usize > section.offsets.len() {
        return Some(BtfCause::Reference);
    }
    (bit_fields && !member_int_fits(section, target)).then_some(BtfCause::MemberInt)
}

/// Whether a type has a component with this index: a member of a STRUCT or UNION, or a parameter of
/// the FUNC_PROTO of a FUNC.
#[tactic(auto, unfolding(crate::specs::checks::Numbers::component_fits))]
fn component_fits(section: &Section, target: u32, component: u32) -> bool
    ensures { result ≡ spec.component_fits (facts_in section.now) target component }
{
    let Some(this) = section.record(target) else {
        return true;
    };
    match this.kind() {
        STRUCT | UNION => component < u32::from(this.vlen()),
        FUNC => match section.record(this.word(2)) {
            Some(proto) if proto.kind() == FUNC_PROTO => component < u32::from(proto.vlen()),
            _ => true,
        },
        VAR | TYPEDEF => false,
        _ => true,
    }
}

/// Checks the component_idx of a DECL_TAG that refers to this type. The field is read as unsigned,
/// so -1, which stands for the complete type, is the largest number.
pub fn component_fault(section: &Section, target: u32, word: u32) -> Option<BtfCause>
    ensures { spec.IsLeastOf (faults.ComponentFault (facts_in section.now) target word) result }
{
    (word != u32::MAX && !component_fits(section, target, word)).then_some(BtfCause::Component)
}
