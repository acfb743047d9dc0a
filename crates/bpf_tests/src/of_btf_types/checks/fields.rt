//! The part of the reference checker for the fields of records.

use super::{Faults, Layout, Naming, Record, Word, layout_of};
use btf_raw::BtfCause;

/// What other fields are checked against: the strings, and all records.
#[derive(Clone, Copy)]
struct Types<'a> {
    strings: &'a [u8],
    records: &'a [Record<'a>],
}

impl<'a> Types<'a> {
    /// The record that an id names.
    fn named(self, id: u32) -> Option<Record<'a>> {
        self.records.get((id as usize).checked_sub(1)?).copied()
    }

    fn kind(self, id: u32) -> u32 {
        match self.named(id) {
            Some(record) => record.kind(),
            None => 0,
        }
    }

    /// The text at an offset of the strings.
    fn text(self, off: u32) -> Option<&'a [u8]> {
        let rest = self.strings.get(off as usize..)?;
        if rest.is_empty() {
            return None;
        }
        rest.split(|byte| *byte == 0).next()
    }
}

/// Whether field j of a record is a name that has to be there, or that may not be.
fn naming_of(record: Record, j: usize) -> Naming {
    match layout_of(record.kind()) {
        Some(Layout(naming, _, _, _, _)) if j == 0 => *naming,
        _ => Naming::Free,
    }
}

fn name_faults(faults: &mut Faults, types: Types, record: Record, j: usize) {
    let at = record.offset_of(j);
    let Some(text) = types.text(record.word(j)) else {
        faults.note(true, at, BtfCause::NameRange);
        return;
    };
    let (naming, is_empty) = (naming_of(record, j), text.is_empty());
    let is_utf8 = std::str::from_utf8(text).is_ok();
    let is_missing = naming == Naming::Needed && is_empty;
    let is_unwanted = naming == Naming::Unnamed && !is_empty;
    faults.note_each(&[
        (!is_utf8, at, BtfCause::NameUtf8),
        (is_missing, at, BtfCause::NameMissing),
        (is_unwanted, at, BtfCause::NameUnwanted),
    ]);
}

/// Whether a type is an INT that no member of a record with bit-fields may have.
fn is_odd_int(types: Types, id: u32) -> bool {
    let Some(int) = types.named(id) else {
        return false;
    };
    let (offset, bits) = (int.word(3) >> 16 & 0xff, int.word(3) & 0xff);
    int.kind() == 1 && (offset != 0 || !matches!(bits, 8 | 16 | 32 | 64 | 128))
}

/// Whether a member has such a type next to bit-fields.
fn member_is_odd(types: Types, record: Record, id: u32) -> bool {
    matches!(record.kind(), 4 | 5) && record.has_bit_fields() && is_odd_int(types, id)
}

/// Whether a record of one kind names a type of another that it may not name.
fn target_is_wrong(kind: u32, target: u32) -> bool {
    match kind {
        12 => target != 13,
        15 => !matches!(target, 12 | 14),
        17 => !matches!(target, 4 | 5 | 8 | 12 | 14),
        _ => false,
    }
}

fn type_faults(faults: &mut Faults, types: Types, record: Record, j: usize) {
    let (id, at) = (record.word(j), record.offset_of(j));
    let is_beyond = id as usize > types.records.len();
    let is_wrong = target_is_wrong(record.kind(), types.kind(id));
    let is_odd = member_is_odd(types, record, id);
    faults.note_each(&[
        (is_beyond, at, BtfCause::Reference),
        (!is_beyond && is_wrong, at, BtfCause::TargetKind),
        (is_odd, at, BtfCause::MemberInt),
    ]);
}

fn size_is_wrong(record: Record) -> bool {
    let size = record.word(2);
    match record.kind() {
        6 | 19 => !matches!(size, 1 | 2 | 4 | 8) && (size != 0 || record.vlen() != 0),
        16 => !matches!(size, 2 | 4 | 8 | 12 | 16),
        _ => false,
    }
}

fn int_is_wrong(record: Record) -> bool {
    let word = record.word(3);
    let bits = u64::from(word & 0xff);
    word & 0xf000_ff00 != 0
        || !matches!(word >> 24 & 0xf, 0 | 1 | 2 | 4)
        || bits > 128
        || bits > u64::from(record.word(2)).saturating_mul(8)
}

/// Whether a member ends past its record.
fn member_is_out(record: Record, j: usize) -> bool {
    let bits = u64::from(record.bit_offset(j)).saturating_add(u64::from(record.width(j)));
    bits > u64::from(record.word(2)).saturating_mul(8)
}

/// Whether the type of a DECL_TAG has no such component. -1 is none.
fn component_is_wrong(types: Types, record: Record) -> bool {
    let component = record.word(3);
    let Some(target) = types.named(record.word(2)) else {
        return false;
    };
    if component == 0xffff_ffff {
        return false;
    }
    match target.kind() {
        8 | 14 => true,
        4 | 5 => component >= target.vlen(),
        12 => match types.named(target.word(2)) {
            Some(proto) => proto.kind() == 13 && component >= proto.vlen(),
            None => false,
        },
        _ => false,
    }
}

/// The faults of field j of a record.
fn word_faults(faults: &mut Faults, types: Types, record: Record, j: usize) {
    let word = record.word(j);
    let (is_wrong, cause) = match record.role(j) {
        Word::Name => return name_faults(faults, types, record, j),
        Word::Type => return type_faults(faults, types, record, j),
        Word::Info => (record.kind() == 12 && record.vlen() > 2, BtfCause::Linkage),
        Word::Size => (size_is_wrong(record), BtfCause::Size),
        Word::Zero => (word != 0, BtfCause::NotZero),
        Word::Int => (int_is_wrong(record), BtfCause::IntWord),
        Word::Linkage => (word > 2, BtfCause::Linkage),
        Word::Component => (component_is_wrong(types, record), BtfCause::Component),
        Word::Offset => (member_is_out(record, j), BtfCause::MemberPlace),
        Word::Any => return,
    };
    faults.note(is_wrong, record.offset_of(j), cause);
}

/// The faults of the fields of all records.
pub(crate) fn field_faults(faults: &mut Faults, strings: &[u8], records: &[Record]) {
    let types = Types { strings, records };
    for record in records {
        for j in 0..record.len() {
            word_faults(faults, types, *record, j);
        }
    }
}
