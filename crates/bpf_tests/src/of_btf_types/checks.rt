//! A reference checker of BTF, written only from docs/FORMATS.md and docs/FAULTS.md. It looks for all faults of a phase, and keeps
//! the first. It calls no parser: of the library it uses only the type of a fault.

mod fields;

use btf_raw::{BtfCause, BtfFault};
use fields::field_faults;
use std::alloc::Global;
use std::process::Abort;

/// What a field of a record is.
#[derive(Clone, Copy, PartialEq, Eq)]
enum Word {
    Name,
    Info,
    Size,
    Zero,
    Type,
    Int,
    Linkage,
    Component,
    Offset,
    Any,
}

/// Whether a record has a name.
#[derive(Clone, Copy, PartialEq, Eq)]
enum Naming {
    Free,
    Needed,
    Unnamed,
}

/// What a record of a kind has: its name, its size or type, kind_flag, the fields after the third, and those of each item.
struct Layout(Naming, Word, bool, &'static [Word], &'static [Word]);

const MEMBER: &[Word] = &[Word::Name, Word::Type, Word::Offset];

/// The layouts of the kinds 1 to 19.
#[rattlefmt::skip]
const LAYOUTS: &[Layout] = &[
    Layout(Naming::Free, Word::Size, false, &[Word::Int], &[]),
    Layout(Naming::Unnamed, Word::Type, false, &[], &[]),
    Layout(Naming::Unnamed, Word::Zero, false, &[Word::Type, Word::Type, Word::Any], &[]),
    Layout(Naming::Free, Word::Size, true, &[], MEMBER),
    Layout(Naming::Free, Word::Size, true, &[], MEMBER),
    Layout(Naming::Free, Word::Size, true, &[], &[Word::Name, Word::Any]),
    Layout(Naming::Needed, Word::Zero, true, &[], &[]),
    Layout(Naming::Needed, Word::Type, false, &[], &[]),
    Layout(Naming::Unnamed, Word::Type, false, &[], &[]),
    Layout(Naming::Unnamed, Word::Type, false, &[], &[]),
    Layout(Naming::Unnamed, Word::Type, false, &[], &[]),
    Layout(Naming::Needed, Word::Type, false, &[], &[]),
    Layout(Naming::Unnamed, Word::Type, false, &[], &[Word::Name, Word::Type]),
    Layout(Naming::Needed, Word::Type, false, &[Word::Linkage], &[]),
    Layout(Naming::Needed, Word::Size, false, &[], &[Word::Type, Word::Any, Word::Any]),
    Layout(Naming::Free, Word::Size, false, &[], &[]),
    Layout(Naming::Needed, Word::Type, true, &[Word::Component], &[]),
    Layout(Naming::Needed, Word::Type, true, &[], &[]),
    Layout(Naming::Free, Word::Size, true, &[], &[Word::Name, Word::Any, Word::Any]),
];

fn layout_of(kind: u32) -> Option<&'static Layout> {
    LAYOUTS.get(kind.checked_sub(1)? as usize)
}

/// The first fault of a phase: the least by its cause, or by its offset and then by its cause.
#[derive(Clone, Copy)]
struct Faults {
    by_offset: bool,
    first: Option<BtfFault>,
}

impl Faults {
    fn new(by_offset: bool) -> Faults {
        Faults {
            by_offset,
            first: None,
        }
    }

    /// Whether a fault comes before the first of the earlier ones.
    fn is_before(&self, pos: u64, cause: BtfCause) -> bool {
        match self.first {
            Some(first) if self.by_offset && first.pos != pos => pos < first.pos,
            Some(first) => (cause as u8) < first.cause as u8,
            None => true,
        }
    }

    /// Notes a fault if it holds.
    fn note(&mut self, holds: bool, pos: u64, cause: BtfCause) {
        if holds && self.is_before(pos, cause) {
            self.first = Some(BtfFault { pos, cause });
        }
    }

    /// Notes those of several faults that hold.
    fn note_each(&mut self, rows: &[(bool, u64, BtfCause)]) {
        for (holds, pos, cause) in rows {
            self.note(*holds, *pos, *cause);
        }
    }
}

/// The word at an offset.
fn word_at(bytes: &[u8], big: bool, pos: usize) -> Option<u32> {
    let mut word = 0_u32;
    for byte in bytes.get(pos..)?.get(..4)? {
        word = if big {
            word << 8 | u32::from(*byte)
        } else {
            word >> 8 | u32::from(*byte) << 24
        };
    }
    Some(word)
}

/// A record, from its first byte to the end of its section, and its offset in the file.
#[derive(Clone, Copy)]
struct Record<'a> {
    big: bool,
    pos: u64,
    bytes: &'a [u8],
}

impl<'a> Record<'a> {
    fn word(self, j: usize) -> u32 {
        word_at(self.bytes, self.big, j.saturating_mul(4)).unwrap_or(0)
    }

    fn kind(self) -> u32 {
        self.word(1) >> 24 & 0x1f
    }

    fn flag(self) -> bool {
        self.word(1) >> 31 == 1
    }

    fn vlen(self) -> u32 {
        self.word(1) & 0xffff
    }

    /// The offset of field j in the file.
    fn offset_of(self, j: usize) -> u64 {
        self.pos.saturating_add((j as u64).saturating_mul(4))
    }

    /// How many fields it has.
    fn len(self) -> usize {
        match layout_of(self.kind()) {
            Some(Layout(_, _, _, words, item)) => item
                .len()
                .saturating_mul(self.vlen() as usize)
                .saturating_add(words.len())
                .saturating_add(3),
            None => 3,
        }
    }

    /// What field j is.
    fn role(self, j: usize) -> Word {
        let Some(Layout(_, third, _, words, item)) = layout_of(self.kind()) else {
            return Word::Any;
        };
        let after = j.saturating_sub(3);
        match (j, item.len()) {
            (0, _) => Word::Name,
            (1, _) => Word::Info,
            (2, _) => *third,
            (_, 0) => words.get(after).copied().unwrap_or(Word::Any),
            (_, len) => item.get(after % len).copied().unwrap_or(Word::Any),
        }
    }

    fn width(self, j: usize) -> u32 {
        if self.flag() { self.word(j) >> 24 } else { 0 }
    }

    fn bit_offset(self, j: usize) -> u32 {
        if self.flag() {
            self.word(j) & 0xff_ffff
        } else {
            self.word(j)
        }
    }

    /// Whether it is a STRUCT or UNION in which some width isn't 0.
    fn has_bit_fields(self) -> bool {
        for j in 3..self.len() {
            if self.role(j) == Word::Offset && self.width(j) != 0 {
                return true;
            }
        }
        false
    }
}

/// A file with a valid header.
#[derive(Clone, Copy)]
struct Sections<'a> {
    big: bool,
    types_pos: u64,
    types: &'a [u8],
    strings_pos: u64,
    strings: &'a [u8],
}

/// The first byte from 24 to the end of the header that isn't 0.
fn suffix_byte(bytes: &[u8], header_len: u64) -> Option<u64> {
    for (pos, byte) in bytes.iter().enumerate() {
        if pos >= 24 && (pos as u64) < header_len && *byte != 0 {
            return Some(pos as u64);
        }
    }
    None
}

/// A number of the header.
fn number(bytes: &[u8], big: bool, pos: usize) -> u64 {
    u64::from(word_at(bytes, big, pos).unwrap_or(0))
}

/// Whether the types come first and the strings right after them, or the other way round.
fn are_adjacent(types: (u64, u64), strings: (u64, u64)) -> bool {
    let types_first = types.0 == 0 && strings.0 == types.1;
    let strings_first = strings.0 == 0 && types.0 == strings.1;
    types_first || strings_first
}

/// The faults of the numbers of a header with at least 24 bytes.
fn number_faults(faults: &mut Faults, bytes: &[u8], big: bool) {
    let len = bytes.len() as u64;
    let header = number(bytes, big, 4);
    let types = (number(bytes, big, 8), number(bytes, big, 12));
    let strings = (number(bytes, big, 16), number(bytes, big, 20));
    let end = header.saturating_add(types.1).saturating_add(strings.1);
    let tail = suffix_byte(bytes, header);
    let header_fits = header >= 24 && header <= len.min(4096);
    let strings_fit = strings.1 >= 1 && strings.1 <= 16_777_216;
    faults.note_each(&[
        (bytes.get(2).copied() != Some(1), 2, BtfCause::Version),
        (bytes.get(3).copied() != Some(0), 3, BtfCause::Flags),
        (!header_fits, 4, BtfCause::HeaderLength),
        (tail.is_some(), tail.unwrap_or(0), BtfCause::HeaderTail),
        (types.1 > 33_554_432, 12, BtfCause::TypeLength),
        (!strings_fit, 20, BtfCause::StringLength),
        (!are_adjacent(types, strings), 8, BtfCause::Sections),
        (end != len, end.min(len), BtfCause::FileLength),
    ]);
}

fn header_faults(faults: &mut Faults, bytes: &[u8]) {
    let len = bytes.len() as u64;
    let big = bytes.starts_with(b"\xeb\x9f");
    let has_magic = big || bytes.starts_with(b"\x9f\xeb");
    faults.note(len < 24, len, BtfCause::ShortHeader);
    faults.note(!has_magic, 0, BtfCause::Magic);
    if len >= 24 && has_magic {
        number_faults(faults, bytes, big);
    }
}

/// The bytes of a section.
fn section(bytes: &[u8], pos: u64, len: u64) -> Option<&[u8]> {
    bytes.get(pos as usize..)?.get(..len as usize)
}

/// The sections of a file with a valid header.
fn sections_of(bytes: &[u8]) -> Option<Sections<'_>> {
    let big = bytes.starts_with(b"\xeb\x9f");
    let header = number(bytes, big, 4);
    let types_pos = header.saturating_add(number(bytes, big, 8));
    let strings_pos = header.saturating_add(number(bytes, big, 16));
    let types = section(bytes, types_pos, number(bytes, big, 12))?;
    let strings = section(bytes, strings_pos, number(bytes, big, 20))?;
    Some(Sections {
        big,
        types_pos,
        types,
        strings_pos,
        strings,
    })
}

fn string_faults(faults: &mut Faults, file: Sections) {
    let first = file.strings_pos;
    let last = first.saturating_add(file.strings.len().saturating_sub(1) as u64);
    let begins = file.strings.starts_with(b"\0");
    let ends = file.strings.ends_with(b"\0");
    faults.note_each(&[
        (!begins, first, BtfCause::FirstString),
        (!ends, last, BtfCause::LastString),
    ]);
}

/// Whether a kind exists, may have kind_flag 1, and may have a vlen. A kind that doesn't exist has no fault but that.
fn allowed(kind: u32) -> (bool, bool, bool) {
    match layout_of(kind) {
        Some(Layout(_, _, has_flag, _, item)) => (true, *has_flag, !item.is_empty() || kind == 12),
        None => (false, true, true),
    }
}

/// The faults of a record's second field, and of its length.
fn info_faults(faults: &mut Faults, record: Record) {
    let (info, at) = (record.word(1), record.offset_of(1));
    let (is_kind, has_flag, has_vlen) = allowed(record.kind());
    let len = record.bytes.len();
    let is_cut = len >= 12 && len < record.len().saturating_mul(4);
    faults.note_each(&[
        (info & 0x60ff_0000 != 0, at, BtfCause::InfoBits),
        (!is_kind, at, BtfCause::KindNumber),
        (record.flag() && !has_flag, at, BtfCause::FlagSet),
        (record.vlen() != 0 && !has_vlen, at, BtfCause::Vlen),
        (is_cut, record.offset_of(3), BtfCause::TailCut),
    ]);
}

/// The faults of a record's frame.
fn frame_faults(faults: &mut Faults, record: Record) {
    let len = record.bytes.len();
    faults.note(len < 12, record.offset_of(0), BtfCause::RecordCut);
    if len >= 8 {
        info_faults(faults, record);
    }
}

/// The record that begins where these last bytes of the types do.
fn record_of<'a>(file: Sections<'a>, rest: &'a [u8]) -> Record<'a> {
    let before = file.types.len().saturating_sub(rest.len()) as u64;
    Record {
        big: file.big,
        pos: file.types_pos.saturating_add(before),
        bytes: rest,
    }
}

/// The records up to the first whose frame has a fault; these faults are noted.
fn frames<'a>(
    rt: &impl Abort,
    faults: &mut Faults,
    alloc: Global,
    file: Sections<'a>,
) -> Vec<Record<'a>> {
    let mut records = Vec::new(alloc);
    let mut rest = file.types;
    for _ in 0..file.types.len() {
        if rest.is_empty() || faults.first.is_some() {
            break;
        }
        let record = record_of(file, rest);
        frame_faults(faults, record);
        rest = rest.get(record.len().saturating_mul(4)..).unwrap_or(&[]);
        records.push(record).expect(rt, "ample memory");
    }
    records
}

/// The first fault of the header and the strings, or the sections.
fn opened(bytes: &[u8]) -> Result<Sections<'_>, Option<BtfFault>> {
    let mut faults = Faults::new(false);
    header_faults(&mut faults, bytes);
    let Some(file) = sections_of(bytes) else {
        return Err(faults.first);
    };
    if faults.first.is_none() {
        string_faults(&mut faults, file);
    }
    if faults.first.is_some() {
        return Err(faults.first);
    }
    Ok(file)
}

/// The first fault of a file, if it has one.
pub(crate) fn first_fault(rt: &impl Abort, alloc: Global, bytes: &[u8]) -> Option<BtfFault> {
    let file = match opened(bytes) {
        Ok(file) => file,
        Err(fault) => return fault,
    };
    let mut faults = Faults::new(true);
    let records = frames(rt, &mut faults, alloc, file);
    if faults.first.is_none() {
        field_faults(&mut faults, file.strings, &records);
    }
    faults.first
}
