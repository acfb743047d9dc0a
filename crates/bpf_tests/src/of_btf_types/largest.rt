//! Names and sections as long as the limits allow, and files of several thousand names in each other.

use crate::of_btf_types::expect::equal;
use crate::of_btf_types::{change, check_parsers, file};
use btf_raw::{BtfCause, BtfFault};
use btf_types::{Btf, BtfError, BtfView, Head, TypeTable};
use std::alloc::Global;
use std::process::Abort;

/// A string section: NUL, a number of `a`, and these bytes.
fn letters(rt: &impl Abort, alloc: Global, len: usize, end: &[u8]) -> Vec<u8> {
    let mut strings = Vec::from_slice(alloc, b"\0").expect(rt, "ample memory");
    let len = len.saturating_add(1);
    strings.resize(len, b'a').expect(rt, "ample memory");
    strings.extend_from_slice(end).expect(rt, "ample memory");
    strings
}

/// TYPEDEFs of void, named at the offsets 1, 2 and on.
fn typedefs(rt: &impl Abort, alloc: Global, count: u32) -> Vec<u8> {
    let mut records = Vec::new(alloc);
    for i in 0..count {
        let name = i.saturating_add(1).to_le_bytes();
        records.extend_from_slice(&name).expect(rt, "ample memory");
        let rest = b"\0\0\0\x08\0\0\0\0";
        records.extend_from_slice(rest).expect(rt, "ample memory");
    }
    records
}

/// A number of TYPEDEFs, the number of letters of the first name, the file's length, and its first fault.
struct Nested(u32, usize, usize, Option<BtfFault>);

#[rattlefmt::skip]
const NESTED: &[Nested] = &[
    Nested(1, 16_777_214, 16_777_252, None),
    Nested(2, 16_777_214, 16_777_264, None),
    Nested(1, 16_777_215, 16_777_253, Some(BtfFault { pos: 20, cause: BtfCause::StringLength })),
    Nested(5791, 5791, 75_309, None),
    Nested(5792, 5792, 75_322, None),
];

/// The length of a record's own name.
fn name_len<T: TypeTable>(table: &T, id: u32) -> usize {
    if id == 0 || id > table.count() {
        return 0;
    }
    match table.head(id) {
        Head::KTypedef { name, .. } => name.len(),
        _ => 0,
    }
}

/// The number of records in a table, and the lengths of the names of the first TYPEDEF and of the last.
type Ends = (u32, usize, usize);

fn ends<T: TypeTable + Drop>(parsed: Result<T, BtfError>) -> Option<Ends> {
    match parsed {
        Ok(table) => {
            let count = table.count();
            Some((count, name_len(&table, 1), name_len(&table, count)))
        }
        Err(_) => None,
    }
}

/// Checks these of both tables of a file.
fn has_ends(rt: &impl Abort, alloc: Global, bytes: &[u8], wanted: Ends) {
    let owned = ends(Btf::parse(alloc, bytes));
    equal(rt, &owned, &Some(wanted), &"the owned table");
    let borrowed = ends(BtfView::parse(alloc, bytes));
    equal(rt, &borrowed, &Some(wanted), &"the borrowed table");
}

impl Nested {
    fn file(&self, rt: &impl Abort, alloc: Global) -> Vec<u8> {
        let strings = letters(rt, alloc, self.1, b"\0");
        file(rt, alloc, &typedefs(rt, alloc, self.0), &strings)
    }

    fn check(&self, rt: &impl Abort, alloc: Global, bytes: &[u8]) {
        let Nested(count, len, file_len, fault) = self;
        equal(rt, &bytes.len(), file_len, count);
        check_parsers(rt, alloc, bytes, *fault, count);
        if fault.is_none() {
            let last = len.saturating_sub(*count as usize).saturating_add(1);
            has_ends(rt, alloc, bytes, (*count, *len, last));
        }
    }
}

#[test]
fn nested_names_are_accepted(rt: HostRuntime) {
    for row in NESTED {
        row.check(&rt, rt.alloc(), &row.file(&rt, rt.alloc()));
    }
}

/// The file of the most records that a type section holds: an ENUM with a value, and PTRs of it.
fn most_records(rt: &impl Abort, alloc: Global) -> Vec<u8> {
    let head = b"\0\0\0\0\x01\0\0\x06\x04\0\0\0\0\0\0\0\0\0\0\0";
    let mut records = Vec::from_slice(alloc, head).expect(rt, "ample memory");
    for _ in 0..2_796_201 {
        let pointer = b"\0\0\0\0\0\0\0\x02\x01\0\0\0";
        records
            .extend_from_slice(pointer)
            .expect(rt, "ample memory");
    }
    file(rt, alloc, &records, b"\0")
}

/// Bytes that are changed in that file besides the earlier ones, and the first fault.
struct Longest(&'static [(usize, u8)], Option<BtfFault>);

#[rattlefmt::skip]
const LONGEST: &[Longest] = &[
    Longest(&[], None),
    // the type of the last PTR
    Longest(&[(33_554_452, 0xab), (33_554_453, 0xaa), (33_554_454, 0x2a)], Some(BtfFault { pos: 33_554_452, cause: BtfCause::Reference })),
    // its kind
    Longest(&[(33_554_451, 20)], Some(BtfFault { pos: 33_554_448, cause: BtfCause::KindNumber })),
    // a type section that is a byte longer, with the byte of the strings
    Longest(&[(12, 1)], Some(BtfFault { pos: 12, cause: BtfCause::TypeLength })),
];

/// Checks the file with each of these changes.
fn check_longest(rt: &impl Abort, alloc: Global, bytes: &mut [u8]) {
    for Longest(edits, fault) in LONGEST {
        change(bytes, edits);
        check_parsers(rt, alloc, bytes, *fault, edits);
    }
}

#[test]
fn type_sections_up_to_the_limit_are_accepted(rt: HostRuntime) {
    let mut bytes = most_records(&rt, rt.alloc());
    equal(&rt, &bytes.len(), &33_554_457, &"the file");
    has_ends(&rt, rt.alloc(), &bytes, (2_796_202, 0, 0));
    check_longest(&rt, rt.alloc(), &mut bytes);
}

/// ENUMs with the largest number of values, 65,535, all of the same name.
fn full_enums(rt: &impl Abort, alloc: Global, count: u32) -> Vec<u8> {
    let mut records = Vec::new(alloc);
    for _ in 0..count {
        let head = b"\0\0\0\0\xff\xff\0\x06\x04\0\0\0";
        records.extend_from_slice(head).expect(rt, "ample memory");
        for _ in 0..65_535 {
            let value = b"\x01\0\0\0\0\0\0\0";
            records.extend_from_slice(value).expect(rt, "ample memory");
        }
    }
    records
}

/// Half a million values have the same name of a million bytes, next to a string that isn't UTF-8.
#[test]
fn many_uses_of_a_long_name_are_accepted(rt: HostRuntime) {
    let records = full_enums(&rt, rt.alloc(), 8);
    let strings = letters(&rt, rt.alloc(), 1_000_000, b"\0\xff\0");
    let bytes = file(&rt, rt.alloc(), &records, &strings);
    check_parsers(&rt, rt.alloc(), &bytes, None, &"the file");
}
