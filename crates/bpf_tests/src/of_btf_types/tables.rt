//! Walks over the tables of files, by each call of a reader.

use crate::of_btf_types::examples::{BIG_INT, EMPTY, TAGGED};
use crate::of_btf_types::expect::{equal, holds};
use btf_types::{Btf, BtfError, BtfView, Records, TypeTable};
use std::alloc::Global;
use std::fmt::{Debug, Display};
use std::process::Abort;

/// Appends a head or an item as a line.
fn push(rt: &impl Abort, text: &mut String, mark: &impl Display, value: &impl Debug) {
    write!(text, "{mark} {value:?}\n").expect(rt, "ample memory");
}

/// The heads and items of a table, one a line.
fn shown<T: TypeTable>(rt: &impl Abort, alloc: Global, table: &T) -> String {
    let mut text = String::new(alloc);
    for i in 0..table.count() {
        let id = i + 1;
        push(rt, &mut text, &id, &table.head(id));
        for k in 0..table.item_count(id) {
            push(rt, &mut text, &" ", &table.item(id, k));
        }
    }
    text
}

/// Checks the heads and items of the table that a parser returns.
pub(crate) fn is_shown<T: TypeTable + Drop>(
    rt: &impl Abort,
    alloc: Global,
    parsed: Result<T, BtfError>,
    lines: &str,
    case: &str,
) {
    let table = parsed.expect(rt, case);
    let text = shown(rt, alloc, &table);
    equal(rt, &text.as_str(), &lines, &case);
}

/// Files, how often a walk over their records is asked for the next one, and what it returns: each head, and then nothing,
/// again and again.
#[rattlefmt::skip]
const WALKS: &[(&[u8], u32, &str)] = &[
    (TAGGED, 5, "1 KInt { name: \"int\", size: 4, encoding: Signed, offset: 0, bits: 32 }\n2 KStruct { name: \"s\", size: 8 }\n3 KDeclTag { name: \"t\", flag: false, target: 2, component: Some(1) }\n- None\n- None\n"),
    (BIG_INT, 3, "1 KInt { name: \"int\", size: 4, encoding: Signed, offset: 0, bits: 32 }\n- None\n- None\n"),
    (EMPTY, 2, "- None\n- None\n"),
];

/// What a walk over records returns, one a line.
fn walked(rt: &impl Abort, alloc: Global, records: &mut Records, calls: u32) -> String {
    let mut text = String::new(alloc);
    for _ in 0..calls {
        match records.next() {
            Some((id, head)) => push(rt, &mut text, &id, &head),
            None => push(rt, &mut text, &"-", &None::<u32>),
        }
    }
    text
}

/// Checks what it returns for the owned table of a file.
fn check_owned(rt: &impl Abort, alloc: Global, bytes: &[u8], calls: u32, walk: &str) {
    let table = Btf::parse(alloc, bytes).expect(rt, "a table");
    let text = walked(rt, alloc, &mut table.records(), calls);
    equal(rt, &text.as_str(), &walk, &"an owned table");
}

/// Checks what it returns for the borrowed table of a file.
fn check_borrowed(rt: &impl Abort, alloc: Global, bytes: &[u8], calls: u32, walk: &str) {
    let table = BtfView::parse(alloc, bytes).expect(rt, "a table");
    let text = walked(rt, alloc, &mut table.records(), calls);
    equal(rt, &text.as_str(), &walk, &"a borrowed table");
}

#[test]
fn records_is_fused(rt: HostRuntime) {
    for (bytes, calls, walk) in WALKS {
        check_owned(&rt, rt.alloc(), bytes, *calls, walk);
        check_borrowed(&rt, rt.alloc(), bytes, *calls, walk);
    }
}

/// Whether a table of one type keeps these sections.
fn keeps<T: TypeTable + Drop>(parsed: Result<T, BtfError>, types: &[u8], strings: &[u8]) -> bool {
    match parsed {
        Ok(table) => match table.sections() {
            Some(kept) => kept.types() == types && kept.strings() == strings && kept.count() == 1,
            None => false,
        },
        Err(_) => false,
    }
}

#[test]
fn sections_are_those_of_the_file(rt: HostRuntime) {
    let (types, strings) = (&BIG_INT[24..40], &BIG_INT[40..]);
    let is_kept = keeps(Btf::parse(rt.alloc(), BIG_INT), types, strings);
    holds(&rt, is_kept, &"the owned table");
    let is_kept = keeps(BtfView::parse(rt.alloc(), BIG_INT), types, strings);
    holds(&rt, is_kept, &"the borrowed table");
}
