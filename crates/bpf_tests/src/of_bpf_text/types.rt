//! The listing of each kind of type, through both tables and in parts.

use super::equal;
use bpf_text::{
    append_head, append_head_end, append_head_start, append_item, append_item_end,
    append_item_start, append_quoted_part, is_signed, show_btf,
};
use bpf_words::{Order, push32};
use btf_types::{Btf, BtfError, BtfView, Head, Item, TypeTable};
use std::alloc::{AllocError, Global};
use std::process::Abort;
use std::test::Fail;

mod kinds;

/// The 32-bit fields of a file's records, its string section and its listing.
#[derive(Clone, Copy)]
pub(super) struct KindRow {
    pub(super) words: &'static [u32],
    pub(super) strings: &'static [u8],
    pub(super) text: &'static [u8],
}

/// Appends 32-bit numbers.
fn push_words(bytes: &mut Vec<u8>, order: Order, words: &[u32]) -> Result<(), AllocError> {
    for word in words {
        push32(bytes, order, *word)?;
    }
    Ok(())
}

/// The file of a row.
pub(super) fn file(alloc: Global, order: Order, row: &KindRow) -> Result<Vec<u8>, AllocError> {
    let types_len = u32::try_from(row.words.len())
        .unwrap_or_default()
        .saturating_mul(4);
    let strings_len = u32::try_from(row.strings.len()).unwrap_or_default();
    let magic = match order {
        Order::Little => b"\x9f\xeb\x01\0",
        Order::Big => b"\xeb\x9f\x01\0",
    };
    let mut bytes = Vec::from_slice(alloc, magic)?;
    let header = [24, 0, types_len, types_len, strings_len];
    push_words(&mut bytes, order, &header)?;
    push_words(&mut bytes, order, row.words)?;
    bytes.extend_from_slice(row.strings)?;
    Ok(bytes)
}

/// Appends a name in two parts.
fn append_name(text: &mut Vec<u8>, name: &str) -> Result<(), AllocError> {
    let (first, rest) = name.as_bytes().split_at(name.len() / 2);
    append_quoted_part(text, first)?;
    append_quoted_part(text, rest)
}

/// Appends the line of a head, at once or in its parts.
fn push_head(
    text: &mut Vec<u8>,
    (id, head): (u32, Head<'_>),
    count: u32,
    in_parts: bool,
) -> Result<(), AllocError> {
    if !in_parts {
        return append_head(text, id, head, count);
    }
    append_head_start(text, id, head)?;
    append_name(text, head.name())?;
    append_head_end(text, head, count)
}

/// Appends the line of an item, at once or in its parts.
fn push_item(
    text: &mut Vec<u8>,
    item: Item<'_>,
    signed: bool,
    in_parts: bool,
) -> Result<(), AllocError> {
    if !in_parts {
        return append_item(text, item, signed);
    }
    append_item_start(text, item)?;
    append_name(text, item.name())?;
    append_item_end(text, item, signed)
}

/// The listing of a table, each line at once or in its parts.
fn lines<T: TypeTable>(alloc: Global, table: &T, in_parts: bool) -> Result<Vec<u8>, AllocError> {
    let mut text = Vec::new(alloc);
    for index in 0..table.count() {
        let id = index + 1;
        let (head, count) = (table.head(id), table.item_count(id));
        push_head(&mut text, (id, head), count, in_parts)?;
        for k in 0..count {
            push_item(&mut text, table.item(id, k), is_signed(head), in_parts)?;
        }
    }
    Ok(text)
}

/// Whether a listing is this text.
fn is_text(text: Vec<u8>, wanted: &[u8]) -> bool {
    text.as_slice() == wanted
}

/// Whether every call shows a table by this listing.
fn has_listing<T: TypeTable + Drop>(
    alloc: Global,
    parsed: Result<T, BtfError>,
    text: &[u8],
) -> Result<bool, BtfError> {
    let table = parsed?;
    Ok(
        is_text(show_btf(alloc, &table)?, text)
            && is_text(lines(alloc, &table, false)?, text)
            && is_text(lines(alloc, &table, true)?, text),
    )
}

/// Whether both tables of a file have this listing.
fn is_shown(alloc: Global, bytes: &[u8], text: &[u8]) -> Result<bool, BtfError> {
    Ok(
        has_listing(alloc, Btf::parse(alloc, bytes), text)?
            && has_listing(alloc, BtfView::parse(alloc, bytes), text)?,
    )
}

impl KindRow {
    fn check(&self, rt: &impl Abort, alloc: Global, order: Order) -> Result<(), BtfError> {
        let bytes = file(alloc, order, self)?;
        let is_shown = is_shown(alloc, &bytes, self.text)?;
        equal(rt, &is_shown, &true, &self.words);
        Ok(())
    }
}

/// Checks that each row is shown, in both byte orders.
fn check_kinds(rt: &impl Abort, alloc: Global, rows: &[KindRow]) -> Result<(), BtfError> {
    for row in rows {
        row.check(rt, alloc, Order::Little)?;
        row.check(rt, alloc, Order::Big)?;
    }
    Ok(())
}

#[test]
fn each_kind_is_shown(rt: HostRuntime) -> Result<(), Fail> {
    for rows in kinds::kinds() {
        check_kinds(&rt, rt.alloc(), rows)?;
    }
    Ok(())
}

/// A file and its listing.
struct FileRow {
    bytes: &'static [u8],
    text: &'static [u8],
}

#[rattlefmt::skip]
static FILES: [FileRow; 5] = [
    // no types
    FileRow { bytes: b"\x9f\xeb\x01\0\x18\0\0\0\0\0\0\0\0\0\0\0\0\0\0\0\x01\0\0\0\0", text: b"" },
    // an ENUM64 in a big-endian file
    FileRow { bytes: b"\xeb\x9f\x01\0\0\0\0\x18\0\0\0\0\0\0\0\x18\0\0\0\x18\0\0\0\x05\0\0\0\x01\x93\0\0\x01\0\0\0\x08\0\0\0\x03\xff\xff\xff\xfe\xff\xff\xff\xff\0e\0m\0", text: b"[1] enum64 \"e\" signed size=8 items=1\n  value \"m\" -2\n" },
    // a STRUCT with kind_flag 1 and without bit-fields
    FileRow { bytes: b"\x9f\xeb\x01\0\x18\0\0\0\0\0\0\0\x28\0\0\0\x28\0\0\0\x09\0\0\0\x01\0\0\0\0\0\0\x01\x04\0\0\0\x20\0\0\x01\x05\0\0\0\x01\0\0\x84\x04\0\0\0\x07\0\0\0\x01\0\0\0\0\0\0\0\0int\0s\0a\0", text: b"[1] int \"int\" size=4 encoding=signed offset=0 bits=32\n[2] struct \"s\" size=4 items=1\n  member \"a\" type=1 offset=0 width=0\n" },
    // a DECL_TAG of a member
    FileRow { bytes: b"\x9f\xeb\x01\0\x18\0\0\0\0\0\0\0\x44\0\0\0\x44\0\0\0\x0d\0\0\0\x01\0\0\0\0\0\0\x01\x04\0\0\0\x20\0\0\x01\x05\0\0\0\x02\0\0\x04\x08\0\0\0\x07\0\0\0\x01\0\0\0\0\0\0\0\x09\0\0\0\x01\0\0\0\x20\0\0\0\x0b\0\0\0\0\0\0\x11\x02\0\0\0\x01\0\0\0\0int\0s\0a\0b\0t\0", text: b"[1] int \"int\" size=4 encoding=signed offset=0 bits=32\n[2] struct \"s\" size=8 items=2\n  member \"a\" type=1 offset=0 width=0\n  member \"b\" type=1 offset=32 width=0\n[3] decl_tag \"t\" flag=0 type=2 component=1\n" },
    // a name of many escaped bytes
    FileRow { bytes: b"\x9f\xeb\x01\0\x18\0\0\0\0\0\0\0\x0c\0\0\0\x0c\0\0\0\x07\0\0\0\x01\0\0\0\0\0\0\x08\0\0\0\0\0a\"\\\x01\x7f\0", text: b"[1] typedef \"a\\\"\\\\\\x01\\x7f\" type=0\n" },
];

#[test]
fn worked_files_are_shown(rt: HostRuntime) -> Result<(), Fail> {
    for row in &FILES {
        let is_shown = is_shown(rt.alloc(), row.bytes, row.text)?;
        equal(&rt, &is_shown, &true, &row.bytes);
    }
    Ok(())
}
