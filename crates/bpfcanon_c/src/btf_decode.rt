//! The call that decodes the types of BTF into records of a fixed size.
//!
//! One call decodes a file. A call for each type would need a handle, and would cost a binding more
//! than reading the record.
//!
//! The types are walked through in the file, and the fields of items are read from its words on the
//! way. Asked for an item, the table would find and decode the record of its type anew, so it is
//! asked only for what needs it: the heads, and the lengths of long names.

ghost use Rattle.std.specs.Prelude.{◌≡◌, ◌<◌, ◌≤◌, ◌+◌, ◌*◌, ◌^◌, [], All, IfSome, length, drop};
ghost use Rattle.std.specs.List.{AllZip, flat_map};
ghost use Rattle.bpf_words.specs.Words.{word32_at};
ghost use Rattle.btf_raw.specs.{Names.IsEnd, ReadHeader.ReadsHeader};
ghost use Rattle.btf_types.specs.{Denotes.Denotes, Values.head_value};
ghost use Rattle.btf_types.specs.tables.TableWords.{record_at};
ghost use Rattle.bpfcanon_c.specs.BtfRows.{SaysItem, SaysType, items_from, items_of, item_parts};
ghost use Rattle.bpfcanon_c.specs.BtfRows.{placed, placed_items};
ghost use Rattle.bpfcanon_c.specs.BtfDecoding.{AnswersBtfDecode, EndsBtfRows, rows_answer_of};
ghost use Rattle.bpfcanon_c.specs.BtfRest as rest;

use crate::answer::{Answer, FaultCode, btf_code, with_fault, with_status};
use crate::btf_rows::{ItemRow, TypeRow, bare_item, type_row};
use bpf_words::{Order, get32};
use btf_raw::info::flag_of;
use btf_raw::{Header, read_header};
use btf_types::{BtfError, BtfView, Head, TypeTable};
use memchr::memchr;
use std::alloc::Global;

/// How the call ended.
#[derive(Clone, Copy, Debug, PartialEq, Eq)]
pub enum RowsEnding {
    /// These numbers of types and of items were written.
    Decoded(u32, usize),
    /// The file has this fault.
    Faulty(FaultCode),
    /// Out of memory.
    Memory,
    /// There are these numbers of types and of items, and a buffer has fewer.
    Room(u32, usize),
}

/// The length in bytes of the fields of a record before its items.
fn head_len(head: Head<'_>) -> usize
    ensures { result ≡ rest.head_bytes (head_value head.entry) }
{
    match head {
        Head::KInt { .. } | Head::KVar { .. } | Head::KDeclTag { .. } => 16,
        Head::KArray { .. } => 24,
        _ => 12,
    }
}

/// What the items of a type are: the [`ItemRow::kind`] of their records, 0 if it has none.
fn item_kind(head: Head<'_>) -> u32
    ensures { result ≡ rest.item_kind (head_value head.entry) }
{
    match head {
        Head::KStruct { .. } | Head::KUnion { .. } => 1,
        Head::KEnum { .. } => 2,
        Head::KEnum64 { .. } => 3,
        Head::KFuncProto { .. } => 4,
        Head::KDatasec { .. } => 5,
        _ => 0,
    }
}

/// The length in bytes of an item of this kind: a value of an ENUM (2) and a parameter (4) have two
/// 32-bit fields, a member (1), a value of an ENUM64 (3) and an entry of a DATASEC (5) three.
fn item_len(kind: u32) -> usize
    ensures { result ≡ rest.item_bytes kind }
{
    match kind {
        2 | 4 => 8,
        _ => 12,
    }
}

/// The bit offset and the width in the offset field of a member (btf.rst section 2.2.4).
fn member_parts(flag: u32, word: u32) -> (u32, u32)
    ensures low { result.0 ≡ rest.low_part flag word }
    ensures high { result.1 ≡ rest.high_part flag word }
{
    if flag == 0 {
        (word, 0)
    } else {
        (word % 0x100_0000, word / 0x100_0000)
    }
}

/// The record of the item at an offset of the file, without its name. `kind` is what the item is,
/// and `flag` the kind_flag of its type.
#[inline(always)]
fn item_at(order: Order, bytes: &[u8], at: usize, kind: u32, flag: u32) -> ItemRow
    requires { at + rest.item_bytes kind ≤ length bytes.now }
    ensures { result ≡ rest.words_row kind flag (word32_at order bytes.now at)
        (word32_at order bytes.now (at + 4)) (word32_at order bytes.now (at + 8)) }
{
    let second = get32(order, bytes, at + 4);
    match kind {
        1 => {
            let (bit_offset, width) = member_parts(flag, get32(order, bytes, at + 8));
            ItemRow {
                target: second,
                bit_offset,
                width,
                ..bare_item(1)
            }
        }
        2 => ItemRow {
            value: u64::from(second),
            ..bare_item(2)
        },
        3 => {
            let third = get32(order, bytes, at + 8);
            ItemRow {
                value: u64::from(second) + 0x1_0000_0000 * u64::from(third),
                ..bare_item(3)
            }
        }
        4 => ItemRow {
            target: second,
            ..bare_item(4)
        },
        _ => ItemRow {
            target: get32(order, bytes, at),
            offset: second,
            size: get32(order, bytes, at + 8),
            ..bare_item(5)
        },
    }
}

/// The offset in the file of the name of an item of this kind whose first field is `word`. An entry
/// has no name, and gets the empty string at the start of the string section.
fn item_name_at(kind: u32, strings_at: u32, word: u32) -> u32
    requires { rest.item_name_at kind strings_at word < 2 ^ 32 }
    ensures { result ≡ rest.item_name_at kind strings_at word }
{
    if kind == 5 {
        strings_at
    } else {
        strings_at + word
    }
}

/// The number of bytes after the start of a name in which its end is looked for.
const NEAR: usize = 64;

/// The offset of the end of the string at an offset of the file, if it is near. Most names are
/// short, and a search that stops after [`NEAR`] bytes costs little for a long name, too.
fn near_end(bytes: &[u8], at: usize) -> Option<usize>
    requires { at ≤ length bytes.now }
    ensures { IfSome result (IsEnd bytes.now at) }
{
    let near = bytes.len().min(at + NEAR);
    memchr(0, &bytes[at..near]).map(|len| at + len)
}

/// The length in bytes of the name of item `k` of a type, which is at an offset of the file. The
/// table is asked only for a long name: it keeps the ends of long strings, since any number of
/// names may end in one of them.
fn item_name_len(bytes: &[u8], at: u32, table: &BtfView<'_>, id: u32, k: u32) -> u32
    requires first { 0 < id }
    requires last { id ≤ length table.now }
    requires named { rest.IsNamedAt bytes.now at (record_at table.now id).items k }
    ensures { rest.IsNameLen (record_at table.now id).items k result }
{
    match near_end(bytes, at as usize) {
        Some(end) => (end - at as usize) as u32,
        None => table.file_item(id, k).name().len() as u32,
    }
}

/// Where the items of a type begin in the file, and how they are encoded.
#[derive(Clone, Copy)]
struct ItemsAt {
    /// The offset of the first one.
    start: usize,
    /// What they are, as in [`ItemRow::kind`].
    kind: u32,
    /// The kind_flag of their type.
    flag: u32,
}

/// Writes the records of the items of a type. Returns the offset of their end in the file.
fn put_items(
    order: Order,
    bytes: &[u8],
    strings_at: u32,
    items_at: ItemsAt,
    table: &BtfView<'_>,
    id: u32,
    out: &mut [ItemRow],
) -> usize
    requires first { 0 < id }
    requires last { id ≤ length table.now }
    requires count { length out.old ≡ length (record_at table.now id).items }
    requires few { length out.old < 2 ^ 16 }
    requires kinds { All (λ i. (item_parts i).kind ≡ items_at.kind) (record_at table.now id).items }
    requires left { rest.Rest order bytes.now items_at.start strings_at items_at.flag
        (record_at table.now id).items (drop id table.now) }
    ensures left { rest.Rest order bytes.now result strings_at 0 [] (drop id table.now) }
    ensures end { result
        ≡ items_at.start + rest.item_bytes items_at.kind * length (record_at table.now id).items }
    ensures said { AllZip (SaysItem order bytes.now) out.new
        (items_from items_at.start (rest.item_bytes items_at.kind) (record_at table.now id).items) }
{
    let mut at = items_at.start;
    for k in 0..out.len() {
        let name = item_name_at(items_at.kind, strings_at, get32(order, bytes, at));
        let name_len = item_name_len(bytes, name, table, id, k as u32);
        out[k] = ItemRow {
            name,
            name_len,
            ..item_at(order, bytes, at, items_at.kind, items_at.flag)
        };
        at += item_len(items_at.kind);
    }
    at
}

/// The number of items of all types.
fn item_total(table: &BtfView<'_>) -> usize
    requires { length (items_of table.now) < 2 ^ 32 }
    ensures { result ≡ length (items_of table.now) }
{
    let mut total = 0;
    for k in 0..table.count() {
        total += table.item_count(k + 1) as usize;
    }
    total
}

/// Writes the records of all types and of their items. The types begin at an offset of the file.
fn put_all(
    order: Order,
    bytes: &[u8],
    strings_at: u32,
    start: usize,
    table: &BtfView<'_>,
    types: &mut [TypeRow],
    items: &mut [ItemRow],
)
    requires types_within { length table.now ≤ length types.old }
    requires items_within { length (items_of table.now) ≤ length items.old }
    requires few { length (items_of table.now) < 2 ^ 32 }
    requires left { rest.Rest order bytes.now start strings_at 0 [] table.now }
    ensures types { rest.Writes (SaysType order bytes.now) (placed start 0 table.now)
        types.old types.new }
    ensures items { rest.Writes (SaysItem order bytes.now)
        (flat_map placed_items (placed start 0 table.now)) items.old items.new }
{
    let mut at = start;
    let mut first = 0;
    for k in 0..table.count() {
        let id = k + 1;
        let head = table.file_head(id);
        let count = table.item_count(id);
        let name = strings_at + get32(order, bytes, at);
        types[k as usize] = type_row(name, first as u32, count as u16, head);
        let items_at = ItemsAt {
            start: at + head_len(head),
            kind: item_kind(head),
            flag: flag_of(get32(order, bytes, at + 4)),
        };
        let after = first + count as usize;
        let part = &mut items[first..after];
        at = put_items(order, bytes, strings_at, items_at, table, id, part);
        first = after;
    }
}

/// Decodes the types of a BTF file (btf.rst section 2) into records at the start of `types`, and
/// their items into records at the start of `items`. A file has at most one type for each 12
/// bytes, and one item for each 8.
///
/// # Errors
///
/// Status 2 with the first fault of the file, its offset in bytes from the start of `bytes`; 4 if
/// memory runs out; 5 with the numbers of types and items if a buffer has fewer records. `types`
/// and `items` are then unchanged.
#[unsafe(no_mangle)]
pub extern "C" fn bpfcanon_proved_btf_decode(
    alloc: Global,
    bytes: &[u8],
    types: &mut [TypeRow],
    items: &mut [ItemRow],
) -> Answer
    ensures { AnswersBtfDecode bytes.now types.old types.new items.old items.new result }
{
    report_rows(decode_into(alloc, bytes, types, items))
}

/// The answer of an ending.
fn report_rows(ending: RowsEnding) -> Answer
    ensures { result ≡ rows_answer_of ending }
{
    match ending {
        RowsEnding::Decoded(types, written) => Answer {
            types,
            written,
            ..with_status(0)
        },
        RowsEnding::Faulty(fault) => with_fault(2, fault),
        RowsEnding::Memory => with_status(4),
        RowsEnding::Room(types, needed) => Answer {
            types,
            needed,
            ..with_status(5)
        },
    }
}

/// The records of a file.
fn decode_into(
    alloc: Global,
    bytes: &[u8],
    types: &mut [TypeRow],
    items: &mut [ItemRow],
) -> RowsEnding
    ensures { EndsBtfRows bytes.now types.old types.new items.old items.new result }
{
    match BtfView::parse(alloc, bytes) {
        Ok(table) => put_table(header_of(bytes, &table), bytes, &table, types, items),
        Err(BtfError::Fault(fault)) => RowsEnding::Faulty(btf_code(fault)),
        Err(BtfError::Memory) => RowsEnding::Memory,
    }
}

/// The header of the file of a table.
fn header_of(bytes: &[u8], table: &BtfView<'_>) -> Header
    requires { Denotes bytes.now table.now }
    ensures { ReadsHeader bytes.now result }
{
    match read_header(bytes) {
        Ok(header) => header,
        Err(_) => unreachable!(),
    }
}

/// The records of a file with this header and these types.
fn put_table(
    header: Header,
    bytes: &[u8],
    table: &BtfView<'_>,
    types: &mut [TypeRow],
    items: &mut [ItemRow],
) -> RowsEnding
    requires header { ReadsHeader bytes.now header }
    requires denotes { Denotes bytes.now table.now }
    ensures { EndsBtfRows bytes.now types.old types.new items.old items.new result }
{
    let count = table.count();
    let total = item_total(table);
    if types.len() < count as usize || items.len() < total {
        return RowsEnding::Room(count, total);
    }
    put_all(
        header.order,
        bytes,
        header.str_pos as u32,
        header.types_pos,
        table,
        types,
        items,
    );
    RowsEnding::Decoded(count, total)
}
