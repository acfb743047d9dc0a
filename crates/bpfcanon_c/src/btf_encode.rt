//! The call that encodes records of a fixed size as BTF.
//!
//! Records are encoded before they are checked. Any records have BTF of some kind
//! (`btf_plain.rt`), and `BtfView` of `btf_types` decides whether it is valid. The types that it
//! denotes are then compared with the records. So no rule for a type is stated twice.
//!
//! Of a name only the length is compared: its bytes were copied, and those of one name may be the
//! end of any number of others.

ghost use Rattle.std.specs.Prelude.{◌≡◌, ◌↔◌, ◌<◌, ◌≤◌, IsTrue, MatchOption};
ghost use Rattle.std.specs.Prelude.{MatchResult, length};
ghost use Rattle.std.specs.List.{AllZip};
ghost use Rattle.btf_types.specs.Values.{head_value, item_value};
ghost use Rattle.btf_types.specs.tables.TableWords.{record_at};
ghost use Rattle.bpfcanon_c.specs.BtfEncoding as spec;
ghost use Rattle.bpfcanon_c.specs.BtfPlain.{IsPlan, plain as plain_of};
ghost use Rattle.bpfcanon_c.specs.BtfPlanSteps as steps;

use crate::answer::{Answer, Ending, FaultCode, order_from, put, report};
use crate::btf_plain::{Plan, index_at, make_plan, own_items, plain_btf};
use crate::btf_rows::{ItemRow, TypeRow, item_row, type_row};
use bpf_canon::write_btf;
use bpf_words::Order;
use btf_types::{BtfError, BtfView, Head, Item, TypeTable};
use std::alloc::Global;

/// Writes the canonical BTF (btf.rst section 2) of the types that records say, in the byte order
/// `to`, at the start of `out`. The name of a record is at its offset in `strings`, with a NUL
/// after it; the offset of an empty name isn't read. The items of a type are those from its `first`
/// on.
///
/// A buffer of 25 bytes, of the length of the records in BTF (at most 24 bytes for each type and 12
/// for each of its items), and of the length of `strings` is always long enough.
///
/// # Errors
///
/// Status 6 if `to` is neither 0 nor 1; 4 if memory runs out; 5 with the length of the output if
/// `out` is shorter; 2 if the records say no valid types, with the index of a type as position. Its
/// cause is that of the first fault in this order:
///
/// - Type by type, what a record needs to be written: a kind (`KindNumber`); all of its items
///   (`TailCut`); its name and then those of its items, each with a NUL after it (`NameRange`), and
///   with the names before it in less than 16 MiB (`StringLength`); with the records before it at
///   most 32 MiB (`TypeLength`).
/// - The first fault of the BTF of the records.
/// - Type by type, 0 for a record that isn't that of its type: a field that the kind hasn't isn't 0,
///   a number is too large, an item is of another kind, or a name has a NUL.
///
/// `out` is unchanged unless the status is 0.
#[unsafe(no_mangle)]
pub extern "C" fn bpfcanon_proved_btf_encode(
    alloc: Global,
    to: u32,
    types: &[TypeRow],
    items: &[ItemRow],
    strings: &[u8],
    out: &mut [u8],
) -> Answer
    ensures { spec.AnswersBtfEncode to types.now items.now strings.now out.old out.new result }
{
    report(match order_from(to) {
        Some(to) => encoded_in(alloc, to, types, items, strings, out),
        None => Ending::Order,
    })
}

/// The BTF of the types that records say, in a byte order.
fn encoded_in(
    alloc: Global,
    to: Order,
    types: &[TypeRow],
    items: &[ItemRow],
    strings: &[u8],
    out: &mut [u8],
) -> Ending
    ensures { spec.EndsBtfEncodeIn to types.now items.now strings.now out.old out.new result }
{
    match canonical_of(alloc, to, types, items, strings) {
        Ok(canon) => put(&canon, out),
        Err(ending) => ending,
    }
}

/// How the call ends for a type that can't be encoded.
fn no_type(cause: u8, index: usize) -> Ending
    ensures { result ≡ spec.no_type cause index }
{
    Ending::First(FaultCode {
        cause: u32::from(cause),
        pos: index as u64,
        line: 0,
    })
}

/// The canonical BTF of the types that records say.
fn canonical_of(
    alloc: Global,
    to: Order,
    types: &[TypeRow],
    items: &[ItemRow],
    strings: &[u8],
) -> Result<Vec<u8>, Ending>
    ensures { MatchResult result
        (λ out. spec.IsEncodedBtf to types.now items.now strings.now out.items)
        (spec.EndsWithout types.now items.now strings.now) }
{
    match make_plan(strings, types, items) {
        Ok(plan) => {
            let plain = plain_btf(alloc, plan, strings, types, items)?;
            canonical_of_plain(alloc, to, types, items, strings, plan, &plain)
        }
        Err((cause, index)) => Err(no_type(cause.number(), index)),
    }
}

/// The same, from the BTF that `plain_btf` makes of these records.
fn canonical_of_plain(
    alloc: Global,
    to: Order,
    types: &[TypeRow],
    items: &[ItemRow],
    strings: &[u8],
    plan: Plan,
    plain: &[u8],
) -> Result<Vec<u8>, Ending>
    requires plan { IsPlan strings.now types.now items.now plan }
    requires plain { plain.now ≡ plain_of plan types.now items.now strings.now }
    ensures { MatchResult result
        (λ out. spec.IsEncodedBtf to types.now items.now strings.now out.items)
        (spec.EndsWithout types.now items.now strings.now) }
{
    let table = match BtfView::parse(alloc, plain) {
        Ok(table) => table,
        Err(BtfError::Fault(fault)) => {
            return Err(no_type(fault.cause.number(), index_at(types, fault.pos)));
        }
        Err(BtfError::Memory) => return Err(Ending::Memory),
    };
    match first_unlike(types, items, &table) {
        Some(index) => Err(no_type(0, index)),
        None => Ok(write_btf(alloc, to, &table)?),
    }
}

/// Whether a record has the fields of this item.
fn is_item(row: &ItemRow, item: Item<'_>) -> bool
    ensures { IsTrue result ↔ steps.HasItemFields row.now (item_value item.entry) }
{
    row.name_len as usize == item.name().len() && *row == item_row(row.name, item)
}

/// Whether a record has the fields of a type with this head and so many items.
fn is_head(row: &TypeRow, count: u32, head: Head<'_>) -> bool
    ensures { IsTrue result ↔ steps.HasHeadFields row.now count (head_value head.entry) }
{
    row.name_len as usize == head.name().len()
        && u32::from(row.items) == count
        && *row == type_row(row.name, row.first, row.items, head)
}

/// Whether a record and those of its items have the fields of a type of the table.
fn is_type(items: &[ItemRow], row: &TypeRow, table: &BtfView<'_>, id: u32) -> bool
    requires first { 0 < id }
    requires last { id ≤ length table.now }
    ensures { IsTrue result ↔ steps.HasFields items.now row.now (record_at table.now id) }
{
    let count = table.item_count(id);
    if !is_head(row, count, table.file_head(id)) {
        return false;
    }
    let own = own_items(items, row);
    if own.len() != count as usize {
        return false;
    }
    for k in 0..count {
        if !is_item(&own[k as usize], table.file_item(id, k)) {
            return false;
        }
    }
    true
}

/// The index of the first record that hasn't the fields of the type of the table; `None` if all
/// have them.
fn first_unlike(types: &[TypeRow], items: &[ItemRow], table: &BtfView<'_>) -> Option<usize>
    ensures { MatchOption result (AllZip (steps.HasFields items.now) types.now table.now)
        (steps.IsUnlike types.now items.now table.now) }
{
    if types.len() != table.count() as usize {
        return Some(0);
    }
    for k in 0..types.len() {
        if !is_type(items, &types[k], table, k as u32 + 1) {
            return Some(k);
        }
    }
    None
}
