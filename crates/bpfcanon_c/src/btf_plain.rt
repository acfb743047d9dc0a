//! BTF that isn't canonical yet, from the records of types.
//!
//! Each record encodes to some bytes: the fields that its kind has are copied, and nothing is
//! checked. The string section is a part of the caller's strings. So each name keeps its distance
//! from the others, and no name is looked up or copied alone.

ghost use Rattle.std.specs.Prelude.{◌≡◌, ◌<◌, ◌^◌, ◌++◌, OnOk, IfOk, MatchResult};
ghost use Rattle.std.specs.List.{list_any};
ghost use Rattle.bpf_words.specs.declared.Order.TheVariants.{Little};
ghost use Rattle.btf_raw.specs.Frames.{bytes_of, section_of};
ghost use Rattle.bpfcanon_c.specs.BtfSaying.{own_rows};
ghost use Rattle.bpfcanon_c.specs.BtfPlain as spec;
ghost use Rattle.bpfcanon_c.specs.BtfPlanSteps as steps;
ghost use Rattle.bpfcanon_c.specs.BtfRefusal as refusal;

use crate::btf_rows::{ItemRow, TypeRow};
use bpf_canon::push_header;
use bpf_words::{Order, push_words};
use btf_raw::info::{is_kind, item_words, tail_words};
use btf_raw::{
    ARRAY, BtfCause, DATASEC, DECL_TAG, ENUM, ENUM64, FLOAT, FUNC, FUNC_PROTO, FWD, INT,
    STRINGS_LIMIT, STRUCT, TYPE_TAG, TYPES_LIMIT, UNION, VAR,
};
use std::alloc::{AllocError, Global};

/// The length of a header in bytes.
const HEADER: usize = 24;

/// The smallest range of the caller's strings with all names of some records and the NUL after
/// each. Both ends are 0 if all names are empty.
#[derive(Clone, Copy)]
pub struct NamesPart {
    start: usize,
    end: usize,
}

/// The string section, and the length of the type section, of the BTF of some records.
#[derive(Clone, Copy)]
pub struct Plan {
    names: NamesPart,
    types_len: usize,
}

/// The part with one name more.
///
/// # Errors
///
/// The cause if there is no such name with a NUL after it; if there is, and the names are then too
/// far apart.
fn with_name(part: NamesPart, strings: &[u8], at: u32, len: u32) -> Result<NamesPart, BtfCause>
    requires { spec.IsNamesPart strings.now part }
    ensures { MatchResult result (λ more. steps.AddsName strings.now part more at len)
        (steps.NameRefusal strings.now part at len) }
{
    if len == 0 {
        return Ok(part);
    }
    let at = at as usize;
    let nul = at + len as usize;
    if nul >= strings.len() || strings[nul] != 0 {
        return Err(BtfCause::NameRange);
    }
    let start = if part.end == 0 {
        at
    } else {
        part.start.min(at)
    };
    let end = part.end.max(nul + 1);
    if end - start >= STRINGS_LIMIT {
        return Err(BtfCause::StringLength);
    }
    Ok(NamesPart { start, end })
}

/// The items of a type that are in the array. `first` isn't read if it has none.
pub fn own_items<'a>(items: &'a [ItemRow], row: &TypeRow) -> &'a [ItemRow]
    ensures { result.now ≡ own_rows items.now row.now }
{
    if row.items == 0 || item_words(row.kind) == 0 {
        return &items[..0];
    }
    let first = items.len().min(row.first as usize);
    let after = items.len().min(first + usize::from(row.items));
    &items[first..after]
}

/// The length in bytes of the record of a type in BTF.
fn record_len(row: &TypeRow) -> usize
    ensures is { result ≡ spec.row_size row.now }
    ensures few { result < 2 ^ 20 }
{
    4 * (3 + tail_words(row.kind, row.items))
}

/// The part with the names of one type more.
///
/// # Errors
///
/// The cause of the first fault: the type has no kind, not all of its items, or a name with a fault,
/// its own or then that of an item.
fn with_type(
    part: NamesPart,
    strings: &[u8],
    items: &[ItemRow],
    row: &TypeRow,
) -> Result<NamesPart, BtfCause>
    requires { spec.IsNamesPart strings.now part }
    ensures { MatchResult result (λ more. steps.AddsType strings.now items.now part more row.now)
        (steps.TypeRefusal strings.now items.now part row.now) }
{
    if !is_kind(row.kind) {
        return Err(BtfCause::KindNumber);
    }
    let own = own_items(items, row);
    if item_words(row.kind) != 0 && own.len() != usize::from(row.items) {
        return Err(BtfCause::TailCut);
    }
    let mut part = with_name(part, strings, row.name, row.name_len)?;
    for k in 0..own.len() {
        part = with_name(part, strings, own[k].name, own[k].name_len)?;
    }
    Ok(part)
}

/// The plan of the BTF of some records.
///
/// # Errors
///
/// The index of the first type without one, and the cause.
pub fn make_plan(
    strings: &[u8],
    types: &[TypeRow],
    items: &[ItemRow],
) -> Result<Plan, (BtfCause, usize)>
    ensures { MatchResult result (λ plan. spec.IsPlan strings.now types.now items.now plan)
        (λ e. refusal.IsUnwritten strings.now types.now items.now e.0 e.1) }
{
    let mut names = NamesPart { start: 0, end: 0 };
    let mut types_len = 0;
    for k in 0..types.len() {
        match with_type(names, strings, items, &types[k]) {
            Ok(more) => names = more,
            Err(cause) => return Err((cause, k)),
        }
        types_len += record_len(&types[k]);
        if types_len > TYPES_LIMIT {
            return Err((BtfCause::TypeLength, k));
        }
    }
    Ok(Plan { names, types_len })
}

/// The offset of a name in the string section, which is 0 for the empty name.
fn name_word(start: usize, at: u32, len: u32) -> u32
    ensures { result ≡ spec.name_word start at len }
{
    if len == 0 {
        return 0;
    }
    ((at as usize).saturating_sub(start) % 0x100_0000 + 1) as u32
}

/// vlen: the linkage of a FUNC, or the number of items of any other kind.
fn vlen_word(row: &TypeRow) -> u32
    ensures is { result ≡ spec.vlen_word row.now }
    ensures fits { result < 2 ^ 16 }
{
    if row.kind == FUNC {
        u32::from(row.linkage)
    } else {
        u32::from(row.items)
    }
}

/// kind_flag: whether a STRUCT or UNION has bit-fields, or a bit of the value of some kinds.
fn flag_word(row: &TypeRow, bit_fields: bool) -> u32
    ensures is { result ≡ spec.flag_word row.now bit_fields }
    ensures bit { result < 2 }
{
    match row.kind {
        STRUCT | UNION => u32::from(bit_fields),
        ENUM | FWD | DECL_TAG | TYPE_TAG | ENUM64 => u32::from(row.flag % 2),
        _ => 0,
    }
}

/// The third field: a size, a type or 0.
fn third_word(row: &TypeRow) -> u32
    ensures { result ≡ spec.third_word row.now }
{
    match row.kind {
        INT | STRUCT | UNION | ENUM | DATASEC | FLOAT | ENUM64 => row.size,
        ARRAY | FWD => 0,
        _ => row.target,
    }
}

/// The component_idx of a DECL_TAG: -1 stands for any negative number.
fn component_word(component: i32) -> u32
    ensures { result ≡ spec.component_word component }
{
    u32::try_from(component).unwrap_or(u32::MAX)
}

/// Appends the fields after the third of a type and before its items.
fn push_tail(out: &mut Vec<u8>, row: &TypeRow) -> Result<(), AllocError>
    ensures { OnOk result (out.new.items
        ≡ out.old.items ++ bytes_of Little (spec.tail_of row.now)) }
{
    match row.kind {
        INT => {
            let word = u32::from(row.bits)
                + (u32::from(row.bit_offset) << 16)
                + (u32::from(row.encoding) << 24);
            push_words(out, Order::Little, &[word])
        }
        ARRAY => push_words(out, Order::Little, &[row.target, row.index, row.count]),
        VAR => push_words(out, Order::Little, &[u32::from(row.linkage)]),
        DECL_TAG => push_words(out, Order::Little, &[component_word(row.component)]),
        _ => Ok(()),
    }
}

/// Appends the fields before the items of a type.
fn push_head(out: &mut Vec<u8>, start: usize, row: &TypeRow, flag: u32) -> Result<(), AllocError>
    requires { flag < 2 }
    ensures { OnOk result (out.new.items
        ≡ out.old.items ++ bytes_of Little (spec.head_words start row.now flag)) }
{
    let info = vlen_word(row) + (u32::from(row.kind % 32) << 24) + (flag << 31);
    let name = name_word(start, row.name, row.name_len);
    push_words(out, Order::Little, &[name, info, third_word(row)])?;
    push_tail(out, row)
}

/// Appends an item of a type of this kind.
fn push_item(out: &mut Vec<u8>, start: usize, kind: u8, item: &ItemRow) -> Result<(), AllocError>
    ensures { OnOk result (out.new.items
        ≡ out.old.items ++ bytes_of Little (spec.words_of start kind item.now)) }
{
    let name = name_word(start, item.name, item.name_len);
    let low = (item.value % 0x1_0000_0000) as u32;
    let high = (item.value / 0x1_0000_0000) as u32;
    match kind {
        STRUCT | UNION => {
            let offset_word = item.bit_offset.wrapping_add(item.width % 0x100 << 24);
            push_words(out, Order::Little, &[name, item.target, offset_word])
        }
        ENUM => push_words(out, Order::Little, &[name, low]),
        ENUM64 => push_words(out, Order::Little, &[name, low, high]),
        FUNC_PROTO => push_words(out, Order::Little, &[name, item.target]),
        _ => push_words(out, Order::Little, &[item.target, item.offset, item.size]),
    }
}

/// Whether some item has a width.
fn has_widths(items: &[ItemRow]) -> bool
    ensures { result ≡ list_any spec.has_width items.now }
{
    items.iter().any(|item| item.width != 0)
}

/// Appends the record of a type with these items.
#[tactic(auto, using(crate::proofs::BtfWrites::words_more))]
fn push_type(
    out: &mut Vec<u8>,
    start: usize,
    row: &TypeRow,
    own: &[ItemRow],
) -> Result<(), AllocError>
    ensures { OnOk result (out.new.items
        ≡ out.old.items ++ bytes_of Little (spec.row_words start row.now own.now)) }
{
    let flag = flag_word(row, has_widths(own));
    push_head(out, start, row, flag)?;
    for k in 0..own.len() {
        push_item(out, start, row.kind, &own[k])?;
    }
    Ok(())
}

/// Appends the records of all types.
#[tactic(auto, using(crate::proofs::BtfWrites::frames_more))]
fn push_frames(
    out: &mut Vec<u8>,
    start: usize,
    types: &[TypeRow],
    items: &[ItemRow],
) -> Result<(), AllocError>
    ensures { OnOk result (out.new.items
        ≡ out.old.items ++ section_of Little (spec.frames start types.now items.now)) }
{
    for k in 0..types.len() {
        push_type(out, start, &types[k], own_items(items, &types[k]))?;
    }
    Ok(())
}

/// The BTF of some records that have this plan.
pub fn plain_btf(
    alloc: Global,
    plan: Plan,
    strings: &[u8],
    types: &[TypeRow],
    items: &[ItemRow],
) -> Result<Vec<u8>, AllocError>
    requires { spec.IsPlan strings.now types.now items.now plan }
    ensures { IfOk result (λ bytes.
        bytes.items ≡ spec.plain plan types.now items.now strings.now) }
{
    let names = &strings[plan.names.start..plan.names.end];
    let types_len = plan.types_len;
    let strings_len = 1 + names.len();
    let mut out = Vec::with_capacity(alloc, HEADER + types_len + strings_len)?;
    push_header(
        &mut out,
        Order::Little,
        types_len as u32,
        strings_len as u32,
    )?;
    push_frames(&mut out, plan.names.start, types, items)?;
    out.push(0)?;
    out.extend_from_slice(names)?;
    Ok(out)
}

/// The index of the type whose record contains an offset of the BTF of these records.
pub fn index_at(types: &[TypeRow], pos: u64) -> usize
    ensures { refusal.IsIndexAt types.now pos result }
{
    let mut left = pos.saturating_sub(HEADER as u64);
    for k in 0..types.len() {
        let len = record_len(&types[k]) as u64;
        if left < len {
            return k;
        }
        left -= len;
    }
    types.len().saturating_sub(1)
}
