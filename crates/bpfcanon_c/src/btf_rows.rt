//! The types of BTF and their items as records of a fixed size.
//!
//! What `insn_rows.rt` says of records holds for these too. A name is its offset and length in the
//! input, where it stays: a copy would have to be owned.

ghost use Rattle.std.specs.Prelude.{◌≡◌, ◌<◌, ◌^◌, length};
ghost use Rattle.btf_types.specs.{Names.head_name, Names.item_name};
ghost use Rattle.btf_types.specs.Values.{head_value, item_value};
ghost use Rattle.bpfcanon_c.specs.BtfRows as spec;

use btf_types::{Head, Item};

/// A type: `bpfcanon_btf_type` of `capi/bpfcanon.h`, field by field. A field that its kind does not
/// have is 0.
#[repr(C)]
#[derive(Clone, Copy, PartialEq, Eq)]
pub struct TypeRow {
    /// The kind, 1 to 19 (btf.rst section 2.2).
    pub kind: u8,
    /// The kind_flag of an ENUM, ENUM64, FWD, DECL_TAG or TYPE_TAG, 0 or 1.
    pub flag: u8,
    /// The encoding of an INT: 0 plain, 1 signed, 2 char, 4 bool.
    pub encoding: u8,
    /// The linkage of a FUNC or VAR: 0 static, 1 global, 2 extern.
    pub linkage: u8,
    /// The offset of an INT's value in bits.
    pub bit_offset: u8,
    /// The length of an INT's value in bits.
    pub bits: u8,
    /// The number of its items.
    pub items: u16,
    /// The offset of the name in bytes from the start of the input.
    pub name: u32,
    /// The length of the name in bytes.
    pub name_len: u32,
    /// The size in bytes.
    pub size: u32,
    /// The ID of the type that it refers to; 0 is void.
    pub target: u32,
    /// The ID of the index type of an ARRAY.
    pub index: u32,
    /// The number of elements of an ARRAY.
    pub count: u32,
    /// The component_idx of a DECL_TAG: an index, or -1.
    pub component: i32,
    /// The index of its first item among the items of all types.
    pub first: u32,
}

/// An item of a type: `bpfcanon_btf_item` of `capi/bpfcanon.h`, field by field. A field that its
/// kind does not have is 0.
#[repr(C)]
#[derive(Clone, Copy, PartialEq, Eq)]
pub struct ItemRow {
    /// The offset of the name in bytes from the start of the input.
    pub name: u32,
    /// The length of the name in bytes.
    pub name_len: u32,
    /// The ID of the type of a member, parameter or entry; 0 is void.
    pub target: u32,
    /// The offset of a member in bits from the start of its record.
    pub bit_offset: u32,
    /// The width of a bit-field in bits; 0 for another member.
    pub width: u32,
    /// The offset of an entry in bytes from the start of its section.
    pub offset: u32,
    /// The size of an entry in bytes.
    pub size: u32,
    /// 1 a member, 2 a value of 32 bits, 3 one of 64 bits, 4 a parameter, 5 an entry.
    pub kind: u32,
    /// The 32 or 64 bits of a value.
    pub value: u64,
}

/// A record with this kind, and 0 in each other field.
#[inline(always)]
pub fn bare_type(kind: u8) -> TypeRow
    ensures { result ≡ spec.bare_type kind }
{
    TypeRow {
        kind,
        flag: 0,
        encoding: 0,
        linkage: 0,
        bit_offset: 0,
        bits: 0,
        items: 0,
        name: 0,
        name_len: 0,
        size: 0,
        target: 0,
        index: 0,
        count: 0,
        component: 0,
        first: 0,
    }
}

/// A record with this kind of item, and 0 in each other field.
#[inline(always)]
pub fn bare_item(kind: u32) -> ItemRow
    ensures { result ≡ spec.bare_item kind }
{
    ItemRow {
        name: 0,
        name_len: 0,
        target: 0,
        bit_offset: 0,
        width: 0,
        offset: 0,
        size: 0,
        kind,
        value: 0,
    }
}

/// The component of a DECL_TAG, or -1 for the complete type.
#[inline(always)]
fn component_number(component: Option<u16>) -> i32
    ensures { result ≡ spec.component_number component }
{
    match component {
        Some(index) => i32::from(index),
        None => -1,
    }
}

/// The record of a type, without its name and its items.
#[rattlefmt::skip]
#[inline(always)]
fn head_row(head: Head<'_>) -> TypeRow
    ensures { result ≡ spec.head_row (head_value head.entry) }
{
    match head {
        Head::KInt { size, encoding, offset, bits, .. } => {
            let encoding = encoding.number() as u8;
            TypeRow { encoding, bit_offset: offset, bits, size, ..bare_type(1) }
        }
        Head::KPtr { target } => TypeRow { target, ..bare_type(2) },
        Head::KArray { target, index, count } => TypeRow { target, index, count, ..bare_type(3) },
        Head::KStruct { size, .. } => TypeRow { size, ..bare_type(4) },
        Head::KUnion { size, .. } => TypeRow { size, ..bare_type(5) },
        Head::KEnum { signed, size, .. } =>
            TypeRow { flag: u8::from(signed), size, ..bare_type(6) },
        Head::KFwd { is_union, .. } => TypeRow { flag: u8::from(is_union), ..bare_type(7) },
        Head::KTypedef { target, .. } => TypeRow { target, ..bare_type(8) },
        Head::KVolatile { target } => TypeRow { target, ..bare_type(9) },
        Head::KConst { target } => TypeRow { target, ..bare_type(10) },
        Head::KRestrict { target } => TypeRow { target, ..bare_type(11) },
        Head::KFunc { linkage, target, .. } =>
            TypeRow { linkage: linkage.number() as u8, target, ..bare_type(12) },
        Head::KFuncProto { target } => TypeRow { target, ..bare_type(13) },
        Head::KVar { target, linkage, .. } =>
            TypeRow { linkage: linkage.number() as u8, target, ..bare_type(14) },
        Head::KDatasec { size, .. } => TypeRow { size, ..bare_type(15) },
        Head::KFloat { size, .. } => TypeRow { size, ..bare_type(16) },
        Head::KDeclTag { flag, target, component, .. } => {
            let component = component_number(component);
            TypeRow { flag: u8::from(flag), target, component, ..bare_type(17) }
        }
        Head::KTypeTag { flag, target, .. } =>
            TypeRow { flag: u8::from(flag), target, ..bare_type(18) },
        Head::KEnum64 { signed, size, .. } =>
            TypeRow { flag: u8::from(signed), size, ..bare_type(19) },
    }
}

/// The record of an item, without its name.
#[rattlefmt::skip]
#[inline(always)]
fn item_parts(item: Item<'_>) -> ItemRow
    ensures { result ≡ spec.item_parts (item_value item.entry) }
{
    match item {
        Item::Member { target, bit_offset, width, .. } =>
            ItemRow { target, bit_offset, width: u32::from(width), ..bare_item(1) },
        Item::EnumValue { value, .. } => ItemRow { value: u64::from(value), ..bare_item(2) },
        Item::Value64 { value, .. } => ItemRow { value, ..bare_item(3) },
        Item::Param { target, .. } => ItemRow { target, ..bare_item(4) },
        Item::Entry { target, offset, size } =>
            ItemRow { target, offset, size, ..bare_item(5) },
    }
}

/// The record of a type whose name is at this offset of the file.
#[inline(always)]
pub fn type_row(name: u32, first: u32, items: u16, head: Head<'_>) -> TypeRow
    requires { length (head_name (head_value head)) < 2 ^ 32 }
    ensures { result ≡ spec.type_row name first items (head_value head.entry) }
{
    TypeRow {
        name,
        name_len: head.name().len() as u32,
        items,
        first,
        ..head_row(head)
    }
}

/// The record of an item whose name is at this offset of the file.
#[inline(always)]
pub fn item_row(name: u32, item: Item<'_>) -> ItemRow
    requires { length (item_name (item_value item)) < 2 ^ 32 }
    ensures { result ≡ spec.item_row name (item_value item.entry) }
{
    ItemRow {
        name,
        name_len: item.name().len() as u32,
        ..item_parts(item)
    }
}
