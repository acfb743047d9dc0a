//! The lines of the items of BTF types: members, enum values, parameters and the entries of a
//! DATASEC.

ghost use Rattle.btf_types.specs.Values.{item_value};
ghost use Rattle.bpf_text.specs.btf.BtfText as spec;
ghost use Rattle.bpf_text.specs.btf.LineParts as parts;
ghost use Rattle.bpf_text.specs.btf.Appending.{Appends};

use crate::btf::quoted_name::append_quoted_part;
use crate::btf::text_parts::{append, append_number, append_numbers};
use btf_types::Item;
use std::alloc::{AllocError, Allocator};

/// Appends the fields of an item, after the closing quote if it has a name. Enum values are printed
/// as signed numbers if `signed` is true.
#[rattlefmt::skip]
fn append_item_fields<A: Allocator>(
    text: &mut Vec<u8, A>,
    item: Item<'_>,
    signed: bool,
) -> Result<(), AllocError>
    ensures { Appends result text.old (parts.item_fields signed (item_value item.entry)) text.new }
{
    match item {
        Item::Member { target, bit_offset, width, .. } => append_numbers(text,
            &[("\" type=", target), (" offset=", bit_offset), (" width=", u32::from(width))]),
        Item::EnumValue { value, .. } if signed => append_number(text, "\" ", value.cast_signed()),
        Item::EnumValue { value, .. } => append_number(text, "\" ", value),
        Item::Value64 { value, .. } if signed => append_number(text, "\" ", value.cast_signed()),
        Item::Value64 { value, .. } => append_number(text, "\" ", value),
        Item::Param { target, .. } => append_number(text, "\" type=", target),
        Item::Entry { target, offset, size } =>
            append_numbers(text, &[(" type=", target), (" offset=", offset), (" size=", size)]),
    }
}

/// Appends the line of an item up to the first byte of its name, or up to its fields if it is an
/// entry of a DATASEC, which has no name. To complete the line, append the name by
/// [`append_quoted_part`] and the rest by [`append_item_end`].
///
/// # Errors
///
/// `AllocError` if the vector can't grow. Its contents stay; part of the line may follow them.
pub fn append_item_start<A: Allocator>(
    text: &mut Vec<u8, A>,
    item: Item<'_>,
) -> Result<(), AllocError>
    ensures { Appends result text.old (parts.item_start (item_value item.entry)) text.new }
{
    match item {
        Item::Member { .. } => append(text, "  member \""),
        Item::EnumValue { .. } | Item::Value64 { .. } => append(text, "  value \""),
        Item::Param { .. } => append(text, "  param \""),
        Item::Entry { .. } => append(text, "  entry"),
    }
}

/// Appends the line of an item from the end of its name: the closing quote if it has a name, the
/// fields and a newline. Enum values are printed as signed numbers if `signed` is true, which is
/// [`crate::is_signed`] of their type.
///
/// # Errors
///
/// `AllocError` if the vector can't grow. Its contents stay; part of the rest may follow them.
pub fn append_item_end<A: Allocator>(
    text: &mut Vec<u8, A>,
    item: Item<'_>,
    signed: bool,
) -> Result<(), AllocError>
    ensures { Appends result text.old (parts.item_end signed (item_value item.entry)) text.new }
{
    append_item_fields(text, item, signed)?;
    append(text, "\n")
}

/// Appends the line of a member, an enum value, a parameter or an entry of a DATASEC, and a
/// newline. Enum values are printed as signed numbers if `signed` is true, which is
/// [`crate::is_signed`] of their type.
///
/// # Errors
///
/// `AllocError` if the vector can't grow. Its contents stay; part of the line may follow them.
pub fn append_item<A: Allocator>(
    text: &mut Vec<u8, A>,
    item: Item<'_>,
    signed: bool,
) -> Result<(), AllocError>
    ensures { Appends result text.old (spec.item_line signed (item_value item.entry)) text.new }
{
    append_item_start(text, item)?;
    append_quoted_part(text, item.name().as_bytes())?;
    append_item_end(text, item, signed)
}
