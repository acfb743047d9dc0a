//! The line of a BTF type: its ID, its kind, its name, and its fields.
//!
//! A line is appended at once, or in two parts around its name. A name can be as long as the string
//! section, so `btf-show` writes it in pieces between the two parts and holds no complete line.

ghost use Rattle.std.specs.Prelude.{◌≡◌, ◌++◌, codes};
ghost use Rattle.btf_types.specs.Values.{head_value};
ghost use Rattle.bpf_text.specs.btf.BtfText as spec;
ghost use Rattle.bpf_text.specs.btf.LineParts as parts;
ghost use Rattle.bpf_text.specs.btf.Appending.{Appends};

use crate::btf::quoted_name::append_quoted_part;
use crate::btf::text_parts::{append, append_number, append_numbers};
use btf_raw::info::has_no_name;
use btf_types::{Encoding, Head, Linkage};
use std::alloc::{AllocError, Allocator};

/// The encoding of an INT after its label (btf.rst section 2.2.1).
fn encoding_field(encoding: Encoding) -> &'static str
    ensures { result.now ≡ codes " encoding=" ++ spec.encoding_name encoding }
{
    match encoding {
        Encoding::Plain => " encoding=plain",
        Encoding::Signed => " encoding=signed",
        Encoding::Char => " encoding=char",
        Encoding::Bool => " encoding=bool",
    }
}

/// The linkage of a FUNC or VAR (btf.rst sections 2.2.12 and 2.2.14), followed by the label of its
/// type. The linkage isn't a number, so it is part of the label that [`append_number`] writes
/// before the next number, which is the type.
fn linkage_and_label(linkage: Linkage) -> &'static str
    ensures { result.now ≡ codes " " ++ spec.linkage_name linkage ++ codes " type=" }
{
    match linkage {
        Linkage::LStatic => " static type=",
        Linkage::LGlobal => " global type=",
        Linkage::LExtern => " extern type=",
    }
}

/// The flag of a tag (btf.rst sections 2.2.17 and 2.2.18), followed by the label of its type, as in
/// [`linkage_and_label`]. With only two values the flag needs no conversion to digits.
fn flag_and_label(flag: bool) -> &'static str
    ensures { result.now ≡ codes " flag=" ++ spec.flag_text flag ++ codes " type=" }
{
    if flag {
        " flag=1 type="
    } else {
        " flag=0 type="
    }
}

/// Appends the component of a tag: -1 if the tag is on the target itself (btf.rst section 2.2.17).
fn append_component<A: Allocator>(
    text: &mut Vec<u8, A>,
    component: Option<u16>,
) -> Result<(), AllocError>
    ensures { Appends result text.old (codes " component=" ++ spec.component_text component)
        text.new }
{
    match component {
        Some(index) => append_number(text, " component=", index),
        None => append(text, " component=-1"),
    }
}

/// The name of a type's kind (btf.rst section 2.2).
fn kind_word(head: Head<'_>) -> &'static str
    ensures { result.now ≡ spec.kind_word (head_value head.entry) }
{
    match head {
        Head::KInt { .. } => "int",
        Head::KPtr { .. } => "ptr",
        Head::KArray { .. } => "array",
        Head::KStruct { .. } => "struct",
        Head::KUnion { .. } => "union",
        Head::KEnum { .. } => "enum",
        Head::KFwd { .. } => "fwd",
        Head::KTypedef { .. } => "typedef",
        Head::KVolatile { .. } => "volatile",
        Head::KConst { .. } => "const",
        Head::KRestrict { .. } => "restrict",
        Head::KFunc { .. } => "func",
        Head::KFuncProto { .. } => "func_proto",
        Head::KVar { .. } => "var",
        Head::KDatasec { .. } => "datasec",
        Head::KFloat { .. } => "float",
        Head::KDeclTag { .. } => "decl_tag",
        Head::KTypeTag { .. } => "type_tag",
        Head::KEnum64 { .. } => "enum64",
    }
}

/// Appends the fields of a type, which follow its name. `items` is the number of its items.
#[rattlefmt::skip]
fn append_fields<A: Allocator>(
    text: &mut Vec<u8, A>,
    head: Head<'_>,
    items: u32,
) -> Result<(), AllocError>
    ensures { Appends result text.old (spec.fields_text (head_value head.entry) items) text.new }
{
    match head {
        Head::KInt { size, encoding, offset, bits, .. } => {
            append_number(text, " size=", size)?;
            append(text, encoding_field(encoding))?;
            append_numbers(text, &[(" offset=", u32::from(offset)), (" bits=", u32::from(bits))])
        }
        Head::KPtr { target } | Head::KVolatile { target } | Head::KConst { target }
        | Head::KRestrict { target } | Head::KTypedef { target, .. } =>
            append_number(text, " type=", target),
        Head::KArray { target, index, count } =>
            append_numbers(text, &[(" type=", target), (" index=", index), (" count=", count)]),
        Head::KStruct { size, .. } | Head::KUnion { size, .. } | Head::KDatasec { size, .. } =>
            append_numbers(text, &[(" size=", size), (" items=", items)]),
        Head::KEnum { signed, size, .. } | Head::KEnum64 { signed, size, .. } => {
            append(text, if signed { " signed" } else { " unsigned" })?;
            append_numbers(text, &[(" size=", size), (" items=", items)])
        }
        Head::KFwd { is_union, .. } => append(text, if is_union { " union" } else { " struct" }),
        Head::KFunc { linkage, target, .. } | Head::KVar { target, linkage, .. } =>
            append_number(text, linkage_and_label(linkage), target),
        Head::KFuncProto { target } =>
            append_numbers(text, &[(" type=", target), (" items=", items)]),
        Head::KFloat { size, .. } => append_number(text, " size=", size),
        Head::KDeclTag { flag, target, component, .. } => {
            append_number(text, flag_and_label(flag), target)?;
            append_component(text, component)
        }
        Head::KTypeTag { flag, target, .. } => append_number(text, flag_and_label(flag), target),
    }
}

/// Appends the line of a type up to the first byte of its name: `id` in brackets, the kind, and a
/// quote if the kind has a name. To complete the line, append the name by [`append_quoted_part`]
/// and the rest by [`append_head_end`].
///
/// # Errors
///
/// `AllocError` if the vector can't grow. Its contents stay; part of the line may follow them.
pub fn append_head_start<A: Allocator>(
    text: &mut Vec<u8, A>,
    id: u32,
    head: Head<'_>,
) -> Result<(), AllocError>
    ensures { Appends result text.old (parts.head_start id (head_value head.entry)) text.new }
{
    append_number(text, "[", id)?;
    append(text, "] ")?;
    append(text, kind_word(head))?;
    append(text, if has_no_name(head.kind()) { "" } else { " \"" })
}

/// Appends the line of a type from the end of its name: the closing quote if the kind has a name,
/// the fields and a newline. `items` is the number of items of the type.
///
/// # Errors
///
/// `AllocError` if the vector can't grow. Its contents stay; part of the rest may follow them.
pub fn append_head_end<A: Allocator>(
    text: &mut Vec<u8, A>,
    head: Head<'_>,
    items: u32,
) -> Result<(), AllocError>
    ensures { Appends result text.old (parts.head_end (head_value head.entry) items) text.new }
{
    if !has_no_name(head.kind()) {
        append(text, "\"")?;
    }
    append_fields(text, head, items)?;
    append(text, "\n")
}

/// Appends the line of the type with the ID `id`, and a newline. `items` is the number of its
/// items. The kinds and their fields are those of btf.rst section 2.2.
///
/// # Errors
///
/// `AllocError` if the vector can't grow. Its contents stay; part of the line may follow them.
pub fn append_head<A: Allocator>(
    text: &mut Vec<u8, A>,
    id: u32,
    head: Head<'_>,
    items: u32,
) -> Result<(), AllocError>
    ensures { Appends result text.old (spec.head_line id (head_value head.entry) items) text.new }
{
    append_head_start(text, id, head)?;
    append_quoted_part(text, head.name().as_bytes())?;
    append_head_end(text, head, items)
}

/// Whether the values of a type are signed: the kind_flag of an ENUM or ENUM64 (btf.rst sections
/// 2.2.6 and 2.2.19), `false` for all other kinds.
pub fn is_signed(head: Head<'_>) -> bool
    ensures { result ≡ spec.is_signed (head_value head.entry) }
{
    match head {
        Head::KEnum { signed, .. } | Head::KEnum64 { signed, .. } => signed,
        _ => false,
    }
}
