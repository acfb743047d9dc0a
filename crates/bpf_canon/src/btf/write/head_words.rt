//! The encoding of the header of a file and of the head of a record (btf.rst section 2).

ghost use Rattle.std.specs.Prelude.{◌≡◌, ◌<◌, ◌^◌, ◌++◌, OnOk};
ghost use Rattle.btf_raw.specs.Header.{header};
ghost use Rattle.btf_types.specs.Values.{head_value};
ghost use Rattle.btf_types.specs.Encoding as spec;
ghost use Rattle.bpf_canon.specs.btf.CanonicalBtf.{canonical_flag};
ghost use Rattle.bpf_canon.specs.btf.write.BtfWords as heads;

use bpf_words::{Order, push_words};
use btf_types::Head;
use std::alloc::{AllocError, Allocator};

/// The third word of a record (btf.rst section 2.2).
///
/// The standard declares this word as a union of size and type. It is named by its position here,
/// since for an ARRAY or FWD it is neither and has to be 0.
pub(crate) fn head_third(head: Head<'_>) -> u32
    ensures { result ≡ spec.head_third (head_value head.entry) }
{
    match head {
        Head::KInt { size, .. }
        | Head::KStruct { size, .. }
        | Head::KUnion { size, .. }
        | Head::KEnum { size, .. }
        | Head::KDatasec { size, .. }
        | Head::KFloat { size, .. }
        | Head::KEnum64 { size, .. } => size,
        Head::KPtr { target }
        | Head::KTypedef { target, .. }
        | Head::KVolatile { target }
        | Head::KConst { target }
        | Head::KRestrict { target }
        | Head::KFunc { target, .. }
        | Head::KFuncProto { target }
        | Head::KVar { target, .. }
        | Head::KDeclTag { target, .. }
        | Head::KTypeTag { target, .. } => target,
        Head::KArray { .. } | Head::KFwd { .. } => 0,
    }
}

/// kind_flag: for a STRUCT or UNION, 1 if and only if it has bit-fields; for an ENUM, ENUM64, FWD
/// or tag, the bit of its value.
pub(crate) fn kind_flag(head: Head<'_>, bit_fields: bool) -> u32
    ensures is { result ≡ canonical_flag (head_value head.entry) bit_fields }
    ensures bit { result < 2 }
{
    u32::from(match head {
        Head::KStruct { .. } | Head::KUnion { .. } => bit_fields,
        Head::KEnum { signed, .. } | Head::KEnum64 { signed, .. } => signed,
        Head::KFwd { is_union, .. } => is_union,
        Head::KDeclTag { flag, .. } | Head::KTypeTag { flag, .. } => flag,
        _ => false,
    })
}

/// vlen: the linkage of a FUNC, or the number of items of any other kind.
pub(crate) fn head_vlen(head: Head<'_>, count: u32) -> u32
    requires { count < 2 ^ 16 }
    ensures is { result ≡ heads.head_vlen (head_value head.entry) count }
    ensures fits { result < 2 ^ 16 }
{
    match head {
        Head::KFunc { linkage, .. } => linkage.number(),
        _ => count,
    }
}

/// Appends the 24-byte header of a BTF section whose types are followed by its strings (btf.rst
/// section 2): magic, version 1, flags 0, hdr_len, type_off 0, type_len, str_off = type_len and
/// str_len. Both lengths are in bytes.
///
/// # Errors
///
/// `AllocError` if an allocation failed.
pub fn push_header<A: Allocator>(
    out: &mut Vec<u8, A>,
    order: Order,
    types_len: u32,
    strings_len: u32,
) -> Result<(), AllocError>
    ensures { OnOk result (out.new.items
        ≡ out.old.items ++ header order 24 0 types_len types_len strings_len) }
{
    // the first three fields
    let start = match order {
        Order::Little => 0x0001_eb9f,
        Order::Big => 0xeb9f_0100,
    };
    push_words(
        out,
        order,
        &[start, 24, 0, types_len, types_len, strings_len],
    )
}
