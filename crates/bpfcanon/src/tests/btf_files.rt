//! BTF files, and what is shown of them.

/// No types, and a string section of one NUL.
pub const NO_TYPES: &[u8] = b"\x9f\xeb\x01\0\x18\0\0\0\0\0\0\0\0\0\0\0\0\0\0\0\x01\0\0\0\0";

/// A signed INT named `int`, in big-endian order.
pub const BIG_INT: &[u8] =
    b"\xeb\x9f\x01\0\0\0\0\x18\0\0\0\0\0\0\0\x10\0\0\0\x10\0\0\0\x05\0\0\0\x01\x01\0\0\0\0\0\0\x04\x01\0\0 \0int\0";

/// Its canonical bytes.
pub const INT: &[u8] =
    b"\x9f\xeb\x01\0\x18\0\0\0\0\0\0\0\x10\0\0\0\x10\0\0\0\x05\0\0\0\x01\0\0\0\0\0\0\x01\x04\0\0\0 \0\0\x01\0int\0";

/// An INT, and a STRUCT with a member of it and kind_flag 1.
pub const STRUCT: &[u8] =
    b"\x9f\xeb\x01\0\x18\0\0\0\0\0\0\0(\0\0\0(\0\0\0\x09\0\0\0\x01\0\0\0\0\0\0\x01\x04\0\0\0 \0\0\x01\x05\0\0\0\x01\0\0\x84\x04\0\0\0\x07\0\0\0\x01\0\0\0\0\0\0\0\0int\0s\0a\0";

/// The listing of its types.
pub const STRUCT_TEXT: &[u8] = b"[1] int \"int\" size=4 encoding=signed offset=0 bits=32\n\
    [2] struct \"s\" size=4 items=1\n\x20 member \"a\" type=1 offset=0 width=0\n";

/// A PTR to a type that doesn't exist.
pub const UNKNOWN_TYPE: &[u8] =
    b"\x9f\xeb\x01\0\x18\0\0\0\0\0\0\0\x0c\0\0\0\x0c\0\0\0\x01\0\0\0\0\0\0\0\0\0\0\x02\x02\0\0\0\0";

/// struct point { int x; int y; }, in a big-endian file.
pub fn point() -> &'static [u8] {
    b"\xeb\x9f\x01\0\0\0\0\x18\0\0\0\0\0\0\0\x34\0\0\0\x34\0\0\0\x0f\
    \0\0\0\x01\x01\0\0\0\0\0\0\x04\x01\0\0\x20\
    \0\0\0\x05\x04\0\0\x02\0\0\0\x08\
    \0\0\0\x0b\0\0\0\x01\0\0\0\0\0\0\0\x0d\0\0\0\x01\0\0\0\x20\
    \0int\0point\0x\0y\0"
}
