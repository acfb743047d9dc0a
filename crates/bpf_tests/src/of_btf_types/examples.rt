//! Worked files.

/// An INT in big-endian order.
pub(crate) const BIG_INT: &[u8] =
    b"\xeb\x9f\x01\0\0\0\0\x18\0\0\0\0\0\0\0\x10\0\0\0\x10\0\0\0\x05\0\0\0\x01\x01\0\0\0\0\0\0\x04\x01\0\0 \0int\0";

/// The same in little-endian order.
pub(crate) const LITTLE_INT: &[u8] =
    b"\x9f\xeb\x01\0\x18\0\0\0\0\0\0\0\x10\0\0\0\x10\0\0\0\x05\0\0\0\x01\0\0\0\0\0\0\x01\x04\0\0\0 \0\0\x01\0int\0";

/// Two INTs, one named by the end of the other's name.
pub(crate) const SHARED_NAME: &[u8] =
    b"\x9f\xeb\x01\0\x18\0\0\0\0\0\0\0 \0\0\0 \0\0\0\x0e\0\0\0\x01\0\0\0\0\0\0\x01\x04\0\0\0 \0\0\0\x0a\0\0\0\0\0\0\x01\x04\0\0\0 \0\0\x01\0unsigned int\0";

/// Four bytes more of header, the strings before the types, and a string that no record names.
pub(crate) const STRINGS_FIRST: &[u8] =
    b"\x9f\xeb\x01\0\x1c\0\0\0\x07\0\0\0\x10\0\0\0\0\0\0\0\x07\0\0\0\0\0\0\0\0x\0int\0\x03\0\0\0\0\0\0\x01\x04\0\0\0 \0\0\x01";

/// A STRUCT with kind_flag 1, whose member's width is 0.
pub(crate) const MEMBER: &[u8] =
    b"\x9f\xeb\x01\0\x18\0\0\0\0\0\0\0(\0\0\0(\0\0\0\x09\0\0\0\x01\0\0\0\0\0\0\x01\x04\0\0\0 \0\0\x01\x05\0\0\0\x01\0\0\x84\x04\0\0\0\x07\0\0\0\x01\0\0\0\0\0\0\0\0int\0s\0a\0";

/// A PTR to a type that doesn't exist.
pub(crate) const BEYOND: &[u8] =
    b"\x9f\xeb\x01\0\x18\0\0\0\0\0\0\0\x0c\0\0\0\x0c\0\0\0\x01\0\0\0\0\0\0\0\0\0\0\x02\x02\0\0\0\0";

/// A DECL_TAG of the second of two members.
pub(crate) const TAGGED: &[u8] =
    b"\x9f\xeb\x01\0\x18\0\0\0\0\0\0\0D\0\0\0D\0\0\0\x0d\0\0\0\x01\0\0\0\0\0\0\x01\x04\0\0\0 \0\0\x01\x05\0\0\0\x02\0\0\x04\x08\0\0\0\x07\0\0\0\x01\0\0\0\0\0\0\0\x09\0\0\0\x01\0\0\0 \0\0\0\x0b\0\0\0\0\0\0\x11\x02\0\0\0\x01\0\0\0\0int\0s\0a\0b\0t\0";

/// A PTR whose name is the empty text at the section's end.
pub(crate) const EMPTY_NAME: &[u8] =
    b"\x9f\xeb\x01\0\x18\0\0\0\0\0\0\0\x0c\0\0\0\x0c\0\0\0\x05\0\0\0\x04\0\0\0\0\0\0\x02\0\0\0\0\0int\0";

/// An ENUM64 in big-endian order.
pub(crate) const BIG_ENUM64: &[u8] =
    b"\xeb\x9f\x01\0\0\0\0\x18\0\0\0\0\0\0\0\x18\0\0\0\x18\0\0\0\x05\0\0\0\x01\x93\0\0\x01\0\0\0\x08\0\0\0\x03\xff\xff\xff\xfe\xff\xff\xff\xff\0e\0m\0";

/// The same in little-endian order.
pub(crate) const LITTLE_ENUM64: &[u8] =
    b"\x9f\xeb\x01\0\x18\0\0\0\0\0\0\0\x18\0\0\0\x18\0\0\0\x05\0\0\0\x01\0\0\0\x01\0\0\x93\x08\0\0\0\x03\0\0\0\xfe\xff\xff\xff\xff\xff\xff\xff\0e\0m\0";

/// No types at all.
pub(crate) const EMPTY: &[u8] = b"\x9f\xeb\x01\0\x18\0\0\0\0\0\0\0\0\0\0\0\0\0\0\0\x01\0\0\0\0";

/// A member's offset field whose high byte is 1, in a STRUCT with kind_flag 0.
pub(crate) const WIDE_OFFSET: &[u8] =
    b"\x9f\xeb\x01\0\x18\0\0\0\0\0\0\0\x18\0\0\0\x18\0\0\0\x01\0\0\0\0\0\0\0\x01\0\0\x04\0\0@\0\0\0\0\0\0\0\0\0\0\0\0\x01\0";

/// A VAR and a DECL_TAG with a component of it.
pub(crate) const TAG_OF_VAR: &[u8] =
    b"\x9f\xeb\x01\0\x18\0\0\0\0\0\0\0 \0\0\0 \0\0\0\x05\0\0\0\x01\0\0\0\0\0\0\x0e\0\0\0\0\0\0\0\0\x03\0\0\0\0\0\0\x11\x01\0\0\0\0\0\0\0\0f\0t\0";

/// A FUNC_PROTO, a FUNC, and a DATASEC with an entry for it.
pub(crate) const FUNC_ENTRY: &[u8] =
    b"\x9f\xeb\x01\0\x18\0\0\0\0\0\0\00\0\0\00\0\0\0\x0a\0\0\0\0\0\0\0\0\0\0\x0d\0\0\0\0\x01\0\0\0\x02\0\0\x0c\x01\0\0\0\x03\0\0\0\x01\0\0\x0f\0\0\0\0\x02\0\0\0\0\0\0\0\0\0\0\0\0f\0.ksyms\0";

/// A named FWD whose size or type is 1.
pub(crate) const NAMED_FWD: &[u8] =
    b"\x9f\xeb\x01\0\x18\0\0\0\0\0\0\0\x0c\0\0\0\x0c\0\0\0\x03\0\0\0\x01\0\0\0\0\0\0\x07\x01\0\0\0\0f\0";

/// A FUNC of void with linkage 3.
pub(crate) const BAD_LINKAGE: &[u8] =
    b"\x9f\xeb\x01\0\x18\0\0\0\0\0\0\0\x0c\0\0\0\x0c\0\0\0\x03\0\0\0\x01\0\0\0\x03\0\0\x0c\0\0\0\0\0f\0";

/// An INT of a byte with 9 bits.
pub(crate) const SMALL_INT: &[u8] =
    b"\x9f\xeb\x01\0\x18\0\0\0\0\0\0\0\x10\0\0\0\x10\0\0\0\x01\0\0\0\0\0\0\0\0\0\0\x01\x01\0\0\0\x09\0\0\0\0";

/// A FLOAT of 3 bytes.
pub(crate) const ODD_FLOAT: &[u8] =
    b"\x9f\xeb\x01\0\x18\0\0\0\0\0\0\0\x0c\0\0\0\x0c\0\0\0\x01\0\0\0\0\0\0\0\0\0\0\x10\x03\0\0\0\0";

/// A record of three fields, all of them 0.
pub(crate) const BARE: &[u8] =
    b"\x9f\xeb\x01\0\x18\0\0\0\0\0\0\0\x0c\0\0\0\x0c\0\0\0\x01\0\0\0\0\0\0\0\0\0\0\0\0\0\0\0\0";

/// Three TYPEDEFs, one named by the end of both other names.
pub(crate) const TAILS: &[u8] =
    b"\x9f\xeb\x01\0\x18\0\0\0\0\0\0\0$\0\0\0$\0\0\0\x0e\0\0\0\x0a\0\0\0\0\0\0\x08\0\0\0\0\x01\0\0\0\0\0\0\x08\0\0\0\0\x06\0\0\0\0\0\0\x08\0\0\0\0\0c\0bc\0abc\0dbc\0";
