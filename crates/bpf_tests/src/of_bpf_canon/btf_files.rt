//! BTF files with their canonical bytes (btf.rst section 2).

/// A BTF file, and its canonical bytes in little-endian order.
pub(crate) struct BtfFile {
    pub(crate) name: &'static str,
    pub(crate) bytes: &'static [u8],
    pub(crate) canonical: &'static [u8],
}

/// A signed INT named `int`, in big-endian order, and its canonical bytes.
pub(crate) const BIG_INT: &[u8] =
    b"\xeb\x9f\x01\0\0\0\0\x18\0\0\0\0\0\0\0\x10\0\0\0\x10\0\0\0\x05\0\0\0\x01\x01\0\0\0\0\0\0\x04\x01\0\0 \0int\0";

pub(crate) const INT: &[u8] =
    b"\x9f\xeb\x01\0\x18\0\0\0\0\0\0\0\x10\0\0\0\x10\0\0\0\x05\0\0\0\x01\0\0\0\0\0\0\x01\x04\0\0\0 \0\0\x01\0int\0";

/// The same with a longer header, the strings first, and a string that no record names.
pub(crate) const LOOSE_INT: &[u8] =
    b"\x9f\xeb\x01\0\x1c\0\0\0\x07\0\0\0\x10\0\0\0\0\0\0\0\x07\0\0\0\0\0\0\0\0x\0int\0\x03\0\0\0\0\0\0\x01\x04\0\0\0 \0\0\x01";

/// An ENUM64, in big-endian order.
pub(crate) const ENUM: &[u8] =
    b"\xeb\x9f\x01\0\0\0\0\x18\0\0\0\0\0\0\0\x18\0\0\0\x18\0\0\0\x05\0\0\0\x01\x93\0\0\x01\0\0\0\x08\0\0\0\x03\xff\xff\xff\xfe\xff\xff\xff\xff\0e\0m\0";

/// A PTR to type 2, in a file with one type.
pub(crate) const FAULTY: &[u8] =
    b"\x9f\xeb\x01\0\x18\0\0\0\0\0\0\0\x0c\0\0\0\x0c\0\0\0\x01\0\0\0\0\0\0\0\0\0\0\x02\x02\0\0\0\0";

/// No types, and a section that holds a NUL.
pub(crate) const EMPTY: &[u8] = b"\x9f\xeb\x01\0\x18\0\0\0\0\0\0\0\0\0\0\0\0\0\0\0\x01\0\0\0\0";

/// The same with the strings first.
pub(crate) const STRINGS_FIRST: &[u8] =
    b"\x9f\xeb\x01\0\x18\0\0\0\x01\0\0\0\0\0\0\0\0\0\0\0\x01\0\0\0\0";

/// A member's offset word whose high byte is 1: bit offset 2 ^ 24 in a STRUCT with kind_flag 0, and a width of 1 with kind_flag 1.
pub(crate) const WIDE_OFFSET: &[u8] =
    b"\x9f\xeb\x01\0\x18\0\0\0\0\0\0\0\x18\0\0\0\x18\0\0\0\x01\0\0\0\0\0\0\0\x01\0\0\x04\0\0@\0\0\0\0\0\0\0\0\0\0\0\0\x01\0";

pub(crate) const BIT_FIELD: &[u8] =
    b"\x9f\xeb\x01\0\x18\0\0\0\0\0\0\0\x18\0\0\0\x18\0\0\0\x01\0\0\0\0\0\0\0\x01\0\0\x84\0\0@\0\0\0\0\0\0\0\0\0\0\0\0\x01\0";

#[rattlefmt::skip]
pub(crate) fn worked_files() -> [&'static [BtfFile]; 4] {[&[
    BtfFile { name: "no types", bytes: EMPTY, canonical: EMPTY },
    BtfFile { name: "no types, and the strings first", bytes: STRINGS_FIRST, canonical: EMPTY },
    BtfFile { name: "a big-endian file", bytes: BIG_INT, canonical: INT },
    BtfFile { name: "a name that is a suffix of an earlier one", bytes: b"\x9f\xeb\x01\0\x18\0\0\0\0\0\0\0 \0\0\0 \0\0\0\x0e\0\0\0\x01\0\0\0\0\0\0\x01\x04\0\0\0 \0\0\0\x0a\0\0\0\0\0\0\x01\x04\0\0\0 \0\0\x01\0unsigned int\0", canonical: b"\x9f\xeb\x01\0\x18\0\0\0\0\0\0\0 \0\0\0 \0\0\0\x0e\0\0\0\x01\0\0\0\0\0\0\x01\x04\0\0\0 \0\0\0\x0a\0\0\0\0\0\0\x01\x04\0\0\0 \0\0\x01\0unsigned int\0" },
    BtfFile { name: "the same two names in strings of their own", bytes: b"\x9f\xeb\x01\0\x18\0\0\0\0\0\0\0 \0\0\0 \0\0\0\x12\0\0\0\x01\0\0\0\0\0\0\x01\x04\0\0\0 \0\0\0\x0e\0\0\0\0\0\0\x01\x04\0\0\0 \0\0\x01\0unsigned int\0int\0", canonical: b"\x9f\xeb\x01\0\x18\0\0\0\0\0\0\0 \0\0\0 \0\0\0\x0e\0\0\0\x01\0\0\0\0\0\0\x01\x04\0\0\0 \0\0\0\x0a\0\0\0\0\0\0\x01\x04\0\0\0 \0\0\x01\0unsigned int\0" },
    BtfFile { name: "a name that is a suffix of a later one", bytes: b"\x9f\xeb\x01\0\x18\0\0\0\0\0\0\0 \0\0\0 \0\0\0\x0e\0\0\0\x0a\0\0\0\0\0\0\x01\x04\0\0\0 \0\0\0\x01\0\0\0\0\0\0\x01\x04\0\0\0 \0\0\x01\0unsigned int\0", canonical: b"\x9f\xeb\x01\0\x18\0\0\0\0\0\0\0 \0\0\0 \0\0\0\x0e\0\0\0\x0a\0\0\0\0\0\0\x01\x04\0\0\0 \0\0\0\x01\0\0\0\0\0\0\x01\x04\0\0\0 \0\0\x01\0unsigned int\0" },
], &[
    BtfFile { name: "a longer header, strings first, a string that no record names", bytes: LOOSE_INT, canonical: INT },
    BtfFile { name: "kind_flag without a width", bytes: b"\x9f\xeb\x01\0\x18\0\0\0\0\0\0\0(\0\0\0(\0\0\0\x09\0\0\0\x01\0\0\0\0\0\0\x01\x04\0\0\0 \0\0\x01\x05\0\0\0\x01\0\0\x84\x04\0\0\0\x07\0\0\0\x01\0\0\0\0\0\0\0\0int\0s\0a\0", canonical: b"\x9f\xeb\x01\0\x18\0\0\0\0\0\0\0(\0\0\0(\0\0\0\x09\0\0\0\x01\0\0\0\0\0\0\x01\x04\0\0\0 \0\0\x01\x05\0\0\0\x01\0\0\x04\x04\0\0\0\x07\0\0\0\x01\0\0\0\0\0\0\0\0int\0s\0a\0" },
    BtfFile { name: "kind_flag with a width", bytes: b"\x9f\xeb\x01\0\x18\0\0\0\0\0\0\0(\0\0\0(\0\0\0\x09\0\0\0\x01\0\0\0\0\0\0\x01\x04\0\0\0 \0\0\x01\x05\0\0\0\x01\0\0\x84\x04\0\0\0\x07\0\0\0\x01\0\0\0\0\0\0\x03\0int\0s\0a\0", canonical: b"\x9f\xeb\x01\0\x18\0\0\0\0\0\0\0(\0\0\0(\0\0\0\x09\0\0\0\x01\0\0\0\0\0\0\x01\x04\0\0\0 \0\0\x01\x05\0\0\0\x01\0\0\x84\x04\0\0\0\x07\0\0\0\x01\0\0\0\0\0\0\x03\0int\0s\0a\0" },
    BtfFile { name: "a tag whose name is a suffix of another", bytes: b"\x9f\xeb\x01\0\x18\0\0\0\0\0\0\0D\0\0\0D\0\0\0\x0d\0\0\0\x01\0\0\0\0\0\0\x01\x04\0\0\0 \0\0\x01\x05\0\0\0\x02\0\0\x04\x08\0\0\0\x07\0\0\0\x01\0\0\0\0\0\0\0\x09\0\0\0\x01\0\0\0 \0\0\0\x0b\0\0\0\0\0\0\x11\x02\0\0\0\x01\0\0\0\0int\0s\0a\0b\0t\0", canonical: b"\x9f\xeb\x01\0\x18\0\0\0\0\0\0\0D\0\0\0D\0\0\0\x0b\0\0\0\x01\0\0\0\0\0\0\x01\x04\0\0\0 \0\0\x01\x05\0\0\0\x02\0\0\x04\x08\0\0\0\x07\0\0\0\x01\0\0\0\0\0\0\0\x09\0\0\0\x01\0\0\0 \0\0\0\x03\0\0\0\0\0\0\x11\x02\0\0\0\x01\0\0\0\0int\0s\0a\0b\0" },
    BtfFile { name: "an empty name at the end of a string", bytes: b"\x9f\xeb\x01\0\x18\0\0\0\0\0\0\0\x0c\0\0\0\x0c\0\0\0\x05\0\0\0\x04\0\0\0\0\0\0\x02\0\0\0\0\0int\0", canonical: b"\x9f\xeb\x01\0\x18\0\0\0\0\0\0\0\x0c\0\0\0\x0c\0\0\0\x01\0\0\0\0\0\0\0\0\0\0\x02\0\0\0\0\0" },
    BtfFile { name: "an ENUM64 with a negative value", bytes: ENUM, canonical: b"\x9f\xeb\x01\0\x18\0\0\0\0\0\0\0\x18\0\0\0\x18\0\0\0\x05\0\0\0\x01\0\0\0\x01\0\0\x93\x08\0\0\0\x03\0\0\0\xfe\xff\xff\xff\xff\xff\xff\xff\0e\0m\0" },
    BtfFile { name: "a bit offset of 2 ^ 24", bytes: WIDE_OFFSET, canonical: WIDE_OFFSET },
], &[
    BtfFile { name: "a width at bit offset 0", bytes: BIT_FIELD, canonical: BIT_FIELD },
    BtfFile { name: "kind_flag without members", bytes: b"\x9f\xeb\x01\0\x18\0\0\0\0\0\0\0\x0c\0\0\0\x0c\0\0\0\x01\0\0\0\0\0\0\0\0\0\0\x84\0\0\0\0\0", canonical: b"\x9f\xeb\x01\0\x18\0\0\0\0\0\0\0\x0c\0\0\0\x0c\0\0\0\x01\0\0\0\0\0\0\0\0\0\0\x04\0\0\0\0\0" },
    BtfFile { name: "a name that is a suffix of two, with the later one as host", bytes: b"\x9f\xeb\x01\0\x18\0\0\0\0\0\0\0$\0\0\0$\0\0\0\x0e\0\0\0\x0a\0\0\0\0\0\0\x08\0\0\0\0\x01\0\0\0\0\0\0\x08\0\0\0\0\x06\0\0\0\0\0\0\x08\0\0\0\0\0c\0bc\0abc\0dbc\0", canonical: b"\x9f\xeb\x01\0\x18\0\0\0\0\0\0\0$\0\0\0$\0\0\0\x09\0\0\0\x01\0\0\0\0\0\0\x08\0\0\0\0\x07\0\0\0\0\0\0\x08\0\0\0\0\x05\0\0\0\0\0\0\x08\0\0\0\0\0dbc\0abc\0" },
    BtfFile { name: "a FLOAT of 12 bytes", bytes: b"\x9f\xeb\x01\0\x18\0\0\0\0\0\0\0\x0c\0\0\0\x0c\0\0\0\x01\0\0\0\0\0\0\0\0\0\0\x10\x0c\0\0\0\0", canonical: b"\x9f\xeb\x01\0\x18\0\0\0\0\0\0\0\x0c\0\0\0\x0c\0\0\0\x01\0\0\0\0\0\0\0\0\0\0\x10\x0c\0\0\0\0" },
    BtfFile { name: "an INT without bits", bytes: b"\x9f\xeb\x01\0\x18\0\0\0\0\0\0\0\x10\0\0\0\x10\0\0\0\x01\0\0\0\0\0\0\0\0\0\0\x01\x01\0\0\0\0\0\0\0\0", canonical: b"\x9f\xeb\x01\0\x18\0\0\0\0\0\0\0\x10\0\0\0\x10\0\0\0\x01\0\0\0\0\0\0\0\0\0\0\x01\x01\0\0\0\0\0\0\0\0" },
    BtfFile { name: "kind_flag without a width, beside an INT of 31 bits", bytes: b"\x9f\xeb\x01\0\x18\0\0\0\0\0\0\0(\0\0\0(\0\0\0\x09\0\0\0\x01\0\0\0\0\0\0\x01\x04\0\0\0\x1f\0\0\x01\x05\0\0\0\x01\0\0\x84\x04\0\0\0\x07\0\0\0\x01\0\0\0\0\0\0\0\0int\0s\0a\0", canonical: b"\x9f\xeb\x01\0\x18\0\0\0\0\0\0\0(\0\0\0(\0\0\0\x09\0\0\0\x01\0\0\0\0\0\0\x01\x04\0\0\0\x1f\0\0\x01\x05\0\0\0\x01\0\0\x04\x04\0\0\0\x07\0\0\0\x01\0\0\0\0\0\0\0\0int\0s\0a\0" },
], &[
    BtfFile { name: "a bit-field that ends with its record", bytes: b"\x9f\xeb\x01\0\x18\0\0\0\0\0\0\0(\0\0\0(\0\0\0\x09\0\0\0\x01\0\0\0\0\0\0\x01\x04\0\0\0 \0\0\x01\x05\0\0\0\x01\0\0\x84\x04\0\0\0\x07\0\0\0\x01\0\0\0\x1d\0\0\x03\0int\0s\0a\0", canonical: b"\x9f\xeb\x01\0\x18\0\0\0\0\0\0\0(\0\0\0(\0\0\0\x09\0\0\0\x01\0\0\0\0\0\0\x01\x04\0\0\0 \0\0\x01\x05\0\0\0\x01\0\0\x84\x04\0\0\0\x07\0\0\0\x01\0\0\0\x1d\0\0\x03\0int\0s\0a\0" },
    BtfFile { name: "a tag of a whole VAR", bytes: b"\x9f\xeb\x01\0\x18\0\0\0\0\0\0\0 \0\0\0 \0\0\0\x05\0\0\0\x01\0\0\0\0\0\0\x0e\0\0\0\0\0\0\0\0\x03\0\0\0\0\0\0\x11\x01\0\0\0\xff\xff\xff\xff\0f\0t\0", canonical: b"\x9f\xeb\x01\0\x18\0\0\0\0\0\0\0 \0\0\0 \0\0\0\x05\0\0\0\x01\0\0\0\0\0\0\x0e\0\0\0\0\0\0\0\0\x03\0\0\0\0\0\0\x11\x01\0\0\0\xff\xff\xff\xff\0f\0t\0" },
    BtfFile { name: "a FUNC in a DATASEC", bytes: b"\x9f\xeb\x01\0\x18\0\0\0\0\0\0\00\0\0\00\0\0\0\x0a\0\0\0\0\0\0\0\0\0\0\x0d\0\0\0\0\x01\0\0\0\x02\0\0\x0c\x01\0\0\0\x03\0\0\0\x01\0\0\x0f\0\0\0\0\x02\0\0\0\0\0\0\0\0\0\0\0\0f\0.ksyms\0", canonical: b"\x9f\xeb\x01\0\x18\0\0\0\0\0\0\00\0\0\00\0\0\0\x0a\0\0\0\0\0\0\0\0\0\0\x0d\0\0\0\0\x01\0\0\0\x02\0\0\x0c\x01\0\0\0\x03\0\0\0\x01\0\0\x0f\0\0\0\0\x02\0\0\0\0\0\0\0\0\0\0\0\0f\0.ksyms\0" },
    BtfFile { name: "a name that is no identifier", bytes: b"\x9f\xeb\x01\0\x18\0\0\0\0\0\0\0\x0c\0\0\0\x0c\0\0\0\x07\0\0\0\x01\0\0\0\0\0\0\x08\0\0\0\0\0a\"\\\x01\x7f\0", canonical: b"\x9f\xeb\x01\0\x18\0\0\0\0\0\0\0\x0c\0\0\0\x0c\0\0\0\x07\0\0\0\x01\0\0\0\0\0\0\x08\0\0\0\0\0a\"\\\x01\x7f\0" },
    BtfFile { name: "a tag of a whole STRUCT", bytes: b"\x9f\xeb\x01\0\x18\0\0\0\0\0\0\0D\0\0\0D\0\0\0\x0d\0\0\0\x01\0\0\0\0\0\0\x01\x04\0\0\0 \0\0\x01\x05\0\0\0\x02\0\0\x04\x08\0\0\0\x07\0\0\0\x01\0\0\0\0\0\0\0\x09\0\0\0\x01\0\0\0 \0\0\0\x0b\0\0\0\0\0\0\x11\x02\0\0\0\xff\xff\xff\xff\0int\0s\0a\0b\0t\0", canonical: b"\x9f\xeb\x01\0\x18\0\0\0\0\0\0\0D\0\0\0D\0\0\0\x0b\0\0\0\x01\0\0\0\0\0\0\x01\x04\0\0\0 \0\0\x01\x05\0\0\0\x02\0\0\x04\x08\0\0\0\x07\0\0\0\x01\0\0\0\0\0\0\0\x09\0\0\0\x01\0\0\0 \0\0\0\x03\0\0\0\0\0\0\x11\x02\0\0\0\xff\xff\xff\xff\0int\0s\0a\0b\0" },
    BtfFile { name: "a small file that is canonical", bytes: INT, canonical: INT },
]]}
