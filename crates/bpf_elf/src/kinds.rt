//! The kinds of sections, and how each is recognized.
//!
//! A section has the kind that libbpf and cilium/ebpf give it, by its type, its name and its flags.
//! One that they tell apart by different properties has none, so that all loaders agree on the rest.

ghost use Rattle.std.specs.Prelude.{◌≡◌, ◌<◌};
ghost use Rattle.bpf_elf.specs.Kinds as spec;

/// What becomes of a section in the canonical file.
#[derive(Clone, Copy, Debug, PartialEq, Eq)]
pub enum Kind {
    /// Code or data, which is copied.
    Data,
    /// A table of relocations of code or data.
    Relocations,
    /// The symbols.
    Symbols,
    /// Types: .BTF.
    Types,
    /// Functions, source lines and CO-RE relocations: .BTF.ext.
    Extension,
    /// What no loader reads: names, and information for debuggers.
    Dropped,
}

pub(crate) const SHT_PROGBITS: u32 = 1;

pub(crate) const SHT_SYMTAB: u32 = 2;

pub(crate) const SHT_STRTAB: u32 = 3;

pub(crate) const SHT_NOTE: u32 = 7;

pub(crate) const SHT_NOBITS: u32 = 8;

pub(crate) const SHT_REL: u32 = 9;

pub(crate) const SHT_INIT_ARRAY: u32 = 14;

pub(crate) const SHT_FINI_ARRAY: u32 = 15;

pub(crate) const SHT_LLVM_ADDRSIG: u32 = 0x6fff_4c03;

const SHF_ALLOC: u64 = 0x2;

const SHF_EXECINSTR: u64 = 0x4;

const SHF_INFO_LINK: u64 = 0x40;

const SHF_LINK_ORDER: u64 = 0x80;

const SHF_GROUP: u64 = 0x200;

const SHF_COMPRESSED: u64 = 0x800;

/// Whether a flag, which is one bit, is set.
fn has_flag(flag: u64, flags: u64) -> bool
    requires { 0 < flag }
    ensures { result ≡ spec.has_flag flag flags }
{
    flags / flag % 2 == 1
}

/// Whether the section has instructions.
pub(crate) fn is_executable(flags: u64) -> bool
    ensures { result ≡ spec.is_executable flags }
{
    has_flag(SHF_EXECINSTR, flags)
}

/// Whether a loader takes the section into memory.
fn is_loaded(flags: u64) -> bool
    ensures { result ≡ spec.is_loaded flags }
{
    has_flag(SHF_ALLOC, flags) || is_executable(flags)
}

/// Whether the section may hold indices of others.
fn has_indices(flags: u64) -> bool
    ensures { result ≡ spec.has_indices flags }
{
    has_flag(SHF_INFO_LINK, flags) || has_flag(SHF_LINK_ORDER, flags) || has_flag(SHF_GROUP, flags)
}

/// Whether the section is one that isn't loaded, and isn't compressed.
fn is_plain(flags: u64) -> bool
    ensures { result ≡ spec.is_plain flags }
{
    !is_loaded(flags) && !has_flag(SHF_COMPRESSED, flags)
}

/// Whether a name is that of debugging information.
fn is_debug(name: &[u8]) -> bool
    ensures { result ≡ spec.is_debug name.now }
{
    name.starts_with(b".debug_")
}

/// Whether no loader reads the relocations of a section of this name.
fn is_unrelocated(name: &[u8]) -> bool
    ensures { result ≡ spec.is_unrelocated name.now }
{
    is_debug(name) || name == b".BTF".as_slice() || name == b".BTF.ext".as_slice()
}

/// Whether a name is that of a table of relocations that no loader reads.
fn is_unread_table(name: &[u8]) -> bool
    ensures { result ≡ spec.is_unread_table name.now }
{
    name.starts_with(b".rel") && is_unrelocated(&name[4..])
}

/// Whether a name is that of a string table.
fn is_strings_name(name: &[u8]) -> bool
    ensures { result ≡ spec.is_strings_name name.now }
{
    name == b".strtab".as_slice() || name == b".shstrtab".as_slice()
}

/// Whether a name is that of a section whose content no canonical file can hold: the source as
/// bitcode, and types that .BTF goes on from.
fn is_refused_name(name: &[u8]) -> bool
    ensures { result ≡ spec.is_refused_name name.now }
{
    name == b".llvm.lto".as_slice() || name == b".BTF.base".as_slice()
}

/// Whether code and data can't have this name, because sections of this name are written anew,
/// dropped or refused.
pub fn is_reserved(name: &[u8]) -> bool
    ensures { result ≡ spec.is_reserved name.now }
{
    is_unrelocated(name)
        || is_unread_table(name)
        || is_strings_name(name)
        || name == b".symtab".as_slice()
        || name == b".llvm_addrsig".as_slice()
        || is_refused_name(name)
}

/// A kind, if the section has what it requires.
fn if_fits(fits: bool, kind: Kind) -> Option<Kind>
    ensures { result ≡ spec.if_fits fits kind }
{
    fits.then_some(kind)
}

fn data_kind(name: &[u8], flags: u64) -> Option<Kind>
    ensures { result ≡ spec.data_kind name.now flags }
{
    let fits = !is_reserved(name) && !has_flag(SHF_COMPRESSED, flags) && !has_indices(flags);
    if_fits(fits, Kind::Data)
}

fn progbits_kind(name: &[u8], flags: u64) -> Option<Kind>
    ensures { result ≡ spec.progbits_kind name.now flags }
{
    if is_debug(name) {
        if_fits(!is_executable(flags), Kind::Dropped)
    } else if name == b".BTF".as_slice() {
        if_fits(is_plain(flags), Kind::Types)
    } else if name == b".BTF.ext".as_slice() {
        if_fits(is_plain(flags), Kind::Extension)
    } else {
        data_kind(name, flags)
    }
}

/// All loaders take data without bytes in the file for zeros if its name begins with .bss.
fn nobits_kind(name: &[u8], flags: u64) -> Option<Kind>
    ensures { result ≡ spec.nobits_kind name.now flags }
{
    if name.starts_with(b".bss") {
        data_kind(name, flags)
    } else {
        None
    }
}

fn relocations_kind(name: &[u8], flags: u64) -> Option<Kind>
    ensures { result ≡ spec.relocations_kind name.now flags }
{
    let kind = if is_unread_table(name) {
        Kind::Dropped
    } else {
        Kind::Relocations
    };
    if_fits(name.starts_with(b".rel") && is_plain(flags), kind)
}

fn table_kind(section_type: u32, name: &[u8], flags: u64) -> Option<Kind>
    ensures { result ≡ spec.table_kind section_type name.now flags }
{
    match section_type {
        SHT_SYMTAB => if_fits(
            name == b".symtab".as_slice() && is_plain(flags),
            Kind::Symbols,
        ),
        SHT_STRTAB => if_fits(is_strings_name(name) && is_plain(flags), Kind::Dropped),
        SHT_LLVM_ADDRSIG => if_fits(
            name == b".llvm_addrsig".as_slice() && is_plain(flags),
            Kind::Dropped,
        ),
        _ => None,
    }
}

/// The kind of a section by its type, name and flags. None for one that can't be in an object file
/// whose canonical form is defined.
#[tactic(auto, unfolding(crate::specs::Kinds::kind_of))]
pub(crate) fn kind_of(section_type: u32, name: &[u8], flags: u64) -> Option<Kind>
    ensures { result ≡ spec.kind_of section_type name.now flags }
{
    match section_type {
        SHT_PROGBITS => progbits_kind(name, flags),
        SHT_NOBITS => nobits_kind(name, flags),
        SHT_NOTE | SHT_INIT_ARRAY | SHT_FINI_ARRAY => data_kind(name, flags),
        SHT_REL => relocations_kind(name, flags),
        _ => table_kind(section_type, name, flags),
    }
}

/// Whether a kind is this one.
pub(crate) fn is_kind(wanted: Kind, kind: Option<Kind>) -> bool
    ensures { result ≡ spec.is_kind wanted kind }
{
    kind == Some(wanted)
}

/// Whether a file has at most one section of a kind.
pub(crate) fn is_single(kind: Option<Kind>) -> bool
    ensures { result ≡ spec.is_single kind }
{
    is_kind(Kind::Symbols, kind) || is_kind(Kind::Types, kind) || is_kind(Kind::Extension, kind)
}
