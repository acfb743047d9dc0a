//! The section header table (System V ABI, "Sections"): the fields, bytes, names and kinds of
//! sections.

ghost use Rattle.std.specs.Prelude.{◌≡◌, ◌<◌, ◌≤◌, true, length};
ghost use Rattle.bpf_elf.specs.Numbers.{count, name_off, names};
ghost use Rattle.bpf_elf.specs.Names.{is_closed, is_section_name};
ghost use Rattle.bpf_elf.specs.Sections as spec;
ghost use Rattle.bpf_elf.specs.Headers.{IsHeaderOf, HasNames};
ghost use Rattle.bpf_elf.specs.SectionHeaders.{IsSectionHeader};

use crate::header::Header;
use crate::kinds::{Kind, SHT_NOBITS, SHT_STRTAB, is_kind, kind_of};
use crate::names::{is_closed, string_at};
use crate::numbers::get64;
use bpf_words::get32;

/// The header of a section. Offsets and sizes are in bytes.
#[derive(Clone, Copy, Debug, PartialEq, Eq)]
pub struct SectionHeader {
    /// sh_name: the offset of the name in the section with the names.
    pub name_offset: u32,
    /// sh_type.
    pub section_type: u32,
    /// sh_flags.
    pub flags: u64,
    /// sh_addr.
    pub address: u64,
    /// sh_offset: where the content is, from the start of the file.
    pub offset: u64,
    /// sh_size.
    pub size: u64,
    /// sh_link.
    pub link: u32,
    /// sh_info.
    pub info: u32,
    /// sh_addralign.
    pub alignment: u64,
    /// sh_entsize.
    pub entry_size: u64,
}

/// The header of a section.
pub(crate) fn section_header(bytes: &[u8], header: Header, i: usize) -> SectionHeader
    requires header { IsHeaderOf bytes.now header }
    requires there { i < count bytes.now }
    ensures { IsSectionHeader bytes.now i result }
{
    let order = header.order;
    let pos = header.table + 64 * i;
    SectionHeader {
        name_offset: get32(order, bytes, pos),
        section_type: get32(order, bytes, pos + 4),
        flags: get64(order, bytes, pos + 8),
        address: get64(order, bytes, pos + 16),
        offset: get64(order, bytes, pos + 24),
        size: get64(order, bytes, pos + 32),
        link: get32(order, bytes, pos + 40),
        info: get32(order, bytes, pos + 44),
        alignment: get64(order, bytes, pos + 48),
        entry_size: get64(order, bytes, pos + 56),
    }
}

/// The number of bytes that a section has in the file.
fn file_size(bytes: &[u8], header: Header, i: usize) -> u64
    requires header { IsHeaderOf bytes.now header }
    requires there { i < count bytes.now }
    ensures { result ≡ spec.file_size bytes.now i }
{
    let section = section_header(bytes, header, i);
    if section.section_type == SHT_NOBITS {
        0
    } else {
        section.size
    }
}

/// Whether a section is inside the file.
pub(crate) fn is_inside(bytes: &[u8], header: Header, i: usize) -> bool
    requires header { IsHeaderOf bytes.now header }
    requires there { i < count bytes.now }
    ensures { result ≡ spec.is_inside bytes.now i }
{
    let len = bytes.len() as u64;
    let offset = section_header(bytes, header, i).offset;
    offset <= len && file_size(bytes, header, i) <= len - offset
}

/// The number of bytes that the canonical file has of a section of this kind.
pub(crate) fn kept_size(bytes: &[u8], header: Header, kind: Option<Kind>, i: usize) -> usize
    requires header { IsHeaderOf bytes.now header }
    requires there { i < count bytes.now }
    requires inside { spec.is_inside bytes.now i ≡ true }
    requires kind { kind ≡ spec.kind bytes.now i }
    ensures value { result ≡ spec.kept_size bytes.now i }
    ensures small { result ≤ length bytes.now }
{
    if is_kind(Kind::Data, kind) || is_kind(Kind::Relocations, kind) {
        file_size(bytes, header, i) as usize
    } else {
        0
    }
}

/// The bytes of a section.
pub(crate) fn content(bytes: &[u8], header: Header, i: usize) -> &[u8]
    requires header { IsHeaderOf bytes.now header }
    requires there { i < count bytes.now }
    requires inside { spec.is_inside bytes.now i ≡ true }
    ensures { result.now ≡ spec.content bytes.now i }
{
    let offset = section_header(bytes, header, i).offset as usize;
    let size = file_size(bytes, header, i) as usize;
    &bytes[offset..offset + size]
}

/// Whether a section is a string table.
pub(crate) fn is_string_table(bytes: &[u8], header: Header, i: usize) -> bool
    requires header { IsHeaderOf bytes.now header }
    requires there { i < count bytes.now }
    ensures { result ≡ spec.is_string_table bytes.now i }
{
    section_header(bytes, header, i).section_type == SHT_STRTAB
        && is_inside(bytes, header, i)
        && is_closed(content(bytes, header, i))
}

/// The section with the names of sections.
pub(crate) fn names_content(bytes: &[u8], header: Header) -> &[u8]
    requires { HasNames bytes.now header }
    ensures value { result.now ≡ spec.content bytes.now (names bytes.now) }
    ensures closed { is_closed result.now ≡ true }
{
    content(bytes, header, header.names)
}

/// The name of a section.
pub(crate) fn name(bytes: &[u8], header: Header, i: usize) -> &[u8]
    requires header { HasNames bytes.now header }
    requires there { i < count bytes.now }
    requires named { is_section_name (spec.content bytes.now (names bytes.now))
        (name_off bytes.now i) ≡ true }
    ensures { result.now ≡ spec.name bytes.now i }
{
    let offset = section_header(bytes, header, i).name_offset as usize;
    string_at(names_content(bytes, header), offset)
}

/// The kind of a section. Section 0 has none.
pub(crate) fn kind(bytes: &[u8], header: Header, i: usize) -> Option<Kind>
    requires header { HasNames bytes.now header }
    requires there { i < count bytes.now }
    requires named { is_section_name (spec.content bytes.now (names bytes.now))
        (name_off bytes.now i) ≡ true }
    ensures { result ≡ spec.kind bytes.now i }
{
    if i == 0 {
        return None;
    }
    let section = section_header(bytes, header, i);
    kind_of(section.section_type, name(bytes, header, i), section.flags)
}
