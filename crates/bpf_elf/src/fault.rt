//! What is wrong with an object file.

ghost use Rattle.std.specs.Prelude.{◌≡◌, [], ◌∷◌};
ghost use Rattle.bpf_elf.specs.Rules.{rule, Checks};

use thiserror::Error;

/// A rule that an object file breaks. Offsets are in bytes from the start of the file.
#[derive(Clone, Copy, Debug, PartialEq, Eq, Error)]
pub enum ElfCause {
    /// Reported at 67,108,864.
    #[error("the file is longer than 64 MiB")]
    FileTooLarge = 1,
    /// Reported at the length of the file.
    #[error("the file is shorter than an ELF header")]
    FileCut,
    /// Reported at 0.
    #[error("the file doesn't begin with the magic number of ELF")]
    Magic,
    /// Reported at EI_CLASS, 4.
    #[error("the file isn't a 64-bit ELF file")]
    Class,
    /// Reported at EI_DATA, 5.
    #[error("the file states no byte order")]
    ByteOrder,
    /// Reported at EI_VERSION, 6.
    #[error("EI_VERSION isn't 1")]
    IdentVersion,
    /// Reported at e_type, 16.
    #[error("the file isn't relocatable")]
    FileType,
    /// Reported at e_machine, 18.
    #[error("the file isn't for BPF")]
    Machine,
    /// Reported at e_version, 20.
    #[error("e_version isn't 1")]
    FileVersion,
    /// Reported at e_ehsize, 52.
    #[error("e_ehsize isn't 64")]
    HeaderSize,
    /// Reported at e_phnum, 56.
    #[error("there are program headers")]
    Segments,
    /// Reported at e_shentsize, 58.
    #[error("e_shentsize isn't 64")]
    SectionHeaderSize,
    /// Reported at e_shnum, 60.
    #[error("the number of sections is 0, or 0xff00 or more")]
    SectionCount,
    /// Reported at e_shoff, 40.
    #[error("the section header table isn't inside the file")]
    SectionTable,
    /// Reported at e_shstrndx, 62.
    #[error("e_shstrndx isn't the index of a section")]
    NamesIndex,
    /// Reported at the first section header.
    #[error("the first section header isn't all zeros")]
    FirstSection,
    /// Reported at e_shstrndx, 62.
    #[error("the names of sections aren't in a string table")]
    NamesTable,
    /// Reported at sh_offset.
    #[error("the section extends past the end of the file")]
    SectionCut,
    /// Reported at sh_name.
    #[error("the section's name is outside the names, or longer than 1,024 bytes")]
    SectionName,
    /// Reported at sh_type.
    #[error("a section of this type, name and flags can't be kept or dropped")]
    SectionKind,
    /// Reported at sh_type of the second one.
    #[error("there is a second .symtab, .BTF or .BTF.ext")]
    SectionTwice,
    /// Reported at sh_info.
    #[error("the table of relocations isn't named after its section, or that isn't code or data")]
    RelocationTarget,
    /// Reported at e_shoff, 40.
    #[error("there is no symbol table")]
    NoSymbols,
    /// Reported at sh_size of the symbol table.
    #[error("the size of the symbol table is 0 or not a multiple of 24")]
    SymbolTableSize,
    /// Reported at sh_entsize of the symbol table.
    #[error("sh_entsize of the symbol table isn't 24")]
    SymbolEntrySize,
    /// Reported at sh_link of the symbol table.
    #[error("the names of symbols aren't in a string table")]
    SymbolNames,
    /// Reported at the first symbol.
    #[error("the first symbol isn't all zeros")]
    FirstSymbol,
    /// Reported at st_name.
    #[error("the symbol's name is outside the names of symbols")]
    SymbolName,
    /// Reported at st_shndx. SHN_UNDEF, SHN_ABS and SHN_COMMON are no sections, and are accepted.
    #[error("the symbol's section doesn't exist, or isn't code or data and the symbol isn't local")]
    SymbolSection,
    /// Reported at st_value.
    #[error("the symbol extends past the end of its section")]
    SymbolPlace,
    /// Reported at sh_size of the table.
    #[error("the size of the table of relocations isn't a multiple of 16")]
    RelocationTableSize,
    /// Reported at sh_entsize of the table.
    #[error("sh_entsize of the table of relocations isn't 16")]
    RelocationEntrySize,
    /// Reported at sh_link of the table.
    #[error("sh_link of the table of relocations isn't the symbol table")]
    RelocationSymbols,
    /// Reported at r_info. A symbol in SHN_UNDEF, SHN_ABS or SHN_COMMON is accepted.
    #[error("the relocation's symbol isn't in the symbol table, is a source file or a label, or is in a section that isn't code or data")]
    RelocationSymbol,
    /// Reported at the header of the first section up to which they are longer.
    #[error("the sections that are kept are together longer than the file")]
    SectionsTooLarge = 53,
    /// Reported at the symbol.
    #[error("the symbol is dropped, but has a visibility, a value or a name that a loader may read")]
    SymbolDropped,
}

/// The first rule that a file breaks, and where.
#[derive(Clone, Copy, Debug, PartialEq, Eq, Error)]
#[error("{pos}: {cause}")]
pub struct ElfFault {
    /// The offset in bytes from the start of the file.
    pub pos: u64,
    /// The rule that is broken there.
    pub cause: ElfCause,
}

/// Reports a rule that doesn't hold.
pub(crate) fn require(holds: bool, pos: usize, cause: ElfCause) -> Result<(), ElfFault>
    ensures { Checks (rule cause pos holds ∷ []) result }
{
    if holds {
        return Ok(());
    }
    let pos = pos as u64;
    Err(ElfFault { pos, cause })
}
