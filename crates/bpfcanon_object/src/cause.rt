//! The names and the sentences of causes (docs/FAULTS.md).

ghost use Rattle.std.specs.Prelude.{◌≡◌};
ghost use Rattle.bpfcanon_object.specs.CauseNames as spec;

use bpf_elf::ElfCause;
use bpf_object::ObjectCause;

/// The name of a cause of the ELF file.
fn elf_cause_name(cause: ElfCause) -> &'static str
    ensures { result.now ≡ spec.elf_cause_name cause }
{
    match cause {
        ElfCause::FileTooLarge => "FileTooLarge",
        ElfCause::FileCut => "FileCut",
        ElfCause::Magic => "Magic",
        ElfCause::Class => "Class",
        ElfCause::ByteOrder => "ByteOrder",
        ElfCause::IdentVersion => "IdentVersion",
        ElfCause::FileType => "FileType",
        ElfCause::Machine => "Machine",
        ElfCause::FileVersion => "FileVersion",
        ElfCause::HeaderSize => "HeaderSize",
        ElfCause::Segments => "Segments",
        ElfCause::SectionHeaderSize => "SectionHeaderSize",
        ElfCause::SectionCount => "SectionCount",
        ElfCause::SectionTable => "SectionTable",
        ElfCause::NamesIndex => "NamesIndex",
        ElfCause::FirstSection => "FirstSection",
        ElfCause::NamesTable => "NamesTable",
        ElfCause::SectionCut => "SectionCut",
        ElfCause::SectionName => "SectionName",
        ElfCause::SectionKind => "SectionKind",
        ElfCause::SectionTwice => "SectionTwice",
        ElfCause::RelocationTarget => "RelocationTarget",
        ElfCause::NoSymbols => "NoSymbols",
        ElfCause::SymbolTableSize => "SymbolTableSize",
        ElfCause::SymbolEntrySize => "SymbolEntrySize",
        ElfCause::SymbolNames => "SymbolNames",
        ElfCause::FirstSymbol => "FirstSymbol",
        ElfCause::SymbolName => "SymbolName",
        ElfCause::SymbolSection => "SymbolSection",
        ElfCause::SymbolPlace => "SymbolPlace",
        ElfCause::RelocationTableSize => "RelocationTableSize",
        ElfCause::RelocationEntrySize => "RelocationEntrySize",
        ElfCause::RelocationSymbols => "RelocationSymbols",
        ElfCause::RelocationSymbol => "RelocationSymbol",
        ElfCause::SectionsTooLarge => "SectionsTooLarge",
        ElfCause::SymbolDropped => "SymbolDropped",
    }
}

/// The sentence of a cause of the ELF file.
fn elf_cause_sentence(cause: ElfCause) -> &'static str
    ensures { result.now ≡ spec.elf_cause_sentence cause }
{
    match cause {
        ElfCause::FileTooLarge => "the file is longer than 64 MiB",
        ElfCause::FileCut => "the file is shorter than an ELF header",
        ElfCause::Magic => "the file doesn't begin with the magic number of ELF",
        ElfCause::Class => "the file isn't a 64-bit ELF file",
        ElfCause::ByteOrder => "the file states no byte order",
        ElfCause::IdentVersion => "EI_VERSION isn't 1",
        ElfCause::FileType => "the file isn't relocatable",
        ElfCause::Machine => "the file isn't for BPF",
        ElfCause::FileVersion => "e_version isn't 1",
        ElfCause::HeaderSize => "e_ehsize isn't 64",
        ElfCause::Segments => "there are program headers",
        ElfCause::SectionHeaderSize => "e_shentsize isn't 64",
        ElfCause::SectionCount => "the number of sections is 0, or 0xff00 or more",
        ElfCause::SectionTable => "the section header table isn't inside the file",
        ElfCause::NamesIndex => "e_shstrndx isn't the index of a section",
        ElfCause::FirstSection => "the first section header isn't all zeros",
        ElfCause::NamesTable => "the names of sections aren't in a string table",
        ElfCause::SectionCut => "the section extends past the end of the file",
        ElfCause::SectionName =>
            "the section's name is outside the names, or longer than 1,024 bytes",
        ElfCause::SectionKind => "a section of this type, name and flags can't be kept or dropped",
        ElfCause::SectionTwice => "there is a second .symtab, .BTF or .BTF.ext",
        ElfCause::RelocationTarget =>
            "the table of relocations isn't named after its section, or that isn't code or data",
        ElfCause::NoSymbols => "there is no symbol table",
        ElfCause::SymbolTableSize => "the size of the symbol table is 0 or not a multiple of 24",
        ElfCause::SymbolEntrySize => "sh_entsize of the symbol table isn't 24",
        ElfCause::SymbolNames => "the names of symbols aren't in a string table",
        ElfCause::FirstSymbol => "the first symbol isn't all zeros",
        ElfCause::SymbolName => "the symbol's name is outside the names of symbols",
        ElfCause::SymbolSection =>
            "the symbol's section doesn't exist, or isn't code or data and the symbol isn't local",
        ElfCause::SymbolPlace => "the symbol extends past the end of its section",
        ElfCause::RelocationTableSize =>
            "the size of the table of relocations isn't a multiple of 16",
        ElfCause::RelocationEntrySize => "sh_entsize of the table of relocations isn't 16",
        ElfCause::RelocationSymbols => "sh_link of the table of relocations isn't the symbol table",
        ElfCause::RelocationSymbol =>
            "the relocation's symbol isn't in the symbol table, is a source file or a label, or is in a section that isn't code or data",
        ElfCause::SectionsTooLarge =>
            "the sections that are kept are together longer than the file",
        ElfCause::SymbolDropped =>
            "the symbol is dropped, but has a visibility, a value or a name that a loader may read",
    }
}

/// The name of a cause.
pub fn object_cause_name(cause: ObjectCause) -> &'static str
    ensures { result.now ≡ spec.object_cause_name cause }
{
    match cause {
        ObjectCause::Elf(cause) => elf_cause_name(cause),
        ObjectCause::Types(cause) => cause.name(),
        ObjectCause::TypesTooLarge => "TypesTooLarge",
        ObjectCause::TypesOrder => "TypesOrder",
        ObjectCause::TypesLayout => "TypesLayout",
        ObjectCause::TypesName => "TypesName",
        ObjectCause::TypesSection => "TypesSection",
        ObjectCause::TypesFlag => "TypesFlag",
        ObjectCause::ExtensionWithoutTypes => "ExtensionWithoutTypes",
        ObjectCause::ExtensionCut => "ExtensionCut",
        ObjectCause::ExtensionMagic => "ExtensionMagic",
        ObjectCause::ExtensionVersion => "ExtensionVersion",
        ObjectCause::ExtensionFlags => "ExtensionFlags",
        ObjectCause::ExtensionHeaderSize => "ExtensionHeaderSize",
        ObjectCause::ExtensionPart => "ExtensionPart",
        ObjectCause::ExtensionRecordSize => "ExtensionRecordSize",
        ObjectCause::ExtensionGroup => "ExtensionGroup",
        ObjectCause::ExtensionString => "ExtensionString",
        ObjectCause::ExtensionLines => "ExtensionLines",
        ObjectCause::ResultTooLarge => "ResultTooLarge",
        ObjectCause::ExtensionGroupTwice => "ExtensionGroupTwice",
        ObjectCause::FunctionLines => "FunctionLines",
        ObjectCause::TypesNameTaken => "TypesNameTaken",
    }
}

/// What is wrong, as a sentence without a capital and a full stop.
pub fn object_cause_sentence(cause: ObjectCause) -> &'static str
    ensures { result.now ≡ spec.object_cause_sentence cause }
{
    match cause {
        ObjectCause::Elf(cause) => elf_cause_sentence(cause),
        ObjectCause::Types(cause) => cause.describe(),
        ObjectCause::TypesTooLarge => ".BTF has more than 15,728,640 bytes",
        ObjectCause::TypesOrder => "the byte order of .BTF isn't that of the file",
        ObjectCause::TypesLayout => "type_off of .BTF isn't 0",
        ObjectCause::TypesName =>
            "a name_off of .BTF that isn't 0 leads to an empty string, or to a name that is too long",
        ObjectCause::TypesSection => "a DATASEC has a reserved name",
        ObjectCause::TypesFlag => "the kind_flag of a struct or union without bit-fields isn't 0",
        ObjectCause::ExtensionWithoutTypes => "there is a .BTF.ext, and no .BTF",
        ObjectCause::ExtensionCut => ".BTF.ext has fewer than 32 bytes",
        ObjectCause::ExtensionMagic =>
            ".BTF.ext doesn't begin with its magic number in the byte order of the file",
        ObjectCause::ExtensionVersion => "the version of .BTF.ext isn't 1",
        ObjectCause::ExtensionFlags => "the flags of .BTF.ext aren't 0",
        ObjectCause::ExtensionHeaderSize =>
            "hdr_len of .BTF.ext is under 32, or not less than the section",
        ObjectCause::ExtensionPart =>
            "a part of .BTF.ext isn't inside the section, or not aligned to 4 bytes",
        ObjectCause::ExtensionRecordSize =>
            "the record size of a part of .BTF.ext isn't 8 (functions) or 16 (lines, CO-RE relocations)",
        ObjectCause::ExtensionGroup =>
            "a group of records extends past the end of its part, or is empty",
        ObjectCause::ExtensionString =>
            "a string of .BTF.ext isn't inside the strings of .BTF, or is too long for the name of a section",
        ObjectCause::ExtensionLines => "functions and source lines of .BTF.ext don't match",
        ObjectCause::ResultTooLarge =>
            "the canonical file has more than 64 MiB, or more than four times the file and 64 KiB, or its .BTF more than 15 MiB",
        ObjectCause::ExtensionGroupTwice => "a second group of functions has the same section",
        ObjectCause::FunctionLines =>
            "there are source lines of a function that .BTF.ext doesn't have",
        ObjectCause::TypesNameTaken =>
            "a VAR has the name of a FUNC, or a VAR, FWD or TYPE_TAG has the name of a section",
    }
}
