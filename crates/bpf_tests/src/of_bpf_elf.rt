//! What is read of an object file, by what `readelf -hSsr` prints of it, and which rule it breaks once
//! a byte is changed.

mod object;

use bpf_elf::{
    Elf, ElfCause, ElfFault, Kind, Relocation, SectionHeader, Symbol, is_closed, is_reserved,
    is_section_name, string_at,
};
use bpf_words::Order;
use object::object;
use std::alloc::AllocError;
use std::fmt::Debug;
use std::process::Abort;

/// Ends the test if a value isn't the one that is wanted, and names the case.
fn equal<T: PartialEq + Debug>(rt: &impl Abort, value: &T, wanted: &T, case: &impl Debug) {
    assert_eq!(rt; value, wanted, "{case:?}");
}

/// A section: its name, its kind, how many bytes it has in the file, and its header.
struct Section(&'static [u8], Option<Kind>, usize, SectionHeader);

#[rattlefmt::skip]
const SECTIONS: &[Section] = &[
    Section(b"", None, 0, SectionHeader { name_offset: 0, section_type: 0, flags: 0, address: 0, offset: 0, size: 0, link: 0, info: 0, alignment: 0, entry_size: 0 }),
    Section(b".strtab", Some(Kind::Dropped), 41, SectionHeader { name_offset: 25, section_type: 3, flags: 0, address: 0, offset: 0xc0, size: 41, link: 0, info: 0, alignment: 1, entry_size: 0 }),
    Section(b"xdp", Some(Kind::Data), 16, SectionHeader { name_offset: 15, section_type: 1, flags: 6, address: 0, offset: 0x40, size: 16, link: 0, info: 0, alignment: 1, entry_size: 0 }),
    Section(b".relxdp", Some(Kind::Relocations), 16, SectionHeader { name_offset: 11, section_type: 9, flags: 0x40, address: 0, offset: 0xb0, size: 16, link: 5, info: 2, alignment: 8, entry_size: 16 }),
    Section(b".bss", Some(Kind::Data), 0, SectionHeader { name_offset: 1, section_type: 8, flags: 3, address: 0, offset: 0x50, size: 4, link: 0, info: 0, alignment: 1, entry_size: 0 }),
    Section(b".symtab", Some(Kind::Symbols), 96, SectionHeader { name_offset: 33, section_type: 2, flags: 0, address: 0, offset: 0x50, size: 96, link: 1, info: 2, alignment: 8, entry_size: 24 }),
];

#[test]
fn sections_are_those_of_the_file(rt: HostRuntime) {
    let elf = Elf::read(object()).expect(&rt, "an object file");
    equal(&rt, &elf.bytes().len(), &624, &"bytes");
    equal(&rt, &elf.order(), &Order::Little, &"the byte order");
    equal(&rt, &elf.flags(), &0, &"e_flags");
    equal(&rt, &elf.section_count(), &SECTIONS.len(), &"sections");
    for (i, Section(name, kind, len, header)) in SECTIONS.iter().enumerate() {
        assert!(rt; i < elf.section_count());
        equal(&rt, &elf.name(i), name, &i);
        equal(&rt, &elf.kind(i), kind, &i);
        equal(&rt, &elf.content(i).len(), len, &i);
        equal(&rt, &elf.section(i), header, &i);
    }
    equal(&rt, &elf.section_of(Kind::Symbols), &5, &"the symbols");
    equal(&rt, &elf.section_of(Kind::Types), &0, &"no types");
}

#[rattlefmt::skip]
const SYMBOLS: &[(&[u8], Symbol)] = &[
    (b"", Symbol { name_offset: 0, info: 0, other: 0, section: 0, value: 0, size: 0 }),
    (b"n", Symbol { name_offset: 19, info: 1, other: 0, section: 4, value: 0, size: 4 }),
    (b"pass", Symbol { name_offset: 6, info: 0x12, other: 0, section: 2, value: 0, size: 16 }),
    (b"add", Symbol { name_offset: 21, info: 0x10, other: 0, section: 0, value: 0, size: 0 }),
];

#[test]
fn symbols_are_those_of_the_file(rt: HostRuntime) {
    let elf = Elf::read(object()).expect(&rt, "an object file");
    equal(&rt, &elf.symbol_count(), &SYMBOLS.len(), &"symbols");
    for (j, (name, symbol)) in SYMBOLS.iter().enumerate() {
        assert!(rt; j < elf.symbol_count());
        equal(&rt, &elf.symbol_name(j), name, &j);
        equal(&rt, &elf.symbol(j), symbol, &j);
        equal(&rt, &elf.is_kept_symbol(j), &true, &j);
    }
}

#[test]
fn relocations_are_those_of_the_file(rt: HostRuntime) {
    let elf = Elf::read(object()).expect(&rt, "an object file");
    assert!(rt; 3 < elf.section_count());
    if let Some(Kind::Relocations) = elf.kind(3) {
        equal(&rt, &elf.relocation_count(3), &1, &"rows");
        assert!(rt; 0 < elf.relocation_count(3));
        let row = Relocation {
            offset: 0,
            symbol: 3,
            relocation_type: 10,
        };
        equal(&rt, &elf.relocation(3, 0), &row, &"a call of add");
    } else {
        equal(&rt, &true, &false, &"no relocations");
    }
}

/// What is changed: the byte at this offset to this value. Then the offset and cause of the fault.
struct Refused(&'static str, usize, u8, u64, ElfCause);

#[rattlefmt::skip]
const REFUSED: &[Refused] = &[
    Refused("EI_CLASS is ELFCLASS32", 4, 1, 4, ElfCause::Class),
    Refused("e_machine is EM_X86_64", 18, 62, 18, ElfCause::Machine),
    Refused("e_shstrndx is the number of sections", 62, 6, 62, ElfCause::NamesIndex),
    Refused("sh_type of xdp is SHT_PREINIT_ARRAY", 372, 16, 372, ElfCause::SectionKind),
    Refused("sh_size of xdp is past the file", 401, 3, 392, ElfCause::SectionCut),
    Refused("sh_info of .relxdp is .bss", 476, 4, 476, ElfCause::RelocationTarget),
    Refused("sh_name of .symtab is past the names", 560, 41, 560, ElfCause::SectionName),
    Refused("st_shndx of pass is .relxdp", 134, 3, 134, ElfCause::SymbolSection),
    Refused("st_size of pass is past xdp", 144, 17, 136, ElfCause::SymbolPlace),
    Refused("the relocation is of a fifth symbol", 188, 4, 184, ElfCause::RelocationSymbol),
];

#[test]
fn a_changed_byte_breaks_its_rule(rt: HostRuntime) -> Result<(), AllocError> {
    for Refused(name, pos, byte, at, cause) in REFUSED {
        let mut bytes = Vec::from_slice(rt.alloc(), object())?;
        if let Some(old) = bytes.get_mut(*pos) {
            *old = *byte;
        }
        let wanted = ElfFault {
            pos: *at,
            cause: *cause,
        };
        equal(&rt, &Elf::read(&bytes).err(), &Some(wanted), name);
    }
    Ok(())
}

const NAMES: &[(&[u8], bool)] = &[
    (b".BTF.ext", true),
    (b".rel.debug_info", true),
    (b".BTF.base", true),
    (b".llvm.lto", true),
    (b".shstrtab", true),
    (b".relxdp", false),
    (b".maps", false),
];

#[test]
fn names_of_tables_are_reserved(rt: HostRuntime) {
    for (name, wanted) in NAMES {
        equal(&rt, &is_reserved(name), wanted, name);
    }
}

#[test]
fn strings_end_at_the_next_nul(rt: HostRuntime) {
    let strings = b"\0text\0";
    assert!(rt; is_closed(strings) && !is_closed(b"\0text") && !is_closed(b""));
    assert_eq!(rt; string_at(strings, 3), b"xt".as_slice());
    assert!(rt; is_section_name(strings, 5) && !is_section_name(strings, 6));
}
