//! Object files for BPF as the loaders read them: the header, sections, symbols and relocations of a
//! relocatable ELF file (System V ABI; RFC 9669 and Linux Documentation/bpf/llvm_reloc.rst).
//!
//! [`Elf::read`] checks a file by the rules of `specs/ElfRules.antt`, in their sequence, and borrows
//! its bytes. What it gives of the file afterwards is there: no index or offset can be out of range.

#![tactic(auto)]

mod elf;
mod fault;
mod header;
mod kept_symbols;
mod kinds;
mod names;
mod numbers;
mod relocations;
mod section_checks;
mod sections;
mod symbols;

pub use elf::Elf;
pub use fault::{ElfCause, ElfFault};
pub use header::FILE_LIMIT;
pub use kinds::{Kind, is_reserved};
pub use names::{is_closed, is_section_name, string_at};
pub use relocations::Relocation;
pub use sections::SectionHeader;
pub use symbols::{Symbol, is_special};
