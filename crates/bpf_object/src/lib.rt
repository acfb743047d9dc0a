//! Canonical object files (docs/OBJECTS.md): what a BPF object file holds, written in one way (System
//! V ABI, "ELF Header" and "Sections"; Linux Documentation/bpf/btf.rst, sections 2 and 4).
//!
//! [`canon_object`] writes the canonical file, [`same_objects`] compares two files by theirs, and
//! [`object_key`] is its SHA-256. [`AcceptedObject`] is a file that has a canonical one, as a value:
//! it gives the sections and symbols, and the source lines of instructions, which no canonical file
//! has. [`laws`] says that canonical files are valid, and tell objects apart.
//! [`check_extension`] is a part of the calls.
//!
//! Definitions first: `specs/Objects.antt` says what an object is, `Kept`, `TypeOrder` and `Denotes`
//! which one a file denotes, `Canonical` its canonical file, `ObjectFaults` the fault of a file that
//! has none, and `SourceLines` the line of an instruction. Then the code, from `canon` and `accepted`
//! on:
//!
//! - `types` checks .BTF: its records in `type_checks`, and then their names in `taken_names`.
//! - `extension` checks .BTF.ext: its parts in `group_checks`, functions with their lines in `pairs`
//!   and `line_checks`, and access strings in `access_checks`. `function_checks` compares functions
//!   with the symbols of the file. `source` and `cursors` read the section.
//! - `section_groups` finds the group of records of a section, and `source_lines` in it the line of
//!   an instruction.
//! - `type_order` finds the order of the records of .BTF, by `type_keys`, `type_layers` and, with
//!   `name_ranks`, `type_names`.
//! - `types_writer` writes .BTF in it, by `record_writer`, and `extension_file` .BTF.ext, by `groups`
//!   and `extension_writer`.
//! - `object_writer` writes the file in one pass: the sections by `section_writer`, with the rows of
//!   `relocation_rows`, then .BTF and .BTF.ext, then the symbols by `symbol_rows`. `names` is the
//!   string table, `numbering` has the new numbers, and `file_writer` puts the sections together.

#![tactic(auto)]

mod accepted;
mod access_checks;
mod canon;
mod cursors;
mod extension;
mod extension_file;
mod extension_strings;
mod extension_writer;
mod fault;
mod fields;
mod file_writer;
mod function_checks;
mod group_checks;
mod groups;
mod key;
pub mod laws;
mod line_checks;
mod name_ranks;
mod names;
mod numbering;
mod object_writer;
mod pairs;
mod record_writer;
mod relocation_rows;
mod same;
mod section_groups;
mod section_writer;
mod source;
mod source_lines;
mod symbol_rows;
mod taken_names;
mod type_checks;
mod type_keys;
mod type_layers;
mod type_names;
mod type_order;
mod types;
mod types_writer;

pub use accepted::AcceptedObject;
pub use canon::canon_object;
pub use extension::{Part, check_extension};
pub use fault::{ObjectCause, ObjectError, ObjectFault};
pub use key::object_key;
pub use same::{SameError, same_objects};
pub use source_lines::SourceLine;
