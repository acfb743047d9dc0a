//! Checks the fields of records (btf.rst section 2.2) in file order: finds the first faulty field
//! and the first cause that applies to it. This allocates nothing, and its time is linear in the
//! length of the section: each field is read at most once (the offsets in a STRUCT twice), and what
//! is needed of another record is read directly at its offset.

ghost use Rattle.std.specs.Prelude.{◌≤◌, ◌^◌, length, IfSome, MatchOption, MatchResult};
ghost use Rattle.btf_raw.specs.{Header.HasNulEnds, Header.STRINGS_LIMIT, Cause.HasNone};
ghost use Rattle.btf_raw.specs.{Cause.LeastByOffset, Frames.IsFrame};
ghost use Rattle.btf_types.specs.checks.{FieldFaults.FieldFault, RecordFaults.FirstWithin};
ghost use Rattle.btf_types.specs.checks.RecordFaults.{IsFaultlessIn, IsLeastIn};
ghost use Rattle.btf_types.specs.{Sections.words_at, tables.TableInvariant.IsFramed};
ghost use Rattle.btf_types.specs.tables.TableInvariant.{IsTable};
ghost use Rattle.btf_types.specs.tables.Tables.{FailsFields, FaultInside};

use crate::checks::items::{entries_fault, members_fault, params_fault, values_fault};
use crate::checks::numbers::{int_fault, linkage_fault};
use crate::checks::references::{component_fault, first_words_fault, named_type_fault};
use crate::checks::section::Section;
use crate::checks::utf8::marks_unless_utf8;
use crate::error::BtfError;
use crate::record_words::Record;
use bpf_words::Order;
use btf_raw::{
    ARRAY, BtfCause, BtfFault, DATASEC, DECL_TAG, ENUM, ENUM64, FUNC_PROTO, INT, STRUCT, UNION, VAR,
};
use std::alloc::Allocator;

/// The index of the first faulty field of a record, and its cause. The kind is matched once for
/// what follows the first three fields, and not again for each field. The element type of an ARRAY
/// is checked before its index type, and its number of elements may be any.
#[tactic(auto, using(crate::proofs::CheckLemmas::WordSteps::first_of_words, crate::proofs::CheckLemmas::RecordSteps::tails))]
fn record_fault(section: &Section, this: &Record) -> Option<(usize, BtfCause)>
    requires { IsFrame this.now }
    ensures { MatchOption result
        (IsFaultlessIn section.now this.now)
        (λ found. IsLeastIn section.now this.now found.0 found.1) }
{
    if let Some(found) = first_words_fault(section, this) {
        return Some(found);
    }
    match this.kind() {
        INT => int_fault(this.word(2), this.word(3)).map(|cause| (3, cause)),
        VAR => linkage_fault(this.word(3)).map(|cause| (3, cause)),
        DECL_TAG => component_fault(section, this.word(2), this.word(3)).map(|cause| (3, cause)),
        ARRAY => {
            if let Some(cause) = named_type_fault(section, ARRAY, this.word(3)) {
                return Some((3, cause));
            }
            named_type_fault(section, ARRAY, this.word(4)).map(|cause| (4, cause))
        }
        STRUCT | UNION => members_fault(section, this),
        FUNC_PROTO => params_fault(section, this),
        ENUM => values_fault(section, this, 2),
        ENUM64 => values_fault(section, this, 3),
        DATASEC => entries_fault(section, this),
        _ => None,
    }
}

/// The first fault in the fields of a section, by offset and then by cause. The offset counts bytes
/// from the start of the type section.
fn first_field_fault(section: &Section) -> Option<BtfFault>
    ensures inside { IfSome result (λ fault. fault.pos ≤ 2 ^ 25) }
    ensures cases { MatchOption result
        (HasNone (FieldFault section.now.strings section.now.frames))
        (λ fault. LeastByOffset (FieldFault section.now.strings section.now.frames)
        fault.pos fault.cause) }
{
    for i in 0..section.offsets.len() {
        let pos = section.offsets[i] as usize;
        let this = Record::at(section.order, section.types, pos);
        if let Some((word, cause)) = record_fault(section, &this) {
            return Some(BtfFault {
                pos: (pos + 4 * word) as u64,
                cause,
            });
        }
    }
    None
}

/// Checks the fields of all records.
///
/// # Errors
///
/// `Fault` with the first fault of the fields, whose offset counts bytes from the start of the type
/// section. `Memory` if memory can't be allocated.
pub fn check_fields<'s, A: Allocator>(
    alloc: A,
    order: Order,
    types: &'s [u8],
    strings: &'s [u8],
    offsets: &'s [u32],
) -> Result<(), BtfError>
    requires ends { HasNulEnds strings.now }
    requires short { length strings.now ≤ STRINGS_LIMIT }
    requires few { length types.now ≤ 2 ^ 25 }
    requires framed { IsFramed order types.now offsets.now }
    ensures inside { FaultInside (2 ^ 25) result }
    ensures cases { MatchResult result
        (λ _. IsTable (words_at order types.now strings.now offsets.now))
        (FailsFields order types.now strings.now offsets.now) }
{
    let marks = marks_unless_utf8(alloc, strings)?;
    let section = Section {
        order,
        types,
        strings,
        offsets,
        marks: marks.as_ref().map(|marks| &marks[..]),
    };
    match first_field_fault(&section) {
        Some(fault) => Err(BtfError::Fault(fault)),
        None => Ok(()),
    }
}
