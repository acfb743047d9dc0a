//! The names that records of .BTF are sorted by, as ranks.

ghost use Rattle.std.specs.Prelude.{◌≡◌, ◌^◌, ◌<◌, true, length, IfOk};
ghost use Rattle.bpf_elf.specs.Names.{is_closed};
ghost use Rattle.bpf_object.specs.private.TypeSteps as spec;

use crate::name_ranks::NameRanks;
use btf_raw::{FWD, TYPE_TAG, VAR};
use btf_types::FileSections;
use std::alloc::{AllocError, Allocator};

/// Whether records of this kind may be sorted by their names.
fn may_be_sorted(kind: u8) -> bool
    ensures { result ≡ spec.may_be_sorted kind }
{
    kind == VAR || kind == FWD || kind == TYPE_TAG
}

/// The offsets of the names of all records that may be sorted by them.
fn name_offsets<A: Allocator + Copy>(
    alloc: A,
    sections: &FileSections<'_>,
) -> Result<Vec<u32, A>, AllocError>
    ensures { IfOk result (λ offsets.
        spec.AreNameOffsets sections.now (length sections.now.frames) offsets.items) }
{
    let mut offsets = Vec::new(alloc);
    for index in 0..sections.count() {
        let record = sections.record(index + 1);
        if may_be_sorted(record.kind()) {
            offsets.push(record.word(0))?;
        }
    }
    Ok(offsets)
}

/// The ranks of the names that records are sorted by.
pub(crate) fn type_names<'a, A: Allocator + Copy>(
    alloc: A,
    sections: &FileSections<'a>,
) -> Result<NameRanks<'a, A>, AllocError>
    requires few { length sections.now.frames < 2 ^ 24 }
    requires closed { is_closed sections.now.strings ≡ true }
    ensures strings { IfOk result (λ names. names.strings ≡ sections.now.strings) }
    ensures ranked { IfOk result (λ names. spec.AreRanked sections.now names) }
{
    let offsets = name_offsets(alloc, sections)?;
    NameRanks::new(alloc, sections.strings(), &offsets)
}
