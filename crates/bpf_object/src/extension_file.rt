//! The whole section .BTF.ext of a canonical file, from its groups.

ghost use Rattle.std.specs.Prelude.{◌≡◌, ◌++◌, ◌+◌, ◌<◌, ◌≤◌, nat_le, length, IfOk, MatchOption, OnOk};
ghost use Rattle.std.specs.List.{All};
ghost use Rattle.bpf_elf.specs.Header.{FILE_LIMIT as spec_limit};
ghost use Rattle.bpf_object.specs.declared.extension.Part.TheVariants.{Functions, Relocations};
ghost use Rattle.bpf_object.specs.Canonical.{extension_of as spec_extension, extension_header};
ghost use Rattle.bpf_object.specs.private.NotedStrings.{HasStrings, text_offset};
ghost use Rattle.bpf_object.specs.Sources.{section, HasGroup};
ghost use Rattle.bpf_object.specs.private.WrittenGroups as spec;
ghost use Rattle.bpf_object.specs.private.TypeSteps.{numbered};

use crate::extension::Part;
use crate::extension_writer::push_part;
use crate::source::Source;
use bpf_canon::DistinctOffsets;
use bpf_words::{Order, push_words, push16};
use std::alloc::{AllocError, Allocator};

/// Appends the header: hdr_len, and the offset and length of each part, from the end of the header.
fn push_header<A: Allocator>(
    out: &mut Vec<u8, A>,
    order: Order,
    functions: u32,
    lines: u32,
    relocations: u32,
) -> Result<(), AllocError>
    requires { functions + lines + relocations ≤ spec_limit }
    ensures { OnOk result (out.new.items
        ≡ out.old.items ++ extension_header order functions lines relocations) }
{
    push16(out, order, 0xeb9f)?;
    out.extend_from_slice(&[1, 0])?;
    push_words(out, order, &[32, 0, functions, functions, lines])?;
    push_words(out, order, &[functions + lines, relocations])
}

/// Whether parts of these lengths have at most `limit` bytes together with a header.
fn fits(functions: usize, lines: usize, relocations: usize, limit: usize) -> bool
    requires { 32 ≤ limit }
    ensures { result ≡ nat_le (32 + (functions + lines + relocations)) limit }
{
    let capacity = limit - 32;
    functions <= capacity
        && lines <= capacity - functions
        && relocations <= capacity - functions - lines
}

/// The section with these parts, or `None` if it has more than `limit` bytes.
#[tactic(auto, using(crate::proofs::WrittenExtension::length_extension))]
fn extension_of<A: Allocator>(
    alloc: A,
    order: Order,
    functions: &[u8],
    lines: &[u8],
    relocations: &[u8],
    limit: usize,
) -> Result<Option<Vec<u8, A>>, AllocError>
    requires limit { (32 ≤ limit) × (limit ≤ spec_limit) }
    ensures { let whole = spec_extension order functions.now lines.now relocations.now in
        IfOk result (λ found. MatchOption found (limit < length whole)
        (λ out. out.items ≡ whole)) }
{
    if !fits(functions.len(), lines.len(), relocations.len(), limit) {
        return Ok(None);
    }
    let mut out = Vec::new(alloc);
    push_header(
        &mut out,
        order,
        functions.len() as u32,
        lines.len() as u32,
        relocations.len() as u32,
    )?;
    out.extend_from_slice(functions)?;
    out.extend_from_slice(lines)?;
    out.extend_from_slice(relocations)?;
    Ok(Some(out))
}

/// A part of these groups.
fn part_of<A: Allocator, B: Allocator>(
    alloc: A,
    names: &DistinctOffsets<'_, B>,
    x: Source<'_>,
    part: Part,
    groups: &[usize],
) -> Result<Vec<u8, A>, AllocError>
    requires groups { All (HasGroup x (spec.source_part part)) groups.now }
    requires names { All (HasStrings names.now x part) groups.now }
    ensures { IfOk result (λ out. out.items
        ≡ spec.written_part (section x.entry) (numbered x.entry.numbers.now)
        (text_offset names.now) part groups.now) }
{
    let mut out = Vec::new(alloc);
    push_part(&mut out, names, x, part, groups)?;
    Ok(out)
}

/// The section with these groups, or `None` if it has more than `limit` bytes.
pub(crate) fn write_extension<A: Allocator + Copy>(
    alloc: A,
    names: &DistinctOffsets<'_, A>,
    x: Source<'_>,
    functions: &[usize],
    relocations: &[usize],
    limit: usize,
) -> Result<Option<Vec<u8, A>>, AllocError>
    requires limit { (32 ≤ limit) × (limit ≤ spec_limit) }
    requires functions { All (HasGroup x Functions) functions.now }
    requires relocations { All (HasGroup x Relocations) relocations.now }
    requires function_names { All (HasStrings names.now x Functions) functions.now }
    requires relocation_names { All (HasStrings names.now x Relocations) relocations.now }
    ensures { let whole = spec.written_extension (section x.entry) (numbered x.entry.numbers.now)
        (text_offset names.now)
        functions.now relocations.now in
        IfOk result (λ found. MatchOption found (limit < length whole)
        (λ out. out.items ≡ whole)) }
{
    let function_part = part_of(alloc, names, x, Part::Functions, functions)?;
    let line_part = part_of(alloc, names, x, Part::Lines, functions)?;
    let relocation_part = part_of(alloc, names, x, Part::Relocations, relocations)?;
    extension_of(
        alloc,
        x.order,
        &function_part,
        &line_part,
        &relocation_part,
        limit,
    )
}
