//! The section .BTF.ext in its file, and its numbers.

ghost use Rattle.std.specs.Prelude.{◌≡◌, ◌+◌, ◌*◌, ◌^◌, ◌<◌, ◌≤◌, length};
ghost use Rattle.bpf_object.specs.Extension as spec;
ghost use Rattle.bpf_object.specs.declared.extension.Part.TheVariants.{Relocations};
ghost use Rattle.bpf_object.specs.Groups.{access_off as spec_access};
ghost use Rattle.bpf_object.specs.Sources.{section, HasGroup};
ghost use Rattle.bpf_object.specs.private.WrittenTypes.{IsRead};

use crate::extension::Part;
use bpf_words::{Order, get32};

/// The section .BTF.ext.
#[derive(Clone, Copy)]
pub(crate) struct Source<'a> {
    /// The byte order of the file.
    pub(crate) order: Order,
    /// Where the section is in the file.
    pub(crate) start: u32,
    /// Its bytes.
    pub(crate) bytes: &'a [u8],
    /// The strings of .BTF.
    pub(crate) strings: &'a [u8],
    /// The numbers of types in the canonical file, from void on; a number past the last stays.
    pub(crate) numbers: &'a [u32],
}

/// The same section, with these new numbers of types.
pub(crate) fn renumbered<'a>(x: Source<'a>, numbers: &'a [u32]) -> Source<'a>
    ensures numbers { result.numbers.now ≡ numbers.now }
    ensures strings { result.strings.now ≡ x.entry.strings.now }
    ensures same { section result ≡ section x.entry }
    ensures read { IsRead x.entry → IsRead result }
{
    Source {
        order: x.order,
        start: x.start,
        bytes: x.bytes,
        strings: x.strings,
        numbers,
    }
}

/// A 32-bit number of the section, as an index of it.
pub(crate) fn word(x: Source<'_>, i: usize) -> usize
    requires { i + 4 ≤ length x.bytes.now }
    ensures value { result ≡ spec.word (section x.entry) i }
    ensures small { result < 2 ^ 32 }
{
    get32(x.order, x.bytes, i) as usize
}

/// Where the header has the offset of a part.
pub(crate) fn part_field(part: Part) -> usize
    ensures value { result ≡ spec.part_field part }
    ensures inside { result + 8 ≤ 32 }
{
    match part {
        Part::Functions => 8,
        Part::Lines => 16,
        Part::Relocations => 24,
    }
}

/// The size of a record of a part.
pub(crate) fn record_size(part: Part) -> usize
    ensures value { result ≡ spec.record_size part }
    ensures small { result ≤ 16 }
{
    match part {
        Part::Functions => 8,
        Part::Lines | Part::Relocations => 16,
    }
}

/// The length of a part.
pub(crate) fn part_len(x: Source<'_>, part: Part) -> usize
    requires { 32 ≤ length x.bytes.now }
    ensures value { result ≡ spec.part_len (section x.entry) part }
    ensures small { result < 2 ^ 32 }
{
    word(x, part_field(part) + 4)
}

/// Where a part begins.
pub(crate) fn part_start(x: Source<'_>, part: Part) -> usize
    requires { 32 ≤ length x.bytes.now }
    ensures value { result ≡ spec.part_start (section x.entry) part }
    ensures small { result < 2 ^ 33 }
{
    word(x, 4) + word(x, part_field(part))
}

/// Where a part ends.
pub(crate) fn part_end(x: Source<'_>, part: Part) -> usize
    requires { 32 ≤ length x.bytes.now }
    ensures value { result ≡ spec.part_end (section x.entry) part }
    ensures small { result < 2 ^ 34 }
{
    part_start(x, part) + part_len(x, part)
}

/// How many bytes n records of a part have.
pub(crate) fn records_len(part: Part, n: usize) -> usize
    requires { n < 2 ^ 32 }
    ensures value { result ≡ spec.record_size part * n }
    ensures small { result < 2 ^ 36 }
{
    match part {
        Part::Functions => 8 * n,
        Part::Lines | Part::Relocations => 16 * n,
    }
}

/// How many records a group has.
pub(crate) fn group_count(x: Source<'_>, group: usize) -> usize
    requires { group + 8 ≤ length x.bytes.now }
    ensures value { result ≡ spec.group_count (section x.entry) group }
    ensures small { result < 2 ^ 32 }
{
    word(x, group + 4)
}

/// Where the access string of a CO-RE relocation is in the strings.
pub(crate) fn access_off(x: Source<'_>, group: usize, k: usize) -> usize
    requires group { HasGroup x Relocations group }
    requires there { k < spec.group_count (section x) group }
    ensures value { result ≡ spec_access (section x.entry) group k }
    ensures small { result < 2 ^ 32 }
{
    word(x, group + 8 + records_len(Part::Relocations, k) + 8)
}

/// Where the group after a group begins.
pub(crate) fn next_group(x: Source<'_>, part: Part, group: usize) -> usize
    requires inside { group + 8 ≤ length x.bytes.now }
    requires short { length x.bytes.now ≤ 67108864 }
    ensures { result ≡ spec.next_group (section x.entry) part group }
{
    group + 8 + records_len(part, group_count(x, group))
}
