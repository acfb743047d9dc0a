//! An ELF file for BPF that is written section by section (System V ABI, "ELF Header" and
//! "Sections").

ghost use Rattle.std.specs.Prelude.{◌≡◌, ℕ, ◌+◌, ◌<◌, ◌≤◌, ◌^◌, ◌++◌, [], ◌∷◌, List, length, drop, IfOk, OnOk, MatchResult};
ghost use Rattle.bpf_elf.specs.Header.{FILE_LIMIT as spec_limit};
ghost use Rattle.bpf_object.specs.private.Fields.{encode};
ghost use Rattle.bpf_object.specs.File.{WrittenSection, ident, padding};
ghost use Rattle.bpf_object.specs.private.FileOf as spec;
ghost use Rattle.bpf_object.specs.private.FileWriter.{Holds, FailsToHold, IsFileOf, section_of};

use crate::fault::ObjectError;
use crate::fields::Field::{Byte, Half, Long, Word};
use crate::fields::push_fields;
use crate::names::TOO_LARGE;
use bpf_elf::SectionHeader;
use bpf_words::Order;
use std::alloc::{AllocError, Allocator};
use std::marker::Model;

/// The most section headers: e_shnum has 16 bits.
const MOST_HEADERS: usize = 0xffff;

/// The file so far, after space for its header, and the section header table that follows it.
#[derive(Drop)]
pub(crate) struct FileWriter<A: Allocator> {
    order: Order,
    /// How long the file may be, in bytes.
    limit: usize,
    out: Vec<u8, A>,
    headers: Vec<u8, A>,
    /// The number of section headers, with that of section 0.
    count: usize,
}

impl<A: Allocator> Model for FileWriter<A> {
    ghost use Rattle.bpf_object.specs.private.FileWriter.{FileSoFar, HasRoom};

    ghost Value = { FileSoFar };

    ghost view = { λ w. record {
      order = w.order;
      limit = w.limit;
      out = w.out.items;
      headers = w.headers.items;
      count = w.count;
    } };

    ghost invariant = { λ w. HasRoom (record {
      order = w.order;
      limit = w.limit;
      out = w.out.items;
      headers = w.headers.items;
      count = w.count;
    }) };
}

/// The length of a content of n bytes with its padding.
fn padded_len(n: usize) -> u64
    requires { n < 2 ^ 63 }
    ensures value { result ≡ n + length (padding n) }
    ensures small { result < 2 ^ 63 + 8 }
{
    n as u64 + ((8 - n % 8) % 8) as u64
}

/// Appends e_ident.
fn push_ident<A: Allocator>(out: &mut Vec<u8, A>, order: Order) -> Result<(), AllocError>
    ensures { OnOk result (out.new.items ≡ out.old.items ++ ident order) }
{
    let data = match order {
        Order::Little => 1,
        Order::Big => 2,
    };
    out.extend_from_slice(&[
        0x7f, 0x45, 0x4c, 0x46, 2, data, 1, 0, 0, 0, 0, 0, 0, 0, 0, 0,
    ])
}

/// Appends zeros up to a multiple of 8 after n bytes.
fn push_padding<A: Allocator>(out: &mut Vec<u8, A>, n: usize) -> Result<(), AllocError>
    ensures value { OnOk result (out.new.items ≡ out.old.items ++ padding n) }
    ensures short { length out.new.items ≤ length out.old.items + length (padding n) }
    ensures grows { length out.old.items ≤ length out.new.items }
{
    let zeros = [0; 8];
    out.extend_from_slice(&zeros[..(8 - n % 8) % 8])
}

/// Appends a content with its padding.
fn push_content<A: Allocator>(out: &mut Vec<u8, A>, content: &[u8]) -> Result<(), AllocError>
    ensures value { OnOk result (out.new.items ≡ out.old.items ++ spec.padded content.now) }
    ensures short { length out.new.items ≤ length out.old.items + length (spec.padded content.now) }
    ensures grows { length out.old.items ≤ length out.new.items }
{
    out.extend_from_slice(content)?;
    push_padding(out, content.len())
}

/// Appends the header of a section whose content is at an offset.
fn push_header<A: Allocator>(
    out: &mut Vec<u8, A>,
    order: Order,
    s: &SectionHeader,
    offset: u64,
) -> Result<(), AllocError>
    ensures { (content : List ℕ) → OnOk result (out.new.items
        ≡ out.old.items ++ encode order (spec.section_fields (section_of s.now content) offset)) }
{
    push_fields(
        out,
        order,
        &[
            Word(s.name_offset),
            Word(s.section_type),
            Long(s.flags),
            Long(s.address),
            Long(offset),
            Long(s.size),
            Word(s.link),
            Word(s.info),
            Long(s.alignment),
            Long(s.entry_size),
        ],
    )
}

/// The header of a file whose section header table is at an offset.
fn file_header<A: Allocator + Copy>(
    alloc: A,
    order: Order,
    flags: u32,
    table: u64,
    count: u16,
) -> Result<Vec<u8, A>, AllocError>
    requires { 0 < count }
    ensures value { IfOk result (λ header. header.items
        ≡ ident order ++ encode order (spec.header_fields flags table count)) }
    ensures len { IfOk result (λ header. length header.items ≡ 64) }
{
    let mut header = Vec::new(alloc);
    push_ident(&mut header, order)?;
    push_fields(
        &mut header,
        order,
        &[
            Half(1),
            Half(247),
            Word(1),
            Long(0),
            Long(0),
            Long(table),
            Word(flags),
            Half(64),
            Half(0),
            Half(0),
            Half(64),
            Half(count),
            Half(count - 1),
        ],
    )?;
    Ok(header)
}

/// Writes bytes over the first ones.
fn put_first(out: &mut [u8], bytes: &[u8])
    requires { length bytes.now ≤ length out.old }
    ensures { out.new ≡ bytes.now ++ drop (length bytes.now) out.old }
{
    out[..bytes.len()].copy_from_slice(bytes);
}

impl<A: Allocator + Copy> FileWriter<A> {
    /// A file without sections, of at most `limit` bytes.
    pub(crate) fn new(alloc: A, order: Order, limit: usize) -> Result<FileWriter<A>, AllocError>
        requires some { 64 ≤ limit }
        requires limited { limit ≤ spec_limit }
        ensures { IfOk result (λ w. Holds limit [] w × (w.order ≡ order)) }
    {
        let out = vec![in alloc; 0; 64]?;
        let headers = vec![in alloc; 0; 64]?;
        Ok(FileWriter {
            order,
            limit,
            out,
            headers,
            count: 1,
        })
    }

    /// Appends a section: its offset is where the file ends.
    pub(crate) fn push(
        &mut self,
        section: &SectionHeader,
        content: &[u8],
    ) -> Result<(), ObjectError>
        ensures { (limit : ℕ) (ss : List WrittenSection) → Holds limit ss self.old
            → let more = ss ++ section_of section.now content.now ∷ [] in
            MatchResult result (λ _. Holds limit more self.new × (self.new.order ≡ self.old.order))
            (FailsToHold limit more) }
    {
        let offset = self.out.len();
        let room = self.limit - offset;
        if self.count == MOST_HEADERS
            || content.len() > room
            || padded_len(content.len()) > room as u64
        {
            return Err(ObjectError::Fault(TOO_LARGE));
        }
        push_header(&mut self.headers, self.order, section, offset as u64)?;
        push_content(&mut self.out, content)?;
        self.count += 1;
        Ok(())
    }

    /// The file. The last section has the names.
    pub(crate) fn finish(self, alloc: A, flags: u32) -> Result<Vec<u8, A>, ObjectError>
        ensures { (limit : ℕ) (ss : List WrittenSection) → Holds limit ss self → MatchResult result
            (λ file. IsFileOf limit self.order flags ss file.items) (FailsToHold limit ss) }
    {
        let FileWriter {
            order,
            limit,
            mut out,
            headers,
            count,
        } = self;
        if 64 * count > limit - out.len() {
            return Err(ObjectError::Fault(TOO_LARGE));
        }
        let header = file_header(alloc, order, flags, out.len() as u64, count as u16)?;
        put_first(&mut out, &header);
        out.extend_from_slice(&headers)?;
        Ok(out)
    }
}
