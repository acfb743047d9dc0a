//! A string table while it is written: each distinct string once, in the order of first use.
//!
//! No two strings share bytes, so the offset of a string is final when it is first met, and a file
//! is written in one pass. The strings are kept as references, and copied once, at the end: a table
//! that would be too long needs no memory. They are sorted by their lengths first: those inside one
//! string have different lengths, and may have all bytes of the shorter one in common. A long string
//! at an offset of the table that is read is looked up by its bytes once: each of a million symbols
//! may have it.

ghost use Rattle.std.specs.Prelude.{◌≡◌, ◌<◌, ◌++◌, ◌∷◌, [], true, length, IfOk, OnOk, MatchResult};
ghost use Rattle.std.specs.List.{flat_map};
ghost use Rattle.bpf_elf.specs.Names.{is_closed, string_at as spec_string_at};
ghost use Rattle.btf_types.specs.Names.{kept, table_of, with_nul};
ghost use Rattle.bpf_canon.specs.btf.names.Interned.{borrowed_texts};
ghost use Rattle.bpf_object.specs.private.Names as spec;

use crate::fault::{ObjectCause, ObjectError, ObjectFault};
use bpf_elf::string_at;
use std::alloc::{AllocError, Allocator};
use std::collections::BTreeMap;
use std::marker::Model;

/// The fault of a file whose canonical file, or .BTF or .BTF.ext of it, is larger than one may be.
pub(crate) const TOO_LARGE: ObjectFault = ObjectFault {
    pos: 0,
    cause: ObjectCause::ResultTooLarge,
};

/// The bytes from which on a string is long: it takes longer to compare than to note its offset.
const LONG: usize = 256;

/// The offset that is stored for a string. If there was none, it is this one from now on. If memory
/// runs out, nothing changes.
fn find_or_store<'a, A: Allocator + Copy>(
    by_text: &mut BTreeMap<(usize, &'a [u8]), u32, A>,
    text: &'a [u8],
    offset: u32,
) -> Result<u32, AllocError>
    ensures { MatchResult result (spec.FindsOrStores by_text.old by_text.new text.now offset)
        (λ _. by_text.new.entries ≡ by_text.old.entries) }
{
    Ok(*by_text.entry((text.len(), text))?.or_insert(offset))
}

/// Appends a string.
fn push_text<'a, A: Allocator>(
    texts: &mut Vec<&'a [u8], A>,
    text: &'a [u8],
) -> Result<(), AllocError>
    ensures { MatchResult result
        (λ _. borrowed_texts texts.new.items ≡ borrowed_texts texts.old.items ++ text.now ∷ [])
        (λ _. texts.new.items ≡ texts.old.items) }
{
    texts.push(text)?;
    Ok(())
}

/// Appends a string to those of a table that has room for this many bytes.
fn push_within<'a, A: Allocator>(
    texts: &mut Vec<&'a [u8], A>,
    text: &'a [u8],
    room: u32,
) -> Result<(), ObjectError>
    ensures { MatchResult result
        (λ _. spec.PushesText texts.old.items texts.new.items text.now room)
        (λ e. spec.FailsToPush text.now room e × (texts.new.items ≡ texts.old.items)) }
{
    if text.len() >= room as usize {
        return Err(ObjectError::Fault(TOO_LARGE));
    }
    push_text(texts, text)?;
    Ok(())
}

/// Likewise; if it fails, the string has no offset any more.
fn push_new<'a, A: Allocator + Copy>(
    texts: &mut Vec<&'a [u8], A>,
    by_text: &mut BTreeMap<(usize, &'a [u8]), u32, A>,
    text: &'a [u8],
    room: u32,
) -> Result<(), ObjectError>
    ensures { MatchResult result
        (λ _. spec.PushesText texts.old.items texts.new.items text.now room
        × (by_text.new.entries ≡ by_text.old.entries))
        (λ e. spec.FailsToPush text.now room e × (texts.new.items ≡ texts.old.items)
        × spec.Forgets by_text.old by_text.new text.now) }
{
    match push_within(texts, text, room) {
        Ok(()) => Ok(()),
        Err(e) => {
            by_text.remove(&(text.len(), text));
            Err(e)
        }
    }
}

/// Stores the offset of a long string, by that in the table that is read. If memory runs out, nothing
/// changes.
fn store<A: Allocator + Copy>(
    by_offset: &mut BTreeMap<u32, u32, A>,
    off: u32,
    offset: u32,
) -> Result<(), AllocError>
    ensures { MatchResult result (λ _. spec.Stores by_offset.old by_offset.new off offset)
        (λ _. by_offset.new.entries ≡ by_offset.old.entries) }
{
    by_offset.insert(off, offset)?;
    Ok(())
}

/// Appends a string with a NUL.
fn push_with_nul<A: Allocator>(out: &mut Vec<u8, A>, text: &[u8]) -> Result<(), AllocError>
    ensures { OnOk result (out.new.items ≡ out.old.items ++ with_nul text.now) }
{
    out.extend_from_slice(text)?;
    out.push(0)?;
    Ok(())
}

/// Appends strings, each with a NUL.
fn push_all<A: Allocator>(out: &mut Vec<u8, A>, texts: &[&[u8]]) -> Result<(), AllocError>
    ensures { OnOk result (out.new.items
        ≡ out.old.items ++ flat_map with_nul (borrowed_texts texts.now)) }
{
    for text in texts {
        push_with_nul(out, text)?;
    }
    Ok(())
}

/// The strings that have been written.
#[derive(Drop)]
pub(crate) struct Names<'a, A: Allocator> {
    /// The strings, and how long the table of them is, in bytes.
    texts: Vec<&'a [u8], A>,
    len: u32,
    /// The offsets by the lengths and bytes of strings.
    by_text: BTreeMap<(usize, &'a [u8]), u32, A>,
    /// The table that is read, and the offsets of long strings by those in it.
    source: &'a [u8],
    by_offset: BTreeMap<u32, u32, A>,
    /// How long the table may be, in bytes.
    limit: u32,
}

impl<'a, A: Allocator> Model for Names<'a, A> {
    ghost use Rattle.bpf_canon.specs.btf.names.Interned.{borrowed_texts};
    ghost use Rattle.bpf_object.specs.private.Names.{Strings, IsStringTable};

    ghost Value = { Strings };

    ghost view = { λ n. record {
      texts = borrowed_texts n.texts.items;
      source = n.source.now;
      limit = n.limit;
    } };

    ghost invariant = { λ n. IsStringTable (borrowed_texts n.texts.items) n.len n.by_text
        n.source.now n.by_offset n.limit };
}

impl<'a, A: Allocator + Copy> Names<'a, A> {
    /// A table of the empty string, of at most `limit` bytes. Strings are read from `source`.
    pub(crate) fn new(alloc: A, limit: u32, source: &'a [u8]) -> Names<'a, A>
        requires { 0 < limit }
        ensures { result ≡ record { texts = []; source = source.now; limit = limit } }
    {
        Names {
            texts: Vec::new(alloc),
            len: 1,
            by_text: BTreeMap::new(alloc),
            source,
            by_offset: BTreeMap::new(alloc),
            limit,
        }
    }

    /// The offset of a string, which is appended if it is new.
    pub(crate) fn text(&mut self, text: &'a [u8]) -> Result<u32, ObjectError>
        ensures { MatchResult result (spec.Adds self.old self.new text.now)
            (spec.FailsToAdd self.old text.now) }
    {
        let end = self.len;
        if text.is_empty() {
            return Ok(0);
        }
        let offset = find_or_store(&mut self.by_text, text, end)?;
        if offset < end {
            return Ok(offset);
        }
        push_new(&mut self.texts, &mut self.by_text, text, self.limit - end)?;
        self.len = end + text.len() as u32 + 1;
        Ok(offset)
    }

    /// The offset of the string at an offset of the table that is read.
    pub(crate) fn at(&mut self, off: u32) -> Result<u32, ObjectError>
        requires closed { is_closed self.old.source ≡ true }
        requires there { off < length self.old.source }
        ensures { let x = spec_string_at self.old.source off in
            MatchResult result (spec.Adds self.old self.new x) (spec.FailsToAdd self.old x) }
    {
        if let Some(offset) = self.by_offset.get(&off) {
            return Ok(*offset);
        }
        let text = string_at(self.source, off as usize);
        let offset = self.text(text)?;
        if text.len() >= LONG {
            store(&mut self.by_offset, off, offset)?;
        }
        Ok(offset)
    }

    /// Reads strings from another table from now on.
    pub(crate) fn read_from(self, alloc: A, source: &'a [u8]) -> Names<'a, A>
        ensures { result ≡ record {
          texts = self.entry.texts;
          source = source.now;
          limit = self.entry.limit;
        } }
    {
        let Names {
            texts,
            len,
            by_text,
            source: _,
            by_offset: _,
            limit,
        } = self;
        Names {
            texts,
            len,
            by_text,
            source,
            by_offset: BTreeMap::new(alloc),
            limit,
        }
    }

    /// The table. What else was stored is freed before it is made.
    pub(crate) fn into_table(self, alloc: A) -> Result<Vec<u8, A>, AllocError>
        ensures table { IfOk result (λ table. table.items ≡ table_of self.entry.texts) }
        ensures own { OnOk result (kept self.entry.texts ≡ self.entry.texts) }
    {
        let Names {
            texts,
            len,
            by_text,
            source: _,
            by_offset,
            limit: _,
        } = self;
        drop(by_text);
        drop(by_offset);
        let mut table = Vec::with_capacity(alloc, len as usize)?;
        table.push(0)?;
        push_all(&mut table, &texts)?;
        Ok(table)
    }
}
