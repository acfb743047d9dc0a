//! Fields of a file that is refused, as far as they can be read: they are only for messages.

ghost use Rattle.std.specs.Prelude.{◌≤◌, ◌+◌, length};

use bpf_words::{Order, get16, get32};

/// e_shoff.
const TABLE: usize = 40;

/// e_shstrndx.
const NAMES: usize = 62;

/// The size of a section header.
const HEADER: usize = 64;

/// How many bytes of the name of a section are printed.
const MOST: usize = 256;

/// The bytes of a file, and the byte order that it states.
#[derive(Clone, Copy)]
pub struct Peek<'a> {
    bytes: &'a [u8],
    order: Order,
}

/// A section header.
#[derive(Clone, Copy)]
pub struct Header<'a> {
    /// The index of the section.
    pub index: usize,
    /// The name, or a part of it. It is empty if it isn't in the file.
    pub name: &'a [u8],
    /// sh_type.
    pub kind: u32,
}

impl<'a> Peek<'a> {
    /// The fields of a file.
    pub fn new(bytes: &'a [u8]) -> Peek<'a> {
        let order = match bytes.get(5) {
            Some(2) => Order::Big,
            _ => Order::Little,
        };
        Peek { bytes, order }
    }

    /// A field of 16 bits.
    pub fn half(&self, pos: usize) -> Option<u16> {
        let field = self.bytes.get(pos..)?;
        if field.len() < 2 {
            return None;
        }
        Some(get16(self.order, field, 0))
    }

    /// A field of 32 bits.
    fn word(&self, pos: usize) -> Option<u32> {
        let field = self.bytes.get(pos..)?;
        if field.len() < 4 {
            return None;
        }
        Some(get32(self.order, field, 0))
    }

    /// A field of 64 bits whose upper half is 0.
    fn offset(&self, pos: usize) -> Option<usize> {
        let first = self.word(pos)?;
        let second = self.word(pos.checked_add(4)?)?;
        match (self.order, first, second) {
            (Order::Little, low, 0) | (Order::Big, 0, low) => Some(low as usize),
            _ => None,
        }
    }

    /// The offset of a section header.
    fn header_at(&self, index: usize) -> Option<usize> {
        self.offset(TABLE)?.checked_add(index.checked_mul(HEADER)?)
    }

    /// The name of a section, by its header.
    fn name(&self, header: usize) -> Option<&'a [u8]> {
        let names = self.header_at(self.half(NAMES)? as usize)?;
        let start = self.offset(names.checked_add(24)?)?;
        let name = self
            .bytes
            .get(start.checked_add(self.word(header)? as usize)?..)?;
        let name = name.get(..MOST).unwrap_or(name);
        let end = name
            .iter()
            .position(|byte| *byte == 0)
            .unwrap_or(name.len());
        name.get(..end)
    }

    /// The section header that has this offset.
    pub fn section(&self, pos: u64) -> Option<Header<'a>> {
        let index = (pos as usize).checked_sub(self.offset(TABLE)?)? / HEADER;
        let header = self.header_at(index)?;
        Some(Header {
            index,
            name: self.name(header).unwrap_or(&[]),
            kind: self.word(header.checked_add(4)?)?,
        })
    }
}
