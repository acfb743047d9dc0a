//! The header of an object file for BPF (System V ABI, "ELF Header").

ghost use Rattle.std.specs.Prelude.{◌≡◌, ◌==◌, ◌++◌, if◌then◌else◌, ◌≤◌, length, MatchResult};
ghost use Rattle.bpf_words.specs.declared.Order.TheVariants.{Little, Big};
ghost use Rattle.bpf_elf.specs.Rules.{AllHold, IsFirstFault};
ghost use Rattle.bpf_elf.specs.Numbers.{order_of};
ghost use Rattle.bpf_elf.specs.Header.{FILE_LIMIT, ident_rules, header_rules, layout_rules};
ghost use Rattle.bpf_elf.specs.Headers.{IsHeaderOf};

use crate::fault::{ElfCause, ElfFault, require};
use crate::numbers::get64;
use bpf_words::{Order, get16, get32};

/// The maximum length of a file in bytes.
pub const FILE_LIMIT: usize = 67_108_864;

/// 7f 45 4c 46.
const ELF_MAGIC: u32 = 0x464c_457f;

const ELFCLASS64: u8 = 2;

const EV_CURRENT: u8 = 1;

const ET_REL: u16 = 1;

const EM_BPF: u16 = 247;

/// The first index that isn't one of a section.
const SHN_LORESERVE: usize = 0xff00;

/// The byte order, and the section header table.
#[derive(Clone, Copy)]
pub(crate) struct Header {
    pub(crate) order: Order,
    /// The offset of the table.
    pub(crate) table: usize,
    /// How many entries it has.
    pub(crate) count: usize,
    /// The section with the names of sections.
    pub(crate) names: usize,
}

/// The byte order that EI_DATA states: 1 is ELFDATA2LSB, 2 is ELFDATA2MSB.
fn order_from(number: u8) -> Order
    ensures { result ≡ (if number == 2 then Big else Little) }
{
    if number == 2 {
        Order::Big
    } else {
        Order::Little
    }
}

/// Checks the first 16 bytes, and returns the byte order.
fn read_ident(bytes: &[u8]) -> Result<Order, ElfFault>
    ensures { MatchResult result
        (λ order. AllHold (ident_rules bytes.now) × (order ≡ order_of bytes.now))
        (IsFirstFault (ident_rules bytes.now)) }
{
    require(
        bytes.len() <= FILE_LIMIT,
        FILE_LIMIT,
        ElfCause::FileTooLarge,
    )?;
    require(bytes.len() >= 64, bytes.len(), ElfCause::FileCut)?;
    require(
        get32(Order::Little, bytes, 0) == ELF_MAGIC,
        0,
        ElfCause::Magic,
    )?;
    require(bytes[4] == ELFCLASS64, 4, ElfCause::Class)?;
    require(bytes[5] == 1 || bytes[5] == 2, 5, ElfCause::ByteOrder)?;
    require(bytes[6] == EV_CURRENT, 6, ElfCause::IdentVersion)?;
    Ok(order_from(bytes[5]))
}

/// Checks the header, and returns what the section header table needs.
pub(crate) fn read_header(bytes: &[u8]) -> Result<Header, ElfFault>
    ensures { MatchResult result
        (λ header. AllHold (ident_rules bytes.now ++ header_rules bytes.now)
        × IsHeaderOf bytes.now header)
        (IsFirstFault (ident_rules bytes.now ++ header_rules bytes.now)) }
{
    let order = read_ident(bytes)?;
    require(get16(order, bytes, 16) == ET_REL, 16, ElfCause::FileType)?;
    require(get16(order, bytes, 18) == EM_BPF, 18, ElfCause::Machine)?;
    require(get32(order, bytes, 20) == 1, 20, ElfCause::FileVersion)?;
    require(get16(order, bytes, 52) == 64, 52, ElfCause::HeaderSize)?;
    require(get16(order, bytes, 56) == 0, 56, ElfCause::Segments)?;
    require(
        get16(order, bytes, 58) == 64,
        58,
        ElfCause::SectionHeaderSize,
    )?;
    read_table(order, bytes)
}

/// Checks where the section header table is.
fn read_table(order: Order, bytes: &[u8]) -> Result<Header, ElfFault>
    requires there { 64 ≤ length bytes.now }
    requires short { length bytes.now ≤ FILE_LIMIT }
    requires order { order ≡ order_of bytes.now }
    ensures { MatchResult result
        (λ header. AllHold (layout_rules bytes.now) × IsHeaderOf bytes.now header)
        (IsFirstFault (layout_rules bytes.now)) }
{
    let count = usize::from(get16(order, bytes, 60));
    require(
        count > 0 && count < SHN_LORESERVE,
        60,
        ElfCause::SectionCount,
    )?;
    let table = get64(order, bytes, 40);
    let is_inside = table <= bytes.len() as u64 && 64 * count as u64 <= bytes.len() as u64 - table;
    require(is_inside, 40, ElfCause::SectionTable)?;
    let names = usize::from(get16(order, bytes, 62));
    require(names < count, 62, ElfCause::NamesIndex)?;
    Ok(Header {
        order,
        table: table as usize,
        count,
        names,
    })
}
