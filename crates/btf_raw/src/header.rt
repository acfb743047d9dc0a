//! The header, and the ends of the string section (btf.rst section 2).
//!
//! ```text
//! byte   0       2         3       4         8          12         16        20        24
//!        | magic | version | flags | hdr_len | type_off | type_len | str_off | str_len |
//! ```
//!
//! The two offsets count from the end of the header, which is at hdr_len.

ghost use Rattle.std.specs.Prelude.{◌<◌, length, IfErr, MatchResult};
ghost use Rattle.btf_raw.specs.Header.{HeaderFault, StringFault, HasNulEnds};
ghost use Rattle.btf_raw.specs.ReadHeader as spec;
ghost use Rattle.btf_raw.specs.Cause.{LeastByCause, HasNone};

use crate::cause::{BtfCause, BtfFault};
use bpf_words::{Order, get16, get32};

/// The byte order of a file and the offsets of its two sections, in bytes from the start of the
/// file.
#[derive(Clone, Copy, Debug, PartialEq, Eq, Hash)]
pub struct Header {
    /// The byte order in which the first two bytes are the magic number.
    pub order: Order,
    /// The offset of the type section.
    pub types_pos: usize,
    /// The length of the type section in bytes, at most 33,554,432.
    pub types_len: usize,
    /// The offset of the string section.
    pub str_pos: usize,
    /// The length of the string section in bytes, 1 to 16,777,216.
    pub str_len: usize,
}

/// The magic number: the first two bytes, in the file's byte order.
const MAGIC: u16 = 0xeb9f;

/// The maximum length of the header in bytes.
pub const HEADER_LIMIT: usize = 4096;

/// The maximum length of the type section in bytes.
pub const TYPES_LIMIT: usize = 33_554_432;

/// The maximum length of the string section in bytes.
pub const STRINGS_LIMIT: usize = 16_777_216;

/// Checks the first and the last byte of a string section, which must not be empty (btf.rst section
/// 2.1).
///
/// # Errors
///
/// `FirstString` if the first byte isn't NUL; otherwise `LastString` if the last byte isn't.
/// Offsets count from the start of the section.
pub fn check_strings(strings: &[u8]) -> Result<(), BtfFault>
    requires { 0 < length strings.now }
    ensures cases { MatchResult result
        (λ _. HasNulEnds strings.now)
        (λ fault. LeastByCause (StringFault strings.now) fault.pos fault.cause) }
    ensures inside { IfErr result (λ fault. fault.pos < length strings.now) }
{
    if strings[0] != 0 {
        return Err(BtfFault::at(0, BtfCause::FirstString));
    }
    let last = strings.len() - 1;
    if strings[last] != 0 {
        return Err(BtfFault::at(last, BtfCause::LastString));
    }
    Ok(())
}

/// Checks the file's length, the magic number, the version and the flags, then the header's length
/// and its bytes after the first 24. Returns the byte order and the header's length.
fn start_of(bytes: &[u8]) -> Result<(Order, usize), BtfFault>
    ensures { MatchResult result
        (λ start. spec.LengthIsRight bytes.now start.0 start.1)
        (λ fault. LeastByCause (HeaderFault bytes.now) fault.pos fault.cause) }
{
    if bytes.len() < 24 {
        return Err(BtfFault::at(bytes.len(), BtfCause::ShortHeader));
    }
    let order = if get16(Order::Little, bytes, 0) == MAGIC {
        Order::Little
    } else if get16(Order::Big, bytes, 0) == MAGIC {
        Order::Big
    } else {
        return Err(BtfFault::at(0, BtfCause::Magic));
    };
    if bytes[2] != 1 {
        return Err(BtfFault::at(2, BtfCause::Version));
    }
    if bytes[3] != 0 {
        return Err(BtfFault::at(3, BtfCause::Flags));
    }
    let len = get32(order, bytes, 4) as usize;
    if len < 24 || len > HEADER_LIMIT || len > bytes.len() {
        return Err(BtfFault::at(4, BtfCause::HeaderLength));
    }
    for pos in 24..len {
        if bytes[pos] != 0 {
            return Err(BtfFault::at(pos, BtfCause::HeaderTail));
        }
    }
    Ok((order, len))
}

/// Reads the header of a file, and checks it against the entire file (btf.rst section 2).
///
/// Three rules are this project's own: the flags are 0; hdr_len is 24 to 4,096, with zeros after
/// the first 24 bytes; and the two sections fill the rest of the file exactly, in either order.
///
/// # Errors
///
/// The first cause, from `ShortHeader` to `FileLength`, that applies, with its offset in the file.
pub fn read_header(bytes: &[u8]) -> Result<Header, BtfFault>
    ensures { MatchResult result
        (λ h. spec.ReadsHeader bytes.now h × HasNone (HeaderFault bytes.now))
        (λ fault. LeastByCause (HeaderFault bytes.now) fault.pos fault.cause) }
{
    let (order, header_len) = start_of(bytes)?;
    let type_off = get32(order, bytes, 8) as usize;
    let types_len = get32(order, bytes, 12) as usize;
    let str_off = get32(order, bytes, 16) as usize;
    let str_len = get32(order, bytes, 20) as usize;
    if types_len > TYPES_LIMIT {
        return Err(BtfFault::at(12, BtfCause::TypeLength));
    }
    if str_len == 0 || str_len > STRINGS_LIMIT {
        return Err(BtfFault::at(20, BtfCause::StringLength));
    }
    if !(type_off == 0 && str_off == types_len) && !(str_off == 0 && type_off == str_len) {
        return Err(BtfFault::at(8, BtfCause::Sections));
    }
    let whole = header_len + types_len + str_len;
    if whole != bytes.len() {
        return Err(BtfFault::at(whole.min(bytes.len()), BtfCause::FileLength));
    }
    Ok(Header {
        order,
        types_pos: header_len + type_off,
        types_len,
        str_pos: header_len + str_off,
        str_len,
    })
}
