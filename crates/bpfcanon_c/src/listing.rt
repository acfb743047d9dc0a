//! The calls on listings of instructions.

ghost use Rattle.std.specs.Prelude.{◌≡◌};
ghost use Rattle.bpfcanon_c.specs.Listings.{code_of_line, listing_end};
ghost use Rattle.bpfcanon_c.specs.Listings.{IsLineCode, IsListing, EndsListing};
ghost use Rattle.bpfcanon_c.specs.Listings.{AnswersListing, IsListed, EndsListed, AnswersListed};
ghost use Rattle.bpfcanon_c.specs.Outputs.{IsInsnCode, EndsOutput};

use crate::answer::{Answer, Ending, FaultCode, order_from, put, report};
use bpf_insn::{Order, decode_insns};
use bpf_text::{LineFault, ListError, listing, read_listing_bytes};
use std::alloc::Global;

/// Writes the listing of the instructions of a file (RFC 9669), which is in the byte order `order`,
/// at the start of `out`: a line for each, with a newline. A listing is at most 4 times as long as
/// its file.
///
/// # Errors
///
/// Status 6 if `order` is neither 0 nor 1; 2 with the first fault of the file, its offset in bytes
/// from the start of `bytes`; 4 if memory runs out; 5 with the length of the listing if `out` is
/// shorter. `out` is then unchanged.
#[unsafe(no_mangle)]
pub extern "C" fn bpfcanon_proved_insn_show(
    alloc: Global,
    order: u32,
    bytes: &[u8],
    out: &mut [u8],
) -> Answer
    ensures { AnswersListing order bytes.now out.old out.new result }
{
    report(match order_from(order) {
        Some(order) => listing_in(alloc, order, bytes, out),
        None => Ending::Order,
    })
}

/// The listing of a file.
fn listing_in(alloc: Global, order: Order, bytes: &[u8], out: &mut [u8]) -> Ending
    ensures { EndsOutput (IsListing order bytes.now) (IsInsnCode order bytes.now)
        out.old out.new result }
{
    match decode_insns(alloc, order, bytes) {
        Ok(insns) => match listing(alloc, &insns) {
            Ok(text) => put(&text, out),
            Err(error) => Ending::from(error),
        },
        Err(error) => Ending::from(error),
    }
}

/// Writes the instructions of a listing (docs/FORMATS.md, "Reading a listing") in the byte order
/// `to` at the start of `out`. They are at most twice as long as the listing.
///
/// # Errors
///
/// Status 6 if `to` is neither 0 nor 1; 2 with the first faulty line, counted from 1, and its
/// cause; 4 if memory runs out; 5 with the length of the output if `out` is shorter. `out` is then
/// unchanged.
#[unsafe(no_mangle)]
pub extern "C" fn bpfcanon_proved_insn_read(
    alloc: Global,
    to: u32,
    text: &[u8],
    out: &mut [u8],
) -> Answer
    ensures { AnswersListed to text.now out.old out.new result }
{
    report(match order_from(to) {
        Some(to) => listed_in(alloc, to, text, out),
        None => Ending::Order,
    })
}

/// The instructions of a listing in a byte order.
fn listed_in(alloc: Global, to: Order, text: &[u8], out: &mut [u8]) -> Ending
    ensures { EndsOutput (IsListed to text.now) (IsLineCode text.now) out.old out.new result }
{
    match read_listing_bytes(alloc, to, text) {
        Ok(written) => put(&written, out),
        Err(error) => Ending::from(error),
    }
}

impl From<ListError> for Ending {
    ghost from_gives = { λ error ending. ending ≡ listing_end error };

    fn from(error: ListError) -> Ending {
        match error {
            ListError::Fault(fault) => Ending::First(line_code(fault)),
            ListError::Memory => Ending::Memory,
        }
    }
}

/// A fault of a listing by its numbers.
fn line_code(fault: LineFault) -> FaultCode
    ensures { result ≡ code_of_line fault }
{
    FaultCode {
        cause: u32::from(fault.cause.number()),
        pos: 0,
        line: fault.line,
    }
}
