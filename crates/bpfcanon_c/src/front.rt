//! The call on instructions in pieces: the complete instructions at the start of a buffer.

ghost use Rattle.std.specs.Prelude.{◌≡◌};
ghost use Rattle.bpfcanon_c.specs.Fronts.{AnswersFront, EndsFront, EndsFrontIn, front_answer_of};

use crate::answer::{
    Answer, Ending, FaultCode, order_from, put, slot_code, with_fault, with_status,
};
use bpf_canon::InsnFeed;
use bpf_insn::{InsnError, Order};
use std::alloc::Global;

/// How the call ended.
#[derive(Clone, Copy, Debug, PartialEq, Eq)]
pub enum FrontEnding {
    /// The complete instructions have this length in bytes, and so has the output. The bytes after
    /// them may begin an instruction.
    Sound(usize),
    /// The instructions before a fault that no more bytes can repair have this length in bytes, and
    /// so has the output.
    Faulty(usize, FaultCode),
    /// Out of memory.
    Memory,
    /// The output has this length in bytes, which is more than the buffer has.
    Room(usize),
    /// The number of a byte order is neither 0, for little, nor 1, for big.
    Order,
}

/// Writes the complete instructions at the start of `bytes` (RFC 9669 section 3), which are in the
/// byte order `order`, in the byte order `to` at the start of `out`. To read a stream in pieces,
/// prepend the bytes that were not read, fewer than 16, to the next piece.
///
/// # Errors
///
/// Status 6 if `order` or `to` is neither 0 nor 1; 2 with a fault that remains whatever bytes
/// follow, its offset in bytes from the start of `bytes`, after the instructions before it are
/// written; 4 if memory runs out; 5 with the length of the output if `out` is shorter. With 4, 5
/// and 6 `out` is unchanged.
#[unsafe(no_mangle)]
pub extern "C" fn bpfcanon_proved_insn_front(
    alloc: Global,
    order: u32,
    to: u32,
    bytes: &[u8],
    out: &mut [u8],
) -> Answer
    ensures { AnswersFront order to bytes.now out.old out.new result }
{
    report_front(front_into(alloc, order, to, bytes, out))
}

/// The answer of an ending.
fn report_front(ending: FrontEnding) -> Answer
    ensures { result ≡ front_answer_of ending }
{
    match ending {
        FrontEnding::Sound(len) => Answer {
            read: len,
            written: len,
            ..with_status(0)
        },
        FrontEnding::Faulty(len, fault) => Answer {
            read: len,
            written: len,
            ..with_fault(2, fault)
        },
        FrontEnding::Memory => with_status(4),
        FrontEnding::Room(needed) => Answer {
            needed,
            ..with_status(5)
        },
        FrontEnding::Order => with_status(6),
    }
}

/// The complete instructions, in the byte orders that two numbers name.
fn front_into(alloc: Global, order: u32, to: u32, bytes: &[u8], out: &mut [u8]) -> FrontEnding
    ensures { EndsFront order to bytes.now out.old out.new result }
{
    match (order_from(order), order_from(to)) {
        (Some(order), Some(to)) => front_in(alloc, order, to, bytes, out),
        _ => FrontEnding::Order,
    }
}

/// The complete instructions, in two byte orders.
fn front_in(alloc: Global, order: Order, to: Order, bytes: &[u8], out: &mut [u8]) -> FrontEnding
    ensures { EndsFrontIn order to bytes.now out.old out.new result }
{
    let mut feed = InsnFeed::new(order, to);
    let mut front = Vec::new(alloc);
    match feed.feed(bytes, &mut front) {
        Ok(()) => {
            let read = bytes.len() - feed.held();
            match put(&front, out) {
                Ending::Written(_) => FrontEnding::Sound(read),
                Ending::Room(needed) => FrontEnding::Room(needed),
                _ => unreachable!(),
            }
        }
        Err(InsnError::Fault(fault)) => match put(&front, out) {
            Ending::Written(len) => FrontEnding::Faulty(len, slot_code(fault)),
            Ending::Room(needed) => FrontEnding::Room(needed),
            _ => unreachable!(),
        },
        Err(InsnError::Memory) => FrontEnding::Memory,
    }
}
