//! How a call ends, and the answer to C of each ending.

ghost use Rattle.std.specs.Prelude.{◌≡◌};
ghost use Rattle.bpfcanon_c.specs.declared.answer.Ending.TheVariants as ends;
ghost use Rattle.bpfcanon_c.specs.Answers as spec;

use bpf_canon::SideError;
use bpf_insn::{InsnError, Order, SlotFault};
use btf_raw::BtfFault;
use btf_types::BtfError;
use std::alloc::AllocError;

/// A fault by its numbers: its position is an offset in bytes, or a line if the input is a listing.
#[derive(Clone, Copy, Debug, PartialEq, Eq)]
pub struct FaultCode {
    /// The number of the cause.
    pub cause: u32,
    /// The offset in bytes; 0 for a fault of a listing.
    pub pos: u64,
    /// The line, from 1; 0 for a fault of bytes.
    pub line: u64,
}

/// How a call ended.
#[derive(Clone, Copy, Debug, PartialEq, Eq)]
pub enum Ending {
    /// The output has this length in bytes and is at the start of the buffer.
    Written(usize),
    /// The input has this number of types.
    Types(u32),
    /// The instructions need the groups of this mask.
    Groups(u32),
    /// The input is accepted.
    Accepted,
    /// Two inputs are the same.
    Same,
    /// Two inputs are different.
    Different,
    /// The input, or the first of two, has this fault.
    First(FaultCode),
    /// The second of two has this fault, and the first has none.
    Second(FaultCode),
    /// Out of memory.
    Memory,
    /// The output has this length in bytes, which is more than the buffer has.
    Room(usize),
    /// The number of a byte order is neither 0, for little, nor 1, for big.
    Order,
}

impl From<AllocError> for Ending {
    ghost from_gives = { λ _ ending. ending ≡ ends.Memory };

    fn from(_error: AllocError) -> Ending {
        Ending::Memory
    }
}

/// The fault is in the only input.
impl From<BtfError> for Ending {
    ghost from_gives = { λ error ending. ending ≡ spec.btf_end error };

    fn from(error: BtfError) -> Ending {
        match error {
            BtfError::Fault(fault) => Ending::First(btf_code(fault)),
            BtfError::Memory => Ending::Memory,
        }
    }
}

impl From<InsnError> for Ending {
    ghost from_gives = { λ error ending. ending ≡ spec.insn_end error };

    fn from(error: InsnError) -> Ending {
        match error {
            InsnError::Fault(fault) => Ending::First(slot_code(fault)),
            InsnError::Memory => Ending::Memory,
        }
    }
}

/// How a comparison ended. `code` makes the numbers of a fault.
pub fn compared<F, C: FnOnce(F) -> FaultCode + Drop>(
    same: Result<bool, SideError<F>>,
    code: C,
) -> Ending
    requires { C.IsAlwaysCallable code }
    ensures { spec.EndsCompared (C.post code) same result }
{
    match same {
        Ok(true) => Ending::Same,
        Ok(false) => Ending::Different,
        Err(SideError::First(fault)) => Ending::First(code(fault)),
        Err(SideError::Second(fault)) => Ending::Second(code(fault)),
        Err(SideError::Memory) => Ending::Memory,
    }
}

/// What a call returns to C: `bpfcanon_answer` of `capi/bpfcanon.h`, field by field. A field that
/// the ending does not set is 0.
#[repr(C)]
#[derive(Clone, Copy)]
pub struct Answer {
    /// 0 done, accepted or the same, 1 different, 2 a fault of the input or of the first of two, 3 a fault of
    /// the second, 4 out of memory, 5 the buffer is too short, 6 an invalid byte order.
    pub status: u32,
    /// The number of the fault's cause.
    pub cause: u32,
    /// The offset of a fault of bytes.
    pub pos: u64,
    /// The line of a fault of a listing, from 1.
    pub line: u64,
    /// The length in bytes of the complete instructions that were read, only by the call on the
    /// start of a stream.
    pub read: usize,
    /// The length in bytes of the output that was written.
    pub written: usize,
    /// The length in bytes of an output that is longer than its buffer.
    pub needed: usize,
    /// The number of types.
    pub types: u32,
    /// The conformance groups, as a mask.
    pub groups: u32,
}

/// The answer of an ending.
pub fn report(ending: Ending) -> Answer
    ensures { result ≡ spec.answer_of ending }
{
    let done = with_status(0);
    match ending {
        Ending::Written(written) => Answer { written, ..done },
        Ending::Types(types) => Answer { types, ..done },
        Ending::Groups(groups) => Answer { groups, ..done },
        Ending::Accepted | Ending::Same => done,
        Ending::Different => with_status(1),
        Ending::First(fault) => with_fault(2, fault),
        Ending::Second(fault) => with_fault(3, fault),
        Ending::Memory => with_status(4),
        Ending::Room(needed) => Answer {
            needed,
            ..with_status(5)
        },
        Ending::Order => with_status(6),
    }
}

/// An answer with this status, and 0 in each other field.
pub fn with_status(status: u32) -> Answer
    ensures { result ≡ spec.bare_answer status }
{
    Answer {
        status,
        cause: 0,
        pos: 0,
        line: 0,
        read: 0,
        written: 0,
        needed: 0,
        types: 0,
        groups: 0,
    }
}

/// An answer with this status, and the cause and position of a fault.
pub fn with_fault(status: u32, fault: FaultCode) -> Answer
    ensures { result ≡ spec.fault_answer status fault }
{
    Answer {
        cause: fault.cause,
        pos: fault.pos,
        line: fault.line,
        ..with_status(status)
    }
}

/// A fault of BTF by its numbers.
pub fn btf_code(fault: BtfFault) -> FaultCode
    ensures { result ≡ spec.code_of_btf fault }
{
    FaultCode {
        cause: u32::from(fault.cause.number()),
        pos: fault.pos,
        line: 0,
    }
}

/// A fault of instructions by its numbers.
pub fn slot_code(fault: SlotFault) -> FaultCode
    ensures { result ≡ spec.code_of_slot fault }
{
    FaultCode {
        cause: u32::from(fault.cause.number()),
        pos: fault.pos,
        line: 0,
    }
}

/// The byte order of a number.
pub fn order_from(number: u32) -> Option<Order>
    ensures { spec.names_order number result }
{
    match number {
        0 => Some(Order::Little),
        1 => Some(Order::Big),
        _ => None,
    }
}

/// Copies an output to the start of a buffer. Returns `Written` with its length in bytes, or `Room`
/// with that length if the buffer is shorter, which is then unchanged.
pub fn put(bytes: &[u8], buffer: &mut [u8]) -> Ending
    ensures { spec.FillsBuffer bytes.now buffer.old buffer.new result }
{
    let len = bytes.len();
    if buffer.len() < len {
        return Ending::Room(len);
    }
    let (front, _) = buffer.split_at_mut(len);
    front.copy_from_slice(bytes);
    Ending::Written(len)
}
