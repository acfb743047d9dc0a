//! Inputs about as long as the limit, and endless ones, over devices without known bytes.

ghost use Rattle.std.specs.Prelude.{None, ℕ, List};

use super::expect::{equal, holds};
use super::fused_devices::written_by;
use bpf_canon::{
    ByteSink, ByteSource, DeviceFailed, INSN_LIMIT, ReadError, RunCause, RunError, read_all,
    run_insns,
};
use bpf_insn::{Order, SlotCause, SlotFault};

/// Gives this number of exits, of which `u64::MAX` never end, and then some last bytes.
#[derive(Drop)]
struct Exits {
    left: u64,
    last: &'static [u8],
}

impl ByteSource for Exits {
    ghost remaining = { λ _. None };

    ghost failures = { λ _. 0 };

    fn read(&mut self, buffer: &mut [u8]) -> Result<usize, DeviceFailed> {
        let capacity = (buffer.len() / 8) as u64;
        let slots = capacity.min(self.left);
        if slots > 0 {
            self.left = self.left.saturating_sub(slots);
            for (pos, byte) in buffer.iter_mut().enumerate() {
                *byte = if pos % 8 == 0 { 0x95 } else { 0 };
            }
            return Ok(buffer.len().min((slots * 8) as usize));
        }
        let n = buffer.len().min(self.last.len());
        buffer[..n].copy_from_slice(&self.last[..n]);
        self.last = &self.last[n..];
        Ok(n)
    }
}

/// Takes all bytes, and counts them.
#[derive(Drop)]
pub(crate) struct Counter {
    pub(crate) taken: u64,
}

impl ByteSink for Counter {
    ghost contents = { λ _. None };

    ghost failures = { λ _. 0 };

    fn write(&mut self, bytes: &[u8]) -> Result<usize, DeviceFailed> {
        self.taken = self.taken.saturating_add(bytes.len() as u64);
        Ok(bytes.len())
    }
}

type Ran = Result<u64, RunError<SlotFault>>;

/// How many exits there are, the bytes after them, and how the run ends.
struct LimitRow {
    left: u64,
    last: &'static [u8],
    ended: Ran,
}

/// How many exits are within the limit.
const MOST: u64 = INSN_LIMIT / 8;

const TOO_LONG: Ran = Err(RunError {
    cause: RunCause::TooLong,
    written: INSN_LIMIT,
});

const TOO_LONG_WIDE: Ran = Err(RunError {
    cause: RunCause::TooLong,
    written: INSN_LIMIT - 8,
});

const FAULTY: Ran = Err(RunError {
    cause: RunCause::Fault(SlotFault {
        pos: INSN_LIMIT - 7,
        cause: SlotCause::Src,
    }),
    written: INSN_LIMIT - 8,
});

#[rattlefmt::skip]
static LIMITS: [LimitRow; 6] = [
    LimitRow { left: MOST, last: b"", ended: Ok(INSN_LIMIT) },
    LimitRow { left: MOST, last: b"\x95", ended: TOO_LONG },
    LimitRow { left: u64::MAX, last: b"", ended: TOO_LONG },
    // a wide load whose second slot would begin at the limit
    LimitRow { left: MOST - 1, last: b"\x18\x01\0\0\0\0\0\0\0\0\0\0\0\0\0\0", ended: TOO_LONG_WIDE },
    // a fault in the last slot before the limit, and beyond it
    LimitRow { left: MOST - 1, last: b"\x04\x10\0\0\x05\0\0\0\x95", ended: FAULTY },
    LimitRow { left: MOST, last: b"\x04\x10\0\0\x05\0\0\0", ended: TOO_LONG },
];

#[test]
fn inputs_over_the_limit_are_too_long(rt: HostRuntime) {
    for row in &LIMITS {
        let mut source = Exits {
            left: row.left,
            last: row.last,
        };
        let mut sink = Counter { taken: 0 };
        let order = Order::Little;
        let ran = run_insns(rt.alloc(), &mut source, &mut sink, order, order);
        equal(&rt, &ran, &row.ended, &row.left);
        equal(&rt, &sink.taken, &written_by(&row.ended), &row.last);
    }
}

#[test]
fn an_endless_source_is_too_long_to_be_read(rt: HostRuntime) {
    let mut source = Exits {
        left: u64::MAX,
        last: b"",
    };
    let read = read_all(rt.alloc(), &mut source, 10_000);
    let is_too_long = matches!(read, Err(ReadError::TooLong));
    holds(&rt, is_too_long, &"an endless source");
}
