//! Arenas of one chunk with a given number of free bytes, and what calls over them returned.
//!
//! A test gives a call 0 bytes, 1 byte, and so on. Each growth that needs more than the ones before it therefore fails once.

use super::expect::holds;
use bpf_canon::{RunCause, RunError};
use bumpalo::Bump;
use std::alloc::Global;
use std::process::Abort;

/// How many bytes an arena has at least, before any are given away.
const CAPACITY: usize = 16_384;

/// A test ends after this number of calls with enough memory, and one more with all of the arena.
const ENOUGH: usize = 16;

/// An arena with `capacity` free bytes: the others are allocated first. It gets no other chunk.
fn arena(rt: &impl Abort, alloc: Global, capacity: usize) -> Bump<Global> {
    let bump = Bump::try_with_capacity(alloc, CAPACITY).expect(rt, "ample memory");
    let taken = bump.chunk_capacity().saturating_sub(capacity);
    bump.try_alloc_slice_fill_clone(taken, 0u8)
        .expect(rt, "ample memory");
    bump.set_allocation_limit(Some(bump.allocated_bytes()));
    holds(rt, bump.chunk_capacity() == capacity, &capacity);
    bump
}

/// What a call returned in an arena.
#[derive(Clone, Copy)]
pub(crate) enum Outcome {
    /// What it returns with ample memory.
    Whole,
    /// Out of memory at this point of the call, as far as the call distinguishes them.
    Refused(usize),
    /// Another answer.
    Wrong,
}

/// The outcome of a call that had enough memory, by whether its answer is right.
pub(crate) fn whole_if(is_right: bool) -> Outcome {
    if is_right {
        Outcome::Whole
    } else {
        Outcome::Wrong
    }
}

/// The outcome of a run that has these bytes to write, by those that its sink has stored. A growth of the sink that fails is a failed
/// write.
pub(crate) fn sunk<F: Drop>(ran: &Result<u64, RunError<F>>, out: &[u8], whole: &[u8]) -> Outcome {
    let (cause, written) = match ran {
        Ok(written) => return whole_if(out == whole && *written == out.len() as u64),
        Err(stop) => (&stop.cause, stop.written),
    };
    let is_front = whole.starts_with(out) && out.len() < whole.len();
    if is_front && written == out.len() as u64 && matches!(cause, RunCause::WriteFailed) {
        return Outcome::Refused(out.len());
    }
    Outcome::Wrong
}

/// A call that allocates in an arena.
pub(crate) trait ArenaCall {
    /// Makes the call.
    fn outcome(&self, alloc: Global, bump: &Bump<Global>) -> Outcome;
}

/// What a call returned with ever more memory.
#[derive(Clone, Copy, Debug)]
pub(crate) struct Tally {
    /// How many capacities were too small, from 0 bytes on.
    pub(crate) refused: usize,
    /// The number of points of the call at which growths failed, and the last of them.
    pub(crate) points: usize,
    pub(crate) last_point: Option<usize>,
    /// How many capacities were enough.
    pub(crate) done: usize,
    /// The first capacity in which the call returned something else, came less far than in a smaller one, or ran out of memory although a
    /// smaller one was enough.
    pub(crate) wrong: Option<usize>,
}

impl Tally {
    /// Makes a call with ever more memory.
    pub(crate) fn of<C: ArenaCall>(rt: &impl Abort, alloc: Global, call: &C) -> Tally {
        let mut tally = Tally {
            refused: 0,
            points: 0,
            last_point: None,
            done: 0,
            wrong: None,
        };
        for more in 0..=CAPACITY {
            let capacity = if tally.done == ENOUGH { CAPACITY } else { more };
            tally.count(capacity, call.outcome(alloc, &arena(rt, alloc, capacity)));
            if tally.done > ENOUGH || tally.wrong.is_some() {
                break;
            }
        }
        tally
    }

    /// Counts what the call returned with a capacity. With more memory it gets at least as far.
    fn count(&mut self, capacity: usize, outcome: Outcome) {
        match outcome {
            Outcome::Whole => self.done = self.done.saturating_add(1),
            Outcome::Refused(point) if self.done == 0 && self.last_point <= Some(point) => {
                self.refuse(point);
            }
            _ => self.wrong = Some(capacity),
        }
    }

    /// Counts a call that ran out of memory at a point.
    fn refuse(&mut self, point: usize) {
        self.refused = self.refused.saturating_add(1);
        if self.last_point != Some(point) {
            self.points = self.points.saturating_add(1);
            self.last_point = Some(point);
        }
    }

    /// Whether no answer was wrong, and at least this many capacities were too small, at this many points or more.
    pub(crate) fn is_right(&self, refused: usize, points: usize) -> bool {
        let is_whole = self.done > ENOUGH && self.wrong.is_none();
        is_whole && refused <= self.refused && points <= self.points
    }
}
