//! Instructions from a stream in pieces, read in one byte order and written in another without
//! decoding (RFC 9669 sections 3 and 4).
//!
//! A piece may end inside an instruction, whose bytes, fewer than 16, are held until the next
//! piece. The rest of a piece isn't copied before it is read: only the instruction that began in an
//! earlier piece is put together first. The capacity for all that may be written is reserved at the
//! start, so if memory is refused, nothing has changed and the piece can be fed again.
//!
//! Checking and recoding are two passes. The first finds where the complete instructions end, and
//! makes no values (`insn_front`). Then all their bytes are copied at once and, if the byte orders
//! differ, rewritten in place (`swap_slots`). In the second slot of a wide load the opcode,
//! registers and offset are zero, so each slot is rewritten in the same way.

ghost use Rattle.std.specs.Prelude.{◌≡◌, ◌<◌, ◌≤◌, ◌+◌, ◌++◌, ℕ, List, [], None, length, take};
ghost use Rattle.std.specs.Prelude.{vec_len, vec_capacity, IsErrOf, IsOk, IfSome, IsNone, ⊤};
ghost use Rattle.bpf_words.specs.declared.Order.{Order};
ghost use Rattle.bpf_canon.specs.insn.FeedState.{FeedState, IsBetween};
ghost use Rattle.bpf_canon.specs.insn.FeedStream.{AnswersFor, Feeds, Finishes, Represents};
ghost use Rattle.bpf_canon.specs.insn.{FeedStream.end_of_feed, FrontReads.Advances};
ghost use Rattle.bpf_canon.specs.insn.FrontReads.{ReadsFront};

use bpf_insn::{InsnError, InsnFront, Order, SlotCause, SlotFault, insn_front};
use bpf_words::swap_slots;
use std::alloc::{AllocError, Allocator};
use std::marker::Model;

/// Reads instructions from the pieces of a stream in one byte order, and writes each in another as
/// soon as it is complete. It holds fewer than 16 bytes of the stream.
#[derive(Debug, Drop)]
pub struct InsnFeed {
    /// The byte order of the stream.
    order: Order,
    /// The byte order of what is written.
    to: Order,
    /// Begins with the bytes of the last, incomplete instruction.
    held: [u8; 16],
    /// The number of these bytes.
    held_len: usize,
    /// The length of the stream so far in bytes.
    fed: u64,
    /// The number of complete instructions so far.
    count: u64,
    /// The fault of the stream, if there is one so far.
    fault: Option<SlotFault>,
}

impl Model for InsnFeed {
    ghost Value = { FeedState };

    ghost view = { λ f. record {
      order = f.order;
      to = f.to;
      held = take f.held_len f.held;
      fed = f.fed;
      count = f.count;
      fault = f.fault;
    } };

    ghost invariant = { λ f. IsBetween f.order (take f.held_len f.held) f.held_len f.fed f.count };
}

impl InsnFeed {
    /// Creates a feed with an empty stream, which reads in the byte order `order` and writes in
    /// `to`.
    #[tactic(auto, using(crate::proofs::InsnLemmas::FeedLemmas::new_represents))]
    pub fn new(order: Order, to: Order) -> InsnFeed
        ensures represents { Represents result order to [] }
        ensures sound { result.fault ≡ None }
    {
        InsnFeed {
            order,
            to,
            held: [0; 16],
            held_len: 0,
            fed: 0,
            count: 0,
            fault: None,
        }
    }

    /// The number of bytes of the stream that are held: those of the last, incomplete instruction.
    pub fn held(&self) -> usize
        ensures held { result ≡ length self.now.held }
        ensures bound { result < 16 }
    {
        self.held_len
    }

    /// The length of the stream so far in bytes, up to the end of the last accepted piece.
    pub fn fed(&self) -> u64
        ensures { result ≡ self.now.fed }
    {
        self.fed
    }

    /// The number of complete instructions of the stream so far.
    pub fn count(&self) -> u64
        ensures { result ≡ self.now.count }
    {
        self.count
    }

    /// Reads the next piece of the stream, and appends to `out` the bytes of each instruction that
    /// is now complete. Their capacity is reserved first, in one step. The stream may not become
    /// longer than `u64::MAX` bytes.
    ///
    /// # Errors
    ///
    /// `Fault` as soon as the slot that contains a fault is complete, with the fault's offset in
    /// bytes from the start of the stream. The instructions before it have then been appended to
    /// `out`, and every later call returns this fault and changes nothing. `Memory` if an
    /// allocation failed; then nothing has changed, and the piece may be fed again. An empty piece
    /// and a piece after a fault need no memory.
    pub fn feed<A: Allocator>(
        &mut self,
        piece: &[u8],
        out: &mut Vec<u8, A>,
    ) -> Result<(), InsnError>
        requires { self.old.fed + length piece.now ≤ u64.MAX }

        // If no fault is kept, the feed and the output advance for each stream that the feed
        // represents, and the result is that of the longer stream.
        ensures moves { IsNone self.old.fault
            → Feeds self.old self.new piece.now out.old.items out.new.items result }
        ensures answer { (o to : Order) (b : List ℕ) → IsNone self.old.fault
            → Represents self.old o to b
            → AnswersFor o (b ++ piece.now) result }

        // A fault that is kept is reported again, and nothing changes.
        ensures kept { IfSome self.old.fault (λ f. IsErrOf result (InsnError.Fault f)
            × ((self.new ≡ self.old) × (out.new.items ≡ out.old.items))) }

        // An empty piece needs no memory.
        ensures empty { length piece.now ≡ 0 → IsNone self.old.fault → IsOk result }

        ensures bound { vec_len out.new
            ≤ vec_len out.old + (length self.old.held + length piece.now) }
    {
        if let Some(fault) = self.fault {
            return Err(InsnError::Fault(fault));
        }
        if piece.is_empty() {
            return Ok(());
        }
        out.reserve(self.held_len + piece.len())?;
        self.advance(piece, out);
        match self.fault {
            Some(fault) => Err(InsnError::Fault(fault)),
            None => Ok(()),
        }
    }

    /// Ends the stream, and returns the number of its instructions.
    ///
    /// # Errors
    ///
    /// The fault that `feed` returned before; otherwise `Truncated` if the last instruction is
    /// incomplete, with the offset of its incomplete slot in bytes from the start of the stream.
    pub fn finish(self) -> Result<u64, SlotFault>
        ensures end { result ≡ end_of_feed self }
        ensures answer { (o to : Order) (b : List ℕ) → Represents self o to b
            → Finishes o b result }
    {
        match self.fault {
            Some(fault) => Err(fault),
            None if self.held_len == 0 => Ok(self.count),
            // Of the slots that are held only the last is incomplete.
            None => Err(SlotFault {
                pos: self.fed - self.held_len as u64 % 8,
                cause: SlotCause::Truncated,
            }),
        }
    }

    /// Reads the held bytes and the piece, and holds what is left. The capacity is reserved.
    fn advance<A: Allocator>(&mut self, piece: &[u8], out: &mut Vec<u8, A>)
        requires fits { self.old.fed + length piece.now ≤ u64.MAX }
        requires sound { self.old.fault ≡ None }
        requires capacity { vec_len out.old + length self.old.held + length piece.now
            ≤ vec_capacity out.old }
        ensures { Advances self.old self.new piece.now out.old.items out.new.items }
    {
        let read = self.read_across(piece, out);
        let start = self.fed - self.held_len as u64;
        // An instruction consumes all held bytes, or none.
        let kept = self.held_len.saturating_sub(read.len);
        let left = &piece[read.len.saturating_sub(self.held_len)..];
        self.fed += piece.len() as u64;
        self.count += read.count;
        self.held_len = 0;
        match read.stop {
            None => {}
            Some(fault) => match fault.cause {
                SlotCause::Truncated => self.held_len = hold(&mut self.held, kept, left),
                _ => self.fault = Some(fault.moved_by(start + read.len as u64)),
            },
        }
    }

    /// Reads the complete instructions of the held bytes and the piece. Their capacity is reserved.
    fn read_across<A: Allocator>(&self, piece: &[u8], out: &mut Vec<u8, A>) -> InsnFront
        requires { vec_len out.old + length self.now.held + length piece.now
            ≤ vec_capacity out.old }
        ensures read { ReadsFront self.now.order self.now.to (self.now.held ++ piece.now) result
            out.old.items out.new.items }
        ensures held { 0 < result.count → length self.now.held ≤ result.len }
    {
        if self.held_len == 0 {
            return read_front(self.order, self.to, piece, out);
        }
        // The instruction that begins in what is held ends within 16 bytes.
        let mut joined = self.held;
        let used = piece.len().min(16 - self.held_len);
        let len = hold(&mut joined, self.held_len, &piece[..used]);
        let first = read_front(self.order, self.to, &joined[..len], out);
        if first.count == 0 {
            return first;
        }
        let rest = &piece[first.len - self.held_len..];
        let mut read = read_front(self.order, self.to, rest, out);
        read.len += first.len;
        read.count += first.count;
        read
    }
}

/// A copy of the feed, so that a program can try a piece and go back.
impl Clone for InsnFeed {
    ghost is_clone = { λ feed copy. copy ≡ feed };

    ghost is_infallible = { λ _. ⊤ };

    fn clone(&self) -> Result<InsnFeed, AllocError> {
        Ok(InsnFeed { ..*self })
    }
}

/// Reads the complete instructions at the start of `bytes`, and appends each in the byte order
/// `to`. Their capacity is reserved.
#[tactic(auto, using(crate::proofs::InsnLemmas::ReadingLemmas::front_recoded))]
fn read_front<A: Allocator>(
    order: Order,
    to: Order,
    bytes: &[u8],
    out: &mut Vec<u8, A>,
) -> InsnFront
    requires { vec_len out.old + length bytes.now ≤ vec_capacity out.old }
    ensures read { ReadsFront order to bytes.now result out.old.items out.new.items }
    ensures len { vec_len out.new ≡ vec_len out.old + result.len }
    ensures capacity { vec_capacity out.old ≤ vec_capacity out.new }
{
    let read = insn_front(order, bytes);
    let start = out.len();
    // All slots are copied at once, and then rewritten in place.
    let _ = out.extend_from_slice(&bytes[..read.len]);
    if order != to {
        swap_slots(&mut out[start..]);
    }
    read
}

/// Copies bytes into an array after its first `kept` ones, and returns the new number of bytes.
fn hold(held: &mut [u8; 16], kept: usize, more: &[u8]) -> usize
    requires { kept + length more.now ≤ 16 }
    ensures len { result ≡ kept + length more.now }
    ensures bytes { take result held.new ≡ take kept held.old ++ more.now }
{
    let len = kept + more.len();
    held[kept..len].copy_from_slice(more);
    len
}
