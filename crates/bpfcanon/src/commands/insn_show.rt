//! `insn-show`: validates the input, and then writes its listing in pieces.
//!
//! Each instruction is decoded when it is listed. A list of them would take more memory than the
//! input, and the check of the input makes no values (`whole_insns.rt` of `bpf_insn`).

ghost use Rattle.std.specs.Prelude.{◌≡◌, ◌<◌, ◌≤◌, List, length};
ghost use Rattle.bpf_insn.specs.{declared.insn.Insn.Insn, Encoding.InsnFile};
ghost use Rattle.bpf_text.specs.insn.Lines.{listing_of};
ghost use Rattle.bpfcanon.specs.{declared.verb.Verb.TheVariants.InsnShow, Devices.sink_change};
ghost use Rattle.bpfcanon.specs.commands.{Pieces.Answers, Pieces.TookText, Reply.limit_of};

use crate::commands::pieces::{PutError, put_long_piece, put_piece};
use crate::job::Job;
use crate::outcome::Outcome;
use bpf_canon::{ByteSink, first_fault};
use bpf_insn::{Order, read_insn};
use bpf_text::push_line;
use std::alloc::Allocator;

/// Writes the listing of an instruction file in pieces. It isn't inlined, so that its loop has all
/// registers to itself.
#[inline(never)]
fn put_listing<A: Allocator, W: ByteSink>(
    alloc: A,
    order: Order,
    input: &[u8],
    sink: &mut W,
) -> Result<(), PutError>
    requires file { (l : List Insn) × InsnFile order input.now l }
    requires sink { W.failures sink.old < u64.MAX }
    ensures { (l : List Insn) × (InsnFile order input.now l
        × TookText (sink_change W.ByteSink sink.old sink.new) (listing_of l) result) }
{
    let mut piece = Vec::new(alloc);
    let mut pos = 0;
    while pos < input.len() {
        match read_insn(order, &input[pos..]) {
            Ok(found) => {
                let (insn, len) = found;
                push_line(&mut piece, insn)?;
                put_long_piece(sink, &mut piece)?;
                pos += len;
            }
            Err(_) => unreachable!(),
        }
    }
    put_piece(sink, &mut piece)
}

/// Runs `insn-show` on its input. Nothing is written if the input has a fault.
#[tactic(auto, using(crate::proofs::CommandsLemmas::InsnShowLemmas::show_ends))]
pub fn put_insn_show<A: Allocator, W: ByteSink>(
    alloc: A,
    job: Job,
    input: &[u8],
    sink: &mut W,
) -> Outcome
    requires show { job.verb ≡ InsnShow }
    requires within { length input.now ≤ limit_of InsnShow }
    requires sink { W.failures sink.old < u64.MAX }
    ensures { Answers job input.now (sink_change W.ByteSink sink.old sink.new) result }
{
    if let Some(fault) = first_fault(job.order, input) {
        return Outcome::from(fault);
    }
    match put_listing(alloc, job.order, input, sink) {
        Ok(()) => Outcome::Done,
        Err(error) => Outcome::from(error),
    }
}
