//! The texts of errors, and what `?` makes of a fault or of an error of the allocator.

use super::expect::holds;
use bpf_canon::{ReadError, RunCause, SideError};
use bpf_insn::{Group, InsnError, Order, Reg, SlotCause, SlotFault};
use bpf_text::{LineCause, LineFault, ListError};
use btf_raw::{BtfCause, BtfFault, NameCause};
use btf_types::BtfError;
use std::alloc::{AllocError, AllocFailed, Global};
use std::error::Error;
use std::test::Fail;

const SLOT: SlotFault = SlotFault {
    pos: 9,
    cause: SlotCause::Src,
};

const BTF: BtfFault = BtfFault {
    pos: 36,
    cause: BtfCause::Magic,
};

const LINE: LineFault = LineFault {
    line: 2,
    cause: LineCause::Word,
};

/// Fails with the error that `?` makes from a fault.
fn failed<F, E: From<F>>(fault: F) -> Result<(), E> {
    Err(fault)?
}

/// A byte on the heap. `?` makes the error from either kind of error of the allocator.
fn byte_on_heap<E>(alloc: Global) -> Result<Vec<u8>, E>
where
    E: From<AllocError> + From<AllocFailed<u8>>,
{
    let mut bytes = Vec::with_capacity(alloc, 1)?;
    bytes.push(1)?;
    Ok(bytes)
}

/// Whether an error has this text.
fn has_text<E: Error>(alloc: Global, error: &E, wanted: &str) -> Result<bool, AllocError> {
    let text = format!(in alloc; "{error}")?;
    Ok(text.as_str() == wanted)
}

#[test]
fn errors_are_made_by_the_question_mark(rt: HostRuntime) {
    let is_made = failed(SLOT) == Err(InsnError::Fault(SLOT))
        && failed(BTF) == Err(BtfError::Fault(BTF))
        && failed(LINE) == Err(ListError::Fault(LINE))
        && failed(NameCause::Utf8) == Err(BtfCause::NameUtf8);
    holds(&rt, is_made, ("faults", 4));
}

#[test]
fn errors_of_the_allocator_are_made_by_the_question_mark(rt: HostRuntime) {
    let is_made = byte_on_heap::<InsnError>(rt.alloc()).is_ok()
        && byte_on_heap::<BtfError>(rt.alloc()).is_ok()
        && byte_on_heap::<ListError>(rt.alloc()).is_ok()
        && byte_on_heap::<ReadError>(rt.alloc()).is_ok()
        && byte_on_heap::<RunCause<SlotFault>>(rt.alloc()).is_ok()
        && byte_on_heap::<SideError<SlotFault>>(rt.alloc()).is_ok();
    holds(&rt, is_made, ("errors of the allocator", 6));
}

#[test]
fn faults_are_errors_with_a_text(rt: HostRuntime) -> Result<(), Fail> {
    let has_texts = has_text(rt.alloc(), &SLOT, "9 Src")?
        && has_text(rt.alloc(), &BTF, "36 Magic")?
        && has_text(rt.alloc(), &LINE, "line 2 Word")?
        && has_text(rt.alloc(), &NameCause::Utf8, "Utf8")?;
    let has_sentence = NameCause::Utf8.describe() == BtfCause::NameUtf8.describe();
    holds(&rt, has_texts && has_sentence, ("faults", 4));
    Ok(())
}

#[test]
fn values_have_names(rt: HostRuntime) -> Result<(), Fail> {
    let order: Order = "big".parse()?;
    let reg = Reg::try_from(3)?;
    let text = format!(in rt.alloc(); "{order} {reg} {}", Group::Packet)?;
    holds(&rt, text.as_str() == "big r3 packet", ("names", 3));
    Ok(())
}
