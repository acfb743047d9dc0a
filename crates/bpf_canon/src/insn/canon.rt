//! Canonical bytes of instruction files, their comparison, and the encoding of instructions.

ghost use Rattle.std.specs.Prelude.{◌≡◌, List, IfOk, IfErr, MatchResult, ◌≢◌, ◌↔◌, Err, IsTrue};
ghost use Rattle.bpf_words.specs.declared.Order.{Order, TheVariants.Little};
ghost use Rattle.bpf_insn.specs.{declared.insn.Insn.Insn, Encoding.InsnFile, Encoding.file_of};
ghost use Rattle.bpf_canon.specs.insn.Canonical.{IsCanonical, NamesFault, Compares, NamesSide};

use crate::engine::SideError;
use crate::insn::feed::InsnFeed;
use bpf_insn::{Insn, InsnError, Order, SlotFault, first_fault, insn_bytes};
use bpf_words::swapped;
use std::alloc::{AllocError, Allocator};

/// The canonical bytes of an instruction file: its instructions in little-endian byte order (RFC
/// 9669 section 3).
///
/// # Errors
///
/// `Fault` if the input isn't a valid sequence of instructions: its first fault, with the offset in
/// bytes from the start of the input. `Memory` if an allocation failed.
#[tactic(auto, using(crate::proofs::InsnLemmas::CanonLemmas::canonical_of))]
pub fn canon_insns<A: Allocator>(
    alloc: A,
    order: Order,
    bytes: &[u8],
) -> Result<Vec<u8, A>, InsnError>
    ensures found { IfOk result (λ canon. IsCanonical order bytes.now canon.items) }
    ensures all { (l : List Insn) → InsnFile order bytes.now l
        → MatchResult result (λ canon. canon.items ≡ file_of Little l) (λ e. e ≡ InsnError.Memory) }
    ensures fault { IfErr result (NamesFault order bytes.now) }
{
    recode_insns(alloc, order, Order::Little, bytes)
}

/// The instructions of a file, re-encoded in the byte order `to` (RFC 9669 section 3).
///
/// The result is as long as the file. In little-endian order it is canonical, the result of
/// [`canon_insns`].
///
/// # Errors
///
/// Those of [`canon_insns`].
pub fn recode_insns<A: Allocator>(
    alloc: A,
    order: Order,
    to: Order,
    bytes: &[u8],
) -> Result<Vec<u8, A>, InsnError>
    ensures found { IfOk result (λ written. (l : List Insn)
        × (InsnFile order bytes.now l × (written.items ≡ file_of to l))) }
    ensures all { (l : List Insn) → InsnFile order bytes.now l
        → MatchResult result (λ written. written.items ≡ file_of to l) (λ e. e ≡ InsnError.Memory) }
    ensures fault { IfErr result (NamesFault order bytes.now) }
{
    let mut feed = InsnFeed::new(order, to);
    let mut written = Vec::new(alloc);
    feed.feed(bytes, &mut written)?;
    feed.finish()?;
    Ok(written)
}

/// The concatenated bytes of instructions in the given byte order (RFC 9669 section 3).
///
/// # Errors
///
/// `AllocError` if an allocation failed.
pub fn write_insns<A: Allocator>(
    alloc: A,
    order: Order,
    insns: &[Insn],
) -> Result<Vec<u8, A>, AllocError>
    ensures { IfOk result (λ bytes. InsnFile order bytes.items insns.now) }
{
    let mut bytes = Vec::new(alloc);
    for insn in insns {
        let encoded = insn_bytes(order, *insn);
        bytes.extend_from_slice(&encoded.0[..encoded.1])?;
    }
    Ok(bytes)
}

/// Whether two instruction files (RFC 9669 section 3), each in its own byte order, have the same
/// instructions, which is the case if and only if their canonical bytes are equal.
///
/// The files are compared in place, and `alloc` isn't used. It is a parameter so that this call
/// looks like [`same_btf`](crate::same_btf).
///
/// # Errors
///
/// `First` or `Second` if that file isn't a valid sequence of instructions: its first fault, with
/// the offset in bytes from the start of the file. `Second` is returned only if the first file is
/// valid. `Memory` is never returned.
pub fn same_insns<A: Allocator>(
    alloc: A,
    order_a: Order,
    a: &[u8],
    order_b: Order,
    b: &[u8],
) -> Result<bool, SideError<SlotFault>>
    ensures same { IfOk result (Compares order_a a.now order_b b.now) }
    ensures fault { IfErr result (NamesSide order_a a.now order_b b.now) }
    ensures memory { result ≢ Err SideError.Memory }
{
    if let Some(fault) = first_fault(order_a, a) {
        return Err(SideError::First(fault));
    }
    // A file with the same instructions as a valid one is valid, and isn't checked again.
    if is_recoded(order_a, a, order_b, b) {
        return Ok(true);
    }
    match first_fault(order_b, b) {
        Some(fault) => Err(SideError::Second(fault)),
        None => Ok(false),
    }
}

/// Whether `b`, in the byte order `order_b`, has the instructions of `a` in the byte order
/// `order_a`.
///
/// The bytes are compared, and neither file is decoded or copied: an instruction has only one
/// encoding in each byte order.
fn is_recoded(order_a: Order, a: &[u8], order_b: Order, b: &[u8]) -> bool
    ensures { (insns : List Insn) → InsnFile order_a a.now insns
        → (IsTrue result ↔ (b.now ≡ file_of order_b insns)) }
{
    if order_a == order_b {
        return a == b;
    }
    // The slots of `b` have to be those of `a` in the other byte order.
    let mut left = a;
    let mut right = b;
    'slots: while let Some((slot, following)) = left.split_first_chunk::<8>() {
        match right.strip_prefix(&swapped(slot)) {
            Some(others) => right = others,
            None => return false,
        }
        left = following;
    }
    right.is_empty()
}
