//! Reading a listing into the bytes of its instructions.

ghost use Rattle.std.specs.Prelude.{◌≡◌, ◌++◌, List, Err, IfOk, MatchResult, OnOk};
ghost use Rattle.bpf_insn.specs.{declared.insn.Insn.Insn, Encoding.encoding, Encoding.file_of};
ghost use Rattle.bpf_text.specs.declared.insn.fault.{LineFault.LineFault, ListError.ListError};
ghost use Rattle.bpf_text.specs.insn.Listing.{Lists, IsListFault};

use crate::insn::fault::ListError;
use crate::insn::read::read_lines;
use bpf_insn::{Insn, Order, insn_bytes};
use std::alloc::{AllocError, Allocator};

/// Appends the bytes of an instruction, in the byte order `to`.
fn push_insn<A: Allocator>(bytes: &mut Vec<u8, A>, to: Order, insn: Insn) -> Result<(), AllocError>
    ensures { OnOk result (bytes.new.items ≡ bytes.old.items ++ encoding to insn) }
{
    // The pair isn't destructured, since that would copy the bytes once more.
    let encoded = insn_bytes(to, insn);
    // Most instructions have 8 bytes. A copy of constant length is one store.
    if encoded.1 == 8 {
        return bytes.extend_from_slice(&encoded.0[..8]);
    }
    bytes.extend_from_slice(&encoded.0[..encoded.1])
}

/// The bytes of the instructions of a listing, concatenated, in the byte order `to` (RFC 9669
/// section 3). The instructions are those that [`crate::read_listing`] returns, but they aren't
/// stored: memory is allocated only for the returned bytes.
///
/// # Errors
///
/// `Fault` with the first faulty line, counted from 1, and the first cause that applies to it.
/// `Memory` if memory for the bytes can't be allocated.
pub fn read_listing_bytes<A: Allocator>(
    alloc: A,
    to: Order,
    text: &[u8],
) -> Result<Vec<u8, A>, ListError>
    ensures found { IfOk result
        (λ bytes. (l : List Insn) × Lists text.now l × (bytes.items ≡ file_of to l)) }

    // The bytes of a listing are returned, unless memory runs out.
    ensures all { (l : List Insn) → Lists text.now l →
        MatchResult result (λ bytes. bytes.items ≡ file_of to l) (λ e. e ≡ ListError.Memory) }
    ensures fault { (f : LineFault) → result ≡ Err (ListError.Fault f) → IsListFault text.now f }
{
    let mut bytes = Vec::new(alloc);
    read_lines(&mut bytes, text, |bytes, insn| push_insn(bytes, to, insn))?;
    Ok(bytes)
}
