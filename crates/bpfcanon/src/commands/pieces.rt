//! Output that is written in pieces, so that only one piece is held in memory.
//!
//! Only listings are: names may share their bytes in a file, but not in its listing, so a BTF file
//! of a few megabytes can have one that is larger than memory. `insn-show` and `btf-show` check the
//! entire input first, so that a fault leaves the output empty. Then they append a line, or part of
//! one, to a buffer, which is written as soon as it has [`PIECE`] bytes. `listing` and `show_btf`
//! of `bpf_text` return everything. Other output is completed before it is written (`reply.rt`).

ghost use Rattle.std.specs.Prelude.{◌≡◌, ◌<◌, [], length, IfErr, OnOk};
ghost use Rattle.bpfcanon.specs.declared.commands.pieces.PutError.TheVariants.{Memory, WriteFailed};
ghost use Rattle.bpfcanon.specs.Devices.{sink_change};
ghost use Rattle.bpfcanon.specs.commands.Pieces.{Gathers, TookText};

use bpf_canon::{ByteSink, put_all};
use std::alloc::{AllocError, Allocator};

/// Why the output is incomplete.
#[derive(Clone, Copy, Debug, PartialEq, Eq)]
pub enum PutError {
    /// A write failed.
    WriteFailed,
    /// Out of memory.
    Memory,
}

impl From<AllocError> for PutError {
    ghost from_gives = { λ _ made. made ≡ Memory };

    fn from(_error: AllocError) -> PutError {
        PutError::Memory
    }
}

/// The length in bytes from which a piece is written.
const PIECE: usize = 8192;

/// Writes a piece and empties it. The buffer keeps its capacity for the next piece.
///
/// # Errors
///
/// `WriteFailed` if a write fails. The sink has then accepted a proper prefix of the piece.
pub fn put_piece<W: ByteSink, A: Allocator>(
    sink: &mut W,
    piece: &mut Vec<u8, A>,
) -> Result<(), PutError>
    requires { W.failures sink.old < u64.MAX }
    ensures put { TookText (sink_change W.ByteSink sink.old sink.new) piece.old.items result }
    ensures empty { OnOk result (piece.new.items ≡ []) }
    ensures failed { IfErr result (λ e. e ≡ WriteFailed) }
{
    put_all(sink, piece.as_slice()).map_err(|_| PutError::WriteFailed)?;
    piece.clear();
    Ok(())
}

/// Writes a piece by [`put_piece`], if it is at least [`PIECE`] bytes long.
pub fn put_long_piece<W: ByteSink, A: Allocator>(
    sink: &mut W,
    piece: &mut Vec<u8, A>,
) -> Result<(), PutError>
    requires { W.failures sink.old < u64.MAX }
    ensures gathered { Gathers (sink_change W.ByteSink sink.old sink.new) piece.new.items
        piece.old.items result }
    ensures short { OnOk result (length piece.new.items < PIECE) }
    ensures failed { IfErr result (λ e. e ≡ WriteFailed) }
{
    if piece.len() < PIECE {
        return Ok(());
    }
    put_piece(sink, piece)
}
