//! The calls on BTF.

ghost use Rattle.std.specs.Prelude.{◌≡◌};
ghost use Rattle.bpfcanon_c.specs.Endings.{IsCanonicalBtf, AnswersBtf, AnswersBtfCheck};
ghost use Rattle.bpfcanon_c.specs.{Endings.AnswersSameBtf, Outputs.IsBtfCode, Outputs.EndsOutput};

use crate::answer::{Answer, Ending, btf_code, compared, order_from, put, report};
use bpf_canon::{recode_btf, same_btf};
use bpf_insn::Order;
use btf_types::CheckedFile;
use std::alloc::Global;

/// Writes the canonical form of a BTF file (btf.rst section 2) in the byte order `to` at the start
/// of `out`. It is no longer than the file.
///
/// # Errors
///
/// Status 6 if `to` is neither 0 nor 1; 2 with the first fault of the file, its offset in bytes
/// from the start of `bytes`; 4 if memory runs out; 5 with the length of the output if `out` is
/// shorter. `out` is then unchanged.
#[unsafe(no_mangle)]
pub extern "C" fn bpfcanon_proved_btf_canon(
    alloc: Global,
    to: u32,
    bytes: &[u8],
    out: &mut [u8],
) -> Answer
    ensures { AnswersBtf to bytes.now out.old out.new result }
{
    report(match order_from(to) {
        Some(to) => btf_in(alloc, to, bytes, out),
        None => Ending::Order,
    })
}

/// The canonical form in a byte order.
fn btf_in(alloc: Global, to: Order, bytes: &[u8], out: &mut [u8]) -> Ending
    ensures { EndsOutput (IsCanonicalBtf to bytes.now) (IsBtfCode bytes.now)
        out.old out.new result }
{
    match recode_btf(alloc, to, bytes) {
        Ok(canon) => put(&canon, out),
        Err(error) => Ending::from(error),
    }
}

/// Counts the types of a BTF file (btf.rst section 2), without void.
///
/// # Errors
///
/// Status 2 with the first fault of the file, its offset in bytes from the start of `bytes`; 4 if
/// memory runs out.
#[unsafe(no_mangle)]
pub extern "C" fn bpfcanon_proved_btf_check(alloc: Global, bytes: &[u8]) -> Answer
    ensures { AnswersBtfCheck bytes.now result }
{
    report(match CheckedFile::check(alloc, bytes) {
        Ok(file) => Ending::Types(file.count()),
        Err(error) => Ending::from(error),
    })
}

/// Whether two BTF files (btf.rst section 2) have the same types in the same order: status 0 if
/// they do, and 1 if they don't.
///
/// # Errors
///
/// Status 2 with the first fault of `first`; 3 with that of `second` if `first` has none; 4 if
/// memory runs out. Offsets are in bytes from the start of that file.
#[unsafe(no_mangle)]
pub extern "C" fn bpfcanon_proved_btf_same(alloc: Global, first: &[u8], second: &[u8]) -> Answer
    ensures { AnswersSameBtf first.now second.now result }
{
    report(compared(same_btf(alloc, first, second), btf_code))
}
