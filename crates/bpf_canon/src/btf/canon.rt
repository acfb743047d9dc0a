//! Canonical bytes of BTF files, and their comparison.
//!
//! Files are compared by their canonical bytes. Comparing records one by one would need less
//! memory, but each use of a name would be compared, and a file may use one long name so often that
//! this lasted hours.

ghost use Rattle.std.specs.Prelude.{◌≡◌, List, IfOk, IfErr, MatchResult};
ghost use Rattle.bpf_words.specs.declared.Order.TheVariants.{Little};
ghost use Rattle.btf_types.specs.{Values.TypeRecord, Denotes.Denotes, tables.Tables.Fails};
ghost use Rattle.bpf_canon.specs.btf.{CanonicalBtf.canonical, BtfLaws.IsCanonicalBtf};
ghost use Rattle.bpf_canon.specs.btf.SameBtf.{ComparesBtf, IsOnSide, NamesBtfSide};

use crate::btf::write::sections::write_sections;
use crate::engine::SideError;
use bpf_words::Order;
use btf_raw::BtfFault;
use btf_types::{BtfError, CheckedFile};
use std::alloc::Allocator;

/// The canonical bytes of a BTF file (btf.rst section 2), in little-endian byte order.
///
/// They are a valid file with the same types in the same order, and canonicalise to themselves.
///
/// # Errors
///
/// `Fault` with the first fault of the file and its offset in bytes from the start of `bytes`.
/// `Memory` if an allocation failed.
pub fn canon_btf<A: Allocator + Copy>(alloc: A, bytes: &[u8]) -> Result<Vec<u8, A>, BtfError>
    ensures found { IfOk result (λ canon. IsCanonicalBtf bytes.now canon.items) }
    ensures all { (v : List TypeRecord) → Denotes bytes.now v
        → MatchResult result (λ canon. canon.items ≡ canonical Little v)
        (λ e. e ≡ BtfError.Memory) }
    ensures fault { IfErr result (Fails bytes.now) }
{
    recode_btf(alloc, Order::Little, bytes)
}

/// The canonical bytes of a BTF file (btf.rst section 2) in the byte order `to`.
///
/// In little-endian order they are the result of [`canon_btf`]. In either order they are what
/// [`write_btf`](crate::write_btf) writes for the records of the file.
///
/// # Errors
///
/// Those of [`canon_btf`].
pub fn recode_btf<A: Allocator + Copy>(
    alloc: A,
    to: Order,
    bytes: &[u8],
) -> Result<Vec<u8, A>, BtfError>
    ensures ok { IfOk result (λ canon. (v : List TypeRecord)
        × (Denotes bytes.now v × (canon.items ≡ canonical to v))) }
    ensures fault { IfErr result (Fails bytes.now) }
{
    let file = CheckedFile::check(alloc, bytes)?;
    Ok(write_sections(alloc, to, &file.sections())?)
}

/// Whether two BTF files (btf.rst section 2) denote the same records, which is the case if and only
/// if their canonical bytes are equal.
///
/// The canonical bytes of both files are computed and compared, so the call needs about the time of
/// [`canon_btf`](crate::canon_btf) for each file, even if names are long and shared. If both files
/// are byte for byte equal, one is validated and no canonical bytes are computed.
///
/// # Errors
///
/// `First` or `Second` with the first fault of that file and its offset in bytes from the start of
/// the file. `Second` is returned only if the first file is valid. `Memory` if an allocation
/// failed.
pub fn same_btf<A: Allocator>(alloc: A, a: &[u8], b: &[u8]) -> Result<bool, SideError<BtfFault>>
    ensures same { IfOk result (ComparesBtf a.now b.now) }
    ensures fault { IfErr result (NamesBtfSide a.now b.now) }
{
    if a == b {
        CheckedFile::check(alloc, a).map_err(|error| on_side(error, SideError::First))?;
        return Ok(true);
    }
    let first = recode_btf(&alloc, Order::Little, a).map_err(|error| on_side(
        error,
        SideError::First,
    ))?;
    let second = recode_btf(&alloc, Order::Little, b).map_err(|error| on_side(
        error,
        SideError::Second,
    ))?;
    Ok(first.as_slice() == second.as_slice())
}

/// The error of a comparison for the error of one of its files. `side` wraps the fault of the file.
fn on_side<S: FnOnce(BtfFault) -> SideError<BtfFault> + Drop>(
    error: BtfError,
    side: S,
) -> SideError<BtfFault>
    requires { S.IsAlwaysCallable side }
    ensures { IsOnSide (S.post side) error result }
{
    match error {
        BtfError::Fault(fault) => side(fault),
        BtfError::Memory => SideError::Memory,
    }
}
