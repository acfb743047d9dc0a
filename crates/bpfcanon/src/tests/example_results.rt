//! What the example of the libraries returns.

use super::btf_files::point;
use super::expect::holds;
use super::library_example::{
    StreamError, canonical_for_big_endian, canonical_stream, member_names, tidy_listing,
};
use bpf_insn::{InsnError, SlotCause};
use std::test::Fail;

/// A BTF file and the names of its members.
#[derive(Clone, Copy)]
struct Members {
    file: &'static [u8],
    names: &'static [u8],
}

/// The canonical bytes of [`point`]: "int" ends "point", so it needs no string of its own.
const CANONICAL_POINT: &[u8] = b"\xeb\x9f\x01\0\0\0\0\x18\0\0\0\0\0\0\0\x34\0\0\0\x34\0\0\0\x0b\
    \0\0\0\x03\x01\0\0\0\0\0\0\x04\x01\0\0\x20\
    \0\0\0\x01\x04\0\0\x02\0\0\0\x08\
    \0\0\0\x07\0\0\0\x01\0\0\0\0\0\0\0\x09\0\0\0\x01\0\0\0\x20\
    \0point\0x\0y\0";

/// The second file is little-endian and contains union { int a; }, enum e { one = 1 } and typedef int t.
#[rattlefmt::skip]
fn member_rows() -> [Members; 2] {[
    Members { file: point(), names: b"x\ny\n" },
    Members { file: b"\x9f\xeb\x01\0\x18\0\0\0\0\0\0\0\x48\0\0\0\x48\0\0\0\x0f\0\0\0\x01\0\0\0\0\0\0\x01\x04\0\0\0\x20\0\0\x01\0\0\0\0\x01\0\0\x05\x04\0\0\0\x05\0\0\0\x01\0\0\0\0\0\0\0\x07\0\0\0\x01\0\0\x06\x04\0\0\0\x09\0\0\0\x01\0\0\0\x0d\0\0\0\0\0\0\x08\x01\0\0\0\0int\0a\0e\0one\0t\0", names: b"a\n" },
]}

#[test]
fn the_example_reads_types(rt: HostRuntime) -> Result<(), Fail> {
    for members in member_rows() {
        let names = member_names(rt.alloc(), members.file)?;
        holds(
            &rt,
            names.as_bytes() == members.names,
            ("names", members.names.len()),
        );
    }
    Ok(())
}

#[test]
fn the_example_writes_types(rt: HostRuntime) -> Result<(), Fail> {
    let canonical = canonical_for_big_endian(rt.alloc(), point())?;
    holds(
        &rt,
        canonical.as_slice() == CANONICAL_POINT,
        ("canonical bytes", 0),
    );
    Ok(())
}

#[test]
fn the_example_reads_instructions(rt: HostRuntime) -> Result<(), Fail> {
    let listing = tidy_listing(rt.alloc(), b"mov r1, 0x10 ; sixteen\n\n  exit")?;
    holds(
        &rt,
        listing.as_slice() == b"mov r1, 16\nexit\n".as_slice(),
        ("listing", 0),
    );
    Ok(())
}

#[test]
fn the_example_reads_streams(rt: HostRuntime) -> Result<(), Fail> {
    // mov r1, r2 and exit, cut inside an instruction
    let pieces: [&[u8]; 2] = [b"\xbf\x12\0\0\0", b"\0\0\0\x95\0\0\0\0\0\0\0"];
    let canonical = canonical_stream(rt.alloc(), &pieces)?;
    let expected = b"\xbf\x21\0\0\0\0\0\0\x95\0\0\0\0\0\0\0";
    holds(
        &rt,
        canonical.as_slice() == expected.as_slice(),
        ("canonical bytes", 0),
    );
    Ok(())
}

/// Exit, and an unknown opcode in the second piece.
#[test]
fn the_example_reports_faults(rt: HostRuntime) {
    let pieces: [&[u8]; 2] = [b"\x95\0\0\0\0\0\0\0", b"\xff\0\0\0\0\0\0\0"];
    let is_found = match canonical_stream(rt.alloc(), &pieces) {
        Err(StreamError::Insns(InsnError::Fault(fault))) => {
            fault.pos == 8 && fault.cause == SlotCause::Opcode
        }
        _ => false,
    };
    holds(&rt, is_found, ("a fault", 0));
}
