//! The largest listing that a command accepts, read and written with ample memory.

use super::equal;
use bpf_insn::Insn;
use bpf_text::{ListError, listing, push_line, read_listing};
use std::alloc::{AllocError, Global};
use std::test::Fail;

/// A line of 32 bytes. A listing of 67,108,864 bytes has 2,097,152 of it.
const LINE: &[u8; 32] = b"lddw r9, 0x00000000001fffff ;;;\n";

const COUNT: usize = 2 << 20;

/// The largest listing.
fn largest(alloc: Global) -> Result<Vec<u8>, AllocError> {
    let mut text = Vec::with_capacity(alloc, 64 << 20)?;
    for _ in 0..COUNT {
        text.extend_from_slice(LINE)?;
    }
    Ok(text)
}

/// How many instructions a listing has, the length of theirs with another one, and whether it ends as it has to.
fn listed(alloc: Global, text: &[u8]) -> Result<(usize, usize, bool), ListError> {
    let insns = read_listing(alloc, text)?;
    let mut listed = listing(alloc, &insns)?;
    push_line(&mut listed, Insn::Exit)?;
    let ends = listed.ends_with(b"\nlddw r9, 2097151\nexit\n");
    Ok((insns.len(), listed.len(), ends))
}

#[test]
fn the_largest_listing_is_read_and_written(rt: HostRuntime) -> Result<(), Fail> {
    let text = largest(rt.alloc())?;
    equal(&rt, &text.len(), &67_108_864, &"the length");
    let found = listed(rt.alloc(), &text)?;
    equal(&rt, &found, &(2_097_152, 35_651_589, true), &"its lines");
    Ok(())
}
