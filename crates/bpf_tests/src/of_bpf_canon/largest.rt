//! Calls with ample memory on the largest files that the limits allow.

use super::btf::{check_file, check_refused};
use super::expect::{equal, holds, is_bytes};
use super::fused_devices::FusedDevices;
use bpf_canon::{
    BTF_LIMIT, INSN_LIMIT, InsnFeed, MemSource, SideError, canon_insns, read_all, same_insns,
    write_insns,
};
use bpf_insn::{InsnError, Order, SlotCause, SlotFault, decode_insns};
use btf_raw::{BtfCause, BtfFault};
use btf_types::{Btf, TypeTable};
use std::alloc::Global;
use std::process::Abort;

/// How many instructions of 8 bytes are within the limit.
const MOVES: usize = 8_388_608;

/// Changes a byte.
fn spoil(bytes: &mut [u8], pos: usize, byte: u8) {
    if let Some(old) = bytes.get_mut(pos) {
        *old = byte;
    }
}

/// As many moves of r2 to r1 as are within the limit, in one order.
fn moves(rt: &impl Abort, alloc: Global, slot: &[u8; 8]) -> Vec<u8> {
    let mut bytes = Vec::with_capacity(alloc, 67_108_864).expect(rt, "ample memory");
    for _ in 0..MOVES {
        bytes.extend_from_slice(slot).expect(rt, "ample memory");
    }
    bytes
}

const BIG_MOVE: &[u8; 8] = b"\xbf\x12\0\0\0\0\0\0";

const LITTLE_MOVE: &[u8; 8] = b"\xbf\x21\0\0\0\0\0\0";

/// A register that is none, in the last instruction.
const LAST_DST: SlotFault = SlotFault {
    pos: 67_108_857,
    cause: SlotCause::Dst,
};

/// Whether the canonical bytes of a file are those of another, which is the same program.
fn is_canonicalised(alloc: Global, big: &[u8], little: &[u8]) -> bool {
    is_bytes(canon_insns(alloc, Order::Big, big), little)
        && same_insns(alloc, Order::Big, big, Order::Little, little) == Ok(true)
}

/// Whether the second file is refused for its last instruction.
fn is_refused(alloc: Global, valid: &[u8], faulty: &[u8]) -> bool {
    let fault = canon_insns(alloc, Order::Little, faulty).err();
    let same = same_insns(alloc, Order::Big, valid, Order::Little, faulty);
    fault == Some(InsnError::Fault(LAST_DST)) && same == Err(SideError::Second(LAST_DST))
}

/// Whether a file that is fed at once gives the other one.
fn is_fed(alloc: Global, big: &[u8], little: &[u8]) -> bool {
    let mut feed = InsnFeed::new(Order::Big, Order::Little);
    let mut out = Vec::new(alloc);
    if big.len() as u64 > INSN_LIMIT || feed.feed(big, &mut out).is_err() {
        return false;
    }
    out.as_slice() == little && feed.finish() == Ok(MOVES as u64)
}

/// Whether the instructions of a file are written as the other one.
fn is_written(alloc: Global, big: &[u8], little: &[u8]) -> bool {
    match decode_insns(alloc, Order::Big, big) {
        Ok(insns) => is_bytes(write_insns(alloc, Order::Little, &insns), little),
        Err(_) => false,
    }
}

/// Whether a file is read to its end.
fn is_read(alloc: Global, bytes: &[u8]) -> bool {
    let mut source = MemSource::new(bytes, 10_000, None);
    is_bytes(read_all(alloc, &mut source, INSN_LIMIT), bytes)
}

/// Each call on the same program in both orders.
fn check_program(rt: &impl Abort, alloc: Global, big: &[u8], little: &[u8]) {
    equal(rt, &(big.len() as u64), &INSN_LIMIT, &"the length");
    holds(rt, is_canonicalised(alloc, big, little), &"canonicalised");
    holds(rt, is_fed(alloc, big, little), &"fed at once");
    holds(rt, is_written(alloc, big, little), &"written");
    holds(rt, is_read(alloc, big), &"read");
    let devices = FusedDevices::sound(big, 10_000);
    let orders = (Order::Big, Order::Little);
    devices.check_insns(rt, alloc, orders, Ok(INSN_LIMIT), little, &"run");
}

#[test]
fn the_largest_program_is_accepted(rt: HostRuntime) {
    let big = moves(&rt, rt.alloc(), BIG_MOVE);
    let mut little = moves(&rt, rt.alloc(), LITTLE_MOVE);
    check_program(&rt, rt.alloc(), &big, &little);
    spoil(&mut little, 67_108_857, 0x2b);
    holds(&rt, is_refused(rt.alloc(), &big, &little), &"refused");
}

/// A TYPEDEF with the longest name there is, an ENUM with a value, and PTRs to the ENUM up to the limit.
fn push_records(rt: &impl Abort, file: &mut Vec<u8>) {
    file.extend_from_slice(b"\x01\0\0\0\0\0\0\x08\0\0\0\0")
        .expect(rt, "ample memory");
    file.extend_from_slice(b"\0\0\0\0\x01\0\0\x06\x04\0\0\0\0\0\0\0\0\0\0\0")
        .expect(rt, "ample memory");
    for _ in 0..2_796_200 {
        file.extend_from_slice(b"\0\0\0\0\0\0\0\x02\x02\0\0\0")
            .expect(rt, "ample memory");
    }
}

/// The header of the longest file with its own length, 4,096.
const LONG_HEADER: &[u8] = b"\x9f\xeb\x01\0\0\x10\0\0\0\0\0\0\0\0\0\x02\0\0\0\x02\0\0\0\x01";

/// The same with 24.
const HEADER: &[u8] = b"\x9f\xeb\x01\0\x18\0\0\0\0\0\0\0\0\0\0\x02\0\0\0\x02\0\0\0\x01";

/// The longest file, with a header of this length: it, these records, and their strings.
fn longest_file(rt: &impl Abort, alloc: Global, header: &[u8], header_len: usize) -> Vec<u8> {
    let mut file = Vec::from_slice(alloc, header).expect(rt, "ample memory");
    file.resize(header_len, 0).expect(rt, "ample memory");
    push_records(rt, &mut file);
    let end = header_len.saturating_add(50_331_647);
    file.push(0).expect(rt, "ample memory");
    file.resize(end, b'a').expect(rt, "ample memory");
    file.push(0).expect(rt, "ample memory");
    file
}

/// How many types a file has.
fn count_of(alloc: Global, file: &[u8]) -> u32 {
    match Btf::parse(alloc, file) {
        Ok(table) => table.count(),
        Err(_) => 0,
    }
}

/// Each call on the longest file.
fn check_types(rt: &impl Abort, alloc: Global, file: &[u8]) {
    let canonical = longest_file(rt, alloc, HEADER, 24);
    let lens = (file.len() as u64, canonical.len());
    equal(rt, &lens, &(BTF_LIMIT, 50_331_672), &"the lengths");
    equal(rt, &count_of(alloc, file), &2_796_202, &"the types");
    check_file(rt, alloc, file, &canonical);
    let devices = FusedDevices {
        bytes: file,
        read_piece: 10_000,
        read_fuse: None,
        write_piece: 1_000_000,
        write_fuse: None,
    };
    let ended = Ok(50_331_672);
    devices.check_btf(rt, alloc, Order::Little, ended, &canonical, &"run");
}

/// A type too far in the last PTR.
const BEYOND: BtfFault = BtfFault {
    pos: 33_558_524,
    cause: BtfCause::Reference,
};

#[test]
fn the_longest_btf_is_accepted(rt: HostRuntime) {
    let mut file = longest_file(&rt, rt.alloc(), LONG_HEADER, 4096);
    check_types(&rt, rt.alloc(), &file);
    spoil(&mut file, 33_558_524, 0xab);
    spoil(&mut file, 33_558_525, 0xaa);
    spoil(&mut file, 33_558_526, 0x2a);
    check_refused(&rt, rt.alloc(), &file, BEYOND);
}
