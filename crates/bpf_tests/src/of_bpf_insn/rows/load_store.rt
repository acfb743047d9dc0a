//! Loads, stores and atomic operations (RFC 9669 section 5).

use super::{Row, Table};
use bpf_insn::Group;

#[rattlefmt::skip]
pub(super) fn load_store() -> Table {[&[
    row!(b"\x71\x07\x02\x01\0\0\0\0" => "Load { size: B, dst: Reg { number: 7 }, src: Reg { number: 0 }, off: 258 }", Base32),
    row!(b"\x69\x38\xfe\xff\0\0\0\0" => "Load { size: H, dst: Reg { number: 8 }, src: Reg { number: 3 }, off: -2 }", Base32),
    row!(b"\x61\x69\0\0\0\0\0\0" => "Load { size: W, dst: Reg { number: 9 }, src: Reg { number: 6 }, off: 0 }", Base32),
    row!(b"\x61\x21\0\0\0\0\0\0" => "Load { size: W, dst: Reg { number: 1 }, src: Reg { number: 2 }, off: 0 }", Base32),
    row!(b"\x79\x9a\x01\0\0\0\0\0" => "Load { size: D, dst: Reg { number: 10 }, src: Reg { number: 9 }, off: 1 }", Base64),
    row!(b"\x91\x10\xff\xff\0\0\0\0" => "LoadSigned { size: B, dst: Reg { number: 0 }, src: Reg { number: 1 }, off: -1 }", Base64),
    row!(b"\x91\x12\x04\0\0\0\0\0" => "LoadSigned { size: B, dst: Reg { number: 2 }, src: Reg { number: 1 }, off: 4 }", Base64),
], &[
    row!(b"\x89\x41\xff\x7f\0\0\0\0" => "LoadSigned { size: H, dst: Reg { number: 1 }, src: Reg { number: 4 }, off: 32767 }", Base64),
    row!(b"\x81\x72\0\x80\0\0\0\0" => "LoadSigned { size: W, dst: Reg { number: 2 }, src: Reg { number: 7 }, off: -32768 }", Base64),
    row!(b"\x72\x03\x02\x01\x05\0\0\0" => "StoreImm { size: B, dst: Reg { number: 3 }, off: 258, imm: 5 }", Base32),
    row!(b"\x6a\x04\xfe\xff\xfe\xff\xff\xff" => "StoreImm { size: H, dst: Reg { number: 4 }, off: -2, imm: -2 }", Base32),
    row!(b"\x62\x05\0\0\xff\xff\xff\x7f" => "StoreImm { size: W, dst: Reg { number: 5 }, off: 0, imm: 2147483647 }", Base32),
    row!(b"\x7a\x06\x01\0\0\0\0\x80" => "StoreImm { size: D, dst: Reg { number: 6 }, off: 1, imm: -2147483648 }", Base64),
    row!(b"\x73\x07\xff\xff\0\0\0\0" => "StoreReg { size: B, dst: Reg { number: 7 }, src: Reg { number: 0 }, off: -1 }", Base32),
], &[
    row!(b"\x6b\x38\xff\x7f\0\0\0\0" => "StoreReg { size: H, dst: Reg { number: 8 }, src: Reg { number: 3 }, off: 32767 }", Base32),
    row!(b"\x63\x69\0\x80\0\0\0\0" => "StoreReg { size: W, dst: Reg { number: 9 }, src: Reg { number: 6 }, off: -32768 }", Base32),
    row!(b"\x7b\x9a\x02\x01\0\0\0\0" => "StoreReg { size: D, dst: Reg { number: 10 }, src: Reg { number: 9 }, off: 258 }", Base64),
    row!(b"\xdb\x10\xfe\xff\0\0\0\0" => "Atomic { width: W64, op: Add, dst: Reg { number: 0 }, src: Reg { number: 1 }, off: -2 }", Atomic64),
    row!(b"\xc3\x41\0\0\0\0\0\0" => "Atomic { width: W32, op: Add, dst: Reg { number: 1 }, src: Reg { number: 4 }, off: 0 }", Atomic32),
    row!(b"\xdb\x72\x01\0\x40\0\0\0" => "Atomic { width: W64, op: Or, dst: Reg { number: 2 }, src: Reg { number: 7 }, off: 1 }", Atomic64),
    row!(b"\xc3\xa3\xff\xff\x40\0\0\0" => "Atomic { width: W32, op: Or, dst: Reg { number: 3 }, src: Reg { number: 10 }, off: -1 }", Atomic32),
], &[
    row!(b"\xdb\x24\xff\x7f\x50\0\0\0" => "Atomic { width: W64, op: And, dst: Reg { number: 4 }, src: Reg { number: 2 }, off: 32767 }", Atomic64),
    row!(b"\xc3\x55\0\x80\x50\0\0\0" => "Atomic { width: W32, op: And, dst: Reg { number: 5 }, src: Reg { number: 5 }, off: -32768 }", Atomic32),
    row!(b"\xdb\x86\x02\x01\xa0\0\0\0" => "Atomic { width: W64, op: Xor, dst: Reg { number: 6 }, src: Reg { number: 8 }, off: 258 }", Atomic64),
    row!(b"\xc3\x07\xfe\xff\xa0\0\0\0" => "Atomic { width: W32, op: Xor, dst: Reg { number: 7 }, src: Reg { number: 0 }, off: -2 }", Atomic32),
    row!(b"\xdb\x38\0\0\x01\0\0\0" => "Atomic { width: W64, op: FetchAdd, dst: Reg { number: 8 }, src: Reg { number: 3 }, off: 0 }", Atomic64),
    row!(b"\xc3\x69\x01\0\x01\0\0\0" => "Atomic { width: W32, op: FetchAdd, dst: Reg { number: 9 }, src: Reg { number: 6 }, off: 1 }", Atomic32),
    row!(b"\xdb\x9a\xff\xff\x41\0\0\0" => "Atomic { width: W64, op: FetchOr, dst: Reg { number: 10 }, src: Reg { number: 9 }, off: -1 }", Atomic64),
], &[
    row!(b"\xc3\x10\xff\x7f\x41\0\0\0" => "Atomic { width: W32, op: FetchOr, dst: Reg { number: 0 }, src: Reg { number: 1 }, off: 32767 }", Atomic32),
    row!(b"\xdb\x41\0\x80\x51\0\0\0" => "Atomic { width: W64, op: FetchAnd, dst: Reg { number: 1 }, src: Reg { number: 4 }, off: -32768 }", Atomic64),
    row!(b"\xc3\x72\x02\x01\x51\0\0\0" => "Atomic { width: W32, op: FetchAnd, dst: Reg { number: 2 }, src: Reg { number: 7 }, off: 258 }", Atomic32),
    row!(b"\xdb\xa3\xfe\xff\xa1\0\0\0" => "Atomic { width: W64, op: FetchXor, dst: Reg { number: 3 }, src: Reg { number: 10 }, off: -2 }", Atomic64),
    row!(b"\xc3\x24\0\0\xa1\0\0\0" => "Atomic { width: W32, op: FetchXor, dst: Reg { number: 4 }, src: Reg { number: 2 }, off: 0 }", Atomic32),
    row!(b"\xdb\x55\x01\0\xe1\0\0\0" => "Atomic { width: W64, op: Xchg, dst: Reg { number: 5 }, src: Reg { number: 5 }, off: 1 }", Atomic64),
    row!(b"\xc3\x86\xff\xff\xe1\0\0\0" => "Atomic { width: W32, op: Xchg, dst: Reg { number: 6 }, src: Reg { number: 8 }, off: -1 }", Atomic32),
], &[
    row!(b"\xdb\x07\xff\x7f\xf1\0\0\0" => "Atomic { width: W64, op: Cmpxchg, dst: Reg { number: 7 }, src: Reg { number: 0 }, off: 32767 }", Atomic64),
    row!(b"\xc3\x38\0\x80\xf1\0\0\0" => "Atomic { width: W32, op: Cmpxchg, dst: Reg { number: 8 }, src: Reg { number: 3 }, off: -32768 }", Atomic32),
    row!(b"\x18\0\0\0\0\0\0\0\0\0\0\0\0\0\0\0" => "Wide { dst: Reg { number: 0 }, what: Number(0) }", Base64),
    row!(b"\x18\x0a\0\0\xff\xff\xff\xff\0\0\0\0\xff\xff\xff\xff" => "Wide { dst: Reg { number: 10 }, what: Number(18446744073709551615) }", Base64),
    row!(b"\x18\x01\0\0\xff\xff\xff\xff\0\0\0\0\xff\xff\xff\xff" => "Wide { dst: Reg { number: 1 }, what: Number(18446744073709551615) }", Base64),
    row!(b"\x18\x03\0\0\0\0\0\0\0\0\0\0\x01\0\0\0" => "Wide { dst: Reg { number: 3 }, what: Number(4294967296) }", Base64),
    row!(b"\x18\x04\0\0\0\0\0\x80\0\0\0\0\0\0\0\0" => "Wide { dst: Reg { number: 4 }, what: Number(2147483648) }", Base64),
], &[
    row!(b"\x18\x01\0\0\x88\x77\x66\x55\0\0\0\0\x44\x33\x22\x11" => "Wide { dst: Reg { number: 1 }, what: Number(1234605616436508552) }", Base64),
    row!(b"\x18\x11\0\0\x07\0\0\0\0\0\0\0\0\0\0\0" => "Wide { dst: Reg { number: 1 }, what: MapFd(7) }", Base64),
    row!(b"\x18\x22\0\0\x08\0\0\0\0\0\0\0\xf7\xff\xff\xff" => "Wide { dst: Reg { number: 2 }, what: MapValueFd(8, -9) }", Base64),
    row!(b"\x18\x33\0\0\xff\xff\xff\xff\0\0\0\0\xff\xff\xff\x7f" => "Wide { dst: Reg { number: 3 }, what: VarAddr(-1, 2147483647) }", Base64),
    row!(b"\x18\x44\0\0\0\0\0\x80\0\0\0\0\0\0\0\0" => "Wide { dst: Reg { number: 4 }, what: CodeAddr(-2147483648) }", Base64),
    row!(b"\x18\x55\0\0\0\0\0\0\0\0\0\0\0\0\0\0" => "Wide { dst: Reg { number: 5 }, what: MapIdx(0) }", Base64),
    row!(b"\x18\x66\0\0\x01\0\0\0\0\0\0\0\0\0\0\x80" => "Wide { dst: Reg { number: 6 }, what: MapValueIdx(1, -2147483648) }", Base64),
], &[
    row!(b"\x30\0\0\0\0\0\0\0" => "PacketAbs { size: B, imm: 0 }", Packet),
    row!(b"\x28\0\0\0\xff\xff\xff\xff" => "PacketAbs { size: H, imm: -1 }", Packet),
    row!(b"\x20\0\0\0\x05\0\0\0" => "PacketAbs { size: W, imm: 5 }", Packet),
    row!(b"\x50\x10\0\0\xff\xff\xff\x7f" => "PacketInd { size: B, src: Reg { number: 1 }, imm: 2147483647 }", Packet),
    row!(b"\x48\x20\0\0\0\0\0\x80" => "PacketInd { size: H, src: Reg { number: 2 }, imm: -2147483648 }", Packet),
    row!(b"\x48\x30\0\0\x04\0\0\0" => "PacketInd { size: H, src: Reg { number: 3 }, imm: 4 }", Packet),
    row!(b"\x40\x30\0\0\x03\x02\x01\0" => "PacketInd { size: W, src: Reg { number: 3 }, imm: 66051 }", Packet),
]]}
