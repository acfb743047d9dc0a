//! Jumps, branches, calls and the exit (RFC 9669 section 4.3).

use super::{Row, Table};
use bpf_insn::Group;

#[rattlefmt::skip]
pub(super) fn jumps() -> Table {[&[
    row!(b"\x05\0\xff\x7f\0\0\0\0" => "Jump { off: 32767 }", Base32),
    row!(b"\x05\0\0\x80\0\0\0\0" => "Jump { off: -32768 }", Base32),
    row!(b"\x05\0\0\0\0\0\0\0" => "Jump { off: 0 }", Base32),
    row!(b"\x05\0\x05\0\0\0\0\0" => "Jump { off: 5 }", Base32),
    row!(b"\x06\0\0\0\xff\xff\xff\x7f" => "JumpLong { imm: 2147483647 }", Base32),
    row!(b"\x06\0\0\0\0\0\0\x80" => "JumpLong { imm: -2147483648 }", Base32),
    row!(b"\x15\x07\xff\x7f\0\0\0\x80" => "Branch { width: W64, op: Eq, dst: Reg { number: 7 }, arg: Imm(-2147483648), off: 32767 }", Base64),
    row!(b"\x1d\x38\0\0\0\0\0\0" => "Branch { width: W64, op: Eq, dst: Reg { number: 8 }, arg: Reg(Reg { number: 3 }), off: 0 }", Base64),
], &[
    row!(b"\x16\x09\0\0\0\0\0\0" => "Branch { width: W32, op: Eq, dst: Reg { number: 9 }, arg: Imm(0), off: 0 }", Base32),
    row!(b"\x1e\x9a\xff\xff\0\0\0\0" => "Branch { width: W32, op: Eq, dst: Reg { number: 10 }, arg: Reg(Reg { number: 9 }), off: -1 }", Base32),
    row!(b"\x25\0\xff\xff\x05\0\0\0" => "Branch { width: W64, op: Gt, dst: Reg { number: 0 }, arg: Imm(5), off: -1 }", Base64),
    row!(b"\x2d\x41\0\x80\0\0\0\0" => "Branch { width: W64, op: Gt, dst: Reg { number: 1 }, arg: Reg(Reg { number: 4 }), off: -32768 }", Base64),
    row!(b"\x26\x02\0\x80\xff\xff\xff\x7f" => "Branch { width: W32, op: Gt, dst: Reg { number: 2 }, arg: Imm(2147483647), off: -32768 }", Base32),
    row!(b"\x2e\xa3\xfe\xff\0\0\0\0" => "Branch { width: W32, op: Gt, dst: Reg { number: 3 }, arg: Reg(Reg { number: 10 }), off: -2 }", Base32),
    row!(b"\x35\x04\x01\0\x03\x02\x01\0" => "Branch { width: W64, op: Ge, dst: Reg { number: 4 }, arg: Imm(66051), off: 1 }", Base64),
    row!(b"\x3d\x55\x01\0\0\0\0\0" => "Branch { width: W64, op: Ge, dst: Reg { number: 5 }, arg: Reg(Reg { number: 5 }), off: 1 }", Base64),
], &[
    row!(b"\x36\x06\xff\x7f\xff\xff\xff\xff" => "Branch { width: W32, op: Ge, dst: Reg { number: 6 }, arg: Imm(-1), off: 32767 }", Base32),
    row!(b"\x3e\x07\xff\x7f\0\0\0\0" => "Branch { width: W32, op: Ge, dst: Reg { number: 7 }, arg: Reg(Reg { number: 0 }), off: 32767 }", Base32),
    row!(b"\x45\x08\0\0\xfe\xff\xff\xff" => "Branch { width: W64, op: Set, dst: Reg { number: 8 }, arg: Imm(-2), off: 0 }", Base64),
    row!(b"\x4d\x69\x02\x01\0\0\0\0" => "Branch { width: W64, op: Set, dst: Reg { number: 9 }, arg: Reg(Reg { number: 6 }), off: 258 }", Base64),
    row!(b"\x46\x0a\xff\xff\0\0\0\x80" => "Branch { width: W32, op: Set, dst: Reg { number: 10 }, arg: Imm(-2147483648), off: -1 }", Base32),
    row!(b"\x4e\x10\0\0\0\0\0\0" => "Branch { width: W32, op: Set, dst: Reg { number: 0 }, arg: Reg(Reg { number: 1 }), off: 0 }", Base32),
    row!(b"\x55\x01\0\x80\0\0\0\0" => "Branch { width: W64, op: Ne, dst: Reg { number: 1 }, arg: Imm(0), off: -32768 }", Base64),
], &[
    row!(b"\x5d\x72\xff\xff\0\0\0\0" => "Branch { width: W64, op: Ne, dst: Reg { number: 2 }, arg: Reg(Reg { number: 7 }), off: -1 }", Base64),
    row!(b"\x56\x03\x01\0\x05\0\0\0" => "Branch { width: W32, op: Ne, dst: Reg { number: 3 }, arg: Imm(5), off: 1 }", Base32),
    row!(b"\x5e\x24\0\x80\0\0\0\0" => "Branch { width: W32, op: Ne, dst: Reg { number: 4 }, arg: Reg(Reg { number: 2 }), off: -32768 }", Base32),
    row!(b"\x65\x05\xff\x7f\xff\xff\xff\x7f" => "Branch { width: W64, op: Sgt, dst: Reg { number: 5 }, arg: Imm(2147483647), off: 32767 }", Base64),
    row!(b"\x6d\x86\xfe\xff\0\0\0\0" => "Branch { width: W64, op: Sgt, dst: Reg { number: 6 }, arg: Reg(Reg { number: 8 }), off: -2 }", Base64),
    row!(b"\x66\x07\0\0\x03\x02\x01\0" => "Branch { width: W32, op: Sgt, dst: Reg { number: 7 }, arg: Imm(66051), off: 0 }", Base32),
    row!(b"\x6e\x38\x01\0\0\0\0\0" => "Branch { width: W32, op: Sgt, dst: Reg { number: 8 }, arg: Reg(Reg { number: 3 }), off: 1 }", Base32),
], &[
    row!(b"\x75\x09\xff\xff\xff\xff\xff\xff" => "Branch { width: W64, op: Sge, dst: Reg { number: 9 }, arg: Imm(-1), off: -1 }", Base64),
    row!(b"\x7d\x9a\xff\x7f\0\0\0\0" => "Branch { width: W64, op: Sge, dst: Reg { number: 10 }, arg: Reg(Reg { number: 9 }), off: 32767 }", Base64),
    row!(b"\x76\0\0\x80\xfe\xff\xff\xff" => "Branch { width: W32, op: Sge, dst: Reg { number: 0 }, arg: Imm(-2), off: -32768 }", Base32),
    row!(b"\x7e\x41\x02\x01\0\0\0\0" => "Branch { width: W32, op: Sge, dst: Reg { number: 1 }, arg: Reg(Reg { number: 4 }), off: 258 }", Base32),
    row!(b"\xa5\x02\x01\0\0\0\0\x80" => "Branch { width: W64, op: Lt, dst: Reg { number: 2 }, arg: Imm(-2147483648), off: 1 }", Base64),
    row!(b"\xad\xa3\0\0\0\0\0\0" => "Branch { width: W64, op: Lt, dst: Reg { number: 3 }, arg: Reg(Reg { number: 10 }), off: 0 }", Base64),
    row!(b"\xa6\x04\xff\x7f\0\0\0\0" => "Branch { width: W32, op: Lt, dst: Reg { number: 4 }, arg: Imm(0), off: 32767 }", Base32),
], &[
    row!(b"\xae\x55\xff\xff\0\0\0\0" => "Branch { width: W32, op: Lt, dst: Reg { number: 5 }, arg: Reg(Reg { number: 5 }), off: -1 }", Base32),
    row!(b"\xb5\x06\0\0\x05\0\0\0" => "Branch { width: W64, op: Le, dst: Reg { number: 6 }, arg: Imm(5), off: 0 }", Base64),
    row!(b"\xbd\x07\0\x80\0\0\0\0" => "Branch { width: W64, op: Le, dst: Reg { number: 7 }, arg: Reg(Reg { number: 0 }), off: -32768 }", Base64),
    row!(b"\xb6\x08\xff\xff\xff\xff\xff\x7f" => "Branch { width: W32, op: Le, dst: Reg { number: 8 }, arg: Imm(2147483647), off: -1 }", Base32),
    row!(b"\xbe\x69\xfe\xff\0\0\0\0" => "Branch { width: W32, op: Le, dst: Reg { number: 9 }, arg: Reg(Reg { number: 6 }), off: -2 }", Base32),
    row!(b"\xc5\x0a\0\x80\x03\x02\x01\0" => "Branch { width: W64, op: Slt, dst: Reg { number: 10 }, arg: Imm(66051), off: -32768 }", Base64),
    row!(b"\xcd\x10\x01\0\0\0\0\0" => "Branch { width: W64, op: Slt, dst: Reg { number: 0 }, arg: Reg(Reg { number: 1 }), off: 1 }", Base64),
], &[
    row!(b"\xc6\x01\x01\0\xff\xff\xff\xff" => "Branch { width: W32, op: Slt, dst: Reg { number: 1 }, arg: Imm(-1), off: 1 }", Base32),
    row!(b"\xce\x72\xff\x7f\0\0\0\0" => "Branch { width: W32, op: Slt, dst: Reg { number: 2 }, arg: Reg(Reg { number: 7 }), off: 32767 }", Base32),
    row!(b"\xd5\x03\xff\x7f\xfe\xff\xff\xff" => "Branch { width: W64, op: Sle, dst: Reg { number: 3 }, arg: Imm(-2), off: 32767 }", Base64),
    row!(b"\xdd\x24\x02\x01\0\0\0\0" => "Branch { width: W64, op: Sle, dst: Reg { number: 4 }, arg: Reg(Reg { number: 2 }), off: 258 }", Base64),
    row!(b"\xd6\x05\0\0\0\0\0\x80" => "Branch { width: W32, op: Sle, dst: Reg { number: 5 }, arg: Imm(-2147483648), off: 0 }", Base32),
    row!(b"\xde\x86\0\0\0\0\0\0" => "Branch { width: W32, op: Sle, dst: Reg { number: 6 }, arg: Reg(Reg { number: 8 }), off: 0 }", Base32),
    row!(b"\x85\0\0\0\x19\0\0\0" => "CallHelper { id: 25 }", Base32),
], &[
    row!(b"\x85\0\0\0\xff\xff\xff\xff" => "CallHelper { id: -1 }", Base32),
    row!(b"\x85\x10\0\0\xfd\xff\xff\xff" => "CallLocal { imm: -3 }", Base32),
    row!(b"\x85\x10\0\0\0\0\0\0" => "CallLocal { imm: 0 }", Base32),
    row!(b"\x85\x20\0\0\x39\x30\0\0" => "CallBtf { id: 12345, off: 0 }", Base32),
    row!(b"\x85\x20\x05\0\x07\0\0\0" => "CallBtf { id: 7, off: 5 }", Base32),
    row!(b"\x85\x20\0\x80\0\0\0\x80" => "CallBtf { id: -2147483648, off: -32768 }", Base32),
    row!(b"\x95\0\0\0\0\0\0\0" => "Exit", Base32),
]]}
