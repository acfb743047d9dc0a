//! One fault in each field of each form. The bytes are little-endian.

use super::{Row, Table};
use bpf_insn::{SlotCause, SlotFault};

macro_rules! row {
    ($what:literal: $little:literal => $pos:literal, $cause:ident) => {
        Row { what: $what, little: $little, answer: Err(SlotFault { pos: $pos, cause: SlotCause::$cause }) }
    };
}

/// Cut bytes, opcodes and destinations.
#[rattlefmt::skip]
pub(super) fn first_fields() -> Table {[&[
    row!("no bytes": b"" => 0, Truncated),
    row!("one byte": b"\x95" => 0, Truncated),
    row!("seven bytes that no instruction begins with": b"\xff\xff\xff\xff\xff\xff\xff" => 0, Truncated),
    row!("a wide load's second slot is missing": b"\x18\x01\0\0\0\0\0\0" => 8, Truncated),
    row!("a wide load's second slot has seven bytes": b"\x18\x01\0\0\0\0\0\0\0\0\0\0\0\0\0" => 8, Truncated),
    row!("a cut second slot isn't checked": b"\x18\x01\0\0\0\0\0\0\x01\0\0\0\x01" => 8, Truncated),
    row!("immediate mode with another size": b"\0\0\0\0\0\0\0\0" => 0, Opcode),
], &[
    row!("a packet load of 8 bytes": b"\x38\0\0\0\0\0\0\0" => 0, Opcode),
    row!("an indirect packet load of 8 bytes": b"\x58\0\0\0\0\0\0\0" => 0, Opcode),
    row!("LD in plain memory mode": b"\x60\0\0\0\0\0\0\0" => 0, Opcode),
    row!("a signed load of 8 bytes": b"\x99\x21\0\0\0\0\0\0" => 0, Opcode),
    row!("a signed store": b"\x93\x21\0\0\0\0\0\0" => 0, Opcode),
    row!("an atomic operation of 1 byte": b"\xd3\x21\0\0\0\0\0\0" => 0, Opcode),
    row!("an atomic operation of 2 bytes": b"\xcb\x21\0\0\0\0\0\0" => 0, Opcode),
], &[
    row!("an atomic immediate": b"\xda\x01\0\0\0\0\0\0" => 0, Opcode),
    row!("arithmetic code e": b"\xe7\x01\0\0\0\0\0\0" => 0, Opcode),
    row!("arithmetic code f on 32 bits": b"\xf4\x01\0\0\0\0\0\0" => 0, Opcode),
    row!("a negation by a register": b"\x8f\x21\0\0\0\0\0\0" => 0, Opcode),
    row!("a swap by a register on 64 bits": b"\xdf\x01\0\0\x10\0\0\0" => 0, Opcode),
    row!("a jump by a register": b"\x0d\x01\0\0\0\0\0\0" => 0, Opcode),
], &[
    row!("a long jump by a register": b"\x0e\x01\0\0\0\0\0\0" => 0, Opcode),
    row!("a call by a register": b"\x8d\x01\0\0\0\0\0\0" => 0, Opcode),
    row!("a call on 32 bits": b"\x86\0\0\0\x01\0\0\0" => 0, Opcode),
    row!("an exit on 32 bits": b"\x96\0\0\0\0\0\0\0" => 0, Opcode),
    row!("an exit with a register": b"\x9d\0\0\0\0\0\0\0" => 0, Opcode),
    row!("may_goto": b"\xe5\0\x01\0\0\0\0\0" => 0, Opcode),
], &[
    row!("arithmetic on register 11": b"\x07\x0b\0\0\0\0\0\0" => 1, Dst),
    row!("arithmetic on register 15": b"\xbf\x1f\0\0\0\0\0\0" => 1, Dst),
    row!("both registers are 11": b"\xbf\xbb\0\0\0\0\0\0" => 1, Dst),
    row!("a swap of register 12": b"\xd4\x0c\0\0\x10\0\0\0" => 1, Dst),
    row!("a branch on register 11": b"\x15\x0b\0\0\0\0\0\0" => 1, Dst),
    row!("a load into register 11": b"\x61\x1b\0\0\0\0\0\0" => 1, Dst),
], &[
    row!("a store to register 13": b"\x7a\x0d\0\0\0\0\0\0" => 1, Dst),
    row!("an atomic operation at register 11": b"\xdb\x1b\0\0\0\0\0\0" => 1, Dst),
    row!("a wide load into register 11, cut": b"\x18\x0b\0\0\0\0\0\0" => 1, Dst),
    row!("a jump with a destination": b"\x05\x01\0\0\0\0\0\0" => 1, Dst),
    row!("a long jump with a destination": b"\x06\x01\0\0\0\0\0\0" => 1, Dst),
    row!("a call with a destination": b"\x85\x01\0\0\0\0\0\0" => 1, Dst),
], &[
    row!("an exit with a destination": b"\x95\x01\0\0\0\0\0\0" => 1, Dst),
    row!("a packet load with a destination": b"\x30\x01\0\0\0\0\0\0" => 1, Dst),
    row!("an indirect packet load with a destination": b"\x50\x21\0\0\0\0\0\0" => 1, Dst),
    row!("an exit with both registers": b"\x95\x11\0\0\0\0\0\0" => 1, Dst),
    row!("three bytes of an exit": b"\x95\0\0" => 0, Truncated),
    row!("the first slot of a wide load alone": b"\x18\x01\0\0\x88\x77\x66\x55" => 8, Truncated),
], &[
    row!("a move to register 11": b"\xbf\x2b\0\0\0\0\0\0" => 1, Dst),
    row!("opcode df": b"\xdf\0\0\0\0\0\0\0" => 0, Opcode),
    row!("opcode 8d": b"\x8d\0\0\0\0\0\0\0" => 0, Opcode),
    row!("opcode e5": b"\xe5\0\0\0\0\0\0\0" => 0, Opcode),
    row!("opcode d3": b"\xd3\0\0\0\0\0\0\0" => 0, Opcode),
    row!("opcode 99": b"\x99\0\0\0\0\0\0\0" => 0, Opcode),
]]}

/// Sources and offsets.
#[rattlefmt::skip]
pub(super) fn middle_fields() -> Table {[&[
    row!("arithmetic by register 11": b"\x0f\xb1\0\0\0\0\0\0" => 1, Src),
    row!("arithmetic by an immediate with a source": b"\xb7\x11\0\0\0\0\0\0" => 1, Src),
    row!("a negation with a source": b"\x87\x11\0\0\0\0\0\0" => 1, Src),
    row!("a swap with a source": b"\xdc\x11\0\0\x20\0\0\0" => 1, Src),
    row!("a branch by an immediate with a source": b"\x16\x11\0\0\0\0\0\0" => 1, Src),
    row!("a branch by register 11": b"\x1d\xb1\0\0\0\0\0\0" => 1, Src),
], &[
    row!("a load at register 14": b"\x79\xe1\0\0\0\0\0\0" => 1, Src),
    row!("a signed load at register 11": b"\x81\xb1\0\0\0\0\0\0" => 1, Src),
    row!("a store of an immediate with a source": b"\x62\x11\0\0\0\0\0\0" => 1, Src),
    row!("a store of register 11": b"\x63\xb1\0\0\0\0\0\0" => 1, Src),
    row!("an atomic operation by register 11": b"\xc3\xb1\0\0\0\0\0\0" => 1, Src),
], &[
    row!("a jump with a source": b"\x05\x10\0\0\0\0\0\0" => 1, Src),
    row!("a call of the fourth sort": b"\x85\x30\0\0\x01\0\0\0" => 1, Src),
    row!("a call of the fourth sort with an offset": b"\x85\x30\x05\0\x07\0\0\0" => 1, Src),
    row!("an exit with a source": b"\x95\x10\0\0\0\0\0\0" => 1, Src),
    row!("a packet load with a source": b"\x20\x10\0\0\0\0\0\0" => 1, Src),
], &[
    row!("an indirect packet load at register 11": b"\x40\xb0\0\0\0\0\0\0" => 1, Src),
    row!("a wide load of sort 7": b"\x18\x71\0\0\0\0\0\0\0\0\0\0\0\0\0\0" => 1, Src),
    row!("a wide load of sort 7, cut": b"\x18\x71\0\0\0\0\0\0" => 1, Src),
    row!("a source before another slot": b"\x04\x10\0\0\x05\0\0\0\0\0\0\0\0\0\0\0" => 1, Src),
    row!("an addition with an offset": b"\x07\x01\x01\0\0\0\0\0" => 2, Offset),
], &[
    row!("a division with offset 2": b"\x3f\x21\x02\0\0\0\0\0" => 2, Offset),
    row!("a remainder with offset -1": b"\x97\x01\xff\xff\0\0\0\0" => 2, Offset),
    row!("a move of 32 bits to 32": b"\xbc\x21\x20\0\0\0\0\0" => 2, Offset),
    row!("a move of an immediate with an extension": b"\xb7\x01\x08\0\0\0\0\0" => 2, Offset),
    row!("an address space cast": b"\xbf\x21\x01\0\0\0\0\0" => 2, Offset),
], &[
    row!("a move of 64 bits that is extended": b"\xbf\x21\x40\0\0\0\0\0" => 2, Offset),
    row!("the offset's high byte": b"\xbf\x21\0\x08\0\0\0\0" => 2, Offset),
    row!("a negation with an offset": b"\x84\x01\x01\0\0\0\0\0" => 2, Offset),
    row!("a swap with an offset": b"\xd7\x01\x01\0\x10\0\0\0" => 2, Offset),
    row!("a long jump with an offset": b"\x06\0\x01\0\0\0\0\0" => 2, Offset),
], &[
    row!("a helper's call with an offset": b"\x85\0\x01\0\x01\0\0\0" => 2, Offset),
    row!("a local call with an offset": b"\x85\x10\x01\0\x01\0\0\0" => 2, Offset),
    row!("an exit with an offset": b"\x95\0\x01\0\0\0\0\0" => 2, Offset),
    row!("a packet load with an offset": b"\x28\0\x01\0\0\0\0\0" => 2, Offset),
    row!("an indirect packet load with an offset": b"\x48\x20\x01\0\0\0\0\0" => 2, Offset),
], &[
    row!("a wide load with an offset, cut": b"\x18\x01\x01\0\0\0\0\0" => 2, Offset),
    row!("an addition of an immediate with a source": b"\x04\x10\0\0\x05\0\0\0" => 1, Src),
    row!("a signed division with offset 2": b"\x37\x01\x02\0\x03\0\0\0" => 2, Offset),
    row!("an extension of 32 bits to 32": b"\xbc\x12\x20\0\0\0\0\0" => 2, Offset),
    row!("a local call with offset 5": b"\x85\x10\x05\0\x07\0\0\0" => 2, Offset),
]]}

/// Immediates, and the second slot of a wide load.
#[rattlefmt::skip]
pub(super) fn last_fields() -> Table {[&[
    row!("arithmetic by a register with an immediate": b"\x0f\x21\0\0\x01\0\0\0" => 4, Imm),
    row!("an extension with an immediate": b"\xbf\x21\x08\0\x01\0\0\0" => 4, Imm),
    row!("a negation with an immediate": b"\x87\x01\0\0\xff\xff\xff\xff" => 4, Imm),
    row!("a swap of 8 bits": b"\xd4\x01\0\0\x08\0\0\0" => 4, Imm),
], &[
    row!("a swap of 128 bits": b"\xd7\x01\0\0\x80\0\0\0" => 4, Imm),
    row!("a jump with an immediate": b"\x05\0\0\0\x01\0\0\0" => 4, Imm),
    row!("a branch by a register with an immediate": b"\x2e\x21\0\0\0\0\0\x01" => 4, Imm),
    row!("an exit with an immediate": b"\x95\0\0\0\0\x01\0\0" => 4, Imm),
], &[
    row!("a load with an immediate": b"\x71\x21\0\0\x01\0\0\0" => 4, Imm),
    row!("a signed load with an immediate": b"\x91\x21\0\0\x01\0\0\0" => 4, Imm),
    row!("a store of a register with an immediate": b"\x73\x21\0\0\x01\0\0\0" => 4, Imm),
], &[
    row!("an exchange that doesn't fetch": b"\xdb\x21\0\0\xe0\0\0\0" => 4, Imm),
    row!("an atomic subtraction": b"\xc3\x21\0\0\x10\0\0\0" => 4, Imm),
    row!("an atomic operation with a higher bit": b"\xdb\x21\0\0\x01\x01\0\0" => 4, Imm),
], &[
    row!("a load-acquire": b"\xdb\x21\0\0\0\x01\0\0" => 4, Imm),
    row!("a store-release": b"\xdb\x21\0\0\x10\x01\0\0" => 4, Imm),
    row!("a reserved opcode": b"\x18\x01\0\0\0\0\0\0\x18\0\0\0\0\0\0\0" => 8, Reserved),
], &[
    row!("the last reserved byte": b"\x18\x01\0\0\0\0\0\0\0\0\0\x01\0\0\0\0" => 8, Reserved),
    row!("both reserved and next_imm": b"\x18\x11\0\0\0\0\0\0\x01\0\0\0\x01\0\0\0" => 8, Reserved),
    row!("a map with a second immediate": b"\x18\x11\0\0\0\0\0\0\0\0\0\0\0\0\0\x80" => 12, NextImm),
], &[
    row!("code with a second immediate": b"\x18\x41\0\0\0\0\0\0\0\0\0\0\x01\0\0\0" => 12, NextImm),
    row!("a map's index with a second immediate": b"\x18\x51\0\0\0\0\0\0\0\0\0\0\x01\0\0\0" => 12, NextImm),
    row!("an exchange with another low half": b"\xdb\x21\xf8\xff\xf0\0\0\0" => 4, Imm),
], &[
    row!("a swap of 8 bits always": b"\xd7\x01\0\0\x08\0\0\0" => 4, Imm),
    row!("a map with a second number": b"\x18\x11\0\0\x03\0\0\0\0\0\0\0\x01\0\0\0" => 12, NextImm),
    row!("a map with a reserved word": b"\x18\x11\0\0\x03\0\0\0\x01\0\0\0\x01\0\0\0" => 8, Reserved),
]]}
