//! Frames of records, and those with a fault.

use crate::of_btf_raw::{equal, fault};
use bpf_words::Order;
use btf_raw::{BtfCause as Cause, RawHead, next_head};

/// A type section, an offset inside it, and the frame at it.
struct Accepted(Order, &'static [u8], usize, RawHead);

#[rattlefmt::skip]
const ACCEPTED: &[Accepted] = &[
    Accepted(Order::Big, b"\0\0\0\x01\x01\0\0\0\0\0\0\x04\x01\0\0\x20", 0, RawHead { kind: 1, flag: false, vlen: 0, name_off: 1, third: 4, tail: 12, next: 16 }),
    Accepted(Order::Little, b"\0\0\0\0\x01\0\0\x84\x04\0\0\0\0\0\0\0\0\0\0\0\0\0\0\x01", 0, RawHead { kind: 4, flag: true, vlen: 1, name_off: 0, third: 4, tail: 12, next: 24 }),
    // after a PTR, a FUNC whose vlen is its linkage
    Accepted(Order::Little, b"\0\0\0\0\0\0\0\x02\0\0\0\0\x05\0\0\0\x03\0\0\x0c\x07\0\0\0", 12, RawHead { kind: 12, flag: false, vlen: 3, name_off: 5, third: 7, tail: 24, next: 24 }),
    // an ENUM64 with two values
    Accepted(Order::Big, b"\0\0\0\x01\x93\0\0\x02\0\0\0\x08\0\0\0\x03\xff\xff\xff\xfe\xff\xff\xff\xff\0\0\0\x03\0\0\0\0\0\0\0\0", 0, RawHead { kind: 19, flag: true, vlen: 2, name_off: 1, third: 8, tail: 12, next: 36 }),
];

/// A little-endian type section, an offset inside it, and the offset and cause of the first fault of the frame at it.
struct Refused(&'static str, &'static [u8], usize, u64, Cause);

#[rattlefmt::skip]
const REFUSED: &[Refused] = &[
    Refused("11 bytes", b"\0\0\0\0\0\0\0\x02\0\0\0", 0, 0, Cause::RecordCut),
    Refused("a byte after a PTR", b"\0\0\0\0\0\0\0\x02\0\0\0\0\0", 12, 12, Cause::RecordCut),
    Refused("bit 29 of info", b"\0\0\0\0\0\0\0\x34\0\0\0\0", 0, 4, Cause::InfoBits),
    Refused("bit 16 of info", b"\0\0\0\0\0\0\x01\x02\0\0\0\0", 0, 4, Cause::InfoBits),
    Refused("kind 0", b"\0\0\0\0\0\0\0\0\0\0\0\0", 0, 4, Cause::KindNumber),
    Refused("kind 20", b"\0\0\0\0\0\0\0\x14\0\0\0\0", 0, 4, Cause::KindNumber),
    Refused("kind_flag of a PTR", b"\0\0\0\0\0\0\0\x82\0\0\0\0", 0, 4, Cause::FlagSet),
    Refused("vlen of a PTR", b"\0\0\0\0\x01\0\0\x02\0\0\0\0", 0, 4, Cause::Vlen),
    Refused("one of two members", b"\0\0\0\0\x02\0\0\x04\x04\0\0\0\0\0\0\0\0\0\0\0\0\0\0\0", 0, 12, Cause::TailCut),
    Refused("an INT without its word", b"\0\0\0\0\0\0\0\x01\x04\0\0\0", 0, 12, Cause::TailCut),
    Refused("bits before kinds", b"\0\0\0\0\0\0\x01\x14\0\0\0\0", 0, 4, Cause::InfoBits),
];

#[test]
fn frames_are_read_or_refused(rt: HostRuntime) {
    for Accepted(order, types, pos, head) in ACCEPTED {
        assert!(rt; *pos < types.len());
        equal(&rt, &next_head(*order, types, *pos), &Ok(*head), types);
    }
    for Refused(name, types, pos, at, cause) in REFUSED {
        assert!(rt; *pos < types.len());
        let found = next_head(Order::Little, types, *pos);
        equal(&rt, &found, &Err(fault(*at, *cause)), name);
    }
}
