//! Words and slots in both orders, and growths that are refused.

use bpf_words::{
    Order, ParseOrderError, Slot, get16, get32, push_words, push16, push32, slot_bytes, slot_of,
    swap_slots, swapped,
};
use bumpalo::Bump;
use std::alloc::{AllocError, Allocator, Global};
use std::test::Fail;

/// A 16- or 32-bit value, or two of the latter.
#[derive(Clone, Copy, Debug, PartialEq, Eq)]
enum Word {
    Half(u16),
    Whole(u32),
    Pair([u32; 2]),
}

/// A value, and its bytes in one of the byte orders.
#[derive(Clone, Copy, Debug)]
struct WordRow {
    order: Order,
    word: Word,
    bytes: &'static [u8],
}

#[rattlefmt::skip]
const WORDS: [WordRow; 14] = [
    WordRow { order: Order::Big, word: Word::Half(0x0203), bytes: b"\x02\x03" },
    WordRow { order: Order::Little, word: Word::Half(0x0203), bytes: b"\x03\x02" },
    WordRow { order: Order::Big, word: Word::Half(0xeb9f), bytes: b"\xeb\x9f" },
    WordRow { order: Order::Little, word: Word::Half(0xeb9f), bytes: b"\x9f\xeb" },
    WordRow { order: Order::Little, word: Word::Half(0), bytes: b"\0\0" },
    WordRow { order: Order::Big, word: Word::Half(0xffff), bytes: b"\xff\xff" },
    WordRow { order: Order::Little, word: Word::Whole(0x0405_0607), bytes: b"\x07\x06\x05\x04" },
    WordRow { order: Order::Big, word: Word::Whole(0x0405_0607), bytes: b"\x04\x05\x06\x07" },
    WordRow { order: Order::Little, word: Word::Whole(0x8000_0001), bytes: b"\x01\0\0\x80" },
    WordRow { order: Order::Big, word: Word::Whole(0x8000_0001), bytes: b"\x80\0\0\x01" },
    WordRow { order: Order::Little, word: Word::Whole(0), bytes: b"\0\0\0\0" },
    WordRow { order: Order::Big, word: Word::Whole(0xffff_ffff), bytes: b"\xff\xff\xff\xff" },
    WordRow { order: Order::Little, word: Word::Pair([0x0405_0607, 24]), bytes: b"\x07\x06\x05\x04\x18\0\0\0" },
    WordRow { order: Order::Big, word: Word::Pair([0x0405_0607, 24]), bytes: b"\x04\x05\x06\x07\0\0\0\x18" },
];

/// Where values are appended, and where they are read.
const HELD: &[u8] = b"\x11\x12\x13\x14\x15\x16\x17\x18";

fn push<A: Allocator>(out: &mut Vec<u8, A>, order: Order, word: Word) -> Result<(), AllocError> {
    match word {
        Word::Half(value) => push16(out, order, value),
        Word::Whole(value) => push32(out, order, value),
        Word::Pair(values) => push_words(out, order, &values),
    }
}

/// Reads a value of the same size at a position, if it is inside the bytes.
fn read(order: Order, bytes: &[u8], pos: usize, like: Word) -> Option<Word> {
    let left = bytes.len().saturating_sub(pos);
    match like {
        Word::Half(_) if left >= 2 => Some(Word::Half(get16(order, bytes, pos))),
        Word::Whole(_) if left >= 4 => Some(Word::Whole(get32(order, bytes, pos))),
        Word::Pair(_) if left >= 8 => {
            let second = get32(order, bytes, pos + 4);
            Some(Word::Pair([get32(order, bytes, pos), second]))
        }
        _ => None,
    }
}

/// Appends the value to the first `held` bytes of [`HELD`], and reads it there.
fn is_written_and_read(alloc: Global, held: usize, row: &WordRow) -> Result<bool, AllocError> {
    let before = HELD.get(..held).unwrap_or_default();
    let mut out = before.to_vec(alloc)?;
    push(&mut out, row.order, row.word)?;
    let found = read(row.order, &out, held, row.word);
    Ok(out.strip_prefix(before) == Some(row.bytes) && found == Some(row.word))
}

#[test]
fn words_are_read_and_written_in_both_orders(rt: HostRuntime) -> Result<(), Fail> {
    for row in &WORDS {
        for held in 0..=HELD.len() {
            let is_right = is_written_and_read(rt.alloc(), held, row)?;
            assert!(rt; is_right, "{row:?} after {held} bytes");
        }
    }
    Ok(())
}

/// A slot, and its bytes in both orders.
#[derive(Clone, Copy, Debug)]
struct SlotRow {
    slot: Slot,
    little: [u8; 8],
    big: [u8; 8],
}

#[rattlefmt::skip]
const SLOTS: [SlotRow; 6] = [
    // exit
    SlotRow { slot: Slot { opcode: 0x95, dst: 0, src: 0, off: 0, imm: 0 }, little: *b"\x95\0\0\0\0\0\0\0", big: *b"\x95\0\0\0\0\0\0\0" },
    // mov r1, r2
    SlotRow { slot: Slot { opcode: 0xbf, dst: 1, src: 2, off: 0, imm: 0 }, little: *b"\xbf\x21\0\0\0\0\0\0", big: *b"\xbf\x12\0\0\0\0\0\0" },
    // mov r0, -2
    SlotRow { slot: Slot { opcode: 0xb7, dst: 0, src: 0, off: 0, imm: -2 }, little: *b"\xb7\0\0\0\xfe\xff\xff\xff", big: *b"\xb7\0\0\0\xff\xff\xff\xfe" },
    // cmpxchg [r1-8], r2
    SlotRow { slot: Slot { opcode: 0xdb, dst: 1, src: 2, off: -8, imm: 0xf1 }, little: *b"\xdb\x21\xf8\xff\xf1\0\0\0", big: *b"\xdb\x12\xff\xf8\0\0\0\xf1" },
    // The greatest number in each field, and the least.
    SlotRow { slot: Slot { opcode: 0xff, dst: 15, src: 0, off: 0x7fff, imm: 0x7fff_ffff }, little: *b"\xff\x0f\xff\x7f\xff\xff\xff\x7f", big: *b"\xff\xf0\x7f\xff\x7f\xff\xff\xff" },
    SlotRow { slot: Slot { opcode: 0, dst: 0, src: 15, off: -0x8000, imm: -0x8000_0000 }, little: *b"\0\xf0\0\x80\0\0\0\x80", big: *b"\0\x0f\x80\0\x80\0\0\0" },
];

/// Whether the slot has these bytes in an order, and these in the other one.
fn is_encoded(order: Order, slot: Slot, bytes: &[u8; 8], other: &[u8; 8]) -> bool {
    slot_of(order, bytes) == slot && slot_bytes(order, slot) == *bytes && swapped(bytes) == *other
}

#[test]
fn slots_are_read_and_written_in_both_orders(rt: HostRuntime) {
    for row in &SLOTS {
        assert!(rt;
            is_encoded(Order::Little, row.slot, &row.little, &row.big),
            "{row:?}"
        );
        assert!(rt;
            is_encoded(Order::Big, row.slot, &row.big, &row.little),
            "{row:?}"
        );
    }
}

/// `lddw r1, 0x1122334455667788`, and the first bytes of a slot.
#[test]
fn slots_are_swapped_in_place(rt: HostRuntime) {
    let mut bytes = *b"\x18\x01\0\0\x88\x77\x66\x55\0\0\0\0\x44\x33\x22\x11\xbf\x21\x01";
    let wanted = *b"\x18\x10\0\0\x55\x66\x77\x88\0\0\0\0\x11\x22\x33\x44\xbf\x21\x01";
    swap_slots(&mut bytes);
    assert_eq!(rt; bytes, wanted);
}

#[test]
fn orders_have_their_names(rt: HostRuntime) -> Result<(), Fail> {
    for (order, name) in [(Order::Little, "little"), (Order::Big, "big")] {
        let text = format!(in rt.alloc(); "{order}")?;
        assert!(rt; text.as_str() == name, "{text}");
        assert!(rt; name.parse() == Ok(order), "{name}");
    }
    Ok(())
}

#[test]
fn other_names_are_refused(rt: HostRuntime) -> Result<(), Fail> {
    assert!(rt; "Big".parse::<Order>() == Err(ParseOrderError));
    let text = format!(in rt.alloc(); "{ParseOrderError}")?;
    assert!(rt;
        text.as_str() == "the byte order is neither `little` nor `big`",
        "{text}"
    );
    Ok(())
}

/// How many bytes an arena has, before any are given away.
const CAPACITY: usize = 448;

/// An arena with `capacity` bytes left and no more to get.
fn arena(alloc: Global, capacity: usize) -> Result<Bump<Global>, AllocError> {
    let taken = [0u8; CAPACITY];
    let bump = Bump::try_with_capacity(alloc, CAPACITY)?;
    bump.set_allocation_limit(Some(0));
    bump.try_alloc_slice_copy(&taken[..CAPACITY.saturating_sub(capacity)])?;
    Ok(bump)
}

/// The result of appending a value to `held` bytes in an arena.
enum Appended {
    /// The held bytes already don't fit into the arena.
    NoRoom,
    /// The value follows the held bytes.
    Whole,
    /// The growth was refused and the vector is as before.
    Unchanged,
    /// The vector is neither.
    Changed,
}

fn append(bump: &Bump<Global>, held: &[u8], row: &WordRow) -> Appended {
    let Ok(mut out) = Vec::from_slice(bump, held) else {
        return Appended::NoRoom;
    };
    let refused = push(&mut out, row.order, row.word).is_err();
    let word = out.strip_prefix(held).unwrap_or_default();
    if out.starts_with(held) && refused && word.is_empty() {
        Appended::Unchanged
    } else if out.starts_with(held) && !refused && word == row.bytes {
        Appended::Whole
    } else {
        Appended::Changed
    }
}

/// How many sizes of an arena had each result.
#[derive(Clone, Copy, Debug, Default)]
struct Ends {
    whole: usize,
    unchanged: usize,
    changed: usize,
}

/// Appends a value to `held` bytes in arenas of each size, from 0 to more than enough.
fn count_ends(alloc: Global, held: &[u8], row: &WordRow) -> Result<Ends, AllocError> {
    let mut ends = Ends::default();
    for capacity in 0..=64usize {
        let bump = arena(alloc, capacity)?;
        match append(&bump, held, row) {
            Appended::NoRoom => {}
            Appended::Whole => ends.whole = ends.whole.saturating_add(1),
            Appended::Unchanged => ends.unchanged = ends.unchanged.saturating_add(1),
            Appended::Changed => ends.changed = ends.changed.saturating_add(1),
        }
    }
    Ok(ends)
}

/// The value needs space next to what is held, so each smaller arena refuses it.
#[test]
fn a_refused_growth_changes_nothing(rt: HostRuntime) -> Result<(), Fail> {
    for row in &WORDS {
        for held in 0..=HELD.len() {
            let ends = count_ends(rt.alloc(), &HELD[..held], row)?;
            let is_right = ends.changed == 0 && ends.unchanged >= row.bytes.len() && ends.whole > 0;
            assert!(rt; is_right, "{row:?} after {held} bytes: {ends:?}");
        }
    }
    Ok(())
}
