//! Names that overlap, equal and nest in all ways, against a plain computation of the string table.

use super::btf::check_written;
use super::plain_table::{PlainTable, length_of, text_at};
use bpf_words::{Order, push16, push32};
use std::alloc::Global;
use std::process::Abort;

/// The words of a STRUCT with two members and an ENUM with one value. The STRUCT's name and the value's are the first of three, and the
/// last member's is that of the ENUM.
fn words(names: [u32; 3]) -> [u32; 14] {
    let [first, second, third] = names;
    [
        first,
        0x0400_0002,
        0,
        second,
        0,
        0,
        third,
        0,
        0,
        third,
        0x0600_0001,
        4,
        first,
        7,
    ]
}

/// A file with these words and strings.
pub(crate) fn file(
    rt: &impl Abort,
    alloc: Global,
    order: Order,
    words: &[u32],
    strings: &[u8],
) -> Vec<u8, Global> {
    let mut file = Vec::new(alloc);
    push16(&mut file, order, 0xeb9f).expect(rt, "ample memory");
    file.extend_from_slice(b"\x01\0").expect(rt, "ample memory");
    let types_len = length_of(words.len()).wrapping_mul(4);
    let header = [24, 0, types_len, types_len, length_of(strings.len())];
    push_words(rt, &mut file, order, &header);
    push_words(rt, &mut file, order, words);
    file.extend_from_slice(strings).expect(rt, "ample memory");
    file
}

fn push_words(rt: &impl Abort, file: &mut Vec<u8>, order: Order, words: &[u32]) {
    for word in words {
        push32(file, order, *word).expect(rt, "ample memory");
    }
}

/// The canonical file, computed plainly.
fn plain_file(
    rt: &impl Abort,
    alloc: Global,
    order: Order,
    strings: &[u8],
    offsets: [u32; 3],
) -> Vec<u8, Global> {
    let [first, second, third] = offsets;
    let first = text_at(strings, first as usize);
    let second = text_at(strings, second as usize);
    let third = text_at(strings, third as usize);
    let table = PlainTable::of(rt, alloc, &[first, second, third]);
    let offsets = [
        table.new_offset(first),
        table.new_offset(second),
        table.new_offset(third),
    ];
    file(rt, alloc, order, &words(offsets), &table.bytes(rt, alloc))
}

/// All string sections of NUL, `a` and `b` with `len` bytes between their first and last NUL, by a number below 3 to the power of `len`.
fn section(rt: &impl Abort, alloc: Global, len: u32, number: u32) -> Vec<u8, Global> {
    let mut strings = Vec::from_slice(alloc, b"\0").expect(rt, "ample memory");
    let mut rest = number;
    for _ in 0..len {
        let byte = match rest % 3 {
            0 => 0,
            1 => b'a',
            _ => b'b',
        };
        strings.push(byte).expect(rt, "ample memory");
        rest /= 3;
    }
    strings.push(0).expect(rt, "ample memory");
    strings
}

/// The order of a file, and the order in which its types are written.
static ORDERS: [(Order, Order); 4] = [
    (Order::Little, Order::Little),
    (Order::Little, Order::Big),
    (Order::Big, Order::Little),
    (Order::Big, Order::Big),
];

/// Writes a file of three names at these offsets of a section, from each kind of table.
fn compare(
    rt: &impl Abort,
    alloc: Global,
    (from, to): (Order, Order),
    strings: &[u8],
    offsets: [u32; 3],
) {
    let file = file(rt, alloc, from, &words(offsets), strings);
    let plain = plain_file(rt, alloc, to, strings, offsets);
    check_written(rt, alloc, to, &file, &plain);
}

/// Does so for each two orders.
fn compare_orders(rt: &impl Abort, alloc: Global, strings: &[u8], offsets: [u32; 3]) {
    for orders in &ORDERS {
        compare(rt, alloc, *orders, strings, offsets);
    }
}

/// Three names at all offsets of a section.
fn compare_names(rt: &impl Abort, alloc: Global, strings: &[u8]) {
    let len = length_of(strings.len());
    for first in 0..len {
        for second in 0..len {
            for third in 0..len {
                compare_orders(rt, alloc, strings, [first, second, third]);
            }
        }
    }
}

#[test]
fn names_share_suffixes_as_computed_plainly(rt: HostRuntime) {
    for (len, count) in [(0, 1), (1, 3), (2, 9), (3, 27), (4, 81)] {
        for number in 0..count {
            let strings = section(&rt, rt.alloc(), len, number);
            compare_names(&rt, rt.alloc(), &strings);
        }
    }
}
