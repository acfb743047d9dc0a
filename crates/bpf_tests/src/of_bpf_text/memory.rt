//! Small inputs with each allocation refused in turn.

use super::equal;
use super::types::{KindRow, file};
use bpf_insn::{Insn, Order};
use bpf_text::{
    LineCause, LineFault, ListError, append_head, append_head_end, append_head_start, append_item,
    append_item_end, append_item_start, append_quoted_part, listing, push_line, read_listing,
    read_listing_bytes, show_btf,
};
use btf_types::{BtfView, Head, Item};
use bumpalo::Bump;
use std::alloc::{AllocError, Allocator, Global};
use std::process::Abort;
use std::test::Fail;

/// Nine lines of jumps, and a faulty one, each of 6 bytes. A list of instructions grows for its first, its fifth and its
/// ninth.
const LINES: &[u8; 60] = b"\
    ja +1\nja +2\nja +3\nja +4\nja +5\nja +6\nja +7\nja +8\nja +9\nleave\n";

/// The instructions of these lines.
const JUMPS: [Insn; 9] = [
    Insn::Jump { off: 1 },
    Insn::Jump { off: 2 },
    Insn::Jump { off: 3 },
    Insn::Jump { off: 4 },
    Insn::Jump { off: 5 },
    Insn::Jump { off: 6 },
    Insn::Jump { off: 7 },
    Insn::Jump { off: 8 },
    Insn::Jump { off: 9 },
];

/// Their bytes in little-endian order.
const JUMP_BYTES: &[u8; 72] = b"\
    \x05\0\x01\0\0\0\0\0\x05\0\x02\0\0\0\0\0\x05\0\x03\0\0\0\0\0\
    \x05\0\x04\0\0\0\0\0\x05\0\x05\0\0\0\0\0\x05\0\x06\0\0\0\0\0\
    \x05\0\x07\0\0\0\0\0\x05\0\x08\0\0\0\0\0\x05\0\x09\0\0\0\0\0";

/// The size of an arena in bytes.
const CAPACITY: usize = 1984;

/// An arena with `capacity` free bytes, which can't grow.
fn arena(alloc: Global, capacity: usize) -> Result<Bump<Global>, AllocError> {
    let taken = [0u8; CAPACITY];
    let bump = Bump::try_with_capacity(alloc, CAPACITY)?;
    bump.set_allocation_limit(Some(0));
    bump.try_alloc_slice_copy(&taken[..CAPACITY.saturating_sub(capacity)])?;
    Ok(bump)
}

/// What a call returns in an arena.
#[derive(Clone, Copy)]
enum Outcome {
    /// What it returns with ample memory.
    Whole,
    /// Out of memory.
    Refused,
    /// Another answer.
    Wrong,
}

/// A call.
#[derive(Clone, Copy)]
enum Call {
    /// Calls on the first of the lines.
    Listing,
    Read,
    ReadBytes,
    /// The call that lists types.
    Types,
    /// Calls that append to a listing.
    Line,
    Head,
    HeadStart,
    HeadEnd,
    Item,
    ItemStart,
    ItemEnd,
    QuotedPart,
}

/// Adds what a call returns in an arena to what it returned in all smaller ones: the smallest in which it succeeded, if
/// any, or that of the first wrong result. It is wrong to run out of memory in a larger one.
fn after(
    before: Result<Option<usize>, usize>,
    capacity: usize,
    outcome: Outcome,
) -> Result<Option<usize>, usize> {
    match (before, outcome) {
        (Err(_), _) | (Ok(None), Outcome::Refused) | (Ok(Some(_)), Outcome::Whole) => before,
        (Ok(None), Outcome::Whole) => Ok(Some(capacity)),
        _ => Err(capacity),
    }
}

/// The text of the first `lines` lines.
fn text_of(lines: usize) -> &'static [u8] {
    &LINES[..6 * lines.min(10)]
}

/// The bytes of their instructions.
fn bytes_of(lines: usize) -> &'static [u8] {
    &JUMP_BYTES[..8 * lines.min(9)]
}

/// The outcome of a call that reads `lines` lines, by what it returned and what is right.
fn read<T: PartialEq + Drop>(
    returned: Result<Vec<T, &Bump<Global>>, ListError>,
    lines: usize,
    right: &[T],
) -> Outcome {
    let fault = LineFault {
        line: 10,
        cause: LineCause::Word,
    };
    match returned {
        Ok(items) if lines <= 9 && items.as_slice() == right => Outcome::Whole,
        Err(ListError::Fault(first)) if lines == 10 && first == fault => Outcome::Whole,
        Err(ListError::Memory) => Outcome::Refused,
        _ => Outcome::Wrong,
    }
}

/// The outcome of a call that writes a text.
fn written(returned: Result<Vec<u8, &Bump<Global>>, AllocError>, right: &[u8]) -> Outcome {
    match returned {
        Ok(text) if text.as_slice() == right => Outcome::Whole,
        Ok(_) => Outcome::Wrong,
        Err(AllocError) => Outcome::Refused,
    }
}

/// A STRUCT of an INT, with its listing.
const TYPES: KindRow = KindRow {
    words: &[1, 0x0100_0000, 4, 0x0100_0020, 5, 0x8400_0001, 4, 7, 1, 0],
    strings: b"\0int\0s\0a\0",
    text: b"[1] int \"int\" size=4 encoding=signed offset=0 bits=32\n\
        [2] struct \"s\" size=4 items=1\n\
        \x20 member \"a\" type=1 offset=0 width=0\n",
};

/// What a call appends.
fn wanted(call: Call) -> &'static [u8] {
    match call {
        Call::Line => b"exit\n",
        Call::Head => b"[1] struct \"a\\\"b\" size=4 items=2\n",
        Call::HeadStart => b"[1] struct \"",
        Call::HeadEnd => b"\" size=4 items=2\n",
        Call::Item => b"  param \"\\\\\" type=7\n",
        Call::ItemStart => b"  param \"",
        Call::ItemEnd => b"\" type=7\n",
        Call::QuotedPart => b"a\\\"b\\x01c",
        _ => b"",
    }
}

fn append_by<A: Allocator>(text: &mut Vec<u8, A>, call: Call) -> Result<(), AllocError> {
    let head = Head::KStruct {
        name: "a\"b",
        size: 4,
    };
    let item = Item::Param {
        name: "\\",
        target: 7,
    };
    match call {
        Call::Line => push_line(text, Insn::Exit),
        Call::Head => append_head(text, 1, head, 2),
        Call::HeadStart => append_head_start(text, 1, head),
        Call::HeadEnd => append_head_end(text, head, 2),
        Call::Item => append_item(text, item, false),
        Call::ItemStart => append_item_start(text, item),
        Call::ItemEnd => append_item_end(text, item, false),
        Call::QuotedPart => append_quoted_part(text, b"a\"b\x01c"),
        _ => Ok(()),
    }
}

/// The earlier contents of the listing to which a call appends.
const HELD: &[u8] = b"; text\n";

/// Whether a call that runs out of memory may append this: the first bytes of what it appends, but none of the line of an
/// instruction.
fn is_start(wanted: &[u8], more: &[u8], call: Call) -> bool {
    wanted.starts_with(more) && (more.is_empty() || !matches!(call, Call::Line))
}

/// Whether a text keeps the earlier contents, and more is appended as expected.
fn kept(text: &[u8], call: Call, is_done: bool) -> Outcome {
    let wanted = wanted(call);
    match text.strip_prefix(HELD) {
        Some(more) if is_done && more == wanted => Outcome::Whole,
        Some(more) if !is_done && is_start(wanted, more, call) => Outcome::Refused,
        _ => Outcome::Wrong,
    }
}

fn appended(bump: &Bump<Global>, call: Call) -> Outcome {
    let Ok(mut text) = Vec::from_slice(bump, HELD) else {
        return Outcome::Refused;
    };
    let is_done = append_by(&mut text, call).is_ok();
    kept(&text, call, is_done)
}

fn outcome_of(bump: &Bump<Global>, row: &CapacityRow, table: &BtfView<'_>) -> Outcome {
    let lines = row.lines;
    let insns = &JUMPS[..lines.min(9)];
    match row.call {
        Call::Listing => written(listing(bump, insns), text_of(lines)),
        Call::Read => read(read_listing(bump, text_of(lines)), lines, insns),
        Call::ReadBytes => {
            let returned = read_listing_bytes(bump, Order::Little, text_of(lines));
            read(returned, lines, bytes_of(lines))
        }
        Call::Types => written(show_btf(bump, table), TYPES.text),
        call => appended(bump, call),
    }
}

/// The smallest arena that a call needs, or that of its first wrong result.
fn least_capacity(
    alloc: Global,
    row: &CapacityRow,
    table: &BtfView<'_>,
) -> Result<Result<Option<usize>, usize>, AllocError> {
    let mut least = Ok(None);
    for capacity in 0..=CAPACITY {
        let bump = arena(alloc, capacity)?;
        least = after(least, capacity, outcome_of(&bump, row, table));
    }
    Ok(least)
}

/// A call, the number of lines if it is on these, what it needs at least, and whether that is more than in the row before. The
/// rows of a call begin with none of the lines.
struct CapacityRow {
    call: Call,
    lines: usize,
    bytes: usize,
    grows: bool,
}

macro_rules! row {
    ($call:ident of $lines:literal => $bytes:literal, $grows:literal) => {
        CapacityRow { call: Call::$call, lines: $lines, bytes: $bytes, grows: $grows }
    };
}

static CAPACITIES: [CapacityRow; 22] = [
    row!(Listing of 0 => 0, false),
    row!(Listing of 1 => 6, true),
    row!(Listing of 9 => 54, true),
    row!(ReadBytes of 0 => 0, false),
    row!(ReadBytes of 1 => 8, true),
    row!(ReadBytes of 9 => 72, true),
    row!(ReadBytes of 10 => 72, false),
    row!(Read of 0 => 0, false),
    row!(Read of 1 => 1, true),
    row!(Read of 4 => 4, false),
    row!(Read of 5 => 5, true),
    row!(Read of 9 => 9, true),
    row!(Read of 10 => 9, false),
    row!(Types of 0 => 121, true),
    row!(Line of 0 => 12, true),
    row!(Head of 0 => 40, true),
    row!(HeadStart of 0 => 19, true),
    row!(HeadEnd of 0 => 24, true),
    row!(Item of 0 => 27, true),
    row!(ItemStart of 0 => 16, true),
    row!(ItemEnd of 0 => 16, true),
    row!(QuotedPart of 0 => 16, true),
];

/// Checks a row after one that needed `before` bytes, and returns how many it needs.
fn check(
    rt: &impl Abort,
    alloc: Global,
    table: &BtfView<'_>,
    row: &CapacityRow,
    before: usize,
) -> Result<usize, AllocError> {
    let before = if row.lines == 0 { 0 } else { before };
    let least = least_capacity(alloc, row, table)?;
    let right = match least {
        Ok(Some(capacity)) => row.bytes <= capacity
            && before <= capacity
            && row.grows == (before < capacity),
        _ => false,
    };
    let case = (row.call as usize, row.lines, least, before);
    equal(rt, &right, &true, &case);
    Ok(least.ok().flatten().unwrap_or(before))
}

#[test]
fn each_refused_allocation_is_reported(rt: HostRuntime) -> Result<(), Fail> {
    let bytes = file(rt.alloc(), Order::Little, &TYPES)?;
    let table = BtfView::parse(rt.alloc(), &bytes)?;
    let mut before = 0;
    for row in &CAPACITIES {
        before = check(&rt, rt.alloc(), &table, row, before)?;
    }
    Ok(())
}
