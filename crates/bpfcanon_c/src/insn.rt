//! The calls on instruction files.

ghost use Rattle.std.specs.Prelude.{◌≡◌};
ghost use Rattle.bpf_insn.specs.Groups.{holds};
ghost use Rattle.bpfcanon_c.specs.Endings.{IsRecoded, AnswersInsns, EndsSameInsnsIn};
ghost use Rattle.bpfcanon_c.specs.Endings.{AnswersSameInsns};
ghost use Rattle.bpfcanon_c.specs.GroupMasks.{weighed, mask, EndsGroupsIn, AnswersGroups};
ghost use Rattle.bpfcanon_c.specs.Outputs.{IsInsnCode, EndsOutput};

use crate::answer::{Answer, Ending, compared, order_from, put, report, slot_code};
use bpf_canon::{recode_insns, same_insns};
use bpf_insn::{Group, GroupSet, Order, groups_in};
use std::alloc::Global;

/// Writes the instructions of a file, which is in the byte order `order`, in the byte order `to` at
/// the start of `out` (RFC 9669 section 3). They are as long as the file. Little-endian bytes are
/// canonical.
///
/// # Errors
///
/// Status 6 if `order` or `to` is neither 0 nor 1; 2 with the first fault of the file, its offset
/// in bytes from the start of `bytes`; 4 if memory runs out; 5 with the length of the output if
/// `out` is shorter. `out` is then unchanged.
#[unsafe(no_mangle)]
pub extern "C" fn bpfcanon_proved_insn_canon(
    alloc: Global,
    order: u32,
    to: u32,
    bytes: &[u8],
    out: &mut [u8],
) -> Answer
    ensures { AnswersInsns order to bytes.now out.old out.new result }
{
    report(match (order_from(order), order_from(to)) {
        (Some(order), Some(to)) => insns_in(alloc, order, to, bytes, out),
        _ => Ending::Order,
    })
}

/// The instructions of a file in two byte orders.
fn insns_in(alloc: Global, order: Order, to: Order, bytes: &[u8], out: &mut [u8]) -> Ending
    ensures { EndsOutput (IsRecoded order to bytes.now) (IsInsnCode order bytes.now)
        out.old out.new result }
{
    match recode_insns(alloc, order, to, bytes) {
        Ok(written) => put(&written, out),
        Err(error) => Ending::from(error),
    }
}

/// The conformance groups (RFC 9669 section 2.4) that the instructions of a file need, as a mask of
/// 7 bits from the lowest: base32, base64, atomic32, atomic64, divmul32, divmul64, packet. It
/// allocates nothing.
///
/// # Errors
///
/// Status 6 if `order` is neither 0 nor 1; 2 with the first fault of the file, its offset in bytes
/// from the start of `bytes`.
#[unsafe(no_mangle)]
pub extern "C" fn bpfcanon_proved_insn_groups(order: u32, bytes: &[u8]) -> Answer
    ensures { AnswersGroups order bytes.now result }
{
    report(match order_from(order) {
        Some(order) => groups_reported(order, bytes),
        None => Ending::Order,
    })
}

/// The groups of a file.
fn groups_reported(order: Order, bytes: &[u8]) -> Ending
    ensures { EndsGroupsIn order bytes.now result }
{
    match groups_in(order, bytes) {
        Ok(groups) => Ending::Groups(mask_of(&groups)),
        Err(fault) => Ending::First(slot_code(fault)),
    }
}

/// The bit of a group in a mask, or 0 if the set lacks the group.
fn bit(set: &GroupSet, group: Group, weight: u32) -> u32
    ensures { result ≡ weighed (holds set.now group) weight }
{
    if set.has(group) { weight } else { 0 }
}

/// The mask of a set of groups.
fn mask_of(set: &GroupSet) -> u32
    ensures { result ≡ mask set.now }
{
    let widths = bit(set, Group::Base32, 1) + bit(set, Group::Base64, 2);
    let atomics = bit(set, Group::Atomic32, 4) + bit(set, Group::Atomic64, 8);
    let divisions = bit(set, Group::Divmul32, 16) + bit(set, Group::Divmul64, 32);
    widths + atomics + divisions + bit(set, Group::Packet, 64)
}

/// Whether two instruction files (RFC 9669 section 3), each in its own byte order, have the same
/// instructions: status 0 if they do, and 1 if they don't. It allocates nothing.
///
/// # Errors
///
/// Status 6 if a byte order is neither 0 nor 1; 2 with the first fault of `first`; 3 with that of
/// `second` if `first` has none. Offsets are in bytes from the start of that file.
#[unsafe(no_mangle)]
pub extern "C" fn bpfcanon_proved_insn_same(
    alloc: Global,
    order_first: u32,
    first: &[u8],
    order_second: u32,
    second: &[u8],
) -> Answer
    ensures { AnswersSameInsns order_first first.now order_second second.now result }
{
    report(match (order_from(order_first), order_from(order_second)) {
        (Some(a), Some(b)) => compare(alloc, a, first, b, second),
        _ => Ending::Order,
    })
}

/// Whether two files in two byte orders have the same instructions.
fn compare(alloc: Global, a: Order, first: &[u8], b: Order, second: &[u8]) -> Ending
    ensures { EndsSameInsnsIn a first.now b second.now result }
{
    compared(same_insns(alloc, a, first, b, second), slot_code)
}
