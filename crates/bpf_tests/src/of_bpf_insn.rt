//! Worked examples, faults and groups.

mod groups;
mod rows;
mod texts;

use bpf_insn::Order;
use std::process::Abort;

/// Ends the test if a case is wrong in a byte order, with both in the message.
fn holds(rt: &impl Abort, is_right: bool, order: Order, case: &str) {
    assert!(rt; is_right, "{order:?}: {case}");
}
