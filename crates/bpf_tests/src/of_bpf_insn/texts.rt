//! Texts of faults, errors, registers and groups.

use bpf_insn::{Group, InsnError, NoSuchReg, Reg, SlotCause, SlotFault};
use std::alloc::{AllocError, Global};
use std::fmt::Display;
use std::test::Fail;

/// Whether a value is shown as this text.
pub(super) fn shows<T: Display>(
    alloc: Global,
    value: &T,
    wanted: &str,
) -> Result<bool, AllocError> {
    let text = format!(in alloc; "{value}")?;
    Ok(text.as_str() == wanted)
}

#[test]
fn values_are_shown(rt: HostRuntime) -> Result<(), Fail> {
    let fault = SlotFault {
        pos: 9,
        cause: SlotCause::Src,
    };
    let are_shown = [
        shows(rt.alloc(), &fault, "9 Src")?,
        shows(rt.alloc(), &Reg::try_from(10)?, "r10")?,
        shows(rt.alloc(), &NoSuchReg(11), "there is no register r11")?,
        shows(rt.alloc(), &Group::Atomic64, "atomic64")?,
        shows(rt.alloc(), &InsnError::Fault(fault), "Fault")?,
        shows(rt.alloc(), &InsnError::Memory, "Memory")?,
    ];
    assert_eq!(rt; are_shown, [true; 6]);
    Ok(())
}
