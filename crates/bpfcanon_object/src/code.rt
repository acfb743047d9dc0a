//! The code of a file that is accepted, and what is reported of it.

ghost use Rattle.std.specs.Prelude.{◌≡◌, ◌<◌};
ghost use Rattle.bpf_elf.specs.Numbers.{count};
ghost use Rattle.bpfcanon_object.specs.Code as spec;
ghost use Rattle.bpfcanon_object.specs.Code.{IsFound, IsFoundIn};

use crate::finding::Finding;
use crate::target::{Target, found_by_item};
use bpf_elf::{Elf, Kind};
use bpf_insn::{Order, first_fault};

const SHF_EXECINSTR: u64 = 0x4;

/// Whether a section is code.
fn is_code(elf: &Elf<'_>, i: usize) -> bool
    requires { i < count elf.now }
    ensures { result ≡ spec.is_code elf.now i }
{
    elf.kind(i) == Some(Kind::Data) && elf.section(i).flags / SHF_EXECINSTR % 2 == 1
}

/// What is reported of instructions, if anything is. Without a target, those without a fault need not
/// be read one by one.
fn found(order: Order, target: Option<Target>, bytes: &[u8]) -> Option<Finding>
    ensures { IsFound order target bytes.now result }
{
    if target.is_none() && first_fault(order, bytes).is_none() {
        return None;
    }
    found_by_item(order, target, bytes)
}

/// What is reported of a section, if it is code and anything is. The offset is in bytes from the
/// start of the section.
pub fn found_in(target: Option<Target>, elf: &Elf<'_>, i: usize) -> Option<Finding>
    requires { i < count elf.now }
    ensures { IsFoundIn target elf.now i result }
{
    if is_code(elf, i) {
        found(elf.order(), target, elf.content(i))
    } else {
        None
    }
}
