//! The parts of lines: strings and numbers.

ghost use Rattle.std.specs.{Prelude.◌≡◌, Prelude.◌++◌, Prelude.decimal, List.flat_map};
ghost use Rattle.bpf_text.specs.btf.Appending.{Appends};

use itoa::{Buffer, Integer};
use std::alloc::{AllocError, Allocator};

/// Appends a string.
pub(crate) fn append<A: Allocator>(text: &mut Vec<u8, A>, more: &str) -> Result<(), AllocError>
    ensures { Appends result text.old more.now text.new }
{
    text.extend_from_slice(more.as_bytes())
}

/// Appends a label and a number in decimal.
pub(crate) fn append_number<A: Allocator, I: Integer>(
    text: &mut Vec<u8, A>,
    label: &str,
    number: I,
) -> Result<(), AllocError>
    ensures { Appends result text.old (label.now ++ I.text number) text.new }
{
    append(text, label)?;
    append(text, Buffer::new().format(number))
}

/// Appends numbers, each after its label.
pub(crate) fn append_numbers<A: Allocator>(
    text: &mut Vec<u8, A>,
    numbers: &[(&str, u32)],
) -> Result<(), AllocError>
    ensures { Appends result text.old
        (flat_map (λ n. n.0.now ++ decimal n.1) numbers.now) text.new }
{
    for (label, number) in numbers {
        append_number(text, label, *number)?;
    }
    Ok(())
}
