//! Numbers one after another, as the rows of ELF tables have them.

ghost use Rattle.std.specs.Prelude.{◌≡◌, ◌++◌, OnOk};
ghost use Rattle.bpf_object.specs.private.Fields as spec;
ghost use Rattle.bpf_object.specs.File.{word64};

use bpf_words::{Order, push16, push32};
use std::alloc::{AllocError, Allocator};

/// A number of 8, 16, 32 or 64 bits.
#[derive(Clone, Copy)]
pub(crate) enum Field {
    Byte(u8),
    Half(u16),
    Word(u32),
    Long(u64),
}

/// Appends the eight bytes of a 64-bit number.
pub(crate) fn push64<A: Allocator>(
    out: &mut Vec<u8, A>,
    order: Order,
    value: u64,
) -> Result<(), AllocError>
    ensures { OnOk result (out.new.items ≡ out.old.items ++ word64 order value) }
{
    let word = match order {
        Order::Little => value.to_le_bytes(),
        Order::Big => value.to_be_bytes(),
    };
    out.extend_from_slice(&word)
}

/// Appends a number.
fn push_field<A: Allocator>(
    out: &mut Vec<u8, A>,
    order: Order,
    field: Field,
) -> Result<(), AllocError>
    ensures { OnOk result (out.new.items ≡ out.old.items ++ spec.bytes order field) }
{
    match field {
        Field::Byte(value) => out.extend_from_slice(&[value]),
        Field::Half(value) => push16(out, order, value),
        Field::Word(value) => push32(out, order, value),
        Field::Long(value) => push64(out, order, value),
    }
}

/// Appends the numbers of a row.
pub(crate) fn push_fields<A: Allocator>(
    out: &mut Vec<u8, A>,
    order: Order,
    fields: &[Field],
) -> Result<(), AllocError>
    ensures { OnOk result (out.new.items ≡ out.old.items ++ spec.encode order fields.now) }
{
    for field in fields {
        push_field(out, order, *field)?;
    }
    Ok(())
}
