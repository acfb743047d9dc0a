//! The rows of tables of relocations, with the new numbers of their symbols (System V ABI,
//! "Relocation").

ghost use Rattle.std.specs.Prelude.{◌≡◌, ◌++◌, ◌<◌, true, OnOk};
ghost use Rattle.bpf_elf.specs.Numbers.{count, order_of};
ghost use Rattle.bpf_elf.specs.Symbols.{is_kept_symbol, symbol_count};
ghost use Rattle.bpf_elf.specs.Relocations.{relocation_count};
ghost use Rattle.bpf_object.specs.Canonical.{row_bytes};
ghost use Rattle.bpf_object.specs.Kept.{is_table, kept_relocation, numbers as spec_numbers};
ghost use Rattle.bpf_object.specs.private.Tables as spec;

use crate::fields::push64;
use bpf_elf::{Elf, Relocation};
use bpf_words::Order;
use std::alloc::{AllocError, Allocator};

/// Appends a row. `symbol` is the new number of its symbol.
fn push_row<A: Allocator>(
    out: &mut Vec<u8, A>,
    order: Order,
    row: Relocation,
    symbol: u32,
) -> Result<(), AllocError>
    ensures { OnOk result (out.new.items ≡ out.old.items ++ row_bytes order
        (record { offset = row.offset; symbol = symbol; type = row.relocation_type })) }
{
    push64(out, order, row.offset)?;
    let info = u64::from(row.relocation_type) + 0x1_0000_0000 * u64::from(symbol);
    push64(out, order, info)
}

/// Appends a row of a table.
fn push_relocation<A: Allocator>(
    out: &mut Vec<u8, A>,
    elf: &Elf<'_>,
    numbers: &[u32],
    i: usize,
    k: usize,
) -> Result<(), AllocError>
    requires there { i < count elf.now }
    requires table { is_table elf.now i ≡ true }
    requires row { k < relocation_count elf.now i }
    requires numbers { numbers.now ≡ spec_numbers (is_kept_symbol elf.now) (symbol_count elf.now) }
    ensures { OnOk result (out.new.items ≡ out.old.items
        ++ row_bytes (order_of elf.now) (kept_relocation elf.now i k)) }
{
    let row = elf.relocation(i, k);
    push_row(out, elf.order(), row, numbers[row.symbol as usize])
}

/// Appends the rows of a table.
pub(crate) fn push_table<A: Allocator>(
    out: &mut Vec<u8, A>,
    elf: &Elf<'_>,
    numbers: &[u32],
    i: usize,
) -> Result<(), AllocError>
    requires there { i < count elf.now }
    requires table { is_table elf.now i ≡ true }
    requires numbers { numbers.now ≡ spec_numbers (is_kept_symbol elf.now) (symbol_count elf.now) }
    ensures { OnOk result (out.new.items
        ≡ out.old.items ++ spec.rows_bytes elf.now i (relocation_count elf.now i)) }
{
    for k in 0..elf.relocation_count(i) {
        push_relocation(out, elf, numbers, i, k)?;
    }
    Ok(())
}
