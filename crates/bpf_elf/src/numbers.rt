//! 64-bit numbers of an ELF file (System V ABI, "Data Representation").

ghost use Rattle.std.specs.Prelude.{◌≡◌, ◌+◌, ◌≤◌, length};
ghost use Rattle.bpf_elf.specs.Numbers.{word64_at};

use bpf_words::{Order, get32};

/// Returns the 64-bit number whose first byte is at `pos`. All eight bytes must be inside the slice.
pub fn get64(order: Order, bytes: &[u8], pos: usize) -> u64
    requires { pos + 8 ≤ length bytes.now }
    ensures { result ≡ word64_at order bytes.now pos }
{
    let first = u64::from(get32(order, bytes, pos));
    let second = u64::from(get32(order, bytes, pos + 4));
    match order {
        Order::Little => first + 0x1_0000_0000 * second,
        Order::Big => second + 0x1_0000_0000 * first,
    }
}
