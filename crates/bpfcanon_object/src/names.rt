//! Names in a file, as far as they are printed. A file may refer to a long name many times, so what
//! is printed of it is cut.

ghost use Rattle.std.specs.Prelude.{◌≡◌, IfOk, string_bytes, take};
ghost use Rattle.bpfcanon_object.specs.Formats as spec;

use std::alloc::{AllocError, Allocator};

/// How many bytes of a name are printed.
const MOST: usize = 256;

/// The first bytes, at most so many.
fn front(bytes: &[u8], most: usize) -> &[u8]
    ensures { result.now ≡ take most bytes.now }
{
    if bytes.len() > most {
        &bytes[..most]
    } else {
        bytes
    }
}

/// The bytes of a name that are printed.
fn cut(name: &[u8]) -> &[u8]
    ensures { result.now ≡ spec.cut_name name.now }
{
    front(name, MOST)
}

/// The name of a section or of a source file as a text, before anything in it is escaped.
pub fn name_text<A: Allocator>(alloc: A, name: &[u8]) -> Result<String<A>, AllocError>
    ensures { IfOk result (λ text. string_bytes text ≡ spec.name_text name.now) }
{
    String::from_utf8_lossy(alloc, cut(name))
}
