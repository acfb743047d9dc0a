//! The call on type listings.

ghost use Rattle.bpfcanon_c.specs.TypesText.{AnswersBtfShow};

use crate::answer::{Answer, Ending, put, report};
use bpf_text::show_btf;
use btf_types::BtfView;
use std::alloc::Global;

/// Writes the listing of the types of a BTF file at the start of `out`: a line for each, followed
/// by a line for each of its items (docs/FORMATS.md, "Type listings"). It may be many times as long
/// as the file, since types can share names.
///
/// # Errors
///
/// Status 2 with the first fault of the file, its offset in bytes from the start of `bytes`; 4 if
/// memory runs out; 5 with the length of the listing if `out` is shorter. `out` is then unchanged.
#[unsafe(no_mangle)]
pub extern "C" fn bpfcanon_proved_btf_show(alloc: Global, bytes: &[u8], out: &mut [u8]) -> Answer
    ensures { AnswersBtfShow bytes.now out.old out.new result }
{
    report(match BtfView::parse(alloc, bytes) {
        Ok(table) => match show_btf(alloc, &table) {
            Ok(text) => put(&text, out),
            Err(error) => Ending::from(error),
        },
        Err(error) => Ending::from(error),
    })
}
