//! `btf-show`: validates the input, and then writes the listing of its types in pieces.
//!
//! A name can be as long as the string section, and quoting makes it longer, so it is quoted and
//! written in chunks. A byte becomes at most four, so a chunk of 2,048 bytes adds no more than the
//! length of a piece to the buffer.

ghost use Rattle.std.specs.Prelude.{◌≡◌, ◌<◌, ◌≤◌, ◌++◌, length, OnOk};
ghost use Rattle.std.specs.List.{flat_map};
ghost use Rattle.btf_types.specs.{Values.head_value, Values.item_value};
ghost use Rattle.btf_types.specs.tables.TableWords.{record_at};
ghost use Rattle.bpf_text.specs.btf.BtfText.{head_line, item_line, quoted_byte, record_text};
ghost use Rattle.bpf_text.specs.btf.BtfText.{text_of};
ghost use Rattle.bpfcanon.specs.declared.commands.pieces.TheConstants.{PIECE};
ghost use Rattle.bpfcanon.specs.{declared.verb.Verb.TheVariants.BtfShow, Devices.sink_change};
ghost use Rattle.bpfcanon.specs.commands.{Pieces.Answers, Pieces.Gathers, Pieces.TookText};
ghost use Rattle.bpfcanon.specs.commands.Reply.{limit_of};

use crate::commands::pieces::{PutError, put_long_piece, put_piece};
use crate::job::Job;
use crate::outcome::Outcome;
use bpf_canon::ByteSink;
use bpf_text::{
    append_head_end, append_head_start, append_item_end, append_item_start, append_quoted_part,
    is_signed,
};
use btf_types::{BtfView, Head, Item, TypeTable};
use std::alloc::Allocator;

/// The longest chunk of a name that is quoted at once, in bytes.
const CHUNK: usize = 2048;

/// Appends a quoted chunk of a name to a piece, and writes the piece if it is long.
fn put_chunk<A: Allocator, W: ByteSink>(
    sink: &mut W,
    piece: &mut Vec<u8, A>,
    chunk: &[u8],
) -> Result<(), PutError>
    requires some { 0 < length chunk.now }
    requires sink { W.failures sink.old < u64.MAX }
    ensures gathered { Gathers (sink_change W.ByteSink sink.old sink.new) piece.new.items
        (piece.old.items ++ flat_map quoted_byte chunk.now) result }
    ensures short { OnOk result (length piece.new.items < PIECE) }
{
    append_quoted_part(piece, chunk)?;
    put_long_piece(sink, piece)
}

/// Appends the quoted bytes of a name, and writes each long piece.
fn put_name<A: Allocator, W: ByteSink>(
    sink: &mut W,
    piece: &mut Vec<u8, A>,
    name: &[u8],
) -> Result<(), PutError>
    requires { W.failures sink.old < u64.MAX }
    ensures { Gathers (sink_change W.ByteSink sink.old sink.new) piece.new.items (piece.old.items
        ++ flat_map quoted_byte name.now) result }
{
    let mut start = 0;
    while start < name.len() {
        let end = start + CHUNK.min(name.len() - start);
        put_chunk(sink, piece, &name[start..end])?;
        start = end;
    }
    Ok(())
}

/// Appends the line of a type with `items` items, and writes each long piece.
fn put_head<A: Allocator, W: ByteSink>(
    sink: &mut W,
    piece: &mut Vec<u8, A>,
    id: u32,
    head: Head<'_>,
    items: u32,
) -> Result<(), PutError>
    requires { W.failures sink.old < u64.MAX }
    ensures gathered { Gathers (sink_change W.ByteSink sink.old sink.new) piece.new.items
        (piece.old.items ++ head_line id (head_value head.entry) items) result }
    ensures short { OnOk result (length piece.new.items < PIECE) }
{
    append_head_start(piece, id, head)?;
    put_name(sink, piece, head.name().as_bytes())?;
    append_head_end(piece, head, items)?;
    put_long_piece(sink, piece)
}

/// Appends the line of an item, and writes each long piece.
fn put_item<A: Allocator, W: ByteSink>(
    sink: &mut W,
    piece: &mut Vec<u8, A>,
    item: Item<'_>,
    signed: bool,
) -> Result<(), PutError>
    requires { W.failures sink.old < u64.MAX }
    ensures gathered { Gathers (sink_change W.ByteSink sink.old sink.new) piece.new.items
        (piece.old.items ++ item_line signed (item_value item.entry)) result }
    ensures short { OnOk result (length piece.new.items < PIECE) }
{
    append_item_start(piece, item)?;
    put_name(sink, piece, item.name().as_bytes())?;
    append_item_end(piece, item, signed)?;
    put_long_piece(sink, piece)
}

/// Appends the lines of a type's items, and writes each long piece.
#[tactic(auto, using(crate::proofs::CommandsLemmas::BtfShowLemmas::items_more))]
fn put_items<A: Allocator, W: ByteSink, T: TypeTable>(
    sink: &mut W,
    piece: &mut Vec<u8, A>,
    table: &T,
    id: u32,
    signed: bool,
) -> Result<(), PutError>
    requires first { 0 < id }
    requires last { id ≤ length (T.meaning table.now) }
    requires sink { W.failures sink.old < u64.MAX }
    ensures { Gathers (sink_change W.ByteSink sink.old sink.new) piece.new.items (piece.old.items
        ++ flat_map (item_line signed) (record_at (T.meaning table.now) id).items) result }
{
    for k in 0..table.item_count(id) {
        put_item(sink, piece, table.item(id, k), signed)?;
    }
    Ok(())
}

/// Appends the lines of a type and its items, and writes each long piece.
#[tactic(auto, using(crate::proofs::CommandsLemmas::BtfShowLemmas::record_lines))]
fn put_record<A: Allocator, W: ByteSink, T: TypeTable>(
    sink: &mut W,
    piece: &mut Vec<u8, A>,
    table: &T,
    id: u32,
) -> Result<(), PutError>
    requires first { 0 < id }
    requires last { id ≤ length (T.meaning table.now) }
    requires sink { W.failures sink.old < u64.MAX }
    ensures { Gathers (sink_change W.ByteSink sink.old sink.new) piece.new.items (piece.old.items
        ++ record_text id (record_at (T.meaning table.now) id)) result }
{
    let head = table.head(id);
    put_head(sink, piece, id, head, table.item_count(id))?;
    put_items(sink, piece, table, id, is_signed(head))
}

/// Writes the listing of a table of types in pieces.
fn put_types<A: Allocator, W: ByteSink, T: TypeTable>(
    alloc: A,
    table: &T,
    sink: &mut W,
) -> Result<(), PutError>
    requires { W.failures sink.old < u64.MAX }
    ensures { TookText (sink_change W.ByteSink sink.old sink.new)
        (text_of (T.meaning table.now)) result }
{
    let mut piece = Vec::new(alloc);
    for index in 0..table.count() {
        put_record(sink, &mut piece, table, index + 1)?;
    }
    put_piece(sink, &mut piece)
}

/// Runs `btf-show` on its input. Nothing is written if the input has a fault.
#[tactic(auto, using(crate::proofs::CommandsLemmas::BtfShowLemmas::show_ends))]
pub fn put_btf_show<A: Allocator + Copy, W: ByteSink>(
    alloc: A,
    job: Job,
    input: &[u8],
    sink: &mut W,
) -> Outcome
    requires show { job.verb ≡ BtfShow }
    requires within { length input.now ≤ limit_of BtfShow }
    requires sink { W.failures sink.old < u64.MAX }
    ensures { Answers job input.now (sink_change W.ByteSink sink.old sink.new) result }
{
    let table = match BtfView::parse(alloc, input) {
        Ok(table) => table,
        Err(error) => return Outcome::from(error),
    };
    match put_types(alloc, &table, sink) {
        Ok(()) => Outcome::Done,
        Err(error) => Outcome::from(error),
    }
}
