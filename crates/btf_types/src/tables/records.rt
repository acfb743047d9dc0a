//! An iterator over the records of a table.

#![tactic(auto, using(crate::proofs::TableLemmas::WindowSteps::record_windows))]

ghost use Rattle.std.specs.Prelude.{◌≡◌, IfSome, Some, length};
ghost use Rattle.std.specs.Iterator.{UpTo, YieldsFirstBy, YieldsLastBy, item_count};
ghost use Rattle.std.specs.Iterator.SizeHint.{IsWithinCount};
ghost use Rattle.btf_types.specs.tables.TableWords.{numbered_value};

use crate::tables::SectionTable;
use crate::values::Head;
use std::fmt;
use std::iter::FusedIterator;
use std::marker::Model;
use std::ops::Range;

/// An iterator over a table's records in order, each as its ID and its head, made by
/// [`crate::BtfView::records`] or [`crate::Btf::records`].
///
/// It is double-ended and fused: after the last record it keeps returning `None`. No step allocates
/// memory.
#[derive(Drop)]
pub struct Records<'a> {
    pub(crate) table: SectionTable<'a>,
    /// The numbers, from 0, of the records not yet returned.
    pub(crate) left: Range<u32>,
}

impl<'a> Model for Records<'a> {
    ghost use Rattle.std.specs.Prelude.{ℕ, List, ◌≤◌, length};
    ghost use Rattle.btf_types.specs.Values.{TypeHead};
    ghost use Rattle.btf_types.specs.tables.{TableWords.numbered, Windows.window};

    ghost Value = { List (ℕ × TypeHead) };

    ghost view = { λ t. window t.left.start t.left.end (numbered 1 t.table) };

    ghost invariant = { λ t. (t.left.start ≤ t.left.end) × (t.left.end ≤ length t.table) };
}

impl<'a> Iterator for Records<'a> {
    type Item = (u32, Head<'a>);

    ghost next_gives = { YieldsFirstBy numbered_value (λ left. left) };

    ghost remaining = { item_count (λ left. left) };

    fn next(&mut self) -> Option<(u32, Head<'a>)> {
        self.left.next()?;
        let id = self.left.start;
        Some((id, self.table.head(id)))
    }

    fn size_hint(&self) -> (usize, Option<usize>)
        ensures exact { result ≡ (length self.now, Some (length self.now)) }
        ensures lower { IsWithinCount result.0 (item_count (λ left. left) self.now) }
        ensures upper { IfSome result.1 (UpTo (item_count (λ left. left) self.now)) }
    {
        let len = self.len();
        (len, Some(len))
    }
}

impl<'a> DoubleEndedIterator for Records<'a> {
    ghost next_back_gives = { YieldsLastBy numbered_value (λ left. left) };

    fn next_back(&mut self) -> Option<(u32, Head<'a>)> {
        let id = self.left.end;
        self.left.next_back()?;
        Some((id, self.table.head(id)))
    }
}

impl ExactSizeIterator for Records<'_> {
    fn len(&self) -> usize {
        self.left.len()
    }
}

impl FusedIterator for Records<'_> {}

/// Shows the number of remaining records.
impl fmt::Debug for Records<'_> {
    fn fmt<W: fmt::Write>(&self, f: &mut fmt::Formatter<W>) -> fmt::Result {
        f.debug_struct("Records")
            .field("left", &self.len())
            .finish()
    }
}
