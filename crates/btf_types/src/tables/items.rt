//! An iterator over the items of a record.

#![tactic(auto, using(crate::proofs::TableLemmas::WindowSteps::item_windows))]

ghost use Rattle.std.specs.Prelude.{◌≡◌, IfSome, Some, length};
ghost use Rattle.std.specs.Iterator.{UpTo, YieldsFirstBy, YieldsLastBy, item_count};
ghost use Rattle.std.specs.Iterator.SizeHint.{IsWithinCount};
ghost use Rattle.btf_types.specs.Values.{item_value};

use crate::tables::SectionTable;
use crate::values::Item;
use std::fmt;
use std::iter::FusedIterator;
use std::marker::Model;
use std::ops::Range;

/// An iterator over the items of a record, in order, made by [`crate::BtfView::items`] or
/// [`crate::Btf::items`].
///
/// It is double-ended and fused: after the last item it keeps returning `None`. No step allocates
/// memory.
#[derive(Drop)]
pub struct Items<'a> {
    pub(crate) table: SectionTable<'a>,
    /// The ID of the record.
    pub(crate) id: u32,
    /// The numbers, from 0, of the items not yet returned.
    pub(crate) left: Range<u32>,
}

impl<'a> Model for Items<'a> {
    ghost use Rattle.std.specs.Prelude.{List, ◌≤◌, length};
    ghost use Rattle.btf_types.specs.Values.{TypeItem};
    ghost use Rattle.btf_types.specs.tables.Windows.{items_of, window};

    ghost Value = { List TypeItem };

    ghost view = { λ t. window t.left.start t.left.end (items_of t.table t.id) };

    ghost invariant = { λ t. (t.left.start ≤ t.left.end)
        × (t.left.end ≤ length (items_of t.table t.id)) };
}

impl<'a> Iterator for Items<'a> {
    type Item = Item<'a>;

    ghost next_gives = { YieldsFirstBy item_value (λ left. left) };

    ghost remaining = { item_count (λ left. left) };

    fn next(&mut self) -> Option<Item<'a>> {
        let k = self.left.next()?;
        Some(self.table.item(self.id, k))
    }

    fn size_hint(&self) -> (usize, Option<usize>)
        ensures exact { result ≡ (length self.now, Some (length self.now)) }
        ensures lower { IsWithinCount result.0 (item_count (λ left. left) self.now) }
        ensures upper { IfSome result.1 (UpTo (item_count (λ left. left) self.now)) }
    {
        let len = self.len();
        (len, Some(len))
    }
}

impl<'a> DoubleEndedIterator for Items<'a> {
    ghost next_back_gives = { YieldsLastBy item_value (λ left. left) };

    fn next_back(&mut self) -> Option<Item<'a>> {
        let k = self.left.next_back()?;
        Some(self.table.item(self.id, k))
    }
}

impl ExactSizeIterator for Items<'_> {
    fn len(&self) -> usize {
        self.left.len()
    }
}

impl FusedIterator for Items<'_> {}

/// Shows the number of remaining items.
impl fmt::Debug for Items<'_> {
    fn fmt<W: fmt::Write>(&self, f: &mut fmt::Formatter<W>) -> fmt::Result {
        f.debug_struct("Items").field("left", &self.len()).finish()
    }
}
