//! A table of types as a user may write one, which counts its calls.

use btf_types::{Head, Item, TypeTable};
use std::cell::Cell;

/// Another table, and how many of its calls were made.
#[derive(Drop)]
pub(crate) struct Counting<'a, T: TypeTable> {
    table: &'a T,
    calls: Cell<usize>,
}

impl<'a, T: TypeTable> Counting<'a, T> {
    pub(crate) fn new(table: &'a T) -> Counting<'a, T> {
        Counting {
            table,
            calls: Cell::new(0),
        }
    }

    /// How many calls of the table were made.
    pub(crate) fn calls(&self) -> usize {
        self.calls.get()
    }

    fn count_call(&self) {
        self.calls.set(self.calls.get().wrapping_add(1));
    }
}

impl<'a, T: TypeTable> TypeTable for Counting<'a, T> {
    ghost meaning = { λ t. T.meaning t.table.now };

    fn count(&self) -> u32 {
        self.count_call();
        self.table.count()
    }

    fn head(&self, id: u32) -> Head<'_> {
        self.count_call();
        self.table.head(id)
    }

    fn item_count(&self, id: u32) -> u32 {
        self.count_call();
        self.table.item_count(id)
    }

    fn item(&self, id: u32, k: u32) -> Item<'_> {
        self.count_call();
        self.table.item(id, k)
    }
}
