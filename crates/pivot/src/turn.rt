// A pivot that is asked for, with the entries that it turns.
ghost use Rattle.std.specs.Prelude.{◌≡◌, ◌<◌};
ghost use Rattle.layout.specs.Layout.{entry_in};
ghost use Rattle.pivot.specs.Asked.{Able, pivot_for, product_for};

use crate::asked::Asked;
use layout::{ColumnPlace, MOST_ENTRIES, RowPlace};

#[derive(Clone, Copy)]
pub struct Turn<'a> {
    pub entries: &'a [i32; MOST_ENTRIES],
    pub asked: Asked,
    ghost able: { Able entries.now asked },
}

impl Turn<'_> {
    // The entry of a row place and a column place.
    pub fn entry_at(self, row: RowPlace, column: ColumnPlace) -> i32
        requires { (row.0 < self.asked.rows) × (column.0 < self.asked.columns) }
        ensures { result
            ≡ entry_in self.entry.asked.rows self.entry.asked.columns self.entry.entries.now row.0 column.0 }
    {
        self.entries[layout::place(self.asked.rows, self.asked.columns, row, column)]
    }

    // The pivot.
    pub fn pivot(self) -> i32
        ensures { result ≡ pivot_for self.entry.entries.now self.entry.asked }
    {
        self.entry_at(self.asked.spot.row, self.asked.spot.column)
    }

    // The common number after the pivot, before reduction.
    pub fn product(self) -> i64
        ensures { result ≡ product_for self.entry.entries.now self.entry.asked }
    {
        self.pivot() as i64 * self.asked.common as i64
    }
}
