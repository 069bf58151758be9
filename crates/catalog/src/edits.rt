//! A row changed, a row more, and a row less.
ghost use Rattle.std.specs.Prelude.{◌≡◌, ℕ, suc, ◌+◌, ◌-◌, ◌<◌, ◌≤◌, ◌∷◌, ◌++◌, length, take, drop, ◌≢◌, slice_set};
ghost use Rattle.std.specs.List.{insert, remove};
ghost use Rattle.store.specs.Place.{Sought};
ghost use Rattle.catalog.specs.Rows.{numbers_of, fresh_row, Ordered};
ghost use Rattle.catalog.specs.Blobs.{live, row_at};

use crate::row::Row;
use crate::table::Table;

// Puts a row first and moves the others up by one, over the last.
fn shift_in(rows: &mut [Row], row: Row)
    requires { 0 < length rows.old }
    ensures { rows.new ≡ row ∷ take (length rows.old - 1) rows.old }
{
    rows.rotate_right(1);
    rows[0] = row;
}

impl Table {
    /// Changes a row in use, but for its number.
    pub fn change(&mut self, i: usize, row: Row)
        requires within { i < self.old.count }
        requires same { row.number ≡ (row_at self.old i).number }
        requires ordered { Ordered row }
        ensures rows { self.new.rows ≡ slice_set self.old.rows i row }
        ensures count { self.new.count ≡ self.old.count }
    {
        self.rows[i] = row;
    }

    /// A row for a new blob, at its place i among the rows in use. The first free row is overwritten.
    pub fn insert(&mut self, i: usize, b: u64, place: usize)
        requires few { self.old.count < 64 }
        requires within { i ≤ self.old.count }
        requires sought { Sought b (numbers_of (live self.old)) i }
        requires fresh { i < self.old.count → (row_at self.old i).number ≢ b }
        ensures count { self.new.count ≡ self.old.count + 1 }
        ensures rows { self.new.rows ≡ insert (live self.old) i (fresh_row b place) ++ drop (suc self.old.count) self.old.rows }
    {
        let end = self.count + 1;
        shift_in(
            &mut self.rows[i..end],
            Row {
                number: b,
                place,
                tail: place,
                len: 0,
                sound: 0,
                safe: 0,
            },
        );
        self.count = end;
    }

    /// The row at i becomes the first free row.
    pub fn remove(&mut self, i: usize)
        requires { i < self.old.count }
        ensures count { self.new.count ≡ self.old.count - 1 }
        ensures rows { self.new.rows ≡ remove (live self.old) i ++ row_at self.old i ∷ drop self.old.count self.old.rows }
    {
        self.rows[i..self.count].rotate_left(1);
        self.count -= 1;
    }
}
