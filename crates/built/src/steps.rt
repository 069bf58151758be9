//! The steps that calls share.
ghost use Rattle.std.specs.Prelude.{◌≡◌, ◌+◌, ◌^◌, ◌<◌, ◌≤◌, [], ◌++◌, length, take};
ghost use Rattle.catalog.specs.Rows.{Ordered};
ghost use Rattle.built.specs.Seen.{row_at, blob_in};
ghost use Rattle.built.specs.Calls.{Begun, MadeRow};
ghost use Rattle.built.specs.Rewritten.{Rewritten};

use crate::built::Built;
use crate::medium::Medium;
use catalog::row::Row;
use store::cause::Cause;

impl<M: Medium> Built<M> {
    // Every writing call sees first to the power.
    pub(crate) fn begin(&mut self) -> Result<(), Cause>
        ensures { Begun self.old result self.new }
    {
        self.catalog.begin()
    }

    pub(crate) fn row(&self, i: usize) -> Row
        requires { i < self.now.catalog.table.count }
        ensures is { result ≡ row_at self.now i }
        ensures ordered { Ordered result }
        ensures within { result.len ≤ M.layout.limit self.now.medium result.len }
    {
        self.catalog.table.rows[i]
    }

    // How many bytes more the blob of row i takes.
    pub(crate) fn room_at(&self, i: usize) -> usize
        requires { i < self.now.catalog.table.count }
        ensures room { result + (row_at self.now i).len ≡ M.layout.limit self.now.medium (row_at self.now i).len }
        ensures fits { result + (row_at self.now i).len < 2 ^ 64 }
    {
        self.medium.limit(&self.catalog.table, Some(i)) - self.row(i).len
    }

    // Sees that blob b has a row. A new one is empty.
    pub(crate) fn make(&mut self, b: u64) -> Result<usize, Cause>
        ensures { MadeRow b self.old result self.new }
    {
        let i = self.catalog.table.seek(b);
        if i < self.catalog.table.count && self.catalog.table.rows[i].number == b {
            return Ok(i);
        }
        if self.catalog.table.count == 64 {
            return Err(Cause::NoRoom);
        }
        let place = self.medium.place(&self.catalog.table);
        self.catalog.table.insert(i, b, place);
        Ok(i)
    }

    // The blob of row i has its first `keep` bytes and these now, and the lengths of `row`.
    pub(crate) fn rewrite(&mut self, i: usize, keep: usize, bytes: &[u8], row: Row)
        requires within { i < self.old.catalog.table.count }
        requires number { row.number ≡ (row_at self.old i).number }
        requires ordered { Ordered row }
        requires len { row.len ≡ keep + length bytes.now }
        requires kept { keep ≤ (row_at self.old i).len }
        requires fits { keep + length bytes.now ≤ M.layout.limit self.old.medium (row_at self.old i).len }
        ensures rewritten { Rewritten i (record { bytes = take keep (blob_in self.old (row_at self.old i)).bytes ++ bytes.now; sound = row.sound; safe = row.safe }) self.old self.new }
        ensures dropped { bytes.now ≡ [] → M.layout.Dropped self.old.medium self.new.medium }
    {
        let at = self.medium.recast(&self.catalog.table, i, keep, bytes);
        self.catalog.table.change(
            i,
            Row {
                place: at.place,
                tail: at.tail,
                ..row
            },
        );
    }
}
