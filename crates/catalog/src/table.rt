//! The first `count` rows are the blobs, by rising number. Of the other rows nothing is said: a store may keep free places there.
//! An array with its count, since a store has no heap but the memory that it owns.
ghost use Rattle.std.specs.Prelude.{◌≡◌, ◌^◌, ◌≤◌, length, take};
ghost use Rattle.store.specs.Laws.{Rising, Below};
ghost use Rattle.catalog.specs.Rows.{numbers_of, Ordered, Each};

use crate::row::Row;

#[derive(Clone, Copy)]
pub struct Table {
    pub rows: [Row; 64],
    pub count: usize,
    ghost long: { length rows ≡ 64 },
    ghost few: { count ≤ 64 },
    ghost rising: { Rising (numbers_of (take count rows)) },
    ghost fit: { Below (2 ^ 64) (numbers_of (take count rows)) },
    ghost ordered: { Each Ordered (take count rows) },
}
