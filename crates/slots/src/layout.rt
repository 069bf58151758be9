//! How blobs stand in the parts.
ghost use Rattle.std.specs.Prelude.{◌≡◌, ◌+◌, ◌*◌, ◌<◌, ◌≤◌, vec_len};
ghost use Rattle.catalog.specs.Blobs.{row_at};
ghost use Rattle.catalog.specs.Rows.{places_of};
ghost use Rattle.slots.specs.Shares.{EachOnce};
ghost use Rattle.slots.specs.Layout.{layout, Holds};
ghost use Rattle.slots.specs.Laws.{laws};

use crate::parts::Parts;
use built::medium::Medium;
use catalog::row::Row;
use catalog::table::Table;
use octets::copies::{fill_at, read_at, write_at};
use std::array;
use store::config::BadConfig;

// No row in use, and part k in row k.
fn new_table() -> Table
    ensures count { result.count ≡ 0 }
    ensures parts { EachOnce (places_of result.rows) }
{
    let rows = array::from_fn(
        |k: usize| -> Row
            ensures { result.place ≡ k }
        {
            Row {
                place: k,
                ..Row::default()
            }
        },
    );
    Table { rows, count: 0 }
}

impl Parts {
    // Where the part of row i begins.
    fn start(&self, table: &Table, i: usize) -> usize
        requires holds { Holds self.now table.now }
        requires within { i < table.now.count }
        ensures is { result ≡ (row_at table.now i).place * self.now.each }
        ensures part { result + self.now.each ≤ vec_len self.now.memory }
        ensures len { (row_at table.now i).len ≤ self.now.each }
    {
        table.rows[i].place * self.each
    }
}

impl Medium for Parts {
    ghost layout = { layout };

    ghost lawful = { laws };

    // A memory is fit if each of the 64 parts has a byte at least.
    fn check(memory: &Vec<u8>) -> Result<(), BadConfig> {
        if memory.len() < 64 {
            return Err(BadConfig);
        }
        Ok(())
    }

    // In an unfit memory no blob has room.
    fn lay_out(memory: Vec<u8>) -> (Parts, Table) {
        let each = memory.len() / 64;
        (Parts { memory, each }, new_table())
    }

    fn into_memory(self) -> Vec<u8> {
        self.memory
    }

    fn place(&self, table: &Table) -> usize {
        table.rows[table.count].place
    }

    fn limit(&self, _table: &Table, _i: Option<usize>) -> usize {
        self.each
    }

    fn read(&self, table: &Table, i: usize, at: usize, out: &mut [u8]) {
        read_at(self.memory.as_slice(), self.start(table, i) + at, out);
    }

    // A blob never leaves its part.
    fn recast(&mut self, table: &Table, i: usize, keep: usize, bytes: &[u8]) -> Row {
        let row = table.rows[i];
        if bytes.is_empty() {
            return row;
        }
        let at = self.start(table, i) + keep;
        write_at(&mut self.memory, at, bytes);
        row
    }

    fn blot(&mut self, table: &Table, i: usize, from: usize, value: u8) {
        let row = table.rows[i];
        let at = self.start(table, i) + from;
        fill_at(&mut self.memory, at, row.len - from, value);
    }
}
