//! Where the bytes of a store's blobs stand.
ghost use Rattle.std.specs.Prelude.{◌≡◌, ◌+◌, ◌-◌, ◌<◌, ◌≤◌, [], ◌++◌, length, take, drop, replicate, MatchResult};
ghost use Rattle.std.specs.Option.{ForSome};
ghost use Rattle.catalog.specs.Blobs.{row_at};
ghost use Rattle.built.specs.Layout.{Layout};
ghost use Rattle.built.specs.Recast.{len_at, bytes_at, Comes, Recast};
ghost use Rattle.built.specs.Laws.{Laws};

use catalog::row::Row;
use catalog::table::Table;
use store::config::BadConfig;

/// A memory, and how it is cut among the rows of a table. A row is named by its place in the table lent with it, since it is in use
/// only in the table of the moment.
pub trait Medium: Drop {
    ghost layout: { Layout Self };

    /// Tells whether a memory is fit.
    fn check(memory: &Vec<u8>) -> Result<(), BadConfig>
        ensures { MatchResult result (λ _. layout.Fit memory.now) (λ _. layout.Fit memory.now → ⊥) };

    /// A medium of any memory, fit or not, and a table with no row in use.
    fn lay_out(memory: Vec<u8>) -> (Self, Table)
        ensures laid { layout.Laid memory result.0 }
        ensures holds { layout.Holds result.0 result.1 }
        ensures empty { result.1.count ≡ 0 };

    fn into_memory(self) -> Vec<u8>
        ensures { result ≡ layout.memory self };

    /// The place for the next new blob.
    fn place(&self, table: &Table) -> usize
        requires holds { layout.Holds self.now table.now }
        requires few { table.now.count < 64 }
        ensures { Comes layout self.now table.now result };

    /// How many bytes the blob of a row can come to have; without a row, a new blob.
    fn limit(&self, table: &Table, i: Option<usize>) -> usize
        requires holds { layout.Holds self.now table.now }
        requires within { ForSome i (λ k. k < table.now.count) }
        ensures { result ≡ layout.limit self.now (len_at table.now i) };

    /// Copies bytes of a blob out, from `at` on.
    fn read(&self, table: &Table, i: usize, at: usize, out: &mut [u8])
        requires holds { layout.Holds self.now table.now }
        requires within { i < table.now.count }
        requires fits { at + length out.old ≤ (row_at table.now i).len }
        ensures { out.new ≡ take (length out.old) (drop at (bytes_at layout self.now table.now i)) };

    /// The first `keep` bytes of a blob stay, and the others give way to these. Its row is handed back as its bytes stand now,
    /// with the lengths that it had.
    fn recast(&mut self, table: &Table, i: usize, keep: usize, bytes: &[u8]) -> Row
        requires holds { layout.Holds self.old table.now }
        requires within { i < table.now.count }
        requires kept { keep ≤ (row_at table.now i).len }
        requires fits { keep + length bytes.now ≤ layout.limit self.old (row_at table.now i).len }
        ensures recast { Recast layout self.old table.now i (keep + length bytes.now) (take keep (bytes_at layout self.old table.now i) ++ bytes.now) self.new result }
        ensures dropped { bytes.now ≡ [] → layout.Dropped self.old self.new };

    /// Every byte of a blob from `from` on becomes one value.
    fn blot(&mut self, table: &Table, i: usize, from: usize, value: u8)
        requires holds { layout.Holds self.old table.now }
        requires within { i < table.now.count }
        requires starts { from ≤ (row_at table.now i).len }
        ensures { Recast layout self.old table.now i (row_at table.now i).len (take from (bytes_at layout self.old table.now i) ++ replicate ((row_at table.now i).len - from) value) self.new (row_at table.now i) };

    ghost lawful: { Laws layout };
}
