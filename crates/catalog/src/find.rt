//! Rows by number. What is found is said of the blobs of any store: g says what blob a row stands for.
ghost use Rattle.std.specs.Prelude.{◌≡◌, ◌≤◌};
ghost use Rattle.store.specs.Disk.{Blob, at_or_above, at_or_below};
ghost use Rattle.store.specs.Place.{Sought};
ghost use Rattle.catalog.specs.Rows.{numbers_of};
ghost use Rattle.catalog.specs.Blobs.{live, blobs_by};
ghost use Rattle.catalog.specs.Found.{FoundAt};
ghost use Rattle.catalog.specs.declared.row.Row.{Row as ARow};

use crate::row::Row;
use crate::table::Table;

impl Table {
    // The rows in use.
    fn live(&self) -> &[Row]
        ensures { result.now ≡ live self.now }
    {
        &self.rows[..self.count]
    }

    /// The first place whose number is not below b. The first 16 rows are looked at one by one, since few blobs is the usual case; the others are halved.
    pub fn seek(&self, b: u64) -> usize
        ensures within { result ≤ self.now.count }
        ensures place { Sought b (numbers_of (live self.now)) result }
    {
        let rows = self.live();
        let near = rows.len().min(16);
        match rows[..near].iter().position(|row| row.number >= b) {
            Some(i) => i,
            None => near + rows[near..].partition_point(|row| row.number < b),
        }
    }

    /// The place of the blob with this number.
    pub fn find(&self, b: u64) -> Option<usize>
        ensures { FoundAt b self.now result }
    {
        let i = self.seek(b);
        let row = self.live().get(i)?;
        (row.number == b).then_some(i)
    }

    /// The lowest number at or above b.
    pub fn above(&self, b: u64) -> Option<u64>
        ensures { (g : ARow → Blob) → result ≡ at_or_above b (blobs_by g self.now) }
    {
        let row = self.live().get(self.seek(b))?;
        Some(row.number)
    }

    /// The highest number at or below b: b itself, or the number before its place.
    pub fn below(&self, b: u64) -> Option<u64>
        ensures { (g : ARow → Blob) → result ≡ at_or_below b (blobs_by g self.now) }
    {
        let i = self.seek(b);
        match self.live().get(i) {
            Some(row) if row.number == b => Some(b),
            _ => {
                let last = i.checked_sub(1)?;
                Some(self.rows[last].number)
            }
        }
    }
}
