//! The questions that the catalog answers.
ghost use Rattle.std.specs.Prelude.{◌≡◌};
ghost use Rattle.store.specs.Ask.{above_of, below_of, length_of, scan_of, key_of};
ghost use Rattle.catalog.specs.Found.{FoundOr};
ghost use Rattle.catalog.specs.Seen.{InEach};

use crate::catalog::Catalog;
use store::cause::Cause;
use store::keys::Key;

impl Catalog {
    /// The place of the row with this number.
    pub fn find(&self, b: u64) -> Result<usize, Cause>
        ensures { FoundOr b self.now.table result }
    {
        self.table.find(b).ok_or(Cause::Missing)
    }

    /// The lowest number at or above b.
    pub fn at_or_above(&self, b: u64) -> Result<Option<u64>, Cause>
        ensures { InEach self.now (λ v. result ≡ above_of v b) }
    {
        self.ask()?;
        Ok(self.table.above(b))
    }

    /// The highest number at or below b.
    pub fn at_or_below(&self, b: u64) -> Result<Option<u64>, Cause>
        ensures { InEach self.now (λ v. result ≡ below_of v b) }
    {
        self.ask()?;
        Ok(self.table.below(b))
    }

    pub fn len(&self, b: u64) -> Result<u64, Cause>
        ensures { InEach self.now (λ v. result ≡ length_of v b) }
    {
        self.ask()?;
        let i = self.find(b)?;
        Ok(self.table.rows[i].len as u64)
    }

    /// The smaller of the sound length and a limit.
    pub fn scan(&self, b: u64, limit: u64) -> Result<u64, Cause>
        ensures { InEach self.now (λ v. result ≡ scan_of v b limit) }
    {
        self.ask()?;
        let i = self.find(b)?;
        Ok((self.table.rows[i].sound as u64).min(limit))
    }

    pub fn key(&self, k: Key) -> Result<Option<u64>, Cause>
        ensures { InEach self.now (λ v. result ≡ key_of v k) }
    {
        self.ask()?;
        Ok(self.present.get(k))
    }
}
