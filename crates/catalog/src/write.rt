//! The writing calls that leave every byte where it is. Each sees first to the power, then to the other causes.
ghost use Rattle.std.specs.Prelude.{◌≡◌};
ghost use Rattle.store.specs.Disk.{Sync, Put, DropKey, SyncKeys};
ghost use Rattle.catalog.specs.Blobs.{SameRows};
ghost use Rattle.catalog.specs.Seen.{Called, KeySet};

use crate::catalog::Catalog;
use store::cause::Cause;
use store::keys::Key;

impl Catalog {
    pub fn sync(&mut self, b: u64) -> Result<(), Cause>
        ensures called { Called (Sync b) self.old result self.new }
        ensures rows { SameRows self.old.table self.new.table }
    {
        self.begin()?;
        let i = self.find(b)?;
        let row = self.table.rows[i];
        self.table.change(i, row.synced());
        self.finish()
    }

    pub fn put(&mut self, k: Key, v: u64) -> Result<(), Cause>
        ensures called { Called (Put k v) self.old result self.new }
        ensures table { self.new.table ≡ self.old.table }
    {
        self.begin()?;
        self.present = self.present.with(k, Some(v));
        self.finish()
    }

    pub fn drop_key(&mut self, k: Key) -> Result<(), Cause>
        ensures called { Called (DropKey k) self.old result self.new }
        ensures table { self.new.table ≡ self.old.table }
    {
        self.begin()?;
        self.present = self.present.with(k, None);
        self.finish()
    }

    pub fn sync_keys(&mut self) -> Result<(), Cause>
        ensures called { Called SyncKeys self.old result self.new }
        ensures table { self.new.table ≡ self.old.table }
    {
        self.begin()?;
        self.saved = self.present;
        self.finish()
    }

    /// Sets a key as it is present and as it is saved, up or down, and counts no call.
    pub fn set_key(&mut self, k: Key, present: Option<u64>, saved: Option<u64>)
        ensures { KeySet self.old k present saved self.new }
    {
        self.present = self.present.with(k, present);
        self.saved = self.saved.with(k, saved);
    }
}
