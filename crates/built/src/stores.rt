//! The built store is a store. Each writing call sees first to the power, then to the other causes, and then writes.
ghost use Rattle.std.specs.Prelude.{◌≡◌, ℕ};
ghost use Rattle.store.specs.Disk.{Restarted, Open, Append, Truncate, Sync, Remove, Put, DropKey, SyncKeys};
ghost use Rattle.store.specs.Left.{left};
ghost use Rattle.catalog.specs.Seen.{calls_left};
ghost use Rattle.catalog.proofs.Stored.{stored_lawful};
ghost use Rattle.built.specs.Seen.{content_of, room_in, blobs, seen};
ghost use Rattle.built.specs.Calls.{Called};
ghost use Rattle.built.specs.Untouched.{UntouchedBut, Untouched};

use crate::built::Built;
use crate::medium::Medium;
use store::cause::Cause;
use store::keys::Key;
use store::restart::Restart;
use store::store::Store;

impl<M: Medium> Store for Built<M> {
    ghost view = { seen };

    ghost lawful = { λ s. stored_lawful (content_of s) (room_in s) s.catalog (M.lawful.stands s.medium s.catalog.table s.held) };

    fn at_or_above(&self, b: u64) -> Result<Option<u64>, Cause> {
        self.catalog.at_or_above(b)
    }

    fn at_or_below(&self, b: u64) -> Result<Option<u64>, Cause> {
        self.catalog.at_or_below(b)
    }

    fn len(&self, b: u64) -> Result<u64, Cause> {
        self.catalog.len(b)
    }

    fn room(&self, b: u64) -> Result<u64, Cause> {
        self.catalog.ask()?;
        let i = self.catalog.find(b)?;
        Ok(self.room_at(i) as u64)
    }

    fn key(&self, k: Key) -> Result<Option<u64>, Cause> {
        self.catalog.key(k)
    }

    fn scan(&self, b: u64, limit: u64) -> Result<u64, Cause> {
        self.catalog.scan(b, limit)
    }

    fn read(&self, b: u64, at: u64, out: &mut [u8]) -> Result<(), Cause> {
        self.catalog.ask()?;
        let i = self.catalog.find(b)?;
        let row = self.catalog.table.rows[i];
        let n = out.len();
        if at > row.len as u64 || n > row.len - at as usize {
            return Err(Cause::Range);
        }
        let from = at as usize;
        if from + n > row.sound {
            return Err(Cause::Torn);
        }
        self.medium.read(&self.catalog.table, i, from, out);
        Ok(())
    }

    // A blob that is there stays as it is; a new one is empty.
    fn open(&mut self, b: u64) -> Result<(), Cause>
        ensures called { Called (Open b) self.old result self.new }
        ensures medium { self.new.medium ≡ self.old.medium }
    {
        self.begin()?;
        self.make(b)?;
        self.catalog.finish()
    }

    fn append(&mut self, b: u64, bytes: &[u8]) -> Result<(), Cause>
        ensures called { Called (Append b bytes.now) self.old result self.new }
        ensures memory { Untouched b self.old self.new }
    {
        self.begin()?;
        let i = self.catalog.find(b)?;
        if bytes.len() > self.room_at(i) {
            return Err(Cause::NoRoom);
        }
        let row = self.catalog.table.rows[i];
        self.rewrite(i, row.len, bytes, row.grown(bytes.len()));
        self.catalog.finish()
    }

    fn truncate(&mut self, b: u64, n: u64) -> Result<(), Cause>
        ensures called { Called (Truncate b n) self.old result self.new }
        ensures memory { Untouched b self.old self.new }
        ensures dropped { M.layout.Dropped self.old.medium self.new.medium }
    {
        self.begin()?;
        let i = self.catalog.find(b)?;
        let row = self.catalog.table.rows[i];
        if n > row.len as u64 {
            return Err(Cause::Range);
        }
        self.rewrite(i, n as usize, &[], row.cut(n as usize));
        self.catalog.finish()
    }

    fn sync(&mut self, b: u64) -> Result<(), Cause>
        ensures called { Called (Sync b) self.old result self.new }
        ensures medium { self.new.medium ≡ self.old.medium }
    {
        self.catalog.sync(b)
    }

    fn remove(&mut self, b: u64) -> Result<(), Cause>
        ensures called { Called (Remove b) self.old result self.new }
        ensures memory { Untouched b self.old self.new }
        ensures dropped { M.layout.Dropped self.old.medium self.new.medium }
    {
        self.begin()?;
        let i = self.catalog.find(b)?;
        self.medium.recast(&self.catalog.table, i, 0, &[]);
        self.catalog.table.remove(i);
        self.catalog.finish()
    }

    fn put(&mut self, k: Key, v: u64) -> Result<(), Cause>
        ensures called { Called (Put k v) self.old result self.new }
        ensures medium { self.new.medium ≡ self.old.medium }
    {
        self.catalog.put(k, v)
    }

    fn drop_key(&mut self, k: Key) -> Result<(), Cause>
        ensures called { Called (DropKey k) self.old result self.new }
        ensures medium { self.new.medium ≡ self.old.medium }
    {
        self.catalog.drop_key(k)
    }

    fn sync_keys(&mut self) -> Result<(), Cause>
        ensures called { Called SyncKeys self.old result self.new }
        ensures medium { self.new.medium ≡ self.old.medium }
    {
        self.catalog.sync_keys()
    }

    // The power is back. Of each blob as much stays as `how` says, and every piece of the memory that is neither in a blob nor free stays.
    fn restart(&mut self, how: Restart)
        ensures restarted { Restarted (seen self.old) (seen self.new) }
        ensures left { blobs self.new ≡ left how (blobs self.old) }
        ensures calls { calls_left self.new.catalog ≡ how.calls }
        ensures memory { UntouchedBut (λ _. Unit {0}) self.old self.new }
    {
        // By place: each row is settled together with the memory, which an iterator over the rows would not lend.
        for i in 0..self.catalog.table.count {
            self.settle(i, how);
        }
        self.catalog.revive(how.calls);
    }
}
