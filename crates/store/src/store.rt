//! The store: questions, which change nothing, writing calls, and restart.
ghost use Rattle.std.specs.Prelude.{◌≡◌, length};
ghost use Rattle.store.specs.Ask.{CopiedOut};
ghost use Rattle.store.specs.Ask.{above_of, below_of, length_of, room_of, scan_of, key_of, read_of};
ghost use Rattle.store.specs.Disk.{View, Wrote, Restarted};
ghost use Rattle.store.specs.Disk.{Open, Append, Truncate, Sync, Remove, Put, DropKey, SyncKeys};
ghost use Rattle.store.specs.Laws.{Lawful};

use crate::cause::Cause;
use crate::keys::Key;
use crate::restart::Restart;

pub trait Store {
    ghost view: { Self → View };

    /// The lowest number at or above b.
    fn at_or_above(&self, b: u64) -> Result<Option<u64>, Cause>
        ensures { result ≡ above_of (view self.now) b };

    /// The highest number at or below b.
    fn at_or_below(&self, b: u64) -> Result<Option<u64>, Cause>
        ensures { result ≡ below_of (view self.now) b };

    fn len(&self, b: u64) -> Result<u64, Cause>
        ensures { result ≡ length_of (view self.now) b };

    fn room(&self, b: u64) -> Result<u64, Cause>
        ensures { result ≡ room_of (view self.now) b };

    fn key(&self, k: Key) -> Result<Option<u64>, Cause>
        ensures { result ≡ key_of (view self.now) k };

    /// The smaller of the sound length and a limit.
    fn scan(&self, b: u64, limit: u64) -> Result<u64, Cause>
        ensures { result ≡ scan_of (view self.now) b limit };

    /// As many bytes as out has, from `at` on.
    fn read(&self, b: u64, at: u64, out: &mut [u8]) -> Result<(), Cause>
        ensures { CopiedOut (read_of (view self.now) b at (length out.old)) out.old result out.new };

    fn open(&mut self, b: u64) -> Result<(), Cause>
        ensures { Wrote (Open b) (view self.old) result (view self.new) };

    fn append(&mut self, b: u64, bytes: &[u8]) -> Result<(), Cause>
        ensures { Wrote (Append b bytes.now) (view self.old) result (view self.new) };

    fn truncate(&mut self, b: u64, n: u64) -> Result<(), Cause>
        ensures { Wrote (Truncate b n) (view self.old) result (view self.new) };

    fn sync(&mut self, b: u64) -> Result<(), Cause>
        ensures { Wrote (Sync b) (view self.old) result (view self.new) };

    fn remove(&mut self, b: u64) -> Result<(), Cause>
        ensures { Wrote (Remove b) (view self.old) result (view self.new) };

    fn put(&mut self, k: Key, v: u64) -> Result<(), Cause>
        ensures { Wrote (Put k v) (view self.old) result (view self.new) };

    fn drop_key(&mut self, k: Key) -> Result<(), Cause>
        ensures { Wrote (DropKey k) (view self.old) result (view self.new) };

    fn sync_keys(&mut self) -> Result<(), Cause>
        ensures { Wrote SyncKeys (view self.old) result (view self.new) };

    fn restart(&mut self, how: Restart)
        ensures { Restarted (view self.old) (view self.new) };

    ghost lawful: { (s : Self) → Lawful (view s) };
}
