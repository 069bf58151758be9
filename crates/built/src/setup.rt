//! A store set up with given contents, as a recovered image or a comparison needs it.
ghost use Rattle.std.specs.Prelude.{◌≡◌};
ghost use Rattle.store.specs.Built.{BlobSet, KeySet};
ghost use Rattle.built.specs.Seen.{seen};
ghost use Rattle.built.specs.Untouched.{Untouched};

use crate::built::Built;
use crate::medium::Medium;
use catalog::row::Row;
use store::cause::Cause;
use store::keys::Key;

impl<M: Medium> Built<M> {
    /// Gives blob b these bytes, of which so many are sound and safe; it need not be there before. No writing call, up or down:
    /// it is refused if the lengths are out of order, or if the bytes or a new blob find no room.
    pub fn set_blob(&mut self, b: u64, bytes: &[u8], sound: usize, safe: usize) -> Result<(), Cause>
        ensures set { BlobSet b (record { bytes = bytes.entry.now; sound = sound; safe = safe }) (seen self.old) result (seen self.new) }
        ensures power { self.new.catalog.power ≡ self.old.catalog.power }
        ensures memory { Untouched b self.new self.old }
    {
        if safe > sound || sound > bytes.len() {
            return Err(Cause::Range);
        }
        let i = self.catalog.table.find(b);
        if bytes.len() > self.medium.limit(&self.catalog.table, i) {
            return Err(Cause::NoRoom);
        }
        let i = self.make(b)?;
        let len = bytes.len();
        let row = Row {
            len,
            sound,
            safe,
            ..self.catalog.table.rows[i]
        };
        self.rewrite(i, 0, bytes, row);
        Ok(())
    }

    /// Sets a key as it is present and as it is saved.
    pub fn set_key(&mut self, k: Key, present: Option<u64>, saved: Option<u64>)
        ensures set { KeySet k present saved (seen self.old) (seen self.new) }
        ensures power { self.new.catalog.power ≡ self.old.catalog.power }
        ensures medium { self.new.medium ≡ self.old.medium }
    {
        self.catalog.set_key(k, present, saved);
    }
}
