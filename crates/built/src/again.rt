//! What a restart leaves.
ghost use Rattle.std.specs.Prelude.{◌≡◌, ◌<◌};
ghost use Rattle.store.specs.Left.{left_of};
ghost use Rattle.built.specs.Seen.{row_at, blob_in};
ghost use Rattle.built.specs.Rewritten.{Rewritten};

use crate::built::Built;
use crate::medium::Medium;
use catalog::row::Row;
use store::restart::{Past, Restart};

impl<M: Medium> Built<M> {
    // What the restart leaves of the blob of row i.
    pub(crate) fn settle(&mut self, i: usize, how: Restart)
        requires { i < self.old.catalog.table.count }
        ensures { Rewritten i (left_of how (blob_in self.old (row_at self.old i))) self.old self.new }
    {
        let row = self.row(i);
        let sound = row.safe + (row.sound - row.safe).min(how.keep as usize);
        match how.past {
            Past::Cut => self.rewrite(i, sound, &[], row.cut(sound)),
            Past::Fill(value) => {
                self.medium.blot(&self.catalog.table, i, sound, value);
                self.catalog.table.change(
                    i,
                    Row {
                        sound,
                        safe: sound,
                        ..row
                    },
                );
            }
        }
    }
}
