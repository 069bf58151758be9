//! Reads of a log. They change nothing.
ghost use Rattle.std.specs.Prelude.{[], ◌∷◌};
ghost use Rattle.rules.specs.Reads.{reading};
ghost use Rattle.rules.specs.Reads.{read_rule as rule_of_read};
ghost use Rattle.journal.specs.Configs.{ruled};
ghost use Rattle.journal.specs.Reading.{ReadOne};

use crate::fault::Fault;
use crate::log::Log;
use crate::steps;
use record::record::Record;
use store::store::Store;

impl<P, S: Store, K: Record> Log<P, S, K> {
    // Through bytes on the stack, as many as a record has, since the journal uses no heap.
    fn read_record(&self, position: u64) -> Result<K, Fault>
        ensures { ReadOne (reading K.decode (ruled self.now.config) self.now.held.start (S.view self.now.store) (position ∷ [])) result }
    {
        let config = self.config;
        let at = config.offset_of(self.held.start, position);
        let mut buffer = [0u8; 4096];
        let bytes = &mut buffer[..config.size as usize];
        steps::read(&self.store, config.blob_of(position), at, bytes)?;
        K::read(bytes).ok_or(Fault::Codec(position))
    }

    /// A position outside the log is refused first.
    pub fn read(&self, position: u64) -> Result<K, Fault>
        ensures { ReadOne (rule_of_read K.decode (ruled self.now.config) self.now.held.start self.now.held.end (S.view self.now.store) position) result }
    {
        if position >= self.held.end {
            return Err(Fault::ItemOutOfRange(position));
        }
        if position < self.held.start {
            return Err(Fault::ItemPruned(position));
        }
        self.read_record(position)
    }
}
