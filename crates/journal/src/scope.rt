//! What a log is opened by, and what follows from it.
ghost use Rattle.std.specs.Prelude.{◌≡◌, ◌/◌, min, ◌&&◌, is_some, ◌==◌, nat_le};
ghost use Rattle.std.specs.Option.{unwrap_or};
ghost use Rattle.rules.specs.Open.{acknowledged, edge_at, needed, or_max, stands, weigh};
ghost use Rattle.journal.specs.Configs.{ruled};
ghost use Rattle.journal.specs.Logs.{edge_of};
ghost use Rattle.journal.specs.Recovery.{Owed, Reaches, Settles, limit_for};

use crate::config::Config;
use crate::fault::{Corrupt, Fault};
use crate::log::Held;

/// From start on, up to a ceiling if there is one.
#[derive(Clone, Copy)]
pub struct Scope {
    pub config: Config,
    pub start: u64,
    pub ceiling: Option<u64>,
}

impl Scope {
    // No position from here on is asked for.
    fn top(self) -> u64
        ensures { result ≡ or_max self.ceiling }
    {
        self.ceiling.unwrap_or(u64::MAX)
    }

    /// The ceiling may not be below the start.
    pub fn reach(self) -> Result<(), Fault>
        ensures { Reaches self.start self.ceiling result }
    {
        match self.ceiling {
            Some(ceiling) if ceiling < self.start => Err(Fault::ItemPruned(ceiling)),
            _ => Ok(()),
        }
    }

    /// The lowest blob that the ceiling sets aside.
    #[tactic(auto, using(crate::proofs::Starting::ceil))]
    pub fn edge(self) -> Option<u64>
        ensures { edge_of result ≡ edge_at (ruled self.config) self.start self.ceiling }
    {
        let ceiling = self.ceiling?;
        if ceiling <= self.start {
            return Some(0);
        }
        Some(ceiling.div_ceil(self.config.records))
    }

    // How many records the ceiling leaves in a blob.
    fn needed(self, b: u64) -> u64
        ensures { result ≡ needed (ruled self.config) self.start self.ceiling b }
    {
        let records = self.config.records;
        let first = self.start.max(b.saturating_mul(records));
        records.min(self.top().saturating_sub(first))
    }

    /// How many bytes of a suspect of so many are scanned.
    pub fn limit_of(self, b: u64, len: u64) -> u64
        ensures { result ≡ limit_for (ruled self.config) self.start self.ceiling b len }
    {
        if self.ceiling.is_none() {
            return len;
        }
        let bytes = self.needed(b).saturating_mul(self.config.size);
        len.min(self.config.round_up(bytes))
    }

    /// Under a ceiling, a scan that met its limit and holds the records that are needed.
    pub fn holds(self, b: u64, scanned: u64, limit: u64) -> bool
        ensures { result ≡ (is_some self.ceiling && (scanned == limit && nat_le (needed (ruled self.config) self.start self.ceiling b) (scanned / self.config.size))) }
    {
        self.ceiling.is_some() && scanned == limit && self.needed(b) <= scanned / self.config.size
    }

    /// The acknowledged positions end here.
    pub fn floor(self, mark: Option<u64>) -> u64
        ensures { result ≡ min (unwrap_or mark 0) (or_max self.ceiling) }
    {
        mark.unwrap_or(0).min(self.top())
    }

    /// The bytes below the floor, in the floor's blob.
    pub fn acknowledged(self, floor: u64, b: u64) -> Result<u64, Fault>
        ensures { Owed (acknowledged (ruled self.config) self.start floor b) result }
    {
        if b != self.config.blob_of(floor) {
            return Ok(0);
        }
        floor
            .saturating_sub(self.config.first_beside(self.start, floor))
            .checked_mul(self.config.size)
            .ok_or(Fault::OffsetOverflow)
    }

    /// The watermark is weighed against the size that the walk found, and whether there are blobs beyond. The walk's answer is a pair,
    /// as in the Rust journal.
    #[tactic(auto, using(crate::proofs::Starting::weigh_gap))]
    pub fn weigh(self, mark: Option<u64>, walked: (u64, bool)) -> Result<Held, Fault>
        ensures { Settles (weigh (ruled self.config) self.start self.ceiling (edge_at (ruled self.config) self.start self.ceiling) mark (stands walked.0 walked.1)) result }
    {
        let (size, gap) = walked;
        let top = self.top();
        let mark = match mark {
            Some(mark) if size < mark.min(top) => {
                return Err(Fault::Corruption(Corrupt::Watermark));
            }
            None if gap => return Err(Fault::Corruption(Corrupt::Gap)),
            Some(mark) => mark.min(top),
            None => self.config.first_beside(self.start, size),
        };
        Ok(Held {
            start: self.start,
            end: size.min(top),
            mark,
            bounded: self.ceiling.is_some(),
            edge: self.edge(),
        })
    }
}
