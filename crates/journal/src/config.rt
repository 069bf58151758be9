//! What a log is configured with, and where its positions are.
ghost use Rattle.std.specs.Prelude.{◌≡◌, ◌-◌, ◌*◌, ◌<◌, ◌≤◌, min};

use record::record::Record;
use store::config::BadConfig;

/// Records to a blob, the page, and a record's bytes: none is zero, and a record has at most 4,096 bytes.
#[derive(Clone, Copy)]
pub struct Config {
    pub(crate) records: u64,
    pub(crate) page: u16,
    pub(crate) size: u64,
    ghost ok: { (0 < records) × (0 < page) × (0 < size) × (size ≤ 4096) },
}

impl Config {
    ghost use Rattle.rules.specs.Rules.{MAX, aligned, blob_of, first_in};
    ghost use Rattle.rules.specs.Open.{round_up};
    ghost use Rattle.journal.specs.Configs.{Checked, ruled};

    /// For records of the kind K.
    pub fn new<K: Record>(records: u64, page: u16) -> Result<Config, BadConfig>
        ensures { Checked (record { n = records; page = page; z = K.Record.size }) result }
    {
        let size = K::size() as u64;
        if records == 0 || page == 0 || size == 0 || size > 4096 {
            return Err(BadConfig);
        }
        Ok(Config {
            records,
            page,
            size,
        })
    }

    // The blob that a position is in.
    pub(crate) fn blob_of(self, position: u64) -> u64
        ensures { result ≡ blob_of (ruled self) position }
    {
        position / self.records
    }

    // Whether a position is the first of its blob.
    pub(crate) fn is_aligned(self, position: u64) -> bool
        ensures { result ≡ aligned (ruled self) position }
    {
        position % self.records == 0
    }

    // The first position of the position's blob that a log from start on has.
    pub(crate) fn first_beside(self, start: u64, position: u64) -> u64
        ensures { result ≡ first_in (ruled self) start (blob_of (ruled self) position) }
    {
        start.max(position / self.records * self.records)
    }

    // How many bytes of its blob come before the position, or the largest number if there are more.
    pub(crate) fn offset_of(self, start: u64, position: u64) -> u64
        ensures { result ≡ min ((position - first_in (ruled self) start (blob_of (ruled self) position)) * self.size) MAX }
    {
        position
            .saturating_sub(self.first_beside(start, position))
            .saturating_mul(self.size)
    }

    // So many bytes, up to whole pages.
    #[tactic(auto, using(crate::proofs::Starting::ceil))]
    pub(crate) fn round_up(self, bytes: u64) -> u64
        ensures { result ≡ round_up self.page bytes }
    {
        let page = u64::from(self.page);
        bytes.div_ceil(page).saturating_mul(page)
    }
}
