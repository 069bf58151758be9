//! Where a log starts.
ghost use Rattle.journal.specs.Configs.{ruled};
ghost use Rattle.journal.specs.Recovery.{First, Starts};

use crate::config::Config;
use crate::fault::{Corrupt, Fault};
use std::cmp::Ordering;

/// A blob's first position, or 0 where there is no blob. Here one that does not fit is refused; the rules let others saturate.
pub fn first_position(config: Config, blob: Option<u64>) -> Result<u64, Fault>
    ensures { First (ruled config) blob result }
{
    blob.unwrap_or(0)
        .checked_mul(config.records)
        .ok_or(Fault::OffsetOverflow)
}

/// A hint inside the lowest blob is the start, and a lower one is ignored.
#[tactic(auto, using(crate::proofs::Starting::start_over))]
pub fn recover_pruning_boundary(
    config: Config,
    hint: Option<u64>,
    lowest: Option<u64>,
) -> Result<u64, Fault>
    ensures { Starts (ruled config) hint lowest result }
{
    let first = first_position(config, lowest)?;
    let Some(hint) = hint else {
        return Ok(first);
    };
    if config.is_aligned(hint) {
        return Ok(first);
    }
    let lowest = lowest.ok_or(Fault::Corruption(Corrupt::HintWithoutBlobs))?;
    match config.blob_of(hint).cmp(&lowest) {
        Ordering::Less => Ok(first),
        Ordering::Equal => Ok(hint),
        Ordering::Greater => Err(Fault::Corruption(Corrupt::HintNewer)),
    }
}
