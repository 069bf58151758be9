//! The sectors hold the bytes of a built store.
ghost use Rattle.std.specs.Prelude.{◌≡◌};
ghost use Rattle.chains.specs.Cover.{usable};
ghost use Rattle.chains.specs.Layout.{in_sectors};
ghost use Rattle.chains.specs.Lawful.{lawful};

use crate::chains::Sectors;
use crate::steps::{chain_of, len_at, placed};
use built::medium::Medium;
use catalog::row::Row;
use catalog::table::Table;
use sectors::append::{needed, recast};
use sectors::chain::Chain;
use sectors::payloads::{fill, read};
use sectors::set_up::link_all;
use store::config::BadConfig;

// How many of n sectors are put to use.
fn in_use(n: usize) -> usize
    ensures { result ≡ usable n }
{
    if (2..=65536).contains(&n) { n } else { 0 }
}

impl Medium for Sectors {
    ghost layout = { in_sectors };

    ghost lawful = { lawful };

    // A memory is fit if it has 2 to 65,536 sectors.
    fn check(memory: &Vec<u8>) -> Result<(), BadConfig> {
        let n = memory.len() / 64;
        if !(2..=65536).contains(&n) {
            return Err(BadConfig);
        }
        Ok(())
    }

    // On an unfit memory no blob has room. Only the next numbers of the sectors in use are written.
    fn lay_out(mut memory: Vec<u8>) -> (Sectors, Table) {
        let sectors = in_use(memory.len() / 64);
        let free = link_all(memory.as_mut_slice(), sectors);
        let medium = Sectors {
            memory,
            sectors,
            free,
        };
        let table = Table {
            rows: [Row::default(); 64],
            count: 0,
        };
        (medium, table)
    }

    fn into_memory(self) -> Vec<u8> {
        self.memory
    }

    // A new blob has no sector.
    fn place(&self, _table: &Table) -> usize {
        0
    }

    // Its sectors and the free ones.
    fn limit(&self, table: &Table, i: Option<usize>) -> usize {
        60 * (needed(len_at(table, i)) + self.free.count)
    }

    fn read(&self, table: &Table, i: usize, at: usize, out: &mut [u8]) {
        read(self.memory.as_slice(), chain_of(table.rows[i]), at, out);
    }

    // Sectors are taken from the front of the free chain, and go back to it.
    fn recast(&mut self, table: &Table, i: usize, keep: usize, bytes: &[u8]) -> Row {
        let row = table.rows[i];
        let chain = recast(
            self.memory.as_mut_slice(),
            &mut self.free,
            chain_of(row),
            keep,
            bytes,
        );
        placed(row, chain)
    }

    fn blot(&mut self, table: &Table, i: usize, from: usize, value: u8) {
        let row = table.rows[i];
        fill(
            self.memory.as_mut_slice(),
            chain_of(row),
            from,
            row.len - from,
            value,
        );
    }
}
