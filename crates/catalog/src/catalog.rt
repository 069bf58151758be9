//! What every built store keeps beside its memory: the table, the keys, and the power.
ghost use Rattle.std.specs.Prelude.{◌≡◌, Some};
ghost use Rattle.store.specs.Disk.{no_keys};
ghost use Rattle.store.specs.Laws.{KeysFit};

use crate::table::Table;
use store::keys::Keys;

/// `power` is how many writing calls still succeed; the next one after them loses it, and then it is None.
#[derive(Clone, Copy)]
pub struct Catalog {
    pub table: Table,
    pub present: Keys,
    pub saved: Keys,
    pub power: Option<u64>,
    ghost held: { KeysFit present },
    ghost kept: { KeysFit saved },
}

impl Catalog {
    /// No key, and the power on for so many writing calls.
    pub fn new(table: Table, calls: u64) -> Catalog
        ensures table { result.table ≡ table }
        ensures present { result.present ≡ no_keys }
        ensures saved { result.saved ≡ no_keys }
        ensures power { result.power ≡ Some calls }
    {
        Catalog {
            table,
            present: Keys::none(),
            saved: Keys::none(),
            power: Some(calls),
        }
    }
}
