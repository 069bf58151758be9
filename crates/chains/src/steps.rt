//! A row's chain, and its length.
ghost use Rattle.std.specs.Prelude.{◌≡◌, ◌*◌, ◌<◌, ◌≤◌};
ghost use Rattle.std.specs.Option.{ForSome};
ghost use Rattle.built.specs.Recast.{len_at};
ghost use Rattle.chains.specs.Cover.{chain_of, placed_row};

use catalog::row::Row;
use catalog::table::Table;
use sectors::append::needed;
use sectors::chain::Chain;

pub(crate) fn chain_of(row: Row) -> Chain
    requires { row.len ≤ 60 * 65536 }
    ensures { result ≡ chain_of row }
{
    Chain {
        first: row.place,
        last: row.tail,
        count: needed(row.len),
    }
}

// The length of the blob in a row; a new one has none. A match, since a closure for `map_or` would have to say which rows it takes.
pub(crate) fn len_at(table: &Table, i: Option<usize>) -> usize
    requires { ForSome i (λ k. k < table.now.count) }
    ensures { result ≡ len_at table.now i }
{
    match i {
        Some(i) => table.rows[i].len,
        None => 0,
    }
}

// The same row with its bytes in another chain.
pub(crate) fn placed(row: Row, chain: Chain) -> Row
    ensures { result ≡ placed_row row chain }
{
    Row {
        place: chain.first,
        tail: chain.last,
        ..row
    }
}
