//! The ledger and its promises, and the law: every history that the rules allow agrees with it.
#![tactic(auto)]

ghost use Rattle.ledger.specs.Runs.{LawFor, InLineFor};
ghost use Rattle.ledger.specs.Useless.{Useless, Taken};

/// The law, for records of any type.
pub fn law_stands<R>() -> u8
    ensures { LawFor R }
{
    0
}

/// Blobs are numbered one after the other wherever a truncate stops, and no publish finds them otherwise.
pub fn in_line_stands<R>() -> u8
    ensures { InLineFor R }
{
    0
}

/// The ledger rejects histories of logs that are of no use.
pub fn useless_stands() -> u8
    ensures { Useless }
{
    0
}

/// And it takes a useful one.
pub fn taken_stands() -> u8
    ensures { Taken }
{
    0
}
