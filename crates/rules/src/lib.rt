//! The rules of the log's calls, as definitions: specs/.
#![tactic(auto)]

ghost use Rattle.rules.specs.Paper.{Paper};

/// The logs on paper, as one statement.
pub fn paper_stands() -> u8
    ensures { Paper }
{
    0
}
