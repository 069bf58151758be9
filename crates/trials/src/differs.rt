//! How a trial that runs over any make of store fails.
ghost use Rattle.std.specs.Prelude.{OnOk, IsTrue};

use std::test::Fail;

#[derive(Debug, Drop)]
struct Differs;

pub fn check(holds: bool) -> Result<(), Fail>
    ensures { OnOk result (IsTrue holds) }
{
    if holds {
        Ok(())
    } else {
        Err(Fail::from(Differs))
    }
}
