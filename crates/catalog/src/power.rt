//! The power: a question needs it, and a writing call sees to it before anything is written.
ghost use Rattle.std.specs.Prelude.{◌≡◌, ◌<◌, true, false, Ok, MatchResult};
ghost use Rattle.store.specs.declared.cause.Cause.TheVariants.{Power};
ghost use Rattle.catalog.specs.Seen.{is_up, calls_left, Begun, OneFewer, Revived};

use crate::catalog::Catalog;
use store::cause::Cause;

impl Catalog {
    /// A question is answered while the power is on.
    pub fn ask(&self) -> Result<(), Cause>
        ensures { MatchResult result (λ _. is_up self.now ≡ true) (λ c. (c ≡ Power) × (is_up self.now ≡ false)) }
    {
        self.power.map(|_| ()).ok_or(Cause::Power)
    }

    /// A writing call begins. With no call left the power goes, and the store is down.
    pub fn begin(&mut self) -> Result<(), Cause>
        ensures { Begun self.old result self.new }
    {
        match self.power {
            Some(left) if left > 0 => Ok(()),
            _ => {
                self.power = None;
                Err(Cause::Power)
            }
        }
    }

    /// A writing call is done, and counted. It answers Ok, so that a call can end in it.
    pub fn finish(&mut self) -> Result<(), Cause>
        requires { 0 < calls_left self.old }
        ensures done { result ≡ Ok tt }
        ensures counted { OneFewer self.old self.new }
    {
        self.power = self.power.map(|left| left.saturating_sub(1));
        Ok(())
    }

    /// The power is back: the saved keys are present, and a new number of calls is given.
    pub fn revive(&mut self, calls: u64)
        ensures { Revived self.old calls self.new }
    {
        self.present = self.saved;
        self.power = Some(calls);
    }
}
