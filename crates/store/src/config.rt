//! A memory or a configuration that is refused.
ghost use Rattle.std.specs.Prelude.{◌≡◌};

#[derive(Clone, Copy, PartialEq, Eq, Debug)]
pub struct BadConfig;

// The number that a refusal is known by.
impl From<BadConfig> for u8 {
    ghost from_gives = { λ _ r. r ≡ 1 };

    fn from(_refusal: BadConfig) -> u8 {
        1
    }
}
