//! The three keys, each an optional number.
ghost use Rattle.std.specs.Prelude.{◌≡◌};
ghost use Rattle.store.specs.Ask.{key_at};
ghost use Rattle.store.specs.Disk.{keyed, no_keys};

/// The boundary hint (key 1), the clear target (key 2) and the watermark (key 3).
#[derive(Clone, Copy, PartialEq, Eq, Debug)]
pub enum Key {
    Hint,
    Target,
    Watermark,
}

#[derive(Clone, Copy, Default, PartialEq, Eq, Debug)]
pub struct Keys {
    pub hint: Option<u64>,
    pub target: Option<u64>,
    pub watermark: Option<u64>,
}

impl Keys {
    pub fn none() -> Keys
        ensures { result ≡ no_keys }
    {
        Keys::default()
    }

    pub fn get(self, k: Key) -> Option<u64>
        ensures { result ≡ key_at k self }
    {
        match k {
            Key::Hint => self.hint,
            Key::Target => self.target,
            Key::Watermark => self.watermark,
        }
    }

    pub fn with(self, k: Key, v: Option<u64>) -> Keys
        ensures { result ≡ keyed k v self }
    {
        match k {
            Key::Hint => Keys { hint: v, ..self },
            Key::Target => Keys { target: v, ..self },
            Key::Watermark => Keys {
                watermark: v,
                ..self
            },
        }
    }
}
