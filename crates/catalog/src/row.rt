//! One blob: its number, where its bytes begin and end, and its lengths.
ghost use Rattle.std.specs.Prelude.{◌≡◌, ◌+◌, ◌^◌, ◌<◌};
ghost use Rattle.catalog.specs.Rows.{grown_row, cut_row, synced_row};

/// `place` is where the bytes begin, a part or a first sector, and `tail` the last sector of a chain.
#[derive(Clone, Copy, Default)]
pub struct Row {
    pub number: u64,
    pub place: usize,
    pub tail: usize,
    pub len: usize,
    pub sound: usize,
    pub safe: usize,
}

impl Row {
    /// n bytes more: they are sound if all before them are.
    pub fn grown(self, n: usize) -> Row
        requires { self.len + n < 2 ^ 64 }
        ensures { result ≡ grown_row n self }
    {
        let len = self.len + n;
        if self.sound == self.len {
            Row {
                len,
                sound: len,
                ..self
            }
        } else {
            Row { len, ..self }
        }
    }

    /// The first n bytes, the sound ones of them safe.
    pub fn cut(self, n: usize) -> Row
        ensures { result ≡ cut_row n self }
    {
        let sound = self.sound.min(n);
        Row {
            len: n,
            sound,
            safe: sound,
            ..self
        }
    }

    /// Every sound byte is safe.
    pub fn synced(self) -> Row
        ensures { result ≡ synced_row self }
    {
        Row {
            safe: self.sound,
            ..self
        }
    }
}
