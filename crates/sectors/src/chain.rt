//! A chain of sectors: its first and its last, 0 where there is none, and how many there are. No Option, since the memory itself
//! ends a chain by 0. That it stands there is asked at each call: it is true only in the memory of the moment.
#[derive(Clone, Copy)]
pub struct Chain {
    pub first: usize,
    pub last: usize,
    pub count: usize,
}

impl Chain {
    pub const NONE: Chain = Chain {
        first: 0,
        last: 0,
        count: 0,
    };
}
