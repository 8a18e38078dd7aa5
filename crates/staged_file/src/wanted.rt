//! What a call answers beside its result: a range of the source that is wanted, and a want of blocks.

/// A range of the source that is wanted; `first` and `count` are 0 where nothing is.
#[derive(Clone, Copy, Debug, PartialEq, Eq)]
pub struct Wanted {
    /// The first byte.
    pub first: u64,
    /// How many bytes.
    pub count: u64,
}

/// A WRITE would newly touch more blocks than are free.
#[derive(Clone, Copy, Debug, PartialEq, Eq)]
pub struct NoBlocks {
    /// How many blocks it would newly touch.
    pub needed: u64,
    /// How many are free.
    pub free: u64,
}
