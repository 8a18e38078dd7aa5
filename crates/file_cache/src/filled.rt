//! What came of a fill.
/// What came of a fill.
#[derive(Clone, Copy, Debug, PartialEq, Eq)]
pub enum Filled {
    /// The file is kept.
    Kept,
    /// It takes more blocks than the cache has; nothing has changed.
    TooLarge,
    /// Memory was refused. The files that were dropped to make room stay dropped.
    NoMemory,
}
