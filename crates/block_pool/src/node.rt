//! What is known of one block.
/// What the region knows of a block.
#[derive(Clone, Copy, Debug)]
pub struct Node {
    /// The position of the block in its chain.
    pub position: u64,
    /// The next block of the chain, or of the freed ones; it says nothing at the last of them.
    pub next: usize,
    /// The last block of the chain that begins at this one.
    pub last: usize,
    /// How many blocks the chain that begins at this one has: 0 where none does.
    pub count: usize,
}
