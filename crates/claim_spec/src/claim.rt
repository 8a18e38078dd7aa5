//! What a call claims.
use io_ports::Text;

/// What a claim is on.
#[derive(Debug, Drop)]
pub enum ClaimKey {
    /// A node, by its number.
    Node(u64),
    /// A name of the bucket: an object's name, a directory's placeholder with its slash, or nothing for the root.
    Name(Text),
}

/// A claim of a call on a node or a name, from the moment at which the call is taken until it is done.
#[derive(Debug, Drop)]
pub struct Claim {
    /// What is claimed.
    pub key: ClaimKey,
    /// Whether no other call may claim it meanwhile. A claim that is not exclusive is shared with others of its kind.
    pub exclusive: bool,
}
