//! A call of a lane.
use io_ports::{Bytes, Row};
use mount_model::CallId;
use std::marker::Model;

/// A place in a frame into which an earlier reply's number is written before the frame is served: 8 little-endian bytes.
#[derive(Clone, Copy, Debug, PartialEq, Eq)]
pub struct Fix {
    /// The place of the first of the 8 bytes, 4 to 135,160.
    pub at: u64,
    /// The call whose reply has the number. It stands earlier in the same lane, or in an earlier phase.
    pub call: CallId,
    /// Whether the number is the reply's handle rather than its node. Where the reply has none, it is 0.
    pub handle: bool,
}

/// A call: its frame, and what is written into it first. Clauses see it as plain data.
#[derive(Drop)]
pub struct ScriptedCall {
    /// A whole request frame of the FUSE wire, 40 to 135,168 bytes.
    pub frame: Bytes,
    /// What is written into it, in this order.
    pub fixes: Row<Fix>,
}

impl Model for ScriptedCall {
    ghost use Rattle.scenario.specs.Parts.{Call};

    ghost Value = { Call };

    ghost view = { λ c. record { frame = c.frame; fixes = c.fixes.items } };
}
