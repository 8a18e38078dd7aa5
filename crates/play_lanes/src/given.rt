//! What replies give to the frames of later calls.
ghost use Rattle.std.specs.Prelude.{◌≡◌, ◌≤◌, ◌+◌, ◌++◌, ◌∷◌, [], All, IfOk, OnOk, length};
ghost use Rattle.fuse_head.specs.Head.{IsWholeFrame};
ghost use Rattle.fuse_replies.specs.Replies.{without_spare};
ghost use Rattle.legal_spec.specs.Frames.{written_at};
ghost use Rattle.play_lanes.specs.Tables.{frame_in, given_at, given_by, next_call, number_in, row_of, with_last};
ghost use Rattle.scenario.specs.declared.call.Fix.{Fix};

use fuse_head::put_u64;
use fuse_replies::Reply;
use io_ports::NoMemory;
use mount_model::CallId;
use scenario::{Fix, ScriptedCall};
use std::alloc::Global;
use std::marker::Model;

/// What a reply gives to later frames.
#[derive(Clone, Copy)]
pub(crate) struct Given {
    /// The number of its node, 0 where it has none.
    pub(crate) node: u64,
    /// The number of its handle, 0 where it has none.
    pub(crate) handle: u64,
}

impl Given {
    /// What this reply gives.
    pub(crate) fn by(reply: &Reply) -> Given
        ensures { result ≡ given_by (without_spare reply.now) }
    {
        let (node, handle) = match reply {
            Reply::Entry(entry) => (entry.node, 0),
            Reply::Created { entry, fh } => (entry.node, *fh),
            Reply::Opened(fh) => (0, *fh),
            _ => (0, 0),
        };
        Given { node, handle }
    }
}

/// What the replies of the calls that are done give, by lane and then by index. Clauses see it as a list of rows, one for
/// each lane that has begun.
#[derive(Drop)]
pub(crate) struct GivenTable {
    lanes: Vec<Vec<Given>>,
}

impl Model for GivenTable {
    ghost use Rattle.std.specs.Prelude.{map};
    ghost use Rattle.play_lanes.specs.Tables.{Table};

    ghost Value = { Table };

    ghost view = { λ t. map (λ row. row.items) t.lanes.items };
}

impl GivenTable {
    /// A table before the first lane.
    pub(crate) fn new(alloc: Global) -> GivenTable
        ensures { result ≡ [] }
    {
        GivenTable {
            lanes: Vec::new(alloc),
        }
    }

    /// Begins the next lane.
    pub(crate) fn begin_lane(&mut self, alloc: Global) -> Result<(), NoMemory>
        ensures ok { OnOk result (self.new ≡ self.old ++ [] ∷ []) }
    {
        self.lanes.push(Vec::new(alloc))?;
        Ok(())
    }

    /// Adds what the reply of the last lane's next call gives.
    pub(crate) fn push(&mut self, given: Given) -> Result<(), NoMemory>
        ensures ok { OnOk result (self.new ≡ with_last self.old given) }
    {
        if let Some(lane) = self.lanes.last_mut() {
            lane.push(given)?;
        }
        Ok(())
    }

    /// The number of the last lane that has begun.
    pub(crate) fn lane(&self) -> u64
        ensures { result ≡ length self.now }
    {
        self.lanes.len() as u64
    }

    /// The next call of that lane.
    pub(crate) fn next_call(&self) -> CallId
        ensures { result ≡ next_call self.now }
    {
        let lane = self.lane();
        CallId {
            lane,
            index: self.row(lane).len() as u64 + 1,
        }
    }

    /// The frame of a call after its fixups.
    pub(crate) fn frame(&self, alloc: Global, call: &ScriptedCall) -> Result<Vec<u8>, NoMemory>
        requires room { All (λ (fix : Fix). fix.at + 8 ≤ length call.now.frame) call.now.fixes }
        ensures ok { IfOk result (λ frame. frame.items ≡ frame_in self.now call.now) }
    {
        let mut frame = Vec::from_slice(alloc, call.frame.as_slice())?;
        for fix in call.fixes.as_slice() {
            write_number(frame.as_mut_slice(), fix.at as usize, self.number(fix));
        }
        Ok(frame)
    }

    /// The number that a fixup takes: 0 where its call has no reply.
    fn number(&self, fix: &Fix) -> u64
        ensures { result ≡ number_in self.now fix.now }
    {
        match self.find(fix.call) {
            Some(given) if fix.handle => given.handle,
            Some(given) => given.node,
            None => 0,
        }
    }

    /// What the reply of a call gives, if it has one.
    fn find(&self, call: CallId) -> Option<Given>
        ensures { result ≡ given_at self.now call }
    {
        if call.index == 0 {
            return None;
        }
        self.row(call.lane).get((call.index - 1) as usize).copied()
    }

    /// The row of a lane, empty where it has not begun.
    fn row(&self, lane: u64) -> &[Given]
        ensures { result.now ≡ row_of self.now lane }
    {
        if lane == 0 {
            return &[];
        }
        match self.lanes.get((lane - 1) as usize) {
            Some(row) => row.as_slice(),
            None => &[],
        }
    }
}

/// Writes a number over the eight bytes from this place on.
fn write_number(frame: &mut [u8], at: usize, number: u64)
    requires { at + 8 ≤ length frame.old }
    ensures { frame.new ≡ written_at frame.old at number }
{
    put_u64(frame, at, number);
}
