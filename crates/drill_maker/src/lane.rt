//! A lane of calls, as it is made.
ghost use Rattle.std.specs.Prelude.{◌≡◌, [], ◌∷◌, IfOk, OnOk};
ghost use Rattle.fuse_requests.specs.Text.{IsWritable};
ghost use Rattle.scenario.specs.Parts.{calls};
ghost use Rattle.scenario.specs.Works.{lane_of};
ghost use Rattle.drill_maker.specs.Steps.{with_steps};

use fuse_requests::{Request, write_request};
use io_ports::{NoMemory, Row};
use scenario::{Fix, LaneWork, ScriptedCall};
use std::alloc::Global;
use std::marker::Model;

/// The calls of a lane, as far as they are made. Clauses see it as the list of its calls.
#[derive(Drop)]
pub(crate) struct Lane {
    calls: Vec<ScriptedCall>,
}

impl Model for Lane {
    ghost use Rattle.std.specs.Prelude.{List};
    ghost use Rattle.scenario.specs.Parts.{Call};

    ghost Value = { List Call };

    ghost view = { λ l. l.calls.items };
}

impl Lane {
    /// A lane without calls, with room for so many.
    pub(crate) fn new(alloc: Global, room: usize) -> Result<Lane, NoMemory>
        ensures ok { IfOk result (λ lane. lane ≡ []) }
    {
        let calls = Vec::with_capacity(alloc, room)?;
        Ok(Lane { calls })
    }

    /// Adds the call that asks this, with these fixups. Its unique is its index in the lane, from 1.
    #[tactic(auto, unfolding(crate::specs::Steps::with_steps))]
    pub(crate) fn ask(
        &mut self,
        alloc: Global,
        request: &Request,
        fixes: &[Fix],
    ) -> Result<(), NoMemory>
        requires { IsWritable request.now }
        ensures ok { OnOk result (self.new ≡ with_steps self.old (record { request = request.now; fixes = fixes.now } ∷ [])) }
    {
        let unique = self.calls.len() as u64 + 1;
        let fixes = Row::from_vec(Vec::from_slice(alloc, fixes)?);
        let frame = write_request(alloc, unique, request)?;
        self.calls.push(ScriptedCall { frame, fixes })?;
        Ok(())
    }

    /// The work of the lane.
    pub(crate) fn finish(self) -> LaneWork
        ensures { lane_of result ≡ calls self }
    {
        let Lane { calls } = self;
        LaneWork::Calls(Row::from_vec(calls))
    }
}
