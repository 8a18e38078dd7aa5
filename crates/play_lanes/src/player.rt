//! The lanes of a scenario are played, one after the other.
ghost use Rattle.std.specs.Prelude.{◌≡◌, ◌∷◌, ◌++◌, [], ℕ, List, map, IfOk, OnOk};
ghost use Rattle.bucket_api.specs.Operation.{Operation, operation};
ghost use Rattle.fuse_head.specs.Head.{IsWholeFrame};
ghost use Rattle.fuse_requests.specs.Grammar.{request_of, without_spare};
ghost use Rattle.play_lanes.specs.Histories.{IsHistory};
ghost use Rattle.play_lanes.specs.Playing.{IsAmid, IsBetween, lanes_in};
ghost use Rattle.scenario.specs.Lawful.{IsLawful};
ghost use Rattle.scenario.specs.Parts.{Call, Lane, ScenarioData, calls, clock, remote};
ghost use Rattle.scenario.specs.Works.{lane_of};

use crate::given::{Given, GivenTable};
use bucket_api::Op;
use fuse_head::head_of;
use fuse_replies::write_reply;
use fuse_requests::{BodyFault, Request, read_request};
use history_text::Played;
use io_ports::{Bytes, NoMemory, Row};
use mount_core::Lone;
use mount_model::CallId;
use scenario::{LaneWork, Phase, Scenario, ScriptedCall};
use std::alloc::Global;
use std::marker::Model;

/// A scenario that is being played, lane by lane.
#[derive(Drop)]
pub(crate) struct Player {
    lone: Lone,
    calls: Row<CallId>,
    replies: Row<Bytes>,
    given: GivenTable,
}

impl Model for Player {
    ghost use Rattle.play_lanes.specs.Playing.{PlayState};

    ghost Value = { PlayState };

    ghost view = { λ p. record { lone = p.lone; calls = p.calls.items; frames = p.replies.items; given = p.given } };
}

impl Player {
    /// A scenario before its first lane.
    pub(crate) fn new(alloc: Global, scenario: &Scenario) -> Result<Player, NoMemory>
        requires lawful { IsLawful scenario.now }
        ensures ok { IfOk result (λ player. IsBetween scenario.now player (lanes_in scenario.now.phases)) }
    {
        let bucket = scenario.start.copy(alloc)?;
        let script = Row::from_vec(Vec::from_slice(alloc, scenario.script.as_slice())?);
        Ok(Player {
            lone: Lone::new(alloc, &scenario.config, bucket, script)?,
            calls: Row::new(alloc),
            replies: Row::new(alloc),
            given: GivenTable::new(alloc),
        })
    }

    /// Plays a phase: its lanes in order.
    pub(crate) fn phase(&mut self, alloc: Global, phase: &Phase) -> Result<(), NoMemory>
        requires next { (scenario : ScenarioData) × (left : List Lane) × IsBetween scenario self.old (phase.now ++ left) }
        ensures ok { OnOk result ((scenario : ScenarioData) (left : List Lane) → IsBetween scenario self.old (phase.now ++ left) → IsBetween scenario self.new left) }
    {
        for work in phase.lanes.as_slice() {
            self.lane(alloc, work)?;
        }
        Ok(())
    }

    /// Plays the next lane.
    fn lane(&mut self, alloc: Global, work: &LaneWork) -> Result<(), NoMemory>
        requires next { (scenario : ScenarioData) × (left : List Lane) × IsBetween scenario self.old (lane_of work.now ∷ left) }
        ensures ok { OnOk result ((scenario : ScenarioData) (left : List Lane) → IsBetween scenario self.old (lane_of work.now ∷ left) → IsBetween scenario self.new left) }
    {
        self.given.begin_lane(alloc)?;
        match work {
            LaneWork::Calls(calls) => self.calls(alloc, calls.as_slice()),
            LaneWork::Remote(operations) => self.remote(alloc, operations.as_slice()),
            LaneWork::Clock(steps) => self.clock(steps.as_slice()),
        }
    }

    /// Makes the calls of a lane.
    fn calls(&mut self, alloc: Global, scripted: &[ScriptedCall]) -> Result<(), NoMemory>
        requires next { (scenario : ScenarioData) × (more : List Lane) × IsAmid calls scenario self.old scripted.now more }
        ensures ok { OnOk result ((scenario : ScenarioData) (more : List Lane) → IsAmid calls scenario self.old scripted.now more → IsBetween scenario self.new more) }
    {
        for call in scripted {
            self.call(alloc, call)?;
        }
        Ok(())
    }

    /// Makes the next call of a lane.
    fn call(&mut self, alloc: Global, scripted: &ScriptedCall) -> Result<(), NoMemory>
        requires next { (scenario : ScenarioData) × (left : List Call) × (more : List Lane) × IsAmid calls scenario self.old (scripted.now ∷ left) more }
        ensures ok { OnOk result ((scenario : ScenarioData) (left : List Call) (more : List Lane) →
            IsAmid calls scenario self.old (scripted.now ∷ left) more → IsAmid calls scenario self.new left more) }
    {
        self.calls.reserve(1)?;
        self.replies.reserve(1)?;
        let call = self.given.next_call();
        let frame = self.given.frame(alloc, scripted)?;
        let request = request_in(alloc, frame.as_slice())?;
        let reply = self.lone.call(alloc, call, request)?;
        let text = write_reply(alloc, head_of(frame.as_slice()).unique, &reply)?;
        self.given.push(Given::by(&reply))?;
        self.calls.push(call);
        self.replies.push(text);
        Ok(())
    }

    /// Makes the operations of a remote writer.
    fn remote(&mut self, alloc: Global, operations: &[Op]) -> Result<(), NoMemory>
        requires next { (scenario : ScenarioData) × (more : List Lane) × IsAmid remote scenario self.old (map operation operations.now) more }
        ensures ok { OnOk result ((scenario : ScenarioData) (more : List Lane) → IsAmid remote scenario self.old (map operation operations.now) more → IsBetween scenario self.new more) }
    {
        for op in operations {
            self.write(alloc, op)?;
        }
        Ok(())
    }

    /// Makes the next operation of a remote writer.
    fn write(&mut self, alloc: Global, op: &Op) -> Result<(), NoMemory>
        requires next { (scenario : ScenarioData) × (left : List Operation) × (more : List Lane) × IsAmid remote scenario self.old (operation op.now ∷ left) more }
        ensures ok { OnOk result ((scenario : ScenarioData) (left : List Operation) (more : List Lane) →
            IsAmid remote scenario self.old (operation op.now ∷ left) more → IsAmid remote scenario self.new left more) }
    {
        let lane = self.given.lane();
        self.lone.remote(alloc, lane, op)
    }

    /// Lets the seconds of a clock pass.
    fn clock(&mut self, steps: &[u64]) -> Result<(), NoMemory>
        requires next { (scenario : ScenarioData) × (more : List Lane) × IsAmid clock scenario self.old steps.now more }
        ensures ok { OnOk result ((scenario : ScenarioData) (more : List Lane) → IsAmid clock scenario self.old steps.now more → IsBetween scenario self.new more) }
    {
        for seconds in steps {
            self.tick(*seconds)?;
        }
        Ok(())
    }

    /// Lets the seconds of one step pass.
    fn tick(&mut self, seconds: u64) -> Result<(), NoMemory>
        requires next { (scenario : ScenarioData) × (left : List ℕ) × (more : List Lane) × IsAmid clock scenario self.old (seconds ∷ left) more }
        ensures ok { OnOk result ((scenario : ScenarioData) (left : List ℕ) (more : List Lane) →
            IsAmid clock scenario self.old (seconds ∷ left) more → IsAmid clock scenario self.new left more) }
    {
        self.lone.tick(seconds)
    }

    /// What was played.
    pub(crate) fn finish(self) -> Played
        requires done { (scenario : ScenarioData) × IsBetween scenario self [] }
        ensures history { (scenario : ScenarioData) → IsBetween scenario self [] → IsHistory scenario result }
    {
        let Player {
            lone,
            calls,
            replies,
            given: _,
        } = self;
        let (bucket, log, journal) = lone.finish();
        Played {
            replies,
            calls,
            bucket,
            log,
            journal,
        }
    }
}

/// What a whole frame asks: an unknown request of its opcode where its body is outside the grammar.
fn request_in(alloc: Global, frame: &[u8]) -> Result<Request, NoMemory>
    requires { IsWholeFrame frame.now }
    ensures ok { IfOk result (λ request. without_spare request ≡ request_of frame.now) }
{
    match read_request(alloc, frame) {
        Ok(request) => Ok(request),
        Err(BodyFault::NoMemory) => Err(NoMemory),
        Err(_) => Ok(Request::Unknown {
            opcode: head_of(frame).opcode,
        }),
    }
}
