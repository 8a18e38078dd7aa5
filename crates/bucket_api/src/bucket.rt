//! A bucket that many share.
ghost use Rattle.std.specs.Prelude.{◌≡◌, ◌≤◌, length, IsTrue, IfOk, OnErr};
ghost use Rattle.lane_spec.specs.Numbers.{has, without, together};
ghost use Rattle.lane_spec.specs.Going.{longer};
ghost use Rattle.bucket_api.specs.Operation.{operation, IsAllowed};
ghost use Rattle.bucket_api.specs.Passes.{Origin, PassState, LogGoesOn, SeesMore, IsBucketPass, Acts, split_pass, both_faults};

use crate::answers::Answer;
use crate::operations::Op;
use io_ports::NoMemory;
use std::alloc::Global;
use std::sync::Wait;

/// A bucket with one log, to which many have passes: each operation is one event, and what two passes have seen are
/// beginnings of the one log.
///
/// A pass has seen a beginning of the log, and has made events of its own lane. While it holds a lane, no other pass
/// makes an event of that lane, so it has seen all of the lane's events.
pub trait Bucket {
    /// What a thread holds of the bucket.
    type Pass: Drop;

    /// What tells one bucket from another.
    ghost Identity: { Type 0 };

    /// Which bucket it is, and what it was before its log began.
    ghost origin: { Self → Origin Identity };

    /// What a pass tells.
    ghost told: { Self.Pass → PassState Identity };

    /// Makes the operation, as one event of the pass's lane, and gives the event's moment and its answer.
    ///
    /// The pass's count of faults rises by one, up to the end of `u64`, where a fault is answered, and stays where it
    /// isn't. After `NoMemory` there is no event, and the pass may have seen more of the log.
    fn act<T: Wait>(
        &self,
        rt: &T,
        alloc: Global,
        pass: &mut Self::Pass,
        op: &Op,
    ) -> Result<(u64, Answer), NoMemory>
        requires pass { (told pass.old).origin ≡ origin self.now }
        requires own { IsTrue (has (told pass.old).held (told pass.old).lane) }
        requires may { IsAllowed (operation op.now) }
        ensures ok { IfOk result (λ r. Acts (operation op.now) (told pass.old) (told pass.new) r.0 r.1) }
        ensures err { OnErr result (SeesMore (told pass.old) (told pass.new)) }
        ensures kept { told pass.new ≡ record (told pass.old) { seen = (told pass.new).seen; mine = (told pass.new).mine; faults = (told pass.new).faults } }
        ensures faults { (told pass.old).faults ≤ (told pass.new).faults }
        ensures valid { IsBucketPass (told pass.new) };

    /// A new pass that has seen as much, with the lane for its own and no faults met. The lane goes over to it.
    fn split(&self, pass: &mut Self::Pass, lane: u64) -> Self::Pass
        requires pass { (told pass.old).origin ≡ origin self.now }
        requires held { IsTrue (has (told pass.old).held lane) }
        ensures new { told result ≡ split_pass (told pass.old) lane }
        ensures kept { told pass.new ≡ record (told pass.old) { held = without (told pass.old).held lane } };

    /// Takes in another pass: its lanes, its faults, and what it had seen where that is more. It waits for nobody.
    fn meet(&self, pass: &mut Self::Pass, other: Self::Pass)
        requires pass { ((told pass.old).origin ≡ origin self.now) × ((told other).origin ≡ origin self.now) }
        ensures kept { told pass.new ≡ record (told pass.old) { seen = longer (told pass.old).seen (told other).seen; held = together (told pass.old).held (told other).held; faults = both_faults (told pass.old).faults (told other).faults } }
        ensures seen { LogGoesOn (told pass.old).held (told pass.old).seen (told pass.new).seen }
        ensures met { LogGoesOn (told other).held (told other).seen (told pass.new).seen };

    /// Looks at the log, and answers how many events it has. It waits for nobody.
    fn glance(&self, pass: &mut Self::Pass) -> u64
        requires pass { (told pass.old).origin ≡ origin self.now }
        ensures length { result ≡ length (told pass.new).seen }
        ensures seen { SeesMore (told pass.old) (told pass.new) }
        ensures valid { IsBucketPass (told pass.new) };
}
