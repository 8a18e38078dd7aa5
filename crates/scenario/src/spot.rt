//! Where a lane stands among the others.
ghost use Rattle.std.specs.Prelude.{◌≡◌, ◌+◌, ◌-◌, true, false, [], nat_lt, slice_index, IfErr, OnOk};
ghost use Rattle.scenario.specs.Checks.{is_earlier};
ghost use Rattle.scenario.specs.Format.{most_items};

use crate::fault::ScenarioFault;
use std::alloc::Global;
use std::marker::Model;

/// The most calls, remote operations and clock steps of a scenario together.
pub(crate) const MOST_ITEMS: u64 = 65_536;

/// What a lane knows of those before it.
#[derive(Drop)]
pub(crate) struct Spot<'a> {
    /// The number of calls of each lane of the phases before.
    pub(crate) counts: &'a [u64],
    /// The lane's own number. Lanes have the numbers 1, 2, .. through all phases.
    pub(crate) lane: u64,
    /// The items of all lanes before.
    pub(crate) items: u64,
}

impl<'a> Model for Spot<'a> {
    ghost use Rattle.scenario.specs.Checks as checks;

    ghost Value = { checks.Spot };

    ghost view = { λ s. record { counts = s.counts.now; lane = s.lane; items = s.items } };
}

impl<'a> Spot<'a> {
    /// Counts one more item behind so many of the lane.
    pub(crate) fn count(&self, alloc: Global, before: usize) -> Result<(), ScenarioFault>
        ensures ok { OnOk result (nat_lt (self.now.items + before) most_items ≡ true) }
        ensures err { IfErr result (λ e. (e ≡ ScenarioFault.Bad 12 []) × (nat_lt (self.now.items + before) most_items ≡ false)) }
    {
        if before as u64 >= MOST_ITEMS.saturating_sub(self.items) {
            return Err(ScenarioFault::here(alloc, 12));
        }
        Ok(())
    }

    /// Whether there is such a call, of this lane and before the one of the index, or of an earlier phase.
    pub(crate) fn is_earlier(&self, index: u64, lane: u64, call: u64) -> bool
        ensures { result ≡ is_earlier self.now index lane call }
    {
        if lane == self.lane {
            return call < index;
        }
        call <= calls_at(self.counts, lane)
    }
}

/// The number of calls of a lane, 0 where there is no such lane.
fn calls_at(counts: &[u64], lane: u64) -> u64
    ensures { result ≡ slice_index counts.now (lane - 1) }
{
    match counts.get(lane.saturating_sub(1) as usize) {
        Some(calls) => *calls,
        None => 0,
    }
}
