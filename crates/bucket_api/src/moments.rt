//! Moments of a log and positions in its list. Moments count from 1, positions from 0.
ghost use Rattle.std.specs.Prelude.{◌≡◌, ◌≤◌, ◌<◌, ◌-◌, ◌^◌, Option};
ghost use Rattle.std.specs.Option.{option_copied};
ghost use Rattle.bucket_api.specs.Moments as spec;
ghost use Rattle.bucket_api.specs.Log.{event_at};

use crate::events::Event;

/// The moment of the event at a position of the log.
pub fn moment_at(position: u64) -> u64
    requires { position < 2 ^ 64 - 1 }
    ensures { result ≡ spec.moment_at position }
{
    position + 1
}

/// The position in the log of the event at a moment, which is at least 1.
pub fn position_of(moment: u64) -> u64
    requires { 1 ≤ moment }
    ensures { result ≡ spec.position_of moment }
{
    moment - 1
}

/// The event at a moment: none at 0, and none past the log's end.
pub fn event_at(log: &[Event], moment: u64) -> Option<&Event>
    ensures { option_copied result ≡ event_at log.now moment }
{
    if moment == 0 {
        return None;
    }
    log.get(position_of(moment) as usize)
}
