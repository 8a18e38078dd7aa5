//! The mode that a script sets.
ghost use Rattle.std.specs.Prelude.{◌≡◌, ◌+◌, ◌<◌, ◌^◌, drop};
ghost use Rattle.bucket_api.specs.Log.{scripted_mode};
ghost use Rattle.bucket_api.specs.Scripts.{script_of};
ghost use Rattle.logged_bucket.specs.Logging.{IsToCome};
ghost use Rattle.bucket_api.specs.Moments as spec;

use bucket_api::{Mode, Scripted, moment_at};

/// The mode of the next event, and how much of the script is then behind.
pub(crate) fn next_mode(script: &[Scripted], behind: usize, events: u64) -> (Mode, usize)
    requires to_come { IsToCome events (script_of script.now) (drop behind (script_of script.now)) }
    requires few { events < 2 ^ 63 }
    ensures mode { result.0 ≡ scripted_mode (script_of script.now) (spec.moment_at events) }
    ensures to_come { IsToCome (events + 1) (script_of script.now) (drop result.1 (script_of script.now)) }
{
    let moment = moment_at(events);
    let Some(fault) = script.get(behind) else {
        return (Mode::Done, behind);
    };
    if fault.moment != moment {
        return (Mode::Done, behind);
    }
    (fault.mode, behind + 1)
}
