//! The settings of the mount.
ghost use Rattle.std.specs.Prelude.{◌≡◌, ◌≤◌, Ok, IfOk, IfErr};
ghost use Rattle.serde_json.specs.View.{view};
ghost use Rattle.scenario.specs.Told.{TellsFault};
ghost use Rattle.scenario.specs.Walks as walk;

use crate::fault::ScenarioFault;
use crate::form::Form;
use crate::members::{MAY, Member, object, optional};
use crate::values::{Flag, Range};
use mount_model::Config;
use serde_json::Value;
use std::alloc::Global;

const MEMBERS: [Member; 8] = [
    ("implicit_dirs", MAY),
    ("stat_lifetime", MAY),
    ("type_lifetime", MAY),
    ("record_capacity", MAY),
    ("staging_blocks", MAY),
    ("cache_blocks", MAY),
    ("list_page", MAY),
    ("start", MAY),
];

/// The settings, each of which holds its default where it is absent.
#[derive(Drop)]
pub(crate) struct Settings;

impl Form for Settings {
    ghost use Rattle.mount_model.specs.declared.config.Config.{Config};
    ghost use Rattle.mount_model.specs.Configs.{IsConfig};
    ghost use Rattle.scenario.specs.Format as format;

    type Part = Config;

    ghost Found = { Config };

    ghost found = { λ config. config };

    ghost reads = { λ _. format.config };

    ghost good = { λ _. IsConfig };

    fn read(&self, alloc: Global, value: &Value) -> Result<Config, ScenarioFault> {
        object(alloc, value, &MEMBERS)?;
        Ok(Config {
            implicit_dirs: optional(alloc, value, "implicit_dirs", false, &Flag)?,
            stat_lifetime: setting(alloc, value, "stat_lifetime", 0, 1_000_000_000_000, 60)?,
            type_lifetime: setting(alloc, value, "type_lifetime", 0, 1_000_000_000_000, 60)?,
            record_capacity: setting(alloc, value, "record_capacity", 1, 65_536, 4096)?,
            staging_blocks: setting(alloc, value, "staging_blocks", 1, 1024, 1024)?,
            cache_blocks: setting(alloc, value, "cache_blocks", 0, 1024, 1024)?,
            list_page: setting(alloc, value, "list_page", 1, 1000, 1000)?,
            start: setting(alloc, value, "start", 0, 100_000_000_000, 0)?,
        })
    }
}

/// A setting from the least to the most, or its default.
fn setting(
    alloc: Global,
    value: &Value,
    name: &str,
    least: u64,
    most: u64,
    default: u64,
) -> Result<u64, ScenarioFault>
    requires { (least ≤ default) × (default ≤ most) }
    ensures ok { IfOk result (λ n. walk.optional_under name.now default (walk.number_in least most) (view value.now) ≡ Ok n) }
    ensures err { IfErr result (λ e. TellsFault e (walk.optional_under name.now default (walk.number_in least most) (view value.now))) }
    ensures good { IfOk result (λ n. (least ≤ n) × (n ≤ most)) }
{
    optional(alloc, value, name, default, &Range { least, most })
}
