//! The forms of values.
ghost use Rattle.std.specs.Prelude.{◌≡◌, Ok, IfOk, IfErr};
ghost use Rattle.serde_json.specs.Data.{Data};
ghost use Rattle.serde_json.specs.View.{view};
ghost use Rattle.scenario.specs.Told.{TellsFault};
ghost use Rattle.scenario.specs.Walks.{Walk};

use crate::fault::ScenarioFault;
use serde_json::Value;
use std::alloc::Global;

/// A form that a value may have, and how a value of this form is read.
pub(crate) trait Form {
    /// What is read.
    type Part: Drop;

    /// What is read, as plain data.
    ghost Found: { Type 0 };

    /// The plain data of what is read.
    ghost found: { Self.Part → Found };

    /// What the value is read as.
    ghost reads: { Self → Data → Walk Found };

    /// What holds of all that is read.
    ghost good: { Self → Found → Type 0 };

    /// Reads a value.
    fn read(&self, alloc: Global, value: &Value) -> Result<Self::Part, ScenarioFault>
        ensures ok { IfOk result (λ part. reads self.now (view value.now) ≡ Ok (found part)) }
        ensures err { IfErr result (λ e. TellsFault e (reads self.now (view value.now))) }
        ensures good { IfOk result (λ part. good self.now (found part)) };
}
