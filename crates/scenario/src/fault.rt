//! Why a text is no scenario.
ghost use Rattle.std.specs.Prelude.{◌≡◌, ◌++◌, [], codes, IfOk, IfSome, Some, option_map, string_bytes};
ghost use Rattle.scenario.specs.Told.{told};
ghost use Rattle.scenario.specs.Walks.{below};

use io_ports::{NoMemory, Text};
use std::alloc::{AllocError, AllocFailed, Global};

/// Why a text is no scenario.
#[derive(Debug, Drop)]
pub enum ScenarioFault {
    /// Memory for the scenario, or for the place of a fault, was refused.
    NoMemory,
    /// The text has a fault, and this is the first one in reading order.
    Bad {
        /// The fault's number, 1 to 14.
        number: u64,
        /// Where it is: the names of members and the positions of items, from 0, each behind a `/`. The whole text
        /// has the place `/`.
        place: Text,
    },
}

impl From<NoMemory> for ScenarioFault {
    ghost use Rattle.std.specs.Prelude.{◌≡◌};
    ghost use Rattle.scenario.specs.declared.fault.ScenarioFault.TheVariants.{NoMemory as Wanting};

    ghost from_gives = { λ _ fault. fault ≡ Wanting };

    fn from(_refused: NoMemory) -> ScenarioFault {
        ScenarioFault::NoMemory
    }
}

impl From<AllocError> for ScenarioFault {
    ghost use Rattle.std.specs.Prelude.{◌≡◌};
    ghost use Rattle.scenario.specs.declared.fault.ScenarioFault.TheVariants.{NoMemory as Wanting};

    ghost from_gives = { λ _ fault. fault ≡ Wanting };

    fn from(_refused: AllocError) -> ScenarioFault {
        ScenarioFault::NoMemory
    }
}

impl<T: Drop> From<AllocFailed<T>> for ScenarioFault {
    ghost use Rattle.std.specs.Prelude.{◌≡◌};
    ghost use Rattle.scenario.specs.declared.fault.ScenarioFault.TheVariants.{NoMemory as Wanting};

    ghost from_gives = { λ _ fault. fault ≡ Wanting };

    fn from(_refused: AllocFailed<T>) -> ScenarioFault {
        ScenarioFault::NoMemory
    }
}

impl ScenarioFault {
    /// A fault of the value that is being read. It takes no memory.
    pub(crate) fn here(alloc: Global, number: u64) -> ScenarioFault
        ensures { result ≡ ScenarioFault.Bad number [] }
    {
        ScenarioFault::Bad {
            number,
            place: Text::from_string(String::new(alloc)),
        }
    }

    /// This fault of a value, as one of the value that holds it under the name.
    pub(crate) fn within(self, alloc: Global, name: &str) -> ScenarioFault
        ensures { IfSome (told result) (λ f. option_map (below name.now) (told self) ≡ Some f) }
    {
        let ScenarioFault::Bad { number, place } = self else {
            return ScenarioFault::NoMemory;
        };
        match joined(alloc, name, place.as_str()) {
            Ok(place) => ScenarioFault::Bad { number, place },
            Err(_) => ScenarioFault::NoMemory,
        }
    }
}

/// A place, one step further down.
fn joined(alloc: Global, name: &str, place: &str) -> Result<Text, AllocError>
    ensures { IfOk result (λ joined. joined ≡ (codes "/" ++ name.now) ++ place.now) }
{
    let mut text = String::from_str(alloc, "/")?;
    text.push_str(name)?;
    text.push_str(place)?;
    Ok(Text::from_string(text))
}
