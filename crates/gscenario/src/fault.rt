//! Reasons to reject a text as a scenario.

ghost use Rattle.std.specs.Prelude.{◌≡◌, Some};
ghost use Rattle.gscenario.specs.Faults.{scenario_fault_row, scenario_fault_text};
ghost use Rattle.gscenario.specs.declared.fault.ScenarioFault.TheVariants as faults;

use gname::OUT_OF_MEMORY_TEXT;
use std::alloc::{AllocError, AllocFailed};
use std::error::Error;
use std::fmt;

/// The reason to reject a text as a scenario.
#[derive(Clone, Copy, Debug, PartialEq, Eq, Drop)]
pub enum ScenarioFault {
    /// The line with this number, counted from 1, does not encode an event, or has no line feed.
    Scenario { line: usize },
    /// There is not enough memory for the events.
    Memory,
}

impl ScenarioFault {
    /// Returns the number of the fault.
    pub fn code(&self) -> u32
        ensures { result ≡ (scenario_fault_row self.now).0 }
    {
        self.fault_row().0
    }

    /// Returns the name of the fault.
    pub fn name(&self) -> &'static str
        ensures { result.now ≡ (scenario_fault_row self.now).1 }
    {
        self.fault_row().1
    }

    /// Returns the number and the name of the fault.
    pub fn fault_row(&self) -> (u32, &'static str)
        ensures { (result.0, result.1.now) ≡ scenario_fault_row self.now }
    {
        match self {
            ScenarioFault::Scenario { .. } => (92, "Scenario"),
            ScenarioFault::Memory => (91, "Memory"),
        }
    }
}

impl fmt::Display for ScenarioFault {
    ghost output = { λ fault. Some (scenario_fault_text fault) };

    fn fmt<W: fmt::Write>(&self, f: &mut fmt::Formatter<W>) -> fmt::Result {
        match self {
            ScenarioFault::Scenario { line } => write!(
                f,
                "line {line} of the scenario is that of no event, or does not end"
            ),
            ScenarioFault::Memory => f.write_str(OUT_OF_MEMORY_TEXT),
        }
    }
}

impl Error for ScenarioFault {}

impl From<AllocError> for ScenarioFault {
    ghost from_gives = { λ _ fault. fault ≡ faults.Memory };

    fn from(_refused: AllocError) -> ScenarioFault {
        ScenarioFault::Memory
    }
}

impl<T: Drop> From<AllocFailed<T>> for ScenarioFault {
    ghost from_gives = { λ _ fault. fault ≡ faults.Memory };

    fn from(_refused: AllocFailed<T>) -> ScenarioFault {
        ScenarioFault::Memory
    }
}
