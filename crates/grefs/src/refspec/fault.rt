//! The faults of parsing a refspec.

ghost use Rattle.std.specs.Prelude.{◌≡◌, Some};
ghost use Rattle.grefs.specs.RefspecFaults.{spec_fault_row, spec_fault_text};
ghost use Rattle.grefs.specs.declared.refspec.fault.SpecFault.TheVariants as spec;

use gname::NameFault;
use std::alloc::{AllocError, AllocFailed};
use std::error::Error;
use std::fmt;

/// The reason why a refspec was not parsed.
#[derive(Clone, Copy, Debug, PartialEq, Eq, Drop)]
pub enum SpecFault {
    /// The text is not a refspec.
    BadSpec,
    /// The text is a refspec, but there was not enough memory to store it.
    Memory,
}

impl SpecFault {
    /// Returns the number of the fault.
    pub fn code(&self) -> u32
        ensures { result ≡ (spec_fault_row self.now).0 }
    {
        self.fault_row().0
    }

    /// Returns the name of the fault.
    pub fn name(&self) -> &'static str
        ensures { result.now ≡ (spec_fault_row self.now).1 }
    {
        self.fault_row().1
    }

    // Returns the number and the name of the fault.
    fn fault_row(&self) -> (u32, &'static str)
        ensures { (result.0, result.1.now) ≡ spec_fault_row self.now }
    {
        match self {
            SpecFault::BadSpec => (87, "BadSpec"),
            SpecFault::Memory => NameFault::Memory.fault_row(),
        }
    }
}

impl fmt::Display for SpecFault {
    ghost output = { λ fault. Some (spec_fault_text fault) };

    fn fmt<W: fmt::Write>(&self, f: &mut fmt::Formatter<W>) -> fmt::Result {
        match self {
            SpecFault::BadSpec => f.write_str("not a refspec"),
            SpecFault::Memory => fmt::Display::fmt(&NameFault::Memory, f),
        }
    }
}

impl Error for SpecFault {}

impl From<AllocError> for SpecFault {
    ghost from_gives = { λ _ fault. fault ≡ spec.Memory };

    fn from(_refused: AllocError) -> SpecFault {
        SpecFault::Memory
    }
}

impl<T: Drop> From<AllocFailed<T>> for SpecFault {
    ghost from_gives = { λ _ fault. fault ≡ spec.Memory };

    fn from(_refused: AllocFailed<T>) -> SpecFault {
        SpecFault::Memory
    }
}
