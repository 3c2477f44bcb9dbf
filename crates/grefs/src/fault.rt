//! The faults of setting a ref.

ghost use Rattle.std.specs.Prelude.{◌≡◌, Some};
ghost use Rattle.grefs.specs.Faults.{refs_fault_row, refs_fault_text};
ghost use Rattle.grefs.specs.declared.fault.RefsFault.TheVariants.{Memory};

use gname::{OUT_OF_MEMORY, OUT_OF_MEMORY_TEXT};
use std::alloc::{AllocError, AllocFailed};
use std::error::Error;
use std::fmt;

/// The reason why a ref was not set.
#[derive(Clone, Copy, Debug, PartialEq, Eq, Drop)]
pub enum RefsFault {
    /// The ref can't be set: its name is `HEAD`, or there would be more than `MAX_REFS` refs.
    Refs,
    /// Out of memory.
    Memory,
}

impl RefsFault {
    /// Returns the number of the fault.
    pub fn code(&self) -> u32
        ensures { result ≡ (refs_fault_row self.now).0 }
    {
        self.fault_row().0
    }

    /// Returns the name of the fault.
    pub fn name(&self) -> &'static str
        ensures { result.now ≡ (refs_fault_row self.now).1 }
    {
        self.fault_row().1
    }

    /// Returns the number and the name of the fault.
    pub fn fault_row(&self) -> (u32, &'static str)
        ensures { (result.0, result.1.now) ≡ refs_fault_row self.now }
    {
        match self {
            RefsFault::Refs => (69, "Refs"),
            RefsFault::Memory => OUT_OF_MEMORY,
        }
    }
}

impl fmt::Display for RefsFault {
    ghost output = { λ fault. Some (refs_fault_text fault) };

    fn fmt<W: fmt::Write>(&self, f: &mut fmt::Formatter<W>) -> fmt::Result {
        match self {
            RefsFault::Refs => f.write_str("the ref can't be set"),
            RefsFault::Memory => f.write_str(OUT_OF_MEMORY_TEXT),
        }
    }
}

impl Error for RefsFault {}

impl From<AllocError> for RefsFault {
    ghost from_gives = { λ _ fault. fault ≡ Memory };

    fn from(_refused: AllocError) -> RefsFault {
        RefsFault::Memory
    }
}

impl<T: Drop> From<AllocFailed<T>> for RefsFault {
    ghost from_gives = { λ _ fault. fault ≡ Memory };

    fn from(_refused: AllocFailed<T>) -> RefsFault {
        RefsFault::Memory
    }
}
