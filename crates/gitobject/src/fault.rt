//! The faults of reading objects.

ghost use Rattle.std.specs.Prelude.{◌≡◌, Some};
ghost use Rattle.gitobject.specs.Faults.{object_fault_text};
ghost use Rattle.gitobject.specs.declared.fault.ObjectFault.TheVariants.{Memory};

use gname::OUT_OF_MEMORY_TEXT;
use std::alloc::{AllocError, AllocFailed};
use std::error::Error;
use std::fmt;

/// The reason why the links of an object cannot be read.
#[derive(Clone, Copy, Debug, PartialEq, Eq, Drop)]
pub enum ObjectFault {
    /// The bytes are not a valid object of the type.
    Malformed,
    /// Out of memory.
    Memory,
}

impl fmt::Display for ObjectFault {
    ghost output = { λ fault. Some (object_fault_text fault) };

    fn fmt<W: fmt::Write>(&self, f: &mut fmt::Formatter<W>) -> fmt::Result {
        match self {
            ObjectFault::Malformed => f.write_str("the object is malformed"),
            ObjectFault::Memory => f.write_str(OUT_OF_MEMORY_TEXT),
        }
    }
}

impl Error for ObjectFault {}

impl From<AllocError> for ObjectFault {
    ghost from_gives = { λ _ fault. fault ≡ Memory };

    fn from(_refused: AllocError) -> ObjectFault {
        ObjectFault::Memory
    }
}

impl<T: Drop> From<AllocFailed<T>> for ObjectFault {
    ghost from_gives = { λ _ fault. fault ≡ Memory };

    fn from(_refused: AllocFailed<T>) -> ObjectFault {
        ObjectFault::Memory
    }
}
