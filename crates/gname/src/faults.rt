//! The faults of ref names and prefixes, and the numbers and names of faults that several crates
//! share.

ghost use Rattle.std.specs.Prelude.{◌≡◌, Some};
ghost use Rattle.gname.specs.Faults.{name_fault_row, name_fault_text};
ghost use Rattle.gname.specs.declared.faults.NameFault.TheVariants.{Memory};

use std::alloc::{AllocError, AllocFailed};
use std::error::Error;
use std::fmt;

/// The number and the name of the out-of-memory fault, which several crates share.
pub const OUT_OF_MEMORY: (u32, &str) = (64, "Memory");

/// The text of every out-of-memory fault, regardless of the fault's number.
pub const OUT_OF_MEMORY_TEXT: &str = "out of memory";

/// The number and the name of the fault for a new object whose parent is missing. Several crates
/// share this fault.
pub const MISSING_PARENT: (u32, &str) = (72, "MissingParent");

/// The reason why a text is not a ref name or not a prefix. If a text has several faults, the fault
/// that comes first in this enum is reported, with its first position in the text.
#[derive(Clone, Copy, Debug, PartialEq, Eq, Drop)]
pub enum NameFault {
    /// The text is empty.
    Empty,
    /// The text has more than 1,000 bytes.
    TooLong,
    /// The text is not `HEAD` and does not begin with `refs/`.
    NotRef,
    /// The byte at this position is a control character, DEL, a space or one of `~ ^ : ? * [ \`.
    BadByte { at: usize },
    /// The component that begins at this position is empty, begins with `.` or ends with `.lock`.
    Component { at: usize },
    /// Two dots in a row begin at this position.
    DoubleDot { at: usize },
    /// The text contains `@{` at this position.
    AtBrace { at: usize },
    /// The last byte is a dot.
    End,
    /// The text is well-formed, but there was not enough memory to store it.
    Memory,
}

impl NameFault {
    /// Returns the number of the fault.
    pub fn code(&self) -> u32
        ensures { result ≡ (name_fault_row self.now).0 }
    {
        self.fault_row().0
    }

    /// Returns the name of the fault.
    pub fn name(&self) -> &'static str
        ensures { result.now ≡ (name_fault_row self.now).1 }
    {
        self.fault_row().1
    }

    /// Returns the number and the name of the fault.
    pub fn fault_row(&self) -> (u32, &'static str)
        ensures { (result.0, result.1.now) ≡ name_fault_row self.now }
    {
        match self {
            NameFault::Empty => (10, "Empty"),
            NameFault::TooLong => (11, "TooLong"),
            NameFault::NotRef => (12, "NotRef"),
            NameFault::BadByte { .. } => (13, "BadByte"),
            NameFault::Component { .. } => (14, "Component"),
            NameFault::DoubleDot { .. } => (15, "DoubleDot"),
            NameFault::AtBrace { .. } => (16, "AtBrace"),
            NameFault::End => (17, "End"),
            NameFault::Memory => (18, "Memory"),
        }
    }
}

impl fmt::Display for NameFault {
    ghost output = { λ fault. Some (name_fault_text fault) };

    fn fmt<W: fmt::Write>(&self, f: &mut fmt::Formatter<W>) -> fmt::Result {
        match self {
            NameFault::Empty => f.write_str("a ref name has at least one byte"),
            NameFault::TooLong => f.write_str("a ref name has at most 1000 bytes"),
            NameFault::NotRef => f.write_str("a ref name is HEAD or begins with refs/"),
            NameFault::BadByte { at } => write!(f, "byte {at} is not allowed in a ref name"),
            NameFault::Component { at } => write!(
                f,
                "the component at byte {at} is empty, begins with a dot or ends with .lock"
            ),
            NameFault::DoubleDot { at } => write!(f, "two dots in a row at byte {at}"),
            NameFault::AtBrace { at } => write!(f, "@{{ at byte {at}"),
            NameFault::End => f.write_str("a ref name does not end with a dot"),
            NameFault::Memory => f.write_str(OUT_OF_MEMORY_TEXT),
        }
    }
}

impl Error for NameFault {}

impl From<AllocError> for NameFault {
    ghost from_gives = { λ _ fault. fault ≡ Memory };

    fn from(_e: AllocError) -> NameFault {
        Self::Memory
    }
}

impl<T: Drop> From<AllocFailed<T>> for NameFault {
    ghost from_gives = { λ _ fault. fault ≡ Memory };

    fn from(_e: AllocFailed<T>) -> NameFault {
        Self::Memory
    }
}
