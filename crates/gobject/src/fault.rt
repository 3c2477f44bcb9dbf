//! The faults of packing entries, and of reading bytes as a pack.

ghost use Rattle.std.specs.Prelude.{◌≡◌, Some};
ghost use Rattle.gobject.specs.Faults.{index_fault_row, index_fault_text, pack_fault_row, pack_fault_text};
ghost use Rattle.gobject.specs.declared.fault.PackFault.TheVariants as pack_faults;
ghost use Rattle.gobject.specs.declared.fault.IndexFault.TheVariants as index_faults;

use gname::OUT_OF_MEMORY_TEXT;
use std::alloc::{AllocError, AllocFailed};
use std::error::Error;
use std::fmt;

/// The reason why a list of entries was not packed.
#[derive(Clone, Copy, Debug, PartialEq, Eq, Drop)]
pub enum PackFault {
    /// Out of memory.
    Memory,
    /// The pack would have more bytes than the packer's limit: `gname::MAX_PACK`, or
    /// `gparts::MAX_PARTS` for a pack in parts.
    TooLarge,
    /// A fault that is specific to the packer.
    Other,
}

impl PackFault {
    /// Returns the number of the fault.
    pub fn code(&self) -> u32
        ensures { result ≡ (pack_fault_row self.now).0 }
    {
        self.fault_row().0
    }

    /// Returns the name of the fault.
    pub fn name(&self) -> &'static str
        ensures { result.now ≡ (pack_fault_row self.now).1 }
    {
        self.fault_row().1
    }

    // Returns the number and the name of the fault. All variants have the same number and name, but
    // different texts.
    fn fault_row(&self) -> (u32, &'static str)
        ensures { (result.0, result.1.now) ≡ pack_fault_row self.now }
    {
        (65, "Pack")
    }
}

impl fmt::Display for PackFault {
    ghost output = { λ fault. Some (pack_fault_text fault) };

    fn fmt<W: fmt::Write>(&self, f: &mut fmt::Formatter<W>) -> fmt::Result {
        match self {
            PackFault::Memory => f.write_str(OUT_OF_MEMORY_TEXT),
            PackFault::TooLarge => f.write_str("the pack is too large"),
            PackFault::Other => f.write_str("the packer failed"),
        }
    }
}

impl Error for PackFault {}

/// The reason why bytes were not read as a pack.
#[derive(Clone, Copy, Debug, PartialEq, Eq, Drop)]
pub enum IndexFault {
    /// Out of memory.
    Memory,
    /// The line with this number is the first that is malformed or missing. Lines are counted from
    /// 1.
    Bad { line: usize },
    /// A fault that is specific to the indexer.
    Other,
}

impl IndexFault {
    /// Returns the number of the fault.
    pub fn code(&self) -> u32
        ensures { result ≡ (index_fault_row self.now).0 }
    {
        self.fault_row().0
    }

    /// Returns the name of the fault.
    pub fn name(&self) -> &'static str
        ensures { result.now ≡ (index_fault_row self.now).1 }
    {
        self.fault_row().1
    }

    /// Returns the number and the name of the fault. All variants have the same number and name,
    /// but different texts.
    pub fn fault_row(&self) -> (u32, &'static str)
        ensures { (result.0, result.1.now) ≡ index_fault_row self.now }
    {
        (66, "Index")
    }
}

impl fmt::Display for IndexFault {
    ghost output = { λ fault. Some (index_fault_text fault) };

    fn fmt<W: fmt::Write>(&self, f: &mut fmt::Formatter<W>) -> fmt::Result {
        match self {
            IndexFault::Memory => f.write_str(OUT_OF_MEMORY_TEXT),
            IndexFault::Bad { line } => write!(f, "line {line} of the pack is wrong"),
            IndexFault::Other => f.write_str("the indexer failed"),
        }
    }
}

impl Error for IndexFault {}

impl From<AllocError> for PackFault {
    ghost from_gives = { λ _ fault. fault ≡ pack_faults.Memory };

    fn from(_refused: AllocError) -> PackFault {
        PackFault::Memory
    }
}

impl<T: Drop> From<AllocFailed<T>> for PackFault {
    ghost from_gives = { λ _ fault. fault ≡ pack_faults.Memory };

    fn from(_refused: AllocFailed<T>) -> PackFault {
        PackFault::Memory
    }
}

impl From<AllocError> for IndexFault {
    ghost from_gives = { λ _ fault. fault ≡ index_faults.Memory };

    fn from(_refused: AllocError) -> IndexFault {
        IndexFault::Memory
    }
}

impl<T: Drop> From<AllocFailed<T>> for IndexFault {
    ghost from_gives = { λ _ fault. fault ≡ index_faults.Memory };

    fn from(_refused: AllocFailed<T>) -> IndexFault {
        IndexFault::Memory
    }
}
