//! The faults of loading a repository text and of saving a repository.

ghost use Rattle.std.specs.Prelude.{◌≡◌, Some};
ghost use Rattle.ggraph.specs.Faults.{load_fault_row, load_fault_text, save_fault_row, save_fault_text};
ghost use Rattle.ggraph.specs.declared.fault.LoadFault.TheVariants as load;
ghost use Rattle.ggraph.specs.declared.fault.SaveFault.TheVariants as save;

use gdag::GraphFault;
use gname::{OUT_OF_MEMORY, OUT_OF_MEMORY_TEXT, Oid};
use std::alloc::{AllocError, AllocFailed};
use std::error::Error;
use std::fmt;

/// The reason why a repository text was not loaded.
#[derive(Clone, Copy, Debug, PartialEq, Eq, Drop)]
pub enum LoadFault {
    /// A line breaks a rule of the format, exceeds a limit or is missing. `line` is the number,
    /// counted from 1, of the first line that is wrong or missing.
    Text { line: usize },
    /// A parent of a node is not on an earlier line. `line` is the number, counted from 1, of the
    /// first line that names a parent that is on a later line or on no line.
    ParentLater { line: usize },
    /// Out of memory.
    Memory,
}

impl LoadFault {
    /// Returns the number of the fault.
    pub fn code(&self) -> u32
        ensures { result ≡ (load_fault_row self.now).0 }
    {
        self.fault_row().0
    }

    /// Returns the name of the fault.
    pub fn name(&self) -> &'static str
        ensures { result.now ≡ (load_fault_row self.now).1 }
    {
        self.fault_row().1
    }

    // Returns the number and the name of the fault.
    fn fault_row(&self) -> (u32, &'static str)
        ensures { (result.0, result.1.now) ≡ load_fault_row self.now }
    {
        match self {
            LoadFault::Text { .. } => (67, "Text"),
            LoadFault::ParentLater { .. } => (68, "ParentLater"),
            LoadFault::Memory => OUT_OF_MEMORY,
        }
    }
}

impl fmt::Display for LoadFault {
    ghost output = { λ fault. Some (load_fault_text fault) };

    fn fmt<W: fmt::Write>(&self, f: &mut fmt::Formatter<W>) -> fmt::Result {
        match self {
            LoadFault::Text { line } => write!(f, "line {line} of the repository text is wrong"),
            LoadFault::ParentLater { line } => write!(
                f,
                "line {line} of the repository text names a parent that comes later"
            ),
            LoadFault::Memory => f.write_str(OUT_OF_MEMORY_TEXT),
        }
    }
}

impl Error for LoadFault {}

impl From<AllocError> for LoadFault {
    ghost from_gives = { λ _ fault. fault ≡ load.Memory };

    fn from(_refused: AllocError) -> LoadFault {
        LoadFault::Memory
    }
}

impl<T: Drop> From<AllocFailed<T>> for LoadFault {
    ghost from_gives = { λ _ fault. fault ≡ load.Memory };

    fn from(_refused: AllocFailed<T>) -> LoadFault {
        LoadFault::Memory
    }
}

/// The reason why a repository was not saved.
#[derive(Clone, Copy, Debug, PartialEq, Eq, Drop)]
pub enum SaveFault {
    /// A ref or `HEAD` has an id that does not have the graph's object format. `id` is the first
    /// id of a different format: the refs are checked in name order, and `HEAD` last.
    OtherFormat { id: Oid },
    /// Out of memory.
    Memory,
}

impl SaveFault {
    /// Returns the number of the fault.
    pub fn code(&self) -> u32
        ensures { result ≡ (save_fault_row self.now).0 }
    {
        self.fault_row().0
    }

    /// Returns the name of the fault.
    pub fn name(&self) -> &'static str
        ensures { result.now ≡ (save_fault_row self.now).1 }
    {
        self.fault_row().1
    }

    // Returns the number and the name of the fault.
    fn fault_row(&self) -> (u32, &'static str)
        ensures { (result.0, result.1.now) ≡ save_fault_row self.now }
    {
        match self {
            SaveFault::OtherFormat { id } => GraphFault::OtherFormat { id: *id }.fault_row(),
            SaveFault::Memory => OUT_OF_MEMORY,
        }
    }
}

impl fmt::Display for SaveFault {
    ghost output = { λ fault. Some (save_fault_text fault) };

    fn fmt<W: fmt::Write>(&self, f: &mut fmt::Formatter<W>) -> fmt::Result {
        match self {
            SaveFault::OtherFormat { id } => {
                fmt::Display::fmt(&GraphFault::OtherFormat { id: *id }, f)
            }
            SaveFault::Memory => f.write_str(OUT_OF_MEMORY_TEXT),
        }
    }
}

impl Error for SaveFault {}

impl From<AllocError> for SaveFault {
    ghost from_gives = { λ _ fault. fault ≡ save.Memory };

    fn from(_refused: AllocError) -> SaveFault {
        SaveFault::Memory
    }
}

impl<T: Drop> From<AllocFailed<T>> for SaveFault {
    ghost from_gives = { λ _ fault. fault ≡ save.Memory };

    fn from(_refused: AllocFailed<T>) -> SaveFault {
        SaveFault::Memory
    }
}
