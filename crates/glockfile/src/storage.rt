//! One file and its lockfile.

ghost use Rattle.std.specs.Prelude.{◌≡◌, ◌≢◌, ◌≤◌, List, ℕ, Option, IfOk, MatchResult, OnOk, Some};
ghost use Rattle.glockfile.specs.Faults.{storage_fault_text};
ghost use Rattle.glockfile.specs.Storing.{HasWritten, Holds, KeepsStates, Renames, Texts, WhereKnown};
ghost use Rattle.glockfile.specs.declared.storage.Lockfile.TheVariants.{Absent, Empty, Written, Synced, Unusable};
ghost use Rattle.glockfile.specs.declared.storage.Lockfile.{Lockfile};
ghost use Rattle.glockfile.specs.declared.storage.StorageFault.TheVariants.{Memory};

use std::alloc::{AllocError, AllocFailed, Allocator};
use std::error::Error;
use std::{fmt, io};

/// The reason why a stored file could not be read or replaced.
#[derive(Clone, Copy, Debug, PartialEq, Eq)]
pub enum StorageFault {
    /// Out of memory.
    Memory,
    /// The lockfile already exists, the file is not a regular file, or a system call failed.
    Failed,
}

impl fmt::Display for StorageFault {
    ghost output = { λ fault. Some (storage_fault_text fault) };

    fn fmt<W: fmt::Write>(&self, f: &mut fmt::Formatter<W>) -> fmt::Result {
        f.write_str(match self {
            StorageFault::Memory => "out of memory",
            StorageFault::Failed => "the file can't be read or replaced",
        })
    }
}

impl Error for StorageFault {}

impl From<AllocError> for StorageFault {
    ghost from_gives = { λ _ fault. fault ≡ Memory };

    fn from(_: AllocError) -> StorageFault {
        StorageFault::Memory
    }
}

impl<T: Drop> From<AllocFailed<T>> for StorageFault {
    ghost from_gives = { λ _ fault. fault ≡ Memory };

    fn from(_: AllocFailed<T>) -> StorageFault {
        StorageFault::Memory
    }
}

impl From<io::Error> for StorageFault {
    fn from(error: io::Error) -> StorageFault {
        if error.kind() == io::ErrorKind::OutOfMemory {
            StorageFault::Memory
        } else {
            StorageFault::Failed
        }
    }
}

/// The state of the lockfile that this run of the program created.
#[derive(Clone, Copy, Debug, PartialEq, Eq)]
pub enum Lockfile {
    /// This run holds no lockfile.
    Absent,
    /// The lockfile exists and is empty.
    Empty,
    /// The lockfile has the new text, which is not synced yet.
    Written,
    /// The lockfile has the new text, and the text is synced to disk.
    Synced,
    /// A call failed. The only call that is still allowed is [`Storage::unlock`].
    Unusable,
}

/// A file that can be replaced, with its lockfile (Git's `lockfile.h`).
///
/// The lockfile is renamed over the file only after its text is synced. A crash therefore leaves
/// the file with its old text or the whole new text.
pub trait Storage {
    // Each text that the file has had, and the text that was written to the lockfile, or `None` if
    // these texts are unknown.
    ghost texts: { Self → Option Texts };

    // The state of this run's lockfile.
    ghost lockfile: { Self → Lockfile };

    /// Creates the lockfile. Fails and changes nothing if a lockfile already exists.
    fn lock(&mut self) -> Result<(), StorageFault>
        requires { lockfile self.old ≡ Absent }
        ensures lockfile { MatchResult result (λ _. lockfile self.new ≡ Empty)
            (λ _. lockfile self.new ≡ Absent) }
        ensures texts { texts self.new ≡ texts self.old };

    /// Returns the text of the file.
    fn read<A: Allocator + Copy>(&mut self, alloc: A) -> Result<Vec<u8, A>, StorageFault>
        requires { lockfile self.old ≡ Empty }
        ensures text { IfOk result (λ text. Holds (texts self.old) text.items) }
        ensures lockfile { lockfile self.new ≡ Empty }
        ensures texts { texts self.new ≡ texts self.old };

    /// Writes the whole new text into the lockfile.
    fn write(&mut self, text: &[u8]) -> Result<(), StorageFault>
        requires { lockfile self.old ≡ Empty }
        ensures written { OnOk result (HasWritten (texts self.new) text.now) }
        ensures lockfile { MatchResult result (λ _. lockfile self.new ≡ Written)
            (λ _. lockfile self.new ≡ Unusable) }
        ensures states { KeepsStates (texts self.old) (texts self.new) };

    /// Syncs the lockfile to disk.
    fn sync(&mut self) -> Result<(), StorageFault>
        requires { lockfile self.old ≡ Written }
        ensures lockfile { MatchResult result (λ _. lockfile self.new ≡ Synced)
            (λ _. lockfile self.new ≡ Unusable) }
        ensures texts { texts self.new ≡ texts self.old };

    /// Renames the lockfile over the file. After `Err` the file has the old text or the whole new
    /// text.
    fn rename(&mut self) -> Result<(), StorageFault>
        requires { lockfile self.old ≡ Synced }
        ensures lockfile { MatchResult result (λ _. lockfile self.new ≡ Absent)
            (λ _. lockfile self.new ≡ Unusable) }
        ensures states { WhereKnown (texts self.old) (texts self.new)
            (λ before after. Renames before after result) };

    /// Removes the lockfile of this run. If the system refuses the removal, the lockfile stays, and
    /// no run can lock the file until the lockfile is removed.
    fn unlock(&mut self)
        requires { lockfile self.old ≢ Absent }
        ensures lockfile { lockfile self.new ≡ Absent }
        ensures texts { texts self.new ≡ texts self.old };
}
