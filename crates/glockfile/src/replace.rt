//! Locking and reading a file, and then replacing it as a whole or not at all.

ghost use Rattle.std.specs.Prelude.{◌≡◌, IfOk, MatchResult, OnOk};
ghost use Rattle.glockfile.specs.Storing.{Adds, Holds, MayAdd, Replaces, WhereKnown};
ghost use Rattle.glockfile.specs.declared.storage.Lockfile.TheVariants.{Absent, Empty, Unusable};

use crate::storage::{Storage, StorageFault};
use std::alloc::Allocator;

/// Locks the file, and then reads its text.
///
/// Fails with `Failed` if the lockfile already exists or another call of the [`Storage`] fails, and
/// with `Memory` if out of memory. After a failure this run holds no lockfile.
pub fn open_file<A: Allocator + Copy, T: Storage>(
    alloc: A,
    file: &mut T,
) -> Result<Vec<u8, A>, StorageFault>
    requires { T.lockfile file.old ≡ Absent }
    ensures text { IfOk result (λ text. Holds (T.texts file.old) text.items) }
    ensures lockfile { MatchResult result (λ _. T.lockfile file.new ≡ Empty)
        (λ _. T.lockfile file.new ≡ Absent) }
    ensures texts { T.texts file.new ≡ T.texts file.old }
{
    file.lock()?;
    match file.read(alloc) {
        Ok(text) => Ok(text),
        Err(fault) => {
            file.unlock();
            Err(fault)
        }
    }
}

/// Replaces the text `old` of a locked file by `new`, and unlocks the file. Writes nothing if both
/// texts are equal.
///
/// Fails with `Failed` or `Memory`. After a failure the file has the old text or the whole new
/// text. When the call returns, this run holds no lockfile.
pub fn replace_file<T: Storage>(file: &mut T, old: &[u8], new: &[u8]) -> Result<(), StorageFault>
    requires { T.lockfile file.old ≡ Empty }
    ensures replaced { WhereKnown (T.texts file.old) (T.texts file.new)
        (λ before after. Replaces old.now new.now before after result) }
    ensures holds { Holds (T.texts file.old) old.now
        → OnOk result (Holds (T.texts file.new) new.now) }
    ensures lockfile { T.lockfile file.new ≡ Absent }
{
    if old == new {
        file.unlock();
        return Ok(());
    }
    match write_new(file, new) {
        Ok(()) => Ok(()),
        Err(fault) => {
            file.unlock();
            Err(fault)
        }
    }
}

// Writes the new text to the lockfile, syncs the lockfile, and renames it over the file.
fn write_new<T: Storage>(file: &mut T, new: &[u8]) -> Result<(), StorageFault>
    requires { T.lockfile file.old ≡ Empty }
    ensures replaced { WhereKnown (T.texts file.old) (T.texts file.new)
        (λ before after. MatchResult result (λ _. Adds before after new.now)
        (λ _. MayAdd before after new.now)) }
    ensures lockfile { MatchResult result (λ _. T.lockfile file.new ≡ Absent)
        (λ _. T.lockfile file.new ≡ Unusable) }
{
    file.write(new)?;
    file.sync()?;
    file.rename()
}
