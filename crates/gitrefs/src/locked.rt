//! Files that this process has locked.

ghost use Rattle.std.specs.Prelude.{◌≡◌, MatchResult, OnOk};
ghost use Rattle.glockfile.specs.Storing.{HasWritten, KeepsStates, Renames, WhereKnown};
ghost use Rattle.glockfile.specs.declared.storage.Lockfile.TheVariants.{Absent, Empty, Synced, Unusable};
ghost use Rattle.gitrefs.specs.Texts.{ref_text};

use crate::fault::RefFault;
use crate::git_file::GitFile;
use crate::texts::ref_text;
use glockfile::{Storage, StorageFault, open_file, replace_file};
use gname::Oid;
use std::alloc::Allocator;
use std::fs::Files;

/// A file that this process has locked, with its text. The lockfile is removed when the value is
/// dropped.
pub(crate) struct LockedFile<'r, R: Files, A: Allocator + Copy> {
    file: GitFile<'r, R, A>,
    text: Vec<u8, A>,
    ghost locked: { file ≡ Empty },
}

impl<R: Files, A: Allocator + Copy> Drop for LockedFile<'_, R, A> {
    fn drop(self) {
        let LockedFile { mut file, text: _ } = self;
        file.unlock();
    }
}

impl<'r, R: Files, A: Allocator + Copy> LockedFile<'r, R, A> {
    /// Locks a file, and reads it.
    pub(crate) fn lock(
        alloc: A,
        mut file: GitFile<'r, R, A>,
    ) -> Result<LockedFile<'r, R, A>, RefFault<A>>
        requires { file ≡ Absent }
    {
        match open_file(alloc, &mut file) {
            Ok(text) => Ok(LockedFile { file, text }),
            Err(fault) => Err(file.into_fault(fault)),
        }
    }

    /// Returns the path of the file.
    pub(crate) fn path(&self) -> &str {
        self.file.path()
    }

    /// Returns the text of the file, which is empty if the file does not exist.
    pub(crate) fn text(&self) -> &[u8] {
        self.text.as_slice()
    }

    /// Replaces the text of the file, and unlocks the file.
    pub(crate) fn replace(self, new: &[u8]) -> Result<(), RefFault<A>> {
        let LockedFile { mut file, text } = self;
        match replace_file(&mut file, text.as_slice(), new) {
            Ok(()) => Ok(()),
            Err(fault) => Err(file.into_fault(fault)),
        }
    }

    /// Writes an id to the lockfile, and syncs the lockfile. The file itself is unchanged.
    pub(crate) fn prepare(self, alloc: A, id: &Oid) -> Result<PreparedFile<'r, R, A>, RefFault<A>> {
        let LockedFile { mut file, text: _ } = self;
        match prepare_ref(alloc, &mut file, id) {
            Ok(()) => Ok(PreparedFile { file }),
            Err(fault) => Err(file.into_fault(fault)),
        }
    }
}

/// A locked file whose new text is already in the synced lockfile. The lockfile is removed when the
/// value is dropped.
pub(crate) struct PreparedFile<'r, R: Files, A: Allocator + Copy> {
    file: GitFile<'r, R, A>,
    ghost prepared: { file ≡ Synced },
}

impl<R: Files, A: Allocator + Copy> Drop for PreparedFile<'_, R, A> {
    fn drop(self) {
        let PreparedFile { mut file } = self;
        file.unlock();
    }
}

impl<'r, R: Files, A: Allocator + Copy> PreparedFile<'r, R, A> {
    /// Replaces the file with its lockfile.
    pub(crate) fn commit(self) -> Result<(), RefFault<A>> {
        let PreparedFile { mut file } = self;
        match commit_file(&mut file) {
            Ok(()) => Ok(()),
            Err(fault) => Err(file.into_fault(fault)),
        }
    }
}

/// Writes an id to the lockfile of a locked ref file, and syncs the lockfile (git-update-ref(1)).
///
/// Fails with `Failed` if the storage fails, or with `Memory` if out of memory. A failed call
/// removes the lockfile. The ref file is unchanged.
pub fn prepare_ref<A: Allocator + Copy, T: Storage>(
    alloc: A,
    file: &mut T,
    id: &Oid,
) -> Result<(), StorageFault>
    requires { T.lockfile file.old ≡ Empty }
    ensures written { OnOk result (HasWritten (T.texts file.new) (ref_text id.now)) }
    ensures states { KeepsStates (T.texts file.old) (T.texts file.new) }
    ensures lockfile { MatchResult result (λ _. T.lockfile file.new ≡ Synced)
        (λ _. T.lockfile file.new ≡ Absent) }
{
    match ref_text(alloc, id) {
        Ok(text) => prepare_text(file, text.as_slice()),
        Err(_) => {
            file.unlock();
            Err(StorageFault::Memory)
        }
    }
}

// Writes a text to the lockfile, and syncs the lockfile. Removes the lockfile on failure.
fn prepare_text<T: Storage>(file: &mut T, text: &[u8]) -> Result<(), StorageFault>
    requires { T.lockfile file.old ≡ Empty }
    ensures written { OnOk result (HasWritten (T.texts file.new) text.now) }
    ensures states { KeepsStates (T.texts file.old) (T.texts file.new) }
    ensures lockfile { MatchResult result (λ _. T.lockfile file.new ≡ Synced)
        (λ _. T.lockfile file.new ≡ Absent) }
{
    match write_text(file, text) {
        Ok(()) => Ok(()),
        Err(fault) => {
            file.unlock();
            Err(fault)
        }
    }
}

// Writes a text to the lockfile, and syncs the lockfile.
fn write_text<T: Storage>(file: &mut T, text: &[u8]) -> Result<(), StorageFault>
    requires { T.lockfile file.old ≡ Empty }
    ensures written { OnOk result (HasWritten (T.texts file.new) text.now) }
    ensures states { KeepsStates (T.texts file.old) (T.texts file.new) }
    ensures lockfile { MatchResult result (λ _. T.lockfile file.new ≡ Synced)
        (λ _. T.lockfile file.new ≡ Unusable) }
{
    file.write(text)?;
    file.sync()
}

/// Replaces a file with its lockfile, which unlocks the file.
///
/// Fails with `Failed` if the storage fails, or with `Memory` if out of memory. A failed call
/// leaves either the old text or the whole new text in the file. The file is unlocked in any case.
pub fn commit_file<T: Storage>(file: &mut T) -> Result<(), StorageFault>
    requires { T.lockfile file.old ≡ Synced }
    ensures states { WhereKnown (T.texts file.old) (T.texts file.new)
        (λ before after. Renames before after result) }
    ensures lockfile { T.lockfile file.new ≡ Absent }
{
    match file.rename() {
        Ok(()) => Ok(()),
        Err(fault) => {
            file.unlock();
            Err(fault)
        }
    }
}
