//! Files of a Git directory that can be locked and replaced.
//!
//! Unlike a `StoredFile` of `glockfile`, a `GitFile` may be missing, must not be a symbolic link,
//! and keeps the cause of a failure.

ghost use Rattle.std.specs.Prelude.{◌≡◌, IfOk, None};
ghost use Rattle.glockfile.specs.declared.storage.Lockfile.TheVariants.{Absent};

use crate::fault::{Cause, RefFault};
use crate::path::FilePath;
use glockfile::{Lockfile, Storage, StorageFault};
use std::alloc::{AllocError, Allocator, Global};
use std::fs::{File, Files, OpenFile};
use std::io::{ErrorKind, Read, Write};
use std::marker::Model;
use std::path::Path;
use std::{fs, io};

// The number of attempts to create a lockfile. They take some 20 milliseconds, because the program
// cannot sleep. Git tries for 100 milliseconds (core.filesRefLockTimeout in git-config(1)).
const LOCK_ATTEMPTS: u32 = 4_000;

/// A file of a Git directory, and its lockfile, which has the suffix `.lock`. A missing file counts
/// as empty, and locking the file creates its parent directories. The lockfile is open only while
/// it is written, so a thousand locks need only one file descriptor.
#[derive(Drop)]
pub(crate) struct GitFile<'r, R: Files, A: Allocator + Copy = Global> {
    files: &'r R,
    alloc: A,
    path: FilePath<A>,
    lock_path: String<A>,
    // The open lockfile, between writing and syncing.
    lock: Option<R::File>,
    is_locked: bool,
    // The state of the lockfile.
    lockfile: Lockfile,
    // The cause of the last failed call.
    cause: Option<Cause>,
}

impl<'r, R: Files, A: Allocator + Copy> Model for GitFile<'r, R, A> {
    ghost use Rattle.glockfile.specs.declared.storage.Lockfile.{Lockfile};

    ghost Value = { Lockfile };

    ghost view = { λ f. f.lockfile };
}

impl<'r, R: Files, A: Allocator + Copy> GitFile<'r, R, A> {
    /// Returns a `GitFile` for the file at this path, without opening the file. Fails only if out
    /// of memory.
    pub(crate) fn new(
        alloc: A,
        files: &'r R,
        path: FilePath<A>,
    ) -> Result<GitFile<'r, R, A>, AllocError>
        ensures { IfOk result (λ file. file ≡ Absent) }
    {
        let mut lock_path = String::from_str(alloc, path.as_str())?;
        lock_path.push_str(".lock")?;
        Ok(GitFile {
            files,
            alloc,
            path,
            lock_path,
            lock: None,
            is_locked: false,
            lockfile: Lockfile::Absent,
            cause: None,
        })
    }

    /// Returns the path of the file.
    pub(crate) fn path(&self) -> &str {
        self.path.as_str()
    }

    /// Converts the fault of a failed call to a `RefFault` with the stored cause.
    pub(crate) fn into_fault(self, fault: StorageFault) -> RefFault<A> {
        match (fault, self.cause) {
            (StorageFault::Failed, Some(cause)) => {
                RefFault::at(self.alloc, self.path.as_str(), cause)
            }
            _ => RefFault::Memory,
        }
    }

    // Stores the error of a failed system call as the cause, and returns the fault for the caller.
    fn refuse(&mut self, error: io::Error) -> StorageFault
        ensures { self.new ≡ self.old }
    {
        if error.kind() == ErrorKind::OutOfMemory {
            return StorageFault::Memory;
        }
        self.cause = Some(Cause::System(error));
        StorageFault::Failed
    }

    // Stores the cause of a failed call, and returns the fault for the caller.
    fn fail(&mut self, cause: Cause) -> StorageFault
        ensures { self.new ≡ self.old }
    {
        self.cause = Some(cause);
        StorageFault::Failed
    }

    // Returns whether the path names a symbolic link.
    fn is_symlink(&self) -> bool {
        match self.files.symlink_metadata(self.path.as_str()) {
            Ok(metadata) => metadata.is_symlink(),
            Err(_) => false,
        }
    }

    // Removes the directory at the path of the file. Fails with the cause `Conflict` if the
    // directory cannot be removed, for example because it is not empty.
    fn clear_directory(&mut self) -> Result<(), StorageFault>
        ensures { self.new ≡ self.old }
    {
        match fs::remove_dir(self.files, self.path.as_str()) {
            Ok(()) => Ok(()),
            Err(_) => Err(self.fail(Cause::Conflict)),
        }
    }
}

// Creates the lockfile of the file at this path, and the parent directories. Another process may
// hold the lock for a moment, or remove an empty parent directory (git-pack-refs(1)). So the attempt
// is repeated.
fn create_lock<R: Files>(files: &R, path: &str, lock_path: &str) -> Result<(), Cause> {
    for _ in 1..LOCK_ATTEMPTS {
        match try_lock(files, path, lock_path) {
            Err(Cause::Locked) => {}
            Err(Cause::System(error)) if error.kind() == ErrorKind::NotFound => {}
            result => return result,
        }
    }
    try_lock(files, path, lock_path)
}

fn try_lock<R: Files>(files: &R, path: &str, lock_path: &str) -> Result<(), Cause> {
    make_parents(files, path)?;
    match File::create_new(files, lock_path) {
        Ok(_closed) => Ok(()),
        Err(error) if error.kind() == ErrorKind::AlreadyExists => Err(Cause::Locked),
        Err(error) => Err(Cause::System(error)),
    }
}

// Creates the missing parent directories of a path, and syncs their names.
fn make_parents<R: Files>(files: &R, path: &str) -> Result<(), Cause> {
    let Some(parent) = Path::new(path).parent() else {
        return Ok(());
    };
    if parent.is_dir(files) {
        return Ok(());
    }
    let missing = count_missing(files, parent);
    match fs::create_dir_all(files, parent) {
        Ok(()) => {
            sync_names(files, parent, missing);
            Ok(())
        }
        Err(error) if is_no_directory(error.kind()) => Err(Cause::Conflict),
        Err(error) => Err(Cause::System(error)),
    }
}

// Returns the number of missing directories among this directory and its parents. Stops at the
// first directory that exists.
fn count_missing<R: Files>(files: &R, directory: Path<'_>) -> usize {
    let length = directory.as_str().len();
    let mut next = directory;
    for missing in 0..length {
        if next.exists(files) {
            return missing;
        }
        match next.parent() {
            Some(parent) => next = parent,
            None => return missing,
        }
    }
    length
}

// Syncs the names of this directory and of its parents, `count` names in all. A failure to sync a
// directory is ignored.
fn sync_names<R: Files>(files: &R, directory: Path<'_>, count: usize) {
    let mut next = directory;
    for _ in 0..count {
        let _ = sync_directory(files, next.as_str());
        match next.parent() {
            Some(parent) => next = parent,
            None => return,
        }
    }
}

// Returns whether an error of this kind means that a parent directory in the path is a file.
fn is_no_directory(kind: ErrorKind) -> bool {
    kind == ErrorKind::AlreadyExists || kind == ErrorKind::NotADirectory
}

/// Syncs the parent directory of a path, if the file system can sync directories.
pub(crate) fn sync_directory<R: Files>(files: &R, path: &str) -> io::Result<()> {
    let parent = match Path::new(path).parent() {
        Some(parent) if parent.as_str().is_empty() => Path::new("."),
        Some(parent) => parent,
        None => return Ok(()),
    };
    match File::open(files, parent)?.sync_all() {
        Err(error) if cannot_sync(error.kind()) => Ok(()),
        result => result,
    }
}

// Returns whether a sync that failed with this error can never succeed (fsync(2), "ERRORS").
fn cannot_sync(kind: ErrorKind) -> bool {
    matches!(kind, ErrorKind::InvalidInput | ErrorKind::Unsupported)
}

impl<R: Files, A: Allocator + Copy> Storage for GitFile<'_, R, A> {
    ghost texts = { λ _. None };

    ghost lockfile = { λ f. f };

    fn lock(&mut self) -> Result<(), StorageFault> {
        match create_lock(self.files, self.path.as_str(), self.lock_path.as_str()) {
            Ok(()) => {
                self.is_locked = true;
                self.lockfile = Lockfile::Empty;
                Ok(())
            }
            Err(Cause::System(error)) => Err(self.refuse(error)),
            Err(cause) => Err(self.fail(cause)),
        }
    }

    fn read<B: Allocator + Copy>(&mut self, alloc: B) -> Result<Vec<u8, B>, StorageFault> {
        let mut text = Vec::new(alloc);
        if self.is_symlink() {
            return Err(self.fail(Cause::Symbolic));
        }
        let mut file = match File::open(self.files, self.path.as_str()) {
            Ok(file) => file,
            Err(error) if error.kind() == ErrorKind::NotFound => return Ok(text),
            Err(error) => return Err(self.refuse(error)),
        };
        match file.read_to_end(&mut text) {
            Ok(0) => Err(self.fail(Cause::Malformed)),
            Ok(_) => Ok(text),
            Err(error) if error.kind() == ErrorKind::IsADirectory => {
                self.clear_directory()?;
                Ok(Vec::new(alloc))
            }
            Err(error) => Err(self.refuse(error)),
        }
    }

    fn write(&mut self, text: &[u8]) -> Result<(), StorageFault> {
        self.lockfile = Lockfile::Unusable;
        let mut lock = match File::create(self.files, self.lock_path.as_str()) {
            Ok(lock) => lock,
            Err(error) => return Err(self.refuse(error)),
        };
        if let Err(error) = lock.write_all(text) {
            return Err(self.refuse(error));
        }
        self.lock = Some(lock);
        self.lockfile = Lockfile::Written;
        Ok(())
    }

    fn sync(&mut self) -> Result<(), StorageFault> {
        self.lockfile = Lockfile::Unusable;
        let Some(lock) = self.lock.take() else {
            return Err(StorageFault::Failed);
        };
        if let Err(error) = lock.sync_all() {
            return Err(self.refuse(error));
        }
        self.lockfile = Lockfile::Synced;
        Ok(())
    }

    fn rename(&mut self) -> Result<(), StorageFault> {
        self.lockfile = Lockfile::Unusable;
        if let Err(error) = fs::rename(self.files, self.lock_path.as_str(), self.path.as_str()) {
            return Err(self.refuse(error));
        }
        // A failure to sync the directory is ignored, since the file is already replaced.
        let _ = sync_directory(self.files, self.path.as_str());
        self.lock = None;
        self.is_locked = false;
        self.lockfile = Lockfile::Absent;
        Ok(())
    }

    fn unlock(&mut self) {
        if self.is_locked {
            let _ = fs::remove_file(self.files, self.lock_path.as_str());
        }
        self.lock = None;
        self.is_locked = false;
        self.lockfile = Lockfile::Absent;
    }
}
