//! Temporary files in a folder of packs.

use crate::fault::RepositoryFault;
use std::alloc::Allocator;
use std::cell::RefCell;
use std::fs::{File, Files, OpenFile, OpenOptions};
use std::io::{ErrorKind, Read, Seek, SeekFrom, Write};
use std::os::unix::fs::OpenOptionsExt;
use std::{fs, io};

// The number of temporary file names to try.
const MAX_TRIES: usize = 1_000;

// The file from which the system returns random bytes (random(4)).
const RANDOM: &str = "/dev/urandom";

// The permissions of a pack and its index, as in Git: everyone may read, and no one may write.
const READ_ONLY: u32 = 0o444;

/// A temporary file that this process created in a folder of packs. The file is removed when the
/// value is dropped, unless the file was renamed.
pub(crate) struct Temporary<'r, R: Files, A: Allocator + Copy> {
    files: &'r R,
    path: String<A>,
    file: RefCell<R::File>,
    is_renamed: bool,
}

impl<R: Files, A: Allocator + Copy> Drop for Temporary<'_, R, A> {
    fn drop(self) {
        let Temporary {
            files,
            path,
            file: _file,
            is_renamed,
        } = self;
        if !is_renamed {
            let _ = fs::remove_file(files, path.as_str());
        }
    }
}

impl<'r, R: Files, A: Allocator + Copy> Temporary<'r, R, A> {
    /// Creates an empty file in a folder. The name of the file begins with `name`, and ends with
    /// random digits. Git may remove an old temporary file (git-prune(1)). The digits make it
    /// unlikely that another process then creates a file with the same name.
    pub(crate) fn create(
        alloc: A,
        files: &'r R,
        folder: &str,
        name: &str,
    ) -> Result<Temporary<'r, R, A>, RepositoryFault<A>> {
        let random = random_number(files);
        for number in 0..MAX_TRIES {
            let path = format!(in alloc; "{folder}/{name}_{random:016x}{number}")?;
            match open_new(files, path.as_str()) {
                Ok(file) => return Ok(Temporary {
                    files,
                    path,
                    file: RefCell::new(file),
                    is_renamed: false,
                }),
                Err(error) if error.kind() == ErrorKind::AlreadyExists => {}
                Err(error) => return Err(RepositoryFault::of_file(alloc, path.as_str(), error)),
            }
        }
        let error = io::Error::from(ErrorKind::AlreadyExists);
        Err(RepositoryFault::of_file(alloc, folder, error))
    }

    /// Returns the path of the file.
    pub(crate) fn path(&self) -> &str {
        self.path.as_str()
    }

    /// Writes bytes at this offset.
    pub(crate) fn write_at(&self, start: usize, bytes: &[u8]) -> io::Result<()> {
        let Ok(mut file) = self.file.try_borrow_mut() else {
            return Err(io::Error::from(ErrorKind::ResourceBusy));
        };
        file.seek(SeekFrom::Start(start as u64))?;
        file.write_all(bytes)
    }

    /// Fills the buffer with the bytes at this offset.
    pub(crate) fn read_at(&self, start: usize, buffer: &mut [u8]) -> io::Result<()> {
        let Ok(mut file) = self.file.try_borrow_mut() else {
            return Err(io::Error::from(ErrorKind::ResourceBusy));
        };
        file.seek(SeekFrom::Start(start as u64))?;
        file.read_exact(buffer)
    }

    /// Syncs the file.
    pub(crate) fn sync(&self) -> io::Result<()> {
        match self.file.try_borrow() {
            Ok(file) => file.sync_all(),
            Err(_) => Err(io::Error::from(ErrorKind::ResourceBusy)),
        }
    }

    /// Renames the file.
    pub(crate) fn rename(&mut self, path: &str) -> io::Result<()> {
        fs::rename(self.files, self.path.as_str(), path)?;
        self.is_renamed = true;
        Ok(())
    }
}

// Returns a random number, or 0 if the system returns no random bytes.
fn random_number<R: Files>(files: &R) -> u64 {
    let mut bytes = [0; 8];
    match read_random(files, &mut bytes) {
        Ok(()) => u64::from_be_bytes(bytes),
        Err(_) => 0,
    }
}

fn read_random<R: Files>(files: &R, bytes: &mut [u8]) -> io::Result<()> {
    let mut file = File::open(files, RANDOM)?;
    file.read_exact(bytes)
}

// Creates a new file.
fn open_new<R: Files>(files: &R, path: &str) -> io::Result<R::File> {
    OpenOptions::new()
        .read(true)
        .write(true)
        .create_new(true)
        .mode(READ_ONLY)
        .open(files, path)
}

/// Syncs a folder, if the file system can sync folders.
pub(crate) fn sync_folder<R: Files>(files: &R, path: &str) -> io::Result<()> {
    match File::open(files, path)?.sync_all() {
        Err(error) if cannot_sync(error.kind()) => Ok(()),
        result => result,
    }
}

// Returns whether a sync that failed with this error can never succeed (fsync(2), "ERRORS").
fn cannot_sync(kind: ErrorKind) -> bool {
    matches!(kind, ErrorKind::InvalidInput | ErrorKind::Unsupported)
}

/// Returns the path of the folder of packs of a Git directory. Creates the folder if it does not
/// exist.
pub(crate) fn make_folder<R: Files, A: Allocator + Copy>(
    alloc: A,
    files: &R,
    git_dir: &str,
) -> Result<String<A>, RepositoryFault<A>> {
    let mut path = String::from_str(alloc, git_dir)?;
    path.push_str("/objects")?;
    let objects = String::from_str(alloc, path.as_str())?;
    path.push_str("/pack")?;
    match fs::create_dir(files, path.as_str()) {
        Ok(()) => match sync_folder(files, objects.as_str()) {
            Ok(()) => Ok(path),
            Err(error) => Err(RepositoryFault::of_file(alloc, objects.as_str(), error)),
        },
        Err(error) if error.kind() == ErrorKind::AlreadyExists => Ok(path),
        Err(error) => Err(RepositoryFault::of_file(alloc, path.as_str(), error)),
    }
}
