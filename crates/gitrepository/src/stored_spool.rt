//! The spool of a received pack, in the folder of packs of a Git directory.

ghost use Rattle.std.specs.Prelude.{◌≡◌, [], false};

use crate::fault::RepositoryFault;
use crate::temporary::{Temporary, make_folder};
use crate::written::Written;
use gitpack::{Spool, SpoolFault};
use std::alloc::Allocator;
use std::fs::Files;
use std::io;
use std::io::ErrorKind;

/// The spool of a received pack: a temporary file in the folder of packs of a Git directory. The
/// file is created when the first bytes arrive. If the pack is not installed, the file is removed
/// when the spool is dropped.
#[derive(Drop)]
pub struct StoredSpool<'r, R: Files, A: Allocator + Copy> {
    alloc: A,
    files: &'r R,
    git_dir: &'r str,
    // The file, or `None` before the first bytes arrive.
    file: Option<Temporary<'r, R, A>>,
    length: usize,
    written: Written,
}

impl<'r, R: Files, A: Allocator + Copy> StoredSpool<'r, R, A> {
    /// Returns an empty spool.
    pub(crate) fn new(alloc: A, files: &'r R, git_dir: &'r str) -> StoredSpool<'r, R, A>
        ensures { result.written.bytes ≡ [] }
    {
        StoredSpool {
            alloc,
            files,
            git_dir,
            file: None,
            length: 0,
            written: Written::new(),
        }
    }

    /// Returns the temporary file, or `None` if no bytes arrived.
    pub(crate) fn into_file(self) -> Option<Temporary<'r, R, A>> {
        self.file
    }

    // Creates the file, unless it exists.
    fn prepare(&mut self) -> Result<(), SpoolFault>
        ensures { self.new.written.bytes ≡ self.old.written.bytes }
    {
        if self.file.is_some() {
            return Ok(());
        }
        match create(self.alloc, self.files, self.git_dir) {
            Ok(file) => {
                self.file = Some(file);
                Ok(())
            }
            Err(fault) => Err(fault_of(fault)),
        }
    }

    // Writes bytes at the end of the file.
    fn write(&mut self, piece: &[u8]) -> Result<(), SpoolFault>
        ensures { self.new.written.bytes ≡ self.old.written.bytes }
    {
        let Some(file) = &self.file else {
            return Err(SpoolFault::File(ErrorKind::NotFound));
        };
        match file.write_at(self.length, piece) {
            Ok(()) => {
                self.length = self.length.saturating_add(piece.len());
                Ok(())
            }
            Err(error) => Err(fault_of_error(&error)),
        }
    }
}

// Creates the temporary file of a pack.
fn create<'r, R: Files, A: Allocator + Copy>(
    alloc: A,
    files: &'r R,
    git_dir: &str,
) -> Result<Temporary<'r, R, A>, RepositoryFault<A>> {
    let folder = make_folder(alloc, files, git_dir)?;
    Temporary::create(alloc, files, folder.as_str(), "tmp_pack")
}

// Converts the fault of creating a file to a `SpoolFault`.
fn fault_of<A: Allocator + Copy>(fault: RepositoryFault<A>) -> SpoolFault {
    match fault {
        RepositoryFault::Memory => SpoolFault::Memory,
        RepositoryFault::File { error, .. } => fault_of_error(&error),
        _ => SpoolFault::File(ErrorKind::Other),
    }
}

// Converts an error of the system to a `SpoolFault`.
fn fault_of_error(error: &io::Error) -> SpoolFault {
    match error.kind() {
        ErrorKind::OutOfMemory => SpoolFault::Memory,
        kind => SpoolFault::File(kind),
    }
}

impl<R: Files, A: Allocator + Copy> Spool for StoredSpool<'_, R, A> {
    ghost bytes = { λ spool. spool.written.bytes };

    ghost is_known = { false };

    fn append(&mut self, piece: &[u8]) -> Result<(), SpoolFault> {
        self.prepare()?;
        self.write(piece)?;
        self.written.add(piece);
        Ok(())
    }

    fn read_at(&self, start: usize, buffer: &mut [u8]) -> Result<(), SpoolFault> {
        let Some(file) = &self.file else {
            return Err(SpoolFault::File(ErrorKind::NotFound));
        };
        match file.read_at(start, buffer) {
            Ok(()) => Ok(()),
            Err(error) => Err(fault_of_error(&error)),
        }
    }
}
