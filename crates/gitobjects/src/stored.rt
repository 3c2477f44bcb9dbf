//! Access to files through the operating system.

ghost use Rattle.std.specs.Prelude.{◌≡◌, None, IfOk, vec_len};

use crate::fault::Cause;
use crate::files::{FolderTime, ObjectFiles, OpenPack};
use crate::limits::MAX_NAMES;
use std::alloc::Allocator;
use std::fs::{File, Files, OpenFile};
use std::io::{ErrorKind, Read, Seek, SeekFrom};
use std::os::unix::fs::MetadataExt;

/// Access to files through the operating system.
#[derive(Drop)]
pub struct StoredFiles<'r, R: Files> {
    files: &'r R,
}

impl<'r, R: Files> StoredFiles<'r, R> {
    /// Returns a `StoredFiles` that accesses files through this runtime.
    pub fn new(files: &'r R) -> StoredFiles<'r, R> {
        StoredFiles { files }
    }
}

/// An open pack or index file.
#[derive(Drop)]
pub struct StoredPack<H: Read + Seek + Drop> {
    file: H,
}

impl<H: Read + Seek + Drop> OpenPack for StoredPack<H> {
    ghost bytes = { λ _. None };

    fn read_at<A: Allocator + Copy>(
        &mut self,
        alloc: A,
        start: usize,
        count: usize,
    ) -> Result<Vec<u8, A>, Cause> {
        match self.file.seek(SeekFrom::Start(start as u64)) {
            Ok(_) => read_bytes(alloc, &mut self.file, count),
            Err(error) => Err(Cause::read(&error)),
        }
    }

    fn fill_at(&mut self, start: usize, buffer: &mut [u8]) -> Result<(), Cause> {
        if let Err(error) = self.file.seek(SeekFrom::Start(start as u64)) {
            return Err(Cause::read(&error));
        }
        match self.file.read_exact(buffer) {
            Ok(()) => Ok(()),
            Err(error) => Err(Cause::read(&error)),
        }
    }
}

// Reads the next `count` bytes of a file.
fn read_bytes<H: Read, A: Allocator + Copy>(
    alloc: A,
    file: &mut H,
    count: usize,
) -> Result<Vec<u8, A>, Cause>
    ensures { IfOk result (λ bytes. vec_len bytes ≡ count) }
{
    let mut bytes = Vec::new(alloc);
    bytes.resize(count, 0)?;
    match file.read_exact(bytes.as_mut_slice()) {
        Ok(()) => Ok(bytes),
        Err(error) => Err(Cause::read(&error)),
    }
}

// Returns whether an error of this kind means that there is no such file.
fn is_missing(kind: ErrorKind) -> bool {
    kind == ErrorKind::NotFound || kind == ErrorKind::NotADirectory
}

// Returns whether a path names something that is neither a regular file nor a folder.
fn is_special<R: Files>(files: &R, path: &str) -> bool {
    match files.metadata(path) {
        Ok(metadata) => !metadata.is_file() && !metadata.is_dir(),
        Err(_) => false,
    }
}

// Opens a file, and returns the open file and its length. Returns `None` if there is no such file.
// Fails for a special file such as a pipe, because opening a pipe might block forever.
fn open_file<R: Files>(files: &R, path: &str) -> Result<Option<(R::File, usize)>, Cause> {
    if is_special(files, path) {
        return Err(Cause::Open(ErrorKind::Unsupported));
    }
    let file = match File::open(files, path) {
        Ok(file) => file,
        Err(error) if is_missing(error.kind()) => return Ok(None),
        Err(error) => return Err(Cause::open(&error)),
    };
    match file.metadata() {
        Ok(metadata) => match usize::try_from(metadata.len()) {
            Ok(length) => Ok(Some((file, length))),
            Err(_) => Err(Cause::FileSize),
        },
        Err(error) => Err(Cause::open(&error)),
    }
}

// The maximum number of bytes that one read call on an open folder returns.
const PART: usize = 16_384;

// The maximum number of read calls for one listing of a folder. With 256 bytes per call, this
// number of calls reads `MAX_NAMES` bytes.
const MAX_PARTS: usize = MAX_NAMES / 256;

// Returns the NUL-terminated names in an open folder.
fn read_names<D: Read, A: Allocator + Copy>(alloc: A, folder: &mut D) -> Result<Vec<u8, A>, Cause> {
    let mut names = Vec::new(alloc);
    let mut part = [0; PART];
    for _part in 0..MAX_PARTS {
        let count = match folder.read(&mut part) {
            Ok(count) => count,
            Err(error) => return Err(Cause::list(&error)),
        };
        if count == 0 {
            return Ok(names);
        }
        if names.len() > MAX_NAMES {
            break;
        }
        names.extend_from_slice(&part[..count])?;
    }
    Err(Cause::FileSize)
}

impl<R: Files> ObjectFiles for StoredFiles<'_, R> {
    type Pack = StoredPack<R::File>;

    fn read<A: Allocator + Copy>(
        &self,
        alloc: A,
        path: &str,
        most: usize,
    ) -> Result<Option<Vec<u8, A>>, Cause> {
        let Some((mut file, length)) = open_file(self.files, path)? else {
            return Ok(None);
        };
        if length > most {
            return Err(Cause::FileSize);
        }
        Ok(Some(read_bytes(alloc, &mut file, length)?))
    }

    fn read_front<A: Allocator + Copy>(
        &self,
        alloc: A,
        path: &str,
        most: usize,
    ) -> Result<Option<Vec<u8, A>>, Cause> {
        let Some((mut file, length)) = open_file(self.files, path)? else {
            return Ok(None);
        };
        Ok(Some(read_bytes(alloc, &mut file, length.min(most))?))
    }

    fn exists(&self, path: &str) -> Result<bool, Cause> {
        match self.files.metadata(path) {
            Ok(_) => Ok(true),
            Err(error) if is_missing(error.kind()) => Ok(false),
            Err(error) => Err(Cause::open(&error)),
        }
    }

    fn canonical<A: Allocator + Copy>(
        &self,
        alloc: A,
        path: &str,
    ) -> Result<Option<String<A>>, Cause> {
        match self.files.canonicalize(alloc, path) {
            Ok(canonical) => Ok(Some(String::from_str(alloc, canonical.as_str())?)),
            Err(error) if is_missing(error.kind()) => Ok(None),
            Err(error) => Err(Cause::open(&error)),
        }
    }

    fn open_pack(&self, path: &str) -> Result<Option<(StoredPack<R::File>, usize)>, Cause> {
        match open_file(self.files, path)? {
            Some((file, length)) => Ok(Some((StoredPack { file }, length))),
            None => Ok(None),
        }
    }

    fn change_time(&self, path: &str) -> Result<Option<FolderTime>, Cause> {
        match self.files.metadata(path) {
            Ok(metadata) => Ok(Some(FolderTime {
                seconds: metadata.mtime(),
                nanoseconds: metadata.mtime_nsec(),
                folder: metadata.ino(),
            })),
            Err(error) if is_missing(error.kind()) => Ok(None),
            Err(error) => Err(Cause::list(&error)),
        }
    }

    fn list<A: Allocator + Copy>(&self, alloc: A, path: &str) -> Result<Vec<u8, A>, Cause> {
        match self.files.open_dir(path) {
            Ok(mut folder) => read_names(alloc, &mut folder),
            Err(error) if is_missing(error.kind()) => Ok(Vec::new(alloc)),
            Err(error) => Err(Cause::list(&error)),
        }
    }
}
