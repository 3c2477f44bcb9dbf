//! Files in memory, for test cases without a disk.

ghost use Rattle.std.specs.Prelude.{◌≡◌, Some};

use crate::fault::Cause;
use crate::files::{FolderTime, ObjectFiles, OpenPack};
use std::alloc::{AllocError, Allocator};
use std::io::ErrorKind;

#[derive(Drop)]
struct MemoryFile<A: Allocator + Copy> {
    path: String<A>,
    bytes: Vec<u8, A>,
}

/// Files in memory, by path. A folder exists if the path of a file begins with the path of the
/// folder and a slash.
#[derive(Drop)]
pub struct MemoryFiles<A: Allocator + Copy> {
    alloc: A,
    files: Vec<MemoryFile<A>, A>,
}

/// An open pack or index in memory.
#[derive(Drop)]
pub struct MemoryPack<A: Allocator + Copy> {
    bytes: Vec<u8, A>,
}

impl<A: Allocator + Copy> MemoryFiles<A> {
    /// Returns an empty collection of files.
    pub fn new(alloc: A) -> MemoryFiles<A> {
        let files = Vec::new(alloc);
        MemoryFiles { alloc, files }
    }

    /// Adds a file. An earlier file with the same path takes precedence.
    pub fn add(&mut self, path: &str, bytes: &[u8]) -> Result<(), AllocError> {
        let path = String::from_str(self.alloc, path)?;
        let bytes = bytes.to_vec(self.alloc)?;
        self.files.push(MemoryFile { path, bytes })?;
        Ok(())
    }

    // Returns the bytes of the file with this path, or `None` if there is no such file.
    fn bytes_of(&self, path: &str) -> Option<&[u8]> {
        for file in &self.files {
            if file.path.as_str() == path {
                return Some(file.bytes.as_slice());
            }
        }
        None
    }
}

// Returns the part of a path after this folder, or `None` if the path is not below the folder.
fn below<'a>(folder: &str, path: &'a str) -> Option<&'a str> {
    path.strip_prefix(folder)?.strip_prefix("/")
}

impl<A: Allocator + Copy> OpenPack for MemoryPack<A> {
    ghost bytes = { λ pack. Some pack.bytes.items };

    fn read_at<B: Allocator + Copy>(
        &mut self,
        alloc: B,
        start: usize,
        count: usize,
    ) -> Result<Vec<u8, B>, Cause> {
        let Some((_before, after)) = self.bytes.as_slice().split_at_checked(start) else {
            return Err(Cause::Read(ErrorKind::UnexpectedEof));
        };
        match after.split_at_checked(count) {
            Some((part, _after)) => Ok(part.to_vec(alloc)?),
            None => Err(Cause::Read(ErrorKind::UnexpectedEof)),
        }
    }

    fn fill_at(&mut self, start: usize, buffer: &mut [u8]) -> Result<(), Cause> {
        let Some((_before, after)) = self.bytes.as_slice().split_at_checked(start) else {
            return Err(Cause::Read(ErrorKind::UnexpectedEof));
        };
        match after.split_at_checked(buffer.len()) {
            Some((part, _after)) => {
                buffer.copy_from_slice(part);
                Ok(())
            }
            None => Err(Cause::Read(ErrorKind::UnexpectedEof)),
        }
    }
}

impl<A: Allocator + Copy> ObjectFiles for MemoryFiles<A> {
    type Pack = MemoryPack<A>;

    fn read<B: Allocator + Copy>(
        &self,
        alloc: B,
        path: &str,
        most: usize,
    ) -> Result<Option<Vec<u8, B>>, Cause> {
        match self.bytes_of(path) {
            Some(bytes) if bytes.len() <= most => Ok(Some(bytes.to_vec(alloc)?)),
            Some(_) => Err(Cause::FileSize),
            None => Ok(None),
        }
    }

    fn read_front<B: Allocator + Copy>(
        &self,
        alloc: B,
        path: &str,
        most: usize,
    ) -> Result<Option<Vec<u8, B>>, Cause> {
        match self.bytes_of(path) {
            Some(bytes) => {
                let count = bytes.len().min(most);
                Ok(Some(bytes[..count].to_vec(alloc)?))
            }
            None => Ok(None),
        }
    }

    fn exists(&self, path: &str) -> Result<bool, Cause> {
        for file in &self.files {
            let own = file.path.as_str();
            if own == path || below(path, own).is_some() {
                return Ok(true);
            }
        }
        Ok(false)
    }

    fn canonical<B: Allocator + Copy>(
        &self,
        alloc: B,
        path: &str,
    ) -> Result<Option<String<B>>, Cause> {
        if self.exists(path)? {
            Ok(Some(String::from_str(alloc, path)?))
        } else {
            Ok(None)
        }
    }

    fn open_pack(&self, path: &str) -> Result<Option<(MemoryPack<A>, usize)>, Cause> {
        match self.bytes_of(path) {
            Some(bytes) => {
                let length = bytes.len();
                let bytes = bytes.to_vec(self.alloc)?;
                Ok(Some((MemoryPack { bytes }, length)))
            }
            None => Ok(None),
        }
    }

    // Returns the number of all files instead of a time. The number changes when a file is added.
    fn change_time(&self, path: &str) -> Result<Option<FolderTime>, Cause> {
        if self.exists(path)? {
            Ok(Some(FolderTime {
                seconds: i64::try_from(self.files.len()).unwrap_or(i64::MAX),
                nanoseconds: 0,
                folder: 0,
            }))
        } else {
            Ok(None)
        }
    }

    fn list<B: Allocator + Copy>(&self, alloc: B, path: &str) -> Result<Vec<u8, B>, Cause> {
        let mut names = Vec::new(alloc);
        for file in &self.files {
            if let Some(name) = below(path, file.path.as_str()) {
                if !name.contains('/') {
                    names.extend_from_slice(name.as_bytes())?;
                    names.push(0)?;
                }
            }
        }
        Ok(names)
    }
}
