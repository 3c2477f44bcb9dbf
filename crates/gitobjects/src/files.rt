//! The files that hold objects.

ghost use Rattle.std.specs.Prelude.{◌≡◌, ℕ, List, Option, IfOk, OnOk, vec_len};
ghost use Rattle.gitobjects.specs.Windows.{IsPart};

use crate::fault::Cause;
use std::alloc::Allocator;

/// An open file whose bytes can be read in any order.
pub trait OpenPack {
    // All bytes of the file, or `None` if the contracts do not describe the bytes. The bytes do not
    // change.
    ghost bytes: { Self → Option (List ℕ) };

    /// Reads `count` bytes starting at `start`. Fails with `Read` if the file is too short or a
    /// system call fails. Fails with `Memory` if out of memory.
    fn read_at<A: Allocator + Copy>(
        &mut self,
        alloc: A,
        start: usize,
        count: usize,
    ) -> Result<Vec<u8, A>, Cause>
        ensures part { IfOk result (λ part. IsPart (bytes self.old) start part.items) }
        ensures count { IfOk result (λ part. vec_len part ≡ count) }
        ensures bytes { bytes self.new ≡ bytes self.old };

    /// Fills the buffer with the bytes starting at `start`. Fails with `Read` if the file is too
    /// short or a system call fails. After a fault the buffer may hold any bytes.
    fn fill_at(&mut self, start: usize, buffer: &mut [u8]) -> Result<(), Cause>
        ensures part { OnOk result (IsPart (bytes self.old) start buffer.new) }
        ensures bytes { bytes self.new ≡ bytes self.old };
}

/// The time of the last change of the names in a folder, and the inode number of the folder. Two
/// values are compared only for equality.
#[derive(Clone, Copy, Debug, PartialEq, Eq)]
pub struct FolderTime {
    /// The number of full seconds since 1970.
    pub seconds: i64,
    /// The number of nanoseconds since the last full second.
    pub nanoseconds: i64,
    /// The inode number of the folder.
    pub folder: u64,
}

/// Access to the object files of a Git directory.
pub trait ObjectFiles {
    /// The type of an open pack or index.
    type Pack: OpenPack + Drop;

    /// Returns the bytes of a file, or `None` if there is no such file. Fails with `Open` or `Read`
    /// if a system call fails, or with `FileSize` if the file has more than `most` bytes.
    fn read<A: Allocator + Copy>(
        &self,
        alloc: A,
        path: &str,
        most: usize,
    ) -> Result<Option<Vec<u8, A>>, Cause>;

    /// Returns the first `most` bytes of a file, or all bytes if the file is shorter. Returns
    /// `None` if there is no such file. Fails with `Open` or `Read` if a system call fails.
    fn read_front<A: Allocator + Copy>(
        &self,
        alloc: A,
        path: &str,
        most: usize,
    ) -> Result<Option<Vec<u8, A>>, Cause>;

    /// Returns whether there is a file or a folder with this path. Fails with `Open` if a system
    /// call fails.
    fn exists(&self, path: &str) -> Result<bool, Cause>;

    /// Returns the canonical path of a folder: absolute, without symbolic links, `.` or `..`.
    /// Returns `None` if there is no such folder. Fails with `Open` if a system call fails.
    fn canonical<A: Allocator + Copy>(
        &self,
        alloc: A,
        path: &str,
    ) -> Result<Option<String<A>>, Cause>;

    /// Opens a pack or an index, and returns the open file and its length. Returns `None` if there
    /// is no such file. Fails with `Open` if a system call fails.
    fn open_pack(&self, path: &str) -> Result<Option<(Self::Pack, usize)>, Cause>;

    /// Returns the time of the last change of the names in a folder, or `None` if there is no such
    /// folder. Fails with `List` if a system call fails.
    fn change_time(&self, path: &str) -> Result<Option<FolderTime>, Cause>;

    /// Returns the NUL-terminated names in a folder, or no names if there is no such folder. Fails
    /// with `List` if a system call fails, or with `FileSize` if the names have more than
    /// [`crate::MAX_NAMES`] bytes.
    fn list<A: Allocator + Copy>(&self, alloc: A, path: &str) -> Result<Vec<u8, A>, Cause>;
}
