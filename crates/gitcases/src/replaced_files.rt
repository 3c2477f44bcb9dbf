//! Files that change while a test reads them.

use gitobjects::{Cause, FolderTime, MemoryFiles, MemoryPack, ObjectFiles};
use std::alloc::Allocator;
use std::cell::Cell;

/// Files that are replaced by other files after a given number of file-system calls.
#[derive(Drop)]
pub(crate) struct ReplacedFiles<'f, A: Allocator + Copy> {
    original: &'f MemoryFiles<A>,
    replacement: &'f MemoryFiles<A>,
    calls_left: Cell<u64>,
}

impl<'f, A: Allocator + Copy> ReplacedFiles<'f, A> {
    /// Returns files that are `original` for the next `calls_left` file-system calls, and
    /// `replacement` afterwards.
    pub(crate) fn new(
        original: &'f MemoryFiles<A>,
        replacement: &'f MemoryFiles<A>,
        calls_left: u64,
    ) -> ReplacedFiles<'f, A> {
        ReplacedFiles {
            original,
            replacement,
            calls_left: Cell::new(calls_left),
        }
    }

    // Counts a file-system call, and returns the files that the call uses: the original files or
    // their replacements.
    fn files(&self) -> &'f MemoryFiles<A> {
        match self.calls_left.get().checked_sub(1) {
            Some(calls_left) => {
                self.calls_left.set(calls_left);
                self.original
            }
            None => self.replacement,
        }
    }
}

impl<'f, A: Allocator + Copy> ObjectFiles for ReplacedFiles<'f, A> {
    type Pack = MemoryPack<A>;

    fn read<B: Allocator + Copy>(
        &self,
        alloc: B,
        path: &str,
        most: usize,
    ) -> Result<Option<Vec<u8, B>>, Cause> {
        self.files().read(alloc, path, most)
    }

    fn read_front<B: Allocator + Copy>(
        &self,
        alloc: B,
        path: &str,
        most: usize,
    ) -> Result<Option<Vec<u8, B>>, Cause> {
        self.files().read_front(alloc, path, most)
    }

    fn exists(&self, path: &str) -> Result<bool, Cause> {
        self.files().exists(path)
    }

    fn canonical<B: Allocator + Copy>(
        &self,
        alloc: B,
        path: &str,
    ) -> Result<Option<String<B>>, Cause> {
        self.files().canonical(alloc, path)
    }

    fn open_pack(&self, path: &str) -> Result<Option<(MemoryPack<A>, usize)>, Cause> {
        self.files().open_pack(path)
    }

    // Returns the change time of a folder. The time is later once the files are replaced.
    fn change_time(&self, path: &str) -> Result<Option<FolderTime>, Cause> {
        let is_replaced = self.calls_left.get() == 0;
        match self.files().change_time(path)? {
            Some(time) if is_replaced => Ok(Some(later(time))),
            time => Ok(time),
        }
    }

    fn list<B: Allocator + Copy>(&self, alloc: B, path: &str) -> Result<Vec<u8, B>, Cause> {
        self.files().list(alloc, path)
    }
}

fn later(time: FolderTime) -> FolderTime {
    FolderTime {
        seconds: time.seconds.wrapping_add(1),
        nanoseconds: time.nanoseconds,
        folder: time.folder,
    }
}
