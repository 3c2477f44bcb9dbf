//! Protecting a received pack from `git gc` until refs reach its objects.

use crate::fault::RepositoryFault;
use std::alloc::Allocator;
use std::fs;
use std::fs::{File, Files};
use std::io::ErrorKind;

/// The file `pack-SUM.keep` of a received pack (git-index-pack(1), "--keep"). While this file
/// exists, `git gc` does not remove the pack, even if no ref reaches its objects yet. When the
/// `KeptPack` is dropped, it removes the file, unless the file existed before.
pub struct KeptPack<'r, R: Files, A: Allocator + Copy> {
    files: &'r R,
    // The path of the file, or `None` if the file already existed or there is no pack.
    path: Option<String<A>>,
}

impl<R: Files, A: Allocator + Copy> Drop for KeptPack<'_, R, A> {
    fn drop(self) {
        let KeptPack { files, path } = self;
        if let Some(path) = path {
            let _ = fs::remove_file(files, path.as_str());
        }
    }
}

impl<'r, R: Files, A: Allocator + Copy> KeptPack<'r, R, A> {
    /// Returns a `KeptPack` without a pack.
    pub(crate) fn none(files: &'r R) -> KeptPack<'r, R, A> {
        KeptPack { files, path: None }
    }

    /// Creates the file with this path, unless it exists. Fails with `File` if the system refuses a
    /// call, or with `Memory` if out of memory.
    pub(crate) fn make(
        alloc: A,
        files: &'r R,
        path: String<A>,
    ) -> Result<KeptPack<'r, R, A>, RepositoryFault<A>> {
        match File::create_new(files, path.as_str()) {
            Ok(_closed) => Ok(KeptPack {
                files,
                path: Some(path),
            }),
            Err(error) if error.kind() == ErrorKind::AlreadyExists => Ok(KeptPack::none(files)),
            Err(error) => Err(RepositoryFault::of_file(alloc, path.as_str(), error)),
        }
    }
}
