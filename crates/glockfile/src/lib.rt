//! A file that is replaced as a whole or not at all, with Git's lockfile protocol (`lockfile.h` in
//! Git's sources).
//!
//! A run of a program first creates `FILE.lock`, and fails if this lockfile already exists. Then
//! the run reads FILE. Finally it writes the new text to the lockfile, syncs the lockfile, and
//! renames it to FILE.
//!
//! # Proved
//!
//! - [`open_file`] returns the text of the file, and does not change the file. After the call, the
//!   run holds the lockfile exactly if the call returned `Ok`.
//! - [`replace_file`] replaces the text of the file by the new text, or leaves the file unchanged
//!   if both texts are equal (`specs/Storing.antt`). During and after the call the file has the old
//!   text or the whole new text. After `Ok` the file has the new text. When the call returns, the
//!   run holds no lockfile.
//! - The calls of a [`Storage`] have a fixed order, because each call requires a certain state of
//!   the lockfile. The lockfile is renamed only after its text is synced, and the file is read only
//!   while it is locked.
//! - [`MemoryFile`] is a storage that records all of its texts.
//!
//! # Only tested
//!
//! The program `conformance` makes each call of a `MemoryFile` fail in turn, and tests whether a
//! lockfile remains.
//!
//! # What the contracts do not rule out
//!
//! No contract can describe the contents of a file on disk. So the contracts of [`StoredFile`]
//! state only the order of its calls. If the file system renames atomically and syncs on request, a
//! crash leaves the old text or the new text in the file. If the system refuses to remove a
//! lockfile, the lockfile stays. No contract rules out that a call fails.
#![tactic(auto)]

mod memory;
mod replace;
mod storage;
mod stored;

pub use crate::memory::MemoryFile;
pub use crate::replace::{open_file, replace_file};
pub use crate::storage::{Lockfile, Storage, StorageFault};
pub use crate::stored::StoredFile;
