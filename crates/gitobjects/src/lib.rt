//! Read-only access to the objects of a Git directory (gitrepository-layout(5)): packs, loose
//! objects, and alternates. This crate does not handle refs, graphs or the protocol.
//!
//! - An [`ObjectStore`] opens the packs of a directory and finds objects.
//! - An [`ObjectReader`] reads objects, and returns their types. The reader applies deltas without
//!   recursion, and keeps some delta bases in a cache of limited size.
//! - [`ObjectReader::raw_entry`] returns a pack entry unchanged, so that a packer can copy it.
//! - A [`QuickReader`] looks up and reads a few objects. A quick reader reads indexes in parts,
//!   while an [`ObjectStore`] reads whole indexes.
//! - [`StoredFiles`] accesses files through the operating system, and [`MemoryFiles`] holds files
//!   in memory.
//!
//! # Proved
//!
//! - [`ObjectReader::read_checked`] and [`QuickReader::read_checked`] return an object only if it
//!   has the requested id. The SHA-1 of the object is computed.
//! - A private function inflates a pack entry, and returns the form and the size in its header. If
//!   the function succeeds, all bytes after the header are a zlib stream, which inflates to that
//!   size. Another private function splits the text of a loose object into the type and the body.
//! - The private type `Window` caches at most 64 blocks of the open packs. Each block has at most
//!   1 MiB. The window returns the correct bytes of a pack, no matter which blocks are in memory.
//! - A private function returns whether to list a pack folder again. The result is `false` exactly
//!   if at least two listings count since the names in the folder last changed.
//! - The path of a loose object is the object folder, the first two digits of the id and the other
//!   digits, separated by slashes. The paths in `info/alternates` are read in the order of its
//!   lines.
//! - A private function parses the list of the names in a pack folder, and returns the names of
//!   exactly the packs whose index is listed. The name of an index ends in `.idx`, is UTF-8 and has
//!   no slash.
//! - No call panics, overflows or reads out of bounds, and every call returns, for any contents of
//!   the files. This also holds if a delta chain is cyclic.
//!
//! # Only tested
//!
//! The program `gitcases` reads valid, corrupt and hostile directories, while files change and
//! memory runs out. `examples/with-git.sh` reads directories made by Git, in each layout.
//!
//! # Differences from Git
//!
//! - A pack stays open once found. Git opens packs as needed, and may close them again.
//! - If an object is not found, Git lists all packs again. This crate lists only folders in which
//!   names have changed, and each folder at most twice after a change. A listing does not count if a
//!   fault of it can pass, such as too many open files. Then each look-up that finds no object lists
//!   the folder.
//! - Packs with an index of version 1 and packs of version 3 are ignored. Git reads both.
//!   Multi-pack indexes, bitmaps and commit-graphs are not read.
//! - Each open pack uses a file descriptor, and the system limits the number of open files. A
//!   repository with about a thousand packs must be repacked with `git gc`.
//! - If an object is missing and a pack or an alternate was ignored, the fault names the pack, the
//!   alternate or the alternates file. Git reports only that the object is missing.
//! - If a delta base is broken in its pack, another copy is used, as in Git. In this crate the copy
//!   must be no larger than 64 MiB, and all bases of the copy must be intact. At most 15 bases of a
//!   chain may be replaced by copies.
//! - A quoted path in `info/alternates`, or a path that is not UTF-8, is a fault. Git reads quoted
//!   paths and paths that are not UTF-8.
//! - A missing or unusable alternate is ignored, and so is an unreadable alternates file, unless
//!   the fault is temporary. Git also ignores them if it is temporary, and prints an error.
//! - A pack entry must not have bytes after its stream. Git accepts bytes after the stream.
//! - A pack whose index has an offset outside the pack is ignored. In Git only the object with that
//!   offset is broken.
//!
//! # What the contracts do not rule out
//!
//! The contracts leave the following points open:
//!
//! - [`ObjectReader::read`] may return an object with another id. The method trusts the files and
//!   does not compute ids. A contract cannot describe the contents of a system file.
//! - No contract says which object a whole delta chain produces, or which type
//!   [`ObjectReader::kind_of`] returns. Only the single steps have contracts, in `gitpack`.
//! - No contract says that other copies of a broken object are tried, or that a listed pack is
//!   opened.
//! - [`ObjectReader::raw_entry`] may return arbitrary bytes. The CRC-32 of the entry is compared
//!   with the index, but no contract covers this comparison.
//! - A new pack may be overlooked if it is added after a listing, but in the same tick of the file
//!   system's clock. The pack is then found only after the folder changes again, or after
//!   [`ObjectReader::refresh`].
//! - No contract says which object the base cache returns. It is only proved that the cache does
//!   not panic.
//! - [`ObjectStore::find`], [`ObjectStore::find_in`] and [`ObjectReader::find`] may return a wrong
//!   location, or `None` for an object that exists. [`ObjectStore::index`] and
//!   [`ObjectStore::starts`] may return the data of another pack, or nothing.
//! - No contract says from which pack and position an entry is read. It is only proved that the
//!   private type `Window` returns the correct bytes of a pack.
//! - A pack may be opened although it does not match its index. The header, object count and
//!   checksum of the pack are compared with the index, but no contract covers this comparison.
//! - A loose object may be accepted although bytes follow its stream.
//! - No contract says which alternates are read, where a relative path begins, or how the open
//!   packs are ordered.
//! - [`ObjectReader::refresh`] may miss new packs and alternates. A proved private function returns
//!   whether to list a pack folder again. No contract says that its callers list the folder exactly
//!   if the result is `true`.
//! - [`MemoryFiles`] may return bytes that differ from the added bytes.
//! - A [`QuickReader`] may find no object, report an object that does not exist, or return a wrong
//!   type. A quick reader does not check a whole index.
//! - No contract says which fault is returned, which file the fault names, or how the fault is
//!   displayed.
//! - No contract says when a call runs out of memory, or which files are refused.
//!
//! # Dependencies
//!
//! `gitpack` reads entries, deltas and indexes. `gzlib` inflates streams and computes CRC-32.
//! `gitobject` parses types, ids and the text of loose objects. `gname` defines ids, and `memchr`
//! searches for bytes.
#![tactic(auto)]

mod alternates;
mod cache;
mod chain;
mod entry;
mod fault;
mod files;
mod index_file;
mod limits;
mod listed;
mod listing;
mod loose_folders;
mod memory;
mod object;
mod order;
mod pack;
mod packs;
mod parts;
mod paths;
mod quick;
mod quick_pack;
mod reader;
mod store;
mod stored;
mod window;

pub use crate::entry::RawEntry;
pub use crate::fault::{Cause, FileFault, StoreFault};
pub use crate::files::{FolderTime, ObjectFiles, OpenPack};
pub use crate::limits::{
    MAX_ALTERNATES, MAX_DEPTH, MAX_FOLDERS, MAX_INDEX, MAX_KEPT, MAX_NAMES, MAX_OBJECT, MAX_STREAM,
};
pub use crate::loose_folders::LooseFolders;
pub use crate::memory::{MemoryFiles, MemoryPack};
pub use crate::object::Object;
pub use crate::order::Start;
pub use crate::quick::QuickReader;
pub use crate::reader::ObjectReader;
pub use crate::store::{Found, ObjectStore};
pub use crate::stored::{StoredFiles, StoredPack};
