//! Reading and updating the refs of a Git directory: loose refs, `packed-refs`, symbolic refs and
//! HEAD, with lockfiles. This crate does not read objects.
//!
//! # Proved
//!
//! - [`parse_loose_ref`] and [`parse_packed_refs`] accept exactly the file formats of `specs/`.
//!   `parse_loose_ref` returns the id, or the target of a symbolic ref. `parse_packed_refs` returns
//!   the refs with their peeled ids, in the order of the lines.
//! - [`parse_common_dir`] accepts exactly the format of `commondir` files in `specs/`, and returns
//!   the path in the file. The function [`parse_git_file`] returns a path only for a valid `.git`
//!   file, but might refuse a valid file.
//! - [`packed_refs_text`] and [`peeled_refs_text`] write a header and a line for each ref, sorted
//!   by name. If all ids are SHA-1, parsing the text returns the same refs ([`laws`]).
//! - If the crate writes a HEAD that points at a branch, parsing the written text returns the
//!   branch.
//! - [`prepare_ref`] writes an id to the lockfile of a ref file, with any `Storage` of `glockfile`,
//!   and leaves the ref file unchanged. The function [`commit_file`] replaces the file atomically,
//!   and always releases the lock. After `Ok`, the file has the new text.
//! - The path of a ref file is the Git directory, a slash and the ref name. No component of a ref
//!   name is empty, `.` or `..` ([`laws`]).
//! - Before a file is replaced, the crate locks the file and then reads it. A lockfile is renamed
//!   only after it is written and synced.
//! - A fault of a file is displayed as the path of the file and the cause, as `specs/Faults.antt`
//!   defines. No contract covers the text of a system error.
//! - No call panics, overflows or reads out of bounds, and every call returns, for any contents of
//!   the files.
//!
//! # Differences from Git
//!
//! - Git ignores everything after a NUL in a loose ref file. This crate accepts a NUL in a loose
//!   ref file only after an id and white space.
//! - Git accepts any white space between an id and a name in `packed-refs`. This crate requires
//!   exactly one space.
//! - Git exits with an error if a name in `packed-refs` contains `..`, such as `refs/../x`. This
//!   crate ignores each line with an invalid ref name.
//! - A ref name has at most 1,000 bytes, and a repository has at most 65,536 refs.
//! - A loose ref whose name is not UTF-8 is ignored, and cannot be updated. In `packed-refs`, names
//!   that are not UTF-8 are accepted.
//! - Git cannot resolve HEAD if HEAD leads to a malformed ref file, or through too many symbolic
//!   refs. For a HEAD that Git cannot resolve, this crate returns the last ref name in the chain of
//!   symbolic refs.
//! - Git updates a symbolic ref by updating its target. This crate updates neither symbolic refs
//!   nor symbolic links.
//! - A ref cannot replace a directory that contains empty directories. Git removes empty
//!   directories first.
//! - Git skips a ref whose file cannot be read, or whose symbolic link is cyclic. This crate fails
//!   if it encounters an unreadable ref file or a cyclic link.
//! - Git exits with an error if a directory has neither HEAD nor `refs`. This crate returns no refs
//!   if both are missing.
//! - Git follows a symbolic ref to a name outside `refs/`, such as `ORIG_HEAD`. This crate ignores
//!   a symbolic ref to a name outside `refs/`.
//! - Git refuses a ref to a missing object, and a branch that does not point to a commit. This
//!   crate does not check the objects of refs.
//! - The configuration is not read, so SHA-256, reftables and shared permissions are not supported.
//!   Reflogs are not changed. A linked worktree has only its own HEAD. In Git, a linked worktree
//!   also has its own `refs/bisect` and a few other refs.
//!
//! # What the contracts do not rule out
//!
//! No contract can describe the contents of a system file, so the results of [`GitDirectory`] are
//! only tested, by comparison with Git. No contract covers which files [`GitDirectory`] opens, the
//! precedence of loose refs, or symbolic refs. No contract covers which updates [`GitDirectory`]
//! refuses, or the removal of locks. A lockfile is removed when its guard is dropped, but no
//! contract covers this removal. No contract rules out that [`GitDirectory`] leaves the old
//! contents in a file that it should replace. No contract says for which reason a name that is not
//! UTF-8 is refused.
//!
//! No contract says what [`PeeledRefs::peels`] contains. Its ids come from `packed-refs`, which can
//! list wrong ids.
//!
//! Name conflicts are checked before files are locked, so a conflict with a ref that Git packs at
//! the same time is missed. If two lines of `packed-refs` have the same name, the first line wins.
//!
//! No contract says when a call that allocates runs out of memory. A killed process can leave
//! its lockfile on disk. The crate does not notice that two paths name the same Git directory, for
//! example through symbolic links.
//!
//! This crate contains no tests.
//!
//! # Dependencies
//!
//! `gname` defines names and ids, and `grefs` defines lists of refs and HEAD. `glockfile` replaces
//! files, and `memchr` searches for bytes.
#![tactic(auto)]

mod conflicts;
mod directory;
mod fault;
mod git_file;
pub mod laws;
mod links;
mod locked;
mod loose;
mod packed;
mod packed_text;
mod path;
mod peels;
mod reading;
mod texts;
mod update;
mod values;
mod words;

pub use crate::directory::{GitDirectory, Origin};
pub use crate::fault::{Cause, RefFault, TextFault};
pub use crate::links::{parse_common_dir, parse_git_file};
pub use crate::locked::{commit_file, prepare_ref};
pub use crate::loose::{LooseRef, parse_loose_ref};
pub use crate::packed::{PackedRef, parse_packed_refs};
pub use crate::packed_text::{packed_refs_text, peeled_refs_text};
pub use crate::peels::Peel;
pub use crate::reading::PeeledRefs;
pub use crate::update::RefUpdate;
