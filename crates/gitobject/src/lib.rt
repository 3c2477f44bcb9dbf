//! The objects of a Git repository as bytes in memory: their types, ids and links, and the inflated
//! contents of loose object files. This crate does not read files or packs.
//!
//! # Proved
//!
//! - The methods of [`ObjectType`] return the name of each object type and its number in a pack.
//!   Conversions from other names or numbers return `None`.
//! - [`id_of`] returns the SHA-1 of the type, a space, the length in decimal, NUL, and the bytes.
//! - [`commit_links`] reads the tree and the parents of a commit, in order. The function
//!   [`tag_link`] reads the object that a tag names. The function [`split_entry`] reads the first
//!   entry of a tree, and [`tree_links`] reads the links of all entries. The function [`links_of`]
//!   reads the links of an object of any type. Each function accepts exactly the texts of the form
//!   defined in `specs/`, and refuses all others.
//! - A link consists of an id, and the type that the object with that id must have. In a tree, the
//!   file type in the mode of an entry decides the type of the link. The entry of a directory has a
//!   link to a tree. The entry of a file or of a symbolic link has a link to a blob. A gitlink,
//!   which names a commit of another repository, has no link.
//! - [`split_loose`] accepts exactly the texts that encode an object.
//! - An object has at most one list of links, and a text encodes at most one object of fewer than
//!   2^64 bytes (see [`laws`]).
//! - No call panics, overflows or reads out of bounds, and every call returns.
//!
//! # Only tested
//!
//! Only tests check that the definitions in `specs/` match Git. The program `gitcases` tests valid
//! and malformed objects, and `examples/with-git.sh` tests repositories made by Git.
//!
//! # Differences from Git
//!
//! - Only the parts of an object that contain links are checked. git-fsck(1) also checks authors,
//!   committers, and the names and order of tree entries.
//! - Git accepts a commit that ends within a parent line, and ignores that line. This crate refuses
//!   the commit, as git-fsck(1) does.
//! - Git reads the type of a tag only up to the first NUL, so it accepts `commit` followed by a NUL
//!   and other bytes. This crate refuses such a tag.
//!
//! # What the contracts do not rule out
//!
//! Any call that allocates may fail if out of memory, and no contract says when. No contract covers
//! time or memory use.
//!
//! # Dependencies
//!
//! `gname` defines ids, and `sha1` computes the hash. `itoa` formats a length in decimal, and
//! `memchr` searches for bytes.
#![tactic(auto)]

mod fault;
mod ids;
pub mod laws;
mod lines;
mod links;
mod loose;
mod modes;
mod trees;
mod types;

pub use crate::fault::ObjectFault;
pub use crate::ids::{ID_BYTES, id_of, id_of_bytes};
pub use crate::links::{CommitLinks, Link, commit_links, links_of, tag_link};
pub use crate::loose::split_loose;
pub use crate::trees::{TreeEntry, split_entry, tree_links};
pub use crate::types::ObjectType;
