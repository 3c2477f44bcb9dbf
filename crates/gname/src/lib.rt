//! Object ids in two formats, ref names, prefixes of ref names, and limits that several crates
//! share. Every layer of a Git protocol v2 server and client uses these small types.
//!
//! # Proved
//!
//! - [`Oid::from_hex_in`] accepts exactly the texts of 40 hexadecimal digits, or 64 for SHA-256, in
//!   either case. For a text of another length, the call reports a wrong length. For any other text
//!   the call reports the position of the first byte that is not a digit. [`Oid::to_hex`] writes
//!   the text in lower case, which parses back to the same id. [`Oid::push_hex`] appends that text
//!   to a vector. [`Oid::from_bytes`] accepts exactly 20 or 32 bytes. An id has only one
//!   [`Format`].
//! - [`RefName::new`], [`RefName::check`] and [`Prefix::new`] accept exactly the names and prefixes
//!   that the rules of git-check-ref-format(1) allow. For any other text these functions report the
//!   first fault in a fixed order, with its first position. The fault `Memory` is reported only for
//!   a well-formed text, and never by `check`, which does not allocate. [`RefName::head`] returns
//!   the name `HEAD`. [`RefName::copy_in`] returns a copy of the name, unless memory runs out.
//! - The components of a text are its parts between slashes. One of the rules forbids components
//!   that are empty, begin with a dot or end with `.lock` ([`laws::components_are_parts`]).
//! - Ids, names and prefixes are equal exactly when their bytes are equal. Names are ordered by
//!   their bytes, and ids by their formats and then by their bytes. The orders of names and of ids
//!   are total. Equal values have equal hashes, so ids and names may be keys of a map.
//! - A name or a prefix has at most [`MAX_NAME`] bytes, and no control character or space.
//!   [`MAX_NAME`], [`MAX_ID_TEXT`] and [`MAX_PACK`] equal the limits of the specs.
//! - Each fault has the number, the name and the text of its row in the table
//!   (`specs/Faults.antt`). Other crates share [`OUT_OF_MEMORY`], [`OUT_OF_MEMORY_TEXT`] and
//!   [`MISSING_PARENT`].
//! - No call panics, overflows or reads out of bounds, and every call returns.
//!
//! [`laws`] proves further facts about ids, names and prefixes, for the proofs of other crates.
//!
//! # Only tested
//!
//! - The definitions in `specs/` agree with `git check-ref-format`. For sample names, the program
//!   `conformance` compares the results of this crate with recorded results of Git.
//! - The debug output of a value is as expected. No call reports out of memory while enough memory
//!   is available.
//!
//! # What the contracts do not rule out
//!
//! The contracts allow a call that stores a name or a prefix to report out of memory at any time.
//! No contract rules out that formatting a fault returns `fmt::Error` even if every write succeeds.
//! No contract bounds the time that a call takes or the memory that it uses.
//!
//! # Dependencies
//!
//! The crate uses `hex` for the faults of malformed digits, and `memchr` for searches in a name.
#![tactic(auto)]

mod digits;
mod faults;
mod formats;
mod ids;
pub mod laws;
mod limits;
mod names;
mod prefixes;
mod rules;

pub use crate::faults::{MISSING_PARENT, NameFault, OUT_OF_MEMORY, OUT_OF_MEMORY_TEXT};
pub use crate::formats::Format;
pub use crate::ids::{MAX_ID_TEXT, Oid, OidFault};
pub use crate::limits::MAX_PACK;
pub use crate::names::{HEAD, RefName};
pub use crate::prefixes::Prefix;
pub use crate::rules::MAX_NAME;
