//! The refs of a repository, which are names below `refs/` with their ids, and its `HEAD`.
//!
//! # Proved
//!
//! - [`Refs`] is a list of at most [`MAX_REFS`] refs in strictly ascending byte order of their
//!   names. No ref has the name `HEAD`. A look-up by name returns the id of the ref, or `None` if
//!   no ref has that name.
//! - [`Refs::set`] sets one name to an id and leaves all other refs unchanged, or fails and changes
//!   nothing. The call fails with `Refs` exactly when the name is `HEAD`, or is new and there are
//!   already [`MAX_REFS`] refs. The call never fails for a name that already has a ref.
//! - A copy of refs, of a target or of a `HEAD` value is equal to the original.
//! - A [`Target`] is any ref name below `refs/`.
//! - Each fault has the number, the name and the text of its row in the table
//!   (`specs/Faults.antt`).
//! - No call panics, overflows or reads out of bounds, and every call returns.
//!
//! [`laws`] proves that each ref of a list could be appended to a list of the refs before it with
//! [`Refs::push`]. The module also proves that two lists of refs are equal if every name has the
//! same id in both lists.
//!
//! # Only tested
//!
//! No call reports out of memory while enough memory is available.
//!
//! # What the contracts do not rule out
//!
//! The contracts allow a call that adds a new name or makes a copy to report out of memory at any
//! time. No contract says which allocator `Refs::copy_in` uses. No contract bounds the time or the
//! memory of a call.
//!
//! No contract rules out that formatting a fault returns `fmt::Error` even if every write succeeds.
//!
//! # Dependencies
//!
//! The crate uses `gname` for names and ids.
#![tactic(auto)]

mod fault;
mod head;
pub mod laws;
mod refs;
pub mod refspec;

pub use crate::fault::RefsFault;
pub use crate::head::{Head, Target};
pub use crate::refs::{MAX_REFS, Refs, is_below_refs};
pub use crate::refspec::{Spec, SpecFault};
