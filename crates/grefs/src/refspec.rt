//! Refspecs (git-fetch(1), "<refspec>"): the refs of a remote repository to fetch, and the local
//! refs to update.
//!
//! # Proved
//!
//! - [`Spec::parse`] accepts exactly the texts of refspecs, and returns the refspec that the text
//!   encodes. A text encodes at most one refspec. The call reports out of memory only for the text
//!   of a refspec.
//! - [`Spec::matches`] returns whether the source matches a name. [`Spec::destination`] maps a name
//!   that the source matches to its destination, or reports why that destination is not a ref name.
//!   [`Spec::can_take`] returns whether the destination is a ref name, and does not allocate.
//! - Each fault has the number, the name and the text of its row in the table
//!   (`specs/RefspecFaults.antt`).
//! - No call panics, overflows or reads out of bounds, and every call returns.

mod fault;
pub mod laws;
mod parse;
mod side;
mod spec;

pub use self::fault::SpecFault;
pub use self::spec::Spec;
