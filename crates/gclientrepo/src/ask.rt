//! Requests to update refs, and their outcomes.

use gname::{Oid, RefName};
use std::alloc::{Allocator, Global};

/// A requested ref update: a request to set a ref to an id.
#[derive(Debug, Drop)]
pub struct Ask<A: Allocator + Copy = Global> {
    /// The name of the ref.
    pub name: RefName<A>,
    /// The new id of the ref.
    pub id: Oid,
    /// Whether to move the ref even if the move is not a fast-forward (git-fetch(1), `--force`).
    pub forced: bool,
}

/// The outcome of a requested ref update.
#[derive(Clone, Copy, Debug, PartialEq, Eq, Drop)]
pub enum RefUpdate {
    /// The ref was set to the new id: the ref was new, or the update was forced or a fast-forward.
    Moved,
    /// The ref already had the new id.
    Same,
    /// The ref is unchanged, because the update is not a fast-forward.
    NotForward,
}
