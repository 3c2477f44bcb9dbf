//! The results of a session's calls.

use gclientrepo::{Asks, RefUpdate};
use gname::RefName;
use std::alloc::{Allocator, Global};

/// The result of accepting an ls-refs reply.
#[derive(Debug, Drop)]
pub struct LsTaken<A: Allocator + Copy = Global> {
    /// The number of requested updates of local refs.
    pub asks: usize,
    /// The number of wanted objects.
    pub wants: usize,
    /// The ref that the server's unborn `HEAD` points at, if a refspec fetches `HEAD`.
    pub unborn: Option<RefName<A>>,
}

/// The result of accepting a fetch reply.
#[derive(Clone, Copy, Debug, PartialEq, Eq, Drop)]
pub enum Taken {
    /// The reply had only acknowledgments. The session now has `common` common ids.
    Round { common: usize },
    /// The reply had a pack. The repository gained `added` new objects.
    PackTaken { added: usize },
}

/// The ref updates that a session requested, and their outcomes in the same order.
#[derive(Debug, Drop)]
pub struct Settled<A: Allocator + Copy = Global> {
    /// The requested updates, in the order in which they were added.
    pub asks: Asks<A>,
    /// The outcome of each requested update.
    pub updates: Vec<RefUpdate, A>,
}
