//! The text format of a repository, and the parsed contents of a text.

mod laws;
mod lines;
mod loading;
mod parts;
mod reading;
mod recent;
mod saving;

pub(crate) use crate::text::laws::text_laws;
pub use crate::text::loading::load;
pub use crate::text::saving::save;
use gdag::Graph;
use grefs::{Head, Refs};
use std::alloc::{Allocator, Global};

/// The order in which `load` requires the nodes of a text.
#[derive(Clone, Copy, Debug, PartialEq, Eq)]
pub enum Order {
    /// The nodes may be in any order.
    Any,
    /// Each parent of a node must be on an earlier line.
    ParentsFirst,
}

/// The contents of a repository text.
#[derive(Debug, Drop)]
pub struct Repository<A: Allocator + Copy = Global> {
    /// The commits and tags, in insertion order.
    pub graph: Graph<A>,
    /// The refs, in name order.
    pub refs: Refs<A>,
    /// The `HEAD` of the repository.
    pub head: Head<A>,
}
