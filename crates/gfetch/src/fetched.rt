//! The result of a conversation.

use gname::RefName;
use gsession::Settled;
use std::alloc::{Allocator, Global};

/// The result of a conversation.
#[derive(Debug, Drop)]
pub struct Fetched<A: Allocator + Copy = Global> {
    /// The updates of the local refs.
    pub settled: Settled<A>,
    /// The number of requests for objects.
    pub requests: usize,
    /// The ref that the server's unborn `HEAD` points at, if a refspec fetches `HEAD`.
    pub unborn: Option<RefName<A>>,
}
