//! The faults of a fetch between two ends.

use gfetch::FetchFault;
use std::alloc::{Allocator, Global};

/// The reason why a fetch between two ends failed.
#[derive(Debug, Drop)]
pub enum PairFault<A: Allocator + Copy = Global> {
    /// A message was too long. No byte of the message was written.
    TooLong,
    /// There was not enough memory for the server's buffers or for a message.
    Memory,
    /// The client's conversation failed for another reason.
    Fetch(FetchFault<A>),
}
