//! Tests of a store in memory that receives a pack.

use crate::answers::{OUT_OF_MEMORY, SUCCESS};
use crate::arrivals::feed_pack;
use gcomplete::ClosedStore;
use ggraph::IndexFault;
use gitmemory::MemoryIndexer;
use std::alloc::{AllocError, Allocator, Global};

/// Returns the result of receiving a pack in an empty store: `ok`, the number of returned entries
/// and the number of kept objects, or the fault.
pub(crate) fn memory_result<A: Allocator + Copy>(
    alloc: Global,
    tested_alloc: A,
    pack: &[u8],
) -> Result<String, AllocError> {
    let mut indexer = MemoryIndexer::new(ClosedStore::new(tested_alloc));
    let received = feed_pack(&mut indexer, tested_alloc, pack);
    let kept = indexer.store().len();
    match received {
        Ok(entries) => format!(in alloc; "{SUCCESS} {} {kept}", entries.len()),
        Err(_) if kept > 0 => String::from_str(alloc, "a refused pack is kept"),
        Err(IndexFault::Memory) => String::from_str(alloc, OUT_OF_MEMORY),
        Err(fault) => format!(in alloc; "{fault:?}"),
    }
}
