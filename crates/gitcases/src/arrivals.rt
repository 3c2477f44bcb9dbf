//! Tests of the indexing of a pack that a Git directory receives.

use crate::answers::{OUT_OF_MEMORY, RunInputs, SUCCESS};
use crate::stores::{GIT_DIR, to_memory_files};
use ggraph::{Entry, Graph, GraphFault, IndexFault, KeepingIndexer};
use gitobjects::{ObjectFiles, ObjectReader, ObjectStore};
use gitrepository::{MemorySpools, PackSpools, RepositoryFault, StoreIndexer, Tips};
use gname::Oid;
use std::alloc::{AllocError, Allocator, Global};

// The size in bytes of the pieces of a pack.
const PIECE_LEN: usize = 1_000;

// The reason why a pack is rejected.
#[derive(Drop)]
enum Rejection<A: Allocator + Copy> {
    // The indexer rejected the pack.
    Repository(RepositoryFault<A>),
    // The graph rejected a commit or a tag of the pack.
    Graph(GraphFault),
    // The indexer rejected the pack, but kept a part of the pack.
    PartKept,
}

/// Returns the result of receiving a pack: `ok` and the number of its commits and tags, or the
/// fault.
pub(crate) fn arrival_result<A: Allocator + Copy>(
    alloc: Global,
    tested_alloc: A,
    inputs: RunInputs<'_, '_>,
) -> Result<String, AllocError> {
    let Ok(files) = to_memory_files(tested_alloc, inputs.files) else {
        return String::from_str(alloc, OUT_OF_MEMORY);
    };
    match receive_pack(&files, tested_alloc, inputs) {
        Ok(count) => format!(in alloc; "{SUCCESS} {count}"),
        Err(Rejection::Repository(fault)) => format!(in alloc; "{fault}"),
        Err(Rejection::Graph(GraphFault::Memory)) => String::from_str(alloc, OUT_OF_MEMORY),
        Err(Rejection::Graph(fault)) => format!(in alloc; "{fault:?}"),
        Err(Rejection::PartKept) => String::from_str(alloc, "a refused pack is kept"),
    }
}

// Indexes a pack for the store in `files`, and returns the number of the pack's commits and tags.
fn receive_pack<F: ObjectFiles, A: Allocator + Copy>(
    files: &F,
    tested_alloc: A,
    inputs: RunInputs<'_, '_>,
) -> Result<usize, Rejection<A>> {
    let (reader, tips) = match prepare(files, tested_alloc, inputs.row.tips.as_slice()) {
        Ok(prepared) => prepared,
        Err(fault) => return Err(Rejection::Repository(fault)),
    };
    let spools = MemorySpools::new(tested_alloc);
    let mut indexer = StoreIndexer::new(reader, &tips, spools);
    match feed_pack(&mut indexer, tested_alloc, inputs.pack) {
        Ok(entries) => add_to_graph(tested_alloc, entries),
        Err(fault) => Err(rejection_of(&mut indexer, fault)),
    }
}

fn prepare<'f, F: ObjectFiles, A: Allocator + Copy>(
    files: &'f F,
    tested_alloc: A,
    tips: &[Oid],
) -> Result<(ObjectReader<'f, F, A>, Tips<A>), RepositoryFault<A>> {
    let store = ObjectStore::open(files, tested_alloc, GIT_DIR)?;
    let reader = ObjectReader::new(store)?;
    Ok((reader, Tips::new(tested_alloc, tips)?))
}

/// Passes a pack to an indexer in pieces.
pub(crate) fn feed_pack<A: Allocator + Copy, I: KeepingIndexer<A>>(
    indexer: &mut I,
    tested_alloc: A,
    pack: &[u8],
) -> Result<Vec<Entry<A>, A>, IndexFault> {
    let mut feed = indexer.start(tested_alloc)?;
    for piece in pack.chunks(PIECE_LEN) {
        indexer.feed(&mut feed, piece)?;
    }
    indexer.finish(feed)
}

// Returns the fault of a rejected pack. The indexer must not keep a part of the pack.
fn rejection_of<F, P, A>(
    indexer: &mut StoreIndexer<'_, '_, F, P, A>,
    fault: IndexFault,
) -> Rejection<A>
where
    F: ObjectFiles,
    P: PackSpools + Drop,
    A: Allocator + Copy,
{
    if indexer.take_received().is_some() {
        return Rejection::PartKept;
    }
    match (fault, indexer.take_fault()) {
        (IndexFault::Other, Some(fault)) => Rejection::Repository(fault),
        _ => Rejection::Repository(RepositoryFault::Memory),
    }
}

// Adds the commits and tags to a graph, and returns their number.
fn add_to_graph<A: Allocator + Copy>(
    tested_alloc: A,
    entries: Vec<Entry<A>, A>,
) -> Result<usize, Rejection<A>> {
    let mut graph = Graph::new(tested_alloc);
    for entry in entries {
        match graph.insert(entry) {
            Ok(_) => {}
            Err(fault) => return Err(Rejection::Graph(fault)),
        }
    }
    Ok(graph.len())
}
