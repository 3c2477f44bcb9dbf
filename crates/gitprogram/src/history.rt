//! The check that updated refs reach no object that was removed during the fetch.

use crate::directory::Directories;
use crate::fault::Fault;
use crate::fetching::{Client, ref_fault};
use crate::opening::{Reader, first_left_out, open_reader, repository_fault};
use crate::sentences::LOST;
use ggraph::{Entry, Graph, Head, Refs, Repository};
use gitobjects::{ObjectFiles, StoreFault, StoredFiles};
use gitrefs::RefUpdate as RefMove;
use gitrepository::{RepositoryFault, open_refs, read_commit_graph};
use gitwalk::gather;
use gname::{Oid, RefName};
use std::alloc::{AllocError, Global};
use std::rt::Files;

// The maximum number of checks. A check is repeated if refs changed while it ran. The last check
// counts even if refs changed.
const MAX_CHECKS: usize = 4;

/// The refs that a fetch is about to update.
#[derive(Clone, Copy)]
pub(crate) struct Planned<'a> {
    /// The directories of the repository.
    pub(crate) found: &'a Directories,
    /// The repository after the transfer, and its refs and HEAD before the fetch.
    pub(crate) client: &'a Client,
    /// The updates.
    pub(crate) updates: &'a [RefMove],
}

/// Fails if the updated refs would reach a missing object. A fetch relies on everything that the
/// refs and HEAD reached at its start. `git gc` can remove some of it if a ref was deleted or moved
/// meanwhile. The received pack must already be installed.
///
/// Objects are read only if a ref or a detached HEAD pointed to an object at the start, and none
/// points to this object now. So the check does not notice that an unreachable tree or blob was
/// removed, on which a fetch can also rely. Nor does it notice what is removed after it has begun.
pub(crate) fn check_history<R: Files + AllocGlobal>(
    rt: &R,
    planned: Planned<'_>,
) -> Result<(), Fault> {
    match find_lost(rt, planned) {
        Ok(None) => Ok(()),
        Ok(Some(name)) => Err(ref_fault(rt.alloc(), &name, LOST)),
        Err(fault) => {
            let path = planned.found.common.as_str();
            Err(repository_fault(rt.alloc(), path, &fault))
        }
    }
}

// Returns the name of a deleted or moved ref, or `HEAD`, if the updated refs would reach a missing
// object.
fn find_lost<R: Files + AllocGlobal>(
    rt: &R,
    planned: Planned<'_>,
) -> Result<Option<RefName<Global>>, RepositoryFault<Global>> {
    let alloc = rt.alloc();
    let directory = planned.found.refs(alloc, rt);
    let mut relied = ids_of(alloc, &planned.client.before, &planned.client.head)?;
    for _ in 0..MAX_CHECKS {
        let (refs, head) = directory.read_refs()?;
        let present = ids_of(alloc, &refs, &head)?;
        if has_all(present.as_slice(), relied.as_slice()) {
            break;
        }
        let lost = check_objects(rt, planned, &refs, head)?;
        if lost.is_some() {
            return Ok(lost);
        }
        relied = present;
    }
    Ok(None)
}

// Returns the ids of refs and of a detached HEAD, in ascending order.
fn ids_of(alloc: Global, refs: &Refs<Global>, head: &Head<Global>) -> Result<Vec<Oid>, AllocError> {
    let mut ids = refs.ids(alloc)?;
    if let Head::Id(id) = head {
        ids.push(*id)?;
    }
    ids.sort_unstable();
    Ok(ids)
}

// Returns whether `present`, which is in ascending order, has each of these ids.
fn has_all(present: &[Oid], ids: &[Oid]) -> bool {
    ids.iter().all(|id| present.binary_search(id).is_ok())
}

// Checks the objects that the updated refs reach, and the present refs and HEAD do not. Returns the
// name of a deleted or moved ref, or `HEAD`, if an object is missing.
fn check_objects<R: Files + AllocGlobal>(
    rt: &R,
    planned: Planned<'_>,
    refs: &Refs<Global>,
    head: Head<Global>,
) -> Result<Option<RefName<Global>>, RepositoryFault<Global>> {
    let alloc = rt.alloc();
    let path = planned.found.common.as_str();
    // A new reader is needed, because an open pack can be read even after it is deleted.
    let files = StoredFiles::new(rt);
    let mut reader = open_reader(alloc, &files, path)?;
    let commits = read_commit_graph(&files, alloc, path)?;
    let present = open_refs(&mut reader, &commits, refs, head)?;
    if is_held(&present.graph, planned.client) {
        return Ok(None);
    }
    let updated = refs_after(alloc, planned.updates)?;
    let outcome = match open_refs(&mut reader, &commits, &updated, Head::None) {
        Ok(after) => check_new(&mut reader, &updated, &after, &present.graph),
        Err(fault) => Err(fault),
    };
    match outcome {
        Ok(()) => Ok(None),
        Err(fault) if is_missing(&fault) => Ok(Some(lost_name(planned.client, &present.graph)?)),
        Err(fault) => Err(fault),
    }
}

// Returns whether a graph has the objects of all refs, and of a detached HEAD, from the start of
// the fetch.
fn is_held(graph: &Graph<Global>, client: &Client) -> bool {
    let has_head = match &client.head {
        Head::Id(id) => graph.contains(id),
        Head::None | Head::Symref(_) => true,
    };
    has_head
        && client
            .before
            .as_slice()
            .iter()
            .all(|pair| graph.contains(&pair.1))
}

// Returns the updated refs.
fn refs_after(alloc: Global, updates: &[RefMove]) -> Result<Refs<Global>, RepositoryFault<Global>> {
    let mut refs = Refs::new(alloc);
    for update in updates {
        if refs.set(update.name.copy_in(alloc)?, update.new).is_err() {
            return Err(RepositoryFault::Memory);
        }
    }
    Ok(refs)
}

// Fails at a missing object that these refs reach, and the commits and tags in `present` do not.
// `after` is the repository with these refs, except those whose objects are missing.
fn check_new<F: ObjectFiles>(
    reader: &mut Reader<'_, F>,
    refs: &Refs<Global>,
    after: &Repository<Global>,
    present: &Graph<Global>,
) -> Result<(), RepositoryFault<Global>> {
    if let Some(id) = first_left_out(refs, &after.refs) {
        return Err(RepositoryFault::from(StoreFault::Missing(id)));
    }
    let entries = entries_beside(reader.store().allocator(), &after.graph, present)?;
    let _fates = gather(reader, entries.as_slice())?;
    Ok(())
}

// Returns the commits and tags of the graph `after` that the graph `present` lacks.
fn entries_beside(
    alloc: Global,
    after: &Graph<Global>,
    present: &Graph<Global>,
) -> Result<Vec<Entry<Global>>, AllocError> {
    let mut entries = Vec::new(alloc);
    for position in 0..after.len() {
        if let Some((id, node)) = after.at(position) {
            if !present.contains(id) {
                let node = node.copy_in(alloc)?;
                entries.push(Entry { id: *id, node })?;
            }
        }
    }
    Ok(entries)
}

// Returns whether the fault is a missing object.
fn is_missing(fault: &RepositoryFault<Global>) -> bool {
    matches!(
        fault,
        RepositoryFault::Store(StoreFault::Missing(_))
            | RepositoryFault::Named {
                fault: StoreFault::Missing(_),
                ..
            }
    )
}

// Returns the name of the last ref from the start of the fetch whose object is not in the graph, or
// `HEAD` if there is none. The refs that a client adds for its haves are first, and their objects
// are those of other refs. So the last ref is one of the repository.
fn lost_name(client: &Client, graph: &Graph<Global>) -> Result<RefName<Global>, AllocError> {
    let alloc = graph.allocator();
    let mut lost = None;
    for pair in client.before.as_slice() {
        if !graph.contains(&pair.1) {
            lost = Some(&pair.0);
        }
    }
    match lost {
        Some(name) => name.copy_in(alloc),
        None => RefName::head(alloc),
    }
}
