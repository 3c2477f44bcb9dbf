//! Opening a repository: its refs, HEAD, and the graph of everything they reach.

ghost use Rattle.std.specs.Prelude.{◌≡◌, IfOk, OnOk};
ghost use Rattle.gdag.specs.Graphs.{Holds};
ghost use Rattle.gitcommitgraph.specs.Chains.{graph_commits};
ghost use Rattle.gitrepository.specs.Repositories.{AreHeld, IsHistory};

use crate::fault::RepositoryFault;
use crate::history::History;
use ggraph::{Graph, Head, Refs, Repository};
use gitcommitgraph::CommitGraph;
use gitobjects::{ObjectFiles, ObjectReader, StoreFault};
use gitrefs::GitDirectory;
use gname::{Oid, RefName};
use std::alloc::Allocator;
use std::fs::Files;

/// Opens the repository of a Git directory: its refs, HEAD, and the commits and tags they reach,
/// parents first. A tree or blob that a ref or tag points to counts as a commit without parents. A
/// ref whose object is missing is left out.
///
/// The reader must read the objects of the same Git directory. The reader can be used again after
/// any fault. A commit is not read if the commit-graph lists it and its object exists.
///
/// Fails with `Refs` if the refs cannot be read. Fails with `Store` if a reached object is missing
/// or cannot be read, and with `Object` if a reached object is refused. Fails with `Objects` if the
/// graph would have too many commits and tags, or with `Memory` if out of memory.
pub fn open_repository<R: Files, F: ObjectFiles, A: Allocator + Copy>(
    directory: &GitDirectory<'_, R, A>,
    reader: &mut ObjectReader<'_, F, A>,
    commits: &CommitGraph<A>,
) -> Result<Repository<A>, RepositoryFault<A>>
    ensures graph { IfOk result (λ repository.
        IsHistory (graph_commits commits.now) repository.graph) }
    ensures refs { IfOk result (λ repository. AreHeld repository.graph repository.refs) }
{
    let (listed, head) = directory.read_refs()?;
    open_refs(reader, commits, &listed, head)
}

/// Returns the repository with these refs and HEAD, as [`open_repository`] does.
pub fn open_refs<F: ObjectFiles, A: Allocator + Copy>(
    reader: &mut ObjectReader<'_, F, A>,
    commits: &CommitGraph<A>,
    listed: &Refs<A>,
    head: Head<A>,
) -> Result<Repository<A>, RepositoryFault<A>>
    ensures graph { IfOk result (λ repository.
        IsHistory (graph_commits commits.now) repository.graph) }
    ensures refs { IfOk result (λ repository. AreHeld repository.graph repository.refs) }
{
    let graph = graph_of(reader, commits, listed, &head)?;
    let refs = held_refs(reader.store().allocator(), &graph, listed)?;
    Ok(Repository { graph, refs, head })
}

// Returns the graph of everything the refs and HEAD reach.
fn graph_of<F: ObjectFiles, A: Allocator + Copy>(
    reader: &mut ObjectReader<'_, F, A>,
    commits: &CommitGraph<A>,
    refs: &Refs<A>,
    head: &Head<A>,
) -> Result<Graph<A>, RepositoryFault<A>>
    ensures { IfOk result (λ graph. IsHistory (graph_commits commits.now) graph) }
{
    let mut history = History::new(reader.store().allocator(), commits);
    for pair in refs.as_slice() {
        if is_stored(reader, &pair.1)? {
            history.add(reader, &pair.1)?;
        }
    }
    if let Head::Id(id) = head {
        history.add(reader, id)?;
    }
    history.into_graph()
}

// Returns whether an object exists. If the object is not found at first, `read` lists the packs
// again, because Git may have packed the object meanwhile.
fn is_stored<F: ObjectFiles, A: Allocator + Copy>(
    reader: &mut ObjectReader<'_, F, A>,
    id: &Oid,
) -> Result<bool, RepositoryFault<A>> {
    if reader.store().find(id)?.is_some() {
        return Ok(true);
    }
    match reader.read(id) {
        Ok(_) => Ok(true),
        Err(StoreFault::Missing(_)) => Ok(false),
        Err(fault) => Err(RepositoryFault::from(fault)),
    }
}

// Returns the refs whose objects the graph holds.
fn held_refs<A: Allocator + Copy>(
    alloc: A,
    graph: &Graph<A>,
    listed: &Refs<A>,
) -> Result<Refs<A>, RepositoryFault<A>>
    ensures { IfOk result (λ refs. AreHeld graph.now refs) }
{
    let mut refs = Refs::new(alloc);
    for pair in listed.as_slice() {
        if graph.contains(&pair.1) {
            let name = pair.0.copy_in(alloc)?;
            set_held(graph, &mut refs, name, pair.1)?;
        }
    }
    Ok(refs)
}

/// Adds a ref that points to an object of the graph.
#[tactic(auto, using(crate::proofs::RefLemmas::AreHeld_set))]
pub(crate) fn set_held<A: Allocator + Copy>(
    graph: &Graph<A>,
    refs: &mut Refs<A>,
    name: RefName<A>,
    id: Oid,
) -> Result<(), RepositoryFault<A>>
    requires { Holds graph.now.entries id }
    ensures { AreHeld graph.now refs.old → OnOk result (AreHeld graph.now refs.new) }
{
    match refs.set(name, id) {
        Ok(()) => Ok(()),
        Err(_) => Err(RepositoryFault::Memory),
    }
}
