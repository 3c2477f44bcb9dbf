//! The objects that refs point to, without their history.

ghost use Rattle.std.specs.Prelude.{◌≡◌, IfOk, IfSome, IsTrue};
ghost use Rattle.gdag.specs.Graphs.{Holds};
ghost use Rattle.gitrepository.specs.Repositories.{AreHeld, KeepsHeld};

use crate::fault::RepositoryFault;
use crate::nodes::leaf;
use ggraph::{Entry, Graph, GraphFault, Head, Kind, Node, Parents, Repository};
use gitobject::{ObjectType, tag_link};
use gitobjects::{ObjectFiles, QuickReader};
use gitrefs::{Peel, PeeledRefs};
use gname::{Oid, RefName};
use std::alloc::{AllocError, Allocator};
use std::iter::zip;

// The maximum length of a chain of tags.
const MAX_TAGS: usize = 64;

// A tag, and the object that it names.
#[derive(Clone, Copy, Drop)]
struct Tag {
    id: Oid,
    target: Oid,
}

/// Returns a repository of the objects that refs and HEAD point to, with the peeled objects of
/// tags. An object that is not a tag counts as a commit without parents. The command `ls-refs`
/// needs nothing more. If `packed-refs` lists a peeled object for a tag, the tag counts as pointing
/// directly to that object.
///
/// Looks up only the objects whose peeled objects `packed-refs` does not list. All other objects
/// may be missing. [`crate::open_refs`] looks up every object.
///
/// Returns `None` if an object that is looked up is missing or unreadable, or if there are too many
/// objects. Returns `None` also if `packed-refs` contradicts itself, or a tag that was read. The
/// caller must then call [`crate::open_repository`] or [`crate::open_refs`]. Fails for the same
/// reasons as [`QuickReader::open`], or if out of memory.
pub fn open_tips<F: ObjectFiles, A: Allocator + Copy>(
    files: &F,
    alloc: A,
    git_dir: &str,
    listed: &PeeledRefs<A>,
) -> Result<Option<Repository<A>>, RepositoryFault<A>>
    ensures held { IfOk result (λ found. IfSome found (λ repository.
        AreHeld repository.graph repository.refs)) }
    ensures refs { IfOk result (λ found. IfSome found (λ repository.
        repository.refs ≡ listed.now.refs)) }
{
    let Some(graph) = graph_of_tips(files, alloc, git_dir, listed)? else {
        return Ok(None);
    };
    let refs = listed.refs.copy_in(alloc)?;
    let head = listed.head.copy_in(alloc)?;
    Ok(Some(Repository { graph, refs, head }))
}

// Returns the graph of the objects that refs and HEAD point to. Opens the objects of the Git
// directory only if an object must be looked up.
fn graph_of_tips<F: ObjectFiles, A: Allocator + Copy>(
    files: &F,
    alloc: A,
    git_dir: &str,
    listed: &PeeledRefs<A>,
) -> Result<Option<Graph<A>>, RepositoryFault<A>>
    ensures { IfOk result (λ found. IfSome found (λ graph. AreHeld graph listed.now.refs)) }
{
    let mut graph = Graph::new(alloc);
    graph.make_room(listed.refs.len());
    let ids = unpeeled_ids(alloc, listed)?;
    if !ids.is_empty() {
        let mut reader = QuickReader::open(files, alloc, git_dir)?;
        if !add_unpeeled(&mut graph, &mut reader, ids.as_slice())? {
            return Ok(None);
        }
    }
    if !add_refs(&mut graph, listed.refs.as_slice(), listed.peels.as_slice())? {
        return Ok(None);
    }
    Ok(Some(graph))
}

// Returns the ids that refs and a detached HEAD point to, and whose peeled objects `packed-refs`
// does not list. The ids are sorted and distinct, because a `QuickReader` finds ids in ascending
// order most quickly.
fn unpeeled_ids<A: Allocator + Copy>(
    alloc: A,
    listed: &PeeledRefs<A>,
) -> Result<Vec<Oid, A>, AllocError> {
    let mut ids = Vec::new(alloc);
    for (pair, peel) in zip(listed.refs.as_slice(), listed.peels.as_slice()) {
        if peel.is_none() {
            ids.push(pair.1)?;
        }
    }
    if let Head::Id(id) = &listed.head {
        ids.push(*id)?;
    }
    ids.sort_unstable();
    ids.dedup();
    Ok(ids)
}

// Looks up the objects with these ids, and adds them and their peeled objects. Returns `false` if
// an object is missing or malformed, or cannot be added.
fn add_unpeeled<F: ObjectFiles, A: Allocator + Copy>(
    graph: &mut Graph<A>,
    reader: &mut QuickReader<'_, F, A>,
    ids: &[Oid],
) -> Result<bool, RepositoryFault<A>> {
    for id in ids {
        if !add_read(graph, reader, id)? {
            return Ok(false);
        }
    }
    Ok(true)
}

// Adds the objects whose peeled objects are known. `peels` has the peeled object of each ref, in
// the order of the refs. Returns `false` if an object cannot be added, or if the graph lacks an
// object whose peeled object is not known.
fn add_refs<A: Allocator + Copy>(
    graph: &mut Graph<A>,
    refs: &[(RefName<A>, Oid)],
    peels: &[Option<Peel>],
) -> Result<bool, RepositoryFault<A>>
    ensures { IfOk result (λ is_added. IsTrue is_added → AreHeld graph.new refs.now) }
{
    for (place, pair) in refs.iter().enumerate() {
        if !add_ref(graph, &pair.1, known_peel(peels, place))? {
            return Ok(false);
        }
    }
    Ok(true)
}

// Returns the peeled object at this position, or `None` if it is not known.
fn known_peel(peels: &[Option<Peel>], place: usize) -> Option<&Peel> {
    peels.get(place)?.as_ref()
}

// Adds the object with this id, and its peeled object. Returns `false` if an object cannot be
// added, or if the graph has the object with another peeled object. Returns `false` also if `peel`
// is `None` and the graph lacks the object.
fn add_ref<A: Allocator + Copy>(
    graph: &mut Graph<A>,
    id: &Oid,
    peel: Option<&Peel>,
) -> Result<bool, RepositoryFault<A>>
    ensures held { IfOk result (λ is_added. IsTrue is_added → Holds graph.new.entries id.now) }
    ensures keeps { KeepsHeld graph.old.entries graph.new.entries }
{
    match peel {
        Some(peel) => add_tip(graph, id, peel),
        None => Ok(graph.contains(id)),
    }
}

// Adds the object with this id, and its peeled object. Returns `false` if an object cannot be
// added, or if the graph has the object with another peeled object.
fn add_tip<A: Allocator + Copy>(
    graph: &mut Graph<A>,
    id: &Oid,
    peel: &Peel,
) -> Result<bool, RepositoryFault<A>>
    ensures held { IfOk result (λ is_added. IsTrue is_added → Holds graph.new.entries id.now) }
    ensures keeps { KeepsHeld graph.old.entries graph.new.entries }
{
    match peel {
        Peel::Itself => add_leaf(graph, id),
        Peel::To(target) => add_peeled_tag(graph, id, target),
    }
}

// Adds a tag and its peeled object. Returns `false` if an object cannot be added, or if the graph
// has the tag with another peeled object. An id of zeros is no peeled object.
fn add_peeled_tag<A: Allocator + Copy>(
    graph: &mut Graph<A>,
    id: &Oid,
    target: &Oid,
) -> Result<bool, RepositoryFault<A>>
    ensures held { IfOk result (λ is_added. IsTrue is_added → Holds graph.new.entries id.now) }
    ensures keeps { KeepsHeld graph.old.entries graph.new.entries }
{
    if is_zero(target) {
        return Ok(false);
    }
    if graph.contains(id) {
        return Ok(graph.peel(id) == Some(*target));
    }
    if !add_leaf(graph, target)? {
        return Ok(false);
    }
    add_tag(
        graph,
        Tag {
            id: *id,
            target: *target,
        },
    )
}

// Returns whether all bytes of an id are zero.
fn is_zero(id: &Oid) -> bool {
    id.as_bytes().iter().all(|byte| *byte == 0)
}

// Adds an object, the tags that it leads to, and its peeled object. Looks up the type of each of
// these objects that the graph lacks, and reads the tags. Returns `false` if an object is missing
// or malformed, or cannot be added.
fn add_read<F: ObjectFiles, A: Allocator + Copy>(
    graph: &mut Graph<A>,
    reader: &mut QuickReader<'_, F, A>,
    id: &Oid,
) -> Result<bool, RepositoryFault<A>> {
    let mut tags = Vec::new(reader.allocator());
    let mut next = *id;
    for _tag in 0..MAX_TAGS {
        if graph.contains(&next) {
            return add_tags(graph, tags);
        }
        match reader.kind_of(&next)? {
            Some(ObjectType::Tag) => {
                let Some(target) = target_of(reader, &next)? else {
                    return Ok(false);
                };
                tags.push(Tag { id: next, target })?;
                next = target;
            }
            Some(_) => return Ok(add_leaf(graph, &next)? && add_tags(graph, tags)?),
            None => return Ok(false),
        }
    }
    Ok(false)
}

// Returns the id of the object that a tag names, or `None` if the tag is unreadable or malformed.
fn target_of<F: ObjectFiles, A: Allocator + Copy>(
    reader: &mut QuickReader<'_, F, A>,
    id: &Oid,
) -> Result<Option<Oid>, AllocError> {
    let Some(object) = reader.read_checked(id)? else {
        return Ok(None);
    };
    match tag_link(object.body.as_slice()) {
        Some(link) => Ok(Some(link.id)),
        None => Ok(None),
    }
}

// Adds these tags to the graph, the last tag first, so that each tag follows its target. Returns
// `false` if a tag cannot be added.
fn add_tags<A: Allocator + Copy>(
    graph: &mut Graph<A>,
    tags: Vec<Tag, A>,
) -> Result<bool, RepositoryFault<A>> {
    let mut tags = tags;
    while let Some(tag) = tags.pop() {
        if !add_tag(graph, tag)? {
            return Ok(false);
        }
    }
    Ok(true)
}

// Adds a tag. Returns `false` if the graph already has another node for the tag's id, or is full.
fn add_tag<A: Allocator + Copy>(graph: &mut Graph<A>, tag: Tag) -> Result<bool, RepositoryFault<A>>
    ensures held { IfOk result (λ is_added. IsTrue is_added → Holds graph.new.entries tag.id) }
    ensures keeps { KeepsHeld graph.old.entries graph.new.entries }
{
    let parents = Parents::from_slice(graph.allocator(), &[tag.target])?;
    let kind = Kind::Tag;
    add(graph, &tag.id, Node { kind, parents })
}

// Adds an object that is not a tag. Returns `false` if the graph already has another node for the
// object's id, or is full.
fn add_leaf<A: Allocator + Copy>(graph: &mut Graph<A>, id: &Oid) -> Result<bool, RepositoryFault<A>>
    ensures held { IfOk result (λ is_added. IsTrue is_added → Holds graph.new.entries id.now) }
    ensures keeps { KeepsHeld graph.old.entries graph.new.entries }
{
    let node = leaf(graph.allocator());
    add(graph, id, node)
}

fn add<A: Allocator + Copy>(
    graph: &mut Graph<A>,
    id: &Oid,
    node: Node<A>,
) -> Result<bool, RepositoryFault<A>>
    ensures held { IfOk result (λ is_added. IsTrue is_added → Holds graph.new.entries id.now) }
    ensures keeps { KeepsHeld graph.old.entries graph.new.entries }
{
    match graph.insert(Entry { id: *id, node }) {
        Ok(_) => Ok(true),
        Err(GraphFault::Memory) => Err(RepositoryFault::Memory),
        Err(_) => Ok(false),
    }
}
