//! The links of objects.

ghost use Rattle.std.specs.Prelude.{◌≡◌, ◌++◌, ◌↔◌, List, IsTrue, MatchOption, MatchResult, OnOk, map};
ghost use Rattle.gname.specs.Ids.{Id};
ghost use Rattle.gitobject.specs.Links.{GoesOn, HasParents, IsCommit, IsObjectFault, IsTag, LinksOf};
ghost use Rattle.gitobject.specs.Lines.{BeginsWithName};
ghost use Rattle.gitobject.specs.Trees.{link_of};
ghost use Rattle.gitobject.specs.declared.links.Link.{Link};
ghost use Rattle.gitobject.specs.declared.types.ObjectType.{ObjectType};
ghost use Rattle.gitobject.specs.declared.types.ObjectType.TheVariants as types;

use crate::fault::ObjectFault;
use crate::lines::{cut, id_line, strip, type_line};
use crate::trees::tree_links;
use crate::types::ObjectType;
use gname::Oid;
use std::alloc::{AllocError, Allocator};

// The minimum length of a tag in bytes.
const MIN_TAG: usize = 64;

/// A link of an object: the id and the required type of another object.
#[derive(Clone, Copy, Debug, PartialEq, Eq, Drop)]
pub struct Link {
    /// The id of the linked object.
    pub id: Oid,
    /// The required type of the linked object.
    pub kind: ObjectType,
}

/// The links of a commit.
#[derive(Debug, Drop)]
pub struct CommitLinks<A: Allocator + Copy> {
    /// The tree of the commit.
    pub tree: Oid,
    /// The parents of the commit, in order.
    pub parents: Vec<Oid, A>,
}

/// Returns the links of an object of this type. A commit links to its tree and its parents, a tree
/// to the objects of its entries, and a tag to its target. A blob has no links.
///
/// Fails with `Malformed` if the bytes are not a valid object of the type, or with `Memory` if out
/// of memory.
pub fn links_of<A: Allocator + Copy>(
    alloc: A,
    kind: ObjectType,
    body: &[u8],
) -> Result<Vec<Link, A>, ObjectFault>
    ensures { MatchResult result (λ links. LinksOf kind body.now links.items)
        (IsObjectFault ((links : List Link) × LinksOf kind body.now links)) }
{
    match kind {
        ObjectType::Commit => list_commit(alloc, body),
        ObjectType::Tree => tree_links(alloc, body),
        ObjectType::Blob => Ok(Vec::new(alloc)),
        ObjectType::Tag => list_tag(alloc, body),
    }
}

/// Returns the tree and the parents of a commit, in order.
///
/// Fails with `Malformed` if the tree line or a parent line is malformed, or if nothing follows
/// these lines. Fails with `Memory` if out of memory.
pub fn commit_links<A: Allocator + Copy>(
    alloc: A,
    body: &[u8],
) -> Result<CommitLinks<A>, ObjectFault>
    ensures { MatchResult result (λ links. IsCommit body.now links.tree links.parents.items)
        (IsObjectFault ((tree : Id) × (parents : List Id) × IsCommit body.now tree parents)) }
{
    let Some(line) = id_line(b"tree ", body) else {
        return Err(ObjectFault::Malformed);
    };
    let mut parents = Vec::new(alloc);
    match push_parents(&mut parents, line.1) {
        Ok(()) => Ok(CommitLinks {
            tree: line.0,
            parents,
        }),
        Err(fault) => Err(fault),
    }
}

// Appends the ids of the parent lines at the start of the text.
fn push_parents<A: Allocator + Copy>(
    parents: &mut Vec<Oid, A>,
    text: &[u8],
) -> Result<(), ObjectFault>
    ensures { MatchResult result (λ _. (ids : List Id) × HasParents text.now ids
        × (parents.new.items ≡ parents.old.items ++ ids))
        (IsObjectFault ((ids : List Id) × HasParents text.now ids)) }
{
    let mut rest = text;
    while let Some(line) = id_line(b"parent ", rest) {
        if let Err(_) = parents.push(line.0) {
            return Err(ObjectFault::Memory);
        }
        rest = line.1;
    }
    if goes_on(rest) {
        Ok(())
    } else {
        Err(ObjectFault::Malformed)
    }
}

// Returns whether a commit may continue with this text after its parent lines: the text is not
// empty and does not begin with `parent` and a space.
fn goes_on(text: &[u8]) -> bool
    ensures { IsTrue result ↔ GoesOn text.now }
{
    if text.is_empty() {
        return false;
    }
    match strip(b"parent ", text) {
        Some(_) => false,
        None => true,
    }
}

/// Returns the link from a tag to the tagged object. Returns `None` if the bytes do not begin with
/// an object line, a type line and a tag line, or if there are fewer than 64 bytes.
pub fn tag_link(body: &[u8]) -> Option<Link>
    ensures { MatchOption result
        ((target : Id) (kind : ObjectType) → ¬ (IsTag body.now target kind))
        (λ link. IsTag body.now link.id link.kind) }
{
    if body.len() < MIN_TAG {
        return None;
    }
    let Some(object) = id_line(b"object ", body) else {
        return None;
    };
    let Some(named) = type_line(object.1) else {
        return None;
    };
    if has_name(named.1) {
        Some(Link {
            id: object.0,
            kind: named.0,
        })
    } else {
        None
    }
}

// Returns whether the text begins with a tag line.
fn has_name(text: &[u8]) -> bool
    ensures { IsTrue result ↔ BeginsWithName text.now }
{
    let Some(after) = strip(b"tag ", text) else {
        return false;
    };
    match cut(b'\n', after) {
        Some(_) => true,
        None => false,
    }
}

// Returns the links to the tree and the parents of a commit, in one list.
fn list_commit<A: Allocator + Copy>(alloc: A, body: &[u8]) -> Result<Vec<Link, A>, ObjectFault>
    ensures { MatchResult result (λ links. LinksOf types.Commit body.now links.items)
        (IsObjectFault ((links : List Link) × LinksOf types.Commit body.now links)) }
{
    let commit = match commit_links(alloc, body) {
        Ok(commit) => commit,
        Err(fault) => return Err(fault),
    };
    let mut links = Vec::new(alloc);
    let tree = Link {
        id: commit.tree,
        kind: ObjectType::Tree,
    };
    links.push(tree)?;
    push_commits(&mut links, commit.parents.as_slice())?;
    Ok(links)
}

// Appends a link to each of these commits.
fn push_commits<A: Allocator + Copy>(
    links: &mut Vec<Link, A>,
    ids: &[Oid],
) -> Result<(), AllocError>
    ensures { OnOk result
        (links.new.items ≡ links.old.items ++ map (link_of types.Commit) ids.now) }
{
    for id in ids {
        links.push(Link {
            id: *id,
            kind: ObjectType::Commit,
        })?;
    }
    Ok(())
}

// Returns a list of the single link of a tag.
fn list_tag<A: Allocator + Copy>(alloc: A, body: &[u8]) -> Result<Vec<Link, A>, ObjectFault>
    ensures { MatchResult result (λ links. LinksOf types.Tag body.now links.items)
        (IsObjectFault ((links : List Link) × LinksOf types.Tag body.now links)) }
{
    let Some(link) = tag_link(body) else {
        return Err(ObjectFault::Malformed);
    };
    let mut links = Vec::new(alloc);
    match links.push(link) {
        Ok(()) => Ok(links),
        Err(_) => Err(ObjectFault::Memory),
    }
}
