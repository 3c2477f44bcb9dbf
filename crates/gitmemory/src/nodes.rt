//! The entries of commits and tags.

ghost use Rattle.std.specs.Prelude.{◌≡◌, IfOk, MatchOption};
ghost use Rattle.gcomplete.specs.Stores.{is_history_type};
ghost use Rattle.gitobject.specs.Naming.{id_of};
ghost use Rattle.gitobject.specs.declared.types.ObjectType.TheVariants as types;
ghost use Rattle.gitmemory.specs.Entries.{HasNoNode, IsEntryOf, IsNodeOf};

use gitobject::{ObjectFault, ObjectType, commit_links, tag_link};
use gname::Oid;
use gobject::{Entry, Kind, Node, Parents};
use std::alloc::Allocator;

/// Returns the entry of the object with this id, this type and these bytes. Returns `None` for a
/// tree or blob, and for a tag of a tree or blob.
///
/// Fails with `Malformed` if the bytes are not a valid commit or tag, or with `Memory` if out of
/// memory.
pub(crate) fn entry_of<A: Allocator + Copy>(
    alloc: A,
    id: &Oid,
    kind: ObjectType,
    body: &[u8],
) -> Result<Option<Entry<A>>, ObjectFault>
    requires { id.now ≡ id_of kind body.now }
    ensures { IfOk result (λ entry. MatchOption entry (HasNoNode kind body.now)
        (IsEntryOf kind body.now)) }
{
    match node_of(alloc, kind, body)? {
        Some(node) => Ok(Some(Entry { id: *id, node })),
        None => Ok(None),
    }
}

// Returns the node of an object, or `None` if the object has no node.
fn node_of<A: Allocator + Copy>(
    alloc: A,
    kind: ObjectType,
    body: &[u8],
) -> Result<Option<Node<A>>, ObjectFault>
    ensures { IfOk result (λ node. MatchOption node (HasNoNode kind body.now)
        (IsNodeOf kind body.now)) }
{
    match kind {
        ObjectType::Commit => node_of_commit(alloc, body),
        ObjectType::Tag => node_of_tag(alloc, body),
        ObjectType::Tree | ObjectType::Blob => Ok(None),
    }
}

// Returns the node of a commit.
fn node_of_commit<A: Allocator + Copy>(
    alloc: A,
    body: &[u8],
) -> Result<Option<Node<A>>, ObjectFault>
    ensures { IfOk result (λ node. MatchOption node (HasNoNode types.Commit body.now)
        (IsNodeOf types.Commit body.now)) }
{
    let links = commit_links(alloc, body)?;
    let parents = Parents::from_slice(alloc, links.parents.as_slice())?;
    let kind = Kind::Commit;
    Ok(Some(Node { kind, parents }))
}

// Returns the node of a tag, or `None` if the target is a tree or blob.
fn node_of_tag<A: Allocator + Copy>(alloc: A, body: &[u8]) -> Result<Option<Node<A>>, ObjectFault>
    ensures { IfOk result (λ node. MatchOption node (HasNoNode types.Tag body.now)
        (IsNodeOf types.Tag body.now)) }
{
    let Some(link) = tag_link(body) else {
        return Err(ObjectFault::Malformed);
    };
    if !is_history_type(link.kind) {
        return Ok(None);
    }
    let mut parents = Parents::new(alloc);
    parents.push(link.id)?;
    let kind = Kind::Tag;
    Ok(Some(Node { kind, parents }))
}

// Returns whether this is the type of a commit or a tag.
fn is_history_type(kind: ObjectType) -> bool
    ensures { result ≡ is_history_type kind }
{
    match kind {
        ObjectType::Commit | ObjectType::Tag => true,
        ObjectType::Tree | ObjectType::Blob => false,
    }
}
