//! The graph nodes of objects.

ghost use Rattle.std.specs.Prelude.{◌≡◌, IfOk};
ghost use Rattle.gitobject.specs.Naming.{id_of};
ghost use Rattle.gitobject.specs.declared.types.ObjectType.TheVariants as types;
ghost use Rattle.gitwalk.specs.Entries.{IsNodeOf, leaf};
ghost use Rattle.gitrepository.specs.Entries.{IsOfObject};

use ggraph::{Entry, Kind, Node, Parents};
use gitobject::{ObjectFault, ObjectType, commit_links, tag_link};
use gname::Oid;
use std::alloc::Allocator;

/// Returns the entry of the object with this id, this type and these bytes.
///
/// Fails with `Malformed` if the bytes are not a valid object of the type, or with `Memory` if out
/// of memory.
pub(crate) fn entry_of<A: Allocator + Copy>(
    alloc: A,
    id: &Oid,
    kind: ObjectType,
    body: &[u8],
) -> Result<Entry<A>, ObjectFault>
    requires { id_of kind body.now ≡ id.now }
    ensures object { IfOk result (λ entry. IsOfObject entry) }
    ensures id { IfOk result (λ entry. entry.id ≡ id.now) }
{
    let node = node_of(alloc, kind, body)?;
    Ok(Entry { id: *id, node })
}

// Returns the node of an object.
fn node_of<A: Allocator + Copy>(
    alloc: A,
    kind: ObjectType,
    body: &[u8],
) -> Result<Node<A>, ObjectFault>
    ensures { IfOk result (λ node. IsNodeOf kind body.now node) }
{
    match kind {
        ObjectType::Commit => node_of_commit(alloc, body),
        ObjectType::Tag => node_of_tag(alloc, body),
        ObjectType::Tree => Ok(leaf(alloc)),
        ObjectType::Blob => Ok(leaf(alloc)),
    }
}

fn node_of_commit<A: Allocator + Copy>(alloc: A, body: &[u8]) -> Result<Node<A>, ObjectFault>
    ensures { IfOk result (λ node. IsNodeOf types.Commit body.now node) }
{
    let links = commit_links(alloc, body)?;
    let parents = Parents::from_slice(alloc, links.parents.as_slice())?;
    let kind = Kind::Commit;
    Ok(Node { kind, parents })
}

fn node_of_tag<A: Allocator + Copy>(alloc: A, body: &[u8]) -> Result<Node<A>, ObjectFault>
    ensures { IfOk result (λ node. IsNodeOf types.Tag body.now node) }
{
    let Some(link) = tag_link(body) else {
        return Err(ObjectFault::Malformed);
    };
    let mut parents = Parents::new(alloc);
    parents.push(link.id)?;
    let kind = Kind::Tag;
    Ok(Node { kind, parents })
}

/// Returns the node of a tree or blob that a ref or tag points to. A graph has no kind for trees
/// and blobs, so they count as commits without parents.
pub(crate) fn leaf<A: Allocator + Copy>(alloc: A) -> Node<A>
    ensures { result ≡ leaf }
{
    let parents = Parents::new(alloc);
    let kind = Kind::Commit;
    Node { kind, parents }
}
