//! The objects of the store that the objects of a received pack name.

ghost use Rattle.std.specs.Prelude.{OnOk};
ghost use Rattle.gitwalk.specs.StoredTrees.{AreTreesRead};

use crate::fault::WalkFault;
use crate::walk::{Walk, WalkedStore};
use gitobject::Link;
use gitpack::IndexedEntry;
use std::alloc::Allocator;

/// Checks that the store or the received pack has everything that the trees among these
/// prerequisites reach. The links of the pack's objects were checked before. The store may have
/// trees that no ref reaches, such as those of a killed fetch. Objects that they name may be
/// missing.
///
/// Nothing that a commit or tag among the prerequisites reaches is checked, because the session
/// looks up their history in its graph.
///
/// Fails with `Store` at the first missing object, and at a tree that is broken or has another id.
/// Fails with `Malformed` at a malformed tree. Fails with `Type` if a link to a tree leads to an
/// object of another type. Fails with `Type` also if a link gives an object of the received pack
/// another type, or if two links give an object two types. The types of other blobs are not
/// checked. Fails with `Memory` if out of memory.
pub fn check_trees<S: WalkedStore<A>, A: Allocator + Copy>(
    store: &mut S,
    received: &[IndexedEntry],
    prerequisites: &[Link],
) -> Result<(), WalkFault<A>>
    ensures { OnOk result (AreTreesRead S.has S.located received.now prerequisites.now) }
{
    // Nothing is sent: the walk only visits everything that a tree reaches.
    let mut walk = Walk::beside(store.allocator(), received);
    for link in prerequisites {
        walk.send_link(store, *link)?;
    }
    Ok(())
}
