//! The objects of a received pack.

ghost use Rattle.std.specs.Prelude.{◌≡◌, Contains, IfSome};
ghost use Rattle.gitpack.specs.Indexes.{object_id};

use gitpack::IndexedEntry;
use gname::Oid;

/// Returns an object of the pack with this id, or `None` if there is none. The objects of the pack
/// must be sorted by id. If they are not, the call may return `None` for an object of the pack.
pub fn find_entry(pack: &[IndexedEntry], id: &Oid) -> Option<IndexedEntry>
    ensures { IfSome result (λ e. Contains pack.now e × (object_id e ≡ id.now)) }
{
    match pack.binary_search_by(|entry| entry.entry.id.cmp(id)) {
        Ok(place) => Some(pack[place]),
        Err(_) => None,
    }
}
