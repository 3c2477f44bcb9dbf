//! Peeling a tag to the commit at the end of its chain of tags.

ghost use Rattle.std.specs.Prelude.{◌≡◌, IfSome, Some};
ghost use Rattle.gname.specs.Ids.{Id};
ghost use Rattle.gdag.specs.Peeling.{PeelsTo};

use crate::graph::Graph;
use gname::Oid;
use gobject::Kind;
use std::alloc::Allocator;

impl<A: Allocator + Copy> Graph<A> {
    /// Returns the commit at the end of the chain of tags that begins at the id (gitrevisions(7),
    /// `<rev>^{}`). Returns the id itself if it is the id of a commit. Returns `None` if the chain
    /// leaves the graph or is a cycle. The call does not allocate.
    pub fn peel(&self, id: &Oid) -> Option<Oid>
        ensures found { IfSome result (PeelsTo self.now.entries id.now) }
        ensures only { (c : Id) → PeelsTo self.now.entries id.now c → result ≡ Some c }
    {
        // Brent's algorithm detects cycles. The id `kept` is in the chain. After 1, 2, 4, 8 and so
        // on steps the current id replaces `kept`. If the chain returns to `kept`, the chain is a
        // cycle.
        let mut at = *id;
        let mut kept = *id;
        for steps in 0..self.len() {
            let node = self.node(&at)?;
            match node.kind {
                Kind::Commit => return Some(at),
                Kind::Tag => at = *node.parents.as_slice().first()?,
            }
            if at == kept {
                return None;
            }
            if (steps + 1).is_power_of_two() {
                kept = at;
            }
        }
        None
    }
}
