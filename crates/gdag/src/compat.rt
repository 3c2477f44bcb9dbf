//! Alternative names for items of this crate.

ghost use Rattle.std.specs.Prelude.{◌≡◌};
ghost use Rattle.gobject.specs.Objects.{position_of};

use crate::graph::Graph;
use gname::Oid;
use std::alloc::Allocator;

impl<A: Allocator + Copy> Graph<A> {
    /// Returns the position of the id in insertion order, or `None` if the graph does not contain
    /// the id. An alias of [`Graph::position`].
    pub fn number(&self, id: &Oid) -> Option<usize>
        ensures { result ≡ position_of self.now.entries id.now }
    {
        self.position(id)
    }
}
