//! The check that a graph is closed.

ghost use Rattle.std.specs.Prelude.{◌↔◌, All, IsTrue};
ghost use Rattle.gdag.specs.Graphs.{HoldsParents, IsGraph};
ghost use Rattle.gdag.specs.Reach.{IsClosed};

use crate::graph::Graph;
use std::alloc::Allocator;

impl<A: Allocator + Copy> Graph<A> {
    /// Returns whether the graph is closed, which means that it contains the parents of all its
    /// objects. The call does not allocate.
    pub fn is_closed(&self) -> bool
        ensures { IsTrue result ↔ IsClosed self.now.entries }
    {
        if self.is_ordered() {
            return true;
        }
        self.holds_parents()
    }

    // Returns whether the graph contains the parents of all its nodes.
    #[tactic(auto, using(crate::proofs::ClosedLemmas::holds_at, crate::proofs::ClosedLemmas::holds_more))]
    fn holds_parents(&self) -> bool
        ensures graph { IsGraph self.now }
        ensures answer { IsTrue result ↔ All (HoldsParents self.now.entries) self.now.entries }
    {
        for position in 0..self.len() {
            if !self.contains_all(self.parents(position)) {
                return false;
            }
        }
        true
    }
}
