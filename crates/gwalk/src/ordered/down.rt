//! The pass down the insertion order, from later to earlier objects. The pass starts at the last
//! want or common id, and ends when no unvisited object is marked as wanted and not as known.

ghost use Rattle.std.specs.Prelude.{◌≡◌, ◌≤◌, ◌<◌, ◌+◌, ℕ, List, IfErr, IfOk, ◌||◌, length, slice_set, true};
ghost use Rattle.gname.specs.Ids.{Id};
ghost use Rattle.gdag.specs.Graphs.{IsOrdered};
ghost use Rattle.gwalk.specs.steps.Passes.{IsCounted, IsDone, IsInOrder, IsPassed, IsPositionOf, MarksAll, is_marked, is_open, one};
ghost use Rattle.gdag.specs.declared.fault.GraphFault.TheVariants.{Memory};

use crate::ordered::marks::{end_of, is_marked, no_marks};
use gdag::{Graph, GraphFault};
use gname::Oid;
use std::alloc::Allocator;

// Visits positions in descending order until no unvisited position is open. A position is open if
// it is marked as wanted and not as known.
#[tactic(auto, using(crate::proofs::Positions::in_order))]
pub(crate) fn pass_down<A: Allocator + Copy>(
    graph: &Graph<A>,
    wants: &[Oid],
    commons: &[Oid],
) -> Result<Pass<A>, GraphFault>
    requires { IsOrdered graph.now.entries }
    ensures done { IfOk result (λ pass.
        IsDone graph.now.entries wants.now commons.now pass.wanted.items pass.known.items
        pass.next) }
    ensures inside { IfOk result (λ pass.
        (pass.next ≤ length pass.wanted.items)
        × (length pass.wanted.items ≤ length graph.now.entries)) }
    ensures fault { IfErr result (λ fault. fault ≡ Memory) }
{
    prove!(graph.is_ordered());
    let end = end_of(graph, wants).max(end_of(graph, commons));
    let mut pass = Pass {
        wanted: no_marks(graph.allocator(), end)?,
        known: no_marks(graph.allocator(), end)?,
        next: end,
        pending: 0,
    };
    pass.want_all(graph, wants);
    pass.know_all(graph, commons);
    while 0 < pass.pending {
        pass.step(graph);
    }
    Ok(pass)
}

// The state of a pass down.
#[derive(Drop)]
pub(crate) struct Pass<A: Allocator + Copy> {
    // For each position, whether a want was found to reach the object at the position.
    wanted: Vec<bool, A>,
    // For each position, whether a common id was found to reach the object at the position.
    known: Vec<bool, A>,
    // The number of unvisited positions: the positions below `next` are unvisited.
    pub(crate) next: usize,
    // The number of open unvisited positions.
    pending: usize,
}

impl<A: Allocator + Copy> Pass<A> {
    // Returns whether the position is open: marked as wanted and not as known.
    pub(crate) fn is_open(&self, position: usize) -> bool
        ensures { result ≡ is_open self.now.wanted.items self.now.known.items position }
    {
        is_marked(self.wanted.as_slice(), position) && !is_marked(self.known.as_slice(), position)
    }

    // Returns the number of positions that have marks. All later positions are unmarked.
    pub(crate) fn end(&self) -> usize
        ensures { result ≡ length self.now.wanted.items }
    {
        self.wanted.len()
    }

    // Returns whether the object at the position is to be sent: the position is open, or is marked
    // in `tagged`.
    pub(crate) fn is_sent(&self, tagged: &[bool], position: usize) -> bool
        ensures { result ≡ (is_open self.now.wanted.items self.now.known.items position || is_marked
            tagged.now position) }
    {
        self.is_open(position) || is_marked(tagged, position)
    }

    // Returns 1 if the position is open, and otherwise 0.
    fn count_at(&self, position: usize) -> usize
        ensures { result ≡ one (is_open self.now.wanted.items self.now.known.items position) }
    {
        if self.is_open(position) { 1 } else { 0 }
    }

    // Visits the next lower position. At least one unvisited position must be open.
    fn step(&mut self, graph: &Graph<A>)
        requires order { IsInOrder graph.now.entries }
        requires counted { IsCounted self.old.wanted.items self.old.known.items self.old.next
            self.old.pending }
        requires inside { self.old.next ≤ length graph.now.entries }
        requires pending { 0 < self.old.pending }
        ensures counted { IsCounted self.new.wanted.items self.new.known.items self.new.next
            self.new.pending }
        ensures next { self.new.next + 1 ≡ self.old.next }
        ensures long { length self.new.wanted.items ≡ length self.old.wanted.items }
        ensures passed { (wants commons : List Id) →
            IsPassed graph.now.entries wants commons self.old.wanted.items self.old.known.items
            self.old.next →
            IsPassed graph.now.entries wants commons self.new.wanted.items self.new.known.items
            self.new.next }
    {
        let position = self.next - 1;
        self.next = position;
        if is_marked(self.known.as_slice(), position) {
            self.know_all(graph, graph.parents(position));
        } else if is_marked(self.wanted.as_slice(), position) {
            self.pending -= 1;
            self.want_all(graph, graph.parents(position));
        }
    }

    // Marks the positions of the ids as wanted.
    fn want_all(&mut self, graph: &Graph<A>, ids: &[Oid])
        requires counted { IsCounted self.old.wanted.items self.old.known.items self.old.next
            self.old.pending }
        requires below { (p : ℕ) → IsPositionOf graph.now.entries ids.now p → p < self.old.next }
        ensures counted { IsCounted self.new.wanted.items self.new.known.items self.new.next
            self.new.pending }
        ensures wanted { MarksAll graph.now.entries ids.now self.old.wanted.items
            self.new.wanted.items }
        ensures known { self.new.known.items ≡ self.old.known.items }
        ensures next { self.new.next ≡ self.old.next }
    {
        for id in ids {
            if let Some(position) = graph.position(id) {
                self.want(position);
            }
        }
    }

    // Marks the positions of the ids as known.
    fn know_all(&mut self, graph: &Graph<A>, ids: &[Oid])
        requires counted { IsCounted self.old.wanted.items self.old.known.items self.old.next
            self.old.pending }
        requires below { (p : ℕ) → IsPositionOf graph.now.entries ids.now p → p < self.old.next }
        ensures counted { IsCounted self.new.wanted.items self.new.known.items self.new.next
            self.new.pending }
        ensures known { MarksAll graph.now.entries ids.now self.old.known.items
            self.new.known.items }
        ensures wanted { self.new.wanted.items ≡ self.old.wanted.items }
        ensures next { self.new.next ≡ self.old.next }
    {
        for id in ids {
            if let Some(position) = graph.position(id) {
                self.know(position);
            }
        }
    }

    // Marks an unvisited position as wanted.
    fn want(&mut self, position: usize)
        requires counted { IsCounted self.old.wanted.items self.old.known.items self.old.next
            self.old.pending }
        requires below { position < self.old.next }
        ensures counted { IsCounted self.new.wanted.items self.new.known.items self.new.next
            self.new.pending }
        ensures wanted { self.new.wanted.items ≡ slice_set self.old.wanted.items position true }
        ensures known { self.new.known.items ≡ self.old.known.items }
        ensures next { self.new.next ≡ self.old.next }
    {
        self.pending -= self.count_at(position);
        self.wanted[position] = true;
        self.pending += self.count_at(position);
    }

    // Marks an unvisited position as known.
    fn know(&mut self, position: usize)
        requires counted { IsCounted self.old.wanted.items self.old.known.items self.old.next
            self.old.pending }
        requires below { position < self.old.next }
        ensures counted { IsCounted self.new.wanted.items self.new.known.items self.new.next
            self.new.pending }
        ensures known { self.new.known.items ≡ slice_set self.old.known.items position true }
        ensures wanted { self.new.wanted.items ≡ self.old.wanted.items }
        ensures next { self.new.next ≡ self.old.next }
    {
        self.pending -= self.count_at(position);
        self.known[position] = true;
        self.pending += self.count_at(position);
    }
}
