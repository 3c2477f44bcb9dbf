//! Functions for marks, which are indexed by position, and for the positions of ids.

ghost use Rattle.std.specs.Prelude.{◌≡◌, ◌≤◌, ◌<◌, ℕ, IfErr, IfOk, false, length, replicate, slice_set, true};
ghost use Rattle.gwalk.specs.steps.Passes.{IsInOrder, IsPositionOf, MarksAll, is_marked};
ghost use Rattle.gdag.specs.declared.fault.GraphFault.TheVariants.{Memory};

use gdag::{Graph, GraphFault};
use gname::Oid;
use std::alloc::Allocator;

// Returns whether the position is marked. A position after the end of the marks is unmarked.
pub(crate) fn is_marked(marks: &[bool], position: usize) -> bool
    ensures { result ≡ is_marked marks.now position }
{
    marks.get(position).copied().unwrap_or(false)
}

// Returns marks for the positions below `end`, all unmarked.
pub(crate) fn no_marks<A: Allocator + Copy>(
    alloc: A,
    end: usize,
) -> Result<Vec<bool, A>, GraphFault>
    ensures marks { IfOk result (λ marks. marks.items ≡ replicate end false) }
    ensures fault { IfErr result (λ fault. fault ≡ Memory) }
{
    let marks = vec![in alloc; false; end]?;
    Ok(marks)
}

// Marks the positions of the ids, except positions after the end of the marks.
pub(crate) fn mark_all<A: Allocator + Copy>(graph: &Graph<A>, ids: &[Oid], marks: &mut Vec<bool, A>)
    ensures { MarksAll graph.now.entries ids.now marks.old.items marks.new.items }
{
    for id in ids {
        if let Some(position) = graph.position(id) {
            mark(marks, position);
        }
    }
}

// Marks the position if it is below the end of the marks.
fn mark<A: Allocator + Copy>(marks: &mut Vec<bool, A>, position: usize)
    ensures { marks.new.items ≡ slice_set marks.old.items position true }
{
    if position < marks.len() {
        marks[position] = true;
    }
}

// Returns one more than the highest position of the ids, or 0 if the graph contains none of the
// ids.
pub(crate) fn end_of<A: Allocator + Copy>(graph: &Graph<A>, ids: &[Oid]) -> usize
    requires { IsInOrder graph.now.entries }
    ensures below { (p : ℕ) → IsPositionOf graph.now.entries ids.now p → p < result }
    ensures fits { result ≤ length graph.now.entries }
{
    let mut end = 0;
    for id in ids {
        if let Some(position) = graph.position(id) {
            end = end.max(position + 1);
        }
    }
    end
}

// Returns the lowest position of the ids, or `end` if no id has a position below `end`.
pub(crate) fn first_of<A: Allocator + Copy>(graph: &Graph<A>, ids: &[Oid], end: usize) -> usize
    ensures first { (p : ℕ) → IsPositionOf graph.now.entries ids.now p → result ≤ p }
    ensures most { result ≤ end }
{
    let mut first = end;
    for id in ids {
        if let Some(position) = graph.position(id) {
            first = first.min(position);
        }
    }
    first
}
