//! Marks of connected ids.

ghost use Rattle.std.specs.Prelude.{◌≡◌, ℕ, List, [], length, IfOk, ◌||◌, OnOk, OnErr, IfErr, All, slice_index_or, false};
ghost use Rattle.gobject.specs.declared.node.Entry.{Entry};
ghost use Rattle.gdag.specs.Reach.{IsConnected};
ghost use Rattle.gdag.specs.declared.fault.GraphFault.TheVariants.{Memory};
ghost use Rattle.gwalk.specs.Marks.{AreConnected, MarksReached};

use crate::walk::walk_from;
use gdag::{Graph, GraphFault};
use gname::Oid;
use std::alloc::{AllocError, Allocator, Global};
use std::marker::Model;

/// Marks of connected ids, by their positions in a graph's insertion order.
#[derive(Debug, Drop)]
pub struct ConnectedMarks<A: Allocator + Copy = Global> {
    marks: Vec<bool, A>,
}

impl<A: Allocator + Copy> Model for ConnectedMarks<A> {
    ghost use Rattle.std.specs.Prelude.{List, Bool};

    ghost Value = { List Bool };

    ghost view = { λ it. it.marks.items };
}

impl<A: Allocator + Copy> ConnectedMarks<A> {
    /// Returns an empty set of marks. The call does not allocate.
    pub fn new(alloc: A) -> ConnectedMarks<A>
        ensures none { result ≡ [] }
        ensures connected { (g : List (Entry A)) → AreConnected g result }
    {
        ConnectedMarks {
            marks: Vec::new(alloc),
        }
    }

    /// Returns whether the id at the position is marked. A position after the end of the marks is
    /// unmarked. The call does not allocate.
    pub fn is_marked(&self, position: usize) -> bool
        ensures { result ≡ slice_index_or self.now position false }
    {
        is_marked(self.marks.as_slice(), position)
    }

    // Returns the marks as a slice, indexed by position.
    pub(crate) fn as_slice(&self) -> &[bool]
        ensures { result.now ≡ self.now }
    {
        self.marks.as_slice()
    }
}

/// Marks every id that the given connected ids reach. The other marks are unchanged.
///
/// The new marks are allocated with the graph's allocator. Fails only with `Memory`, and then
/// leaves the marks unchanged.
pub fn mark_connected<A: Allocator + Copy>(
    graph: &Graph<A>,
    ids: &[Oid],
    marks: &mut ConnectedMarks<A>,
) -> Result<(), GraphFault>
    requires { All (IsConnected graph.now.entries) ids.now }
    ensures marked { OnOk result (MarksReached graph.now.entries ids.now marks.old marks.new) }
    ensures connected { AreConnected graph.now.entries marks.old → AreConnected graph.now.entries marks.new }
    ensures unchanged { OnErr result (marks.new ≡ marks.old) }
    ensures fault { IfErr result (λ fault. fault ≡ Memory) }
{
    let walk = walk_from(graph, ids)?;
    marks.marks = either(walk.marks, marks.as_slice())?;
    Ok(())
}

/// Returns the union of two sets of marks. Fails only if out of memory.
pub fn either<A: Allocator + Copy>(
    reached: Vec<bool, A>,
    old: &[bool],
) -> Result<Vec<bool, A>, AllocError>
    ensures { IfOk result (λ marks. (position : ℕ) → slice_index_or marks.items position false
        ≡ (slice_index_or reached.items position false || slice_index_or old.now position false)) }
{
    let mut marks = reached;
    for (position, mark) in old.iter().enumerate() {
        if position >= marks.len() {
            marks.push(*mark)?;
        } else if *mark {
            marks[position] = true;
        }
    }
    Ok(marks)
}

/// Returns whether a position is marked. A position after the end of the marks is unmarked.
pub fn is_marked(marks: &[bool], position: usize) -> bool
    ensures { result ≡ slice_index_or marks.now position false }
{
    match marks.get(position) {
        Some(mark) => *mark,
        None => false,
    }
}
