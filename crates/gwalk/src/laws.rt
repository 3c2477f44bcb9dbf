//! The laws of marks. Each function does nothing at run time, and its contract states the law.

ghost use Rattle.gwalk.specs.Marks.{CoveringStays, MarksStayConnected, StopsAtMarks};

use gdag::laws::{connected_stays_connected, growing_keeps};
use std::alloc::Allocator;

/// Proves that all marked ids stay connected when objects are added to the graph.
pub fn marks_stay_connected<A: Allocator + Copy>()
    ensures { MarksStayConnected A }
{
    connected_stays_connected::<A>();
    growing_keeps::<A>();
}

/// Proves that marks still cover the same connected ids when objects are added to the graph. Marks
/// cover an id if all ids that this id reaches are marked.
pub fn covering_stays<A: Allocator + Copy>()
    ensures { CoveringStays A }
{
    connected_stays_connected::<A>();
    growing_keeps::<A>();
}

/// Proves that a walk that does not continue past marked objects is equivalent to a full walk in a
/// changed graph. In the changed graph, marked objects have no parents. Both walks reach the same
/// ids, and both have the counts of `missing_known`.
pub fn stops_at_marks<A: Allocator + Copy>()
    ensures { StopsAtMarks A }
{}
