//! The tables of a commit-graph file (gitformat-commit-graph(5), "CHUNK DATA").

ghost use Rattle.std.specs.Prelude.{◌≡◌, ◌-◌, ◌<◌, ◌≤◌, ◌++◌, ◌↔◌, [], List, ℕ, All, IfOk, IsTrue, count_by, length, slice_index_or};
ghost use Rattle.gitcommitgraph.specs.Chains.{ListsParents};
ghost use Rattle.gitcommitgraph.specs.Files.{HaveEnds, IsAscending, IsBefore, IsEdgeBefore, IsRowBefore, NamesEdge, edge_list, first_parent, mark, number, row_parents, second_parent};
ghost use Rattle.gitcommitgraph.specs.Texts.{begins_within};
ghost use Rattle.gitcommitgraph.specs.steps.Tables.{AreBetween, IsFanOut, IsPlaceOf};

use crate::position::Position;
use std::alloc::{AllocError, Allocator};

/// The length of an id in bytes.
pub(crate) const ID_BYTES: usize = 20;

/// The length in bytes of a row of the commit data.
pub(crate) const ROW_BYTES: usize = 36;

// The offset of the first parent number in a row of the commit data.
const FIRST_PARENT: usize = 20;

// The offset of the second parent number in a row of the commit data.
const SECOND_PARENT: usize = 24;

// The parent number that is stored if there is no parent.
const NO_PARENT: u32 = 0x7000_0000;

// The highest bit of an edge or a second parent number. The bit marks the last edge of a list, and
// a second parent number that refers to an edge list.
const MARK: u32 = 0x8000_0000;

/// The tables of a file.
#[derive(Clone, Copy)]
pub(crate) struct Tables<'a> {
    /// The fan-out table.
    pub(crate) fan_out: &'a [[u8; 4]],
    /// The ids of the commits.
    pub(crate) ids: &'a [[u8; ID_BYTES]],
    /// A row of commit data for each id.
    pub(crate) rows: &'a [[u8; ROW_BYTES]],
    /// The edges of all edge lists.
    pub(crate) edges: &'a [[u8; 4]],
}

impl Tables<'_> {
    /// Returns the index of an id, or `None` if the table of ids does not contain the id.
    pub(crate) fn find(&self, id: &[u8; ID_BYTES]) -> Option<usize>
        requires ascending { IsAscending self.now.ids.now }
        requires fan_out { IsFanOut self.now.fan_out.now self.now.ids.now }
        ensures { IsPlaceOf self.now.ids.now id.now result }
    {
        let (start, end) = self.places_of(id[0]);
        match search(&self.ids[start..end], id) {
            Some(place) => Some(start + place),
            None => None,
        }
    }

    // Returns the start and the end of the range of ids that begin with this byte.
    fn places_of(&self, byte: u8) -> (usize, usize)
        requires ascending { IsAscending self.now.ids.now }
        requires fan_out { IsFanOut self.now.fan_out.now self.now.ids.now }
        ensures { AreBetween byte self.now.ids.now result.0 result.1 }
    {
        let end = self.ids_within(byte);
        if byte == 0 {
            return (0, end);
        }
        (self.ids_within(byte - 1), end)
    }

    // Returns the number of ids that begin with this byte or a lower byte, from the fan-out table.
    fn ids_within(&self, byte: u8) -> usize
        requires { IsFanOut self.now.fan_out.now self.now.ids.now }
        ensures { result ≡ count_by (begins_within byte) self.now.ids.now }
    {
        number(&self.fan_out[usize::from(byte)]) as usize
    }

    /// Returns the positions of the parents of the commit at this index, in order. Returns `None`
    /// if the commit has more than `most` parents. Fails only if out of memory.
    pub(crate) fn parents_of<A: Allocator + Copy>(
        &self,
        alloc: A,
        place: usize,
        most: usize,
    ) -> Result<Option<Vec<Position, A>>, AllocError>
        requires inside { place < length self.now.rows.now }
        requires ended { All (NamesEdge (length self.now.edges.now)) self.now.rows.now }
        ensures { IfOk result (ListsParents most
            (row_parents self.now.edges.now (slice_index_or self.now.rows.now place []))) }
    {
        let (first, second) = parents(&self.rows[place]);
        let mut list = Vec::new(alloc);
        if first == NO_PARENT {
            return Ok(Some(list));
        }
        list.push(Position::new(first))?;
        if second == NO_PARENT {
            return Ok(within(list, most));
        }
        if second < MARK {
            list.push(Position::new(second))?;
            return Ok(within(list, most));
        }
        follow(&self.edges[(second - MARK) as usize..], list, most)
    }

    /// Returns whether the ids are in ascending order.
    pub(crate) fn are_ascending(&self) -> bool
        ensures { IsTrue result ↔ IsAscending self.now.ids.now }
    {
        self.ids.is_sorted_by(|one, other| one.cmp(other).is_lt())
    }

    /// Returns whether the fan-out table matches the ids.
    pub(crate) fn is_fan_out(&self) -> bool
        requires ascending { IsAscending self.now.ids.now }
        requires long { length self.now.fan_out.now ≡ 256 }
        ensures { IsTrue result ↔ IsFanOut self.now.fan_out.now self.now.ids.now }
    {
        for (byte, row) in self.fan_out.iter().enumerate() {
            if number(row) as usize != ids_within(self.ids, byte) {
                return false;
            }
        }
        true
    }

    /// Returns whether the last edge, if any, is marked, and each edge list to which a row refers
    /// begins at a valid index. Each edge list then has an end.
    pub(crate) fn lists_end(&self) -> bool
        ensures { IsTrue result ↔ HaveEnds self.now.edges.now self.now.rows.now }
    {
        last_is_marked(self.edges) && name_edges(self.rows, self.edges.len())
    }

    /// Returns whether each position in the rows and edges is less than `end`.
    pub(crate) fn are_before(&self, end: usize) -> bool
        ensures { IsTrue result ↔
            (All (IsRowBefore end) self.now.rows.now × All (IsEdgeBefore end) self.now.edges.now) }
    {
        rows_are_before(self.rows, end) && edges_are_before(self.edges, end)
    }
}

// Returns the index of an id among ascending ids, or `None` if `ids` does not contain the id.
fn search(ids: &[[u8; ID_BYTES]], id: &[u8; ID_BYTES]) -> Option<usize>
    requires { IsAscending ids.now }
    ensures { IsPlaceOf ids.now id.now result }
{
    match ids.binary_search_by(|other| other.cmp(id)) {
        Ok(place) => Some(place),
        Err(_) => None,
    }
}

// Returns the number of ids that begin with this byte or a lower byte. The ids must ascend.
fn ids_within(ids: &[[u8; ID_BYTES]], byte: usize) -> usize
    requires { IsAscending ids.now }
    ensures { result ≡ count_by (begins_within byte) ids.now }
{
    ids.partition_point(|id| usize::from(id[0]) <= byte)
}

// Appends the parents from the edge list at the start of `edges` to `list`, and returns `list`.
// Returns `None` if there would be more than `most` parents.
fn follow<A: Allocator + Copy>(
    edges: &[[u8; 4]],
    mut list: Vec<Position, A>,
    most: usize,
) -> Result<Option<Vec<Position, A>>, AllocError>
    ensures { IfOk result (ListsParents most (list.items ++ edge_list edges.now)) }
{
    for edge in edges {
        if list.len() >= most {
            return Ok(None);
        }
        let edge = number(edge);
        if edge >= MARK {
            list.push(Position::new(edge - MARK))?;
            return Ok(Some(list));
        }
        list.push(Position::new(edge))?;
    }
    Ok(within(list, most))
}

// Returns the list, or `None` if the list has more than `most` items.
fn within<A: Allocator + Copy>(list: Vec<Position, A>, most: usize) -> Option<Vec<Position, A>>
    ensures { ListsParents most list.items result }
{
    if list.len() <= most { Some(list) } else { None }
}

// Returns whether the last edge is marked as the end of a list. Returns true if there are no edges.
fn last_is_marked(edges: &[[u8; 4]]) -> bool
    ensures { IsTrue result ↔
        ((d : List ℕ) → 0 < length edges.now → mark ≤ number (slice_index_or edges.now (length edges.now - 1) d)) }
{
    match edges.last() {
        Some(last) => number(last) >= MARK,
        None => true,
    }
}

// Returns whether each row that refers to an edge list contains an edge index less than `count`.
fn name_edges(rows: &[[u8; ROW_BYTES]], count: usize) -> bool
    ensures { IsTrue result ↔ All (NamesEdge count) rows.now }
{
    rows.iter().all(|row| names_edge(row, count))
}

// Returns whether the edge index in the row, if any, is less than `count`.
fn names_edge(row: &[u8; ROW_BYTES], count: usize) -> bool
    ensures { IsTrue result ↔ NamesEdge count row.now }
{
    let (_first, second) = parents(row);
    second < MARK || ((second - MARK) as usize) < count
}

// Returns whether the parent positions in the rows, except those in edge lists, are less than
// `end`.
fn rows_are_before(rows: &[[u8; ROW_BYTES]], end: usize) -> bool
    ensures { IsTrue result ↔ All (IsRowBefore end) rows.now }
{
    rows.iter().all(|row| is_row_before(row, end))
}

// Returns whether the parent positions in the row, except those in its edge list, are less than
// `end`.
fn is_row_before(row: &[u8; ROW_BYTES], end: usize) -> bool
    ensures { IsTrue result ↔ IsRowBefore end row.now }
{
    let (first, second) = parents(row);
    is_before(first, end) && (second >= MARK || is_before(second, end))
}

// Returns whether the parent position is less than `end`, or there is no parent.
fn is_before(parent: u32, end: usize) -> bool
    ensures { IsTrue result ↔ IsBefore end parent }
{
    parent == NO_PARENT || (parent as usize) < end
}

// Returns whether the parent positions in all edges are less than `end`.
fn edges_are_before(edges: &[[u8; 4]], end: usize) -> bool
    ensures { IsTrue result ↔ All (IsEdgeBefore end) edges.now }
{
    edges.iter().all(|edge| is_edge_before(edge, end))
}

// Returns whether the parent position in the edge is less than `end`.
fn is_edge_before(edge: &[u8; 4], end: usize) -> bool
    ensures { IsTrue result ↔ IsEdgeBefore end edge.now }
{
    let edge = number(edge);
    let parent = if edge < MARK { edge } else { edge - MARK };
    (parent as usize) < end
}

// Returns the two parent numbers of a row.
fn parents(row: &[u8; ROW_BYTES]) -> (u32, u32)
    ensures first { result.0 ≡ first_parent row.now }
    ensures second { result.1 ≡ second_parent row.now }
{
    (
        number(row[FIRST_PARENT..].first_chunk::<4>().unwrap()),
        number(row[SECOND_PARENT..].first_chunk::<4>().unwrap()),
    )
}

// Returns the big-endian number that consists of these bytes.
#[tactic(auto, unfolding(crate::specs::Files::number))]
fn number(bytes: &[u8; 4]) -> u32
    ensures { result ≡ number bytes.now }
{
    u32::from_be_bytes(*bytes)
}
