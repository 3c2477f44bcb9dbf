//! A commit-graph of one or more files.

ghost use Rattle.std.specs.Prelude.{◌≡◌, ◌==◌, ◌<◌, ◌≤◌, [], All, IfErr, IfOk, IfSome, MatchOption, OnErr, OnOk, length};
ghost use Rattle.std.specs.List.{HoldsAt};
ghost use Rattle.gname.specs.Ids.{IsIdOf};
ghost use Rattle.gname.specs.declared.formats.Format.TheVariants.{Sha1};
ghost use Rattle.gitcommitgraph.specs.Chains.{AddsFile, AreClosed, FindsCommit, ListsParents, graph_commits};
ghost use Rattle.gitcommitgraph.specs.Faults.{IsRefused};
ghost use Rattle.gitcommitgraph.specs.Files.{no_parent};
ghost use Rattle.gitcommitgraph.specs.steps.Chains.{IsIn};

use crate::fault::CommitGraphFault;
use crate::layer::Layer;
use crate::position::{MAX_COMMITS, Position};
use crate::tables::ID_BYTES;
use gname::Oid;
use std::alloc::{AllocError, Allocator};
use std::marker::Model;

/// A commit-graph: a single file, or all files of a chain.
#[derive(Drop)]
pub struct CommitGraph<A: Allocator + Copy> {
    alloc: A,
    layers: Vec<Layer<A>, A>,
    count: usize,
}

impl<A: Allocator + Copy> Model for CommitGraph<A> {
    ghost use Rattle.std.specs.Prelude.{List};
    ghost use Rattle.gitcommitgraph.specs.Files.{GraphFile};
    ghost use Rattle.gitcommitgraph.specs.steps.Chains.{IsGraph};

    ghost Value = { List GraphFile };

    ghost view = { λ graph. graph.layers.items };

    ghost invariant = { λ graph. IsGraph graph.count graph.layers.items };
}

impl<A: Allocator + Copy> CommitGraph<A> {
    /// Returns a commit-graph without files. Allocates no memory.
    pub fn new(alloc: A) -> CommitGraph<A>
        ensures { result ≡ [] }
    {
        CommitGraph {
            alloc,
            layers: Vec::new(alloc),
            count: 0,
        }
    }

    /// Adds a single file, or the next file of a chain. The files of a chain must be added from the
    /// lowest to the highest. The bytes are kept unchanged, and the file's checksum is not checked.
    ///
    /// Fails with `Bases` if the base graphs of the file are not the files added earlier, and with
    /// `TooMany` if there would be more than 0x7000_0000 commits. Fails with `Parents` if the file
    /// lists a parent position without a commit, or with `Memory` if out of memory. Fails with any
    /// other fault if the bytes are not a commit-graph file. After a failure the commit-graph is
    /// unchanged.
    pub fn add(&mut self, bytes: Vec<u8, A>) -> Result<(), CommitGraphFault>
        ensures ok { OnOk result (AddsFile self.old bytes.items self.new) }
        ensures err { IfErr result (IsRefused self.old bytes.items) }
        ensures same { OnErr result (self.new ≡ self.old) }
    {
        let layer = Layer::read(bytes)?;
        if !layer.is_above(self.layers.as_slice()) {
            return Err(CommitGraphFault::Bases);
        }
        let count = self.count.saturating_add(layer.len());
        if count > MAX_COMMITS {
            return Err(CommitGraphFault::TooMany);
        }
        if !layer.is_before(count) {
            return Err(CommitGraphFault::Parents);
        }
        self.layers.push(layer)?;
        self.count = count;
        Ok(())
    }

    /// Proves that each parent of a commit is a commit of the commit-graph, and that there are at
    /// most 0x7000_0000 commits.
    pub fn laws(&self)
        ensures closed { AreClosed (graph_commits self.now) }
        ensures few { length (graph_commits self.now) ≤ no_parent }
    {
        let _count = self.count;
    }

    /// Returns the number of commits.
    pub fn len(&self) -> usize
        ensures { result ≡ length (graph_commits self.now) }
    {
        self.count
    }

    /// Returns whether the commit-graph has no commits.
    pub fn is_empty(&self) -> bool
        ensures { result ≡ (length (graph_commits self.now) == 0) }
    {
        self.count == 0
    }

    /// Returns the position of a commit with this id, or `None` if no commit has the id.
    pub fn find(&self, id: &Oid) -> Option<Position>
        ensures { FindsCommit (graph_commits self.now) id.now result }
    {
        let layers = self.layers.as_slice();
        let Some(bytes) = id.as_bytes().as_array::<ID_BYTES>() else {
            return None;
        };
        match find_commit(layers, bytes) {
            Some(position) => Some(Position::new(position as u32)),
            None => None,
        }
    }

    /// Returns the id of the commit at this position.
    pub fn id(&self, position: Position) -> Oid
        requires { position < length (graph_commits self.now) }
        ensures id { HoldsAt (λ commit. commit.id ≡ result) (graph_commits self.now) position }
        ensures format { IsIdOf Sha1 result }
    {
        let (layer, place) = layer_at(self.layers.as_slice(), position.index());
        layer.id(place)
    }

    /// Returns the positions of the parents of the commit at this position, in order. Returns
    /// `None` if the commit has more than `most` parents. Fails only if out of memory.
    pub fn parents_of(
        &self,
        position: Position,
        most: usize,
    ) -> Result<Option<Vec<Position, A>>, AllocError>
        requires { position < length (graph_commits self.now) }
        ensures parents { IfOk result (λ found.
            HoldsAt (λ commit. ListsParents most commit.parents found) (graph_commits self.now) position) }
        ensures inside { IfOk result (λ found. IfSome found (λ list.
            All (λ parent. parent < length (graph_commits self.now)) list.items)) }
    {
        let (layer, place) = layer_at(self.layers.as_slice(), position.index());
        layer.parents_of(self.alloc, place, most)
    }
}

// Returns the position of the first commit with this id, or `None` if no commit has the id.
fn find_commit<A: Allocator + Copy>(layers: &[Layer<A>], id: &[u8; ID_BYTES]) -> Option<usize>
    requires { length (graph_commits layers.now) ≤ no_parent }
    ensures { FindsCommit (graph_commits layers.now) id.now result }
{
    let mut start = 0;
    for layer in layers {
        match layer.find(id) {
            Some(place) => return Some(start + place),
            None => start += layer.len(),
        }
    }
    None
}

// Returns the file that has the commit at this position, and the index of the commit in the file.
fn layer_at<A: Allocator + Copy>(layers: &[Layer<A>], position: usize) -> (&Layer<A>, usize)
    requires { position < length (graph_commits layers.now) }
    ensures { IsIn layers.now position result.0.now result.1 }
{
    find_layer(layers, position).unwrap()
}

// Returns the file that has the commit at this position, and the index of the commit in the file.
// Returns `None` if there is no commit at the position.
fn find_layer<A: Allocator + Copy>(
    layers: &[Layer<A>],
    position: usize,
) -> Option<(&Layer<A>, usize)>
    ensures { MatchOption result (length (graph_commits layers.now) ≤ position)
        (λ found. IsIn layers.now position found.0.now found.1) }
{
    let mut place = position;
    for layer in layers {
        let count = layer.len();
        if place < count {
            return Some((layer, place));
        }
        place -= count;
    }
    None
}
