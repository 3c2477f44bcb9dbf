//! Commits and tags, with their parents and ids.

ghost use Rattle.std.specs.Prelude.{◌≡◌, ◌++◌, ◌∷◌, [], OnOk, OnErr, IfOk, IsTrue, ◌↔◌};

use gname::Oid;
use std::alloc::{AllocError, Allocator, Global};
use std::marker::Model;

/// The maximum number of parents of a node.
pub const MAX_PARENTS: usize = 64;

/// The type of an object (gitglossary(7), "object type"): a commit or a tag.
#[derive(Clone, Copy, Debug, PartialEq, Eq)]
pub enum Kind {
    Commit,
    Tag,
}

/// The ids of a node's parents, in order. The same id may occur more than once.
#[derive(Debug, Drop)]
pub struct Parents<A: Allocator + Copy = Global> {
    ids: Vec<Oid, A>,
}

impl<A: Allocator + Copy> Model for Parents<A> {
    ghost use Rattle.std.specs.Prelude.{List, ℕ};

    ghost Value = { List (List ℕ) };

    ghost view = { λ parents. parents.ids.items };
}

impl<A: Allocator + Copy> Parents<A> {
    /// Returns an empty list of parents. The call does not allocate.
    pub fn new(alloc: A) -> Parents<A>
        ensures { result ≡ [] }
    {
        Parents {
            ids: Vec::new(alloc),
        }
    }

    /// Returns a list of the given parents, in order, which is allocated with `alloc`. Fails only
    /// if out of memory.
    pub fn from_slice(alloc: A, ids: &[Oid]) -> Result<Parents<A>, AllocError>
        ensures { IfOk result (λ parents. parents ≡ ids.now) }
    {
        let ids = Vec::from_slice(alloc, ids)?;
        Ok(Parents { ids })
    }

    /// Appends a parent. If memory runs out, the call fails and leaves the list unchanged.
    pub fn push(&mut self, id: Oid) -> Result<(), AllocError>
        ensures ok { OnOk result (self.new ≡ self.old ++ id ∷ []) }
        ensures err { OnErr result (self.new ≡ self.old) }
    {
        self.ids.push(id)?;
        Ok(())
    }

    /// Returns the parents in order.
    pub fn as_slice(&self) -> &[Oid]
        ensures { result.now ≡ self.now }
    {
        self.ids.as_slice()
    }
}

/// A commit or tag without its id: the kind and the parents.
#[derive(Debug, Drop)]
pub struct Node<A: Allocator + Copy = Global> {
    /// The type of the object.
    pub kind: Kind,
    /// The parents of a commit, or the object that a tag refers to.
    pub parents: Parents<A>,
}

impl<A: Allocator + Copy> Node<A> {
    ghost use Rattle.gobject.specs.Objects.{IsShaped};

    /// Returns a copy of the node. Fails only if out of memory.
    pub fn copy_in(&self, alloc: A) -> Result<Node<A>, AllocError>
        ensures { IfOk result (λ node. node ≡ self.now) }
    {
        let parents = Parents::from_slice(alloc, self.parents.as_slice())?;
        Ok(Node {
            kind: self.kind,
            parents,
        })
    }

    /// Returns whether the node has at most `MAX_PARENTS` parents, and exactly one if it is a tag.
    pub fn is_shaped(&self) -> bool
        ensures { IsTrue result ↔ IsShaped self.now }
    {
        let count = self.parents.as_slice().len();
        match self.kind {
            Kind::Commit => count <= MAX_PARENTS,
            Kind::Tag => count == 1,
        }
    }

    /// Returns whether two nodes have the same kind and the same parents in the same order.
    pub fn is_same(&self, other: &Node<A>) -> bool
        ensures { IsTrue result ↔ (self.now ≡ other.now) }
    {
        self.kind == other.kind && self.parents.as_slice() == other.parents.as_slice()
    }
}

/// An object with its id, as a graph stores it.
#[derive(Debug, Drop)]
pub struct Entry<A: Allocator + Copy = Global> {
    /// The id of the object.
    pub id: Oid,
    /// The kind and the parents of the object.
    pub node: Node<A>,
}

impl<A: Allocator + Copy> Entry<A> {
    /// Returns a copy of the entry. Fails only if out of memory.
    pub fn copy_in(&self, alloc: A) -> Result<Entry<A>, AllocError>
        ensures { IfOk result (λ entry. entry ≡ self.now) }
    {
        let node = self.node.copy_in(alloc)?;
        Ok(Entry { id: self.id, node })
    }
}
