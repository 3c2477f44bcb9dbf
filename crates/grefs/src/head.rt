//! The value of `HEAD`, and the target of a symbolic `HEAD`.

ghost use Rattle.std.specs.Prelude.{◌≡◌, ◌≢◌, IfOk, MatchOption};
ghost use Rattle.gname.specs.Names.{head_name};
ghost use Rattle.grefs.specs.Heads.{PointsBelowRefs};
ghost use Rattle.grefs.specs.RefLists.{IsBelowRefs};

use gname::laws::names_are_clean;
use gname::{Oid, RefName};
use std::alloc::{AllocError, Allocator, Global};
use std::marker::Model;

/// The target of a symbolic `HEAD` (gitglossary(7), "symref"): any ref name below `refs/`.
#[derive(Debug, Drop)]
pub struct Target<A: Allocator + Copy = Global> {
    name: RefName<A>,
}

impl<A: Allocator + Copy> Model for Target<A> {
    ghost use Rattle.std.specs.Prelude.{List, ℕ};
    ghost use Rattle.grefs.specs.RefLists.{IsBelowRefs};

    ghost Value = { List ℕ };

    ghost view = { λ target. target.name };

    ghost invariant = { λ target. IsBelowRefs target.name };
}

impl<A: Allocator + Copy> Target<A> {
    /// Returns a target with this name, or `None` if the name is `HEAD`.
    pub fn new(name: RefName<A>) -> Option<Target<A>>
        ensures { MatchOption result (name ≡ head_name)
            (λ target. (target ≡ name) × (name ≢ head_name)) }
    {
        // The proof uses this law.
        names_are_clean();
        if name.is_head() {
            return None;
        }
        Some(Target { name })
    }

    /// Returns a copy of the target. Fails only if out of memory.
    pub fn copy_in(&self, alloc: A) -> Result<Target<A>, AllocError>
        ensures { IfOk result (λ target. target ≡ self.now) }
    {
        let name = self.name.copy_in(alloc)?;
        Ok(Target { name })
    }

    /// Returns the name of the target.
    pub fn name(&self) -> &RefName<A>
        ensures name { result.now ≡ self.now }
        ensures below { IsBelowRefs self.now }
    {
        &self.name
    }
}

/// The value of `HEAD`.
#[derive(Debug, Drop)]
pub enum Head<A: Allocator + Copy = Global> {
    /// The repository has no `HEAD`.
    None,
    /// `HEAD` is detached at this id.
    Id(Oid),
    /// `HEAD` is a symbolic ref to this target. `HEAD` is unborn if no ref has the target's name.
    Symref(Target<A>),
}

impl<A: Allocator + Copy> Head<A> {
    /// Returns a copy of the `HEAD` value. Fails only if out of memory.
    pub fn copy_in(&self, alloc: A) -> Result<Head<A>, AllocError>
        ensures { IfOk result (λ head. head ≡ self.now) }
    {
        match self {
            Head::None => Ok(Head::None),
            Head::Id(id) => Ok(Head::Id(*id)),
            Head::Symref(target) => Ok(Head::Symref(target.copy_in(alloc)?)),
        }
    }

    /// Proves that the target of a symbolic `HEAD` is below `refs/`.
    pub fn laws(&self)
        ensures { PointsBelowRefs self.now }
    {
        if let Head::Symref(target) = self {
            let _name = target.name();
        }
    }
}
