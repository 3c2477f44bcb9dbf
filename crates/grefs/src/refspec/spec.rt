//! A refspec, and the ref names that it matches.

ghost use Rattle.std.specs.Prelude.{◌≡◌, ◌↔◌, IfOk, IfSome, IsTrue, MatchResult, true};
ghost use Rattle.gname.specs.Names.{IsRefName, head_name};
ghost use Rattle.grefs.specs.RefLists.{IsBelowRefs};
ghost use Rattle.grefs.specs.declared.refspec.fault.SpecFault.TheVariants.{Memory};
ghost use Rattle.grefs.specs.Refspecs.{AreSides, FindsDestination, IsRefspec, IsSpec, Reads, destination_of, matches};

use crate::refspec::fault::SpecFault;
use crate::refspec::parse::read_spec;
use crate::refspec::side::{is_joined_name, name_of};
use gname::laws::names_are_clean;
use gname::{HEAD, NameFault, Prefix, RefName};
use std::alloc::{AllocError, Allocator, Global};
use std::marker::Model;

/// A refspec: a source and a destination. Both are ref names, or both are patterns that end in `*`.
/// The `*` of the source matches one or more bytes at the end of a name.
#[derive(Debug, Drop)]
pub struct Spec<A: Allocator + Copy = Global> {
    forced: bool,
    pattern: bool,
    // The source. For a pattern, this is only the part of the source before the `*`.
    source: Prefix<A>,
    destination: Prefix<A>,
}

impl<A: Allocator + Copy> Model for Spec<A> {
    ghost use Rattle.grefs.specs.Refspecs.{Refspec, AreSides};

    ghost Value = { Refspec };

    ghost view = { λ it. record { forced = it.forced; pattern = it.pattern; source = it.source; destination = it.destination } };

    ghost invariant = { λ it. AreSides it.pattern it.source it.destination };
}

impl<A: Allocator + Copy> Spec<A> {
    /// Parses a refspec: an optional `+`, a source, a `:` and a destination. Without `*`, the
    /// source is a ref name, and the destination is a ref name below `refs/`. In a pattern the
    /// source and the destination end in `/*`, and are ref names below `refs/` if `x` replaces the
    /// `*`.
    ///
    /// Fails with `BadSpec` if the text is not a refspec. Fails with `Memory` only if the text is a
    /// refspec.
    pub fn parse(alloc: A, text: &[u8]) -> Result<Spec<A>, SpecFault>
        ensures { Reads (IsSpec text.now) result }
    {
        read_spec(alloc, text)
    }

    /// Returns the refspec with the given source and destination.
    pub(crate) fn of_sides(
        alloc: A,
        forced: bool,
        pattern: bool,
        source: &[u8],
        destination: &[u8],
    ) -> Result<Spec<A>, SpecFault>
        requires { AreSides pattern source.now destination.now }
        ensures { MatchResult result
            (λ spec. spec ≡ record {
              forced = forced;
              pattern = pattern;
              source = source.now;
              destination = destination.now;
            }) (λ fault. fault ≡ Memory) }
    {
        let Ok(source) = Prefix::new(alloc, source) else {
            return Err(SpecFault::Memory);
        };
        let Ok(destination) = Prefix::new(alloc, destination) else {
            return Err(SpecFault::Memory);
        };
        Ok(Spec {
            forced,
            pattern,
            source,
            destination,
        })
    }

    /// Returns a copy of the refspec, which is allocated with `alloc`. Fails only if out of memory.
    pub fn copy_in<B: Allocator + Copy>(&self, alloc: B) -> Result<Spec<B>, SpecFault>
        ensures { MatchResult result (λ copy. copy ≡ self.now) (λ fault. fault ≡ Memory) }
    {
        Spec::of_sides(
            alloc,
            self.forced,
            self.pattern,
            self.source.as_bytes(),
            self.destination.as_bytes(),
        )
    }

    /// Returns whether the refspec has a `+`, which allows updates that are not fast-forwards.
    pub fn is_forced(&self) -> bool
        ensures forced { result ≡ self.now.forced }
        ensures spec { IsRefspec self.now }
    {
        self.forced
    }

    /// Returns whether the source is `HEAD`.
    pub fn is_head(&self) -> bool
        ensures { IsTrue result ↔ (self.now.source ≡ head_name) }
    {
        self.source.as_bytes() == HEAD.as_slice()
    }

    /// Returns the prefix of all names that the source matches: the source, or the part before the
    /// `*` of a pattern.
    pub fn prefix(&self) -> &Prefix<A>
        ensures { result.now ≡ self.now.source }
    {
        &self.source
    }

    /// Returns whether the source matches a name. A source without `*` matches only itself. A
    /// pattern matches every name that begins with the part before the `*` and has at least one
    /// more byte.
    pub fn matches<B: Allocator + Copy>(&self, name: &RefName<B>) -> bool
        ensures { result ≡ matches self.now name.now }
    {
        let name = name.as_bytes();
        let source = self.source.as_bytes();
        if self.pattern {
            name.starts_with(source) && source.len() < name.len()
        } else {
            name == source
        }
    }

    /// Returns whether the destination of a name is a valid ref name. Returns `true` if the source
    /// does not match the name. The call does not allocate.
    pub fn can_take<B: Allocator + Copy>(&self, name: &RefName<B>) -> bool
        ensures { IsTrue result ↔ (matches self.now name.now ≡ true
            → IsRefName (destination_of self.now name.now)) }
    {
        // The proof uses this law.
        names_are_clean();
        if !self.matches(name) {
            return true;
        }
        let rest = &name.as_bytes()[self.source.as_bytes().len()..];
        is_joined_name(self.destination.as_bytes(), rest)
    }

    /// Returns the destination of a name, which is below `refs/`. For a pattern, the part of the
    /// name that the source's `*` matches replaces the destination's `*`. Returns `None` if the
    /// source does not match the name.
    ///
    /// Fails with the first fault of the destination if the destination is not a valid ref name.
    /// Fails with `Memory` only if the destination is a valid ref name.
    pub fn destination<B: Allocator + Copy, C: Allocator + Copy>(
        &self,
        alloc: C,
        name: &RefName<B>,
    ) -> Result<Option<RefName<C>>, NameFault>
        ensures finds { FindsDestination self.now name.now result }
        ensures below { IfOk result (λ found. IfSome found IsBelowRefs) }
    {
        // The proof uses this law.
        names_are_clean();
        if !self.matches(name) {
            return Ok(None);
        }
        let rest = &name.as_bytes()[self.source.as_bytes().len()..];
        let destination = name_of(alloc, self.destination.as_bytes(), rest)?;
        Ok(Some(destination))
    }
}
