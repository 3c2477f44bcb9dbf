//! Prefixes of ref names.

ghost use Rattle.std.specs.Prelude.{◌≡◌, ◌≤◌, ℕ, List, length, nat_eq};
ghost use Rattle.std.specs.Cmp as Cmp;
ghost use Rattle.std.specs.Cmp.Lexicographic.{pointwise, nat_list_eq_equiv};
ghost use Rattle.gname.specs.Laws.{IsClean};
ghost use Rattle.gname.specs.Names.{IsPrefix, Owns, max_name, prefix_fault};

use crate::faults::NameFault;
use crate::rules;
use std::alloc::{AllocError, Allocator, Global};
use std::fmt;
use std::marker::Model;

/// A prefix of ref names. The empty prefix is a prefix of every name.
#[derive(Drop)]
pub struct Prefix<A: Allocator + Copy = Global> {
    text: Vec<u8, A>,
}

impl<A: Allocator + Copy> Model for Prefix<A> {
    ghost Value = { List ℕ };

    ghost view = { λ prefix. prefix.text.items };

    ghost invariant = { λ prefix. IsPrefix prefix.text.items };
}

impl<A: Allocator + Copy> Prefix<A> {
    /// Returns the prefix with this text. The text may be empty, and need not be a ref name.
    ///
    /// Fails with `TooLong` if the text has more than 1,000 bytes, and otherwise with `BadByte` if
    /// the text has a forbidden byte. Fails with `Memory` only if a well-formed prefix could not be
    /// stored.
    pub fn new(alloc: A, text: &[u8]) -> Result<Prefix<A>, NameFault>
        ensures { Owns prefix_fault text.now result }
    {
        rules::check_prefix(text)?;
        let text = Vec::from_slice(alloc, text)?;
        Ok(Prefix { text })
    }

    /// Returns the bytes of the prefix: at most 1,000, without control characters or spaces.
    #[tactic(auto, using(crate::proofs::NameLemmas::prefixes_are_clean))]
    pub fn as_bytes(&self) -> &[u8]
        ensures bytes { result.now ≡ self.now }
        ensures prefix { IsPrefix self.now }
        ensures within { length self.now ≤ max_name }
        ensures clean { IsClean self.now }
    {
        self.text.as_slice()
    }
}

impl<A: Allocator + Copy> Clone for Prefix<A> {
    ghost is_clone = { λ prefix copy. copy ≡ prefix };

    fn clone(&self) -> Result<Prefix<A>, AllocError> {
        let text = Vec::from_slice(*self.text.allocator(), self.as_bytes())?;
        Ok(Prefix { text })
    }
}

impl<A: Allocator + Copy> PartialEq for Prefix<A> {
    ghost eq = { pointwise nat_eq };

    ghost laws = { Cmp.partial_equiv_from_equiv nat_list_eq_equiv };

    fn eq(&self, other: &Prefix<A>) -> bool {
        self.as_bytes() == other.as_bytes()
    }
}

impl<A: Allocator + Copy> Eq for Prefix<A> {
    ghost laws = { nat_list_eq_equiv };
}

impl<A: Allocator + Copy> fmt::Debug for Prefix<A> {
    fn fmt<W: fmt::Write>(&self, f: &mut fmt::Formatter<W>) -> fmt::Result {
        fmt::Debug::fmt(&self.as_bytes(), f)
    }
}
