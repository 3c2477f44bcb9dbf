//! Ref names.

ghost use Rattle.std.specs.Prelude.{◌≡◌, ◌≢◌, ◌≤◌, ◌↔◌, ◌++◌, [], ◌∷◌, ℕ, List, IfErr, IfOk, IsTrue, Some, length, nat_eq, refl};
ghost use Rattle.std.proofs.Common.{rules};
ghost use Rattle.std.specs.Cmp.Rules.{hashing};
ghost use Rattle.std.specs.Hash as fed;
ghost use Rattle.std.specs.List.{starts_with};
ghost use Rattle.std.specs.Ordering.{nat_cmp};
ghost use Rattle.std.specs.Cmp as Cmp;
ghost use Rattle.std.specs.Cmp.Lexicographic.{pointwise, slice_cmp, nat_list_eq_equiv, nat_list_cmp_total, texts_ties, texts_po};
ghost use Rattle.gname.specs.Laws.{IsClean};
ghost use Rattle.gname.specs.Names.{Finds, IsRefName, Owns, head_name, max_name, name_fault};

use crate::faults::NameFault;
use crate::prefixes::Prefix;
use crate::rules;
use std::alloc::{AllocError, Allocator, Global};
use std::cmp::Ordering;
use std::fmt;
use std::hash::{Hash, Hasher};
use std::marker::Model;

/// The name of the ref `HEAD` (gitglossary(7), "HEAD").
pub const HEAD: &[u8; 4] = b"HEAD";

/// A ref name: `HEAD`, or a name below `refs/`. Names are ordered by their bytes.
#[derive(Drop)]
pub struct RefName<A: Allocator + Copy = Global> {
    text: Vec<u8, A>,
}

impl<A: Allocator + Copy> Model for RefName<A> {
    ghost Value = { List ℕ };

    ghost view = { λ name. name.text.items };

    ghost invariant = { λ name. IsRefName name.text.items };
}

impl RefName {
    /// Checks a text by the rules of [`new`](Self::new). Fails with the first fault of the text in
    /// the order of [`NameFault`], but never with `Memory`. The call does not allocate.
    #[tactic(auto, using(crate::proofs::NameLemmas::rules_never_report_memory))]
    pub fn check(text: &[u8]) -> Result<(), NameFault>
        ensures judged { Finds name_fault text.now result }
        ensures no_memory { IfErr result (λ fault. fault ≢ NameFault.Memory) }
    {
        rules::check_name(text)
    }
}

impl<A: Allocator + Copy> RefName<A> {
    /// Returns the ref name with this text, checked by the rules of git-check-ref-format(1). A ref
    /// name has at most 1,000 bytes, and is `HEAD` or begins with `refs/`. A ref name has no
    /// control character, DEL, space or any of `~ ^ : ? * [ \`. It does not contain `..` or `@{`,
    /// or end with a dot. No part between slashes is empty, begins with a dot or ends with `.lock`.
    /// Bytes from 128 up are allowed.
    ///
    /// Fails with the first fault of the text in the order of [`NameFault`]. Fails with `Memory`
    /// only if a well-formed name could not be stored.
    pub fn new(alloc: A, text: &[u8]) -> Result<RefName<A>, NameFault>
        ensures { Owns name_fault text.now result }
    {
        rules::check_name(text)?;
        let text = Vec::from_slice(alloc, text)?;
        Ok(RefName { text })
    }

    /// Returns the name `HEAD`. Fails only if out of memory.
    #[tactic(auto, using(crate::proofs::NameLemmas::head_is_a_name))]
    pub fn head(alloc: A) -> Result<RefName<A>, AllocError>
        ensures { IfOk result (λ name. name ≡ head_name) }
    {
        let text = Vec::from_slice(alloc, HEAD)?;
        Ok(RefName { text })
    }

    /// Returns a copy of the name, which is allocated with `alloc`. Fails only if out of memory.
    pub fn copy_in<B: Allocator + Copy>(&self, alloc: B) -> Result<RefName<B>, AllocError>
        ensures { IfOk result (λ copy. copy ≡ self.now) }
    {
        let text = Vec::from_slice(alloc, self.as_bytes())?;
        Ok(RefName { text })
    }

    /// Returns whether the name is `HEAD`, the only ref name that is not below `refs/`.
    pub fn is_head(&self) -> bool
        ensures { IsTrue result ↔ (self.now ≡ head_name) }
    {
        self.as_bytes() == HEAD.as_slice()
    }

    /// Returns whether the name begins with the prefix. Every name begins with the empty prefix.
    pub fn starts_with<B: Allocator + Copy>(&self, prefix: &Prefix<B>) -> bool
        ensures { result ≡ starts_with nat_eq self.now prefix.now }
    {
        self.as_bytes().starts_with(prefix.as_bytes())
    }

    /// Returns the bytes of the name: at most 1,000, without control characters or spaces.
    #[tactic(auto, using(crate::proofs::NameLemmas::name_within, crate::proofs::NameLemmas::name_clean))]
    pub fn as_bytes(&self) -> &[u8]
        ensures bytes { result.now ≡ self.now }
        ensures name { IsRefName self.now }
        ensures within { length self.now ≤ max_name }
        ensures clean { IsClean self.now }
    {
        self.text.as_slice()
    }

    /// Proves that a ref name obeys the rules, has at most 1,000 bytes, and has no control
    /// characters or spaces.
    pub fn laws(&self)
        ensures name { IsRefName self.now }
        ensures within { length self.now ≤ max_name }
        ensures clean { IsClean self.now }
    {
        let _bytes = self.as_bytes();
    }
}

impl<A: Allocator + Copy> Clone for RefName<A> {
    ghost is_clone = { λ name copy. copy ≡ name };

    fn clone(&self) -> Result<RefName<A>, AllocError> {
        self.copy_in(*self.text.allocator())
    }
}

impl<A: Allocator + Copy> PartialEq for RefName<A> {
    ghost eq = { pointwise nat_eq };

    ghost laws = { Cmp.partial_equiv_from_equiv nat_list_eq_equiv };

    fn eq(&self, other: &RefName<A>) -> bool {
        self.as_bytes() == other.as_bytes()
    }
}

impl<A: Allocator + Copy> Eq for RefName<A> {
    ghost laws = { nat_list_eq_equiv };
}

impl<A: Allocator + Copy> PartialOrd for RefName<A> {
    ghost partial_cmp = { λ a b. Some (slice_cmp nat_cmp a b) };

    ghost laws = { texts_po };

    fn partial_cmp(&self, other: &RefName<A>) -> Option<Ordering> {
        Some(self.cmp(other))
    }
}

impl<A: Allocator + Copy> Ord for RefName<A> {
    ghost cmp = { slice_cmp nat_cmp };

    ghost total = { nat_list_cmp_total };

    ghost matches_partial_cmp = { λ a b. refl };

    ghost matches_eq = { λ a b. texts_ties a b };

    fn cmp(&self, other: &RefName<A>) -> Ordering {
        self.as_bytes().cmp(other.as_bytes())
    }
}

impl<A: Allocator + Copy> Hash for RefName<A> {
    ghost hash_input = { λ name. fed.usize (length name) ++ name ∷ [] };

    ghost respects_eq = { Prim.search (hashing, rules) };

    fn hash<H: Hasher>(&self, state: &mut H) {
        state.write_usize(self.as_bytes().len());
        state.write(self.as_bytes());
    }
}

/// Prints the bytes of the name, or a single `?` if they are not UTF-8.
impl<A: Allocator + Copy> fmt::Display for RefName<A> {
    fn fmt<W: fmt::Write>(&self, f: &mut fmt::Formatter<W>) -> fmt::Result {
        f.write_str(str::from_utf8(self.as_bytes()).unwrap_or("?"))
    }
}

impl<A: Allocator + Copy> fmt::Debug for RefName<A> {
    fn fmt<W: fmt::Write>(&self, f: &mut fmt::Formatter<W>) -> fmt::Result {
        fmt::Debug::fmt(&self.as_bytes(), f)
    }
}
