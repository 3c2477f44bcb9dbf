//! A packer that is asked for at most one pack for each answer.

ghost use Rattle.std.specs.Prelude.{◌≡◌, false, MatchResult};
ghost use Rattle.gobject.specs.Packs.{MayPack};
ghost use Rattle.ganswer.specs.OnePack.{has_failed};
ghost use Rattle.ganswer.specs.steps.Answers.{packing_of};
ghost use Rattle.ganswer.specs.declared.one_pack.Packing.TheVariants as packing;

use ggraph::{Entry, PackFault, Packer};
use std::alloc::Allocator;
use std::marker::Model;

/// The last result of a packer.
#[derive(Clone, Copy, Debug, PartialEq, Eq, Drop)]
pub enum Packing {
    /// The packer was not asked for a pack.
    Unasked,
    /// The packer returned a pack.
    Packed,
    /// The packer failed with this fault.
    Failed(PackFault),
}

/// A packer that is asked for at most one pack for each answer, and its last result. After a
/// failure, the packer is not asked for another pack, so that the fault is not lost.
#[derive(Drop)]
pub struct OnePack<'a, K> {
    packer: &'a K,
    answered: Packing,
}

impl<'a, K> Model for OnePack<'a, K> {
    ghost use Rattle.ganswer.specs.OnePack.{OnePack};

    ghost Value = { OnePack K };

    ghost view = { λ once. record { packer = once.packer.now; answered = once.answered } };
}

impl<'a, K> OnePack<'a, K> {
    /// Wraps a packer. The last result is `Unasked` until the packer is asked for a pack.
    pub fn new(packer: &'a K) -> OnePack<'a, K>
        ensures packer { result.packer ≡ packer.now }
        ensures unasked { result.answered ≡ packing.Unasked }
    {
        OnePack {
            packer,
            answered: Packing::Unasked,
        }
    }

    /// Returns the last result of the packer.
    pub fn last_packing(&self) -> Packing
        ensures { result ≡ self.now.answered }
    {
        self.answered
    }

    /// Prepares the packer for another answer. The packer must not have failed.
    pub fn renew(&mut self)
        requires { has_failed self.old.answered ≡ false }
        ensures unasked { self.new.answered ≡ packing.Unasked }
        ensures packer { self.new.packer ≡ self.old.packer }
    {
        self.answered = Packing::Unasked;
    }

    // Asks the packer for a pack of the entries, and records its result.
    pub(crate) fn pack<A: Allocator + Copy>(
        &mut self,
        alloc: A,
        entries: &[Entry<A>],
    ) -> Result<Vec<u8, A>, PackFault>
    where
        K: Packer<A>,
        requires { self.old.answered ≡ packing.Unasked }
        ensures pack { MatchResult result
            (λ pack. MayPack (K.packs self.old.packer) entries.now pack.items)
            (λ fault. K.pack_fails self.old.packer entries.now fault) }
        ensures answered { self.new.answered ≡ packing_of result }
        ensures packer { self.new.packer ≡ self.old.packer }
    {
        match self.packer.pack(alloc, entries) {
            Ok(pack) => {
                self.answered = Packing::Packed;
                Ok(pack)
            }
            Err(fault) => {
                self.answered = Packing::Failed(fault);
                Err(fault)
            }
        }
    }
}
