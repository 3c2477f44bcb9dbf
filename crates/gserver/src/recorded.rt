//! A packer that records its last result, of any type.

ghost use Rattle.std.specs.Prelude.{◌≡◌, MatchResult};
ghost use Rattle.gobject.specs.Packs.{PackFails, Packs};
ghost use Rattle.gfetchreply.specs.Views.{reply_in};
ghost use Rattle.ganswer.specs.Answers.{FetchRefuses};
ghost use Rattle.ganswer.specs.FetchAnswers.{FetchAnswer};
ghost use Rattle.ganswer.specs.OnePack.{OnePack as Once, packing_of_fault};
ghost use Rattle.ganswer.specs.declared.one_pack.Packing.TheVariants.{Unasked};

use ganswer::{OnePack, Packing, ServeFault, Server};
use gfetchreply::FetchReply;
use gobject::Packer;
use grequest::FetchRequest;
use std::alloc::Allocator;

/// A packer that is asked for at most one pack for each answer, and records its last result.
///
/// Only [`OnePack`] is such a packer. A proof knows the state of a lent value after the loan only
/// if the value's type names no lifetime. Code that lends a [`OnePack`] is therefore generic in
/// this trait.
pub(crate) trait Recorded<A: Allocator + Copy> {
    // The packer before it is asked for a pack, and its last result.
    ghost once: { Self → Once Self };

    // The packs that the packer may return.
    ghost packs: { Self → Packs A };

    // The faults with which the packer may fail.
    ghost fails: { Self → PackFails A };

    /// Returns the answer to a fetch request. After a pack, prepares the packer for the next
    /// answer.
    fn answer(
        &mut self,
        server: &Server<A>,
        asked: &FetchRequest<A>,
    ) -> Result<FetchReply<A>, ServeFault>
        ensures answers { (once self.old).answered ≡ Unasked → MatchResult result
            (λ reply. FetchAnswer server.now (packs (once self.old).packer) asked.now.asked
            (reply_in reply))
            (FetchRefuses server.now (fails (once self.old).packer) asked.now.asked) }
        ensures packing { (once self.old).answered ≡ Unasked → MatchResult result
            (λ _. (once self.new).answered ≡ Unasked)
            (λ fault. (once self.new).answered ≡ packing_of_fault fault) }
        ensures packer { (once self.new).packer ≡ (once self.old).packer };
}

impl<A: Allocator + Copy, K: Packer<A>> Recorded<A> for OnePack<'_, K> {
    ghost use Rattle.gobject.specs.Packs.{MayPack};
    ghost use Rattle.gserver.specs.steps.Recording.{once_of};

    ghost once = { once_of };

    ghost packs = { λ pack. MayPack (K.packs pack.packer) };

    ghost fails = { λ pack. K.pack_fails pack.packer };

    #[tactic(auto, using(crate::proofs::LentLemmas::never_failed))]
    fn answer(
        &mut self,
        server: &Server<A>,
        asked: &FetchRequest<A>,
    ) -> Result<FetchReply<A>, ServeFault> {
        match self.last_packing() {
            Packing::Unasked => {}
            Packing::Packed | Packing::Failed(_) => return Err(ServeFault::Memory),
        }
        let reply = server.answer_fetch(asked, self)?;
        self.renew();
        Ok(reply)
    }
}
