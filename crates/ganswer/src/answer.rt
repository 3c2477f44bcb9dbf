//! The answers of a server to requests (gitprotocol-v2(5), "Command Request").

ghost use Rattle.std.specs.Prelude.{◌≡◌, IfOk, MatchResult};
ghost use Rattle.gobject.specs.Packs.{MayPack};
ghost use Rattle.grequest.specs.RequestValues.{asked_by_request, limits_of};
ghost use Rattle.ganswer.specs.Answers.{Answers, HasFormat, Refuses, reply_of};
ghost use Rattle.ganswer.specs.OnePack.{packing_of_fault, packing_of_reply};
ghost use Rattle.ganswer.specs.declared.one_pack.Packing.TheVariants.{Unasked};

use crate::fault::ServeFault;
use crate::one_pack::OnePack;
use crate::server::Server;
use gfetchreply::FetchReply;
use ggraph::Packer;
use glsreply::LsReply;
use grequest::Request;
use std::alloc::Allocator;

/// The answer of a server to a request.
#[derive(Drop)]
pub enum Reply<A: Allocator + Copy> {
    /// The answer to the empty request: the server sends nothing. The empty request is a lone flush
    /// packet.
    Nothing,
    /// The answer to an ls-refs request: a list of refs.
    Ls(LsReply<A>),
    /// The answer to a fetch request: common ids, a pack, or both.
    Fetch(FetchReply<A>),
}

impl<A: Allocator + Copy> Server<A> {
    /// Returns the answer to a request (gitprotocol-v2(5), "ls-refs" and "fetch").
    ///
    /// The answer to ls-refs lists HEAD first, then the refs in the byte order of their names. The
    /// answer lists the names that begin with a requested prefix, or all names if there is no
    /// prefix. With `symrefs`, a HEAD that points at a ref is listed with its target. With `peel`,
    /// a tag is listed with the commit that it peels to. With `unborn`, the answer contains the
    /// name that an unborn HEAD points at, if HEAD is requested.
    ///
    /// For a fetch request, the common ids are the distinct haves that the server holds, in the
    /// order of their first occurrence. With `done`, or without haves, the answer is a pack of the
    /// objects that a want reaches and no common id reaches. Otherwise, if each want reaches a
    /// common id, the answer is the common ids and this pack. If a want reaches no common id, the
    /// answer is the common ids alone. With `include-tag`, the pack also contains the tags that
    /// lead from a ref to a commit in the pack.
    ///
    /// Fails with `NoWants` if a fetch request has no wants, or with `NotOurs` for the first want
    /// that the server does not hold. Otherwise fails with `Pack` and the packer's fault if the
    /// packer fails.
    ///
    /// The packer is asked for a pack at most once, and only if the answer contains a pack or the
    /// packer fails. A fault of the packer is always reported. `Memory` is reported only if the
    /// packer was not asked for a pack.
    pub fn answer<K: Packer<A>>(
        &self,
        request: &Request<A>,
        packer: &mut OnePack<'_, K>,
    ) -> Result<Reply<A>, ServeFault>
        requires unasked { packer.old.answered ≡ Unasked }
        ensures answer { MatchResult result
            (λ reply. Answers self.now (MayPack (K.packs packer.old.packer))
            (asked_by_request request.now) (reply_of reply))
            (Refuses self.now (K.pack_fails packer.old.packer) (asked_by_request request.now)) }
        ensures format { IfOk result (HasFormat (limits_of request.now) self.now.graph.format) }
        ensures packing { MatchResult result
            (λ reply. packer.new.answered ≡ packing_of_reply (reply_of reply))
            (λ fault. packer.new.answered ≡ packing_of_fault fault) }
        ensures packer { packer.new.packer ≡ packer.old.packer }
    {
        match request {
            Request::Empty => Ok(Reply::Nothing),
            Request::Ls(ls) => Ok(Reply::Ls(self.answer_ls(ls)?)),
            Request::Fetch(fetch) => {
                let reply = self.answer_fetch(fetch, packer)?;
                Ok(Reply::Fetch(reply))
            }
        }
    }
}
