//! Laws about conversations. Each function does nothing at run time, and its contract states the
//! law.

ghost use Rattle.std.specs.Prelude.{◌≡◌};
ghost use Rattle.gobject.specs.Packs.{MayPack};
ghost use Rattle.gserve.specs.Laws.{ServingIsTalking, TalksAreOne};
ghost use Rattle.gserver.specs.Refusals.{max_err_text};
ghost use Rattle.gserver.specs.Serving.{max_requests};

use crate::{MAX_ERR_TEXT, MAX_REQUESTS};
use ganswer::laws::answers_are_one;
use ggrammar::laws::messages_are_read;
use ggraph::{Faithful, Packer};
use gpkt::laws::spellings_join;
use grequest::laws::{one_meaning, reads_exactly};
use std::alloc::Allocator;

/// Proves that the public constants of this crate equal the limits in its specifications.
pub fn limits_are_the_constants()
    ensures requests { MAX_REQUESTS ≡ max_requests }
    ensures text { MAX_ERR_TEXT ≡ max_err_text }
{}

/// Proves that each connection satisfies `Talks` (`specs/Talks.antt`), a relation between the
/// client's bytes, the output and the end of the connection. The law requires that the client's
/// bytes are known, and that neither the source nor the sink fails. All output of the connection is
/// then flushed.
pub fn serving_is_talking<A: Allocator + Copy, K: Packer<A>>()
    ensures { (packer : K) → ServingIsTalking A (MayPack (K.packs packer)) (K.pack_fails packer) }
{}

/// Proves that a client's bytes determine the output and the end of the conversation. The law
/// requires a faithful packer, and that memory does not run out and the packer does not fail. A
/// packer that is not faithful may return different packs for the same objects, so the bytes of the
/// pack may differ.
pub fn talks_are_one<A: Allocator + Copy, K: Faithful<A>>(packer: &K)
    ensures { TalksAreOne A (MayPack (K.packs packer.now)) (K.pack_fails packer.now) }
{
    answers_are_one(packer);
    messages_are_read();
    one_meaning();
    reads_exactly();
    spellings_join();
}
