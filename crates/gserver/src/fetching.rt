//! The reply to a fetch request (gitprotocol-v2(5), "fetch"). The packer returns the pack of the
//! reply in parts.

ghost use Rattle.std.specs.Prelude.{Bool, List, MatchResult};
ghost use Rattle.gparts.specs.Parts.{given_by};
ghost use Rattle.gpkt.specs.Packets.{Packet};
ghost use Rattle.ganswer.specs.Answers.{FetchRefuses};
ghost use Rattle.gserver.specs.Fetching.{SaysFetch};
ghost use Rattle.gserver.specs.Saying.{SaysRest};

use crate::said::Rest;
use crate::speech::Speech;
use ganswer::{BegunFetch, ServeFault, Server};
use ggrammar::Ends;
use gparts::PartPacker;
use grequest::FetchRequest;
use std::alloc::Allocator;

/// Returns the reply of a server to a fetch request. The packer starts the pack before any packet
/// is sent.
///
/// Fails for the same reasons as `ganswer::Server::answer_fetch`. If `goes_on` is true, the
/// connection accepts another request after the reply.
pub fn speak_fetch<A: Allocator + Copy, R: PartPacker<A> + Drop>(
    server: &Server<A>,
    packer: R,
    asked: &FetchRequest<A>,
    ends: Ends,
    goes_on: bool,
) -> Result<Speech<A, R, R::Parts>, ServeFault>
    ensures { MatchResult result
        (λ speech. ((said : List Packet) (goes : Bool)
        → SaysRest R.gives speech.ends speech.goes_on speech.rest said goes
        → SaysFetch server.now (given_by R.packs packer) (R.pack_fails packer) asked.now.asked ends
        goes_on said goes))
        (FetchRefuses server.now (R.pack_fails packer) asked.now.asked) }
{
    match server.begin_fetch(asked)? {
        BegunFetch::Acks(acks) => {
            Ok(Speech {
                rest: Rest::AckHeading(acks, None),
                ends,
                goes_on,
            })
        }
        BegunFetch::Ready(acks, list) => {
            let parts = packer.begin(server.graph().allocator(), list.as_slice())?;
            Ok(Speech {
                rest: Rest::AckHeading(acks, Some((packer, parts))),
                ends,
                goes_on,
            })
        }
        BegunFetch::Pack(list) => {
            let parts = packer.begin(server.graph().allocator(), list.as_slice())?;
            Ok(Speech {
                rest: Rest::PackHeading(packer, parts),
                ends,
                goes_on,
            })
        }
    }
}
