//! The server's end of a dialogue, with a borrowed server and a borrowed packer.

ghost use Rattle.std.specs.Prelude.{◌≡◌, ◌<◌, ◌+◌, ◌-◌, ◌↔◌, [], Bool, IsTrue, List, MatchResult, None, nat_lt, ℕ};
ghost use Rattle.gpkt.specs.Packets.{Packet};
ghost use Rattle.ggrammar.specs.declared.fault.Why.TheVariants as why;
ghost use Rattle.glsreply.specs.LsReplies.{LsReply, canonical_reply as ls_packets};
ghost use Rattle.gfetchreply.specs.FetchReplies.{canonical_reply as fetch_packets};
ghost use Rattle.gfetchreply.specs.Views.{reply_in};
ghost use Rattle.ganswer.specs.Answers.{FetchRefuses};
ghost use Rattle.ganswer.specs.FetchAnswers.{FetchAnswer};
ghost use Rattle.ganswer.specs.LsAnswers.{LsAnswer};
ghost use Rattle.ganswer.specs.OnePack.{packing_of_fault};
ghost use Rattle.ganswer.specs.declared.one_pack.Packing.TheVariants.{Unasked};
ghost use Rattle.gdialogue.specs.Sides.{MayAnswer};
ghost use Rattle.gserver.specs.Listings.{SaysLsAnswer};
ghost use Rattle.gserver.specs.Refusals.{err_packets};
ghost use Rattle.gserver.specs.Replying.{may_of};
ghost use Rattle.gserver.specs.Saying.{SaysRest};
ghost use Rattle.gserver.specs.steps.Lending.{AsksPacker, ClosesAs, CountsReply, gives_lent, server_of};

use crate::lent::Lent;
use crate::listing::Listing;
use crate::recorded::Recorded;
use crate::refusal::words_of;
use crate::reply::ServerReply;
use crate::said::Rest;
use crate::side::answer_of;
use crate::speech::Speech;
use ganswer::{ServeFault, Server};
use gdialogue::{Answer, Side};
use gfetchreply::FetchReply;
use ggrammar::laws::grammars_are_exact;
use ggrammar::{Ends, Message, MessageFault, Step, Why};
use grequest::{FetchRequest, LsRefsRequest, Request, RequestReader};
use std::alloc::Allocator;
use std::mem;

/// How a dialogue ends, unless it ends after the last permitted request.
#[derive(Debug, Drop)]
pub(crate) enum Closing {
    /// The client sent a lone flush packet.
    Closed,
    /// The input ended before a request.
    Ended,
    /// A request was refused. The answer is the error packet for this fault.
    Refused(ServeFault),
}

/// The server's end of a connection, which receives one request after another. The packer is asked
/// for at most one pack for each request.
#[derive(Drop)]
pub(crate) struct LentSide<'s, 'p, A: Allocator + Copy, K> {
    server: &'s Server<A>,
    packer: &'p mut K,
    ends: Ends,
    // The maximum number of requests.
    most: u32,
    // The number of replies before the answer to the latest message.
    earlier: u32,
    // The number of replies.
    requests: u32,
    // How the dialogue ends, or `None` while each message was answered with a reply.
    closing: Option<Closing>,
}

impl<'s, 'p, A: Allocator + Copy, K> LentSide<'s, 'p, A, K> {
    /// Returns a side that has received no message, and accepts at most `most` requests.
    pub(crate) fn new(
        server: &'s Server<A>,
        packer: &'p mut K,
        ends: Ends,
        most: u32,
    ) -> LentSide<'s, 'p, A, K>
        ensures server { result.server.now ≡ server.now }
        ensures packer { result.packer.now ≡ packer.old }
        ensures in_place { result.packer.ghost_name ≡ packer.entry.ghost_name }
        ensures ends { result.ends ≡ ends }
        ensures most { result.most ≡ most }
        ensures requests { result.requests ≡ 0 }
        ensures closing { result.closing ≡ None }
    {
        LentSide {
            server,
            packer,
            ends,
            most,
            earlier: 0,
            requests: 0,
            closing: None,
        }
    }

    /// Returns the number of replies before the answer to the latest message.
    pub(crate) fn earlier(&self) -> u32
        ensures { result ≡ self.now.earlier }
    {
        self.earlier
    }

    /// Returns the number of replies.
    pub(crate) fn requests(&self) -> u32
        ensures { result ≡ self.now.requests }
    {
        self.requests
    }

    /// Removes how the dialogue ends, and returns it.
    pub(crate) fn take_closing(&mut self) -> Option<Closing>
        ensures closing { result ≡ self.old.closing }
        ensures packer { self.new.packer.now ≡ self.old.packer.now }
        ensures in_place { self.new.packer.ghost_name ≡ self.old.packer.ghost_name }
    {
        mem::replace(&mut self.closing, None)
    }

    /// Consumes the side, and returns only the packer.
    pub(crate) fn into_packer(self) -> &'p mut K
        ensures value { result.now ≡ self.entry.packer.now }
        ensures in_place { result.ghost_name ≡ self.entry.packer.ghost_name }
    {
        let LentSide { packer, .. } = self;
        packer
    }
}

impl<'s, 'p, A: Allocator + Copy, K: Recorded<A>> LentSide<'s, 'p, A, K> {
    // Counts a reply, and returns whether the connection accepts another request.
    fn count(&mut self) -> bool
        ensures goes { result ≡ nat_lt self.new.requests self.new.most }
        ensures fewer { self.new.requests < self.new.most
            → self.new.requests ≡ self.old.requests + 1 }
        ensures counts { CountsReply K.once self.old self.new }
    {
        self.earlier = self.requests;
        self.requests = self.requests.saturating_add(1);
        self.requests < self.most
    }

    // Replies to an ls-refs request.
    fn list(&mut self, asked: LsRefsRequest<A>) -> Answer<ServerReply<A, Lent<'s, A>, usize>>
        ensures replies { (said : List Packet) (goes : Bool)
            → MayAnswer (may_of server_of gives_lent) result said goes
            → ((reply : LsReply) × LsAnswer self.old.server.now asked.asked reply
            × (said ≡ ls_packets self.old.ends reply))
            × (goes ≡ nat_lt self.new.requests self.new.most) }
        ensures fewer { (reply : ServerReply A (Lent A) ℕ) → result ≡ Answer.GoesOn reply
            → self.new.most - self.new.requests < self.old.most - self.old.requests }
        ensures counts { CountsReply K.once self.old self.new }
    {
        let (server, ends) = (self.server, self.ends);
        let goes_on = self.count();
        let reply = list_reply(server, asked, ends, goes_on);
        answer_of::<A, Lent<'s, A>>(Ok(reply), goes_on)
    }

    // Sends the reply to a fetch request.
    fn send(&mut self, reply: FetchReply<A>) -> Answer<ServerReply<A, Lent<'s, A>, usize>>
        ensures replies { (said : List Packet) (goes : Bool)
            → MayAnswer (may_of server_of gives_lent) result said goes
            → (said ≡ fetch_packets self.old.ends (reply_in reply))
            × (goes ≡ nat_lt self.new.requests self.new.most) }
        ensures fewer { (reply : ServerReply A (Lent A) ℕ) → result ≡ Answer.GoesOn reply
            → self.new.most - self.new.requests < self.old.most - self.old.requests }
        ensures counts { CountsReply K.once self.old self.new }
    {
        let (server, ends) = (self.server, self.ends);
        let goes_on = self.count();
        let speech = speak_reply(server, reply, ends, goes_on);
        answer_of::<A, Lent<'s, A>>(Ok(ServerReply::Speech(speech)), goes_on)
    }

    // Ends the dialogue with an error packet for this fault.
    fn decline(&mut self, fault: ServeFault) -> ServerReply<A, Lent<'s, A>, usize>
        ensures said { (said : List Packet) (goes : Bool)
            → may_of server_of gives_lent result said goes → said ≡ err_packets fault }
        ensures closes { ClosesAs K.once (Closing.Refused fault) self.old self.new }
    {
        let words = words_of(&fault);
        self.earlier = self.requests;
        self.closing = Some(Closing::Refused(fault));
        ServerReply::Speech(Speech::refusal_of(words))
    }

    // Ends the dialogue without a packet.
    fn close(&mut self, closing: Closing) -> ServerReply<A, Lent<'s, A>, usize>
        ensures said { (said : List Packet) (goes : Bool)
            → may_of server_of gives_lent result said goes → said ≡ [] }
        ensures closes { ClosesAs K.once closing self.old self.new }
    {
        self.earlier = self.requests;
        self.closing = Some(closing);
        ServerReply::Speech(Speech::silent())
    }

    // Returns the answer to a fetch request.
    fn fetch(&mut self, asked: &FetchRequest<A>) -> Result<FetchReply<A>, ServeFault>
        ensures answers { (K.once self.old.packer.now).answered ≡ Unasked → MatchResult result
            (λ reply. FetchAnswer self.old.server.now (K.packs (K.once self.old.packer.now).packer)
            asked.now.asked (reply_in reply))
            (FetchRefuses self.old.server.now (K.fails (K.once self.old.packer.now).packer)
            asked.now.asked) }
        ensures packing { (K.once self.old.packer.now).answered ≡ Unasked → MatchResult result
            (λ _. (K.once self.new.packer.now).answered ≡ Unasked)
            (λ fault. (K.once self.new.packer.now).answered ≡ packing_of_fault fault) }
        ensures asks { AsksPacker K.once self.old self.new }
    {
        self.packer.answer(self.server, asked)
    }
}

// Returns the reply to an ls-refs request, sent line by line.
fn list_reply<'s, A: Allocator + Copy>(
    server: &'s Server<A>,
    asked: LsRefsRequest<A>,
    ends: Ends,
    goes_on: bool,
) -> ServerReply<A, Lent<'s, A>, usize>
    ensures { (said : List Packet) (goes : Bool) → may_of server_of gives_lent result said goes
        → SaysLsAnswer server.now asked.asked ends goes_on said goes }
{
    ServerReply::Listing(Listing::new(Lent::new(server), asked, ends, goes_on))
}

// Returns a fetch reply that is sent packet by packet.
fn speak_reply<'s, A: Allocator + Copy>(
    server: &'s Server<A>,
    reply: FetchReply<A>,
    ends: Ends,
    goes_on: bool,
) -> Speech<A, Lent<'s, A>, usize>
    ensures { (said : List Packet) (goes : Bool)
        → SaysRest gives_lent result.ends result.goes_on result.rest said goes
        → (said ≡ fetch_packets ends (reply_in reply)) × (goes ≡ goes_on) }
{
    match reply {
        FetchReply::Acks(acks) => {
            Speech {
                rest: Rest::AckHeading(acks, None),
                ends,
                goes_on,
            }
        }
        FetchReply::Ready(acks, pack) => {
            let lent = Lent::with_pack(server, pack);
            Speech {
                rest: Rest::AckHeading(acks, Some((lent, 0))),
                ends,
                goes_on,
            }
        }
        FetchReply::Pack(pack) => {
            let lent = Lent::with_pack(server, pack);
            Speech {
                rest: Rest::PackHeading(lent, 0),
                ends,
                goes_on,
            }
        }
    }
}

// Returns whether the input ended before the first packet of a message.
fn is_first_end(fault: &MessageFault) -> bool
    ensures { IsTrue result ↔ ((fault.now.frame ≡ 0) × (fault.now.why ≡ why.Ended)) }
{
    match &fault.why {
        Why::Ended => fault.frame == 0,
        _ => false,
    }
}

impl<'s, 'p, A: Allocator + Copy, K: Recorded<A>> Side<
    RequestReader<A>,
    ServerReply<A, Lent<'s, A>, usize>,
> for LentSide<'s, 'p, A, K> {
    ghost use Rattle.std.specs.Prelude.{◌-◌};
    ghost use Rattle.grequest.specs.Requests.{brings};
    ghost use Rattle.gserver.specs.steps.Lending.{AnswersLent, HearsRequest, OpensLent, RefusesLent, judge_lent};

    ghost judge = { judge_lent };

    ghost brings = { λ _. brings };

    ghost hears = { HearsRequest };

    ghost opens = { OpensLent K.once };

    ghost answers = { AnswersLent K.once K.packs K.fails };

    ghost refuses = { RefusesLent K.once };

    ghost messages = { λ side. side.most - side.requests };

    fn message(&self) -> RequestReader<A> {
        let graph = self.server.graph();
        RequestReader::new(graph.allocator(), graph.format())
    }

    fn hear(&self, message: &mut RequestReader<A>, line: gpkt::Packet<'_>) -> Result<Step, Why> {
        message.accept_packet(line)
    }

    fn answer(&mut self, message: RequestReader<A>) -> Answer<ServerReply<A, Lent<'s, A>, usize>> {
        match message.finish() {
            Request::Empty => Answer::Last(self.close(Closing::Closed)),
            Request::Ls(asked) => self.list(asked),
            Request::Fetch(asked) => match self.fetch(&asked) {
                Ok(reply) => self.send(reply),
                Err(fault) => Answer::Last(self.decline(fault)),
            },
        }
    }

    fn refuse(&mut self, fault: MessageFault) -> ServerReply<A, Lent<'s, A>, usize> {
        if is_first_end(&fault) {
            self.close(Closing::Ended)
        } else {
            self.decline(ServeFault::Request(fault))
        }
    }

    fn laws() {
        // Laws that the proof uses.
        grammars_are_exact();
    }
}
