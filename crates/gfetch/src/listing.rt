//! The listing of a server's refs, over a blocking source and a blocking sink.

ghost use Rattle.std.specs.Prelude.{◌≡◌, ◌≢◌, ◌<◌, Bool, Err, List};
ghost use Rattle.gname.specs.declared.formats.Format.{Format};
ghost use Rattle.gpkt.specs.Packets.{Packet};
ghost use Rattle.gpkt.specs.Sending.{input_of, output_of};
ghost use Rattle.ggrammar.specs.Grammar.{IsWhole};
ghost use Rattle.ggrammar.specs.declared.ends.Ends.TheVariants.{Plain};
ghost use Rattle.ghello.specs.Adverts as adverts;
ghost use Rattle.glsreply.specs.LsReplies as ls;
ghost use Rattle.glsreply.specs.steps.ReplyState.{Holds};
ghost use Rattle.grequest.specs.Building.{LimitedLsRefs};
ghost use Rattle.gdialogue.specs.Sides.{MayAnswer, SaysExactly};
ghost use Rattle.gfetch.specs.Listings.{Lists};
ghost use Rattle.gfetch.specs.Saying.{reply_rest};
ghost use Rattle.gfetch.specs.declared.listing.ListStage.TheVariants.{Asks, Reads};
ghost use Rattle.gfetch.specs.steps.Listing.{AnswersAt, EndsListing, FitsFormat, IsListing, messages_at};

use crate::asking::ClientReply;
use crate::fault::FetchFault;
use gdialogue::{Answer, Side, run_dialogue};
use ggrammar::laws::grammars_are_exact;
use ggrammar::{Ends, Message, MessageFault, Step, Why};
use ghello::{Advert, AdvertReader};
use glsreply::{LsReply, LsReplyReader};
use gname::Format;
use gpkt::{Sink, Source};
use grequest::{LsRefsFlag, LsRefsRequest, Request};
use gtalk::{Room, TalkFault};
use std::alloc::Allocator;
use std::mem;

/// Lists the refs of a server (gitprotocol-v2(5), "ls-refs"). Reads the advertisement, requests the
/// refs, reads the reply, and ends the conversation with a lone flush packet. Flushes all output
/// before each read, and reads nothing after the reply.
///
/// The ids have the object format that the advertisement names. The request has `unborn` exactly
/// when the server offers to report an unborn `HEAD`, whether or not `asked` has `unborn`. The
/// limits of `asked` have no effect.
///
/// Fails with `NoBuffer` (28), and reads nothing, if there is not enough memory for the buffers.
/// Fails with `Message` if the advertisement or the reply is malformed. The faults of an
/// advertisement are 20 to 25, 41, 42, 48, 49, 53 and 54. A reply may also have an invalid id (46)
/// or an invalid ref name (47). Fails with `Message` for an unsupported server: `UnknownCommand`
/// (43) or `Format` (52). Fails with `WriteFailed` (27) if the sink fails. The sink has then
/// received a prefix of the output.
pub fn list_over<S: Source, W: Sink, A: Allocator + Copy>(
    source: &mut S,
    sink: &mut W,
    asked: LsRefsRequest<A>,
    alloc: A,
) -> Result<LsReply<A>, FetchFault<A>>
    ensures lists { Lists asked.asked
        (input_of S.remaining S.is_down source.old source.new)
        (output_of W.contents W.passed_on W.is_down sink.old sink.new) result }
    ensures source_loans { S.loans source.new ≡ S.loans source.old }
    ensures sink_loans { W.loans sink.new ≡ W.loans sink.old }
{
    let room = match Room::new(alloc) {
        Ok(room) => room,
        Err(_) => return Err(FetchFault::NoBuffer),
    };
    let (driven, side) = list(ListSide::new(asked, alloc), room, source, sink);
    match driven {
        Ok(_) => side.into_listed(),
        Err(_) => Err(FetchFault::WriteFailed),
    }
}

// Runs the dialogue of a listing that has received no message. Returns the side, and whether a
// packet was sent.
fn list<S: Source, W: Sink, A: Allocator + Copy>(
    side: ListSide<A>,
    room: Room<A>,
    source: &mut S,
    sink: &mut W,
) -> (Result<bool, TalkFault>, ListSide<A>)
    requires { IsListing side }
    ensures ends { (asked : LimitedLsRefs) → side.stage ≡ Asks asked
        → EndsListing asked.asked
        (input_of S.remaining S.is_down source.old source.new)
        (output_of W.contents W.passed_on W.is_down sink.old sink.new) result.1 result.0 }
    ensures source_loans { S.loans source.new ≡ S.loans source.old }
    ensures sink_loans { W.loans sink.new ≡ W.loans sink.old }
{
    // Laws that the proof uses.
    grammars_are_exact();
    ghello::laws::endings();
    glsreply::laws::endings();
    run_dialogue(side, room, source, sink)
}

/// The message that a listing receives: the advertisement, or the reply.
#[derive(Drop)]
pub(crate) enum ListHeard<A: Allocator + Copy> {
    Advert(AdvertReader<A>),
    Refs(LsReplyReader<A>),
}

/// The next message of a listing.
#[derive(Drop)]
pub(crate) enum ListStage<A: Allocator + Copy> {
    /// The advertisement. The client then sends this request.
    Asks(LsRefsRequest<A>),
    /// The reply, whose ids have this object format.
    Reads(Format),
}

/// The client's end of a listing.
#[derive(Drop)]
pub(crate) struct ListSide<A: Allocator + Copy> {
    alloc: A,
    stage: ListStage<A>,
    // The reply, or the fault that ends the listing. Until then, the fault `Ended`.
    listed: Result<LsReply<A>, MessageFault>,
}

impl<A: Allocator + Copy> ListSide<A> {
    ghost use Rattle.gfetch.specs.steps.Listing.{listed_result};

    // Returns a side that has received no message, and that will send this request.
    fn new(asked: LsRefsRequest<A>, alloc: A) -> ListSide<A>
        ensures { result.stage ≡ Asks asked }
    {
        ListSide {
            alloc,
            stage: ListStage::Asks(asked),
            listed: Err(MessageFault::of_value(Why::Ended)),
        }
    }

    // Returns the result of the listing.
    fn into_listed(self) -> Result<LsReply<A>, FetchFault<A>>
        ensures { result ≡ listed_result self.listed }
    {
        let ListSide { listed, .. } = self;
        match listed {
            Ok(reply) => Ok(reply),
            Err(fault) => Err(FetchFault::from(fault)),
        }
    }

    // Stores the fault, and ends the dialogue without a further packet.
    fn fail(&mut self, fault: MessageFault) -> Answer<ClientReply<A>>
        ensures fault { self.new.listed ≡ Err fault }
        ensures silent { result ≡ Answer.Last ClientReply.Silence }
    {
        self.listed = Err(fault);
        Answer::Last(ClientReply::Silence)
    }

    // Answers the advertisement.
    fn answer_advert(&mut self, advert: &Advert<A>) -> Answer<ClientReply<A>>
        ensures answers { (asked : LimitedLsRefs) (lines said : List Packet) (goes : Bool)
            → self.old.stage ≡ Asks asked → adverts.Says lines advert.now
            → MayAnswer (SaysExactly reply_rest) result said goes
            → AnswersAt lines said goes self.new (Asks asked) }
        ensures fewer { (reply : ClientReply A) → result ≡ Answer.GoesOn reply
            → messages_at self.new.stage < messages_at self.old.stage }
    {
        let format = match format_in(advert) {
            Ok(format) => format,
            Err(fault) => return self.fail(fault),
        };
        match mem::replace(&mut self.stage, ListStage::Reads(format)) {
            ListStage::Asks(mut asked) => {
                asked.set(
                    LsRefsFlag::Unborn,
                    advert.has_feature(b"ls-refs", b"unborn"),
                );
                Answer::GoesOn(ClientReply::request(Request::Ls(asked), format))
            }
            ListStage::Reads(_) => Answer::Last(ClientReply::Silence),
        }
    }

    // Answers the reply.
    fn answer_refs(&mut self, reader: LsReplyReader<A>) -> Answer<ClientReply<A>>
        ensures answers { (format : Format) (lines said : List Packet) (goes : Bool)
            → self.old.stage ≡ Reads format → Holds reader lines
            → IsWhole (ls.judge format Plain) lines
            → MayAnswer (SaysExactly reply_rest) result said goes
            → AnswersAt lines said goes self.new (Reads format) }
        ensures ended { (reply : ClientReply A) → result ≢ Answer.GoesOn reply }
    {
        let format = match &self.stage {
            ListStage::Reads(format) => *format,
            ListStage::Asks(_) => return Answer::Last(ClientReply::Silence),
        };
        match reader.into_reply(format) {
            Some(reply) => {
                self.listed = Ok(reply);
                Answer::Last(ClientReply::request(Request::Empty, format))
            }
            None => Answer::Last(ClientReply::Silence),
        }
    }
}

impl<A: Allocator + Copy> Side<ListHeard<A>, ClientReply<A>> for ListSide<A> {
    ghost use Rattle.gfetch.specs.steps.Listing.{AnswersList, HearsAt, OpensList, RefusesList, brings_at, judge_at, messages_at};

    ghost judge = { λ side. judge_at side.stage };

    ghost brings = { λ side. brings_at side.stage };

    ghost hears = { λ side message packets. HearsAt side.stage message packets };

    ghost opens = { OpensList };

    ghost answers = { AnswersList };

    ghost refuses = { RefusesList };

    ghost messages = { λ side. messages_at side.stage };

    fn message(&self) -> ListHeard<A> {
        match &self.stage {
            ListStage::Asks(_) => ListHeard::Advert(AdvertReader::new(self.alloc)),
            ListStage::Reads(format) => {
                ListHeard::Refs(LsReplyReader::new(self.alloc, *format, Ends::Plain))
            }
        }
    }

    fn hear(&self, message: &mut ListHeard<A>, line: gpkt::Packet<'_>) -> Result<Step, Why> {
        match message {
            ListHeard::Advert(reader) => reader.accept_packet(line),
            ListHeard::Refs(reader) => reader.hear_packet(line),
        }
    }

    fn answer(&mut self, message: ListHeard<A>) -> Answer<ClientReply<A>> {
        match message {
            ListHeard::Advert(reader) => {
                let advert = reader.finish();
                self.answer_advert(&advert)
            }
            ListHeard::Refs(reader) => self.answer_refs(reader),
        }
    }

    fn refuse(&mut self, fault: MessageFault) -> ClientReply<A> {
        self.listed = Err(fault);
        ClientReply::Silence
    }

    fn laws() {
        // Laws that the proof uses.
        grammars_are_exact();
    }
}

// Returns the object format of the server. Fails if the client does not support the server.
fn format_in<A: Allocator + Copy>(advert: &Advert<A>) -> Result<Format, MessageFault>
    ensures { FitsFormat advert.now result }
{
    let format = advert.format().unwrap_or(Format::Sha1);
    advert.check_in(format)?;
    Ok(format)
}
