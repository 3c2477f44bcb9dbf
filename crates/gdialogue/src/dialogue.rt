//! One end of a dialogue, as a conversation of packets.

ghost use Rattle.std.specs.Prelude.{◌≡◌, [], Bool, List, true};
ghost use Rattle.gpkt.specs.Packets.{Packet, packet_of};
ghost use Rattle.gtalk.specs.Talks.{Says, Talk, talk_after, no_talk, stop_talk};
ghost use Rattle.gdialogue.specs.Dialogues.{Holds, HoldsEnding, HoldsHearing, HoldsSaying, HoldsStage, left_of, reason_of, turn_of};
ghost use Rattle.gdialogue.specs.steps.Stages.{IsNearerStage};
ghost use Rattle.gdialogue.specs.declared.dialogue.DialogueStage.TheVariants as stage;

use crate::side::{Answer, Reply, Said, Side};
use ggrammar::laws::grammars_are_exact;
use ggrammar::{MessageFault, Step, Why};
use gpkt::PacketFault;
use gtalk::{Conversation, Outgoing, Stop, Turn};
use std::alloc::Allocator;
use std::mem;

// The current stage of a dialogue.
#[derive(Drop)]
enum DialogueStage<M, R> {
    // The dialogue is receiving this message, and has received this number of its packets.
    Hears(M, u64),
    // The dialogue is sending this reply, and may continue after it.
    Says(R),
    // The dialogue is sending its last reply.
    Ends(R),
    // The dialogue has ended.
    Over,
}

/// One end of a dialogue: a conversation of packets ([`Conversation`]).
///
/// A dialogue receives one message after another, and sends the answer of its [`Side`] to each
/// message. The dialogue ends after the last answer. A message is refused if its grammar rejects a
/// packet, if memory runs out for a packet, or if no more packets arrive and the message is
/// incomplete. The answer to a refused message is the last answer.
#[derive(Drop)]
pub struct Dialogue<S, M, R> {
    side: S,
    stage: DialogueStage<M, R>,
}

impl<S, M, R> Dialogue<S, M, R> {
    /// Returns the side of the dialogue.
    pub fn side(&self) -> &S
        ensures { result.now ≡ self.now.side }
    {
        &self.side
    }

    /// Consumes the dialogue, and returns its side.
    pub fn into_side(self) -> S
    where
        S: Drop,
        M: Drop,
        R: Drop,
        ensures { result ≡ self.side }
    {
        let Dialogue { side, .. } = self;
        side
    }
}

impl<S: Side<M, R>, M: Drop, R: Reply + Drop> Dialogue<S, M, R> {
    /// Returns a dialogue in which the other end sends the first message.
    pub fn new(side: S) -> Dialogue<S, M, R>
        ensures holds { S.opens side [] true
            → Holds S.judge S.brings S.opens S.answers S.refuses S.hears R.may result no_talk }
        ensures side { result.side ≡ side }
        ensures listens { turn_of result.stage ≡ Turn.Listens }
    {
        // Laws that the proof uses.
        grammars_are_exact();
        let message = side.message();
        Dialogue {
            side,
            stage: DialogueStage::Hears(message, 0),
        }
    }

    /// Returns a dialogue in which this end first sends `reply`.
    pub fn speak_first(side: S, reply: R) -> Dialogue<S, M, R>
        ensures holds { ((said : List Packet) (goes : Bool) → R.may reply said goes → S.opens side said goes)
            → Holds S.judge S.brings S.opens S.answers S.refuses S.hears R.may result no_talk }
        ensures side { result.side ≡ side }
    {
        Dialogue {
            side,
            stage: DialogueStage::Says(reply),
        }
    }

    // Receives the next packet of a message.
    fn hear_packet(
        &mut self,
        mut message: M,
        frame: u64,
        line: gpkt::Packet<'_>,
    ) -> DialogueStage<M, R>
        ensures heard { (talk : Talk)
            → HoldsHearing S.judge S.brings S.opens S.answers S.refuses S.hears R.may
            self.old.side message frame talk
            → HoldsStage S.judge S.brings S.opens S.answers S.refuses S.hears R.may
            self.new.side result (talk_after talk (packet_of line.entry)) }
        ensures nearer { (talk : Talk)
            → HoldsHearing S.judge S.brings S.opens S.answers S.refuses S.hears R.may
            self.old.side message frame talk
            → IsNearerStage R.calls (S.messages self.old.side) (stage.Hears message frame)
            (S.messages self.new.side) result }
    {
        // Laws that the proof uses.
        S::laws();
        grammars_are_exact();
        match self.side.hear(&mut message, line) {
            Ok(Step::Open) => DialogueStage::Hears(message, frame.saturating_add(1)),
            Ok(Step::Whole) => match self.side.answer(message) {
                Answer::GoesOn(reply) => DialogueStage::Says(reply),
                Answer::Last(reply) => DialogueStage::Ends(reply),
            },
            Err(why) => DialogueStage::Ends(self.side.refuse(MessageFault { frame, why })),
        }
    }

    // Refuses an incomplete message because no more packets arrive.
    fn refuse(&mut self, message: M, frame: u64, why: Stop) -> DialogueStage<M, R>
        ensures stopped { (talk : Talk)
            → HoldsHearing S.judge S.brings S.opens S.answers S.refuses S.hears R.may
            self.old.side message frame talk
            → HoldsStage S.judge S.brings S.opens S.answers S.refuses S.hears R.may
            self.new.side result (stop_talk talk why) }
        ensures nearer { IsNearerStage R.calls (S.messages self.old.side) (stage.Hears message frame)
            (S.messages self.new.side) result }
    {
        drop(message);
        let why = reason_of(why);
        DialogueStage::Ends(self.side.refuse(MessageFault { frame, why }))
    }

    // Queues the next packets of a reply.
    fn say_some<A: Allocator + Copy>(
        &self,
        mut reply: R,
        out: &mut Outgoing<A>,
    ) -> DialogueStage<M, R>
        requires { out.old ≡ [] }
        ensures said { (talk : Talk)
            → HoldsSaying S.judge S.brings S.opens S.answers S.refuses S.hears R.may
            self.now.side reply talk
            → Says (HoldsStage S.judge S.brings S.opens S.answers S.refuses S.hears R.may
            self.now.side result) talk out.new }
        ensures nearer { IsNearerStage R.calls (S.messages self.now.side) (stage.Says reply)
            (S.messages self.now.side) result }
    {
        // Laws that the proof uses.
        grammars_are_exact();
        match reply.say(out) {
            Said::More => DialogueStage::Says(reply),
            Said::Whole => DialogueStage::Hears(self.side.message(), 0),
            Said::Last => DialogueStage::Over,
        }
    }

    // Queues the next packets of the last reply.
    fn say_last<A: Allocator + Copy>(
        &self,
        mut reply: R,
        out: &mut Outgoing<A>,
    ) -> DialogueStage<M, R>
        requires { out.old ≡ [] }
        ensures said { (talk : Talk)
            → HoldsEnding S.judge S.brings S.opens S.answers S.refuses S.hears R.may
            self.now.side reply talk
            → Says (HoldsStage S.judge S.brings S.opens S.answers S.refuses S.hears R.may
            self.now.side result) talk out.new }
        ensures nearer { IsNearerStage R.calls (S.messages self.now.side) (stage.Ends reply)
            (S.messages self.now.side) result }
    {
        match reply.say(out) {
            Said::More => DialogueStage::Ends(reply),
            Said::Whole | Said::Last => DialogueStage::Over,
        }
    }
}

impl<S: Side<M, R>, M: Drop, R: Reply + Drop> Conversation for Dialogue<S, M, R> {
    ghost turn = { λ d. turn_of d.stage };

    ghost holds = { Holds S.judge S.brings S.opens S.answers S.refuses S.hears R.may };

    ghost left = { λ d. left_of R.calls (S.messages d.side) d.stage };

    fn turn(&self) -> Turn {
        match &self.stage {
            DialogueStage::Hears(..) => Turn::Listens,
            DialogueStage::Says(_) | DialogueStage::Ends(_) => Turn::Speaks,
            DialogueStage::Over => Turn::Done,
        }
    }

    fn hear(&mut self, line: gpkt::Packet<'_>) {
        self.stage = match mem::replace(&mut self.stage, DialogueStage::Over) {
            DialogueStage::Hears(message, frame) => self.hear_packet(message, frame, line),
            stage => stage,
        };
    }

    fn stop(&mut self, why: Stop) {
        self.stage = match mem::replace(&mut self.stage, DialogueStage::Over) {
            DialogueStage::Hears(message, frame) => self.refuse(message, frame, why),
            stage => stage,
        };
    }

    fn say<A: Allocator + Copy>(&mut self, out: &mut Outgoing<A>) {
        self.stage = match mem::replace(&mut self.stage, DialogueStage::Over) {
            DialogueStage::Says(reply) => self.say_some(reply, out),
            DialogueStage::Ends(reply) => self.say_last(reply, out),
            stage => stage,
        };
    }
}

// Returns the reason to refuse an incomplete message when no more packets arrive.
fn reason_of(why: Stop) -> Why
    ensures { result ≡ reason_of why }
{
    match why {
        Stop::Ended => Why::Ended,
        Stop::Refused(fault) => Why::Line(fault),
        Stop::Failed => Why::Line(PacketFault::Io),
    }
}
