//! The server's side of a connection, with the details for its log line.

ghost use Rattle.std.specs.Prelude.{◌≡◌, ◌<◌, ◌^◌, ◌⊎◌, [], List, length};
ghost use Rattle.gpkt.specs.Packets.{Packet};
ghost use Rattle.ggrammar.specs.Grammar.{IsOpen};
ghost use Rattle.gitprogram.specs.declared.visitor.Visitor.{Visitor};

use crate::fault::Fault;
use crate::notes::Notes;
use gdialogue::{Answer, Side};
use ggrammar::{MessageFault, Step, Why};
use gparts::PartPacker;
use gserver::{ServedRepository, ServerReply, Speech};
use std::alloc::Global;

/// The server's side of a connection, with the details for its log line.
#[derive(Drop)]
pub(crate) struct Visitor<'n, S> {
    side: S,
    notes: &'n Notes,
    // Whether the first line was received.
    has_path: bool,
    path: Vec<u8>,
    fault: Option<Fault>,
}

impl<'n, S> Visitor<'n, S> {
    /// Returns a `Visitor` that has received no message.
    pub(crate) fn new(side: S, notes: &'n Notes) -> Visitor<'n, S>
        ensures { result.side ≡ side }
    {
        Visitor {
            side,
            notes,
            has_path: false,
            path: notes.take_path(),
            fault: None,
        }
    }

    /// Returns the side, the requested path, and the fault to log. The path is empty if the client
    /// sent no path, and the fault is `None` if no call failed.
    pub(crate) fn into_parts(self) -> (S, Vec<u8>, Option<Fault>)
    where
        S: Drop,
    {
        let Visitor {
            side,
            path,
            fault,
            ..
        } = self;
        (side, path, fault)
    }

    // Moves the details of the last call from `notes` into this visitor.
    fn take_notes(&mut self)
        ensures { self.new.side ≡ self.old.side }
    {
        if !self.has_path {
            self.has_path = true;
            self.path = self.notes.take_path();
        }
        if let Some(fault) = self.notes.take_fault() {
            self.fault = Some(fault);
        }
    }
}

impl<S, M, K> Side<M, ServerReply<Global, K, K::Parts>> for Visitor<'_, S>
where
    S: Side<M, ServerReply<Global, K, K::Parts>>,
    K: ServedRepository<Global> + PartPacker<Global> + Drop,
{
    ghost judge = { λ visitor. S.judge visitor.side };

    ghost brings = { λ visitor. S.brings visitor.side };

    ghost hears = { λ visitor. S.hears visitor.side };

    ghost opens = { λ visitor. S.opens visitor.side };

    ghost answers = { λ old heard said goes new. S.answers old.side heard said goes new.side };

    ghost refuses = { λ old fault said new.
        ((said ≡ []) × (fault.frame ≡ 0) × (new.side ≡ old.side)) ⊎ S.refuses old.side fault said new.side };

    ghost messages = { λ visitor. S.messages visitor.side };

    fn message(&self) -> M {
        self.side.message()
    }

    fn hear(&self, message: &mut M, line: gpkt::Packet<'_>) -> Result<Step, Why> {
        self.side.hear(message, line)
    }

    fn answer(&mut self, message: M) -> Answer<ServerReply<Global, K, K::Parts>> {
        let answer = self.side.answer(message);
        self.take_notes();
        answer
    }

    // Sends no error packet if the client sent its first line, and then ended the connection before
    // the first packet of a new request.
    fn refuse(&mut self, fault: MessageFault) -> ServerReply<Global, K, K::Parts> {
        if self.has_path && fault.frame == 0 && matches!(fault.why, Why::Ended) {
            return ServerReply::Speech(Speech::silent());
        }
        self.notes.note_first(!self.has_path);
        let reply = self.side.refuse(fault);
        self.take_notes();
        reply
    }

    fn laws()
        ensures { (visitor : Visitor S) (front : List Packet) → IsOpen (S.judge visitor.side) front
            → length front < 2 ^ 60 }
    {
        S::laws();
    }
}
