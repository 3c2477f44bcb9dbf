//! The messages that a server reads: the first line of a connection, or a request.

use ggrammar::{Message, Step, Why};
use ghello::HelloReader;
use gpkt::Packet;
use grequest::RequestReader;
use std::alloc::Allocator;

/// A message to a server. Some of its packets may not have arrived yet.
#[derive(Drop)]
pub enum Heard<A: Allocator + Copy> {
    /// The first line of a connection (gitprotocol-pack(5), "Git Transport").
    Hello(HelloReader<A>),
    /// A request (gitprotocol-v2(5), "Command Request").
    Request(RequestReader<A>),
}

impl<A: Allocator + Copy> Message for Heard<A> {
    ghost use Rattle.std.specs.Prelude.{⊤};
    ghost use Rattle.gserver.specs.Heard.{brings_of, holds_of, judge_of};

    ghost judge = { judge_of };

    ghost brings = { brings_of };

    ghost holds = { holds_of };

    ghost left = { λ _ _. ⊤ };

    fn accept_packet(&mut self, line: Packet<'_>) -> Result<Step, Why> {
        match self {
            Heard::Hello(hello) => hello.accept_packet(line),
            Heard::Request(request) => request.accept_packet(line),
        }
    }

    fn laws() {
        HelloReader::<A>::laws();
        RequestReader::<A>::laws();
    }
}
