//! The reply to a fetch request, or an error packet.

ghost use Rattle.std.specs.Prelude.{◌≡◌};

use crate::cursor::Cursor;
use crate::error_text::ErrText;
use crate::said::{Rest, Stepped, step};
use gdialogue::Said;
use ggrammar::Ends;
use gparts::PartPacker;
use gtalk::Outgoing;
use std::alloc::Allocator;
use std::mem;

/// The reply to a fetch request, an error packet, or no packet.
///
/// The packer returns the pack in parts, so the whole pack is never in memory.
#[derive(Drop)]
pub struct Speech<A: Allocator + Copy, R, P> {
    pub(crate) rest: Rest<A, R, P>,
    pub(crate) ends: Ends,
    // Whether the connection accepts another request after the reply.
    pub(crate) goes_on: bool,
}

impl<A: Allocator + Copy, R, P> Speech<A, R, P> {
    /// Returns a reply that consists of an error packet and ends the connection.
    pub fn refusal_of(text: ErrText) -> Speech<A, R, P>
        ensures { result.rest ≡ Rest.Refusal text }
    {
        Speech {
            rest: Rest::Refusal(text),
            ends: Ends::Plain,
            goes_on: false,
        }
    }

    /// Returns a reply without packets, which ends the connection.
    pub fn silent() -> Speech<A, R, P>
        ensures { result.rest ≡ Rest.Nothing }
    {
        Speech {
            rest: Rest::Nothing,
            ends: Ends::Plain,
            goes_on: false,
        }
    }
}

impl<A: Allocator + Copy, R: PartPacker<A> + Drop> Cursor for Speech<A, R, R::Parts> {
    ghost use Rattle.gserver.specs.Saying.{SaysRest, steps_of};

    ghost may = { λ speech. SaysRest R.gives speech.ends speech.goes_on speech.rest };

    ghost steps = { λ speech. steps_of R.most speech.rest };

    fn step<B: Allocator + Copy>(&mut self, out: &mut Outgoing<B>) -> Said {
        let rest = mem::replace(&mut self.rest, Rest::Nothing);
        match step::<A, B, R>(rest, self.ends, self.goes_on, out) {
            Stepped::More(rest) => {
                self.rest = rest;
                Said::More
            }
            Stepped::Whole => Said::Whole,
            Stepped::Last => Said::Last,
        }
    }
}
