//! The advertisement of a server, sent packet by packet (gitprotocol-v2(5), "Capability
//! Advertisement").

ghost use Rattle.std.specs.Prelude.{◌≡◌, ◌≤◌, IfSome, length};
ghost use Rattle.ggrammar.specs.Capabilities.{capability_text, max_capability};
ghost use Rattle.ggrammar.specs.CapabilityView.{capability_view};
ghost use Rattle.gserver.specs.Greetings.{SaysGreeting, steps_of_greeting};

use crate::cursor::Cursor;
use arrayvec::ArrayVec;
use gdialogue::Said;
use ggrammar::compose::add;
use ggrammar::{Capability, MAX_CAPABILITY};
use ghello::Advert;
use gtalk::Outgoing;
use std::alloc::Allocator;

// The maximum number of bytes of a capability's text.
const MAX_TEXT: usize = 2 * MAX_CAPABILITY + 1;

/// The next packet of an advertisement.
#[derive(Clone, Copy)]
pub(crate) enum NextPart {
    /// The packet with the version of the protocol.
    Version,
    /// The packet of the capability at this position, or the flush packet after the last
    /// capability.
    Capability(usize),
}

/// An advertisement that is sent packet by packet.
#[derive(Drop)]
pub struct Greeting<A: Allocator + Copy> {
    pub(crate) advert: Advert<A>,
    pub(crate) next: NextPart,
}

impl<A: Allocator + Copy> Greeting<A> {
    /// Returns the advertisement before its first packet is sent.
    pub fn new(advert: Advert<A>) -> Greeting<A>
        ensures advert { result.advert ≡ advert }
        ensures next { result.next ≡ NextPart.Version }
    {
        Greeting {
            advert,
            next: NextPart::Version,
        }
    }
}

impl<A: Allocator + Copy> Cursor for Greeting<A> {
    ghost may = { λ greeting. SaysGreeting greeting.next greeting.advert };

    ghost steps = { λ greeting. steps_of_greeting greeting.next greeting.advert };

    fn step<B: Allocator + Copy>(&mut self, out: &mut Outgoing<B>) -> Said {
        let at = match self.next {
            NextPart::Version => {
                out.put_text(b"version 2", b"");
                self.next = NextPart::Capability(0);
                return Said::More;
            }
            NextPart::Capability(at) => at,
        };
        match self.advert.at(at) {
            Some(capability) => {
                out.put_text(text_of(capability).as_slice(), b"");
                self.next = NextPart::Capability(at + 1);
                Said::More
            }
            None => {
                out.put_flush();
                Said::Whole
            }
        }
    }
}

// Returns the text that the packet of a capability contains.
fn text_of(capability: Capability<'_>) -> ArrayVec<u8, MAX_TEXT>
    requires key { length capability.key.now ≤ max_capability }
    requires value { IfSome capability.value (λ value. length value.now ≤ max_capability) }
    ensures text { result.items ≡ capability_text (capability_view capability.entry) }
    ensures short { length result.items ≤ MAX_TEXT }
{
    let mut text = ArrayVec::new();
    add(capability.key, &mut text);
    if let Some(value) = capability.value {
        add(b"=", &mut text);
        add(value, &mut text);
    }
    text
}
