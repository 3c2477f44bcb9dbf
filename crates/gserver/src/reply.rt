//! The replies of a server.

ghost use Rattle.gserver.specs.Replying.{may_of, reply_steps};

use crate::cursor::{Cursor, say_some};
use crate::greeting::Greeting;
use crate::host::ServedRepository;
use crate::listing::Listing;
use crate::speech::Speech;
use gdialogue::{Reply, Said};
use gparts::PartPacker;
use gtalk::Outgoing;
use std::alloc::Allocator;

/// The reply of a server to a message, sent packet by packet. A whole pack is never in memory.
#[derive(Drop)]
pub enum ServerReply<A: Allocator + Copy, R, P> {
    /// The advertisement of a repository.
    Greeting(Greeting<A>),
    /// The reply to an ls-refs request.
    Listing(Listing<A, R>),
    /// The reply to a fetch request, an error packet, or no packet.
    Speech(Speech<A, R, P>),
}

impl<A: Allocator + Copy, R: ServedRepository<A> + PartPacker<A> + Drop> Cursor
    for ServerReply<A, R, R::Parts> {
    ghost may = { may_of R.server R.gives };

    ghost steps = { reply_steps R.server R.most };

    fn step<B: Allocator + Copy>(&mut self, out: &mut Outgoing<B>) -> Said {
        match self {
            ServerReply::Greeting(greeting) => greeting.step(out),
            ServerReply::Listing(listing) => listing.step(out),
            ServerReply::Speech(speech) => speech.step(out),
        }
    }
}

impl<A: Allocator + Copy, R: ServedRepository<A> + PartPacker<A> + Drop> Reply
    for ServerReply<A, R, R::Parts> {
    ghost may = { may_of R.server R.gives };

    ghost calls = { reply_steps R.server R.most };

    fn say<B: Allocator + Copy>(&mut self, out: &mut Outgoing<B>) -> Said {
        say_some(self, out)
    }
}
