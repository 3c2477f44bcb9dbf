//! The messages that a client receives: the advertisement, or the reply to a request.

use ghello::AdvertReader;
use glsreply::LsReplyReader;
use gsession::ObjectsReader;
use std::alloc::Allocator;

/// A message to a client. Some of its packets may not have arrived yet. `F` is the state of the
/// indexer while it reads the pack of a fetch reply.
#[derive(Drop)]
pub enum Heard<A: Allocator + Copy, F> {
    /// The advertisement (gitprotocol-v2(5), "Capability Advertisement").
    Advert(AdvertReader<A>),
    /// The reply to an ls-refs request.
    Refs(LsReplyReader<A>),
    /// The reply to a fetch request.
    Objects(ObjectsReader<F, A>),
}
