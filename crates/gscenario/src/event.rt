//! The events that happen to a server and a client.

use gname::{Oid, RefName};
use gobject::Entry;
use grefs::Spec;
use std::alloc::{Allocator, Global};

/// An event that happens to a server, or to a client that fetches from it.
///
/// A lost message needs no event, because a message is lost if no event delivers it. Messages can
/// also be delivered twice, late or truncated.
#[derive(Debug, Drop)]
pub enum Event<A: Allocator + Copy = Global> {
    /// The client begins a session with these refspecs, and reads the server's advertisement. The
    /// event fails if there are more than 16 refspecs. The new session replaces any older session.
    /// The session accepts packs up to the default size limit, and expects no response-end packets.
    Begin(Vec<Spec<A>, A>),
    /// The client's session makes its next request, and appends it to the list of sent requests.
    Ask,
    /// The server replies to the request at this index in the list of sent requests. The reply is
    /// appended to the list of kept replies.
    Serve(usize),
    /// The client receives the first `count` bytes of the kept reply at index `reply`, as the reply
    /// to its open request. A request is open until its reply arrives. If the kept reply has fewer
    /// bytes, the complete reply arrives.
    Deliver { reply: usize, count: usize },
    /// The client receives these bytes as the reply to its open request, although the server did
    /// not send them.
    Forge(Vec<u8, A>),
    /// An unknown client sends these bytes to the server on another connection. The server's
    /// replies have no response-end packets.
    StrangeRequest(Vec<u8, A>),
    /// The client's session makes each requested ref update that is allowed.
    Settle,
    /// The client restarts, keeps its repository and loses its session.
    RestartClient,
    /// The server restarts with the same repository.
    RestartServer,
    /// The server gains an object.
    ServerAdd(Entry<A>),
    /// The server's ref with this name is set to this id.
    ServerRef(RefName<A>, Oid),
    /// The client gains an object.
    ClientAdd(Entry<A>),
    /// The client's ref with this name is set to this id.
    ClientRef(RefName<A>, Oid),
}
