//! Accepting peers.

ghost use Rattle.std.specs.Prelude.{◌≡◌, []};
ghost use Rattle.gtalk.specs.Connections.{pending_of};
ghost use Rattle.gtalk.specs.Talks.{no_talk};

use crate::event::{End, Event, Refusal};
use crate::event_loop::{EventLoop, NewPeer, Pending};
use crate::patience::Patience;
use crate::peer::Peer;
use crate::slot::Slot;
use gtalk::{Connection, Conversation};
use mio::net::TcpStream;
use std::alloc::Allocator;
use std::io::{self, ErrorKind, Write};
use std::net::{IpAddr, SocketAddr};

// The error numbers that report a lack of resources: too many open files in the process or in the
// system, or a lack of memory, buffers or streams (errno(3)).
const OUT_OF_RESOURCES: [i32; 5] = [24, 23, 12, 105, 63];

// The error numbers that report a fault of the network and not of the listener (accept(2), "Error
// handling"): EPROTO, ENOPROTOOPT, EHOSTDOWN, ENONET, EOPNOTSUPP and ETIMEDOUT.
const NETWORK_FAULTS: [i32; 6] = [71, 92, 112, 64, 95, 110];

impl<C: Conversation + Drop, A: Allocator + Copy> EventLoop<'_, C, A> {
    /// Starts a conversation with the peer of the last event, if the event was
    /// [`Event::Connected`].
    pub fn begin(&mut self, conversation: C)
        requires { C.holds conversation no_talk }
    {
        if let Some(NewPeer::Welcome(stream, address)) = self.new_peer.take() {
            let peer = Peer {
                stream,
                address,
                connection: Connection::new(conversation, self.alloc),
                patience: Patience::new(self.now, self.limits),
                sent: 0,
                was_silent: false,
            };
            self.admit(peer);
        }
    }

    /// Sends bytes to the peer of the last event, if the event was [`Event::Refused`], and closes
    /// the connection. The call writes once, so it sends only the bytes that the socket accepts
    /// immediately.
    pub fn refuse(&mut self, bytes: &[u8]) {
        if let Some(NewPeer::Refused(mut stream)) = self.new_peer.take() {
            let _ = stream.write(bytes);
            self.close_gracefully(stream, true);
        }
    }

    /// Accepts a connection if one is pending, and returns the event that reports it. Returns
    /// `None` if no connection was accepted.
    pub(crate) fn accept(&mut self) -> io::Result<Option<Event<C, A>>> {
        match self.listener.accept() {
            Ok((stream, address)) => Ok(Some(self.receive(stream, address))),
            Err(error) => {
                self.pending = pending_after(error)?;
                Ok(None)
            }
        }
    }

    // Accepts or refuses a new peer, and returns the event that reports it.
    fn receive(&mut self, stream: TcpStream, address: SocketAddr) -> Event<C, A> {
        self.pending = Pending::Some;
        match self.refusal(address.ip()) {
            None => {
                self.accepted = self.accepted.saturating_add(1);
                let _ = stream.set_nodelay(true);
                self.new_peer = Some(NewPeer::Welcome(stream, address));
                Event::Connected(address)
            }
            Some(why) => {
                self.new_peer = Some(NewPeer::Refused(stream));
                Event::Refused(address, why)
            }
        }
    }

    // Returns the reason to refuse a peer from this IP address, if any.
    fn refusal(&self, ip: IpAddr) -> Option<Refusal> {
        if self.peer_count() >= self.limits.at_once {
            Some(Refusal::Full)
        } else if self.addresses.count(ip) >= self.limits.at_once_of_address {
            Some(Refusal::AddressLimit)
        } else {
            None
        }
    }

    // Adds a peer to the served peers. The peer has its first turn when its socket is ready. If the
    // peer can't be added, the next call of `EventLoop::next` reports the end of its connection.
    fn admit(&mut self, peer: Peer<C, A>)
        requires { pending_of peer.connection ≡ [] }
    {
        let ip = peer.address.ip();
        if self.addresses.add(ip).is_err() {
            self.ended_at_start = Some(peer.end(End::Memory, self.now).0);
            return;
        }
        self.ended_at_start = match self.slots.insert(Slot::Talks(peer)) {
            Ok(key) if self.watch(key, true) => None,
            Ok(key) => self.part_with(key, End::Lost),
            Err(refused) => {
                self.addresses.remove(ip);
                match refused.value {
                    Slot::Talks(peer) => Some(peer.end(End::Memory, self.now).0),
                    Slot::Leaves(_closing) => None,
                }
            }
        };
    }
}

// Returns whether connections may still be pending after accepting a connection failed with this
// error (accept(2)). Fails if no further connection can be accepted.
fn pending_after(error: io::Error) -> io::Result<Pending> {
    match error.kind() {
        ErrorKind::WouldBlock => Ok(Pending::None),
        ErrorKind::ConnectionAborted
        | ErrorKind::Interrupted
        | ErrorKind::NetworkDown
        | ErrorKind::NetworkUnreachable
        | ErrorKind::HostUnreachable => Ok(Pending::Some),
        ErrorKind::PermissionDenied => Ok(Pending::Later),
        _ if is_temporary(&error) => Ok(Pending::Later),
        _ => Err(error),
    }
}

// Returns whether accepting connections may succeed again some time after this error.
fn is_temporary(error: &io::Error) -> bool {
    match error.raw_os_error() {
        Some(number) => OUT_OF_RESOURCES.contains(&number) || NETWORK_FAULTS.contains(&number),
        None => false,
    }
}
