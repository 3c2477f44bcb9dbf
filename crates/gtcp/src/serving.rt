//! A server that offers one repository to its clients.

ghost use Rattle.std.specs.Prelude.{◌≡◌};
ghost use Rattle.gpkt.specs.Change.{change_of};
ghost use Rattle.gpkt.specs.Streams.{given, SameSink};
ghost use Rattle.gobject.specs.Packs.{MayPack};
ghost use Rattle.gcmd.specs.Serving.{outcome_of_connection};
ghost use Rattle.gtcp.specs.Sockets.{HoldsServing, IsServed, ServesEach, outcome_of};
ghost use Rattle.gtcp.specs.steps.Sockets.{ServesBetween, ServesFrom};
ghost use Rattle.gtcp.specs.steps.Remote.{Tells};

use crate::stream::{MESSAGE_BUFFER, Peer};
use crate::timer::{Timer, Turns};
use ganswer::Server;
use gcmd::{ProgramFault, print_fault};
use ggrammar::Ends;
use ggraph::Packer;
use gpkt::{FromRead, Sink, ToWrite};
use gserve::{End, Export, GitEnd, OnePack, serve_git};
use std::alloc::Allocator;
use std::io::{BufReader, BufWriter, Read, Write};
use std::net::{OpenListener, OpenStream};
use std::time::Clock;

/// Serves `connections` connections, one after the other, including the first line of each
/// (gitprotocol-pack(5), "Git Transport"). The fault of a connection is printed as one line on
/// `errors`, and the next connection is still served. If memory for a buffer runs out, a connection
/// is served without the buffer.
///
/// A client has [`MAX_FIRST_LINE`](crate::MAX_FIRST_LINE) seconds for its first line, counted from
/// the moment when the server accepts the connection. The client has
/// [`MAX_REQUEST`](crate::MAX_REQUEST) seconds for each request, counted from the moment when the
/// server starts to wait for the request. When this time is over, the current read fails. A read
/// also fails if the clock fails, or if the clock goes backwards while this time runs. A write
/// fails if the client accepts no byte for [`MAX_SILENCE`](crate::MAX_SILENCE) seconds.
///
/// Fails with `Socket` if a connection can't be accepted, and serves no further connection.
pub fn serve_listener<C, A, K, L, S, E>(
    clock: &C,
    server: &Server<A>,
    packer: &K,
    listener: L,
    path: &[u8],
    connections: u32,
    ends: Ends,
    errors: &mut E,
) -> Result<(), ProgramFault<A>>
where
    C: Clock,
    A: Allocator + Copy,
    K: Packer<A>,
    L: OpenListener<Stream = S> + Drop,
    S: Read + Write + OpenStream + Drop,
    E: Sink,
    ensures serves { ServesEach server.now (MayPack (K.packs packer.now))
        (K.pack_fails packer.now) path.now
        ends
        (given E.Sink errors.old errors.new) connections result }
    ensures loans { SameSink E.Sink errors.old errors.new }
{
    let export = Export { server, path, ends };
    let listening = Listening {
        clock,
        listener: &listener,
        connections,
    };
    serve_each(&export, packer, &listening, errors)
}

// The listener, the number of connections to serve, and the clock for the clients' deadlines.
#[derive(Drop)]
struct Listening<'a, C, L> {
    clock: &'a C,
    listener: &'a L,
    connections: u32,
}

// Serves all connections of a listener.
fn serve_each<C, A, K, L, S, E>(
    export: &Export<'_, A>,
    packer: &K,
    listening: &Listening<'_, C, L>,
    errors: &mut E,
) -> Result<(), ProgramFault<A>>
where
    C: Clock,
    A: Allocator + Copy,
    K: Packer<A>,
    L: OpenListener<Stream = S>,
    S: Read + Write + OpenStream + Drop,
    E: Sink,
    ensures serves { ServesEach export.now.server.now (MayPack (K.packs packer.now))
        (K.pack_fails packer.now)
        export.now.path.now export.now.ends
        (given E.Sink errors.old errors.new)
        listening.now.connections result }
    ensures loans { SameSink E.Sink errors.old errors.new }
{
    let mut can_print = true;
    for _number in 0..listening.connections {
        let Ok((stream, _)) = listening.listener.accept() else {
            return Err(ProgramFault::Socket);
        };
        let timer = Turns::from_accept(listening.clock);
        let outcome = serve_stream(export, packer, stream, timer);
        can_print = tell(outcome, can_print, errors);
    }
    Ok(())
}

// Prints the fault of a connection, if there is a fault and the error sink still works. Returns
// whether the error sink still works.
fn tell<A: Allocator + Copy, E: Sink>(
    outcome: Result<(), ProgramFault<A>>,
    can_print: bool,
    errors: &mut E,
) -> bool
    ensures tells { Tells outcome can_print result
        (given E.Sink errors.old errors.new) }
    ensures loans { SameSink E.Sink errors.old errors.new }
{
    match outcome {
        Err(fault) if can_print => print_fault(&fault, errors).is_ok(),
        _ => can_print,
    }
}

// Serves one connection.
fn serve_stream<A, K, S, T>(
    export: &Export<'_, A>,
    packer: &K,
    stream: S,
    timer: T,
) -> Result<(), ProgramFault<A>>
where
    A: Allocator + Copy,
    K: Packer<A>,
    S: Read + Write + OpenStream + Drop,
    T: Timer + Drop,
    ensures { IsServed export.now.server.now (MayPack (K.packs packer.now))
        (K.pack_fails packer.now)
        export.now.path.now export.now.ends result }
{
    let peer = Peer::new(stream, timer);
    let ended = serve_peer(export, packer, &peer);
    peer.hang_up();
    outcome_of(ended)
}

// Serves a peer through buffers. If memory for a buffer runs out, serves the peer without that
// buffer.
fn serve_peer<A, K, S, T>(export: &Export<'_, A>, packer: &K, peer: &Peer<S, T>) -> GitEnd
where
    A: Allocator + Copy,
    K: Packer<A>,
    S: Read + Write + OpenStream,
    T: Timer,
    ensures { HoldsServing export.now.server.now (MayPack (K.packs packer.now))
        (K.pack_fails packer.now)
        export.now.path.now export.now.ends result }
{
    match BufReader::new(export.server.graph().allocator(), peer) {
        Ok(mut reader) => serve_from(export, packer, &mut reader, peer),
        Err(_) => {
            let mut reader = peer;
            serve_from(export, packer, &mut reader, peer)
        }
    }
}

// Serves a peer, reading the requests from the given reader.
fn serve_from<A, K, R, S, T>(
    export: &Export<'_, A>,
    packer: &K,
    reader: &mut R,
    peer: &Peer<S, T>,
) -> GitEnd
where
    A: Allocator + Copy,
    K: Packer<A>,
    R: Read,
    S: Write + OpenStream,
    T: Timer,
    ensures { ServesFrom export.now.server.now (MayPack (K.packs packer.now))
        (K.pack_fails packer.now)
        export.now.path.now export.now.ends (change_of R.remaining reader.old reader.new) result }
{
    let alloc = export.server.graph().allocator();
    match BufWriter::with_capacity(alloc, MESSAGE_BUFFER, peer) {
        Ok(mut writer) => {
            let ended = serve_between(export, packer, reader, &mut writer);
            // Drops the bytes that could not be written.
            let (_peer, _unwritten) = writer.into_parts();
            ended
        }
        Err(_) => {
            let mut writer = peer;
            serve_between(export, packer, reader, &mut writer)
        }
    }
}

// Serves a connection over a reader and a writer.
fn serve_between<A: Allocator + Copy, K: Packer<A>, R: Read, W: Write>(
    export: &Export<'_, A>,
    packer: &K,
    reader: &mut R,
    writer: &mut W,
) -> GitEnd
    ensures { ServesBetween export.now.server.now (MayPack (K.packs packer.now))
        (K.pack_fails packer.now)
        export.now.path.now export.now.ends (change_of R.remaining reader.old reader.new)
        (change_of W.contents writer.old writer.new) result }
{
    let mut source = FromRead::new(reader);
    let mut sink = ToWrite::new(writer);
    serve_git(export, &mut OnePack::new(packer), &mut source, &mut sink)
}

// Returns the outcome of a connection. A request for another path is not a fault.
fn outcome_of<A: Allocator + Copy>(ended: GitEnd) -> Result<(), ProgramFault<A>>
    ensures { result ≡ outcome_of ended }
{
    match ended {
        GitEnd::Served(served) => outcome_of_end(served.end),
        GitEnd::Elsewhere => Ok(()),
        GitEnd::Refused(fault) => Err(ProgramFault::Request(fault)),
        GitEnd::WriteFailed => Err(ProgramFault::WriteFailed),
    }
}

fn outcome_of_end<A: Allocator + Copy>(ended: End) -> Result<(), ProgramFault<A>>
    ensures { result ≡ outcome_of_connection ended }
{
    match ended {
        End::Closed | End::Ended => Ok(()),
        End::Refused(fault) => Err(ProgramFault::Request(fault)),
        End::WriteFailed => Err(ProgramFault::WriteFailed),
    }
}
