//! A client and a server in one process, which run alternately.

ghost use Rattle.std.specs.Prelude.{◌≡◌, IfOk};
ghost use Rattle.gdag.specs.Reach.{Grows};
ghost use Rattle.gclientrepo.specs.Settling.{Settles};
ghost use Rattle.ghello.specs.Hello.{MakesHello};
ghost use Rattle.gtcp.specs.Remote.{FetchesInPair, pair_hello};
ghost use Rattle.gtcp.specs.steps.Remote.{program_fault_of};

use crate::stream::Peer;
use crate::timer::Silence;
use ganswer::Server;
use gclient::{FetchFault, Fetched, GitFetch, PackOptions, Repo, Spec};
use gcmd::ProgramFault;
use gfetchreply::StreamLimit;
use ggrammar::{Ends, MessageFault};
use ggraph::{KeepsNothing, PlainPack};
use ghello::Hello;
use gpair::{LocalServer, PairFault, Wires};
use gpkt::{FromRead, Sink, Source, ToWrite};
use std::alloc::Allocator;
use std::io::{BufReader, Read, Write};
use std::net::{Net, OpenListener, OpenStream, SocketAddr, TcpListener, TcpStream};

// The two ends of a connection inside this process.
#[derive(Drop)]
struct Joined<S> {
    near: S,
    far: S,
}

// The maximum number of connections to accept until the client's own connection arrives. Other
// processes may also connect to the listener.
const MAX_ACCEPTS: usize = 16;

// The address at which the server listens, with any free port. `HOST` and `PATH` are the host and
// the path in the first line of the client.
const LOCAL_ADDRESS: &str = "127.0.0.1:0";

const HOST: &[u8] = b"127.0.0.1";

const PATH: &[u8] = b"/";

fn connect<N: Net>(net: &N) -> Option<Joined<N::Stream>> {
    let listener = TcpListener::bind(net, LOCAL_ADDRESS).ok()?;
    join(net, &listener)
}

// Opens a connection to the listener, and accepts this connection as the server. Returns `None` if
// the connection can't be opened or accepted.
fn join<N: Net>(net: &N, listener: &N::Listener) -> Option<Joined<N::Stream>> {
    let address = listener.local_addr().ok()?;
    let near = TcpStream::connect(net, address).ok()?;
    let far = accept_from(listener, near.local_addr().ok()?)?;
    Some(Joined { near, far })
}

// Accepts connections until the connection of this client arrives. Returns `None` if it does not
// arrive within `MAX_ACCEPTS` connections, or if a connection can't be accepted.
fn accept_from<L: OpenListener>(listener: &L, client: SocketAddr) -> Option<L::Stream> {
    for _ in 0..MAX_ACCEPTS {
        let (stream, peer) = listener.accept().ok()?;
        if peer == client {
            return Some(stream);
        }
    }
    None
}

/// Fetches from the server into the repository, over a connection inside this process and with
/// plain packs. The refspecs select the refs.
///
/// Fails with `PairLimit` if a message would have more than [`MAX_MESSAGE`](gpair::MAX_MESSAGE)
/// bytes. In that case no byte of the message is written, and client and server stop. Fails with
/// `Socket` if the connection can't be opened. Fails with `Memory` if out of memory for the buffers
/// of the streams or of the server, or for a message. Otherwise fails with the faults of
/// `gclient::fetch_git`, or with `Message` if the first line can't be composed.
pub(crate) fn fetch_in_pair<A: Allocator + Copy, N>(
    net: &N,
    server: &Server<A>,
    repo: &mut Repo<A>,
    specs: &[Spec<A>],
) -> Result<Fetched<A>, ProgramFault<A>>
where
    N: Net,
    ensures fetches { FetchesInPair repo.old specs.now repo.new result }
    ensures settled { IfOk result (λ fetched. Settles repo.new.graph.entries repo.old.refs
        fetched.settled.asks fetched.settled.updates.items repo.new.refs) }
    ensures grows { Grows repo.old.graph.entries repo.new.graph.entries }
{
    match connect(net) {
        Some(ends) => {
            let near = Peer::new(ends.near, Silence);
            let far = Peer::new(ends.far, Silence);
            fetch_between(server, repo, specs, &near, &far)
        }
        None => Err(ProgramFault::Socket),
    }
}

// Fetches over a connection with these two ends.
fn fetch_between<A, S>(
    server: &Server<A>,
    repo: &mut Repo<A>,
    specs: &[Spec<A>],
    near: &Peer<S, Silence>,
    far: &Peer<S, Silence>,
) -> Result<Fetched<A>, ProgramFault<A>>
where
    A: Allocator + Copy,
    S: Read + Write + OpenStream,
    ensures fetches { FetchesInPair repo.old specs.now repo.new result }
    ensures settled { IfOk result (λ fetched. Settles repo.new.graph.entries repo.old.refs
        fetched.settled.asks fetched.settled.updates.items repo.new.refs) }
    ensures grows { Grows repo.old.graph.entries repo.new.graph.entries }
{
    match BufReader::new(repo.graph().allocator(), near) {
        Ok(mut reader) => {
            let mut writer = near;
            let near_end = (FromRead::new(&mut reader), ToWrite::new(&mut writer));
            fetch_from_far(server, repo, specs, near_end, far)
        }
        Err(_) => Err(ProgramFault::Memory),
    }
}

// Fetches over the source and the sink of the client's end.
fn fetch_from_far<A, N, V, S>(
    server: &Server<A>,
    repo: &mut Repo<A>,
    specs: &[Spec<A>],
    near_end: (N, V),
    far: &Peer<S, Silence>,
) -> Result<Fetched<A>, ProgramFault<A>>
where
    A: Allocator + Copy,
    N: Source + Drop,
    V: Sink + Drop,
    S: Read + Write + OpenStream,
    ensures fetches { FetchesInPair repo.old specs.now repo.new result }
    ensures settled { IfOk result (λ fetched. Settles repo.new.graph.entries repo.old.refs
        fetched.settled.asks fetched.settled.updates.items repo.new.refs) }
    ensures grows { Grows repo.old.graph.entries repo.new.graph.entries }
{
    match BufReader::new(repo.graph().allocator(), far) {
        Ok(mut reader) => {
            let mut writer = far;
            let far_end = (FromRead::new(&mut reader), ToWrite::new(&mut writer));
            converse(server, repo, specs, near_end, far_end)
        }
        Err(_) => Err(ProgramFault::Memory),
    }
}

// Fetches over the sources and sinks of both ends.
fn converse<A, N, V, F, W>(
    server: &Server<A>,
    repo: &mut Repo<A>,
    specs: &[Spec<A>],
    near_end: (N, V),
    far_end: (F, W),
) -> Result<Fetched<A>, ProgramFault<A>>
where
    A: Allocator + Copy,
    N: Source + Drop,
    V: Sink + Drop,
    F: Source + Drop,
    W: Sink + Drop,
    ensures fetches { FetchesInPair repo.old specs.now repo.new result }
    ensures settled { IfOk result (λ fetched. Settles repo.new.graph.entries repo.old.refs
        fetched.settled.asks fetched.settled.updates.items repo.new.refs) }
    ensures grows { Grows repo.old.graph.entries repo.new.graph.entries }
{
    let hello = match hello_of_pair(repo.graph().allocator()) {
        Ok(hello) => hello,
        Err(fault) => return Err(ProgramFault::Fetch(FetchFault::from(fault))),
    };
    let fetch = GitFetch {
        hello: &hello,
        specs,
        limit: StreamLimit::default(),
        ends: Ends::Plain,
        options: PackOptions::default(),
    };
    let wires = Wires {
        near: near_end,
        far: far_end,
    };
    let local = LocalServer::new(server, &PlainPack);
    let mut indexer = KeepsNothing::new(&PlainPack);
    match gpair::fetch_between(&local, repo, &mut indexer, &fetch, wires) {
        Ok(fetched) => Ok(fetched),
        Err(fault) => Err(fault_of(fault)),
    }
}

// Returns the fault of the program for a fetch that failed.
fn fault_of<A: Allocator + Copy>(fault: PairFault<A>) -> ProgramFault<A>
    ensures { result ≡ program_fault_of fault }
{
    match fault {
        PairFault::TooLong => ProgramFault::PairLimit,
        PairFault::Memory => ProgramFault::Memory,
        PairFault::Fetch(cause) => ProgramFault::Fetch(cause),
    }
}

// Returns the first line of the client.
fn hello_of_pair<A: Allocator + Copy>(alloc: A) -> Result<Hello<A>, MessageFault>
    ensures { MakesHello pair_hello result }
{
    Hello::new(alloc, PATH, HOST)
}
