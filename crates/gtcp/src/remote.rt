//! The programs that open sockets, as functions over the network, bytes and sinks.

ghost use Rattle.std.specs.Prelude.{◌≡◌, IfOk};
ghost use Rattle.gpkt.specs.Packets.{Bytes};
ghost use Rattle.gdag.specs.Reach.{Grows};
ghost use Rattle.gpkt.specs.Streams.{given, OnSink, SameSink};
ghost use Rattle.gclientrepo.specs.Settling.{Settles};
ghost use Rattle.gcmd.specs.Fetching.{NamesClient};
ghost use Rattle.gcmd.specs.Programs.{Runs};
ghost use Rattle.gcmd.specs.Serving.{NamesServer};
ghost use Rattle.gcmd.specs.Stored.{stored_of};
ghost use Rattle.glockfile.specs.Storing.{Holds};
ghost use Rattle.glockfile.specs.declared.storage.Lockfile.TheVariants.{Absent, Empty};
ghost use Rattle.gtcp.specs.Remote.{Announces, AsksRemote, FetchesAt, FetchesRemote, IsFetchedRemote, ListsRemote, Meets, RunsServing, ServesRemote, ShowsReply};

use crate::fetching::{fetch_from, ls_from, request_for};
use crate::listing::text_of;
use crate::location::Location;
use crate::pair::fetch_in_pair;
use crate::serving::serve_listener;
use crate::stream::{Peer, connect_to};
use crate::timer::Silence;
use ganswer::Server;
use gclient::{FetchFault, Fetched, GitFetch, PackOptions, Repo, Spec};
use gcmd::{
    OpenedFile, ProgramFault, conclude_stored, finish, load_server, open_client, open_stored,
    send_report, send_text,
};
use gfetchreply::{PackLimit, StreamLimit};
use ggrammar::Ends;
use ggraph::{KeepsNothing, PlainPack};
use glockfile::Storage;
use glsreply::LsReply;
use gname::Prefix;
use gpkt::Sink;
use std::alloc::Allocator;
use std::net::{Net, OpenListener, TcpListener};
use std::time::Clock;

// ---- serving

/// The parameters of a server: its address and path, the number of connections, whether replies end
/// with a response-end packet, and the text that describes the repository.
#[derive(Drop)]
pub struct Service<'a, A: Allocator + Copy> {
    pub place: &'a Location<A>,
    pub connections: u32,
    pub ends: Ends,
    pub file: &'a [u8],
}

/// `gitv2 serve --listen ADDR --path PATH --connections N [--response-end] FILE`: shows the port of
/// the listener as the line `listening PORT` on `output`. Then the program serves `connections`
/// connections, one after the other, like [`serve_listener`]. Each fault of a connection, and the
/// fault that ends the program, is printed as one line on `errors`.
///
/// Returns exit status 0 if all connections were served, even if some had faults. Returns 1 if the
/// file is refused, the socket can't be opened, the port can't be shown, or a connection can't be
/// accepted.
pub fn cmd_serve<A: Allocator + Copy, N, W: Sink, E: Sink>(
    net: &N,
    alloc: A,
    service: &Service<'_, A>,
    output: &mut W,
    errors: &mut E,
) -> u8
where
    N: Net + Clock,
    ensures runs { RunsServing A (given E.Sink) errors.old errors.new
        (ServesRemote service.now.file.now service.now.place.now.hello.path service.now.ends
        service.now.connections (given W.Sink output.old output.new))
        result }
    ensures output_loans { SameSink W.Sink output.old output.new }
    ensures errors_loans { SameSink E.Sink errors.old errors.new }
{
    let outcome = serve_all(net, alloc, service, output, errors);
    finish(outcome, errors)
}

// Loads the server, and serves its clients.
fn serve_all<A: Allocator + Copy, N, W: Sink, E: Sink>(
    net: &N,
    alloc: A,
    service: &Service<'_, A>,
    output: &mut W,
    errors: &mut E,
) -> Result<(), ProgramFault<A>>
where
    N: Net + Clock,
    ensures { OnSink W.Sink output.old output.new (λ written. OnSink E.Sink errors.old errors.new
        (λ printed. ServesRemote service.now.file.now service.now.place.now.hello.path
        service.now.ends service.now.connections written printed result)) }
{
    match load_server(alloc, service.file) {
        Ok(server) => serve_at(net, &server, service, output, errors),
        Err(fault) => Err(fault),
    }
}

// Shows the port on `output`, and serves `connections` connections at the location. Prints only the
// faults of connections on `errors`.
fn serve_at<A: Allocator + Copy, N, W: Sink, E: Sink>(
    net: &N,
    server: &Server<A>,
    service: &Service<'_, A>,
    output: &mut W,
    errors: &mut E,
) -> Result<(), ProgramFault<A>>
where
    N: Net + Clock,
    ensures { OnSink W.Sink output.old output.new (λ written. OnSink E.Sink errors.old errors.new
        (λ printed. (file : Bytes) → NamesServer file server.now
        → ServesRemote file service.now.place.now.hello.path service.now.ends
        service.now.connections written printed result)) }
{
    let Ok(listener) = TcpListener::bind(net, service.place.address()) else {
        return Err(ProgramFault::Socket);
    };
    match announce(server.graph().allocator(), &listener, output) {
        Ok(()) => serve_listener(
            net,
            server,
            &PlainPack,
            listener,
            service.place.hello().path(),
            service.connections,
            service.ends,
            errors,
        ),
        Err(fault) => Err(fault),
    }
}

// Shows the port of the listener on the output.
fn announce<A: Allocator + Copy, L: OpenListener, W: Sink>(
    alloc: A,
    listener: &L,
    output: &mut W,
) -> Result<(), ProgramFault<A>>
    ensures { OnSink W.Sink output.old output.new (λ written. Announces {A = A} written result) }
{
    match listener.local_addr() {
        Ok(address) => show_port(alloc, address.port(), output),
        Err(_) => Err(ProgramFault::Socket),
    }
}

fn show_port<A: Allocator + Copy, W: Sink>(
    alloc: A,
    port: u16,
    output: &mut W,
) -> Result<(), ProgramFault<A>>
    ensures { OnSink W.Sink output.old output.new (λ written. Announces {A = A} written result) }
{
    match format!(in alloc; "listening {port}\n") {
        Ok(line) => send_text(line.as_bytes(), output),
        Err(_) => Err(ProgramFault::Memory),
    }
}

// ---- listing

/// The parameters of a listing: the location of the server, and the prefixes of the refs to list.
/// If there are no prefixes, the program lists all refs.
#[derive(Drop)]
pub struct Listing<'a, A: Allocator + Copy> {
    pub place: &'a Location<A>,
    pub prefixes: &'a [Prefix<A>],
}

/// `gitv2 ls --tcp ADDR --path PATH [PREFIX]...`: lists the refs of a server on `output`, one per
/// line, in the text form of a reply (gitprotocol-v2(5), "ls-refs"). If the reply has an unborn
/// `HEAD`, the first line shows the target of `HEAD`. A fault is printed as one line on `errors`.
/// The fault is `Socket` if no address of the location accepts a connection within
/// [`MAX_CONNECT`](crate::MAX_CONNECT) seconds. Otherwise the faults are the same as for
/// [`ls_on`](crate::ls_on).
///
/// Returns exit status 0 if the lines are written and flushed, and 1 after a fault.
pub fn cmd_ls_remote<A: Allocator + Copy, N, W: Sink, E: Sink>(
    net: &N,
    alloc: A,
    listing: &Listing<'_, A>,
    output: &mut W,
    errors: &mut E,
) -> u8
where
    N: Net,
    ensures runs { Runs {A = A} (ListsRemote listing.now.prefixes.now listing.now.place.now.hello
        (given W.Sink output.old output.new))
        (given E.Sink errors.old errors.new) result }
    ensures output_loans { SameSink W.Sink output.old output.new }
    ensures errors_loans { SameSink E.Sink errors.old errors.new }
{
    finish(list_remote(net, alloc, listing, output), errors)
}

fn list_remote<A: Allocator + Copy, N, W: Sink>(
    net: &N,
    alloc: A,
    listing: &Listing<'_, A>,
    output: &mut W,
) -> Result<(), ProgramFault<A>>
where
    N: Net,
    ensures { OnSink W.Sink output.old output.new (λ written. ListsRemote {A = A}
        listing.now.prefixes.now listing.now.place.now.hello written result) }
{
    match ask_remote(net, alloc, listing) {
        Ok(reply) => show_reply(alloc, &reply, output),
        Err(fault) => Err(fault),
    }
}

// Requests the list of refs from the server.
fn ask_remote<A: Allocator + Copy, N>(
    net: &N,
    alloc: A,
    listing: &Listing<'_, A>,
) -> Result<LsReply<A>, ProgramFault<A>>
where
    N: Net,
    ensures { AsksRemote listing.now.prefixes.now listing.now.place.now.hello result }
{
    let asked = match request_for(alloc, listing.prefixes) {
        Ok(asked) => asked,
        Err(fault) => return Err(ProgramFault::Fetch(FetchFault::from(fault))),
    };
    let Some(stream) = connect_to(net, listing.place.address()).ok() else {
        return Err(ProgramFault::Socket);
    };
    let peer = Peer::new(stream, Silence);
    match ls_from(alloc, &peer, listing.place.hello(), asked) {
        Ok(reply) => Ok(reply),
        Err(fault) => Err(ProgramFault::Fetch(fault)),
    }
}

fn show_reply<A: Allocator + Copy, W: Sink>(
    alloc: A,
    reply: &LsReply<A>,
    output: &mut W,
) -> Result<(), ProgramFault<A>>
    ensures { OnSink W.Sink output.old output.new (λ written. ShowsReply {A = A} reply.now written
        result) }
{
    match text_of(alloc, reply) {
        Ok(text) => send_text(text.as_slice(), output),
        Err(_) => Err(ProgramFault::Memory),
    }
}

// ---- fetching

/// The parameters of a fetch: the location of the server, the refspecs, the maximum size of a pack,
/// and whether replies end with a response-end packet.
#[derive(Drop)]
pub struct RemoteFetch<'a, A: Allocator + Copy> {
    pub place: &'a Location<A>,
    pub specs: &'a [Spec<A>],
    pub limit: PackLimit,
    pub ends: Ends,
}

/// `gitv2 fetch --tcp ADDR --path PATH [--limit N] [--response-end] FILE SPEC...`: locks and reads
/// the client's file, connects to the server, and fetches into the repository that the file
/// describes. If the conversation succeeds, the program replaces the whole file, and then writes
/// the report to `report`. A fault is printed as one line on `errors`.
///
/// Returns exit status 0 if the report is written and flushed, and 1 after a fault. The fault is
/// `File` or `Memory` if the file can't be locked, read or replaced. The program opens no
/// connection before the file is locked and read. The fault is `Socket` if no address of the
/// location accepts a connection within [`MAX_CONNECT`](crate::MAX_CONNECT) seconds. Otherwise the
/// faults are the same as for [`fetch_on`](crate::fetch_on). After every fault the file has the old
/// text or the whole new text, and at the end the program holds no lockfile.
pub fn cmd_fetch_remote<A, N, T, R, E>(
    net: &N,
    alloc: A,
    file: &mut T,
    fetch: &RemoteFetch<'_, A>,
    report: &mut R,
    errors: &mut E,
) -> u8
where
    A: Allocator + Copy,
    N: Net,
    T: Storage,
    R: Sink,
    E: Sink,
    requires { T.lockfile file.old ≡ Absent }
    ensures runs { Runs {A = A}
        (FetchesRemote fetch.now.specs.now fetch.now.limit fetch.now.ends fetch.now.place.now.hello
        (stored_of T.texts T.lockfile file.old file.new)
        (given R.Sink report.old report.new))
        (given E.Sink errors.old errors.new) result }
    ensures report_loans { SameSink R.Sink report.old report.new }
    ensures errors_loans { SameSink E.Sink errors.old errors.new }
{
    finish(fetch_remote(net, alloc, file, fetch, report), errors)
}

// Fetches into a stored file, and returns the outcome.
fn fetch_remote<A, N, T, R>(
    net: &N,
    alloc: A,
    file: &mut T,
    fetch: &RemoteFetch<'_, A>,
    report: &mut R,
) -> Result<(), ProgramFault<A>>
where
    A: Allocator + Copy,
    N: Net,
    T: Storage,
    R: Sink,
    requires { T.lockfile file.old ≡ Absent }
    ensures { OnSink R.Sink report.old report.new (λ told. FetchesRemote {A = A}
        fetch.now.specs.now fetch.now.limit fetch.now.ends fetch.now.place.now.hello
        (stored_of T.texts T.lockfile file.old file.new) told result) }
{
    match open_stored(alloc, file) {
        Ok(mut opened) => fetch_opened(net, &mut opened, file, fetch, report),
        Err(fault) => Err(fault),
    }
}

// Fetches into an opened file, and returns the outcome.
fn fetch_opened<A, N, T, R>(
    net: &N,
    opened: &mut OpenedFile<A>,
    file: &mut T,
    fetch: &RemoteFetch<'_, A>,
    report: &mut R,
) -> Result<(), ProgramFault<A>>
where
    A: Allocator + Copy,
    N: Net,
    T: Storage,
    R: Sink,
    requires { T.lockfile file.old ≡ Empty }
    ensures fetches { OnSink R.Sink report.old report.new (λ told.
        Holds (T.texts file.old) opened.old.text.items
        → NamesClient opened.old.text.items opened.old.repo
        → IsFetchedRemote {A = A} fetch.now.specs.now fetch.now.limit fetch.now.ends
        fetch.now.place.now.hello (stored_of T.texts T.lockfile file.old file.new) told result) }
    ensures lockfile { T.lockfile file.new ≡ Absent }
{
    match fetch_at(net, &mut opened.repo, fetch) {
        Ok(fetched) => {
            conclude_stored(file, opened.text.as_slice(), &opened.repo, &fetched, report)
        }
        Err(fault) => {
            file.unlock();
            Err(fault)
        }
    }
}

// Fetches from the server at the location.
fn fetch_at<A: Allocator + Copy, N>(
    net: &N,
    repo: &mut Repo<A>,
    fetch: &RemoteFetch<'_, A>,
) -> Result<Fetched<A>, ProgramFault<A>>
where
    N: Net,
    ensures fetches { FetchesAt repo.old fetch.now.specs.now fetch.now.limit fetch.now.ends
        fetch.now.place.now.hello repo.new result }
    ensures settled { IfOk result (λ fetched. Settles repo.new.graph.entries repo.old.refs
        fetched.settled.asks fetched.settled.updates.items repo.new.refs) }
    ensures grows { Grows repo.old.graph.entries repo.new.graph.entries }
{
    let Some(stream) = connect_to(net, fetch.place.address()).ok() else {
        return Err(ProgramFault::Socket);
    };
    let peer = Peer::new(stream, Silence);
    let git_fetch = GitFetch {
        hello: fetch.place.hello(),
        specs: fetch.specs,
        limit: StreamLimit::from(fetch.limit),
        ends: fetch.ends,
        options: PackOptions::default(),
    };
    match fetch_from(&peer, repo, &mut KeepsNothing::new(&PlainPack), &git_fetch) {
        Ok(fetched) => Ok(fetched),
        Err(fault) => Err(ProgramFault::Fetch(fault)),
    }
}

// ---- pairs

/// The parameters of a fetch between a client and a server in one process: the server, the text
/// that describes the client's repository, and the refspecs.
#[derive(Drop)]
pub struct Pair<'a, A: Allocator + Copy> {
    pub server: &'a Server<A>,
    pub client: &'a [u8],
    pub specs: &'a [Spec<A>],
}

/// `gitv2 pair SERVERFILE CLIENTFILE SPEC...`, after the server is loaded: fetches from the server
/// into the client's repository, over a connection inside this process. Writes to `output` the same
/// report as `gitv2 fetch`. A message has at most [`MAX_MESSAGE`](crate::MAX_MESSAGE) bytes. No
/// file is written. A fault is printed as one line on `errors`.
///
/// Returns exit status 0 if the report is written and flushed, and 1 after a fault.
pub fn cmd_pair<A: Allocator + Copy, N, W: Sink, E: Sink>(
    net: &N,
    pair: &Pair<'_, A>,
    output: &mut W,
    errors: &mut E,
) -> u8
where
    N: Net,
    ensures runs { Runs {A = A}
        (Meets pair.now.client.now pair.now.specs.now
        (given W.Sink output.old output.new))
        (given E.Sink errors.old errors.new) result }
    ensures output_loans { SameSink W.Sink output.old output.new }
    ensures errors_loans { SameSink E.Sink errors.old errors.new }
{
    finish(meet(net, pair, output), errors)
}

fn meet<A: Allocator + Copy, N, W: Sink>(
    net: &N,
    pair: &Pair<'_, A>,
    output: &mut W,
) -> Result<(), ProgramFault<A>>
where
    N: Net,
    ensures { OnSink W.Sink output.old output.new (λ written. Meets {A = A} pair.now.client.now
        pair.now.specs.now written result) }
{
    match open_client(pair.server.graph().allocator(), pair.client) {
        Ok(mut repo) => meet_client(net, pair.server, &mut repo, pair.specs, output),
        Err(fault) => Err(fault),
    }
}

// Fetches into the client's repository, and writes the report.
fn meet_client<A: Allocator + Copy, N, W: Sink>(
    net: &N,
    server: &Server<A>,
    repo: &mut Repo<A>,
    specs: &[Spec<A>],
    output: &mut W,
) -> Result<(), ProgramFault<A>>
where
    N: Net,
    ensures { OnSink W.Sink output.old output.new (λ written. (file : Bytes)
        → NamesClient file repo.old → Meets {A = A} file specs.now written result) }
{
    match fetch_in_pair(net, server, repo, specs) {
        Ok(fetched) => send_report(server.graph().allocator(), &fetched, output),
        Err(fault) => Err(fault),
    }
}
