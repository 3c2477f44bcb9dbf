//! The command `gitrepo serve`, which serves repositories to many clients at once.

use crate::directory::{Exports, open_fault};
use crate::disk::Disk;
use crate::fault::Fault;
use crate::limits::limits_beside;
use crate::notes::Notes;
use crate::output::{print, write_line};
use crate::refusals::{ADDRESS_LIMIT, FULL};
use crate::repositories::{ClosesStores, Repositories};
use crate::shared::{RecordsFault, Shared};
use crate::stored::{ServedFrom, Stored};
use crate::visits::{Held, begin, log_ended};
use gevents::{Event, EventLoop, Limits, Refusal};
use gitobjects::{ObjectFiles, StoredFiles};
use gitwords::ServeArgs;
use gparts::PartPacker;
use gserver::{Host, ServedRepository};
use mio::net::TcpListener;
use std::alloc::Global;
use std::io::{ErrorKind, Write};
use std::net::{Net, SocketAddr, ToSocketAddrs};
use std::rt::{Clock, Files};
use std::{fmt, io};

/// Serves the repositories below a directory to many clients at once, and logs each connection to
/// `errors`.
pub(crate) fn serve<R, E>(rt: &R, args: &ServeArgs<'_>, errors: &mut E) -> Result<(), Fault>
where
    R: Files + Print + AllocGlobal + Clock + Net,
    E: Write,
{
    check_base(rt, args.base)?;
    let listener = match listen(rt, args.listen) {
        Ok(listener) => listener,
        Err(error) => {
            return Err(Fault::of_call(rt.alloc(), "listen at", args.listen, &error));
        }
    };
    announce(rt, &listener)?;
    let files = StoredFiles::new(rt);
    match serve_files(rt, &files, args, listener, errors) {
        Ok(()) => Ok(()),
        Err(error) => Err(Fault::of_call(rt.alloc(), "accept", "connections", &error)),
    }
}

// Serves the repositories to clients, reading objects from `files`.
fn serve_files<R, F, E>(
    rt: &R,
    files: &F,
    args: &ServeArgs<'_>,
    listener: TcpListener,
    errors: &mut E,
) -> io::Result<()>
where
    R: Files + AllocGlobal + Clock + Net,
    F: ObjectFiles,
    E: Write,
{
    let exports = Exports {
        base: args.base,
        all: args.export_all,
    };
    let stored = Stored::new(rt, files, ServedFrom::Below(exports));
    serve_disk(rt, &stored, listener, &limits_of(args), errors)
}

// Serves the repositories on a disk to clients.
fn serve_disk<R, D, E>(
    rt: &R,
    disk: &D,
    listener: TcpListener,
    limits: &Limits,
    errors: &mut E,
) -> io::Result<()>
where
    R: AllocGlobal + Clock + Net,
    D: Disk,
    E: Write,
{
    let notes = Notes::new(rt.alloc());
    let repositories = Repositories::new(rt.alloc(), disk, &notes);
    let clients = EventLoop::new(rt, rt.alloc(), listener, limits)?;
    serve_all::<R, Repositories<'_, D>, Shared<'_, D>, E>(
        rt,
        &repositories,
        &notes,
        clients,
        errors,
    )
}

// Serves clients, and stops the event loop afterwards.
fn serve_all<'h, R, H, K, E>(
    rt: &R,
    host: &'h H,
    notes: &'h Notes,
    mut clients: EventLoop<'_, Held<'h, H, K>, Global>,
    errors: &mut E,
) -> io::Result<()>
where
    R: AllocGlobal + Clock,
    H: Host<Global, K> + ClosesStores,
    K: ServedRepository<Global> + PartPacker<Global> + RecordsFault + Drop,
    E: Write,
{
    let served = serve_each(rt, host, notes, &mut clients, errors);
    clients.close();
    served
}

// Serves clients until the allowed number of connections was accepted and every connection has
// ended. Fails if no further connection can be accepted.
fn serve_each<'h, R, H, K, E>(
    rt: &R,
    host: &'h H,
    notes: &'h Notes,
    clients: &mut EventLoop<'_, Held<'h, H, K>, Global>,
    errors: &mut E,
) -> io::Result<()>
where
    R: AllocGlobal + Clock,
    H: Host<Global, K> + ClosesStores,
    K: ServedRepository<Global> + PartPacker<Global> + RecordsFault + Drop,
    E: Write,
{
    for _ in 0..u64::MAX {
        if !serve_next(rt, host, notes, clients, errors)? {
            break;
        }
    }
    Ok(())
}

// The log line for a client that exceeds the connection limit.
#[derive(Clone, Copy)]
struct RefusedLine {
    address: SocketAddr,
    text: &'static str,
}

impl fmt::Display for RefusedLine {
    fn fmt<W: fmt::Write>(&self, f: &mut fmt::Formatter<W>) -> fmt::Result {
        let RefusedLine { address, text } = self;
        write!(f, "{address} refused: {text}")
    }
}

// Handles the next event of the loop. Returns `false` if there are no more events.
fn serve_next<'h, R, H, K, E>(
    rt: &R,
    host: &'h H,
    notes: &'h Notes,
    clients: &mut EventLoop<'_, Held<'h, H, K>, Global>,
    errors: &mut E,
) -> io::Result<bool>
where
    R: AllocGlobal + Clock,
    H: Host<Global, K> + ClosesStores,
    K: ServedRepository<Global> + PartPacker<Global> + RecordsFault + Drop,
    E: Write,
{
    match clients.next(rt)? {
        Some(Event::Connected(_)) => {
            let limits = limits_beside(clients.peer_count());
            clients.begin(begin(rt.alloc(), host, notes, limits));
        }
        Some(Event::Refused(address, why)) => {
            clients.refuse(packet_of(why));
            let text = log_text_of(why);
            write_line(rt.alloc(), &RefusedLine { address, text }, errors);
        }
        Some(Event::Ended(ended)) => {
            log_ended(rt.alloc(), ended, errors);
            host.close_unused();
        }
        None => return Ok(false),
    }
    Ok(true)
}

// Returns the error packet for a client that exceeds the connection limit.
fn packet_of(why: Refusal) -> &'static [u8] {
    match why {
        Refusal::Full => FULL,
        Refusal::AddressLimit => ADDRESS_LIMIT,
    }
}

// Returns the log text for a refused client.
fn log_text_of(why: Refusal) -> &'static str {
    match why {
        Refusal::Full => "there are too many connections",
        Refusal::AddressLimit => "there are too many connections from this address",
    }
}

// Returns the limits that these arguments set.
fn limits_of(args: &ServeArgs<'_>) -> Limits {
    let mut limits = Limits::default();
    limits.accepted = args.connections;
    if let Some(most) = args.max_connections {
        limits.at_once = most as usize;
    }
    if let Some(most) = args.max_per_address {
        limits.at_once_of_address = most as usize;
    }
    limits
}

// Checks that the base directory exists.
fn check_base<R: Files + AllocGlobal>(rt: &R, base: &str) -> Result<(), Fault> {
    match rt.metadata(base) {
        Ok(metadata) if metadata.is_dir() => Ok(()),
        Ok(_) => {
            let error = io::Error::from(ErrorKind::NotADirectory);
            Err(open_fault(rt.alloc(), base, &error))
        }
        Err(error) => Err(open_fault(rt.alloc(), base, &error)),
    }
}

// Resolves `address`, a text HOST:PORT, and listens on the first usable IP address.
fn listen<R: Net>(rt: &R, address: &str) -> io::Result<TcpListener> {
    let mut last = io::Error::from(ErrorKind::AddrNotAvailable);
    for address in address.to_socket_addrs(rt)? {
        match TcpListener::bind(rt, address) {
            Ok(listener) => return Ok(listener),
            Err(error) => last = error,
        }
    }
    Err(last)
}

// Prints the port on which connections are accepted.
fn announce<R: Print + AllocGlobal>(rt: &R, listener: &TcpListener) -> Result<(), Fault> {
    match listener.local_addr() {
        Ok(address) => {
            let port = address.port();
            let line = format!(in rt.alloc(); "listening {port}\n")?;
            print(rt, line.as_bytes())
        }
        Err(error) => Err(Fault::of_call(rt.alloc(), "accept", "connections", &error)),
    }
}
