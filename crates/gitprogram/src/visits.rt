//! The connections of the server, and the log line for each.

ghost use Rattle.gtalk.specs.Talks.{no_talk};

use crate::fault::Fault;
use crate::notes::Notes;
use crate::output::write_line;
use crate::sentences::{CLIENT_LOST, CLIENT_SILENT, CLIENT_SLOW, CLIENT_STALLED, Clean, Sentence};
use crate::shared::RecordsFault;
use crate::visitor::Visitor;
use gdialogue::Dialogue;
use gevents::{End, Ended};
use ggrammar::{Ends, Limits};
use gparts::PartPacker;
use gserver::{Heard, Host, ServedRepository, ServerReply, ServerSide};
use gtalk::{Connection, Conversation};
use std::alloc::Global;
use std::io::Write;
use std::net::SocketAddr;
use std::{fmt, time};

/// The state of one connection.
pub(crate) type Held<'h, H, K> = Dialogue<
    Visitor<'h, ServerSide<'h, Global, H, K>>,
    Heard<Global>,
    ServerReply<Global, K, <K as PartPacker<Global>>::Parts>,
>;

/// Returns a new connection whose requests have these limits.
pub(crate) fn begin<'h, H, K>(
    alloc: Global,
    host: &'h H,
    notes: &'h Notes,
    limits: Limits,
) -> Held<'h, H, K>
where
    H: Host<Global, K>,
    K: ServedRepository<Global> + PartPacker<Global> + Drop,
    ensures { ⟦<Held<'h, H, K> as Conversation>⟧.holds result no_talk }
{
    let side = ServerSide::within(host, alloc, Ends::Plain, limits);
    Dialogue::new(Visitor::new(side, notes))
}

/// The outcome of a connection.
#[derive(Drop)]
pub(crate) struct Outcome {
    // The requested path, or an empty text if the client sent no path.
    path: Vec<u8>,
    // The number of requests received.
    requests: u32,
    /// The fault of the connection, or `None` if the connection ended without a fault.
    pub(crate) fault: Option<Fault>,
}

/// Returns the outcome of a connection that ended.
pub(crate) fn outcome_of<H, K>(
    alloc: Global,
    connection: Connection<Held<'_, H, K>, Global>,
    end: End,
) -> Outcome
where
    H: Host<Global, K>,
    K: ServedRepository<Global> + PartPacker<Global> + RecordsFault + Drop,
{
    let visitor = connection.into_conversation().into_side();
    let (side, path, noted) = visitor.into_parts();
    Outcome {
        path,
        requests: side.requests(),
        fault: fault_of(alloc, &side, noted, end),
    }
}

/// Writes the log line for an ended connection.
pub(crate) fn log_ended<H, K, E>(
    alloc: Global,
    ended: Ended<Held<'_, H, K>, Global>,
    errors: &mut E,
)
where
    H: Host<Global, K>,
    K: ServedRepository<Global> + PartPacker<Global> + RecordsFault + Drop,
    E: Write,
{
    let Ended {
        connection,
        address,
        end,
        sent,
        took,
        ..
    } = ended;
    let line = Line {
        address,
        outcome: &outcome_of(alloc, connection, end),
        bytes: sent,
        took,
    };
    write_line(alloc, &line, errors);
}

// Returns the fault of a failed connection, or `None` if the connection ended without a fault. If
// the connection recorded the fault `noted` for its log line, returns this fault.
fn fault_of<H, K: RecordsFault>(
    alloc: Global,
    side: &ServerSide<'_, Global, H, K>,
    noted: Option<Fault>,
    end: End,
) -> Option<Fault> {
    if noted.is_some() {
        return noted;
    }
    if let Some(fault) = fault_of_side(alloc, side) {
        return Some(fault);
    }
    let text = match end {
        End::Over => return None,
        End::Silent => CLIENT_SILENT,
        End::Stalled => CLIENT_STALLED,
        End::Overdue => CLIENT_SLOW,
        End::Lost => CLIENT_LOST,
        End::Memory => return Some(Fault::Memory),
    };
    Some(Fault::of(alloc, Sentence::Text(text)))
}

// Returns the recorded fault of the repository, or the fault of a refused request if the repository
// recorded none. Returns `None` if neither fault exists.
fn fault_of_side<H, K: RecordsFault>(
    alloc: Global,
    side: &ServerSide<'_, Global, H, K>,
) -> Option<Fault> {
    if let Some(repo) = side.repo() {
        if let Some(fault) = repo.take_fault() {
            return Some(fault);
        }
    }
    let fault = side.fault()?;
    Some(Fault::of(alloc, Sentence::Request(fault)))
}

// The log line for a connection.
#[derive(Clone, Copy)]
struct Line<'o> {
    address: SocketAddr,
    outcome: &'o Outcome,
    // The number of bytes sent.
    bytes: u64,
    // The duration of the connection.
    took: time::Duration,
}

impl fmt::Display for Line<'_> {
    fn fmt<W: fmt::Write>(&self, f: &mut fmt::Formatter<W>) -> fmt::Result {
        let address = self.address;
        let path = Clean(path_shown(self.outcome.path.as_slice()));
        write!(f, "{address} {path} ")?;
        self.write_counts(f)?;
        match &self.outcome.fault {
            None => Ok(()),
            Some(fault) => write!(f, ": {fault}"),
        }
    }
}

impl Line<'_> {
    // Writes the numbers of requests and bytes, and the duration.
    fn write_counts<W: fmt::Write>(&self, f: &mut fmt::Formatter<W>) -> fmt::Result {
        let requests = self.outcome.requests;
        let bytes = self.bytes;
        let seconds = self.took.as_secs();
        let milliseconds = self.took.subsec_millis();
        write!(
            f,
            "{requests} requests {bytes} bytes {seconds}.{milliseconds:03} s"
        )
    }
}

fn path_shown(path: &[u8]) -> &[u8] {
    if path.is_empty() { b"-" } else { path }
}
