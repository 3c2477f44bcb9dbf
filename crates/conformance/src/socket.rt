//! Tests over a socket in one process. `gtcp` is at one end, and a peer that sends the messages of
//! a case is at the other end.

use crate::connection::{Endpoint, run_row_on_connections};
use crate::peer::{Pace, Peer, TurnListener};
use case_runs::Writer;
use case_text::{Program, Trouble};
use case_tries::{Row, RunResults, is_as_expected, is_as_expected_after_refusal, keeps_repository};
use std::alloc::Global;
use std::net::{Net, TcpListener, TcpStream};
use std::time::Clock;

/// The maximum number of bytes that a test writes to a socket before the other end reads them.
const MAX_SOCKET_BYTES: usize = 16_384;

/// An upper bound on the number of allocations of a run.
const MAX_RUNS: u64 = 1_000_000;

// The parameters of a run over a socket: the pace of the two ends, and the allocation to refuse.
#[derive(Clone, Copy)]
struct SocketRunParameters {
    pace: Pace,
    refused_allocation: u64,
}

/// Tests a row over a socket. The peer sends all its messages at once, in turns, or one byte at a
/// time. A row that has the keyword `late` is also tested with each allocation refused. Counts the
/// runs in `runs`, and returns the number of the first run that failed, if any.
pub fn first_failure<R>(
    rt: &R,
    alloc: Global,
    row: &Row<'_>,
    runs: &mut u64,
) -> Result<Option<usize>, Trouble>
where
    R: Net<Stream = TcpStream, Listener = TcpListener> + Clock,
{
    for (number, pace) in Pace::ALL.iter().enumerate() {
        if !applies_to_row(row, *pace) {
            continue;
        }
        let parameters = SocketRunParameters {
            pace: *pace,
            refused_allocation: 0,
        };
        *runs = runs.saturating_add(1);
        let results = run_over_socket(rt, alloc, row, parameters)?;
        if !is_as_expected(row, &results) || !keeps_repository(alloc, row, &results) {
            return Ok(Some(number));
        }
    }
    if row.is_late {
        return first_failure_with_refusals(rt, alloc, row, runs);
    }
    Ok(None)
}

// Returns whether the row is tested at this pace. The row must have a first line and short
// messages, and must not name a packer or an indexer. At the pace `AtOnce`, clients that fail are
// skipped, because their unread input would reset the connection.
fn applies_to_row(row: &Row<'_>, pace: Pace) -> bool {
    let command = row.command;
    let fits = row.conversation.input.len() <= MAX_SOCKET_BYTES
        && row.conversation.output.len() <= MAX_SOCKET_BYTES;
    let ends_well = command.program == Program::Serve || row.conversation.errors.is_empty();
    command.has_hello()
        && command.pack_tool.is_none()
        && fits
        && (ends_well || pace != Pace::AtOnce)
}

// Tests a row at the pace `Turns`. The first run refuses the first allocation, the second run the
// second, and so on. Returns the number of the first run that failed, if any.
fn first_failure_with_refusals<R>(
    rt: &R,
    alloc: Global,
    row: &Row<'_>,
    runs: &mut u64,
) -> Result<Option<usize>, Trouble>
where
    R: Net<Stream = TcpStream, Listener = TcpListener> + Clock,
{
    for refused_allocation in 1..MAX_RUNS {
        let parameters = SocketRunParameters {
            pace: Pace::Turns,
            refused_allocation,
        };
        *runs = runs.saturating_add(1);
        let results = run_over_socket(rt, alloc, row, parameters)?;
        if !is_as_expected_after_refusal(row, &results) || !keeps_repository(alloc, row, &results) {
            return Ok(Some(refused_allocation as usize));
        }
        if !results.was_refused() {
            break;
        }
    }
    Ok(None)
}

// Runs the row over a socket.
fn run_over_socket<R>(
    rt: &R,
    alloc: Global,
    row: &Row<'_>,
    parameters: SocketRunParameters,
) -> Result<RunResults, Trouble>
where
    R: Net<Stream = TcpStream, Listener = TcpListener> + Clock,
{
    let listener = TcpListener::bind(rt, "127.0.0.1:0")?;
    let peer = Peer::new(rt, alloc, &row.conversation, parameters.pace, &listener)?;
    let endpoint = Endpoint {
        clock: rt,
        listener: TurnListener::new(listener, &peer),
        connections: 1,
    };
    let connection_run = run_row_on_connections(
        alloc,
        row,
        parameters.refused_allocation,
        endpoint,
    )?;
    let output = received_output(alloc, row, peer)?;
    Ok(RunResults::on_connection(
        connection_run.run_outcome,
        output,
        connection_run.report,
        connection_run.errors,
    ))
}

// Returns the bytes that the peer read. The bytes count as not flushed if the ends did not take
// turns, or if a server closed the connection with an error.
fn received_output(alloc: Global, row: &Row<'_>, peer: Peer<'_>) -> Result<Writer, Trouble> {
    peer.receive_all()?;
    let is_closed = row.command.program != Program::Serve || peer.is_closed();
    let is_flushed = is_closed && peer.kept_turns();
    let bytes = peer.into_received();
    Ok(Writer::with_bytes(alloc, bytes.as_slice(), is_flushed)?)
}
