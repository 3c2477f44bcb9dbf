//! Tests of deadlines, on connections with a late peer and a simulated clock.
//!
//! The constants of this module repeat the deadlines of `gtcp`. A function with the result
//! `Option<usize>` returns the index of the first late byte in the first failed run. The index is 0
//! for a failed run with a faulty clock or with two silent clients. For a client that stops
//! accepting output, the result is the number of bytes that the client accepts. The result is
//! `None` if no run failed.

use crate::connection::{ConnectionRun, Endpoint, run_row_on_connections};
use crate::late_peer::{ClockBehavior, LateConnection, LateListener, PeerBehavior, SimulatedClock};
use case_runs::Writer;
use case_text::{Program, Trouble};
use case_tries::{
    InputStop, Row, RunResults, is_as_expected, is_as_expected_after_failed_write,
    is_as_expected_after_input_stop, keeps_repository,
};
use std::alloc::Global;
use std::time::Duration;

/// The seconds that a server waits for the first line of a client.
const FIRST_LINE_SECONDS: u64 = 10;

/// The seconds that a server waits for each request.
const REQUEST_SECONDS: u64 = 60;

/// The seconds that a client waits for bytes, and that a server waits for a client to accept bytes.
const SILENCE_SECONDS: u64 = 60;

/// The maximum number of seconds until a server answers a prompt client after two silent clients.
const ANSWER_SECONDS: u64 = 25;

/// The tested delays in milliseconds. A slow peer waits for one of these delays before every byte.
/// With some of these delays, a first line or a request is complete before its deadline. With the
/// other delays, the first line or the request is too late. The last delay equals
/// `SILENCE_SECONDS`, and the previous delay is one millisecond shorter.
const DELAYS: [u64; 8] = [100, 240, 250, 400, 900, 6_000, 59_999, 60_000];

// The expected timing of a connection.
#[derive(Clone, Copy)]
struct ExpectedTiming {
    // The index of the first byte that arrives too late, if any.
    first_late_byte: Option<usize>,
    // The expected duration of the connection.
    time: Duration,
}

/// Tests a row that has the keyword `late` with late peers. Each peer becomes silent before some
/// byte, or slow at the beginning of some message. A client may also stop accepting bytes. After a
/// late client, a server must serve the next client. Counts the runs in `runs`. The description of
/// this module states which index the function returns.
pub fn first_failure(
    alloc: Global,
    row: &Row<'_>,
    runs: &mut u64,
) -> Result<Option<usize>, Trouble> {
    if !row.is_late || !row.command.has_hello() {
        return Ok(None);
    }
    let mut failure = first_failure_when_silent(alloc, row, runs)?;
    if failure.is_none() {
        failure = first_failure_when_slow(alloc, row, runs)?;
    }
    if failure.is_none() && row.command.program == Program::Serve {
        failure = first_server_failure(alloc, row, runs)?;
    }
    Ok(failure)
}

// Tests the row with peers that become silent before the first, second or sixth byte of a packet.
fn first_failure_when_silent(
    alloc: Global,
    row: &Row<'_>,
    runs: &mut u64,
) -> Result<Option<usize>, Trouble> {
    for packet_start in row.conversation.packet_starts.as_slice() {
        for offset_in_packet in [0usize, 1, 5] {
            let silent_from = packet_start.start.saturating_add(offset_in_packet);
            if silent_from < row.conversation.input.len()
                && !is_as_expected_when_silent(alloc, row, silent_from, runs)?
            {
                return Ok(Some(silent_from));
            }
        }
    }
    Ok(None)
}

fn is_as_expected_when_silent(
    alloc: Global,
    row: &Row<'_>,
    silent_from: usize,
    runs: &mut u64,
) -> Result<bool, Trouble> {
    let mut behavior = PeerBehavior::PROMPT;
    behavior.silent_from = silent_from;
    is_as_expected_when_late(alloc, row, behavior, runs)
}

// Tests the row with peers that become slow at the beginning of a message.
fn first_failure_when_slow(
    alloc: Global,
    row: &Row<'_>,
    runs: &mut u64,
) -> Result<Option<usize>, Trouble> {
    for slow_from in 0..row.conversation.input.len() {
        if row.conversation.message_at(slow_from).is_some()
            && !is_as_expected_when_slow(alloc, row, slow_from, runs)?
        {
            return Ok(Some(slow_from));
        }
    }
    Ok(None)
}

fn is_as_expected_when_slow(
    alloc: Global,
    row: &Row<'_>,
    slow_from: usize,
    runs: &mut u64,
) -> Result<bool, Trouble> {
    for delay in DELAYS {
        let mut behavior = PeerBehavior::PROMPT;
        behavior.slow_from = slow_from;
        behavior.delay = Duration::from_millis(delay);
        if !is_as_expected_when_late(alloc, row, behavior, runs)? {
            return Ok(false);
        }
    }
    Ok(true)
}

// Tests a server with clients that stop accepting output at the end of a message, or one byte
// before that end.
fn first_failure_when_full(
    alloc: Global,
    row: &Row<'_>,
    runs: &mut u64,
) -> Result<Option<usize>, Trouble> {
    for end in row.conversation.message_ends.as_slice() {
        for unaccepted_len in [0usize, 1] {
            let max_accepted = end.saturating_sub(unaccepted_len);
            *runs = runs.saturating_add(1);
            if max_accepted < row.conversation.output.len()
                && !drops_client_that_stops_reading(alloc, row, max_accepted)?
            {
                return Ok(Some(max_accepted));
            }
        }
    }
    Ok(None)
}

// Tests a server with clients that stop accepting bytes, with faulty clocks, and with two silent
// clients.
fn first_server_failure(
    alloc: Global,
    row: &Row<'_>,
    runs: &mut u64,
) -> Result<Option<usize>, Trouble> {
    let failure = first_failure_when_full(alloc, row, runs)?;
    if failure.is_some() {
        return Ok(failure);
    }
    for clock_behavior in [ClockBehavior::Fails, ClockBehavior::GoesBack] {
        *runs = runs.saturating_add(1);
        if !fails_with_faulty_clock(alloc, row, clock_behavior)? {
            return Ok(Some(0));
        }
    }
    *runs = runs.saturating_add(1);
    let is_right = answers_after_two_silent_clients(alloc, row)?;
    Ok(if is_right { None } else { Some(0) })
}

// Returns whether a connection with a peer of this behavior has the expected results. After a late
// client, a server must serve the next client.
fn is_as_expected_when_late(
    alloc: Global,
    row: &Row<'_>,
    behavior: PeerBehavior,
    runs: &mut u64,
) -> Result<bool, Trouble> {
    *runs = runs.saturating_add(1);
    let expected = expected_timing(row, behavior);
    let results = run_on_connections(
        alloc,
        row,
        &[behavior, PeerBehavior::PROMPT],
        ClockBehavior::Steady,
    )?;
    let is_right = match expected.first_late_byte {
        Some(index) => is_as_expected_after_input_stop(
            alloc,
            row,
            &results.first,
            index,
            InputStop::ReadFailure,
        )?,
        None => is_as_expected(row, &results.first),
    };
    let is_next_served = row.command.program != Program::Serve || results.is_last_served;
    Ok(
        is_right
            && is_next_served
            && results.time == expected.time
            && keeps_repository(alloc, row, &results.first),
    )
}

// Returns the index of the first byte that arrives too late, and the expected duration. A byte is
// too late if the deadline for its message or the limit on silence has passed.
fn expected_timing(row: &Row<'_>, behavior: PeerBehavior) -> ExpectedTiming {
    let mut time = Duration::ZERO;
    let mut remaining = Duration::from_secs(SILENCE_SECONDS);
    for index in 0..row.conversation.input.len() {
        remaining = time_limit(row, index, remaining);
        match behavior.delay_before(index) {
            Some(delay) if delay < remaining => {
                time = time.saturating_add(delay);
                remaining = remaining.saturating_sub(delay);
            }
            _ => return ExpectedTiming {
                first_late_byte: Some(index),
                time: time.saturating_add(remaining),
            },
        }
    }
    ExpectedTiming {
        first_late_byte: None,
        time,
    }
}

// Returns the time within which the peer must send this byte. `remaining` is the time that is left
// for the message.
fn time_limit(row: &Row<'_>, index: usize, remaining: Duration) -> Duration {
    if row.command.program != Program::Serve {
        Duration::from_secs(SILENCE_SECONDS)
    } else if index == 0 {
        Duration::from_secs(FIRST_LINE_SECONDS)
    } else if row.conversation.message_at(index).is_some() {
        Duration::from_secs(REQUEST_SECONDS)
    } else {
        remaining
    }
}

// Returns whether a server drops a client that stops accepting output after `max_accepted` bytes.
fn drops_client_that_stops_reading(
    alloc: Global,
    row: &Row<'_>,
    max_accepted: usize,
) -> Result<bool, Trouble> {
    let mut behavior = PeerBehavior::PROMPT;
    behavior.max_accepted = max_accepted;
    let results = run_on_connections(
        alloc,
        row,
        &[behavior, PeerBehavior::PROMPT],
        ClockBehavior::Steady,
    )?;
    let is_in_time = results.time == Duration::from_secs(SILENCE_SECONDS);
    Ok(
        is_as_expected_after_failed_write(row, &results.first)
            && results.is_last_served
            && is_in_time,
    )
}

// Returns whether a server reads no bytes from its client if the clock fails or goes back.
fn fails_with_faulty_clock(
    alloc: Global,
    row: &Row<'_>,
    clock_behavior: ClockBehavior,
) -> Result<bool, Trouble> {
    let results = run_on_connections(alloc, row, &[PeerBehavior::PROMPT], clock_behavior)?;
    is_as_expected_after_input_stop(alloc, row, &results.first, 0, InputStop::ReadFailure)
}

// Returns whether a server answers a prompt client in time after two silent clients.
fn answers_after_two_silent_clients(alloc: Global, row: &Row<'_>) -> Result<bool, Trouble> {
    let mut silent_peer = PeerBehavior::PROMPT;
    silent_peer.silent_from = 0;
    let results = run_on_connections(
        alloc,
        row,
        &[silent_peer, silent_peer, PeerBehavior::PROMPT],
        ClockBehavior::Steady,
    )?;
    Ok(results.is_last_served && results.time <= Duration::from_secs(ANSWER_SECONDS))
}

// The results of running a row on one or more connections.
#[derive(Drop)]
struct ConnectionResults {
    // The output of the first connection, and the printed lines of all connections.
    first: RunResults,
    // Whether the last connection had the row's expected output.
    is_last_served: bool,
    time: Duration,
}

// Runs the row on one connection for each behavior, with a peer of that behavior. A client uses
// only the first connection.
fn run_on_connections(
    alloc: Global,
    row: &Row<'_>,
    behaviors: &[PeerBehavior],
    clock_behavior: ClockBehavior,
) -> Result<ConnectionResults, Trouble> {
    let Ok(connections) = u32::try_from(behaviors.len()) else {
        return Err(Trouble::TestIo);
    };
    let late_connections = connections_to_peers(alloc, row, behaviors)?;
    let clock = SimulatedClock::new(clock_behavior);
    let endpoint = Endpoint {
        clock: &clock,
        listener: LateListener::new(&clock, late_connections.as_slice()),
        connections,
    };
    let connection_run = run_row_on_connections(alloc, row, 0, endpoint)?;
    connection_results(
        alloc,
        row,
        connection_run,
        &late_connections,
        clock.time_passed(),
    )
}

// Returns a connection to a peer of each behavior.
fn connections_to_peers<'r>(
    alloc: Global,
    row: &'r Row<'_>,
    behaviors: &[PeerBehavior],
) -> Result<Vec<LateConnection<'r>>, Trouble> {
    let mut late_connections = Vec::new(alloc);
    for behavior in behaviors {
        late_connections.push(LateConnection::new(alloc, &row.conversation, *behavior))?;
    }
    Ok(late_connections)
}

fn connection_results(
    alloc: Global,
    row: &Row<'_>,
    connection_run: ConnectionRun,
    late_connections: &[LateConnection<'_>],
    time: Duration,
) -> Result<ConnectionResults, Trouble> {
    let is_last_served = is_served(alloc, row, late_connections.last())?;
    let output = accepted_by_peer(alloc, late_connections.first())?;
    let ConnectionRun {
        run_outcome,
        report,
        errors,
    } = connection_run;
    Ok(ConnectionResults {
        first: RunResults::on_connection(run_outcome, output, report, errors),
        is_last_served,
        time,
    })
}

// Returns whether the peer of a connection accepted exactly the row's expected output.
fn is_served(
    alloc: Global,
    row: &Row<'_>,
    connection: Option<&LateConnection<'_>>,
) -> Result<bool, Trouble> {
    let accepted = accepted_by_peer(alloc, connection)?;
    Ok(accepted.written_bytes() == row.conversation.output.as_slice())
}

// Returns the bytes that the peer of a connection accepted.
fn accepted_by_peer(
    alloc: Global,
    connection: Option<&LateConnection<'_>>,
) -> Result<Writer, Trouble> {
    match connection {
        Some(connection) => connection.accepted_bytes(alloc),
        None => Err(Trouble::TestIo),
    }
}
