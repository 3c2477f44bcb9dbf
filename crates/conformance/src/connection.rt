//! Runs of the server and the clients of `gtcp` on connections of any type.

use case_runs::{
    CommandRun, DeviceLimits, IndexerCheck, RunOutcome, Writer, conclude_fetch, conclude_listing,
    end_with_fault, outcome_without_file, pack_limit_of, parse_client, parse_prefixes,
    parse_server, parse_specs,
};
use case_text::{Program, RefusingAllocator, Trouble, split_words};
use case_tries::Row;
use gclient::{FetchFault, Fetched, Repo};
use gcmd::{ProgramFault, Spec, finish};
use ggraph::PlainPack;
use glsreply::LsReply;
use gname::Prefix;
use gtcp::{Server, fetch_on, ls_on, serve_listener};
use std::alloc::{Allocator, Global};
use std::io::{Read, Write};
use std::net::{OpenListener, OpenStream};
use std::time::Clock;

/// The result of a run on connections, and the lines that the run printed.
#[derive(Drop)]
pub struct ConnectionRun {
    pub run_outcome: RunOutcome,
    pub report: Writer,
    pub errors: Writer,
}

// The lines that a run prints: its report and its faults.
#[derive(Drop)]
struct PrintedLines {
    report: Writer,
    errors: Writer,
}

/// The listener of a run, the number of connections to serve, and the clock that measures the
/// deadlines. A client uses only the first connection.
#[derive(Drop)]
pub struct Endpoint<'c, C, L> {
    pub clock: &'c C,
    pub listener: L,
    pub connections: u32,
}

/// Runs a row on connections, and refuses the allocation with the number `refused_allocation`. The
/// count of allocations begins at the first call to `gtcp`.
pub fn run_row_on_connections<C, L, S>(
    alloc: Global,
    row: &Row<'_>,
    refused_allocation: u64,
    endpoint: Endpoint<'_, C, L>,
) -> Result<ConnectionRun, Trouble>
where
    C: Clock,
    L: OpenListener<Stream = S> + Drop,
    S: Read + Write + OpenStream + Drop,
{
    let tested_alloc = RefusingAllocator::new(alloc);
    let indexer_check = IndexerCheck::new();
    let run = CommandRun {
        alloc,
        tested_alloc: &tested_alloc,
        refusing_alloc: &tested_alloc,
        indexer_check: &indexer_check,
        command: row.command,
        repository_text: row.repository_text,
        input: row.conversation.input.as_slice(),
        refused_allocation,
    };
    run_on_connections(&run, endpoint)
}

// Runs a command on connections, and refuses the allocation `run.refused_allocation`.
fn run_on_connections<A, C, L, S>(
    run: &CommandRun<'_, '_, '_, A>,
    endpoint: Endpoint<'_, C, L>,
) -> Result<ConnectionRun, Trouble>
where
    A: Allocator + Copy,
    C: Clock,
    L: OpenListener<Stream = S> + Drop,
    S: Read + Write + OpenStream + Drop,
{
    let mut printed = PrintedLines {
        report: Writer::new(run.alloc, DeviceLimits::NONE),
        errors: Writer::new(run.alloc, DeviceLimits::NONE),
    };
    let run_outcome = run_command(run, endpoint, &mut printed)?;
    let PrintedLines { report, errors } = printed;
    Ok(ConnectionRun {
        run_outcome,
        report,
        errors,
    })
}

fn run_command<A, C, L, S>(
    run: &CommandRun<'_, '_, '_, A>,
    endpoint: Endpoint<'_, C, L>,
    printed: &mut PrintedLines,
) -> Result<RunOutcome, Trouble>
where
    A: Allocator + Copy,
    C: Clock,
    L: OpenListener<Stream = S> + Drop,
    S: Read + Write + OpenStream + Drop,
{
    match run.command.program {
        Program::Serve => serve_connections(run, endpoint, printed),
        Program::Fetch => fetch_on_connection(run, &endpoint.listener, printed),
        _ => list_on_connection(run, &endpoint.listener, printed),
    }
}

fn serve_connections<A, C, L, S>(
    run: &CommandRun<'_, '_, '_, A>,
    endpoint: Endpoint<'_, C, L>,
    printed: &mut PrintedLines,
) -> Result<RunOutcome, Trouble>
where
    A: Allocator + Copy,
    C: Clock,
    L: OpenListener<Stream = S> + Drop,
    S: Read + Write + OpenStream + Drop,
{
    match parse_server(run.tested_alloc, run.repository_text) {
        Ok(server) => serve_with_server(run, &server, endpoint, printed),
        Err(_) => Err(Trouble::InvalidGraph),
    }
}

// Serves all connections, and prints their faults. The status is 1 if any fault is printed.
fn serve_with_server<A, C, L, S>(
    run: &CommandRun<'_, '_, '_, A>,
    server: &Server<A>,
    endpoint: Endpoint<'_, C, L>,
    printed: &mut PrintedLines,
) -> Result<RunOutcome, Trouble>
where
    A: Allocator + Copy,
    C: Clock,
    L: OpenListener<Stream = S> + Drop,
    S: Read + Write + OpenStream + Drop,
{
    run.refusing_alloc.refuse_allocation(run.refused_allocation);
    if accept_connections(run, server, endpoint, &mut printed.errors).is_err() {
        return Err(Trouble::TestIo);
    }
    let has_fault = !printed.errors.written_bytes().is_empty();
    Ok(outcome_without_file(run, has_fault as u8))
}

fn accept_connections<A, C, L, S>(
    run: &CommandRun<'_, '_, '_, A>,
    server: &Server<A>,
    endpoint: Endpoint<'_, C, L>,
    errors: &mut Writer,
) -> Result<(), ProgramFault<A>>
where
    A: Allocator + Copy,
    C: Clock,
    L: OpenListener<Stream = S> + Drop,
    S: Read + Write + OpenStream + Drop,
{
    serve_listener(
        endpoint.clock,
        server,
        &PlainPack,
        endpoint.listener,
        run.command.path.as_bytes(),
        endpoint.connections,
        run.command.reply_ends,
        errors,
    )
}

fn fetch_on_connection<A, L, S>(
    run: &CommandRun<'_, '_, '_, A>,
    listener: &L,
    printed: &mut PrintedLines,
) -> Result<RunOutcome, Trouble>
where
    A: Allocator + Copy,
    L: OpenListener<Stream = S>,
    S: Read + Write + OpenStream + Drop,
{
    let arguments = split_words(run.tested_alloc, run.command.operands)?;
    match parse_specs(run.tested_alloc, arguments.as_slice()) {
        Ok(specs) => fetch_specs(run, specs.as_slice(), listener, printed),
        Err(fault) => Ok(end_with_fault(run, fault, &mut printed.errors)),
    }
}

fn fetch_specs<A, L, S>(
    run: &CommandRun<'_, '_, '_, A>,
    specs: &[Spec<A>],
    listener: &L,
    printed: &mut PrintedLines,
) -> Result<RunOutcome, Trouble>
where
    A: Allocator + Copy,
    L: OpenListener<Stream = S>,
    S: Read + Write + OpenStream + Drop,
{
    match parse_client(run.tested_alloc, run.repository_text) {
        Ok(mut repo) => {
            let (stream, _) = listener.accept()?;
            run.refusing_alloc.refuse_allocation(run.refused_allocation);
            let fetched = fetch_over_stream(run, &mut repo, specs, stream);
            conclude_fetch(
                run,
                &repo,
                fetched,
                &mut printed.report,
                &mut printed.errors,
            )
        }
        Err(_) => Err(Trouble::InvalidGraph),
    }
}

fn fetch_over_stream<A, S>(
    run: &CommandRun<'_, '_, '_, A>,
    repo: &mut Repo<A>,
    specs: &[Spec<A>],
    stream: S,
) -> Result<Fetched<A>, FetchFault<A>>
where
    A: Allocator + Copy,
    S: Read + Write + OpenStream + Drop,
{
    fetch_on(
        stream,
        run.command.host.as_bytes(),
        run.command.path.as_bytes(),
        repo,
        &PlainPack,
        specs,
        pack_limit_of(run.command.pack_limit),
        run.command.reply_ends,
    )
}

fn list_on_connection<A, L, S>(
    run: &CommandRun<'_, '_, '_, A>,
    listener: &L,
    printed: &mut PrintedLines,
) -> Result<RunOutcome, Trouble>
where
    A: Allocator + Copy,
    L: OpenListener<Stream = S>,
    S: Read + Write + OpenStream + Drop,
{
    let arguments = split_words(run.tested_alloc, run.command.operands)?;
    match parse_prefixes(run, arguments.as_slice()) {
        Ok(prefixes) => {
            let (stream, _) = listener.accept()?;
            run.refusing_alloc.refuse_allocation(run.refused_allocation);
            let reply = list_over_stream(run, prefixes.as_slice(), stream);
            let outcome = conclude_listing(run, reply, &mut printed.report);
            Ok(outcome_without_file(run, finish(outcome, &mut printed.errors)))
        }
        Err(fault) => Ok(end_with_fault(run, fault, &mut printed.errors)),
    }
}

fn list_over_stream<A, S>(
    run: &CommandRun<'_, '_, '_, A>,
    prefixes: &[Prefix<A>],
    stream: S,
) -> Result<LsReply<A>, FetchFault<A>>
where
    A: Allocator + Copy,
    S: Read + Write + OpenStream + Drop,
{
    let host = run.command.host.as_bytes();
    let path = run.command.path.as_bytes();
    ls_on(run.tested_alloc, stream, host, path, prefixes)
}
