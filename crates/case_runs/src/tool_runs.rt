//! Runs with a packer or an indexer other than `PlainPack`. The commands of `gcmd` use `PlainPack`
//! only, so this module replaces them. The result of a fetch in this module can also hold the final
//! text of the client's repository.

use crate::checked_tool::CheckedTool;
use crate::inputs::{parse_client, parse_server};
use crate::network_commands::{make_hello, result_of_served, serve_connection};
use crate::program::{CommandRun, Devices, RunOutcome, outcome_without_file, pack_limit_of};
use crate::report::format_report;
use case_text::{PackTool, Program, Trouble};
use gclient::{FetchFault, Fetched, GitFetch, PackOptions, Repo, fetch_git, fetch_over};
use gcmd::{ProgramFault, Spec, StreamLimit, cmd_failed, finish, send_text};
use ggraph::{Head, Indexer, KeepsNothing, SaveFault, save};
use gpkt::{Sink, Source};
use gserve::{ExchangeEnd, OnePack, serve, serve_one};
use std::alloc::Allocator;

/// Serves one request or a connection from the run's repository. Returns the exit status.
pub(crate) fn serve_with_tool<A: Allocator + Copy, I: Source, O: Sink, R: Sink, E: Sink>(
    run: &CommandRun<'_, '_, '_, A>,
    pack_tool: PackTool,
    devices: &mut Devices<I, O, R, E>,
) -> u8 {
    let packer = make_checked_tool(run, pack_tool);
    if run.command.program == Program::Serve {
        return serve_connection(run, &packer, devices);
    }
    let outcome = if run.command.program == Program::Upload {
        serve_all_requests(run, &packer, &mut devices.input, &mut devices.output)
    } else {
        serve_one_request(run, &packer, &mut devices.input, &mut devices.output)
    };
    finish(outcome, &mut devices.errors)
}

/// Returns the packer or the indexer of a run. The calls to the indexer are checked.
pub(crate) fn make_checked_tool<'i, 'm, A: Allocator + Copy>(
    run: &CommandRun<'_, 'i, 'm, A>,
    pack_tool: PackTool,
) -> CheckedTool<'i, 'm> {
    CheckedTool {
        pack_tool,
        format: run.command.format,
        input: run.input,
        indexer_check: run.indexer_check,
    }
}

fn serve_all_requests<A: Allocator + Copy, I: Source, O: Sink>(
    run: &CommandRun<'_, '_, '_, A>,
    packer: &CheckedTool<'_, '_>,
    input: &mut I,
    output: &mut O,
) -> Result<(), ProgramFault<A>> {
    let server = parse_server(run.tested_alloc, run.repository_text)?;
    let mut packer = OnePack::new(packer);
    result_of_served(serve(&server, &mut packer, run.command.reply_ends, input, output))
}

fn serve_one_request<A: Allocator + Copy, I: Source, O: Sink>(
    run: &CommandRun<'_, '_, '_, A>,
    packer: &CheckedTool<'_, '_>,
    input: &mut I,
    output: &mut O,
) -> Result<(), ProgramFault<A>> {
    let server = parse_server(run.tested_alloc, run.repository_text)?;
    let mut packer = OnePack::new(packer);
    result_of_exchange(serve_one(&server, &mut packer, run.command.reply_ends, input, output))
}

fn result_of_exchange<A: Allocator + Copy>(
    exchange_end: ExchangeEnd,
) -> Result<(), ProgramFault<A>> {
    match exchange_end {
        ExchangeEnd::Answered | ExchangeEnd::Closed | ExchangeEnd::Ended => Ok(()),
        ExchangeEnd::Refused(fault) => Err(ProgramFault::Request(fault)),
        ExchangeEnd::WriteFailed => Err(ProgramFault::WriteFailed),
    }
}

/// Fetches into the run's repository, and returns the result.
pub(crate) fn fetch_with_indexer<A: Allocator + Copy, K, I: Source, O: Sink, R: Sink, E: Sink>(
    run: &CommandRun<'_, '_, '_, A>,
    indexer: &K,
    specs: &[Spec<A>],
    devices: &mut Devices<I, O, R, E>,
) -> Result<RunOutcome, Trouble>
where
    K: Indexer<A>,
{
    match parse_client(run.tested_alloc, run.repository_text) {
        Ok(mut repo) => fetch_into(run, &mut repo, indexer, specs, devices),
        Err(fault) => Ok(end_with_fault(run, fault, &mut devices.errors)),
    }
}

fn fetch_into<A: Allocator + Copy, K, I: Source, O: Sink, R: Sink, E: Sink>(
    run: &CommandRun<'_, '_, '_, A>,
    repo: &mut Repo<A>,
    indexer: &K,
    specs: &[Spec<A>],
    devices: &mut Devices<I, O, R, E>,
) -> Result<RunOutcome, Trouble>
where
    K: Indexer<A>,
{
    let fetched = fetch_over_devices(
        run,
        repo,
        indexer,
        specs,
        (&mut devices.input, &mut devices.output),
    );
    conclude_fetch(
        run,
        &*repo,
        fetched,
        &mut devices.report,
        &mut devices.errors,
    )
}

/// Ends a fetch as the program does. Returns the new text of the file and writes the report, or
/// prints the fault.
pub fn conclude_fetch<A: Allocator + Copy, R: Sink, E: Sink>(
    run: &CommandRun<'_, '_, '_, A>,
    repo: &Repo<A>,
    fetched: Result<Fetched<A>, FetchFault<A>>,
    report: &mut R,
    errors: &mut E,
) -> Result<RunOutcome, Trouble> {
    match fetched {
        Ok(fetched) => conclude_settled_fetch(run, repo, &fetched, report, errors),
        Err(fault) => conclude_failed_fetch(run, repo, fault, errors),
    }
}

// Fetches over a source and a sink. If the command names a path, the client first sends the first
// line of the connection.
fn fetch_over_devices<A: Allocator + Copy, K: Indexer<A>, I: Source, O: Sink>(
    run: &CommandRun<'_, '_, '_, A>,
    repo: &mut Repo<A>,
    indexer: &K,
    specs: &[Spec<A>],
    (input, output): (&mut I, &mut O),
) -> Result<Fetched<A>, FetchFault<A>> {
    let limit = pack_limit_of(run.command.pack_limit);
    let ends = run.command.reply_ends;
    if !run.command.has_hello() {
        return fetch_over(repo, input, output, indexer, specs, limit, ends);
    }
    let hello = make_hello(run)?;
    let fetch = GitFetch {
        hello: &hello,
        specs,
        limit: StreamLimit::from(limit),
        ends,
        options: PackOptions::default(),
    };
    fetch_git(repo, input, output, &mut KeepsNothing::new(indexer), &fetch)
}

/// Prints a fault, and returns the result of the run.
pub fn end_with_fault<A: Allocator + Copy, E: Sink>(
    run: &CommandRun<'_, '_, '_, A>,
    fault: ProgramFault<A>,
    errors: &mut E,
) -> RunOutcome {
    let status = cmd_failed(fault, errors);
    outcome_without_file(run, status)
}

// Ends a failed fetch. The file is unchanged, and the result holds the current text of the
// repository.
fn conclude_failed_fetch<A: Allocator + Copy, E: Sink>(
    run: &CommandRun<'_, '_, '_, A>,
    repo: &Repo<A>,
    fault: FetchFault<A>,
    errors: &mut E,
) -> Result<RunOutcome, Trouble> {
    let mut run_outcome = end_with_fault(run, ProgramFault::Fetch(fault), errors);
    run_outcome.final_repository_text = Some(final_repository_text(run, repo)?);
    Ok(run_outcome)
}

// Ends a fetch that has updated the refs: returns the new text of the file, and writes the report.
// If memory runs out before the text is complete, the refs in memory are updated but the file is
// unchanged.
fn conclude_settled_fetch<A: Allocator + Copy, R: Sink, E: Sink>(
    run: &CommandRun<'_, '_, '_, A>,
    repo: &Repo<A>,
    fetched: &Fetched<A>,
    report: &mut R,
    errors: &mut E,
) -> Result<RunOutcome, Trouble> {
    match save_repository(run.tested_alloc, repo) {
        Ok(text) => {
            let status = write_report(run, fetched, report, errors)?;
            let mut run_outcome = outcome_without_file(run, status);
            run_outcome.new_file = Some(Vec::from_slice(run.alloc, text.as_slice())?);
            run_outcome.final_repository_text = Some(final_repository_text(run, repo)?);
            Ok(run_outcome)
        }
        Err(_) => Ok(end_with_fault(run, ProgramFault::Memory, errors)),
    }
}

// Writes the report on a fetch, and returns the exit status.
fn write_report<A: Allocator + Copy, R: Sink, E: Sink>(
    run: &CommandRun<'_, '_, '_, A>,
    fetched: &Fetched<A>,
    report: &mut R,
    errors: &mut E,
) -> Result<u8, Trouble> {
    let text = format_report(run.alloc, fetched)?;
    let outcome: Result<(), ProgramFault<A>> = send_text(text.as_slice(), report);
    Ok(finish(outcome, errors))
}

fn save_repository<A: Allocator + Copy>(
    tested_alloc: A,
    repo: &Repo<A>,
) -> Result<Vec<u8, A>, SaveFault> {
    save(tested_alloc, repo.graph(), repo.refs(), &Head::None)
}

// Returns the text of the current repository. From this call on, no allocation is refused.
fn final_repository_text<A: Allocator + Copy>(
    run: &CommandRun<'_, '_, '_, A>,
    repo: &Repo<A>,
) -> Result<Vec<u8>, Trouble> {
    run.refusing_alloc.refuse_allocation(0);
    match save_repository(run.tested_alloc, repo) {
        Ok(text) => Ok(Vec::from_slice(run.alloc, text.as_slice())?),
        Err(_) => Err(Trouble::Memory),
    }
}
