//! Runs of the commands in `gcmd`. A run has a command line, the text of a repository, and an
//! input.

use crate::indexer_check::IndexerCheck;
use crate::inputs::parse_specs;
use crate::network_commands::{list_refs, serve_connection};
use crate::tool_runs::{fetch_with_indexer, make_checked_tool, serve_with_tool};
use case_text::{Invocation, Program, RefusingAllocator, Trouble, split_words};
use gcmd::{
    FetchRun, PackLimit, Spec, cmd_check, cmd_failed, cmd_fetch, cmd_lines, cmd_ls, cmd_upload,
};
use ggraph::PlainPack;
use gpkt::{Sink, Source};
use std::alloc::{Allocator, Global};

/// A command to run, the text of its repository, its input, and its allocators.
#[derive(Clone, Copy)]
pub struct CommandRun<'b, 'i, 'm, A: Allocator + Copy> {
    pub alloc: Global,
    /// The allocator of the command.
    pub tested_alloc: A,
    /// The same allocator, which can be set to refuse an allocation.
    pub refusing_alloc: &'m RefusingAllocator<Global>,
    pub indexer_check: &'m IndexerCheck,
    pub command: Invocation<'b>,
    pub repository_text: &'b [u8],
    pub input: &'i [u8],
    /// The number of the allocation to refuse, counted from 1. The number 0 refuses no allocation.
    pub refused_allocation: u64,
}

/// The result of a command.
#[derive(Drop)]
pub struct RunOutcome {
    pub status: u8,
    /// The new text of the client's file, if the command writes the file.
    pub new_file: Option<Vec<u8>>,
    /// The text of the client's repository at the end, or `None` if the command does not return it.
    pub final_repository_text: Option<Vec<u8>>,
    /// Whether the run reached the allocation to refuse.
    pub was_refused: bool,
}

/// The source and the sinks of a program.
#[derive(Drop)]
pub struct Devices<I, O, R, E> {
    pub input: I,
    pub output: O,
    pub report: R,
    pub errors: E,
}

/// Runs any command except a simulation.
pub fn run_command<A: Allocator + Copy, I: Source, O: Sink, R: Sink, E: Sink>(
    run: &CommandRun<'_, '_, '_, A>,
    devices: &mut Devices<I, O, R, E>,
) -> Result<RunOutcome, Trouble> {
    match run.command.program {
        Program::Fetch => run_fetch(run, devices),
        Program::LsClient => run_ls_client(run, devices),
        _ => Ok(run_without_arguments(run, devices)),
    }
}

fn run_ls_client<A: Allocator + Copy, I: Source, O: Sink, R: Sink, E: Sink>(
    run: &CommandRun<'_, '_, '_, A>,
    devices: &mut Devices<I, O, R, E>,
) -> Result<RunOutcome, Trouble> {
    let arguments = split_words(run.tested_alloc, run.command.operands)?;
    run.refusing_alloc.refuse_allocation(run.refused_allocation);
    let status = list_refs(run, arguments.as_slice(), devices);
    Ok(outcome_without_file(run, status))
}

fn run_without_arguments<A: Allocator + Copy, I: Source, O: Sink, R: Sink, E: Sink>(
    run: &CommandRun<'_, '_, '_, A>,
    devices: &mut Devices<I, O, R, E>,
) -> RunOutcome {
    run.refusing_alloc.refuse_allocation(run.refused_allocation);
    let status = match run.command.pack_tool {
        Some(pack_tool) => serve_with_tool(run, pack_tool, devices),
        None => run_with_plain_pack(run, devices),
    };
    outcome_without_file(run, status)
}

/// Returns the result of a command that writes no file.
pub fn outcome_without_file<A: Allocator + Copy>(
    run: &CommandRun<'_, '_, '_, A>,
    status: u8,
) -> RunOutcome {
    RunOutcome {
        status,
        new_file: None,
        final_repository_text: None,
        was_refused: !run.refusing_alloc.awaits_refusal(),
    }
}

// Runs a command that does not change its file, and that uses `PlainPack`.
fn run_with_plain_pack<A: Allocator + Copy, I: Source, O: Sink, R: Sink, E: Sink>(
    run: &CommandRun<'_, '_, '_, A>,
    devices: &mut Devices<I, O, R, E>,
) -> u8 {
    match run.command.program {
        Program::LsStdioServer => run_ls_stdio_server(run, devices),
        Program::Upload => run_upload(run, devices),
        Program::Check => run_check(run, devices),
        Program::Serve => serve_connection(run, &PlainPack, devices),
        Program::Lines | Program::Fetch | Program::Simulate | Program::LsClient => run_lines(
            run, devices,
        ),
    }
}

fn run_ls_stdio_server<A: Allocator + Copy, I: Source, O: Sink, R: Sink, E: Sink>(
    run: &CommandRun<'_, '_, '_, A>,
    devices: &mut Devices<I, O, R, E>,
) -> u8 {
    cmd_ls(
        run.tested_alloc,
        run.repository_text,
        &mut devices.input,
        &mut devices.output,
        &mut devices.errors,
    )
}

fn run_upload<A: Allocator + Copy, I: Source, O: Sink, R: Sink, E: Sink>(
    run: &CommandRun<'_, '_, '_, A>,
    devices: &mut Devices<I, O, R, E>,
) -> u8 {
    cmd_upload(
        run.tested_alloc,
        run.repository_text,
        run.command.reply_ends,
        &mut devices.input,
        &mut devices.output,
        &mut devices.errors,
    )
}

fn run_check<A: Allocator + Copy, I: Source, O: Sink, R: Sink, E: Sink>(
    run: &CommandRun<'_, '_, '_, A>,
    devices: &mut Devices<I, O, R, E>,
) -> u8 {
    cmd_check(
        run.tested_alloc,
        run.repository_text,
        &mut devices.output,
        &mut devices.errors,
    )
}

fn run_lines<A: Allocator + Copy, I: Source, O: Sink, R: Sink, E: Sink>(
    run: &CommandRun<'_, '_, '_, A>,
    devices: &mut Devices<I, O, R, E>,
) -> u8 {
    cmd_lines(
        run.tested_alloc,
        &mut devices.input,
        &mut devices.output,
        &mut devices.errors,
    )
}

fn run_fetch<A: Allocator + Copy, I: Source, O: Sink, R: Sink, E: Sink>(
    run: &CommandRun<'_, '_, '_, A>,
    devices: &mut Devices<I, O, R, E>,
) -> Result<RunOutcome, Trouble> {
    let arguments = split_words(run.tested_alloc, run.command.operands)?;
    run.refusing_alloc.refuse_allocation(run.refused_allocation);
    match parse_specs(run.tested_alloc, arguments.as_slice()) {
        Ok(specs) => fetch_specs(run, specs.as_slice(), devices),
        Err(fault) => Ok(outcome_without_file(run, cmd_failed(fault, &mut devices.errors))),
    }
}

fn fetch_specs<A: Allocator + Copy, I: Source, O: Sink, R: Sink, E: Sink>(
    run: &CommandRun<'_, '_, '_, A>,
    specs: &[Spec<A>],
    devices: &mut Devices<I, O, R, E>,
) -> Result<RunOutcome, Trouble> {
    match run.command.pack_tool {
        Some(pack_tool) => fetch_with_indexer(
            run,
            &make_checked_tool(run, pack_tool),
            specs,
            devices,
        ),
        None if run.command.has_hello() => fetch_with_indexer(run, &PlainPack, specs, devices),
        None => fetch_with_plain_pack(run, specs, devices),
    }
}

fn fetch_with_plain_pack<A: Allocator + Copy, I: Source, O: Sink, R: Sink, E: Sink>(
    run: &CommandRun<'_, '_, '_, A>,
    specs: &[Spec<A>],
    devices: &mut Devices<I, O, R, E>,
) -> Result<RunOutcome, Trouble> {
    let fetch = run_cmd_fetch(run, specs, devices);
    let mut run_outcome = outcome_without_file(run, fetch.status);
    run_outcome.new_file = copy_text(run.alloc, &fetch.file)?;
    Ok(run_outcome)
}

fn run_cmd_fetch<A: Allocator + Copy, I: Source, O: Sink, R: Sink, E: Sink>(
    run: &CommandRun<'_, '_, '_, A>,
    specs: &[Spec<A>],
    devices: &mut Devices<I, O, R, E>,
) -> FetchRun<A> {
    cmd_fetch(
        run.tested_alloc,
        run.repository_text,
        specs,
        pack_limit_of(run.command.pack_limit),
        run.command.reply_ends,
        &mut devices.input,
        &mut devices.output,
        &mut devices.report,
        &mut devices.errors,
    )
}

/// Returns a pack size limit of `limit` bytes, or the default limit if `limit` is too large.
pub fn pack_limit_of(limit: usize) -> PackLimit {
    match PackLimit::new(limit) {
        Some(limit) => limit,
        None => PackLimit::default(),
    }
}

// Returns a copy of the text, if there is a text. The copy is allocated by the global allocator.
fn copy_text<A: Allocator + Copy>(
    alloc: Global,
    text: &Option<Vec<u8, A>>,
) -> Result<Option<Vec<u8>>, Trouble> {
    match text {
        Some(text) => Ok(Some(Vec::from_slice(alloc, text.as_slice())?)),
        None => Ok(None),
    }
}
