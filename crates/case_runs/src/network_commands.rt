//! The network commands of `gitv2` on sources and sinks in memory. One command serves a connection,
//! including its first line. The other lists a server's refs.

use crate::inputs::parse_server;
use crate::program::{CommandRun, Devices};
use gclient::{FetchFault, list_git};
use gcmd::{ProgramFault, finish, read_prefixes, send_text};
use ggrammar::MessageFault;
use ggraph::Packer;
use ghello::Hello;
use glsreply::{LsReply, RefLine, RefText};
use gname::{Prefix, RefName};
use gpkt::{Sink, Source};
use grequest::{LsRefsFlag, LsRefsRequest};
use gserve::{End, Export, GitEnd, OnePack, Served, serve_git};
use std::alloc::{AllocError, Allocator};

/// Serves a connection, including its first line. Returns 1 and prints the fault if the connection
/// fails, otherwise 0.
pub(crate) fn serve_connection<A: Allocator + Copy, K, I: Source, O: Sink, R: Sink, E: Sink>(
    run: &CommandRun<'_, '_, '_, A>,
    packer: &K,
    devices: &mut Devices<I, O, R, E>,
) -> u8
where
    K: Packer<A>,
{
    let outcome = serve_over_streams(run, packer, &mut devices.input, &mut devices.output);
    finish(outcome, &mut devices.errors)
}

fn serve_over_streams<A: Allocator + Copy, K: Packer<A>, I: Source, O: Sink>(
    run: &CommandRun<'_, '_, '_, A>,
    packer: &K,
    input: &mut I,
    output: &mut O,
) -> Result<(), ProgramFault<A>> {
    let server = parse_server(run.tested_alloc, run.repository_text)?;
    let export = Export {
        server: &server,
        path: run.command.path.as_bytes(),
        ends: run.command.reply_ends,
    };
    result_of_git_end(serve_git(&export, &mut OnePack::new(packer), input, output))
}

// Returns the outcome of a connection. A request for another path is not a fault.
fn result_of_git_end<A: Allocator + Copy>(connection_end: GitEnd) -> Result<(), ProgramFault<A>> {
    match connection_end {
        GitEnd::Served(served) => result_of_served(served),
        GitEnd::Elsewhere => Ok(()),
        GitEnd::Refused(fault) => Err(ProgramFault::Request(fault)),
        GitEnd::WriteFailed => Err(ProgramFault::WriteFailed),
    }
}

/// Converts the outcome of a served connection to the outcome of the program.
pub(crate) fn result_of_served<A: Allocator + Copy>(served: Served) -> Result<(), ProgramFault<A>> {
    match served.end {
        End::Closed | End::Ended => Ok(()),
        End::Refused(fault) => Err(ProgramFault::Request(fault)),
        End::WriteFailed => Err(ProgramFault::WriteFailed),
    }
}

/// Lists the server's refs that begin with one of the arguments, or all refs if there are no
/// arguments. Writes a line for each ref to the report, and returns the exit status.
pub(crate) fn list_refs<A: Allocator + Copy, I: Source, O: Sink, R: Sink, E: Sink>(
    run: &CommandRun<'_, '_, '_, A>,
    arguments: &[String<A>],
    devices: &mut Devices<I, O, R, E>,
) -> u8 {
    let outcome = list_over_streams(run, arguments, devices);
    finish(outcome, &mut devices.errors)
}

fn list_over_streams<A: Allocator + Copy, I: Source, O: Sink, R: Sink, E: Sink>(
    run: &CommandRun<'_, '_, '_, A>,
    arguments: &[String<A>],
    devices: &mut Devices<I, O, R, E>,
) -> Result<(), ProgramFault<A>> {
    let prefixes = parse_prefixes(run, arguments)?;
    let reply = request_refs(
        run,
        prefixes.as_slice(),
        &mut devices.input,
        &mut devices.output,
    );
    conclude_listing(run, reply, &mut devices.report)
}

/// Writes a line to the report for each ref of the reply, as the program does at the end of a
/// listing. Returns the fault if the request failed.
pub fn conclude_listing<A: Allocator + Copy, R: Sink>(
    run: &CommandRun<'_, '_, '_, A>,
    reply: Result<LsReply<A>, FetchFault<A>>,
    report: &mut R,
) -> Result<(), ProgramFault<A>> {
    match reply {
        Ok(reply) => write_refs(run.tested_alloc, &reply, report),
        Err(fault) => Err(ProgramFault::Fetch(fault)),
    }
}

/// Parses the ref prefixes. Returns an empty list if the command names no prefixes.
pub fn parse_prefixes<A: Allocator + Copy>(
    run: &CommandRun<'_, '_, '_, A>,
    arguments: &[String<A>],
) -> Result<Vec<Prefix<A>, A>, ProgramFault<A>> {
    if run.command.operands.is_empty() {
        return Ok(Vec::new(run.tested_alloc));
    }
    read_prefixes(run.tested_alloc, arguments)
}

fn write_refs<A: Allocator + Copy, R: Sink>(
    tested_alloc: A,
    reply: &LsReply<A>,
    report: &mut R,
) -> Result<(), ProgramFault<A>> {
    match format_refs(tested_alloc, reply) {
        Ok(text) => send_text(text.as_slice(), report),
        Err(_) => Err(ProgramFault::Memory),
    }
}

fn request_refs<A: Allocator + Copy, I: Source, O: Sink>(
    run: &CommandRun<'_, '_, '_, A>,
    prefixes: &[Prefix<A>],
    input: &mut I,
    output: &mut O,
) -> Result<LsReply<A>, FetchFault<A>> {
    let hello = make_hello(run)?;
    let request = make_ls_refs_request(run.tested_alloc, prefixes)?;
    list_git(&hello, input, output, request, run.tested_alloc)
}

/// Returns the first line of the command's connection.
pub(crate) fn make_hello<A: Allocator + Copy>(
    run: &CommandRun<'_, '_, '_, A>,
) -> Result<Hello<A>, MessageFault> {
    let command = run.command;
    Hello::new(
        run.tested_alloc,
        command.path.as_bytes(),
        command.host.as_bytes(),
    )
}

// Returns an ls-refs request with the arguments `symrefs` and `peel`.
fn make_ls_refs_request<A: Allocator + Copy>(
    tested_alloc: A,
    prefixes: &[Prefix<A>],
) -> Result<LsRefsRequest<A>, MessageFault> {
    let mut request = LsRefsRequest::new(tested_alloc);
    request.set(LsRefsFlag::Symrefs, true);
    request.set(LsRefsFlag::Peel, true);
    for prefix in prefixes {
        request.push_prefix(prefix.as_bytes())?;
    }
    Ok(request)
}

// Formats an ls-refs reply: the target of an unborn `HEAD`, then each ref.
fn format_refs<A: Allocator + Copy>(
    tested_alloc: A,
    reply: &LsReply<A>,
) -> Result<Vec<u8, A>, AllocError> {
    let mut text = Vec::new(tested_alloc);
    if let Some(target) = reply.unborn() {
        add_unborn(&mut text, target)?;
    }
    for index in 0..reply.len() {
        if let Some(line) = reply.at(index) {
            add_ref(&mut text, line)?;
        }
    }
    Ok(text)
}

fn add_unborn<A: Allocator + Copy>(
    text: &mut Vec<u8, A>,
    target: &RefName<A>,
) -> Result<(), AllocError> {
    text.extend_from_slice(b"unborn HEAD symref-target:")?;
    text.extend_from_slice(target.as_bytes())?;
    text.extend_from_slice(b"\n")
}

fn add_ref<A: Allocator + Copy>(
    text: &mut Vec<u8, A>,
    line: &RefLine<A>,
) -> Result<(), AllocError> {
    let mut ref_text = RefText::new();
    ref_text.set(&line.lend());
    text.extend_from_slice(ref_text.as_bytes())?;
    text.extend_from_slice(b"\n")
}
