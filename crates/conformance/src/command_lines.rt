//! The result of parsing a command line, as one line of text.
//!
//! The text of an `asked` fact holds the arguments, separated by spaces; `""` is the empty
//! argument. The result is `none` if the arguments do not match the usage. Otherwise the result is
//! the name of the command, followed by the parameters that the command has:
//!
//! 1. `stdio`, `stdio-server`, or an address and a path
//! 2. the maximum size of a pack, or the number of connections
//! 3. `plain` or `response-end`, which is how each reply ends
//! 4. the files, and then the refspecs or prefixes

use case_launches::push_arguments;
use case_text::Trouble;
use gargs::{Fetch, Gitv2Command, Serve, Simulate, read_command};
use gcmd::Ends;
use gtcp::Location;
use std::alloc::Global;

// The notation for an empty argument in a test file.
const EMPTY_ARGUMENT: &str = "\"\"";

/// Returns the result of parsing the command line in `text`.
pub fn parsed_command(alloc: Global, text: &[u8]) -> Result<String, Trouble> {
    let Ok(text) = std::str::from_utf8(text) else {
        return String::from_str(alloc, "no text").map_err(Trouble::from);
    };
    let mut arguments = Vec::new(alloc);
    push_arguments(alloc, text, &mut arguments)?;
    match read_command(alloc, arguments.as_slice()) {
        Some(command) => format_command(alloc, &command),
        None => String::from_str(alloc, "none").map_err(Trouble::from),
    }
}

fn format_command(alloc: Global, command: &Gitv2Command) -> Result<String, Trouble> {
    match command {
        Gitv2Command::Check { file } => command_text(alloc, "check", &[file.as_str()], &[]),
        Gitv2Command::Fetch(fetch) => format_fetch(alloc, fetch),
        Gitv2Command::Lines => command_text(alloc, "lines", &[], &[]),
        Gitv2Command::LsStdioServer { file } => command_text(
            alloc,
            "ls stdio-server",
            &[file.as_str()],
            &[],
        ),
        Gitv2Command::LsTcp { place, prefixes } => {
            let location = format_location(alloc, place)?;
            let ls = format!(in alloc; "ls tcp={location}")?;
            command_text(alloc, ls.as_str(), &[], prefixes.as_slice())
        }
        Gitv2Command::Pair {
            server,
            client,
            specs,
        } => {
            let files = [server.as_str(), client.as_str()];
            command_text(alloc, "pair", &files, specs.as_slice())
        }
        Gitv2Command::Serve(serve) => format_serve(alloc, serve),
        Gitv2Command::Simulate(simulate) => format_simulate(alloc, simulate),
        Gitv2Command::Upload { ends, file } => {
            let ends = format_reply_ends(*ends);
            let upload = format!(in alloc; "upload {ends}")?;
            command_text(alloc, upload.as_str(), &[file.as_str()], &[])
        }
    }
}

fn format_fetch(alloc: Global, fetch: &Fetch) -> Result<String, Trouble> {
    let transport = format_transport(alloc, fetch)?;
    let limit = fetch.limit.bytes();
    let ends = format_reply_ends(fetch.ends);
    let line = format!(in alloc; "fetch {transport} limit={limit} {ends}")?;
    command_text(
        alloc,
        line.as_str(),
        &[fetch.file.as_str()],
        fetch.specs.as_slice(),
    )
}

fn format_transport(alloc: Global, fetch: &Fetch) -> Result<String, Trouble> {
    match &fetch.place {
        Some(place) => {
            let location = format_location(alloc, place)?;
            format!(in alloc; "tcp={location}").map_err(Trouble::from)
        }
        None => String::from_str(alloc, "stdio").map_err(Trouble::from),
    }
}

fn format_serve(alloc: Global, serve: &Serve) -> Result<String, Trouble> {
    let location = format_location(alloc, &serve.place)?;
    let count = serve.connections;
    let ends = format_reply_ends(serve.ends);
    let line = format!(in alloc; "serve listen={location} connections={count} {ends}")?;
    command_text(alloc, line.as_str(), &[serve.file.as_str()], &[])
}

fn format_simulate(alloc: Global, simulate: &Simulate) -> Result<String, Trouble> {
    let files = [
        simulate.server.as_str(),
        simulate.client.as_str(),
        simulate.scenario.as_str(),
    ];
    command_text(alloc, "simulate", &files, &[])
}

// Returns the address and the path as text. A path that is not UTF-8 is returned as an empty path.
fn format_location(alloc: Global, location: &Location) -> Result<String, Trouble> {
    let address = location.address();
    let path = match std::str::from_utf8(location.hello().path()) {
        Ok(path) => path,
        Err(_) => "",
    };
    format!(in alloc; "{address} path={path}").map_err(Trouble::from)
}

fn format_reply_ends(ends: Ends) -> &'static str {
    match ends {
        Ends::Plain => "plain",
        Ends::Response => "response-end",
    }
}

// Returns a line that consists of `start`, the files and the arguments.
fn command_text(
    alloc: Global,
    start: &str,
    files: &[&str],
    arguments: &[String],
) -> Result<String, Trouble> {
    let mut line = String::from_str(alloc, start)?;
    for file in files {
        add_argument(file, &mut line)?;
    }
    for argument in arguments {
        add_argument(argument.as_str(), &mut line)?;
    }
    Ok(line)
}

fn add_argument(argument: &str, line: &mut String) -> Result<(), Trouble> {
    line.push(' ')?;
    let word = if argument.is_empty() {
        EMPTY_ARGUMENT
    } else {
        argument
    };
    line.push_str(word).map_err(Trouble::from)
}
