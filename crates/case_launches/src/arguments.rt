//! The arguments of a command line, as a program receives them.

use case_text::{Invocation, Program, Trouble};
use case_tries::Row;
use gcmd::Ends;
use gname::MAX_PACK;
use gtcp::Location;
use std::alloc::Global;

/// The maximum number of bytes that a test writes to a socket before the other end reads them.
const MAX_SOCKET_BYTES: usize = 16_384;

/// Returns whether the program can run the row. The packer and the indexer must be `PlainPack`. If
/// the row uses a socket, the socket must be able to buffer all bytes, and the location must be
/// valid.
pub fn can_launch(alloc: Global, row: &Row<'_>) -> Result<bool, Trouble> {
    let command = row.command;
    if command.pack_tool.is_some() {
        return Ok(false);
    }
    if !command.has_hello() {
        return Ok(true);
    }
    let address = address_of(alloc, command)?;
    let has_valid_location = Location::new(alloc, address.as_str(), command.path).is_some();
    let conversation = &row.conversation;
    Ok(
        has_valid_location
            && conversation.input.len() <= MAX_SOCKET_BYTES
            && conversation.output.len() <= MAX_SOCKET_BYTES,
    )
}

// Returns the address at which a server listens, or to which a client connects.
fn address_of(alloc: Global, command: Invocation<'_>) -> Result<String, Trouble> {
    if command.program == Program::Serve {
        return Ok(String::from_str(alloc, "127.0.0.1:0")?);
    }
    let host = command.host;
    Ok(format!(in alloc; "{host}:9418")?)
}

/// Appends the arguments of a row's command, starting with the program's name.
pub(crate) fn add_command(
    alloc: Global,
    command: Invocation<'_>,
    arguments: &mut Vec<String>,
) -> Result<(), Trouble> {
    push_arguments(alloc, fixed_arguments(command), arguments)?;
    if command.has_hello() {
        add_location(alloc, command, arguments)?;
    }
    add_options(alloc, command, arguments)?;
    if command.program != Program::Lines && command.program != Program::LsClient {
        add_argument(alloc, file_name_for(command.repository_name), arguments)?;
    }
    add_operands(alloc, command.operands, arguments)
}

fn add_operands(alloc: Global, operands: &str, arguments: &mut Vec<String>) -> Result<(), Trouble> {
    if !operands.is_empty() {
        for word in operands.split(' ') {
            add_argument(alloc, word, arguments)?;
        }
    }
    Ok(())
}

// Returns the part of the command line before the options.
fn fixed_arguments(command: Invocation<'_>) -> &'static str {
    match command.program {
        Program::LsStdioServer => "gitv2 ls --stdio-server",
        Program::Upload => "gitv2 upload",
        Program::Fetch if command.has_hello() => "gitv2 fetch",
        Program::Fetch => "gitv2 fetch --stdio",
        Program::Check => "gitv2 check",
        Program::Lines => "gitv2 lines",
        Program::Simulate => "gitv2 simulate",
        Program::Serve => "gitv2 serve --connections 1",
        Program::LsClient => "gitv2 ls",
    }
}

fn add_location(
    alloc: Global,
    command: Invocation<'_>,
    arguments: &mut Vec<String>,
) -> Result<(), Trouble> {
    let option = if command.program == Program::Serve {
        "--listen"
    } else {
        "--tcp"
    };
    let address = address_of(alloc, command)?;
    let location = [option, address.as_str(), "--path", command.path];
    add_arguments(alloc, &location, arguments)
}

fn add_options(
    alloc: Global,
    command: Invocation<'_>,
    arguments: &mut Vec<String>,
) -> Result<(), Trouble> {
    if command.program == Program::Fetch && command.pack_limit != MAX_PACK {
        let limit = format!(in alloc; "{}", command.pack_limit)?;
        add_arguments(alloc, &["--limit", limit.as_str()], arguments)?;
    }
    if command.reply_ends == Ends::Response {
        add_argument(alloc, "--response-end", arguments)?;
    }
    Ok(())
}

fn add_arguments(
    alloc: Global,
    words: &[&str],
    arguments: &mut Vec<String>,
) -> Result<(), Trouble> {
    for word in words {
        add_argument(alloc, word, arguments)?;
    }
    Ok(())
}

fn add_argument(alloc: Global, argument: &str, arguments: &mut Vec<String>) -> Result<(), Trouble> {
    let argument = String::from_str(alloc, argument)?;
    arguments.push(argument).map_err(Trouble::from)
}

/// Appends arguments that are separated by spaces; `""` is the empty argument.
pub fn push_arguments(
    alloc: Global,
    text: &str,
    arguments: &mut Vec<String>,
) -> Result<(), Trouble> {
    for word in text.split(' ') {
        if !word.is_empty() {
            let argument = if word == EMPTY_ARGUMENT { "" } else { word };
            add_argument(alloc, argument, arguments)?;
        }
    }
    Ok(())
}

// The word for an empty argument.
const EMPTY_ARGUMENT: &str = "\"\"";

// The name of the file for an unnamed text.
const UNNAMED_FILE: &str = "none";

/// Returns the name of the file that holds the text with this name.
pub(crate) fn file_name_for(text_name: &str) -> &str {
    if text_name.is_empty() {
        UNNAMED_FILE
    } else {
        text_name
    }
}
