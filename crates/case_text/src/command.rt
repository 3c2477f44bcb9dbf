//! Parsing of the command lines in test cases.

use crate::pack_tools::PackTool;
use crate::trouble::Trouble;
use crate::words::value_of_word;
use ggrammar::Ends;
use gname::{Format, MAX_PACK};
use std::alloc::Allocator;

// The programs with their names in test files. `ls` with a host is a client.
const PROGRAMS: &[(&str, Program)] = &[
    ("serve", Program::Serve),
    ("ls", Program::LsStdioServer),
    ("upload", Program::Upload),
    ("fetch", Program::Fetch),
    ("check", Program::Check),
    ("lines", Program::Lines),
    ("simulate", Program::Simulate),
];

/// A program that a case runs.
#[derive(Clone, Copy, PartialEq, Eq)]
pub enum Program {
    /// A server that answers one request.
    LsStdioServer,
    /// A server that serves one connection without a first line (the packet that names a path).
    Upload,
    /// A client that fetches into its repository.
    Fetch,
    /// A check of a repository.
    Check,
    /// A program that prints one line for each packet of its input.
    Lines,
    /// A simulation of a server and a client.
    Simulate,
    /// A server that serves one connection, including its first line.
    Serve,
    /// A client that lists the refs of a server.
    LsClient,
}

impl Program {
    /// Returns whether the program reads the client's messages.
    pub fn reads_client_messages(self) -> bool {
        match self {
            Program::LsStdioServer | Program::Upload | Program::Lines | Program::Serve => true,
            Program::Fetch | Program::Check | Program::Simulate | Program::LsClient => false,
        }
    }

    /// Returns whether the program is a server, which reports a rejected request to the client.
    pub fn is_server(self) -> bool {
        match self {
            Program::LsStdioServer | Program::Upload | Program::Serve => true,
            Program::Fetch
            | Program::Check
            | Program::Lines
            | Program::Simulate
            | Program::LsClient => false,
        }
    }

    /// Returns whether the replies in the conversation may end with a response-end packet.
    pub fn may_have_response_ends(self) -> bool {
        match self {
            Program::Upload | Program::Fetch | Program::Serve => true,
            Program::LsStdioServer
            | Program::Check
            | Program::Lines
            | Program::Simulate
            | Program::LsClient => false,
        }
    }

    /// Returns whether the program writes a report: the ref updates of a fetch, or the listed refs.
    pub fn has_report(self) -> bool {
        match self {
            Program::Fetch | Program::LsClient => true,
            Program::LsStdioServer
            | Program::Upload
            | Program::Check
            | Program::Lines
            | Program::Simulate
            | Program::Serve => false,
        }
    }

    /// Returns whether the program reads each packet as a separate message.
    pub fn reads_single_packets(self) -> bool {
        match self {
            Program::Lines => true,
            Program::LsStdioServer
            | Program::Upload
            | Program::Fetch
            | Program::Check
            | Program::Simulate
            | Program::Serve
            | Program::LsClient => false,
        }
    }
}

/// A program with its arguments and the format of its object ids.
#[derive(Clone, Copy)]
pub struct Invocation<'a> {
    pub program: Program,
    /// The name of the text block that holds the repository, or an empty string.
    pub repository_name: &'a str,
    /// The host that a client names in the first line of a connection. The host is empty if the
    /// command line names no host.
    pub host: &'a str,
    /// The path in the first line of a connection, or the path that a server serves. The path is
    /// empty if the connection has no first line.
    pub path: &'a str,
    /// The arguments after the repository: the refspecs of a fetch, or the ref prefixes of a
    /// listing. For a simulation, the names of the client's text and of the scenario.
    pub operands: &'a str,
    /// The maximum size of a pack in bytes.
    pub pack_limit: usize,
    pub reply_ends: Ends,
    pub format: Format,
    /// The packer or indexer that the program uses instead of `PlainPack`, if any.
    pub pack_tool: Option<PackTool>,
    /// The text of the client's repository in a simulation, or no bytes for other programs.
    pub client_text: &'a [u8],
    /// The scenario of a simulation, or no bytes for other programs.
    pub scenario_text: &'a [u8],
}

impl Invocation<'_> {
    /// Returns whether the connection has a first line, in which the client names a host and a
    /// path.
    pub fn has_hello(&self) -> bool {
        !self.path.is_empty()
    }
}

/// Parses a command line. The returned command uses `PlainPack` as its packer and as its indexer.
pub fn parse_command(line: &str, format: Format) -> Result<Invocation<'_>, Trouble> {
    let (name, words) = split_first_word(line);
    let words = without_option(words, "--stdio-server ");
    let words = without_option(words, "--stdio ");
    let (host, words) = take_option_value(words, "--host ");
    let (path, words) = take_option_value(words, "--path ");
    let program = program_named(name, !host.is_empty())?;
    let (reply_ends, words) = match words.strip_prefix("--response-end ") {
        Some(words) => (Ends::Response, words),
        None => (Ends::Plain, words),
    };
    let (pack_limit, words) = take_pack_limit(words)?;
    let (repository_name, operands) = match program {
        Program::LsClient => ("", words),
        _ => split_first_word(words),
    };
    Ok(Invocation {
        program,
        repository_name,
        host,
        path,
        operands,
        pack_limit,
        reply_ends,
        format,
        pack_tool: None,
        client_text: b"",
        scenario_text: b"",
    })
}

fn program_named(name: &str, has_host: bool) -> Result<Program, Trouble> {
    match value_of_word(PROGRAMS, name) {
        Some(Program::LsStdioServer) if has_host => Ok(Program::LsClient),
        Some(program) => Ok(program),
        None => Err(Trouble::UnknownProgram),
    }
}

fn take_pack_limit(words: &str) -> Result<(usize, &str), Trouble> {
    let Some(words) = words.strip_prefix("--limit ") else {
        return Ok((MAX_PACK, words));
    };
    let (number, words) = split_first_word(words);
    match number.parse::<usize>() {
        Ok(pack_limit) => Ok((pack_limit, words)),
        Err(_) => Err(Trouble::InvalidLimit),
    }
}

/// Returns the first word of the text and the words after it.
pub fn split_first_word(words: &str) -> (&str, &str) {
    match words.split_once(' ') {
        Some((first, rest)) => (first, rest),
        None => (words, ""),
    }
}

/// Returns the words of a text, each as a separate string.
pub fn split_words<A: Allocator + Copy>(
    alloc: A,
    text: &str,
) -> Result<Vec<String<A>, A>, Trouble> {
    let mut words = Vec::new(alloc);
    for word in text.split(' ') {
        words.push(String::from_str(alloc, word)?)?;
    }
    Ok(words)
}

// If `words` begins with the option, returns the option's value and the words after the value.
// Otherwise returns an empty value and all words.
fn take_option_value<'a>(words: &'a str, option: &'static str) -> (&'a str, &'a str) {
    match words.strip_prefix(option) {
        Some(words) => split_first_word(words),
        None => ("", words),
    }
}

// Returns the words after the option if `words` begins with it. Otherwise returns all words.
fn without_option<'a>(words: &'a str, option: &'static str) -> &'a str {
    match words.strip_prefix(option) {
        Some(rest) => rest,
        None => words,
    }
}
