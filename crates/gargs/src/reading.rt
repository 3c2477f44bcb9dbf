//! The parser of the command line.

use crate::command::{Fetch, Gitv2Command, Serve, Simulate};
use crate::number::{connections_of, limit_of};
use crate::usage::program;
use clap::ArgMatches;
use gcmd::{Ends, PackLimit};
use gtcp::Location;
use std::alloc::{AllocError, Global};

/// Returns the command that the arguments describe. The first argument is the program's own name.
/// Returns `None` if the arguments do not match the usage, or if out of memory. A request for help
/// does not match the usage.
pub fn read_command(alloc: Global, arguments: &[String]) -> Option<Gitv2Command> {
    if arguments.iter().any(|word| word.as_str() == "--") {
        return None;
    }
    let matches = parse(alloc, arguments)?;
    command_of(alloc, &matches)
}

fn parse<'a>(alloc: Global, arguments: &'a [String]) -> Option<ArgMatches<'a>> {
    program(alloc).ok()?.try_get_matches_from(arguments).ok()
}

fn command_of(alloc: Global, matches: &ArgMatches<'_>) -> Option<Gitv2Command> {
    match matches.subcommand()? {
        ("check", check) => check_command(alloc, check),
        ("fetch", fetch) => fetch_command(alloc, fetch),
        ("lines", _) => Some(Gitv2Command::Lines),
        ("ls", ls) => ls_command(alloc, ls),
        ("pair", pair) => pair_command(alloc, pair),
        ("serve", serve) => serve_command(alloc, serve),
        ("simulate", simulate) => simulate_command(alloc, simulate),
        ("upload", upload) => upload_command(alloc, upload),
        _ => None,
    }
}

fn file_in(alloc: Global, matches: &ArgMatches<'_>) -> Option<String> {
    word_in(alloc, matches, "file")
}

fn word_in(alloc: Global, matches: &ArgMatches<'_>, name: &str) -> Option<String> {
    String::from_str(alloc, matches.get_str(name)?).ok()
}

fn check_command(alloc: Global, matches: &ArgMatches<'_>) -> Option<Gitv2Command> {
    let file = file_in(alloc, matches)?;
    Some(Gitv2Command::Check { file })
}

fn fetch_command(alloc: Global, matches: &ArgMatches<'_>) -> Option<Gitv2Command> {
    let limit = limit_in(matches)?;
    let ends = ends_in(matches);
    let place = source_in(alloc, matches)?;
    let file = file_in(alloc, matches)?;
    let specs = words_in(alloc, matches, "spec").ok()?;
    Some(Gitv2Command::Fetch(Fetch {
        place,
        limit,
        ends,
        file,
        specs,
    }))
}

// Returns the location of the server to fetch from, or `Some(None)` for standard input and output.
// Returns `None` if the arguments do not match the usage.
fn source_in(alloc: Global, matches: &ArgMatches<'_>) -> Option<Option<Location>> {
    match transport_of(matches, "stdio")? {
        Transport::Stdio => Some(None),
        Transport::Tcp => Some(Some(location_in(alloc, matches, "tcp")?)),
    }
}

// The transport to a server.
#[derive(Clone, Copy)]
enum Transport {
    Stdio,
    Tcp,
}

// Returns the transport that the arguments select. Returns `None` if the arguments select no
// transport, or both.
fn transport_of(matches: &ArgMatches<'_>, flag: &str) -> Option<Transport> {
    let is_named = matches.get_str("tcp").is_some() || matches.get_str("path").is_some();
    match (matches.get_flag(flag), is_named) {
        (true, false) => Some(Transport::Stdio),
        (false, true) => Some(Transport::Tcp),
        _ => None,
    }
}

// Returns the location whose address is the value of this option, and whose path is the value of
// the option `path`. Returns `None` if the location is invalid.
fn location_in(alloc: Global, matches: &ArgMatches<'_>, option: &str) -> Option<Location> {
    Location::new(alloc, matches.get_str(option)?, matches.get_str("path")?)
}

// Returns the limit in the arguments, or the default limit if the arguments have no limit. Returns
// `None` if the limit is not a number, or is too high.
fn limit_in(matches: &ArgMatches<'_>) -> Option<PackLimit> {
    match matches.get_str("limit") {
        Some(text) => limit_of(text),
        None => Some(PackLimit::default()),
    }
}

// Returns all values of an argument.
fn words_in(
    alloc: Global,
    matches: &ArgMatches<'_>,
    name: &str,
) -> Result<Vec<String>, AllocError> {
    let mut words = Vec::new(alloc);
    if let Some(found) = matches.get_strs(name) {
        for word in found {
            words.push(String::from_str(alloc, word)?)?;
        }
    }
    Ok(words)
}

fn ends_in(matches: &ArgMatches<'_>) -> Ends {
    if matches.get_flag("response-end") {
        Ends::Response
    } else {
        Ends::Plain
    }
}

fn ls_command(alloc: Global, matches: &ArgMatches<'_>) -> Option<Gitv2Command> {
    let mut words = words_in(alloc, matches, "word").ok()?;
    match transport_of(matches, "stdio-server")? {
        Transport::Stdio if words.len() == 1 => {
            let file = words.pop()?;
            Some(Gitv2Command::LsStdioServer { file })
        }
        Transport::Stdio => None,
        Transport::Tcp => {
            let place = location_in(alloc, matches, "tcp")?;
            Some(Gitv2Command::LsTcp {
                place,
                prefixes: words,
            })
        }
    }
}

fn pair_command(alloc: Global, matches: &ArgMatches<'_>) -> Option<Gitv2Command> {
    let server = file_in(alloc, matches)?;
    let client = word_in(alloc, matches, "client")?;
    let specs = words_in(alloc, matches, "spec").ok()?;
    Some(Gitv2Command::Pair {
        server,
        client,
        specs,
    })
}

fn serve_command(alloc: Global, matches: &ArgMatches<'_>) -> Option<Gitv2Command> {
    let connections = connections_of(matches.get_str("connections")?)?;
    let ends = ends_in(matches);
    let place = location_in(alloc, matches, "listen")?;
    let file = file_in(alloc, matches)?;
    Some(Gitv2Command::Serve(Serve {
        place,
        connections,
        ends,
        file,
    }))
}

fn simulate_command(alloc: Global, matches: &ArgMatches<'_>) -> Option<Gitv2Command> {
    let server = file_in(alloc, matches)?;
    let client = word_in(alloc, matches, "client")?;
    let scenario = word_in(alloc, matches, "scenario")?;
    Some(Gitv2Command::Simulate(Simulate {
        server,
        client,
        scenario,
    }))
}

fn upload_command(alloc: Global, matches: &ArgMatches<'_>) -> Option<Gitv2Command> {
    let file = file_in(alloc, matches)?;
    let ends = ends_in(matches);
    Some(Gitv2Command::Upload { ends, file })
}
