//! Tests of Git's fetch protocol, as described by test files. The tests run the commands of `gcmd`,
//! call the functions that these commands use, and check the parsing of command lines.
//!
//! The arguments of the command line name test files. `case_text` parses these files. The first
//! argument may be an option. `--quick` omits the tests that change bytes, and `--once` runs each
//! case only with its input unchanged. `--edge` runs only the unchanged cases and the tests of
//! launches, connections and failing files.
//!
//! Each case runs with each of its programs, and with ids of both formats. Cases with replies also
//! run with response-end packets added. A case may exclude one format or the added packets. A case
//! with one of its programs is a row. The rows are tested in these ways:
//!
//! - The input is unchanged, and is read at once or in pieces. The row also runs on std readers and
//!   writers.
//! - The calls to the indexer are checked.
//! - The program `gitv2` runs with files, standard streams and sockets.
//! - A connection with a first line runs over a socket in this process. The peer sends its messages
//!   at once, in turns, or byte by byte.
//! - A peer is late, as measured by a simulated clock.
//! - Each call to each source and sink fails in turn.
//! - Each operation on the client's file fails in turn, or the run stops at that operation.
//! - The input is truncated after each byte, or one of its bytes is changed.
//! - The request is changed as the case's table lists.
//! - Each allocation is refused in turn.
//!
//! Facts about texts are also checked with the text read in pieces, and with each allocation
//! refused in turn. A simulation also runs directly in a world, which is a server and a client in
//! memory (`gworld`). Random events run in further worlds. Pairs of a server and a client, and
//! cases that describe a launch, are tested only in launches of the program. The tests print a line
//! for each failure. The last lines state the number of runs.
//!
//! # Proved
//!
//! Every call returns, with no index out of range, overflow or use after free.
//!
//! # What the contracts do not rule out
//!
//! No contract states the results of this crate. The tests were run on deliberately wrong cases and
//! programs, to check that the tests reject them.
//!
//! # Dependencies
//!
//! `case_text` parses the files and defines an allocator that refuses an allocation. `case_tries`
//! tests rows, `case_launches` launches the program, and `case_facts` checks facts. `case_runs`
//! runs programs on sources and sinks in memory, and `case_worlds` runs simulations. `gtcp` serves
//! and opens connections, `gargs` parses command lines, and `gcmd` defines the shared parts of
//! programs. `gclient`, `glsreply`, `ggraph`, `ggrammar`, `gpkt` and `gname` define the other
//! types.
#![tactic(auto)]

mod command_lines;
mod connection;
mod deadlines;
mod facts;
mod late_peer;
mod launches;
mod peer;
mod rows;
mod socket;
mod tally;

use crate::facts::check_fact;
use crate::rows::test_case;
use crate::tally::{Depth, Tally, print_trouble};
use case_launches::System;
use case_text::{Script, Trouble};
use case_tries::Variation;
use gname::Format;
use std::alloc::Global;
use std::net::{Net, TcpListener, TcpStream};
use std::process::ExitCode;
use std::rt::{Clock, Env, Files};
use std::{env, fs, io};

fn main(rt: HostRuntime) -> ExitCode {
    match run_cases(&rt) {
        Ok(true) => ExitCode::from(0),
        Ok(false) | Err(_) => ExitCode::from(1),
    }
}

// Runs all tests of the files that the arguments name. Returns whether all tests succeeded.
fn run_cases<R>(rt: &R) -> io::Result<bool>
where
    R: AllocGlobal + Clock + Env + Files + Print + Net<Stream = TcpStream, Listener = TcpListener>,
{
    let arguments: Vec<String> = env::args(rt)?.skip(1).collect(rt.alloc())?;
    let (depth, names) = split_depth_option(arguments.as_slice());
    let files = read_files(rt, names)?;
    test_all_formats(rt, (names, files.as_slice()), &mut Tally::new(depth))
}

fn test_all_formats<R: System>(
    rt: &R,
    files: (&[String], &[String]),
    tally: &mut Tally,
) -> io::Result<bool> {
    for format in [Format::Sha1, Format::Sha256] {
        if !test_files(rt, format, files, tally)? {
            return Ok(false);
        }
    }
    print_counts(rt, tally)?;
    Ok(tally.failures == 0)
}

fn read_files<R: Files + AllocGlobal>(rt: &R, names: &[String]) -> io::Result<Vec<String>> {
    let mut files = Vec::new(rt.alloc());
    for name in names {
        files.push(fs::read_to_string(rt, name.as_str())?)?;
    }
    Ok(files)
}

// Runs the tests with ids of one format. Returns whether the files could be parsed.
fn test_files<R: System>(
    rt: &R,
    format: Format,
    (names, files): (&[String], &[String]),
    tally: &mut Tally,
) -> io::Result<bool> {
    let mut script = Script::new(rt.alloc(), format);
    match parse_files(rt.alloc(), names, files, &mut script) {
        Ok(()) => {
            test_script(rt, &script, tally)?;
            Ok(true)
        }
        Err(trouble) => {
            print_trouble(rt, script.file_name, script.line_number, trouble, tally)?;
            Ok(false)
        }
    }
}

fn parse_files<'a>(
    alloc: Global,
    names: &'a [String],
    files: &'a [String],
    script: &mut Script<'a>,
) -> Result<(), Trouble> {
    for (name, text) in names.iter().zip(files) {
        script.read_file(alloc, name.as_str(), text.as_str())?;
    }
    Ok(())
}

// Returns the depth of the tests, and the names of the files.
fn split_depth_option(arguments: &[String]) -> (Depth, &[String]) {
    let Some((first, names)) = arguments.split_first() else {
        return (Depth::Full, arguments);
    };
    match Depth::from_option(first.as_str()) {
        Some(depth) => (depth, names),
        None => (Depth::Full, arguments),
    }
}

fn test_script<R: System>(rt: &R, script: &Script<'_>, tally: &mut Tally) -> io::Result<()> {
    for fact in script.facts.as_slice() {
        check_fact(rt, script, fact, tally)?;
    }
    test_cases(rt, script, tally)
}

fn test_cases<R: System>(rt: &R, script: &Script<'_>, tally: &mut Tally) -> io::Result<()> {
    for case in script.cases.as_slice() {
        test_case(rt, &*script, case, tally)?;
    }
    Ok(())
}

fn print_counts<R: Print>(rt: &R, tally: &Tally) -> io::Result<()> {
    let facts = tally.facts;
    let fact_runs = tally.fact_runs;
    let rows = tally.rows;
    let failures = tally.failures;
    println!(rt; "{facts} facts in {fact_runs} runs, {rows} rows")?;
    for (variation, runs) in Variation::ALL.iter().zip(tally.runs.iter()) {
        let name = variation.name();
        println!(rt; "{runs} runs {name}")?;
    }
    println!(rt; "{failures} wrong")
}
