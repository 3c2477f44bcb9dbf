//! The entry point of the program, which runs the command that the arguments describe.

use crate::fetching::fetch;
use crate::local::{StdioService, check, serve, show_lines};
use crate::remote::{PairArgs, list, listen, pair};
use crate::simulating::simulate;
use gargs::{Gitv2Command, read_command};
use gpkt::{Sink, ToWrite};
use std::env;
use std::io::Write;
use std::net::Net;
use std::rt::{Clock, Env, Files};

const USAGE: &[u8] = b"gitv2: usage\n";

// The exit status if the arguments do not match the usage.
const WRONG_USAGE: u8 = 2;

/// Runs `gitv2` with the arguments of the runtime, over its files, standard streams and sockets.
/// Faults and the usage line are written to `stderr`.
///
/// Returns exit status 0 on success, and 1 if a fault was printed. Returns 2 if the arguments do
/// not match the usage or are not UTF-8, or if memory for the arguments runs out.
pub fn run_gitv2<R, W>(rt: &R, stderr: &mut W) -> u8
where
    R: Env + Files + Input + Print + AllocGlobal + Clock + Net,
    W: Write,
{
    match command_of(rt) {
        Some(command) => {
            let mut errors = ToWrite::new(stderr);
            run_command(rt, &command, &mut errors)
        }
        None => {
            let _ = stderr.write_all(USAGE);
            WRONG_USAGE
        }
    }
}

// Returns the command that the arguments describe, or `None` if they do not match the usage.
fn command_of<R: Env + AllocGlobal>(rt: &R) -> Option<Gitv2Command> {
    let words: Vec<String> = env::args(rt).ok()?.collect(rt.alloc()).ok()?;
    read_command(rt.alloc(), words.as_slice())
}

fn run_command<R, E>(rt: &R, command: &Gitv2Command, errors: &mut E) -> u8
where
    R: Files + Input + Print + AllocGlobal + Clock + Net,
    E: Sink,
{
    match command {
        Gitv2Command::Check { file } => check(rt, file.as_str(), errors),
        Gitv2Command::Fetch(args) => fetch(rt, args, errors),
        Gitv2Command::Lines => show_lines(rt, errors),
        Gitv2Command::LsStdioServer { file } => serve(
            rt,
            StdioService::Request,
            file.as_str(),
            errors,
        ),
        Gitv2Command::Upload { ends, file } => {
            serve(rt, StdioService::Connection(*ends), file.as_str(), errors)
        }
        Gitv2Command::LsTcp { place, prefixes } => list(rt, place, prefixes.as_slice(), errors),
        Gitv2Command::Pair {
            server,
            client,
            specs,
        } => {
            let args = PairArgs {
                server: server.as_str(),
                client: client.as_str(),
                specs: specs.as_slice(),
            };
            pair(rt, args, errors)
        }
        Gitv2Command::Serve(args) => listen(rt, args, errors),
        Gitv2Command::Simulate(args) => simulate(rt, args, errors),
    }
}
