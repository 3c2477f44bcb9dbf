//! Reading the arguments, and running each command.

ghost use Rattle.std.specs.Prelude.{◌≡◌, MatchResult};

use crate::checking::check;
use crate::cloning::clone_remote;
use crate::fault::Fault;
use crate::fetching::fetch_remote;
use crate::listing::list_refs;
use crate::output::{print, write_line};
use crate::sentences::{NOT_TEXT, Sentence};
use crate::serving::serve;
use crate::uploading::upload_pack;
use gitwords::{Answer, GitrepoCommand, Stream, read_words};
use std::alloc::Global;
use std::fs::File;
use std::io::{ErrorKind, IsTerminal, Write};
use std::net::Net;
use std::rt::{Clock, Env, Files};
use std::{env, fmt};

// The exit status for a failed command.
const FAILED: u8 = 1;

// The exit status for wrong arguments.
const WRONG_USAGE: u8 = 2;

// The path of the null device.
const NULL_DEVICE: &str = "/dev/null";

/// Runs `gitrepo` with the arguments, files, standard streams and sockets of the runtime. Error
/// messages, progress and the connection log are written to `stderr`. If `is_terminal` is set,
/// non-printable bytes from a peer are replaced on standard output.
///
/// Returns the exit status: 0 on success, 1 if a fault was printed, and 2 if the arguments are
/// wrong.
pub fn run_gitrepo<R, W>(rt: &R, is_terminal: bool, stderr: &mut W) -> u8
where
    R: Env + Files + Input + Print + AllocGlobal + Clock + Net,
    W: Write + IsTerminal,
{
    // A closed standard stream leaves its descriptor free. Without these files, the next file or
    // socket would get the descriptor, and messages would be written into it.
    let _input = File::open(rt, NULL_DEVICE);
    let _output = File::open(rt, NULL_DEVICE);
    let _errors = File::open(rt, NULL_DEVICE);
    run_arguments(rt, is_terminal, stderr)
}

// Runs `gitrepo` with the arguments, and returns the exit status.
fn run_arguments<R, W>(rt: &R, is_terminal: bool, stderr: &mut W) -> u8
where
    R: Env + Files + Input + Print + AllocGlobal + Clock + Net,
    W: Write + IsTerminal,
{
    let words = match arguments(rt) {
        Ok(words) => words,
        Err(kind) => return refuse_arguments(rt, kind, stderr),
    };
    match read_words(rt.alloc(), words.as_slice()) {
        Ok(command) => {
            let outcome = run_command(rt, &command, is_terminal, stderr);
            finish(rt.alloc(), outcome, stderr)
        },
        Err(answer) => print_answer(rt, &answer, stderr),
    }
}

fn arguments<R: Env + AllocGlobal>(rt: &R) -> Result<Vec<String>, ErrorKind> {
    match env::args(rt) {
        Ok(words) => match words.collect(rt.alloc()) {
            Ok(words) => Ok(words),
            Err(_) => Err(ErrorKind::OutOfMemory),
        },
        Err(error) => Err(error.kind()),
    }
}

// Prints why the arguments cannot be read, and returns the exit status.
fn refuse_arguments<R: AllocGlobal, W: Write>(rt: &R, kind: ErrorKind, errors: &mut W) -> u8 {
    if kind == ErrorKind::OutOfMemory {
        return finish(rt.alloc(), Err(Fault::Memory), errors);
    }
    let fault = Fault::of(rt.alloc(), Sentence::Text(NOT_TEXT));
    let _ = finish(rt.alloc(), Err(fault), errors);
    WRONG_USAGE
}

// Prints the answer to arguments that select no command: help, the version, or the usage after a
// mistake. Returns the exit status.
fn print_answer<R: Print + AllocGlobal, W: Write>(rt: &R, answer: &Answer, errors: &mut W) -> u8 {
    if let Answer::Memory = answer {
        return finish(rt.alloc(), Err(Fault::Memory), errors);
    }
    let text = answer.text().as_bytes();
    match answer.stream() {
        Stream::Output => {
            if let Err(fault) = print(rt, text) {
                return finish(rt.alloc(), Err(fault), errors);
            }
        }
        Stream::Error => {
            let _ = errors.write_all(text);
        }
    }
    answer.status()
}

// Prints the fault if the command failed, and returns the exit status.
fn finish<W: Write>(alloc: Global, outcome: Result<(), Fault>, errors: &mut W) -> u8
    ensures { MatchResult outcome (λ _. result ≡ 0) (λ _. result ≡ 1) }
{
    match outcome {
        Ok(()) => 0,
        Err(fault) => {
            write_line(alloc, &Message(&fault), errors);
            FAILED
        }
    }
}

// The line that reports a fault.
#[derive(Clone, Copy)]
struct Message<'f>(&'f Fault);

impl fmt::Display for Message<'_> {
    fn fmt<W: fmt::Write>(&self, f: &mut fmt::Formatter<W>) -> fmt::Result {
        let fault = self.0;
        write!(f, "gitrepo: {fault}")
    }
}

fn run_command<R, W>(
    rt: &R,
    command: &GitrepoCommand<'_>,
    is_terminal: bool,
    errors: &mut W,
) -> Result<(), Fault>
where
    R: Env + Files + Input + Print + AllocGlobal + Clock + Net,
    W: Write + IsTerminal,
{
    match command {
        GitrepoCommand::Check { dir } => check(rt, dir),
        GitrepoCommand::Clone(args) => clone_remote(rt, args, errors),
        GitrepoCommand::Fetch(args) => fetch_remote(rt, args, is_terminal, errors),
        GitrepoCommand::Ls(args) => list_refs(rt, args, is_terminal),
        GitrepoCommand::Serve(args) => serve(rt, args, errors),
        GitrepoCommand::UploadPack { dir } => upload_pack(rt, dir),
    }
}
