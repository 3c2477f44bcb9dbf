//! The arguments of each command, as declared to `clap`.

use clap::{Arg, ArgAction, Command};
use std::alloc::{AllocError, Global};

// A flag, an option or a positional argument of a command, with its name for `clap`.
#[derive(Clone, Copy)]
enum Argument {
    // The flag `--NAME`.
    Flag(&'static str),
    // The option `--NAME VALUE`.
    Valued(&'static str),
    // A required positional argument.
    One(&'static str),
    // A positional argument with at least one value.
    Many(&'static str),
    // A positional argument with any number of values.
    Any(&'static str),
}

const FILE: Argument = Argument::One("file");

const PATH: Argument = Argument::Valued("path");

const RESPONSE_END: Argument = Argument::Flag("response-end");

const SPECS: Argument = Argument::Many("spec");

const TCP: Argument = Argument::Valued("tcp");

// The commands and the arguments of each command.
const COMMANDS: &[(&str, &[Argument])] = &[
    ("check", &[FILE]),
    ("lines", &[]),
    (
        "simulate",
        &[FILE, Argument::One("client"), Argument::One("scenario")],
    ),
    ("upload", &[RESPONSE_END, FILE]),
    (
        "fetch",
        &[
            Argument::Flag("stdio"),
            TCP,
            PATH,
            Argument::Valued("limit"),
            RESPONSE_END,
            FILE,
            SPECS,
        ],
    ),
    (
        "ls",
        &[
            Argument::Flag("stdio-server"),
            TCP,
            PATH,
            Argument::Any("word"),
        ],
    ),
    ("pair", &[FILE, Argument::One("client"), SPECS]),
    (
        "serve",
        &[
            Argument::Valued("listen"),
            PATH,
            Argument::Valued("connections"),
            RESPONSE_END,
            FILE,
        ],
    ),
];

/// Returns the declaration of the program with all of its commands.
pub(crate) fn program<'a>(alloc: Global) -> Result<Command<'a>, AllocError> {
    let mut program = Command::new(alloc, "gitv2");
    for &(name, arguments) in COMMANDS {
        program = program.subcommand(command(alloc, name, arguments)?)?;
    }
    Ok(program)
}

fn command<'a>(
    alloc: Global,
    name: &'static str,
    arguments: &[Argument],
) -> Result<Command<'a>, AllocError> {
    let mut command = Command::new(alloc, name);
    for &argument in arguments {
        command = command.arg(arg(alloc, argument))?;
    }
    Ok(command)
}

fn arg<'a>(alloc: Global, argument: Argument) -> Arg<'a> {
    match argument {
        Argument::Flag(name) => Arg::new(alloc, name).long(name).action(ArgAction::SetTrue),
        Argument::Valued(name) => Arg::new(alloc, name).long(name),
        Argument::One(name) => Arg::new(alloc, name).required(true),
        Argument::Many(name) => Arg::new(alloc, name).required(true).num_args(1..),
        Argument::Any(name) => Arg::new(alloc, name).num_args(0..),
    }
}
