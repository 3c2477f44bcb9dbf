//! The declarations of the program's commands for `clap`.

use clap::{Arg, ArgAction, Command};
use std::alloc::{AllocError, Global};

/// A command: its name, the first line of its help, its usage line, its arguments, and the last
/// part of its help.
pub(crate) struct CommandRow {
    name: &'static str,
    about: &'static str,
    pub(crate) usage: &'static str,
    args: &'static [Argument],
    notes: &'static str,
}

// An argument of a command. The first field is the name of the argument, and the last field is its
// help text. The middle field of `Required` and `Optional` is the name of the option's value.
#[derive(Clone, Copy)]
enum Argument {
    // `--NAME`
    Flag(&'static str, &'static str),
    // `--NAME VALUE`, a required option.
    Required(&'static str, &'static str, &'static str),
    // `--NAME VALUE`, an option that may be omitted.
    Optional(&'static str, &'static str, &'static str),
    // An argument that must be given exactly once.
    One(&'static str, &'static str),
    // An argument that must be given at least once.
    Many(&'static str, &'static str),
    // An argument that may be given any number of times.
    Any(&'static str, &'static str),
}

const QUIET: Argument = Argument::Flag(
    "quiet",
    "Print only errors, and no progress unless --progress is given",
);

const PROGRESS: Argument = Argument::Flag(
    "progress",
    "Show progress even if standard error is not a terminal",
);

const URL: Argument = Argument::One(
    "URL",
    "The repository on the server: git://HOST[:PORT]/PATH",
);

const DIR: Argument = Argument::One(
    "DIR",
    "The repository: bare, a work tree, or a .git file that names one",
);

const PROGRAM: &str = "gitrepo";

const VERSION: &str = "0.1.0";

const PROGRAM_USAGE: &str = "gitrepo COMMAND [ARGUMENT]...";

const PROGRAM_NOTES: &str = "\
Limits:
  A repository has at most 65,536 refs, and 1,048,576 commits and tags. A pack has less than
  4 GiB. A received pack has at most 1,048,576 objects, and entries of at most 128 MiB. A
  request has at most 65,537 wants, 65,536 haves and 1,024 prefixes of ref names, or 1,024,
  4,096 and 64 while 64 other clients are connected. A server has at most 1,024 connections
  at once, if no option says more.
  Version 2 of the protocol and SHA-1 only. No shallow, partial or reftable repository.

'gitrepo COMMAND --help' describes a command.";

const COMMANDS: &[CommandRow] = &[
    CommandRow {
        name: "clone",
        about: "Clone a repository from a server",
        usage: "gitrepo clone [--quiet] [--progress] URL DIR",
        args: &[
            QUIET,
            PROGRESS,
            URL,
            Argument::One("DIR", "The directory of the new bare repository"),
        ],
        notes: "\
DIR gets the branches and tags of the server's repository, and its HEAD.
A repository with more than 65,536 branches and tags, or whose pack would have 4 GiB or
more, cannot be cloned.",
    },
    CommandRow {
        name: "fetch",
        about: "Fetch refs from a server into a repository",
        usage: "gitrepo fetch [--quiet] [--progress] DIR URL SPEC...",
        args: &[
            QUIET,
            PROGRESS,
            DIR,
            URL,
            Argument::Many(
                "SPEC",
                "A refspec [+]SOURCE:DESTINATION; at most 16 are fetched at a time",
            ),
        ],
        notes: "\
SOURCE and DESTINATION are full names of refs, or both end in /*. SOURCE may be HEAD.
A + moves a ref even if the update is not a fast-forward.
A line is printed for each requested ref:
  moved NAME ID     the ref is new, or moved to ID
  same NAME         the ref already had this id
  notforward NAME   the ref is unchanged, since the update is not a fast-forward
  unborn NAME       HEAD was requested, and its branch has no commit yet",
    },
    CommandRow {
        name: "ls",
        about: "List the refs of a repository on a server",
        usage: "gitrepo ls URL [PREFIX]...",
        args: &[
            URL,
            Argument::Any("PREFIX", "List only refs whose name begins with a PREFIX"),
        ],
        notes: "\
The output has the format of git ls-remote: each line has an id, a tab, and a name. The
line after an annotated tag has a name that ends in ^{}, and the id of the peeled tag.",
    },
    CommandRow {
        name: "serve",
        about: "Serve every repository below a directory over git://",
        usage: "gitrepo serve --listen ADDR [OPTION]... BASE",
        args: &[
            Argument::Required(
                "listen",
                "ADDR",
                "Accept connections at HOST:PORT, or at any free port if PORT is 0",
            ),
            Argument::Optional(
                "connections",
                "N",
                "End after N connections, from 1 to 1000000",
            ),
            Argument::Optional(
                "max-connections",
                "N",
                "Refuse more than N connections at once (1024 by default)",
            ),
            Argument::Optional(
                "max-per-address",
                "N",
                "Refuse more than N connections at once from one address (64 by default)",
            ),
            Argument::Flag(
                "export-all",
                "Serve also repositories without a file git-daemon-export-ok",
            ),
            Argument::One("BASE", "The directory below which the repositories are"),
        ],
        notes: "\
It prints 'listening PORT'. Then git://HOST:PORT/PATH is the repository BASE/PATH, with or
without .git at its end. A PATH with a part that begins with a dot names no repository.
A line about each connection goes to standard error. SIGTERM ends the server.",
    },
    CommandRow {
        name: "upload-pack",
        about: "Serve one repository on standard input and output",
        usage: "gitrepo upload-pack DIR",
        args: &[DIR],
        notes: "\
git clone runs it at the other end of ssh or file:// if the option -u names it:
  git clone -u 'gitrepo upload-pack' HOST:DIR
It needs GIT_PROTOCOL=version=2 in its environment, which sshd must accept.",
    },
    CommandRow {
        name: "check",
        about: "Check that all objects reachable from refs exist",
        usage: "gitrepo check DIR",
        args: &[DIR],
        notes: "If an object is missing, its id and a ref that reaches it are printed.",
    },
];

/// Returns the declaration of the program with all its commands.
pub(crate) fn program<'a>(alloc: Global) -> Result<Command<'a>, AllocError> {
    let mut program = Command::new(alloc, PROGRAM)
        .about("Clone, fetch and serve Git repositories over git://")
        .after_help(PROGRAM_NOTES)
        .version(VERSION)
        .override_usage(PROGRAM_USAGE)
        .subcommand_required(true)
        .disable_help_subcommand(true);
    for row in COMMANDS {
        program = program.subcommand(command(alloc, row)?)?;
    }
    Ok(program)
}

/// Returns the usage line of the command with this name. Returns the usage line of the program if
/// the name is unknown.
pub(crate) fn usage_of(name: &str) -> &'static str {
    match COMMANDS.iter().find(|row| row.name == name) {
        Some(row) => row.usage,
        None => PROGRAM_USAGE,
    }
}

fn command<'a>(alloc: Global, row: &CommandRow) -> Result<Command<'a>, AllocError> {
    let mut command = Command::new(alloc, row.name)
        .about(row.about)
        .after_help(row.notes)
        .override_usage(row.usage);
    for &argument in row.args {
        command = command.arg(arg(alloc, argument))?;
    }
    Ok(command)
}

fn arg<'a>(alloc: Global, argument: Argument) -> Arg<'a> {
    match argument {
        Argument::Flag(name, help) => Arg::new(alloc, name)
            .long(name)
            .action(ArgAction::SetTrue)
            .help(help),
        Argument::Required(name, value, help) => Arg::new(alloc, name)
            .long(name)
            .value_name(value)
            .required(true)
            .help(help),
        Argument::Optional(name, value, help) => Arg::new(alloc, name)
            .long(name)
            .value_name(value)
            .help(help),
        Argument::One(name, help) => Arg::new(alloc, name).required(true).help(help),
        Argument::Many(name, help) => Arg::new(alloc, name)
            .required(true)
            .num_args(1..)
            .help(help),
        Argument::Any(name, help) => Arg::new(alloc, name).num_args(0..).help(help),
    }
}
