//! The parser of the arguments of `gitrepo`.

ghost use Rattle.std.specs.Prelude.{◌≤◌, IfOk, IfSome, length};
ghost use Rattle.gitwords.specs.Commands.{IsCommand, IsConnectionLimit, IsUrl};
ghost use Rattle.gitwords.specs.Urls.{IsListenAddress};

use crate::answer::Answer;
use crate::command::{CloneArgs, FetchArgs, GitrepoCommand, LsArgs, ServeArgs, Verbosity};
use crate::fault::UrlFault;
use crate::number::connections_of;
use crate::url::{GitUrl, is_listen_address};
use crate::usage::{program, usage_of};
use clap::ArgMatches;
use clap::error::ErrorKind;
use gname::{NameFault, OUT_OF_MEMORY_TEXT, Prefix};
use grefs::{Spec, SpecFault};
use std::alloc::{AllocError, AllocFailed, Global};
use std::fmt;

// The reason to refuse arguments that `clap` accepts.
#[derive(Drop)]
enum ArgFault<'a> {
    // The argument with this name is missing.
    Missing(&'static str),
    // An argument is not a valid `git://` URL.
    Url(UrlFault<'a>),
    // This argument is not a refspec.
    Spec(&'a str),
    // This argument is not a prefix of a ref name.
    Prefix(&'a str),
    // This argument is not a listening address.
    Address(&'a str),
    // This argument is not a number of connections from 1 to 1,000,000.
    Connections(&'a str),
    // Out of memory.
    Memory,
}

/// Parses the arguments, the first of which is the program name, into a command. The returned
/// command is well-formed (`specs/Commands.antt`).
///
/// Fails with the answer to print if the arguments request help or the version, if the arguments
/// are wrong, or if out of memory.
pub fn read_words<'a>(alloc: Global, arguments: &'a [String]) -> Result<GitrepoCommand<'a>, Answer>
    ensures { IfOk result IsCommand }
{
    let matches = match parse(alloc, arguments) {
        Ok(matches) => matches,
        Err(error) => return Err(answer_of_clap(alloc, error)),
    };
    let Some((name, matches)) = matches.subcommand() else {
        return Err(answer_of(alloc, "", ArgFault::Missing("COMMAND")));
    };
    match read_command(alloc, name, matches) {
        Ok(command) => Ok(command),
        Err(fault) => Err(answer_of(alloc, name, fault)),
    }
}

fn parse<'a>(alloc: Global, arguments: &'a [String]) -> Result<ArgMatches<'a>, clap::Error> {
    program(alloc)?.try_get_matches_from(arguments)
}

// Returns the answer for an error of `clap`: wrong arguments, help or the version.
fn answer_of_clap(alloc: Global, error: clap::Error) -> Answer {
    let kind = error.kind();
    if kind == ErrorKind::OutOfMemory {
        return Answer::Memory;
    }
    match format!(in alloc; "{error}") {
        Ok(text) if matches!(kind, ErrorKind::DisplayHelp | ErrorKind::DisplayVersion) => {
            Answer::Asked(text)
        }
        Ok(text) => Answer::Usage(text),
        Err(_) => Answer::Memory,
    }
}

// Returns the answer for wrong arguments of a command, in the format of `clap`.
fn answer_of(alloc: Global, name: &str, fault: ArgFault<'_>) -> Answer {
    if let ArgFault::Memory = fault {
        return Answer::Memory;
    }
    let usage = usage_of(name);
    let text = format!(in alloc;
        "error: {fault}\n\nUsage: {usage}\n\nFor more information, try '--help'.\n"
    );
    match text {
        Ok(text) => Answer::Usage(text),
        Err(_) => Answer::Memory,
    }
}

fn read_command<'a>(
    alloc: Global,
    name: &str,
    args: &ArgMatches<'a>,
) -> Result<GitrepoCommand<'a>, ArgFault<'a>>
    ensures { IfOk result IsCommand }
{
    match name {
        "clone" => clone_command(args),
        "fetch" => fetch_command(alloc, args),
        "ls" => ls_command(alloc, args),
        "serve" => serve_command(args),
        "upload-pack" => Ok(GitrepoCommand::UploadPack {
            dir: required_arg(args, "DIR")?,
        }),
        "check" => Ok(GitrepoCommand::Check {
            dir: required_arg(args, "DIR")?,
        }),
        _ => Err(ArgFault::Missing("COMMAND")),
    }
}

fn clone_command<'a>(args: &ArgMatches<'a>) -> Result<GitrepoCommand<'a>, ArgFault<'a>>
    ensures { IfOk result IsCommand }
{
    Ok(GitrepoCommand::Clone(CloneArgs {
        verbosity: verbosity(args),
        url: url(args)?,
        dir: required_arg(args, "DIR")?,
    }))
}

fn fetch_command<'a>(
    alloc: Global,
    args: &ArgMatches<'a>,
) -> Result<GitrepoCommand<'a>, ArgFault<'a>>
    ensures { IfOk result IsCommand }
{
    Ok(GitrepoCommand::Fetch(FetchArgs {
        verbosity: verbosity(args),
        dir: required_arg(args, "DIR")?,
        url: url(args)?,
        specs: specs(alloc, args)?,
    }))
}

fn ls_command<'a>(alloc: Global, args: &ArgMatches<'a>) -> Result<GitrepoCommand<'a>, ArgFault<'a>>
    ensures { IfOk result IsCommand }
{
    Ok(GitrepoCommand::Ls(LsArgs {
        url: url(args)?,
        prefixes: prefixes(alloc, args)?,
    }))
}

fn serve_command<'a>(args: &ArgMatches<'a>) -> Result<GitrepoCommand<'a>, ArgFault<'a>>
    ensures { IfOk result IsCommand }
{
    Ok(GitrepoCommand::Serve(ServeArgs {
        listen: listen(args)?,
        connections: connections(args, "connections")?,
        max_connections: connections(args, "max-connections")?,
        max_per_address: connections(args, "max-per-address")?,
        export_all: args.get_flag("export-all"),
        base: required_arg(args, "BASE")?,
    }))
}

// Returns the argument with this name. Fails with `Missing` if the argument is absent.
fn required_arg<'a>(args: &ArgMatches<'a>, name: &'static str) -> Result<&'a str, ArgFault<'a>> {
    match args.get_str(name) {
        Some(text) => Ok(text),
        None => Err(ArgFault::Missing(name)),
    }
}

fn url<'a>(args: &ArgMatches<'a>) -> Result<GitUrl<'a>, ArgFault<'a>>
    ensures { IfOk result IsUrl }
{
    match GitUrl::parse(required_arg(args, "URL")?) {
        Ok(url) => Ok(url),
        Err(fault) => Err(ArgFault::Url(fault)),
    }
}

fn listen<'a>(args: &ArgMatches<'a>) -> Result<&'a str, ArgFault<'a>>
    ensures { IfOk result (λ address. IsListenAddress address.now) }
{
    let address = required_arg(args, "listen")?;
    if is_listen_address(address) {
        Ok(address)
    } else {
        Err(ArgFault::Address(address))
    }
}

// Returns the number of connections that an option specifies, or `None` if the option is absent.
fn connections<'a>(args: &ArgMatches<'a>, name: &'static str) -> Result<Option<u32>, ArgFault<'a>>
    ensures { IfOk result (λ count. IfSome count IsConnectionLimit) }
{
    let Some(text) = args.get_str(name) else {
        return Ok(None);
    };
    match connections_of(text) {
        Some(count) => Ok(Some(count)),
        None => Err(ArgFault::Connections(text)),
    }
}

fn verbosity(args: &ArgMatches<'_>) -> Verbosity {
    Verbosity {
        quiet: args.get_flag("quiet"),
        progress: args.get_flag("progress"),
    }
}

fn specs<'a>(alloc: Global, args: &ArgMatches<'a>) -> Result<Vec<Spec>, ArgFault<'a>>
    ensures { IfOk result (λ specs. 1 ≤ length specs.items) }
{
    let mut specs = Vec::new(alloc);
    if let Some(texts) = args.get_strs("SPEC") {
        for text in texts {
            specs.push(read_spec(alloc, text)?)?;
        }
    }
    if specs.is_empty() {
        Err(ArgFault::Missing("SPEC"))
    } else {
        Ok(specs)
    }
}

fn read_spec<'a>(alloc: Global, text: &'a str) -> Result<Spec, ArgFault<'a>> {
    match Spec::parse(alloc, text.as_bytes()) {
        Ok(spec) => Ok(spec),
        Err(SpecFault::BadSpec) => Err(ArgFault::Spec(text)),
        Err(SpecFault::Memory) => Err(ArgFault::Memory),
    }
}

fn prefixes<'a>(alloc: Global, args: &ArgMatches<'a>) -> Result<Vec<Prefix>, ArgFault<'a>> {
    let mut prefixes = Vec::new(alloc);
    if let Some(texts) = args.get_strs("PREFIX") {
        for text in texts {
            prefixes.push(read_prefix(alloc, text)?)?;
        }
    }
    Ok(prefixes)
}

fn read_prefix<'a>(alloc: Global, text: &'a str) -> Result<Prefix, ArgFault<'a>> {
    match Prefix::new(alloc, text.as_bytes()) {
        Ok(prefix) => Ok(prefix),
        Err(NameFault::Memory) => Err(ArgFault::Memory),
        Err(_) => Err(ArgFault::Prefix(text)),
    }
}

impl fmt::Display for ArgFault<'_> {
    fn fmt<W: fmt::Write>(&self, f: &mut fmt::Formatter<W>) -> fmt::Result {
        match self {
            ArgFault::Missing(name) => write!(f, "the argument {name} is missing"),
            ArgFault::Url(fault) => write!(f, "{fault}"),
            ArgFault::Spec(text) => {
                write!(
                    f,
                    "'{text}' is not a refspec: write [+]SOURCE:DESTINATION, both full names, or both ending in /*"
                )
            }
            ArgFault::Prefix(text) => {
                write!(
                    f,
                    "'{text}' is not a ref prefix: write the first bytes of a ref's name"
                )
            }
            ArgFault::Address(text) => {
                write!(
                    f,
                    "'{text}' is not an address: write HOST:PORT, with a port from 0 to 65535"
                )
            }
            ArgFault::Connections(text) => {
                write!(
                    f,
                    "'{text}' is not a valid connection limit: write a number from 1 to 1000000"
                )
            }
            ArgFault::Memory => f.write_str(OUT_OF_MEMORY_TEXT),
        }
    }
}

impl From<AllocError> for ArgFault<'_> {
    fn from(_refused: AllocError) -> Self {
        ArgFault::Memory
    }
}

impl<T: Drop> From<AllocFailed<T>> for ArgFault<'_> {
    fn from(_refused: AllocFailed<T>) -> Self {
        ArgFault::Memory
    }
}
