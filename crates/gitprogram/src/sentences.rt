//! The error messages of failed commands, and the faults in the connection log. Most messages name
//! a cause. Many messages also name a file, a URL or a remedy.

use crate::limits::LIMITS;
use ganswer::{BuildFault, ServeFault};
use gclient::{ClientFault, FetchFault, MAX_SPECS, RepoFault};
use ggrammar::Why;
use ggraph::{GraphFault, MAX_NODES, MAX_REFS, PackFault};
use gitobjects::{Cause, FileFault, StoreFault};
use gitrefs::RefFault;
use gitrepository::{FormFault, RepositoryFault};
use gitwords::{Shown, clean_byte};
use gname::OUT_OF_MEMORY_TEXT;
use gpkt::PacketFault;
use gtcp::MAX_SILENCE;
use std::alloc::Global;
use std::io::ErrorKind;
use std::{fmt, io};

/// The message for an argument that is not UTF-8.
pub(crate) const NOT_TEXT: &str = "an argument is not UTF-8: gitrepo takes no other names";

/// The message for a client whose path does not name a served repository.
pub(crate) const NOT_SERVED: &str = "no repository is served at this path";

/// The message for a lost connection to a client.
pub(crate) const CLIENT_LOST: &str = "the connection to the client was lost";

/// The message for too many repositories with open objects.
pub(crate) const TOO_MANY_OPEN: &str = "the objects of too many repositories are open";

/// The message for a client that did not send its first line or a request in time.
pub(crate) const CLIENT_SILENT: &str = "the client sent no request in its time";

/// The message for a client that accepted no byte in time.
pub(crate) const CLIENT_STALLED: &str = "the client took nothing in its time";

/// The message for a connection that exceeded its time limit.
pub(crate) const CLIENT_SLOW: &str = "the connection took too long";

/// The message for a client of `upload-pack` that did not request version 2.
pub(crate) const NO_VERSION_2: &str =
    "GIT_PROTOCOL does not ask for version 2: use git -c protocol.version=2, \
    and let sshd accept GIT_PROTOCOL";

/// The message for a failed write to standard output without an error of the system.
pub(crate) const NO_OUTPUT: &str = "cannot write to standard output";

/// The text for a path that does not lead to a Git repository. The path precedes it.
pub(crate) const NO_REPOSITORY: &str =
    "is not a Git repository: name a bare repository or a work tree";

/// The text for the destination of a clone that exists and is not an empty directory. Its path
/// precedes the text.
pub(crate) const OCCUPIED: &str = "exists and is not an empty directory: name a new one";

/// Why a fetch does not update the checked-out branch.
pub(crate) const CHECKED_OUT: &str = "is checked out: fetch into another ref";

/// Why a fetch does not update a branch of an unfinished rebase or bisection.
pub(crate) const UNFINISHED: &str = "is being rebased or bisected: fetch into another ref";

/// Why a fetch does not move a ref if the update is not a fast-forward.
pub(crate) const NOT_FORWARD: &str =
    "is not moved, as this is no fast-forward: put + before its refspec";

/// Why a fetch does not set a branch to an object that is not a commit.
pub(crate) const NO_COMMIT: &str =
    "would be at a tag, a tree or a blob, but a branch is at a commit: fetch into refs/tags/";

/// Why a fetch moves no ref if another ref no longer leads to the objects that it led to before.
pub(crate) const LOST: &str = "was deleted or moved during the fetch: fetch again";

/// Why a fetch does not update a ref whose name is not UTF-8.
pub(crate) const NO_FILE_NAME: &str = "is not UTF-8: fetch into another ref";

/// An error message with its parameters.
#[derive(Clone, Copy)]
pub(crate) enum Sentence<'a> {
    /// A message without parameters.
    Text(&'static str),
    /// A path, and what is wrong with it.
    Path {
        path: &'a str,
        text: &'static str,
    },
    /// A ref, and why it is not updated.
    Ref {
        name: &'a [u8],
        text: &'static str,
    },
    /// A system call failed. The message begins with `cannot`, the call and the name.
    Refused {
        call: &'static str,
        name: &'a str,
        error: &'a io::Error,
    },
    /// Reading or writing a repository failed.
    Repository {
        path: &'a str,
        fault: &'a RepositoryFault<Global>,
    },
    /// A ref, or an object that a ref reaches, is missing or malformed.
    BrokenRef {
        path: &'a str,
        name: &'a [u8],
        fault: &'a RepositoryFault<Global>,
    },
    /// The HEAD of a clone would point to an object that is not a commit.
    NoHeadCommit {
        url: &'a str,
    },
    /// A repository cannot be served.
    Build {
        path: &'a str,
        fault: &'a BuildFault<Global>,
    },
    /// The program cannot fetch into a repository.
    Client {
        path: &'a str,
        fault: &'a RepoFault<Global>,
    },
    /// The path of the URL is not allowed in the first line of a connection.
    Address {
        url: &'a str,
    },
    /// The conversation with the server failed.
    Fetch {
        url: &'a str,
        fault: &'a FetchFault<Global>,
    },
    /// The server does not have a requested ref.
    NoRef {
        url: &'a str,
        name: &'a [u8],
    },
    /// The server's pack is refused.
    RefusedPack {
        url: &'a str,
        fault: &'a RepositoryFault<Global>,
    },
    /// A client's request is refused.
    Request(&'a ServeFault),
}

impl fmt::Display for Sentence<'_> {
    fn fmt<W: fmt::Write>(&self, f: &mut fmt::Formatter<W>) -> fmt::Result {
        match self {
            Sentence::Text(text) => f.write_str(text),
            Sentence::Path { path, text } => write!(f, "{path} {text}"),
            Sentence::Ref { name, text } => write!(f, "{} {text}", Clean(name)),
            Sentence::Refused { call, name, error } => write_refused(call, name, error, f),
            Sentence::Repository { path, fault } => write_repository(path, fault, f),
            Sentence::BrokenRef { path, name, fault } => write_broken_ref(path, name, fault, f),
            Sentence::NoHeadCommit { url } => write!(
                f,
                "HEAD of {url} is at a tree or a blob: make a repository by 'git init --bare', and fetch into that"
            ),
            Sentence::Build { path, fault } => write_fault("cannot serve", path, *fault, f),
            Sentence::Client { path, fault } => write_fault("cannot fetch into", path, *fault, f),
            Sentence::Address { url } => write!(
                f,
                "cannot ask for {url}: its path must have ASCII characters alone, 1,000 at most"
            ),
            Sentence::Fetch { url, fault } => write_fetch(url, fault, f),
            Sentence::NoRef { url, name } => write!(
                f,
                "{url} has no ref {}: 'gitrepo ls {url}' lists those that it has",
                Clean(name)
            ),
            Sentence::RefusedPack { url, fault } => {
                write!(f, "the pack from {url} is refused: {fault}")
            }
            Sentence::Request(fault) => write_request(fault, f),
        }
    }
}

// Writes the message for a failed system call.
fn write_refused<W: fmt::Write, D: fmt::Display>(
    call: &str,
    name: &D,
    error: &io::Error,
    f: &mut fmt::Formatter<W>,
) -> fmt::Result {
    write!(f, "cannot {call} {name}: ")?;
    write_reason(error, f)
}

// Writes a message that begins with this text and the name of a repository, and ends with a fault.
fn write_fault<W: fmt::Write, D: fmt::Display>(
    text: &str,
    name: &str,
    fault: &D,
    f: &mut fmt::Formatter<W>,
) -> fmt::Result {
    write!(f, "{text} {name}: {fault}")
}

// Writes the reason for a failed system call: a text for the kind of the error, or the error itself
// if the kind is unknown.
fn write_reason<W: fmt::Write>(error: &io::Error, f: &mut fmt::Formatter<W>) -> fmt::Result {
    match error.kind() {
        ErrorKind::Other | ErrorKind::Uncategorized => fmt::Display::fmt(error, f),
        ErrorKind::NotFound => f.write_str("there is none"),
        kind => fmt::Display::fmt(&kind, f),
    }
}

// ---- faults of local repositories

fn write_repository<W: fmt::Write>(
    path: &str,
    fault: &RepositoryFault<Global>,
    f: &mut fmt::Formatter<W>,
) -> fmt::Result {
    match fault {
        RepositoryFault::Memory => f.write_str(OUT_OF_MEMORY_TEXT),
        RepositoryFault::Refs(fault) => write_refs(path, fault, f),
        RepositoryFault::File { path, error } => write_refused("write", path, error, f),
        RepositoryFault::Store(StoreFault::File(fault)) => write_store_file(fault, f),
        RepositoryFault::Form { fault, .. } => write!(f, "{path} {}", form_text(*fault)),
        _ if fault.is_of_spool() => write_fault("cannot fetch into", path, fault, f),
        RepositoryFault::Objects => write!(
            f,
            "{path} has more than {} commits and tags: use git",
            Thousands(MAX_NODES)
        ),
        _ => write!(f, "{path}: {fault}: 'git fsck' says more"),
    }
}

// Writes the message for a fault of an object file.
fn write_store_file<W: fmt::Write>(
    fault: &FileFault<Global>,
    f: &mut fmt::Formatter<W>,
) -> fmt::Result {
    let reason = match fault.cause {
        Cause::Open(ErrorKind::NotFound) | Cause::List(ErrorKind::NotFound) => "there is none",
        Cause::Open(ErrorKind::Other | ErrorKind::Uncategorized) => {
            "the cause is unknown; if too many files are open, 'git gc' makes one pack of all"
        }
        _ => return fmt::Display::fmt(fault, f),
    };
    write!(f, "cannot open {}: {reason}", fault.path)
}

/// Returns the text about an unsupported format. In a message, this text follows the name of the
/// repository.
pub(crate) fn form_text(fault: FormFault) -> &'static str {
    match fault {
        FormFault::Shallow => "is shallow: 'git fetch --unshallow' makes it whole",
        FormFault::ObjectFormat => "has SHA-256 ids: gitrepo reads SHA-1 ids alone",
        FormFault::RefStorage =>
            "has a reftable: 'git refs migrate --ref-format=files' makes files of it",
        FormFault::PartialClone => "is a partial clone: clone it without --filter",
        FormFault::Version =>
            "has an unknown version, as core.repositoryFormatVersion says: use git",
        FormFault::Extension => "has an unknown extension, as its config says: use git",
        FormFault::Config =>
            "has a config that gitrepo can't read: write it anew with 'git config'",
    }
}

// Writes the message for a ref whose file is malformed, or whose history is incomplete.
fn write_broken_ref<W: fmt::Write>(
    path: &str,
    name: &[u8],
    fault: &RepositoryFault<Global>,
    f: &mut fmt::Formatter<W>,
) -> fmt::Result {
    match fault {
        RepositoryFault::Refs(RefFault::File { cause, .. }) => {
            write_broken(path, name, cause, f)
        }
        _ => write_broken(path, name, fault, f),
    }
}

fn write_broken<W: fmt::Write, D: fmt::Display>(
    path: &str,
    name: &[u8],
    cause: &D,
    f: &mut fmt::Formatter<W>,
) -> fmt::Result {
    write!(f, "{path}: {}: {cause}: 'git fsck' says more", Clean(name))
}

fn write_refs<W: fmt::Write>(
    repository: &str,
    fault: &RefFault<Global>,
    f: &mut fmt::Formatter<W>,
) -> fmt::Result {
    let RefFault::File { path, cause } = fault else {
        return f.write_str(OUT_OF_MEMORY_TEXT);
    };
    let file = RefFile {
        repository,
        path: path.as_str(),
    };
    match cause {
        gitrefs::Cause::System(error) => write_refused("read or write", &file, error, f),
        gitrefs::Cause::Locked => write!(
            f,
            "{file} is locked: wait for the other process, or remove {file}.lock if there is none"
        ),
        gitrefs::Cause::Moved => write!(
            f,
            "{file} has moved meanwhile, or its object is missing: fetch again, or see 'git fsck'"
        ),
        gitrefs::Cause::Refs => write!(
            f,
            "{file}: there are more than {} refs: use git",
            Thousands(MAX_REFS)
        ),
        cause => write!(f, "{file}: {cause}{}", remedy_for(cause)),
    }
}

// Returns the text that follows the cause of a fault of a ref file.
fn remedy_for(cause: &gitrefs::Cause) -> &'static str {
    match cause {
        gitrefs::Cause::Conflict | gitrefs::Cause::Symbolic | gitrefs::Cause::Utf8 => {
            ": fetch into another ref"
        }
        _ => "",
    }
}

// The path of a ref file. Peers choose ref names, so non-printable bytes of ref names are replaced.
#[derive(Clone, Copy)]
struct RefFile<'a> {
    repository: &'a str,
    path: &'a str,
}

impl fmt::Display for RefFile<'_> {
    fn fmt<W: fmt::Write>(&self, f: &mut fmt::Formatter<W>) -> fmt::Result {
        match self.path.strip_prefix(self.repository) {
            Some(name) => write!(f, "{}{}", self.repository, Clean(name.as_bytes())),
            None => f.write_str(self.path),
        }
    }
}

// ---- faults of a conversation with a server

fn write_fetch<W: fmt::Write>(
    url: &str,
    fault: &FetchFault<Global>,
    f: &mut fmt::Formatter<W>,
) -> fmt::Result {
    match fault {
        FetchFault::Client(fault) => {
            write!(f, "cannot fetch from {url}: ")?;
            write_client(fault, f)
        }
        FetchFault::NoBuffer => f.write_str(OUT_OF_MEMORY_TEXT),
        FetchFault::WriteFailed => {
            write!(
                f,
                "cannot fetch from {url}: the connection was lost: try again"
            )
        }
    }
}

fn write_client<W: fmt::Write>(
    fault: &ClientFault<Global>,
    f: &mut fmt::Formatter<W>,
) -> fmt::Result {
    match fault {
        ClientFault::Message(fault) => write_message(fault.frame, &fault.why, f),
        ClientFault::TooManySpecs => write!(
            f,
            "there are more than {MAX_SPECS} refspecs: give fewer at a time"
        ),
        ClientFault::StrangeAck { id } => write!(
            f,
            "the server acknowledges a commit that it was not asked for: {id}"
        ),
        ClientFault::TooManyWants => write!(
            f,
            "more than {} objects are wanted at once: fetch fewer refs at a time",
            Thousands(LIMITS.wants)
        ),
        ClientFault::Repo(fault) => write_repo(fault, f),
        _ => fmt::Display::fmt(fault, f),
    }
}

fn write_repo<W: fmt::Write>(fault: &RepoFault<Global>, f: &mut fmt::Formatter<W>) -> fmt::Result {
    match fault {
        RepoFault::NotConnected { missing } => write!(
            f,
            "the server did not send an object that it owes: {missing}"
        ),
        RepoFault::Graph(GraphFault::TooMany) => write!(
            f,
            "there are more than {} commits and tags",
            Thousands(MAX_NODES)
        ),
        RepoFault::Refs(_) => write!(
            f,
            "there are more than {} refs, or one of them is HEAD",
            Thousands(MAX_REFS)
        ),
        _ => fmt::Display::fmt(fault, f),
    }
}

// Writes the message for a malformed or unexpected packet from the server.
fn write_message<W: fmt::Write>(frame: u64, why: &Why, f: &mut fmt::Formatter<W>) -> fmt::Result {
    match why {
        Why::RemoteErr(text) | Why::RemoteFatal(text) => {
            write!(f, "the server says: {}", Clean(text.as_bytes()))
        }
        Why::Line(PacketFault::Io | PacketFault::Failed) => write!(
            f,
            "the connection was lost, or the server was silent for {MAX_SILENCE} seconds: try again"
        ),
        Why::Limit => write!(
            f,
            "the pack has 4 GiB or more, or there are more than {} refs: fetch fewer refs at a time",
            Thousands(MAX_REFS)
        ),
        _ => match packet_text(frame, why) {
            Some(text) => f.write_str(text),
            None => write!(
                f,
                "packet {frame} of the server's answer is malformed: {why}"
            ),
        },
    }
}

// Returns the message for a malformed or unexpected packet, or `None` if the message has
// parameters.
fn packet_text(frame: u64, why: &Why) -> Option<&'static str> {
    match why {
        Why::Ended | Why::Line(PacketFault::Truncated) => {
            Some("the connection ended early: try again")
        }
        Why::Format => Some("its object format is not SHA-1: use git"),
        Why::BadText if frame == 0 => Some(
            "the server does not speak protocol version 2, or its repository is shallow: use git",
        ),
        Why::Memory | Why::Line(PacketFault::Memory) => Some(OUT_OF_MEMORY_TEXT),
        _ => None,
    }
}

// ---- faults of a request from a client

fn write_request<W: fmt::Write>(fault: &ServeFault, f: &mut fmt::Formatter<W>) -> fmt::Result {
    match fault {
        ServeFault::Request(fault) => write_request_message(fault.frame, &fault.why, f),
        ServeFault::NotOurs { id } => {
            write!(f, "the client wants an object that no ref reaches: {id}")
        }
        ServeFault::Pack(PackFault::TooLarge) => {
            f.write_str("the pack would have 4 GiB or more: fetch fewer refs at a time")
        }
        _ => fmt::Display::fmt(fault, f),
    }
}

// Writes the message for a malformed or unexpected packet from the client.
fn write_request_message<W: fmt::Write>(
    frame: u64,
    why: &Why,
    f: &mut fmt::Formatter<W>,
) -> fmt::Result {
    let text = match why {
        Why::Ended | Why::Line(PacketFault::Truncated) => "the client ended the connection early",
        Why::Line(PacketFault::Io | PacketFault::Failed) => {
            "the connection to the client was lost, or its time was over"
        }
        Why::Limit => "the request has too many wants, haves or prefixes of ref names",
        Why::Memory | Why::Line(PacketFault::Memory) => OUT_OF_MEMORY_TEXT,
        _ => return write!(f, "packet {frame} of the request is refused: {why}"),
    };
    f.write_str(text)
}

// ---- helpers

/// Bytes from a peer, displayed on one line with a question mark for each non-printable byte.
#[derive(Clone, Copy)]
pub(crate) struct Clean<'a>(pub(crate) &'a [u8]);

impl fmt::Display for Clean<'_> {
    fn fmt<W: fmt::Write>(&self, f: &mut fmt::Formatter<W>) -> fmt::Result {
        for byte in self.0 {
            f.write_char(clean_char(*byte))?;
        }
        Ok(())
    }
}

// Returns the character to display for a byte. Line feeds and tabs are also replaced, so that the
// text stays on one line.
fn clean_char(byte: u8) -> char {
    match clean_byte(byte, Shown::Lines) {
        b'\n' | b'\t' => '?',
        byte => char::from(byte),
    }
}

// A number with thousands separators.
#[derive(Clone, Copy)]
struct Thousands(usize);

impl fmt::Display for Thousands {
    fn fmt<W: fmt::Write>(&self, f: &mut fmt::Formatter<W>) -> fmt::Result {
        let Thousands(number) = self;
        let millions = number / 1_000_000;
        let thousands = number / 1_000 % 1_000;
        let ones = number % 1_000;
        if millions > 0 {
            write!(f, "{millions},{thousands:03},{ones:03}")
        } else if thousands > 0 {
            write!(f, "{thousands},{ones:03}")
        } else {
            write!(f, "{ones}")
        }
    }
}
