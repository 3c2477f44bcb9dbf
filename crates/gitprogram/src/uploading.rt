//! The command `gitrepo upload-pack`, which serves one client on standard input and output.

ghost use Rattle.std.specs.Prelude.{◌≡◌};
ghost use Rattle.gitprogram.specs.Versions.{is_version_2, names_version_2};

use crate::directory::{Directories, find_repository};
use crate::disk::Disk;
use crate::fault::Fault;
use crate::first_line::FirstLine;
use crate::limits::LIMITS;
use crate::notes::Notes;
use crate::refusals::send_error;
use crate::repositories::Repositories;
use crate::sentences::{NO_VERSION_2, Sentence};
use crate::shared::{RecordsFault, Shared};
use crate::stored::{ServedFrom, Stored};
use crate::visits::{Outcome, begin, outcome_of};
use gevents::End;
use gitobjects::StoredFiles;
use gparts::PartPacker;
use gpkt::{FromRead, Sink, Source, ToWrite};
use gserver::{Host, ServedRepository};
use gtalk::{Connection, TalkFault, drive};
use std::alloc::{AllocError, Global};
use std::io::{BufReader, BufWriter};
use std::rt::{Env, Files};
use std::{env, io};

/// The size of the buffer for reply bytes.
pub(crate) const REPLY_BUFFER: usize = 65_536;

// The error line for a client with an older protocol.
const OLD_PROTOCOL: &[u8] =
    b"gitrepo serves protocol version 2 alone: use git -c protocol.version=2";

// The error line if there is no repository at the path.
const NOT_THERE: &[u8] = b"upload-pack: no such repository";

/// Serves a repository on standard input and output (git-upload-pack(1)).
pub(crate) fn upload_pack<R>(rt: &R, dir: &str) -> Result<(), Fault>
where
    R: Env + Files + Input + Print + AllocGlobal,
{
    let alloc = rt.alloc();
    let Ok(mut reader) = BufReader::new(alloc, rt.reader()) else {
        return Err(Fault::Memory);
    };
    let Ok(mut writer) = BufWriter::with_capacity(alloc, REPLY_BUFFER, io::writer(rt)) else {
        return Err(Fault::Memory);
    };
    let mut source = FromRead::new(&mut reader);
    let mut sink = ToWrite::new(&mut writer);
    let upload = upload_to(rt, dir, &mut source, &mut sink);
    // Bytes in the buffer that could not be written are dropped.
    let (_writer, _unwritten) = writer.into_parts();
    upload
}

// Serves the repository, reading requests from `source` and writing replies to `sink`.
fn upload_to<R, S: Source, W: Sink>(
    rt: &R,
    dir: &str,
    source: &mut S,
    sink: &mut W,
) -> Result<(), Fault>
where
    R: Env + Files + AllocGlobal,
{
    if !has_version_2(rt) {
        let _ = send_error(OLD_PROTOCOL, sink);
        return Err(Fault::of(rt.alloc(), Sentence::Text(NO_VERSION_2)));
    }
    let path = expand_home(rt, dir)?;
    match find_repository(rt, path.as_str()) {
        Ok(found) => upload_found(rt, &found, source, sink),
        Err(fault) => {
            let _ = send_error(NOT_THERE, sink);
            Err(fault)
        }
    }
}

// Serves the repository in these directories.
fn upload_found<R, S: Source, W: Sink>(
    rt: &R,
    found: &Directories,
    source: &mut S,
    sink: &mut W,
) -> Result<(), Fault>
where
    R: Files + AllocGlobal,
{
    let files = StoredFiles::new(rt);
    let stored = Stored::new(rt, &files, ServedFrom::Only(found));
    upload_stored(rt.alloc(), &stored, source, sink)
}

// Serves one client the repository that `disk` finds.
fn upload_stored<D: Disk, S: Source, W: Sink>(
    alloc: Global,
    disk: &D,
    source: &mut S,
    sink: &mut W,
) -> Result<(), Fault> {
    let notes = Notes::new(alloc);
    let repositories = Repositories::new(alloc, disk, &notes);
    converse::<Repositories<'_, D>, Shared<'_, D>, FirstLine<'_, S>, W>(
        alloc,
        &repositories,
        &notes,
        &mut FirstLine::new(source),
        sink,
    )
}

// Serves one client until its connection ends.
fn converse<'h, H, K, S: Source, W: Sink>(
    alloc: Global,
    host: &'h H,
    notes: &'h Notes,
    source: &mut S,
    sink: &mut W,
) -> Result<(), Fault>
where
    H: Host<Global, K>,
    K: ServedRepository<Global> + PartPacker<Global> + RecordsFault + Drop,
{
    let mut connection = Connection::new(begin(alloc, host, notes, LIMITS), alloc);
    let end = match drive(&mut connection, source, sink) {
        Ok(()) => End::Over,
        Err(TalkFault::Memory) => End::Memory,
        Err(TalkFault::Io) => End::Lost,
    };
    let Outcome { fault, .. } = outcome_of::<H, K>(alloc, connection, end);
    match fault {
        Some(fault) => Err(fault),
        None => Ok(()),
    }
}

// Replaces a leading `~/` by the HOME directory, since the shell does not expand a quoted path.
fn expand_home<R: Env + AllocGlobal>(rt: &R, dir: &str) -> Result<String, AllocError> {
    let Some(rest) = dir.strip_prefix("~/") else {
        return String::from_str(rt.alloc(), dir);
    };
    match env::var(rt, "HOME") {
        Ok(home) => {
            let home = home.as_str();
            format!(in rt.alloc(); "{home}/{rest}")
        }
        Err(_) => String::from_str(rt.alloc(), dir),
    }
}

// Returns whether the client requests version 2 of the protocol (gitprotocol-v2(5), "SSH and File
// Transport").
fn has_version_2<R: Env + AllocGlobal>(rt: &R) -> bool {
    match env::var(rt, "GIT_PROTOCOL") {
        Ok(keys) => names_version_2(keys.as_str()),
        Err(_) => false,
    }
}

// Returns whether one of the colon-separated keys is `version=2`.
fn names_version_2(keys: &str) -> bool
    ensures { result ≡ names_version_2 keys.now }
{
    keys.as_bytes()
        .split(|byte| *byte == b':')
        .any(|key| is_version_2(key))
}

fn is_version_2(key: &[u8]) -> bool
    ensures { result ≡ is_version_2 key.now }
{
    key == b"version=2".as_slice()
}
