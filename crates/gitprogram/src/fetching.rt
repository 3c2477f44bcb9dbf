//! The command `gitrepo fetch`, and the code that it shares with `gitrepo clone`.

ghost use Rattle.std.specs.Prelude.{◌≡◌, IfOk};
ghost use Rattle.gdag.specs.Reach.{Grows};
ghost use Rattle.gitrepository.specs.Keeping.{IsKeptBy};
ghost use Rattle.gsession.specs.Keeping.{KeepsOn};

use crate::current::fetched_already;
use crate::directory::{Directories, find_repository};
use crate::fault::Fault;
use crate::history::{Planned, check_history};
use crate::limits::{LIMITS, MAX_FETCHED_PACK};
use crate::opening::{open_client, repository_fault};
use crate::output::Output;
use crate::progress::{Progress, Watched};
use crate::remote::{Remote, tips_of};
use crate::sentences::{NO_COMMIT, NO_FILE_NAME, NOT_FORWARD, Sentence};
use crate::used::check_unused;
use gclient::{
    ClientFault, FetchFault, Fetched, GitFetch, MAX_SPECS, PackOptions, RefUpdate, Repo, Spec,
    fetch_git,
};
use gcmd::{Ends, ProgramFault, StreamLimit, send_report};
use ggraph::{Head, KeepingIndexer, Refs, Repository};
use gitobject::ObjectType;
use gitobjects::StoredFiles;
use gitrefs::RefUpdate as RefMove;
use gitrepository::{
    KeptPack, Received, RepositoryFault, StoreIndexer, StoredSpool, StoredSpools, Tips,
    install_pack,
};
use gitwords::{FetchArgs, Verbosity};
use glsreply::LsReply;
use gname::{Oid, Prefix, RefName};
use gpkt::{FromRead, ToWrite};
use gtcp::{Peer, Silence};
use std::alloc::{AllocError, Global};
use std::io;
use std::io::{BufReader, BufWriter, IsTerminal, Read, Write};
use std::net::{Net, OpenStream};
use std::rt::Files;

// The size of a connection buffer.
const BUFFER: usize = 65_536;

// The maximum number of new haves in a request. Git doubles the number of new haves from request to
// request, up to 16,384. `gitv2` as a server accepts at most 4,096 haves in a request, so this
// maximum leaves room for common ids.
const MAX_BATCH: usize = 2_048;

/// The prefix of branch names.
pub(crate) const BRANCHES: &[u8] = b"refs/heads/";

/// The parameters of a fetch.
#[derive(Clone, Copy)]
pub(crate) struct Wanted<'a> {
    /// The server's repository.
    pub(crate) remote: &'a Remote,
    /// The refspecs.
    pub(crate) specs: &'a [Spec<Global>],
    /// The ids of the server's refs.
    pub(crate) tips: &'a Tips<Global>,
    /// The name of the temporary ref for the HEAD of a clone, or an empty slice for a fetch.
    pub(crate) head_ref: &'a [u8],
    /// The path of the client's repository.
    pub(crate) path: &'a str,
}

/// A client's repository, and its refs and HEAD before the fetch.
#[derive(Drop)]
pub(crate) struct Client {
    /// The refs before the fetch.
    pub(crate) before: Refs<Global>,
    /// HEAD before the fetch.
    pub(crate) head: Head<Global>,
    /// The repository.
    pub(crate) repo: Repo<Global>,
}

// An indexer of packs that a Git directory on disk receives.
type StoredIndexer<'t, 'f, 'r, R> = StoreIndexer<
    't,
    'f,
    StoredFiles<'r, R>,
    StoredSpools<'r, R, Global>,
    Global,
>;

/// A pack that a Git directory on disk received.
pub(crate) type StoredReceived<'r, R> = Received<StoredSpool<'r, R, Global>, Global>;

/// A completed transfer, before the pack is installed and the refs are updated. `P` is the type of
/// a received pack.
#[derive(Drop)]
pub(crate) struct Fetch<P: Drop> {
    /// The client's repository after the transfer, and its earlier refs.
    pub(crate) client: Client,
    /// The report of the fetch.
    pub(crate) fetched: Fetched<Global>,
    /// The received pack, or `None` if no pack was received.
    pub(crate) received: Option<P>,
}

/// A completed transfer into a Git directory on disk.
pub(crate) type StoredFetch<'r, R> = Fetch<StoredReceived<'r, R>>;

// Whether to print the report, and whether standard output is a terminal.
#[derive(Clone, Copy)]
struct Report {
    is_quiet: bool,
    is_terminal: bool,
}

/// Fetches refs into a repository, and prints the result for each ref. On a terminal, non-printable
/// bytes of ref names are replaced.
pub(crate) fn fetch_remote<R, E>(
    rt: &R,
    args: &FetchArgs<'_>,
    is_terminal: bool,
    errors: &mut E,
) -> Result<(), Fault>
where
    R: Files + Print + AllocGlobal + Net,
    E: Write + IsTerminal,
{
    let found = find_repository(rt, args.dir)?;
    let remote = Remote::new(rt.alloc(), &args.url)?;
    let report = Report {
        is_quiet: args.verbosity.quiet,
        is_terminal,
    };
    let specs = args.specs.as_slice();
    let Some(tips) = tips_unless_current(rt, &found, &remote, specs, report)? else {
        return Ok(());
    };
    let wanted = Wanted {
        remote: &remote,
        specs,
        tips: &tips,
        head_ref: b"",
        path: found.common.as_str(),
    };
    let mut progress = progress_of(rt.alloc(), args.verbosity, errors);
    fetch_found(rt, &found, report, wanted, &mut progress)
}

// Returns the ids of the server's refs. If all refs of the fetch are already up to date, prints
// the report unless it is quiet, and returns `None`.
fn tips_unless_current<R>(
    rt: &R,
    found: &Directories,
    remote: &Remote,
    specs: &[Spec<Global>],
    report: Report,
) -> Result<Option<Tips<Global>>, Fault>
where
    R: Files + Print + AllocGlobal + Net,
{
    let listed = list_sources(rt, remote, specs)?;
    match find_current(rt, found, specs, &listed)? {
        Some(fetched) => {
            print_report(rt, report, &fetched)?;
            Ok(None)
        }
        None => Ok(Some(tips_of(rt.alloc(), &listed)?)),
    }
}

// Fetches refs into the repository in these directories, and prints the result for each ref.
fn fetch_found<'r, R, E>(
    rt: &'r R,
    found: &'r Directories,
    report: Report,
    wanted: Wanted<'_>,
    progress: &mut Progress<'_, E>,
) -> Result<(), Fault>
where
    R: Files + Print + AllocGlobal + Net,
    E: Write,
{
    let outcome = receive(rt, found, wanted, progress);
    progress.finish();
    conclude(rt, found, report, outcome)
}

// Returns the server's refs whose names begin with a prefix of a refspec. The server may also list
// other refs. Fails if a refspec names a ref that the server does not have.
fn list_sources<R>(
    rt: &R,
    remote: &Remote,
    specs: &[Spec<Global>],
) -> Result<LsReply<Global>, Fault>
where
    R: AllocGlobal + Net,
{
    let prefixes = prefixes_of(rt.alloc(), remote, specs)?;
    let listed = remote.list(rt, rt.alloc(), prefixes.as_slice())?;
    check_sources(rt.alloc(), remote, &listed, specs)?;
    Ok(listed)
}

// Returns ref prefixes for ls-refs, such that each ref that a refspec matches has one of these
// prefixes.
fn prefixes_of(
    alloc: Global,
    remote: &Remote,
    specs: &[Spec<Global>],
) -> Result<Vec<Prefix>, Fault> {
    if specs.len() > MAX_SPECS {
        return Err(remote.fault(alloc, &FetchFault::Client(ClientFault::TooManySpecs)));
    }
    let mut prefixes = Vec::new(alloc);
    for spec in specs {
        match Prefix::new(alloc, spec.prefix().as_bytes()) {
            Ok(prefix) => prefixes.push(prefix)?,
            Err(_) => return Err(Fault::Memory),
        }
    }
    Ok(prefixes)
}

// Returns the report of the fetch if all refs are already up to date, and `None` otherwise.
fn find_current<R>(
    rt: &R,
    found: &Directories,
    specs: &[Spec<Global>],
    listed: &LsReply<Global>,
) -> Result<Option<Fetched<Global>>, Fault>
where
    R: Files + AllocGlobal,
{
    match fetched_already(rt, found, specs, listed) {
        Ok(fetched) => Ok(fetched),
        Err(fault) => Err(repository_fault(rt.alloc(), found.common.as_str(), &fault)),
    }
}

// Installs the pack, updates the refs, and prints the report.
fn conclude<'r, R>(
    rt: &'r R,
    found: &Directories,
    report: Report,
    outcome: Result<StoredFetch<'r, R>, Fault>,
) -> Result<(), Fault>
where
    R: Files + Print + AllocGlobal,
{
    match outcome {
        Ok(fetch) => {
            let Fetch {
                client,
                fetched,
                received,
            } = fetch;
            keep(rt, found, &client, received)?;
            print_report(rt, report, &fetched)?;
            check_moved(rt.alloc(), &fetched)
        }
        Err(fault) => Err(fault),
    }
}

/// Returns a `Progress` for a fetch.
pub(crate) fn progress_of<E: Write + IsTerminal>(
    alloc: Global,
    verbosity: Verbosity,
    errors: &mut E,
) -> Progress<'_, E> {
    let is_shown = verbosity.shows_progress(errors.is_terminal());
    Progress::new(alloc, errors, is_shown)
}

// Fails if a refspec that is not a pattern names a ref that the server does not have
// (git-fetch(1)).
fn check_sources(
    alloc: Global,
    remote: &Remote,
    listed: &LsReply<Global>,
    specs: &[Spec<Global>],
) -> Result<(), Fault> {
    for spec in specs {
        if !is_pattern(spec) && !has_source(listed, spec) {
            return Err(no_ref(alloc, remote, spec));
        }
    }
    Ok(())
}

// Returns the fault for a refspec that names a ref that the server does not have.
fn no_ref(alloc: Global, remote: &Remote, spec: &Spec<Global>) -> Fault {
    let url = remote.url.as_str();
    let name = spec.prefix().as_bytes();
    Fault::of(alloc, Sentence::NoRef { url, name })
}

// Fails if a refspec that is not a pattern names a ref that the fetch did not find. The server can
// delete the ref after the first listing of its refs.
fn check_asked(alloc: Global, wanted: Wanted<'_>, fetched: &Fetched<Global>) -> Result<(), Fault> {
    for spec in wanted.specs {
        if !is_pattern(spec) && !is_asked(alloc, fetched, spec)? {
            return Err(no_ref(alloc, wanted.remote, spec));
        }
    }
    Ok(())
}

// Returns whether the fetch has found the ref that a refspec names. An unborn HEAD counts as found.
fn is_asked(alloc: Global, fetched: &Fetched<Global>, spec: &Spec<Global>) -> Result<bool, Fault> {
    if spec.is_head() && fetched.unborn.is_some() {
        return Ok(true);
    }
    let Ok(source) = RefName::new(alloc, spec.prefix().as_bytes()) else {
        return Err(Fault::Memory);
    };
    let Ok(Some(destination)) = spec.destination(alloc, &source) else {
        return Err(Fault::Memory);
    };
    let asks = &fetched.settled.asks;
    Ok((0..asks.len()).any(|index| match asks.at(index) {
        Some((name, _id)) => *name == destination,
        None => false,
    }))
}

// Returns whether a refspec is a pattern, which can match any number of refs.
fn is_pattern(spec: &Spec<Global>) -> bool {
    spec.prefix().as_bytes().ends_with(b"/")
}

// Returns whether the server has a ref that a refspec matches. An unborn HEAD counts as a ref.
fn has_source(listed: &LsReply<Global>, spec: &Spec<Global>) -> bool {
    if spec.is_head() && listed.unborn().is_some() {
        return true;
    }
    (0..listed.len()).any(|index| match listed.at(index) {
        Some(line) => spec.matches(&line.name),
        None => false,
    })
}

// Installs the pack, and then updates the refs. Installs nothing if ref names conflict or there are
// too many refs.
fn keep<'r, R: Files + AllocGlobal>(
    rt: &'r R,
    found: &Directories,
    client: &Client,
    received: Option<StoredReceived<'r, R>>,
) -> Result<(), Fault> {
    let updates = checked_updates(rt, found, client)?;
    let Some(received) = received else {
        return move_refs(rt, found, client, updates.as_slice());
    };
    match install(rt, found, received, updates.as_slice()) {
        Ok(_kept) => move_refs(rt, found, client, updates.as_slice()),
        Err(fault) => Err(repository_fault(rt.alloc(), found.common.as_str(), &fault)),
    }
}

// Returns the refs that the fetch changes. Fails if the work tree uses one, or a name is not UTF-8.
fn checked_updates<R: Files + AllocGlobal>(
    rt: &R,
    found: &Directories,
    client: &Client,
) -> Result<Vec<RefMove>, Fault> {
    let updates = updates_of(rt.alloc(), &client.before, client.repo.refs())?;
    check_unused(rt, found, updates.as_slice())?;
    check_names(rt.alloc(), updates.as_slice())?;
    Ok(updates)
}

/// Returns the fault for a ref that is not updated for this reason.
pub(crate) fn ref_fault(alloc: Global, name: &RefName<Global>, text: &'static str) -> Fault {
    let name = name.as_bytes();
    Fault::of(alloc, Sentence::Ref { name, text })
}

// Fails at the first ref name that is not UTF-8, since a ref with this name has no file name.
fn check_names(alloc: Global, updates: &[RefMove]) -> Result<(), Fault> {
    for update in updates {
        if str::from_utf8(update.name.as_bytes()).is_err() {
            return Err(ref_fault(alloc, &update.name, NO_FILE_NAME));
        }
    }
    Ok(())
}

// Installs a pack. Git keeps all its objects until the returned `KeptPack` is dropped.
fn install<'r, R: Files + AllocGlobal>(
    rt: &'r R,
    found: &Directories,
    received: StoredReceived<'r, R>,
    updates: &[RefMove],
) -> Result<KeptPack<'r, R, Global>, RepositoryFault<Global>> {
    let alloc = rt.alloc();
    found.refs(alloc, rt).check_updates(updates)?;
    install_pack(alloc, rt, found.common.as_str(), received)
}

// Updates the refs, unless an object that they would reach was removed meanwhile.
fn move_refs<R: Files + AllocGlobal>(
    rt: &R,
    found: &Directories,
    client: &Client,
    updates: &[RefMove],
) -> Result<(), Fault> {
    if updates.is_empty() {
        return Ok(());
    }
    let alloc = rt.alloc();
    check_history(
        rt,
        Planned {
            found,
            client,
            updates,
        },
    )?;
    match found.refs(alloc, rt).update_refs(updates) {
        Ok(()) => Ok(()),
        Err(fault) => {
            let fault = RepositoryFault::from(fault);
            Err(repository_fault(alloc, found.common.as_str(), &fault))
        }
    }
}

// Returns the refs that the fetch changes.
fn updates_of(
    alloc: Global,
    before: &Refs<Global>,
    after: &Refs<Global>,
) -> Result<Vec<RefMove>, AllocError> {
    let mut updates = Vec::new(alloc);
    for pair in after.as_slice() {
        let old = before.get(&pair.0);
        if old != Some(pair.1) {
            updates.push(RefMove {
                name: pair.0.copy_in(alloc)?,
                old,
                new: pair.1,
            })?;
        }
    }
    Ok(updates)
}

// Fails if the fetch rejected an update because it is not a fast-forward.
fn check_moved(alloc: Global, fetched: &Fetched<Global>) -> Result<(), Fault> {
    let settled = &fetched.settled;
    for (index, update) in settled.updates.iter().enumerate() {
        if let RefUpdate::NotForward = update {
            if let Some((name, _id)) = settled.asks.at(index) {
                return Err(ref_fault(alloc, name, NOT_FORWARD));
            }
        }
    }
    Ok(())
}

// Prints the result for each ref, unless `report` is quiet.
fn print_report<R: Print + AllocGlobal>(
    rt: &R,
    report: Report,
    fetched: &Fetched<Global>,
) -> Result<(), Fault> {
    if report.is_quiet || fetched.settled.updates.len() != fetched.settled.asks.len() {
        return Ok(());
    }
    let mut stdout = Output::new(io::writer(rt), report.is_terminal);
    let sent = {
        let mut output = ToWrite::new(&mut stdout);
        send_report(rt.alloc(), fetched, &mut output)
    };
    match sent {
        Ok(()) => Ok(()),
        Err(ProgramFault::Memory) => Err(Fault::Memory),
        Err(_) => Err(stdout.take_fault(rt.alloc())),
    }
}

/// Performs a fetch, but changes the refs only in memory. This function writes only the temporary
/// file of the pack, and creates the folder of this file if necessary.
pub(crate) fn receive<'r, R, E>(
    rt: &'r R,
    found: &'r Directories,
    wanted: Wanted<'_>,
    progress: &mut Progress<'_, E>,
) -> Result<StoredFetch<'r, R>, Fault>
where
    R: Files + AllocGlobal + Net,
    E: Write,
{
    let files = StoredFiles::new(rt);
    match open_client(rt.alloc(), rt, &files, found, wanted.tips) {
        Ok((repository, reader)) => {
            let spools = StoredSpools::new(rt.alloc(), rt, found.common.as_str());
            let mut indexer = StoreIndexer::new(reader, wanted.tips, spools);
            let fetch = receive_with(rt, found, repository, &mut indexer, wanted, progress)?;
            check_asked(rt.alloc(), wanted, &fetch.fetched)?;
            Ok(fetch)
        }
        Err(fault) => Err(fault),
    }
}

// Fetches into a repository. The indexer indexes the received pack. Each object that the graph of
// the repository gains is an object of this pack, or one of its prerequisites.
fn receive_with<'r, R, E>(
    rt: &'r R,
    found: &Directories,
    repository: Repository<Global>,
    indexer: &mut StoredIndexer<'_, '_, 'r, R>,
    wanted: Wanted<'_>,
    progress: &mut Progress<'_, E>,
) -> Result<StoredFetch<'r, R>, Fault>
where
    R: Files + AllocGlobal + Net,
    E: Write,
    ensures before { IfOk result (λ fetch. fetch.client.before ≡ repository.refs) }
    ensures grows { IfOk result (λ fetch. Grows repository.graph.entries
        fetch.client.repo.graph.entries) }
    ensures keeps { IfOk result (λ fetch. KeepsOn (IsKeptBy indexer.old.received)
        (IsKeptBy fetch.received) repository.graph.entries fetch.client.repo.graph.entries) }
{
    match make_client(rt.alloc(), found, repository) {
        Ok(client) => receive_into(rt, client, indexer, wanted, progress),
        Err(fault) => Err(fault),
    }
}

fn make_client(
    alloc: Global,
    found: &Directories,
    repository: Repository<Global>,
) -> Result<Client, Fault>
    ensures before { IfOk result (λ client. client.before ≡ repository.refs) }
    ensures graph { IfOk result (λ client. client.repo.graph ≡ repository.graph) }
    ensures refs { IfOk result (λ client. client.repo.refs ≡ repository.refs) }
{
    let Repository { graph, refs, head } = repository;
    let before = refs.copy_in(alloc)?;
    match Repo::new(graph, refs) {
        Ok(repo) => Ok(Client { before, head, repo }),
        Err(fault) => Err(Fault::of(
            alloc,
            Sentence::Client {
                path: found.own.as_str(),
                fault: &fault,
            },
        )),
    }
}

// Fetches into the repository of a client. Each object that the client's graph gains is an object
// of the returned pack, or one of its prerequisites.
fn receive_into<'r, R, E>(
    rt: &'r R,
    client: Client,
    indexer: &mut StoredIndexer<'_, '_, 'r, R>,
    wanted: Wanted<'_>,
    progress: &mut Progress<'_, E>,
) -> Result<StoredFetch<'r, R>, Fault>
where
    R: Files + AllocGlobal + Net,
    E: Write,
    ensures before { IfOk result (λ fetch. fetch.client.before ≡ client.before) }
    ensures grows { IfOk result (λ fetch. Grows client.repo.graph.entries
        fetch.client.repo.graph.entries) }
    ensures keeps { IfOk result (λ fetch. KeepsOn (IsKeptBy indexer.old.received)
        (IsKeptBy fetch.received) client.repo.graph.entries fetch.client.repo.graph.entries) }
{
    let mut client = client;
    match converse(rt, &mut client.repo, indexer, wanted, progress) {
        Ok(fetched) => {
            check_commits(rt.alloc(), wanted, &client, indexer)?;
            Ok(Fetch {
                client,
                fetched,
                received: indexer.take_received(),
            })
        }
        Err(fault) => Err(fault),
    }
}

// Fails if a branch would point to a tag, tree or blob (git-update-ref(1)). Fails if the HEAD of a
// clone would point to a tree or blob.
fn check_commits<R: Files>(
    alloc: Global,
    wanted: Wanted<'_>,
    client: &Client,
    indexer: &StoredIndexer<'_, '_, '_, R>,
) -> Result<(), Fault> {
    for pair in client.repo.refs().as_slice() {
        if client.before.get(&pair.0) == Some(pair.1) {
            continue;
        }
        let name = pair.0.as_bytes();
        if name.starts_with(BRANCHES) && !is_commit(alloc, wanted.remote, indexer, &pair.1)? {
            return Err(ref_fault(alloc, &pair.0, NO_COMMIT));
        }
        if name == wanted.head_ref {
            check_head_commit(alloc, wanted.remote, client, indexer, &pair.1)?;
        }
    }
    Ok(())
}

// Fails if this object does not peel to a commit. The HEAD of a clone points to the peeled object.
fn check_head_commit<R: Files>(
    alloc: Global,
    remote: &Remote,
    client: &Client,
    indexer: &StoredIndexer<'_, '_, '_, R>,
    id: &Oid,
) -> Result<(), Fault> {
    let id = client.repo.graph().peel(id).unwrap_or(*id);
    if is_commit(alloc, remote, indexer, &id)? {
        return Ok(());
    }
    let url = remote.url.as_str();
    Err(Fault::of(alloc, Sentence::NoHeadCommit { url }))
}

// Returns whether an object, received or already present, is a commit.
fn is_commit<R: Files>(
    alloc: Global,
    remote: &Remote,
    indexer: &StoredIndexer<'_, '_, '_, R>,
    id: &Oid,
) -> Result<bool, Fault> {
    match indexer.kind_of(id) {
        Ok(kind) => Ok(kind == ObjectType::Commit),
        Err(fault) => Err(refused_pack(alloc, remote, &fault)),
    }
}

// Connects to the server, and performs the fetch. The indexer keeps each object that the repository
// gains, whatever the server sends.
fn converse<R, E>(
    rt: &R,
    repo: &mut Repo<Global>,
    indexer: &mut StoredIndexer<'_, '_, '_, R>,
    wanted: Wanted<'_>,
    progress: &mut Progress<'_, E>,
) -> Result<Fetched<Global>, Fault>
where
    R: Files + AllocGlobal + Net,
    E: Write,
    ensures grows { Grows repo.old.graph.entries repo.new.graph.entries }
    ensures keeps { KeepsOn (IsKeptBy indexer.old.received) (IsKeptBy indexer.new.received)
        repo.old.graph.entries repo.new.graph.entries }
{
    let stream = wanted.remote.connect(rt, rt.alloc())?;
    let peer = Peer::new(stream, Silence);
    match converse_with(rt.alloc(), &peer, repo, indexer, wanted, progress) {
        Ok(fetched) => Ok(fetched),
        Err(fault) => Err(fetch_fault(rt.alloc(), wanted, indexer, &fault)),
    }
}

// Returns the fault of a fetch, with details from the indexer if the indexer failed.
fn fetch_fault<R: Files>(
    alloc: Global,
    wanted: Wanted<'_>,
    indexer: &StoredIndexer<'_, '_, '_, R>,
    fault: &FetchFault<Global>,
) -> Fault {
    match indexer.take_fault() {
        Some(cause) if cause.is_of_spool() => repository_fault(alloc, wanted.path, &cause),
        Some(cause) => refused_pack(alloc, wanted.remote, &cause),
        None => wanted.remote.fault(alloc, fault),
    }
}

fn refused_pack(alloc: Global, remote: &Remote, fault: &RepositoryFault<Global>) -> Fault {
    let url = remote.url.as_str();
    Fault::of(alloc, Sentence::RefusedPack { url, fault })
}

// Performs a fetch over a buffered connection. The function has a type parameter for the indexer,
// because the prover does not accept a direct call with the lifetimes of a `StoredIndexer`.
fn converse_with<S, E, K>(
    alloc: Global,
    peer: &Peer<S, Silence>,
    repo: &mut Repo<Global>,
    indexer: &mut K,
    wanted: Wanted<'_>,
    progress: &mut Progress<'_, E>,
) -> Result<Fetched<Global>, FetchFault<Global>>
where
    S: Read + Write + OpenStream,
    E: Write,
    K: KeepingIndexer<Global>,
    ensures grows { Grows repo.old.graph.entries repo.new.graph.entries }
    ensures keeps { KeepsOn (K.keeps indexer.old) (K.keeps indexer.new) repo.old.graph.entries
        repo.new.graph.entries }
{
    let fetch = fetch_of(wanted, progress.is_shown());
    let Ok(mut reader) = BufReader::with_capacity(alloc, BUFFER, Watched::new(peer, progress))
    else {
        return Err(FetchFault::NoBuffer);
    };
    let Ok(mut writer) = BufWriter::with_capacity(alloc, BUFFER, peer) else {
        return Err(FetchFault::NoBuffer);
    };
    let mut source = FromRead::new(&mut reader);
    let mut sink = ToWrite::new(&mut writer);
    let fetched = fetch_git(repo, &mut source, &mut sink, indexer, &fetch);
    // Bytes in the buffer that could not be written are dropped.
    let (_peer, _unwritten) = writer.into_parts();
    fetched
}

// Returns the parameters of the fetch, which allow offset deltas in the pack.
fn fetch_of(wanted: Wanted<'_>, progress: bool) -> GitFetch<'_, Global> {
    GitFetch {
        hello: &wanted.remote.hello,
        specs: wanted.specs,
        limit: StreamLimit::new(MAX_FETCHED_PACK).unwrap_or_default(),
        ends: Ends::Plain,
        options: PackOptions {
            ofs_delta: true,
            progress,
            limits: LIMITS,
            max_batch: MAX_BATCH,
        },
    }
}
