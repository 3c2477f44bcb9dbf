//! The command `gitrepo clone`, which makes a bare repository with the branches and tags of a
//! server.

ghost use Rattle.std.specs.Prelude.{◌≡◌, true, IfOk, Some};
ghost use Rattle.gitprogram.specs.Heads.{IsHead, IsListedHead, IsSymrefOf, IsUnbornHead, default_branch, is_branch};
ghost use Rattle.gitprogram.specs.declared.cloning.ServerHead.TheVariants.{Branch};

use crate::directory::{Directories, open_fault};
use crate::fault::Fault;
use crate::fetching::{Fetch, StoredFetch, Wanted, progress_of, receive};
use crate::opening::repository_fault;
use crate::progress::Progress;
use crate::remote::{Remote, tips_of};
use crate::sentences::{OCCUPIED, Sentence};
use gclient::{Repo, Spec};
use ggraph::{Head, Refs, Target};
use gitrefs::{Cause, RefFault};
use gitrepository::{NewRepository, RepositoryFault, Tips};
use gitwords::CloneArgs;
use glsreply::LsReply;
use gname::{Prefix, RefName};
use std::alloc::Global;
use std::fs;
use std::io::{ErrorKind, IsTerminal, Write};
use std::net::Net;
use std::rt::Files;

// The refspecs of a clone.
const SPECS: [&[u8]; 2] = [b"+refs/heads/*:refs/heads/*", b"+refs/tags/*:refs/tags/*"];

// The ref prefixes that a clone sends in its ls-refs request.
const PREFIXES: [&[u8]; 3] = [b"HEAD", b"refs/heads/", b"refs/tags/"];

// The temporary ref for a detached HEAD during the fetch.
const HEAD_REF: &[u8] = b"refs/clone/HEAD";

// The refspec that fetches a detached HEAD into the temporary ref.
const HEAD_SPEC: &[u8] = b"+HEAD:refs/clone/HEAD";

// The prefix of branch names.
const BRANCHES: &[u8] = b"refs/heads/";

// The branch for HEAD if the server does not report its HEAD.
const DEFAULT_BRANCH: &[u8] = b"refs/heads/main";

// The HEAD of a clone, which depends on the server's reply to ls-refs.
#[derive(Drop)]
enum ServerHead {
    // A HEAD that points at this branch, which may be unborn.
    Branch(Target<Global>),
    // A detached HEAD.
    Detached,
}

// The HEAD of a clone, and the ids of the server's refs.
#[derive(Drop)]
struct ServerRefs {
    head: ServerHead,
    tips: Tips<Global>,
}

/// Clones a server's repository into a new or empty directory, as a bare repository. If the clone
/// fails, all files that it created are removed.
pub(crate) fn clone_remote<R, E>(rt: &R, args: &CloneArgs<'_>, errors: &mut E) -> Result<(), Fault>
where
    R: Files + AllocGlobal + Net,
    E: Write + IsTerminal,
{
    check_vacant(rt, args.dir)?;
    let remote = Remote::new(rt.alloc(), &args.url)?;
    let server = server_refs_of(rt, &remote)?;
    let mut progress = progress_of(rt.alloc(), args.verbosity, errors);
    let outcome = clone_server(rt, args.dir, &remote, &server, &mut progress);
    progress.finish();
    outcome
}

// Returns the HEAD for the clone, and the ids of the server's refs. The names of the refs can use
// much memory, so this function drops them. The fetch lists the refs again.
fn server_refs_of<R: AllocGlobal + Net>(rt: &R, remote: &Remote) -> Result<ServerRefs, Fault> {
    let alloc = rt.alloc();
    let listed = remote.list(rt, alloc, prefixes(alloc)?.as_slice())?;
    let head = head_of(alloc, &listed)?;
    let tips = tips_of(alloc, &listed)?;
    Ok(ServerRefs { head, tips })
}

// Fails if the path exists, unless it is an empty directory.
fn check_vacant<R: Files + AllocGlobal>(rt: &R, dir: &str) -> Result<(), Fault> {
    let alloc = rt.alloc();
    match fs::read_dir(&(rt, &alloc), dir) {
        Ok(mut entries) => match entries.next() {
            None => Ok(()),
            Some(_) => Err(occupied_fault(alloc, dir)),
        },
        Err(error) => match error.kind() {
            ErrorKind::NotFound => Ok(()),
            ErrorKind::NotADirectory if rt.symlink_metadata(dir).is_ok() => {
                Err(occupied_fault(alloc, dir))
            }
            _ => Err(open_fault(alloc, dir, &error)),
        },
    }
}

// Returns the fault for a destination that exists and is not an empty directory.
fn occupied_fault(alloc: Global, path: &str) -> Fault {
    Fault::of(
        alloc,
        Sentence::Path {
            path,
            text: OCCUPIED,
        },
    )
}

fn prefixes(alloc: Global) -> Result<Vec<Prefix>, Fault> {
    let mut prefixes = Vec::new(alloc);
    for text in PREFIXES {
        match Prefix::new(alloc, text) {
            Ok(prefix) => prefixes.push(prefix)?,
            Err(_) => return Err(Fault::Memory),
        }
    }
    Ok(prefixes)
}

// Returns the refspecs of a clone. A detached HEAD is fetched into a temporary ref.
fn specs(alloc: Global, head: &ServerHead) -> Result<Vec<Spec>, Fault> {
    let mut specs = Vec::new(alloc);
    for text in SPECS {
        push_spec(alloc, &mut specs, text)?;
    }
    if let ServerHead::Detached = head {
        push_spec(alloc, &mut specs, HEAD_SPEC)?;
    }
    Ok(specs)
}

fn push_spec(alloc: Global, specs: &mut Vec<Spec>, text: &[u8]) -> Result<(), Fault> {
    match Spec::parse(alloc, text) {
        Ok(spec) => {
            specs.push(spec)?;
            Ok(())
        }
        Err(_) => Err(Fault::Memory),
    }
}

// Returns the HEAD for the clone, given the server's reply to ls-refs.
fn head_of(alloc: Global, reply: &LsReply<Global>) -> Result<ServerHead, Fault>
    ensures { IfOk result (IsHead reply.now.unborn reply.now.lines) }
{
    match reply.unborn() {
        Some(target) => unborn_head(alloc, target),
        None => listed_head(alloc, reply),
    }
}

// Returns the HEAD for the clone of a server whose HEAD is unborn and points at this name. If the
// name is not a branch name, the result points at the default branch.
fn unborn_head(alloc: Global, name: &RefName<Global>) -> Result<ServerHead, Fault>
    ensures { IfOk result (IsUnbornHead name.now) }
{
    if is_branch(name) {
        branch_of(alloc, name)
    } else {
        default_branch(alloc)
    }
}

// Returns the HEAD for the clone, given the first line of the reply. If HEAD is not in the first
// line, the result points at the default branch.
fn listed_head(alloc: Global, reply: &LsReply<Global>) -> Result<ServerHead, Fault>
    ensures { IfOk result (IsListedHead reply.now.lines) }
{
    match reply.at(0) {
        Some(line) if line.name.is_head() => match &line.symref {
            Some(target) => symref_of(alloc, target),
            None => Ok(ServerHead::Detached),
        },
        _ => default_branch(alloc),
    }
}

// Returns the HEAD for the clone of a server whose HEAD is a symbolic ref to this name. As in
// Git, the result is detached if the name is not a branch name.
fn symref_of(alloc: Global, name: &RefName<Global>) -> Result<ServerHead, Fault>
    ensures { IfOk result (IsSymrefOf (Some name.now)) }
{
    if is_branch(name) {
        branch_of(alloc, name)
    } else {
        Ok(ServerHead::Detached)
    }
}

// Returns whether a name is a branch name.
fn is_branch(name: &RefName<Global>) -> bool
    ensures { result ≡ is_branch name.now }
{
    name.as_bytes().starts_with(BRANCHES)
}

// Returns a HEAD that points at this branch.
fn branch_of(alloc: Global, name: &RefName<Global>) -> Result<ServerHead, Fault>
    requires { is_branch name.now ≡ true }
    ensures { IfOk result (λ head. head ≡ Branch name.now) }
{
    match Target::new(name.copy_in(alloc)?) {
        Some(target) => Ok(ServerHead::Branch(target)),
        None => unreachable!(),
    }
}

fn default_branch(alloc: Global) -> Result<ServerHead, Fault>
    ensures { IfOk result (λ head. head ≡ Branch default_branch) }
{
    Ok(ServerHead::Branch(default_target(alloc)?))
}

fn default_target(alloc: Global) -> Result<Target<Global>, Fault>
    ensures { IfOk result (λ target. target ≡ default_branch) }
{
    let Ok(name) = RefName::new(alloc, DEFAULT_BRANCH) else {
        return Err(Fault::Memory);
    };
    match Target::new(name) {
        Some(target) => Ok(target),
        None => Err(Fault::Memory),
    }
}

// Creates the repository, and fetches the server's refs into it.
fn clone_server<R, E>(
    rt: &R,
    dir: &str,
    remote: &Remote,
    server: &ServerRefs,
    progress: &mut Progress<'_, E>,
) -> Result<(), Fault>
where
    R: Files + AllocGlobal + Net,
    E: Write,
{
    let alloc = rt.alloc();
    let ServerRefs { head, tips } = server;
    let specs = specs(alloc, head)?;
    let found = Directories::of_bare(alloc, dir)?;
    let wanted = Wanted {
        remote,
        specs: specs.as_slice(),
        tips,
        head_ref: HEAD_REF,
        path: dir,
    };
    let new = make(rt, dir, remote, head)?;
    fill(rt, &found, new, wanted, progress)
}

// Returns the fault for a repository that cannot be created. A possible cause is that another
// process has just created a repository in the same directory.
fn make_fault(alloc: Global, dir: &str, fault: &RepositoryFault<Global>) -> Fault {
    match fault {
        RepositoryFault::Refs(
            RefFault::File {
                cause: Cause::Exists,
                ..
            },
        ) => occupied_fault(alloc, dir),
        _ => repository_fault(alloc, dir, fault),
    }
}

// Creates the repository, with a HEAD that points at a branch.
fn make<'r, R: Files + AllocGlobal>(
    rt: &'r R,
    dir: &'r str,
    remote: &Remote,
    head: &ServerHead,
) -> Result<NewRepository<'r, R, Global>, Fault> {
    let alloc = rt.alloc();
    let branch = match head {
        ServerHead::Branch(target) => target.copy_in(alloc)?,
        ServerHead::Detached => default_target(alloc)?,
    };
    match NewRepository::make(alloc, rt, dir, remote.url.as_str(), &branch) {
        Ok(new) => Ok(new),
        Err(fault) => Err(make_fault(alloc, dir, &fault)),
    }
}

// Fetches into the new repository, and installs the pack and the refs.
fn fill<'r, R, E>(
    rt: &'r R,
    found: &'r Directories,
    new: NewRepository<'r, R, Global>,
    wanted: Wanted<'_>,
    progress: &mut Progress<'_, E>,
) -> Result<(), Fault>
where
    R: Files + AllocGlobal + Net,
    E: Write,
{
    match receive(rt, found, wanted, progress) {
        Ok(fetch) => keep(rt.alloc(), found, new, fetch),
        Err(fault) => Err(fault),
    }
}

// Installs the pack and the refs in the new repository.
fn keep<'r, R: Files>(
    alloc: Global,
    found: &Directories,
    new: NewRepository<'r, R, Global>,
    fetch: StoredFetch<'r, R>,
) -> Result<(), Fault> {
    let Fetch {
        client,
        received,
        ..
    } = fetch;
    let (refs, head) = kept_refs(alloc, &client.repo)?;
    match new.finish(received, client.repo.graph(), &refs, &head) {
        Ok(()) => Ok(()),
        Err(fault) => Err(repository_fault(alloc, found.own.as_str(), &fault)),
    }
}

// Returns the branches and tags of the clone, and its HEAD if HEAD is detached, or `Head::None`
// otherwise. A HEAD that is detached at a tag is peeled to the tag's commit.
fn kept_refs(alloc: Global, repo: &Repo<Global>) -> Result<(Refs<Global>, Head<Global>), Fault> {
    let mut kept = Refs::new(alloc);
    let mut head = Head::None;
    for pair in repo.refs().as_slice() {
        if pair.0.as_bytes() == HEAD_REF {
            head = Head::Id(repo.graph().peel(&pair.1).unwrap_or(pair.1));
        } else if kept.set(pair.0.copy_in(alloc)?, pair.1).is_err() {
            return Err(Fault::Memory);
        }
    }
    Ok((kept, head))
}
