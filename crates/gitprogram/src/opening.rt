//! Opening a repository to serve or to fetch into.

ghost use Rattle.std.specs.Prelude.{◌≡◌};
ghost use Rattle.gitprogram.specs.Sharing.{server_in};

use crate::directory::Directories;
use crate::fault::Fault;
use crate::kept::CacheKey;
use crate::sentences::{Sentence, TOO_MANY_OPEN};
use ganswer::Server;
use ggraph::{Head, Refs, Repository};
use gitobjects::{ObjectFiles, ObjectReader, StoreFault};
use gitrefs::PeeledRefs;
use gitrepository::{
    FormFault, RepositoryFault, StorePacker, Tips, add_leaves, check_form, lead_with_newest,
    open_refs, open_repository, open_store, open_tips, read_commit_graph,
};
use gname::Oid;
use std::alloc::{AllocError, Global};
use std::rt::Files;

/// A reader of the objects of a Git directory.
pub(crate) type Reader<'f, F> = ObjectReader<'f, F, Global>;

/// A packer of the objects of a Git directory.
pub(crate) type ObjectPacker<'f, F> = StorePacker<'f, F, Global>;

/// The reason why a repository is not served.
#[derive(Drop)]
pub(crate) struct NotOpened {
    /// The fault that the server reports.
    pub(crate) fault: Fault,
    /// The reason why the format of the repository is unsupported, or `None` for any other cause.
    pub(crate) form: Option<FormFault>,
    /// Whether too many other repositories are open.
    pub(crate) is_busy: bool,
}

impl NotOpened {
    /// Returns the fault for too many open repositories.
    pub(crate) fn busy(alloc: Global) -> NotOpened {
        NotOpened {
            fault: Fault::of(alloc, Sentence::Text(TOO_MANY_OPEN)),
            form: None,
            is_busy: true,
        }
    }
}

impl From<AllocError> for NotOpened {
    fn from(_refused: AllocError) -> NotOpened {
        NotOpened {
            fault: Fault::Memory,
            form: None,
            is_busy: false,
        }
    }
}

/// The part of a repository that a server has read.
#[derive(Drop)]
pub(crate) enum Extent {
    /// The whole history.
    Whole(Server<Global>),
    /// Only the objects that refs point to, and their peeled objects. Some of these objects may be
    /// missing. A server with this extent can answer only ls-refs.
    Tips(Server<Global>),
}

impl Extent {
    /// Returns the server.
    pub(crate) fn server(&self) -> &Server<Global>
        ensures { result.now ≡ server_in self.now }
    {
        match self {
            Extent::Whole(server) | Extent::Tips(server) => server,
        }
    }
}

/// The refs and HEAD that were read from a Git directory.
#[derive(Drop)]
pub(crate) struct Listed {
    found: PeeledRefs,
}

impl Listed {
    /// Returns the key in the cache of the repository in these directories.
    pub(crate) fn key<'a>(&'a self, found: &'a Directories) -> CacheKey<'a> {
        CacheKey {
            path: found.own.as_str(),
            refs: &self.found.refs,
            head: &self.found.head,
        }
    }
}

/// Returns whether the refs and HEAD of a server equal `refs` and `head`.
pub(crate) fn has_refs(server: &Server<Global>, refs: &Refs<Global>, head: &Head<Global>) -> bool {
    server.refs().as_slice() == refs.as_slice() && is_same_head(server.head(), head)
}

/// Reads the refs and HEAD of a repository.
pub(crate) fn read_listed<R: Files, F: ObjectFiles>(
    alloc: Global,
    rt: &R,
    files: &F,
    found: &Directories,
) -> Result<Listed, NotOpened> {
    match find_listed(alloc, rt, files, found) {
        Ok(found) => Ok(Listed { found }),
        Err(fault) => Err(not_opened(alloc, found, &fault)),
    }
}

fn find_listed<R: Files, F: ObjectFiles>(
    alloc: Global,
    rt: &R,
    files: &F,
    found: &Directories,
) -> Result<PeeledRefs, RepositoryFault<Global>> {
    check_form(files, alloc, found.common.as_str())?;
    Ok(found.refs(alloc, rt).read_peeled_refs()?)
}

/// Opens a repository to answer ls-refs, which needs only the objects that refs and HEAD point to.
/// If these objects cannot be determined without the history, reads the whole history.
pub(crate) fn open_for_ls_refs<F: ObjectFiles>(
    alloc: Global,
    files: &F,
    found: &Directories,
    listed: Listed,
) -> Result<Extent, NotOpened> {
    let listed = &listed.found;
    match open_tips(files, alloc, found.common.as_str(), listed) {
        Ok(Some(tips)) => Ok(Extent::Tips(make_server(alloc, found, tips)?)),
        Ok(None) => {
            let (server, _reader) = open_whole(alloc, files, found, &listed.refs, &listed.head)?;
            Ok(Extent::Whole(server))
        }
        Err(fault) => Err(not_opened(alloc, found, &fault)),
    }
}

fn is_same_head(one: &Head<Global>, other: &Head<Global>) -> bool {
    match (one, other) {
        (Head::None, Head::None) => true,
        (Head::Id(one), Head::Id(other)) => one == other,
        (Head::Symref(one), Head::Symref(other)) => one.name() == other.name(),
        _ => false,
    }
}

/// Opens the objects of a repository whose history has been read.
pub(crate) fn open_objects<'f, F: ObjectFiles>(
    alloc: Global,
    files: &'f F,
    found: &Directories,
) -> Result<ObjectPacker<'f, F>, NotOpened> {
    match open_reader(alloc, files, found.common.as_str()) {
        Ok(reader) => Ok(StorePacker::new(reader)),
        Err(fault) => Err(not_opened(alloc, found, &fault)),
    }
}

/// Opens the objects of a repository, and reads the history of the refs and HEAD in `tips`.
pub(crate) fn open_history<'f, F: ObjectFiles>(
    alloc: Global,
    files: &'f F,
    found: &Directories,
    tips: &Server<Global>,
) -> Result<(Server<Global>, ObjectPacker<'f, F>), NotOpened> {
    let (server, reader) = open_whole(alloc, files, found, tips.refs(), tips.head())?;
    Ok((server, StorePacker::new(reader)))
}

// Returns a server with the history of these refs and HEAD, and a reader of the repository's
// objects.
fn open_whole<'f, F: ObjectFiles>(
    alloc: Global,
    files: &'f F,
    found: &Directories,
    refs: &Refs<Global>,
    head: &Head<Global>,
) -> Result<(Server<Global>, Reader<'f, F>), NotOpened> {
    match find_whole(alloc, files, found.common.as_str(), refs, head) {
        Ok((whole, reader)) => Ok((make_server(alloc, found, whole)?, reader)),
        Err(fault) => Err(not_opened(alloc, found, &fault)),
    }
}

// Returns the history of these refs and HEAD, and a reader of the repository's objects.
fn find_whole<'f, F: ObjectFiles>(
    alloc: Global,
    files: &'f F,
    path: &str,
    refs: &Refs<Global>,
    head: &Head<Global>,
) -> Result<(Repository<Global>, Reader<'f, F>), RepositoryFault<Global>> {
    let mut reader = open_reader(alloc, files, path)?;
    let whole = read_history(files, path, &mut reader, refs, head)?;
    Ok((whole, reader))
}

// Returns the history that is reachable from refs and HEAD. Fails if the object of a ref is
// missing. A server must not leave out such a ref, because `git fetch --prune` would delete the
// client's copy.
fn read_history<F: ObjectFiles>(
    files: &F,
    path: &str,
    reader: &mut Reader<'_, F>,
    refs: &Refs<Global>,
    head: &Head<Global>,
) -> Result<Repository<Global>, RepositoryFault<Global>> {
    let alloc = reader.store().allocator();
    let head = head.copy_in(alloc)?;
    let commits = read_commit_graph(files, alloc, path)?;
    let repository = open_refs(reader, &commits, refs, head)?;
    match first_left_out(refs, &repository.refs) {
        Some(id) => Err(RepositoryFault::from(StoreFault::Missing(id))),
        None => Ok(repository),
    }
}

/// Returns the id of the first ref in `listed` that `held` lacks. `held` has some of the refs in
/// `listed`, in the same order.
pub(crate) fn first_left_out(listed: &Refs<Global>, held: &Refs<Global>) -> Option<Oid> {
    if held.len() == listed.len() {
        return None;
    }
    let held = held.as_slice();
    for (place, pair) in listed.as_slice().iter().enumerate() {
        match held.get(place) {
            Some(other) if other.0 == pair.0 => {}
            _ => return Some(pair.1),
        }
    }
    None
}

fn not_opened(alloc: Global, found: &Directories, fault: &RepositoryFault<Global>) -> NotOpened {
    NotOpened {
        form: form_of(fault),
        fault: repository_fault(alloc, found.common.as_str(), fault),
        is_busy: false,
    }
}

fn make_server(
    alloc: Global,
    found: &Directories,
    repository: Repository<Global>,
) -> Result<Server<Global>, NotOpened> {
    match Server::new(repository.graph, repository.refs, repository.head) {
        Ok(server) => Ok(server),
        Err(fault) => Err(NotOpened {
            form: None,
            is_busy: false,
            fault: Fault::of(
                alloc,
                Sentence::Build {
                    path: found.own.as_str(),
                    fault: &fault,
                },
            ),
        }),
    }
}

/// Opens the repository of a client that fetches from a server whose refs have the ids in `tips`.
/// Adds refs that point to the newest objects, before all other refs, so that the client sends
/// these objects as its first haves.
pub(crate) fn open_client<'f, R: Files, F: ObjectFiles>(
    alloc: Global,
    rt: &R,
    files: &'f F,
    found: &Directories,
    tips: &Tips<Global>,
) -> Result<(Repository<Global>, Reader<'f, F>), Fault> {
    match open_with_leaves(alloc, rt, files, found, tips) {
        Ok(opened) => Ok(opened),
        Err(fault) => Err(repository_fault(alloc, found.common.as_str(), &fault)),
    }
}

fn open_with_leaves<'f, R: Files, F: ObjectFiles>(
    alloc: Global,
    rt: &R,
    files: &'f F,
    found: &Directories,
    tips: &Tips<Global>,
) -> Result<(Repository<Global>, Reader<'f, F>), RepositoryFault<Global>> {
    let mut reader = open_reader(alloc, files, found.common.as_str())?;
    let repository = read_with_leaves(rt, files, found, &mut reader, tips)?;
    Ok((repository, reader))
}

// Returns the graph, refs and HEAD of a repository, with what `open_client` adds for a fetch.
fn read_with_leaves<R: Files, F: ObjectFiles>(
    rt: &R,
    files: &F,
    found: &Directories,
    reader: &mut Reader<'_, F>,
    tips: &Tips<Global>,
) -> Result<Repository<Global>, RepositoryFault<Global>> {
    let mut repository = read_repository(rt, files, found, reader)?;
    add_leaves(reader, &mut repository.graph, tips)?;
    let more = tips.as_slice().len();
    repository.refs = lead_with_newest(&repository.graph, &repository.refs, more)?;
    Ok(repository)
}

// Returns the graph, refs and HEAD of a repository.
fn read_repository<R: Files, F: ObjectFiles>(
    rt: &R,
    files: &F,
    found: &Directories,
    reader: &mut Reader<'_, F>,
) -> Result<Repository<Global>, RepositoryFault<Global>> {
    let alloc = reader.store().allocator();
    let commits = read_commit_graph(files, alloc, found.common.as_str())?;
    open_repository(&found.refs(alloc, rt), reader, &commits)
}

/// Returns a reader of the objects of the Git directory at `path`.
pub(crate) fn open_reader<'f, F: ObjectFiles>(
    alloc: Global,
    files: &'f F,
    path: &str,
) -> Result<Reader<'f, F>, RepositoryFault<Global>> {
    let store = open_store(files, alloc, path)?;
    Ok(ObjectReader::new(store)?)
}

/// Converts a fault of the repository at a path into a `Fault`.
pub(crate) fn repository_fault(
    alloc: Global,
    path: &str,
    fault: &RepositoryFault<Global>,
) -> Fault {
    Fault::of(alloc, Sentence::Repository { path, fault })
}

fn form_of(fault: &RepositoryFault<Global>) -> Option<FormFault> {
    match fault {
        RepositoryFault::Form { fault, .. } => Some(*fault),
        _ => None,
    }
}
