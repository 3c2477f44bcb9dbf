//! Finding the repository at a path.

use crate::fault::Fault;
use crate::sentences::{NO_REPOSITORY, Sentence};
use gitobjects::StoredFiles;
use gitrefs::{GitDirectory, parse_common_dir, parse_git_file};
use gitrepository::is_bare;
use gitwords::{Ending, ServedPath};
use std::alloc::{AllocError, Global};
use std::fs::Files;
use std::io::ErrorKind;
use std::{fs, io};

// The file without which git-daemon(1) does not serve a repository.
const EXPORT_OK: &str = "git-daemon-export-ok";

// The maximum size of a file that contains the path of another directory.
const MAX_POINTER: u64 = 65_536;

/// The directories of a repository (gitrepository-layout(5)).
#[derive(Drop)]
pub(crate) struct Directories {
    /// The Git directory, which contains HEAD.
    pub(crate) own: String,
    /// The directory of objects and refs. A linked worktree shares this directory with its main
    /// worktree (git-worktree(1)).
    pub(crate) common: String,
    /// Whether `own` was found through a `.git` file, as for a linked worktree or a submodule.
    pub(crate) is_linked: bool,
}

impl Directories {
    /// Returns the directories of a bare repository.
    pub(crate) fn of_bare(alloc: Global, path: &str) -> Result<Directories, AllocError> {
        Ok(Directories {
            own: String::from_str(alloc, path)?,
            common: String::from_str(alloc, path)?,
            is_linked: false,
        })
    }

    /// Returns a copy of these directory paths.
    pub(crate) fn copy_in(&self, alloc: Global) -> Result<Directories, AllocError> {
        Ok(Directories {
            own: String::from_str(alloc, self.own.as_str())?,
            common: String::from_str(alloc, self.common.as_str())?,
            is_linked: self.is_linked,
        })
    }

    /// Returns the directory of packs.
    pub(crate) fn packs(&self, alloc: Global) -> Result<String, AllocError> {
        below(alloc, self.common.as_str(), "objects/pack")
    }

    /// Returns whether the repository has a work tree. A linked worktree has one (git-worktree(1)).
    /// Otherwise `core.bare` decides (git-config(1)). If `core.bare` is not set, a repository has a
    /// work tree if a `.git` file leads to it, or if its directory is named `.git`.
    pub(crate) fn has_work_tree<R>(&self, rt: &R) -> Result<bool, Fault>
    where
        R: Files + AllocGlobal,
    {
        if self.own.as_str() != self.common.as_str() {
            return Ok(true);
        }
        match is_bare(&StoredFiles::new(rt), rt.alloc(), self.common.as_str())? {
            Some(is_bare) => Ok(!is_bare),
            None => Ok(self.is_linked || is_named_git(self.own.as_str())),
        }
    }

    /// Returns the text of a file in the Git directory, or `None` if there is no such file.
    pub(crate) fn read_file<R>(&self, rt: &R, name: &str) -> Result<Option<Vec<u8>>, Fault>
    where
        R: Files + AllocGlobal,
    {
        let path = below(rt.alloc(), self.own.as_str(), name)?;
        match fs::read(rt, path.as_str()) {
            Ok(text) => Ok(Some(text)),
            Err(error) if is_absent(error.kind()) => Ok(None),
            Err(error) => Err(open_fault(rt.alloc(), path.as_str(), &error)),
        }
    }

    /// Returns access to the ref files of the repository.
    pub(crate) fn refs<'r, R: Files>(&'r self, alloc: Global, rt: &'r R) -> GitDirectory<'r, R> {
        GitDirectory::with_common_directory(alloc, rt, self.common.as_str(), self.own.as_str())
    }
}

/// Returns the repository at a path, which names a bare repository or a work tree
/// (git-upload-pack(1)). Slashes at the end of the path are ignored.
pub(crate) fn find_repository<R>(rt: &R, path: &str) -> Result<Directories, Fault>
where
    R: Files + AllocGlobal,
{
    let front = without_slashes(path);
    for ending in Ending::in_order() {
        let mut candidate = String::from_str(rt.alloc(), front)?;
        candidate.push_str(ending.text())?;
        if let Some(found) = repository_at(rt, candidate)? {
            return Ok(found);
        }
    }
    let text = NO_REPOSITORY;
    Err(Fault::of(rt.alloc(), Sentence::Path { path, text }))
}

// Returns a path without the slashes at its end. A path of slashes only keeps the first one.
fn without_slashes(path: &str) -> &str {
    let mut front = path;
    for _ in 0..path.len() {
        match front.strip_suffix('/') {
            Some(shorter) if !shorter.is_empty() => front = shorter,
            _ => break,
        }
    }
    front
}

/// The repositories that a server may serve.
#[derive(Clone, Copy)]
pub(crate) struct Exports<'a> {
    /// The directory that contains the served repositories.
    pub(crate) base: &'a str,
    /// Whether all repositories are served, even without `git-daemon-export-ok`.
    pub(crate) all: bool,
}

/// Returns the repository that a client's path names, or `None` if no served repository has this
/// path (git-daemon(1)).
pub(crate) fn find_served<R>(
    rt: &R,
    exports: Exports<'_>,
    path: &[u8],
) -> Result<Option<Directories>, Fault>
where
    R: Files + AllocGlobal,
{
    let Some(path) = served_path(path) else {
        return Ok(None);
    };
    for ending in Ending::in_order() {
        let relative = path.candidate(rt.alloc(), ending)?;
        let candidate = below(rt.alloc(), exports.base, relative.as_str())?;
        if let Some(found) = repository_at(rt, candidate)? {
            return exported_repository(rt, exports, found);
        }
    }
    Ok(None)
}

fn served_path(path: &[u8]) -> Option<ServedPath<'_>> {
    match str::from_utf8(path) {
        Ok(path) => ServedPath::parse(path),
        Err(_) => None,
    }
}

// Returns `found` if the server may serve the repository, and `None` otherwise.
fn exported_repository<R: Files + AllocGlobal>(
    rt: &R,
    exports: Exports<'_>,
    found: Directories,
) -> Result<Option<Directories>, Fault> {
    if exports.all || exists(rt, found.own.as_str(), EXPORT_OK)? {
        Ok(Some(found))
    } else {
        Ok(None)
    }
}

// Returns the repository at a path. The path names the Git directory itself, or a file that
// contains the path of the Git directory.
fn repository_at<R>(rt: &R, path: String) -> Result<Option<Directories>, Fault>
where
    R: Files + AllocGlobal,
{
    match read_pointer(rt, path.as_str())? {
        Pointer::Absent => Ok(None),
        Pointer::Directory => repository_in(rt, path, false),
        Pointer::File(text) => match parse_git_file(text.as_slice()) {
            Some(target) => follow(rt, parent_of(path.as_str()), target),
            None => Ok(None),
        },
    }
}

// Returns the repository whose Git directory has the path `target`, relative to `directory`.
fn follow<R>(rt: &R, directory: &str, target: &[u8]) -> Result<Option<Directories>, Fault>
where
    R: Files + AllocGlobal,
{
    match target_path(rt.alloc(), directory, target)? {
        Some(path) => repository_in(rt, path, true),
        None => Ok(None),
    }
}

// Returns the repository with this Git directory, or `None` if HEAD, the objects or the refs are
// missing.
fn repository_in<R>(rt: &R, own: String, is_linked: bool) -> Result<Option<Directories>, Fault>
where
    R: Files + AllocGlobal,
{
    let Some(common) = common_of(rt, own.as_str())? else {
        return Ok(None);
    };
    if !has_parts(rt, own.as_str(), common.as_str())? {
        return Ok(None);
    }
    Ok(Some(Directories {
        own,
        common,
        is_linked,
    }))
}

// Returns whether these directories contain HEAD, the objects and the refs of a repository.
fn has_parts<R: Files + AllocGlobal>(rt: &R, own: &str, common: &str) -> Result<bool, Fault> {
    Ok(exists(rt, own, "HEAD")? && exists(rt, common, "objects")? && exists(rt, common, "refs")?)
}

// Returns whether the last component of a path is `.git`, ignoring slashes at the end.
fn is_named_git(path: &str) -> bool {
    let path = path.trim_end_matches('/');
    path == ".git" || path.ends_with("/.git")
}

// Returns the common directory of a Git directory, or `None` if its file `commondir` is malformed.
fn common_of<R: Files + AllocGlobal>(rt: &R, own: &str) -> Result<Option<String>, Fault> {
    let path = below(rt.alloc(), own, "commondir")?;
    match read_pointer(rt, path.as_str())? {
        Pointer::File(text) => match parse_common_dir(text.as_slice()) {
            Some(target) => Ok(target_path(rt.alloc(), own, target)?),
            None => Ok(None),
        },
        _ => Ok(Some(String::from_str(rt.alloc(), own)?)),
    }
}

// The result of looking up a path. The path may name a directory, or a file that contains the path
// of a directory.
#[derive(Drop)]
enum Pointer {
    // Neither a directory nor a file of at most `MAX_POINTER` bytes.
    Absent,
    Directory,
    // A file with this text.
    File(Vec<u8>),
}

// Looks up a path.
fn read_pointer<R: Files + AllocGlobal>(rt: &R, path: &str) -> Result<Pointer, Fault> {
    match read_short(rt, path) {
        Ok(pointer) => Ok(pointer),
        Err(error) if is_absent(error.kind()) => Ok(Pointer::Absent),
        Err(error) => Err(open_fault(rt.alloc(), path, &error)),
    }
}

fn read_short<R: Files + AllocGlobal>(rt: &R, path: &str) -> io::Result<Pointer> {
    let metadata = rt.metadata(path)?;
    if metadata.is_dir() {
        return Ok(Pointer::Directory);
    }
    if !metadata.is_file() || metadata.len() > MAX_POINTER {
        return Ok(Pointer::Absent);
    }
    Ok(Pointer::File(fs::read(rt, path)?))
}

// Returns the path of `target` relative to `directory`, or `None` if `target` is not UTF-8.
fn target_path(
    alloc: Global,
    directory: &str,
    target: &[u8],
) -> Result<Option<String>, AllocError> {
    let Ok(target) = str::from_utf8(target) else {
        return Ok(None);
    };
    if target.starts_with('/') {
        Ok(Some(String::from_str(alloc, target)?))
    } else {
        Ok(Some(below(alloc, directory, target)?))
    }
}

// Returns the parent directory of a path.
fn parent_of(path: &str) -> &str {
    match path.rsplit_once('/') {
        Some((parent, _)) => parent,
        None => ".",
    }
}

// Returns whether a directory contains a file with this name. A dangling symbolic link also counts,
// since old versions of Git made HEAD a symbolic link.
fn exists<R: Files + AllocGlobal>(rt: &R, directory: &str, name: &str) -> Result<bool, Fault> {
    let path = below(rt.alloc(), directory, name)?;
    match rt.symlink_metadata(path.as_str()) {
        Ok(_) => Ok(true),
        Err(error) if is_absent(error.kind()) => Ok(false),
        Err(error) => Err(open_fault(rt.alloc(), path.as_str(), &error)),
    }
}

/// Returns the fault for a file that the system cannot open.
pub(crate) fn open_fault(alloc: Global, path: &str, error: &io::Error) -> Fault {
    Fault::of_call(alloc, "open", path, error)
}

// Returns whether an error means that the file does not exist.
fn is_absent(kind: ErrorKind) -> bool {
    matches!(kind, ErrorKind::NotFound | ErrorKind::NotADirectory)
}

// Returns the path of a file in a directory.
fn below(alloc: Global, directory: &str, name: &str) -> Result<String, AllocError> {
    format!(in alloc; "{directory}/{name}")
}
