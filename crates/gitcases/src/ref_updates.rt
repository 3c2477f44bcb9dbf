//! Tests that read, update and clone refs, in a folder that each run creates anew.

use crate::answers::{OUT_OF_MEMORY, RunInputs, SUCCESS};
use crate::row::{Row, Update};
use crate::stores::File;
use crate::trouble::Trouble;
use ggraph::{Graph, Head, Refs, Target};
use gitrefs::{GitDirectory, RefFault, RefUpdate};
use gitrepository::{NewRepository, RepositoryFault};
use gname::{NameFault, RefName};
use std::alloc::{AllocError, AllocFailed, Allocator, Global};
use std::fs;
use std::path::Path;
use std::rt::Files;

// The folder of a test run.
const FOLDER: &str = "tried";

// The Git directory in the folder.
const GIT_DIR: &str = "tried/r";

// The branch to which the `HEAD` of a clone points.
const BRANCH: &[u8] = b"refs/heads/main";

// The URL in the configuration of a clone.
const URL: &str = "git://h/r";

// The reason why refs are rejected.
#[derive(Drop)]
enum Rejection<A: Allocator + Copy> {
    Memory,
    Name(NameFault),
    Refs(RefFault<A>),
    Repository(RepositoryFault<A>),
}

impl<A: Allocator + Copy> From<AllocError> for Rejection<A> {
    fn from(_error: AllocError) -> Rejection<A> {
        Rejection::Memory
    }
}

impl<T: Drop, A: Allocator + Copy> From<AllocFailed<T>> for Rejection<A> {
    fn from(_error: AllocFailed<T>) -> Rejection<A> {
        Rejection::Memory
    }
}

/// Returns the result of reading the refs: `ok` and the names of the refs, or the fault.
pub(crate) fn reading_refs_result<R: Files + AllocGlobal, A: Allocator + Copy>(
    rt: &R,
    tested_alloc: A,
    files: &[File],
) -> Result<String, Trouble> {
    make_folder(rt, files)?;
    let actual_result = read_and_describe(rt, tested_alloc)?;
    remove_folder(rt)?;
    Ok(actual_result)
}

// Reads the refs in the folder, and returns the result.
fn read_and_describe<R: Files + AllocGlobal, A: Allocator + Copy>(
    rt: &R,
    tested_alloc: A,
) -> Result<String, Trouble> {
    match read_refs(tested_alloc, rt, GIT_DIR) {
        Ok(refs) => format_ref_names(rt.alloc(), &refs),
        Err(fault) => format!(in rt.alloc(); "{fault}").map_err(Trouble::from),
    }
}

// Returns all refs below `refs/`.
fn read_refs<'r, R: Files, A: Allocator + Copy>(
    tested_alloc: A,
    rt: &'r R,
    git_dir: &'r str,
) -> Result<Refs<A>, RefFault<A>> {
    match GitDirectory::new(tested_alloc, rt, git_dir).read_refs() {
        Ok((refs, _)) => Ok(refs),
        Err(fault) => Err(fault),
    }
}

// Returns `ok` and the names of the refs.
fn format_ref_names<A: Allocator + Copy>(alloc: Global, refs: &Refs<A>) -> Result<String, Trouble> {
    let mut text = String::from_str(alloc, SUCCESS)?;
    for reference in refs.as_slice() {
        text.push_str(" ")?;
        text.push_str(str::from_utf8(reference.0.as_bytes()).unwrap_or("?"))?;
    }
    Ok(text)
}

/// Returns the result of updating refs: `ok` or the fault. After a fault, every ref must have its
/// old id. No lockfile may remain in any case.
pub(crate) fn ref_update_result<R: Files + AllocGlobal, A: Allocator + Copy>(
    rt: &R,
    tested_alloc: A,
    inputs: RunInputs<'_, '_>,
) -> Result<String, Trouble> {
    make_folder(rt, inputs.files)?;
    let updates = inputs.row.updates.as_slice();
    let result = update_and_describe(rt, tested_alloc, updates)?;
    remove_folder(rt)?;
    Ok(result)
}

// Updates the refs in the folder, and returns the result.
fn update_and_describe<R: Files + AllocGlobal, A: Allocator + Copy>(
    rt: &R,
    tested_alloc: A,
    updates: &[Update],
) -> Result<String, Trouble> {
    let before = read_all_refs(rt);
    let outcome = update_row_refs(rt, tested_alloc, updates);
    let after = read_all_refs(rt);
    let is_right = match &outcome {
        Ok(()) => has_new_ids(&after, updates),
        Err(_) => are_equal(&before, &after),
    };
    if has_lock(rt, updates)? {
        return String::from_str(rt.alloc(), "a lock is left").map_err(Trouble::from);
    }
    format_outcome(rt.alloc(), &outcome, is_right)
}

// Returns `ok` or the fault, if the refs are right after this outcome.
fn format_outcome<A: Allocator + Copy>(
    alloc: Global,
    outcome: &Result<(), Rejection<A>>,
    is_right: bool,
) -> Result<String, Trouble> {
    let text = match outcome {
        _ if !is_right => "refs are at other ids",
        Ok(()) => SUCCESS,
        Err(rejection) => return format_rejection(alloc, rejection),
    };
    String::from_str(alloc, text).map_err(Trouble::from)
}

fn format_rejection<A: Allocator + Copy>(
    alloc: Global,
    rejection: &Rejection<A>,
) -> Result<String, Trouble> {
    let text = match rejection {
        Rejection::Memory => String::from_str(alloc, OUT_OF_MEMORY),
        Rejection::Name(fault) => format!(in alloc; "{fault}"),
        Rejection::Refs(fault) => format!(in alloc; "{fault}"),
        Rejection::Repository(fault) => format!(in alloc; "{fault}"),
    };
    text.map_err(Trouble::from)
}

fn update_row_refs<R: Files, A: Allocator + Copy>(
    rt: &R,
    tested_alloc: A,
    updates: &[Update],
) -> Result<(), Rejection<A>> {
    let mut ref_updates = Vec::new(tested_alloc);
    add_ref_updates(tested_alloc, updates, &mut ref_updates)?;
    match update_refs(tested_alloc, rt, GIT_DIR, ref_updates.as_slice()) {
        Ok(()) => Ok(()),
        Err(fault) => Err(Rejection::Refs(fault)),
    }
}

fn add_ref_updates<A: Allocator + Copy>(
    tested_alloc: A,
    updates: &[Update],
    ref_updates: &mut Vec<RefUpdate<A>, A>,
) -> Result<(), Rejection<A>> {
    for update in updates {
        ref_updates.push(RefUpdate {
            name: ref_name_of(tested_alloc, update)?,
            old: update.old,
            new: update.new,
        })?;
    }
    Ok(())
}

fn update_refs<'r, R: Files, A: Allocator + Copy>(
    tested_alloc: A,
    rt: &'r R,
    git_dir: &'r str,
    ref_updates: &[RefUpdate<A>],
) -> Result<(), RefFault<A>> {
    GitDirectory::new(tested_alloc, rt, git_dir).update_refs(ref_updates)
}

fn ref_name_of<A: Allocator + Copy>(
    tested_alloc: A,
    update: &Update,
) -> Result<RefName<A>, Rejection<A>> {
    match RefName::new(tested_alloc, update.name.as_slice()) {
        Ok(name) => Ok(name),
        Err(fault) => Err(Rejection::Name(fault)),
    }
}

// Returns all refs, or an empty list if the refs can't be read.
fn read_all_refs<R: Files + AllocGlobal>(rt: &R) -> Refs {
    match read_refs(rt.alloc(), rt, GIT_DIR) {
        Ok(refs) => refs,
        Err(_) => Refs::new(rt.alloc()),
    }
}

// Returns whether each updated ref has its new id.
fn has_new_ids(refs: &Refs, updates: &[Update]) -> bool {
    updates.iter().all(|update| has_new_id(refs, update))
}

fn has_new_id(refs: &Refs, update: &Update) -> bool {
    refs.as_slice().iter().any(|pair| pair.0.as_bytes() == update.name.as_slice()
        && pair.1 == update.new)
}

// Returns whether the two lists of refs are equal.
fn are_equal(before: &Refs, after: &Refs) -> bool {
    before.len() == after.len()
        && before.as_slice().iter().zip(after.as_slice()).all(|(old, new)| old.0.as_bytes()
            == new.0.as_bytes()
            && old.1 == new.1)
}

// Returns whether a lockfile of an updated ref exists.
fn has_lock<R: Files + AllocGlobal>(rt: &R, updates: &[Update]) -> Result<bool, Trouble> {
    for update in updates {
        if let Ok(name) = str::from_utf8(update.name.as_slice()) {
            let path = format!(in rt.alloc(); "{GIT_DIR}/{name}.lock")?;
            if rt.symlink_metadata(path.as_str()).is_ok() {
                return Ok(true);
            }
        }
    }
    Ok(false)
}

/// Returns the result of a clone that receives the refs: `ok` or the fault. After a fault, no file
/// of the clone may remain. This test does not refuse allocations.
pub(crate) fn clone_result<R: Files + AllocGlobal>(
    rt: &R,
    row: &Row<'_>,
) -> Result<String, Trouble> {
    make_folder(rt, &[])?;
    let result = clone_and_describe(rt, row.updates.as_slice())?;
    remove_folder(rt)?;
    Ok(result)
}

// Clones into the folder, and returns the result.
fn clone_and_describe<R: Files + AllocGlobal>(
    rt: &R,
    updates: &[Update],
) -> Result<String, Trouble> {
    let alloc = rt.alloc();
    let outcome = clone_refs(rt, updates);
    if outcome.is_err() && rt.symlink_metadata(GIT_DIR).is_ok() {
        return String::from_str(alloc, "a refused clone is left").map_err(Trouble::from);
    }
    let is_right = outcome.is_err() || has_new_ids(&read_all_refs(rt), updates);
    format_outcome(alloc, &outcome, is_right)
}

fn clone_refs<R: Files + AllocGlobal>(rt: &R, updates: &[Update]) -> Result<(), Rejection<Global>> {
    let alloc = rt.alloc();
    let mut refs = Refs::new(alloc);
    set_refs(alloc, updates, &mut refs)?;
    let Some(head_target) = head_target(alloc)? else {
        return Err(Rejection::Memory);
    };
    match NewRepository::make(alloc, rt, GIT_DIR, URL, &head_target) {
        Ok(new) => write_refs(alloc, new, &refs),
        Err(fault) => Err(Rejection::Repository(fault)),
    }
}

fn set_refs(alloc: Global, updates: &[Update], refs: &mut Refs) -> Result<(), Rejection<Global>> {
    for update in updates {
        if refs.set(ref_name_of(alloc, update)?, update.new).is_err() {
            return Err(Rejection::Memory);
        }
    }
    Ok(())
}

fn head_target(alloc: Global) -> Result<Option<Target<Global>>, Rejection<Global>> {
    match RefName::new(alloc, BRANCH) {
        Ok(name) => Ok(Target::new(name)),
        Err(fault) => Err(Rejection::Name(fault)),
    }
}

// Writes the refs to a new repository.
fn write_refs<R: Files>(
    alloc: Global,
    new: NewRepository<'_, R, Global>,
    refs: &Refs<Global>,
) -> Result<(), Rejection<Global>> {
    let graph = Graph::new(alloc);
    match new.finish(None, &graph, refs, &Head::None) {
        Ok(()) => Ok(()),
        Err(fault) => Err(Rejection::Repository(fault)),
    }
}

// Creates the folder with the files of a store. A path that ends with a slash names a directory.
fn make_folder<R: Files + AllocGlobal>(rt: &R, files: &[File]) -> Result<(), Trouble> {
    let _ = fs::remove_dir_all(rt, FOLDER);
    if fs::create_dir(rt, FOLDER).is_err() {
        return Err(Trouble::FileSystem);
    }
    for file in files {
        let path = file.path.as_str();
        let path = format!(in rt.alloc(); "{FOLDER}{path}")?;
        if !create_file(rt, path.as_str(), file.bytes.as_slice()) {
            return Err(Trouble::FileSystem);
        }
    }
    Ok(())
}

fn create_file<R: Files + AllocGlobal>(rt: &R, path: &str, bytes: &[u8]) -> bool {
    if let Some(folder) = path.strip_suffix('/') {
        return fs::create_dir_all(rt, folder).is_ok();
    }
    if let Some(parent) = Path::new(path).parent() {
        if fs::create_dir_all(rt, parent).is_err() {
            return false;
        }
    }
    fs::write(rt, path, bytes).is_ok()
}

fn remove_folder<R: Files + AllocGlobal>(rt: &R) -> Result<(), Trouble> {
    match fs::remove_dir_all(rt, FOLDER) {
        Ok(()) => Ok(()),
        Err(_) => Err(Trouble::FileSystem),
    }
}
