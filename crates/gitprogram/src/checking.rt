//! The command `gitrepo check`, which checks the connectivity of the refs.

use crate::directory::{Directories, find_repository};
use crate::fault::Fault;
use crate::opening::{open_reader, repository_fault};
use crate::output::print;
use crate::sentences::Sentence;
use gitobjects::StoredFiles;
use gitrepository::{CheckFault, Checked, check_repository};
use std::alloc::{AllocError, Global};
use std::rt::Files;

/// Prints three counts for a repository: its refs, its reachable commits and tags, and its
/// reachable objects. Fails if a reachable object is missing or malformed.
pub(crate) fn check<R>(rt: &R, dir: &str) -> Result<(), Fault>
where
    R: Files + Print + AllocGlobal,
{
    let found = find_repository(rt, dir)?;
    let checked = check_found(rt, &found)?;
    let line = counts_line(rt.alloc(), checked)?;
    print(rt, line.as_bytes())
}

fn check_found<R: Files + AllocGlobal>(rt: &R, found: &Directories) -> Result<Checked, Fault> {
    let alloc = rt.alloc();
    let path = found.common.as_str();
    let files = StoredFiles::new(rt);
    let mut reader = match open_reader(alloc, &files, path) {
        Ok(reader) => reader,
        Err(fault) => return Err(repository_fault(alloc, path, &fault)),
    };
    match check_repository(&found.refs(alloc, rt), &mut reader) {
        Ok(checked) => Ok(checked),
        Err(fault) => Err(check_fault(alloc, path, &fault)),
    }
}

// Converts a fault of the check of the repository at a path.
fn check_fault(alloc: Global, path: &str, fault: &CheckFault<Global>) -> Fault {
    match fault {
        CheckFault::Repository(fault) => repository_fault(alloc, path, fault),
        CheckFault::Ref { name, fault } => {
            let name = name.as_bytes();
            Fault::of(alloc, Sentence::BrokenRef { path, name, fault })
        }
    }
}

fn counts_line(alloc: Global, checked: Checked) -> Result<String, AllocError> {
    let Checked {
        refs,
        nodes,
        objects,
    } = checked;
    format!(in alloc; "{refs} refs, {nodes} commits and tags, {objects} objects\n")
}
