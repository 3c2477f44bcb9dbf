//! The branches that a work tree uses, which a fetch must not move.

use crate::directory::Directories;
use crate::fault::Fault;
use crate::fetching::{BRANCHES, ref_fault};
use crate::opening::repository_fault;
use crate::sentences::{CHECKED_OUT, UNFINISHED};
use ggraph::Head;
use gitrefs::RefUpdate as RefMove;
use gitrepository::RepositoryFault;
use gname::RefName;
use std::alloc::Global;
use std::rt::Files;

// The files of a Git directory that name the branches of an unfinished rebase or bisection, one in
// a line (git-rebase(1), git-bisect(1)).
const UNFINISHED_FILES: [&str; 4] = [
    "rebase-merge/head-name",
    "rebase-merge/update-refs",
    "rebase-apply/head-name",
    "BISECT_START",
];

/// Fails if an update would change a branch that the work tree uses. This is the checked-out branch
/// (git-fetch(1), "--update-head-ok"), and the branches of an unfinished rebase or bisection.
pub(crate) fn check_unused<R>(rt: &R, found: &Directories, updates: &[RefMove]) -> Result<(), Fault>
where
    R: Files + AllocGlobal,
{
    if !found.has_work_tree(rt)? {
        return Ok(());
    }
    check_head(rt, found, updates)?;
    for name in UNFINISHED_FILES {
        check_unfinished(rt, found, name, updates)?;
    }
    Ok(())
}

// Fails if an update would change the checked-out branch.
fn check_head<R>(rt: &R, found: &Directories, updates: &[RefMove]) -> Result<(), Fault>
where
    R: Files + AllocGlobal,
{
    let read = found.refs(rt.alloc(), rt).read_refs();
    match read {
        Ok((_refs, head)) => check_head_branch(rt.alloc(), &head, updates),
        Err(fault) => {
            let fault = RepositoryFault::from(fault);
            Err(repository_fault(rt.alloc(), found.common.as_str(), &fault))
        }
    }
}

fn check_head_branch(alloc: Global, head: &Head<Global>, updates: &[RefMove]) -> Result<(), Fault> {
    let Head::Symref(branch) = head else {
        return Ok(());
    };
    let branch = branch.name();
    if updates.iter().any(|update| update.name == *branch) {
        return Err(ref_fault(alloc, branch, CHECKED_OUT));
    }
    Ok(())
}

// Fails if an update would change a branch that this file of the Git directory names.
fn check_unfinished<R>(
    rt: &R,
    found: &Directories,
    file: &str,
    updates: &[RefMove],
) -> Result<(), Fault>
where
    R: Files + AllocGlobal,
{
    let Some(text) = found.read_file(rt, file)? else {
        return Ok(());
    };
    for update in updates {
        if names_branch(text.as_slice(), &update.name) {
            return Err(ref_fault(rt.alloc(), &update.name, UNFINISHED));
        }
    }
    Ok(())
}

// Returns whether a line of a text is the name of this branch, with or without `refs/heads/`.
fn names_branch(text: &[u8], name: &RefName<Global>) -> bool {
    let name = name.as_bytes();
    match name.strip_prefix(BRANCHES) {
        Some(short) => has_line(text, name) || has_line(text, short),
        None => false,
    }
}

fn has_line(text: &[u8], wanted: &[u8]) -> bool {
    for line in text.split(|byte| *byte == b'\n') {
        if line == wanted {
            return true;
        }
    }
    false
}
