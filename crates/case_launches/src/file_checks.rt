//! Checks of the files that a program leaves in its folder.

use crate::plan::Plan;
use case_text::{FinalItem, InitialItem, Script, Trouble};
use std::fs;
use std::os::unix::fs::{MetadataExt, PermissionsExt};
use std::rt::Files;

// The bits of a file mode that are permissions.
const PERMISSION_BITS: u32 = 0o7777;

/// The names and inode numbers of files that a launch must not replace.
#[derive(Drop)]
pub(crate) struct InodeNumbers<'b> {
    numbers: Vec<(&'b str, u64)>,
}

impl<'b> InodeNumbers<'b> {
    /// Returns the inode numbers of the files that the program must not replace.
    pub(crate) fn of_kept_files<R: AllocGlobal + Files>(
        rt: &R,
        final_items: &[FinalItem<'b>],
    ) -> Result<InodeNumbers<'b>, Trouble> {
        let mut numbers = Vec::new(rt.alloc());
        for final_item in final_items {
            if let FinalItem::SameFile { name } = final_item {
                numbers.push((*name, inode_of(rt, name)))?;
            }
        }
        Ok(InodeNumbers { numbers })
    }

    /// Returns the name of the first file that did not exist before the launch, or whose inode
    /// number has changed, if any.
    pub(crate) fn first_changed<R: Files>(&self, rt: &R) -> Option<&'b str> {
        for &(name, number) in self.numbers.as_slice() {
            if number == 0 || inode_of(rt, name) != number {
                return Some(name);
            }
        }
        None
    }
}

// Returns the inode number of a file, or 0 if there is no such file.
fn inode_of<R: Files>(rt: &R, name: &str) -> u64 {
    match fs::symlink_metadata(rt, name) {
        Ok(metadata) => metadata.ino(),
        Err(_) => 0,
    }
}

/// Returns the name of the first file that has unexpected permissions, if any.
pub(crate) fn first_wrong_mode<'b, R: Files>(
    rt: &R,
    final_items: &[FinalItem<'b>],
) -> Option<&'b str> {
    for final_item in final_items {
        if let FinalItem::Mode { name, mode } = final_item {
            if !has_mode(rt, name, *mode) {
                return Some(*name);
            }
        }
    }
    None
}

fn has_mode<R: Files>(rt: &R, name: &str, mode: u32) -> bool {
    match fs::metadata(rt, name) {
        Ok(metadata) => metadata.permissions().mode() & PERMISSION_BITS == mode,
        Err(_) => false,
    }
}

/// Returns the name of the first file that has unexpected contents or a new lockfile, if any. Files
/// that the plan does not list must be unchanged.
pub(crate) fn first_wrong_file<'b, R: AllocGlobal + Files>(
    rt: &R,
    plan: &Plan<'b>,
) -> Result<Option<&'b str>, Trouble> {
    let initial_items = plan.initial_items.as_slice();
    let final_items = plan.final_items.as_slice();
    match first_wrong_final_item(rt, plan.script, final_items)? {
        None => first_wrong_initial_item(rt, plan.script, initial_items, final_items),
        wrong_item => Ok(wrong_item),
    }
}

fn first_wrong_final_item<'b, R: AllocGlobal + Files>(
    rt: &R,
    script: &Script<'_>,
    final_items: &[FinalItem<'b>],
) -> Result<Option<&'b str>, Trouble> {
    for final_item in final_items {
        if !is_right_at_end(rt, script, final_item)? {
            return Ok(Some(name_of(final_item)));
        }
    }
    Ok(None)
}

// Returns whether an item is as expected after the launch.
fn is_right_at_end<R: AllocGlobal + Files>(
    rt: &R,
    script: &Script<'_>,
    final_item: &FinalItem<'_>,
) -> Result<bool, Trouble> {
    Ok(match final_item {
        FinalItem::File { name, text } => has_contents(rt, name, script.text(text)?),
        FinalItem::Absent { name } => inode_of(rt, name) == 0,
        FinalItem::Link { name } => is_link(rt, name),
        FinalItem::Mode { .. } | FinalItem::SameFile { .. } => true,
    })
}

fn name_of<'b>(final_item: &FinalItem<'b>) -> &'b str {
    match final_item {
        FinalItem::File { name, .. }
        | FinalItem::Absent { name }
        | FinalItem::Mode { name, .. }
        | FinalItem::Link { name }
        | FinalItem::SameFile { name } => *name,
    }
}

fn first_wrong_initial_item<'b, R: AllocGlobal + Files>(
    rt: &R,
    script: &Script<'_>,
    initial_items: &[InitialItem<'b>],
    final_items: &[FinalItem<'_>],
) -> Result<Option<&'b str>, Trouble> {
    for initial_item in initial_items {
        if let InitialItem::File { name, text } = initial_item {
            let is_as_planned = is_listed(final_items, name)
                || has_contents(rt, name, script.text(text)?);
            if !is_as_planned || has_new_lockfile(rt, initial_items, name)? {
                return Ok(Some(*name));
            }
        }
    }
    Ok(None)
}

// Returns whether the file has a lockfile that did not exist before the launch.
fn has_new_lockfile<R: AllocGlobal + Files>(
    rt: &R,
    initial_items: &[InitialItem<'_>],
    file: &str,
) -> Result<bool, Trouble> {
    let lockfile = format!(in rt.alloc(); "{file}.lock")?;
    Ok(inode_of(rt, lockfile.as_str()) != 0 && !is_initial_item(initial_items, lockfile.as_str()))
}

// Returns whether the plan lists the expected text of this file, or its absence.
fn is_listed(final_items: &[FinalItem<'_>], file: &str) -> bool {
    for item in final_items {
        match item {
            FinalItem::File { name, .. } | FinalItem::Absent { name } if *name == file =>
                return true,
            _ => {}
        }
    }
    false
}

fn is_initial_item(initial_items: &[InitialItem<'_>], file: &str) -> bool {
    for item in initial_items {
        match item {
            InitialItem::File { name, .. } if *name == file => return true,
            _ => {}
        }
    }
    false
}

fn has_contents<R: AllocGlobal + Files>(rt: &R, name: &str, expected: &[u8]) -> bool {
    match fs::read(rt, name) {
        Ok(bytes) => bytes.as_slice() == expected,
        Err(_) => false,
    }
}

fn is_link<R: Files>(rt: &R, name: &str) -> bool {
    match fs::symlink_metadata(rt, name) {
        Ok(metadata) => metadata.is_symlink(),
        Err(_) => false,
    }
}
