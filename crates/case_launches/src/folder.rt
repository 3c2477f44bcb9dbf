//! The folder in which the launched program runs.

use case_text::{InitialItem, Script, Trouble};
use std::fs::Permissions;
use std::os::unix::fs::{PermissionsExt, symlink};
use std::rt::{Env, Files};
use std::{env, fs, io};

/// The name of the folder in which the launched program runs.
pub(crate) const FOLDER: &str = "launch";

/// The permissions with which the owner can read and remove an item.
const OWNER_ALL: u32 = 0o700;

/// Creates an empty folder, and makes it the current directory.
pub(crate) fn enter_folder<R: AllocGlobal + Env + Files>(rt: &R) -> Result<(), Trouble> {
    let _ = fs::remove_dir_all(rt, FOLDER);
    fs::create_dir(rt, FOLDER)?;
    env::set_current_dir(rt, FOLDER).map_err(Trouble::from)
}

/// Returns to the parent directory, and removes the folder with all its contents.
pub(crate) fn leave_folder<R: AllocGlobal + Env + Files>(rt: &R) -> Result<(), Trouble> {
    env::set_current_dir(rt, "..")?;
    fs::remove_dir_all(rt, FOLDER).map_err(Trouble::from)
}

/// Creates the items that exist before the launch.
pub(crate) fn create_items<R: Files>(
    rt: &R,
    script: &Script<'_>,
    initial_items: &[InitialItem<'_>],
) -> Result<(), Trouble> {
    for item in initial_items {
        create_item(rt, script, item)?;
    }
    Ok(())
}

fn create_item<R: Files>(
    rt: &R,
    script: &Script<'_>,
    item: &InitialItem<'_>,
) -> Result<(), Trouble> {
    let created = match item {
        InitialItem::File { name, text } => fs::write(rt, *name, script.text(text)?),
        InitialItem::Folder { name } => fs::create_dir(rt, *name),
        InitialItem::Link { name, target } => symlink(rt, *target, *name),
        InitialItem::Mode { name, mode } => set_mode(rt, name, *mode),
    };
    created.map_err(Trouble::from)
}

/// Restores the permissions that the owner needs to read and remove each item.
pub(crate) fn restore_permissions<R: Files>(rt: &R, initial_items: &[InitialItem<'_>]) {
    for item in initial_items {
        if let InitialItem::Mode { name, mode: _ } = item {
            let _ = set_mode(rt, name, OWNER_ALL);
        }
    }
}

fn set_mode<R: Files>(rt: &R, name: &str, mode: u32) -> io::Result<()> {
    fs::set_permissions(rt, name, Permissions::from_mode(mode))
}

/// Returns whether this process ignores file permissions, as the superuser does.
pub(crate) fn ignores_permissions<R: AllocGlobal + Files>(rt: &R) -> Result<bool, Trouble> {
    let name = "probe";
    fs::write(rt, name, "")?;
    set_mode(rt, name, 0)?;
    let can_read = fs::read(rt, name).is_ok();
    fs::remove_file(rt, name)?;
    Ok(can_read)
}
