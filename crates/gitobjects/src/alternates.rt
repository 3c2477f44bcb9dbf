//! The object folders of a repository: its own folder, and its alternates (gitrepository-layout(5),
//! "objects/info/alternates").

ghost use Rattle.std.specs.Prelude.{◌≡◌, ◌++◌, ◌∷◌, [], IfOk, OnOk, filter, map, string_bytes};
ghost use Rattle.gitobjects.specs.Alternates.{NamesFolders, names_folder};

use crate::fault::{Cause, FileFault, StoreFault, fault_at};
use crate::files::ObjectFiles;
use crate::limits::{MAX_ALTERNATES, MAX_DEPTH, MAX_FOLDERS};
use crate::listed::Listed;
use crate::parts::cut;
use crate::paths::join;
use std::alloc::{AllocError, Allocator};
use std::io::ErrorKind;

/// An object folder, and its pack folder.
#[derive(Drop)]
pub(crate) struct Folder<A: Allocator + Copy> {
    pub(crate) path: String<A>,
    // The path of the pack folder.
    pub(crate) pack_folder: String<A>,
    pub(crate) listed: Listed,
    // The faults of the packs that were left out, or the fault of the pack folder if the folder
    // could not be listed.
    pub(crate) left_out: Vec<FileFault<A>, A>,
    // The fault of the first alternate or alternates file that was left out. Only the repository's
    // own folder has it.
    left_out_alternate: Option<FileFault<A>>,
    // The number of alternates files on the way to this folder: 0 for the repository's own folder.
    depth: usize,
}

impl<A: Allocator + Copy> Folder<A> {
    // Returns an object folder whose pack folder was never listed.
    fn new(alloc: A, path: String<A>, depth: usize) -> Result<Folder<A>, AllocError> {
        let pack_folder = join(alloc, path.as_str(), "pack")?;
        Ok(Folder {
            path,
            pack_folder,
            listed: Listed::Never,
            left_out: Vec::new(alloc),
            left_out_alternate: None,
            depth,
        })
    }

    /// Returns the first fault that is recorded in this folder, or `None` if nothing was left out.
    pub(crate) fn first_fault(&self) -> Option<&FileFault<A>> {
        match self.left_out.first() {
            Some(fault) => Some(fault),
            None => self.left_out_alternate.as_ref(),
        }
    }
}

/// Returns the object folder of a repository, its alternates, and their alternates recursively. As
/// in Git, alternates are at most six levels deep. Missing alternates and repeated folders are
/// skipped, so the search ends even if alternates are cyclic. An alternate that cannot be opened is
/// left out, and so are the alternates in an alternates file that cannot be read. The first such
/// fault is recorded in the repository's own folder. A temporary fault is returned instead.
pub(crate) fn object_folders<F: ObjectFiles, A: Allocator + Copy>(
    files: &F,
    alloc: A,
    own: &str,
) -> Result<Vec<Folder<A>, A>, StoreFault<A>> {
    let mut folders = Vec::new(alloc);
    add_own_folder(files, alloc, &mut folders, own)?;
    for place in 0..MAX_FOLDERS {
        if place >= folders.len() {
            break;
        }
        add_alternates(files, alloc, &mut folders, place)?;
    }
    Ok(folders)
}

// Adds the repository's own folder, which must exist.
fn add_own_folder<F: ObjectFiles, A: Allocator + Copy>(
    files: &F,
    alloc: A,
    folders: &mut Vec<Folder<A>, A>,
    own: &str,
) -> Result<(), StoreFault<A>> {
    match files.canonical(alloc, own) {
        Ok(Some(path)) => Ok(push_folder(alloc, folders, path, 0)?),
        Ok(None) => Err(fault_at(alloc, own, Cause::Open(ErrorKind::NotFound))),
        Err(cause) => Err(fault_at(alloc, own, cause)),
    }
}

fn push_folder<A: Allocator + Copy>(
    alloc: A,
    folders: &mut Vec<Folder<A>, A>,
    path: String<A>,
    depth: usize,
) -> Result<(), AllocError> {
    let folder = Folder::new(alloc, path, depth)?;
    folders.push(folder)?;
    Ok(())
}

// Adds the alternates of the folder with this number, unless they are too deep.
fn add_alternates<F: ObjectFiles, A: Allocator + Copy>(
    files: &F,
    alloc: A,
    folders: &mut Vec<Folder<A>, A>,
    number: usize,
) -> Result<(), StoreFault<A>> {
    let Some(folder) = folders.get(number) else {
        return Ok(());
    };
    let depth = folder.depth;
    if depth > MAX_DEPTH {
        return Ok(());
    }
    let path = String::from_str(alloc, folder.path.as_str())?;
    add_all(files, alloc, folders, path.as_str(), depth + 1)
}

// Adds the alternates of the folder with this path. `depth` is the depth of these alternates.
fn add_all<F: ObjectFiles, A: Allocator + Copy>(
    files: &F,
    alloc: A,
    folders: &mut Vec<Folder<A>, A>,
    folder: &str,
    depth: usize,
) -> Result<(), StoreFault<A>> {
    let names = alternate_names(files, alloc, folders, folder)?;
    for name in &names {
        let path = path_of(alloc, folder, name.as_str())?;
        add_alternate(files, alloc, folders, path.as_str(), depth)?;
    }
    Ok(())
}

// Returns the paths in the alternates file of a folder, or no paths if there is no such file. A file
// that cannot be opened or read is left out, unless the fault is temporary.
fn alternate_names<F: ObjectFiles, A: Allocator + Copy>(
    files: &F,
    alloc: A,
    folders: &mut Vec<Folder<A>, A>,
    folder: &str,
) -> Result<Vec<String<A>, A>, StoreFault<A>> {
    let path = join(alloc, folder, "info/alternates")?;
    match read_names(files, alloc, path.as_str()) {
        Ok(names) => Ok(names),
        Err(cause) => {
            let fault = fault_at(alloc, path.as_str(), cause);
            if !matches!(cause, Cause::Open(_) | Cause::Read(_)) {
                return Err(fault);
            }
            leave_out(folders, fault)?;
            Ok(Vec::new(alloc))
        }
    }
}

// Returns the paths in an alternates file, or no paths if there is no such file.
fn read_names<F: ObjectFiles, A: Allocator + Copy>(
    files: &F,
    alloc: A,
    path: &str,
) -> Result<Vec<String<A>, A>, Cause> {
    match files.read(alloc, path, MAX_ALTERNATES)? {
        Some(text) => folder_names(alloc, text.as_slice()),
        None => Ok(Vec::new(alloc)),
    }
}

// Returns the paths that an alternates file lists, in order.
fn folder_names<A: Allocator + Copy>(alloc: A, text: &[u8]) -> Result<Vec<String<A>, A>, Cause>
    ensures { IfOk result (λ names. NamesFolders text.now (map string_bytes names.items)) }
{
    let mut names = Vec::new(alloc);
    let mut rest = text;
    while let Some((line, after)) = cut(b'\n', rest) {
        push_name(alloc, &mut names, line)?;
        rest = after;
    }
    push_name(alloc, &mut names, rest)?;
    Ok(names)
}

// Adds the path on a line, unless the line is empty or a comment.
fn push_name<A: Allocator + Copy>(
    alloc: A,
    names: &mut Vec<String<A>, A>,
    line: &[u8],
) -> Result<(), Cause>
    ensures { OnOk result (map string_bytes names.new.items
        ≡ map string_bytes names.old.items ++ filter names_folder (line.now ∷ [])) }
{
    match line.first() {
        None | Some(b'#') => return Ok(()),
        Some(b'"') => return Err(Cause::Quoted),
        Some(_) => {}
    }
    let Ok(name) = str::from_utf8(line) else {
        return Err(Cause::NotText);
    };
    names.push(String::from_str(alloc, name)?)?;
    Ok(())
}

// Returns the path of an alternate. A relative path begins at the object folder whose alternates
// file lists it.
fn path_of<A: Allocator + Copy>(
    alloc: A,
    folder: &str,
    name: &str,
) -> Result<String<A>, AllocError> {
    if name.starts_with('/') {
        String::from_str(alloc, name)
    } else {
        join(alloc, folder, name)
    }
}

// Adds the folder with this path, if the folder exists and was not added before. A folder that
// cannot be opened is left out, unless the fault is temporary. A fault names the path.
fn add_alternate<F: ObjectFiles, A: Allocator + Copy>(
    files: &F,
    alloc: A,
    folders: &mut Vec<Folder<A>, A>,
    path: &str,
    depth: usize,
) -> Result<(), StoreFault<A>> {
    match add_folder(files, alloc, folders, path, depth) {
        Ok(()) => Ok(()),
        Err(Cause::Open(kind)) => leave_out(folders, fault_at(alloc, path, Cause::Open(kind))),
        Err(cause) => Err(fault_at(alloc, path, cause)),
    }
}

// Records the fault of an alternate or an alternates file that is left out, unless such a fault is
// already recorded. Fails only if the fault is temporary or is `Memory`.
fn leave_out<A: Allocator + Copy>(
    folders: &mut Vec<Folder<A>, A>,
    fault: StoreFault<A>,
) -> Result<(), StoreFault<A>> {
    match fault {
        StoreFault::File(fault) => {
            if fault.cause.is_temporary() {
                return Err(StoreFault::File(fault));
            }
            if let Some(own) = folders.first_mut() {
                if own.left_out_alternate.is_none() {
                    own.left_out_alternate = Some(fault);
                }
            }
            Ok(())
        }
        other => Err(other),
    }
}

fn add_folder<F: ObjectFiles, A: Allocator + Copy>(
    files: &F,
    alloc: A,
    folders: &mut Vec<Folder<A>, A>,
    path: &str,
    depth: usize,
) -> Result<(), Cause> {
    let Some(path) = files.canonical(alloc, path)? else {
        return Ok(());
    };
    // This call fails if the process may not search the folder.
    let _is_there = files.exists(join(alloc, path.as_str(), ".")?.as_str())?;
    add_new(alloc, folders, path, depth)
}

// Adds the folder with this canonical path, if the folder was not added before.
fn add_new<A: Allocator + Copy>(
    alloc: A,
    folders: &mut Vec<Folder<A>, A>,
    path: String<A>,
    depth: usize,
) -> Result<(), Cause> {
    if is_known(folders.as_slice(), path.as_str()) {
        return Ok(());
    }
    if folders.len() >= MAX_FOLDERS {
        return Err(Cause::Folders);
    }
    push_folder(alloc, folders, path, depth)?;
    Ok(())
}

fn is_known<A: Allocator + Copy>(folders: &[Folder<A>], path: &str) -> bool {
    folders.iter().any(|folder| folder.path.as_str() == path)
}
