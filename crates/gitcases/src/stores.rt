//! Git directories in memory, described by lines of a test file.

use crate::names::NamedObject;
use crate::trouble::Trouble;
use gitobjects::MemoryFiles;
use gname::Oid;
use gzlib::Deflater;
use std::alloc::{AllocError, Allocator, Global};

/// The path of every Git directory in memory.
pub(crate) const GIT_DIR: &str = "/r";

// The path of the directory `objects` in the Git directory.
const OBJECTS: &str = "/r/objects";

/// A file of a Git directory.
#[derive(Drop)]
pub(crate) struct File {
    pub(crate) path: String,
    pub(crate) bytes: Vec<u8>,
}

/// The files of a Git directory.
#[derive(Drop)]
pub(crate) struct Store<'a> {
    pub(crate) name: &'a str,
    pub(crate) files: Vec<File>,
    // The path of the directory to which objects are added.
    objects_folder: &'a str,
}

impl<'a> Store<'a> {
    pub(crate) fn new(alloc: Global, name: &'a str) -> Result<Store<'a>, Trouble> {
        let mut store = Store {
            name,
            files: Vec::new(alloc),
            objects_folder: OBJECTS,
        };
        let path = String::from_str(alloc, "/r/objects/info/packs")?;
        store.add_file(path, Vec::new(alloc))?;
        Ok(store)
    }

    pub(crate) fn add_file(&mut self, path: String, bytes: Vec<u8>) -> Result<(), Trouble> {
        self.files.push(File { path, bytes }).map_err(Trouble::from)
    }

    /// Sets the path of the directory to which further objects are added.
    pub(crate) fn set_objects_folder(&mut self, objects_folder: &'a str) {
        self.objects_folder = objects_folder;
    }

    /// Adds a pack and its index.
    pub(crate) fn add_packed(
        &mut self,
        alloc: Global,
        name: &str,
        pack: Vec<u8>,
        index: Vec<u8>,
    ) -> Result<(), Trouble> {
        let objects_folder = self.objects_folder;
        let path = format!(in alloc; "{objects_folder}/pack/pack-{name}.pack")?;
        self.add_file(path, pack)?;
        let path = format!(in alloc; "{objects_folder}/pack/pack-{name}.idx")?;
        self.add_file(path, index)
    }

    /// Adds the file of a loose object. The file inflates to `text`.
    pub(crate) fn add_loose(
        &mut self,
        alloc: Global,
        deflater: &mut Deflater<Global>,
        id: &Oid,
        text: &[u8],
    ) -> Result<(), Trouble> {
        let path = loose_path(alloc, self.objects_folder, id)?;
        let mut stream = Vec::new(alloc);
        deflater.deflate(text, &mut stream)?;
        self.add_file(path, stream)
    }
}

// Returns the path of a loose object: its directory has the first two digits of the id as its name.
fn loose_path(alloc: Global, objects_folder: &str, id: &Oid) -> Result<String, Trouble> {
    let mut digits = Vec::new(alloc);
    id.push_hex(&mut digits)?;
    path_of_digits(alloc, objects_folder, digits.as_slice())
}

fn path_of_digits(alloc: Global, objects_folder: &str, digits: &[u8]) -> Result<String, Trouble> {
    let (Some(first), Some(rest)) = (digits.get(..2), digits.get(2..)) else {
        return Err(Trouble::UnknownName);
    };
    let (Ok(first), Ok(rest)) = (str::from_utf8(first), str::from_utf8(rest)) else {
        return Err(Trouble::UnknownName);
    };
    format!(in alloc; "{objects_folder}/{first}/{rest}").map_err(Trouble::from)
}

/// Returns the text of a loose object before compression.
pub(crate) fn loose_text(alloc: Global, object: &NamedObject<'_>) -> Result<Vec<u8>, Trouble> {
    let kind = object.kind.name();
    let length = object.body.len();
    let head = format!(in alloc; "{kind} {length}\0")?;
    let mut text = Vec::new(alloc);
    text.extend_from_slice(head.as_str().as_bytes())?;
    text.extend_from_slice(object.body.as_slice())?;
    Ok(text)
}

/// Returns the files as an in-memory file system.
pub(crate) fn to_memory_files<A: Allocator + Copy>(
    alloc: A,
    files: &[File],
) -> Result<MemoryFiles<A>, AllocError> {
    let mut memory_files = MemoryFiles::new(alloc);
    for file in files {
        memory_files.add(file.path.as_str(), file.bytes.as_slice())?;
    }
    Ok(memory_files)
}

pub(crate) fn copy_files(alloc: Global, files: &[File]) -> Result<Vec<File>, Trouble> {
    let mut copies = Vec::new(alloc);
    for file in files {
        copies.push(File {
            path: String::from_str(alloc, file.path.as_str())?,
            bytes: file.bytes.as_slice().to_vec(alloc)?,
        })?;
    }
    Ok(copies)
}
