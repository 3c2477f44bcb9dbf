//! Reading a few objects.

ghost use Rattle.std.specs.Prelude.{◌≡◌, IfOk, IfSome};
ghost use Rattle.gitobject.specs.Naming.{id_of};

use crate::alternates::{Folder, object_folders};
use crate::fault::{Cause, StoreFault};
use crate::files::ObjectFiles;
use crate::listing::index_stems;
use crate::object::Object;
use crate::paths::{join, loose_path};
use crate::quick_pack::{QuickPack, open_quick};
use crate::store::{read_kind, read_loose_file};
use gitobject::ObjectType;
use gname::Oid;
use gzlib::Inflater;
use std::alloc::{AllocError, Allocator};

/// A reader for a few objects of a Git directory and of its alternates. The reader opens quickly,
/// because it reads only parts of indexes. Each look-up costs more than with an
/// [`crate::ObjectReader`].
///
/// The reader does not list folders again. An object that the reader cannot find or read may still
/// exist.
#[derive(Drop)]
pub struct QuickReader<'f, F: ObjectFiles, A: Allocator + Copy> {
    files: &'f F,
    alloc: A,
    folders: Vec<Folder<A>, A>,
    packs: Vec<QuickPack<F::Pack, A>, A>,
    inflater: Box<Inflater, A>,
}

impl<'f, F: ObjectFiles, A: Allocator + Copy> QuickReader<'f, F, A> {
    /// Opens the objects of the Git directory with this path. Unusable packs, the packs of a folder
    /// that cannot be listed, and alternates that cannot be opened are left out.
    ///
    /// Fails for the same reasons as [`crate::ObjectStore::open`].
    pub fn open(
        files: &'f F,
        alloc: A,
        git_dir: &str,
    ) -> Result<QuickReader<'f, F, A>, StoreFault<A>> {
        let own = join(alloc, git_dir, "objects")?;
        let folders = object_folders(files, alloc, own.as_str())?;
        let packs = packs_in(files, alloc, folders.as_slice())?;
        let inflater = Box::new(alloc, Inflater::new())?;
        Ok(QuickReader {
            files,
            alloc,
            folders,
            packs,
            inflater,
        })
    }

    /// Returns the allocator.
    pub fn allocator(&self) -> A {
        self.alloc
    }

    /// Returns whether the reader finds the object with this id. Fails only if out of memory.
    pub fn holds(&mut self, id: &Oid) -> Result<bool, AllocError> {
        for pack in self.packs.iter_mut() {
            if or_unknown(pack.holds(id))? == Some(true) {
                return Ok(true);
            }
        }
        self.holds_loose(id)
    }

    // Returns whether the object with this id is loose.
    fn holds_loose(&self, id: &Oid) -> Result<bool, AllocError> {
        for folder in &self.folders {
            let path = or_unknown(loose_path(self.alloc, folder.path.as_str(), id))?;
            if let Some(path) = path {
                if or_unknown(self.files.exists(path.as_str()))? == Some(true) {
                    return Ok(true);
                }
            }
        }
        Ok(false)
    }

    /// Returns the type of the object with this id, or `None` if the object is not found. The
    /// object is not inflated as a whole. Fails only if out of memory.
    pub fn kind_of(&mut self, id: &Oid) -> Result<Option<ObjectType>, AllocError> {
        for pack in self.packs.iter_mut() {
            if let Some(Some(kind)) = or_unknown(pack.kind_of(id))? {
                return Ok(Some(kind));
            }
        }
        self.kind_of_loose(id)
    }

    // Returns the type of the loose object with this id, or `None` if no loose object is found.
    fn kind_of_loose(&mut self, id: &Oid) -> Result<Option<ObjectType>, AllocError> {
        for folder in &self.folders {
            let path = or_unknown(loose_path(self.alloc, folder.path.as_str(), id))?;
            if let Some(path) = path {
                let kind = read_kind(self.files, self.alloc, path.as_str(), &mut *self.inflater);
                if let Some(Some(kind)) = or_unknown(kind)? {
                    return Ok(Some(kind));
                }
            }
        }
        Ok(None)
    }

    /// Returns the object with this id, or `None` if the object is not found or too large. Computes
    /// the id of the object that was read, and returns `None` if the id differs. Fails only if out
    /// of memory.
    pub fn read_checked(&mut self, id: &Oid) -> Result<Option<Object<A>>, AllocError>
        ensures { IfOk result (λ found. IfSome found (λ object.
            id_of object.kind object.body.items ≡ id.now)) }
    {
        match self.read(id)? {
            Some(object) if object.has_id(id) => Ok(Some(object)),
            _ => Ok(None),
        }
    }

    fn read(&mut self, id: &Oid) -> Result<Option<Object<A>>, AllocError> {
        for pack in self.packs.iter_mut() {
            if let Some(Some(object)) = or_unknown(pack.read(id, &mut *self.inflater))? {
                return Ok(Some(object));
            }
        }
        self.read_loose(id)
    }

    // Returns the loose object with this id, or `None` if no loose object is found.
    fn read_loose(&mut self, id: &Oid) -> Result<Option<Object<A>>, AllocError> {
        for folder in &self.folders {
            let path = or_unknown(loose_path(self.alloc, folder.path.as_str(), id))?;
            if let Some(path) = path {
                let object = read_loose_file(
                    self.files,
                    self.alloc,
                    path.as_str(),
                    &mut *self.inflater,
                );
                if let Some(Some(object)) = or_unknown(object)? {
                    return Ok(Some(object));
                }
            }
        }
        Ok(None)
    }
}

// Opens the packs of these folders. Unusable packs, and the packs of a folder that cannot be listed,
// are left out.
fn packs_in<F: ObjectFiles, A: Allocator + Copy>(
    files: &F,
    alloc: A,
    folders: &[Folder<A>],
) -> Result<Vec<QuickPack<F::Pack, A>, A>, AllocError> {
    let mut packs = Vec::new(alloc);
    for folder in folders {
        let folder = folder.pack_folder.as_str();
        let _listed = or_unknown(add_packs(files, alloc, folder, &mut packs))?;
    }
    Ok(packs)
}

fn add_packs<F: ObjectFiles, A: Allocator + Copy>(
    files: &F,
    alloc: A,
    folder: &str,
    packs: &mut Vec<QuickPack<F::Pack, A>, A>,
) -> Result<(), Cause> {
    let names = files.list(alloc, folder)?;
    let stems = index_stems(alloc, names.as_slice())?;
    for stem in &stems {
        if let Some(pack) = open_quick(files, alloc, folder, stem.as_str())? {
            packs.push(pack)?;
        }
    }
    Ok(())
}

// Returns the value of `outcome`, or `None` if `outcome` is a failure with a cause other than
// `Memory`. Fails if the cause is `Memory`.
fn or_unknown<T: Drop>(outcome: Result<T, Cause>) -> Result<Option<T>, AllocError> {
    match outcome {
        Ok(value) => Ok(Some(value)),
        Err(Cause::Memory) => Err(AllocError),
        Err(_) => Ok(None),
    }
}
