//! The repositories of a server, shared by all connections.

use crate::directory::Directories;
use crate::disk::{Disk, PackDirectory, Ticket};
use crate::fault::Fault;
use crate::kept::{CacheKey, RepositoryCache};
use crate::notes::Notes;
use crate::opening::{Extent, Listed, NotOpened};
use crate::refusals::{
    ACCESS_DENIED, BAD_FIRST_LINE, BUSY, NOT_OPENED, PACK_FAILED, TOO_LARGE_REQUEST,
};
use crate::sentences::{NOT_SERVED, Sentence, form_text};
use crate::shared::{Loaded, Shared, share};
use ganswer::{ServeFault, Server};
use ggrammar::{MessageFault, Why};
use ghello::Hello;
use gserve::{MAX_ERR_TEXT, err_text};
use gserver::{ErrText, Host, ServedRepository};
use std::alloc::{AllocError, Global};
use std::cell::RefCell;
use std::rc::Rc;

/// A value that can close unused object stores.
pub(crate) trait ClosesStores {
    /// Closes the object stores that no connection uses.
    fn close_unused(&self);
}

/// The repositories below a directory, which all connections of a server share.
#[derive(Drop)]
pub(crate) struct Repositories<'d, D> {
    alloc: Global,
    disk: &'d D,
    notes: &'d Notes,
    cache: RefCell<RepositoryCache>,
}

impl<'d, D> Repositories<'d, D> {
    /// Returns the repositories on a disk, with an empty cache.
    pub(crate) fn new(alloc: Global, disk: &'d D, notes: &'d Notes) -> Repositories<'d, D> {
        Repositories {
            alloc,
            disk,
            notes,
            cache: RefCell::new(RepositoryCache::new(alloc)),
        }
    }

    // Returns a handle to the cached repository with this key, or `None` if there is none.
    fn find_cached(&self, key: CacheKey<'_>) -> Result<Option<Shared<'d, D>>, AllocError> {
        match self.cache.try_borrow() {
            Ok(cache) => cache.get(self.alloc, self.disk, key),
            Err(_) => Ok(None),
        }
    }

    // Returns the cached repository with this key, which has the present refs and HEAD. First drops
    // the entries with older refs or HEAD that no connection uses.
    fn find_present(&self, key: CacheKey<'_>) -> Result<Option<Shared<'d, D>>, AllocError> {
        if let Ok(mut cache) = self.cache.try_borrow_mut() {
            cache.drop_others(key);
        }
        self.find_cached(key)
    }

    // Returns the cached repository with the refs and HEAD of `repo`, or `repo` if there is none.
    fn find_same(&self, repo: &Shared<'d, D>) -> Result<Shared<'d, D>, AllocError> {
        match self.find_cached(repo.loaded.key())? {
            Some(cached) => Ok(cached),
            None => repo.handle(),
        }
    }

    fn add_to_cache(&self, shared: &Shared<'d, D>) -> Result<(), AllocError> {
        match self.cache.try_borrow_mut() {
            Ok(mut cache) => cache.put(shared),
            Err(_) => Ok(()),
        }
    }

    // Records why a repository cannot be opened, and returns the error text for the client.
    fn refuse(&self, cause: NotOpened) -> ErrText {
        let mut text = ErrText::new();
        let words = match cause.form {
            Some(form) => {
                text.add(b"upload-pack: the repository ");
                form_text(form).as_bytes()
            }
            None if cause.is_busy => BUSY,
            None => NOT_OPENED,
        };
        text.add(words);
        self.notes.note_fault(cause.fault);
        text
    }
}

impl<'d, D: Disk> Repositories<'d, D> {
    // Returns the repository that a client's path names, or the error text for the client if there
    // is none.
    fn find_path(&self, path: &[u8]) -> Result<Directories, ErrText> {
        let fault = match self.disk.find(path) {
            Ok(Some(found)) => return Ok(found),
            Ok(None) => Fault::of(self.alloc, Sentence::Text(NOT_SERVED)),
            Err(fault) => fault,
        };
        self.notes.note_fault(fault);
        let mut text = ErrText::new();
        text.add(ACCESS_DENIED);
        text.add(path);
        Err(text)
    }

    // Reads the refs and HEAD in these directories. Returns the cached repository if it has these
    // refs and this HEAD. Otherwise opens the repository for ls-refs, and adds it to the cache.
    fn find_and_list(&self, found: Directories) -> Result<Shared<'d, D>, NotOpened> {
        let listed = self.disk.list(&found)?;
        match self.find_present(listed.key(&found))? {
            Some(shared) => Ok(shared.without_objects()),
            None => self.list_now(found, listed),
        }
    }

    // Opens the repository with these refs and HEAD for ls-refs, and adds it to the cache.
    fn list_now(&self, found: Directories, listed: Listed) -> Result<Shared<'d, D>, NotOpened> {
        let extent = self.disk.open_for_ls_refs(&found, listed)?;
        let loaded = share(self.alloc, Loaded { found, extent })?;
        let shared = Shared::new(self.alloc, self.disk, loaded, None, PackDirectory::Unknown)?;
        self.add_to_cache(&shared)?;
        Ok(shared)
    }

    // Returns a repository with its history and open objects. Connections with equal refs share the
    // history and the open objects while the pack directory is unchanged.
    fn open_shared(&self, repo: &Shared<'d, D>) -> Result<Shared<'d, D>, NotOpened> {
        let packs = self.disk.pack_directory(&repo.loaded.found);
        if repo.is_open_since(packs) {
            return Ok(repo.handle()?);
        }
        let known = self.find_same(repo)?;
        if known.is_open_since(packs) {
            return Ok(known);
        }
        let opened = self.open_now(&known, packs)?;
        self.add_to_cache(&opened)?;
        Ok(opened)
    }

    // Opens the objects of a repository, and reads its history unless the history was read before.
    fn open_now(
        &self,
        repo: &Shared<'d, D>,
        packs: PackDirectory,
    ) -> Result<Shared<'d, D>, NotOpened> {
        let found = &repo.loaded.found;
        let (loaded, ticket) = match &repo.loaded.extent {
            Extent::Whole(_) => (repo.loaded.clone()?, self.disk.open_objects(found)?),
            Extent::Tips(tips) => self.load_history(found, tips)?,
        };
        Ok(Shared::new(self.alloc, self.disk, loaded, Some(ticket), packs)?)
    }

    // Opens the objects of a repository, and reads the history of the refs and HEAD in `tips`.
    fn load_history(
        &self,
        found: &Directories,
        tips: &Server<Global>,
    ) -> Result<(Rc<Loaded, Global>, Ticket), NotOpened> {
        let (server, ticket) = self.disk.open_history(found, tips)?;
        let found = found.copy_in(self.alloc)?;
        let extent = Extent::Whole(server);
        Ok((share(self.alloc, Loaded { found, extent })?, ticket))
    }
}

impl<D: Disk> ClosesStores for Repositories<'_, D> {
    fn close_unused(&self) {
        self.disk.close_unused();
        if let Ok(mut cache) = self.cache.try_borrow_mut() {
            cache.trim();
        }
    }
}

impl<'d, D: Disk> Host<Global, Shared<'d, D>> for Repositories<'d, D> {
    fn find(&self, hello: &Hello<Global>) -> Result<Shared<'d, D>, ErrText> {
        if self.notes.note_path(hello.path()).is_err() {
            self.notes.note_fault(Fault::Memory);
        }
        match self.find_and_list(self.find_path(hello.path())?) {
            Ok(shared) => Ok(shared),
            Err(cause) => Err(self.refuse(cause)),
        }
    }

    fn open(&self, repo: &Shared<'d, D>) -> Result<Shared<'d, D>, ErrText> {
        match self.open_shared(repo) {
            Ok(shared) => Ok(shared),
            Err(cause) => Err(self.refuse(cause)),
        }
    }

    fn words(&self, fault: &ServeFault) -> ErrText {
        let words = match fault {
            ServeFault::Request(
                MessageFault {
                    why: Why::Limit,
                    ..
                },
            ) => TOO_LARGE_REQUEST,
            ServeFault::Pack(_) => PACK_FAILED,
            ServeFault::Request(
                MessageFault {
                    why: Why::BadText,
                    ..
                },
            ) if self.notes.is_first() => BAD_FIRST_LINE,
            _ => return default_text(fault),
        };
        let mut text = ErrText::new();
        text.add(words);
        text
    }
}

// Returns the error text of `gserve` for a fault.
fn default_text(fault: &ServeFault) -> ErrText {
    let mut line = [0; MAX_ERR_TEXT];
    let length = err_text(fault, &mut line);
    let mut text = ErrText::new();
    text.add(&line[..length]);
    text
}
