//! The cache of repositories, which all connections share.

use crate::disk::PackDirectory;
use crate::opening::has_refs;
use crate::shared::{Loaded, Shared};
use ggraph::{Head, MAX_NODES, Refs};
use std::alloc::{AllocError, Global};
use std::rc::{Rc, Weak};

// The maximum number of cached repositories.
const MAX_REPOSITORIES: usize = 64;

/// The key of a cached repository.
#[derive(Clone, Copy)]
pub(crate) struct CacheKey<'a> {
    /// The Git directory.
    pub(crate) path: &'a str,
    pub(crate) refs: &'a Refs<Global>,
    pub(crate) head: &'a Head<Global>,
}

// A cached repository.
#[derive(Drop)]
struct CachedRepository {
    loaded: Rc<Loaded, Global>,
    // A weak handle to the ticket for the objects, which stay open while a connection uses them.
    objects: Weak<u64, Global>,
    // The state of the pack directory, read before the objects were opened.
    packs: PackDirectory,
}

impl CachedRepository {
    // Returns the cache entry of a repository.
    fn new<D>(shared: &Shared<'_, D>) -> Result<CachedRepository, AllocError> {
        let objects = match &shared.objects {
            Some(ticket) => Rc::downgrade(ticket)?,
            None => Weak::new(),
        };
        Ok(CachedRepository {
            loaded: shared.loaded.clone()?,
            objects,
            packs: shared.packs,
        })
    }

    fn has_path(&self, path: &str) -> bool {
        self.loaded.found.own.as_str() == path
    }

    fn has_key(&self, key: CacheKey<'_>) -> bool {
        self.has_path(key.path) && has_refs(self.loaded.extent.server(), key.refs, key.head)
    }

    // Returns whether a connection uses the objects.
    fn is_used(&self) -> bool {
        self.objects.strong_count() > 0
    }

    // Returns whether this is the repository with the Git directory of a key, but with other refs or
    // another HEAD, and without open objects.
    fn is_unused_beside(&self, key: CacheKey<'_>) -> bool {
        self.has_path(key.path) && !self.is_used() && !self.has_key(key)
    }

    // Returns a handle to the repository for another connection.
    fn share<'d, D>(&self, alloc: Global, disk: &'d D) -> Result<Shared<'d, D>, AllocError> {
        let loaded = self.loaded.clone()?;
        Shared::new(alloc, disk, loaded, self.objects.upgrade(), self.packs)
    }
}

/// The most recently read repositories, oldest first. After `put` and `trim`, those without open
/// objects have at most 1,048,576 commits and tags in total. A connection may still use a repository
/// that the cache has dropped.
#[derive(Drop)]
pub(crate) struct RepositoryCache {
    entries: Vec<CachedRepository>,
}

impl RepositoryCache {
    /// Returns an empty cache.
    pub(crate) fn new(alloc: Global) -> RepositoryCache {
        RepositoryCache {
            entries: Vec::new(alloc),
        }
    }

    /// Returns a handle to the cached repository with this key, or `None` if the repository is not
    /// cached. Fails only if out of memory.
    pub(crate) fn get<'d, D>(
        &self,
        alloc: Global,
        disk: &'d D,
        key: CacheKey<'_>,
    ) -> Result<Option<Shared<'d, D>>, AllocError> {
        match self.entries.iter().find(|entry| entry.has_key(key)) {
            Some(entry) => Ok(Some(entry.share(alloc, disk)?)),
            None => Ok(None),
        }
    }

    /// Adds a repository, and removes an older entry with the same key. A full cache drops the
    /// oldest repositories without open objects. Fails only if out of memory. After a failure the
    /// cache has no entry with this key.
    pub(crate) fn put<D>(&mut self, shared: &Shared<'_, D>) -> Result<(), AllocError> {
        let key = shared.loaded.key();
        if let Some(index) = self.entries.iter().position(|entry| entry.has_key(key)) {
            let _old = self.entries.remove(index);
        }
        self.make_room(match &shared.objects {
            Some(_) => 0,
            None => nodes_of(&shared.loaded),
        });
        match self.entries.push(CachedRepository::new(shared)?) {
            Ok(()) => Ok(()),
            Err(_) => Err(AllocError),
        }
    }

    /// Drops the repositories with the Git directory of this key, but with other refs or another
    /// HEAD, that have no open objects.
    pub(crate) fn drop_others(&mut self, key: CacheKey<'_>) {
        for _ in 0..MAX_REPOSITORIES {
            match self
                .entries
                .iter()
                .position(|entry| entry.is_unused_beside(key))
            {
                Some(index) => self.drop_at(index),
                None => break,
            }
        }
    }

    /// Drops the oldest repositories without open objects, until the others without open objects
    /// have at most 1,048,576 commits and tags in total.
    pub(crate) fn trim(&mut self) {
        for _ in 0..MAX_REPOSITORIES {
            if self.has_room_for_nodes(0) {
                break;
            }
            self.drop_oldest();
        }
    }

    // Drops the oldest repositories without open objects until there is room for a repository with
    // `nodes` commits and tags.
    fn make_room(&mut self, nodes: usize) {
        for _ in 0..MAX_REPOSITORIES {
            if self.entries.len() < MAX_REPOSITORIES && self.has_room_for_nodes(nodes) {
                break;
            }
            self.drop_oldest();
        }
    }

    fn has_room_for_nodes(&self, nodes: usize) -> bool {
        self.unused_nodes().saturating_add(nodes) <= MAX_NODES
    }

    // Drops the oldest repository without open objects, if there is one.
    fn drop_oldest(&mut self) {
        if let Some(index) = self.entries.iter().position(|entry| !entry.is_used()) {
            self.drop_at(index);
        }
    }

    fn drop_at(&mut self, index: usize) {
        if index < self.entries.len() {
            let _dropped = self.entries.remove(index);
        }
    }

    // Returns the total number of commits and tags in the repositories without open objects.
    fn unused_nodes(&self) -> usize {
        let mut nodes: usize = 0;
        for entry in &self.entries {
            if !entry.is_used() {
                nodes = nodes.saturating_add(nodes_of(&entry.loaded));
            }
        }
        nodes
    }
}

fn nodes_of(loaded: &Loaded) -> usize {
    loaded.extent.server().graph().len()
}
