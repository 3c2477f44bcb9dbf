//! Applying deltas to their bases in depth-first order. Only the objects of one chain are in memory
//! at a time.

ghost use Rattle.std.specs.Prelude.{All, IfOk};
ghost use Rattle.gitpack.specs.Indexes.{IsLine, line_of};

use crate::children::{Children, Cursor};
use crate::delta::{apply_delta, made_size};
use crate::entry::EntryForm;
use crate::fault::PackFileFault;
use crate::index::IndexEntry;
use crate::indexing::{IndexLimits, IndexedEntry, ObjectVisitor};
use crate::scanning::{Object, Scanned, ScannedPack};
use crate::spool::Spool;
use crate::streams::inflate;
use gitobject::{ObjectType, id_of};
use gzlib::Inflater;
use std::alloc::{AllocError, Allocator};
use std::io::ErrorKind;

// The maximum number of deltas in a chain, which is also the maximum for `--depth` in
// git-fast-import(1). The limit bounds the cost of reading the last object of a chain.
const MAX_DEPTH: usize = 8_191;

// The maximum total size of the objects of a chain: 16 GiB. Reading the last object of a chain makes
// all of them. Git's chains have at most 50 deltas by default: 51 objects of 256 MiB are below the
// limit.
const MAX_CHAIN: usize = 17_179_869_184;

// An object to which deltas are applied.
#[derive(Drop)]
struct Base<A: Allocator + Copy> {
    kind: ObjectType,
    body: Vec<u8, A>,
    // The number of deltas between the undeltified object of the chain and this object.
    depth: usize,
    // The total size of the objects from the undeltified object of the chain to this object.
    chain_size: usize,
    // The deltas against this object that are not applied yet.
    remaining: Cursor,
}

/// The state of applying the deltas of a pack.
#[derive(Drop)]
pub(crate) struct Resolver<'a, S: Spool, A: Allocator + Copy> {
    alloc: A,
    spool: &'a S,
    limits: IndexLimits,
    entries: Vec<Scanned, A>,
    // The inflated stream of each entry, or `None` if the stream is not cached.
    cache: Vec<Option<Vec<u8, A>>, A>,
    children: Children<A>,
    // The current chain of bases, starting with the undeltified object.
    bases: Vec<Base<A>, A>,
    // The total size of the objects in `bases`.
    held: usize,
    // The total size of all objects made from deltas so far.
    total: usize,
    inflater: Inflater,
}

impl<'a, S: Spool, A: Allocator + Copy> Resolver<'a, S, A> {
    /// Prepares to apply the deltas of a scanned pack. Fails only if out of memory.
    pub(crate) fn new(
        spool: &'a S,
        scanned: ScannedPack<A>,
    ) -> Result<Resolver<'a, S, A>, AllocError> {
        let ScannedPack {
            alloc,
            limits,
            entries,
            cache,
            inflater,
        } = scanned;
        let children = Children::new(alloc, entries.as_slice())?;
        Ok(Resolver {
            alloc,
            spool,
            limits,
            entries,
            cache,
            children,
            bases: Vec::new(alloc),
            held: 0,
            total: 0,
            inflater,
        })
    }

    /// Applies all deltas, and passes each resulting object to the visitor.
    pub(crate) fn resolve_all<V: ObjectVisitor>(
        &mut self,
        visitor: &mut V,
    ) -> Result<(), PackFileFault> {
        for index in 0..self.entries.len() {
            self.begin_chain(index)?;
            self.resolve_chain(visitor)?;
        }
        Ok(())
    }

    // Begins a chain at this entry if the entry is undeltified and is the base of a delta.
    fn begin_chain(&mut self, index: usize) -> Result<(), PackFileFault> {
        let Some(entry) = self.entries.get(index).copied() else {
            return Ok(());
        };
        let (EntryForm::Whole(_), Some(object)) = (entry.form, entry.object) else {
            return Ok(());
        };
        let remaining = self.children.deltas_of(entry.start, object.id);
        if self.children.peek(&remaining).is_none() {
            return Ok(());
        }
        let body = self.take_stream(index, &entry)?;
        let chain_size = body.len();
        self.push_base(Base {
            kind: object.kind,
            body,
            depth: 0,
            chain_size,
            remaining,
        })
    }

    // Returns the inflated stream of the entry at this index. This function is called at most once
    // for each entry.
    fn take_stream(&mut self, index: usize, entry: &Scanned) -> Result<Vec<u8, A>, PackFileFault> {
        match self.take_cached(index) {
            Some(stream) => Ok(stream),
            None => self.reinflate(index, entry),
        }
    }

    // Takes the inflated stream of an entry out of the cache. Returns `None` if the stream is not
    // cached.
    fn take_cached(&mut self, index: usize) -> Option<Vec<u8, A>> {
        self.cache.get_mut(index)?.take()
    }

    // Reads the stream of an entry from the spool and inflates it again. The stream was inflated
    // once when it arrived. So if it cannot be inflated again, the fault is `Spool`.
    fn reinflate(&mut self, index: usize, entry: &Scanned) -> Result<Vec<u8, A>, PackFileFault> {
        let stream = self.read_stream(entry)?;
        let bytes = stream.as_slice();
        match inflate(self.alloc, &mut self.inflater, bytes, entry.size, index) {
            Ok(Some(inflated)) => Ok(inflated.body),
            Err(PackFileFault::Memory) => Err(PackFileFault::Memory),
            Ok(None) | Err(_) => Err(PackFileFault::Spool(ErrorKind::InvalidData)),
        }
    }

    // Reads the zlib stream of an entry from the spool. The memory limit does not count the stream,
    // which has at most 128 MiB.
    fn read_stream(&self, entry: &Scanned) -> Result<Vec<u8, A>, PackFileFault> {
        let mut stream = Vec::new(self.alloc);
        stream.resize(entry.end.saturating_sub(entry.stream), 0)?;
        self.spool.read_at(entry.stream, stream.as_mut_slice())?;
        Ok(stream)
    }

    // Appends an object to the chain of bases. Fails with `TooLarge` if the memory limit would be
    // exceeded.
    fn push_base(&mut self, base: Base<A>) -> Result<(), PackFileFault> {
        self.check_held(base.body.len())?;
        self.held = self.held.saturating_add(base.body.len());
        self.bases.push(base)?;
        Ok(())
    }

    // Applies all deltas that depend on the first base of the chain, directly or indirectly.
    fn resolve_chain<V: ObjectVisitor>(&mut self, visitor: &mut V) -> Result<(), PackFileFault> {
        // The loop applies each delta once, and releases each base once.
        let steps = self.entries.len().saturating_mul(2).saturating_add(2);
        for _step in 0..steps {
            if self.bases.is_empty() {
                return Ok(());
            }
            match self.next_delta() {
                Some(index) => self.resolve(index, visitor)?,
                None => self.release_last_base(),
            }
        }
        Err(PackFileFault::Frame)
    }

    fn release_last_base(&mut self) {
        if let Some(base) = self.bases.pop() {
            self.held = self.held.saturating_sub(base.body.len());
        }
    }

    // Releases the last base if all deltas against this base are applied. So a chain without
    // branches needs only two objects in memory.
    fn release_finished_base(&mut self) {
        let Some(last) = self.bases.last() else {
            return;
        };
        let remaining = last.remaining;
        if self.children.peek(&remaining).is_none() {
            self.release_last_base();
        }
    }

    // Returns the index of the next delta against the last base of the chain, or `None` if all
    // deltas against this base are applied.
    fn next_delta(&mut self) -> Option<usize> {
        let last = self.bases.last_mut()?;
        let current = last.remaining;
        last.remaining = self.children.cursor_after(&current);
        self.children.peek(&current)
    }

    // Applies the delta at this index to the last base of the chain, and passes the result to the
    // visitor.
    fn resolve<V: ObjectVisitor>(
        &mut self,
        index: usize,
        visitor: &mut V,
    ) -> Result<(), PackFileFault> {
        let Some(entry) = self.entries.get(index).copied() else {
            return Err(PackFileFault::Entry(index));
        };
        // This delta was already applied to another base with the same id.
        if entry.object.is_some() {
            return Err(PackFileFault::Entry(index));
        }
        let depth = self.next_depth()?;
        self.check_held(entry.size)?;
        let delta = self.take_stream(index, &entry)?;
        self.check_size(delta.as_slice())?;
        let Some((kind, body)) = self.apply(delta.as_slice())? else {
            return Err(PackFileFault::Entry(index));
        };
        self.count(body.len())?;
        let chain_size = self.next_chain_size(body.len())?;
        self.release_finished_base();
        let id = id_of(kind, body.as_slice());
        visitor.visit(&id, kind, body.as_slice())?;
        if let Some(entry) = self.entries.get_mut(index) {
            entry.object = Some(Object { id, kind });
        }
        let remaining = self.children.deltas_of(entry.start, id);
        if self.children.peek(&remaining).is_some() {
            self.push_base(Base {
                kind,
                body,
                depth,
                chain_size,
                remaining,
            })?;
        }
        Ok(())
    }

    // Returns the number of deltas in the chain after one more delta is applied. Fails with
    // `TooLarge` if the chain would be too long.
    fn next_depth(&self) -> Result<usize, PackFileFault> {
        match self.bases.last() {
            Some(base) if base.depth >= MAX_DEPTH => Err(PackFileFault::TooLarge),
            Some(base) => Ok(base.depth.saturating_add(1)),
            None => Ok(1),
        }
    }

    // Returns the total size of the objects of the chain after an object of `size` bytes is added.
    // Fails with `TooLarge` if the total size exceeds the limit.
    fn next_chain_size(&self, size: usize) -> Result<usize, PackFileFault> {
        let before = match self.bases.last() {
            Some(base) => base.chain_size,
            None => 0,
        };
        let total = before.saturating_add(size);
        if total > MAX_CHAIN {
            return Err(PackFileFault::TooLarge);
        }
        Ok(total)
    }

    // Fails with `TooLarge` if `more` additional bytes would exceed the memory limit.
    fn check_held(&self, more: usize) -> Result<(), PackFileFault> {
        if self.held.saturating_add(more) > self.limits.held {
            return Err(PackFileFault::TooLarge);
        }
        Ok(())
    }

    // Fails with `TooLarge` if the object that a delta makes exceeds the size limit, or if the
    // delta and this object would exceed the memory limit.
    fn check_size(&self, delta: &[u8]) -> Result<(), PackFileFault> {
        match made_size(delta) {
            Some(size) if size > self.limits.object => Err(PackFileFault::TooLarge),
            Some(size) => self.check_held(delta.len().saturating_add(size)),
            None => Ok(()),
        }
    }

    // Adds `size` to the total size. Fails with `TooLarge` if the sum exceeds the limit.
    fn count(&mut self, size: usize) -> Result<(), PackFileFault> {
        self.total = self.total.saturating_add(size);
        if self.total > self.limits.total {
            return Err(PackFileFault::TooLarge);
        }
        Ok(())
    }

    // Applies the delta to the last base of the chain, and returns the type and the bytes of the
    // result. Returns `None` if the delta cannot be applied.
    fn apply(&self, delta: &[u8]) -> Result<Option<(ObjectType, Vec<u8, A>)>, AllocError> {
        let Some(base) = self.bases.last() else {
            return Ok(None);
        };
        let made = apply_delta(self.alloc, base.body.as_slice(), delta, self.limits.object)?;
        match made {
            Some(body) => Ok(Some((base.kind, body))),
            None => Ok(None),
        }
    }

    /// Returns the objects of all entries. Fails with `Thin` if the base of a delta is not in the
    /// pack, or with `Memory` if out of memory.
    pub(crate) fn into_entries(self) -> Result<Vec<IndexedEntry, A>, PackFileFault>
        ensures { IfOk result (λ objects. All (λ e. IsLine (line_of e)) objects.items) }
    {
        let alloc = self.alloc;
        let entries = self.into_scanned();
        list_objects(alloc, entries.as_slice())
    }

    // Returns only the entries, and frees all other memory.
    fn into_scanned(self) -> Vec<Scanned, A> {
        self.entries
    }
}

// Returns the objects of these entries. Fails with `Thin` if an entry has no object.
fn list_objects<A: Allocator + Copy>(
    alloc: A,
    entries: &[Scanned],
) -> Result<Vec<IndexedEntry, A>, PackFileFault>
    ensures { IfOk result (λ objects. All (λ e. IsLine (line_of e)) objects.items) }
{
    let mut objects = Vec::with_capacity(alloc, entries.len())?;
    for scanned in entries {
        let Some(object) = scanned.object else {
            return Err(PackFileFault::Thin);
        };
        let kind = object.kind;
        let entry = line_of(object, scanned.crc, scanned.start);
        objects.push(IndexedEntry { entry, kind })?;
    }
    Ok(objects)
}

// Returns the index entry of an object whose pack entry has the CRC-32 `crc` and begins at `start`.
fn line_of(object: Object, crc: u32, start: usize) -> IndexEntry
    ensures { IsLine result }
{
    IndexEntry {
        id: object.id,
        crc,
        offset: start as u64,
    }
}
