//! Indexing a pack that a peer sent.

ghost use Rattle.std.specs.Prelude.{◌≡◌, ◌≢◌, ◌++◌, ℕ, All, IfOk, MatchOption, OnOk, Option, Some, length, map};
ghost use Rattle.gitobject.specs.Naming.{id_of};
ghost use Rattle.gname.specs.Ids.{IsIdOf};
ghost use Rattle.gname.specs.declared.formats.Format.TheVariants as formats;
ghost use Rattle.gitpack.specs.Indexes.{AreObjects, Index, IsLine, ReadsIndex, index_of, index_text, line_of, object_id};
ghost use Rattle.gitpack.specs.Packs.{IsFramed};

use crate::fault::PackFileFault;
use crate::incoming::IncomingPack;
use crate::index::{IndexEntry, MAX_ENTRIES};
use crate::index_writing::write_index;
use crate::spool::{Spool, SpoolFault};
use gitobject::ObjectType;
use gname::Oid;
use std::alloc::{AllocError, Allocator};
use std::marker::Model;

// The length of the pieces into which `index_pack` splits a pack, 1 MiB.
const PIECE: usize = 1_048_576;

/// A receiver of the objects of a pack.
pub trait ObjectVisitor {
    /// Receives the id, type and bytes of an object. If this call fails, the pack is refused with
    /// the same fault.
    fn visit(&mut self, id: &Oid, kind: ObjectType, body: &[u8]) -> Result<(), PackFileFault>
        requires { id.now ≡ id_of kind body.now };
}

/// The limits for indexing a pack. Limits are needed because a small pack can contain huge objects.
/// An entry can be as short as nine bytes in the pack, but needs about two hundred bytes of memory.
#[derive(Clone, Copy, Debug, Drop)]
pub struct IndexLimits {
    /// The maximum number of objects.
    pub objects: usize,
    /// The maximum size of an object.
    pub object: usize,
    /// The maximum number of bytes in memory while deltas are applied: bases, a delta, and its
    /// result. Not counted are one zlib stream, which has at most 128 MiB, and the cache of 64 MiB.
    pub held: usize,
    /// The maximum total size of all objects and deltas.
    pub total: usize,
    /// The number of bytes by which `object` and `held` are reduced for each object of the pack,
    /// since each object needs memory for tables.
    pub table: usize,
}

impl IndexLimits {
    // Returns the limits for a pack of `count` objects.
    pub(crate) fn for_count(self, count: u32) -> IndexLimits {
        let tables = self.table.saturating_mul(count as usize);
        IndexLimits {
            object: self.object.saturating_sub(tables),
            held: self.held.saturating_sub(tables),
            ..self
        }
    }
}

/// An object of a pack, with its entry in the pack index and its type.
#[derive(Clone, Copy, Debug, Drop)]
pub struct IndexedEntry {
    /// The object's entry in the pack index.
    pub entry: IndexEntry,
    /// The type of the object.
    pub kind: ObjectType,
}

/// The objects of a pack, sorted by id, and the checksum of the pack.
#[derive(Drop)]
pub struct IndexedPack<A: Allocator + Copy> {
    entries: Vec<IndexedEntry, A>,
    checksum: Oid,
}

impl<A: Allocator + Copy> Model for IndexedPack<A> {
    ghost use Rattle.gitpack.specs.Indexes.{Indexed, IsIndexed};

    ghost Value = { Indexed };

    ghost view = { λ pack. record { entries = pack.entries.items; checksum = pack.checksum } };

    ghost invariant = { λ pack.
        IsIndexed (record { entries = pack.entries.items; checksum = pack.checksum }) };
}

impl<A: Allocator + Copy> IndexedPack<A> {
    /// Returns an indexed pack with these objects. Fails with `TooLarge` if there are too many
    /// objects for a pack index.
    pub(crate) fn new(
        objects: Vec<IndexedEntry, A>,
        checksum: Oid,
    ) -> Result<IndexedPack<A>, PackFileFault>
        requires lines { All (λ e. IsLine (line_of e)) objects.items }
        requires checksum { IsIdOf formats.Sha1 checksum }
        ensures { IfOk result (λ pack. pack.checksum ≡ checksum) }
    {
        let entries = in_order(objects)?;
        Ok(IndexedPack { entries, checksum })
    }

    /// Returns the objects of the pack, sorted by id.
    pub fn entries(&self) -> &[IndexedEntry]
        ensures objects { result.now ≡ self.now.entries }
        ensures order { AreObjects result.now }
    {
        self.entries.as_slice()
    }

    /// Returns an object with this id, or `None` if the pack contains no such object.
    pub fn find(&self, id: &Oid) -> Option<IndexedEntry>
        ensures { MatchOption result (All (λ e. object_id e ≢ id.now) self.now.entries)
            (λ e. object_id e ≡ id.now) }
    {
        find(self.entries.as_slice(), id)
    }

    /// Returns the checksum of the pack, which is its trailer.
    pub fn checksum(&self) -> Oid
        ensures { result ≡ self.now.checksum }
    {
        self.checksum
    }

    /// Returns the bytes of the pack index, in version 2. [`crate::PackIndex::read`] returns the
    /// same index from these bytes.
    ///
    /// Fails only if out of memory.
    pub fn write_index(&self, alloc: A) -> Result<Vec<u8, A>, AllocError>
        ensures text { IfOk result (λ text. text.items ≡ index_text (index_of self.now)) }
        ensures read_back { IfOk result (λ text. (found : Option Index)
            → ReadsIndex text.items found → found ≡ Some (index_of self.now)) }
    {
        let index_entries = lines_of(alloc, self.entries.as_slice())?;
        write_index(alloc, index_entries.as_slice(), &self.checksum)
    }
}

// Returns an object with this id, or `None` if no object has the id.
fn find(entries: &[IndexedEntry], id: &Oid) -> Option<IndexedEntry>
    requires { AreObjects entries.now }
    ensures { MatchOption result (All (λ e. object_id e ≢ id.now) entries.now)
        (λ e. object_id e ≡ id.now) }
{
    match entries.binary_search_by(|entry| entry.entry.id.cmp(id)) {
        Ok(place) => Some(entries[place]),
        Err(_) => None,
    }
}

// Returns the entries of the pack index for these objects.
fn lines_of<A: Allocator + Copy>(
    alloc: A,
    entries: &[IndexedEntry],
) -> Result<Vec<IndexEntry, A>, AllocError>
    ensures lines { IfOk result (λ list. list.items ≡ map line_of entries.now) }
    ensures count { IfOk result (λ list. length list.items ≡ length entries.now) }
{
    entries.iter().map(|entry| entry.entry).collect(alloc)
}

/// Indexes a pack, and passes each object to a visitor. The visitor receives all undeltified
/// objects first, and then the result of each delta after the delta's base.
///
/// Fails with `Frame` if the header or the trailer is wrong, or if bytes follow the last entry.
/// Fails with `Entry` if an entry is malformed or missing, and with `Thin` if the base of a delta
/// is not in the pack. Fails with `TooLarge` if the pack exceeds a limit, a chain has more than
/// 8,191 deltas, or there are 2^31 objects or more. The same fault occurs if the header and the
/// zlib stream of an entry have more than 128 MiB together, or the objects of a chain more than
/// 16 GiB. Fails with the visitor's fault if the visitor fails, or with `Memory` if out of memory.
/// The visitor may already have received objects when this function fails.
///
/// The pack is copied into memory once.
pub fn index_pack<A: Allocator + Copy, V: ObjectVisitor>(
    alloc: A,
    pack: &[u8],
    limits: IndexLimits,
    visitor: &mut V,
) -> Result<IndexedPack<A>, PackFileFault>
    ensures { IfOk result (λ indexed. (count : ℕ) × IsFramed count indexed.checksum pack.now) }
{
    let mut incoming = IncomingPack::new(alloc, Vec::new(alloc), limits);
    feed_all(&mut incoming, pack, visitor)?;
    let (_spool, index) = incoming.finish(visitor)?;
    Ok(index)
}

// Feeds a pack to `incoming` in pieces. Pieces whose entries are scanned do not stay in memory.
fn feed_all<S: Spool + Drop, A: Allocator + Copy, V: ObjectVisitor>(
    incoming: &mut IncomingPack<S, A>,
    pack: &[u8],
    visitor: &mut V,
) -> Result<(), SpoolFault>
    ensures { OnOk result (incoming.new ≡ incoming.old ++ pack.now) }
{
    for piece in pack.chunks(PIECE) {
        incoming.feed(piece, visitor)?;
    }
    Ok(())
}

// Returns these objects, sorted by id. Fails with `TooLarge` if there are too many objects for a
// pack index.
fn in_order<A: Allocator + Copy>(
    objects: Vec<IndexedEntry, A>,
) -> Result<Vec<IndexedEntry, A>, PackFileFault>
    requires { All (λ e. IsLine (line_of e)) objects.items }
    ensures { IfOk result (λ entries. AreObjects entries.items) }
{
    let mut entries = objects;
    if entries.len() > MAX_ENTRIES {
        return Err(PackFileFault::TooLarge);
    }
    entries.sort_unstable_by(|one, other| one.entry.id.cmp(&other.entry.id));
    Ok(entries)
}
