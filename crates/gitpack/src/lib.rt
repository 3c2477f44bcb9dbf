//! Reading, indexing and writing Git packs, with deltas and pack indexes (gitformat-pack(5)). This
//! crate does not read files or the object graph. A [`Spool`] stores a pack that arrives.
//!
//! # Proved
//!
//! - [`read_head`] accepts exactly the entry headers of `specs/Entries.antt`: a type, a size, and
//!   for a delta also the offset or id of its base. A byte sequence begins with at most one entry
//!   header ([`laws`]), so [`read_head`] reads back each header that [`PackWriter`] writes.
//! - [`apply_delta`] returns an object if and only if the bytes are a delta of the base, and the
//!   size of the object is within the limit. In a delta of the base, both recorded sizes are
//!   correct, and each copied range is within the base. The object consists of the copied and
//!   inserted bytes, in order. [`made_size`] returns the size of this object.
//! - [`DeltaBase::make_delta`] returns only a delta that makes the target from the base, and whose
//!   size is within the limit.
//! - [`PackIndex::read`] returns an index if and only if the bytes are an index of version 2
//!   (`ReadsIndex` in `specs/Indexes.antt`). [`PackIndex::read`] does not check the index's own
//!   checksum. The entries of an index are sorted by id, and the fan-out table and both offset
//!   tables match the entries. The same bytes encode at most one index ([`laws`]).
//! - [`PackIndex::find`] finds an id if and only if the index contains it. The methods
//!   [`PackIndex::id`], [`PackIndex::crc`] and [`PackIndex::offset`] return the fields of the entry
//!   at a position.
//! - [`IndexedPack::write_index`] writes the pack index of version 2, with both checksums. The
//!   function [`PackIndex::read`] accepts these bytes, and returns the index of the same pack.
//! - [`PackWriter`] writes the pack header with the entry count, then each entry, and finally the
//!   SHA-1 of all these bytes. The functions [`put_header`] and [`put_entry`] write only a pack
//!   header or one entry.
//! - [`IncomingPack`] accepts only packs of version 2 whose trailer is the SHA-1 of all preceding
//!   bytes. All received bytes are appended to a [`Spool`], in order, and
//!   [`IncomingPack::finish`] returns the spool. Each successful [`IncomingPack::feed`] stores its
//!   bytes, even if the pack has a fault. An [`ObjectVisitor`] receives each object with the id
//!   that the object's type and bytes determine. The returned objects are sorted by id.
//! - A vector is a [`Spool`]. Its `read_at` reads exactly the bytes that were appended.
//! - [`index_pack`] gives the same guarantees for a pack in one slice.
//! - No call panics, overflows or reads out of bounds, and every call returns.
//!
//! # Only tested
//!
//! The program `gitcases` indexes valid, malformed, hostile, truncated and altered packs, and looks
//! up their objects in the index. `examples/with-git.sh` indexes packs that Git wrote, and lets Git
//! read packs that this crate wrote.
//!
//! Indexing reads bytes back from a spool only if the inflated streams of a pack exceed a cache of
//! 64 MiB. The packs of `gitcases` are smaller, so it does not test reading back.
//!
//! # Differences from Git
//!
//! - The encoding of a size in a delta, or of the offset of a base, has at most eight bytes.
//! - A pack of version 3 is refused; Git reads it. All ids are SHA-1 ids.
//! - An index of version 1 is refused. An index of version 2 is accepted only in the form that Git
//!   writes. In this form, the table of 64-bit offsets contains exactly the offsets of at least
//!   2^31, in the order of the entries. The index's own checksum is not checked.
//! - A pack of 2^31 objects or more is refused. A thin pack is refused, and so is a pack with a
//!   chain of more than 8,191 deltas. Git can read longer chains, but no Git command makes them.
//!   A chain whose objects have more than 16 GiB together is also refused; Git reads it.
//!   Indexing refuses a pack with an entry of more than 128 MiB. This limit covers the entry header
//!   and the zlib stream.
//! - A pack may contain the same object twice, and then the index lists both entries. Git accepts a
//!   pack with duplicate objects, unless `--strict` is set. A pack is refused if it contains the
//!   base of a ref delta twice, as in Git 2.39; later versions of Git accept such a pack.
//!
//! # What the contracts do not rule out
//!
//! - Any call that allocates may fail if out of memory, and no contract says when.
//! - No contract rules out that [`DeltaBase::make_delta`] never finds a delta, or finds a longer
//!   delta than necessary. Only the memory safety of the search is proved. Each found delta is
//!   applied as a check, and returned only if it makes the target.
//! - No contract rules out that [`IncomingPack`] and [`index_pack`] refuse a valid pack.
//! - No contract rules out that indexing omits an object. No contract rules out that indexing
//!   returns an object that the visitor did not receive, received twice, or received with another
//!   type.
//! - No contract rules out that indexing returns a wrong offset or CRC-32 of an object, or applies
//!   a delta to a wrong base.
//! - No contract rules out that [`IncomingPack::feed`] fails for any bytes, with any fault. No
//!   contract says which bytes the pack and its spool hold after a failed call.
//! - No contract rules out that indexing reads the wrong bytes from memory or from a spool, or
//!   drops bytes from memory before they are read.
//! - No contract rules out that indexing accepts a thin pack, or a pack with bytes after its last
//!   entry. No contract rules out that indexing accepts a pack with the same delta base twice, or
//!   with fewer entries than its header says.
//! - No contract rules out that indexing accepts a pack after the visitor refused an object. No
//!   contract rules out that the visitor receives an object that is not in the pack.
//! - The contracts of indexing do not cover limits, faults, or the time at which the visitor
//!   receives an object.
//! - [`IndexedPack::find`] returns an object with the id, but no contract says that
//!   [`IndexedPack::entries`] contains this object.
//! - No contract rules out that [`PackWriter`] and [`put_entry`] fail for any entry, with any
//!   fault. No contract says which bytes [`put_entry`] and [`put_header`] leave in `out` after a
//!   fault.
//! - No contract compares the number of written entries with the count in the pack header. No
//!   contract bounds the length of a written pack or of an entry header ([`MAX_HEAD`]).
//! - The contracts do not cover time or memory use. The limit [`IndexLimits::held`] counts neither
//!   the cache of 64 MiB nor a zlib stream that is read back, which may have 128 MiB.
//!
//! # Dependencies
//!
//! `gzlib` inflates and deflates zlib streams, and computes CRC-32. `gitobject` defines object
//! types and hashes objects. `gname` defines ids, and `sha1` computes checksums.
#![tactic(auto)]

mod blocks;
mod children;
mod delta;
mod delta_making;
mod entry;
mod fault;
mod frame;
mod heads;
mod incoming;
mod index;
mod index_reading;
mod index_writing;
mod indexing;
pub mod laws;
mod numbers;
mod resolving;
mod scanning;
mod spool;
mod streams;
mod writing;

pub use crate::delta::{apply_delta, made_size};
pub use crate::delta_making::DeltaBase;
pub use crate::entry::{EntryForm, EntryHead, MAX_HEAD, read_head};
pub use crate::fault::PackFileFault;
pub use crate::incoming::IncomingPack;
pub use crate::index::{IndexEntry, PackIndex};
pub use crate::indexing::{IndexLimits, IndexedEntry, IndexedPack, ObjectVisitor, index_pack};
pub use crate::spool::{Spool, SpoolFault};
pub use crate::writing::{PackWriter, put_entry, put_header};
