//! A pack that is indexed while it arrives.

ghost use Rattle.std.specs.Prelude.{◌≡◌, ◌++◌, [], ℕ, All, IfOk, OnOk};
ghost use Rattle.gitpack.specs.Indexes.{IsLine, line_of};
ghost use Rattle.gitpack.specs.Packs.{IsFramed};

use crate::fault::PackFileFault;
use crate::frame::{FramedPack, PackBytes, PackHead};
use crate::indexing::{IndexLimits, IndexedEntry, IndexedPack, ObjectVisitor};
use crate::resolving::Resolver;
use crate::scanning::{ScannedPack, Scanner};
use crate::spool::{Spool, SpoolFault};
use std::alloc::Allocator;
use std::marker::Model;

/// A pack that is indexed while it arrives: call `new`, then `feed` for each piece, then `finish`.
/// In contracts, this value is the list of received bytes.
///
/// All bytes are appended to a spool, and hashed on arrival. Only the bytes of entries that are not
/// scanned yet stay in memory. Complete entries are inflated in batches of at least 128 KiB. If a
/// long entry is incomplete, the next batch is larger.
#[derive(Drop)]
pub struct IncomingPack<S: Spool + Drop, A: Allocator + Copy> {
    bytes: PackBytes<S, A>,
    scanner: Scanner<A>,
}

impl<S: Spool + Drop, A: Allocator + Copy> Model for IncomingPack<S, A> {
    ghost use Rattle.std.specs.Prelude.{ℕ, List};

    ghost Value = { List ℕ };

    ghost view = { λ pack. pack.bytes };
}

impl<S: Spool + Drop, A: Allocator + Copy> IncomingPack<S, A> {
    /// Returns a pack that has received no bytes. The spool must be empty.
    pub fn new(alloc: A, spool: S, limits: IndexLimits) -> IncomingPack<S, A>
        requires { S.bytes spool ≡ [] }
        ensures { result ≡ [] }
    {
        IncomingPack {
            bytes: PackBytes::new(alloc, spool),
            scanner: Scanner::new(alloc, limits),
        }
    }

    /// Adds the next bytes of the pack. The visitor receives each undeltified object that is
    /// inflated in this call. Faults of the pack or of the visitor are reported by `finish`. Bytes
    /// that arrive after such a fault are still appended to the spool.
    ///
    /// Fails if the spool fails, or with `Memory` if out of memory. After a fault, the pack is
    /// unusable.
    pub fn feed<V: ObjectVisitor>(
        &mut self,
        piece: &[u8],
        visitor: &mut V,
    ) -> Result<(), SpoolFault>
        ensures { OnOk result (self.new ≡ self.old ++ piece.now) }
    {
        self.bytes.push(piece)?;
        let end = match self.bytes.head() {
            PackHead::Unread => 0,
            PackHead::Count(count) => self.scanner.scan(count, self.bytes.part(), visitor),
            PackHead::Wrong => usize::MAX,
        };
        self.bytes.release(end);
        Ok(())
    }

    /// Returns the spool with the received pack, and the objects of the pack. Must be called after
    /// all bytes have arrived. The visitor must be the same as in all `feed` calls, and receives
    /// the remaining objects.
    ///
    /// Fails for the same reasons as [`crate::index_pack`]. Fails with `Spool` if the spool fails,
    /// or returns a zlib stream that cannot be inflated.
    pub fn finish<V: ObjectVisitor>(
        self,
        visitor: &mut V,
    ) -> Result<(S, IndexedPack<A>), PackFileFault>
        ensures bytes { IfOk result (λ it. S.bytes it.0 ≡ self) }
        ensures frame { IfOk result (λ it. (count : ℕ) × IsFramed count it.1.checksum self) }
    {
        let IncomingPack { bytes, scanner } = self;
        let Some(pack) = bytes.finish() else {
            return Err(PackFileFault::Frame);
        };
        let scanned = scanner.finish(pack.count, pack.part(), visitor)?;
        let FramedPack {
            spool,
            window,
            trailer,
            ..
        } = pack;
        // The bytes in memory are not needed any more.
        drop(window);
        let objects = objects_of(&spool, scanned, visitor)?;
        let index = IndexedPack::new(objects, trailer)?;
        Ok((spool, index))
    }
}

// Applies the deltas of a scanned pack, and returns all objects of the pack.
fn objects_of<S: Spool, A: Allocator + Copy, V: ObjectVisitor>(
    spool: &S,
    scanned: ScannedPack<A>,
    visitor: &mut V,
) -> Result<Vec<IndexedEntry, A>, PackFileFault>
    ensures { IfOk result (λ objects. All (λ e. IsLine (line_of e)) objects.items) }
{
    let mut resolver = Resolver::new(spool, scanned)?;
    resolver.resolve_all(visitor)?;
    resolver.into_entries()
}
