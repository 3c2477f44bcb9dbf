//! The header and the trailer of a pack that arrives.

ghost use Rattle.std.specs.Prelude.{◌≡◌, ◌-◌, ◌≤◌, ◌++◌, ◌↔◌, [], List, ℕ, IfSome, IsTrue, OnErr, OnOk, drop, length, take};
ghost use Rattle.gname.specs.Ids.{IsIdOf};
ghost use Rattle.gname.specs.declared.formats.Format.TheVariants as formats;
ghost use Rattle.gitpack.specs.Packs.{IsFramed, IsPart, pack_header};
ghost use Rattle.gitpack.specs.steps.Arriving.{HeadAfter, IsHeadOf, MayRelease};

use crate::spool::{Spool, SpoolFault};
use gitobject::{ID_BYTES, id_of_bytes};
use gname::Oid;
use sha1::Sha1;
use std::alloc::Allocator;
use std::marker::Model;

/// The length of a pack header.
pub(crate) const HEADER_BYTES: usize = 12;

/// The first eight bytes of a pack: the signature, and version 2.
pub(crate) const SIGNATURE: &[u8; 8] = b"PACK\0\0\0\x02";

/// The state of the header of a pack that arrives.
#[derive(Clone, Copy, Debug, Drop)]
pub(crate) enum PackHead {
    /// The header is incomplete.
    Unread,
    /// The header contains this entry count.
    Count(u32),
    /// The bytes do not begin with a pack header.
    Wrong,
}

/// The bytes of a pack that are in memory, except the last twenty received bytes, which may be the
/// trailer.
#[derive(Clone, Copy)]
pub(crate) struct PackPart<'a> {
    /// The offset of the first byte in the pack.
    pub first: usize,
    /// The bytes.
    pub bytes: &'a [u8],
}

impl<'a> PackPart<'a> {
    /// Returns the offset of the end of the bytes.
    pub(crate) fn end(self) -> usize {
        self.first.saturating_add(self.bytes.len())
    }

    /// Returns the bytes from this offset on.
    pub(crate) fn from(self, offset: usize) -> &'a [u8] {
        let before = offset.saturating_sub(self.first);
        self.bytes.get(before..).unwrap_or(b"")
    }
}

/// The received bytes of a pack. All bytes are in a spool. The last bytes are also in memory, until
/// `release` drops them. All bytes except the last twenty, which may be the trailer, are hashed on
/// arrival. In contracts, this value is the list of received bytes.
#[derive(Drop)]
pub(crate) struct PackBytes<S: Spool + Drop, A: Allocator + Copy> {
    spool: S,
    // The bytes that are not released yet.
    window: Vec<u8, A>,
    // The offset of the first byte of `window`.
    first: usize,
    head: PackHead,
    hasher: Sha1,
}

/// A pack with a correct header and trailer.
#[derive(Drop)]
pub(crate) struct FramedPack<S: Spool + Drop, A: Allocator + Copy> {
    /// The whole pack.
    pub spool: S,
    /// The bytes that are not released yet.
    pub window: Vec<u8, A>,
    /// The offset of the first byte of `window`.
    pub first: usize,
    /// The entry count in the pack header.
    pub count: u32,
    /// The trailer, which is the checksum of the pack.
    pub trailer: Oid,
}

impl<S: Spool + Drop, A: Allocator + Copy> FramedPack<S, A> {
    /// Returns the bytes in memory, without the trailer.
    pub(crate) fn part(&self) -> PackPart<'_> {
        PackPart {
            first: self.first,
            bytes: body_of(self.window.as_slice()),
        }
    }
}

impl<S: Spool + Drop, A: Allocator + Copy> Model for PackBytes<S, A> {
    ghost use Rattle.std.specs.Prelude.{ℕ, List};
    ghost use Rattle.gitpack.specs.steps.Arriving.{IsArriving};

    ghost Value = { List ℕ };

    ghost view = { λ pack. S.bytes pack.spool };

    ghost invariant = { λ pack.
        IsArriving (S.bytes pack.spool) pack.first pack.window.items pack.head pack.hasher };
}

impl<S: Spool + Drop, A: Allocator + Copy> PackBytes<S, A> {
    /// Returns a `PackBytes` that has received no bytes.
    pub(crate) fn new(alloc: A, spool: S) -> PackBytes<S, A>
        requires { S.bytes spool ≡ [] }
        ensures { result ≡ [] }
    {
        PackBytes {
            spool,
            window: Vec::new(alloc),
            first: 0,
            head: PackHead::Unread,
            hasher: Sha1::new(),
        }
    }

    /// Returns the state of the header.
    pub(crate) fn head(&self) -> PackHead {
        self.head
    }

    /// Returns the bytes in memory, except the last twenty.
    pub(crate) fn part(&self) -> PackPart<'_>
        ensures { IsPart self.now result.first result.bytes.now }
    {
        PackPart {
            first: self.first,
            bytes: body_of(self.window.as_slice()),
        }
    }

    /// Appends the next received bytes. Fails if the spool fails, or if out of memory.
    pub(crate) fn push(&mut self, piece: &[u8]) -> Result<(), SpoolFault>
        ensures { OnOk result (self.new ≡ self.old ++ piece.now) }
    {
        let from = body_length(self.window.as_slice());
        store(&mut self.spool, &mut self.window, piece)?;
        let to = body_length(self.window.as_slice());
        self.hasher.update(&self.window.as_slice()[from..to]);
        self.head = head_after(self.head, &self.window.as_slice()[..to]);
        Ok(())
    }

    /// Drops the bytes before this offset from memory. The last twenty bytes remain in memory, and
    /// so does an incomplete header.
    pub(crate) fn release(&mut self, end: usize)
        ensures { self.new ≡ self.old }
    {
        let past = end.saturating_sub(self.first);
        let count = releasable(self.head, self.window.as_slice(), past);
        if count == 0 {
            return;
        }
        drop_front(&mut self.window, count);
        self.first += count;
    }

    /// Returns the whole pack, or `None` if the pack header is wrong, or the trailer is not the
    /// SHA-1 of all preceding bytes.
    pub(crate) fn finish(self) -> Option<FramedPack<S, A>>
        ensures bytes { IfSome result (λ pack. S.bytes pack.spool ≡ self) }
        ensures frame { IfSome result (λ pack. IsFramed pack.count pack.trailer self) }
        ensures id { IfSome result (λ pack. IsIdOf formats.Sha1 pack.trailer) }
    {
        let PackBytes {
            spool,
            window,
            first,
            head,
            hasher,
        } = self;
        let PackHead::Count(count) = head else {
            return None;
        };
        let sum = hasher.finalize();
        let Some(trailer) = trailer_of(window.as_slice(), &sum) else {
            return None;
        };
        Some(FramedPack {
            spool,
            window,
            first,
            count,
            trailer,
        })
    }
}

// Appends the next bytes to the spool and to the window. A failed call appends nothing.
fn store<S: Spool, A: Allocator + Copy>(
    spool: &mut S,
    window: &mut Vec<u8, A>,
    piece: &[u8],
) -> Result<(), SpoolFault>
    ensures spool_ok { OnOk result (S.bytes spool.new ≡ S.bytes spool.old ++ piece.now) }
    ensures spool_err { OnErr result (S.bytes spool.new ≡ S.bytes spool.old) }
    ensures window_ok { OnOk result (window.new.items ≡ window.old.items ++ piece.now) }
    ensures window_err { OnErr result (window.new.items ≡ window.old.items) }
{
    let length = window.len();
    window.extend_from_slice(piece)?;
    match spool.append(piece) {
        Ok(()) => Ok(()),
        Err(fault) => {
            window.truncate(length);
            Err(fault)
        }
    }
}

// Returns how many of the first `count` bytes of the window may be released.
fn releasable(head: PackHead, window: &[u8], count: usize) -> usize
    ensures few { result ≤ count }
    ensures may { MayRelease head result window.now }
{
    match head {
        PackHead::Unread => 0,
        PackHead::Count(_) => count.min(body_length(window)),
        PackHead::Wrong => count.min(body_length(window)),
    }
}

// Removes the first `count` bytes of the window.
fn drop_front<A: Allocator + Copy>(window: &mut Vec<u8, A>, count: usize)
    requires { count ≤ length window.old.items }
    ensures { window.new.items ≡ drop count window.old.items }
{
    let length = window.len();
    window.as_mut_slice().copy_within(count..length, 0);
    window.truncate(length - count);
}

// Returns the state of the header after more bytes have arrived. If `head` is `Unread`, `body` is
// the start of the pack, and the header is read from `body`. Otherwise `head` is returned.
fn head_after(head: PackHead, body: &[u8]) -> PackHead
    ensures { HeadAfter head body.now result }
{
    match head {
        PackHead::Unread => head_of(body),
        PackHead::Count(_) => head,
        PackHead::Wrong => head,
    }
}

// Returns the state of the header of a pack that begins with these bytes.
fn head_of(body: &[u8]) -> PackHead
    ensures { IsHeadOf result body.now }
{
    match entry_count(body) {
        Some(count) => PackHead::Count(count),
        None if body.len() < HEADER_BYTES => PackHead::Unread,
        None => PackHead::Wrong,
    }
}

// Returns the length of a pack without its last twenty bytes.
fn body_length(pack: &[u8]) -> usize
    ensures { result ≡ length pack.now - 20 }
{
    pack.len().saturating_sub(ID_BYTES)
}

// Returns all bytes of a pack except the last twenty.
fn body_of(pack: &[u8]) -> &[u8]
    ensures { result.now ≡ take (length pack.now - 20) pack.now }
{
    match pack.split_last_chunk::<ID_BYTES>() {
        Some((body, _last)) => body,
        None => b"",
    }
}

// Returns the trailer of a pack that ends with these bytes, or `None` if the last twenty bytes
// differ from `sum`.
fn trailer_of(pack: &[u8], sum: &[u8; ID_BYTES]) -> Option<Oid>
    ensures parts { IfSome result (λ id. (id ≡ sum.now)
        × (pack.now ≡ take (length pack.now - 20) pack.now ++ sum.now)) }
    ensures id { IfSome result (λ id. IsIdOf formats.Sha1 id) }
{
    let Some((_body, trailer)) = pack.split_last_chunk::<ID_BYTES>() else {
        return None;
    };
    if !is_same(sum, trailer) {
        return None;
    }
    Some(id_of_bytes(trailer))
}

/// Returns whether two slices are equal.
pub(crate) fn is_same(one: &[u8], other: &[u8]) -> bool
    ensures { IsTrue result ↔ (one.now ≡ other.now) }
{
    one == other
}

/// Returns the entry count in the pack header, or `None` if the bytes do not begin with a pack
/// header.
pub(crate) fn entry_count(pack: &[u8]) -> Option<u32>
    ensures { IfSome result (λ count. (rest : List ℕ) × (pack.now ≡ pack_header count ++ rest)) }
{
    let Some(after) = pack.strip_prefix(SIGNATURE) else {
        return None;
    };
    let Some((count, _rest)) = after.split_first_chunk::<4>() else {
        return None;
    };
    Some(u32::from_be_bytes(*count))
}
