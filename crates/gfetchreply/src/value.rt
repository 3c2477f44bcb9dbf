//! A fetch reply as a value.

ghost use Rattle.std.specs.Prelude.{◌≡◌, ◌≤◌, [], length, nat_lt, All, IsTrue};
ghost use Rattle.std.specs.List.{list_all};
ghost use Rattle.gname.specs.Ids.{IsIdOf, has_format};
ghost use Rattle.gname.specs.Limits.{max_pack};
ghost use Rattle.ggrammar.specs.Building.{Builds};
ghost use Rattle.ggrammar.specs.Limits.{profile};
ghost use Rattle.gfetchreply.specs.FetchReplies.{max_acks};
ghost use Rattle.gfetchreply.specs.WellFormed.{AreAcks};
ghost use Rattle.gfetchreply.specs.steps.FetchHeads.{reply_with};
ghost use Rattle.gfetchreply.specs.steps.Views.{KeepsFormat};
ghost use Rattle.gfetchreply.specs.Views.{head_in, reply_in};
ghost use Rattle.gfetchreply.specs.steps.Values.{AddsId};
ghost use Rattle.gfetchreply.specs.Values.{MakesAcks, MakesPack, with_id};

use ggrammar::{Limits, MessageFault, Why};
use gname::{Format, MAX_PACK, Oid};
use std::alloc::Allocator;
use std::marker::Model;

/// The maximum number of ids that a reply acknowledges with the default limits.
pub const MAX_ACKS: usize = 4_096;

// The maximum number of ids that a reply acknowledges, even with higher limits.
const MAX_COUNT: usize = 4_294_967_295;

/// The ids that a server acknowledges: the haves of a request that the server holds. All ids have
/// the same format. The limit on haves is also the limit on the number of ids. A limit above
/// 4,294,967,295 counts as 4,294,967,295.
#[derive(Debug, Drop)]
pub struct Acks<A: Allocator + Copy> {
    limits: Limits,
    format: Format,
    ids: Vec<Oid, A>,
}

impl<A: Allocator + Copy> Model for Acks<A> {
    ghost use Rattle.gfetchreply.specs.Values.{Acks};
    ghost use Rattle.gfetchreply.specs.WellFormed.{AreAcks};

    ghost Value = { Acks };

    ghost view = { λ acks. record { limits = acks.limits; format = acks.format; ids = acks.ids.items } };

    ghost invariant = { λ acks. AreAcks acks.limits acks.format acks.ids.items };
}

impl<A: Allocator + Copy> Acks<A> {
    /// Returns an empty list of ids with the default limits. Allocates nothing.
    pub fn new(alloc: A, format: Format) -> Acks<A>
        ensures { result ≡ record { limits = profile; format = format; ids = [] } }
    {
        Acks::within(alloc, format, Limits::default())
    }

    /// Returns an empty list of ids with these limits. Allocates nothing.
    pub fn within(alloc: A, format: Format, limits: Limits) -> Acks<A>
        ensures { result ≡ record { limits = limits; format = format; ids = [] } }
    {
        Acks {
            limits,
            format,
            ids: Vec::new(alloc),
        }
    }

    /// Returns acknowledgments of these ids with the default limits, as [`Acks::from_ids_within`]
    /// does.
    pub fn from_ids(format: Format, ids: Vec<Oid, A>) -> Result<Acks<A>, MessageFault>
        ensures { MakesAcks profile format ids.items result }
    {
        Acks::from_ids_within(format, ids, Limits::default())
    }

    /// Returns acknowledgments of these ids with these limits, without copying the ids. Allocates
    /// nothing.
    ///
    /// Fails with [`Why::BadText`] if an id has another format. Otherwise fails with [`Why::Limit`]
    /// if there are more ids than the limits allow. The fault reports packet position 0. A failed
    /// call drops the ids.
    pub fn from_ids_within(
        format: Format,
        ids: Vec<Oid, A>,
        limits: Limits,
    ) -> Result<Acks<A>, MessageFault>
        ensures { MakesAcks limits format ids.items result }
    {
        if !are_of(format, ids.as_slice()) {
            return Err(MessageFault::of_value(Why::BadText));
        }
        if ids.len() <= max_acks(limits) {
            Ok(Acks {
                limits,
                format,
                ids,
            })
        } else {
            Err(MessageFault::of_value(Why::Limit))
        }
    }

    /// Returns the limits, of which `haves` is the maximum number of ids.
    pub fn limits(&self) -> Limits
        ensures { result ≡ self.now.limits }
    {
        self.limits
    }

    /// Returns the format of the ids.
    pub fn format(&self) -> Format
        ensures { result ≡ self.now.format }
    {
        self.format
    }

    /// Returns the ids. Their number is within the limits.
    pub fn ids(&self) -> &[Oid]
        ensures ids { result.now ≡ self.now.ids }
        ensures well_formed { AreAcks self.now.limits self.now.format result.now }
    {
        self.ids.as_slice()
    }

    /// Appends an id.
    ///
    /// Fails with [`Why::BadText`] if the id has another format. Otherwise fails with
    /// [`Why::Limit`] if there are already as many ids as the limits allow, or with
    /// [`Why::Memory`] if memory runs out. The fault reports packet position 0. A failed call
    /// changes nothing.
    pub fn push(&mut self, id: Oid) -> Result<(), MessageFault>
        ensures { Builds (has_format self.old.format id)
            (nat_lt (length self.old.ids) (max_acks self.old.limits)) self.old self.new
            (with_id self.old id) result }
    {
        if !is_of(self.format, &id) {
            return Err(MessageFault::of_value(Why::BadText));
        }
        match self.add(id) {
            Ok(()) => Ok(()),
            Err(why) => Err(MessageFault::of_value(why)),
        }
    }

    // Appends an id that has the format of the list.
    pub(crate) fn add(&mut self, id: Oid) -> Result<(), Why>
        requires { IsIdOf self.old.format id }
        ensures { AddsId self.old self.new id result }
    {
        if self.ids.len() >= max_acks(self.limits) {
            return Err(Why::Limit);
        }
        match self.ids.push(id) {
            Ok(()) => Ok(()),
            Err(_) => Err(Why::Memory),
        }
    }
}

// Returns the maximum number of ids that a reply acknowledges with these limits.
fn max_acks(limits: Limits) -> usize
    ensures { result ≡ max_acks limits }
{
    limits.haves.min(MAX_COUNT)
}

// Returns whether the id has this format.
fn is_of(format: Format, id: &Oid) -> bool
    ensures same { result ≡ has_format format id.now }
    ensures of_format { IsTrue result → IsIdOf format id.now }
{
    id.as_bytes().len() == format.id_length()
}

// Returns whether each id has this format.
fn are_of(format: Format, ids: &[Oid]) -> bool
    ensures same { result ≡ list_all (has_format format) ids.now }
    ensures of_format { IsTrue result → All (IsIdOf format) ids.now }
{
    for id in ids {
        if !is_of(format, id) {
            return false;
        }
    }
    true
}

/// A pack of at most [`MAX_PACK`] bytes.
#[derive(Debug, Drop)]
pub struct PackBytes<A: Allocator + Copy> {
    bytes: Vec<u8, A>,
}

impl<A: Allocator + Copy> Model for PackBytes<A> {
    ghost use Rattle.std.specs.Prelude.{List, ℕ, ◌≤◌, length};
    ghost use Rattle.gname.specs.Limits.{max_pack};

    ghost Value = { List ℕ };

    ghost view = { λ pack. pack.bytes.items };

    ghost invariant = { λ pack. length pack.bytes.items ≤ max_pack };
}

impl<A: Allocator + Copy> PackBytes<A> {
    /// Returns a pack of these bytes. Allocates nothing.
    ///
    /// Fails with [`Why::Limit`] if there are more than [`MAX_PACK`] bytes. The fault reports
    /// packet position 0.
    pub fn new(bytes: Vec<u8, A>) -> Result<PackBytes<A>, MessageFault>
        ensures { MakesPack bytes.items result }
    {
        if bytes.len() <= MAX_PACK {
            Ok(PackBytes { bytes })
        } else {
            Err(MessageFault::of_value(Why::Limit))
        }
    }

    /// Returns the bytes of the pack.
    pub fn as_bytes(&self) -> &[u8]
        ensures bytes { result.now ≡ self.now }
        ensures short { length result.now ≤ max_pack }
    {
        self.bytes.as_slice()
    }

    /// Returns the bytes of the pack, as a vector.
    pub fn into_vec(self) -> Vec<u8, A>
        ensures bytes { result.items ≡ self }
        ensures short { length result.items ≤ max_pack }
    {
        let PackBytes { bytes } = self;
        bytes
    }
}

/// A fetch reply (gitprotocol-v2(5), "fetch").
#[derive(Debug, Drop)]
pub enum FetchReply<A: Allocator + Copy> {
    /// The reply has acknowledgments and no pack, since some want reaches no acknowledged id.
    Acks(Acks<A>),
    /// The reply has acknowledgments and the pack, since each want reaches an acknowledged id.
    Ready(Acks<A>, PackBytes<A>),
    /// The reply has only the pack, since the request has `done` or no haves.
    Pack(PackBytes<A>),
}

impl<A: Allocator + Copy> FetchReply<A> {
    // Returns the reply with this head and this pack.
    pub(crate) fn with_pack(head: FetchHead<A>, pack: Vec<u8, A>) -> FetchReply<A>
        requires { length pack.items ≤ max_pack }
        ensures reply { reply_in result ≡ reply_with (head_in head) pack.items }
        ensures format { KeepsFormat head result }
    {
        match head {
            FetchHead::Acks(acks) => FetchReply::Acks(acks),
            FetchHead::Ready(acks) => FetchReply::Ready(acks, PackBytes { bytes: pack }),
            FetchHead::Pack => FetchReply::Pack(PackBytes { bytes: pack }),
        }
    }
}

/// A fetch reply without its pack.
#[derive(Debug, Drop)]
pub enum FetchHead<A: Allocator + Copy> {
    /// The reply has acknowledgments and no pack, since some want reaches no acknowledged id.
    Acks(Acks<A>),
    /// The reply has acknowledgments and a pack, since each want reaches an acknowledged id.
    Ready(Acks<A>),
    /// The reply has a pack and no acknowledgments.
    Pack,
}
