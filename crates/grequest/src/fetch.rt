//! Fetch requests (gitprotocol-v2(5), "fetch").

ghost use Rattle.std.specs.Prelude.{ℕ, All, ◌≡◌, ◌↔◌, ◌≤◌, ◌<◌, ◌&&◌, ◌++◌, ◌∷◌, [], true, false, length, nat_lt, IfOk, IfSome, IsTrue, OnOk, OnErr, Some};
ghost use Rattle.std.specs.Option.{option_copied};
ghost use Rattle.gname.specs.Ids.{IsIdOf, has_format};
ghost use Rattle.ggrammar.specs.Building.{Builds};
ghost use Rattle.ggrammar.specs.Capabilities.{is_word_value};
ghost use Rattle.ggrammar.specs.Ids.{id_of_text};
ghost use Rattle.ggrammar.specs.Limits.{profile};
ghost use Rattle.ggrammar.specs.MessageReading.{AddsAs};
ghost use Rattle.grequest.specs.declared.flag.FetchFlag.TheVariants.{Done};
ghost use Rattle.grequest.specs.Flags.{flags_at};
ghost use Rattle.grequest.specs.Arguments.{Have, Want, fetch_argument, fetch_flags};
ghost use Rattle.grequest.specs.Asked.{Fetches, fetch_has, fetch_number, fetch_with, is_direct, max_wants, max_haves, max_arguments};
ghost use Rattle.grequest.specs.steps.Building.{HaveSameIds, IsWithin, KeepsAs};
ghost use Rattle.grequest.specs.Building.{no_fetch};
ghost use Rattle.grequest.specs.Requests.{fetch_argument_brings, has_room, judge_fetch_argument};
ghost use Rattle.grequest.specs.steps.RequestState.{with_fetch_argument};
ghost use Rattle.grequest.specs.WellFormed.{IsFetchAsked};

use crate::flag::{FETCH_FLAGS, FetchFlag, Flag, MAX_FLAGS, are_same_flags};
use crate::kept::NotKept;
use crate::limits::{max_haves, max_wants};
use crate::line::{FetchArgument, fetch_argument};
use crate::parts::{are_same_ids, copy_agent, is_same_agent};
use crate::reading::MAX_ARGUMENTS;
use ggrammar::{Limits, MessageFault, Why, id_of_text, is_word_value};
use gname::laws::texts_have_one_reading;
use gname::{Format, Oid};
use std::alloc::{AllocError, Allocator, Global};
use std::marker::Model;

/// A fetch request (gitprotocol-v2(5), "fetch"), whose ids all have the same format.
///
/// The limits of the request bound the numbers of its wants and haves. A limit above 2^30 counts as
/// 2^30.
#[derive(Debug, Drop)]
pub struct FetchRequest<A: Allocator + Copy = Global> {
    format: Format,
    limits: Limits,
    agent: Option<Vec<u8, A>>,
    wants: Vec<Oid, A>,
    haves: Vec<Oid, A>,
    flags: [bool; MAX_FLAGS],
}

impl<A: Allocator + Copy> Model for FetchRequest<A> {
    ghost use Rattle.std.specs.Prelude.{option_map};
    ghost use Rattle.grequest.specs.Flags.{flags_at};
    ghost use Rattle.grequest.specs.Arguments.{fetch_flags};
    ghost use Rattle.grequest.specs.Asked.{fetch_number};
    ghost use Rattle.grequest.specs.Building.{FormattedFetch};
    ghost use Rattle.grequest.specs.WellFormed.{IsFetchAsked};

    ghost Value = { FormattedFetch };

    ghost view = { λ r. record {
      format = r.format;
      limits = r.limits;
      asked = record {
        agent = option_map (λ value. value.items) r.agent;
        wants = r.wants.items;
        haves = r.haves.items;
        flags = flags_at fetch_number fetch_flags r.flags;
      };
    } };

    ghost invariant = { λ r. IsFetchAsked r.limits r.format (record {
      agent = option_map (λ value. value.items) r.agent;
      wants = r.wants.items;
      haves = r.haves.items;
      flags = flags_at fetch_number fetch_flags r.flags;
    }) };
}

impl<A: Allocator + Copy> FetchRequest<A> {
    /// Returns a request without wants and with the default limits, for ids of this format.
    /// Allocates nothing.
    pub fn new(alloc: A, format: Format) -> FetchRequest<A>
        ensures { result ≡ record { format = format; limits = profile; asked = no_fetch } }
    {
        FetchRequest::within(alloc, format, Limits::default())
    }

    /// Returns a request without wants and with these limits, for ids of this format. Allocates
    /// nothing.
    pub fn within(alloc: A, format: Format, limits: Limits) -> FetchRequest<A>
        ensures { result ≡ record { format = format; limits = limits; asked = no_fetch } }
    {
        FetchRequest {
            format,
            limits,
            agent: None,
            wants: Vec::new(alloc),
            haves: Vec::new(alloc),
            flags: [false; MAX_FLAGS],
        }
    }

    /// Returns the format of the ids.
    pub fn format(&self) -> Format
        ensures { result ≡ self.now.format }
    {
        self.format
    }

    /// Returns the limits of the request.
    pub fn limits(&self) -> Limits
        ensures { result ≡ self.now.limits }
    {
        self.limits
    }

    /// Proves that the request is well-formed and within its limits.
    pub fn laws(&self)
        ensures { IsFetchAsked self.now.limits self.now.format self.now.asked }
    {
        let _ = &self.flags;
    }

    /// Returns the client's agent string, if any: 1 to 1,000 bytes from `!` to `~`.
    pub fn agent(&self) -> Option<&[u8]>
        ensures agent { option_copied result ≡ self.now.asked.agent }
        ensures well_formed { IsFetchAsked self.now.limits self.now.format self.now.asked }
    {
        self.agent.as_ref().map(|value| value.as_slice())
    }

    /// Returns the wants, which are the requested ids, in the order of the request. Their number is
    /// within the limits of the request.
    pub fn wants(&self) -> &[Oid]
        ensures wants { result.now ≡ self.now.asked.wants }
        ensures well_formed { IsFetchAsked self.now.limits self.now.format self.now.asked }
    {
        self.wants.as_slice()
    }

    /// Returns the haves, which are ids of objects that the client holds, in the order of the
    /// request. Their number is within the limits of the request.
    pub fn haves(&self) -> &[Oid]
        ensures haves { result.now ≡ self.now.asked.haves }
        ensures well_formed { IsFetchAsked self.now.limits self.now.format self.now.asked }
    {
        self.haves.as_slice()
    }

    /// Returns whether the request has this flag.
    pub fn has(&self, flag: FetchFlag) -> bool
        ensures { result ≡ fetch_has self.now.asked flag }
    {
        self.flags[flag.number()]
    }

    /// Returns the flags that are written before the ids: all flags of the request except `done`.
    /// The index of a flag in the array is its number.
    pub(crate) fn early_flags(&self) -> [bool; MAX_FLAGS]
        ensures { flags_at fetch_number fetch_flags result
            ≡ (fetch_with self.now.asked Done false).flags }
    {
        let mut flags = self.flags;
        flags[FetchFlag::Done.number()] = false;
        flags
    }

    /// Returns whether the reply starts with the pack, without acknowledgments: the request has
    /// `done` or no haves (gitprotocol-v2(5), "fetch").
    pub fn is_direct(&self) -> bool
        ensures { result ≡ is_direct self.now.asked }
    {
        self.has(FetchFlag::Done) || self.haves.is_empty()
    }

    /// Returns a copy of the request with the same limits, allocated with `alloc`. Fails only if
    /// memory runs out.
    pub fn copy_in<B: Allocator + Copy>(&self, alloc: B) -> Result<FetchRequest<B>, AllocError>
        ensures { IfOk result (λ copy. copy ≡ self.now) }
    {
        let agent = copy_agent(alloc, self.agent())?;
        let wants = Vec::from_slice(alloc, self.wants())?;
        let haves = Vec::from_slice(alloc, self.haves())?;
        Ok(FetchRequest {
            format: self.format,
            limits: self.limits,
            agent,
            wants,
            haves,
            flags: self.flags,
        })
    }

    /// Returns whether both requests have the same agent, the same wants and haves in the same
    /// order, and the same flags. The limits may differ, and so may the formats of requests without
    /// ids.
    #[tactic(auto, using(crate::proofs::AskedLemmas::same_asked, crate::proofs::AskedLemmas::same_parts))]
    pub fn asks_as<B: Allocator + Copy>(&self, other: &FetchRequest<B>) -> bool
        ensures { IsTrue result ↔ (self.now.asked ≡ other.now.asked) }
    {
        is_same_agent(self.agent(), other.agent())
            && self.has_ids_of(other)
            && self.has_flags_of(other)
    }

    // Returns whether both requests have the same wants and haves, in the same order.
    fn has_ids_of<B: Allocator + Copy>(&self, other: &FetchRequest<B>) -> bool
        ensures { IsTrue result ↔ HaveSameIds self.now.asked other.now.asked }
    {
        are_same_ids(self.wants(), other.wants()) && are_same_ids(self.haves(), other.haves())
    }

    // Returns whether both requests have the same flags.
    fn has_flags_of<B: Allocator + Copy>(&self, other: &FetchRequest<B>) -> bool
        ensures { IsTrue result ↔ (self.now.asked.flags ≡ other.now.asked.flags) }
    {
        are_same_flags(FETCH_FLAGS, &self.flags, &other.flags)
    }

    /// Sets or clears a flag.
    pub fn set(&mut self, flag: FetchFlag, is_set: bool)
        ensures { self.new ≡ record self.old { asked = fetch_with self.old.asked flag is_set } }
    {
        self.flags[flag.number()] = is_set;
    }

    /// Sets the client's agent string, and replaces any previous agent string.
    ///
    /// Fails with `BadText` if the agent string is not 1 to 1,000 bytes from `!` to `~`, or with
    /// `Memory` if memory runs out. The fault reports packet position 0, and the request is
    /// unchanged.
    pub fn set_agent(&mut self, agent: &[u8]) -> Result<(), MessageFault>
        ensures { Builds (is_word_value agent.now) true self.old self.new
            (record self.old { asked = record self.old.asked { agent = Some agent.now } }) result }
    {
        if !is_word_value(agent) {
            return Err(MessageFault::of_value(Why::BadText));
        }
        match self.keep_agent(agent) {
            Ok(()) => Ok(()),
            Err(_) => Err(MessageFault::of_value(Why::Memory)),
        }
    }

    /// Appends a want.
    ///
    /// Fails with `BadText` if the format of the id is not that of the request. Otherwise fails
    /// with `Limit` if there are already as many wants as the limits of the request allow, or with
    /// `Memory` if memory runs out. The fault reports packet position 0, and the request is
    /// unchanged.
    pub fn push_want(&mut self, id: Oid) -> Result<(), MessageFault>
        ensures { Builds (has_format self.old.format id)
            (nat_lt (length self.old.asked.wants) (max_wants self.old.limits))
            self.old self.new (record self.old {
              asked = record self.old.asked
                  { wants = self.old.asked.wants ++ id ∷ [] };
            }) result }
    {
        let has_room = self.wants.len() < max_wants(self.limits);
        keep_id(self.format, &mut self.wants, has_room, id)?;
        Ok(())
    }

    /// Appends a have.
    ///
    /// Fails with `BadText` if the format of the id is not that of the request. Otherwise fails
    /// with `Limit` if there are already as many haves as the limits of the request allow, or with
    /// `Memory` if memory runs out. The fault reports packet position 0, and the request is
    /// unchanged.
    pub fn push_have(&mut self, id: Oid) -> Result<(), MessageFault>
        ensures { Builds (has_format self.old.format id)
            (nat_lt (length self.old.asked.haves) (max_haves self.old.limits))
            self.old self.new (record self.old {
              asked = record self.old.asked
                  { haves = self.old.asked.haves ++ id ∷ [] };
            }) result }
    {
        let has_room = self.haves.len() < max_haves(self.limits);
        keep_id(self.format, &mut self.haves, has_room, id)?;
        Ok(())
    }

    // Replaces the limits of the request. The request must be within the new limits.
    pub(crate) fn set_limits(&mut self, limits: Limits)
        requires { IsWithin limits (Fetches self.old.asked) }
        ensures { self.new ≡ record self.old { limits = limits } }
    {
        self.limits = limits;
    }

    // Stores the client's agent string.
    pub(crate) fn keep_agent(&mut self, agent: &[u8]) -> Result<(), AllocError>
        requires { is_word_value agent.now ≡ true }
        ensures ok { OnOk result (self.new
            ≡ record self.old { asked = record self.old.asked { agent = Some agent.now } }) }
        ensures err { OnErr result (self.new ≡ self.old) }
    {
        let agent = Vec::from_slice(*self.wants.allocator(), agent)?;
        self.agent = Some(agent);
        Ok(())
    }

    // Adds an argument to a request that has `arguments` earlier arguments. The argument is the one
    // that `text` encodes.
    pub(crate) fn take_argument(&mut self, arguments: u32, text: &[u8]) -> Result<(), Why>
        ensures adds { AddsAs (judge_fetch_argument self.old.limits self.old.format arguments
            self.old.asked.wants self.old.asked.haves (fetch_argument text.now))
            (fetch_argument_brings (fetch_argument text.now))
            (self.new ≡ record self.old {
              asked = with_fetch_argument self.old.format
                  self.old.asked (fetch_argument text.now);
            }) result }
        ensures room { OnOk result (arguments < max_arguments) }
        ensures format { self.new.format ≡ self.old.format }
        ensures limits { self.new.limits ≡ self.old.limits }
    {
        match fetch_argument(text) {
            FetchArgument::Want(id) => self.take_want(arguments, id),
            FetchArgument::Have(id) => self.take_have(arguments, id),
            FetchArgument::Unknown => Err(Why::UnknownArgument),
            FetchArgument::Flag(_) if arguments >= MAX_ARGUMENTS => Err(Why::Limit),
            FetchArgument::Flag(flag) => {
                self.set(flag, true);
                Ok(())
            }
        }
    }

    fn take_want(&mut self, arguments: u32, text: &[u8]) -> Result<(), Why>
        ensures adds { AddsAs (judge_fetch_argument self.old.limits self.old.format arguments
            self.old.asked.wants self.old.asked.haves (Want text.now)) true
            (self.new ≡ record self.old {
              asked = with_fetch_argument self.old.format
                  self.old.asked (Want text.now);
            }) result }
        ensures room { OnOk result (arguments < max_arguments) }
        ensures format { self.new.format ≡ self.old.format }
        ensures limits { self.new.limits ≡ self.old.limits }
    {
        let has_room = has_room(arguments, self.wants.len(), max_wants(self.limits));
        let Some(id) = id_in(self.format, text) else {
            return Err(Why::BadId);
        };
        keep_id(self.format, &mut self.wants, has_room, id).map_err(|reason| reason.why(Why::BadId))
    }

    fn take_have(&mut self, arguments: u32, text: &[u8]) -> Result<(), Why>
        ensures adds { AddsAs (judge_fetch_argument self.old.limits self.old.format arguments
            self.old.asked.wants self.old.asked.haves (Have text.now)) true
            (self.new ≡ record self.old {
              asked = with_fetch_argument self.old.format
                  self.old.asked (Have text.now);
            }) result }
        ensures room { OnOk result (arguments < max_arguments) }
        ensures format { self.new.format ≡ self.old.format }
        ensures limits { self.new.limits ≡ self.old.limits }
    {
        let has_room = has_room(arguments, self.haves.len(), max_haves(self.limits));
        let Some(id) = id_in(self.format, text) else {
            return Err(Why::BadId);
        };
        keep_id(self.format, &mut self.haves, has_room, id).map_err(|reason| reason.why(Why::BadId))
    }
}

// Returns true if a request with `arguments` arguments has room for another argument, and a list
// of `len` values with the maximum length `limit` has room for another value.
fn has_room(arguments: u32, len: usize, limit: usize) -> bool
    ensures room { result ≡ (has_room arguments && nat_lt len limit) }
    ensures few { result ≡ true → len < limit }
{
    arguments < MAX_ARGUMENTS && len < limit
}

// Appends the id. Fails if the format of the id is not `format`, if `has_room` is false, or if
// memory runs out.
fn keep_id<A: Allocator + Copy>(
    format: Format,
    ids: &mut Vec<Oid, A>,
    has_room: bool,
    id: Oid,
) -> Result<(), NotKept>
    ensures kept { KeepsAs (has_format format id) has_room
        ids.old.items ids.new.items (ids.old.items ++ id ∷ []) result }
    ensures format { All (IsIdOf format) ids.old.items → All (IsIdOf format) ids.new.items }
    ensures few { (limit : ℕ) → length ids.old.items ≤ limit
        → (has_room ≡ true → length ids.old.items < limit) → length ids.new.items ≤ limit }
{
    if !is_of(format, &id) {
        return Err(NotKept::WrongForm);
    }
    if !has_room {
        return Err(NotKept::NoRoom);
    }
    match ids.push(id) {
        Ok(()) => Ok(()),
        Err(_) => Err(NotKept::NoMemory),
    }
}

// Returns whether the id has this format.
fn is_of(format: Format, id: &Oid) -> bool
    ensures same { result ≡ has_format format id.now }
    ensures of_format { IsTrue result → IsIdOf format id.now }
{
    id.as_bytes().len() == format.id_length()
}

// Returns the id of this format that a text encodes, if any.
fn id_in(format: Format, text: &[u8]) -> Option<Oid>
    ensures id { result ≡ id_of_text format text.now }
    ensures same { IfSome result (λ id. has_format format id ≡ true) }
{
    // Laws that the proof uses.
    texts_have_one_reading();
    id_of_text(format, text)
}
