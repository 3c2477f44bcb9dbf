//! Requests to list refs (gitprotocol-v2(5), "ls-refs").

ghost use Rattle.std.specs.Prelude.{◌≡◌, ◌↔◌, ◌≤◌, ◌<◌, ◌++◌, ◌∷◌, [], true, length, nat_lt, is_none, IfOk, IsTrue, OnOk, OnErr, Some};
ghost use Rattle.std.specs.Option.{option_copied};
ghost use Rattle.gname.specs.Names.{prefix_fault};
ghost use Rattle.ggrammar.specs.Building.{Builds};
ghost use Rattle.ggrammar.specs.Capabilities.{is_word_value};
ghost use Rattle.ggrammar.specs.Limits.{profile};
ghost use Rattle.ggrammar.specs.MessageReading.{AddsAs};
ghost use Rattle.grequest.specs.Flags.{flags_at};
ghost use Rattle.grequest.specs.Arguments.{RefPrefix, ls_argument, ls_flags};
ghost use Rattle.grequest.specs.Asked.{Ls, ls_has, ls_number, ls_with, max_prefixes, max_arguments};
ghost use Rattle.grequest.specs.steps.Building.{IsWithin, KeepsAs};
ghost use Rattle.grequest.specs.Building.{no_ls_refs};
ghost use Rattle.grequest.specs.Requests.{judge_ls_argument, ls_argument_brings};
ghost use Rattle.grequest.specs.steps.RequestState.{with_ls_argument};
ghost use Rattle.grequest.specs.WellFormed.{IsLsRefsAsked};

use crate::flag::{Flag, LS_REFS_FLAGS, LsRefsFlag, MAX_FLAGS, are_same_flags};
use crate::kept::NotKept;
use crate::limits::max_prefixes;
use crate::line::{LsArgument, ls_argument};
use crate::parts::{are_same_prefixes, copy_agent, copy_prefixes, is_same_agent};
use crate::reading::MAX_ARGUMENTS;
use ggrammar::{Limits, MessageFault, Why, is_word_value};
use gname::laws::rules_never_report_memory;
use gname::{NameFault, Prefix};
use std::alloc::{AllocError, Allocator, Global};
use std::marker::Model;

/// An ls-refs request (gitprotocol-v2(5), "ls-refs").
///
/// The limits of the request bound the number of its prefixes. A limit above 2^30 counts as 2^30.
#[derive(Debug, Drop)]
pub struct LsRefsRequest<A: Allocator + Copy = Global> {
    limits: Limits,
    agent: Option<Vec<u8, A>>,
    flags: [bool; MAX_FLAGS],
    prefixes: Vec<Prefix<A>, A>,
}

impl<A: Allocator + Copy> Model for LsRefsRequest<A> {
    ghost use Rattle.std.specs.Prelude.{option_map};
    ghost use Rattle.grequest.specs.Flags.{flags_at};
    ghost use Rattle.grequest.specs.Arguments.{ls_flags};
    ghost use Rattle.grequest.specs.Asked.{ls_number};
    ghost use Rattle.grequest.specs.Building.{LimitedLsRefs};
    ghost use Rattle.grequest.specs.WellFormed.{IsLsRefsAsked};

    ghost Value = { LimitedLsRefs };

    ghost view = { λ r. record {
      limits = r.limits;
      asked = record {
        agent = option_map (λ value. value.items) r.agent;
        flags = flags_at ls_number ls_flags r.flags;
        prefixes = r.prefixes.items;
      };
    } };

    ghost invariant = { λ r. IsLsRefsAsked r.limits (record {
      agent = option_map (λ value. value.items) r.agent;
      flags = flags_at ls_number ls_flags r.flags;
      prefixes = r.prefixes.items;
    }) };
}

impl<A: Allocator + Copy> LsRefsRequest<A> {
    /// Returns a request for all refs, without flags and with the default limits. Allocates
    /// nothing.
    pub fn new(alloc: A) -> LsRefsRequest<A>
        ensures { result ≡ record { limits = profile; asked = no_ls_refs } }
    {
        LsRefsRequest::within(alloc, Limits::default())
    }

    /// Returns a request for all refs, without flags and with these limits. Allocates nothing.
    pub fn within(alloc: A, limits: Limits) -> LsRefsRequest<A>
        ensures { result ≡ record { limits = limits; asked = no_ls_refs } }
    {
        LsRefsRequest {
            limits,
            agent: None,
            flags: [false; MAX_FLAGS],
            prefixes: Vec::new(alloc),
        }
    }

    /// Returns the limits of the request.
    pub fn limits(&self) -> Limits
        ensures { result ≡ self.now.limits }
    {
        self.limits
    }

    /// Proves that the request is well-formed and within its limits.
    pub fn laws(&self)
        ensures { IsLsRefsAsked self.now.limits self.now.asked }
    {
        let _ = &self.flags;
    }

    /// Returns the client's agent string, if any: 1 to 1,000 bytes from `!` to `~`.
    pub fn agent(&self) -> Option<&[u8]>
        ensures agent { option_copied result ≡ self.now.asked.agent }
        ensures well_formed { IsLsRefsAsked self.now.limits self.now.asked }
    {
        self.agent.as_ref().map(|value| value.as_slice())
    }

    /// Returns whether the request has this flag.
    pub fn has(&self, flag: LsRefsFlag) -> bool
        ensures { result ≡ ls_has self.now.asked flag }
    {
        self.flags[flag.number()]
    }

    /// Returns an array with a boolean for each flag: whether the flag is set. The index of a flag
    /// in the array is its number.
    pub(crate) fn flags(&self) -> &[bool; MAX_FLAGS]
        ensures { flags_at ls_number ls_flags result.now ≡ self.now.asked.flags }
    {
        &self.flags
    }

    /// Returns the prefixes of the requested names, in the order of the request. Their number is
    /// within the limits of the request. Without prefixes, every name is requested.
    pub fn prefixes(&self) -> &[Prefix<A>]
        ensures prefixes { result.now ≡ self.now.asked.prefixes }
        ensures well_formed { IsLsRefsAsked self.now.limits self.now.asked }
    {
        self.prefixes.as_slice()
    }

    /// Returns a copy of the request with the same limits, allocated with `alloc`. Fails only if
    /// memory runs out.
    pub fn copy_in<B: Allocator + Copy>(&self, alloc: B) -> Result<LsRefsRequest<B>, AllocError>
        ensures { IfOk result (λ copy. copy ≡ self.now) }
    {
        let agent = copy_agent(alloc, self.agent())?;
        let prefixes = copy_prefixes(alloc, self.prefixes())?;
        Ok(LsRefsRequest {
            limits: self.limits,
            agent,
            flags: self.flags,
            prefixes,
        })
    }

    /// Returns whether both requests have the same agent, the same flags, and the same prefixes in
    /// the same order. The limits may differ.
    pub fn asks_as<B: Allocator + Copy>(&self, other: &LsRefsRequest<B>) -> bool
        ensures { IsTrue result ↔ (self.now.asked ≡ other.now.asked) }
    {
        is_same_agent(self.agent(), other.agent())
            && self.has_flags_of(other)
            && are_same_prefixes(self.prefixes(), other.prefixes())
    }

    // Returns whether both requests have the same flags.
    fn has_flags_of<B: Allocator + Copy>(&self, other: &LsRefsRequest<B>) -> bool
        ensures { IsTrue result ↔ (self.now.asked.flags ≡ other.now.asked.flags) }
    {
        are_same_flags(LS_REFS_FLAGS, &self.flags, &other.flags)
    }

    /// Sets or clears a flag.
    pub fn set(&mut self, flag: LsRefsFlag, is_set: bool)
        ensures { self.new ≡ record self.old { asked = ls_with self.old.asked flag is_set } }
    {
        self.flags[flag.number()] = is_set;
    }

    /// Sets the client's agent string, and replaces any previous agent string.
    ///
    /// Fails with `BadText` if the agent string is not 1 to 1,000 bytes from `!` to `~`, or with
    /// `Memory` if memory runs out. The fault reports packet position 0, and the request is
    /// unchanged.
    pub fn set_agent(&mut self, agent: &[u8]) -> Result<(), MessageFault>
        ensures { Builds (is_word_value agent.now) true self.old self.new
            (record self.old { asked = record self.old.asked { agent = Some agent.now } }) result }
    {
        if !is_word_value(agent) {
            return Err(MessageFault::of_value(Why::BadText));
        }
        match self.keep_agent(agent) {
            Ok(()) => Ok(()),
            Err(_) => Err(MessageFault::of_value(Why::Memory)),
        }
    }

    /// Appends a prefix, which requests the names that begin with this prefix.
    ///
    /// Fails with `BadText` if the prefix is malformed. Otherwise fails with `Limit` if there are
    /// already as many prefixes as the limits of the request allow, or with `Memory` if memory runs
    /// out. The fault reports packet position 0, and the request is unchanged.
    pub fn push_prefix(&mut self, prefix: &[u8]) -> Result<(), MessageFault>
        ensures { Builds (is_none (prefix_fault prefix.now))
            (nat_lt (length self.old.asked.prefixes) (max_prefixes self.old.limits))
            self.old self.new (record self.old {
              asked = record self.old.asked
                  { prefixes = self.old.asked.prefixes ++ prefix.now ∷ [] };
            }) result }
    {
        let has_room = self.prefixes.len() < max_prefixes(self.limits);
        self.keep_prefix(has_room, prefix)?;
        Ok(())
    }

    // Replaces the limits of the request. The request must be within the new limits.
    pub(crate) fn set_limits(&mut self, limits: Limits)
        requires { IsWithin limits (Ls self.old.asked) }
        ensures { self.new ≡ record self.old { limits = limits } }
    {
        self.limits = limits;
    }

    // Stores the client's agent string.
    pub(crate) fn keep_agent(&mut self, agent: &[u8]) -> Result<(), AllocError>
        requires { is_word_value agent.now ≡ true }
        ensures ok { OnOk result (self.new
            ≡ record self.old { asked = record self.old.asked { agent = Some agent.now } }) }
        ensures err { OnErr result (self.new ≡ self.old) }
    {
        let agent = Vec::from_slice(*self.prefixes.allocator(), agent)?;
        self.agent = Some(agent);
        Ok(())
    }

    // Appends a prefix. Fails if the prefix is malformed, if `has_room` is false, or if memory runs
    // out.
    fn keep_prefix(&mut self, has_room: bool, prefix: &[u8]) -> Result<(), NotKept>
        requires { has_room ≡ true
            → length self.old.asked.prefixes < max_prefixes self.old.limits }
        ensures { KeepsAs (is_none (prefix_fault prefix.now)) has_room
            self.old self.new (record self.old {
              asked = record self.old.asked
                  { prefixes = self.old.asked.prefixes ++ prefix.now ∷ [] };
            }) result }
    {
        // Laws that the proof uses.
        rules_never_report_memory();
        match Prefix::new(*self.prefixes.allocator(), prefix) {
            Ok(prefix) if has_room => match self.prefixes.push(prefix) {
                Ok(()) => Ok(()),
                Err(_) => Err(NotKept::NoMemory),
            },
            Err(NameFault::Memory) if has_room => Err(NotKept::NoMemory),
            Ok(_) | Err(NameFault::Memory) => Err(NotKept::NoRoom),
            Err(_) => Err(NotKept::WrongForm),
        }
    }

    // Adds an argument to a request that has `arguments` earlier arguments. The argument is the one
    // that `text` encodes.
    pub(crate) fn take_argument(&mut self, arguments: u32, text: &[u8]) -> Result<(), Why>
        ensures adds { AddsAs (judge_ls_argument self.old.limits arguments self.old.asked.prefixes
            (ls_argument text.now)) (ls_argument_brings (ls_argument text.now))
            (self.new ≡ record self.old {
              asked = with_ls_argument self.old.asked (ls_argument text.now);
            }) result }
        ensures room { OnOk result (arguments < max_arguments) }
        ensures limits { self.new.limits ≡ self.old.limits }
    {
        match ls_argument(text) {
            LsArgument::Flag(_) if arguments >= MAX_ARGUMENTS => Err(Why::Limit),
            LsArgument::Flag(flag) => {
                self.set(flag, true);
                Ok(())
            }
            LsArgument::RefPrefix(prefix) => self.take_prefix(arguments, prefix),
            LsArgument::Unknown => Err(Why::UnknownArgument),
        }
    }

    fn take_prefix(&mut self, arguments: u32, prefix: &[u8]) -> Result<(), Why>
        ensures adds { AddsAs (judge_ls_argument self.old.limits arguments self.old.asked.prefixes
            (RefPrefix prefix.now)) true
            (self.new ≡ record self.old {
              asked = with_ls_argument self.old.asked (RefPrefix prefix.now);
            }) result }
        ensures room { OnOk result (arguments < max_arguments) }
        ensures limits { self.new.limits ≡ self.old.limits }
    {
        let has_room = arguments < MAX_ARGUMENTS && self.prefixes.len() < max_prefixes(self.limits);
        self.keep_prefix(has_room, prefix)
            .map_err(|reason| reason.why(Why::BadName))
    }
}
