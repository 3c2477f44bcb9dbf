//! Requests (gitprotocol-v2(5), "Command Request").

ghost use Rattle.std.specs.Prelude.{◌≡◌, ◌↔◌, IfOk, IsTrue, OnOk, OnErr, true};
ghost use Rattle.std.specs.Option.{option_copied};
ghost use Rattle.ggrammar.specs.Capabilities.{is_word_value};

use crate::fetch::FetchRequest;
use crate::ls_refs::LsRefsRequest;
use ggrammar::Limits;
use std::alloc::{AllocError, Allocator, Global};

/// A request (gitprotocol-v2(5), "Command Request").
#[derive(Debug, Drop)]
pub enum Request<A: Allocator + Copy = Global> {
    /// The empty request: a lone flush packet, which ends the conversation.
    Empty,
    /// An ls-refs request.
    Ls(LsRefsRequest<A>),
    /// A fetch request.
    Fetch(FetchRequest<A>),
}

impl<A: Allocator + Copy> Request<A> {
    ghost use Rattle.grequest.specs.Requests.{agent_of};
    ghost use Rattle.grequest.specs.steps.RequestState.{with_agent};
    ghost use Rattle.grequest.specs.Building.{FormattedFetch};
    ghost use Rattle.gname.specs.declared.formats.Format.{Format};
    ghost use Rattle.ggrammar.specs.declared.limits.Limits.{Limits};
    ghost use Rattle.grequest.specs.RequestValues.{HasLimits, IsOfFormat, asked_by_request, ids_format, limits_of};
    ghost use Rattle.grequest.specs.steps.Building.{IsWithin};
    ghost use Rattle.grequest.specs.WellFormed.{IsAsked};

    /// Proves that every request is well-formed for its limits and the format of its ids. A request
    /// that can't have ids is well-formed for every format. The empty request is well-formed for
    /// all limits.
    pub fn laws(&self)
        ensures { (limits : Limits) (format : Format) → HasLimits limits self.now
            → IsOfFormat format self.now → IsAsked limits format (asked_by_request self.now) }
    {
        match self {
            Request::Empty => {}
            Request::Ls(request) => request.laws(),
            Request::Fetch(request) => request.laws(),
        }
    }

    /// Returns the client's agent string, if any.
    pub(crate) fn agent(&self) -> Option<&[u8]>
        ensures { option_copied result ≡ agent_of (asked_by_request self.now) }
    {
        match self {
            Request::Empty => None,
            Request::Ls(request) => request.agent(),
            Request::Fetch(request) => request.agent(),
        }
    }

    /// Returns a copy of the request with the same limits, allocated with `alloc`. Fails only if
    /// memory runs out.
    pub fn copy_in<B: Allocator + Copy>(&self, alloc: B) -> Result<Request<B>, AllocError>
        ensures asked { IfOk result (λ copy. asked_by_request copy ≡ asked_by_request self.now) }
        ensures format { IfOk result (λ copy. ids_format copy ≡ ids_format self.now) }
        ensures limits { IfOk result (λ copy. limits_of copy ≡ limits_of self.now) }
    {
        match self {
            Request::Empty => Ok(Request::Empty),
            Request::Ls(request) => {
                let copy = request.copy_in(alloc)?;
                Ok(Request::Ls(copy))
            }
            Request::Fetch(request) => {
                let copy = request.copy_in(alloc)?;
                Ok(Request::Fetch(copy))
            }
        }
    }

    /// Returns whether both requests have the same contents. The limits may differ, and so may the
    /// formats of fetch requests without ids.
    pub fn asks_as<B: Allocator + Copy>(&self, other: &Request<B>) -> bool
        ensures { IsTrue result ↔ (asked_by_request self.now ≡ asked_by_request other.now) }
    {
        match (self, other) {
            (Request::Empty, Request::Empty) => true,
            (Request::Ls(one), Request::Ls(other)) => one.asks_as(other),
            (Request::Fetch(one), Request::Fetch(other)) => one.asks_as(other),
            _ => false,
        }
    }

    // Replaces the limits of the request. The request must be within the new limits.
    pub(crate) fn set_limits(&mut self, limits: Limits)
        requires { IsWithin limits (asked_by_request self.old) }
        ensures asked { asked_by_request self.new ≡ asked_by_request self.old }
        ensures format { ids_format self.new ≡ ids_format self.old }
        ensures limits { HasLimits limits self.new }
    {
        match self {
            Request::Empty => {}
            Request::Ls(request) => request.set_limits(limits),
            Request::Fetch(request) => request.set_limits(limits),
        }
    }

    // Stores the client's agent string. The empty request stores none and is unchanged.
    pub(crate) fn keep_agent(&mut self, agent: &[u8]) -> Result<(), AllocError>
        requires { is_word_value agent.now ≡ true }
        ensures ok { OnOk result (asked_by_request self.new
            ≡ with_agent agent.now (asked_by_request self.old)) }
        ensures format { ids_format self.new ≡ ids_format self.old }
        ensures limits { limits_of self.new ≡ limits_of self.old }
    {
        match self {
            Request::Empty => Ok(()),
            Request::Ls(request) => request.keep_agent(agent),
            Request::Fetch(request) => request.keep_agent(agent),
        }
    }
}
