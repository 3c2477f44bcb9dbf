//! A client's session: constructors, accessors, and the update of refs at the end.

ghost use Rattle.std.specs.Prelude.{◌≡◌, ◌↔◌, [], IsTrue, All, MatchBool, MatchResult, Ok, Err, IfOk, IfSome, option_map};
ghost use Rattle.std.specs.Map.{values_of};
ghost use Rattle.std.specs.Option.{option_copied};
ghost use Rattle.gdag.specs.Levels.{distinct_of};
ghost use Rattle.gname.specs.Ids.{IsIdOf};

mod next;
mod objects;
mod refs;

use crate::fault::ClientFault;
use crate::options::{FetchPlan, PackOptions};
use crate::stage::Stage;
use crate::taken::Settled;
use gclientrepo::{Asks, Repo};
use gfetchreply::{PackLimit, StreamLimit};
use ggrammar::{Ends, MessageFault};
use ggraph::distinct_ids;
use ggraph::graph_laws::{distinct_are_once, positions_are_nodes};
use ghello::Advert;
use gname::{Format, Oid};
use grefs::Spec;
use grequest::Request;
use std::alloc::{AllocError, Allocator, Global};
use std::marker::Model;
use std::mem;

/// The maximum number of refspecs of a session.
pub const MAX_SPECS: usize = 16;

/// A client's conversation with one server. The session requests refs, then requests the wanted
/// objects in rounds until a pack arrives, and finally updates the local refs. The caller owns the
/// connection, sends each request, and passes the reader of the replies to the session.
#[derive(Drop)]
pub struct Session<A: Allocator + Copy = Global> {
    format: Format,
    refspecs: Vec<Spec<A>, A>,
    limit: StreamLimit,
    ends: Ends,
    options: PackOptions,
    // The distinct ids of the local refs at the beginning of the session.
    tips: Vec<Oid, A>,
    offers_unborn: bool,
    stage: Stage,
    // The request that waits for its reply.
    pending: Option<Request<A>>,
    asks: Asks<A>,
    wants: Vec<Oid, A>,
    // The ids that the server has acknowledged.
    commons: Vec<Oid, A>,
    // The ids that the session has offered, in all batches.
    sent: Vec<Oid, A>,
    // The number of requests for objects.
    rounds: usize,
}

impl<A: Allocator + Copy> Model for Session<A> {
    ghost use Rattle.std.specs.Prelude.{IfSome};
    ghost use Rattle.grequest.specs.RequestValues.{IsOfFormat};
    ghost use Rattle.gsession.specs.Requesting.{HasLimitsFor};
    ghost use Rattle.gsession.specs.Sessions.{SessionState, IsSession};

    ghost Value = { SessionState A };

    ghost use Rattle.gsession.specs.steps.Fields.{session_of};

    ghost view = { session_of };

    ghost invariant = { λ it. IsSession (session_of it) × IfSome it.pending (IsOfFormat it.format)
        × IfSome it.pending (HasLimitsFor it.options.limits) };
}

impl<A: Allocator + Copy> Session<A> {
    ghost use Rattle.grequest.specs.RequestValues.{IsOfFormat, asked_by_request};
    ghost use Rattle.gsession.specs.Requesting.{HasLimitsFor};
    ghost use Rattle.gsession.specs.Sessions.{Begins, BeginsWith, Hears, IsBegun, IsSession, after_fault, over};
    ghost use Rattle.gsession.specs.SettlingRefs.{SettlesSession};

    /// Begins a session that fetches the refs that match these refspecs. The call sends nothing to
    /// the server. The session stores the distinct ids of the local refs, in the order of the refs'
    /// names, and offers these ids and their ancestors as haves. A session without refspecs
    /// requests no ref updates.
    ///
    /// Uses the default pack options. Fails with `TooManySpecs` for more than 16 refspecs, and with
    /// `Repo` if out of memory.
    pub fn begin(
        alloc: A,
        repo: &Repo<A>,
        specs: &[Spec<A>],
        limit: PackLimit,
        ends: Ends,
    ) -> Result<Session<A>, ClientFault<A>>
        ensures { Begins repo.now specs.now limit ends result }
    {
        let plan = FetchPlan {
            specs,
            limit: StreamLimit::from(limit),
            ends,
            options: PackOptions::default(),
        };
        Session::begin_with(alloc, repo, &plan)
    }

    /// Begins a session like [`Session::begin`], with the pack options of the plan.
    ///
    /// Fails like `begin`.
    pub fn begin_with(
        alloc: A,
        repo: &Repo<A>,
        plan: &FetchPlan<'_, A>,
    ) -> Result<Session<A>, ClientFault<A>>
        ensures { BeginsWith repo.now plan.now.specs.now plan.now.limit plan.now.ends
            plan.now.options result }
    {
        if plan.specs.len() > MAX_SPECS {
            return Err(ClientFault::TooManySpecs);
        }
        let refspecs = copy_specs(alloc, plan.specs)?;
        let tips = tips_of(alloc, repo)?;
        Ok(Session {
            format: repo.format(),
            refspecs,
            limit: plan.limit,
            ends: plan.ends,
            options: plan.options,
            tips,
            offers_unborn: false,
            stage: Stage::Listing,
            pending: None,
            asks: Asks::new(alloc),
            wants: Vec::new(alloc),
            commons: Vec::new(alloc),
            sent: Vec::new(alloc),
            rounds: 0,
        })
    }

    /// Reads from the advertisement whether the server can report an unborn `HEAD`
    /// (gitprotocol-v2(5), "ls-refs"). If the method is called several times, the session uses only
    /// the last advertisement.
    ///
    /// Fails with `NoOpenRequest` after the first request, and leaves the session unchanged.
    pub fn hear(&mut self, advert: &Advert<A>) -> Result<(), ClientFault<A>>
        ensures { Hears self.old advert.now self.new result }
    {
        if !self.is_begun() {
            return Err(ClientFault::NoOpenRequest);
        }
        self.offers_unborn = advert.has_feature(b"ls-refs", b"unborn");
        Ok(())
    }

    // Returns whether the session has just begun: it has made no request yet.
    fn is_begun(&self) -> bool
        ensures { MatchBool result (IsBegun self.now) (¬ (IsBegun self.now)) }
    {
        match self.stage {
            Stage::Listing => self.pending.is_none(),
            Stage::Fetching | Stage::Settling | Stage::Over => false,
        }
    }

    /// Returns the request that waits for its reply. The ids of the request have the session's
    /// format.
    pub fn open_request(&self) -> Option<&Request<A>>
        ensures pending { option_map asked_by_request (option_copied result) ≡ self.now.pending }
        ensures format { IfSome (option_copied result) (IsOfFormat self.now.format) }
        ensures limits { IfSome (option_copied result) (HasLimitsFor self.now.options.limits) }
        ensures session { IsSession self.now }
    {
        self.pending.as_ref()
    }

    /// Returns the requested updates: the local refs, their new ids, and whether each update is
    /// forced. [`Session::settle`] moves the updates to the caller.
    pub fn asks(&self) -> &Asks<A>
        ensures { result.now ≡ self.now.asks }
    {
        &self.asks
    }

    /// Returns the ids of the wanted objects, each once, in the order of the requested updates.
    pub fn wants(&self) -> &[Oid]
        ensures { result.now ≡ self.now.wants }
    {
        self.wants.as_slice()
    }

    /// Returns the ids that the server has acknowledged, each once, in the order of their first
    /// acknowledgment.
    pub fn common(&self) -> &[Oid]
        ensures { result.now ≡ self.now.commons }
    {
        self.commons.as_slice()
    }

    /// Returns the number of requests for objects that the session made. Each request for objects
    /// is a round.
    pub fn rounds(&self) -> usize
        ensures rounds { result ≡ self.now.rounds }
        ensures session { IsSession self.now }
    {
        self.rounds
    }

    /// Proves that the session satisfies its invariants.
    pub fn laws(&self)
        ensures { IsSession self.now }
    {
        let _ = &self.rounds;
    }

    /// Returns the object format of the session's ids.
    pub fn format(&self) -> Format
        ensures { result ≡ self.now.format }
    {
        self.format
    }

    /// Ends the session because the awaited message is malformed. Returns the fault.
    pub fn refuse(&mut self, fault: MessageFault) -> ClientFault<A>
        ensures fault { result ≡ ClientFault.Message fault }
        ensures session { self.new ≡ over self.old }
    {
        self.end();
        ClientFault::Message(fault)
    }

    // Returns the allocator of the session's lists.
    fn allocator(&self) -> A {
        *self.wants.allocator()
    }

    // Returns the fault, and ends the session unless the fault is `NoOpenRequest`.
    fn end_with_fault(&mut self, fault: ClientFault<A>) -> ClientFault<A>
        ensures fault { result ≡ fault }
        ensures session { self.new ≡ after_fault self.old fault }
    {
        if fault.ends_session() {
            self.end();
        }
        fault
    }

    // Ends the session.
    fn end(&mut self)
        ensures { self.new ≡ over self.old }
    {
        self.stage = Stage::Over;
        set_pending(&mut self.pending, None);
    }

    /// Updates the local refs, all at once, if each requested id is connected. Sets each ref to the
    /// requested id if the ref is new, or if the update is forced or a fast-forward. Returns the
    /// outcome of each requested update. The call ends the session.
    ///
    /// Fails with `NoOpenRequest`, and changes nothing, if the refs have not arrived, if there are
    /// wants and the pack has not arrived, or if the session is over. Otherwise fails with `Repo`,
    /// like `Repo::settle`. The fault `Repo` ends the session, and leaves the repository unchanged.
    pub fn settle(&mut self, repo: &mut Repo<A>) -> Result<Settled<A>, ClientFault<A>>
        ensures { MatchResult result
            (λ settled. SettlesSession self.old repo.old self.new repo.new
            (Ok (settled.asks, settled.updates.items)))
            (λ fault. SettlesSession self.old repo.old self.new repo.new (Err fault)) }
    {
        if !self.is_settling() {
            return Err(ClientFault::NoOpenRequest);
        }
        self.end();
        let updates = repo.settle(&self.asks)?;
        let asks = self.take_asks();
        Ok(Settled { asks, updates })
    }

    // Returns whether the session is ready to update the local refs.
    fn is_settling(&self) -> bool
        ensures { IsTrue result ↔ (self.now.stage ≡ Stage.Settling) }
    {
        match self.stage {
            Stage::Settling => true,
            Stage::Listing | Stage::Fetching | Stage::Over => false,
        }
    }

    // Moves the requested updates out of a session that is over.
    fn take_asks(&mut self) -> Asks<A>
        requires stage { self.old.stage ≡ Stage.Over }
        requires pending { self.old.pending ≡ None }
        ensures asks { result ≡ self.old.asks }
        ensures session { self.new ≡ record self.old { asks = [] } }
    {
        let none = Asks::new(self.allocator());
        mem::replace(&mut self.asks, none)
    }
}

// Sets or clears the open request. No other function drops an open request.
fn set_pending<A: Allocator + Copy>(pending: &mut Option<Request<A>>, next: Option<Request<A>>)
    ensures { pending.new ≡ next }
{
    *pending = next;
}

// Copies the refspecs.
fn copy_specs<A: Allocator + Copy>(
    alloc: A,
    specs: &[Spec<A>],
) -> Result<Vec<Spec<A>, A>, AllocError>
    ensures { IfOk result (λ copies. copies.items ≡ specs.now) }
{
    let mut copies = Vec::new(alloc);
    for spec in specs {
        match spec.copy_in(alloc) {
            Ok(copy) => copies.push(copy)?,
            Err(_) => return Err(AllocError),
        }
    }
    Ok(copies)
}

// Returns the distinct ids of the local refs, in the order of the refs' names.
fn tips_of<A: Allocator + Copy>(alloc: A, repo: &Repo<A>) -> Result<Vec<Oid, A>, AllocError>
    ensures tips { IfOk result (λ tips. tips.items ≡ distinct_of (values_of repo.now.refs)) }
    ensures ids { IfOk result (λ tips. All (IsIdOf repo.now.graph.format) tips.items) }
{
    // Laws that the proof uses.
    distinct_are_once();
    positions_are_nodes::<A>();
    repo.laws();
    let ids = repo.refs().ids(alloc)?;
    distinct_ids(alloc, ids.as_slice())
}
