//! The requests of a session.

ghost use Rattle.std.specs.Prelude.{◌≡◌, ◌++◌, List, None, MatchResult, Ok, Err, IfErr, IfOk, IfSome, OnOk};
ghost use Rattle.gdag.specs.declared.fault.GraphFault.TheVariants.{Memory};
ghost use Rattle.gobject.specs.declared.node.Entry.{Entry};
ghost use Rattle.grequest.specs.Asked.{Fetches};

use crate::fault::ClientFault;
use crate::requests::{batch_size, blank_request, objects_request, refs_request};
use crate::session::{Session, set_pending};
use crate::stage::Stage;
use gclientrepo::Repo;
use ggraph::graph_laws::{offers_are_exact, positions_are_nodes};
use ggraph::{GraphFault, Offers};
use gname::Oid;
use gname::laws::ids_have_one_format;
use grequest::{Request, max_haves};
use std::alloc::{AllocError, Allocator};
use std::mem;

impl<A: Allocator + Copy> Session<A> {
    ghost use Rattle.grequest.specs.RequestValues.{IsOfFormat, asked_by_request};
    ghost use Rattle.gwalk.specs.Offers.{AreOffers};
    ghost use Rattle.gsession.specs.Offering.{AreOffersOf};
    ghost use Rattle.gsession.specs.Requesting.{HasLimitsFor, IsBatch, MakesNext, Requests, fetch_request, is_due, waiting_for};
    ghost use Rattle.gsession.specs.Sessions.{after_fault, no_memory};
    ghost use Rattle.gsession.specs.steps.Calls.{FitsBatch};

    /// Returns whether the session can make a request now: no request waits for its reply, and refs
    /// or objects are still needed.
    pub fn is_due(&self) -> bool
        ensures { result ≡ is_due self.now.stage self.now.pending }
    {
        if self.pending.is_some() {
            return false;
        }
        match self.stage {
            Stage::Listing | Stage::Fetching => true,
            Stage::Settling | Stage::Over => false,
        }
    }

    /// Makes the next request, which then waits for its reply. The first request is for refs, and
    /// all later requests are for objects. The haves of a request for objects are the common ids
    /// and a batch of new ids. The batch is empty if there would be more haves than the limits of
    /// the session allow. A request with an empty batch has `done`.
    ///
    /// Fails with `NoOpenRequest` if there is no request to make, and leaves the session unchanged.
    /// Fails with `Repo` if out of memory, and ends the session.
    pub fn request(&mut self, repo: &Repo<A>) -> Result<Request<A>, ClientFault<A>>
        ensures requests { MatchResult result
            (λ request. Requests self.old repo.now.graph.entries self.new
            (Ok (asked_by_request request)))
            (λ fault. Requests self.old repo.now.graph.entries self.new (Err fault)) }
        ensures format { IfOk result (IsOfFormat self.old.format) }
        ensures limits { IfOk result (HasLimitsFor self.old.options.limits) }
    {
        self.request_on(repo, &mut None)
    }

    /// Makes the next request like [`Session::request`], but continues the walk of the previous
    /// requests. `offers` holds the state of that walk, and `None` starts a new walk. All requests
    /// of a session over the same graph thus share one walk.
    ///
    /// Fails like `request`.
    pub fn request_on(
        &mut self,
        repo: &Repo<A>,
        offers: &mut Option<Offers<A>>,
    ) -> Result<Request<A>, ClientFault<A>>
        requires { IfSome offers.old (AreOffersOf self.old repo.now.graph.entries) }
        ensures requests { MatchResult result
            (λ request. Requests self.old repo.now.graph.entries self.new
            (Ok (asked_by_request request)))
            (λ fault. Requests self.old repo.now.graph.entries self.new (Err fault)) }
        ensures format { IfOk result (IsOfFormat self.old.format) }
        ensures limits { IfOk result (HasLimitsFor self.old.options.limits) }
        ensures offers { OnOk result (IfSome offers.new
            (AreOffersOf self.new repo.now.graph.entries)) }
    {
        match self.make_request(repo, offers) {
            Ok(request) => Ok(request),
            Err(fault) => Err(self.end_with_fault(fault)),
        }
    }

    // Makes the next request, if the session can make one. A fault does not yet end the session.
    fn make_request(
        &mut self,
        repo: &Repo<A>,
        offers: &mut Option<Offers<A>>,
    ) -> Result<Request<A>, ClientFault<A>>
        requires { IfSome offers.old (AreOffersOf self.old repo.now.graph.entries) }
        ensures requests { MatchResult result
            (λ request. Requests self.old repo.now.graph.entries self.new
            (Ok (asked_by_request request)))
            (λ fault. Requests self.old repo.now.graph.entries (after_fault self.old fault)
            (Err fault)
            × (self.new ≡ self.old)) }
        ensures format { IfOk result (IsOfFormat self.old.format) }
        ensures limits { IfOk result (HasLimitsFor self.old.options.limits) }
        ensures offers { OnOk result (IfSome offers.new
            (AreOffersOf self.new repo.now.graph.entries)) }
    {
        if self.pending.is_some() {
            return Err(ClientFault::NoOpenRequest);
        }
        match self.stage {
            Stage::Listing => self.ask_for_refs(),
            Stage::Fetching => self.ask_for_objects(repo, offers),
            Stage::Settling | Stage::Over => Err(ClientFault::NoOpenRequest),
        }
    }

    // Makes the request for refs.
    fn ask_for_refs(&mut self) -> Result<Request<A>, ClientFault<A>>
        requires stage { self.old.stage ≡ Stage.Listing }
        requires pending { self.old.pending ≡ None }
        ensures made { (g : List (Entry A)) → MatchResult result
            (λ request. MakesNext self.old g self.new (asked_by_request request))
            (λ fault. (self.new ≡ self.old) × (fault ≡ no_memory)) }
        ensures format { IfOk result (IsOfFormat self.old.format) }
        ensures limits { IfOk result (HasLimitsFor self.old.options.limits) }
    {
        let alloc = self.allocator();
        let request = refs_request(alloc, self.refspecs.as_slice(), self.offers_unborn)?;
        let copy = request.copy_in(alloc)?;
        set_pending(&mut self.pending, Some(request));
        Ok(copy)
    }

    // Makes the next request for objects.
    fn ask_for_objects(
        &mut self,
        repo: &Repo<A>,
        offers: &mut Option<Offers<A>>,
    ) -> Result<Request<A>, ClientFault<A>>
        requires stage { self.old.stage ≡ Stage.Fetching }
        requires pending { self.old.pending ≡ None }
        requires offers { IfSome offers.old (AreOffersOf self.old repo.now.graph.entries) }
        ensures made { MatchResult result
            (λ request. MakesNext self.old repo.now.graph.entries self.new
            (asked_by_request request)) (λ fault. (self.new ≡ self.old) × (fault ≡ no_memory)) }
        ensures format { IfOk result (IsOfFormat self.old.format) }
        ensures limits { IfOk result (HasLimitsFor self.old.options.limits) }
        ensures offers { OnOk result (IfSome offers.new
            (AreOffersOf self.new repo.now.graph.entries)) }
    {
        let batch = self.batch(repo, offers)?;
        Ok(self.ask_with(batch.as_slice())?)
    }

    // Makes a request for objects that offers this batch.
    fn ask_with(&mut self, batch: &[Oid]) -> Result<Request<A>, AllocError>
        requires stage { self.old.stage ≡ Stage.Fetching }
        requires pending { self.old.pending ≡ None }
        requires fits { FitsBatch self.old batch.now }
        ensures made { MatchResult result
            (λ request. (asked_by_request request
            ≡ Fetches (fetch_request self.old.options self.old.wants self.old.commons batch.now))
            × (self.new ≡ waiting_for self.old (asked_by_request request) batch.now))
            (λ _. self.new ≡ self.old) }
        ensures format { IfOk result (IsOfFormat self.old.format) }
        ensures limits { IfOk result (HasLimitsFor self.old.options.limits) }
    {
        let alloc = self.allocator();
        let blank = blank_request(alloc, self.format, self.options);
        let wants = self.wants.as_slice();
        let request = objects_request(blank, wants, self.commons.as_slice(), batch)?;
        let copy = request.copy_in(alloc)?;
        self.keep_request(request, batch)?;
        Ok(copy)
    }

    // Returns the batch of the next request: ids that were not offered before. The batch and the
    // common ids fit into one request.
    fn batch(
        &self,
        repo: &Repo<A>,
        offers: &mut Option<Offers<A>>,
    ) -> Result<Vec<Oid, A>, GraphFault>
        requires { IfSome offers.old (AreOffersOf self.now repo.now.graph.entries) }
        ensures batch { MatchResult result
            (λ batch. IsBatch self.now repo.now.graph.entries batch.items)
            (λ fault. fault ≡ Memory) }
        ensures fits { IfOk result (λ batch. FitsBatch self.now batch.items) }
        ensures offers { IfOk result (λ batch. IfSome offers.new
            (AreOffers repo.now.graph.entries self.now.tips self.now.commons
            (self.now.sent ++ batch.items))) }
    {
        // Laws that the proof uses.
        offers_are_exact::<A>();
        positions_are_nodes::<A>();
        ids_have_one_format();
        repo.laws();
        let mut walk = self.offers_on(repo, offers)?;
        let offer = walk.next(
            repo.graph(),
            self.commons.as_slice(),
            batch_size(self.options.max_batch, self.rounds),
        )?;
        if offer.len() <= max_haves(self.options.limits) - self.commons.len() {
            *offers = Some(walk);
            Ok(offer)
        } else {
            Ok(Vec::new(self.allocator()))
        }
    }

    // Returns the walk of the previous requests, or a new walk. Fails only with `Memory`.
    fn offers_on(
        &self,
        repo: &Repo<A>,
        offers: &mut Option<Offers<A>>,
    ) -> Result<Offers<A>, GraphFault>
        requires { IfSome offers.old (AreOffersOf self.now repo.now.graph.entries) }
        ensures offers { IfOk result (AreOffersOf self.now repo.now.graph.entries) }
        ensures fault { IfErr result (λ fault. fault ≡ Memory) }
        ensures none { offers.new ≡ None }
    {
        match mem::replace(offers, None) {
            Some(offers) => Ok(offers),
            None => Offers::new(repo.graph(), self.tips.as_slice(), self.sent.as_slice()),
        }
    }

    // Stores a request for objects as the open request, and adds its batch to the offered ids.
    fn keep_request(&mut self, request: Request<A>, batch: &[Oid]) -> Result<(), AllocError>
        requires stage { self.old.stage ≡ Stage.Fetching }
        requires pending { self.old.pending ≡ None }
        requires asked { asked_by_request request
            ≡ Fetches (fetch_request self.old.options self.old.wants self.old.commons batch.now) }
        requires fits { FitsBatch self.old batch.now }
        requires format { IsOfFormat self.old.format request }
        requires limits { HasLimitsFor self.old.options.limits request }
        ensures { MatchResult result
            (λ _. self.new ≡ waiting_for self.old (asked_by_request request) batch.now)
            (λ _. self.new ≡ self.old) }
    {
        self.sent.extend_from_slice(batch)?;
        self.rounds += 1;
        set_pending(&mut self.pending, Some(request));
        Ok(())
    }
}
