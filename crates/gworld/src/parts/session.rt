//! The events of the client's session.

ghost use Rattle.std.specs.Prelude.{◌≡◌, MatchResult, Ok, Err};
ghost use Rattle.gfetchreply.specs.Values.{default_limit};
ghost use Rattle.gdag.specs.declared.fault.GraphFault.TheVariants as graph;
ghost use Rattle.gclientrepo.specs.declared.fault.RepoFault.TheVariants as repo;
ghost use Rattle.ggrammar.specs.declared.ends.Ends.TheVariants.{Plain};
ghost use Rattle.ganswer.specs.Adverts.{advertisement};
ghost use Rattle.gsession.specs.Sessions.{Begins, Hears, IsBegun, SessionState};
ghost use Rattle.gsession.specs.declared.fault.ClientFault.TheVariants as client;
ghost use Rattle.gscenario.specs.declared.event.Event.TheVariants as Event;
ghost use Rattle.gworld.specs.Runs.{NeedsMemory};
ghost use Rattle.gworld.specs.Events.{AsksNext, BeginsSession, Restarts, SettlesRefs, settled_outcome, is_moved, is_same, is_not_forward};

use super::{Parts, Sent, refuse};
use crate::fault::NO_OPEN_REQUEST;
use crate::incoming::outcome_of_fault;
use crate::outcome::Outcome;
use gclientrepo::RefUpdate;
use gfetchreply::PackLimit;
use ggrammar::Ends;
use grefs::Spec;
use gsession::{ClientFault, Session, Settled};
use std::alloc::{AllocError, Allocator};

impl<A: Allocator + Copy> Parts<A> {
    /// Begins a session, which replaces any older session. A failed call keeps the old session.
    pub(crate) fn begin(&mut self, specs: &[Spec<A>]) -> Outcome
        ensures { BeginsSession self.old specs.now result self.new }
    {
        match self.new_session(specs) {
            Ok(session) => {
                self.session = Some(session);
                self.answered = false;
                Outcome::Done
            }
            Err(fault) => outcome_of_fault(fault),
        }
    }

    // Returns a new session that has read the server's advertisement.
    fn new_session(&self, specs: &[Spec<A>]) -> Result<Session<A>, ClientFault<A>>
        ensures { MatchResult result
            (λ session. (begun : SessionState A)
            × Begins self.now.repo specs.now default_limit Plain (Ok begun)
            × Hears begun (advertisement self.now.server.graph.format) session (Ok tt))
            (λ fault. Begins self.now.repo specs.now default_limit Plain (Err fault)) }
    {
        let alloc = self.repo.graph().allocator();
        let mut session = Session::begin(
            alloc,
            &self.repo,
            specs,
            PackLimit::default(),
            Ends::Plain,
        )?;
        match self.introduce(&mut session) {
            Ok(()) => Ok(session),
            Err(fault) => Err(fault),
        }
    }

    // Passes the server's advertisement to a session that has just begun.
    fn introduce(&self, session: &mut Session<A>) -> Result<(), ClientFault<A>>
        requires { IsBegun session.old }
        ensures { MatchResult result
            (λ _. Hears session.old (advertisement self.now.server.graph.format) session.new (Ok tt))
            (λ fault. fault ≡ client.Repo (repo.Graph graph.Memory)) }
    {
        match self.server.advert() {
            Ok(advert) => session.hear(&advert),
            Err(_) => Err(ClientFault::from(AllocError)),
        }
    }

    /// Makes the session's next request, and appends it to the sent requests. First checks whether
    /// the session can make a request, and then allocates memory for the request.
    pub(crate) fn ask(&mut self) -> Result<Outcome, AllocError>
        ensures { MatchResult result
            (λ outcome. AsksNext self.old self.old.session outcome self.new)
            (λ _. (self.new ≡ self.old) × NeedsMemory self.old Event.Ask) }
    {
        let number = self.sent.len();
        match &mut self.session {
            None => Ok(Outcome::Fault {
                code: NO_OPEN_REQUEST,
            }),
            Some(session) => {
                if !session.is_due() {
                    return Ok(Outcome::Fault {
                        code: NO_OPEN_REQUEST,
                    });
                }
                self.sent.try_reserve(1)?;
                match session.request(&self.repo) {
                    Ok(request) => {
                        self.sent.push_reserved(Sent { request });
                        Ok(Outcome::Asked { request: number })
                    }
                    Err(fault) => Ok(refuse(fault, &mut self.answered)),
                }
            }
        }
    }

    /// Settles the session: makes each requested ref update that is allowed.
    pub(crate) fn settle(&mut self) -> Outcome
        ensures { SettlesRefs self.old self.old.session result self.new }
    {
        match &mut self.session {
            None => Outcome::Fault {
                code: NO_OPEN_REQUEST,
            },
            Some(session) => match session.settle(&mut self.repo) {
                Ok(settled) => {
                    self.answered = false;
                    settled_outcome(settled)
                }
                Err(fault) => refuse(fault, &mut self.answered),
            },
        }
    }

    /// Restarts the client, which keeps its repository and loses its session.
    pub(crate) fn restart_client(&mut self) -> Outcome
        ensures { Restarts self.old result self.new }
    {
        self.session = None;
        self.answered = false;
        Outcome::Done
    }
}

// Returns the outcome of an event `Settle`.
fn settled_outcome<A: Allocator + Copy>(settled: Settled<A>) -> Outcome
    ensures { result ≡ settled_outcome settled.updates.items }
{
    count_updates(&settled)
}

// Counts the refs that moved, the refs that already had their ids, and the refs whose update was
// not a fast-forward.
fn count_updates<A: Allocator + Copy>(settled: &Settled<A>) -> Outcome
    ensures { result ≡ settled_outcome settled.now.updates.items }
{
    let mut moved = 0;
    let mut same = 0;
    let mut not_forward = 0;
    for update in &settled.updates {
        match update {
            RefUpdate::Moved => moved += 1,
            RefUpdate::Same => same += 1,
            RefUpdate::NotForward => not_forward += 1,
        }
    }
    Outcome::Settled {
        moved,
        same,
        not_forward,
    }
}
