//! The server's end of a dialogue (gitprotocol-v2(5), "Initial Client Request" and "Command
//! Request").

ghost use Rattle.std.specs.Prelude.{◌≡◌, ◌<◌, ◌+◌, ◌⊎◌, Bool, IfOk, IsSome, List, MatchResult, None, OnOk, Some, false, min};
ghost use Rattle.std.specs.Option.{option_copied};
ghost use Rattle.gparts.specs.Parts.{given_by};
ghost use Rattle.gpkt.specs.Packets.{Packet};
ghost use Rattle.ggrammar.specs.Limits.{profile};
ghost use Rattle.ghello.specs.Hello as first_line;
ghost use Rattle.grequest.specs.RequestValues.{asked_by_request};
ghost use Rattle.gdialogue.specs.Sides.{MayAnswer};
ghost use Rattle.gserver.specs.Listings.{SaysLsAnswer};
ghost use Rattle.gserver.specs.Replying.{may_of};
ghost use Rattle.gserver.specs.Serving.{AnswersAsked, AnswersHello, CannotAnswer, CannotGreet, CannotSend, Greets, IsFresh, LacksMemory, Refuses, SendsFrom, Stays, count_request, goes_on_after, max_requests, messages_of};
ghost use Rattle.gserver.specs.steps.Answering.{AnswersOf, IsRefusal};

use crate::error_text::ErrText;
use crate::fetching::speak_fetch;
use crate::greeting::Greeting;
use crate::heard::Heard;
use crate::host::{Host, ServedRepository};
use crate::listing::Listing;
use crate::reply::ServerReply;
use crate::speech::Speech;
use ganswer::ServeFault;
use gdialogue::{Answer, Side};
use ggrammar::laws::grammars_are_exact;
use ggrammar::{Ends, Limits, Message, MessageFault, Step, Why};
use ghello::{Hello, HelloReader};
use gparts::PartPacker;
use grequest::{FetchRequest, LsRefsRequest, Request, RequestReader};
use std::alloc::Allocator;

/// The maximum of [`ServerSide::requests`]. After this number of requests, a connection accepts
/// only one more request.
pub const MAX_REQUESTS: u32 = u32::MAX;

/// The server's end of a connection. The server receives a first line, which names a repository,
/// and then one request after another.
///
/// If a message is refused or cannot be answered, the server sends an error packet, and the
/// connection ends.
#[derive(Drop)]
pub struct ServerSide<'h, A: Allocator + Copy, H, R> {
    host: &'h H,
    alloc: A,
    ends: Ends,
    // The limits on each request.
    limits: Limits,
    // The served repository, or `None` until the host finds a repository for the first line.
    repo: Option<R>,
    requests: u32,
    fault: Option<ServeFault>,
}

impl<'h, A: Allocator + Copy, H, R> ServerSide<'h, A, H, R> {
    /// Returns a server side that has received no message, with the default limits on each request.
    pub fn new(host: &'h H, alloc: A, ends: Ends) -> ServerSide<'h, A, H, R>
        ensures fresh { IsFresh result }
        ensures host { result.host.now ≡ host.now }
        ensures ends { result.ends ≡ ends }
        ensures limits { result.limits ≡ profile }
    {
        ServerSide::within(host, alloc, ends, Limits::default())
    }

    /// Returns a server side that has received no message, with these limits on each request. A
    /// limit above 2^30 counts as 2^30.
    pub fn within(host: &'h H, alloc: A, ends: Ends, limits: Limits) -> ServerSide<'h, A, H, R>
        ensures fresh { IsFresh result }
        ensures host { result.host.now ≡ host.now }
        ensures ends { result.ends ≡ ends }
        ensures limits { result.limits ≡ limits }
    {
        ServerSide {
            host,
            alloc,
            ends,
            limits,
            repo: None,
            requests: 0,
            fault: None,
        }
    }

    /// Returns the limits on each request.
    pub fn limits(&self) -> Limits
        ensures { result ≡ self.now.limits }
    {
        self.limits
    }

    /// Returns the served repository, or `None` until the host finds a repository for the first
    /// line.
    pub fn repo(&self) -> Option<&R>
        ensures { option_copied result ≡ self.now.repo }
    {
        self.repo.as_ref()
    }

    /// Returns the number of complete ls-refs and fetch requests so far, but at most
    /// [`MAX_REQUESTS`].
    pub fn requests(&self) -> u32
        ensures { result ≡ self.now.requests }
    {
        self.requests
    }

    /// Returns the fault with which the server side refused a message, or `None`. No fault is
    /// stored if the host can't find or open a repository, or if the packer fails while a pack is
    /// sent.
    pub fn fault(&self) -> Option<&ServeFault>
        ensures { option_copied result ≡ self.now.fault }
    {
        self.fault.as_ref()
    }
}

impl<A, H, R> ServerSide<'_, A, H, R>
where
    A: Allocator + Copy,
    H: Host<A, R>,
    R: ServedRepository<A> + PartPacker<A> + Drop,
{
    // Returns the host's text for a message of the wrong kind at this stage of the connection.
    fn unexpected_message(&mut self) -> ErrText
        ensures repo { self.new.repo ≡ self.old.repo }
        ensures requests { self.new.requests ≡ self.old.requests }
        ensures stays { Stays self.old self.new }
    {
        let fault = MessageFault::of_value(Why::UnexpectedFrame);
        words::<A, H, R>(self.host, &mut self.fault, ServeFault::Request(fault))
    }

    // Replies to the first line with the advertisement of the repository that the host finds.
    fn greet(&mut self, hello: &Hello<A>) -> Result<ServerReply<A, R, R::Parts>, ErrText>
        requires { self.old.repo ≡ None }
        ensures greets { MatchResult result (λ reply. (said : List Packet) (goes : Bool)
            → may_of R.server R.gives reply said goes
            → Greets R.server (H.finds self.old.host.now hello.now) self.new.repo said goes)
            (CannotGreet R.server H.says self.old.host.now (H.finds self.old.host.now hello.now)
            self.new.repo self.new.fault) }
        ensures served { IfOk result (λ reply. IsSome self.new.repo) }
        ensures quiet { OnOk result (self.new.fault ≡ self.old.fault) }
        ensures requests { self.new.requests ≡ self.old.requests }
        ensures stays { Stays self.old self.new }
    {
        let repo = self.host.find(hello)?;
        match repo.server().advert() {
            Ok(advert) => {
                self.repo = Some(repo);
                Ok(ServerReply::Greeting(Greeting::new(advert)))
            }
            Err(fault) => Err(words::<A, H, R>(self.host, &mut self.fault, fault)),
        }
    }

    // Answers the first line of a connection.
    fn answer_hello(&mut self, hello: Option<Hello<A>>) -> Answer<ServerReply<A, R, R::Parts>>
        ensures answers { (asked : first_line.Hello) → hello ≡ Some asked → self.old.repo ≡ None
            → (said : List Packet) (goes : Bool) → MayAnswer (may_of R.server R.gives) result said goes
            → AnswersHello R.server H.says self.old.host.now (H.finds self.old.host.now asked)
            self.new.repo self.new.fault said goes }
        ensures quiet { (said : List Packet) (goes : Bool)
            → MayAnswer (may_of R.server R.gives) result said goes
            → (self.new.fault ≡ self.old.fault) ⊎ (goes ≡ false) }
        ensures fewer { (reply : ServerReply A R R.Parts) → result ≡ Answer.GoesOn reply
            → messages_of self.new.repo self.new.requests < messages_of self.old.repo self.old.requests }
        ensures requests { self.new.requests ≡ self.old.requests }
        ensures stays { Stays self.old self.new }
    {
        let Some(hello) = hello else {
            return refusal_of::<A, R>(self.unexpected_message());
        };
        if self.repo.is_some() {
            return refusal_of::<A, R>(self.unexpected_message());
        }
        let greeted = self.greet(&hello);
        answer_of::<A, R>(greeted, true)
    }

    // Answers a request.
    fn answer_request(&mut self, request: Request<A>) -> Answer<ServerReply<A, R, R::Parts>>
        ensures answers { (repo : R) → self.old.repo ≡ Some repo → (said : List Packet) (goes : Bool)
            → MayAnswer (may_of R.server R.gives) result said goes
            → AnswersAsked R.server H.says self.old.host.now (given_by R.packs) R.pack_fails
            (H.opens self.old.host.now repo) self.old.ends repo (asked_by_request request)
            (goes_on_after self.old.requests) self.new.repo said goes
            ⊎ Refuses (CannotAnswer R.server H.says self.old.host.now (given_by R.packs)
            R.pack_fails (H.opens self.old.host.now repo) self.old.ends repo
            (asked_by_request request)
            self.new.repo self.new.fault) said goes }
        ensures quiet { (said : List Packet) (goes : Bool)
            → MayAnswer (may_of R.server R.gives) result said goes
            → (self.new.fault ≡ self.old.fault) ⊎ (goes ≡ false) }
        ensures fewer { (reply : ServerReply A R R.Parts) → result ≡ Answer.GoesOn reply
            → messages_of self.new.repo self.new.requests < messages_of self.old.repo self.old.requests }
        ensures requests { self.new.requests ≡ count_request (asked_by_request request) self.old.requests }
        ensures stays { Stays self.old self.new }
    {
        match request {
            Request::Empty => Answer::Last(ServerReply::Speech(Speech::silent())),
            Request::Ls(asked) => {
                let goes_on = count(&mut self.requests);
                let listed = self.list(asked, goes_on);
                answer_of::<A, R>(listed, goes_on)
            }
            Request::Fetch(asked) => {
                let goes_on = count(&mut self.requests);
                let sent = self.send(&asked, goes_on);
                answer_of::<A, R>(sent, goes_on)
            }
        }
    }

    // Returns the reply to an ls-refs request.
    fn list(
        &mut self,
        asked: LsRefsRequest<A>,
        goes_on: bool,
    ) -> Result<ServerReply<A, R, R::Parts>, ErrText>
        ensures lists { (repo : R) → self.old.repo ≡ Some repo
            → MatchResult result (λ reply. (said : List Packet) (goes : Bool)
            → may_of R.server R.gives reply said goes
            → SaysLsAnswer (R.server repo) asked.asked self.old.ends goes_on said goes)
            (LacksMemory H.says self.old.host.now self.new.fault) }
        ensures served { IfOk result (λ reply. IsSome self.old.repo) }
        ensures quiet { OnOk result (self.new.fault ≡ self.old.fault) }
        ensures repo { self.new.repo ≡ self.old.repo }
        ensures requests { self.new.requests ≡ self.old.requests }
        ensures stays { Stays self.old self.new }
    {
        let handle = match &self.repo {
            Some(repo) => repo.handle(),
            None => return Err(self.unexpected_message()),
        };
        match handle {
            Ok(repo) => {
                let listing = Listing::new(repo, asked, self.ends, goes_on);
                Ok(ServerReply::Listing(listing))
            }
            Err(_) => Err(words::<A, H, R>(self.host, &mut self.fault, ServeFault::Memory)),
        }
    }

    // Makes the host open the repository again, and returns the opened repository's reply to a
    // fetch request.
    fn send(
        &mut self,
        asked: &FetchRequest<A>,
        goes_on: bool,
    ) -> Result<ServerReply<A, R, R::Parts>, ErrText>
        ensures sends { (repo : R) → self.old.repo ≡ Some repo
            → MatchResult result (λ reply. (said : List Packet) (goes : Bool)
            → may_of R.server R.gives reply said goes
            → SendsFrom R.server H.says self.old.host.now (given_by R.packs) R.pack_fails
            (H.opens self.old.host.now repo) self.old.ends asked.now.asked goes_on self.new.repo said goes)
            (CannotSend R.server H.says self.old.host.now (given_by R.packs) R.pack_fails
            (H.opens self.old.host.now repo) self.old.ends repo asked.now.asked self.new.repo
            self.new.fault) }
        ensures served { IfOk result (λ reply. IsSome self.old.repo × IsSome self.new.repo) }
        ensures quiet { OnOk result (self.new.fault ≡ self.old.fault) }
        ensures requests { self.new.requests ≡ self.old.requests }
        ensures stays { Stays self.old self.new }
    {
        let opened = match &self.repo {
            Some(repo) => self.host.open(repo)?,
            None => return Err(self.unexpected_message()),
        };
        let Ok(packer) = opened.handle() else {
            return Err(words::<A, H, R>(self.host, &mut self.fault, ServeFault::Memory));
        };
        let spoken = speak_fetch(opened.server(), packer, asked, self.ends, goes_on);
        self.repo = Some(opened);
        match spoken {
            Ok(speech) => Ok(ServerReply::Speech(speech)),
            Err(fault) => Err(words::<A, H, R>(self.host, &mut self.fault, fault)),
        }
    }
}

// Returns the host's text for a fault, and stores the fault.
fn words<A: Allocator + Copy, H: Host<A, R>, R>(
    host: &H,
    kept: &mut Option<ServeFault>,
    fault: ServeFault,
) -> ErrText
    ensures kept { kept.new ≡ Some fault }
    ensures words { H.says host.now fault result }
{
    let words = host.words(&fault);
    *kept = Some(fault);
    words
}

// Counts a request, and returns whether the connection accepts another request.
fn count(requests: &mut u32) -> bool
    ensures goes { result ≡ goes_on_after requests.old }
    ensures counts { requests.new ≡ min (requests.old + 1) max_requests }
{
    let goes_on = *requests < MAX_REQUESTS;
    *requests = requests.saturating_add(1);
    goes_on
}

// Returns an answer that consists of an error packet with this text. The answer ends the
// connection.
fn refusal_of<A: Allocator + Copy, R: ServedRepository<A> + PartPacker<A>>(
    text: ErrText,
) -> Answer<ServerReply<A, R, R::Parts>>
    ensures { IsRefusal R.server R.gives text result }
{
    Answer::Last(ServerReply::Speech(Speech::refusal_of(text)))
}

/// Returns an answer with the reply in `Ok`, or an answer with an error packet if `answered` is
/// `Err`.
pub(crate) fn answer_of<A: Allocator + Copy, R: ServedRepository<A> + PartPacker<A>>(
    answered: Result<ServerReply<A, R, R::Parts>, ErrText>,
    goes_on: bool,
) -> Answer<ServerReply<A, R, R::Parts>>
    ensures { AnswersOf R.server R.gives answered goes_on result }
{
    match answered {
        Ok(reply) if goes_on => Answer::GoesOn(reply),
        Ok(reply) => Answer::Last(reply),
        Err(text) => refusal_of::<A, R>(text),
    }
}

impl<A, H, R> Side<Heard<A>, ServerReply<A, R, R::Parts>> for ServerSide<'_, A, H, R>
where
    A: Allocator + Copy,
    H: Host<A, R>,
    R: ServedRepository<A> + PartPacker<A> + Drop,
{
    ghost use Rattle.gserver.specs.Serving.{AnswersMessage, HearsMessage, OpensFresh, RefusesMessage, messages_of, side_brings, side_judge};

    ghost judge = { λ side. side_judge side.limits R.server side.repo };

    ghost brings = { λ side. side_brings side.repo };

    ghost hears = { HearsMessage R.server };

    ghost opens = { OpensFresh };

    ghost answers = { λ old lines said goes new.
        AnswersMessage R.server (given_by R.packs) R.pack_fails H.finds H.opens H.says old new lines
        said goes };

    ghost refuses = { RefusesMessage H.says };

    ghost messages = { λ side. messages_of side.repo side.requests };

    fn message(&self) -> Heard<A> {
        match &self.repo {
            None => Heard::Hello(HelloReader::new(self.alloc)),
            Some(repo) => {
                let format = repo.server().graph().format();
                Heard::Request(RequestReader::within(self.alloc, format, self.limits))
            }
        }
    }

    fn hear(&self, message: &mut Heard<A>, line: gpkt::Packet<'_>) -> Result<Step, Why> {
        message.accept_packet(line)
    }

    fn answer(&mut self, message: Heard<A>) -> Answer<ServerReply<A, R, R::Parts>> {
        match message {
            Heard::Hello(reader) => self.answer_hello(reader.finish()),
            Heard::Request(reader) => self.answer_request(reader.finish()),
        }
    }

    fn refuse(&mut self, fault: MessageFault) -> ServerReply<A, R, R::Parts> {
        let words = words::<A, H, R>(self.host, &mut self.fault, ServeFault::Request(fault));
        ServerReply::Speech(Speech::refusal_of(words))
    }

    fn laws() {
        // Laws that the proof uses.
        grammars_are_exact();
    }
}
