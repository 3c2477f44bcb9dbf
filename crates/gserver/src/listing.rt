//! The reply to an ls-refs request, sent line by line (gitprotocol-v2(5), "ls-refs").

ghost use Rattle.std.specs.Prelude.{◌≡◌, ◌≤◌, ◌+◌, length};
ghost use Rattle.gpkt.specs.Packets.{max_packet};
ghost use Rattle.gtalk.specs.Talks.{queue_room};
ghost use Rattle.gserver.specs.Listings.{SaysListing, said_at_end, steps_of_listing};
ghost use Rattle.gserver.specs.steps.Stepping.{Advances};

use crate::cursor::Cursor;
use crate::host::ServedRepository;
use crate::ref_lines::{say_head, say_ref, say_unborn};
use gdialogue::Said;
use ggrammar::Ends;
use glsreply::RefText;
use grequest::LsRefsRequest;
use gtalk::Outgoing;
use std::alloc::Allocator;

/// The next packet of the reply.
#[derive(Clone, Copy)]
pub(crate) enum NextLine {
    /// The line with the target of an unborn HEAD.
    Unborn,
    /// The line of HEAD.
    Head,
    /// The line of the ref at this position, or the flush packet after the last ref.
    Ref(usize),
    /// The response-end packet, on a stateless connection.
    ResponseEnd,
}

/// The reply to an ls-refs request, sent line by line. The names of refs are borrowed from the
/// server, not copied.
#[derive(Drop)]
pub struct Listing<A: Allocator + Copy, R> {
    pub(crate) repo: R,
    pub(crate) asked: LsRefsRequest<A>,
    pub(crate) ends: Ends,
    // Whether the connection accepts another request after the reply.
    pub(crate) goes_on: bool,
    pub(crate) next: NextLine,
    // The buffer in which each line is composed.
    text: RefText,
}

impl<A: Allocator + Copy, R> Listing<A, R> {
    /// Returns the reply to a request before its first packet is sent.
    pub fn new(repo: R, asked: LsRefsRequest<A>, ends: Ends, goes_on: bool) -> Listing<A, R>
        ensures repo { result.repo ≡ repo }
        ensures asked { result.asked ≡ asked }
        ensures ends { result.ends ≡ ends }
        ensures goes_on { result.goes_on ≡ goes_on }
        ensures next { result.next ≡ NextLine.Unborn }
    {
        Listing {
            repo,
            asked,
            ends,
            goes_on,
            next: NextLine::Unborn,
            text: RefText::new(),
        }
    }
}

impl<A: Allocator + Copy, R: ServedRepository<A>> Cursor for Listing<A, R> {
    ghost may = { λ l. SaysListing (R.server l.repo) l.asked.asked l.ends l.goes_on l.next };

    ghost steps = { λ l. steps_of_listing (R.server l.repo) l.next };

    fn step<B: Allocator + Copy>(&mut self, out: &mut Outgoing<B>) -> Said {
        match self.next {
            NextLine::Unborn => {
                say_unborn(self.repo.server(), &self.asked, out);
                self.next = NextLine::Head;
                Said::More
            }
            NextLine::Head => {
                say_head(self.repo.server(), &self.asked, &mut self.text, out);
                self.next = NextLine::Ref(0);
                Said::More
            }
            NextLine::Ref(at) => self.step_ref(at, out),
            NextLine::ResponseEnd => {
                out.put_response_end();
                said_at_end(self.goes_on)
            }
        }
    }
}

impl<A: Allocator + Copy, R: ServedRepository<A>> Listing<A, R> {
    // Queues the line of the ref at this position, or the flush packet after the last ref.
    fn step_ref<B: Allocator + Copy>(&mut self, at: usize, out: &mut Outgoing<B>) -> Said
        requires room { length out.old + max_packet ≤ queue_room }
        requires next { self.old.next ≡ NextLine.Ref at }
        ensures { Advances
            (SaysListing (R.server self.old.repo) self.old.asked.asked self.old.ends
            self.old.goes_on self.old.next)
            (SaysListing (R.server self.new.repo) self.new.asked.asked self.new.ends
            self.new.goes_on self.new.next)
            (steps_of_listing (R.server self.old.repo) self.old.next)
            (steps_of_listing (R.server self.new.repo) self.new.next) out.old out.new result }
    {
        let server = self.repo.server();
        // Laws that the proof uses.
        server.laws();
        if say_ref(server, &self.asked, at, &mut self.text, out) {
            self.next = NextLine::Ref(at + 1);
            return Said::More;
        }
        out.put_flush();
        match self.ends {
            Ends::Plain => said_at_end(self.goes_on),
            Ends::Response => {
                self.next = NextLine::ResponseEnd;
                Said::More
            }
        }
    }
}

// Returns the result of the step that queues the last packet of a reply, given whether the dialogue
// then continues.
fn said_at_end(goes_on: bool) -> Said
    ensures { result ≡ said_at_end goes_on }
{
    if goes_on { Said::Whole } else { Said::Last }
}
