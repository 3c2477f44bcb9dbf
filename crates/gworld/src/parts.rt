//! A world without its packer and its indexer.

ghost use Rattle.std.specs.Prelude.{◌≡◌, slice_get};
ghost use Rattle.std.specs.Option.{option_copied};
ghost use Rattle.gworld.specs.Events.{mark_after};
ghost use Rattle.gworld.specs.Taking.{code_of};
ghost use Rattle.gworld.specs.declared.outcome.Outcome.TheVariants as outcome;

mod changes;
mod deliver;
mod happen;
mod run;
mod serve;
mod session;
mod start;

use crate::outcome::Outcome;
use ganswer::{Reply, Server};
use gclientrepo::Repo;
use grequest::Request;
use gsession::{ClientFault, Session};
use std::alloc::Allocator;
use std::marker::Model;

/// A request that the client sent.
#[derive(Drop)]
pub(crate) struct Sent<A: Allocator + Copy> {
    request: Request<A>,
}

impl<A: Allocator + Copy> Model for Sent<A> {
    ghost use Rattle.grequest.specs.Asked.{Asked};
    ghost use Rattle.grequest.specs.RequestValues.{asked_by_request};

    ghost Value = { Asked };

    ghost view = { λ sent. asked_by_request sent.request };
}

/// A reply that the server made, and the request that it answers.
#[derive(Drop)]
pub(crate) struct KeptReply<A: Allocator + Copy> {
    request: Request<A>,
    reply: Reply<A>,
}

impl<A: Allocator + Copy> Model for KeptReply<A> {
    ghost use Rattle.ganswer.specs.Answers.{reply_of};
    ghost use Rattle.grequest.specs.RequestValues.{asked_by_request};
    ghost use Rattle.gworld.specs.Worlds.{Kept};

    ghost Value = { Kept };

    ghost view = { λ kept. record { asked = asked_by_request kept.request; reply = reply_of kept.reply } };
}

/// The server, the client with its session, all sent requests and all kept replies.
#[derive(Drop)]
pub(crate) struct Parts<A: Allocator + Copy> {
    server: Server<A>,
    repo: Repo<A>,
    session: Option<Session<A>>,
    sent: Vec<Sent<A>, A>,
    kept: Vec<KeptReply<A>, A>,
    // Whether bytes were ever forged.
    forged: bool,
    // Whether the session accepted the pack of a complete reply to its open request.
    answered: bool,
}

impl<A: Allocator + Copy> Model for Parts<A> {
    ghost use Rattle.gworld.specs.Worlds.{WorldState};

    ghost Value = { WorldState A };

    ghost view = { λ it. record {
      server = it.server;
      repo = it.repo;
      session = it.session;
      sent = it.sent.items;
      kept = it.kept.items;
      forged = it.forged;
      answered = it.answered;
    } };
}

// Returns the value of the flag `answered` after a fault. `mark` is its value before the fault. A
// fault that ends the session clears the flag.
fn mark_after<A: Allocator + Copy>(fault: &ClientFault<A>, mark: bool) -> bool
    ensures { result ≡ mark_after fault.now mark }
{
    if fault.ends_session() { false } else { mark }
}

// Returns the outcome of a fault. A fault that ends the session clears the flag `answered`.
fn refuse<A: Allocator + Copy>(fault: ClientFault<A>, mark: &mut bool) -> Outcome
    ensures outcome { result ≡ outcome.Fault (code_of fault) }
    ensures mark { mark.new ≡ mark_after fault mark.old }
{
    *mark = mark_after(&fault, *mark);
    Outcome::Fault { code: fault.code() }
}

// Returns the sent request at this index, or `None` if the index is too large.
fn sent_at<A: Allocator + Copy>(sent: &Vec<Sent<A>, A>, number: usize) -> Option<&Sent<A>>
    ensures { option_copied result ≡ slice_get sent.now.items number }
{
    sent.get(number)
}

// Returns the kept reply at this index, or `None` if the index is too large.
fn kept_at<A: Allocator + Copy>(kept: &Vec<KeptReply<A>, A>, number: usize) -> Option<&KeptReply<A>>
    ensures { option_copied result ≡ slice_get kept.now.items number }
{
    kept.get(number)
}
