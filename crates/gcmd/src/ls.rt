//! `gitv2 ls --stdio-server`, as a function over bytes, sources and sinks.

ghost use Rattle.std.specs.Prelude.{◌≡◌};
ghost use Rattle.gcmd.specs.Programs.{Runs};
ghost use Rattle.gcmd.specs.Serving.{outcome_of_exchange, ServesRequest};
ghost use Rattle.gpkt.specs.Streams.{given, OnBoth, SameSink, SameSource, taken};

use crate::fault::ProgramFault;
use crate::program::finish;
use crate::repository::load_server;
use ggrammar::Ends;
use ggraph::PlainPack;
use gpkt::{Sink, Source};
use gserve::{ExchangeEnd, OnePack, serve_one};
use std::alloc::Allocator;

/// `gitv2 ls --stdio-server FILE`: reads one request from `input`, and writes the reply to `output`
/// (gitprotocol-v2(5), "Command Request"). `file` is the text of the served repository. No
/// advertisement precedes the reply. The request may be `ls-refs` or `fetch`. A fault is printed as
/// one line on `errors`.
///
/// Returns exit status 0 if the request got a reply or was a lone flush packet, or if the input was
/// empty. Returns 1 after a fault. If the output does not fail, all of it is flushed before the
/// call returns.
pub fn cmd_ls<A: Allocator + Copy, S: Source, W: Sink, E: Sink>(
    alloc: A,
    file: &[u8],
    input: &mut S,
    output: &mut W,
    errors: &mut E,
) -> u8
    ensures runs { Runs {A = A} (ServesRequest file.now
        (taken S.Source input.old input.new)
        (given W.Sink output.old output.new))
        (given E.Sink errors.old errors.new) result }
    ensures input_loans { SameSource S.Source input.old input.new }
    ensures output_loans { SameSink W.Sink output.old output.new }
    ensures errors_loans { SameSink E.Sink errors.old errors.new }
{
    finish(answer_one(alloc, file, input, output), errors)
}

// Replies to one request.
fn answer_one<A: Allocator + Copy, S: Source, W: Sink>(
    alloc: A,
    file: &[u8],
    input: &mut S,
    output: &mut W,
) -> Result<(), ProgramFault<A>>
    ensures { OnBoth S.Source input.old input.new W.Sink output.old output.new
        (λ read written. ServesRequest {A = A} file.now read written result) }
{
    let server = load_server(alloc, file)?;
    let mut packer = OnePack::new(&PlainPack);
    outcome_of(serve_one(&server, &mut packer, Ends::Plain, input, output))
}

// Returns the outcome of the program, given how the exchange with the client ended.
fn outcome_of<A: Allocator + Copy>(ended: ExchangeEnd) -> Result<(), ProgramFault<A>>
    ensures { result ≡ outcome_of_exchange ended }
{
    match ended {
        ExchangeEnd::Answered | ExchangeEnd::Closed | ExchangeEnd::Ended => Ok(()),
        ExchangeEnd::Refused(fault) => Err(ProgramFault::Request(fault)),
        ExchangeEnd::WriteFailed => Err(ProgramFault::WriteFailed),
    }
}
