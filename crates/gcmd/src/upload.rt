//! `gitv2 upload`, as a function over bytes, sources and sinks.

ghost use Rattle.std.specs.Prelude.{◌≡◌};
ghost use Rattle.gcmd.specs.Programs.{Runs};
ghost use Rattle.gcmd.specs.Serving.{outcome_of_connection, ServesConnection};
ghost use Rattle.gpkt.specs.Streams.{given, OnBoth, SameSink, SameSource, taken};

use crate::fault::ProgramFault;
use crate::program::finish;
use crate::repository::load_server;
use ggrammar::Ends;
use ggraph::PlainPack;
use gpkt::{Sink, Source};
use gserve::{End, OnePack, serve};
use std::alloc::Allocator;

/// `gitv2 upload [--response-end] FILE`: serves one connection over `input` and `output`. `file` is
/// the text of the served repository. Writes the advertisement, and then the reply to each request
/// (gitprotocol-v2(5), "Capability Advertisement", "Command Request"). With `Ends::Response` each
/// reply ends with a response-end packet. A fault is printed as one line on `errors`.
///
/// Returns exit status 0 if the client ended the connection with a lone flush packet, the input
/// ended before a request, or the connection reached 4,294,967,295 requests. Returns 1 after a
/// fault. If the output does not fail, all of it is flushed before the call returns.
pub fn cmd_upload<A: Allocator + Copy, S: Source, W: Sink, E: Sink>(
    alloc: A,
    file: &[u8],
    ends: Ends,
    input: &mut S,
    output: &mut W,
    errors: &mut E,
) -> u8
    ensures runs { Runs {A = A} (ServesConnection file.now ends
        (taken S.Source input.old input.new)
        (given W.Sink output.old output.new))
        (given E.Sink errors.old errors.new) result }
    ensures input_loans { SameSource S.Source input.old input.new }
    ensures output_loans { SameSink W.Sink output.old output.new }
    ensures errors_loans { SameSink E.Sink errors.old errors.new }
{
    finish(answer_all(alloc, file, ends, input, output), errors)
}

// Serves the connection.
fn answer_all<A: Allocator + Copy, S: Source, W: Sink>(
    alloc: A,
    file: &[u8],
    ends: Ends,
    input: &mut S,
    output: &mut W,
) -> Result<(), ProgramFault<A>>
    ensures { OnBoth S.Source input.old input.new W.Sink output.old output.new
        (λ read written. ServesConnection {A = A} file.now ends read written result) }
{
    let server = load_server(alloc, file)?;
    let mut packer = OnePack::new(&PlainPack);
    outcome_of(serve(&server, &mut packer, ends, input, output).end)
}

// Returns the outcome of the program, given how the connection ended.
fn outcome_of<A: Allocator + Copy>(ended: End) -> Result<(), ProgramFault<A>>
    ensures { result ≡ outcome_of_connection ended }
{
    match ended {
        End::Closed | End::Ended => Ok(()),
        End::Refused(fault) => Err(ProgramFault::Request(fault)),
        End::WriteFailed => Err(ProgramFault::WriteFailed),
    }
}
