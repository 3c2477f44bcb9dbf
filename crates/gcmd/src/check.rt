//! `gitv2 check`, as a function over bytes, sources and sinks.

ghost use Rattle.std.specs.Prelude.{◌≡◌, ◌≤◌, [], length, IfOk};
ghost use Rattle.gcmd.specs.Checking.{report_line, yes_or_no, Checks, IsReport};
ghost use Rattle.gcmd.specs.Programs.{Runs};
ghost use Rattle.gpkt.specs.Streams.{given, OnSink, SameSink};
ghost use Rattle.gcmd.specs.steps.Outputs.{SendsTo};

use crate::compose::add_number;
use crate::fault::ProgramFault;
use crate::program::finish;
use crate::send::send;
use arrayvec::ArrayVec;
use ggrammar::compose::add;
use ggraph::{GraphFault, Order, Repository, has_connected_refs, load};
use gpkt::{Down, Sink};
use std::alloc::Allocator;

/// An upper bound in bytes on the length of a report, which consists of fixed words and two numbers
/// of at most 20 digits.
const MAX_REPORT: usize = 76;

/// `gitv2 check FILE`: reports on the repository whose text is `file`. The text may list the nodes
/// in any order. The report states the numbers of nodes (commits and tags) and refs, whether the
/// graph is closed (`closed`), and whether the repository is connected (`safe`). A fault is printed
/// as one line on `errors`.
///
/// Returns exit status 0 if the report is written and flushed, and 1 after a fault. After a fault
/// nothing is written to `output`, except a prefix of the report if the output failed.
pub fn cmd_check<A: Allocator + Copy, W: Sink, E: Sink>(
    alloc: A,
    file: &[u8],
    output: &mut W,
    errors: &mut E,
) -> u8
    ensures runs { Runs {A = A} (Checks file.now
        (given W.Sink output.old output.new))
        (given E.Sink errors.old errors.new) result }
    ensures output_loans { SameSink W.Sink output.old output.new }
    ensures errors_loans { SameSink E.Sink errors.old errors.new }
{
    finish(check(alloc, file, output), errors)
}

// Checks the repository that a file describes, and writes the report.
fn check<A: Allocator + Copy, W: Sink>(
    alloc: A,
    file: &[u8],
    output: &mut W,
) -> Result<(), ProgramFault<A>>
    ensures { OnSink W.Sink output.old output.new (λ written. Checks file.now written result) }
{
    let repo = load(alloc, file, Order::Any)?;
    let report = match report_of(&repo) {
        Ok(report) => report,
        Err(_) => return Err(ProgramFault::Memory),
    };
    match send_report(&report, output) {
        Ok(()) => Ok(()),
        Err(_) => Err(ProgramFault::WriteFailed),
    }
}

// The values of a report: the numbers of nodes and refs, whether the graph is closed, and whether
// each ref is connected.
#[derive(Clone, Copy)]
struct Report {
    nodes: usize,
    refs: usize,
    closed: bool,
    connected_refs: bool,
}

fn report_of<A: Allocator + Copy>(repo: &Repository<A>) -> Result<Report, GraphFault>
    ensures report { IfOk result (IsReport repo.now) }
{
    let connected_refs = has_connected_refs(&repo.graph, &repo.refs)?;
    Ok(Report {
        nodes: repo.graph.len(),
        refs: repo.refs.len(),
        closed: repo.graph.is_closed(),
        connected_refs,
    })
}

fn send_report<W: Sink>(report: &Report, output: &mut W) -> Result<(), Down>
    ensures { SendsTo W.Sink output.old output.new result (report_line report.now) }
{
    let mut text = ArrayVec::new();
    compose_report(report, &mut text);
    send(text.as_slice(), output)
}

fn compose_report(report: &Report, text: &mut ArrayVec<u8, MAX_REPORT>)
    requires { text.old.items ≡ [] }
    ensures { text.new.items ≡ report_line report.now }
{
    add(b"nodes ", text);
    add_number(report.nodes as u64, text);
    add(b" refs ", text);
    add_number(report.refs as u64, text);
    add(b" closed ", text);
    add(yes_or_no(report.closed), text);
    add(b" safe ", text);
    add(yes_or_no(report.connected_refs), text);
    add(b"\n", text);
}

fn yes_or_no(holds: bool) -> &'static [u8]
    ensures word { result.now ≡ yes_or_no holds }
    ensures short { length result.now ≤ 3 }
{
    if holds { b"yes" } else { b"no" }
}
