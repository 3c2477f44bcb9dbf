//! `gitv2 fetch`, as a function over bytes, sources and sinks.

ghost use Rattle.std.specs.Prelude.{◌≡◌, MatchResult, length, option_map};
ghost use Rattle.gpkt.specs.Packets.{Bytes};
ghost use Rattle.ggraph.specs.declared.fault.SaveFault.TheVariants.{Memory};
ghost use Rattle.gclientrepo.specs.Repos.{RepoState};
ghost use Rattle.gcmd.specs.Fetching.{Concludes, FetchesFile, IsFetched, IsFetchedInto, NamesClient, Reports, SendsReport};
ghost use Rattle.gcmd.specs.Programs.{Runs};
ghost use Rattle.gpkt.specs.Streams.{given, OnBoth, OnSink, SameSink, SameSource, taken};

use crate::client_file::open_client;
use crate::fault::ProgramFault;
use crate::program::finish;
use crate::report::report_of;
use crate::send::send;
use gclient::{Fetched, Repo, Spec, fetch_over};
use gfetchreply::PackLimit;
use ggrammar::Ends;
use ggraph::graph_laws::positions_are_nodes;
use ggraph::{Head, PlainPack, SaveFault, save};
use gpkt::{Sink, Source};
use std::alloc::{Allocator, Global};

/// The result of a fetch into a file.
#[derive(Debug, Drop)]
pub struct FetchRun<A: Allocator + Copy = Global> {
    /// The exit status: 0 if the report is written and flushed, 1 after a fault.
    pub status: u8,
    /// The new text of the file, or `None` if the file is unchanged.
    pub file: Option<Vec<u8, A>>,
}

/// `gitv2 fetch --stdio [--limit N] [--response-end] FILE SPEC...`: fetches from a server into the
/// client's repository whose text is `file` (gitprotocol-v2(5)). `input` and `output` are the
/// connection to the server. `limit` is the maximum size of a pack, and `ends` states how each
/// reply ends. The report has a line for each requested ref update: `moved NAME ID`, `same NAME`,
/// or `notforward NAME` if the update is not a fast-forward. The last line is `unborn NAME` if HEAD
/// was fetched and the server's HEAD is unborn and points at NAME. A fault is printed as one line
/// on `errors`.
///
/// Returns the exit status. Also returns the new text of the file, unless the file was rejected,
/// the conversation failed, or memory for the text ran out. The caller must write this text to the
/// file, and may show the report only afterwards. If the conversation failed, the file is
/// unchanged.
pub fn cmd_fetch<A: Allocator + Copy, S: Source, W: Sink, R: Sink, E: Sink>(
    alloc: A,
    file: &[u8],
    specs: &[Spec<A>],
    limit: PackLimit,
    ends: Ends,
    input: &mut S,
    output: &mut W,
    report: &mut R,
    errors: &mut E,
) -> FetchRun<A>
    ensures runs { Runs {A = A} (FetchesFile file.now specs.now limit ends
        (taken S.Source input.old input.new)
        (given W.Sink output.old output.new)
        (given R.Sink report.old report.new)
        (option_map (λ text. text.items) result.file))
        (given E.Sink errors.old errors.new) result.status }
    ensures input_loans { SameSource S.Source input.old input.new }
    ensures output_loans { SameSink W.Sink output.old output.new }
    ensures report_loans { SameSink R.Sink report.old report.new }
    ensures errors_loans { SameSink E.Sink errors.old errors.new }
{
    let fetch = FileFetch {
        file,
        specs,
        limit,
        ends,
    };
    let (outcome, file) = fetch_into(alloc, &fetch, input, output, report);
    let status = finish(outcome, errors);
    FetchRun { status, file }
}

// The parameters of a fetch into a file.
#[derive(Clone, Copy)]
struct FileFetch<'a, A: Allocator + Copy> {
    // The text of the client's repository.
    file: &'a [u8],
    specs: &'a [Spec<A>],
    // The maximum size of a pack in bytes.
    limit: PackLimit,
    // Whether each reply ends with a response-end packet.
    ends: Ends,
}

// Fetches into a file. Returns the outcome, and the new text of the file if there is one.
fn fetch_into<A: Allocator + Copy, S: Source, W: Sink, R: Sink>(
    alloc: A,
    fetch: &FileFetch<'_, A>,
    input: &mut S,
    output: &mut W,
    report: &mut R,
) -> (Result<(), ProgramFault<A>>, Option<Vec<u8, A>>)
    ensures { OnBoth S.Source input.old input.new W.Sink output.old output.new
        (λ read written. OnSink R.Sink report.old report.new (λ told. FetchesFile {A = A}
        fetch.now.file.now fetch.now.specs.now fetch.now.limit fetch.now.ends read written told
        (option_map (λ text. text.items) result.1) result.0)) }
{
    match open_client(alloc, fetch.file) {
        Ok(mut repo) => fetch_for(&mut repo, fetch, input, output, report),
        Err(fault) => (Err(fault), None),
    }
}

// Fetches into the client's repository that the file describes. Returns the outcome, and the new
// text of the file if there is one.
fn fetch_for<A: Allocator + Copy, S: Source, W: Sink, R: Sink>(
    repo: &mut Repo<A>,
    fetch: &FileFetch<'_, A>,
    input: &mut S,
    output: &mut W,
    report: &mut R,
) -> (Result<(), ProgramFault<A>>, Option<Vec<u8, A>>)
    ensures { OnBoth S.Source input.old input.new W.Sink output.old output.new
        (λ read written. OnSink R.Sink report.old report.new (λ told. (file : Bytes)
        → NamesClient file repo.old → IsFetched {A = A} file fetch.now.specs.now fetch.now.limit
        fetch.now.ends read written told
        (option_map (λ text. text.items) result.1) result.0)) }
{
    let alloc = repo.graph().allocator();
    match fetch_over(
        repo,
        input,
        output,
        &PlainPack,
        fetch.specs,
        fetch.limit,
        fetch.ends,
    ) {
        Ok(fetched) => conclude(alloc, repo, &fetched, report),
        Err(fault) => (Err(ProgramFault::Fetch(fault)), None),
    }
}

/// Ends a successful fetch: composes the new text of the client's file, and writes the report.
/// Returns the outcome and the text. If memory for the text runs out, no text is returned and no
/// report is written.
pub fn conclude<A: Allocator + Copy, R: Sink>(
    alloc: A,
    repo: &Repo<A>,
    fetched: &Fetched<A>,
    report: &mut R,
) -> (Result<(), ProgramFault<A>>, Option<Vec<u8, A>>)
    requires { length fetched.now.settled.updates.items ≡ length fetched.now.settled.asks }
    ensures concludes { (before : RepoState A) → IsFetchedInto before repo.now fetched.now
        → Concludes before repo.now fetched.now (given R.Sink
        report.old report.new) (option_map (λ text. text.items) result.1) result.0 }
    ensures loans { SameSink R.Sink report.old report.new }
{
    match text_of(alloc, repo) {
        Ok(text) => (send_report(alloc, fetched, report), Some(text)),
        Err(_) => (Err(ProgramFault::Memory), None),
    }
}

// Returns the text of a client's repository. Fails only if out of memory.
pub(crate) fn text_of<A: Allocator + Copy>(
    alloc: A,
    repo: &Repo<A>,
) -> Result<Vec<u8, A>, SaveFault>
    ensures { MatchResult result (λ text. NamesClient text.items repo.now)
        (λ fault. fault ≡ Memory) }
{
    // Laws that the proof uses.
    positions_are_nodes::<A>();
    repo.laws();
    match save(alloc, repo.graph(), repo.refs(), &Head::None) {
        Ok(text) => Ok(text),
        Err(fault) => Err(fault),
    }
}

/// Writes and flushes the report of a fetch.
///
/// Fails with `Memory` before anything is written, or with `WriteFailed` if the sink fails.
pub fn send_report<A: Allocator + Copy, R: Sink>(
    alloc: A,
    fetched: &Fetched<A>,
    report: &mut R,
) -> Result<(), ProgramFault<A>>
    requires { length fetched.now.settled.updates.items ≡ length fetched.now.settled.asks }
    ensures reports { Reports fetched.now (given R.Sink report.old
        report.new) result }
    ensures loans { SameSink R.Sink report.old report.new }
{
    match report_of(alloc, fetched) {
        Ok(text) => send_text(text.as_slice(), report),
        Err(_) => Err(ProgramFault::Memory),
    }
}

/// Writes a text to the sink of the report, and flushes the sink.
///
/// Fails only with `WriteFailed`, after a prefix of the text was written.
pub fn send_text<A: Allocator + Copy, R: Sink>(
    text: &[u8],
    report: &mut R,
) -> Result<(), ProgramFault<A>>
    ensures sends { SendsReport {A = A} text.now
        (given R.Sink report.old report.new) result }
    ensures loans { SameSink R.Sink report.old report.new }
{
    match send(text, report) {
        Ok(()) => Ok(()),
        Err(_) => Err(ProgramFault::WriteFailed),
    }
}
