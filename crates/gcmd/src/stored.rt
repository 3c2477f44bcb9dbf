//! Runs `gitv2 fetch` on a repository file. The file is replaced as a whole or not at all.

ghost use Rattle.std.specs.Prelude.{◌≡◌, Err, Ok, MatchResult, length};
ghost use Rattle.gpkt.specs.Packets.{Bytes};
ghost use Rattle.glockfile.specs.Storing.{Holds};
ghost use Rattle.glockfile.specs.declared.storage.Lockfile.TheVariants.{Absent, Empty};
ghost use Rattle.gcmd.specs.Fetching.{NamesClient};
ghost use Rattle.gcmd.specs.steps.Stored.{ExitsNext, StoresAndReports};
ghost use Rattle.gpkt.specs.Streams.{given, OnBoth, OnSink, SameSink, SameSource, taken};
ghost use Rattle.gcmd.specs.Stored.{ConcludesStored, FetchesStored, IsFetchedStored, IsReplaced, OpensStored, ReportsAndExits, stored_of};

use crate::client_file::open_client;
use crate::fault::ProgramFault;
use crate::fetch::{send_report, text_of};
use crate::program::cmd_failed;
use gclient::{Fetched, Repo, Spec, fetch_over};
use gfetchreply::PackLimit;
use ggrammar::Ends;
use ggraph::PlainPack;
use glockfile::{Storage, open_file, replace_file};
use gpkt::{Sink, Source};
use std::alloc::{Allocator, Global};

/// The parameters of a fetch.
#[derive(Clone, Copy)]
pub struct FetchOptions<'a, A: Allocator + Copy = Global> {
    /// The refspecs.
    pub specs: &'a [Spec<A>],
    /// The maximum size of a pack in bytes.
    pub limit: PackLimit,
    /// Whether each reply ends with a response-end packet.
    pub ends: Ends,
}

/// A locked file of a client: its text, and the repository that the text describes.
#[derive(Drop)]
pub struct OpenedFile<A: Allocator + Copy = Global> {
    /// The text of the file when it was locked.
    pub text: Vec<u8, A>,
    /// The client's repository that the text describes.
    pub repo: Repo<A>,
}

/// `gitv2 fetch --stdio [--limit N] [--response-end] FILE SPEC...`: locks and reads the file, and
/// fetches from a server into the repository that the file describes. `input` and `output` are the
/// connection to the server. If the conversation succeeds, the program replaces the whole file, and
/// then writes the report to `errors`. A fault is also printed as one line on `errors`. Returns the
/// exit status.
///
/// The fault is `File` or `Memory` if the file can't be locked, read or replaced. Nothing is read
/// from the input or written to the output before the file is locked and read. After every fault
/// the file has the old text or the whole new text. At the end the program holds no lockfile.
pub fn cmd_fetch_stored<A: Allocator + Copy, T: Storage, S: Source, W: Sink, E: Sink>(
    alloc: A,
    file: &mut T,
    fetch: &FetchOptions<'_, A>,
    input: &mut S,
    output: &mut W,
    errors: &mut E,
) -> u8
    requires { T.lockfile file.old ≡ Absent }
    ensures runs { ReportsAndExits {A = A} (FetchesStored fetch.now.specs.now fetch.now.limit
        fetch.now.ends (stored_of T.texts T.lockfile file.old file.new)
        (taken S.Source input.old input.new)
        (given W.Sink output.old output.new))
        (given E.Sink errors.old errors.new) result }
    ensures input_loans { SameSource S.Source input.old input.new }
    ensures output_loans { SameSink W.Sink output.old output.new }
    ensures errors_loans { SameSink E.Sink errors.old errors.new }
{
    let outcome = fetch_stored(alloc, file, fetch, input, output, errors);
    exit_after(outcome, errors)
}

// Prints the fault in `outcome`, if any, and returns the exit status. Prints nothing if `errors`
// failed while the report was written to it.
fn exit_after<A: Allocator + Copy, E: Sink>(
    outcome: Result<(), ProgramFault<A>>,
    errors: &mut E,
) -> u8
    ensures { OnSink E.Sink errors.old errors.new (λ written. ExitsNext outcome written result) }
{
    match outcome {
        Ok(()) => 0,
        // The sink failed while the report was written, so the fault can't be printed.
        Err(ProgramFault::WriteFailed) => 1,
        Err(fault) => cmd_failed(fault, errors),
    }
}

// Fetches into a stored file, and returns the outcome.
fn fetch_stored<A: Allocator + Copy, T: Storage, S: Source, W: Sink, R: Sink>(
    alloc: A,
    file: &mut T,
    fetch: &FetchOptions<'_, A>,
    input: &mut S,
    output: &mut W,
    report: &mut R,
) -> Result<(), ProgramFault<A>>
    requires { T.lockfile file.old ≡ Absent }
    ensures { OnBoth S.Source input.old input.new W.Sink output.old output.new
        (λ read written. OnSink R.Sink report.old report.new (λ told. FetchesStored {A = A}
        fetch.now.specs.now fetch.now.limit fetch.now.ends
        (stored_of T.texts T.lockfile file.old file.new) read written told result)) }
{
    match open_stored(alloc, file) {
        Ok(mut opened) => fetch_opened(&mut opened, file, fetch, input, output, report),
        Err(fault) => Err(fault),
    }
}

// Fetches into an opened file, and returns the outcome.
fn fetch_opened<A: Allocator + Copy, T: Storage, S: Source, W: Sink, R: Sink>(
    opened: &mut OpenedFile<A>,
    file: &mut T,
    fetch: &FetchOptions<'_, A>,
    input: &mut S,
    output: &mut W,
    report: &mut R,
) -> Result<(), ProgramFault<A>>
    requires { T.lockfile file.old ≡ Empty }
    ensures fetches { OnBoth S.Source input.old input.new W.Sink output.old output.new
        (λ read written. OnSink R.Sink report.old report.new (λ told.
        Holds (T.texts file.old) opened.old.text.items
        → NamesClient opened.old.text.items opened.old.repo
        → IsFetchedStored {A = A} fetch.now.specs.now fetch.now.limit
        fetch.now.ends (stored_of T.texts T.lockfile file.old file.new) read written told result)) }
    ensures lockfile { T.lockfile file.new ≡ Absent }
{
    match fetch_over(
        &mut opened.repo,
        input,
        output,
        &PlainPack,
        fetch.specs,
        fetch.limit,
        fetch.ends,
    ) {
        Ok(fetched) => {
            conclude_stored(file, opened.text.as_slice(), &opened.repo, &fetched, report)
        }
        Err(fault) => give_up(file, ProgramFault::Fetch(fault)),
    }
}

/// Locks a client's file, reads it, and opens its repository.
///
/// Fails with `File` if the file can't be locked or read, with `Memory` if out of memory, or with
/// the faults of `open_client`. After a fault the program holds no lockfile.
pub fn open_stored<A: Allocator + Copy, T: Storage>(
    alloc: A,
    file: &mut T,
) -> Result<OpenedFile<A>, ProgramFault<A>>
    requires { T.lockfile file.old ≡ Absent }
    ensures opens { OpensStored (T.texts file.old) result }
    ensures lockfile { MatchResult result (λ _. T.lockfile file.new ≡ Empty)
        (λ _. T.lockfile file.new ≡ Absent) }
    ensures texts { T.texts file.new ≡ T.texts file.old }
{
    match open_file(alloc, file) {
        Ok(text) => open_text(alloc, file, text),
        Err(fault) => Err(ProgramFault::from(fault)),
    }
}

// Opens the repository of a locked file. Unlocks the file after a fault.
fn open_text<A: Allocator + Copy, T: Storage>(
    alloc: A,
    file: &mut T,
    text: Vec<u8, A>,
) -> Result<OpenedFile<A>, ProgramFault<A>>
    requires { T.lockfile file.old ≡ Empty }
    ensures opens { Holds (T.texts file.old) text.items → OpensStored (T.texts file.old) result }
    ensures lockfile { MatchResult result (λ _. T.lockfile file.new ≡ Empty)
        (λ _. T.lockfile file.new ≡ Absent) }
    ensures texts { T.texts file.new ≡ T.texts file.old }
{
    match open_client(alloc, text.as_slice()) {
        Ok(repo) => Ok(OpenedFile { text, repo }),
        Err(fault) => give_up(file, fault),
    }
}

// Unlocks a file without changing it, and returns the fault.
fn give_up<A: Allocator + Copy, T: Storage, X>(
    file: &mut T,
    fault: ProgramFault<A>,
) -> Result<X, ProgramFault<A>>
    requires { T.lockfile file.old ≡ Empty }
    ensures result { result ≡ Err fault }
    ensures lockfile { T.lockfile file.new ≡ Absent }
    ensures texts { T.texts file.new ≡ T.texts file.old }
{
    file.unlock();
    Err(fault)
}

/// Ends a successful fetch into a locked file whose text is `old`. Replaces the content of the file
/// with the text of the repository, and only then writes the report. At the end the program holds
/// no lockfile.
///
/// Fails with `Memory` or `File` if the file can't be replaced. After these faults no report is
/// written, and the file has the old text or the whole new text. If the file was replaced, the call
/// fails only with the faults of `send_report`.
pub fn conclude_stored<A: Allocator + Copy, T: Storage, R: Sink>(
    file: &mut T,
    old: &[u8],
    repo: &Repo<A>,
    fetched: &Fetched<A>,
    report: &mut R,
) -> Result<(), ProgramFault<A>>
    requires locked { T.lockfile file.old ≡ Empty }
    requires updates { length fetched.now.settled.updates.items ≡ length fetched.now.settled.asks }
    ensures concludes { Holds (T.texts file.old) old.now
        → ConcludesStored old.now repo.now fetched.now
        (stored_of T.texts T.lockfile file.old file.new)
        (given R.Sink report.old report.new) result }
    ensures lockfile { T.lockfile file.new ≡ Absent }
    ensures report_loans { SameSink R.Sink report.old report.new }
{
    match text_of(repo.graph().allocator(), repo) {
        Ok(text) => store(file, old, &text, fetched, report),
        Err(_) => give_up(file, ProgramFault::Memory),
    }
}

// Replaces the content of the file with the text, and only then writes the report.
fn store<A: Allocator + Copy, T: Storage, R: Sink>(
    file: &mut T,
    old: &[u8],
    text: &Vec<u8, A>,
    fetched: &Fetched<A>,
    report: &mut R,
) -> Result<(), ProgramFault<A>>
    requires locked { T.lockfile file.old ≡ Empty }
    requires updates { length fetched.now.settled.updates.items ≡ length fetched.now.settled.asks }
    ensures stores { OnSink R.Sink report.old report.new (λ told. Holds (T.texts file.old) old.now
        → StoresAndReports old.now text.now.items fetched.now
        (stored_of T.texts T.lockfile file.old file.new) told result) }
    ensures lockfile { T.lockfile file.new ≡ Absent }
{
    match replace_file(file, old, text.as_slice()) {
        Ok(()) => send_report(*text.allocator(), fetched, report),
        Err(fault) => Err(ProgramFault::from(fault)),
    }
}
