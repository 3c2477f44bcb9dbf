//! A fetch into a file in memory, and checks of its results. A chosen operation on the file fails,
//! or the run stops at that operation.

use crate::judge::{Row, is_memory_fault, printed_fault_number};
use case_runs::{
    CommandRun, DeviceLimits, Devices, FileProblem, IndexerCheck, Reader, StoredFetch, Writer,
    fetch_into_stored_file,
};
use case_text::{Program, RefusingAllocator, Trouble};
use std::alloc::Global;

const FILE_FAULT_LINE: &[u8] = b"gitv2: fault 95 File\n";

/// The number of file operations before the fetch sends any bytes: one operation locks the file,
/// and one reads it.
const OPENING_CALLS: usize = 2;

/// The failures to simulate during a fetch into a file.
#[derive(Clone, Copy)]
pub(crate) struct StoredFetchParameters {
    pub(crate) file_problem: FileProblem,
    pub(crate) stderr_limits: DeviceLimits,
    pub(crate) refused_allocation: u64,
}

impl StoredFetchParameters {
    pub(crate) const UNLIMITED: StoredFetchParameters = StoredFetchParameters {
        file_problem: FileProblem::None,
        stderr_limits: DeviceLimits::NONE,
        refused_allocation: 0,
    };
}

/// The results of a fetch into a file.
#[derive(Drop)]
pub(crate) struct StoredFetchResults {
    fetch: StoredFetch,
    output: Writer,
    // Standard error, which receives the report or the line that reports a fault.
    errors: Writer,
    // Whether no byte of the input was read.
    is_unread: bool,
}

impl StoredFetchResults {
    pub(crate) fn calls(&self) -> usize {
        self.fetch.file.calls()
    }

    /// Returns whether the fetch reached the allocation to refuse.
    pub(crate) fn was_refused(&self) -> bool {
        self.fetch.was_refused
    }

    /// Returns whether a write to standard error failed.
    pub(crate) fn has_failed(&self) -> bool {
        self.errors.has_failed()
    }

    pub(crate) fn printed_bytes(&self) -> &[u8] {
        self.errors.written_bytes()
    }

    // Returns whether the fetch neither wrote to the server nor read from it.
    fn exchanged_nothing(&self) -> bool {
        self.is_unread && self.output.written_bytes().is_empty()
    }

    // Returns whether the fetch ended with this status and printed exactly these bytes.
    fn ended_with(&self, status: u8, printed: &[u8]) -> bool {
        self.fetch.status == status && self.errors.written_bytes() == printed
    }
}

/// Returns whether the row's program is a fetch into a file over standard streams, with
/// `PlainPack`.
pub(crate) fn has_stored_file(row: &Row<'_>) -> bool {
    let command = row.command;
    command.program == Program::Fetch && !command.has_hello() && command.pack_tool.is_none()
}

/// Fetches into a file in memory that holds the row's repository.
pub(crate) fn fetch_into_row_file(
    alloc: Global,
    row: &Row<'_>,
    parameters: StoredFetchParameters,
) -> Result<StoredFetchResults, Trouble> {
    let tested_alloc = RefusingAllocator::new(alloc);
    let indexer_check = IndexerCheck::new();
    let run = CommandRun {
        alloc,
        tested_alloc: &tested_alloc,
        refusing_alloc: &tested_alloc,
        indexer_check: &indexer_check,
        command: row.command,
        repository_text: row.repository_text,
        input: row.conversation.input.as_slice(),
        refused_allocation: parameters.refused_allocation,
    };
    let mut devices = Devices {
        input: Reader::new(run.input, DeviceLimits::NONE, run.indexer_check),
        output: Writer::new(alloc, DeviceLimits::NONE),
        report: Writer::new(alloc, DeviceLimits::NONE),
        errors: Writer::new(alloc, parameters.stderr_limits),
    };
    let fetch = fetch_into_stored_file(&run, parameters.file_problem, &mut devices)?;
    let is_unread = devices.input.unread_len() == run.input.len();
    let Devices {
        input: _,
        output,
        report: _,
        errors,
    } = devices;
    Ok(StoredFetchResults {
        fetch,
        output,
        errors,
        is_unread,
    })
}

/// Returns whether a fetch without a simulated failure wrote the expected report, and the expected
/// new text, if any.
pub(crate) fn is_stored_as_expected(row: &Row<'_>, results: &StoredFetchResults) -> bool {
    let conversation = &row.conversation;
    let status = !conversation.errors.is_empty() as u8;
    let printed = results.errors.written_bytes();
    results.fetch.status == status
        && results.output.written_bytes() == conversation.output.as_slice()
        && printed.strip_prefix(conversation.report.as_slice())
            == Some(conversation.errors.as_slice())
        && has_expected_text(row, results)
        && !results.fetch.file.is_locked()
}

/// Returns whether a fetch with this file problem had the expected results. A fetch without a
/// failure performs `calls` operations on the file.
pub(crate) fn is_as_expected_after_problem(
    row: &Row<'_>,
    results: &StoredFetchResults,
    file_problem: FileProblem,
    calls: usize,
) -> bool {
    let (call, stops) = match file_problem {
        FileProblem::FailedCall(call) => (call, false),
        FileProblem::StopBefore(call) | FileProblem::StopAfter(call) => (call, true),
        FileProblem::None | FileProblem::LockedByOther => (1, false),
    };
    // If the file is not changed, the last operation removes the lockfile. A failure of this
    // operation is not reported.
    let is_unlock = call == calls && !changes_file(row);
    let has_expected_end = if is_unlock {
        ended_as_expected(row, results)
    } else {
        results.ended_with(1, FILE_FAULT_LINE)
    };
    let exchanged_nothing = call > OPENING_CALLS || results.exchanged_nothing();
    let may_be_locked = stops || is_unlock || file_problem == FileProblem::LockedByOther;
    has_expected_end
        && exchanged_nothing
        && held_whole_texts(row, results)
        && (may_be_locked || !results.fetch.file.is_locked())
}

// Returns whether a fetch that does not change the file had the status, report and fault that the
// row expects.
fn ended_as_expected(row: &Row<'_>, results: &StoredFetchResults) -> bool {
    let printed = results.errors.written_bytes();
    (results.fetch.status == 1) != row.conversation.errors.is_empty()
        && printed.strip_prefix(row.conversation.report.as_slice())
            == Some(row.conversation.errors.as_slice())
}

/// Returns whether a fetch ended as expected after a refused allocation or a failure of standard
/// error. The status must be 1, and the file must get its new text before any part of the report is
/// written.
pub(crate) fn is_as_expected_when_cut_short(row: &Row<'_>, results: &StoredFetchResults) -> bool {
    let printed = results.errors.written_bytes();
    let is_memory_fault_printed = is_memory_fault(printed_fault_number(printed));
    let is_report_prefix = !row.conversation.report.is_empty()
        && row.conversation.report.starts_with(printed);
    let is_printed_as_expected = if is_memory_fault_printed {
        true
    } else {
        results.has_failed() && (is_report_prefix || row.conversation.errors.starts_with(printed))
    };
    let is_file_updated_first = is_memory_fault_printed
        || printed.is_empty()
        || !is_report_prefix
        || has_expected_text(row, results);
    results.fetch.status == 1
        && is_printed_as_expected
        && is_file_updated_first
        && held_whole_texts(row, results)
        && !results.fetch.file.is_locked()
}

// Returns whether a fetch without a failure changes the file.
fn changes_file(row: &Row<'_>) -> bool {
    match row.new_file {
        Some(text) => text != row.repository_text,
        None => false,
    }
}

// Returns whether the file held the old text throughout, or the old text and then the complete new
// text.
fn held_whole_texts(row: &Row<'_>, results: &StoredFetchResults) -> bool {
    match results.fetch.file.states() {
        [old] => old.as_slice() == row.repository_text,
        [old, new] => {
            old.as_slice() == row.repository_text
                && changes_file(row)
                && Some(new.as_slice()) == row.new_file
        }
        _ => false,
    }
}

// Returns whether the file has its expected text. An unchanged file must not be replaced.
fn has_expected_text(row: &Row<'_>, results: &StoredFetchResults) -> bool {
    let states = if changes_file(row) { 2 } else { 1 };
    held_whole_texts(row, results) && results.fetch.file.states().len() == states
}
