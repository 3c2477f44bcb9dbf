//! Checks of the result of a run against the expected results of its row.

use crate::memory_runs::RunResults;
use case_runs::{DeviceLimits, Writer};
use case_text::{
    Change, Conversation, Invocation, OutcomeKind, PacketStart, Program, TableLine, Trouble,
    error_packet, fault_text, is_error_packet, parse_number,
};
use gcmd::cmd_check;
use std::alloc::Global;

const NO_BYTES: &[u8] = b"";

const UNEXPECTED_END_PACKET: &[u8] = b"0024ERR upload-pack: unexpected end\n";

const READ_FAILED_PACKET: &[u8] = b"0021ERR upload-pack: read failed\n";

const OUT_OF_MEMORY_PACKET: &[u8] = b"0023ERR upload-pack: out of memory\n";

const PACK_FAILED_PACKET: &[u8] = b"0021ERR upload-pack: pack failed\n";

const WRITE_FAULT_LINE: &[u8] = b"gitv2: fault 27 Io\n";

/// The number of the out-of-memory fault that may occur before a connection is served.
const LOAD_MEMORY_FAULT: usize = 64;

/// The number of the out-of-memory fault that may occur while a pack is created.
const PACK_MEMORY_FAULT: usize = 65;

/// The numbers of the faults that a run may report after a refused allocation.
const MEMORY_FAULTS: [usize; 7] = [18, 28, 53, 64, 65, 66, 91];

/// A program with its input and its expected results.
#[derive(Drop)]
pub struct Row<'b> {
    pub command: Invocation<'b>,
    /// The text of the server's or client's repository.
    pub repository_text: &'b [u8],
    /// The expected new text of the client's file, if the file changes.
    pub new_file: Option<&'b [u8]>,
    pub conversation: Conversation,
    /// The fault lines that the program must print, in this order, as each allocation is refused in
    /// turn. The list is empty if the row lists no fault lines.
    pub memory_faults: &'b [Vec<u8>],
    /// The packet offsets in the last message that the program reads. The list is empty if the row
    /// lists no offsets.
    pub packet_offsets: &'b [usize],
    /// The expected results of a truncated or changed request. The list is empty if the row has no
    /// table.
    pub table: &'b [TableLine<'b>],
    pub byte_changes: ByteChanges,
    /// Whether the row is also tested with a peer that sends or accepts bytes late, and over a
    /// socket while each allocation is refused in turn.
    pub is_late: bool,
    /// Whether the row is tested only with its unchanged input. Some runs read the input at once,
    /// and others read it in pieces.
    pub is_long: bool,
}

/// The changes that are made to each byte of the input.
#[derive(Clone, Copy, PartialEq, Eq)]
pub enum ByteChanges {
    /// Each byte is changed to every other value.
    EveryValue,
    /// Each bit of each byte is flipped.
    EveryBit,
    /// One bit of each byte is flipped. The number of the bit is the offset of the byte modulo 8.
    OneBit,
}

/// The way in which an input stops early.
#[derive(Clone, Copy, PartialEq, Eq)]
pub enum InputStop {
    /// The input ends.
    End,
    /// A read fails.
    ReadFailure,
}

/// Returns whether the run had exactly the row's expected results, and flushed its output.
pub fn is_as_expected(row: &Row<'_>, results: &RunResults) -> bool {
    (results.status == 1) != row.conversation.errors.is_empty()
        && has_expected_output_and_file(row, results)
        && has_expected_report(row, results)
        && wrote_exactly(
            &results.errors,
            row.conversation.errors.as_slice(),
            NO_BYTES,
        )
}

// Returns whether the run wrote exactly the row's expected output and its expected file.
fn has_expected_output_and_file(row: &Row<'_>, results: &RunResults) -> bool {
    wrote_exactly(
        &results.output,
        row.conversation.output.as_slice(),
        NO_BYTES,
    ) && has_expected_file(results, row.new_file)
}

// Returns whether the run wrote exactly the row's expected report, or nothing for programs without
// a report.
fn has_expected_report(row: &Row<'_>, results: &RunResults) -> bool {
    let expected = if row.command.program.has_report() {
        row.conversation.report.as_slice()
    } else {
        NO_BYTES
    };
    wrote_exactly(&results.report, expected, NO_BYTES)
}

/// Returns whether the run ended as expected for an input that stops after `len` bytes.
pub fn is_as_expected_after_input_stop(
    alloc: Global,
    row: &Row<'_>,
    results: &RunResults,
    len: usize,
    input_stop: InputStop,
) -> Result<bool, Trouble> {
    let Some((packet_start, output_before)) = packet_at(row, len) else {
        return Ok(false);
    };
    let is_between = packet_start.start == len;
    if input_stop == InputStop::End && is_between && may_end_before(row.command, packet_start) {
        return Ok(has_succeeded_with(results, output_before));
    }
    let program = row.command.program;
    let (fault, refusal) = expected_fault_after_stop(input_stop, is_between);
    let sent_error = if program.is_server() {
        refusal
    } else {
        NO_BYTES
    };
    let line = fault_line(alloc, program, fault, packet_start)?;
    Ok(has_failed_with(results, output_before, sent_error, line.as_bytes()))
}

// Returns the packet at this offset of the input, and the expected output before the packet's
// message. Returns `None` if there is no such packet.
fn packet_at<'b>(row: &'b Row<'_>, offset: usize) -> Option<(PacketStart, &'b [u8])> {
    let packet_start = row.conversation.packet_at(offset)?;
    let output = row.conversation.output.as_slice();
    Some((packet_start, output.get(..packet_start.output_before)?))
}

// Returns whether the client may end the connection before this packet.
fn may_end_before(command: Invocation<'_>, packet_start: PacketStart) -> bool {
    let is_hello = command.has_hello() && packet_start.start == 0;
    command.program.reads_client_messages() && packet_start.frame == 0 && !is_hello
}

// Returns the expected fault and the expected error for the client if the input stops. The input
// stops between packets if `is_between` is set, otherwise within a packet.
fn expected_fault_after_stop(
    input_stop: InputStop,
    is_between: bool,
) -> (&'static str, &'static [u8]) {
    match input_stop {
        InputStop::ReadFailure => ("24 Io", READ_FAILED_PACKET),
        InputStop::End if is_between => ("54 Ended", UNEXPECTED_END_PACKET),
        InputStop::End => ("23 Truncated", UNEXPECTED_END_PACKET),
    }
}

// Returns whether the run succeeded with exactly this output.
fn has_succeeded_with(results: &RunResults, written: &[u8]) -> bool {
    results.status == 0
        && wrote_and_printed(results, written, NO_BYTES, NO_BYTES)
        && results.new_file.is_none()
}

// Returns whether the run failed with exactly this output, this error for the client and this fault
// line.
fn has_failed_with(
    results: &RunResults,
    written: &[u8],
    sent_error: &[u8],
    printed_line: &[u8],
) -> bool {
    results.status == 1
        && wrote_and_printed(results, written, sent_error, printed_line)
        && results.new_file.is_none()
}

// Returns the line that reports a fault at a packet.
fn fault_line(
    alloc: Global,
    program: Program,
    fault: &str,
    packet_start: PacketStart,
) -> Result<String, Trouble> {
    let frame = packet_start.frame;
    if program.reads_single_packets() {
        Ok(format!(in alloc; "gitv2: fault {fault}\n")?)
    } else {
        Ok(format!(in alloc; "gitv2: fault {fault} frame {frame}\n")?)
    }
}

/// Returns whether the run wrote only a prefix of the expected output, and reported the failed
/// write.
pub fn is_as_expected_after_failed_write(row: &Row<'_>, results: &RunResults) -> bool {
    results.status == 1
        && row
            .conversation
            .output
            .starts_with(results.output.written_bytes())
        && results.errors.written_bytes() == WRITE_FAULT_LINE
        && results.new_file.is_none()
}

/// Returns whether the run wrote only a prefix of the report, reported the failed write, and
/// otherwise had all expected results.
pub(crate) fn is_as_expected_after_failed_report(row: &Row<'_>, results: &RunResults) -> bool {
    results.status == 1
        && has_expected_output_and_file(row, results)
        && row
            .conversation
            .report
            .starts_with(results.report.written_bytes())
        && wrote_exactly(&results.errors, WRITE_FAULT_LINE, NO_BYTES)
}

/// Returns whether the run had all expected results, except that it printed only a prefix of the
/// fault line.
pub(crate) fn is_as_expected_after_failed_stderr(row: &Row<'_>, results: &RunResults) -> bool {
    results.status == 1
        && has_expected_output_and_file(row, results)
        && has_expected_report(row, results)
        && row
            .conversation
            .errors
            .starts_with(results.errors.written_bytes())
}

/// Returns whether the run succeeded, or ended as expected after a refused allocation. A run that
/// stops early writes only complete messages of the expected output, and then reports the fault. A
/// server also reports the fault to the client.
pub fn is_as_expected_after_refusal(row: &Row<'_>, results: &RunResults) -> bool {
    is_as_expected(row, results)
        || ran_out_of_memory_at_load(row, results)
        || has_event_memory_fault(row, results)
        || (has_printed_memory_fault(results) && has_stopped_at_message_end(row, results))
}

// Returns whether the run is a simulation whose outcomes match those of the row up to an
// out-of-memory fault.
fn has_event_memory_fault(row: &Row<'_>, results: &RunResults) -> bool {
    if row.command.program != Program::Simulate || results.status != 0 {
        return false;
    }
    let written = results.output.written_bytes().split(|byte| *byte == b'\n');
    let expected = row
        .conversation
        .output
        .as_slice()
        .split(|byte| *byte == b'\n');
    for (line, expected) in written.zip(expected) {
        if line != expected {
            return is_memory_fault_line(line);
        }
    }
    false
}

fn is_memory_fault_line(line: &[u8]) -> bool {
    match line.strip_prefix(b"fault ") {
        Some(digits) => MEMORY_FAULTS.contains(&parse_number(digits)),
        None => false,
    }
}

/// Returns whether memory ran out while the server loaded the repository, before the server wrote
/// any output.
pub(crate) fn ran_out_of_memory_at_load(row: &Row<'_>, results: &RunResults) -> bool {
    row.command.program.is_server()
        && has_printed_memory_fault(results)
        && results.output.written_bytes().is_empty()
        && printed_fault_number(results.errors.written_bytes()) == LOAD_MEMORY_FAULT
}

// Returns whether the run printed only one out-of-memory fault, and wrote no report.
fn has_printed_memory_fault(results: &RunResults) -> bool {
    let errors = results.errors.written_bytes();
    results.status == 1
        && MEMORY_FAULTS.contains(&printed_fault_number(errors))
        && errors.ends_with(b"\n")
        && errors.split(|byte| *byte == b'\n').count() == 2
        && results.errors.is_flushed()
        && wrote_exactly(&results.report, NO_BYTES, NO_BYTES)
}

// Returns whether the run wrote complete messages of the expected output, followed by the error for
// the client if the program is a server. If the run wrote a new file, the output must be complete,
// because only writing the report can have failed.
fn has_stopped_at_message_end(row: &Row<'_>, results: &RunResults) -> bool {
    let sent_error = if row.command.program.is_server() {
        memory_error_packet(printed_fault_number(results.errors.written_bytes()))
    } else {
        NO_BYTES
    };
    let Some(messages) = results.output.written_bytes().strip_suffix(sent_error) else {
        return false;
    };
    let is_prefix = match &results.new_file {
        Some(_) => has_expected_file(results, row.new_file)
            && messages == row.conversation.output.as_slice(),
        None => row.conversation.output.starts_with(messages)
            && row.conversation.is_message_end(messages.len()),
    };
    is_prefix && results.output.is_flushed()
}

// Returns the error packet for the client after an out-of-memory fault.
fn memory_error_packet(fault: usize) -> &'static [u8] {
    if fault == PACK_MEMORY_FAULT {
        PACK_FAILED_PACKET
    } else {
        OUT_OF_MEMORY_PACKET
    }
}

/// Returns whether the run had the result that the row's table lists for the changed input.
pub(crate) fn is_as_table_lists(
    alloc: Global,
    row: &Row<'_>,
    results: &RunResults,
    input: &[u8],
    change: Change,
) -> Result<bool, Trouble> {
    let Some((_, output_before)) = packet_at(row, 0) else {
        return Ok(false);
    };
    for table_line in row.table {
        if table_line.covers(change) {
            return has_table_outcome(alloc, row, results, (output_before, input), table_line);
        }
    }
    Ok(false)
}

fn has_table_outcome(
    alloc: Global,
    row: &Row<'_>,
    results: &RunResults,
    (output_before, input): (&[u8], &[u8]),
    table_line: &TableLine<'_>,
) -> Result<bool, Trouble> {
    match table_line.expected.kind {
        OutcomeKind::Unchanged => Ok(is_as_expected(row, results)),
        OutcomeKind::Output => {
            let output = table_line.expected.output.as_slice();
            Ok(results.status == 0 && wrote_and_printed(results, output_before, output, NO_BYTES))
        }
        OutcomeKind::ErrorPacket => has_refused(alloc, results, (output_before, input), table_line),
    }
}

// Returns whether the run failed with the fault of the table line, after it sent the error packet.
fn has_refused(
    alloc: Global,
    results: &RunResults,
    (output_before, input): (&[u8], &[u8]),
    table_line: &TableLine<'_>,
) -> Result<bool, Trouble> {
    let sent_error = has_sent_error(alloc, results, (output_before, input), table_line)?;
    let fault = table_line.fill_placeholder(alloc, table_line.expected.fault, input)?;
    Ok(
        results.status == 1
            && sent_error
            && fault_text(results.errors.written_bytes()) == Some(fault.as_slice()),
    )
}

// Returns whether the output is `output_before` and then the error packet of the table line.
fn has_sent_error(
    alloc: Global,
    results: &RunResults,
    (output_before, input): (&[u8], &[u8]),
    table_line: &TableLine<'_>,
) -> Result<bool, Trouble> {
    let text = table_line.fill_placeholder(alloc, table_line.expected.error_text, input)?;
    let packet = error_packet(alloc, text.as_slice())?;
    Ok(wrote_exactly(&results.output, output_before, packet.as_slice()))
}

/// Returns whether a run may report the fault with this number after a refused allocation.
pub(crate) fn is_memory_fault(fault: usize) -> bool {
    MEMORY_FAULTS.contains(&fault)
}

/// Returns the number of the printed fault, or 0 if no fault is printed.
pub(crate) fn printed_fault_number(errors: &[u8]) -> usize {
    let Some(text) = fault_text(errors) else {
        return 0;
    };
    match text.split(|byte| *byte == b' ').next() {
        Some(digits) => parse_number(digits),
        None => 0,
    }
}

/// Returns whether a run with a changed input printed a fault exactly if the run failed. A server's
/// output must also begin with the advertisement, if any. After a first line, an error packet may
/// replace the advertisement.
pub(crate) fn is_valid_for_changed_input(row: &Row<'_>, results: &RunResults) -> bool {
    let prints_fault_if_failed = (results.status == 1)
        == results.errors.written_bytes().starts_with(b"gitv2: fault ");
    prints_fault_if_failed && advertises_or_refuses(row, results)
}

// Returns whether the output of a server begins with the row's advertisement, if any. If the
// connection has a first line, the output may instead be an error packet.
fn advertises_or_refuses(row: &Row<'_>, results: &RunResults) -> bool {
    match row.command.program {
        Program::Upload => has_advertisement(row, results),
        Program::Serve => has_advertisement(row, results)
            || is_error_packet(results.output.written_bytes()),
        _ => true,
    }
}

fn has_advertisement(row: &Row<'_>, results: &RunResults) -> bool {
    let len = match row.conversation.message_ends.first() {
        Some(end) => *end,
        None => 0,
    };
    match row.conversation.output.as_slice().get(..len) {
        Some(advertisement) => results.output.written_bytes().starts_with(advertisement),
        None => false,
    }
}

/// Returns whether the client's repository still holds all its objects, and each ref is connected.
/// If the file has a new text, that text must equal the final state in memory. Otherwise the state
/// may have new objects, but the refs must be unchanged.
pub fn keeps_repository(alloc: Global, row: &Row<'_>, results: &RunResults) -> bool {
    match (&results.final_repository_text, &results.new_file) {
        (Some(state), new_file) => {
            is_consistent_state(row, state.as_slice(), new_file)
                && keeps_objects(alloc, row, state.as_slice())
        }
        (None, Some(text)) => keeps_objects(alloc, row, text.as_slice()),
        (None, None) => true,
    }
}

// Returns whether a final state in memory equals the new text of the file. Without a new text, the
// state must have the refs of the row's text.
fn is_consistent_state(row: &Row<'_>, state: &[u8], new_file: &Option<Vec<u8>>) -> bool {
    match new_file {
        Some(text) => state == text.as_slice(),
        None => has_same_refs(row, state),
    }
}

// Returns whether a repository's text has the same refs as the row's text.
fn has_same_refs(row: &Row<'_>, text: &[u8]) -> bool {
    let (_, old_refs) = split_refs(row.repository_text);
    let (_, refs) = split_refs(text);
    refs == old_refs
}

// Returns whether a repository's text has connected refs and all objects of the row's text.
fn keeps_objects(alloc: Global, row: &Row<'_>, text: &[u8]) -> bool {
    let (objects, _) = split_refs(row.repository_text);
    text.starts_with(objects) && has_connected_refs(alloc, text)
}

// Returns whether each ref of a repository's text is connected.
fn has_connected_refs(alloc: Global, repository_text: &[u8]) -> bool {
    let mut output = Writer::new(alloc, DeviceLimits::NONE);
    let mut errors = Writer::new(alloc, DeviceLimits::NONE);
    run_check(alloc, repository_text, &mut output, &mut errors) == 0
        && output.written_bytes().ends_with(b" safe yes\n")
}

fn run_check(
    alloc: Global,
    repository_text: &[u8],
    output: &mut Writer,
    errors: &mut Writer,
) -> u8 {
    cmd_check(alloc, repository_text, output, errors)
}

// Splits a repository's text after the lines of its objects.
fn split_refs(repository_text: &[u8]) -> (&[u8], &[u8]) {
    let mut len = 0usize;
    for line in repository_text.split_inclusive(|byte| *byte == b'\n') {
        if line.starts_with(b"r ") || line.starts_with(b"h ") {
            break;
        }
        len = len.saturating_add(line.len());
    }
    repository_text.split_at(len.min(repository_text.len()))
}

// Returns whether the output consists of `first` and `last`, and is completely flushed.
fn wrote_exactly(output: &Writer, first: &[u8], last: &[u8]) -> bool {
    output.is_flushed() && output.written_bytes().strip_prefix(first) == Some(last)
}

// Returns whether the output consists of `first` and `last`, and the run printed exactly `errors`
// and wrote no report.
fn wrote_and_printed(results: &RunResults, first: &[u8], last: &[u8], errors: &[u8]) -> bool {
    wrote_exactly(&results.output, first, last)
        && wrote_exactly(&results.report, NO_BYTES, NO_BYTES)
        && wrote_exactly(&results.errors, errors, NO_BYTES)
}

fn has_expected_file(results: &RunResults, expected: Option<&[u8]>) -> bool {
    match (&results.new_file, expected) {
        (Some(text), Some(expected)) => text.as_slice() == expected,
        (None, None) => true,
        (Some(_), None) | (None, Some(_)) => false,
    }
}
