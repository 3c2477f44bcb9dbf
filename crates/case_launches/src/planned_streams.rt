//! The bytes that a plan expects on the standard streams and the connections, and the exit status.

use crate::peers::Exchange;
use crate::streams::{CommandStreams, Stream};
use case_text::{Program, Speaker, TranscriptEntry};
use case_tries::Row;
use std::alloc::{AllocError, Global};

/// The line that a listening server prints.
const LISTENING_LINE: &[u8] = b"listening PORT\n";

/// The exit status of the program if its arguments do not match the usage. The program then prints
/// the line `USAGE_LINE`.
pub(crate) const WRONG_USAGE_STATUS: u8 = 2;

const USAGE_LINE: &[u8] = b"gitv2: usage\n";

/// The bytes on the standard streams and the connections of a program, and its exit status.
#[derive(Drop)]
pub(crate) struct PlannedStreams {
    /// The bytes of standard input.
    pub(crate) input: Vec<u8>,
    pub(crate) exchanges: Vec<Exchange>,
    /// The expected standard output. The word `PORT` is replaced by the port at which the program
    /// listens.
    pub(crate) output: Vec<u8>,
    /// The expected standard error, if the exit status is known.
    pub(crate) errors: Vec<u8>,
    /// The expected exit status. `None` accepts any standard error, and any status except
    /// `WRONG_USAGE_STATUS`.
    pub(crate) status: Option<u8>,
}

impl PlannedStreams {
    /// Returns the streams of a program without input, expected output or known exit status.
    pub(crate) fn new(alloc: Global) -> PlannedStreams {
        PlannedStreams {
            input: Vec::new(alloc),
            exchanges: Vec::new(alloc),
            output: Vec::new(alloc),
            errors: Vec::new(alloc),
            status: None,
        }
    }

    /// Expects the program to report that its arguments do not match the usage.
    pub(crate) fn expect_wrong_usage(&mut self) -> Result<(), AllocError> {
        self.status = Some(WRONG_USAGE_STATUS);
        self.errors.extend_from_slice(USAGE_LINE)
    }

    /// Adds the messages of a row, over standard streams or over a socket.
    pub(crate) fn expect_row(&mut self, row: &Row<'_>) -> Result<(), AllocError> {
        let conversation = &row.conversation;
        self.status = Some(row_status(row));
        if row.command.has_hello() {
            self.expect_exchange(row)?;
        } else {
            self.expect_messages(row)?;
        }
        self.expect_report(row)?;
        self.errors
            .extend_from_slice(conversation.errors.as_slice())
    }

    // Adds the messages of a row, over a socket. A client that sends no message opens no socket. A
    // server prints its port.
    fn expect_exchange(&mut self, row: &Row<'_>) -> Result<(), AllocError> {
        if row.command.program == Program::Serve {
            self.output.extend_from_slice(LISTENING_LINE)?;
        } else if row.conversation.output.is_empty() {
            return Ok(());
        }
        self.begin_exchange()?;
        self.expect_messages(row)
    }

    // Adds the messages of a row to the last connection, or to the standard streams if there is no
    // connection.
    fn expect_messages(&mut self, row: &Row<'_>) -> Result<(), AllocError> {
        self.expect_bytes(row.conversation.input.as_slice(), Stream::PeerInput)?;
        self.expect_bytes(row.conversation.output.as_slice(), Stream::PeerOutput)
    }

    // Adds the report of a row, for programs with a report.
    fn expect_report(&mut self, row: &Row<'_>) -> Result<(), AllocError> {
        if !row.command.program.has_report() {
            return Ok(());
        }
        let stream = if row.command.has_hello() {
            Stream::StandardOutput
        } else {
            Stream::StandardError
        };
        self.expect_bytes(row.conversation.report.as_slice(), stream)
    }

    // Adds a connection.
    fn begin_exchange(&mut self) -> Result<(), AllocError> {
        let exchange = Exchange::new(*self.output.allocator());
        self.exchanges.push(exchange).map_err(AllocError::from)
    }

    /// Adds these messages, over standard streams or over one connection after another.
    pub(crate) fn expect_transcript(
        &mut self,
        transcript: &[TranscriptEntry],
        connection_starts: &[usize],
        command_streams: CommandStreams,
    ) -> Result<(), AllocError> {
        self.status = Some(u8::from(has_fault(transcript)));
        for (index, entry) in transcript.iter().enumerate() {
            let starts_connection = connection_starts.contains(&index);
            self.expect_entry(entry, starts_connection, command_streams)?;
        }
        Ok(())
    }

    // Adds the bytes of a message, which may be the first message of a connection.
    fn expect_entry(
        &mut self,
        entry: &TranscriptEntry,
        starts_connection: bool,
        command_streams: CommandStreams,
    ) -> Result<(), AllocError> {
        if command_streams.is_remote
            && entry.speaker.is_peer()
            && (starts_connection || self.exchanges.is_empty())
        {
            self.begin_exchange()?;
        }
        let stream = command_streams.stream_of(entry.speaker);
        self.expect_bytes(entry.bytes.as_slice(), stream)
    }

    // Adds bytes to the input or to the expected output of this stream.
    fn expect_bytes(&mut self, bytes: &[u8], stream: Stream) -> Result<(), AllocError> {
        self.bytes_of(stream).extend_from_slice(bytes)
    }

    // Returns the bytes of this stream. The peer is the one that connected last, if any.
    fn bytes_of(&mut self, stream: Stream) -> &mut Vec<u8> {
        match (stream, self.exchanges.last_mut()) {
            (Stream::PeerInput, Some(exchange)) => &mut exchange.sent_bytes,
            (Stream::PeerOutput, Some(exchange)) => &mut exchange.expected_bytes,
            (Stream::PeerInput, None) => &mut self.input,
            (Stream::PeerOutput, None) | (Stream::StandardOutput, _) => &mut self.output,
            (Stream::StandardError, _) => &mut self.errors,
        }
    }
}

// Returns the expected exit status of a row's program.
fn row_status(row: &Row<'_>) -> u8 {
    if row.command.program == Program::Serve {
        0
    } else {
        u8::from(!row.conversation.errors.is_empty())
    }
}

// Returns whether the messages include a printed fault.
fn has_fault(transcript: &[TranscriptEntry]) -> bool {
    for entry in transcript {
        if entry.speaker == Speaker::Errors {
            return true;
        }
    }
    false
}
