//! The input and the expected output of a program, from the transcript of a case.

use crate::case::{Case, Speaker};
use crate::command::{Invocation, Program};
use crate::trouble::Trouble;
use ggrammar::Ends;
use std::alloc::Global;

const FLUSH: &[u8] = b"0000";

const RESPONSE_END: &[u8] = b"0002";

/// Returns whether the case has at least one reply, and no reply ends with a response-end packet.
pub fn has_replies_without_response_end(case: &Case<'_>, has_hello: bool) -> bool {
    let mut awaits_hello = has_hello;
    let mut has_request = false;
    let mut has_reply = false;
    for entry in case.transcript.as_slice() {
        let packet = entry.bytes.as_slice();
        match entry.speaker {
            Speaker::Client => {
                has_request = !awaits_hello;
                awaits_hello = false;
            }
            Speaker::Server if packet == RESPONSE_END => return false,
            Speaker::Server => has_reply = has_reply || (has_request && packet == FLUSH),
            Speaker::Output | Speaker::Errors | Speaker::Report => {}
        }
    }
    has_reply
}

/// The position of a packet in the input.
#[derive(Clone, Copy)]
pub struct PacketStart {
    /// The offset in the input at which the packet begins.
    pub start: usize,
    /// The index of the packet in its message.
    pub frame: usize,
    /// The number of output bytes that precede the packet's message in the conversation.
    pub output_before: usize,
}

/// The input and the expected output of a program.
#[derive(Drop)]
pub struct Conversation {
    pub input: Vec<u8>,
    /// The position of each packet in the input. The last entry marks the end of the input.
    pub packet_starts: Vec<PacketStart>,
    pub output: Vec<u8>,
    /// The offsets at which messages of the output end.
    pub message_ends: Vec<usize>,
    pub errors: Vec<u8>,
    /// The expected report of a fetch or of a listing.
    pub report: Vec<u8>,
    frame: usize,
    output_before: usize,
    program: Program,
    // The packets that end each reply.
    reply_ends: Ends,
    // Whether response-end packets are added to the replies of the case.
    adds_response_ends: bool,
    // Whether the client has sent a request. If so, the server's next message is a reply.
    has_request: bool,
    // Whether the first line of the client's connection must still be added.
    awaits_hello: bool,
}

impl Conversation {
    /// Returns the input and the expected output for one program of the case.
    pub fn of_case(
        alloc: Global,
        command: &Invocation<'_>,
        case: &Case<'_>,
        adds_response_ends: bool,
    ) -> Result<Conversation, Trouble> {
        let mut conversation = Conversation {
            input: Vec::new(alloc),
            packet_starts: Vec::new(alloc),
            output: Vec::new(alloc),
            message_ends: Vec::new(alloc),
            errors: Vec::new(alloc),
            report: Vec::new(alloc),
            frame: 0,
            output_before: 0,
            program: command.program,
            reply_ends: command.reply_ends,
            adds_response_ends,
            has_request: false,
            awaits_hello: command.has_hello(),
        };
        for entry in case.transcript.as_slice() {
            conversation.add_entry(entry.speaker, entry.bytes.as_slice())?;
        }
        conversation.begin_packet(false)?;
        Ok(conversation)
    }

    /// Returns the last packet of the input that begins at or before `offset`, or `None` if there
    /// is no such packet.
    pub fn packet_at(&self, offset: usize) -> Option<PacketStart> {
        let mut packet = None;
        for packet_start in self.packet_starts.as_slice() {
            if packet_start.start <= offset {
                packet = Some(*packet_start);
            }
        }
        packet
    }

    /// Returns the entry of `packet_starts` at `offset` if a message begins there, or if the input
    /// ends there after a whole message. Otherwise returns `None`.
    pub fn message_at(&self, offset: usize) -> Option<PacketStart> {
        let packet_start = self.packet_at(offset)?;
        if packet_start.start == offset && packet_start.frame == 0 {
            Some(packet_start)
        } else {
            None
        }
    }

    /// Returns the end offset of the input message that begins at offset `start`.
    pub fn message_end(&self, start: usize) -> usize {
        for packet_start in self.packet_starts.as_slice() {
            if packet_start.start > start && packet_start.frame == 0 {
                return packet_start.start;
            }
        }
        self.input.len()
    }

    /// Returns whether `offset` is 0, the end of a message in the output, or the end of the output.
    pub fn is_message_end(&self, offset: usize) -> bool {
        offset == 0 || offset == self.output.len() || self.message_ends.as_slice().contains(&offset)
    }

    /// Returns whether the packets of the last message in the input begin at these offsets in the
    /// message. The last offset in `expected` is the end of the message.
    pub fn has_packet_offsets(&self, expected: &[usize]) -> bool {
        let mut message_start = 0usize;
        let mut packet_count = 0usize;
        let mut is_right = true;
        for packet_start in self.packet_starts.as_slice() {
            if packet_start.frame == 0 && packet_start.start < self.input.len() {
                message_start = packet_start.start;
                packet_count = 0;
                is_right = true;
            }
            let offset = packet_start.start.saturating_sub(message_start);
            is_right = is_right && expected.get(packet_count) == Some(&offset);
            packet_count = packet_count.saturating_add(1);
        }
        is_right && packet_count == expected.len()
    }

    // Appends an entry of the transcript. If `adds_response_ends` is set, also appends a
    // response-end packet after the flush packet of a reply.
    fn add_entry(&mut self, speaker: Speaker, bytes: &[u8]) -> Result<(), Trouble> {
        let is_client = speaker == Speaker::Client;
        if is_client && self.awaits_hello {
            return self.add_hello(bytes);
        }
        self.has_request = self.has_request || is_client;
        self.add_to_stream(speaker, bytes)?;
        let is_reply = self.has_request && speaker == Speaker::Server;
        if self.adds_response_ends && is_reply && bytes == FLUSH {
            return self.add_to_stream(speaker, RESPONSE_END);
        }
        Ok(())
    }

    // Appends the first line of a connection as a separate message.
    fn add_hello(&mut self, bytes: &[u8]) -> Result<(), Trouble> {
        self.awaits_hello = false;
        self.add_to_stream(Speaker::Client, bytes)?;
        if self.program.reads_client_messages() {
            self.frame = 0;
        } else {
            self.message_ends.push(self.output.len())?;
        }
        Ok(())
    }

    fn add_to_stream(&mut self, speaker: Speaker, bytes: &[u8]) -> Result<(), Trouble> {
        let stream = match speaker {
            Speaker::Client if self.program.reads_client_messages() => return self.add_input(bytes),
            Speaker::Server if !self.program.reads_client_messages() => {
                return self.add_input(bytes);
            }
            Speaker::Client | Speaker::Server => return self.add_output(speaker, bytes),
            Speaker::Output => &mut self.output,
            Speaker::Errors => &mut self.errors,
            Speaker::Report => &mut self.report,
        };
        Ok(stream.extend_from_slice(bytes)?)
    }

    fn add_input(&mut self, bytes: &[u8]) -> Result<(), Trouble> {
        let reads_single_packets = self.program.reads_single_packets();
        let is_response_end = bytes == RESPONSE_END;
        self.begin_packet(is_response_end && !reads_single_packets)?;
        self.input.extend_from_slice(bytes)?;
        self.frame = if reads_single_packets || is_response_end || bytes == FLUSH {
            0
        } else {
            self.frame.saturating_add(1)
        };
        Ok(())
    }

    // Records the position of the next packet. A response-end packet belongs to the previous
    // message.
    fn begin_packet(&mut self, belongs_to_last_message: bool) -> Result<(), Trouble> {
        if belongs_to_last_message {
            self.frame = match self.packet_starts.last() {
                Some(last) => last.frame.saturating_add(1),
                None => 0,
            };
        } else if self.frame == 0 {
            self.output_before = self.output.len();
        }
        self.packet_starts.push(PacketStart {
            start: self.input.len(),
            frame: self.frame,
            output_before: self.output_before,
        })?;
        Ok(())
    }

    fn add_output(&mut self, speaker: Speaker, bytes: &[u8]) -> Result<(), Trouble> {
        self.output.extend_from_slice(bytes)?;
        if bytes == self.closing_packet(speaker) {
            self.message_ends.push(self.output.len())?;
        }
        Ok(())
    }

    // Returns the packet that ends each message of this speaker.
    fn closing_packet(&self, speaker: Speaker) -> &'static [u8] {
        let is_reply = speaker == Speaker::Server && self.has_request;
        if is_reply && self.reply_ends == Ends::Response {
            RESPONSE_END
        } else {
            FLUSH
        }
    }
}

/// Returns the printed fault without the prefix `gitv2: fault `, or `None` if no fault is printed.
pub fn fault_text(errors: &[u8]) -> Option<&[u8]> {
    errors.strip_prefix(b"gitv2: fault ")?.strip_suffix(b"\n")
}
