//! The streams of a program that carry the messages of a case.

use case_text::Speaker;

/// A stream of the program.
#[derive(Clone, Copy)]
pub(crate) enum Stream {
    /// The input from the peer: standard input, or a socket.
    PeerInput,
    /// The output to the peer: standard output, or a socket.
    PeerOutput,
    /// Standard output.
    StandardOutput,
    /// Standard error.
    StandardError,
}

/// The streams of a command.
#[derive(Clone, Copy)]
pub(crate) struct CommandStreams {
    /// Whether the command reads the messages of a client.
    reads_client_messages: bool,
    /// Whether the peers are connected over sockets.
    pub(crate) is_remote: bool,
    /// Whether the command writes its report to standard error, because standard output carries its
    /// messages to the peer.
    reports_on_errors: bool,
}

impl CommandStreams {
    /// Returns the streams of the command with these arguments.
    pub(crate) fn of_command(arguments: &str) -> CommandStreams {
        let is_fetch = has_option(arguments, "--stdio");
        let connects = has_option(arguments, "--tcp");
        CommandStreams {
            reads_client_messages: !is_fetch && !connects,
            is_remote: connects || has_option(arguments, "--listen"),
            reports_on_errors: is_fetch,
        }
    }

    /// Returns the stream for the messages of this speaker.
    pub(crate) fn stream_of(self, speaker: Speaker) -> Stream {
        match speaker {
            Speaker::Client if self.reads_client_messages => Stream::PeerInput,
            Speaker::Server if !self.reads_client_messages => Stream::PeerInput,
            Speaker::Client | Speaker::Server => Stream::PeerOutput,
            Speaker::Output => Stream::StandardOutput,
            Speaker::Errors => Stream::StandardError,
            Speaker::Report if self.reports_on_errors => Stream::StandardError,
            Speaker::Report => Stream::StandardOutput,
        }
    }
}

fn has_option(arguments: &str, option: &str) -> bool {
    for argument in arguments.split(' ') {
        if argument == option {
            return true;
        }
    }
    false
}
