//! The faults that abort a conversation.

ghost use Rattle.std.specs.Prelude.{◌≡◌, Some};
ghost use Rattle.gtalk.specs.Faults.{talk_fault_text};

use std::error::Error;
use std::fmt;

/// The reason why a conversation was aborted.
#[derive(Clone, Copy, Debug, PartialEq, Eq)]
pub enum TalkFault {
    /// The sink failed. A prefix of the bytes of the queued packets was written, perhaps all of
    /// them.
    Io,
    /// There was not enough memory for the send queue. The failed turn queued no packet.
    Memory,
}

impl fmt::Display for TalkFault {
    ghost output = { λ fault. Some (talk_fault_text fault) };

    fn fmt<W: fmt::Write>(&self, f: &mut fmt::Formatter<W>) -> fmt::Result {
        match self {
            TalkFault::Io => f.write_str("the sink failed"),
            TalkFault::Memory => f.write_str("out of memory"),
        }
    }
}

impl Error for TalkFault {}
