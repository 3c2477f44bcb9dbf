//! The texts that `gitrepo` prints instead of running a command.

ghost use Rattle.std.specs.Prelude.{◌≡◌};
ghost use Rattle.gitwords.specs.Answers.{answer_status, answer_stream, answer_text};

use gname::OUT_OF_MEMORY_TEXT;

/// A text that `gitrepo` prints instead of running a command.
#[derive(Debug, Drop)]
pub enum Answer {
    /// The help or version text that the arguments request.
    Asked(String),
    /// The first mistake in the arguments, and the usage of the command.
    Usage(String),
    /// The text that reports that `gitrepo` is out of memory.
    Memory,
}

/// A standard stream.
#[derive(Clone, Copy, Debug, PartialEq, Eq, Drop)]
pub enum Stream {
    /// Standard output.
    Output,
    /// Standard error.
    Error,
}

impl Answer {
    /// Returns the text of the answer. Every text except that of `Memory` ends with a line feed.
    pub fn text(&self) -> &str
        ensures { result.now ≡ answer_text self.now }
    {
        match self {
            Answer::Asked(text) | Answer::Usage(text) => text.as_str(),
            Answer::Memory => OUT_OF_MEMORY_TEXT,
        }
    }

    /// Returns the stream on which the answer is printed.
    pub fn stream(&self) -> Stream
        ensures { result ≡ answer_stream self.now }
    {
        match self {
            Answer::Asked(_) => Stream::Output,
            Answer::Usage(_) | Answer::Memory => Stream::Error,
        }
    }

    /// Returns the exit status of the answer: 0 for help or version, 2 for wrong usage, 1 if out of
    /// memory.
    pub fn status(&self) -> u8
        ensures { result ≡ answer_status self.now }
    {
        match self {
            Answer::Asked(_) => 0,
            Answer::Usage(_) => 2,
            Answer::Memory => 1,
        }
    }
}
