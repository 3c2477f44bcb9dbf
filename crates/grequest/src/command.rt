//! The commands of requests.

ghost use Rattle.std.specs.Prelude.{◌≡◌};
ghost use Rattle.std.specs.Option.{option_copied};
ghost use Rattle.grequest.specs.Arguments.{command_of_key, command_form, command_name};

use ggrammar::{after_word, is_key};

/// A command (gitprotocol-v2(5), "Command Request").
#[derive(Clone, Copy, Debug, PartialEq, Eq)]
pub(crate) enum Command {
    LsRefs,
    Fetch,
}

impl Command {
    /// Returns the name of the command.
    pub(crate) fn name(self) -> &'static str
        ensures { result.now ≡ command_name self }
    {
        match self {
            Command::LsRefs => "ls-refs",
            Command::Fetch => "fetch",
        }
    }
}

/// The kind of a request's first text.
#[derive(Clone, Copy, Debug, PartialEq, Eq)]
pub(crate) enum CommandForm {
    Known(Command),
    /// `command=` and a key that names no known command.
    Unknown,
    /// A text of any other form.
    Bad,
}

/// Returns the kind of a request's first text.
#[tactic(auto, unfolding(crate::specs::Arguments::command_form))]
pub(crate) fn command_form(text: &[u8]) -> CommandForm
    ensures { result ≡ command_form text.now }
{
    match after_word(b"command=", text) {
        Some(key) => command_of_key(key),
        None => CommandForm::Bad,
    }
}

fn command_of_key(key: &[u8]) -> CommandForm
    ensures { result ≡ command_of_key key.now }
{
    if key == b"ls-refs".as_slice() {
        CommandForm::Known(Command::LsRefs)
    } else if key == b"fetch".as_slice() {
        CommandForm::Known(Command::Fetch)
    } else if is_key(key) {
        CommandForm::Unknown
    } else {
        CommandForm::Bad
    }
}
