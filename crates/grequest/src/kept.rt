//! Reasons why a value can't be added to a request.

ghost use Rattle.std.specs.Prelude.{◌≡◌};
ghost use Rattle.grequest.specs.steps.Building.{build_fault, why_not_kept};

use ggrammar::{MessageFault, Why};

/// The reason that a value can't be added to a request. If several reasons apply, the first in this
/// enum is reported.
#[derive(Clone, Copy, Debug, PartialEq, Eq)]
pub(crate) enum NotKept {
    WrongForm,
    NoRoom,
    NoMemory,
}

impl NotKept {
    /// Returns the grammar's reason to reject the value. A malformed value is rejected with the
    /// reason `wrong_form`.
    pub(crate) fn why(self, wrong_form: Why) -> Why
        ensures { result ≡ why_not_kept wrong_form self }
    {
        match self {
            NotKept::WrongForm => wrong_form,
            NotKept::NoRoom => Why::Limit,
            NotKept::NoMemory => Why::Memory,
        }
    }
}

impl From<NotKept> for MessageFault {
    ghost from_gives = { λ reason fault. fault ≡ build_fault reason };

    /// Converts the reason to the fault of a call that builds a request.
    fn from(reason: NotKept) -> MessageFault {
        MessageFault::of_value(reason.why(Why::BadText))
    }
}
