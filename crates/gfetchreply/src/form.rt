//! The kinds of texts in a fetch reply. A text is a payload without its final line feed.

ghost use Rattle.std.specs.Prelude.{◌≡◌, codes};
ghost use Rattle.gfetchreply.specs.FetchReplies.{ack_or_other, reply_form};
ghost use Rattle.gfetchreply.specs.steps.Views.{form_in};
ghost use Rattle.ggrammar.specs.PeerErrors.{after_word};

use ggrammar::after_word;

/// The kind of a text in a fetch reply (gitprotocol-v2(5), "fetch").
#[derive(Clone, Copy, Debug, PartialEq, Eq)]
pub(crate) enum ReplyForm<'a> {
    /// `acknowledgments`, the heading of the acknowledgments.
    Acknowledgments,
    Nak,
    /// `ready`, which announces a pack.
    Readiness,
    /// `packfile`, the heading of the pack.
    Packfile,
    /// `ACK ` followed by any text, which may be malformed.
    Ack(&'a [u8]),
    /// A text of any other form.
    Other,
}

/// Returns the kind of a text.
#[tactic(auto, unfolding(crate::specs::FetchReplies::reply_form))]
pub(crate) fn reply_form(text: &[u8]) -> ReplyForm<'_>
    ensures { form_in result ≡ reply_form text.now }
{
    if text == b"acknowledgments".as_slice() {
        return ReplyForm::Acknowledgments;
    }
    if text == b"NAK".as_slice() {
        return ReplyForm::Nak;
    }
    if text == b"ready".as_slice() {
        return ReplyForm::Readiness;
    }
    if text == b"packfile".as_slice() {
        return ReplyForm::Packfile;
    }
    ack_or_other(text)
}

fn ack_or_other(text: &[u8]) -> ReplyForm<'_>
    ensures { form_in result ≡ ack_or_other (after_word (codes "ACK ") text.now) }
{
    match after_word(b"ACK ", text) {
        Some(id) => ReplyForm::Ack(id),
        None => ReplyForm::Other,
    }
}
