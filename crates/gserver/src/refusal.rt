//! The text of a refusal, as a client reads it (gitprotocol-pack(5), "error-line").

ghost use Rattle.std.specs.Prelude.{◌≡◌, ◌≤◌, ◌+◌, ◌++◌, drop, length, take};
ghost use Rattle.ganswer.specs.Faults.{serve_fault_row};
ghost use Rattle.gserver.specs.Refusals.{detail_of, err_text, max_err_text};
ghost use Rattle.gserver.specs.steps.Connections.{max_detail, max_phrase};

use crate::error_text::ErrText;
use arrayvec::ArrayVec;
use ganswer::ServeFault;
use ggrammar::compose::{add, add_id};

/// The maximum length in bytes of a refusal's text.
pub const MAX_ERR_TEXT: usize = 128;

/// Writes the text of a refusal at the start of the buffer, and returns the length of the text. The
/// rest of the buffer is unchanged. Allocates nothing.
pub fn err_text(fault: &ServeFault, out: &mut [u8; MAX_ERR_TEXT]) -> usize
    ensures few { result ≤ max_err_text }
    ensures text { take result out.new ≡ err_text fault.now }
    ensures rest { drop result out.new ≡ drop result out.old }
{
    let text = text_of(fault);
    let len = text.len();
    out[..len].copy_from_slice(text.as_slice());
    len
}

/// Returns the text of a refusal, for an error packet.
pub(crate) fn words_of(fault: &ServeFault) -> ErrText
    ensures { result ≡ err_text fault.now }
{
    let text = text_of(fault);
    let mut words = ErrText::new();
    words.add(text.as_slice());
    words
}

// Returns the text of a refusal.
#[tactic(auto, unfolding(crate::specs::Refusals::err_text))]
fn text_of(fault: &ServeFault) -> ArrayVec<u8, MAX_ERR_TEXT>
    ensures text { result.items ≡ err_text fault.now }
    ensures long { length result.items ≤ max_err_text }
{
    let mut text = ArrayVec::new();
    add(b"upload-pack: ", &mut text);
    add_phrase(fault, &mut text);
    add_detail(fault, &mut text);
    text
}

// Appends the reason for the refusal to the text for the client.
#[tactic(auto, using(crate::proofs::SendingLemmas::phrase_is_short))]
fn add_phrase(fault: &ServeFault, text: &mut ArrayVec<u8, MAX_ERR_TEXT>)
    requires { length text.old.items + max_phrase ≤ max_err_text }
    ensures text { text.new.items ≡ text.old.items ++ (serve_fault_row fault.now).phrase }
    ensures long { length text.new.items ≤ length text.old.items + max_phrase }
{
    add(fault.phrase().as_bytes(), text);
}

// Appends the id of the want if the fault is `NotOurs`.
fn add_detail(fault: &ServeFault, text: &mut ArrayVec<u8, MAX_ERR_TEXT>)
    requires { length text.old.items + max_detail ≤ max_err_text }
    ensures text { text.new.items ≡ text.old.items ++ detail_of fault.now }
    ensures long { length text.new.items ≤ length text.old.items + max_detail }
{
    if let ServeFault::NotOurs { id } = fault {
        add(b" ", text);
        add_id(id, text);
    }
}
