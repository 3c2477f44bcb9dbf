//! Object ids in messages.

ghost use Rattle.std.specs.Prelude.{◌≡◌};
ghost use Rattle.ggrammar.specs.Ids.{id_of_text};

use gname::laws::texts_have_one_reading;
use gname::{Format, Oid};

/// Parses a text as the hex digits of an id of this format, in upper or lower case. Returns `None`
/// if the text has any other form.
#[tactic(auto, using(crate::proofs::IdLemmas::id_read, crate::proofs::IdLemmas::id_refused))]
pub fn id_of_text(format: Format, text: &[u8]) -> Option<Oid>
    ensures { result ≡ id_of_text format text.now }
{
    // Laws that the proof uses.
    texts_have_one_reading();
    match Oid::from_hex_in(format, text) {
        Ok(id) => Some(id),
        Err(_fault) => None,
    }
}
