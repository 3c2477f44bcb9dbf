//! Errors that a peer reports in place of a packet (gitprotocol-pack(5), "error-line").

ghost use Rattle.std.specs.Prelude.{◌≡◌};
ghost use Rattle.std.specs.Option.{option_copied};
ghost use Rattle.ggrammar.specs.PeerErrors.{after_word, peer_error};

/// Returns the rest of the text after `word`, or `None` if the text does not begin with `word`.
#[tactic(auto, unfolding(crate::specs::PeerErrors::after_word))]
pub fn after_word<'a>(word: &[u8], text: &'a [u8]) -> Option<&'a [u8]>
    ensures { option_copied result ≡ after_word word.now text.now }
{
    if text.starts_with(word) {
        Some(&text[word.len()..])
    } else {
        None
    }
}

/// Returns the error that a peer reports in place of a packet: the payload after `ERR `, including
/// a line feed at its end. Returns `None` if the payload reports no error.
pub fn peer_error(payload: &[u8]) -> Option<&[u8]>
    ensures { option_copied result ≡ peer_error payload.now }
{
    after_word(b"ERR ", payload)
}
