//! The text of an error for a client (gitprotocol-pack(5), "error-line").

ghost use Rattle.std.specs.Prelude.{◌≡◌, ◌≤◌, [], ◌++◌, length, take};
ghost use Rattle.gserver.specs.ErrTexts.{max_text};

use arrayvec::ArrayVec;
use std::marker::Model;

// The maximum number of bytes of an error text.
const MAX_TEXT: usize = 512;

/// The text of an error packet, of at most 512 bytes.
#[derive(Drop)]
pub struct ErrText {
    text: ArrayVec<u8, MAX_TEXT>,
}

impl Model for ErrText {
    ghost use Rattle.std.specs.Prelude.{◌≤◌, List, ℕ, length};
    ghost use Rattle.gserver.specs.ErrTexts.{max_text};

    ghost Value = { List ℕ };

    ghost view = { λ it. it.text.items };

    ghost invariant = { λ it. length it.text.items ≤ max_text };
}

impl ErrText {
    /// Returns an empty text.
    pub fn new() -> ErrText
        ensures { result ≡ [] }
    {
        ErrText {
            text: ArrayVec::new(),
        }
    }

    /// Appends the bytes of `words`, or only the first bytes that fit.
    pub fn add(&mut self, words: &[u8])
        ensures { self.new ≡ take max_text (self.old ++ words.now) }
    {
        let room = MAX_TEXT - self.text.len();
        let count = room.min(words.len());
        self.text.try_extend_from_slice(&words[..count]).unwrap();
    }

    /// Returns the bytes of the text.
    pub fn as_bytes(&self) -> &[u8]
        ensures bytes { result.now ≡ self.now }
        ensures few { length self.now ≤ max_text }
    {
        self.text.as_slice()
    }
}
