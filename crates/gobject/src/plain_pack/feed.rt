//! Reading a plain pack in pieces.

ghost use Rattle.std.specs.Prelude.{[], ◌++◌, ◌∷◌, ℕ, List, MatchResult};
ghost use Rattle.gobject.specs.PlainPackText.{IsPack, IndexRefuses};
ghost use Rattle.gobject.specs.PlainPackReading.{IsPart, Fed};
ghost use Rattle.gobject.specs.steps.PlainPackReading.{separator_byte, Feeds};

use crate::fault::IndexFault;
use crate::node::Entry;
use crate::plain_pack::read::{Lines, Separator, split_part};
use arrayvec::ArrayVec;
use gname::MAX_ID_TEXT;
use gname::laws::id_texts_are_digits;
use std::alloc::Allocator;
use std::mem;

/// The state of reading a plain pack in pieces: the entries so far, and the bytes of a part that
/// has not ended. A part is the text before a space or line feed.
#[derive(Drop)]
pub struct PlainFeed<A: Allocator + Copy> {
    lines: Lines<A>,
    part: ArrayVec<u8, MAX_ID_TEXT>,
}

impl<A: Allocator + Copy> PlainFeed<A> {
    /// Returns the state before the first piece. The call does not allocate.
    #[tactic(auto, using(crate::proofs::PlainPackFeed::fed_new))]
    pub fn new(alloc: A) -> PlainFeed<A>
        ensures { Fed result [] }
    {
        PlainFeed {
            lines: Lines::new(alloc),
            part: ArrayVec::new(),
        }
    }

    /// Stores the bytes of a part that does not end in the current piece.
    #[tactic(auto, using(crate::proofs::PlainPackFeed::fed_keep, crate::proofs::PlainPackFeed::bad_line_kept))]
    fn keep(&mut self, text: &[u8]) -> Result<(), IndexFault>
        requires { IsPart text.now }
        ensures { Feeds self.old self.new result text.now }
    {
        // The proof uses this law.
        id_texts_are_digits();
        match self.part.try_extend_from_slice(text) {
            Ok(()) => Ok(()),
            Err(_) => Err(self.lines.bad_line()),
        }
    }

    /// Reads the part that consists of the stored bytes and `text`, and ends with the separator.
    fn end_part(&mut self, text: &[u8], separator: Separator) -> Result<(), IndexFault>
        requires { IsPart text.now }
        ensures { Feeds self.old self.new result (text.now ++ separator_byte separator ∷ []) }
    {
        if self.part.is_empty() {
            return self.lines.take_part(text, separator);
        }
        self.keep(text)?;
        let part = mem::replace(&mut self.part, ArrayVec::new());
        self.lines.take_part(part.as_slice(), separator)
    }

    /// Reads the next piece. Fails with `Bad` at the first wrong line, and with `Memory` if an
    /// entry can't be stored. After a failure the feed can't be used further.
    pub fn feed(&mut self, piece: &[u8]) -> Result<(), IndexFault>
        ensures { Feeds self.old self.new result piece.now }
    {
        let mut rest = piece;
        while let Some((text, separator, after)) = split_part(rest) {
            self.end_part(text, separator)?;
            rest = after;
        }
        self.keep(rest)
    }

    /// Returns the entries if a complete pack was fed. Otherwise fails with `Bad`.
    #[tactic(auto, using(crate::proofs::PlainPackFeed::fed_finish))]
    pub fn finish(self) -> Result<Vec<Entry<A>, A>, IndexFault>
        ensures { MatchResult result
            (λ entries. ((given : List ℕ) → Fed self given → IsPack given entries.items))
            (λ fault. ((given : List ℕ) → Fed self given → IndexRefuses A given fault)) }
    {
        let PlainFeed { lines, part } = self;
        lines.finish(part.as_slice())
    }
}
