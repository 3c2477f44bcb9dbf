//! The text line of an object, in plain packs and in the text file of a repository.

ghost use Rattle.std.specs.Prelude.{◌≡◌, ◌++◌, ◌∷◌, [], OnOk};
ghost use Rattle.gobject.specs.PlainPackText.{ids_text, letter, line, node_text};

use crate::node::{Kind, Node};
use gname::Oid;
use std::alloc::{AllocError, Allocator};

impl<A: Allocator + Copy> Node<A> {
    /// Appends the line of this object, with the given id, to a text. The line has `c` for a commit
    /// or `t` for a tag, then the id, and then the ids of the parents. A space precedes each id. A
    /// line feed ends the line. Fails only if out of memory.
    pub fn push_line<B: Allocator + Copy>(
        &self,
        id: &Oid,
        text: &mut Vec<u8, B>,
    ) -> Result<(), AllocError>
        ensures { OnOk result (text.new.items ≡ text.old.items
            ++ line (node_text (record { id = id.now; node = self.now }))) }
    {
        text.push(letter_of(self.kind))?;
        push_id(text, id)?;
        push_ids(text, self.parents.as_slice())?;
        text.push(b'\n')?;
        Ok(())
    }
}

// Returns the letter of a kind: `c` for a commit, `t` for a tag.
fn letter_of(kind: Kind) -> u8
    ensures { result ≡ letter kind }
{
    match kind {
        Kind::Commit => b'c',
        Kind::Tag => b't',
    }
}

// Appends a space and an id.
fn push_id<A: Allocator + Copy>(text: &mut Vec<u8, A>, id: &Oid) -> Result<(), AllocError>
    ensures { OnOk result (text.new.items ≡ text.old.items ++ ids_text (id.now ∷ [])) }
{
    text.push(b' ')?;
    id.push_hex(text)
}

// Appends ids, each after a space.
#[tactic(auto, using(crate::proofs::PlainPackWriting::pieces_more))]
fn push_ids<A: Allocator + Copy>(text: &mut Vec<u8, A>, ids: &[Oid]) -> Result<(), AllocError>
    ensures { OnOk result (text.new.items ≡ text.old.items ++ ids_text ids.now) }
{
    for id in ids {
        push_id(text, id)?;
    }
    Ok(())
}
