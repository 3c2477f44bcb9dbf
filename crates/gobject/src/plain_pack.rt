//! Packs in plain text, with a line for each entry.

mod feed;
mod read;
mod write;

ghost use Rattle.std.specs.Prelude.{◌≡◌};
ghost use Rattle.gobject.specs.PlainPackText.{pack_text, PackRefuses, IsPack, IndexRefuses};
ghost use Rattle.gobject.specs.PlainPackReading.{Fed};

use crate::fault::{IndexFault, PackFault};
use crate::node::Entry;
use crate::pack::{Faithful, Indexer, Packer};
use crate::plain_pack::feed::PlainFeed;
use gname::laws::{id_texts_are_digits, ids_have_texts, texts_spell_one_id};
use std::alloc::Allocator;

/// A packer and indexer of packs in plain text.
///
/// The first line is `GPK1`. Each entry has a line: `c` for a commit or `t` for a tag, the id of
/// the entry, and the ids of the parents. The last line is `end` and the number of entries, in
/// decimal without leading zeros. One space separates the parts of a line, and a line feed ends
/// each line.
///
/// `pack` writes the entries in the given order, with ids in lower case. `pack` fails with
/// `TooLarge` if the text has more than `gname::MAX_PACK` bytes.
///
/// `index` accepts exactly the texts of this form, with ids in upper or lower case, and returns the
/// entries in order. `index` does not check the number of parents, or that ids are distinct.
/// `index` fails with `Bad` at the first line that breaks this form, or at a line after the last
/// line. If the input ends too early, `Bad` states the line at which the input ends: the number of
/// line feeds plus one.
///
/// `pack` and `index` fail with `Memory` if memory runs out. `pack` never fails with `Memory` for a
/// list whose pack is too large. `index` fails with `Memory` only if every line so far was valid,
/// and the id of one more entry was read.
#[derive(Clone, Copy, Debug, PartialEq, Eq, Drop)]
pub struct PlainPack;

impl<A: Allocator + Copy> Packer<A> for PlainPack {
    ghost packs = { λ _ list pack. pack ≡ pack_text list };

    ghost pack_fails = { λ _ list. PackRefuses (pack_text list) };

    fn pack(&self, alloc: A, entries: &[Entry<A>]) -> Result<Vec<u8, A>, PackFault> {
        write::write(alloc, entries)
    }
}

impl<A: Allocator + Copy> Indexer<A> for PlainPack {
    type Feed = PlainFeed<A>;

    ghost indexes = { λ bytes list. IsPack bytes list };

    ghost index_fails = { λ bytes. IndexRefuses A bytes };

    ghost fed = { λ feed bytes. Fed feed bytes };

    fn start(&self, alloc: A) -> Result<PlainFeed<A>, IndexFault> {
        Ok(PlainFeed::new(alloc))
    }

    fn feed(&self, feed: &mut PlainFeed<A>, piece: &[u8]) -> Result<(), IndexFault> {
        feed.feed(piece)
    }

    fn finish(&self, feed: PlainFeed<A>) -> Result<Vec<Entry<A>, A>, IndexFault> {
        feed.finish()
    }
}

impl<A: Allocator + Copy> Faithful<A> for PlainPack {
    ghost image = { λ _ list. pack_text list };

    fn loses_nothing(&self) {
        ids_have_texts();
        id_texts_are_digits();
        texts_spell_one_id();
    }
}
