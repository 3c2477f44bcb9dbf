//! The laws of plain packs. Each function does nothing at run time, and its contract states the
//! law. Bytes that are not a plain pack have a bad line: the first line that is malformed or
//! missing.

ghost use Rattle.std.specs.Prelude.{◌≡◌};
ghost use Rattle.gobject.specs.Laws.{BadLinesHaveOnePlace, PacksHaveNoBadLine, PacksHaveOneReading};
ghost use Rattle.gobject.specs.Objects.{max_parents};

use crate::MAX_PARENTS;
use gname::laws::{id_texts_are_digits, texts_spell_one_id};
use std::alloc::Allocator;

/// Proves that [`MAX_PARENTS`] equals `max_parents`, the limit in the specs.
pub fn limits_are_the_constants()
    ensures { MAX_PARENTS ≡ max_parents }
{}

/// Proves that a sequence of bytes is the plain pack of at most one list of entries.
pub fn packs_have_one_reading<A: Allocator + Copy>()
    ensures { PacksHaveOneReading A }
{
    id_texts_are_digits();
    texts_spell_one_id();
}

/// Proves that a plain pack has no bad line.
pub fn packs_have_no_bad_line<A: Allocator + Copy>()
    ensures { PacksHaveNoBadLine A }
{
    id_texts_are_digits();
    texts_spell_one_id();
}

/// Proves that a sequence of bytes has at most one bad line. Therefore an indexer reports the same
/// line however the bytes are split into pieces.
pub fn bad_lines_have_one_place<A: Allocator + Copy>()
    ensures { BadLinesHaveOnePlace A }
{
    id_texts_are_digits();
    texts_spell_one_id();
}
