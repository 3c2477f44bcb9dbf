//! Proved laws of ref files. Each function does nothing at run time. The contract of each function
//! states a law, which the proof of a caller can use.

ghost use Rattle.gitrefs.specs.PackedTexts.{WrittenRefsReadBack};
ghost use Rattle.gitrefs.specs.Paths.{NamesDescend};

use gname::laws::{
    components_are_parts, ids_have_one_format, ids_have_texts, names_are_clean,
    texts_have_one_reading,
};

/// Proves that parsing a written text of `packed-refs` returns the written refs and peeled ids, if
/// all ids are SHA-1 ids.
pub fn written_refs_read_back()
    ensures { WrittenRefsReadBack }
{
    // Laws that the proof uses.
    ids_have_one_format();
    ids_have_texts();
    names_are_clean();
    texts_have_one_reading();
}

/// Proves that no component of a ref name is empty, `.` or `..`. So the file of a ref is always
/// below the Git directory.
pub fn names_descend()
    ensures { NamesDescend }
{
    // Laws that the proof uses.
    components_are_parts();
}
