//! Loose ref files.

ghost use Rattle.std.specs.Prelude.{◌≡◌, IfOk, MatchOption, MatchResult};
ghost use Rattle.gname.specs.Names.{IsRefName, Name};
ghost use Rattle.gitrefs.specs.Faults.{IsTextFault};
ghost use Rattle.gitrefs.specs.LooseRefs.{IsLooseRefFile, IsTarget, LooseRefOf};

use crate::fault::TextFault;
use crate::words::{cut_id, cut_word, ends_word, is_blank, skip_blank, strip};
use gname::laws::{names_are_clean, texts_have_one_reading};
use gname::{NameFault, Oid, RefName};
use std::alloc::{Allocator, Global};

/// The value of a loose ref, parsed from its file (gitrepository-layout(5), "refs").
#[derive(Debug, Drop)]
pub enum LooseRef<A: Allocator + Copy = Global> {
    /// The ref points to the object with this id.
    Id(Oid),
    /// The ref is symbolic and points at the ref with this name (git-symbolic-ref(1)).
    Symref(RefName<A>),
}

/// Parses the text of a loose ref file, or of `HEAD`. The text is either forty hexadecimal digits,
/// or `ref:` and a ref name with optional white space around it. The digits may be followed by
/// white space, and then by any bytes.
///
/// Fails with `Malformed` if the text is not a valid ref file. Fails with `Memory` if out of
/// memory.
pub fn parse_loose_ref<A: Allocator + Copy>(alloc: A, text: &[u8]) -> Result<LooseRef<A>, TextFault>
    ensures { MatchResult result (λ value. LooseRefOf text.now value)
        (IsTextFault (IsLooseRefFile text.now)) }
{
    // Laws that the proof uses.
    texts_have_one_reading();
    if let Some(target) = strip(b"ref:", text) {
        return match parse_target(alloc, target) {
            Ok(name) => Ok(LooseRef::Symref(name)),
            Err(fault) => Err(fault),
        };
    }
    let Some(parts) = cut_id(text) else {
        return Err(TextFault::Malformed);
    };
    if ends_word(parts.1) {
        Ok(LooseRef::Id(parts.0))
    } else {
        Err(TextFault::Malformed)
    }
}

// Returns the ref name in a text, without the surrounding white space. Fails with `Malformed` if
// there is no valid ref name, or with `Memory` if out of memory.
fn parse_target<A: Allocator + Copy>(alloc: A, text: &[u8]) -> Result<RefName<A>, TextFault>
    ensures { MatchResult result (λ name. IsTarget text.now name)
        (IsTextFault ((name : Name) × IsTarget text.now name)) }
{
    // Laws that the proof uses.
    names_are_clean();
    let (_, padded) = skip_blank(text);
    let (word, rest) = cut_word(padded);
    if !is_blank(rest) {
        return Err(TextFault::Malformed);
    }
    match name_of(alloc, word) {
        Ok(Some(name)) => Ok(name),
        Ok(None) => Err(TextFault::Malformed),
        Err(_) => Err(TextFault::Memory),
    }
}

/// Returns the ref name with these bytes, or `None` if the bytes are not a ref name. Fails only if
/// out of memory.
pub(crate) fn name_of<A: Allocator + Copy>(
    alloc: A,
    text: &[u8],
) -> Result<Option<RefName<A>>, TextFault>
    ensures { IfOk result (λ found. MatchOption found (¬ (IsRefName text.now))
        (λ name. (name ≡ text.now) × IsRefName text.now)) }
{
    match RefName::new(alloc, text) {
        Ok(name) => Ok(Some(name)),
        Err(NameFault::Memory) => Err(TextFault::Memory),
        Err(_) => Ok(None),
    }
}
