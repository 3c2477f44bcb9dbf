//! The names in a pack folder.

ghost use Rattle.std.specs.Prelude.{◌++◌, ◌∷◌, [], ℕ, List, IfOk, MatchOption, OnOk, map, string_bytes};
ghost use Rattle.gitobjects.specs.Listings.{AreListed, AreStems, IsIndexName, IsOtherName};

use crate::fault::Cause;
use crate::parts::cut;
use std::alloc::Allocator;

/// Returns the names of the packs whose index is in the listing `names`. The returned names are
/// sorted and have no extension. The listed names are NUL-terminated.
pub(crate) fn index_stems<A: Allocator + Copy>(
    alloc: A,
    names: &[u8],
) -> Result<Vec<String<A>, A>, Cause>
    ensures { IfOk result (λ stems. AreListed names.now (map string_bytes stems.items)) }
{
    let mut stems = listed_stems(alloc, names)?;
    stems.sort_unstable();
    Ok(stems)
}

// Returns the names of the packs whose index is listed, in listing order.
fn listed_stems<A: Allocator + Copy>(alloc: A, names: &[u8]) -> Result<Vec<String<A>, A>, Cause>
    ensures { IfOk result (λ stems. AreListed names.now (map string_bytes stems.items)) }
{
    let mut stems = Vec::new(alloc);
    let mut rest = names;
    while let Some((name, after)) = cut(0, rest) {
        push_stem(alloc, &mut stems, name)?;
        rest = after;
    }
    Ok(stems)
}

// Adds the name of a pack, if the listed name is the name of a pack index.
fn push_stem<A: Allocator + Copy>(
    alloc: A,
    stems: &mut Vec<String<A>, A>,
    name: &[u8],
) -> Result<(), Cause>
    ensures { OnOk result ((names : List (List ℕ))
        → AreStems names (map string_bytes stems.old.items)
        → AreStems (names ++ name.now ∷ []) (map string_bytes stems.new.items)) }
{
    match stem_of(name) {
        Some(stem) => {
            let stem = String::from_str(alloc, stem)?;
            stems.push(stem)?;
            Ok(())
        }
        None => Ok(()),
    }
}

// Returns the name of a pack index without its extension, or `None` for any other name. Git gives
// its packs only UTF-8 names.
fn stem_of(name: &[u8]) -> Option<&str>
    ensures { MatchOption result (IsOtherName name.now) (λ stem. IsIndexName stem.now name.now) }
{
    let Some(stem) = name.strip_suffix(b".idx") else {
        return None;
    };
    if stem.contains(&b'/') {
        return None;
    }
    match str::from_utf8(stem) {
        Ok(stem) => Some(stem),
        Err(_) => None,
    }
}
