//! The laws of refs. Each function does nothing at run time, and its contract states the law.

ghost use Rattle.std.specs.Prelude.{◌≡◌};
ghost use Rattle.grefs.specs.Laws.{RefsAreTheirLookUps, RefsComeInOrder};
ghost use Rattle.grefs.specs.RefLists.{max_refs};

use crate::MAX_REFS;

/// Proves that [`MAX_REFS`] equals `max_refs`, the limit in the specs.
pub fn limits_are_the_constants()
    ensures { MAX_REFS ≡ max_refs }
{}

/// Proves that each ref in a valid list of refs could be appended to a list of the refs before it.
/// The name of the ref is below `refs/` and sorts after the earlier names, and there are fewer than
/// [`MAX_REFS`] earlier refs.
#[tactic(auto, using(crate::proofs::RefLemmas::refs_come_in_order))]
pub fn refs_come_in_order()
    ensures { RefsComeInOrder }
{}

/// Proves that two lists of refs are equal if every name has the same id in both lists.
#[tactic(auto, using(crate::proofs::RefLemmas::alike_same))]
pub fn refs_are_their_look_ups()
    ensures { RefsAreTheirLookUps }
{}
