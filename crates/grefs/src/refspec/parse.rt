//! Parsing a refspec.

ghost use Rattle.std.specs.Prelude.{◌≡◌, ◌<◌, IfSome, false, length, position, true};
ghost use Rattle.grefs.specs.Refspecs.{IsSpec, Reads};
ghost use Rattle.grefs.specs.steps.Parsing.{HasSides, HasTexts, IsRest, is_colon};

use crate::refspec::fault::SpecFault;
use crate::refspec::side::{is_below_refs, is_name, is_stem};
use crate::refspec::spec::Spec;
use gname::laws::names_are_clean;
use std::alloc::Allocator;

/// Parses the text of a refspec.
pub(crate) fn read_spec<A: Allocator + Copy>(alloc: A, text: &[u8]) -> Result<Spec<A>, SpecFault>
    ensures { Reads (IsSpec text.now) result }
{
    // The proof uses this law.
    names_are_clean();
    match text.strip_prefix(b"+") {
        Some(rest) => read_rest(alloc, true, rest),
        None => read_rest(alloc, false, text),
    }
}

// Parses the text after the optional `+`: the source, a `:`, and the destination.
fn read_rest<A: Allocator + Copy>(alloc: A, forced: bool, text: &[u8]) -> Result<Spec<A>, SpecFault>
    ensures { Reads (IsRest forced text.now) result }
{
    // The proof uses this law.
    names_are_clean();
    match first_colon(text) {
        Some(at) => read_sides(alloc, forced, &text[..at], &text[at + 1..]),
        None => Err(SpecFault::BadSpec),
    }
}

// Returns the position of the first `:`, or `None` if the text has no `:`.
fn first_colon(text: &[u8]) -> Option<usize>
    ensures place { result ≡ position is_colon text.now }
    ensures within { IfSome result (λ at. at < length text.now) }
{
    text.iter().position(|byte| *byte == b':')
}

// Parses the source and the destination. If both end in `*`, both are patterns.
fn read_sides<A: Allocator + Copy>(
    alloc: A,
    forced: bool,
    source: &[u8],
    destination: &[u8],
) -> Result<Spec<A>, SpecFault>
    ensures { Reads (HasTexts forced source.now destination.now) result }
{
    // The proof uses this law.
    names_are_clean();
    match source.strip_suffix(b"*") {
        Some(stem) => match destination.strip_suffix(b"*") {
            Some(other) => patterns(alloc, forced, stem, other),
            None => names(alloc, forced, source, destination),
        },
        None => names(alloc, forced, source, destination),
    }
}

// Returns the refspec with this source and this destination. Fails with `BadSpec` unless both are
// ref names and the destination is below `refs/`.
fn names<A: Allocator + Copy>(
    alloc: A,
    forced: bool,
    source: &[u8],
    destination: &[u8],
) -> Result<Spec<A>, SpecFault>
    ensures { Reads (HasSides forced false source.now destination.now) result }
{
    if is_name(source) && is_below_refs(destination) {
        return Spec::of_sides(alloc, forced, false, source, destination);
    }
    Err(SpecFault::BadSpec)
}

// Returns the pattern refspec with this source and this destination, both given without their `*`.
// Fails with `BadSpec` unless both may precede a `*`.
fn patterns<A: Allocator + Copy>(
    alloc: A,
    forced: bool,
    source: &[u8],
    destination: &[u8],
) -> Result<Spec<A>, SpecFault>
    ensures { Reads (HasSides forced true source.now destination.now) result }
{
    if is_stem(source) && is_stem(destination) {
        return Spec::of_sides(alloc, forced, true, source, destination);
    }
    Err(SpecFault::BadSpec)
}
