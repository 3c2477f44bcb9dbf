//! Packers that return a pack in parts.

ghost use Rattle.std.specs.Prelude.{◌<◌, ℕ, List, [], length, MatchResult, Option, Some};
ghost use Rattle.gobject.specs.declared.fault.PackFault.{PackFault};
ghost use Rattle.gobject.specs.declared.node.Entry.{Entry};
ghost use Rattle.gparts.specs.Parts.{Begins, GivesPart};

use gobject::{Entry, PackFault};
use std::alloc::Allocator;

/// The maximum number of bytes of a pack that is returned in parts.
pub const MAX_PARTS: usize = 4_294_967_295;

/// A packer that writes entries as a pack, and returns the pack in parts.
///
/// The relation `packs` states which packs the packer may return for a list of entries, and
/// `pack_fails` states the possible faults. A fault may occur after some parts.
pub trait PartPacker<A: Allocator + Copy> {
    /// The state of a pack that is being returned in parts.
    type Parts: Drop;

    ghost packs: { Self → List (Entry A) → List ℕ → Type 0 };

    ghost pack_fails: { Self → List (Entry A) → PackFault → Type 0 };

    // Whether these bytes may still be returned, followed by this fault, if any.
    ghost gives: { Self → Self.Parts → List ℕ → Option PackFault → Type 0 };

    // The maximum number of bytes that may still be returned.
    ghost most: { Self → Self.Parts → ℕ };

    /// Starts a pack of the entries. The pack has at most [`MAX_PARTS`] bytes, and its memory is
    /// allocated with `alloc`.
    fn begin(&self, alloc: A, entries: &[Entry<A>]) -> Result<Self::Parts, PackFault>
        ensures { MatchResult result
            (λ parts. Begins (packs self.now) (pack_fails self.now) entries.now
            (gives self.now parts) (most self.now parts))
            (pack_fails self.now entries.now) };

    /// Writes the next bytes of the pack into the front of `out`, and returns the number of bytes
    /// written. The result 0 means that the pack is complete. After this result or a fault, the
    /// caller should drop `parts`.
    fn part(&self, parts: &mut Self::Parts, out: &mut [u8]) -> Result<usize, PackFault>
        requires { 0 < length out.old }
        ensures { MatchResult result
            (λ count. GivesPart (gives self.now parts.old) (most self.now parts.old)
            (gives self.now parts.new) (most self.now parts.new) count out.new)
            (λ fault. gives self.now parts.old [] (Some fault)) };
}
