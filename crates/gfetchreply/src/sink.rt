//! Sinks for the pack of a reply.

ghost use Rattle.std.specs.Prelude.{◌≡◌, ◌≢◌, ℕ, Bool, true, List, []};
ghost use Rattle.gfetchreply.specs.PackSinks.{TakesPiece};

use std::alloc::Allocator;

/// A sink that accepts the pack of a fetch reply, in pieces.
pub trait PackSink {
    // Whether the sink has accepted exactly these bytes, in this order.
    ghost taken: { Self → List ℕ → Type 0 };

    // Whether two states are states of the same sink, which means that they differ only in parts
    // that accepting a piece can change.
    ghost same: { Self → Self → Type 0 };

    // Whether sinks of this type can refuse a piece.
    ghost refuses: { Bool };

    /// Accepts the next piece of the pack, which is never empty. Returns `false` if memory runs out
    /// for the piece, and then accepts no byte of the piece. Returns `false` only if `refuses` is
    /// true.
    fn piece(&mut self, bytes: &[u8]) -> bool
        requires not_empty { bytes.now ≢ [] }
        ensures takes { TakesPiece taken refuses self.old self.new bytes.now result }
        ensures same { same self.old self.new };

    /// Proves that `same` is reflexive and transitive.
    fn laws()
        ensures still { (sink : Self) → same sink sink }
        ensures onward { (first : Self) (second : Self) (third : Self) → same first second
            → same second third → same first third };
}

/// A vector appends the pack to its previous bytes. A vector refuses a piece if memory runs out.
impl<A: Allocator + Copy> PackSink for Vec<u8, A> {
    ghost taken = { λ bytes taken. bytes.items ≡ taken };

    ghost same = { λ _ _. Unit {0} };

    ghost refuses = { true };

    fn piece(&mut self, bytes: &[u8]) -> bool {
        self.extend_from_slice(bytes).is_ok()
    }

    fn laws() {}
}
