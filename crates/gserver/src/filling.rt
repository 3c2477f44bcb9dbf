//! The packets of a pack that the packer returns in parts.

ghost use Rattle.std.specs.Prelude.{◌≡◌, ◌<◌, ◌≤◌, ◌+◌, List, [], ℕ, length, MatchResult, Some};
ghost use Rattle.gpkt.specs.Packets.{max_packet};
ghost use Rattle.gtalk.specs.Talks.{queue_room};
ghost use Rattle.gserver.specs.steps.Filling.{Fills, PutsPart, SaysPiece};

use gobject::PackFault;
use gparts::PartPacker;
use gpkt::MAX_BAND;
use gtalk::Outgoing;
use std::alloc::Allocator;

/// The result of queuing one piece of a pack.
pub(crate) enum Piece {
    /// A piece was queued, and more may follow.
    More,
    /// The last piece was queued, or no piece was left.
    Whole,
    /// The packer failed, and nothing was queued.
    Failed(PackFault),
}

/// Queues the next piece of a pack (gitprotocol-pack(5), "Packfile Data"). Each piece has the
/// maximum size, except that the last may be shorter.
pub(crate) fn say_piece<A: Allocator + Copy, B: Allocator + Copy, K: PartPacker<A>>(
    packer: &K,
    parts: &mut K::Parts,
    out: &mut Outgoing<B>,
) -> Piece
    requires { length out.old + max_packet ≤ queue_room }
    ensures { SaysPiece (K.gives packer.now parts.old) (K.most packer.now parts.old)
        (K.gives packer.now parts.new) (K.most packer.now parts.new) out.old out.new result }
{
    let mut piece = [0; MAX_BAND];
    match fill::<A, K>(packer, parts, &mut piece) {
        Ok(0) => Piece::Whole,
        Ok(count) => {
            out.put(&[1], &piece[..count]);
            if count == MAX_BAND {
                Piece::More
            } else {
                Piece::Whole
            }
        }
        Err(fault) => Piece::Failed(fault),
    }
}

// Fills a buffer with the next bytes of a pack, and returns their number. The buffer is filled
// completely unless the pack ends.
fn fill<A: Allocator + Copy, K: PartPacker<A>>(
    packer: &K,
    parts: &mut K::Parts,
    out: &mut [u8],
) -> Result<usize, PackFault>
    ensures len { length out.new ≡ length out.old }
    ensures filled { MatchResult result
        (λ count. Fills (K.gives packer.now parts.old) (K.most packer.now parts.old)
        (K.gives packer.now parts.new) (K.most packer.now parts.new) count out.new)
        (λ fault. (bytes : List ℕ) × K.gives packer.now parts.old bytes (Some fault)) }
{
    let mut count = 0;
    while count < out.len() {
        let added = put_part::<A, K>(packer, parts, out, count)?;
        if added == 0 {
            return Ok(count);
        }
        count += added;
    }
    Ok(count)
}

// Writes the next part of a pack into a buffer, after the first `from` bytes. Returns the number of
// bytes written.
fn put_part<A: Allocator + Copy, K: PartPacker<A>>(
    packer: &K,
    parts: &mut K::Parts,
    out: &mut [u8],
    from: usize,
) -> Result<usize, PackFault>
    requires { from < length out.old }
    ensures { MatchResult result
        (λ count. PutsPart (K.gives packer.now parts.old) (K.most packer.now parts.old)
        (K.gives packer.now parts.new) (K.most packer.now parts.new) from count out.old out.new)
        (λ fault. K.gives packer.now parts.old [] (Some fault)) }
{
    packer.part(parts, &mut out[from..])
}
