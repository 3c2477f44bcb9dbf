//! Replies that are sent in steps. Each step sends at most one packet.

ghost use Rattle.std.specs.Prelude.{◌≡◌, ◌<◌, ◌≤◌, ◌+◌, [], Bool, List, length, ℕ};
ghost use Rattle.gpkt.specs.Packets.{Packet, max_packet};
ghost use Rattle.gtalk.specs.Talks.{queue_room};
ghost use Rattle.gdialogue.specs.Sides.{SaysSome};
ghost use Rattle.gserver.specs.steps.Stepping.{Advances};

use gdialogue::Said;
use gtalk::Outgoing;
use std::alloc::Allocator;

// The maximum number of steps in one call.
const MAX_STEPS: usize = 1024;

/// A reply that is sent in steps. Each step sends at most one packet.
pub(crate) trait Cursor {
    // Whether these packets may complete the reply. The boolean states whether the dialogue then
    // continues.
    ghost may: { Self → List Packet → Bool → Type 0 };

    // The maximum number of further steps that return `Said::More`.
    ghost steps: { Self → ℕ };

    /// Queues the next packet of the reply, or no packet.
    fn step<B: Allocator + Copy>(&mut self, out: &mut Outgoing<B>) -> Said
        requires { length out.old + max_packet ≤ queue_room }
        ensures { Advances (may self.old) (may self.new) (steps self.old) (steps self.new) out.old
            out.new result };
}

/// Queues packets while there is room for a packet of the maximum size, in at most 1,024 steps.
pub(crate) fn say_some<C: Cursor, B: Allocator + Copy>(
    cursor: &mut C,
    out: &mut Outgoing<B>,
) -> Said
    requires { out.old ≡ [] }
    ensures says { SaysSome C.may cursor.old cursor.new out.new result }
    ensures fewer { result ≡ Said.More → C.steps cursor.new < C.steps cursor.old }
{
    for _steps in 0..MAX_STEPS {
        match cursor.step(out) {
            Said::More => {
                if !out.has_room() {
                    return Said::More;
                }
            }
            Said::Whole => return Said::Whole,
            Said::Last => return Said::Last,
        }
    }
    Said::More
}
