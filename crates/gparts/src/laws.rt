//! The laws of packs in parts. Each function does nothing at run time, and its contract states the
//! law.

ghost use Rattle.std.specs.Prelude.{◌≡◌};
ghost use Rattle.gparts.specs.Parts.{max_parts};

use crate::parts::MAX_PARTS;

/// Proves that [`MAX_PARTS`](crate::MAX_PARTS) equals `max_parts`, the limit in the specs.
pub fn limits()
    ensures { MAX_PARTS ≡ max_parts }
{}
