//! The limits on the lists of a request.

ghost use Rattle.std.specs.Prelude.{◌≡◌};
ghost use Rattle.grequest.specs.Asked.{max_haves, max_prefixes, max_wants};

use ggrammar::Limits;

/// The maximum number of prefixes of a request with the default limits.
pub const MAX_PREFIXES: usize = 64;

/// The maximum number of wants of a request with the default limits.
pub const MAX_WANTS: usize = 1_024;

/// The maximum number of haves of a request with the default limits.
pub const MAX_HAVES: usize = 4_096;

// The maximum length of each list of a request, even with higher limits.
const MAX_LISTED: usize = 1_073_741_824;

/// Returns the maximum number of prefixes of a request with these limits.
pub fn max_prefixes(limits: Limits) -> usize
    ensures { result ≡ max_prefixes limits }
{
    limits.prefixes.min(MAX_LISTED)
}

/// Returns the maximum number of wants of a request with these limits.
pub fn max_wants(limits: Limits) -> usize
    ensures { result ≡ max_wants limits }
{
    limits.wants.min(MAX_LISTED)
}

/// Returns the maximum number of haves of a request with these limits.
pub fn max_haves(limits: Limits) -> usize
    ensures { result ≡ max_haves limits }
{
    limits.haves.min(MAX_LISTED)
}
