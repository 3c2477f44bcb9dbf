//! The parameters of a session's fetch.

ghost use Rattle.std.specs.Prelude.{◌≡◌};
ghost use Rattle.gsession.specs.Sessions.{no_options};

use gfetchreply::StreamLimit;
use ggrammar::{Ends, Limits};
use grefs::Spec;
use std::alloc::{Allocator, Global};

/// The options of a session's requests for packs (gitprotocol-v2(5), "fetch"), with the limits of
/// the session.
#[derive(Clone, Copy, Debug, PartialEq, Eq)]
pub struct PackOptions {
    /// Whether each request for objects has `ofs-delta`, which allows the server to identify the
    /// base of a delta by an offset in the pack.
    pub ofs_delta: bool,
    /// Whether the server may report progress. If false, each request for objects has
    /// `no-progress`.
    pub progress: bool,
    /// The limits on the wants, the haves and the acknowledged ids. Under any limits, a request has
    /// at most 2^30 wants and 2^30 haves. A request for refs has the default limits.
    pub limits: Limits,
    /// The maximum number of new ids in a request. The first request for objects offers at most 16
    /// new ids. This bound doubles with each request for objects, up to the maximum and at most to
    /// 16,384. If the maximum is 0, the first request for objects has no haves, and has `done`.
    pub max_batch: usize,
}

/// The default options. Each request for objects has `no-progress`, and no request has `ofs-delta`.
/// The limits are the default limits. A request offers at most 256 new ids.
impl Default for PackOptions {
    ghost is_default = { λ options. options ≡ no_options };

    fn default() -> PackOptions {
        PackOptions {
            ofs_delta: false,
            progress: false,
            limits: Limits::default(),
            max_batch: 256,
        }
    }
}

/// The parameters of a session's fetch.
#[derive(Clone, Copy)]
pub struct FetchPlan<'a, A: Allocator + Copy = Global> {
    /// The refspecs, at most 16. If several updates would be for the same local ref, the session
    /// requests only the first.
    pub specs: &'a [Spec<A>],
    /// The maximum size of a pack in bytes.
    pub limit: StreamLimit,
    /// Whether a response-end packet follows each reply.
    pub ends: Ends,
    /// The options of requests for packs.
    pub options: PackOptions,
}
