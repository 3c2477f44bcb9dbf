//! Alternative names for items of this crate.

ghost use Rattle.std.specs.Prelude.{◌≡◌, IfSome, option_map};
ghost use Rattle.std.specs.Option.{option_copied};
ghost use Rattle.grequest.specs.RequestValues.{IsOfFormat};
ghost use Rattle.gsession.specs.Requesting.{HasLimitsFor};
ghost use Rattle.gsession.specs.Sessions.{IsSession};
ghost use Rattle.grequest.specs.RequestValues.{asked_by_request};

use crate::session::Session;
use grequest::Request;
use std::alloc::Allocator;

impl<A: Allocator + Copy> Session<A> {
    /// Another name for [`Session::open_request`].
    pub fn pending(&self) -> Option<&Request<A>>
        ensures pending { option_map asked_by_request (option_copied result) ≡ self.now.pending }
        ensures format { IfSome (option_copied result) (IsOfFormat self.now.format) }
        ensures limits { IfSome (option_copied result) (HasLimitsFor self.now.options.limits) }
        ensures session { IsSession self.now }
    {
        self.open_request()
    }
}
