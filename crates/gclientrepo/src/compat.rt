//! Alternative names for items of this crate.

ghost use Rattle.std.specs.Prelude.{◌≡◌};

pub use crate::fault::RepoFault::{UnconnectedId as NotHeld, UnconnectedRef as UnsafeRef};
use crate::repo::Repo;
use ggraph::ConnectedMarks;
use std::alloc::Allocator;

impl<A: Allocator + Copy> Repo<A> {
    /// Another name for [`Repo::marks`].
    pub fn known(&self) -> &ConnectedMarks<A>
        ensures { result.now ≡ self.now.known }
    {
        self.marks()
    }
}
