//! Alternative names for items of this crate.

ghost use Rattle.std.specs.Prelude.{◌≡◌, slice_index_or, false};

use crate::marks::ConnectedMarks;
pub use crate::marks::{ConnectedMarks as FullMarks, mark_connected as mark_full};
use std::alloc::Allocator;

impl<A: Allocator + Copy> ConnectedMarks<A> {
    /// An alias of [`ConnectedMarks::is_marked`].
    pub fn marked(&self, position: usize) -> bool
        ensures { result ≡ slice_index_or self.now position false }
    {
        self.is_marked(position)
    }
}
