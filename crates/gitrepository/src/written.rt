//! A list of bytes that only contracts read.

ghost use Rattle.std.specs.Prelude.{◌≡◌, ◌++◌, ℕ, List, []};
ghost use Rattle.std.specs.Borrow.{ftrue};

use std::marker::{Model, PhantomData};

/// The bytes that were written to a file. Only contracts read them, and they take no memory.
#[derive(Drop)]
pub struct Written {
    marker: PhantomData<u8>,
    pub ghost bytes: { List ℕ },
}

impl Model for Written {
    ghost also_owns = { λ _. ftrue };
}

impl Written {
    /// Returns an empty list.
    pub(crate) fn new() -> Written
        ensures { result.bytes ≡ [] }
    {
        Written {
            marker: PhantomData,
        }
    }

    /// Appends bytes to the list.
    pub(crate) fn add(&mut self, _piece: &[u8])
        ensures { self.new.bytes ≡ self.old.bytes ++ _piece.now }
    {}
}
