//! The variables of a configuration.

ghost use Rattle.std.specs.Prelude.{◌≡◌, IsTrue, ◌↔◌};

use std::alloc::Allocator;

/// A variable that a configuration sets.
#[derive(Debug, Drop)]
pub struct Setting<A: Allocator + Copy> {
    /// The section name in lower case, followed by a dot and the subsection name if there is one.
    pub section: Vec<u8, A>,
    /// The name of the variable in lower case.
    pub name: Vec<u8, A>,
    /// The value of the variable, or `None` if only the name is given, without `=`.
    pub value: Option<Vec<u8, A>>,
}
