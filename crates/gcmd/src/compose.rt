//! Appending numbers to texts of bounded length, without allocation.

ghost use Rattle.std.specs.Prelude.{◌≡◌, ◌+◌, ◌≤◌, ◌++◌, length};
ghost use Rattle.std.specs.Fmt.{decimal};
ghost use Rattle.gcmd.specs.steps.Printing.{max_decimal};

use arrayvec::ArrayVec;
use ggrammar::compose::add;
use itoa::Buffer;

/// Appends a number, in decimal.
pub(crate) fn add_number<const N: usize>(number: u64, text: &mut ArrayVec<u8, N>)
    requires { length text.old.items + max_decimal ≤ N }
    ensures text { text.new.items ≡ text.old.items ++ decimal number }
    ensures long { length text.new.items ≤ length text.old.items + max_decimal }
{
    let mut digits = Buffer::new();
    add(digits.format(number).as_bytes(), text);
}
