//! Composing texts of bounded length without allocation.

ghost use Rattle.std.specs.Prelude.{◌≡◌, ◌+◌, ◌≤◌, ◌++◌, length};
ghost use Rattle.gname.specs.Formats.{max_id_text};
ghost use Rattle.gname.specs.Ids.{id_text};

use arrayvec::ArrayVec;
use gname::{MAX_ID_TEXT, Oid};

/// Appends `piece` to a text that has room for it.
pub fn add<const N: usize>(piece: &[u8], text: &mut ArrayVec<u8, N>)
    requires { length text.old.items + length piece.now ≤ N }
    ensures text { text.new.items ≡ text.old.items ++ piece.now }
    ensures long { length text.new.items ≡ length text.old.items + length piece.now }
{
    text.try_extend_from_slice(piece).unwrap()
}

/// Appends the hex digits of an id to a text that has room for any id.
pub fn add_id<const N: usize>(id: &Oid, text: &mut ArrayVec<u8, N>)
    requires { length text.old.items + max_id_text ≤ N }
    ensures text { text.new.items ≡ text.old.items ++ id_text id.now }
    ensures long { length text.new.items ≤ length text.old.items + max_id_text }
{
    let mut digits = [0; MAX_ID_TEXT];
    let count = id.to_hex(&mut digits);
    add(&digits[..count], text);
}
