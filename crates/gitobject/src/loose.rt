//! The inflated contents of loose object files.

ghost use Rattle.std.specs.Prelude.{◌≡◌, ◌↔◌, List, ℕ, IsTrue, MatchOption, decimal};
ghost use Rattle.gitobject.specs.Naming.{object_text};
ghost use Rattle.gitobject.specs.declared.types.ObjectType.{ObjectType};

use crate::lines::cut;
use crate::types::ObjectType;
use itoa::Buffer;

/// Returns the type and the bytes of the object with this text, or `None` if the text does not
/// encode an object. The text of an object is its type, a space, the length in decimal without
/// leading zeros, NUL, and exactly that number of bytes.
pub fn split_loose(text: &[u8]) -> Option<(ObjectType, &[u8])>
    ensures { MatchOption result
        ((kind : ObjectType) (body : List ℕ) → ¬ (text.now ≡ object_text kind body))
        (λ parts. text.now ≡ object_text parts.0 parts.1.now) }
{
    let Some((word, after_word)) = cut(b' ', text) else {
        return None;
    };
    let Some(kind) = ObjectType::from_name(word) else {
        return None;
    };
    let Some((digits, body)) = cut(0, after_word) else {
        return None;
    };
    if is_decimal(digits, body.len()) {
        Some((kind, body))
    } else {
        None
    }
}

// Returns whether the digits are `number` in decimal, without leading zeros.
fn is_decimal(digits: &[u8], number: usize) -> bool
    ensures { IsTrue result ↔ (digits.now ≡ decimal number) }
{
    let mut buffer = Buffer::new();
    digits == buffer.format(number).as_bytes()
}
