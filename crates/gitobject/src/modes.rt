//! The modes of tree entries.

ghost use Rattle.std.specs.Prelude.{◌≡◌, ◌<◌, MatchOption};
ghost use Rattle.std.specs.Char.{digit_value};
ghost use Rattle.std.specs.Str.Parse.{IsNumeral, digits_value};
ghost use Rattle.gitobject.specs.Trees.{file_type, linked_type};

use crate::types::ObjectType;

// The number of values of the lowest sixteen bits of a mode. These bits are the file type and the
// permissions.
const MODE_VALUES: u32 = 0o200000;

// The number of values of the lowest twelve bits of a mode. These bits are the permissions.
const PERMISSIONS: u32 = 0o10000;

// The file type of a directory (inode(7)).
const DIRECTORY: u32 = 0o4;

// The file type of a regular file.
const REGULAR_FILE: u32 = 0o10;

// The file type of a symbolic link.
const SYMBOLIC_LINK: u32 = 0o12;

/// Returns the file type of a mode in octal digits, or `None` if the text is not octal digits.
pub(crate) fn file_type(mode: &[u8]) -> Option<u32>
    ensures { MatchOption result (¬ (IsNumeral 8 mode.now))
        (λ number. IsNumeral 8 mode.now × (number ≡ file_type mode.now)) }
{
    if mode.is_empty() {
        return None;
    }
    let mut number = 0;
    for byte in mode {
        let Some(digit) = octal_digit(*byte) else {
            return None;
        };
        number = (number * 8 + digit) % MODE_VALUES;
    }
    Some(number / PERMISSIONS)
}

// Returns the value of an octal digit, or `None` for any other byte.
fn octal_digit(byte: u8) -> Option<u32>
    ensures { MatchOption result (¬ (digit_value byte < 8))
        (λ digit. (digit ≡ digit_value byte) × (digit < 8)) }
{
    if b'0' <= byte && byte <= b'7' {
        Some(u32::from(byte - b'0'))
    } else {
        None
    }
}

/// Returns the type of the object that an entry of this file type links to, or `None` for a
/// gitlink.
pub(crate) fn linked_type(file_type: u32) -> Option<ObjectType>
    ensures { result ≡ linked_type file_type }
{
    match file_type {
        DIRECTORY => Some(ObjectType::Tree),
        REGULAR_FILE | SYMBOLIC_LINK => Some(ObjectType::Blob),
        _ => None,
    }
}
