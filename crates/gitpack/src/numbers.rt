//! Numbers in groups of seven bits: sizes, and the offsets of delta bases.

ghost use Rattle.std.specs.Prelude.{◌≡◌, ◌^◌, ◌<◌, ◌≤◌, ◌++◌, ◌∷◌, List, ℕ, MatchOption, length, slice_index};
ghost use Rattle.gitpack.specs.Numbers.{IsNumber, IsOffset, IsSize, high_first, low_first};

// The number of values of a group of seven bits. A byte of at least this value is not the last byte
// of its number.
const GROUP_VALUES: u8 = 128;

// The maximum number of bytes of an encoded size or offset.
const MAX_BYTES: usize = 8;

/// Splits the bytes into the encoded number at their start and the remaining bytes. Returns `None`
/// if the number has more than `most` bytes, or if the bytes end before the number does.
pub(crate) fn split_number(most: usize, bytes: &[u8]) -> Option<(&[u8], &[u8])>
    ensures { MatchOption result
        ((text rest : List ℕ) → IsNumber text → length text ≤ most → ¬ (bytes.now ≡ text ++ rest))
        (λ parts. IsNumber parts.0.now × (length parts.0.now ≤ most)
        × (bytes.now ≡ parts.0.now ++ parts.1.now)) }
{
    let Some(last) = last_place(bytes) else {
        return None;
    };
    if last >= most {
        return None;
    }
    Some(bytes.split_at(last + 1))
}

// Returns the index of the first byte below 128, or `None` if no byte is below 128.
fn last_place(bytes: &[u8]) -> Option<usize>
    ensures { MatchOption result
        ((k : ℕ) → k < length bytes.now → 128 ≤ slice_index bytes.now k)
        (λ place. (place < length bytes.now) × (slice_index bytes.now place < 128)
        × ((k : ℕ) → k < place → 128 ≤ slice_index bytes.now k)) }
{
    for (place, byte) in bytes.iter().enumerate() {
        if *byte < GROUP_VALUES {
            return Some(place);
        }
    }
    None
}

/// Decodes a number whose groups of seven bits are stored lowest first.
pub(crate) fn low_first(bytes: &[u8]) -> usize
    requires { length bytes.now ≤ 8 }
    ensures number { result ≡ low_first bytes.now }
    ensures bound { result < 2 ^ 56 }
{
    let mut number = 0;
    let mut unit = 1;
    for byte in bytes {
        number += usize::from(*byte % GROUP_VALUES) * unit;
        unit *= usize::from(GROUP_VALUES);
    }
    number
}

// Decodes the offset of a delta base, whose groups of seven bits are stored highest first.
fn high_first(first: u8, more: &[u8]) -> usize
    requires { length more.now ≤ 7 }
    ensures { result ≡ high_first (first ∷ more.now) }
{
    let mut number = usize::from(first % GROUP_VALUES);
    for byte in more {
        number = (number + 1) * usize::from(GROUP_VALUES) + usize::from(*byte % GROUP_VALUES);
    }
    number
}

/// Returns the size at the start of the bytes, and the remaining bytes. Returns `None` if the bytes
/// do not begin with a size.
pub(crate) fn split_size(bytes: &[u8]) -> Option<(usize, &[u8])>
    ensures { MatchOption result
        ((size : ℕ) (text rest : List ℕ) → IsSize text size → ¬ (bytes.now ≡ text ++ rest))
        (λ parts. (text : List ℕ) × IsSize text parts.0 × (bytes.now ≡ text ++ parts.1.now)) }
{
    let Some((text, rest)) = split_number(MAX_BYTES, bytes) else {
        return None;
    };
    Some((low_first(text), rest))
}

/// Returns the offset at the start of the bytes, and the remaining bytes. Returns `None` if the
/// bytes do not begin with an offset.
pub(crate) fn split_offset(bytes: &[u8]) -> Option<(usize, &[u8])>
    ensures { MatchOption result
        ((offset : ℕ) (text rest : List ℕ) → IsOffset text offset → ¬ (bytes.now ≡ text ++ rest))
        (λ parts. (text : List ℕ) × IsOffset text parts.0 × (bytes.now ≡ text ++ parts.1.now)) }
{
    let Some((text, rest)) = split_number(MAX_BYTES, bytes) else {
        return None;
    };
    let Some((first, more)) = text.split_first() else {
        return None;
    };
    Some((high_first(*first, more), rest))
}
