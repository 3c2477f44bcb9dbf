//! The encoding and decoding of bytes as hexadecimal digits.

ghost use Rattle.std.specs.Prelude.{◌≡◌, ◌<◌, ◌*◌, ◌/◌, ◌%◌, IsTrue, Ok, Some, length, slice_index};
ghost use Rattle.hex.specs.Hex.{decode_sized, encode_lower, hex_digit_value, lower_digits};

use hex::{FromHex, FromHexError};

// The two digits of each byte value, from `00` to `ff`. The table speeds up writing a ref
// advertisement, which consists mostly of ids.
const DIGIT_PAIRS: &[u8; 512] = b"\
    000102030405060708090a0b0c0d0e0f101112131415161718191a1b1c1d1e1f\
    202122232425262728292a2b2c2d2e2f303132333435363738393a3b3c3d3e3f\
    404142434445464748494a4b4c4d4e4f505152535455565758595a5b5c5d5e5f\
    606162636465666768696a6b6c6d6e6f707172737475767778797a7b7c7d7e7f\
    808182838485868788898a8b8c8d8e8f909192939495969798999a9b9c9d9e9f\
    a0a1a2a3a4a5a6a7a8a9aaabacadaeafb0b1b2b3b4b5b6b7b8b9babbbcbdbebf\
    c0c1c2c3c4c5c6c7c8c9cacbcccdcecfd0d1d2d3d4d5d6d7d8d9dadbdcdddedf\
    e0e1e2e3e4e5e6e7e8e9eaebecedeeeff0f1f2f3f4f5f6f7f8f9fafbfcfdfeff";

// Returns the two hexadecimal digits of a byte, in lower case.
fn digit_pair(byte: u8) -> (u8, u8)
    ensures high { result.0 ≡ slice_index lower_digits (byte / 16) }
    ensures low { result.1 ≡ slice_index lower_digits (byte % 16) }
{
    let pair = 2 * byte as usize;
    (DIGIT_PAIRS[pair], DIGIT_PAIRS[pair + 1])
}

/// Writes the two hexadecimal digits of each byte, in lower case.
pub(crate) fn write_digits(bytes: &[u8], out: &mut [u8])
    requires { length out.old ≡ 2 * length bytes.now }
    ensures { out.new ≡ encode_lower bytes.now }
{
    'bytes: for i in 0..bytes.len() {
        let (high, low) = digit_pair(bytes[i]);
        out[2 * i] = high;
        out[2 * i + 1] = low;
    }
}

// The value of each hexadecimal digit, in upper or lower case, and 255 for every byte that is not a
// digit. A look-up in the table is faster than a branch that is mispredicted at about every third
// digit.
static DIGIT_VALUES: [u8; 256] = [
    255, 255, 255, 255, 255, 255, 255, 255, 255, 255, 255, 255, 255, 255, 255, 255, 255, 255, 255,
    255, 255, 255, 255, 255, 255, 255, 255, 255, 255, 255, 255, 255, 255, 255, 255, 255, 255, 255,
    255, 255, 255, 255, 255, 255, 255, 255, 255, 255, 0, 1, 2, 3, 4, 5, 6, 7, 8, 9, 255, 255, 255,
    255, 255, 255, 255, 10, 11, 12, 13, 14, 15, 255, 255, 255, 255, 255, 255, 255, 255, 255, 255,
    255, 255, 255, 255, 255, 255, 255, 255, 255, 255, 255, 255, 255, 255, 255, 255, 10, 11, 12, 13,
    14, 15, 255, 255, 255, 255, 255, 255, 255, 255, 255, 255, 255, 255, 255, 255, 255, 255, 255,
    255, 255, 255, 255, 255, 255, 255, 255, 255, 255, 255, 255, 255, 255, 255, 255, 255, 255, 255,
    255, 255, 255, 255, 255, 255, 255, 255, 255, 255, 255, 255, 255, 255, 255, 255, 255, 255, 255,
    255, 255, 255, 255, 255, 255, 255, 255, 255, 255, 255, 255, 255, 255, 255, 255, 255, 255, 255,
    255, 255, 255, 255, 255, 255, 255, 255, 255, 255, 255, 255, 255, 255, 255, 255, 255, 255, 255,
    255, 255, 255, 255, 255, 255, 255, 255, 255, 255, 255, 255, 255, 255, 255, 255, 255, 255, 255,
    255, 255, 255, 255, 255, 255, 255, 255, 255, 255, 255, 255, 255, 255, 255, 255, 255, 255, 255,
    255, 255, 255, 255, 255, 255, 255, 255, 255, 255, 255, 255, 255, 255, 255, 255, 255, 255, 255,
    255, 255, 255,
];

// Returns the value of a hexadecimal digit, in upper or lower case, or 255 if the byte is not a
// digit.
fn digit_value(byte: u8) -> u8
    ensures { result < 16 → hex_digit_value byte ≡ Some result }
{
    DIGIT_VALUES[byte as usize]
}

// Decodes two digits for each byte, in upper or lower case. Returns whether all bytes of the text
// are digits.
fn read_digits(text: &[u8], out: &mut [u8]) -> bool
    requires { length text.now ≡ 2 * length out.old }
    ensures { IsTrue result → decode_sized text.now (length out.old) ≡ Ok out.new }
{
    'bytes: for i in 0..text.len() / 2 {
        let high = digit_value(text[2 * i]);
        let low = digit_value(text[2 * i + 1]);
        if high > 15 || low > 15 {
            return false;
        }
        out[i] = high * 16 + low;
    }
    true
}

/// Decodes a text of two hexadecimal digits for each byte, in either case. Returns the same result
/// as the decoder of the `hex` crate.
pub(crate) fn from_digits<const N: usize>(text: &[u8]) -> Result<[u8; N], FromHexError>
    ensures { result ≡ decode_sized text.now N }
{
    let mut bytes = [0u8; N];
    if text.len() % 2 == 0 && text.len() / 2 == N && read_digits(text, &mut bytes) {
        return Ok(bytes);
    }
    FromHex::from_hex(text)
}
