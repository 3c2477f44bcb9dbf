//! CRC-32 (RFC 1952, section 8).

ghost use Rattle.std.specs.Prelude.{◌≡◌, ◌%◌, List, ℕ, [], ◌++◌};
ghost use Rattle.gzlib.specs.Crc.{crc32, next_register, register_after, HasCrcOf};

use crate::crc_tables::{after_1, after_2, after_3, after_4, after_5, after_6, after_7, after_8};

/// The running CRC-32 of bytes that arrive in pieces: call `new`, `update` for each piece, and
/// `sum`.
#[derive(Clone, Copy, Debug)]
pub struct Crc32 {
    register: u32,
}

impl Crc32 {
    /// Returns the state before any byte is added.
    pub fn new() -> Crc32
        ensures { HasCrcOf result [] }
    {
        Crc32 { register: u32::MAX }
    }

    /// Adds these bytes to the checksum.
    pub fn update(&mut self, bytes: &[u8])
        ensures { (m : List ℕ) → HasCrcOf self.old m → HasCrcOf self.new (m ++ bytes.now) }
    {
        let mut register = self.register;
        let mut rest = bytes;
        while let Some((eight, after)) = rest.split_first_chunk::<8>() {
            register = next_eight(register, eight);
            rest = after;
        }
        self.register = next_few(register, rest);
    }

    /// Returns the CRC-32 of all bytes added so far.
    pub fn sum(&self) -> u32
        ensures { (m : List ℕ) → HasCrcOf self.now m → result ≡ crc32 m }
    {
        !self.register
    }
}

// Returns the register after eight more bytes. The first four bytes are combined with the register
// before the tables are used.
fn next_eight(register: u32, bytes: &[u8; 8]) -> u32
    ensures { result ≡ register_after register bytes.now }
{
    let first = after_8(bytes[0] ^ low_byte(register))
        ^ after_7(bytes[1] ^ low_byte(register >> 8))
        ^ after_6(bytes[2] ^ low_byte(register >> 16))
        ^ after_5(bytes[3] ^ low_byte(register >> 24));
    first ^ after_4(bytes[4]) ^ after_3(bytes[5]) ^ after_2(bytes[6]) ^ after_1(bytes[7])
}

// Returns the register after these bytes, which are processed one by one.
fn next_few(register: u32, bytes: &[u8]) -> u32
    ensures { result ≡ register_after register bytes.now }
{
    let mut register = register;
    for byte in bytes {
        register = next_register(register, *byte);
    }
    register
}

// Returns the register after one more byte.
fn next_register(register: u32, byte: u8) -> u32
    ensures { result ≡ next_register register byte }
{
    (register >> 8) ^ after_1(byte ^ low_byte(register))
}

fn low_byte(register: u32) -> u8
    ensures { result ≡ register % 256 }
{
    (register & 0xff) as u8
}

/// Returns the CRC-32 of these bytes.
pub fn crc32_of(bytes: &[u8]) -> u32
    ensures { result ≡ crc32 bytes.now }
{
    let mut crc = Crc32::new();
    crc.update(bytes);
    crc.sum()
}
