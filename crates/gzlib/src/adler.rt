//! Adler-32, the checksum of a zlib stream (RFC 1950, section 9).

ghost use Rattle.std.specs.Prelude.{◌≡◌, ℕ, ◌≤◌, List, [], ◌++◌, length};
ghost use Rattle.gzlib.specs.Adler.{adler32, HasAdlerOf};

// The largest prime below 65,536.
const BASE: u64 = 65_521;

// The maximum number of bytes that are added before the sums are reduced modulo `BASE`.
const PART: usize = 5_552;

/// The running Adler-32 of bytes that arrive in pieces: call `new`, `update` for each piece, and
/// `sum`.
#[derive(Clone, Copy, Debug)]
pub struct Adler32 {
    low: u32,
    high: u32,
}

impl Adler32 {
    /// Returns the state before any byte is added.
    pub fn new() -> Adler32
        ensures { HasAdlerOf result [] }
    {
        Adler32 { low: 1, high: 0 }
    }

    /// Adds these bytes to the checksum.
    pub fn update(&mut self, bytes: &[u8])
        ensures { (m : List ℕ) → HasAdlerOf self.old m → HasAdlerOf self.new (m ++ bytes.now) }
    {
        let mut rest = bytes;
        while let Some((part, after)) = rest.split_at_checked(PART) {
            self.update_part(part);
            rest = after;
        }
        self.update_part(rest);
    }

    fn update_part(&mut self, bytes: &[u8])
        requires { length bytes.now ≤ 5552 }
        ensures { (m : List ℕ) → HasAdlerOf self.old m → HasAdlerOf self.new (m ++ bytes.now) }
    {
        let mut low = u64::from(self.low);
        let mut high = u64::from(self.high);
        for byte in bytes {
            low += u64::from(*byte);
            high += low;
        }
        self.low = (low % BASE) as u32;
        self.high = (high % BASE) as u32;
    }

    /// Returns the Adler-32 of all bytes added so far.
    pub fn sum(&self) -> u32
        ensures { (m : List ℕ) → HasAdlerOf self.now m → result ≡ adler32 m }
    {
        self.high.wrapping_mul(65_536).wrapping_add(self.low)
    }
}

/// Returns the Adler-32 of these bytes.
pub fn adler32_of(bytes: &[u8]) -> u32
    ensures { result ≡ adler32 bytes.now }
{
    let mut adler = Adler32::new();
    adler.update(bytes);
    adler.sum()
}
