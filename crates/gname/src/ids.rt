//! Object ids.

ghost use Rattle.std.specs.Prelude.{◌≡◌, ◌≢◌, ℕ, [], ◌∷◌, ◌++◌, List, MatchOption, OnOk, Some, length, take, drop, nat_eq};
ghost use Rattle.std.proofs.Common.{rules};
ghost use Rattle.std.specs.Ordering.{as_partial_cmp};
ghost use Rattle.std.specs.Cmp as Cmp;
ghost use Rattle.std.specs.Cmp.{partial_order_from_own_ties};
ghost use Rattle.std.specs.Cmp.Rules.{comparing, hashing};
ghost use Rattle.std.specs.Cmp.Lexicographic.{pointwise, nat_list_eq_equiv};
ghost use Rattle.gname.specs.declared.formats.Format.{Format};
ghost use Rattle.gname.specs.declared.formats.Format.TheVariants.{Sha1};
ghost use Rattle.gname.specs.Formats.{id_length, id_text_length};
ghost use Rattle.gname.specs.Ids.{IsId, IsIdOf, IsIdText, ReadsId, format_of, id_cmp, id_fault_of, id_text};
ghost use Rattle.gname.specs.Faults.{id_fault_row, id_fault_text};

use crate::digits::{from_digits, write_digits};
use crate::formats::Format;
use hex::FromHexError;
use std::alloc::{AllocError, Allocator};
use std::cmp::Ordering;
use std::error::Error;
use std::fmt;
use std::hash::{Hash, Hasher};
use std::marker::Model;

/// The maximum number of hexadecimal digits of an object id.
pub const MAX_ID_TEXT: usize = 64;

/// An object id: the bytes of an object's SHA-1 or SHA-256 hash. The order of ids is SHA-1 before
/// SHA-256, and then the lexicographic order of the bytes.
#[derive(Clone, Copy, Debug, Drop)]
pub struct Oid {
    digest: Digest,
}

#[derive(Clone, Copy, Debug, Drop)]
enum Digest {
    Sha1([u8; 20]),
    Sha256([u8; 32]),
}

impl Model for Oid {
    ghost use Rattle.std.specs.Prelude.{ℕ, List};
    ghost use Rattle.std.proofs.Common.{ap};
    ghost use Rattle.gname.specs.Digests.{IsDigest, digest_bytes, digest_of, digest_of-bytes};

    ghost Value = { List ℕ };

    ghost view = { λ id. digest_bytes id.digest };

    ghost invariant = { λ id. IsDigest id.digest };

    ghost inverse = { λ bytes. record { digest = digest_of bytes } };

    ghost inverse_ok = { λ id h. ap (λ d. record { digest = d }) (digest_of-bytes id.digest h) };
}

impl Oid {
    /// Parses the 40 hexadecimal digits of a SHA-1 id, in either case, as `from_hex_in` does.
    pub fn from_hex(text: &[u8]) -> Result<Oid, OidFault>
        ensures { ReadsId Sha1 text.now result }
    {
        Oid::from_hex_in(Format::Sha1, text)
    }

    /// Parses the hexadecimal digits of an id, in either case: 40 for SHA-1, and 64 for SHA-256.
    ///
    /// Fails with `Length` if the text has another length. Otherwise fails with `Digit` at the
    /// first byte that is not a hexadecimal digit.
    #[tactic(auto, using(crate::proofs::IdLemmas::id_is_refused))]
    pub fn from_hex_in(format: Format, text: &[u8]) -> Result<Oid, OidFault>
        ensures { ReadsId format text.now result }
    {
        let digest = match format {
            Format::Sha1 => Digest::Sha1(from_digits(text)?),
            Format::Sha256 => Digest::Sha256(from_digits(text)?),
        };
        Ok(Oid { digest })
    }

    /// Returns the id with these bytes: 20 for SHA-1, or 32 for SHA-256. Returns `None` for any
    /// other length.
    pub fn from_bytes(bytes: &[u8]) -> Option<Oid>
        ensures { MatchOption result ((format : Format) → length bytes.now ≢ id_length format)
            (λ id. (id ≡ bytes.now) × IsId id) }
    {
        let digest = match bytes.len() {
            20 => Digest::Sha1(bytes.try_into().ok()?),
            32 => Digest::Sha256(bytes.try_into().ok()?),
            _ => return None,
        };
        Some(Oid { digest })
    }

    /// Writes the digits of the id, in lower case, into the first 40 or 64 bytes of `out`, and
    /// returns the number of digits. The other bytes of `out` are unchanged.
    pub fn to_hex(&self, out: &mut [u8; MAX_ID_TEXT]) -> usize
        ensures number { result ≡ id_text_length (format_of self.now) }
        ensures text { take result out.new ≡ id_text self.now }
        ensures rest { drop result out.new ≡ drop result out.old }
        ensures reads_back { IsIdText (take result out.new) self.now }
        ensures id { IsId self.now }
    {
        let bytes = self.as_bytes();
        let len = 2 * bytes.len();
        write_digits(bytes, &mut out[..len]);
        len
    }

    /// Appends the digits of the id, in lower case, to a text. Fails only if out of memory.
    pub fn push_hex<A: Allocator + Copy>(&self, text: &mut Vec<u8, A>) -> Result<(), AllocError>
        ensures { OnOk result (text.new.items ≡ text.old.items ++ id_text self.now) }
    {
        let mut digits = [0; MAX_ID_TEXT];
        let count = self.to_hex(&mut digits);
        text.extend_from_slice(&digits[..count])
    }

    /// Returns the format of the id.
    pub fn format(&self) -> Format
        ensures format { result ≡ format_of self.now }
        ensures id { IsIdOf result self.now }
    {
        match self.digest {
            Digest::Sha1(_) => Format::Sha1,
            Digest::Sha256(_) => Format::Sha256,
        }
    }

    /// Returns the bytes of the id: 20 for SHA-1, or 32 for SHA-256.
    pub fn as_bytes(&self) -> &[u8]
        ensures bytes { result.now ≡ self.now }
        ensures id { IsId self.now }
    {
        match &self.digest {
            Digest::Sha1(bytes) => bytes,
            Digest::Sha256(bytes) => bytes,
        }
    }

    /// Proves that the id has the number of bytes that its format requires: 20 for SHA-1, or 32 for
    /// SHA-256.
    pub fn laws(&self)
        ensures { IsId self.now }
    {
        let _bytes = self.as_bytes();
    }
}

impl PartialEq for Oid {
    ghost eq = { pointwise nat_eq };

    ghost laws = { Cmp.partial_equiv_from_equiv nat_list_eq_equiv };

    fn eq(&self, other: &Oid) -> bool {
        self.as_bytes() == other.as_bytes()
    }
}

impl Eq for Oid {
    ghost laws = { nat_list_eq_equiv };
}

impl PartialOrd for Oid {
    ghost partial_cmp = { as_partial_cmp id_cmp };

    ghost laws = { partial_order_from_own_ties (Prim.search (comparing, rules)) (Prim.search (comparing, rules)) };

    fn partial_cmp(&self, other: &Oid) -> Option<Ordering> {
        Some(self.cmp(other))
    }
}

impl Ord for Oid {
    ghost cmp = { id_cmp };

    ghost total = { Prim.search (comparing, rules) };

    ghost matches_partial_cmp = { Prim.search (comparing, rules) };

    ghost matches_eq = { Prim.search (comparing, rules) };

    fn cmp(&self, other: &Oid) -> Ordering {
        let lengths = self.as_bytes().len().cmp(&other.as_bytes().len());
        lengths.then_with(|| self.as_bytes().cmp(other.as_bytes()))
    }
}

impl Hash for Oid {
    ghost hash_input = { λ id. id ∷ [] };

    ghost respects_eq = { Prim.search (hashing, rules) };

    fn hash<H: Hasher>(&self, state: &mut H) {
        state.write(self.as_bytes());
    }
}

/// Prints the digits of the id, in lower case.
impl fmt::Display for Oid {
    fn fmt<W: fmt::Write>(&self, f: &mut fmt::Formatter<W>) -> fmt::Result {
        let mut digits = [0; MAX_ID_TEXT];
        let count = self.to_hex(&mut digits);
        f.write_str(str::from_utf8(&digits[..count]).unwrap_or(""))
    }
}

/// The reason why a text is not an object id.
#[derive(Clone, Copy, Debug, PartialEq, Eq, Drop)]
pub enum OidFault {
    /// The length of the text is wrong: not 40 bytes for SHA-1, or not 64 for SHA-256.
    Length,
    /// The byte at this position is the first that is not a hexadecimal digit.
    Digit { at: usize },
}

impl OidFault {
    /// Returns the number of the fault.
    pub fn code(&self) -> u32
        ensures { result ≡ (id_fault_row self.now).0 }
    {
        self.fault_row().0
    }

    /// Returns the name of the fault.
    pub fn name(&self) -> &'static str
        ensures { result.now ≡ (id_fault_row self.now).1 }
    {
        self.fault_row().1
    }

    // Returns the number and the name of the fault.
    fn fault_row(&self) -> (u32, &'static str)
        ensures { (result.0, result.1.now) ≡ id_fault_row self.now }
    {
        match self {
            OidFault::Length => (1, "Length"),
            OidFault::Digit { .. } => (2, "Digit"),
        }
    }
}

impl fmt::Display for OidFault {
    ghost output = { λ fault. Some (id_fault_text fault) };

    fn fmt<W: fmt::Write>(&self, f: &mut fmt::Formatter<W>) -> fmt::Result {
        match self {
            OidFault::Length => {
                f.write_str("an object id has 40 hexadecimal digits, or 64 in SHA-256")
            }
            OidFault::Digit { at } => {
                write!(f, "byte {at} of the object id is no hexadecimal digit")
            }
        }
    }
}

impl Error for OidFault {}

impl From<FromHexError> for OidFault {
    ghost from_gives = { λ e fault. fault ≡ id_fault_of e };

    fn from(e: FromHexError) -> OidFault {
        match e {
            FromHexError::InvalidHexCharacter { index, .. } => OidFault::Digit { at: index },
            _ => OidFault::Length,
        }
    }
}
