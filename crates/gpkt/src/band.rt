//! Side bands: the first byte of a payload is the number of the band that carries the other bytes.

ghost use Rattle.std.specs.Prelude.{◌≡◌, ◌∷◌};
ghost use Rattle.gpkt.specs.Bands.{band_at, band_form, band_packet, band_payload, band_read};

use crate::fault::BandFault;
use crate::packet::MAX_PAYLOAD;

// The band byte of pack data (gitprotocol-v2(5), "fetch", "packfile").
const DATA: u8 = 1;

// The band byte of progress messages.
const PROGRESS: u8 = 2;

// The band byte of a fatal error.
const FATAL: u8 = 3;

/// The maximum number of bytes that a packet carries on a side band.
pub const MAX_BAND: usize = MAX_PAYLOAD - 1;

/// The payload of a side-band packet, borrowed without its first byte (gitprotocol-pack(5),
/// "Packfile Data"; gitprotocol-v2(5), "fetch", "packfile").
#[derive(Clone, Copy, Debug, PartialEq, Eq)]
pub enum Band<'a> {
    /// Band 1: the next bytes of the pack.
    Data(&'a [u8]),
    /// Band 2: progress to show to the user.
    Progress(&'a [u8]),
    /// Band 3: the reason why the sender aborts. No packet follows.
    Fatal(&'a [u8]),
}

impl<'a> Band<'a> {
    // Returns the band byte, and the bytes of the band.
    pub(crate) fn parts(&self) -> (u8, &'a [u8])
        ensures { result.0 ∷ result.1.now ≡ band_payload (band_packet self.now) }
    {
        match self {
            Band::Data(bytes) => (DATA, bytes),
            Band::Progress(bytes) => (PROGRESS, bytes),
            Band::Fatal(bytes) => (FATAL, bytes),
        }
    }
}

/// Returns the band of a payload: the first byte is the band number, and the other bytes are the
/// bytes of the band.
///
/// Fails with [`NoBand`](BandFault::NoBand) if the payload is empty. Fails with
/// [`BadBand`](BandFault::BadBand) if the first byte of the payload is not 1, 2 or 3.
pub fn band_of(payload: &[u8]) -> Result<Band<'_>, BandFault>
    ensures { band_read result ≡ band_form payload.now }
{
    match payload.split_first() {
        None => Err(BandFault::NoBand),
        Some((&first, bytes)) => band_at(first, bytes),
    }
}

// Returns the band with the number `first` and the given bytes. Fails unless the number is 1, 2 or
// 3.
fn band_at(first: u8, bytes: &[u8]) -> Result<Band<'_>, BandFault>
    ensures { band_read result ≡ band_at first bytes.now }
{
    match first {
        DATA => Ok(Band::Data(bytes)),
        PROGRESS => Ok(Band::Progress(bytes)),
        FATAL => Ok(Band::Fatal(bytes)),
        _ => Err(BandFault::BadBand),
    }
}
