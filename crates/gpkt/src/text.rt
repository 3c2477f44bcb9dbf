//! The text of a payload.

ghost use Rattle.std.specs.Prelude.{◌≡◌};
ghost use Rattle.gpkt.specs.Packets.{text};

/// Returns the payload without its final line feed, if it has one (gitprotocol-common(5), "pkt-line
/// Format").
///
/// Only one line feed is removed: the text of `a\n\n` is `a\n`.
pub fn text_of(payload: &[u8]) -> &[u8]
    ensures { result.now ≡ text payload.now }
{
    let len = payload.len();
    if len > 0 && payload[len - 1] == b'\n' {
        &payload[..len - 1]
    } else {
        payload
    }
}
