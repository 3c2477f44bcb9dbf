//! Finding the pack and the messages in the bytes of a server's reply.

// The payload of the packet that precedes a pack (gitprotocol-v2(5), "fetch"). A server may omit
// the line feed.
const PACKFILE: &[u8] = b"packfile\n";

/// The meaning of a part of a server's reply.
#[derive(Clone, Copy)]
pub(crate) enum Seen<'b> {
    /// Bytes of the pack.
    Pack(&'b [u8]),
    /// Bytes of a message from the server.
    Text(&'b [u8]),
    /// The end of the pack.
    End,
    /// Bytes that are neither pack nor message.
    Nothing,
}

// The current position in a packet.
#[derive(Clone, Copy)]
enum PacketPosition {
    // The parser is among the four length digits of a packet. `count` digits were read, and encode
    // `number`.
    Digits { count: u8, number: u16 },
    // The parser is in a payload. It has read `before` bytes of the payload, and `left` bytes
    // remain.
    Payload { before: u16, left: u16 },
    // The parser found a malformed packet, and ignores all further bytes.
    Lost,
}

/// The side bands of a pack (gitprotocol-pack(5), "Packfile Data").
#[derive(Clone, Copy)]
enum Band {
    Pack,
    Text,
    Other,
}

/// A parser of the packets of a reply, which does not store the packets.
#[derive(Drop)]
pub(crate) struct Packets {
    position: PacketPosition,
    // Whether the payload read so far is a prefix of `PACKFILE`.
    matches_packfile: bool,
    // Whether each payload begins with the number of a side band. Payloads begin with this number
    // between the packet `packfile` and the flush packet.
    has_bands: bool,
    band: Band,
}

const START: PacketPosition = PacketPosition::Digits {
    count: 0,
    number: 0,
};

impl Packets {
    /// Returns a parser at the start of a reply.
    pub(crate) fn new() -> Packets {
        Packets {
            position: START,
            matches_packfile: false,
            has_bands: false,
            band: Band::Other,
        }
    }

    /// Parses a prefix of `bytes`. Returns the length and the meaning of this prefix. The length is
    /// 0 only if `bytes` is empty.
    pub(crate) fn parse<'b>(&mut self, bytes: &'b [u8]) -> (usize, Seen<'b>) {
        let Some((first, _)) = bytes.split_first() else {
            return (0, Seen::Nothing);
        };
        match self.position {
            PacketPosition::Digits { count, number } => (
                1,
                self.parse_digit(*first, count, number),
            ),
            PacketPosition::Payload { before, left } => self.parse_payload(bytes, before, left),
            PacketPosition::Lost => (bytes.len(), Seen::Nothing),
        }
    }

    // Reads a digit of a packet length.
    fn parse_digit<'b>(&mut self, byte: u8, count: u8, number: u16) -> Seen<'b> {
        let Some(digit) = char::from(byte).to_digit(16) else {
            self.position = PacketPosition::Lost;
            return Seen::Nothing;
        };
        let number = (number << 4) | (digit as u16);
        if count < 3 {
            self.position = PacketPosition::Digits {
                count: count + 1,
                number,
            };
            return Seen::Nothing;
        }
        self.begin_packet(number)
    }

    // Begins a packet of `length` bytes, including the four digits.
    fn begin_packet<'b>(&mut self, length: u16) -> Seen<'b> {
        self.matches_packfile = true;
        self.band = Band::Other;
        if length > 4 {
            self.position = PacketPosition::Payload {
                before: 0,
                left: length - 4,
            };
            return Seen::Nothing;
        }
        self.position = START;
        if length == 0 && self.has_bands {
            self.has_bands = false;
            return Seen::End;
        }
        Seen::Nothing
    }

    // Reads bytes of a payload.
    fn parse_payload<'b>(&mut self, bytes: &'b [u8], before: u16, left: u16) -> (usize, Seen<'b>) {
        if self.has_bands && before == 0 {
            self.band = band_of(bytes);
            self.skip(0, left, 1);
            return (1, Seen::Nothing);
        }
        let count = bytes.len().min(left as usize);
        let seen = &bytes[..count];
        if !self.has_bands {
            self.compare(seen, before);
        }
        self.skip(before, left, count as u16);
        (count, self.show_packet(seen))
    }

    // Moves past `count` bytes of a payload.
    fn skip(&mut self, before: u16, left: u16, count: u16) {
        if count < left {
            self.position = PacketPosition::Payload {
                before: before.saturating_add(count),
                left: left - count,
            };
            return;
        }
        self.position = START;
        if !self.has_bands && self.matches_packfile && before.saturating_add(count) >= 8 {
            self.has_bands = true;
        }
    }

    // Clears `matches_packfile` if bytes of a payload differ from `PACKFILE` at offset `before`.
    fn compare(&mut self, bytes: &[u8], before: u16) {
        let rest = PACKFILE.get(before as usize..).unwrap_or(&[]);
        if !rest.starts_with(bytes) {
            self.matches_packfile = false;
        }
    }

    fn show_packet<'b>(&self, bytes: &'b [u8]) -> Seen<'b> {
        match self.band {
            Band::Pack => Seen::Pack(bytes),
            Band::Text => Seen::Text(bytes),
            Band::Other => Seen::Nothing,
        }
    }
}

// Returns the side band that the first byte names.
fn band_of(bytes: &[u8]) -> Band {
    match bytes.first() {
        Some(1) => Band::Pack,
        Some(2) => Band::Text,
        _ => Band::Other,
    }
}
