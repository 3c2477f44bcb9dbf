//! The error packets for refused clients.

use gpkt::{PacketWriter, Sink, WriteFault};

/// Writes an error packet (gitprotocol-pack(5), "error-line"), and flushes it.
pub(crate) fn send_error<W: Sink>(text: &[u8], sink: &mut W) -> Result<(), WriteFault> {
    let mut writer = PacketWriter::new(sink);
    let sent = send_text(text, &mut writer);
    let _sink = writer.into_inner();
    sent
}

fn send_text<W: Sink>(text: &[u8], writer: &mut PacketWriter<W>) -> Result<(), WriteFault> {
    writer.text2(b"ERR ", text)?;
    writer.push()
}

/// The error line for a path that does not name a served repository, as in git-daemon(1).
pub(crate) const ACCESS_DENIED: &[u8] = b"access denied or repository not exported: ";

/// The error line for a refused first line: of an older protocol, for another service, or with a
/// path that is too long or not printable ASCII.
pub(crate) const BAD_FIRST_LINE: &[u8] =
    b"upload-pack: bad line: gitrepo serves fetches by protocol version 2 alone (git -c protocol.version=2), at paths of at most 1,000 ASCII characters";

/// The error line for a repository that cannot be opened.
pub(crate) const NOT_OPENED: &[u8] = b"upload-pack: the repository cannot be read";

/// The error line for a repository that cannot be opened because too many others are open.
pub(crate) const BUSY: &[u8] =
    b"upload-pack: the server has too many repositories open: try again later";

/// The error line for a request that exceeds a limit.
pub(crate) const TOO_LARGE_REQUEST: &[u8] =
    b"upload-pack: a request has at most 65,537 wants, 65,536 haves and 1,024 prefixes of ref names (while 64 other clients are connected: 1,024, 4,096 and 64)";

/// The packet for a client that connects while there are too many connections.
pub(crate) const FULL: &[u8] =
    b"004aERR upload-pack: the server has too many connections: try again later\n";

/// The packet for a client that connects while there are too many connections from its address.
pub(crate) const ADDRESS_LIMIT: &[u8] =
    b"0051ERR upload-pack: there are too many connections from your address: try later\n";

/// The error line for a pack that cannot be made.
pub(crate) const PACK_FAILED: &[u8] =
    b"upload-pack: pack failed: it would have 4 GiB or more, or an object is missing or refused here";
