//! The packets that end a reply.

/// The packets that end each reply (gitprotocol-v2(5), "Packet-Line Framing").
#[derive(Clone, Copy, Debug, PartialEq, Eq)]
pub enum Ends {
    /// Each reply ends with a flush.
    Plain,
    /// Each reply ends with a flush and a response-end, as on a stateless connection.
    Response,
}
