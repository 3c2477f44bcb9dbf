//! Alternative names for items of this crate.

pub use crate::fault::PacketFault as LineFault;
pub use crate::packet::Packet as Line;
pub use crate::reading::PacketReader as LineReader;
pub use crate::writing::PacketWriter as LineWriter;
