//! Aliases for items of this library.

pub use crate::fault::MessageFault as MsgFault;
