//! Passes over a graph in which each object was inserted after all its parents. The pass up visits
//! objects in insertion order, and the pass down visits objects in reverse insertion order. A pass
//! visits each object at most once. The pass down ends as soon as it has found all objects to send,
//! so it need not visit the whole history.

mod down;
mod marks;
mod send;
mod tags;
mod up;

pub use self::send::send_list;
pub use self::up::{reaches, ready};
