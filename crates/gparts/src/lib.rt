//! Packers that return a pack in parts, so that no caller has to store a whole pack.
//!
//! # Proved
//!
//! - The parts that a [`PartPacker`] returns, in order, form a pack of the entries. The pack has at
//!   most [`MAX_PARTS`] bytes. A packer fails only with a fault that its `pack_fails` permits.
//! - A [`WholePack`] turns any packer of `gobject` into a [`PartPacker`], with the same packs and
//!   faults. Its packs have at most `gname::MAX_PACK` bytes.
//! - No call panics, overflows or reads out of bounds, and each call returns.
//!
//! # What the contracts do not rule out
//!
//! No contract rules out that a packer is slow, uses more memory than it needs, or returns only one
//! byte per call. No contract rules out that a packer fails after any part, or that the parts
//! before a fault are not the start of a pack.
//!
//! This crate has no tests.
//!
//! # Dependencies
//!
//! `gobject` defines entries, packers and faults.
#![tactic(auto)]

pub mod laws;
mod parts;
mod whole;

pub use crate::parts::{MAX_PARTS, PartPacker};
pub use crate::whole::{WholePack, WholeParts};
