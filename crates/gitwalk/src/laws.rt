//! Proved laws of the objects that are sent. Each function does nothing at run time. The contract
//! of each function states a law, which the proof of a caller can use.

ghost use Rattle.gitwalk.specs.Laws.{GatheredIsHeld, GatheredIsSent};

use std::alloc::Allocator;

/// Proves that the objects that a packer reads to choose what is sent are those of a store, because
/// the packer checks their ids. The store must be closed, must have each object under its own id,
/// and must have the objects that the listed entries describe. The exception is another object with
/// the same id as an object of the store.
pub fn gathered_is_held<A: Allocator + Copy>()
    ensures { GatheredIsHeld A }
{}

/// Proves that the objects that a packer sends are those that an honest server sends. The store
/// that the packer reads must be closed, and the listed entries must describe its objects. Then
/// each link of a sent object leads to a sent object, or to an object that a left-out parent
/// reaches.
///
/// So a `gcomplete::ClosedStore` that has the left-out parents accepts these objects, with the
/// exceptions of `gcomplete::laws::sent_is_fit`. The objects of the server must be stored under
/// their own ids. Two different texts may have the same SHA-1. The client may also run out of
/// memory.
pub fn gathered_is_sent<A: Allocator + Copy>()
    ensures { GatheredIsSent A }
{}
