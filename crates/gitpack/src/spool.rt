//! Spools, which store the bytes of a pack while the pack arrives.

ghost use Rattle.std.specs.Prelude.{◌≡◌, ◌<◌, ◌+◌, ◌++◌, Bool, true, List, ℕ, IsTrue, OnErr, OnOk, length};
ghost use Rattle.gitpack.specs.Packs.{IsPart};
ghost use Rattle.gitpack.specs.declared.spool.SpoolFault.TheVariants.{Memory};

use crate::delta::{Range, part_of};
use std::alloc::{AllocError, AllocFailed, Allocator};
use std::io::ErrorKind;

/// The reason why a spool cannot store or return bytes.
#[derive(Clone, Copy, Debug, PartialEq, Eq, Drop)]
pub enum SpoolFault {
    /// Out of memory.
    Memory,
    /// A system call failed, or the spool has fewer bytes than requested.
    File(ErrorKind),
}

/// A store for the bytes of a pack while the pack arrives. Stored bytes can be read in any order.
pub trait Spool {
    // All appended bytes.
    ghost bytes: { Self → List ℕ };

    // Whether the contract of `read_at` describes the bytes that are read. No contract can describe
    // the contents of a system file.
    ghost is_known: { Bool };

    /// Appends bytes. Fails with `File` if a system call fails, or with `Memory` if out of memory.
    /// After a fault the spool is unchanged.
    fn append(&mut self, piece: &[u8]) -> Result<(), SpoolFault>
        ensures ok { OnOk result (bytes self.new ≡ bytes self.old ++ piece.now) }
        ensures err { OnErr result (bytes self.new ≡ bytes self.old) };

    /// Fills the buffer with the bytes starting at `start`. Fails with `File` if the spool has
    /// too few bytes or a system call fails. After a fault the buffer may hold any bytes.
    fn read_at(&self, start: usize, buffer: &mut [u8]) -> Result<(), SpoolFault>
        ensures ok { OnOk result (IsTrue is_known → IsPart (bytes self.now) start buffer.new) }
        ensures err { OnErr result
            (IsTrue is_known → length (bytes self.now) < start + length buffer.old) };
}

/// A spool in memory. Appending fails only if out of memory.
impl<A: Allocator + Copy> Spool for Vec<u8, A> {
    ghost bytes = { λ spool. spool.items };

    ghost is_known = { true };

    fn append(&mut self, piece: &[u8]) -> Result<(), SpoolFault> {
        self.extend_from_slice(piece)?;
        Ok(())
    }

    fn read_at(&self, start: usize, buffer: &mut [u8]) -> Result<(), SpoolFault> {
        let range = Range {
            offset: start,
            size: buffer.len(),
        };
        match part_of(self.as_slice(), range) {
            Some(part) => {
                buffer.copy_from_slice(part);
                Ok(())
            }
            None => Err(SpoolFault::File(ErrorKind::UnexpectedEof)),
        }
    }
}

impl From<AllocError> for SpoolFault {
    ghost from_gives = { λ _ fault. fault ≡ Memory };

    fn from(_refused: AllocError) -> SpoolFault {
        SpoolFault::Memory
    }
}

impl<T: Drop> From<AllocFailed<T>> for SpoolFault {
    ghost from_gives = { λ _ fault. fault ≡ Memory };

    fn from(_refused: AllocFailed<T>) -> SpoolFault {
        SpoolFault::Memory
    }
}
