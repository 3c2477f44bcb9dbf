//! Files that a program only reads.

use gcmd::ProgramFault;
use std::alloc::Global;
use std::fs;
use std::rt::Files;

/// Returns the bytes of a file. Every failure, even out of memory, is reported as
/// `ProgramFault::File`.
pub(crate) fn read<R: Files + AllocGlobal>(rt: &R, file: &str) -> Result<Vec<u8>, ProgramFault> {
    match fs::read(rt, file) {
        Ok(bytes) => Ok(bytes),
        Err(_) => Err(ProgramFault::File),
    }
}
