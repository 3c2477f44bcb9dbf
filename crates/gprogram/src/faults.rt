//! Faults that occur before a command starts.

use gcmd::{ProgramFault, cmd_failed};
use gpkt::Sink;

/// Prints the fault on one line, and returns the exit status 1.
pub(crate) fn fail<E: Sink>(fault: ProgramFault, errors: &mut E) -> u8 {
    cmd_failed(fault, errors)
}
