//! The end of a program: its printed fault, and its exit status.

ghost use Rattle.std.specs.Prelude.{Err};
ghost use Rattle.gcmd.specs.Outputs.{IsSent};
ghost use Rattle.gcmd.specs.Printing.{fault_line};
ghost use Rattle.gcmd.specs.Programs.{ExitsWith};
ghost use Rattle.gpkt.specs.Streams.{given, SameSink};

use crate::fault::ProgramFault;
use crate::print::FaultLine;
use gpkt::{Down, Sink};
use std::alloc::Allocator;

/// Prints the fault as one line on `errors`, flushes the line, and returns the exit status 1. A
/// failure of `errors` itself is not reported.
pub fn cmd_failed<A: Allocator + Copy, E: Sink>(fault: ProgramFault<A>, errors: &mut E) -> u8
    ensures exits { ExitsWith (Err fault)
        (given E.Sink errors.old errors.new) result }
    ensures loans { SameSink E.Sink errors.old errors.new }
{
    let _ = print_fault(&fault, errors);
    1
}

/// Prints the fault as one line on `errors`, and flushes the line. Fails if the sink fails, after a
/// prefix of the line was printed.
pub fn print_fault<A: Allocator + Copy, E: Sink>(
    fault: &ProgramFault<A>,
    errors: &mut E,
) -> Result<(), Down>
    ensures printed { IsSent (given E.Sink errors.old errors.new)
        result (fault_line fault.now) }
    ensures loans { SameSink E.Sink errors.old errors.new }
{
    FaultLine::of(fault).print(errors)
}

/// Ends a program: prints the fault of `outcome`, if any, and returns the exit status.
pub fn finish<A: Allocator + Copy, E: Sink>(
    outcome: Result<(), ProgramFault<A>>,
    errors: &mut E,
) -> u8
    ensures exits { ExitsWith outcome
        (given E.Sink errors.old errors.new) result }
    ensures loans { SameSink E.Sink errors.old errors.new }
{
    match outcome {
        Ok(()) => 0,
        Err(fault) => cmd_failed(fault, errors),
    }
}
