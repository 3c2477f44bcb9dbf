//! The laws of refspecs. Each function does nothing at run time, and its contract states the law.

ghost use Rattle.grefs.specs.Refspecs.{OneReading};

use gname::laws::names_are_clean;

/// Proves that a text encodes at most one refspec.
pub fn one_reading()
    ensures { OneReading }
{
    names_are_clean();
}
