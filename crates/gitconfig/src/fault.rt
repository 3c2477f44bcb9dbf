//! The faults of reading a configuration.

ghost use Rattle.std.specs.Prelude.{◌≡◌};
ghost use Rattle.gitconfig.specs.declared.fault.ConfigFault.TheVariants.{Memory};

use std::alloc::{AllocError, AllocFailed};

/// The reason why a configuration cannot be read.
#[derive(Clone, Copy, Debug, PartialEq, Eq)]
pub enum ConfigFault {
    /// The text is not a configuration.
    Malformed,
    /// Out of memory.
    Memory,
}

impl From<AllocError> for ConfigFault {
    ghost from_gives = { λ _ fault. fault ≡ Memory };

    fn from(_refused: AllocError) -> ConfigFault {
        ConfigFault::Memory
    }
}

impl<T: Drop> From<AllocFailed<T>> for ConfigFault {
    ghost from_gives = { λ _ fault. fault ≡ Memory };

    fn from(_refused: AllocFailed<T>) -> ConfigFault {
        ConfigFault::Memory
    }
}
