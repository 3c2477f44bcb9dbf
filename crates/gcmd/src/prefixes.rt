//! Prefixes of ref names, read from arguments.

ghost use Rattle.std.specs.Prelude.{◌≡◌, ◌++◌, ◌∷◌, [], Err, IfErr, MatchResult, Ok, OnOk, map, string_bytes};
ghost use Rattle.gname.specs.declared.faults.NameFault.TheVariants.{Memory};
ghost use Rattle.gcmd.specs.Prefixes.{ReadsPrefixes};

use crate::fault::ProgramFault;
use gname::{NameFault, Prefix};
use std::alloc::Allocator;

/// Reads each argument as a prefix of ref names (gitprotocol-v2(5), "ls-refs").
///
/// Fails with `Name` if an argument is not a prefix, or if out of memory.
pub fn read_prefixes<A: Allocator + Copy>(
    alloc: A,
    words: &[String<A>],
) -> Result<Vec<Prefix<A>, A>, ProgramFault<A>>
    ensures { MatchResult result (λ prefixes. ReadsPrefixes {A = A} (map string_bytes words.now)
        (Ok prefixes.items)) (λ fault. ReadsPrefixes (map string_bytes words.now) (Err fault)) }
{
    let mut prefixes = Vec::new(alloc);
    for word in words {
        let prefix = Prefix::new(alloc, word.as_bytes())?;
        keep(&mut prefixes, prefix)?;
    }
    Ok(prefixes)
}

// Appends a prefix.
fn keep<A: Allocator + Copy>(
    prefixes: &mut Vec<Prefix<A>, A>,
    prefix: Prefix<A>,
) -> Result<(), NameFault>
    ensures kept { OnOk result (prefixes.new.items ≡ prefixes.old.items ++ prefix ∷ []) }
    ensures fault { IfErr result (λ fault. fault ≡ Memory) }
{
    match prefixes.push(prefix) {
        Ok(()) => Ok(()),
        Err(_) => Err(NameFault::Memory),
    }
}
