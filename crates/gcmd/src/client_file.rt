//! The client's repository, read from its file, and the refspecs, read from arguments.

ghost use Rattle.std.specs.Prelude.{◌≡◌, ◌↔◌, ◌+◌, ◌++◌, ◌∷◌, [], IfErr, IsTrue, MatchResult, OnOk, Ok, Err, length, map, string_bytes};
ghost use Rattle.grefs.specs.declared.refspec.fault.SpecFault.TheVariants.{Memory};
ghost use Rattle.gcmd.specs.Fetching.{OpensClient, ReadsSpecs, no_head};

use crate::fault::ProgramFault;
use gclient::{Repo, Spec, SpecFault};
use ggraph::{Head, LoadFault, Order, Repository, load};
use std::alloc::Allocator;

/// Reads each argument as a refspec (git-fetch(1), "<refspec>").
///
/// Fails with `Spec` if an argument is not a refspec, or if out of memory.
pub fn read_specs<A: Allocator + Copy>(
    alloc: A,
    words: &[String<A>],
) -> Result<Vec<Spec<A>, A>, ProgramFault<A>>
    ensures { MatchResult result (λ specs. ReadsSpecs {A = A} (map string_bytes words.now)
        (Ok specs.items)) (λ fault. ReadsSpecs (map string_bytes words.now) (Err fault)) }
{
    let mut specs = Vec::new(alloc);
    for word in words {
        let spec = Spec::parse(alloc, word.as_bytes())?;
        keep(&mut specs, spec)?;
    }
    Ok(specs)
}

// Appends a refspec.
fn keep<A: Allocator + Copy>(specs: &mut Vec<Spec<A>, A>, spec: Spec<A>) -> Result<(), SpecFault>
    ensures kept { OnOk result (specs.new.items ≡ specs.old.items ++ spec ∷ []) }
    ensures fault { IfErr result (λ fault. fault ≡ Memory) }
{
    match specs.push(spec) {
        Ok(()) => Ok(()),
        Err(_) => Err(SpecFault::Memory),
    }
}

/// Returns the client's repository whose text is `file`. The ids may have either object format.
///
/// Fails with `Text` if the file is not the text of a repository, or has a HEAD. Otherwise fails
/// with `Fetch` if a ref is not connected. Both faults can also mean that memory ran out.
pub fn open_client<A: Allocator + Copy>(alloc: A, file: &[u8]) -> Result<Repo<A>, ProgramFault<A>>
    ensures { OpensClient file.now result }
{
    let repository = load(alloc, file, Order::Any)?;
    if is_none(&repository.head) {
        Ok(Repo::new(repository.graph, repository.refs)?)
    } else {
        let line = line_of_head(&repository);
        Err(ProgramFault::Text(LoadFault::Text { line }))
    }
}

fn is_none<A: Allocator + Copy>(head: &Head<A>) -> bool
    ensures { IsTrue result ↔ (head.now ≡ no_head) }
{
    match head {
        Head::None => true,
        Head::Id(_) | Head::Symref(_) => false,
    }
}

// Returns the line number of HEAD, counted from 1. The first line of the file, a line for each
// object and a line for each ref precede HEAD.
fn line_of_head<A: Allocator + Copy>(repository: &Repository<A>) -> usize
    ensures { result ≡ length repository.now.graph.entries + length repository.now.refs + 2 }
{
    repository.graph.len() + repository.refs.len() + 2
}
