//! The requests that a session makes.

ghost use Rattle.std.specs.Prelude.{◌≡◌, ◌+◌, ◌<◌, ◌≤◌, ◌++◌, [], All, length, IfOk, OnOk, Some, None};
ghost use Rattle.gname.specs.Ids.{IsIdOf};
ghost use Rattle.ggrammar.specs.declared.fault.Why.TheVariants.{Memory};
ghost use Rattle.grequest.specs.Asked.{Ls, Fetches, max_haves, max_prefixes, max_wants};
ghost use Rattle.ggrammar.specs.Limits.{profile};
ghost use Rattle.grequest.specs.RequestValues.{asked_by_request, ids_format, limits_of};
ghost use Rattle.gdag.specs.Levels.{is_in};
ghost use Rattle.gsession.specs.Requesting.{batch_size, blank_request, ls_request, with_ids};
ghost use Rattle.gsession.specs.Sessions.{max_specs};
ghost use Rattle.gsession.specs.steps.Calls.{with_prefix};

use crate::options::PackOptions;
use ggrammar::MessageFault;
use gname::{Format, Oid, Prefix};
use grefs::Spec;
use grequest::{FetchFlag, FetchRequest, LsRefsFlag, LsRefsRequest, Request};
use std::alloc::{AllocError, Allocator};

/// Returns the maximum number of new ids that a request offers after `rounds` rounds, if no request
/// may offer more than `most`.
pub(crate) fn batch_size(most: usize, rounds: usize) -> usize
    ensures { result ≡ batch_size most rounds }
{
    most.min(16 << rounds.min(10))
}

/// Returns a request for the refs that the refspecs can match. Fails if out of memory.
pub(crate) fn refs_request<A: Allocator + Copy>(
    alloc: A,
    specs: &[Spec<A>],
    unborn: bool,
) -> Result<Request<A>, AllocError>
    requires { length specs.now ≤ max_specs }
    ensures asked { IfOk result (λ request. asked_by_request request
        ≡ Ls (ls_request specs.now unborn)) }
    ensures format { IfOk result (λ request. ids_format request ≡ None) }
    ensures limits { IfOk result (λ request. limits_of request ≡ Some profile) }
{
    let mut request = LsRefsRequest::new(alloc);
    request.set(LsRefsFlag::Unborn, unborn);
    for spec in specs {
        add_prefix(spec.prefix(), &mut request)?;
    }
    Ok(Request::Ls(request))
}

// Adds a prefix of ref names to a request, unless the request already has this prefix.
fn add_prefix<A: Allocator + Copy>(
    prefix: &Prefix<A>,
    request: &mut LsRefsRequest<A>,
) -> Result<(), AllocError>
    requires { length request.old.asked.prefixes < max_prefixes request.old.limits }
    ensures { OnOk result (request.new ≡ record request.old {
      asked = record request.old.asked
          { prefixes = with_prefix request.old.asked.prefixes prefix.now };
    }) }
{
    if has_prefix(request.prefixes(), prefix) {
        return Ok(());
    }
    match request.push_prefix(prefix.as_bytes()) {
        Ok(()) => Ok(()),
        Err(fault) => Err(no_memory(fault)),
    }
}

// Returns whether `prefixes` contains the prefix.
fn has_prefix<A: Allocator + Copy>(prefixes: &[Prefix<A>], prefix: &Prefix<A>) -> bool
    ensures { result ≡ is_in prefixes.now prefix.now }
{
    prefixes
        .iter()
        .any(|other| other.as_bytes() == prefix.as_bytes())
}

/// Returns a request for objects without wants and haves, with the limits of the options. Allocates
/// nothing.
pub(crate) fn blank_request<A: Allocator + Copy>(
    alloc: A,
    format: Format,
    options: PackOptions,
) -> FetchRequest<A>
    ensures { result ≡ record {
      format = format;
      limits = options.limits;
      asked = blank_request options;
    } }
{
    let mut request = FetchRequest::within(alloc, format, options.limits);
    request.set(FetchFlag::NoProgress, !options.progress);
    request.set(FetchFlag::IncludeTag, true);
    request.set(FetchFlag::OfsDelta, options.ofs_delta);
    request
}

/// Adds wants and haves to a request for objects. The haves are the common ids and the ids of the
/// batch. A request with an empty batch has `done`. Fails if out of memory.
pub(crate) fn objects_request<A: Allocator + Copy>(
    blank: FetchRequest<A>,
    wants: &[Oid],
    commons: &[Oid],
    batch: &[Oid],
) -> Result<Request<A>, AllocError>
    requires blank { (blank.asked.wants ≡ []) × (blank.asked.haves ≡ []) }
    requires wants { All (IsIdOf blank.format) wants.now }
    requires few_wants { length wants.now ≤ max_wants blank.limits }
    requires commons { All (IsIdOf blank.format) commons.now }
    requires batch { All (IsIdOf blank.format) batch.now }
    requires room { length commons.now + length batch.now ≤ max_haves blank.limits }
    ensures asked { IfOk result (λ request. asked_by_request request
        ≡ Fetches (with_ids blank.asked wants.now commons.now batch.now)) }
    ensures format { IfOk result (λ request. ids_format request ≡ Some blank.format) }
    ensures limits { IfOk result (λ request. limits_of request ≡ Some blank.limits) }
{
    let mut request = blank;
    request.set(FetchFlag::Done, batch.is_empty());
    add_wants(wants, &mut request)?;
    add_haves(commons, &mut request)?;
    add_haves(batch, &mut request)?;
    Ok(Request::Fetch(request))
}

fn add_wants<A: Allocator + Copy>(
    wants: &[Oid],
    request: &mut FetchRequest<A>,
) -> Result<(), AllocError>
    requires ids { All (IsIdOf request.old.format) wants.now }
    requires room { length request.old.asked.wants + length wants.now ≤ max_wants request.old.limits }
    ensures { OnOk result (request.new ≡ record request.old {
      asked = record request.old.asked { wants = request.old.asked.wants ++ wants.now };
    }) }
{
    for id in wants {
        match request.push_want(*id) {
            Ok(()) => {}
            Err(fault) => return Err(no_memory(fault)),
        }
    }
    Ok(())
}

fn add_haves<A: Allocator + Copy>(
    haves: &[Oid],
    request: &mut FetchRequest<A>,
) -> Result<(), AllocError>
    requires ids { All (IsIdOf request.old.format) haves.now }
    requires room { length request.old.asked.haves + length haves.now ≤ max_haves request.old.limits }
    ensures { OnOk result (request.new ≡ record request.old {
      asked = record request.old.asked { haves = request.old.asked.haves ++ haves.now };
    }) }
{
    for id in haves {
        match request.push_have(*id) {
            Ok(()) => {}
            Err(fault) => return Err(no_memory(fault)),
        }
    }
    Ok(())
}

// Converts the fault of adding an argument to a request into `AllocError`. The request has room for
// the argument, so only out of memory is possible.
fn no_memory(fault: MessageFault) -> AllocError
    requires { fault.why ≡ Memory }
{
    let _ = fault;
    AllocError
}
