//! The updates of local refs that a session requests.

ghost use Rattle.std.specs.Prelude.{◌≡◌, ◌↔◌, ◌∷◌, [], true, All, IfErr, IfOk, IsTrue, Ok, OnOk};
ghost use Rattle.gname.specs.Ids.{IsIdOf};
ghost use Rattle.gname.specs.declared.formats.Format.{Format};
ghost use Rattle.glsreply.specs.WellFormed.{IsRefLine};
ghost use Rattle.gdag.specs.Reach.{IsConnected};
ghost use Rattle.gdag.specs.declared.fault.GraphFault.TheVariants.{Memory};
ghost use Rattle.grefs.specs.Refspecs.{FindsDestination};
ghost use Rattle.gsession.specs.Asking.{AreNamed, AreWants, asks_by, asks_by_all, takes_head, unborn_told};
ghost use Rattle.gsession.specs.steps.Calls.{AddsAsks, FindsAsks};

use gclientrepo::{Ask, Asks, Repo};
use ggraph::graph_laws::{distinct_are_once, positions_are_nodes};
use ggraph::{GraphFault, distinct_ids};
use glsreply::{LsReply, RefLine};
use gname::{Oid, RefName};
use grefs::Spec;
use std::alloc::{AllocError, Allocator};

/// Returns whether the refspecs map every matching ref of the reply to a valid ref name. Allocates
/// nothing.
pub(crate) fn are_named<A: Allocator + Copy>(specs: &[Spec<A>], reply: &LsReply<A>) -> bool
    ensures { IsTrue result ↔ AreNamed {A = A} (asks_by_all specs.now reply.now.lines) }
{
    for spec in specs {
        if !leads_to_names(spec, reply) {
            return false;
        }
    }
    true
}

// Returns whether the refspec maps every matching ref of the reply to a valid ref name.
fn leads_to_names<A: Allocator + Copy>(spec: &Spec<A>, reply: &LsReply<A>) -> bool
    ensures { IsTrue result ↔ AreNamed {A = A} (asks_by spec.now reply.now.lines) }
{
    for place in 0..reply.len() {
        if let Some(line) = reply.at(place) {
            if !spec.can_take(&line.name) {
                return false;
            }
        }
    }
    true
}

/// Returns the ref updates that the refspecs request for the refs of a reply. Fails if out of
/// memory, or if the name of a local ref would be invalid.
pub(crate) fn asked_of<A: Allocator + Copy>(
    alloc: A,
    specs: &[Spec<A>],
    reply: &LsReply<A>,
) -> Result<Asks<A>, AllocError>
    ensures asks { IfOk result (FindsAsks specs.now reply.now.lines) }
    ensures ids { IfOk result (λ asks. (format : Format) → All (IsRefLine format) reply.now.lines
        → All (λ ask. IsIdOf format ask.id) asks) }
{
    let mut asks = Asks::new(alloc);
    for spec in specs {
        add_asks(spec, reply, &mut asks)?;
    }
    Ok(asks)
}

// Adds the ref updates that a refspec requests, in the order of the reply's lines.
fn add_asks<A: Allocator + Copy>(
    spec: &Spec<A>,
    reply: &LsReply<A>,
    asks: &mut Asks<A>,
) -> Result<(), AllocError>
    ensures { OnOk result (AddsAsks asks.old (asks_by spec.now reply.now.lines) asks.new) }
{
    for place in 0..reply.len() {
        if let Some(line) = reply.at(place) {
            ask_of_line(spec, line, asks)?;
        }
    }
    Ok(())
}

// Adds the update that a refspec requests for one line, unless an update of the same local ref is
// already requested.
fn ask_of_line<A: Allocator + Copy>(
    spec: &Spec<A>,
    line: &RefLine<A>,
    asks: &mut Asks<A>,
) -> Result<(), AllocError>
    ensures { OnOk result (AddsAsks asks.old (asks_by spec.now (line.now ∷ [])) asks.new) }
{
    let Some(name) = destination_of(asks.allocator(), spec, &line.name)? else {
        return Ok(());
    };
    let ask = Ask {
        name,
        id: line.id,
        forced: spec.is_forced(),
    };
    asks.add(ask)?;
    Ok(())
}

// Returns the local ref to which the refspec maps this ref, or `None` if the refspec does not match
// this ref. Fails if out of memory, or if the name of the local ref would be invalid.
fn destination_of<A: Allocator + Copy>(
    alloc: A,
    spec: &Spec<A>,
    name: &RefName<A>,
) -> Result<Option<RefName<A>>, AllocError>
    ensures { IfOk result (λ found. FindsDestination spec.now name.now (Ok found)) }
{
    match spec.destination(alloc, name) {
        Ok(found) => Ok(found),
        Err(_) => Err(AllocError),
    }
}

/// Returns each requested id that is not connected, once, in the order of the requested updates.
/// Fails only with `Memory`.
pub(crate) fn wants_of<A: Allocator + Copy>(
    repo: &Repo<A>,
    asks: &Asks<A>,
) -> Result<Vec<Oid, A>, GraphFault>
    ensures wants { IfOk result (λ wants. AreWants repo.now.graph.entries asks.now wants.items) }
    ensures ids { IfOk result (λ wants. (format : Format)
        → All (λ ask. IsIdOf format ask.id) asks.now
        → All (IsIdOf format) wants.items) }
    ensures fault { IfErr result (λ fault. fault ≡ Memory) }
{
    // Laws that the proof uses.
    distinct_are_once();
    let alloc = repo.graph().allocator();
    let asked = asks.ids(alloc)?;
    let ids = distinct_ids(alloc, asked.as_slice())?;
    let mut wants = Vec::new(alloc);
    for id in ids.as_slice() {
        if !is_connected(repo, id)? {
            wants.push(*id)?;
        }
    }
    Ok(wants)
}

// Returns whether the id is connected. Walks the graph only if the repository holds the id and has
// not marked the id as connected.
fn is_connected<A: Allocator + Copy>(repo: &Repo<A>, id: &Oid) -> Result<bool, GraphFault>
    ensures connected { IfOk result (λ connected. IsTrue connected ↔ IsConnected repo.now.graph.entries id.now) }
    ensures fault { IfErr result (λ fault. fault ≡ Memory) }
{
    if !repo.graph().contains(id) {
        return Ok(false);
    }
    if is_known(repo, id) {
        return Ok(true);
    }
    Ok(repo.missing(&[*id])?.is_none())
}

// Returns whether the repository has marked the id as connected.
fn is_known<A: Allocator + Copy>(repo: &Repo<A>, id: &Oid) -> bool
    ensures { result ≡ true → IsConnected repo.now.graph.entries id.now }
{
    // Laws that the proof uses.
    positions_are_nodes::<A>();
    repo.laws();
    match repo.graph().position(id) {
        Some(number) => repo.marks().is_marked(number),
        None => false,
    }
}

/// Returns the target of an unborn HEAD, or `None` if no refspec fetches HEAD or the reply has no
/// unborn HEAD. Fails only if out of memory.
pub(crate) fn unborn_of<A: Allocator + Copy>(
    alloc: A,
    specs: &[Spec<A>],
    reply: &LsReply<A>,
) -> Result<Option<RefName<A>>, AllocError>
    ensures { IfOk result (λ target. target ≡ unborn_told specs.now reply.now.unborn) }
{
    match reply.unborn() {
        Some(target) if takes_head(specs) => Ok(Some(target.copy_in(alloc)?)),
        _ => Ok(None),
    }
}

// Returns whether one of the refspecs fetches HEAD.
fn takes_head<A: Allocator + Copy>(specs: &[Spec<A>]) -> bool
    ensures { result ≡ takes_head specs.now }
{
    specs.iter().any(|spec| spec.is_head())
}
