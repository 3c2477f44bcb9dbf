//! The ids that a client offers as haves.

ghost use Rattle.std.specs.Prelude.{◌≡◌, ◌≤◌, ◌++◌, [], All, IfOk, IfErr, List, OnOk, length, not, ◌&&◌, slice_index_or, false};
ghost use Rattle.gname.specs.Ids.{Id};
ghost use Rattle.gdag.specs.Levels.{new_ids};
ghost use Rattle.gdag.specs.Offer.{IsOffer, MayBeOffered};
ghost use Rattle.gdag.specs.declared.fault.GraphFault.TheVariants.{Memory};
ghost use Rattle.gwalk.specs.Offers.{AreOffers, AreReached, IsUnderway};
ghost use Rattle.gwalk.specs.steps.Offers.{GoesOn, HasMarks};

use crate::common::met_of;
use crate::laws::stops_at_marks;
use crate::marks::{either, is_marked};
use crate::walk::{Walk, walk_past};
use gdag::laws::levels_are_distances;
use gdag::{Graph, GraphFault};
use gname::Oid;
use std::alloc::{AllocError, Allocator, Global};

/// Returns the ids to offer as haves to a server that has `commons` (gitprotocol-v2(5), "fetch":
/// `have`). The offer is the first `n` ids of the graph, level by level, that are not in `sent` and
/// that no id of `commons` reaches.
///
/// Level 0 has the tips in order, each once. Each further level has the parents of the previous
/// level in order, each once, without ids of earlier levels. An id that the graph does not contain
/// has no parents. The walk stops as soon as it has `n` ids. Fails only with `Memory`.
pub fn haves<A: Allocator + Copy>(
    graph: &Graph<A>,
    tips: &[Oid],
    commons: &[Oid],
    sent: &[Oid],
    n: usize,
) -> Result<Vec<Oid, A>, GraphFault>
    ensures answer { IfOk result (λ ids.
        IsOffer graph.now.entries tips.now commons.now sent.now n ids.items) }
    ensures fault { IfErr result (λ fault. fault ≡ Memory) }
{
    let mut offers = Offers::new(graph, tips, sent)?;
    let ids = offers.next(graph, commons, n)?;
    Ok(ids)
}

/// A walk from a list of tips that can be resumed, with the number of positions that the walk has
/// visited.
#[derive(Drop)]
pub(crate) struct Tour<A: Allocator + Copy> {
    pub(crate) walk: Walk<A>,
    pub(crate) at: usize,
}

/// The state of offering haves in batches, level by level from a list of tips. Each batch resumes
/// the same walk, so all batches together cost only one walk.
#[derive(Drop)]
pub struct Offers<A: Allocator + Copy = Global> {
    tour: Tour<A>,
    // Marks at the positions of all ids that a common id reaches.
    known: Vec<bool, A>,
    // The number of common ids whose ancestors are marked in `known`.
    marked_commons: usize,
    // The state of a walk that has met exactly the ids that were already offered.
    sent: Walk<A>,
}

impl<A: Allocator + Copy> Offers<A> {
    /// Returns the state before the first batch. The ids in `sent` count as offered, and no id is
    /// common yet.
    ///
    /// Fails only with `Memory`.
    pub fn new(graph: &Graph<A>, tips: &[Oid], sent: &[Oid]) -> Result<Offers<A>, GraphFault>
        ensures offers { IfOk result (AreOffers graph.now.entries tips.now [] sent.now) }
        ensures fault { IfErr result (λ fault. fault ≡ Memory) }
    {
        let mut walk = Walk::new(graph)?;
        walk.meet_all(graph, &[], tips)?;
        let sent = met_of(graph, sent)?;
        Ok(Offers {
            tour: Tour { walk, at: 0 },
            known: Vec::new(graph.allocator()),
            marked_commons: 0,
            sent,
        })
    }

    /// Returns the next batch: the result of [`haves`] for `commons`, where the ids of all earlier
    /// batches count as sent. The list `commons` must begin with the `commons` of the previous
    /// call, and the graph must be unchanged.
    ///
    /// Fails only with `Memory`, and then the `Offers` cannot be used any more.
    pub fn next(
        &mut self,
        graph: &Graph<A>,
        commons: &[Oid],
        n: usize,
    ) -> Result<Vec<Oid, A>, GraphFault>
        requires { (tips first rest sent : List Id) × (commons.now ≡ first ++ rest)
            × AreOffers graph.now.entries tips first sent self.old }
        ensures answer { IfOk result (λ ids. (tips first rest sent : List Id)
            → commons.now ≡ first ++ rest
            → AreOffers graph.now.entries tips first sent self.old
            → IsOffer graph.now.entries tips commons.now sent n ids.items
            × AreOffers graph.now.entries tips commons.now (sent ++ ids.items) self.new) }
        ensures fault { IfErr result (λ fault. fault ≡ Memory) }
    {
        // The proof uses these laws.
        graph.laws();
        self.hear(graph, commons)?;
        let known = self.known.as_slice();
        let sent = self.sent.marks.as_slice();
        let ids = first_untold(graph, &mut self.tour, known, sent, n)?;
        self.sent.meet_all(graph, &[], ids.as_slice())?;
        Ok(ids)
    }

    // Marks every id that the common ids reach. The ancestors of the first `marked_commons` common
    // ids are already marked.
    fn hear(&mut self, graph: &Graph<A>, commons: &[Oid]) -> Result<(), AllocError>
        requires { (tips first rest sent : List Id) × (commons.now ≡ first ++ rest)
            × AreOffers graph.now.entries tips first sent self.old }
        ensures { OnOk result ((tips first rest sent : List Id) → commons.now ≡ first ++ rest
            → AreOffers graph.now.entries tips first sent self.old
            → AreOffers graph.now.entries tips commons.now sent self.new) }
    {
        // The proof uses this law.
        stops_at_marks::<A>();
        if self.marked_commons >= commons.len() {
            return Ok(());
        }
        let walk = walk_past(
            graph,
            self.known.as_slice(),
            &commons[self.marked_commons..],
        )?;
        self.known = either(walk.marks, self.known.as_slice())?;
        self.marked_commons = commons.len();
        Ok(())
    }
}

// Returns whether the position is marked neither as known nor as sent.
fn is_untold(known: &[bool], sent: &[bool], position: usize) -> bool
    ensures { result ≡ (not (slice_index_or known.now position false) &&
        not (slice_index_or sent.now position false)) }
{
    !is_marked(known, position) && !is_marked(sent, position)
}

// Resumes the tour, and returns at most `n` further ids that are marked neither as known nor as
// sent.
fn first_untold<A: Allocator + Copy>(
    graph: &Graph<A>,
    tour: &mut Tour<A>,
    known: &[bool],
    sent: &[bool],
    n: usize,
) -> Result<Vec<Oid, A>, AllocError>
    requires { (tips front back : List Id)
        × IsUnderway graph.now.entries tips front back tour.old.walk.marks.items
        tour.old.walk.met.items tour.old.walk.missing tour.old.walk.parent_count tour.old.at }
    ensures { IfOk result (λ list. (tips front back commons others : List Id)
        → IsUnderway graph.now.entries tips front back tour.old.walk.marks.items
        tour.old.walk.met.items tour.old.walk.missing tour.old.walk.parent_count tour.old.at
        → AreReached graph.now.entries commons known.now
        → HasMarks graph.now.entries others sent.now
        → All (λ a. ¬ (MayBeOffered graph.now.entries commons others a)) front
        → GoesOn graph.now.entries tips commons others n list.items tour.new) }
{
    // The proof uses these laws.
    levels_are_distances::<A>();
    graph.laws();
    let mut list = Vec::new(graph.allocator());
    let mut at = tour.at;
    while at < tour.walk.met.len() {
        if list.len() == n {
            tour.at = at;
            return Ok(list);
        }
        let position = tour.walk.met[at];
        if is_untold(known, sent, position) {
            list.push(*graph.id_at(position))?;
        }
        tour.walk.meet_all(graph, &[], graph.parents(position))?;
        at += 1;
    }
    tour.at = at;
    Ok(list)
}
