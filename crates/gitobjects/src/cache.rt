//! A cache of delta bases.

use crate::limits::MAX_KEPT;
use crate::object::Object;
use std::alloc::{AllocError, Allocator};

// The maximum number of cached objects.
const SLOTS: usize = 8_192;

/// The location of a pack entry: the number of its pack, and its offset in the pack.
#[derive(Clone, Copy, Debug, PartialEq, Eq)]
pub(crate) struct Spot {
    pub(crate) pack: usize,
    pub(crate) start: usize,
}

#[derive(Drop)]
struct Kept<A: Allocator + Copy> {
    spot: Spot,
    object: Object<A>,
}

/// The cached objects. Each location has one slot, but several locations can share a slot. A new
/// object replaces the previous object in its slot.
#[derive(Drop)]
pub(crate) struct BaseCache<A: Allocator + Copy> {
    alloc: A,
    slots: Vec<Option<Kept<A>>, A>,
    // The total size of all cached objects.
    bytes: usize,
}

impl<A: Allocator + Copy> BaseCache<A> {
    /// Returns an empty cache.
    pub(crate) fn new(alloc: A) -> Result<BaseCache<A>, AllocError> {
        let slots = empty_slots(alloc)?;
        Ok(BaseCache {
            alloc,
            slots,
            bytes: 0,
        })
    }

    /// Returns the cached object at this location, or `None` if the object is not cached.
    pub(crate) fn get(&self, spot: Spot) -> Option<&Object<A>> {
        match self.slots.get(slot_of(spot)) {
            Some(Some(kept)) if kept.spot == spot => Some(&kept.object),
            _ => None,
        }
    }

    /// Returns whether the object at this location is cached.
    pub(crate) fn holds(&self, spot: Spot) -> bool {
        self.get(spot).is_some()
    }

    /// Caches an object, unless the object alone exceeds the size limit of the cache. If the cache
    /// would exceed this limit, all other objects are removed first.
    pub(crate) fn put(&mut self, spot: Spot, object: Object<A>) -> Result<(), AllocError> {
        let size = object.body.len();
        if size > MAX_KEPT {
            return Ok(());
        }
        if self.bytes.saturating_add(size) > MAX_KEPT {
            self.slots = empty_slots(self.alloc)?;
            self.bytes = 0;
        }
        let slot = slot_of(spot);
        if slot < self.slots.len() {
            let old_size = size_in(&self.slots[slot]);
            self.slots[slot] = Some(Kept { spot, object });
            self.bytes = self.bytes.saturating_add(size).saturating_sub(old_size);
        }
        Ok(())
    }
}

fn size_in<A: Allocator + Copy>(slot: &Option<Kept<A>>) -> usize {
    match slot {
        Some(kept) => kept.object.body.len(),
        None => 0,
    }
}

fn empty_slots<A: Allocator + Copy>(alloc: A) -> Result<Vec<Option<Kept<A>>, A>, AllocError> {
    let mut slots = Vec::with_capacity(alloc, SLOTS)?;
    for _slot in 0..SLOTS {
        slots.push(None)?;
    }
    Ok(slots)
}

// Returns the slot number of a location: a multiplicative hash, based on the golden ratio.
fn slot_of(spot: Spot) -> usize {
    let mixed = spot
        .start
        .wrapping_add(spot.pack.wrapping_mul(7_919))
        .wrapping_mul(0x9e37_79b9_7f4a_7c15);
    (mixed >> 40) % SLOTS
}
