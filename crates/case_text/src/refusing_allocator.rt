//! An allocator that refuses one chosen allocation, and forwards every other call to an inner
//! allocator.
//!
//! The type is proved to be an allocator: each block is allocated and freed by the inner allocator.
//! Only tests check which allocation is refused.

use std::alloc::{AllocError, Allocator};
use std::cell::Cell;

/// An allocator that counts down at each allocation, and refuses the allocation at which the count
/// reaches zero.
pub struct RefusingAllocator<A: Allocator> {
    inner: A,
    countdown: Cell<u64>,
}

impl<A: Allocator> RefusingAllocator<A> {
    /// Wraps an allocator. No allocation is refused until `refuse_allocation` is called.
    pub fn new(inner: A) -> RefusingAllocator<A> {
        RefusingAllocator {
            inner,
            countdown: Cell::new(0),
        }
    }

    /// Refuses one later allocation: the next if `number` is 1, the second if it is 2, and so on.
    /// No allocation is refused if `number` is 0. A refused call returns [`AllocError`] without a
    /// call to the inner allocator.
    pub fn refuse_allocation(&self, number: u64) {
        self.countdown.set(number);
    }

    /// Returns whether the allocation to refuse is still to come.
    pub fn awaits_refusal(&self) -> bool {
        self.countdown.get() != 0
    }
}

impl<A: Allocator> Drop for RefusingAllocator<A> {
    fn drop(self) {
        let Self {
            inner: _,
            countdown: _,
        } = self;
    }
}

// Counts an allocation, and returns whether to refuse it.
fn count_allocation(countdown: &Cell<u64>) -> bool {
    let left = countdown.get();
    countdown.set(left.saturating_sub(1));
    left == 1
}

unsafe impl<A: Allocator> Allocator for RefusingAllocator<A> {
    ghost dealloc_token = { λ heap ty ptr. A.dealloc_token heap.inner ty ptr };

    fn allocate(&self, size: usize, align: usize) -> Result<*mut u8, AllocError> {
        if count_allocation(&self.countdown) {
            return Err(AllocError);
        }
        self.inner.allocate(size, align)
    }

    unsafe fn deallocate(&self, ptr: *mut u8, size: usize, align: usize) {
        self.inner.deallocate(ptr, size, align);
    }
}
