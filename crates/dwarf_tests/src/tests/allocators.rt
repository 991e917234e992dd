//! An allocator that refuses one growth.

use std::alloc::{AllocError, Allocator};
use std::cell::Cell;

/// More growths than any of these evaluations needs.
pub(crate) const NEVER: u64 = u64::MAX / 2;

/// Passes each call on to another allocator, but refuses one growth.
#[derive(Drop)]
pub(crate) struct RefusesGrowth<B: Allocator> {
    inner: B,
    // How many growths come before the refused one.
    before: Cell<u64>,
}

impl<B: Allocator> RefusesGrowth<B> {
    /// An allocator that refuses one growth, after this many others.
    pub(crate) fn new(inner: B, before: u64) -> Self {
        RefusesGrowth {
            inner,
            before: Cell::new(before),
        }
    }

    /// How many growths are left before the refused one.
    pub(crate) fn left(&self) -> u64 {
        self.before.get()
    }

    /// Whether a growth was refused, and none was asked for after it.
    pub(crate) fn has_refused_last(&self) -> bool {
        self.before.get() == u64::MAX
    }

    /// Whether a growth was refused.
    pub(crate) fn has_refused(&self) -> bool {
        self.before.get() > NEVER
    }
}

// Whether this growth is the one to refuse.
fn is_due(before: &Cell<u64>) -> bool {
    let growths = before.get();
    before.set(growths.wrapping_sub(1));
    growths == 0
}

unsafe impl<B: Allocator> Allocator for RefusesGrowth<B> {
    ghost dealloc_token = { λ heap ty ptr. B.dealloc_token heap.inner ty ptr };

    fn allocate(&self, size: usize, align: usize) -> Result<*mut u8, AllocError> {
        if is_due(&self.before) {
            return Err(AllocError);
        }
        self.inner.allocate(size, align)
    }

    unsafe fn deallocate(&self, ptr: *mut u8, size: usize, align: usize) {
        self.inner.deallocate(ptr, size, align);
    }
}
