//! An allocator for tests, which refuses growths where a test plans it.
#![tactic(auto)]

use std::alloc::{AllocError, Allocator};
use std::cell::Cell;

/// How many growths are still served, and how many are refused after those.
#[derive(Drop)]
struct Plan {
    served: Cell<u64>,
    refused: Cell<u64>,
}

impl Plan {
    /// Counts a growth, and tells whether it is to be refused.
    fn refuses(&self) -> bool {
        if let Some(fewer) = self.served.get().checked_sub(1) {
            self.served.set(fewer);
            return false;
        }
        match self.refused.get().checked_sub(1) {
            Some(fewer) => {
                self.refused.set(fewer);
                true
            }
            None => false,
        }
    }
}

/// An allocator that serves as many growths as it was told, refuses as many after those, and then serves all.
///
/// It is lent, as `&Refusing<B>`, so that a test can give it another plan while collections hold it. Its methods have
/// no clause of the plan, since no clause can say what a cell holds.
#[derive(Drop)]
pub struct Refusing<B: Allocator> {
    inner: B,
    plan: Plan,
}

impl<B: Allocator> Refusing<B> {
    /// Serves each growth, from the allocator that is given.
    pub fn new(inner: B) -> Refusing<B> {
        Refusing {
            inner,
            plan: Plan {
                served: Cell::new(0),
                refused: Cell::new(0),
            },
        }
    }

    /// From now on serves `served` growths, refuses the `refused` after them, and serves all that follow.
    pub fn plan(&self, served: u64, refused: u64) {
        self.plan.served.set(served);
        self.plan.refused.set(refused);
    }

    /// How many growths it still serves before it refuses one.
    pub fn served_left(&self) -> u64 {
        self.plan.served.get()
    }

    /// How many of the planned refusals are still to come.
    pub fn refused_left(&self) -> u64 {
        self.plan.refused.get()
    }
}

unsafe impl<B: Allocator> Allocator for Refusing<B> {
    ghost dealloc_token = { λ heap ty ptr. B.dealloc_token heap.inner ty ptr };

    fn allocate(&self, size: usize, align: usize) -> Result<*mut u8, AllocError> {
        if self.plan.refuses() {
            return Err(AllocError);
        }
        self.inner.allocate(size, align)
    }

    unsafe fn deallocate(&self, ptr: *mut u8, size: usize, align: usize) {
        self.inner.deallocate(ptr, size, align);
    }
}
