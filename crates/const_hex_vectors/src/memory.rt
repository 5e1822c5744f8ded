//! Makes each call that takes an allocator, and compares what it returns.
//!
//! A call has to return what it returns with enough memory or, if it may allocate, its out-of-memory error.
//! The program prints each call that does not, and at the end how many calls were out of memory. `run`, in this
//! crate's folder, runs it with failing allocations. The program itself allocates only its [`inputs`], before
//! any call. The calls that do not allocate come first.

mod allocating;
mod expect;
mod inputs;
mod nonallocating;

use crate::memory::inputs::Inputs;
use std::alloc::AllocError;

pub(crate) fn make_calls(rt: &(impl Print + AllocGlobal)) {
    let (alloc, mut failed_allocations) = (rt.alloc(), 0);
    match Inputs::new(alloc) {
        Ok(inputs) => {
            nonallocating::make_calls(rt, alloc, &inputs);
            allocating::make_calls(rt, alloc, &inputs, &mut failed_allocations);
        }
        Err(AllocError) => failed_allocations = 1,
    }
    let _ = println!(rt; "{failed_allocations} out of memory");
}
