//! The return of freed memory to the system.
//!
//! The C library returns the end of its heap once nothing there is in use (`M_TRIM_THRESHOLD` of
//! `mallopt`). Freed blocks that it caches for later requests count as in use: seven of each size
//! up to 1,032 bytes. One of them above the many megabytes that the check of a store took holds all
//! of these. No contract speaks of it; `checks.room` measures it.

use std::alloc::{AllocError, Global};

/// The number of sizes of which blocks are cached: from `LEAST` bytes on, in steps of `STEP`.
const SIZES: usize = 64;

const LEAST: usize = 24;

const STEP: usize = 16;

/// More blocks than are cached of a size.
const KEPT: usize = 16;

/// The size of a block whose release has the C library go through its freed blocks.
const LARGE: usize = 100_000;

/// Allocates all cached blocks of a size.
fn blocks(alloc: Global, size: usize) -> Result<Vec<Vec<u8>>, AllocError> {
    let mut blocks = Vec::new(alloc);
    for _ in 0..KEPT {
        blocks.push(Vec::with_capacity(alloc, size)?)?;
    }
    Ok(blocks)
}

/// Takes the cached blocks of each size, and has others cached in their place.
fn exchange(alloc: Global) -> Result<(), AllocError> {
    for step in 0..SIZES {
        let size = LEAST + STEP * step;
        let kept = blocks(alloc, size)?;
        let others = blocks(alloc, size)?;
        drop(others);
        drop(kept);
    }
    drop(Vec::<u8>::with_capacity(alloc, LARGE)?);
    Ok(())
}

/// Returns the end of the heap to the system, as far as nothing there is in use. It stays where
/// memory runs out for that.
pub(crate) fn give_back(alloc: Global) {
    let _ = exchange(alloc);
}
