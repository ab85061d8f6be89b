//! A machine whose memory runs out.

use std::alloc::{AllocError, Global};

/// The size of a large block.
const LARGE: usize = 1 << 24;

/// How many large blocks are free where memory is not scarce. Small blocks that the C library keeps
/// lie between them, so far more is free than is wanted at once.
const FREE: usize = 16;

/// All memory that the process can name, but for what is left free.
#[derive(Drop)]
pub struct Scarce {
    kept: Vec<Vec<u8>>,
    /// How many blocks were taken before memory became scarce.
    first: usize,
}

impl Scarce {
    /// Takes all memory but some large blocks of the heap.
    ///
    /// How far the heap can grow, and which gaps there are beside it, is another in each run of a
    /// program. So the heap gives the free blocks before all else is taken. The C library gives a
    /// block from the heap where it is smaller than one that was freed before.
    pub fn new(alloc: Global) -> Result<Scarce, AllocError> {
        let mut kept = Vec::with_capacity(alloc, 200_000)?;
        kept.push(Vec::<u8>::with_capacity(alloc, LARGE + LARGE / 2)?)?;
        drop(kept.pop());
        let mut free = Vec::with_capacity(alloc, FREE)?;
        for _ in 0..FREE {
            free.push(Vec::<u8>::with_capacity(alloc, LARGE)?)?;
        }
        let mut scarce = Scarce { kept, first: 0 };
        scarce.hoard(alloc, 1 << 34, 1);
        scarce.first = scarce.kept.len();
        drop(free);
        Ok(scarce)
    }

    /// Takes blocks of one size until one is refused.
    fn take(&mut self, alloc: Global, size: usize) {
        for _ in 0..100_000u32 {
            let Ok(block) = Vec::<u8>::with_capacity(alloc, size) else {
                return;
            };
            if self.kept.push(block).is_err() {
                return;
            }
        }
    }

    /// Takes blocks of a size until one is refused, then of half the size, and so on down to the
    /// least.
    fn hoard(&mut self, alloc: Global, most: usize, least: usize) {
        let mut size = most;
        for _ in 0..40u8 {
            if size < least {
                return;
            }
            self.take(alloc, size);
            size /= 2;
        }
    }

    /// Leaves one block of `bytes` bytes free and no other, and answers whether there was one.
    ///
    /// The C library keeps freed blocks of at most 1,032 bytes in bins by their sizes. The bins are
    /// emptied too, since such a block serves its own size alone. With 0 nothing is free.
    pub fn leave(&mut self, alloc: Global, bytes: usize) -> bool {
        let Ok(block) = Vec::<u8>::with_capacity(alloc, bytes) else {
            return false;
        };
        self.hoard(alloc, LARGE, 1);
        for bin in 1..66usize {
            self.take(alloc, 16 * bin);
        }
        drop(block);
        true
    }

    /// Gives back what was taken since, so that memory is not scarce.
    pub fn ease(&mut self) {
        for _ in self.first..self.kept.len() {
            drop(self.kept.pop());
        }
    }
}
