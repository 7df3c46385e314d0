use std::alloc::{AllocError, Global};

// The largest block that is asked for: 2 ^ 46 bytes. A process of Linux has 2 ^ 47 addresses.
const LARGEST: u32 = 46;

// The least of the blocks that are halved.
const LEAST: u32 = 11;

// How many blocks there may be: 2 ^ 47 bytes in blocks of 2 ^ 30, and some for what is left.
const BLOCKS: usize = 140_000;

/// Blocks that nobody uses. While all memory is in them, each request for memory is refused, but for a growth within the block
/// that is there: the C library gives 24 bytes, or 16 more, and so on.
#[derive(Drop)]
pub struct Hoard {
    blocks: Vec<Vec<u8>>,
}

impl Hoard {
    /// A hoard with nothing in it, and room for the list of its blocks.
    pub fn new(alloc: Global) -> Result<Hoard, AllocError> {
        let blocks = Vec::with_capacity(alloc, BLOCKS)?;
        Ok(Hoard { blocks })
    }

    // Takes blocks of one size until one is refused.
    fn take(&mut self, alloc: Global, size: usize) {
        for _ in self.blocks.len()..BLOCKS {
            let Ok(block) = Vec::with_capacity(alloc, size) else {
                return;
            };
            if self.blocks.push(block).is_err() {
                return;
            }
        }
    }

    /// Takes all memory that there is. It answers whether requests of all sizes are refused now.
    pub fn fill(&mut self, alloc: Global) -> bool {
        for power in (LEAST..=LARGEST).rev() {
            self.take(alloc, 1usize << power);
        }
        // The C library keeps a list of blocks for each of these sizes.
        for count in (1..=128usize).rev() {
            self.take(alloc, 16 * count - 8);
        }
        are_refused(alloc)
    }

    /// Gives all back.
    pub fn empty(&mut self) {
        self.blocks.clear();
    }
}

/// Whether requests of all sizes are refused.
pub fn are_refused(alloc: Global) -> bool {
    for count in 1..=300usize {
        let block: Result<Vec<u8>, AllocError> = Vec::with_capacity(alloc, 8 * count);
        if block.is_ok() {
            return false;
        }
    }
    true
}
