//! All memory that the system gives.
use std::alloc::Global;

// Blocks of so many bytes are asked for first, and then of half as many.
const GREATEST: usize = 1 << 46;

// How often the size is halved, down to 1,024 bytes; from there on it goes down by so many bytes.
const HALVES: u32 = 36;

const STEP: usize = 16;

// The most blocks.
const MOST: usize = 65_536;

// Blocks that are held, so that nobody else has them.
#[derive(Drop)]
pub(crate) struct Hoard {
    blocks: Vec<Vec<u8>>,
}

impl Hoard {
    // No block.
    pub(crate) fn new(alloc: Global) -> Hoard {
        Hoard {
            blocks: Vec::new(alloc),
        }
    }

    // Takes blocks of each size, the greatest first, until none is given any more.
    pub(crate) fn fill(&mut self, alloc: Global) {
        let Ok(blocks) = Vec::with_capacity(alloc, MOST) else {
            return;
        };
        self.blocks = blocks;
        for half in 0..HALVES {
            self.take_all(alloc, GREATEST >> half);
        }
        for step in 0..1_024 / STEP {
            self.take_all(alloc, 1_024 - step * STEP);
        }
    }

    // Gives all blocks back.
    pub(crate) fn clear(&mut self) {
        self.blocks.clear();
    }

    // Takes blocks of a size until none is given.
    fn take_all(&mut self, alloc: Global, size: usize) {
        for _ in self.blocks.len()..MOST {
            let Ok(block) = Vec::with_capacity(alloc, size) else {
                return;
            };
            if self.blocks.push(block).is_err() {
                return;
            }
        }
    }
}
