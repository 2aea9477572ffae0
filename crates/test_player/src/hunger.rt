//! Marks for who looks on from outside: between them it refuses every allocation.

use std::alloc::{AllocError, Global};

/// From a block of this size on, every allocation is to be refused.
const STARVE: usize = 777_777;

/// A block of this size ends that.
const FEAST: usize = 888_888;

/// The blocks that mark, kept so that they are asked for.
#[derive(Drop)]
pub struct Hunger {
    alloc: Global,
    marks: Vec<Vec<u8>>,
}

impl Hunger {
    pub fn new(alloc: Global) -> Result<Hunger, AllocError> {
        Ok(Hunger {
            alloc,
            marks: Vec::with_capacity(alloc, 64)?,
        })
    }

    pub fn starve(&mut self) {
        self.mark(STARVE);
    }

    pub fn feast(&mut self) {
        self.mark(FEAST);
    }

    fn mark(&mut self, size: usize) {
        let block: Result<Vec<u8>, AllocError> = Vec::with_capacity(self.alloc, size);
        if let Ok(block) = block {
            let _ = self.marks.push(block);
        }
    }
}
