//! A heap that is filled, and of which so much is left.

use linked_list_allocator::LocalHeap;
use std::alloc::{AllocError, Global};
use std::test::Fail;

/// The least block of a heap, in bytes.
const BLOCK: usize = 16;

/// The size of a heap, in bytes.
const HEAP: usize = 1 << 17;

/// The most blocks that a heap has.
pub(crate) const MOST: usize = HEAP / BLOCK;

/// The sizes of what a heap is filled with, in bytes.
const SIZES: [usize; 3] = [1 << 13, 1 << 8, BLOCK];

/// What was taken of a heap. Dropped, it is given back.
#[derive(Drop)]
pub(crate) struct Hoard<'h> {
    blocks: Vec<Vec<u8, &'h LocalHeap>>,
}

/// An empty heap.
pub(crate) fn new_heap(alloc: Global) -> Result<LocalHeap, AllocError> {
    LocalHeap::new(alloc, HEAP)
}

/// Takes pieces of a size, until there is none.
fn take_pieces<'h>(
    heap: &'h LocalHeap,
    blocks: &mut Vec<Vec<u8, &'h LocalHeap>>,
    size: usize,
) -> Result<(), AllocError> {
    for _ in 0..MOST {
        match Vec::<u8, &LocalHeap>::with_capacity(heap, size) {
            Ok(block) => blocks.push(block)?,
            Err(_) => return Ok(()),
        }
    }
    Ok(())
}

impl<'h> Hoard<'h> {
    /// Takes all that is left of a heap but so many blocks, which lie beside one another.
    pub(crate) fn but(alloc: Global, heap: &'h LocalHeap, count: usize) -> Result<Hoard<'h>, Fail> {
        let room = Vec::<u8, &LocalHeap>::with_capacity(heap, count.saturating_mul(BLOCK))?;
        let mut blocks = Vec::new(alloc);
        for size in SIZES {
            take_pieces(heap, &mut blocks, size)?;
        }
        drop(room);
        if heap.free() == count.saturating_mul(BLOCK) {
            Ok(Hoard { blocks })
        } else {
            Err(Fail::new("a heap is not as full as it should be"))
        }
    }

    /// Gives all back, and says whether something was taken.
    pub(crate) fn give_back(self) -> bool {
        !self.blocks.as_slice().is_empty()
    }
}
