//! The memory in which texts are shaped.
use bumpalo::Bump;
use std::alloc::{AllocError, Allocator, Global};

/// The most bytes that an arena keeps behind a text that was shaped, what some 400,000 glyphs are given.
const MOST_KEPT: usize = 1 << 26;

/// An arena in which texts are shaped, one after the other.
#[derive(Drop)]
pub(crate) struct Workspace<A: Allocator + Copy = Global> {
    arena: Bump<A>,
}

// An arena that nothing borrows may go where its allocator may, and its memory may be freed anywhere (`workspace_send`).
unsafe impl<A: Allocator + Copy + Send> Send for Workspace<A> {}

impl<A: Allocator + Copy> Workspace<A> {
    /// No memory yet.
    pub(crate) fn new(alloc: A) -> Workspace<A> {
        Workspace {
            arena: Bump::new(alloc),
        }
    }

    /// The arena.
    pub(crate) fn arena(&self) -> &Bump<A> {
        &self.arena
    }

    /// Makes so many bytes in a row free.
    pub(crate) fn make_room(&mut self, alloc: A, room: usize) -> Result<(), AllocError> {
        if self.arena.chunk_capacity() >= room {
            return Ok(());
        }
        if self.arena.reset().is_err() || self.arena.chunk_capacity() < room {
            self.arena = Bump::try_with_capacity(alloc, room)?;
        }
        Ok(())
    }

    /// Empties the arena, which keeps the last of its memory.
    pub(crate) fn reset(&mut self) {
        let _kept = self.arena.reset();
    }

    /// Empties the arena. One that took more than so many bytes, in several chunks, has as much in one from now on. Where
    /// memory is wanting the next text asks for it. More than `MOST_KEPT` bytes are given back.
    pub(crate) fn empty(&mut self, alloc: A, room: usize) {
        let used = self.arena.allocated_bytes();
        if used > MOST_KEPT {
            self.arena = Bump::new(alloc);
            return;
        }
        if self.arena.reset().is_ok() && used > room {
            let _kept = self.make_room(alloc, used);
        }
    }
}
