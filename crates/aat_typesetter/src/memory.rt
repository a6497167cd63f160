//! What a typesetter keeps between texts.
use aat_font::Feature;
use aat_shaped_text::{ShapedGlyph, TextGlyph};
use aat_shaper::ShaperMemory;
use std::alloc::{Allocator, Global};

/// The memory of a typesetter without its face. A program that cannot keep a typesetter keeps this instead, and a
/// typesetter that is made of it asks for less. What was typeset before is not seen.
#[derive(Drop)]
pub struct TypesetterMemory<A: Allocator + Copy = Global> {
    pub(crate) global: Global,
    pub(crate) alloc: A,
    pub(crate) shaper: ShaperMemory<A>,
    pub(crate) text: Vec<TextGlyph, A>,
    pub(crate) asked: Vec<Feature, A>,
    pub(crate) glyphs: Vec<ShapedGlyph, A>,
}

impl TypesetterMemory {
    /// No memory yet.
    pub fn new(alloc: Global) -> TypesetterMemory {
        TypesetterMemory::new_in(alloc, alloc)
    }
}

impl<A: Allocator + Copy> TypesetterMemory<A> {
    /// No memory yet: it will be taken from `alloc`, but that for the features of the shaper, from `global`.
    pub fn new_in(global: Global, alloc: A) -> TypesetterMemory<A> {
        TypesetterMemory {
            global,
            alloc,
            shaper: ShaperMemory::new_in(global, alloc),
            text: Vec::new(alloc),
            asked: Vec::new(alloc),
            glyphs: Vec::new(alloc),
        }
    }

    /// Lets go of the memory.
    pub fn let_go(self) {}
}
