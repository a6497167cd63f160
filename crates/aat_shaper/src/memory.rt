//! What a shaper keeps between texts.
use crate::workspace::Workspace;
use aat_layout::font::Feature;
use aat_shaped_text::ShapedGlyph;
use std::alloc::{Allocator, Global};

/// The memory of a shaper without its font. A program that cannot keep a shaper keeps this instead, and a shaper that is
/// made of it asks for less. What was shaped before is not seen.
#[derive(Drop)]
pub struct ShaperMemory<A: Allocator + Copy = Global> {
    pub(crate) alloc: A,
    pub(crate) features: Vec<Feature>,
    pub(crate) workspace: Workspace<A>,
    pub(crate) glyphs: Vec<ShapedGlyph, A>,
}

impl<A: Allocator + Copy> ShaperMemory<A> {
    /// No memory yet: it will be taken from `alloc`, but that for the features, which comes from `global`.
    pub fn new_in(global: Global, alloc: A) -> ShaperMemory<A> {
        ShaperMemory {
            alloc,
            features: Vec::new(global),
            workspace: Workspace::new(alloc),
            glyphs: Vec::new(alloc),
        }
    }
}
