//! The calls of a builder and of a map, over a heap.

use crate::calls::{Outcome, done_if, outcome_of, refused_if};
use crate::hoard::{Hoard, new_heap};
use aat_layout::font::{Feature, hb_font_t, hb_ot_shape_plan_t, hb_tag_t};
use aat_layout::{AatError, compile_flags, compiled_map, hb_aat_map_builder_t, hb_aat_map_t};
use linked_list_allocator::LocalHeap;
use std::alloc::{AllocError, Global};
use std::test::Fail;

/// How many requests are added.
const TIMES: usize = 20;

type Builder<'h> = hb_aat_map_builder_t<&'h LocalHeap>;

type Map<'h> = hb_aat_map_t<&'h LocalHeap>;

/// A call of a builder or of a map.
#[derive(Clone, Copy)]
pub(crate) enum Asking {
    Add,
    WithFeatures,
    Compile,
    CompileFlags,
    CompiledMap,
}

/// The common ligatures on or off over clusters.
pub(crate) fn liga(value: u32, start: u32, end: u32) -> Feature {
    Feature::new(hb_tag_t::from_bytes(b"liga"), value, start..end)
}

/// The features of row 5.
fn features() -> [Feature; 3] {
    [liga(1, 0, 10), liga(0, 1, 10), liga(1, 2, 5)]
}

/// Adds a request so many times.
fn add(builder: &mut Builder, font: &hb_font_t, times: usize) -> Result<(), AatError> {
    for _ in 0..times {
        builder.add_feature(font, &liga(1, 0, 10))?;
    }
    Ok(())
}

/// Adds many requests while the heap of a builder is full but for some blocks, and the rest with memory where one was
/// refused: then those before it are there.
fn add_beside<'h>(hoard: Hoard<'h>, font: &hb_font_t, builder: &mut Builder<'h>) -> Outcome {
    let answer = add(builder, font, TIMES);
    if !hoard.give_back() || answer != Err(AatError::OutOfMemory) {
        return done_if(answer == Ok(()) && builder.features().len() == TIMES);
    }
    let rest = TIMES.saturating_sub(builder.features().len());
    let is_done = add(builder, font, rest) == Ok(());
    refused_if(is_done && builder.features().len() == TIMES)
}

/// What comes of adding requests while so many blocks are left of the heap of a builder.
fn outcome_of_adding(alloc: Global, font: &hb_font_t, blocks: usize) -> Result<Outcome, Fail> {
    let heap = new_heap(alloc)?;
    let mut builder = hb_aat_map_builder_t::default(&heap);
    let hoard = Hoard::but(alloc, &heap, blocks)?;
    Ok(add_beside(hoard, font, &mut builder))
}

/// Compiles the requests of a builder into a map, or the flags of its range, where that is the whole text and the map
/// is empty.
fn compile<'h>(
    asking: Asking,
    font: &hb_font_t,
    builder: &mut Builder<'h>,
    map: &mut Map<'h>,
) -> Result<(), AatError> {
    if matches!(asking, Asking::Compile) {
        return builder.compile(font, map);
    }
    if builder.range() == (0, u32::MAX) && map.chain_flags().is_empty() {
        compile_flags(font, builder, map)?;
    }
    Ok(())
}

/// Whether a map is that of row 5, or that of no request.
fn is_compiled(asking: Asking, map: &Map) -> bool {
    let flags = if matches!(asking, Asking::Compile) {
        (Some(3), Some(5))
    } else {
        (Some(1), Some(1))
    };
    (map.flags_at(0, 4), map.flags_at(0, 5)) == flags && map.chain_flags().len() == 1
}

/// Compiles the requests of row 5 while a heap is full, and again with memory where that is refused: then the map is
/// empty, and the requests are there.
fn compile_beside<'h>(
    asking: Asking,
    font: &hb_font_t,
    hoard: Hoard<'h>,
    builder: &mut Builder<'h>,
    map: &mut Map<'h>,
) -> Outcome {
    let answer = compile(asking, font, builder, map);
    if !hoard.give_back() || answer != Err(AatError::OutOfMemory) {
        return done_if(answer == Ok(()) && is_compiled(asking, map));
    }
    let is_left = map.chain_flags().is_empty() && builder.features().len() == 3;
    let is_done = compile(asking, font, builder, map) == Ok(());
    refused_if(is_left && is_done && is_compiled(asking, map))
}

/// What comes of compiling the requests of row 5 over a heap while so many blocks are left of it.
fn outcome_of_map<'h>(
    alloc: Global,
    heap: &'h LocalHeap,
    asking: Asking,
    font: &hb_font_t,
    builder: &mut Builder<'h>,
    blocks: usize,
) -> Result<Outcome, Fail> {
    let hoard = Hoard::but(alloc, heap, blocks)?;
    let mut map = hb_aat_map_t::default(heap);
    Ok(compile_beside(asking, font, hoard, builder, &mut map))
}

/// What comes of compiling the requests of row 5 while so many blocks are left of a heap.
fn outcome_of_compiling(
    alloc: Global,
    asking: Asking,
    font: &hb_font_t,
    blocks: usize,
) -> Result<Outcome, Fail> {
    let heap = new_heap(alloc)?;
    let mut builder = hb_aat_map_builder_t::with_features(&heap, font, &features())?;
    outcome_of_map(alloc, &heap, asking, font, &mut builder, blocks)
}

/// Whether the features of row 5 make their requests, or a map.
fn is_asked(
    alloc: Global,
    asking: Asking,
    font: &hb_font_t,
    heap: &LocalHeap,
) -> Result<bool, AatError> {
    if matches!(asking, Asking::WithFeatures) {
        let builder = hb_aat_map_builder_t::with_features(heap, font, &features())?;
        return Ok(builder.features().len() == 3);
    }
    let plan = hb_ot_shape_plan_t::new(Vec::from_slice(alloc, &features())?);
    match compiled_map(heap, &plan, font)? {
        Some(map) => Ok(is_compiled(Asking::Compile, &map)),
        None => Ok(false),
    }
}

/// What comes of making requests or a map of features while so many blocks are left of its heap.
fn outcome_of_making(
    alloc: Global,
    asking: Asking,
    font: &hb_font_t,
    blocks: usize,
) -> Result<Outcome, Fail> {
    let heap = new_heap(alloc)?;
    let hoard = Hoard::but(alloc, &heap, blocks)?;
    let answer = is_asked(alloc, asking, font, &heap);
    drop(hoard);
    Ok(outcome_of(answer, AatError::OutOfMemory))
}

/// What comes of a call while so many blocks are left of its heap, in the font of row 5.
pub(crate) fn outcome_of_asking(
    alloc: Global,
    asking: Asking,
    font: &hb_font_t,
    blocks: usize,
) -> Result<Outcome, Fail> {
    match asking {
        Asking::Add => outcome_of_adding(alloc, font, blocks),
        Asking::Compile | Asking::CompileFlags => {
            outcome_of_compiling(alloc, asking, font, blocks)
        }
        _ => outcome_of_making(alloc, asking, font, blocks),
    }
}
