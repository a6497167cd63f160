//! Where a line may be broken, by its glyphs and by the marks on them.
ghost use Rattle.std.specs.Prelude.{◌≡◌, ◌-◌, ◌+◌, ◌<◌, ◌≤◌, ◌==◌, ◌&&◌, length, nat_lt};
ghost use Rattle.std.specs.List.{list_any};
ghost use Rattle.aat_buffer.specs.Removal.{is_deleted};
ghost use Rattle.aat_run.specs.Budget.{operations_left};
ghost use Rattle.aat_shaped_text.specs.Breaks.{front_of, is_unsafe, kept_before, later_run, may_break_by, run_from, run_up_to};

use crate::features::{ask_alike, ask_alike_through};
use aat_layout::buffer::{DELETED_GLYPH, glyph_flag, hb_buffer_t, hb_glyph_info_t};
use aat_layout::font::Feature;
use std::alloc::Allocator;

/// The operations that each text has at least, HarfBuzz's `HB_BUFFER_MAX_OPS_MIN`.
const LEAST_OPERATIONS: u64 = 16384;

/// By what a line may be broken, beside its glyphs.
#[derive(Clone, Copy)]
pub struct BreakRules<'f> {
    /// Whether substitution runs evenly along the text.
    pub is_even: bool,
    /// The features of the text.
    pub features: &'f [Feature],
}

/// Whether a glyph is marked `UNSAFE_TO_BREAK`.
fn is_unsafe(glyph: &hb_glyph_info_t) -> bool
    ensures { result ≡ is_unsafe glyph.now }
{
    glyph.mask & glyph_flag::UNSAFE_TO_BREAK != 0
}

/// Whether a glyph is deleted and has this cluster.
fn is_deleted_of(glyph: &hb_glyph_info_t, cluster: u32) -> bool
    ensures { result ≡ (is_deleted glyph.now && glyph.now.cluster == cluster) }
{
    glyph.glyph_id == DELETED_GLYPH && glyph.cluster == cluster
}

/// The place at which the glyph at a place of a line begins, with the deleted glyphs of its cluster in a row before it.
///
/// It takes as many steps as there are such glyphs.
pub fn front_of(line: &[hb_glyph_info_t], i: usize) -> usize
    requires { i < length line.now }
    ensures { result ≡ front_of line.now i }
{
    let cluster = line[i].cluster;
    for behind in 0..i {
        if !is_deleted_of(&line[i - 1 - behind], cluster) {
            return i - behind;
        }
    }
    0
}

/// Whether one of the glyphs in a row from a place on that share its cluster is marked.
fn is_unsafe_from(line: &[hb_glyph_info_t], i: usize) -> bool
    requires { i < length line.now }
    ensures { result ≡ list_any is_unsafe (run_from line.now i) }
{
    let cluster = line[i].cluster;
    for j in i..line.len() {
        let glyph = &line[j];
        if glyph.cluster != cluster {
            return false;
        }
        if is_unsafe(glyph) {
            return true;
        }
    }
    false
}

/// Whether one of the glyphs in a row before a place that share the cluster of the last of them is marked.
fn is_unsafe_before(line: &[hb_glyph_info_t], end: usize) -> bool
    requires some { 0 < end }
    requires in_line { end ≤ length line.now }
    ensures { result ≡ list_any is_unsafe (run_up_to line.now (end - 1)) }
{
    let cluster = line[end - 1].cluster;
    for behind in 0..end {
        let glyph = &line[end - 1 - behind];
        if glyph.cluster != cluster {
            return false;
        }
        if is_unsafe(glyph) {
            return true;
        }
    }
    false
}

/// Whether a glyph of the cluster that comes later in the text, of the two that meet before a place, is marked.
fn is_later_unsafe(line: &[hb_glyph_info_t], i: usize) -> bool
    requires behind { 0 < i }
    requires in_line { i < length line.now }
    ensures { result ≡ list_any is_unsafe (later_run line.now i) }
{
    if line[i - 1].cluster < line[i].cluster {
        is_unsafe_from(line, i)
    } else {
        is_unsafe_before(line, i)
    }
}

/// Whether a line in drawing order may be broken before a place, before which so many glyphs are kept.
///
/// It takes as many steps as there are features, and as glyphs in a row that share the later cluster.
#[inline(always)]
pub fn may_break_at(rules: BreakRules, line: &[hb_glyph_info_t], kept: usize, i: usize) -> bool
    requires in_line { i < length line.now }
    requires kept { kept ≡ kept_before line.now i }
    ensures { result ≡ may_break_by rules.entry line.now i }
{
    if kept == 0 {
        return false;
    }
    let before = &line[i - 1];
    let after = &line[i];
    after.cluster != before.cluster
        && !is_later_unsafe(line, i)
        && ask_alike(rules.features, before.cluster, after.cluster)
        && (rules.is_even
            || ask_alike_through(
                rules.features,
                before.cluster.min(after.cluster),
                before.cluster.max(after.cluster),
            ))
}

/// What is left of a buffer's budget of operations, 0 where that is negative.
pub fn operations_left<A: Allocator + Copy>(buffer: &hb_buffer_t<A>) -> u64
    ensures value { result ≡ operations_left buffer.now.max_ops }
    ensures small { result ≤ 2147483647 }
{
    let left = buffer.max_ops();
    if left > 0 { left as u64 } else { 0 }
}

/// Whether of so many operations fewer were taken than each text has at least.
pub fn takes_few_operations<A: Allocator + Copy>(before: u64, buffer: &hb_buffer_t<A>) -> bool
    ensures { result ≡ nat_lt before (operations_left buffer.now.max_ops + 16384) }
{
    before < operations_left(buffer) + LEAST_OPERATIONS
}
