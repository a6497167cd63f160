//! Subtables that no glyph of a line wakes.
ghost use Rattle.aat_kinds.specs.Idle.{at_rest};
ghost use Rattle.aat_run.specs.Driven.{StaysWithin};
ghost use Rattle.aat_run.specs.Outcome.{IsOutcome};
ghost use Rattle.aat_buffer.specs.Clusters.{IsSmall};

use aat_buffer::hb_buffer_t;
use aat_machine_tables::SubtableKind;
use std::alloc::Allocator;

/// Leaves what a subtable leaves over a line on which it does nothing, and answers its turns: one for each glyph, and
/// one more of a machine, which puts the cursor at the front and may drop the positions.
pub fn pass_over<A: Allocator + Copy>(kind: &SubtableKind, buffer: &mut hb_buffer_t<A>) -> u64
    requires ids { IsSmall buffer.old }
    ensures rest { IsOutcome (at_rest kind.now buffer.old) buffer.new result }
    ensures within { StaysWithin 1 buffer.old buffer.new result }
{
    let _budget = buffer.max_ops();
    let glyphs = buffer.len() as u64;
    if let SubtableKind::NonContextual(_) = kind {
        return glyphs;
    }
    if let SubtableKind::Ligature(_) | SubtableKind::Insertion(_) = kind {
        buffer.drop_positions();
    }
    buffer.sync();
    glyphs + 1
}
