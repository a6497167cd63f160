//! Noncontextual subtables: each glyph by itself gets its value of a lookup.
ghost use Rattle.std.specs.Prelude.{◌≡◌, ◌<◌, All, ℕ, Bool, IfSome, List, None, true, length};
ghost use Rattle.aat_buffer.specs.Buffer.{Is16Bit, with_line};
ghost use Rattle.aat_buffer.specs.Clusters.{IsSmall};
ghost use Rattle.aat_font.specs.Face.{glyph_classes_of};
ghost use Rattle.aat_lookup.specs.Moves.{AreMovesOf, HasCells};
ghost use Rattle.aat_kinds.specs.Idle.{has_no_value, SleepOthers};
ghost use Rattle.aat_run.specs.Ranges.{IsGapless, switch_for};
ghost use Rattle.aat_run.specs.Stretches.{IsSwitchedAlike};
ghost use Rattle.aat_kinds.specs.Runs.{is_on_in};
ghost use Rattle.aat_kinds.specs.Values.{with_answer, with_looked_up_value, noncontextual};

use crate::run::SubtableRun;
use crate::values::props_after;
use aat_buffer::{hb_buffer_t, hb_glyph_info_t};
use aat_font::hb_font_t;
use aat_lookup::{GlyphId, GlyphMoves, Lookup};
use aat_run::{Stretch, range_flags_t, ranges_to_ask};
use std::alloc::Allocator;

/// A glyph with what it becomes, where the subtable is on and the font has no classes of glyphs. A glyph whose value is
/// itself does not change then.
fn moved_alone(moves: GlyphMoves, glyph: hb_glyph_info_t) -> hb_glyph_info_t
    requires cells { HasCells moves }
    requires id { Is16Bit glyph }
    ensures replaced { (on : ℕ → Bool) (lookup : List (ℕ × ℕ)) → on glyph.cluster ≡ true → AreMovesOf moves.entry lookup
        → result ≡ with_looked_up_value on None lookup glyph }
    ensures small { Is16Bit result }
{
    hb_glyph_info_t {
        glyph_id: moves.moved(glyph.glyph_id as u16) as u32,
        ..glyph
    }
}

/// A glyph that gets a value, if there is one. It gets the properties of the value's class, also where that is the glyph
/// itself.
fn with_answer(face: &hb_font_t, value: Option<u16>, glyph: hb_glyph_info_t) -> hb_glyph_info_t
    requires { Is16Bit glyph }
    ensures answer { result ≡ with_answer (glyph_classes_of face.now) value glyph }
    ensures small { Is16Bit result }
{
    match value {
        Some(value) => hb_glyph_info_t {
            glyph_id: value as u32,
            glyph_props: props_after(face, value, glyph.glyph_props),
            ..glyph
        },
        None => glyph,
    }
}

/// A glyph with its value of a lookup, where it has one and the subtable is on, by an array of what glyphs become.
fn moved(face: &hb_font_t, moves: GlyphMoves, glyph: hb_glyph_info_t) -> hb_glyph_info_t
    requires cells { HasCells moves }
    requires id { Is16Bit glyph }
    ensures replaced { (on : ℕ → Bool) (lookup : List (ℕ × ℕ)) → on glyph.cluster ≡ true → AreMovesOf moves.entry lookup
        → result ≡ with_looked_up_value on (glyph_classes_of face.now) lookup glyph }
    ensures small { Is16Bit result }
{
    let value = moves.value(glyph.glyph_id as u16);
    with_answer(face, value, glyph)
}

/// A glyph with its value of a lookup, where it has one and the subtable is on. Where it is known what each glyph becomes,
/// nothing is looked up.
fn replacement(
    run: &SubtableRun,
    lookup: &Lookup,
    moves: Option<GlyphMoves>,
    is_on: bool,
    glyph: hb_glyph_info_t,
) -> hb_glyph_info_t
    requires wakers { IfSome run.now.wakers (SleepOthers (has_no_value lookup.now)) }
    requires moves { IfSome moves (λ m. AreMovesOf m lookup.now) }
    requires id { Is16Bit glyph }
    ensures replaced { (on : ℕ → Bool) → on glyph.cluster ≡ is_on
        → result ≡ with_looked_up_value on (glyph_classes_of run.now.face.now) lookup.now glyph }
    ensures small { Is16Bit result }
{
    if !is_on {
        return glyph;
    }
    match moves {
        Some(moves) => moved(run.face, moves, glyph),
        None => looked_up(run, lookup, glyph),
    }
}

/// A glyph with its value of a lookup, where it has one. A glyph that is known not to wake the subtable has none.
fn looked_up(run: &SubtableRun, lookup: &Lookup, glyph: hb_glyph_info_t) -> hb_glyph_info_t
    requires wakers { IfSome run.now.wakers (SleepOthers (has_no_value lookup.now)) }
    requires id { Is16Bit glyph }
    ensures replaced { (on : ℕ → Bool) → on glyph.cluster ≡ true
        → result ≡ with_looked_up_value on (glyph_classes_of run.now.face.now) lookup.now glyph }
    ensures small { Is16Bit result }
{
    if let Some(wakers) = run.wakers
        && !wakers.wakes(&glyph)
    {
        return glyph;
    }
    let value = lookup.value(GlyphId(glyph.glyph_id as u16));
    with_answer(run.face, value, glyph)
}

/// Whether a subtable is on at a cluster, by some ranges: always where there are none, and else as on the stretch that
/// holds the cluster, which is remembered.
fn is_on_along(
    run: &SubtableRun,
    ranges: &[range_flags_t],
    stretch: &mut Stretch,
    cluster: u32,
) -> bool
    requires gapless { IsGapless ranges.now }
    requires alike { IsSwitchedAlike ((switch_for ranges.now).is_on run.now.feature_flags) stretch.old }
    ensures on { (switch_for ranges.now).is_on run.now.feature_flags cluster ≡ result }
    ensures alike { IsSwitchedAlike ((switch_for ranges.now).is_on run.now.feature_flags) stretch.new }
{
    if ranges.is_empty() {
        return true;
    }
    *stretch = stretch.on_to(ranges, run.feature_flags, cluster);
    stretch.is_on
}

/// Gives each of some glyphs at whose own cluster the subtable is on, by some ranges, its value.
fn replace_each(
    run: &SubtableRun,
    ranges: &[range_flags_t],
    lookup: &Lookup,
    moves: Option<GlyphMoves>,
    glyphs: &mut [hb_glyph_info_t],
)
    requires wakers { IfSome run.now.wakers (SleepOthers (has_no_value lookup.now)) }
    requires moves { IfSome moves (λ m. AreMovesOf m lookup.now) }
    requires ids { All Is16Bit glyphs.old }
    requires gapless { IsGapless ranges.now }
    ensures replaced { glyphs.new ≡
        noncontextual ((switch_for ranges.now).is_on run.now.feature_flags) (glyph_classes_of run.now.face.now)
        lookup.now glyphs.old }
    ensures ids { All Is16Bit glyphs.new }
    ensures len { length glyphs.new ≡ length glyphs.old }
{
    let mut stretch = Stretch::none();
    for glyph in glyphs.iter_mut() {
        let is_on = is_on_along(run, ranges, &mut stretch, glyph.cluster);
        *glyph = replacement(run, lookup, moves, is_on, *glyph);
    }
}

/// Gives each of some glyphs its value, by what each becomes, where the subtable is on everywhere and the font has no
/// classes of glyphs.
fn move_alone(lookup: &Lookup, moves: GlyphMoves, glyphs: &mut [hb_glyph_info_t])
    requires ids { All Is16Bit glyphs.old }
    requires moves { AreMovesOf moves lookup.now }
    ensures replaced { glyphs.new ≡ noncontextual (λ _. true) None lookup.now glyphs.old }
    ensures ids { All Is16Bit glyphs.new }
    ensures len { length glyphs.new ≡ length glyphs.old }
{
    for glyph in glyphs.iter_mut() {
        *glyph = moved_alone(moves, *glyph);
    }
}

/// The same in a font that may have classes of glyphs.
fn move_classed(
    face: &hb_font_t,
    lookup: &Lookup,
    moves: GlyphMoves,
    glyphs: &mut [hb_glyph_info_t],
)
    requires ids { All Is16Bit glyphs.old }
    requires moves { AreMovesOf moves lookup.now }
    ensures replaced { glyphs.new ≡ noncontextual (λ _. true) (glyph_classes_of face.now) lookup.now glyphs.old }
    ensures ids { All Is16Bit glyphs.new }
    ensures len { length glyphs.new ≡ length glyphs.old }
{
    for glyph in glyphs.iter_mut() {
        *glyph = moved(face, moves, *glyph);
    }
}

/// Gives each of some glyphs its value, by what each becomes, where the subtable is on everywhere. In a font without
/// classes of glyphs no test asks which glyphs have a value.
fn move_all(face: &hb_font_t, lookup: &Lookup, moves: GlyphMoves, glyphs: &mut [hb_glyph_info_t])
    requires ids { All Is16Bit glyphs.old }
    requires moves { AreMovesOf moves lookup.now }
    ensures replaced { glyphs.new ≡ noncontextual (λ _. true) (glyph_classes_of face.now) lookup.now glyphs.old }
    ensures ids { All Is16Bit glyphs.new }
    ensures len { length glyphs.new ≡ length glyphs.old }
{
    if face.has_glyph_classes() {
        move_classed(face, lookup, moves, glyphs);
    } else {
        move_alone(lookup, moves, glyphs);
    }
}

/// Gives each of some glyphs at whose own cluster the subtable is on, by some ranges, its value. Without ranges none asks
/// whether the subtable is on.
fn replace_glyphs(
    run: &SubtableRun,
    ranges: &[range_flags_t],
    lookup: &Lookup,
    glyphs: &mut [hb_glyph_info_t],
)
    requires wakers { IfSome run.now.wakers (SleepOthers (has_no_value lookup.now)) }
    requires ids { All Is16Bit glyphs.old }
    requires gapless { IsGapless ranges.now }
    ensures replaced { glyphs.new ≡
        noncontextual ((switch_for ranges.now).is_on run.now.feature_flags) (glyph_classes_of run.now.face.now)
        lookup.now glyphs.old }
    ensures ids { All Is16Bit glyphs.new }
    ensures len { length glyphs.new ≡ length glyphs.old }
{
    let moves = lookup.moves();
    match moves {
        Some(moves) if ranges.is_empty() => move_all(run.face, lookup, moves, glyphs),
        _ => replace_each(run, ranges, lookup, moves, glyphs),
    }
}

/// Gives each glyph of a line at whose own cluster the subtable is on its value. The line is one slice while the cursor
/// is at the start.
pub(crate) fn replace_all<A: Allocator + Copy>(
    run: &SubtableRun,
    lookup: &Lookup,
    buffer: &mut hb_buffer_t<A>,
)
    requires wakers { IfSome run.now.wakers (SleepOthers (has_no_value lookup.now)) }
    requires ids { IsSmall buffer.old }
    requires gapless { IsGapless run.now.ranges.now }
    ensures replaced { buffer.new ≡ with_line buffer.old
        (noncontextual (is_on_in run.now) (glyph_classes_of run.now.face.now) lookup.now buffer.old.line) }
    ensures ids { IsSmall buffer.new }
{
    let asked = ranges_to_ask(run.ranges, run.feature_flags);
    let cursor = buffer.backtrack_len();
    buffer.sync();
    replace_glyphs(run, asked, lookup, buffer.from_cursor_mut());
    buffer.move_to(cursor);
}
