//! Marks that are placed by the boxes of glyphs.
ghost use Rattle.std.specs.Prelude.{◌≡◌, if◌then◌else◌};
ghost use Rattle.std.specs.List.{list_all};
ghost use Rattle.aat_glyph.specs.Directions.{is_backward};
ghost use Rattle.aat_showing.specs.FaceMetrics.{mark_placing};
ghost use Rattle.aat_showing.specs.MarkBoxes.{base_after, base_of, begins_run, class_of, followed_base, held, held_runs, next_base, place_marks, placed, placed_in_order, placed_on};
ghost use Rattle.aat_showing.specs.inside.KnownBases.{told_base};

use crate::face_metrics::{box_in, row_advance};
use crate::mark_bases::{Base, KnownBase, MarkBase, base_behind, base_with, boxed_base, set_on};
use crate::marks::zeroed_mark;
use aat_face::Face;
use aat_glyph::Direction;
use aat_shaped_text::{CharacterKind, ShapedGlyph};

/// The combining class of a character, 0 of what is no mark.
fn class_of(kind: CharacterKind) -> u8
    ensures { result ≡ class_of kind }
{
    match kind {
        CharacterKind::Mark(class) => class,
        _ => 0,
    }
}

/// Whether a glyph begins a run of a base and its marks.
fn begins_run(glyph: ShapedGlyph) -> bool
    ensures { result ≡ begins_run glyph }
{
    !glyph.is_ignorable && !matches!(glyph.kind, CharacterKind::Mark(_))
}

/// A glyph as a base.
fn base_of(face: &Face<'_>, direction: Direction, moves: bool, glyph: ShapedGlyph) -> MarkBase
    ensures { result ≡ base_of (mark_placing face.now direction moves) glyph }
{
    let advance = row_advance(face, glyph.glyph_id);
    boxed_base(direction, advance, box_in(face, glyph.glyph_id), glyph)
}

/// A glyph behind a base with a box.
fn placed_on(
    face: &Face<'_>,
    direction: Direction,
    moves: bool,
    base: Base,
    glyph: ShapedGlyph,
) -> ShapedGlyph
    ensures { result ≡ placed_on (mark_placing face.now direction moves) base glyph }
{
    let class = class_of(glyph.kind);
    if class == 0 {
        glyph
    } else {
        set_on(
            direction,
            face.units_per_em() / 16,
            base,
            class,
            box_in(face, glyph.glyph_id),
            glyph,
        )
    }
}

/// A glyph behind a base.
fn placed(
    face: &Face<'_>,
    direction: Direction,
    moves: bool,
    base: MarkBase,
    glyph: ShapedGlyph,
) -> ShapedGlyph
    ensures { result ≡ placed (mark_placing face.now direction moves) base glyph }
{
    match base {
        MarkBase::Missing => glyph,
        MarkBase::Unboxed => {
            if begins_run(glyph) {
                glyph
            } else {
                zeroed_mark(moves, glyph)
            }
        }
        MarkBase::Boxed(base) => placed_on(face, direction, moves, base, glyph),
    }
}

/// The base behind a glyph of its run.
fn base_after(
    face: &Face<'_>,
    direction: Direction,
    moves: bool,
    base: Base,
    glyph: ShapedGlyph,
) -> Base
    ensures { result ≡ base_after (mark_placing face.now direction moves) base glyph }
{
    let class = class_of(glyph.kind);
    if class == 0 {
        base_behind(direction, base, glyph)
    } else {
        base_with(
            face.units_per_em() / 16,
            base,
            class,
            box_in(face, glyph.glyph_id),
        )
    }
}

/// The base behind a glyph that begins no run.
fn followed_base(
    face: &Face<'_>,
    direction: Direction,
    moves: bool,
    base: MarkBase,
    glyph: ShapedGlyph,
) -> MarkBase
    ensures { result ≡ followed_base (mark_placing face.now direction moves) base glyph }
{
    match base {
        MarkBase::Missing => {
            if matches!(glyph.kind, CharacterKind::Mark(_)) {
                MarkBase::Missing
            } else {
                base_of(face, direction, moves, glyph)
            }
        }
        MarkBase::Unboxed => MarkBase::Unboxed,
        MarkBase::Boxed(base) => {
            MarkBase::Boxed(base_after(face, direction, moves, base, glyph))
        }
    }
}

/// The base that is known.
fn told_base(face: &Face<'_>, direction: Direction, moves: bool, known: KnownBase) -> MarkBase
    ensures { result ≡ told_base (mark_placing face.now direction moves) known }
{
    match known {
        KnownBase::Told(base) => base,
        KnownBase::Glyph(glyph) => base_of(face, direction, moves, glyph),
    }
}

/// A glyph in its place, and what is known of the base behind it. The box of a glyph that begins a run is not asked
/// before another glyph of its run comes.
#[tactic(auto, using(crate::proofs::RunsBegun::run_stays))]
fn placed_next(
    face: &Face<'_>,
    direction: Direction,
    moves: bool,
    known: KnownBase,
    glyph: ShapedGlyph,
) -> (ShapedGlyph, KnownBase)
    ensures glyph { result.0 ≡ placed (mark_placing face.now direction moves)
        (told_base (mark_placing face.now direction moves) known) glyph }
    ensures base { told_base (mark_placing face.now direction moves) result.1
        ≡ next_base (mark_placing face.now direction moves)
        (told_base (mark_placing face.now direction moves) known) glyph }
{
    if begins_run(glyph) {
        return (glyph, KnownBase::Glyph(glyph));
    }
    let base = told_base(face, direction, moves, known);
    let next = followed_base(face, direction, moves, base, glyph);
    let placed = placed(face, direction, moves, base, glyph);
    (placed, KnownBase::Told(next))
}

/// Places the marks of glyphs in the order of a text.
fn place_in_order(face: &Face<'_>, direction: Direction, moves: bool, glyphs: &mut [ShapedGlyph])
    ensures { glyphs.new ≡ placed_in_order (mark_placing face.now direction moves) glyphs.old }
{
    let mut known = KnownBase::Told(MarkBase::Missing);
    for i in 0..glyphs.len() {
        let (glyph, next) = placed_next(face, direction, moves, known, glyphs[i]);
        glyphs[i] = glyph;
        known = next;
    }
}

/// A glyph before which the text may be broken only where the later one of the two glyphs that meet there begins a run.
fn held(direction: Direction, begun: bool, glyph: ShapedGlyph) -> ShapedGlyph
    ensures { result ≡ held direction begun glyph }
{
    let begins = if direction.is_backward() {
        begun
    } else {
        begins_run(glyph)
    };
    ShapedGlyph {
        may_break_before: glyph.may_break_before && begins,
        ..glyph
    }
}

/// Has runs of a base and its marks hold together.
fn hold_runs(direction: Direction, glyphs: &mut [ShapedGlyph])
    ensures { glyphs.new ≡ held_runs direction glyphs.old }
{
    let mut begun = true;
    for i in 0..glyphs.len() {
        let glyph = glyphs[i];
        glyphs[i] = held(direction, begun, glyph);
        begun = begins_run(glyph);
    }
}

/// Whether each of some glyphs begins a run, so that there is no mark.
fn all_begin_runs(glyphs: &[ShapedGlyph]) -> bool
    ensures { result ≡ list_all begins_run glyphs.now }
{
    glyphs.iter().all(|glyph| begins_run(*glyph))
}

/// Places marks by the boxes of glyphs. `glyphs` is what a `Shaper` of the face draws of a text that runs in
/// `direction`, before ignorable glyphs are hidden.
///
/// Each glyph that is neither a mark by its character (`kind`) nor ignorable is a base, and the marks behind it in the
/// order of the text are placed around its box, which is as wide as its advance in a row. Ignorable glyphs between them
/// count no width; one before all bases of a text is a base. A mark with a combining class gets advances of 0. By the
/// class it stands below or above, a sixteenth of the em off or attached, at the left or the right edge or in the
/// middle, and a double one of a row with its middle at the edge where the next base follows. Marks of one class in
/// turn are stacked. Marks below are not moved up, and those above moved down by half of that at most; marks of other
/// classes stay at their height. A mark without a box keeps its offset, from the base on. Behind a base without a box
/// the glyphs that are marks (`is_mark`) lose their width as with `zero_marks`, and move with `moves`. Lengths wrap at
/// 32 bits.
///
/// The text may be broken only before a run of a base and its marks, in the order of the text: `may_break_before`
/// becomes `false` elsewhere. All else stays. So does HarfBuzz 12.3.2, which also tells when: where the script asks
/// for it, and neither `kerx` nor `kern` across the line acts.
///
/// It takes no memory, and cannot be refused.
pub fn place_marks(glyphs: &mut [ShapedGlyph], face: &Face<'_>, direction: Direction, moves: bool)
    ensures { glyphs.new ≡ place_marks (mark_placing face.now direction moves) glyphs.old }
{
    if all_begin_runs(glyphs) {
        return;
    }
    if direction.is_backward() {
        glyphs.reverse();
        place_in_order(face, direction, moves, glyphs);
        glyphs.reverse();
    } else {
        place_in_order(face, direction, moves, glyphs);
    }
    hold_runs(direction, glyphs);
}
