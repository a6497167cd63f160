//! Each call is refused in turn at each of its requests for memory, and answered where it meets no refusal.

use crate::buffers::{Growth, outcome_of_growth};
use crate::calls::{Outcome, outcome_of};
use crate::fonts::{inserting, kerning, row_font};
use crate::hoard::{Hoard, MOST, new_heap};
use crate::lines::outcome_of_lines;
use crate::readers::{Reader, is_read};
use crate::requests::{Asking, outcome_of_asking};
use crate::shaping::{outcome_beside, outcome_of_text, outcome_within};
use crate::substitution::{outcome_of_map, outcome_of_runs, runs_in, sixes, substitute};
use crate::tables::{Table, is_made};
use crate::texts::{FILE, Text, is_answered};
use crate::typesetting::{Setting, is_set};
use aat_bytes::ReadError;
use aat_face::Face;
use aat_layout::AatError;
use aat_layout::font::{TableError, hb_font_t, hb_ot_shape_plan_t};
use aat_shape::described::drop_font;
use aat_text::TextError;
use aat_typesetter::TypesetError;
use linked_list_allocator::LocalHeap;
use std::alloc::Global;
use std::process::Abort;
use std::test::Fail;

/// A call.
#[derive(Clone, Copy)]
enum Call {
    Made(Table),
    Read(Reader),
    Answered(Text),
    Typeset(Setting),
    Grown(Growth),
    Asked(Asking),
    /// Runs of glyphs that go into a line.
    Runs,
    /// Substitution's map, and shaping's, and the positions of a line that is shaped.
    Map,
    Beside,
    Within,
    /// A text of a shaper, which has shaped none or one of so many glyphs before. Four blocks more are left each time.
    Shaped(u32, u32),
    /// A text that a shaper fills into lines, which it has done before or not. Four blocks more are left each time.
    Filled(bool),
}

/// What comes of a call that leaves nothing and takes a face, over this heap.
fn outcome_of_face(alloc: Global, heap: &LocalHeap, face: &Face, call: Call) -> Outcome {
    match call {
        Call::Answered(text) => outcome_of(is_answered(heap, face, text), TextError::OutOfMemory),
        Call::Typeset(setting) => outcome_of(
            is_set(alloc, heap, face, setting),
            TypesetError::OutOfMemory,
        ),
        _ => Outcome::Wrong,
    }
}

/// What comes of such a call with the face of the file.
fn outcome_in_face(alloc: Global, heap: &LocalHeap, call: Call) -> Result<Outcome, Fail> {
    let face = Face::read(alloc, &FILE, 0)?;
    let outcome = outcome_of_face(alloc, heap, &face, call);
    drop(face);
    Ok(outcome)
}

/// What comes of a call that leaves nothing, over this heap.
fn outcome_over(alloc: Global, heap: &LocalHeap, call: Call) -> Result<Outcome, Fail> {
    match call {
        Call::Made(table) => Ok(outcome_of(is_made(heap, table), TableError::OutOfMemory)),
        Call::Read(reader) => Ok(outcome_of(is_read(heap, reader), ReadError::OutOfMemory)),
        _ => outcome_in_face(alloc, heap, call),
    }
}

/// What comes of a call in a font while so many blocks are left of its heap.
fn outcome_in(alloc: Global, font: &hb_font_t, call: Call, blocks: usize) -> Result<Outcome, Fail> {
    match call {
        Call::Asked(asking) => outcome_of_asking(alloc, asking, font, blocks),
        Call::Runs => outcome_of_runs(alloc, font, blocks),
        Call::Map => outcome_of_map(alloc, font, blocks),
        Call::Beside => outcome_beside(alloc, font, blocks),
        Call::Within => outcome_within(alloc, font, blocks),
        Call::Shaped(before, count) => {
            outcome_of_text(alloc, font, before, count, blocks.saturating_mul(4))
        }
        Call::Filled(is_again) => outcome_of_lines(alloc, font, is_again, blocks.saturating_mul(4)),
        _ => Ok(Outcome::Wrong),
    }
}

/// The font of a call: that of the part of a worked row, or the one that puts glyphs in.
fn font_of(alloc: Global, call: Call) -> Result<hb_font_t, Fail> {
    match call {
        Call::Asked(_) => row_font(alloc, "5"),
        Call::Map => row_font(alloc, "13a"),
        Call::Beside | Call::Within => row_font(alloc, "38a"),
        Call::Filled(_) => kerning(alloc),
        _ => inserting(alloc),
    }
}

/// What comes of a call in its font while so many blocks are left of its heap.
fn outcome_in_font(alloc: Global, call: Call, blocks: usize) -> Result<Outcome, Fail> {
    let font = font_of(alloc, call)?;
    let outcome = outcome_in(alloc, &font, call, blocks);
    drop_font(font);
    outcome
}

/// What comes of a call that leaves nothing while so many blocks are left of its heap, which is empty afterwards.
fn outcome_on_heap(alloc: Global, call: Call, blocks: usize) -> Result<Outcome, Fail> {
    let heap = new_heap(alloc)?;
    let hoard = Hoard::but(alloc, &heap, blocks)?;
    let outcome = outcome_over(alloc, &heap, call);
    let is_empty = hoard.give_back() && heap.used() == 0;
    let outcome = outcome?;
    Ok(if is_empty { outcome } else { Outcome::Wrong })
}

/// What comes of a call while so many blocks are left of its heap.
fn outcome_within_blocks(alloc: Global, call: Call, blocks: usize) -> Result<Outcome, Fail> {
    match call {
        Call::Grown(growth) => outcome_of_growth(alloc, growth, blocks),
        Call::Made(_) | Call::Read(_) | Call::Answered(_) | Call::Typeset(_) => {
            outcome_on_heap(alloc, call, blocks)
        }
        _ => outcome_in_font(alloc, call, blocks),
    }
}

/// How many blocks a call needs: with each number below that it is refused. Nothing where an outcome is wrong, or no
/// number is enough.
fn blocks_for(alloc: Global, call: Call) -> Result<Option<usize>, Fail> {
    for blocks in 0..MOST {
        match outcome_within_blocks(alloc, call, blocks)? {
            Outcome::Done => return Ok(Some(blocks)),
            Outcome::Refused => {}
            Outcome::Wrong => return Ok(None),
        }
    }
    Ok(None)
}

/// Each call with its name, and how often it asks for memory at least. Each request takes a block or more.
static CALLS: [(&str, Call, usize); 40] = [
    ("a lookup with an array", Call::Made(Table::CloseLookup), 2),
    ("a lookup without one", Call::Made(Table::FarLookup), 1),
    ("segments", Call::Made(Table::Segments), 1),
    ("names", Call::Made(Table::Names), 1),
    ("pairs", Call::Made(Table::Pairs), 3),
    ("pairs by classes", Call::Made(Table::ClassPairs), 3),
    ("a machine with a grid", Call::Made(Table::Grid), 5),
    ("a machine without one", Call::Made(Table::Rules), 2),
    ("feature names are read", Call::Read(Reader::Feat), 2),
    ("a lookup is read", Call::Read(Reader::Lookup), 2),
    ("a machine is read", Call::Read(Reader::Machine), 3),
    ("pairs are read", Call::Read(Reader::Pairs), 2),
    ("tracks are read", Call::Read(Reader::Tracks), 3),
    ("an outline is read", Call::Read(Reader::Outline), 2),
    ("the glyphs of a text", Call::Answered(Text::Glyphs), 1),
    ("missing characters", Call::Answered(Text::Missing), 1),
    ("the ends of lines", Call::Answered(Text::LineEnds), 1),
    ("hidden characters", Call::Answered(Text::Hidden), 1),
    ("a text made ready", Call::Answered(Text::Prepared), 2),
    ("a typeset line", Call::Typeset(Setting::Line), 4),
    ("typeset lines", Call::Typeset(Setting::Lines), 6),
    ("add", Call::Grown(Growth::Add), 3),
    ("copy_glyph", Call::Grown(Growth::Copy), 3),
    ("output_glyph", Call::Grown(Growth::Output), 3),
    ("insert_glyphs", Call::Grown(Growth::Insert), 3),
    ("insert_glyphs_at", Call::Grown(Growth::InsertAt), 3),
    ("clear_positions", Call::Grown(Growth::Positions), 1),
    ("add_feature", Call::Asked(Asking::Add), 3),
    ("with_features", Call::Asked(Asking::WithFeatures), 1),
    ("compile", Call::Asked(Asking::Compile), 12),
    ("compile_flags", Call::Asked(Asking::CompileFlags), 2),
    ("compiled_map", Call::Asked(Asking::CompiledMap), 13),
    ("runs of glyphs", Call::Runs, 3),
    ("the map of substitution", Call::Map, 3),
    ("the map of shaping", Call::Beside, 3),
    ("the positions of shaping", Call::Within, 1),
    ("the first text of a shaper", Call::Shaped(0, 1), 4),
    ("a longer text", Call::Shaped(1, 3), 4),
    ("a text in lines", Call::Filled(false), 7),
    ("the same lines again", Call::Filled(true), 5),
];

/// The calls. What names a table is proved with all that it holds.
fn calls() -> &'static [(&'static str, Call, usize)] {
    &CALLS
}

#[test]
fn each_request_for_memory_is_refused(rt: HostRuntime) -> Result<(), Fail> {
    for (name, call, least) in calls() {
        let blocks = blocks_for(rt.alloc(), *call)?;
        assert!(&rt; blocks.unwrap_or(0) >= *least, "{name}: {blocks:?}");
    }
    Ok(())
}

/// Whether a line that may grow by so many glyphs is refused before the run that it has no room for, and keeps those
/// before that.
fn is_too_long(alloc: Global, font: &hb_font_t, room: usize) -> Result<bool, Fail> {
    let mut buffer = sixes(alloc, 4 + room.min(200))?;
    let plan = hb_ot_shape_plan_t::new(Vec::new(alloc));
    let answer = substitute(alloc, &plan, font, &mut buffer);
    let is_answer = if room < 124 {
        answer == Err(AatError::TooLong) && !buffer.is_successful()
    } else {
        answer == Ok(5) && buffer.is_successful()
    };
    Ok(is_answer && runs_in(&buffer) == Some(room / 31))
}

/// The first room for so many glyphs at which a line comes out otherwise.
fn failing_room(alloc: Global, font: &hb_font_t) -> Result<Option<usize>, Fail> {
    for room in [0, 1, 30, 31, 61, 62, 93, 123, 124] {
        if !is_too_long(alloc, font, room)? {
            return Ok(Some(room));
        }
    }
    Ok(None)
}

/// The greatest length is looked at before memory is asked for.
#[test]
fn a_run_that_is_too_long_leaves_the_line(rt: HostRuntime) -> Result<(), Fail> {
    let font = inserting(rt.alloc())?;
    let failing = failing_room(rt.alloc(), &font);
    drop_font(font);
    let failing = failing?;
    assert!(rt; failing.is_none(), "room for {failing:?}");
    Ok(())
}
