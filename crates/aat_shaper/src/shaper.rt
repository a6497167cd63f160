//! The shaper: a text goes in, and what is drawn comes out.
ghost use Rattle.std.specs.Prelude.{◌≡◌, ◌≢◌, ◌≤◌, ◌<◌, [], All, Err, IfErr, None, OnErr, OnOk, false, length, pos, true};
ghost use Rattle.aat_buffer.specs.Removal.{deleted_glyph};
ghost use Rattle.aat_font.specs.Face.{tables_of};
ghost use Rattle.aat_map.specs.Adding.{first_too_large_among};
ghost use Rattle.aat_shaped_text.specs.Breaks.{is_rising};
ghost use Rattle.aat_shaped_text.specs.Parts.{BreaksHold};
ghost use Rattle.aat_shaped_text.specs.ShapedText.{AreInOrder, RefusesText, most_glyphs, most_text, shaped_text, uses_up_budget};
ghost use Rattle.aat_shaper.specs.Named.{has_feature};
ghost use Rattle.aat_shaper.specs.Shaper.{no_values, value_along, values_at};
ghost use Rattle.aat_drawn_text.specs.TextPlan.{IsPlanOf};

use crate::memory::ShaperMemory;
use crate::names::has_feature;
use crate::workspace::Workspace;
use aat_drawn_text::{KERNED, LONGEST_TEXT, draw_text};
use aat_glyph::Tracking;
use aat_layout::AatError;
use aat_layout::buffer::Direction;
use aat_layout::font::{Feature, hb_font_t, hb_ot_shape_plan_t, hb_tag_t};
use aat_shaped_text::laws::texts_are_drawn_in_parts;
use aat_shaped_text::{ShapedGlyph, TextGlyph, requests_kerning};
use bumpalo::Bump;
use std::alloc::{AllocError, Allocator, Global};
use std::marker::Model;

/// A shaper of texts of a font. It is made once for a font, shapes many texts, and keeps its memory between them.
///
/// ```
/// let font = hb_font_t::new(tables, None, Some(advances));
/// let mut shaper = Shaper::new(alloc, &font);
/// let text = [(5, 0), (5, 1), (6, 2), (5, 3)].map(|(id, cluster)| TextGlyph::new(id, cluster));
/// shaper.shape(Direction::LeftToRight, &text, &[parse_feature("smcp")?])?;
/// for glyph in shaper.glyphs() {
///     writeln!(out, "{} {}", glyph.glyph_id, glyph.x_advance)?;
/// }
/// ```
#[derive(Drop)]
pub struct Shaper<'f, A: Allocator + Copy = Global> {
    font: &'f hb_font_t,
    alloc: A,
    plan: hb_ot_shape_plan_t,
    workspace: Workspace<A>,
    /// The values by which text in rows and text in columns are tracked.
    row_value: i32,
    column_value: i32,
    glyphs: Vec<ShapedGlyph, A>,
    is_budget_used_up: bool,
}

impl<'f, A: Allocator + Copy> Model for Shaper<'f, A> {
    ghost use Rattle.aat_shaper.specs.Shaper.{ShaperValue};
    ghost use Rattle.aat_shaper.specs.inside.Inside.{HasPlan, shaper_of};

    ghost Value = { ShaperValue };

    ghost view = { shaper_of };

    ghost invariant = { HasPlan };
}

impl<'f> Shaper<'f> {
    /// A shaper of texts of a font. It takes no memory before the first text.
    pub fn new(alloc: Global, font: &'f hb_font_t) -> Shaper<'f>
        ensures { result ≡ record {
          font = font.now;
          values = no_values;
          glyphs = [];
          is_budget_used_up = false;
        } }
    {
        Shaper::new_in(alloc, alloc, font)
    }
}

impl<'f, A: Allocator + Copy> Shaper<'f, A> {
    /// A shaper of texts of a font that takes its memory from `alloc`, but that for the features, which it takes from
    /// `global`. It takes no memory before the first text.
    pub fn new_in(global: Global, alloc: A, font: &'f hb_font_t) -> Shaper<'f, A>
        ensures { result ≡ record {
          font = font.now;
          values = no_values;
          glyphs = [];
          is_budget_used_up = false;
        } }
    {
        Shaper::with_memory(font, ShaperMemory::new_in(global, alloc))
    }

    /// A shaper of texts of a font in the memory of another one. It tracks nothing, whatever that did.
    pub fn with_memory(font: &'f hb_font_t, memory: ShaperMemory<A>) -> Shaper<'f, A>
        ensures { result ≡ record {
          font = font.now;
          values = no_values;
          glyphs = [];
          is_budget_used_up = false;
        } }
    {
        let ShaperMemory {
            alloc,
            features,
            workspace,
            mut glyphs,
        } = memory;
        glyphs.clear();
        let plan = hb_ot_shape_plan_t {
            kern_mask: KERNED,
            ..hb_ot_shape_plan_t::new(features)
        };
        Shaper {
            font,
            alloc,
            plan,
            workspace,
            row_value: 0,
            column_value: 0,
            glyphs,
            is_budget_used_up: false,
        }
    }

    /// Its memory, for another shaper.
    pub fn into_memory(self) -> ShaperMemory<A> {
        let Shaper {
            alloc,
            plan,
            workspace,
            glyphs,
            ..
        } = self;
        let hb_ot_shape_plan_t { user_features, .. } = plan;
        ShaperMemory {
            alloc,
            features: user_features,
            workspace,
            glyphs,
        }
    }

    /// Memory for what is made of a text before it is shaped. It is given up when that has been
    /// shaped, or is refused for another reason than memory.
    pub fn scratch(&self) -> &Bump<A> {
        self.workspace.arena()
    }

    /// Has texts tracked from now on: by a track of the font's tracking table, at a point size, as
    /// [`Tracking::tracking_at`] has it. The normal track is 0, that of 65536 is 1, and a size of 65536 is a point. A
    /// shaper that is not told so tracks nothing, and neither does one that is told a size of 0.
    ///
    /// Apple's TrueType Reference Manual, "The 'trak' table".
    pub fn with_tracking<B: Allocator>(
        mut self,
        tracking: &Tracking<B>,
        track: i32,
        size: u32,
    ) -> Self
        ensures { result ≡ record self.entry { values = values_at tracking.now track size } }
    {
        self.row_value = tracking.tracking_at(Direction::LeftToRight, track, size);
        self.column_value = tracking.tracking_at(Direction::TopToBottom, track, size);
        self
    }

    /// Has texts tracked from now on by the normal track, 0, at a point size: [`Shaper::with_tracking`] with that track.
    ///
    /// Apple's TrueType Reference Manual, "The 'trak' table".
    pub fn with_point_size<B: Allocator>(self, tracking: &Tracking<B>, size: u32) -> Self
        ensures { result ≡ record self.entry { values = values_at tracking.now (pos 0) size } }
    {
        self.with_tracking(tracking, 0, size)
    }

    /// The value by which texts of a direction are tracked, in units of the font.
    pub fn tracking_along(&self, direction: Direction) -> i32
        ensures { result ≡ value_along self.now.values direction }
    {
        if direction.is_horizontal() {
            self.row_value
        } else {
            self.column_value
        }
    }

    /// The glyphs of the text that was shaped last, in drawing order: from left to right, or from top to bottom. There
    /// are none before the first text, and where the last one was refused.
    pub fn glyphs(&self) -> &[ShapedGlyph]
        ensures { result.now ≡ self.now.glyphs }
    {
        &self.glyphs
    }

    /// Whether the text that was shaped last used up its budget of operations. A machine without a budget inserts no
    /// more, and moves on where it would stay. It is `false` before the first text, and where the last one was refused.
    pub fn is_budget_used_up(&self) -> bool
        ensures { result ≡ self.now.is_budget_used_up }
    {
        self.is_budget_used_up
    }

    /// The font.
    pub fn font(&self) -> &'f hb_font_t
        ensures { result.now ≡ self.now.font }
    {
        self.font
    }

    /// Leaves no glyphs, as where a text is refused.
    pub(crate) fn forget(&mut self)
        ensures { self.new ≡ record self.old { glyphs = []; is_budget_used_up = false } }
    {
        self.glyphs.clear();
        self.is_budget_used_up = false;
    }

    /// Another shaper of the font, which tracks as this one does.
    pub(crate) fn twin(&self, global: Global) -> Self
        ensures font { result.font ≡ self.now.font }
        ensures values { result.values ≡ self.now.values }
    {
        let mut twin = Shaper::new_in(global, self.alloc, self.font);
        twin.row_value = self.row_value;
        twin.column_value = self.column_value;
        twin
    }

    /// Whether the font has a feature. It has `kern` where it has a table of kerning, `aalt` where its names have
    /// character alternatives with settings, and any other one that is known here where they have its feature type with
    /// settings; small capitals of lower case letters also by the older type of letter case. A feature that the font
    /// does not have may be asked for, and changes nothing but where the text may be broken.
    ///
    /// Apple's TrueType Reference Manual, "The 'feat' table".
    pub fn has_feature(&self, tag: hb_tag_t) -> bool
        ensures { result ≡ has_feature self.now.font tag }
    {
        has_feature(self.font, tag)
    }

    /// Shapes a text, of which [`Shaper::glyphs`] then has what is drawn.
    ///
    /// The text goes in in reading order, whatever its direction is. The features hold over their ranges of clusters.
    /// Of several `kern` that hold a cluster the last in the list decides. Of others that exclude each other the first
    /// to start does, and of those that start together the first in the list, where for each that has ended the first
    /// that is equal to it is left out. `kern` with the value 0 turns kerning by pairs, and the values of machines
    /// along the line, off over its range: no glyph there is one of a pair. Features that the font does not have change
    /// nothing but where the text may be broken.
    ///
    /// The glyphs have the properties that the font has for them. Where it has no classes of glyphs, each mark of the text
    /// has the property of marks, and other glyphs have none; HarfBuzz 12.3.2 has that of bases there. By these pairs of
    /// `kerx` skip bases, ligatures and marks, and those of `kern` marks.
    ///
    /// The glyphs are shaped at the cluster level 0, in a line of at most 64 glyphs for each one of the text, or 16384
    /// if that is more, but never more than 0x3FFFFFFF, and with a budget of 1024 operations for each, or 16384 if that
    /// is more, but never more than 0x7FFFFFFF; [`Shaper::is_budget_used_up`] tells whether none of it is left.
    ///
    /// The line is tracked by the value of [`Shaper::tracking_along`], before attachments are added up: as the text is
    /// read, each drawn glyph that begins a cluster gets it added to its advance along the line, and stays where it is,
    /// as in HarfBuzz 12.3.2; version 6.0.0 moved it by half of the value.
    ///
    /// What comes out is in drawing order, from left to right or from top to bottom, so a backward text begins with its
    /// end. No glyph is 0xFFFF: deleted glyphs take no room, and go when the line has been turned. Offsets are added up
    /// along attachments. Where clusters never fall along the text, they never fall along a forward line, and never
    /// rise along a backward one.
    ///
    /// The text may be broken before each glyph that says so: cut at the later one of the two clusters that meet there,
    /// and its two parts shaped by themselves with the same features, what is drawn before the glyph looks as the one
    /// part does, and what is drawn from it on as the other one: ids, clusters, advances and offsets, and which glyphs are
    /// ignorable, and which marks. In a backward text the later part is drawn first.
    ///
    /// No glyph says so unless all of this holds. Clusters never fall along the text. No missing entry ends the run of a
    /// machine of `morx`, and none of rearrangement runs on the line in the opposite order. Substitution and kerning take
    /// fewer than 16384 operations.
    ///
    /// Then a glyph says so exactly where some glyph is drawn before it, and all of this is so at the place where it begins,
    /// with the deleted glyphs of its cluster in a row before it. The glyph before the place, which may be a deleted one, has
    /// another cluster. No glyph of the later of these two clusters, deleted ones included, is marked `UNSAFE_TO_BREAK` by
    /// substitution, which marks here, besides, what its acts look at (`close_table` of `aat_closing`). Kerning leaves the
    /// place open. And each feature holds all clusters from the one to the other, or none of them. It need hold only these
    /// two, or neither, where what the features ask of the font has no bounds, or where all subtables of `morx` that are for
    /// the text's direction and can be switched on are noncontextual: without features only the default flags of a chain
    /// switch, and with features also the flags that its own features set.
    ///
    /// Where subtables of the kerning table in use are for the direction, and all of these are of pairs along the line,
    /// kerning leaves the place open where it does not skip the glyph there, and marks no glyph of that later cluster.
    /// Elsewhere it does by what its runs touch (`place_openly` of `aat_shaped_text`), whatever the tables, where no glyph
    /// from there on is attached to one before. A subtable across the line attaches each glyph to the one before it: there a
    /// glyph says so only where a machine attaches it otherwise, or detaches it.
    ///
    /// A text that is no longer than the one before it, with no more features, is mostly shaped without a request for
    /// memory, unless that one had more than some 400,000 glyphs: what they were shaped in is given back. It takes as
    /// many steps as its line is long for each subtable and for each act, as many as there are features for each glyph,
    /// those of compiling the features, and those of the budget. An act that inserts far behind the place where the
    /// line is read moves the glyphs between: at most as many times as the budget has operations, and each time at most
    /// the line. So such a text of 16,000 glyphs may take 9 times as long as in HarfBuzz 12.3.2, whose budget ends
    /// after some 4,096 acts.
    ///
    /// Refused first as 2, `TooLong`, where the text has more than 2^24 glyphs. Then as 1, `AaltValue`, with the first
    /// value above 65535 that a feature `aalt` asks for, where the font has settings of character alternatives; as 2,
    /// `TooLong`, only where substitution makes the line too long; and as 3, `OutOfMemory`, where memory is wanting,
    /// which may come before either. It is never refused as 4, `BufferFailed`. Where it is refused there are no glyphs.
    ///
    /// Apple's TrueType Reference Manual, "The 'morx' table", "The 'kerx' table", "The 'kern' table" and
    /// "The 'trak' table".
    pub fn shape(
        &mut self,
        direction: Direction,
        text: &[TextGlyph],
        features: &[Feature],
    ) -> Result<(), AatError>
        ensures font { self.new.font ≡ self.old.font }
        ensures values { self.new.values ≡ self.old.values }
        ensures shaped { OnOk result (self.new.glyphs
            ≡ shaped_text (value_along self.old.values direction) self.old.font direction features.now text.now) }
        ensures budget { OnOk result
            (self.new.is_budget_used_up ≡ uses_up_budget self.old.font direction features.now text.now) }
        ensures long { most_text < length text.now → result ≡ Err AatError.TooLong }
        ensures refused { IfErr result (RefusesText self.old.font direction features.now text.now) }
        ensures fits { OnOk result (first_too_large_among (tables_of self.old.font).feat features.now ≡ None) }
        ensures empty { OnErr result
            (self.new ≡ record self.old { glyphs = []; is_budget_used_up = false }) }
        ensures breaks { OnOk result (BreaksHold (value_along self.old.values direction) self.old.font direction
            features.now text.now self.new.glyphs) }
        ensures undeleted { OnOk result (All (λ g. g.glyph_id ≢ deleted_glyph) self.new.glyphs) }
        ensures order { is_rising text.now ≡ true → OnOk result (AreInOrder direction self.new.glyphs) }
        ensures bounded { OnOk result (length self.new.glyphs ≤ most_glyphs (length text.now)) }
    {
        let value = self.tracking_along(direction);
        self.glyphs.clear();
        self.is_budget_used_up = false;
        if text.len() > LONGEST_TEXT {
            self.workspace.reset();
            return Err(AatError::TooLong);
        }
        take_features(&mut self.plan, features)?;
        self.workspace
            .make_room(self.alloc, room_of(text, features))?;
        let room = self.workspace.arena().allocated_bytes();
        let font = self.font;
        let shaped = draw_text(
            self.workspace.arena(),
            &self.plan,
            font,
            value,
            direction,
            text,
            &mut self.glyphs,
        );
        match shaped {
            Ok(is_used_up) => self.is_budget_used_up = is_used_up,
            Err(error) => {
                self.glyphs.clear();
                self.workspace.reset();
                return Err(error);
            }
        }
        texts_are_drawn_in_parts();
        self.workspace.empty(self.alloc, room);
        Ok(())
    }
}

/// Lets a plan apply these features, and request kerning as they do.
fn take_features(plan: &mut hb_ot_shape_plan_t, features: &[Feature]) -> Result<(), AllocError>
    ensures ok { plan.old.apply_morx ≡ true → plan.old.kern_mask ≡ 8 → OnOk result (IsPlanOf features.now plan.new) }
    ensures mask { plan.new.kern_mask ≡ plan.old.kern_mask }
    ensures applied { plan.new.apply_morx ≡ plan.old.apply_morx }
{
    plan.user_features.clear();
    plan.user_features.extend_from_slice(features)?;
    plan.requested_kerning = requests_kerning(features);
    Ok(())
}

/// How many bytes a text is given to be shaped in.
fn room_of(text: &[TextGlyph], features: &[Feature]) -> usize {
    let glyphs = text.len().min(LONGEST_TEXT);
    let features = features.len().min(LONGEST_TEXT);
    4096 + 168 * glyphs + 512 * features
}
