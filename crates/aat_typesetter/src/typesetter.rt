//! The typesetter: a text of characters goes in, and what is drawn comes out.
ghost use Rattle.std.specs.Prelude.{◌≡◌, ◌≤◌, ◌^◌, ◌↔◌, [], length, true, IfErr, IfOk, IsErrOf, OnErr, OnOk};
ghost use Rattle.aat_face.specs.Faces.{font_value};
ghost use Rattle.aat_typesetter.specs.Prepared.{glyph_text, options_for_lines, prepared};
ghost use Rattle.aat_typesetter.specs.Typeset.{BreaksHoldIn, IsWithinLimits, RefusesSetting, drawn_setting, nothing_set, setting, setting_for_lines, setting_of, setting_of_glyphs, shaped_setting, typeset_line, uses_up};
ghost use Rattle.aat_typesetter.specs.TypesetErrors.{RefusesTypesetting};
ghost use Rattle.aat_typesetter.specs.TypesetLines.{AreSetLines, AreTypesetLines, RefusesParts, end_of_lines};

use crate::error::TypesetError;
use crate::lines::TypesetLine;
use crate::memory::TypesetterMemory;
use crate::options::TextOptions;
use crate::prepared::{PreparedText, options_for_lines, prepare};
use crate::shaping::{draw, draw_lines, track_at};
use crate::showing::Drawn;
use aat_face::Face;
use aat_font::Feature;
use aat_glyph::Direction;
use aat_shaped_text::{ShapedGlyph, TextGlyph};
use aat_shaper::Shaper;
use aat_showing::laws::breaks_hold_as_shown;
use aat_text::{LineEnd, TextError, line_ends};
use std::alloc::{Allocator, Global};
use std::marker::Model;
use std::mem;

/// A typesetter of texts of a face. It is made once for a face, typesets many texts, and keeps its memory between them.
/// A contract sees it as the record `TypesetterValue`.
///
/// ```
/// let face = Face::read(alloc, &bytes, 0)?;
/// let mut typesetter = Typesetter::new(alloc, &face);
/// let features = parse_features(alloc, "smcp,-liga")?;
/// let options = TextOptions { features: &features, ..TextOptions::new() };
/// typesetter.line("fila fa-la", &options)?;
/// ```
#[derive(Drop)]
pub struct Typesetter<'f, A: Allocator + Copy = Global> {
    face: &'f Face<'f>,
    global: Global,
    alloc: A,
    shaper: Shaper<'f, A>,
    text: PreparedText<A>,
    /// The features with which the last text was shaped.
    asked: Vec<Feature, A>,
    /// What is drawn of what the shaper has shaped last.
    drawn: Drawn<A>,
    /// Whether the text is that which the shaper has shaped last.
    is_set: bool,
}

impl<'f, A: Allocator + Copy> Model for Typesetter<'f, A> {
    ghost use Rattle.aat_typesetter.specs.Typeset.{TypesetterValue};
    ghost use Rattle.aat_typesetter.specs.inside.Inside.{TracksByTable, typesetter_of};

    ghost Value = { TypesetterValue };

    ghost view = { typesetter_of };

    ghost invariant = { TracksByTable };
}

impl<'f> Typesetter<'f> {
    /// A typesetter of texts of a face. It takes no memory before the first text.
    pub fn new(alloc: Global, face: &'f Face<'f>) -> Typesetter<'f>
        ensures face { result.face ≡ face.now }
        ensures font { font_value result.font ≡ face.now.font }
        ensures nothing { result ≡ nothing_set result }
    {
        Typesetter::new_in(alloc, alloc, face)
    }
}

impl<'f, A: Allocator + Copy> Typesetter<'f, A> {
    /// A typesetter of texts of a face that takes its memory from `alloc`, but that for the features of its
    /// shaper, which it takes from `global`. It takes no memory before the first text.
    pub fn new_in(global: Global, alloc: A, face: &'f Face<'f>) -> Typesetter<'f, A>
        ensures face { result.face ≡ face.now }
        ensures font { font_value result.font ≡ face.now.font }
        ensures nothing { result ≡ nothing_set result }
    {
        Typesetter::with_memory(face, TypesetterMemory::new_in(global, alloc))
    }

    /// A typesetter of texts of a face, in the memory of another typesetter, whose texts it does not show.
    pub fn with_memory(face: &'f Face<'f>, memory: TypesetterMemory<A>) -> Typesetter<'f, A>
        ensures face { result.face ≡ face.now }
        ensures font { font_value result.font ≡ face.now.font }
        ensures nothing { result ≡ nothing_set result }
    {
        let TypesetterMemory {
            global,
            alloc,
            shaper,
            text,
            asked,
            mut glyphs,
        } = memory;
        glyphs.clear();
        Typesetter {
            face,
            global,
            alloc,
            shaper: Shaper::with_memory(face.font(), shaper),
            text: PreparedText::none_in(text),
            asked,
            drawn: Drawn {
                is_as_shaped: false,
                glyphs,
            },
            is_set: false,
        }
    }

    /// Its memory, for another typesetter.
    pub fn into_memory(self) -> TypesetterMemory<A> {
        let Typesetter {
            global,
            alloc,
            shaper,
            text,
            asked,
            drawn,
            ..
        } = self;
        TypesetterMemory {
            global,
            alloc,
            shaper: shaper.into_memory(),
            text: text.glyphs,
            asked,
            glyphs: drawn.glyphs,
        }
    }

    /// The face.
    pub fn face(&self) -> &'f Face<'f>
        ensures { result.now ≡ self.now.face }
    {
        self.face
    }

    /// The direction in which the text that was typeset last was shaped: left to right before the first one, and where
    /// that was refused.
    pub fn direction(&self) -> Direction
        ensures { result ≡ self.now.text.direction }
    {
        self.text.direction
    }

    /// The glyphs of the text that was typeset last, in the order in which they were shaped. There are none before the
    /// first text, and where the last one was refused.
    pub fn text(&self) -> &[TextGlyph]
        ensures { result.now ≡ self.now.text.glyphs }
    {
        &self.text.glyphs
    }

    /// What was shaped of the text that was typeset last, in one line in drawing order: what is drawn, before
    /// its glyphs were put in their places and ignorable ones hidden. There is nothing before the first text, and where
    /// the last one was refused.
    pub fn shaped(&self) -> &[ShapedGlyph]
        ensures { result.now ≡ self.now.shaped }
    {
        if self.is_set {
            self.shaper.glyphs()
        } else {
            &[]
        }
    }

    /// What is drawn of the text that was typeset last in one line, in drawing order: from left to right, or from top
    /// to bottom. There are no glyphs before the first text, where the last one was refused, and where it was broken
    /// into lines, which have their own.
    pub fn glyphs(&self) -> &[ShapedGlyph]
        ensures { result.now ≡ self.now.glyphs }
    {
        self.drawn.of(self.shaper.glyphs())
    }

    /// Whether the text that was typeset last used up its budget of operations in one line, as
    /// `Shaper::is_budget_used_up` of `aat_shaper` has it. It is `false` before the first text, and where the last one
    /// was refused.
    pub fn is_budget_used_up(&self) -> bool
        ensures { result ≡ self.now.is_budget_used_up }
    {
        self.is_set && self.shaper.is_budget_used_up()
    }

    /// Leaves nothing of the text that was typeset last.
    fn forget(&mut self)
        ensures { self.new ≡ nothing_set self.old }
    {
        self.text.forget();
        self.drawn.is_as_shaped = false;
        self.drawn.glyphs.clear();
        self.is_set = false;
    }

    /// A text made ready, in the memory of the last one, of which nothing is left.
    fn prepare(
        &mut self,
        options: &TextOptions<'_>,
        text: &str,
    ) -> Result<PreparedText<A>, TextError>
        ensures ok { IfOk result (λ ready. ready ≡ prepared self.old.face options.now text.now) }
        ensures too_long { IsErrOf result TextError.TooLong ↔ (2 ^ 32 ≤ length text.now) }
        ensures left { self.new ≡ nothing_set self.old }
    {
        self.forget();
        let room = mem::replace(&mut self.text.glyphs, Vec::new(self.alloc));
        prepare(self.shaper.scratch(), room, self.face, options, text)
    }

    /// Typesets a text that is ready, in one line.
    fn set(&mut self, text: PreparedText<A>, options: &TextOptions<'_>) -> Result<(), TypesetError>
        ensures face { self.new.face ≡ self.old.face }
        ensures font { self.new.font ≡ self.old.font }
        ensures text { OnOk result (self.new.text ≡ text) }
        ensures shaped { OnOk result (self.new.shaped ≡ shaped_setting (setting_of self.old options.now text)) }
        ensures drawn { OnOk result (self.new.glyphs ≡ drawn_setting (setting_of self.old options.now text)) }
        ensures budget { OnOk result (self.new.is_budget_used_up ≡ uses_up (setting_of self.old options.now text)) }
        ensures refused { IfErr result
            (RefusesTypesetting ⊥ (RefusesSetting (setting_of self.old options.now text))) }
        ensures fits { OnOk result (IsWithinLimits (setting_of self.old options.now text)) }
        ensures empty { OnErr result (self.new ≡ nothing_set self.old) }
    {
        let (face, features) = (self.face, options.features);
        track_at(
            self.global,
            self.alloc,
            face,
            options.size,
            &mut self.shaper,
        );
        let room = mem::replace(&mut self.drawn.glyphs, Vec::new(self.alloc));
        match draw(
            self.alloc,
            room,
            face,
            &mut self.shaper,
            &mut self.asked,
            features,
            &text,
        ) {
            Ok(drawn) => {
                self.drawn = drawn;
                self.text = text;
                self.is_set = true;
                Ok(())
            }
            Err(error) => {
                self.forget();
                Err(error)
            }
        }
    }

    /// Typesets a text in one line, of which [`Typesetter::glyphs`] then has what is drawn.
    ///
    /// The text becomes glyphs as `prepare_text` of `aat_text` has it: turned, mirrored and composed as in HarfBuzz.
    /// For glyph 0, that of a character that the font lacks, stands the one of the options. The text runs in the
    /// direction of the options, else in that of its script, and is shaped in the native one, as `Shaper::shape` of
    /// `aat_shaper` does, with the features of the options, and tracked by the normal track of the face at their size.
    /// Without `kerx`, `kern` is off where the script does not take it. Then glyphs of vertical text are set in columns
    /// (`set_in_columns` of `aat_showing`), spaces that the face lacks get their own width (`widen_spaces`), where
    /// HarfBuzz has it marks lose their width (`zero_marks`) and are placed by boxes (`place_marks`), and ignorable
    /// glyphs are hidden (`hide_ignorables`): they are drawn as the space of the face without width, and are taken out
    /// where it has none.
    ///
    /// The text may be broken before each glyph that says so, at the later one of the two clusters that meet there: its
    /// glyphs in two parts, shaped and shown alike, look as they do here. A part of its characters may have another
    /// script.
    ///
    /// Refused as 1, `TextTooLong`, exactly where the text has more than 4,294,967,295 bytes. Then as 2, `Refused`,
    /// where the shaper refuses its glyphs: as `TooLong` where they are more than 2^24, as `AaltValue` for a value
    /// above 65535 that a feature `aalt` asks for, and as `TooLong` where substitution makes the line too long. And as
    /// 3, `OutOfMemory`, where memory is wanting. Where it is refused there are no glyphs.
    pub fn line(&mut self, text: &str, options: &TextOptions<'_>) -> Result<(), TypesetError>
        ensures face { self.new.face ≡ self.old.face }
        ensures font { self.new.font ≡ self.old.font }
        ensures text { OnOk result (self.new.text
            ≡ prepared self.old.face options.now text.now) }
        ensures shaped { OnOk result (self.new.shaped ≡ shaped_setting (setting self.old options.now text.now)) }
        ensures ok { OnOk result (self.new.glyphs ≡ typeset_line self.old options.now text.now) }
        ensures breaks { OnOk result (BreaksHoldIn (setting self.old options.now text.now) self.new.glyphs) }
        ensures budget { OnOk result
            (self.new.is_budget_used_up ≡ uses_up (setting self.old options.now text.now)) }
        ensures too_long { IsErrOf result TypesetError.TextTooLong ↔ (2 ^ 32 ≤ length text.now) }
        ensures refused { IfErr result (RefusesTypesetting (2 ^ 32 ≤ length text.now)
            (RefusesSetting (setting self.old options.now text.now))) }
        ensures fits { OnOk result (IsWithinLimits (setting self.old options.now text.now)) }
        ensures empty { OnErr result (self.new ≡ nothing_set self.old) }
    {
        let ready = self.prepare(options, text)?;
        self.set(ready, options)?;
        breaks_hold_as_shown();
        Ok(())
    }

    /// Typesets glyphs with clusters of their own in one line: none is turned, marks keep their width and place, and
    /// `kern` is not put off. They run from left to right where the options have no direction. Script, unit, level and
    /// `not_found` do not count.
    ///
    /// Refused as [`Typesetter::line`] refuses a text, but for 1, `TextTooLong`.
    pub fn line_of_glyphs(
        &mut self,
        text: Vec<TextGlyph, A>,
        options: &TextOptions<'_>,
    ) -> Result<(), TypesetError>
        ensures face { self.new.face ≡ self.old.face }
        ensures font { self.new.font ≡ self.old.font }
        ensures text { OnOk result (self.new.text ≡ glyph_text options.now.direction text.items) }
        ensures shaped { OnOk result
            (self.new.shaped ≡ shaped_setting (setting_of_glyphs self.old options.now text.items)) }
        ensures ok { OnOk result (self.new.glyphs ≡ drawn_setting (setting_of_glyphs self.old options.now text.items)) }
        ensures breaks { OnOk result
            (BreaksHoldIn (setting_of_glyphs self.old options.now text.items) self.new.glyphs) }
        ensures budget { OnOk result
            (self.new.is_budget_used_up ≡ uses_up (setting_of_glyphs self.old options.now text.items)) }
        ensures refused { IfErr result
            (RefusesTypesetting ⊥ (RefusesSetting (setting_of_glyphs self.old options.now text.items))) }
        ensures fits { OnOk result (IsWithinLimits (setting_of_glyphs self.old options.now text.items)) }
        ensures empty { OnErr result (self.new ≡ nothing_set self.old) }
    {
        let direction = options.direction.unwrap_or(Direction::LeftToRight);
        self.set(
            PreparedText {
                glyphs: text,
                rules: None,
                direction,
            },
            options,
        )?;
        breaks_hold_as_shown();
        Ok(())
    }

    /// Typesets a text that is ready in lines of a width, which may end at places of its characters.
    fn set_in_lines(
        &mut self,
        text: PreparedText<A>,
        ends: &[LineEnd],
        width: u64,
        options: &TextOptions<'_>,
    ) -> Result<Vec<TypesetLine<A>, A>, TypesetError>
        ensures face { self.new.face ≡ self.old.face }
        ensures font { self.new.font ≡ self.old.font }
        ensures text { OnOk result (self.new.text ≡ text) }
        ensures shaped { OnOk result (self.new.shaped ≡ shaped_setting (setting_of self.old options.now text)) }
        ensures glyphs { OnOk result (self.new.glyphs ≡ []) }
        ensures lines { IfOk result (λ r. AreSetLines (setting_of self.old options.now text) ends.now width r.items) }
        ensures end { IfOk result (λ r. end_of_lines r.items ≡ length text.glyphs) }
        ensures budget { OnOk result (self.new.is_budget_used_up ≡ uses_up (setting_of self.old options.now text)) }
        ensures refused { IfErr result (RefusesTypesetting ⊥ (RefusesParts (setting_of self.old options.now text))) }
        ensures fits { OnOk result (IsWithinLimits (setting_of self.old options.now text)) }
        ensures empty { OnErr result (self.new ≡ nothing_set self.old) }
    {
        let (face, features) = (self.face, options.features);
        track_at(
            self.global,
            self.alloc,
            face,
            options.size,
            &mut self.shaper,
        );
        match draw_lines(
            self.global,
            self.alloc,
            face,
            &mut self.shaper,
            &mut self.asked,
            features,
            &text,
            ends,
            width,
        ) {
            Ok(lines) => {
                self.drawn.is_as_shaped = false;
                self.drawn.glyphs.clear();
                self.text = text;
                self.is_set = true;
                Ok(lines)
            }
            Err(error) => {
                self.forget();
                Err(error)
            }
        }
    }

    /// Typesets a text and breaks it into lines of a width, in units of the font.
    ///
    /// A line may end where `line_ends` of `aat_text` has it, and at the end of the text; it ends where that is forced.
    /// The spaces before its end, glyphs of the face's space, hang over it and count for no width, nor do ignorable
    /// glyphs. It takes in ends as long as the text up to the next one fits, and at least one, as `Shaper::shape_lines`
    /// of `aat_shaper` does. The text runs in the direction in which it is shaped, whatever the options tell, and
    /// glyphs count with the advances that they had before they were put in their places. What is drawn of a line looks
    /// as its glyphs do, shaped and shown by themselves with the rules of the whole text's script. A text without an
    /// end, or along which clusters fall, is one line, and an empty one has no line.
    ///
    /// [`Typesetter::shaped`] has what is shaped of the text in one line, and [`Typesetter::glyphs`] nothing.
    ///
    /// Refused as [`Typesetter::line`] refuses the text or a part of it.
    pub fn lines(
        &mut self,
        text: &str,
        width: u64,
        options: &TextOptions<'_>,
    ) -> Result<Vec<TypesetLine<A>, A>, TypesetError>
        ensures face { self.new.face ≡ self.old.face }
        ensures font { self.new.font ≡ self.old.font }
        ensures text { OnOk result (self.new.text
            ≡ prepared self.old.face (options_for_lines options.now text.now) text.now) }
        ensures shaped { OnOk result
            (self.new.shaped ≡ shaped_setting (setting_for_lines self.old options.now text.now)) }
        ensures glyphs { OnOk result (self.new.glyphs ≡ []) }
        ensures lines { IfOk result (λ r. AreTypesetLines self.old options.now text.now width r.items) }
        ensures end { IfOk result (λ r.
            end_of_lines r.items ≡ length (setting_for_lines self.old options.now text.now).text.glyphs) }
        ensures too_long { IsErrOf result TypesetError.TextTooLong ↔ (2 ^ 32 ≤ length text.now) }
        ensures budget { OnOk result
            (self.new.is_budget_used_up ≡ uses_up (setting_for_lines self.old options.now text.now)) }
        ensures refused { IfErr result (RefusesTypesetting (2 ^ 32 ≤ length text.now)
            (RefusesParts (setting_for_lines self.old options.now text.now))) }
        ensures fits { OnOk result (IsWithinLimits (setting_for_lines self.old options.now text.now)) }
        ensures empty { OnErr result (self.new ≡ nothing_set self.old) }
    {
        let told = options_for_lines(options, text);
        let ready = self.prepare(&told, text)?;
        let ends = line_ends(self.alloc, options.unit, text)?;
        self.set_in_lines(ready, &ends, width, &told)
    }
}
