//! The glyph definition table: classes of glyphs.
ghost use Rattle.std.specs.Prelude.{◌≡◌, ℕ, ◌<◌, ◌≤◌, bit_and};
ghost use Rattle.aat_read_sfnt.specs.GlyphClasses.{class_fault, glyph_classes_of, properties_of};

use crate::class_definition::ClassDefinition;
use crate::tags::GDEF;
use aat_bytes::{Fault, FaultKind, be16};

/// The classes of a font's glyphs.
#[derive(Drop)]
pub struct GlyphClasses<'a> {
    /// The class of a glyph: 1 is a base, 2 a ligature, 3 a mark, 4 a component.
    pub classes: ClassDefinition<'a>,
    /// The class of a mark, among marks.
    pub mark_classes: ClassDefinition<'a>,
}

impl<'a> GlyphClasses<'a> {
    /// The classes of the table `GDEF`.
    ///
    /// The first fault in this order: 1, `PastEnd`, a header of 12 bytes that is not there; 2, `UnknownFormat`, a
    /// version that is not 1; then of the classes 1, a field that is not there. Classes of another format than 1 and 2
    /// are read, but by them no glyph has a class, and so are classes of marks that are cut short: `fault` tells them.
    #[tactic(auto, unfolding(crate::specs::GlyphClasses::glyph_classes_of))]
    pub fn read(gdef: &'a [u8]) -> Result<GlyphClasses<'a>, Fault>
        ensures { result ≡ glyph_classes_of gdef.now }
    {
        if gdef.len() < 12 {
            return Err(Fault::new(GDEF, FaultKind::PastEnd, 0));
        }
        if be16(gdef, 0) != 1 {
            return Err(Fault::new(GDEF, FaultKind::UnknownFormat, 0));
        }
        let classes = ClassDefinition::read(gdef, be16(gdef, 4))?;
        let mark_classes = match ClassDefinition::read(gdef, be16(gdef, 10)) {
            Ok(mark_classes) => mark_classes,
            Err(fault) => ClassDefinition::Faulty(fault),
        };
        Ok(GlyphClasses {
            classes,
            mark_classes,
        })
    }

    /// The first fault of classes by which no glyph has a class, though the table is read.
    pub fn fault(&self) -> Option<Fault>
        ensures { result ≡ class_fault self.now }
    {
        match self.classes.fault() {
            Some(fault) => Some(fault),
            None => self.mark_classes.fault(),
        }
    }

    /// The properties of a glyph, as `hb_font_t` has them: 0x02 a base, 0x04 a ligature, 0x08 a mark, which has its
    /// class among marks in the high byte, and 0 for every other glyph.
    pub fn properties(&self, glyph: u16) -> u16
        ensures { result ≡ properties_of self.now glyph }
    {
        self.properties_until(glyph).0
    }

    /// The properties of a glyph, and a number above it: the glyphs from this one on and below that number have the
    /// same ones. For who asks for those of all glyphs in their order.
    pub fn properties_until(&self, glyph: u16) -> (u16, u32)
        ensures same { (g : ℕ) → glyph ≤ g → g < result.1 → properties_of self.now g ≡ result.0 }
        ensures some { glyph < result.1 }
    {
        let (class, end) = self.classes.class_until(glyph);
        match class {
            1 => (0x02, end),
            2 => (0x04, end),
            // the next mark may be of another class among marks
            3 => (
                0x08 + 256 * (self.mark_classes.class(glyph) % 256),
                glyph as u32 + 1,
            ),
            _ => (0, end),
        }
    }

    /// The property of marks of a glyph, 0x08 where it is one and else 0, and a number above it: the glyphs from this
    /// one on and below that number have the same. For who asks for that of all glyphs in their order.
    #[tactic(auto, using(crate::proofs::Marks::mark_has))]
    pub fn mark_until(&self, glyph: u16) -> (u16, u32)
        ensures same { (g : ℕ) → glyph ≤ g → g < result.1 → bit_and (properties_of self.now g) 8 ≡ result.0 }
        ensures some { glyph < result.1 }
    {
        let (class, end) = self.classes.class_until(glyph);
        if class == 3 { (0x08, end) } else { (0, end) }
    }
}
