//! Values of all glyphs of a font.
ghost use Rattle.std.specs.Prelude.{◌≡◌, ℕ, ◌<◌, ◌≤◌, IfOk, IfErr, length, slice_index_or};
ghost use Rattle.aat_bytes.specs.declared.error.ReadError.TheVariants as errors;
ghost use Rattle.aat_lookup.specs.EachGlyph.{pairs_of_each};
ghost use Rattle.aat_face.specs.Lists.{advance_pairs, property_pairs};

use aat_bytes::ReadError;
use aat_lookup::Lookup;
use aat_read_sfnt::{GlyphClasses, Metrics};
use std::alloc::{AllocError, Global};

/// The advances of so many glyphs, in units of the font. Without a long metric each has another one.
pub fn advance_lookup(
    alloc: Global,
    metrics: &Metrics<'_>,
    other: u16,
    glyph_count: u16,
) -> Result<Lookup, ReadError>
    ensures ok { IfOk result (λ lookup. lookup ≡ advance_pairs metrics.now other glyph_count) }
    ensures refused { IfErr result (λ error. error ≡ errors.OutOfMemory) }
{
    let mut advances = vec![in alloc; other; glyph_count as usize]?;
    metrics.write_advances(&mut advances);
    Ok(Lookup::of_values(advances))
}

/// Writes a property over those of the glyphs from one up to another.
fn write_property(properties: &mut [u16], from: usize, to: usize, property: u16)
    requires { to ≤ length properties.old }
    ensures long { length properties.new ≡ length properties.old }
    ensures before { (k : ℕ) → k < from → slice_index_or properties.new k 0 ≡ slice_index_or properties.old k 0 }
    ensures written { (k : ℕ) → from ≤ k → k < to → slice_index_or properties.new k 0 ≡ property }
{
    for glyph in from..to {
        properties[glyph] = property;
    }
}

/// The property that kerning asks, of so many glyphs: that of marks, and no other. HarfBuzz's kerning skips marks alone,
/// and that of the layer by `kerx` bases and ligatures too.
fn properties_of(
    alloc: Global,
    classes: &GlyphClasses<'_>,
    glyph_count: u16,
) -> Result<Vec<u16>, AllocError>
    ensures long { IfOk result (λ properties. length properties.items ≡ glyph_count) }
    ensures each { IfOk result (λ properties. pairs_of_each properties.items ≡ property_pairs classes.now glyph_count) }
{
    let count = glyph_count as usize;
    let mut properties = vec![in alloc; 0; count]?;
    let mut from = 0;
    while from < count {
        let (property, end) = classes.mark_until(from as u16);
        let to = count.min(end as usize);
        write_property(&mut properties, from, to, property);
        from = to;
    }
    Ok(properties)
}

/// The property of marks, of so many glyphs.
pub fn property_lookup(
    alloc: Global,
    classes: &GlyphClasses<'_>,
    glyph_count: u16,
) -> Result<Lookup, ReadError>
    ensures ok { IfOk result (λ lookup. lookup ≡ property_pairs classes.now glyph_count) }
    ensures refused { IfErr result (λ error. error ≡ errors.OutOfMemory) }
{
    let properties = properties_of(alloc, classes, glyph_count)?;
    Ok(Lookup::of_values(properties))
}
