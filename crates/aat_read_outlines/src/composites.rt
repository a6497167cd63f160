//! Outlines of glyphs, also of those that are made of others.
ghost use Rattle.std.specs.Prelude.{◌≡◌, ◌+◌, ◌<◌, ◌≤◌, ◌++◌, ℕ, IfOk, OnOk, length, map, slice_index};
ghost use Rattle.aat_read_outlines.specs.Components.{placed};
ghost use Rattle.aat_read_outlines.specs.Composites.{drawn_at, plain_outline};
ghost use Rattle.aat_read_outlines.specs.Reading.{Gives};

use crate::components::{Component, components_of};
use crate::glyph::GlyphBytes;
use crate::offsets::Outlines;
use crate::outline::{Outline, OutlinePoint};
use crate::simple::simple_outline;
use aat_bytes::{ReadError, be16};
use std::alloc::{AllocError, Allocator};
use std::marker::Model;

/// Puts the points of a component's glyph behind others.
pub(crate) fn append_placed<A: Allocator>(
    points: &mut Vec<OutlinePoint, A>,
    component: Component,
    inner: &[OutlinePoint],
) -> Result<(), AllocError>
    ensures { OnOk result (points.new.items ≡ points.old.items ++ map (placed component) inner.now) }
{
    for point in inner {
        points.push(component.placed(*point))?;
    }
    Ok(())
}

/// Puts the ends of contours, whose points stand behind so many, behind others.
pub(crate) fn append_ends<A: Allocator>(
    ends: &mut Vec<u32, A>,
    count: u32,
    inner: &[u32],
) -> Result<(), AllocError>
    requires few { count ≤ 65536 }
    requires inside { (k : ℕ) → k < length inner.now → slice_index inner.now k ≤ 65536 }
    ensures { OnOk result (ends.new.items ≡ ends.old.items ++ map (λ end. count + end) inner.now) }
{
    for end in inner {
        ends.push(count + *end)?;
    }
    Ok(())
}

/// The outline of a glyph that is not composite.
fn plain_outline<A: Allocator + Copy>(
    alloc: A,
    glyph: &GlyphBytes<'_>,
) -> Result<Option<Outline<A>>, ReadError>
    ensures read { Gives result (plain_outline glyph.now) }
    ensures whole { IfOk result (λ plain. plain ≡ None → 10 ≤ length glyph.now.bytes) }
{
    let bytes = glyph.bytes();
    if bytes.is_empty() {
        return Ok(Some(Outline::empty(alloc)));
    }
    if bytes.len() < 10 {
        return Err(ReadError::Fault(glyph.past(0)));
    }
    let contours = be16(bytes, 0);
    if contours >= 32768 {
        return Ok(None);
    }
    if contours == 0 {
        return Ok(Some(Outline::empty(alloc)));
    }
    Ok(Some(simple_outline(alloc, glyph, contours)?))
}

/// An outline, and how many more components may be read.
#[derive(Drop)]
pub(crate) struct Drawing<A: Allocator> {
    pub(crate) outline: Outline<A>,
    left: u8,
}

impl<A: Allocator> Model for Drawing<A> {
    ghost use Rattle.aat_read_outlines.specs.Composites as composites;

    ghost Value = { composites.Drawing };

    ghost view = { λ m. record { outline = m.outline; left = m.left } };
}

impl<A: Allocator> Drawing<A> {
    /// The outline, with so many components left.
    fn new(outline: Outline<A>, left: u8) -> Drawing<A>
        ensures { result ≡ record { outline = outline; left = left } }
    {
        Drawing { outline, left }
    }
}

/// The drawing of a glyph, where composite glyphs go so deep and have so many components.
pub(crate) fn drawn_at<A: Allocator + Copy>(
    alloc: A,
    tables: &Outlines<'_>,
    depth: u8,
    left: u8,
    glyph: u16,
) -> Result<Drawing<A>, ReadError>
    ensures { Gives result (drawn_at tables.now depth left glyph) }
{
    let bytes = tables.glyph_bytes(glyph)?;
    if let Some(outline) = plain_outline(alloc, &bytes)? {
        return Ok(Drawing::new(outline, left));
    }
    if depth == 0 {
        return Ok(Drawing::new(Outline::empty(alloc), left));
    }
    let components = components_of(alloc, &bytes, left)?;
    let mut outline = Outline::empty(alloc);
    let mut unused = left - components.len() as u8;
    for component in &components {
        let inner = drawn_at(alloc, tables, depth - 1, unused, component.glyph)?;
        outline = outline.joined(*component, &inner.outline)?;
        unused = inner.left;
    }
    Ok(Drawing::new(outline, unused))
}
