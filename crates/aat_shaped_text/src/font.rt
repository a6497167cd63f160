//! Whether the subtables of a font substitute and kern glyphs apart, and what its kerning skips.
ghost use Rattle.std.specs.Prelude.{◌≡◌, None, bit_or, fold};
ghost use Rattle.std.specs.List.{list_all, list_any};
ghost use Rattle.aat_font.specs.Face.{kern_in, kerx_in, tables_of};
ghost use Rattle.aat_kerning.specs.Positioning.{is_for_direction, is_kern_pairs, is_kerx_pairs, kerning_of_kern_subtable, kerning_of_kerx_subtable};
ghost use Rattle.aat_closing.specs.ClosingCuts.{is_noncontextual};
ghost use Rattle.aat_shaped_text.specs.Unkerned.{is_unkerned};
ghost use Rattle.aat_shaped_text.specs.Breaks.{keeps_apart, kernings_of, kerns_apart, kerns_by_pairs, kerns_pairs_along, possible_flags, skips_of, substitutes_apart};

use aat_layout::buffer::{Direction, hb_mask_t};
use aat_layout::font::{
    Chain, Feature, KernKind, KernSubtable, KerxFormat, KerxSubtable, Subtable, SubtableKind,
    hb_font_t,
};
use aat_layout::{KERN_SKIPS, KERX_SKIPS};
use aat_morx::is_for;

/// All flags that a chain can come to have.
fn all_flags(chain: &Chain) -> hb_mask_t
    ensures { result ≡ fold (λ flags f. bit_or flags f.enable_flags) chain.now.default_flags chain.now.features.items }
{
    let mut flags = chain.default_flags;
    for feature in &chain.features {
        flags |= feature.enable_flags;
    }
    flags
}

/// The flags that a chain can come to have in a text with these features.
fn possible_flags(chain: &Chain, features: &[Feature]) -> hb_mask_t
    ensures { result ≡ possible_flags features.now chain.now }
{
    if features.is_empty() {
        chain.default_flags
    } else {
        all_flags(chain)
    }
}

/// Whether a subtable substitutes each glyph by itself.
fn is_noncontextual(kind: &SubtableKind) -> bool
    ensures { result ≡ is_noncontextual kind.now }
{
    matches!(kind, SubtableKind::NonContextual(_))
}

/// Whether a subtable keeps texts of a direction apart, under these flags.
fn keeps_apart(direction: Direction, flags: hb_mask_t, subtable: &Subtable) -> bool
    ensures { result ≡ keeps_apart direction flags subtable.now }
{
    is_noncontextual(&subtable.kind)
        || !is_for(direction, subtable.coverage)
        || flags & subtable.feature_flags == 0
}

/// Whether each subtable of a chain does.
fn chain_keeps_apart(direction: Direction, features: &[Feature], chain: &Chain) -> bool
    ensures { result ≡ list_all (keeps_apart direction (possible_flags features.now chain.now))
        chain.now.subtables.items }
{
    let flags = possible_flags(chain, features);
    chain
        .subtables
        .iter()
        .all(|subtable| keeps_apart(direction, flags, subtable))
}

/// Whether each subtable of the extended glyph metamorphosis table does.
pub fn substitutes_apart(face: &hb_font_t, direction: Direction, features: &[Feature]) -> bool
    ensures { result ≡ substitutes_apart face.now direction features.now }
{
    face.chains()
        .iter()
        .all(|chain| chain_keeps_apart(direction, features, chain))
}

/// Whether a subtable of the extended kerning table is for texts of a direction.
pub(crate) fn is_kerx_for(direction: Direction, subtable: &KerxSubtable) -> bool
    ensures { result ≡ is_for_direction (kerning_of_kerx_subtable 8 None subtable.now) direction }
{
    !subtable.variable && subtable.horizontal == direction.is_horizontal()
}

/// Whether a subtable of the kerning table is for texts of a direction.
pub(crate) fn is_kern_for(direction: Direction, subtable: &KernSubtable) -> bool
    ensures { result ≡ is_for_direction (kerning_of_kern_subtable 8 subtable.now) direction }
{
    !subtable.variable && subtable.horizontal == direction.is_horizontal()
}

/// Whether a subtable of the extended kerning table is of pairs.
pub(crate) fn is_of_kerx_pairs(subtable: &KerxSubtable) -> bool
    ensures { result ≡ is_kerx_pairs subtable.now.format }
{
    !matches!(
        &subtable.format,
        KerxFormat::Format1(_) | KerxFormat::Format4(_)
    )
}

/// Whether a subtable of the kerning table is of pairs.
pub(crate) fn is_of_kern_pairs(subtable: &KernSubtable) -> bool
    ensures { result ≡ is_kern_pairs subtable.now.kind }
{
    !matches!(&subtable.kind, KernKind::Machine(_))
}

/// Whether a subtable of the extended kerning table is not for texts of a direction, or kerns pairs along the line.
fn kerx_pairs_along(direction: Direction, subtable: &KerxSubtable) -> bool
    ensures { result ≡ kerns_pairs_along direction (kerning_of_kerx_subtable 8 None subtable.now) }
{
    !is_kerx_for(direction, subtable) || (is_of_kerx_pairs(subtable) && !subtable.has_cross_stream)
}

/// The same of a subtable of the kerning table.
fn kern_pairs_along(direction: Direction, subtable: &KernSubtable) -> bool
    ensures { result ≡ kerns_pairs_along direction (kerning_of_kern_subtable 8 subtable.now) }
{
    !is_kern_for(direction, subtable) || (is_of_kern_pairs(subtable) && !subtable.has_cross_stream)
}

/// Whether each subtable of the extended kerning table does so.
fn kerx_apart(face: &hb_font_t, direction: Direction) -> bool
    ensures { result ≡ list_all (λ s. kerns_pairs_along direction (kerning_of_kerx_subtable 8 None s))
        (kerx_in (tables_of face.now).kerx) }
{
    face.kerx_subtables()
        .iter()
        .all(|subtable| kerx_pairs_along(direction, subtable))
}

/// Whether each subtable of the kerning table does so.
fn kern_apart(face: &hb_font_t, direction: Direction) -> bool
    ensures { result ≡ list_all (λ s. kerns_pairs_along direction (kerning_of_kern_subtable 8 s))
        (kern_in (tables_of face.now).kern) }
{
    face.kern_subtables()
        .iter()
        .all(|subtable| kern_pairs_along(direction, subtable))
}

/// Whether each subtable of the kerning table that is in use is not for texts of a direction, or kerns pairs along the
/// line. Such kerning attaches nothing.
pub fn kerns_apart(face: &hb_font_t, direction: Direction) -> bool
    ensures { result ≡ kerns_apart face.now direction }
{
    if face.tables().kerx.is_some() {
        kerx_apart(face, direction)
    } else {
        kern_apart(face, direction)
    }
}

/// Whether some subtable of the extended kerning table is for texts of a direction.
fn kerx_some(face: &hb_font_t, direction: Direction) -> bool
    ensures { result ≡ list_any (λ s. is_for_direction (kerning_of_kerx_subtable 8 None s) direction)
        (kerx_in (tables_of face.now).kerx) }
{
    face.kerx_subtables()
        .iter()
        .any(|subtable| is_kerx_for(direction, subtable))
}

/// Whether some subtable of the kerning table is.
fn kern_some(face: &hb_font_t, direction: Direction) -> bool
    ensures { result ≡ list_any (λ s. is_for_direction (kerning_of_kern_subtable 8 s) direction)
        (kern_in (tables_of face.now).kern) }
{
    face.kern_subtables()
        .iter()
        .any(|subtable| is_kern_for(direction, subtable))
}

/// Whether some subtable of the kerning table that is in use is.
fn kerns_some(face: &hb_font_t, direction: Direction) -> bool
    ensures { result ≡ list_any (λ k. is_for_direction k direction) (kernings_of face.now) }
{
    if face.tables().kerx.is_some() {
        kerx_some(face, direction)
    } else {
        kern_some(face, direction)
    }
}

/// Whether texts of a direction are kerned, and by pairs along the line alone: some subtable of the kerning table in use
/// is for them, and each that is does so.
pub fn kerns_by_pairs(face: &hb_font_t, direction: Direction) -> bool
    ensures { result ≡ kerns_by_pairs face.now direction }
{
    kerns_some(face, direction) && kerns_apart(face, direction)
}

/// Whether nothing kerns texts of a direction: the font has no extended kerning table, and no subtable of its kerning table
/// is for them.
pub fn is_unkerned(face: &hb_font_t, direction: Direction) -> bool
    ensures { result ≡ is_unkerned face.now direction }
{
    face.tables().kerx.is_none() && !kern_some(face, direction)
}

/// The glyph properties that the kerning table in use skips.
pub fn skips_of(face: &hb_font_t) -> u16
    ensures { result ≡ skips_of face.now }
{
    if face.tables().kerx.is_some() {
        KERX_SKIPS
    } else {
        KERN_SKIPS
    }
}
