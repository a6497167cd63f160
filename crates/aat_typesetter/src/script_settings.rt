//! What HarfBuzz does around the layer by the script of a text.
ghost use Rattle.std.specs.Prelude.{◌≡◌, OnOk};
ghost use Rattle.std.specs.List.{list_any};
ghost use Rattle.aat_font.specs.Face.{kern_in, tables_of};
ghost use Rattle.aat_typesetter.specs.ScriptSettings.{are_zeroed, boxes_for, features_for, is_machine, kern_off, kerns_across, kerns_by_machine, marks_for, moves_marks, places_marks, zeroes_marks};

use aat_characters::{MarkWidths, ScriptRules};
use aat_font::{Feature, hb_font_t, hb_tag_t};
use aat_glyph::Direction;
use aat_kerning_tables::{KernKind, KernSubtable};
use std::alloc::{AllocError, Allocator};

/// The tag `kern`.
const KERN: hb_tag_t = hb_tag_t(0x6B65_726E);

/// `kern` off over a whole text.
fn kern_off() -> Feature
    ensures { result ≡ kern_off }
{
    Feature {
        tag: KERN,
        value: 0,
        start: 0,
        end: u32::MAX,
    }
}

/// Puts the features with which a text is shaped in the place of others, given the rules of its script, if it has any:
/// where the font has no `kerx`, and the script does not take `kern`, that is off.
pub(crate) fn put_features<A: Allocator>(
    font: &hb_font_t,
    rules: Option<ScriptRules>,
    features: &[Feature],
    asked: &mut Vec<Feature, A>,
) -> Result<(), AllocError>
    ensures { OnOk result (asked.new.items ≡ features_for font.now rules features.now) }
{
    asked.clear();
    asked.extend_from_slice(features)?;
    if let Some(rules) = rules {
        if font.tables().kerx.is_none() && !rules.applies_kern() {
            asked.push(kern_off())?;
        }
    }
    Ok(())
}

/// Whether widths of marks are made zero, early or late.
fn are_zeroed(widths: MarkWidths) -> bool
    ensures { result ≡ are_zeroed widths }
{
    match widths {
        MarkWidths::Kept => false,
        MarkWidths::ZeroEarly | MarkWidths::ZeroLate => true,
    }
}

/// Whether a subtable of `kern` is a machine.
fn is_machine(subtable: &KernSubtable) -> bool
    ensures { result ≡ is_machine subtable.now.kind }
{
    matches!(&subtable.kind, KernKind::Machine(_))
}

/// Whether `kern` of a font has a machine.
fn has_machine(font: &hb_font_t) -> bool
    ensures { result ≡ list_any (λ s. is_machine s.kind) (kern_in (tables_of font.now).kern) }
{
    font.kern_subtables()
        .iter()
        .any(|subtable| is_machine(subtable))
}

/// Whether `kern` of a font has values across the line.
fn has_cross_stream(font: &hb_font_t) -> bool
    ensures { result ≡ list_any (λ s. s.has_cross_stream) (kern_in (tables_of font.now).kern) }
{
    font.kern_subtables()
        .iter()
        .any(|subtable| subtable.has_cross_stream)
}

/// Whether the script takes `kern`, which has a machine.
fn kerns_by_machine(font: &hb_font_t, rules: ScriptRules) -> bool
    ensures { result ≡ kerns_by_machine font.now rules }
{
    rules.applies_kern() && has_machine(font)
}

/// Whether the script takes `kern`, which has values across the line.
fn kerns_across(font: &hb_font_t, rules: ScriptRules) -> bool
    ensures { result ≡ kerns_across font.now rules }
{
    rules.applies_kern() && has_cross_stream(font)
}

/// Whether marks lose their width.
fn zeroes_marks(font: &hb_font_t, rules: ScriptRules) -> bool
    ensures { result ≡ zeroes_marks font.now rules }
{
    are_zeroed(rules.mark_widths(font.tables().morx.is_some()))
        && font.tables().kerx.is_none()
        && !kerns_by_machine(font, rules)
}

/// Whether marks that lose their width move.
fn moves_marks(font: &hb_font_t, rules: ScriptRules, direction: Direction) -> bool
    ensures { result ≡ moves_marks font.now rules direction }
{
    font.tables().morx.is_none() && direction.is_forward() && !kerns_across(font, rules)
}

/// Where marks of a text lose their width, whether they move.
pub(crate) fn marks_for(
    font: &hb_font_t,
    rules: Option<ScriptRules>,
    direction: Direction,
) -> Option<bool>
    ensures { result ≡ marks_for font.now rules direction }
{
    match rules {
        Some(rules) if zeroes_marks(font, rules) => Some(moves_marks(font, rules, direction)),
        _ => None,
    }
}

/// Whether marks are placed by boxes.
fn places_marks(font: &hb_font_t, rules: ScriptRules) -> bool
    ensures { result ≡ places_marks font.now rules }
{
    rules.applies_kern() && font.tables().kerx.is_none() && !kerns_across(font, rules)
}

/// Where marks of a text are placed by boxes, whether those that lose their width move.
pub(crate) fn boxes_for(
    font: &hb_font_t,
    rules: Option<ScriptRules>,
    direction: Direction,
) -> Option<bool>
    ensures { result ≡ boxes_for font.now rules direction }
{
    match rules {
        Some(rules) if places_marks(font, rules) => Some(moves_marks(font, rules, direction)),
        _ => None,
    }
}
