//! The classes that glyphs have in a state table.
ghost use Rattle.std.specs.Prelude.{◌≡◌, ◌≤◌, ◌<◌, ℕ, true, Some, IfOk, length};
ghost use Rattle.std.specs.List.{All};
ghost use Rattle.aat_machine_tables.specs.Table.{class_of};
ghost use Rattle.aat_cuts.specs.Labels.{AreLabels, label_in};
ghost use Rattle.aat_cuts.specs.Reached.{is_labelled};
ghost use Rattle.aat_cuts.specs.Settled.{IsClassOfGlyph};
ghost use Rattle.aat_cuts.specs.inside.Steps.{AreClasses, AreListed, AreOfGlyphs};

use crate::labels::{STATES, zeros};
use aat_lookup::GlyphId;
use aat_machine_tables::entry_bits::class;
use aat_machine_tables::{Acting, ExtendedStateTable};
use std::alloc::{AllocError, Global};

/// Puts the label 1 at the class of a glyph that is listed, if the table gives it one.
fn label_class<T: Acting>(table: &ExtendedStateTable<T>, glyph: u16, labels: &mut [u8])
    requires labels { AreLabels labels.old }
    ensures labels { AreLabels labels.new }
    ensures kept { (k : ℕ) → is_labelled labels.old k ≡ true → is_labelled labels.new k ≡ true }
    ensures here { (k : ℕ) → class_of table.now glyph ≡ Some k → is_labelled labels.new k ≡ true }
    ensures sound { AreOfGlyphs table.now labels.old → AreOfGlyphs table.now labels.new }
{
    if let Some(class) = table.class(GlyphId(glyph)) {
        labels[class as usize] = 1;
    }
}

/// Puts the label 1 at the classes of glyphs that are listed.
fn label_classes<T: Acting>(table: &ExtendedStateTable<T>, pairs: &[(u16, u16)], labels: &mut [u8])
    requires labels { AreLabels labels.old }
    ensures labels { AreLabels labels.new }
    ensures kept { (k : ℕ) → is_labelled labels.old k ≡ true → is_labelled labels.new k ≡ true }
    ensures listed { All (AreListed table.now labels.new) pairs.now }
    ensures sound { AreOfGlyphs table.now labels.old → AreOfGlyphs table.now labels.new }
{
    for pair in pairs {
        label_class(table, pair.0, labels);
    }
}

/// Puts the label 1 at each class that some glyph has: those of glyphs that are listed, and two that glyphs have
/// without that.
fn label_all<T: Acting>(table: &ExtendedStateTable<T>, pairs: &[(u16, u16)], labels: &mut [u8])
    requires labels { AreLabels labels.old }
    requires zero { (k : ℕ) → label_in labels.old k ≡ 0 }
    requires pairs { pairs.now ≡ table.now.classes }
    ensures labels { AreLabels labels.new }
    ensures classes { AreClasses table.now labels.new }
{
    labels[class::OUT_OF_BOUNDS as usize] = 1;
    labels[class::DELETED_GLYPH as usize] = 1;
    label_classes(table, pairs, labels);
}

/// Labels above 0 of the classes that some glyph has.
pub(crate) fn glyph_classes<T: Acting>(
    alloc: Global,
    table: &ExtendedStateTable<T>,
) -> Result<Vec<u8>, AllocError>
    ensures labels { IfOk result (λ labels. AreLabels labels.items) }
    ensures classes { IfOk result (λ labels. AreClasses table.now labels.items) }
{
    let pairs = table.classes().to_pairs(alloc)?;
    let mut labels = zeros(alloc, STATES)?;
    label_all(table, &pairs, &mut labels);
    Ok(labels)
}
