//! Pairs by classes to bytes.
ghost use Rattle.std.specs.Prelude.{◌≡◌, ◌++◌, ◌+◌, ◌*◌, ◌<◌, ◌≤◌, [], ◌∷◌, length, All, IfOk, OnOk, None};
ghost use Rattle.aat_kerning_tables.specs.Classes.{ClassValues};
ghost use Rattle.aat_write_machine.specs.Words.{word_bytes};
ghost use Rattle.aat_write_truetype.specs.kern.ClassBytes.{class_words, classes_refusal, classes_words, classes_written, left_limit, left_word, lists_refusal, right_offset, right_word, wrong_value};
ghost use Rattle.aat_write_truetype.specs.kern.DenseClasses.{first_glyph};
ghost use Rattle.aat_write_truetype.specs.kern.KernWriteErrors.{Writes};

use crate::kern::dense::{class_gap, first_glyph};
use crate::kern::error::KernWriteError;
use crate::kern::pairs::append_values;
use aat_kerning_tables::ClassPairs;
use aat_write_machine::append_words;
use std::alloc::{AllocError, Global};

/// How many values a subtable has room for.
const MOST_VALUES: usize = 0x3FFF_FFFF;

/// The end of the values where they are fewer than two rows, or else the first value of class 0 that is not 0.
fn wrong_value(columns: u16, values: &[i16]) -> Option<usize>
    ensures { result ≡ wrong_value columns values.now }
{
    let columns = columns as usize;
    if values.len() < 2 * columns {
        return Some(values.len());
    }
    let row = &values[..columns];
    for (place, value) in row.iter().enumerate() {
        if value.cast_unsigned() != 0 {
            return Some(place);
        }
    }
    None
}

/// The first refusal of classes and values, in whose subtable the array starts at an offset.
fn lists_refusal(
    left: &[(u16, u16)],
    right: &[(u16, u16)],
    columns: u16,
    values: &[i16],
    array: u16,
) -> Option<KernWriteError>
    requires { 0 < columns }
    ensures { let p : ClassValues =
        record { left = left.now; right = right.now; right_count = columns; values = values.now } in
        result ≡ lists_refusal p array }
{
    let limit = (0xFFFF - array) as usize / (2 * columns as usize) + 2;
    if let Some(place) = class_gap(limit, left) {
        return Some(KernWriteError::Class(place));
    }
    if let Some(place) = class_gap(columns as usize, right) {
        return Some(KernWriteError::Class(place));
    }
    if let Some(place) = wrong_value(columns, values) {
        return Some(KernWriteError::Value(place));
    }
    None
}

/// The first refusal of pairs by classes.
fn refusal(
    left: &[(u16, u16)],
    right: &[(u16, u16)],
    columns: u16,
    values: &[i16],
) -> Option<KernWriteError>
    ensures { let p : ClassValues =
        record { left = left.now; right = right.now; right_count = columns; values = values.now } in
        result ≡ classes_refusal p }
{
    if columns == 0 || columns > 32767 {
        return Some(KernWriteError::ClassCount);
    }
    let glyphs = left.len().min(32768) + right.len().min(32768);
    let array = 24 + 2 * glyphs;
    if array > 65535 || values.len() > MOST_VALUES {
        return Some(KernWriteError::TooLong);
    }
    lists_refusal(left, right, columns, values, array as u16)
}

/// The offset of a left class: where its row starts, and 0 for class 0.
fn left_word(array: u16, row: u16, class: u16) -> u16
    requires some { 0 < row }
    requires near { class < left_limit array row }
    ensures { result ≡ left_word array row class }
{
    if class == 0 {
        return 0;
    }
    array + (class - 1) * row
}

/// Appends the first glyph of classes, and their number.
fn append_start(out: &mut Vec<u8>, classes: &[(u16, u16)]) -> Result<(), AllocError>
    requires { length classes.now ≤ 65535 }
    ensures { OnOk result (out.new.items
        ≡ out.old.items ++ word_bytes (first_glyph classes.now ∷ length classes.now ∷ [])) }
{
    append_words(out, &[first_glyph(classes), classes.len() as u16])
}

/// Appends the classes of left glyphs.
fn append_left(
    out: &mut Vec<u8>,
    array: u16,
    row: u16,
    classes: &[(u16, u16)],
) -> Result<(), AllocError>
    requires some { 0 < row }
    requires few { length classes.now ≤ 65535 }
    requires near { All (λ class. class.1 < left_limit array row) classes.now }
    ensures { OnOk result (out.new.items
        ≡ out.old.items ++ word_bytes (class_words (left_word array row) classes.now)) }
{
    append_start(out, classes)?;
    for class in classes {
        append_words(out, &[left_word(array, row, class.1)])?;
    }
    Ok(())
}

/// Appends the classes of right glyphs.
fn append_right(out: &mut Vec<u8>, classes: &[(u16, u16)]) -> Result<(), AllocError>
    requires few { length classes.now ≤ 65535 }
    requires low { All (λ class. class.1 < 32768) classes.now }
    ensures { OnOk result (out.new.items ≡ out.old.items ++ word_bytes (class_words right_word classes.now)) }
{
    append_start(out, classes)?;
    for class in classes {
        append_words(out, &[2 * class.1])?;
    }
    Ok(())
}

/// The bytes of pairs by classes that are not refused.
fn classes_bytes(
    alloc: Global,
    left: &[(u16, u16)],
    right: &[(u16, u16)],
    columns: u16,
    values: &[i16],
) -> Result<Vec<u8>, AllocError>
    requires { classes_refusal
        (record { left = left.now; right = right.now; right_count = columns; values = values.now }) ≡ None }
    ensures { IfOk result (λ out. out.items ≡ word_bytes (classes_words
        (record { left = left.now; right = right.now; right_count = columns; values = values.now }))) }
{
    let row = 2 * columns;
    let right_offset = 20 + 2 * left.len() as u16;
    let array = right_offset + 4 + 2 * right.len() as u16;
    let mut out = Vec::new(alloc);
    append_words(&mut out, &[row, 16, right_offset, array])?;
    append_left(&mut out, array, row, left)?;
    append_right(&mut out, right)?;
    append_values(&mut out, &values[columns as usize..])?;
    Ok(out)
}

/// The bytes of lists of classes and of values, or why they are not written.
fn write_lists(
    alloc: Global,
    left: &[(u16, u16)],
    right: &[(u16, u16)],
    columns: u16,
    values: &[i16],
) -> Result<Vec<u8>, KernWriteError>
    ensures { Writes result (classes_written
        (record { left = left.now; right = right.now; right_count = columns; values = values.now })) }
{
    if let Some(error) = refusal(left, right, columns, values) {
        return Err(error);
    }
    Ok(classes_bytes(alloc, left, right, columns, values)?)
}

/// The bytes of pairs by classes behind the header of their subtable.
pub(crate) fn write_classes(alloc: Global, pairs: &ClassPairs) -> Result<Vec<u8>, KernWriteError>
    ensures { Writes result (classes_written pairs.now) }
{
    let left = pairs.left().to_pairs(alloc)?;
    let right = pairs.right().to_pairs(alloc)?;
    write_lists(alloc, &left, &right, pairs.right_count(), pairs.values())
}
