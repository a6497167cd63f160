//! Kerning values of pairs of glyphs by classes.
ghost use Rattle.std.specs.Prelude.{◌≡◌, ◌≤◌, IfOk, IfErr, OnOk, None, false, length, slice_index_or};
ghost use Rattle.std.specs.Option.{option_or};
ghost use Rattle.aat_kerning_tables.specs.Classes.{kerning_by_classes, value_of_classes};
ghost use Rattle.aat_lookup.specs.Keys.{first, first_fall, IsRising};
ghost use Rattle.aat_lookup.specs.TableErrors.{RefusesRising};
ghost use Rattle.aat_kerning_tables.specs.inside.Rows.{HoldsRows, IsQuiet, TellRows};

use aat_lookup::keys::first_fall;
use aat_lookup::{GlyphId, Lookup, TableError};
use std::alloc::{AllocError, Allocator, Global};
use std::marker::Model;

/// The class of a glyph for which none is listed.
const MISSING: u16 = 0;

/// The kerning values of pairs of glyphs by a class of the left glyph and one of the right glyph, in units of the font.
/// A glyph for which no class is listed has class 0. A contract sees the table as the record `ClassValues`.
///
/// Apple's TrueType Reference Manual, "The 'kern' table", formats 2 and 3, and "The 'kerx' table", formats 2 and 6.
#[derive(Drop)]
pub struct ClassPairs<A: Allocator = Global> {
    left: Lookup<A>,
    right: Lookup<A>,
    right_count: u16,
    values: Vec<i16, A>,
    /// Whether a left class has a value that is not 0.
    kerns: Vec<bool, A>,
}

impl<A: Allocator> Model for ClassPairs<A> {
    ghost use Rattle.aat_kerning_tables.specs.Classes.{ClassValues};
    ghost use Rattle.aat_kerning_tables.specs.inside.Rows.{TellRows};

    ghost Value = { ClassValues };

    ghost view = { λ m. record {
      left = m.left;
      right = m.right;
      right_count = m.right_count;
      values = m.values.items;
    } };

    ghost invariant = { λ m. TellRows m.kerns.items m.values.items m.right_count };
}

impl<A: Allocator + Copy> ClassPairs<A> {
    /// Makes the table of pairs of a left glyph and its class, pairs of a right glyph and its class, which both have to
    /// rise strictly by glyph, the number of right classes, and the values: for each left class, from 0 on, that of each
    /// right class. A value that is missing is 0, and one more than there are classes is kept and never found.
    ///
    /// Refused as 1, `NotRising`, with the place of the first pair that is not above the one before it, of the left
    /// glyphs first, and else as 5, `OutOfMemory`, where the copies or what stands beside them get no memory.
    pub fn new(
        alloc: A,
        left: &[(u16, u16)],
        right: &[(u16, u16)],
        right_count: u16,
        values: &[i16],
    ) -> Result<ClassPairs<A>, TableError>
        ensures ok { IfOk result (λ table. table ≡ record {
          left = left.now;
          right = right.now;
          right_count = right_count;
          values = values.now;
        }) }
        ensures rising { OnOk result (option_or (first_fall first left.now) (first_fall first right.now) ≡ None) }
        ensures refused { IfErr result
            (RefusesRising (option_or (first_fall first left.now) (first_fall first right.now))) }
    {
        if let Some(place) = first_fall(left) {
            return Err(TableError::NotRising(place));
        }
        if let Some(place) = first_fall(right) {
            return Err(TableError::NotRising(place));
        }
        Ok(ClassPairs::of_rising(alloc, left, right, right_count, values)?)
    }

    /// The table of classes of left and of right glyphs, which both rise strictly by glyph, of the number of right classes,
    /// and of the values. Fails where the copies or what stands beside them get no memory.
    fn of_rising(
        alloc: A,
        left: &[(u16, u16)],
        right: &[(u16, u16)],
        right_count: u16,
        values: &[i16],
    ) -> Result<ClassPairs<A>, AllocError>
        requires left { IsRising first left.now }
        requires right { IsRising first right.now }
        ensures { IfOk result (λ table. table ≡ record {
          left = left.now;
          right = right.now;
          right_count = right_count;
          values = values.now;
        }) }
    {
        let values = Vec::from_slice(alloc, values)?;
        let left = Lookup::of_rising(alloc, left)?;
        let right = Lookup::of_rising(alloc, right)?;
        ClassPairs::from_lookups(alloc, left, right, right_count, values)
    }

    /// Makes the table of the classes of left glyphs and those of right glyphs, as lookups, which may be of segments,
    /// the number of right classes, and the values, as `new` does. Fails where a flag for each left class, or an array
    /// of the classes, gets no memory. An array of a lookup's own is replaced by that one.
    pub fn from_lookups(
        alloc: A,
        left: Lookup<A>,
        right: Lookup<A>,
        right_count: u16,
        values: Vec<i16, A>,
    ) -> Result<ClassPairs<A>, AllocError>
        ensures ok { IfOk result (λ table. table ≡ record {
          left = left;
          right = right;
          right_count = right_count;
          values = values.items;
        }) }
    {
        let (left, right) = with_class_arrays(alloc, left, right)?;
        let kerns = kerning_rows(alloc, &values, right_count)?;
        Ok(ClassPairs {
            left,
            right,
            right_count,
            values,
            kerns,
        })
    }
}

impl<A: Allocator> ClassPairs<A> {
    /// The classes of left glyphs.
    pub fn left(&self) -> &Lookup<A>
        ensures { result.now ≡ self.now.left }
    {
        &self.left
    }

    /// The classes of right glyphs.
    pub fn right(&self) -> &Lookup<A>
        ensures { result.now ≡ self.now.right }
    {
        &self.right
    }

    /// The number of right classes.
    pub fn right_count(&self) -> u16
        ensures { result ≡ self.now.right_count }
    {
        self.right_count
    }

    /// The values: for each left class, from 0 on, that of each right class.
    pub fn values(&self) -> &[i16]
        ensures { result.now ≡ self.now.values }
    {
        &self.values
    }

    /// The value of a left and a right glyph, which is that of their classes, and 0 where there is none. The class of the
    /// right glyph is looked up only where the left class has a value that is not 0.
    pub fn glyphs_kerning(&self, left: GlyphId, right: GlyphId) -> i16
        ensures { result ≡ kerning_by_classes self.now left.0 right.0 }
    {
        let row = self.left.class(left, MISSING);
        if !kerns_at(&self.kerns, row) {
            return 0;
        }
        let column = self.right.class(right, MISSING);
        value_at(&self.values, self.right_count, row, column)
    }
}

/// The classes of left and those of right glyphs, where an array of their own gives way to one of classes. Fails where
/// that gets no memory.
fn with_class_arrays<A: Allocator + Copy>(
    alloc: A,
    left: Lookup<A>,
    right: Lookup<A>,
) -> Result<(Lookup<A>, Lookup<A>), AllocError>
    ensures left { IfOk result (λ classes. classes.0 ≡ left) }
    ensures right { IfOk result (λ classes. classes.1 ≡ right) }
{
    let left = left.with_class_array(alloc, MISSING)?;
    let right = right.with_class_array(alloc, MISSING)?;
    Ok((left, right))
}

/// Whether a left class is told to have a value that is not 0.
fn kerns_at(kerns: &[bool], left: u16) -> bool
    ensures { result ≡ slice_index_or kerns.now left false }
{
    let place = left as usize;
    place < kerns.len() && kerns[place]
}

/// The value of a left class and a right class, 0 where there is none.
fn value_at(values: &[i16], right_count: u16, left: u16, right: u16) -> i16
    ensures { result ≡ value_of_classes values.now right_count left right }
{
    if right >= right_count {
        return 0;
    }
    let place = left as usize * right_count as usize + right as usize;
    if place >= values.len() {
        return 0;
    }
    values[place]
}

/// Whether a left class has a value that is not 0.
fn kerns(values: &[i16], right_count: u16, left: u16) -> bool
    ensures { result ≡ false → IsQuiet values.now right_count left }
{
    for right in 0..right_count {
        if value_at(values, right_count, left, right) != 0 {
            return true;
        }
    }
    false
}

/// The number of left classes that have a value.
fn row_count(count: usize, right_count: u16) -> usize
    ensures small { result ≤ 65536 }
    ensures all { HoldsRows count right_count result }
{
    if right_count == 0 {
        return 0;
    }
    (count / right_count as usize).min(65535) + 1
}

/// Whether each left class has a value that is not 0, from class 0 up to the last one that has a value. Fails where they
/// get no memory.
fn kerning_rows<A: Allocator>(
    alloc: A,
    values: &[i16],
    right_count: u16,
) -> Result<Vec<bool, A>, AllocError>
    ensures { IfOk result (λ told. TellRows told.items values.now right_count) }
{
    let count = row_count(values.len(), right_count);
    let mut told = Vec::with_capacity(alloc, count)?;
    for row in 0..count {
        told.push(kerns(values, right_count, row as u16))?;
    }
    Ok(told)
}
