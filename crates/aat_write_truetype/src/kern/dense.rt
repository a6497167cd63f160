//! Classes of glyphs that follow one another.
ghost use Rattle.std.specs.Prelude.{◌≡◌, None};
ghost use Rattle.aat_write_truetype.specs.kern.DenseClasses.{class_gap, first_glyph};

/// The first glyph, and 0 where there is none.
pub(crate) fn first_glyph(classes: &[(u16, u16)]) -> u16
    ensures { result ≡ first_glyph classes.now }
{
    if classes.is_empty() {
        return 0;
    }
    classes[0].0
}

/// The first place whose glyph does not follow the one before it, or whose class is not below a limit.
pub(crate) fn class_gap(limit: usize, classes: &[(u16, u16)]) -> Option<usize>
    ensures { result ≡ class_gap limit classes.now }
{
    let first = first_glyph(classes) as usize;
    for (place, class) in classes.iter().enumerate() {
        if class.0 as usize != first + place || class.1 as usize >= limit {
            return Some(place);
        }
    }
    None
}
