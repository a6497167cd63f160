//! All findings of a font.
ghost use Rattle.std.specs.Prelude.{◌≡◌};
ghost use Rattle.std.specs.List.{list_any};
ghost use Rattle.aat_check.specs.Numbers.{is_trouble};

use crate::asked::show_features;
use crate::chains::check_chains;
use crate::faults::{check_beside_gpos, check_faults, check_mort, check_outline_tables};
use crate::finding::Finding;
use crate::glyphs::glyph_bound;
use crate::kerning::{check_kern, check_kerx};
use crate::kerning_bytes::check_kerning_bytes;
use crate::names::check_names;
use crate::parts::show_parts;
use crate::rows::check_rows;
use aat_face::Face;
use aat_read_sfnt::FontFile;
use std::alloc::{AllocError, Global};

/// Finds what is wrong in a font, or of no use. The face is that of the font of the file.
///
/// In this order: the faults of tables; whether `mort` stands without `morx`; the names of `feat` that no chain has; for
/// each chain of `morx` its settings, and each of its subtables by the number of what is found; the bytes of the same
/// subtables, and their lists; the subtables of `kerx` that are left out, and its machines and pairs; the same of `kern`;
/// the bytes of both; rows of `ankr` and of `feat` that do not rise; and whether a feature of `GPOS` takes the place of
/// `kern`. Of what a place has more than once the first is told.
///
/// Each machine is searched over up to 65,536 states, for each class, ligatures in up to 2^28 steps, and of machines that
/// are not settled up to 2,048 lines of at most 64 glyphs are shaped, with their parts. Of the first 256 cells at which a
/// machine stays the one is told to which a shortest line leads. What components and ligatures are read past a length is
/// asked at the first 256 entries with actions. A line of a subtable that is off by default has the first of 412 features
/// that switches it on. Fails where memory is wanting.
///
/// Apple's TrueType Reference Manual, "The 'morx' table", "The 'kerx' table", "The 'feat' table", and "Font Tables".
pub fn findings(
    alloc: Global,
    file: &FontFile<'_>,
    face: &Face<'_>,
) -> Result<Vec<Finding>, AllocError> {
    let mut found = Vec::new(alloc);
    let glyph_count = glyph_bound(face);
    check_faults(face, &mut found)?;
    check_outline_tables(file, face, &mut found)?;
    check_mort(file, &mut found)?;
    check_names(alloc, face, &mut found)?;
    check_chains(alloc, file, face.font(), glyph_count, &mut found)?;
    show_parts(alloc, face.font(), glyph_count, &mut found)?;
    show_features(alloc, face.font(), &mut found)?;
    check_kerx(alloc, face, glyph_count, &mut found)?;
    check_kern(alloc, face, glyph_count, &mut found)?;
    check_kerning_bytes(file, &mut found)?;
    check_rows(file, face, &mut found)?;
    check_beside_gpos(file, face, &mut found)?;
    Ok(found)
}

/// Whether one of some findings is an error or a warning.
pub fn has_trouble(findings: &[Finding]) -> bool
    ensures { result ≡ list_any (λ f. is_trouble f.fact) findings.now }
{
    findings.iter().any(|finding| finding.fact.is_trouble())
}
