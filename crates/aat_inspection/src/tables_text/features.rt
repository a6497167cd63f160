//! The features of `feat`, with their names.
use crate::tables_text::names::text_of;
use aat_face::Face;
use aat_lookup::FeatureName;
use std::alloc::Global;
use std::io::{self, Write};

/// How many numbers of settings are looked at. Those that fonts have are smaller.
const SETTINGS: u16 = 64;

/// Writes the settings of a feature that have a name.
fn write_settings<W: Write>(
    alloc: Global,
    out: &mut W,
    face: &Face<'_>,
    kind: u16,
) -> io::Result<()> {
    for setting in 0..SETTINGS {
        if let Some(name) = face.setting_name(kind, setting) {
            let text = text_of(alloc, &name)?;
            writeln!(out, "  setting {setting} {text:?}")?;
        }
    }
    Ok(())
}

/// Writes a feature: its type, how many settings it has, whether they exclude one another, and its name.
fn write_feature<W: Write>(
    alloc: Global,
    out: &mut W,
    face: &Face<'_>,
    feature: FeatureName,
) -> io::Result<()> {
    let kind = feature.kind;
    let settings = feature.settings;
    let exclusive = if feature.exclusive { " exclusive" } else { "" };
    write!(out, "feature {kind} settings {settings}{exclusive}")?;
    if let Some(name) = face.feature_name(kind) {
        let text = text_of(alloc, &name)?;
        write!(out, " {text:?}")?;
    }
    writeln!(out)?;
    write_settings(alloc, out, face, kind)
}

/// Writes the features of `feat` in their order, each with its type, how many settings it has, whether they exclude one
/// another, its name, and its settings below 64 that have a name.
///
/// An error is that of the writer, or `OutOfMemory`. A part of the text may be written then.
pub fn write_features<W: Write>(alloc: Global, out: &mut W, face: &Face<'_>) -> io::Result<()> {
    if let Some(feat) = &face.font().tables().feat {
        for feature in feat.names() {
            write_feature(alloc, out, face, *feature)?;
        }
    }
    Ok(())
}
