//! The files that a command reads.

use crate::change::change_bytes;
use crate::face::read_face;
use crate::session::Speaker;
use aat_bytes::{Fault, ReadError};
use aat_face::Face;
use aat_read_sfnt::FontFile;
use anyhow::{Context, Error, Result, anyhow, ensure};
use bumpalo::Bump;
use clap::ArgMatches;
use std::alloc::{AllocError, Global};
use std::fs::{self, File, OpenFile};
use std::io::{self, Read};

/// What names a font: its path, its index in the file, and the changes of the file's bytes.
#[derive(Clone, Copy)]
pub struct FontSource<'a> {
    /// The path of the file.
    pub path: &'a str,
    /// Which font of the file.
    pub index: u32,
    /// The changes, empty where there are none.
    pub changes: &'a str,
}

impl<'a> FontSource<'a> {
    /// The font that the command line names.
    pub fn of_matches(matches: &ArgMatches<'a>) -> Result<FontSource<'a>> {
        let path = matches.get_str("font").context("a font is missing")?;
        Ok(FontSource {
            path,
            index: matches.get_one::<u32>("index").unwrap_or(0),
            changes: matches.get_str("change").unwrap_or(""),
        })
    }

    /// Whether another source names the same font in the same words.
    pub(crate) fn names(&self, other: &FontSource<'_>) -> bool {
        let is_same_file = self.path == other.path && self.changes == other.changes;
        is_same_file && self.index == other.index
    }

    /// The source with its words in an arena.
    pub(crate) fn kept_in<'b>(&self, arena: &'b Bump) -> Result<FontSource<'b>, AllocError> {
        Ok(FontSource {
            path: arena.try_alloc_str(self.path)?,
            index: self.index,
            changes: arena.try_alloc_str(self.changes)?,
        })
    }

    /// The bytes of the file, with their changes.
    pub(crate) fn bytes(&self, rt: &HostRuntime) -> Result<Vec<u8>> {
        let path = self.path;
        let mut bytes = bytes_of_file(rt, path).with_context(|| anyhow!("{path}"))?;
        if !self.changes.is_empty() {
            let changed = change_bytes(rt.alloc(), &mut bytes, self.changes);
            changed.with_context(|| anyhow!("{path}"))?;
        }
        Ok(bytes)
    }

    /// What an error of the font is told as.
    fn fault(&self, fault: Fault) -> Error {
        let (path, index) = (self.path, self.index);
        anyhow!("{path}: font {index}: {fault}")
    }

    /// The font of the file's bytes, read into an arena.
    pub(crate) fn face<'b>(
        &self,
        alloc: Global,
        arena: &'b Bump,
        bytes: &'b [u8],
    ) -> Result<&'b Face<'b>> {
        let path = self.path;
        match read_face(alloc, arena, bytes, self.index) {
            Ok(face) => Ok(face),
            Err(ReadError::Fault(fault)) => Err(self.fault(fault)),
            Err(ReadError::OutOfMemory) => Err(anyhow!("{path}: out of memory")),
        }
    }

    /// The directory of the font.
    pub(crate) fn file<'b>(&self, bytes: &'b [u8]) -> Result<FontFile<'b>> {
        match FontFile::read(bytes, self.index) {
            Ok(file) => Ok(file),
            Err(fault) => Err(self.fault(fault)),
        }
    }
}

/// The bytes of a file. Room for all of them is taken at once, so that none is copied for room, and for one more, at which
/// the end is seen.
fn bytes_of_file(rt: &HostRuntime, path: &str) -> io::Result<Vec<u8>> {
    let mut file = File::open(rt, path)?;
    let size = usize::try_from(file.metadata()?.len()).unwrap_or(0);
    let mut bytes = Vec::with_capacity(rt.alloc(), size.saturating_add(1))?;
    file.read_to_end(&mut bytes)?;
    Ok(bytes)
}

/// The text of a file, or of the standard input where the path is `-` and that has no requests.
pub fn text_of_file(rt: &HostRuntime, speaker: Speaker, path: &str) -> Result<String> {
    let text = if path == "-" {
        ensure!(!speaker.is_request(), "the standard input has the requests");
        io::read_to_string(rt.alloc(), rt.reader())
    } else {
        fs::read_to_string(rt, path)
    };
    text.with_context(|| anyhow!("{path}"))
}
