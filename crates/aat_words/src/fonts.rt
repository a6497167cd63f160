//! The fonts that a run has read.

use crate::session::Speaker;
use crate::source::FontSource;
use aat_face::Face;
use aat_read_metrics::GlyphNames;
use aat_read_sfnt::FontFile;
use anyhow::{Context, Result};
use bumpalo::Bump;
use std::alloc::Global;
use std::cell::{Cell, OnceCell};

/// A font, with what it was read from.
#[derive(Drop)]
pub struct Font<'b> {
    /// What names it.
    pub source: FontSource<'b>,
    /// The bytes of its file, with their changes.
    pub bytes: &'b [u8],
    /// What is read of it.
    pub face: &'b Face<'b>,
    /// The names of its glyphs, once they are asked.
    names: OnceCell<GlyphNames<'b>>,
    /// Whether its faults are told.
    is_told: Cell<bool>,
}

impl<'b> Font<'b> {
    /// The directory of the font.
    pub fn file(&self) -> Result<FontFile<'b>> {
        self.source.file(self.bytes)
    }

    /// The names of its glyphs, which are read once.
    pub fn names(&self, alloc: Global) -> Result<&GlyphNames<'b>> {
        if let Some(names) = self.names.get() {
            return Ok(names);
        }
        let names = GlyphNames::of_file(alloc, &self.file()?)?;
        let _ = self.names.set(names);
        self.names.get().context("out of memory")
    }

    /// Tells on the error stream which tables are not read, once in a run.
    pub fn tell_faults(&self, rt: &HostRuntime, speaker: Speaker) -> Result<()> {
        if self.is_told.replace(true) {
            return Ok(());
        }
        let path = self.source.path;
        for fault in self.face.faults() {
            eprintln!(rt; "{speaker}: {path}: {fault}")?;
        }
        Ok(())
    }
}

/// The fonts that a run has read, which it keeps to its end.
#[derive(Drop)]
pub struct Fonts<'b> {
    arena: &'b Bump,
    fonts: Vec<&'b Font<'b>>,
}

impl<'b> Fonts<'b> {
    /// No font yet. What is read is kept in an arena.
    pub(crate) fn new(alloc: Global, arena: &'b Bump) -> Fonts<'b> {
        Fonts {
            arena,
            fonts: Vec::new(alloc),
        }
    }

    /// The font of a source, if it is read.
    fn kept(&self, source: &FontSource<'_>) -> Option<&'b Font<'b>> {
        for place in 0..self.fonts.len() {
            if self.fonts[place].source.names(source) {
                return Some(self.fonts[place]);
            }
        }
        None
    }

    /// Reads a font into the arena.
    fn read(&self, rt: &HostRuntime, source: &FontSource<'_>) -> Result<&'b Font<'b>> {
        let arena = self.arena;
        let source = source.kept_in(arena)?;
        let bytes: &'b Vec<u8> = arena.try_alloc(source.bytes(rt)?)?;
        let face = source.face(rt.alloc(), arena, bytes)?;
        let font = Font {
            source,
            bytes,
            face,
            names: OnceCell::new(),
            is_told: Cell::new(false),
        };
        Ok(arena.try_alloc(font)?)
    }

    /// The font of a source. It is read unless an earlier request of the run has named the same one.
    ///
    /// An error names the file, and the place in it where that has a fault.
    pub fn font(&mut self, rt: &HostRuntime, source: &FontSource<'_>) -> Result<&'b Font<'b>> {
        if let Some(font) = self.kept(source) {
            return Ok(font);
        }
        let font = self.read(rt, source)?;
        self.fonts.push(font)?;
        Ok(font)
    }
}
