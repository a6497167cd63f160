//! How far a long work is.

use std::io::{self, IsTerminal};

/// How far a work is, told on the error stream where that is a terminal.
#[derive(Drop)]
pub struct Progress {
    /// How much there is to do, or 0 where nothing is told.
    all: usize,
    /// How much is done.
    done: usize,
    /// The percentage that was told last.
    told: usize,
}

/// A work of fewer bytes is not told.
const LEAST: usize = 1 << 16;

impl Progress {
    /// A work of so many bytes, of which nothing is done.
    pub fn new(rt: &HostRuntime, all: usize) -> Progress {
        let is_told = all >= LEAST && rt.stderr().is_terminal();
        Progress {
            all: if is_told { all } else { 0 },
            done: 0,
            told: 0,
        }
    }

    /// So many more bytes are done.
    pub fn add(&mut self, rt: &HostRuntime, bytes: usize) -> io::Result<()> {
        self.done = self.done.saturating_add(bytes).min(self.all);
        if self.all == 0 {
            return Ok(());
        }
        let percent = self.done / (self.all / 100).max(1);
        if percent > self.told {
            self.told = percent;
            eprint!(rt; "\r{percent} %")?;
        }
        Ok(())
    }

    /// Takes what was told off the terminal, for a message or at the end.
    pub fn clear(&self, rt: &HostRuntime) -> io::Result<()> {
        if self.told > 0 {
            eprint!(rt; "\r       \r")?;
        }
        Ok(())
    }
}
