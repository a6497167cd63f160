//! Worked examples of written outlines as theorems. These calls do nothing: what is proved is their contracts.
ghost use Rattle.aat_write_truetype.specs.outlines.Examples.{FarOutlinesAreRefused, OutlinesAreWritten};
ghost use Rattle.aat_write_truetype.specs.outlines.LawExamples.{OutlinesAreReadAgain};

/// The definitions of the tables compute to the examples.
pub fn tables()
    ensures written { OutlinesAreWritten }
    ensures far { FarOutlinesAreRefused }
{}

/// The definitions of the reader compute to the outlines that are written.
#[tactic(auto, unfolding(aat_bytes::specs::Numbers::u32_at, aat_read_outlines::specs::Composites::drawn_at))]
pub fn read_again()
    ensures { OutlinesAreReadAgain }
{}
