//! The law of writing as a theorem. This call does nothing: what is proved is its contract.
ghost use Rattle.aat_write_truetype.specs.outlines.OutlineLaws.{WrittenOutlinesAreRead};

/// Outlines that are written are read again: the very points and ends of each.
pub fn written_outlines_are_read()
    ensures { WrittenOutlinesAreRead }
{}
