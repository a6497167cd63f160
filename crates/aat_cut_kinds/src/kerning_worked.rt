//! Examples of cuts of kerned lines as theorems. These calls do nothing: what is proved is their
//! contracts.
ghost use Rattle.aat_cut_kinds.specs.KerningExamples.{KernedTableExamples, KerningExamples};
ghost use Rattle.aat_cut_kinds.specs.KerningOpenExamples.{KerningOpenExamples};

/// What runs of kerning machines leave of lines and of their parts: at places that are open; at places that are closed,
/// one for each reason; and at open places where the budget is used up, and where the kern mask is a glyph flag.
#[tactic(auto, using(crate::proofs::KerningExamples::kerning_examples))]
pub fn cuts_of_kerned_lines()
    ensures { KerningExamples }
{}

/// What a table of pairs and a machine leaves of lines and of their parts: between pairs, in both directions of text,
/// and within a pair.
#[tactic(auto, using(crate::proofs::KerningExamples::kerned_table_examples))]
pub fn cuts_of_kerned_tables()
    ensures { KernedTableExamples }
{}

/// Where a run leaves a line and its front open: a place of the front is closed where an entry for the end of the text only
/// pushes, with eight places held, and open where it does nothing.
#[tactic(auto, using(crate::proofs::KerningOpenExamples::kerning_open_examples))]
pub fn open_places_of_fronts()
    ensures { KerningOpenExamples }
{}
