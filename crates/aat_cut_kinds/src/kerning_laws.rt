//! Laws of where runs of kerning machines leave a line open. These calls do nothing: what is proved is their contracts.

ghost use Rattle.aat_cut_kinds.specs.KernedTables.{TablesKeepOpens, TablesKernInParts};
ghost use Rattle.aat_cut_kinds.specs.KerningCuts.{RunsKeepParts, RunsLeavePlacesInParts};
ghost use Rattle.aat_cut_kinds.specs.KerningOpens.{RunsKeepOpens};

/// Whatever the table, over a placed line: where the run of a `kern` or `kerx` stack leaves some of the budget, and
/// leaves a place inside the line open, its positions are those that it leaves of the line up to there, and behind them
/// those that it leaves of the rest, each with a budget above what the whole takes of its own. The kern mask has no
/// glyph flag (7). Runs of anchors do so by any kern mask, and each run that keeps parts as in `runs_keep_parts`.
pub fn runs_leave_parts()
    ensures { RunsLeavePlacesInParts }
{}

/// Two placed lines stand in a third, one behind the other: of its direction, alike in glyph ids, in props, in which
/// masks meet the kern mask, and in positions. What a run of a stack or of anchors leaves of them stands so in what it
/// leaves of the third, where the place between them is open, some of the budget is left, and theirs are enough; and
/// these are enough for runs that come then. Runs over the line turned round do so, runs one after another, and
/// attaching all glyphs. The kern mask has no glyph flag (7), of anchors too.
pub fn runs_keep_parts()
    ensures { RunsKeepParts }
{}

/// Kerning by all subtables of a `kern` or a `kerx` table, machines and pairs, over a placed line: where it leaves some
/// of the budget, and a place inside the line is open to the run of each subtable over what those before it left, its
/// positions are those that it leaves of the parts, as in `runs_leave_parts`. To pairs a place is open whose glyph is
/// not skipped, and over which no pair has a value. The kern mask has no glyph flag (7).
pub fn tables_kern_in_parts()
    ensures { TablesKernInParts }
{}

/// For a line that is cut many times: where two lines are parts of a third, cut at a place that is open to a run, each
/// other place inside the third that is open to the run is so in its part, so that the places of the whole serve for the
/// parts. Runs of stacks and of anchors do so whatever the table: each open place is asked that a text which ended there
/// would clear no stack. So do runs over the line turned round, runs one after another that keep parts as in
/// `runs_keep_parts`, and attaching all glyphs. The kern mask has no glyph flag (7), of anchors too.
pub fn runs_keep_opens()
    ensures { RunsKeepOpens }
{}

/// Kerning by all subtables of a `kern` or a `kerx` table, machines and pairs, does as the runs of `runs_keep_opens`. A
/// place is open to it that is open to the run of each subtable over what those before it left: where two lines are
/// parts of a third, cut at such a place, each other one inside the third is open in its part. The kern mask has no
/// glyph flag (7).
pub fn tables_keep_opens()
    ensures { TablesKeepOpens }
{}
