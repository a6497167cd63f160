//! Which places of a line the run of a kerning machine leaves open, told as it kerns.
ghost use Rattle.std.specs.Prelude.{◌≡◌, ◌≢◌, ◌<◌, ◌≤◌, ℕ, ◌&&◌, ◌||◌, IfOk, OnErr, false, get_or, length, nat_le, not, option_copied, true};
ghost use Rattle.aat_buffer.specs.Clusters.{IsSmall};
ghost use Rattle.aat_cut_kinds.specs.KerningCuts.{by_anchors, kern_stack, kerned_run, kerx_stack};
ghost use Rattle.aat_cut_kinds.specs.OpenPlaces.{KernsOpenly};
ghost use Rattle.aat_cut_kinds.specs.inside.ClosedSpans.{AreClosed};
ghost use Rattle.aat_cut_kinds.specs.inside.OpenRuns.{is_harmless, will_open};
ghost use Rattle.aat_cut_kinds.specs.inside.Standings.{found_at};
ghost use Rattle.aat_kerning_machines.specs.KerningMachine.{kerning_turn, kerning_whole};
ghost use Rattle.aat_kerning_machines.specs.Positions.{IsPlaced};
ghost use Rattle.aat_kerning_machines.specs.Runs.{config, driver_over, machine_over};
ghost use Rattle.aat_run.specs.Context.{first_config};

use crate::kerning_touches::TouchingDriver;
use crate::kerning_turns::{Found, TellingRun, is_harmless, least_touched, look};
use aat_buffer::hb_buffer_t;
use aat_font::hb_ot_shape_plan_t;
use aat_kerning_machines::{Driver1, Driver4, KerningRun, RunState, StateMachineDriver, turn_once};
use aat_kerning_tables::{Ankr, KernMachine, Subtable1, Subtable4};
use aat_machine_tables::Acting;
use aat_machine_tables::entry_bits::class::END_OF_TEXT;
use aat_machine_tables::entry_bits::state::START_OF_TEXT;
use std::alloc::{AllocError, Allocator};

/// The places behind one up to another, which are closed already.
#[derive(Drop)]
struct ClosedSpan {
    behind: usize,
    up_to: usize,
}

impl ClosedSpan {
    /// Up to which place all those behind one are in the span; that one itself, where the next is not.
    fn reach(&self, least: usize) -> usize
        ensures no_less { least ≤ result }
        ensures inside { (q : ℕ) → least < q → q ≤ result → self.now.behind < q × q ≤ self.now.up_to }
    {
        if self.behind <= least {
            least.max(self.up_to)
        } else {
            least
        }
    }
}

/// Closes the places behind one up to another.
fn close_span(opens: &mut [bool], least: usize, cursor: usize)
    ensures long { length opens.new ≡ length opens.old }
    ensures closed { (q : ℕ) → get_or opens.new q false
        ≡ (get_or opens.old q false && (nat_le q least || not (nat_le q cursor))) }
{
    let mut place = cursor.min(opens.len().saturating_sub(1));
    while place > least {
        opens[place] = false;
        place -= 1;
    }
}

/// Closes the places behind the least one that a turn touched, up to the cursor, but for those of a span that are closed
/// already. The span is then that of this turn, if it touched a place before the cursor.
///
/// What a turn touches waited on a stack since the cursor was there, and eight places wait at most; or it is the mark,
/// which is never before that of an earlier turn. So stacks close a glyph eight times at most, and anchors once.
fn close(opens: &mut [bool], span: &mut ClosedSpan, least: usize, cursor: usize)
    requires closed { AreClosed opens.old span.old }
    ensures long { length opens.new ≡ length opens.old }
    ensures closed { (q : ℕ) → get_or opens.new q false
        ≡ (get_or opens.old q false && (nat_le q least || not (nat_le q cursor))) }
    ensures span { AreClosed opens.new span.new }
    ensures behind { span.old.up_to ≤ cursor → span.new.up_to ≤ cursor }
{
    if least < cursor {
        close_span(opens, span.reach(least), cursor);
        *span = ClosedSpan {
            behind: least,
            up_to: cursor,
        };
    }
}

/// Tells of the place at the cursor, where the run has just come there from another.
fn tell<Table, E: Acting, D: TouchingDriver<Table, E>, A: Allocator + Copy>(
    telling: &TellingRun<Table, E>,
    driver: &D,
    found: &Found<E>,
    buffer: &hb_buffer_t<A>,
    at: RunState,
    before: usize,
    opens: &mut [bool],
)
    requires found { found.now ≡ found_at telling.now.run.state_table.now at.state buffer.now }
    ensures long { length opens.new ≡ length opens.old }
    ensures stays { buffer.now.cursor ≡ before → opens.new ≡ opens.old }
    ensures here { buffer.now.cursor ≢ before → buffer.now.cursor < length opens.old
        → get_or opens.new buffer.now.cursor false
        ≡ is_harmless (D.touching telling.now.run.table.now telling.now.run.tuple_count)
        telling.now.run.state_table.now (config buffer.now driver.now at) }
    ensures elsewhere { (q : ℕ) → q ≢ buffer.now.cursor → get_or opens.new q false ≡ get_or opens.old q false }
{
    let cursor = buffer.backtrack_len();
    if cursor != before && cursor < opens.len() {
        opens[cursor] = is_harmless(telling, driver, found, buffer, at);
    }
}

/// Takes turns from the front until one ends, and tells of each place inside the line.
fn run_turns<Table, E: Acting, D: TouchingDriver<Table, E>, A: Allocator + Copy>(
    telling: &TellingRun<Table, E>,
    pays_first: bool,
    driver: &mut D,
    buffer: &mut hb_buffer_t<A>,
    opens: &mut [bool],
)
    requires fit { D.fits driver.old buffer.old.cursor (length buffer.old.line) }
    requires ids { IsSmall buffer.old }
    requires placed { IsPlaced buffer.old }
    requires front { buffer.old.cursor ≡ 0 }
    requires long { length opens.old ≡ length buffer.old.line }
    requires none { (q : ℕ) → get_or opens.old q false ≡ false }
    ensures run { buffer.new ≡ (kerning_whole (machine_over telling.now.run D.actionable D.act pays_first)
        (first_config buffer.old driver.old)).buffer }
    ensures long { length opens.new ≡ length buffer.old.line }
    ensures opens { (q : ℕ) → 0 < q → q < length buffer.old.line → get_or opens.new q false
        ≡ will_open (D.touching telling.now.run.table.now telling.now.run.tuple_count)
        telling.now.run.state_table.now (kerning_turn (machine_over telling.now.run D.actionable D.act pays_first)) q
        (first_config buffer.old driver.old) }
    ensures ids { IsSmall buffer.new }
    ensures placed { IsPlaced buffer.new }
{
    let _length = buffer.len();
    let _budget = buffer.max_ops();
    let mut span = ClosedSpan {
        behind: 0,
        up_to: 0,
    };
    let mut at = RunState {
        state: START_OF_TEXT,
        turns: 0,
    };
    let end = telling.run.state_table.entry(START_OF_TEXT, END_OF_TEXT);
    let mut found = look(
        telling.run.state_table,
        buffer,
        START_OF_TEXT,
        START_OF_TEXT,
        end,
    );
    loop {
        let cursor = buffer.backtrack_len();
        let state = at.state;
        let least = least_touched(telling, &*driver, &found, buffer, at);
        let goes_on = turn_once(
            &telling.run,
            pays_first,
            driver,
            buffer,
            found.entry,
            &mut at,
        );
        close(opens, &mut span, least, cursor);
        if !goes_on {
            return;
        }
        found = look(telling.run.state_table, buffer, at.state, state, found.end);
        tell(telling, &*driver, &found, buffer, at, cursor, opens);
    }
}

/// Runs a machine over a line from the front, and tells which places the run leaves open.
fn kern_openly<Table, E: Acting, D: TouchingDriver<Table, E>, A: Allocator + Copy, H: Allocator>(
    alloc: H,
    run: KerningRun<Table, E>,
    pays_first: bool,
    driver: &mut D,
    buffer: &mut hb_buffer_t<A>,
) -> Result<Vec<bool, H>, AllocError>
    requires fit { D.fits driver.old 0 (length buffer.old.line) }
    requires ids { IsSmall buffer.old }
    requires placed { IsPlaced buffer.old }
    ensures kerned { IfOk result (λ told. KernsOpenly (kerned_run (D.touching run.entry.table.now run.entry.tuple_count)
        pays_first run.entry.state_table.now (driver_over run.entry D.actionable D.act driver.old))
        buffer.old buffer.new told.items) }
    ensures refused { OnErr result (buffer.new ≡ buffer.old) }
    ensures ids { IsSmall buffer.new }
    ensures placed { IsPlaced buffer.new }
{
    let mut opens = vec![in alloc; false; buffer.len()]?;
    let has_first_end = run.state_table.entry(START_OF_TEXT, END_OF_TEXT).is_some();
    let telling = TellingRun { run, has_first_end };
    buffer.sync();
    run_turns(&telling, pays_first, driver, buffer, &mut opens);
    buffer.sync();
    Ok(opens)
}

/// Kerns a line, which stands in the order of the machine, by one of the `kern` table, as `hb_ot_layout_kern` runs it, and
/// tells which places of it, in that order, the run leaves open, whatever the table.
///
/// At a place inside the line that is open the line may be cut, by the premises of `kerning_laws::runs_leave_parts`: its
/// positions are those that the run leaves of the two parts. Of place 0, where no line is cut, nothing is told.
///
/// Each glyph id has to be at most 0xFFFF, and each glyph has to have its position. It takes the turns of the run, each in
/// a bounded number of steps but for the look-ups in the table, and up to eight steps a glyph besides. It takes a byte of
/// memory a glyph. It is refused only where it gets none, and the line is then as before.
///
/// Apple's TrueType Reference Manual, "The 'kern' table", format 1.
pub fn kern_by_machine<A: Allocator + Copy, H: Allocator>(
    alloc: H,
    plan: &hb_ot_shape_plan_t,
    has_cross_stream: bool,
    machine: &KernMachine,
    buffer: &mut hb_buffer_t<A>,
) -> Result<Vec<bool, H>, AllocError>
    requires ids { IsSmall buffer.old }
    requires placed { IsPlaced buffer.old }
    ensures kerned { IfOk result (λ told. KernsOpenly (kern_stack true has_cross_stream plan.now.kern_mask
        machine.now.values machine.now.state_table) buffer.old buffer.new told.items) }
    ensures refused { OnErr result (buffer.new ≡ buffer.old) }
    ensures ids { IsSmall buffer.new }
    ensures placed { IsPlaced buffer.new }
{
    let run = KerningRun {
        state_table: &machine.state_table,
        table: machine,
        has_cross_stream,
        tuple_count: 1,
        plan,
    };
    let mut driver = StateMachineDriver::new();
    kern_openly(alloc, run, true, &mut driver, buffer)
}

/// Kerns a line by a stack machine of the `kerx` table, and tells which places the run leaves open, as `kern_by_machine`
/// does by one of `kern`. `tuple_count` values stand together for each one that the machine takes, of which the first one
/// counts: 0 means 1, and above 65535 none is taken.
///
/// Apple's TrueType Reference Manual, "The 'kerx' table", format 1.
pub fn kern_by_stack<A: Allocator + Copy, H: Allocator>(
    alloc: H,
    plan: &hb_ot_shape_plan_t,
    has_cross_stream: bool,
    tuple_count: u32,
    machine: &Subtable1,
    buffer: &mut hb_buffer_t<A>,
) -> Result<Vec<bool, H>, AllocError>
    requires ids { IsSmall buffer.old }
    requires placed { IsPlaced buffer.old }
    ensures kerned { IfOk result (λ told. KernsOpenly (kerx_stack false has_cross_stream plan.now.kern_mask tuple_count
        machine.now.values machine.now.state_table) buffer.old buffer.new told.items) }
    ensures refused { OnErr result (buffer.new ≡ buffer.old) }
    ensures ids { IsSmall buffer.new }
    ensures placed { IsPlaced buffer.new }
{
    let run = KerningRun {
        state_table: &machine.state_table,
        table: machine,
        has_cross_stream,
        tuple_count,
        plan,
    };
    let mut driver = Driver1::new();
    kern_openly(alloc, run, false, &mut driver, buffer)
}

/// Attaches the glyphs of a line by a machine of anchors, over the anchor points of a font, where it has them, and tells
/// which places the run leaves open, as `kern_by_machine` does by a stack.
///
/// A turn whose entry has an index, with a mark set and a glyph at the cursor, closes the places behind the marked one up to
/// the cursor, also where its pair is missing. Each place is closed once, so that beside the turns it takes one step a
/// glyph. The plan does not matter.
///
/// Apple's TrueType Reference Manual, "The 'kerx' table", format 4, and "The 'ankr' table".
pub fn kern_by_anchors<A: Allocator + Copy, H: Allocator>(
    alloc: H,
    plan: &hb_ot_shape_plan_t,
    ankr: Option<&Ankr>,
    machine: &Subtable4,
    buffer: &mut hb_buffer_t<A>,
) -> Result<Vec<bool, H>, AllocError>
    requires ids { IsSmall buffer.old }
    requires placed { IsPlaced buffer.old }
    ensures kerned { IfOk result (λ told. KernsOpenly (by_anchors false (option_copied ankr.entry)
        machine.now.anchor_points machine.now.state_table) buffer.old buffer.new told.items) }
    ensures refused { OnErr result (buffer.new ≡ buffer.old) }
    ensures ids { IsSmall buffer.new }
    ensures placed { IsPlaced buffer.new }
{
    let run = KerningRun {
        state_table: &machine.state_table,
        table: machine,
        has_cross_stream: false,
        tuple_count: 0,
        plan,
    };
    let mut driver = Driver4::new(ankr);
    kern_openly(alloc, run, false, &mut driver, buffer)
}
