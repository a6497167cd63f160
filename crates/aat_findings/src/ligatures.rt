//! The ligatures that the actions of a ligature subtable can make.
ghost use Rattle.std.specs.Prelude.{◌≡◌, ◌<◌, ◌+◌, ◌&&◌, ℕ, true, false, not, length, slice_index, IfOk, IfNone, IfSome, OnOk};
ghost use Rattle.aat_findings.specs.Ligatures.{IsHeld, IsMade, IsSearch, IsNamed, is_last, is_store};
ghost use Rattle.aat_findings.specs.Reached.{AreExactly};
ghost use Rattle.aat_findings.specs.inside.Making.{AreMadeMarks, AreMarksOf, AreMore, AreNone, IsAfter, IsAmong, IsSummed, IsTold, is_held, is_told};
ghost use Rattle.aat_findings.specs.inside.Marks.{is_marked};

use crate::chains::push_place;
use crate::glyphs::DELETED_GLYPH;
use crate::growth::taken_as;
use crate::reached::{STATES, no_marks, reach_marks};
use crate::states::push_where;
use aat_lookup::GlyphId;
use aat_machine_tables::entry_bits::ligature::{
    LIG_ACTION_LAST, LIG_ACTION_STORE, PERFORM_ACTION, SET_COMPONENT,
};
use aat_machine_tables::{
    ExtendedStateTable, GenericStateEntry, LigatureSubtable, component_value,
};
use std::alloc::{AllocError, Global};

/// Up to how many steps the ligatures that are made are searched.
const MOST_STEPS: usize = 0x1000_0000;

/// Marks a number where that is wanted, if there is a mark of it.
fn mark_where(marks: &mut [u8], number: usize, wanted: bool)
    ensures { AreMore marks.old (λ n. (wanted ≡ true) × (number ≡ n)) marks.new }
{
    if wanted && number < marks.len() {
        marks[number] = 1;
    }
}

/// Whether a rule is one of a marked state, and has a flag.
fn is_told(marks: &[u8], flag: u16, rule: &(u16, u16, GenericStateEntry<u16>)) -> bool
    requires { length marks.now ≡ 65536 }
    ensures { result ≡ is_told marks.now flag rule.now }
{
    marks[rule.0 as usize] > 0 && rule.2.flags & flag != 0
}

/// Marks the classes at which rules of marked states hold the glyph, and the places at which their actions begin.
fn mark_rules(
    rules: &[(u16, u16, GenericStateEntry<u16>)],
    marks: &[u8],
    classes: &mut [u8],
    starts: &mut [u8],
)
    requires { length marks.now ≡ 65536 }
    ensures classes { AreMore classes.old (λ n. IsAmong rules.now (length rules.now)
        (λ place. IsTold marks.now 0x8000 (λ r. r.1) n)) classes.new }
    ensures starts { AreMore starts.old (λ n. IsAmong rules.now (length rules.now)
        (λ place. IsTold marks.now 0x2000 (λ r. r.2.extra) n)) starts.new }
{
    for rule in rules {
        let holds = is_told(marks, SET_COMPONENT, rule);
        mark_where(classes, rule.1 as usize, holds);
        let performs = is_told(marks, PERFORM_ACTION, rule);
        mark_where(starts, rule.2.extra as usize, performs);
    }
}

/// Marks the classes at which rules of states that some line reaches hold the glyph, and the places at which their
/// actions begin. Fails where memory is wanting.
fn mark_reached(
    alloc: Global,
    subtable: &LigatureSubtable,
    classes: &mut [u8],
    starts: &mut [u8],
) -> Result<(), AllocError>
    requires classes { (n : ℕ) → slice_index classes.old n ≡ 0 }
    requires starts { (n : ℕ) → slice_index starts.old n ≡ 0 }
    ensures classes { OnOk result (AreMarksOf (IsNamed subtable.now 0x8000 (λ r. r.1)) classes.new) }
    ensures starts { OnOk result (AreMarksOf (IsNamed subtable.now 0x2000 (λ r. r.2.extra)) starts.new) }
{
    let marks = reach_marks(alloc, &subtable.state)?;
    let rules = subtable.state.to_rules(alloc)?;
    mark_rules(&rules, &marks, classes, starts);
    Ok(())
}

/// Marks the glyphs of a list.
fn mark_glyphs(glyphs: &[GlyphId], marks: &mut [u8])
    ensures { AreMore marks.old (λ n. IsAmong glyphs.now (length glyphs.now) (λ place g. g.0 ≡ n)) marks.new }
{
    for glyph in glyphs {
        mark_where(marks, glyph.0 as usize, true);
    }
}

/// Whether a glyph is held by marks of classes and of ligatures.
fn is_held(table: &ExtendedStateTable<u16>, classes: &[u8], ligatures: &[u8], glyph: u16) -> bool
    requires classes { length classes.now ≡ 65536 }
    requires ligatures { length ligatures.now ≡ 65536 }
    ensures { result ≡ is_held table.now classes.now ligatures.now glyph }
{
    glyph == DELETED_GLYPH
        || ligatures[glyph as usize] > 0
        || classes[taken_as(table, GlyphId(glyph)) as usize] > 0
}

/// The glyphs that are, rising. Fails where memory is wanting.
fn held_glyphs(
    alloc: Global,
    table: &ExtendedStateTable<u16>,
    classes: &[u8],
    ligatures: &[u8],
) -> Result<Vec<u16>, AllocError>
    requires classes { length classes.now ≡ 65536 }
    requires ligatures { length ligatures.now ≡ 65536 }
    ensures held { IfOk result (λ held. AreExactly (λ g. (g < 65536)
        × (is_held table.now classes.now ligatures.now g ≡ true)) held.items) }
    ensures few { OnOk result (table.now.class_count < 65536) }
{
    let mut held = Vec::new(alloc);
    for glyph in 0..STATES {
        let may = is_held(table, classes, ligatures, glyph as u16);
        push_where(&mut held, glyph as u16, may)?;
    }
    let _class_count = table.class_count();
    Ok(held)
}

/// Marks the sums that one becomes by an action, for each of the held glyphs.
fn add_values(values: &[u16], held: &[u16], action: u32, sum: usize, marks: &mut [u8])
    requires { sum < length marks.old }
    ensures { AreMore marks.old (IsSummed values.now held.now action sum) marks.new }
{
    for glyph in held {
        if let Some(value) = component_value(values, action, u32::from(*glyph)) {
            mark_where(marks, sum + value as usize, true);
        }
    }
}

/// Marks, where that is wanted, the sums that marked ones become by an action.
fn add_sums(values: &[u16], held: &[u16], action: u32, sums: &[u8], wanted: bool, marks: &mut [u8])
    requires { length sums.now ≡ length marks.old }
    ensures { AreMore marks.old (λ n. (wanted ≡ true) × IsAfter values.now held.now action sums.now n) marks.new }
{
    for sum in 0..sums.len() {
        if wanted && sums[sum] > 0 {
            add_values(values, held, action, sum, marks);
        }
    }
}

/// Takes an action: the marked sums become those with which the next one goes on, and of those that they become, the
/// numbers of ligatures are marked. Fails where memory is wanting.
fn take_action(
    alloc: Global,
    values: &[u16],
    held: &[u16],
    action: u32,
    sums: &mut [u8],
    made: &mut [u8],
) -> Result<(), AllocError>
    requires { length sums.old ≡ length made.old }
    ensures made { OnOk result (AreMore made.old (λ n. (is_store action ≡ true)
        × IsAfter values.now held.now action sums.old n) made.new) }
    ensures long { OnOk result (length sums.new ≡ length sums.old) }
    ensures sums { OnOk result (AreMarksOf (λ n. (not (is_last action) ≡ true)
        × IsAfter values.now held.now action sums.old n) sums.new) }
{
    let mut next = no_marks(alloc, sums.len())?;
    let stores = action & (LIG_ACTION_STORE | LIG_ACTION_LAST) != 0;
    add_sums(values, held, action, sums, stores, made);
    let last = action & LIG_ACTION_LAST != 0;
    add_sums(values, held, action, sums, !last, &mut next);
    sums.copy_from_slice(&next);
    Ok(())
}

/// Marks the numbers of the ligatures that are made, by one action after another. Fails where memory is wanting.
fn mark_made(
    alloc: Global,
    subtable: &LigatureSubtable,
    held: &[u16],
    starts: &[u8],
    sums: &mut [u8],
    made: &mut [u8],
) -> Result<(), AllocError>
    requires held { AreExactly (IsHeld subtable.now) held.now }
    requires starts { AreMarksOf (IsNamed subtable.now 0x2000 (λ r. r.2.extra)) starts.now }
    requires actions { length starts.now ≡ length subtable.now.actions }
    requires sums { AreNone (length subtable.now.ligatures) sums.old }
    requires made { AreNone (length subtable.now.ligatures) made.old }
    ensures { OnOk result (AreMadeMarks subtable.now made.new) }
{
    let values = subtable.components.as_slice();
    let actions = subtable.ligature_actions.as_slice();
    for place in 0..actions.len() {
        mark_where(sums, 0, starts[place] > 0);
        take_action(alloc, values, held, actions[place], sums, made)?;
    }
    Ok(())
}

/// The marked numbers, rising.
fn marked(alloc: Global, marks: &[u8]) -> Result<Vec<usize>, AllocError>
    ensures { IfOk result (λ numbers. AreExactly (λ n. (n < length marks.now)
        × (is_marked marks.now n ≡ true)) numbers.items) }
{
    let mut numbers = Vec::new(alloc);
    for number in 0..marks.len() {
        push_place(&mut numbers, number, marks[number] > 0)?;
    }
    Ok(numbers)
}

/// Finds the glyphs that may be held, and marks the places at which actions begin.
fn find_held(
    alloc: Global,
    subtable: &LigatureSubtable,
    starts: &mut [u8],
) -> Result<Vec<u16>, AllocError>
    requires { AreNone (length subtable.now.actions) starts.old }
    ensures held { IfOk result (λ held. AreExactly (IsHeld subtable.now) held.items) }
    ensures starts { OnOk result (AreMarksOf (IsNamed subtable.now 0x2000 (λ r. r.2.extra)) starts.new) }
    ensures long { OnOk result (length starts.new ≡ length starts.old) }
{
    let table = &subtable.state;
    let mut classes = no_marks(alloc, STATES)?;
    mark_reached(alloc, subtable, &mut classes, starts)?;
    let mut ligatures = no_marks(alloc, STATES)?;
    mark_glyphs(&subtable.ligatures, &mut ligatures);
    let held = held_glyphs(alloc, table, &classes, &ligatures)?;
    Ok(held)
}

/// The numbers of the ligatures of a subtable that its actions can make, rising, by a search that leaves none out: for
/// each place of an action the sums that may come there, where any glyph that may be held as a component may stand at
/// any place. A glyph may be held where a rule of a state that some line reaches holds a glyph of its class, where it
/// is a ligature, and where it is the deleted one. `None` says that the search would be long: the product of the
/// numbers of actions, ligatures and glyphs that may be held is above 2^28. Fails where memory is wanting.
///
/// Apple's TrueType Reference Manual, "The 'morx' table", ligature substitution.
pub fn made_ligatures(
    alloc: Global,
    subtable: &LigatureSubtable,
) -> Result<Option<Vec<usize>>, AllocError>
    ensures none { IfOk result (λ found. IfNone found (IsSearch subtable.now true)) }
    ensures some { IfOk result (λ found. IfSome found (λ numbers. IsSearch subtable.now false
        × AreExactly (IsMade subtable.now) numbers.items)) }
{
    let mut starts = no_marks(alloc, subtable.ligature_actions.len())?;
    let held = find_held(alloc, subtable, &mut starts)?;
    let (actions, ligatures) = (subtable.ligature_actions.len(), subtable.ligatures.len());
    let steps = actions.saturating_mul(ligatures).saturating_mul(held.len());
    if steps > MOST_STEPS {
        return Ok(None);
    }
    let mut sums = no_marks(alloc, ligatures)?;
    let mut made = no_marks(alloc, ligatures)?;
    mark_made(alloc, subtable, &held, &starts, &mut sums, &mut made)?;
    let numbers = marked(alloc, &made)?;
    Ok(Some(numbers))
}
