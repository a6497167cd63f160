//! Substitution of the line of a text, and whether its machines tell what is open.
ghost use Rattle.std.specs.Prelude.{◌≡◌, ◌≤◌, IfOk, IfErr, IfSome, IsTrue, None, OnOk, true};
ghost use Rattle.std.specs.List.{list_all};
ghost use Rattle.std.specs.Option.{option_copied};
ghost use Rattle.aat_buffer.specs.Clusters.{IsSmall};
ghost use Rattle.aat_font.specs.Face.{chains_in, tables_of};
ghost use Rattle.aat_map.specs.Map.{lists_for};
ghost use Rattle.aat_map.specs.Requests.{requests_of};
ghost use Rattle.aat_map.specs.SwitchedChains.{by_requests, switched_by};
ghost use Rattle.aat_run.specs.Budget.{extent};
ghost use Rattle.aat_run.specs.Driven.{IsRefusal};
ghost use Rattle.aat_run.specs.Laws.{HasOrderOf, SameSettings};
ghost use Rattle.aat_run.specs.Ranges.{is_whole_list};
ghost use Rattle.aat_shaped_text.specs.Breaks.{substitutes_evenly};
ghost use Rattle.aat_drawn_text.specs.inside.TextLine.{gives_one_range, substituted_so, tells_so, told_by};

use crate::text_line::TextLine;
use aat_closing::close_table;
use aat_kinds::{LIGATURE_SLOTS, MAX_CONTEXT_LENGTH};
use aat_layout::AatError;
use aat_layout::buffer::{Direction, hb_buffer_t};
use aat_layout::font::{Feature, hb_font_t};
use aat_map::hb_aat_map_t;
use aat_morx::run_table;
use aat_run::MachineRun;
use aat_shaped_text::substitutes_apart;
use std::alloc::Allocator;

/// Whether a map gives the chains of a font one range each: the first chain's list is like those of all.
fn gives_one_range<M: Allocator + Copy>(map: Option<&hb_aat_map_t<M>>) -> bool
    ensures { result ≡ gives_one_range (option_copied map.entry) }
{
    match map {
        Some(map) => map.ranges(0).len() == 1,
        None => true,
    }
}

/// Whether substitution runs evenly along a text with features that were compiled into a map.
pub(crate) fn substitutes_evenly<M: Allocator + Copy>(
    face: &hb_font_t,
    direction: Direction,
    features: &[Feature],
    map: Option<&hb_aat_map_t<M>>,
) -> bool
    requires compiled { switched_by (chains_in (tables_of face.now).morx)
        (lists_for (option_copied map) (chains_in (tables_of face.now).morx))
        ≡ by_requests (requests_of (tables_of face.now).feat features.now) (chains_in (tables_of face.now).morx) }
    ensures { result ≡ substitutes_evenly face.now direction features.now }
{
    gives_one_range(map) || substitutes_apart(face, direction, features)
}

/// Whether closing runs told; nothing was run without the table.
fn told_by(answer: Option<MachineRun>) -> bool
    ensures { result ≡ told_by answer }
{
    match answer {
        Some(run) => run.is_through,
        None => true,
    }
}

/// Substitutes under a map, closes what the machines look at, and answers whether they tell what is open.
fn close<A: Allocator + Copy, M: Allocator + Copy>(
    face: &hb_font_t,
    map: Option<&hb_aat_map_t<M>>,
    buffer: &mut hb_buffer_t<A>,
) -> Result<bool, AatError>
    requires whole { IfSome (option_copied map) (λ m. IsTrue (list_all is_whole_list m)) }
    requires ids { IsSmall buffer.old }
    ensures left { OnOk result (buffer.new ≡ substituted_so true face.now (option_copied map.entry) buffer.old) }
    ensures told { IfOk result (λ told. told ≡ tells_so true face.now (option_copied map.entry) buffer.old) }
    ensures ids { OnOk result (IsSmall buffer.new) }
    ensures extent { OnOk result (extent buffer.new ≤ extent buffer.old) }
    ensures settings { OnOk result (SameSettings buffer.old buffer.new) }
    ensures order { OnOk result (HasOrderOf buffer.old buffer.new) }
    ensures reason { IfErr result
        (IsRefusal buffer.old (substituted_so true face.now (option_copied map.entry) buffer.old)) }
{
    let answer = close_table::<LIGATURE_SLOTS, MAX_CONTEXT_LENGTH, A, M>(face, map, buffer)?;
    Ok(told_by(answer))
}

/// Substitutes under a map, and closes what the machines look at where that is asked. It answers whether they tell then
/// what is open.
fn substitute_buffer<A: Allocator + Copy, M: Allocator + Copy>(
    face: &hb_font_t,
    map: Option<&hb_aat_map_t<M>>,
    closes: bool,
    buffer: &mut hb_buffer_t<A>,
) -> Result<bool, AatError>
    requires whole { IfSome (option_copied map) (λ m. IsTrue (list_all is_whole_list m)) }
    requires ids { IsSmall buffer.old }
    ensures left { OnOk result (buffer.new ≡ substituted_so closes face.now (option_copied map.entry) buffer.old) }
    ensures told { IfOk result (λ told. told ≡ tells_so closes face.now (option_copied map.entry) buffer.old) }
    ensures ids { OnOk result (IsSmall buffer.new) }
    ensures extent { OnOk result (extent buffer.new ≤ extent buffer.old) }
    ensures settings { OnOk result (SameSettings buffer.old buffer.new) }
    ensures order { OnOk result (HasOrderOf buffer.old buffer.new) }
    ensures reason { IfErr result
        (IsRefusal buffer.old (substituted_so closes face.now (option_copied map.entry) buffer.old)) }
{
    if closes {
        return close(face, map, buffer);
    }
    run_table::<LIGATURE_SLOTS, MAX_CONTEXT_LENGTH, A, M>(face, map, buffer)?;
    Ok(false)
}

/// The same of the line of a text without positions.
#[tactic(auto, using(crate::proofs::TextLines::bare_is))]
pub(crate) fn substitute<A: Allocator + Copy, M: Allocator + Copy>(
    face: &hb_font_t,
    map: Option<&hb_aat_map_t<M>>,
    closes: bool,
    buffer: &mut TextLine<'_, A>,
) -> Result<bool, AatError>
    requires whole { IfSome (option_copied map) (λ m. IsTrue (list_all is_whole_list m)) }
    requires ids { IsSmall buffer.old }
    requires bare { buffer.old.positions ≡ None }
    ensures left { OnOk result (buffer.new ≡ substituted_so closes face.now (option_copied map.entry) buffer.old) }
    ensures told { IfOk result (λ told. told ≡ tells_so closes face.now (option_copied map.entry) buffer.old) }
    ensures ids { OnOk result (IsSmall buffer.new) }
    ensures extent { OnOk result (extent buffer.new ≤ extent buffer.old) }
    ensures settings { OnOk result (SameSettings buffer.old buffer.new) }
    ensures order { OnOk result (HasOrderOf buffer.old buffer.new) }
    ensures reason { IfErr result
        (IsRefusal buffer.old (substituted_so closes face.now (option_copied map.entry) buffer.old)) }
{
    buffer.placed_by = None;
    substitute_buffer(face, map, closes, &mut buffer.buffer)
}
