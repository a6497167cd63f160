//! A context of a caller, driven over ranges.

use crate::counting::CountingCtx;
use crate::machines::{Rule, rule};
use aat_layout::buffer::{BufferError, hb_buffer_t, hb_glyph_info_t};
use aat_layout::font::{ExtendedStateTable, FaceTables, GenericStateEntry, hb_font_t};
use aat_layout::{drive, hb_aat_apply_context_t, range_flags_t};
use aat_shape::described::drop_font;
use std::alloc::Global;
use std::process::Abort;
use std::test::Fail;

/// An act at each glyph 5, in one state.
const RULES: [Rule<u16>; 4] = [
    rule!(0, 0, 0, 0, 0xFFFF),
    rule!(0, 1, 0, 0, 0xFFFF),
    rule!(0, 4, 0, 0, 7),
    rule!(0, 5, 0, 0, 0xFFFF),
];

/// A line of four glyphs, of which the one at the cluster 3 lies where the context is off.
fn line_of(alloc: Global) -> Result<hb_buffer_t, BufferError> {
    let mut buffer = hb_buffer_t::new(alloc, 100, 16384);
    for (id, cluster) in [(5, 0), (5, 3), (6, 4), (5, 8)] {
        buffer.add(hb_glyph_info_t::new(id, cluster))?;
    }
    Ok(buffer)
}

/// Drives the context over a line, on up to the cluster 2 and from 8 on, and answers its count and the turns.
fn driven(
    face: &hb_font_t,
    machine: &ExtendedStateTable<u16>,
    buffer: &mut hb_buffer_t,
) -> Option<(u32, u64)> {
    if !buffer.all_glyphs_16() {
        return None;
    }
    let ranges = [
        range_flags_t {
            flags: 1,
            cluster_first: 0,
            cluster_last: 2,
        },
        range_flags_t {
            flags: 2,
            cluster_first: 3,
            cluster_last: 7,
        },
        range_flags_t {
            flags: 3,
            cluster_first: 8,
            cluster_last: u32::MAX,
        },
    ];
    let mut context = CountingCtx { count: 5 };
    let mut c = hb_aat_apply_context_t::new(face, buffer);
    c.range_flags = Some(&ranges);
    c.subtable_flags = 1;
    c.turns = 100;
    match drive(machine, &mut context, &mut c) {
        Ok(()) => Some((context.count, c.turns)),
        Err(_) => None,
    }
}

/// Whether the line has its marks, and the context its count and its turns.
fn is_driven(
    alloc: Global,
    face: &hb_font_t,
    machine: &ExtendedStateTable<u16>,
) -> Result<bool, BufferError> {
    let mut buffer = line_of(alloc)?;
    let few = driven(face, machine, &mut buffer);
    let is_marked = buffer.len() == 4 && buffer.info(3).mask == 259 && buffer.info(1).mask == 0;
    Ok(few == Some((7, 105)) && is_marked)
}

/// It acts where a cluster is on, the turns are added, and an act marks its glyph.
#[test]
fn a_context_of_a_caller(rt: HostRuntime) -> Result<(), Fail> {
    let machine = ExtendedStateTable::new(rt.alloc(), 6, &[(5, 4), (6, 5)], &RULES)?;
    let face = hb_font_t::from_tables(FaceTables::default());
    let is_driven = is_driven(rt.alloc(), &face, &machine);
    drop_font(face);
    drop(machine);
    assert!(rt; is_driven?);
    Ok(())
}
