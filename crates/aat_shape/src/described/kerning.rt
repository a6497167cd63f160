//! Making the kerning tables of fonts.

use crate::described::data::{KernData, KerxData, MachineData, Pair, Value};
use crate::described::kinds::{machine_of, push};
use aat_kerning_tables::{
    Ankr, Kern, KernKind, KernMachine, KernSubtable, Kerx, KerxFormat, KerxSubtable, Pairs, Point,
    Subtable1, Subtable4,
};
use aat_lookup::TableError;
use aat_machine_tables::{EntryData, KernEntryData};
use std::alloc::Global;

/// A machine of the kerning table.
fn kern_machine_of(
    alloc: Global,
    machine: &MachineData<KernEntryData>,
    values: &[i16],
) -> Result<KernKind, TableError> {
    let values = Vec::from_slice(alloc, values)?;
    let state_table = machine_of(alloc, machine)?;
    Ok(KernKind::Machine(KernMachine {
        state_table,
        values,
    }))
}

/// A kerning table of one horizontal subtable, along the line.
fn kern_with(alloc: Global, kern: &KernData) -> Result<Kern, TableError> {
    let kind = match kern {
        KernData::Pairs(pairs) => KernKind::Pairs(Pairs::new(alloc, pairs)?),
        KernData::Machine(machine, values) => kern_machine_of(alloc, machine, values)?,
    };
    let mut subtables = Vec::new(alloc);
    push(&mut subtables, KernSubtable::new(kind, true))?;
    Kern::new(subtables)
}

/// The kerning table, if there is one.
pub(crate) fn kern_of(alloc: Global, kern: &Option<KernData>) -> Result<Option<Kern>, TableError> {
    match kern {
        Some(kern) => Ok(Some(kern_with(alloc, kern)?)),
        None => Ok(None),
    }
}

/// A subtable of pairs, across the line.
fn across_of(alloc: Global, pairs: &[Pair]) -> Result<KerxSubtable, TableError> {
    let format = KerxFormat::Format0(Pairs::new(alloc, pairs)?);
    Ok(KerxSubtable {
        has_cross_stream: true,
        ..KerxSubtable::new(format, true)
    })
}

/// A subtable of a machine with a stack, along the line.
fn stack_of(
    alloc: Global,
    machine: &MachineData<EntryData>,
    values: &[i16],
    tuple_count: u32,
) -> Result<KerxSubtable, TableError> {
    let values = Vec::from_slice(alloc, values)?;
    let state_table = machine_of(alloc, machine)?;
    let format = KerxFormat::Format1(Subtable1 {
        state_table,
        values,
    });
    Ok(KerxSubtable {
        tuple_count,
        ..KerxSubtable::new(format, true)
    })
}

/// A subtable of a machine that attaches glyphs.
fn anchors_of(
    alloc: Global,
    machine: &MachineData<EntryData>,
    pairs: &[Value],
) -> Result<KerxSubtable, TableError> {
    let anchor_points = Vec::from_slice(alloc, pairs)?;
    let state_table = machine_of(alloc, machine)?;
    let format = KerxFormat::Format4(Subtable4 {
        state_table,
        anchor_points,
    });
    Ok(KerxSubtable::new(format, true))
}

/// An extended kerning table of one horizontal subtable.
fn kerx_with(alloc: Global, kerx: &KerxData) -> Result<Kerx, TableError> {
    let subtable = match kerx {
        KerxData::PairsAcross(pairs) => across_of(alloc, pairs)?,
        KerxData::Stack(machine, values, count) => stack_of(alloc, machine, values, *count)?,
        KerxData::Anchors(machine, pairs) => anchors_of(alloc, machine, pairs)?,
    };
    let mut subtables = Vec::new(alloc);
    push(&mut subtables, subtable)?;
    Kerx::new(subtables)
}

/// The extended kerning table, if there is one.
pub(crate) fn kerx_of(alloc: Global, kerx: &Option<KerxData>) -> Result<Option<Kerx>, TableError> {
    match kerx {
        Some(kerx) => Ok(Some(kerx_with(alloc, kerx)?)),
        None => Ok(None),
    }
}

/// A table of anchor points.
fn ankr_with(alloc: Global, glyphs: &[(u16, &[Point])]) -> Result<Ankr, TableError> {
    let mut rows = Vec::new(alloc);
    for (glyph, points) in glyphs {
        push(&mut rows, (*glyph, Vec::from_slice(alloc, points)?))?;
    }
    Ankr::new(rows)
}

/// The table of anchor points, if there is one.
pub(crate) fn ankr_of(
    alloc: Global,
    points: Option<&[(u16, &[Point])]>,
) -> Result<Option<Ankr>, TableError> {
    match points {
        Some(points) => Ok(Some(ankr_with(alloc, points)?)),
        None => Ok(None),
    }
}
