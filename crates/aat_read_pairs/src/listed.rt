//! Pairs that are listed: format 0 of both tables.
ghost use Rattle.std.specs.Prelude.{◌≡◌, ◌+◌, ◌*◌, ◌^◌, ◌<◌, ◌≤◌, length, IfOk, None};
ghost use Rattle.aat_lookup.specs.Keys.{first_fall};
ghost use Rattle.aat_kerning_tables.specs.Pairs.{key_of_pair};
ghost use Rattle.aat_bytes.specs.Bisection.{is_found, row_found};
ghost use Rattle.aat_read_lookup.specs.Lookups.{Gives};
ghost use Rattle.aat_read_pairs.specs.ListedPairs.{found_pairs, kern_pairs_at, kerx_pairs_at, key_at, listed_pairs, pair_at, pairs_at};

use crate::values::Tuples;
use aat_bytes::tags::{KERN, KERX};
use aat_bytes::{Fault, FaultKind, ReadError, Tag, be16, be32};
use aat_kerning_tables::Pairs;
use aat_lookup::TableError;
use std::alloc::{AllocError, Allocator};

/// The number by which a bisection searches a pair: its left glyph, then its right one.
fn key_at(bytes: &[u8], place: usize, i: usize) -> u32
    requires { place + 6 * i + 6 ≤ length bytes.now }
    ensures { result ≡ key_at bytes.now place i }
{
    let at = place + 6 * i;
    be16(bytes, at) as u32 * 65536 + be16(bytes, at + 2) as u32
}

/// What a pair says.
fn pair_at(bytes: &[u8], tuples: Tuples, place: usize, i: usize) -> (u16, u16, i16)
    requires inside { place + 6 * i + 6 ≤ length bytes.now }
    requires tuples { tuples.place < 2 ^ 63 + 2 ^ 32 }
    ensures { result ≡ pair_at bytes.now tuples place i }
{
    let at = place + 6 * i;
    (
        be16(bytes, at),
        be16(bytes, at + 2),
        tuples.value(bytes, be16(bytes, at + 4)),
    )
}

/// Which of so many pairs a bisection for a key finds. Of two pairs in the middle it looks at the lower one, as HarfBuzz
/// does.
fn row_found(bytes: &[u8], place: usize, count: usize, key: u32) -> Option<usize>
    requires { place + 6 * count ≤ length bytes.now }
    ensures { result ≡ row_found (key_at bytes.now place) count key }
{
    let mut from = 0;
    let mut to = count;
    while from < to {
        let middle = (from + (to - 1)) / 2;
        let found = key_at(bytes, place, middle);
        if key < found {
            to = middle;
        } else if found < key {
            from = middle + 1;
        } else {
            return Some(middle);
        }
    }
    None
}

/// Whether a bisection for the key of a pair finds that very pair.
fn is_found(bytes: &[u8], place: usize, count: usize, i: usize) -> bool
    requires inside { place + 6 * count ≤ length bytes.now }
    requires below { i < count }
    ensures { result ≡ is_found (key_at bytes.now place) count i }
{
    match row_found(bytes, place, count, key_at(bytes, place, i)) {
        Some(found) => found == i,
        None => false,
    }
}

/// What so many pairs say.
fn pairs_at<A: Allocator>(
    alloc: A,
    bytes: &[u8],
    tuples: Tuples,
    place: usize,
    count: usize,
) -> Result<Vec<(u16, u16, i16), A>, AllocError>
    requires inside { place + 6 * count ≤ length bytes.now }
    requires tuples { tuples.place < 2 ^ 63 + 2 ^ 32 }
    ensures { IfOk result (λ pairs. pairs.items ≡ pairs_at bytes.now tuples place count) }
{
    (0..count)
        .map(|i| pair_at(bytes, tuples, place, i))
        .collect(alloc)
}

/// What those of so many pairs say that a bisection finds.
fn bisected_pairs<A: Allocator>(
    alloc: A,
    bytes: &[u8],
    tuples: Tuples,
    place: usize,
    count: usize,
) -> Result<Vec<(u16, u16, i16), A>, AllocError>
    requires inside { place + 6 * count ≤ length bytes.now }
    requires tuples { tuples.place < 2 ^ 63 + 2 ^ 32 }
    ensures { IfOk result (λ pairs. pairs.items ≡ found_pairs bytes.now tuples place count) }
{
    let mut pairs = Vec::new(alloc);
    for i in 0..count {
        if is_found(bytes, place, count, i) {
            pairs.push(pair_at(bytes, tuples, place, i))?;
        }
    }
    Ok(pairs)
}

/// The table of pairs. Fails only where it gets no memory.
fn table_of<A: Allocator + Copy>(
    alloc: A,
    pairs: &[(u16, u16, i16)],
) -> Result<Pairs<A>, AllocError>
    requires { first_fall key_of_pair pairs.now ≡ None }
    ensures { IfOk result (λ table. table ≡ pairs.now) }
{
    match Pairs::new(alloc, pairs) {
        Ok(table) => Ok(table),
        Err(TableError::OutOfMemory) => Err(AllocError),
        Err(_) => unreachable!(),
    }
}

/// The table of what a bisection finds of so many pairs. Fails only where it gets no memory.
fn bisected_table<A: Allocator + Copy>(
    alloc: A,
    bytes: &[u8],
    tuples: Tuples,
    place: usize,
    count: usize,
) -> Result<Pairs<A>, AllocError>
    requires inside { place + 6 * count ≤ length bytes.now }
    requires tuples { tuples.place < 2 ^ 63 + 2 ^ 32 }
    ensures { IfOk result (λ table. table ≡ found_pairs bytes.now tuples place count) }
{
    let pairs = bisected_pairs(alloc, bytes, tuples, place, count)?;
    table_of(alloc, &pairs)
}

/// The same, without a search where all rise strictly, as they ought to. That is known where all of them make a table.
fn found_table<A: Allocator + Copy>(
    alloc: A,
    bytes: &[u8],
    tuples: Tuples,
    place: usize,
    count: usize,
) -> Result<Pairs<A>, AllocError>
    requires inside { place + 6 * count ≤ length bytes.now }
    requires tuples { tuples.place < 2 ^ 63 + 2 ^ 32 }
    ensures { IfOk result (λ table. table ≡ found_pairs bytes.now tuples place count) }
{
    let pairs = pairs_at(alloc, bytes, tuples, place, count)?;
    match Pairs::new(alloc, &pairs) {
        Ok(table) => Ok(table),
        Err(TableError::NotRising(_)) => bisected_table(alloc, bytes, tuples, place, count),
        Err(_) => Err(AllocError),
    }
}

/// What is found of so many pairs from a place on.
#[tactic(auto, unfolding(crate::specs::ListedPairs::listed_pairs))]
fn listed_pairs<A: Allocator + Copy>(
    alloc: A,
    table: Tag,
    bytes: &[u8],
    tuples: Tuples,
    place: usize,
    count: u32,
) -> Result<Pairs<A>, ReadError>
    requires starts { place ≤ length bytes.now }
    requires tuples { tuples.place < 2 ^ 63 + 2 ^ 32 }
    ensures { Gives result (listed_pairs table bytes.now tuples place count) }
{
    let count = count as usize;
    if bytes.len() < place + 6 * count {
        let whole = (bytes.len() - place) / 6;
        return Err(ReadError::Fault(Fault::new(table, FaultKind::PastEnd, place + 6 * whole)));
    }
    Ok(found_table(alloc, bytes, tuples, place, count)?)
}

/// Reads the pairs of a subtable of format 0 of the table `kern`. `bytes` is the table from its start, up to where the
/// subtable may reach, and `place` is where it goes on behind its header. The three numbers for a search are not
/// believed.
///
/// The value of two glyphs is what a bisection over all pairs finds for them, by the left glyph, then by the right one.
/// Where pairs rise strictly all are found. Else the pairs that are found are the table; to find them takes as many
/// bisections as there are pairs.
///
/// The first fault, of `kern`, with its place from the start of the table: 1, `PastEnd`, 8 bytes that are not there, at
/// `place`, and pairs that are not there, at the first of them. `OutOfMemory` comes only if the bytes have no fault.
///
/// Apple's TrueType Reference Manual, "The 'kern' table", format 0.
#[tactic(auto, unfolding(crate::specs::ListedPairs::kern_pairs_at))]
pub fn read_kern_pairs<A: Allocator + Copy>(
    alloc: A,
    bytes: &[u8],
    place: usize,
) -> Result<Pairs<A>, ReadError>
    ensures { Gives result (kern_pairs_at bytes.now place) }
{
    if bytes.len() < 8 || place > bytes.len() - 8 {
        return Err(ReadError::Fault(Fault::new(KERN, FaultKind::PastEnd, place)));
    }
    let count = be16(bytes, place) as u32;
    listed_pairs(alloc, KERN, bytes, Tuples::none(), place + 8, count)
}

/// Reads the pairs of a subtable of format 0 of the table `kerx`. `bytes` is the table from its start, up to where the
/// subtable may reach, and `start` is where its header of 12 bytes starts. With a tuple count above 0 a value is the
/// first of its tuple, whose offset from `start` stands for it, and 0 where the tuple is not there as a whole. The three
/// numbers for a search are not believed.
///
/// The value of two glyphs is what a bisection over all pairs finds for them, as `read_kern_pairs` says.
///
/// The first fault, of `kerx`, with its place from the start of the table: 1, `PastEnd`, 28 bytes that are not there, at
/// `start`, and pairs that are not there, at the first of them. `OutOfMemory` comes only if the bytes have no fault.
///
/// Apple's TrueType Reference Manual, "The 'kerx' table", format 0.
#[tactic(auto, unfolding(crate::specs::ListedPairs::kerx_pairs_at))]
pub fn read_kerx_pairs<A: Allocator + Copy>(
    alloc: A,
    bytes: &[u8],
    start: usize,
    tuple_count: u32,
) -> Result<Pairs<A>, ReadError>
    ensures { Gives result (kerx_pairs_at bytes.now start tuple_count) }
{
    if bytes.len() < 28 || start > bytes.len() - 28 {
        return Err(ReadError::Fault(Fault::new(KERX, FaultKind::PastEnd, start)));
    }
    let tuples = Tuples {
        place: start,
        count: tuple_count,
    };
    listed_pairs(
        alloc,
        KERX,
        bytes,
        tuples,
        start + 28,
        be32(bytes, start + 12),
    )
}
