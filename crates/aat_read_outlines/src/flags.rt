//! The flags of the points of a simple glyph.
ghost use Rattle.std.specs.Prelude.{◌≡◌, ◌+◌, ◌<◌, ◌≤◌, IfOk, IfSome, length};
ghost use Rattle.aat_read_outlines.specs.Flags.{flags_from, has, next_run, run_at, run_of};

use std::alloc::{AllocError, Allocator};
use std::marker::Model;

/// The point is on the curve.
pub(crate) const ON_CURVE: u8 = 0x01;
/// The step along x is a byte.
pub(crate) const X_SHORT: u8 = 0x02;
/// The step along y is a byte.
pub(crate) const Y_SHORT: u8 = 0x04;
/// The byte behind says how often the flag is repeated.
pub(crate) const REPEAT: u8 = 0x08;
/// A short step along x is positive, and one that is not short is 0.
pub(crate) const X_SAME: u8 = 0x10;
/// A short step along y is positive, and one that is not short is 0.
pub(crate) const Y_SAME: u8 = 0x20;

/// Whether a flag has a bit.
pub(crate) fn has(flag: u8, bit: u8) -> bool
    ensures { result ≡ has flag bit }
{
    flag & bit != 0
}

/// A flag, how often it is still repeated, and the place of the next byte.
#[derive(Clone, Copy)]
struct FlagRun {
    place: usize,
    flag: u8,
    repeats: u8,
}

/// The flag of a byte at a place.
fn run_of(bytes: &[u8], place: usize, flag: u8) -> Option<FlagRun>
    requires { place < length bytes.now }
    ensures run { result ≡ run_of bytes.now place flag }
    ensures inside { IfSome result (λ run. run.place ≤ length bytes.now) }
{
    if !has(flag, REPEAT) {
        return Some(FlagRun {
            place: place + 1,
            flag,
            repeats: 0,
        });
    }
    let repeats = *bytes.get(place + 1)?;
    Some(FlagRun {
        place: place + 2,
        flag,
        repeats,
    })
}

/// The next flag.
fn next_run(bytes: &[u8], run: FlagRun) -> Option<FlagRun>
    requires { run.place ≤ length bytes.now }
    ensures run { result ≡ next_run bytes.now run }
    ensures inside { IfSome result (λ next. next.place ≤ length bytes.now) }
{
    if run.repeats == 0 {
        let flag = *bytes.get(run.place)?;
        return run_of(bytes, run.place, flag);
    }
    Some(FlagRun {
        repeats: run.repeats - 1,
        ..run
    })
}

/// Flags, and the place behind their bytes. A contract sees it as `FlagList`.
#[derive(Drop)]
pub(crate) struct Flags<A: Allocator> {
    flags: Vec<u8, A>,
    place: usize,
}

impl<A: Allocator> Model for Flags<A> {
    ghost use Rattle.aat_read_outlines.specs.Flags.{FlagList};

    ghost Value = { FlagList };

    ghost view = { λ m. record { flags = m.flags.items; place = m.place } };
}

impl<A: Allocator> Flags<A> {
    /// The flags.
    pub(crate) fn flags(&self) -> &[u8]
        ensures { result.now ≡ self.now.flags }
    {
        &self.flags
    }

    /// The place behind their bytes.
    pub(crate) fn place(&self) -> usize
        ensures { result ≡ self.now.place }
    {
        self.place
    }
}

/// So many flags from a place on, or `None` if they are not all there.
pub(crate) fn flags_from<A: Allocator>(
    alloc: A,
    bytes: &[u8],
    place: usize,
    count: u32,
) -> Result<Option<Flags<A>>, AllocError>
    requires { place ≤ length bytes.now }
    ensures flags { IfOk result (λ flags. flags ≡ flags_from bytes.now (run_at place) count) }
    ensures counted { IfOk result (λ flags. IfSome flags (λ list. length list.flags ≡ count)) }
    ensures inside { IfOk result (λ flags. IfSome flags (λ list. list.place ≤ length bytes.now)) }
{
    let mut run = FlagRun {
        place,
        flag: 0,
        repeats: 0,
    };
    let mut flags = Vec::with_capacity(alloc, count as usize)?;
    for _done in 0..count {
        let Some(next) = next_run(bytes, run) else {
            return Ok(None);
        };
        run = next;
        flags.push(run.flag)?;
    }
    Ok(Some(Flags {
        flags,
        place: run.place,
    }))
}
