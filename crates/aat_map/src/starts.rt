//! The clusters at which ranges begin.
ghost use Rattle.std.specs.Prelude.{◌≡◌, [], ◌∷◌, IfOk, IfErr, OnOk};
ghost use Rattle.aat_map.specs.inside.Collected.{AreCollected, with_cut, with_starts, with_ends};

use crate::feature::feature_range_t;
use aat_run::AatError;
use std::alloc::Allocator;

/// Where ranges begin: at 0, and where, within the text, one of the requests by start starts or one of those by end
/// ends. So two lists that rise come one behind the other, which the library's stable sort merges where they are long.
pub(crate) fn starts_of<A: Allocator + Copy>(
    alloc: A,
    ordered: &[feature_range_t],
    ending: &[feature_range_t],
) -> Result<Vec<u32, A>, AatError>
    ensures ok { IfOk result (λ starts. AreCollected ordered.now ending.now starts.items) }
    ensures err { IfErr result (λ e. e ≡ AatError.OutOfMemory) }
{
    let mut starts = collected(alloc, ordered, ending)?;
    starts.sort()?;
    starts.dedup();
    Ok(starts)
}

/// 0, where requests start, and where others end.
fn collected<A: Allocator>(
    alloc: A,
    ordered: &[feature_range_t],
    ending: &[feature_range_t],
) -> Result<Vec<u32, A>, AatError>
    ensures ok { IfOk result (λ starts. starts.items ≡ with_ends (with_starts (0 ∷ []) ordered.now) ending.now) }
    ensures err { IfErr result (λ e. e ≡ AatError.OutOfMemory) }
{
    let mut starts = Vec::with_capacity(alloc, 1 + ordered.len() + ending.len())?;
    starts.push(0)?;
    push_starts(&mut starts, ordered)?;
    push_ends(&mut starts, ending)?;
    Ok(starts)
}

/// Puts the starts of requests last.
fn push_starts<A: Allocator>(
    starts: &mut Vec<u32, A>,
    ordered: &[feature_range_t],
) -> Result<(), AatError>
    ensures ok { OnOk result (starts.new.items ≡ with_starts starts.old.items ordered.now) }
    ensures err { IfErr result (λ e. e ≡ AatError.OutOfMemory) }
{
    for request in ordered {
        push_cut(starts, request.start)?;
    }
    Ok(())
}

/// Puts the ends of requests last.
fn push_ends<A: Allocator>(
    starts: &mut Vec<u32, A>,
    ending: &[feature_range_t],
) -> Result<(), AatError>
    ensures ok { OnOk result (starts.new.items ≡ with_ends starts.old.items ending.now) }
    ensures err { IfErr result (λ e. e ≡ AatError.OutOfMemory) }
{
    for request in ending {
        push_cut(starts, request.end)?;
    }
    Ok(())
}

/// Puts a cluster last that is no end of the text.
fn push_cut<A: Allocator>(starts: &mut Vec<u32, A>, cluster: u32) -> Result<(), AatError>
    ensures ok { OnOk result (starts.new.items ≡ with_cut starts.old.items cluster) }
    ensures err { IfErr result (λ e. e ≡ AatError.OutOfMemory) }
{
    if cluster != 0 && cluster != u32::MAX {
        starts.push(cluster)?;
    }
    Ok(())
}
