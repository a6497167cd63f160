//! Which glyphs of a line become which of the line that a subtable leaves.
ghost use Rattle.std.specs.Prelude.{◌≡◌, ◌+◌, ◌-◌, ◌^◌, ◌<◌, ◌≤◌};
ghost use Rattle.aat_pictures.specs.inside.Links.{mirrored, pair_of, place_behind};

use crate::rows::place_of;
use aat_buffer::DELETED_GLYPH;
use aat_machine_tables::SubtableKind;
use aat_trace::{TracedAct, TracedSubtable};
use std::alloc::{AllocError, Global};

/// A glyph that a subtable found, and one that it left of it.
#[derive(Clone, Copy)]
pub(crate) struct Link {
    /// The place of the one that it found.
    pub(crate) from: usize,
    /// The place of the one that it left.
    pub(crate) to: usize,
    /// Whether an act changed or moved it.
    pub(crate) is_changed: bool,
}

/// Places of an act: one among the ids that it takes, and one among those that it puts.
type Pair = (usize, usize);

/// The pair of a number of an act that takes and puts so many ids: ids of the same place, and of the longer side those
/// behind with the last of the shorter side.
fn pair_of(number: usize, taken: usize, put: usize) -> Pair
    requires some_taken { 0 < taken }
    requires some_put { 0 < put }
    ensures { result ≡ pair_of number taken put }
{
    (number.min(taken - 1), number.min(put - 1))
}

/// A place, counted from the other end of a line of so many glyphs.
fn mirrored(place: usize, count: usize) -> usize
    requires inside { place < count }
    ensures { result ≡ mirrored place count }
{
    count - 1 - place
}

/// Where a glyph behind an act comes to: what ended at one place ends at another one.
fn place_behind(place: usize, end: usize, new_end: usize) -> usize
    requires behind { end ≤ place }
    requires fits { place - end + new_end < 2 ^ 64 }
    ensures { result ≡ place_behind place end new_end }
{
    place - end + new_end
}

/// The pairs of an act that joins glyphs, of which the deleted ones are parts of the glyph before them that is left.
fn joined_pairs(alloc: Global, act: &TracedAct) -> Result<Vec<Pair>, AllocError> {
    let mut kept = None;
    let mut pairs = Vec::new(alloc);
    for (place, (taken, put)) in act.taken.iter().zip(&act.put).enumerate() {
        if *put != DELETED_GLYPH {
            kept = Some(place);
        }
        let to = if *taken == DELETED_GLYPH {
            place
        } else {
            kept.unwrap_or(place)
        };
        pairs.push((place, to))?;
    }
    Ok(pairs)
}

/// Ids with their places, in the order of the ids.
fn placed(alloc: Global, ids: &[u32]) -> Result<Vec<(u32, usize)>, AllocError> {
    let mut placed = Vec::new(alloc);
    for (place, id) in ids.iter().enumerate() {
        placed.push((*id, place))?;
    }
    placed.sort()?;
    Ok(placed)
}

/// The pairs of an act that moves glyphs: equal ids, the first with the first one.
fn moved_pairs(alloc: Global, act: &TracedAct) -> Result<Vec<Pair>, AllocError> {
    let (taken, put) = (placed(alloc, &act.taken)?, placed(alloc, &act.put)?);
    let mut pairs = Vec::new(alloc);
    for ((_, from), (_, to)) in taken.iter().zip(&put) {
        pairs.push((*from, *to))?;
    }
    pairs.sort()?;
    Ok(pairs)
}

/// The pairs of an act that puts other glyphs in the place of some, in their order. Of glyphs that only go in or out
/// there are none.
fn replaced_pairs(alloc: Global, act: &TracedAct) -> Result<Vec<Pair>, AllocError> {
    let (taken, put) = (act.taken.len(), act.put.len());
    let mut pairs = Vec::new(alloc);
    if taken == 0 || put == 0 {
        return Ok(pairs);
    }
    for number in 0..taken.max(put) {
        pairs.push(pair_of(number, taken, put))?;
    }
    Ok(pairs)
}

/// The pairs of an act of a subtable of a kind, which rise.
fn pairs_of(
    alloc: Global,
    kind: Option<&SubtableKind>,
    act: &TracedAct,
) -> Result<Vec<Pair>, AllocError> {
    if act.taken.len() != act.put.len() {
        return replaced_pairs(alloc, act);
    }
    match kind {
        Some(SubtableKind::Rearrangement(_)) => moved_pairs(alloc, act),
        Some(SubtableKind::Ligature(_)) => joined_pairs(alloc, act),
        _ => replaced_pairs(alloc, act),
    }
}

/// Adds the links of a glyph at a place of an act, to which a link leads.
fn add_links(
    links: &mut Vec<Link>,
    act: &TracedAct,
    pairs: &[Pair],
    link: Link,
    place: usize,
) -> Result<(), AllocError> {
    let first = place_of(pairs, &(place, 0));
    for (from, to) in pairs.iter().skip(first) {
        if *from != place {
            break;
        }
        let is_same = from == to && act.taken.get(*from) == act.put.get(*to);
        links.push(Link {
            from: link.from,
            to: act.place.saturating_add(*to),
            is_changed: link.is_changed || !is_same,
        })?;
    }
    Ok(())
}

/// The links behind an act, of those before it.
fn links_behind(
    alloc: Global,
    links: &[Link],
    act: &TracedAct,
    pairs: &[Pair],
) -> Result<Vec<Link>, AllocError> {
    let end = act.place.saturating_add(act.taken.len());
    let put = act.place.saturating_add(act.put.len());
    let mut behind = Vec::new(alloc);
    for link in links {
        if link.to < act.place {
            behind.push(*link)?;
        } else if link.to < end {
            add_links(&mut behind, act, pairs, *link, link.to - act.place)?;
        } else if link.to <= MOST_PLACES && put <= MOST_PLACES {
            let to = place_behind(link.to, end, put);
            behind.push(Link { to, ..*link })?;
        }
    }
    Ok(behind)
}

/// No line has so many glyphs.
const MOST_PLACES: usize = 1 << 62;

/// The links between the glyphs that a subtable of a kind found and those that it left.
///
/// Fails where they get no memory: some bytes for each glyph.
pub(crate) fn links_of(
    alloc: Global,
    kind: Option<&SubtableKind>,
    subtable: &TracedSubtable,
) -> Result<Vec<Link>, AllocError> {
    let mut links = Vec::new(alloc);
    for place in 0..subtable.before.len() {
        links.push(Link {
            from: place,
            to: place,
            is_changed: false,
        })?;
    }
    for act in &subtable.acts {
        let pairs = pairs_of(alloc, kind, act)?;
        links = links_behind(alloc, &links, act, &pairs)?;
    }
    if subtable.is_reversed {
        mirror(&mut links, subtable.before.len(), subtable.after.len());
    }
    Ok(links)
}

/// Counts the places of links from the other end of lines of so many glyphs.
fn mirror(links: &mut [Link], before: usize, after: usize) {
    for link in links {
        if link.from < before && link.to < after {
            link.from = mirrored(link.from, before);
            link.to = mirrored(link.to, after);
        }
    }
}
