//! The clusters of a text as HarfBuzz has them, which stay whole where a text is turned.
ghost use Rattle.std.specs.Prelude.{◌≡◌, ◌++◌, reverse, IfOk, OnOk};
ghost use Rattle.aat_characters.specs.Clusters.{continues, ends_with_joiner, extends, is_half_flag, is_joiner, merged, merged_clusters, turned_clusters};

use crate::mark::is_mark;
use crate::native::is_regional_indicator;
use crate::placed_character::{PlacedCharacter, put_moved};
use std::alloc::{AllocError, Allocator};
use ucd_emoji::is_extended_pictographic;

/// Whether a character is a zero width joiner.
fn is_joiner(character: char) -> bool
    ensures { result ≡ is_joiner character }
{
    character == '\u{200D}'
}

/// Whether a character continues each cluster: a mark, a modifier of emoji, a zero width joiner, a halfwidth voiced
/// sound mark of Katakana, and a tag.
pub fn extends(character: char) -> bool
    ensures { result ≡ extends character }
{
    let code = character as u32;
    is_mark(character)
        || (0x1F3FB <= code && code <= 0x1F3FF)
        || is_joiner(character)
        || (0xFF9E <= code && code <= 0xFF9F)
        || (0xE0020 <= code && code <= 0xE007F)
}

/// Whether the last character of a cluster is a zero width joiner.
fn ends_with_joiner(cluster: &[PlacedCharacter]) -> bool
    ensures { result ≡ ends_with_joiner cluster.now }
{
    match cluster.last() {
        Some(last) => is_joiner(last.character),
        None => false,
    }
}

/// Whether a cluster is the first half of a flag.
fn is_half_flag(cluster: &[PlacedCharacter]) -> bool
    ensures { result ≡ is_half_flag cluster.now }
{
    cluster.len() == 1 && is_regional_indicator(cluster[0].character)
}

/// Whether a character continues the cluster before it, as HarfBuzz has it: so does also a pictograph behind a zero
/// width joiner, and the second half of a flag.
fn continues(cluster: &[PlacedCharacter], character: PlacedCharacter) -> bool
    ensures { result ≡ continues cluster.now character }
{
    extends(character.character)
        || (ends_with_joiner(cluster) && is_extended_pictographic(character.character))
        || (is_half_flag(cluster) && is_regional_indicator(character.character))
}

/// Puts a cluster behind others, its characters at the place of the first one.
fn put_merged<A: Allocator>(
    cluster: &[PlacedCharacter],
    out: &mut Vec<PlacedCharacter, A>,
) -> Result<(), AllocError>
    ensures { OnOk result (out.new.items ≡ out.old.items ++ merged cluster.now) }
{
    match cluster.first() {
        Some(first) => put_moved(first.place, cluster, out),
        None => Ok(()),
    }
}

/// The characters of a text, each with the place of its cluster, in the order of the text. `characters` is the text,
/// each character with its own place.
///
/// A cluster is one character and those that continue it, as HarfBuzz 12.3.2 has it: a mark (`General_Category` Mn, Mc
/// or Me), a modifier of emoji, a zero width joiner, `Extended_Pictographic` behind a zero width joiner, the second of
/// two regional indicators, a tag (U+E0020 to U+E007F), and U+FF9E and U+FF9F.
pub fn merged_clusters<A: Allocator>(
    alloc: A,
    characters: &[PlacedCharacter],
) -> Result<Vec<PlacedCharacter, A>, AllocError>
    ensures { IfOk result (λ out. out.items ≡ merged_clusters characters.now) }
{
    let mut out = Vec::with_capacity(alloc, characters.len())?;
    let mut start = 0;
    for (i, character) in characters.iter().enumerate() {
        if !continues(&characters[start..i], *character) {
            put_merged(&characters[start..i], &mut out)?;
            start = i;
        }
    }
    put_merged(&characters[start..], &mut out)?;
    Ok(out)
}

/// Puts a cluster behind others from its last character to its first, at the place of the first one. `turned` is used
/// up.
fn put_turned<A: Allocator>(
    cluster: &[PlacedCharacter],
    turned: &mut Vec<PlacedCharacter, A>,
    out: &mut Vec<PlacedCharacter, A>,
) -> Result<(), AllocError>
    ensures { OnOk result (out.new.items ≡ out.old.items ++ reverse (merged cluster.now)) }
{
    turned.clear();
    put_merged(cluster, turned)?;
    turned.reverse();
    out.extend_from_slice(turned)
}

/// The same from the last cluster to the first. Within each the characters stay in the order of the text.
pub fn turned_clusters<A: Allocator + Copy>(
    alloc: A,
    characters: &[PlacedCharacter],
) -> Result<Vec<PlacedCharacter, A>, AllocError>
    ensures { IfOk result (λ out. out.items ≡ turned_clusters characters.now) }
{
    let mut turned = Vec::new(alloc);
    let mut out = Vec::with_capacity(alloc, characters.len())?;
    let mut start = 0;
    for (i, character) in characters.iter().enumerate() {
        if !continues(&characters[start..i], *character) {
            put_turned(&characters[start..i], &mut turned, &mut out)?;
            start = i;
        }
    }
    put_turned(&characters[start..], &mut turned, &mut out)?;
    out.reverse();
    Ok(out)
}
