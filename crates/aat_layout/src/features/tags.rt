//! Tags in a text, and the text of a tag.
ghost use Rattle.std.specs.Prelude.{◌≡◌, ◌++◌, ◌<◌, length, slice_index, codes};
ghost use Rattle.std.specs.Int.{to_be_bytes, w32};
ghost use Rattle.aat_layout.specs.features.Tags.{plain_tag, quoted_tag, tag_at, tag_of, whole_tag};
ghost use Rattle.aat_layout.specs.features.inside.Classes.{is_of};

use crate::features::characters::{Class, after, next, run_at, skip_spaces};
use crate::features::error::FeatureError;
use aat_font::hb_tag_t;

/// The character at a place of a tag, a space where there is none.
fn padded(characters: &[u8], place: usize) -> u8
    requires { place < 4 }
    ensures { result ≡ slice_index (characters.now ++ codes "    ") place }
{
    characters.get(place).copied().unwrap_or(b' ')
}

/// The tag of one to four characters, filled up with spaces.
fn tag_of(characters: &[u8]) -> hb_tag_t
    ensures { result ≡ tag_of characters.now }
{
    hb_tag_t::from_bytes(&[
        padded(characters, 0),
        padded(characters, 1),
        padded(characters, 2),
        padded(characters, 3),
    ])
}

/// A tag of one to four characters of a class, and the place behind it.
#[tactic(auto, unfolding(crate::specs::features::Tags::plain_tag))]
fn plain_tag(text: &[u8], place: usize, class: Class) -> Result<(hb_tag_t, usize), FeatureError>
    ensures { result ≡ plain_tag (is_of class) text.now place }
{
    let characters = run_at(text, place, class);
    match characters.len() {
        0 => Err(FeatureError::NoTag(place)),
        1..=4 => Ok((tag_of(characters), place + characters.len())),
        _ => Err(FeatureError::TagLength(place)),
    }
}

/// A tag of four characters with a quote behind them, and the place behind that.
#[tactic(auto, unfolding(crate::specs::features::Tags::quoted_tag))]
fn quoted_tag(quote: &[u8], text: &[u8], place: usize) -> Result<(hb_tag_t, usize), FeatureError>
    ensures { result ≡ quoted_tag quote.now text.now place }
{
    let characters = run_at(text, place, Class::OfTag);
    match characters.len() {
        0 => Err(FeatureError::NoTag(place)),
        4 => match after(quote, text, place + 4) {
            Some(behind) => Ok((tag_of(characters), behind)),
            None => Err(FeatureError::MissingQuote(place + 4)),
        },
        _ => Err(FeatureError::TagLength(place)),
    }
}

/// A tag, in quotes of either sort or in none, and the place behind it.
#[tactic(auto, unfolding(crate::specs::features::Tags::tag_at))]
pub fn tag_at(text: &[u8], place: usize) -> Result<(hb_tag_t, usize), FeatureError>
    ensures { result ≡ tag_at text.now place }
{
    if let Some(behind) = next(b"'", text, place) {
        quoted_tag(b"'", text, behind)
    } else if let Some(behind) = next(b"\"", text, place) {
        quoted_tag(b"\"", text, behind)
    } else {
        plain_tag(text, skip_spaces(text, place), Class::OfTag)
    }
}

/// The tag that a text of one to four printable characters is, filled up with spaces. The text stands without quotes,
/// and its own spaces are characters of the tag.
///
/// Refused as 1, `NoTag` at 0, where the text does not begin with a character from the space up to the tilde; as 2,
/// `TagLength` at 0, where it begins with more than four of them; and as 7, `TrailingText`, where another character
/// stands behind them, at its place. It takes no memory.
#[tactic(auto, unfolding(crate::specs::features::Tags::whole_tag))]
pub fn parse_tag(text: &str) -> Result<hb_tag_t, FeatureError>
    ensures { result ≡ whole_tag text.now }
{
    let (tag, end) = plain_tag(text.as_bytes(), 0, Class::Printable)?;
    if end < text.len() {
        return Err(FeatureError::TrailingText(end));
    }
    Ok(tag)
}

/// The four characters of a tag, of which the first counts most.
pub fn tag_text(tag: hb_tag_t) -> [u8; 4]
    ensures { result ≡ to_be_bytes w32 tag.0 }
{
    tag.0.to_be_bytes()
}
