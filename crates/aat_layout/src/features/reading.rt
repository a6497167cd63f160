//! The feature that a text is.
ghost use Rattle.std.specs.Prelude.{◌≡◌};
ghost use Rattle.aat_layout.specs.features.Reading.{feature_of};

use crate::features::characters::skip_spaces;
use crate::features::clusters::clusters_at;
use crate::features::error::FeatureError;
use crate::features::tags::tag_at;
use crate::features::values::{sign_at, value_at};
use aat_font::Feature;

/// The feature that a text is: a sign, a tag, clusters and a value, in this order, of which the tag alone is demanded.
///
/// - The sign is `+` or `-`. A minus is the value 0, a plus or no sign the value 1.
/// - The tag has one to four letters, digits or underscores, and is filled up with spaces. In single or double quotes
///   it has four.
/// - Clusters stand in brackets: a start and an end that is not included, parted by `:`, `;` or `..`. With no start
///   they begin at 0, and with no end they have none, which is `u32::MAX`. A number alone is its one cluster, up to
///   4294967293: above, its end would be `u32::MAX`. Empty or missing brackets are all clusters.
/// - The value is a number, `on`, which is 1, or `off`, which is 0, in letters of either case. An equals sign may stand
///   before it, and with one it is demanded. It comes before that of the sign.
///
/// Numbers are decimal. Spaces, tabs and ends of lines may stand before each part, sign and number, and at the end, but
/// not inside of quotes.
///
/// Refused for the first fault from the left, at its place: at the tag as 1, `NoTag`, 2, `TagLength`, or 3,
/// `MissingQuote`; at the clusters as 4, `MissingBracket`, or 5, `NumberTooLarge`; at the value as 5 or as 6,
/// `MissingValue`; and behind them as 7, `TrailingText`. It takes no memory.
#[tactic(auto, unfolding(crate::specs::features::Reading::feature_of, crate::specs::features::Reading::ended))]
pub fn parse_feature(text: &str) -> Result<Feature, FeatureError>
    ensures { result ≡ feature_of text.now }
{
    let text = text.as_bytes();
    let (of_sign, place) = sign_at(text, 0);
    let (tag, place) = tag_at(text, place)?;
    let (clusters, place) = clusters_at(text, place)?;
    let (value, place) = value_at(of_sign, text, place)?;
    let end = skip_spaces(text, place);
    if end < text.len() {
        return Err(FeatureError::TrailingText(end));
    }
    Ok(Feature::new(tag, value, clusters))
}
