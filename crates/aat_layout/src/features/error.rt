//! Why a text is refused.
ghost use Rattle.std.specs.Prelude.{◌≡◌};
ghost use Rattle.aat_layout.specs.features.Errors.{number_of_feature_error};

use thiserror::Error;

/// Why a text is no feature or no tag, and at which place. A place is counted in bytes from the start of the text.
/// Nothing is made of a refused text.
#[derive(Clone, Copy, PartialEq, Eq, Debug, Error)]
pub enum FeatureError {
    /// 1: a tag has to begin at this place, and no character of a tag stands there.
    #[error("no tag begins at byte {0}")]
    NoTag(usize),
    /// 2: the tag that begins at this place has more than four characters, or stands in quotes and has fewer.
    #[error("the tag at byte {0} has not the length of a tag")]
    TagLength(usize),
    /// 3: the quote that ends a tag has to stand at this place.
    #[error("the closing quote is missing at byte {0}")]
    MissingQuote(usize),
    /// 4: the bracket that closes clusters has to stand at this place.
    #[error("the closing bracket is missing at byte {0}")]
    MissingBracket(usize),
    /// 5: the number that begins at this place is above 4,294,967,295.
    #[error("the number at byte {0} is above 4294967295")]
    NumberTooLarge(usize),
    /// 6: a value has to stand at this place, after an equals sign.
    #[error("the value is missing at byte {0}")]
    MissingValue(usize),
    /// 7: at this place something follows what was read.
    #[error("there is something else at byte {0}")]
    TrailingText(usize),
}

impl FeatureError {
    /// The error's number, from 1 to 7.
    pub fn number(self) -> u8
        ensures { result ≡ number_of_feature_error self }
    {
        match self {
            FeatureError::NoTag(_) => 1,
            FeatureError::TagLength(_) => 2,
            FeatureError::MissingQuote(_) => 3,
            FeatureError::MissingBracket(_) => 4,
            FeatureError::NumberTooLarge(_) => 5,
            FeatureError::MissingValue(_) => 6,
            FeatureError::TrailingText(_) => 7,
        }
    }
}
