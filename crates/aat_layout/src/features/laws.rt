//! Laws of tags as theorems. This call does nothing: what is proved is its contract.
ghost use Rattle.aat_layout.specs.features.TagLaws.{TagsAreFeatures, TagsAreReadAgain, TextsAreWrittenAgain};

/// A tag whose four characters are printable is read from them. Four printable characters are those of the tag that is
/// read from them. The characters of a tag, where each is a letter, a digit or an underscore, are read as its feature
/// with the value 1 everywhere.
#[tactic(auto, using(crate::proofs::TagLaws::tags_are_read_again, crate::proofs::TagLaws::tags_are_features))]
pub fn tags_are_read_again()
    ensures tags { TagsAreReadAgain }
    ensures texts { TextsAreWrittenAgain }
    ensures features { TagsAreFeatures }
{}
