//! What places of a text count.
ghost use Rattle.std.specs.Prelude.{◌≡◌, ◌≤◌, length};
ghost use Rattle.aat_text.specs.Places.{count_in, width_in};

/// What clusters and other places of a text count.
#[derive(Clone, Copy, PartialEq, Eq, Debug)]
pub enum ClusterUnit {
    /// The bytes of the text before a place.
    Bytes,
    /// The characters of the text before a place.
    Characters,
}

impl ClusterUnit {
    /// How much a piece of a text counts.
    pub(crate) fn count_of(self, piece: &str) -> usize
        ensures value { result ≡ count_in self piece.now }
        ensures small { result ≤ length piece.now }
    {
        match self {
            ClusterUnit::Bytes => piece.len(),
            ClusterUnit::Characters => piece.chars().count(),
        }
    }

    /// How much a character counts.
    pub(crate) fn width_of(self, character: char) -> usize
        ensures { result ≡ width_in self character }
    {
        match self {
            ClusterUnit::Bytes => character.len_utf8(),
            ClusterUnit::Characters => 1,
        }
    }
}
