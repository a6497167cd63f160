//! Worked examples as theorems. These calls do nothing: what is proved is their contracts.
ghost use Rattle.aat_records.specs.Examples.{DirectionsAreHarfBuzzs, FailuresAreNumbered, FlagsAreBits, NamesAreRead, PairsAreCharacters, SizesAreTold, TextsAreTold};

/// The definitions of the numbers of failures and of their texts compute to the examples.
pub fn failures()
    ensures numbers { FailuresAreNumbered }
    ensures texts { TextsAreTold }
{}

/// The definitions of what options tell compute to the examples.
pub fn options()
    ensures directions { DirectionsAreHarfBuzzs }
    ensures sizes { SizesAreTold }
{}

/// The definitions of flags compute to the examples.
pub fn flags()
    ensures { FlagsAreBits }
{}

/// The definitions of texts of UTF-16 compute to the example of a pair of surrogates.
pub fn pairs()
    ensures { PairsAreCharacters }
{}

/// The definitions of the texts of names compute to the examples.
pub fn names()
    ensures { NamesAreRead }
{}
