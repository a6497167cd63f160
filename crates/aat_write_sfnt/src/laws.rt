//! Laws of writing as theorems. These calls do nothing: what is proved is their contracts.
ghost use Rattle.aat_write_sfnt.specs.CharacterLaws.{WrittenCharactersAreRead};
ghost use Rattle.aat_write_sfnt.specs.FontLaws.{WrittenTablesAreFound};
ghost use Rattle.aat_write_sfnt.specs.NameLaws.{WrittenNamesAreFound};
ghost use Rattle.aat_write_sfnt.specs.NamedFeatureLaws.{WrittenFeaturesAreRead};
ghost use Rattle.aat_write_sfnt.specs.TableLaws.{WrittenAdvancesAreRead, WrittenClassesAreRead, WrittenCountsAreRead, WrittenHeadersAreRead, WrittenProfilesAreRead};
ghost use Rattle.aat_write_sfnt.specs.TrakLaws.{WrittenTracksAreRead};

/// The numbers of glyphs, of units of the em and of long metrics are read again.
pub fn written_headers_are_read()
    ensures glyphs { WrittenProfilesAreRead }
    ensures units { WrittenHeadersAreRead }
    ensures metrics { WrittenCountsAreRead }
{}

/// The advance of each glyph is read again.
pub fn written_advances_are_read()
    ensures { WrittenAdvancesAreRead }
{}

/// The class of each glyph is read again.
pub fn written_classes_are_read()
    ensures { WrittenClassesAreRead }
{}

/// A file that is written has one font, each table is found there with its very bytes, and no other table.
pub fn written_tables_are_found()
    ensures { WrittenTablesAreFound }
{}

/// The text of each name that is written is found.
pub fn written_names_are_found()
    ensures { WrittenNamesAreFound }
{}

/// The glyph of each character that is written is read again.
pub fn written_characters_are_read()
    ensures { WrittenCharactersAreRead }
{}

/// The features that are written are read again, and each name of theirs and of their settings is found.
pub fn written_features_are_read()
    ensures { WrittenFeaturesAreRead }
{}

/// A tracking table that is written is read again as the very same.
pub fn written_tracks_are_read()
    ensures { WrittenTracksAreRead }
{}
