//! Worked examples as theorems. These calls do nothing: what is proved is their contracts.
ghost use Rattle.aat_typesetter.specs.Examples.{KhmerIsNotKerned, MarksAreBoxed, MarksAreNarrow, SpacesHang, TagsAreCased};

/// The definitions of what a script asks for compute to the examples.
pub fn scripts()
    ensures kern { KhmerIsNotKerned }
    ensures widths { MarksAreNarrow }
    ensures boxes { MarksAreBoxed }
{}

/// The definition of where lines may end among glyphs computes to the example.
pub fn stops()
    ensures { SpacesHang }
{}

/// The definition of the script of a tag computes to the examples.
pub fn tags()
    ensures { TagsAreCased }
{}
