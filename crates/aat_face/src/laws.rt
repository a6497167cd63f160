//! Laws of faces. These calls do nothing: what is proved is their contracts.
ghost use Rattle.aat_face.specs.FaceLaws.{FaceMemoryIsBounded};

/// A face that is read takes at most 24 bytes of memory for each byte of `morx` and of `ankr`, 32 for each of `kerx` and
/// of `kern`, 4 for each of `trak`, 16 for each glyph, 6 for each feature, and 1,000. Glyphs and features have numbers of
/// 16 bits, so that is at most 32 for each byte of the file, and 1,442,770, where none of these tables overlap. A
/// directory may have them overlap: then it is at most 116 for each byte, and as much more. What a `Vec` has room for
/// beyond what it holds does not count, nor does the file, from which a face borrows.
pub fn face_memory_is_bounded()
    ensures { FaceMemoryIsBounded }
{}
