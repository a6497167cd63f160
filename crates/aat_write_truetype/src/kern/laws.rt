//! Laws of writing as theorems. These calls do nothing: what is proved is their contracts.
ghost use Rattle.aat_write_truetype.specs.kern.KernLaws.{WrittenKernIsRead};

/// A kerning table that is written is read again: the very subtables.
pub fn written_kern_is_read()
    ensures { WrittenKernIsRead }
{}
