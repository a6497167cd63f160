//! Laws of writing as theorems. These calls do nothing: what is proved is their contracts.
ghost use Rattle.aat_write_kerx.specs.AnkrLaws.{WrittenPointsAreRead};
ghost use Rattle.aat_write_kerx.specs.KerxLaws.{WrittenFormatsAreRead, WrittenKerxIsRead};

use aat_write_machine::laws::written_lookups_are_read;

/// A table of anchor points that is written is read again.
pub fn written_points_are_read()
    ensures { WrittenPointsAreRead }
{
    written_lookups_are_read();
}

/// A format of a subtable that is written is read again, at the end of some bytes.
pub fn written_formats_are_read()
    ensures { WrittenFormatsAreRead }
{
    written_lookups_are_read();
}

/// An extended kerning table that is written is read again: the very subtables in their order, with none left out.
pub fn written_kerx_is_read()
    ensures { WrittenKerxIsRead }
{
    written_formats_are_read();
}
