//! The value that an action of a ligature subtable reads for a glyph.
ghost use Rattle.std.specs.Prelude.{◌≡◌};
ghost use Rattle.aat_machine_tables.specs.Actions.{element_at, value_of};

/// The element at a place, if there is one.
fn element_at(values: &[u16], place: i64) -> Option<u16>
    ensures { result ≡ element_at values.now place }
{
    if place < 0 {
        return None;
    }
    values.get(place as usize).copied()
}

/// The value that an action reads for a glyph, of these component values, if there is one. Apple's TrueType Reference
/// Manual, "The 'morx' table", ligature substitution.
pub fn component_value(values: &[u16], action: u32, glyph: u32) -> Option<u16>
    ensures { result ≡ value_of values.now action glyph }
{
    // the low 30 bits of the action, signed
    let low = i64::from(action & 0x1FFF_FFFF);
    let offset = if action & 0x2000_0000 == 0 {
        low
    } else {
        low - 0x2000_0000
    };
    element_at(values, i64::from(glyph) + offset)
}
