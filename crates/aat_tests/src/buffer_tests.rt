//! A filter of a caller, and a caller's ranges of clusters, which no font reaches.

use aat_layout::buffer::{hb_buffer_t, hb_glyph_info_t};
use aat_layout::feature;
use aat_layout::font::{Feature, hb_tag_t};
use std::cell::Cell;
use std::process::Abort;
use std::test::Fail;

/// A filter is asked once a glyph, of its record as it stands then: each glyph that goes hands its cluster to the next.
#[test]
fn a_filter_is_asked_once_a_glyph(rt: HostRuntime) -> Result<(), Fail> {
    let asked = Cell::new(0u32);
    let mut buffer = hb_buffer_t::new(rt.alloc(), 100, 0);
    for place in 0..4 {
        buffer.add(hb_glyph_info_t::new(place, place))?;
    }
    buffer.delete_glyphs_inplace(|glyph| {
        asked.set(asked.get().wrapping_add(1));
        glyph.cluster == 0
    });
    assert!(rt; buffer.is_empty() && asked.get() == 4);
    Ok(())
}

#[test]
fn ranges_of_each_type(rt: HostRuntime) {
    let tag = hb_tag_t::from_bytes(b"smcp");
    assert!(&rt; feature(tag, 1, ..) == Feature::new(tag, 1, 0..u32::MAX));
    assert!(&rt; feature(tag, 1, 3..) == Feature::new(tag, 1, 3..u32::MAX));
    assert!(&rt; feature(tag, 1, 3..5) == Feature::new(tag, 1, 3..5));
    assert!(&rt; feature(tag, 1, ..5) == Feature::new(tag, 1, 0..5));
}
