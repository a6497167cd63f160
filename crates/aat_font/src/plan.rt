//! What the caller asks of a shaping.
ghost use Rattle.std.specs.Prelude.{◌≡◌, false, true};

use crate::tag::hb_tag_t;
use aat_machine_tables::hb_mask_t;
use std::ops::Range;

/// A request of the user: a feature's value over the clusters `start` to `end - 1`, or from `start` on where `end` is
/// `u32::MAX`, which never comes.
#[derive(Clone, Copy, PartialEq, Eq, Debug)]
pub struct Feature {
    pub tag: hb_tag_t,
    pub value: u32,
    pub start: u32,
    pub end: u32,
}

impl Feature {
    /// A request of a feature's value over a range of clusters, whose end is not included, but that one of `u32::MAX`
    /// never comes: `0..u32::MAX` is a whole text.
    pub fn new(tag: hb_tag_t, value: u32, clusters: Range<u32>) -> Feature
        ensures { result ≡ record { tag = tag; value = value; start = clusters.start; end = clusters.end } }
    {
        Feature {
            tag,
            value,
            start: clusters.start,
            end: clusters.end,
        }
    }
}

/// The plan of a shaping, made by the caller.
#[derive(Drop)]
pub struct hb_ot_shape_plan_t {
    /// The requests of the user, in their order.
    pub user_features: Vec<Feature>,
    /// Whether the requests choose what the extended glyph metamorphosis table does. Without it, a call that only
    /// substitutes has each of its subtables on everywhere, and the call that shapes does not substitute.
    pub apply_morx: bool,
    /// Whether kerning is asked for.
    pub requested_kerning: bool,
    /// The bits of a glyph's mask at which it is kerned.
    pub kern_mask: hb_mask_t,
}

impl hb_ot_shape_plan_t {
    /// A plan in which these requests choose what the extended glyph metamorphosis table does. No kerning is asked for,
    /// and its mask is 0.
    pub fn new(user_features: Vec<Feature>) -> hb_ot_shape_plan_t
        ensures features { result.user_features ≡ user_features }
        ensures applied { result.apply_morx ≡ true }
        ensures unkerned { result.requested_kerning ≡ false }
        ensures mask { result.kern_mask ≡ 0 }
    {
        hb_ot_shape_plan_t {
            user_features,
            apply_morx: true,
            requested_kerning: false,
            kern_mask: 0,
        }
    }
}
