//! Feature settings, requests for them, and the order of their groups.
ghost use Rattle.std.specs.Prelude.{◌≡◌, ◌↔◌, IsTrue};
ghost use Rattle.std.specs.Cmp.{IsTotalOrder};
ghost use Rattle.aat_map.specs.Live.{group_setting, group_order, in_group};

use std::cmp::Ordering;

/// A setting of a feature type.
#[derive(Clone, Copy, PartialEq, Eq, Debug, Default)]
pub struct feature_info_t {
    /// The feature type.
    pub kind: u16,
    pub setting: u16,
    /// Whether the settings of the type exclude one another.
    pub is_exclusive: bool,
}

/// A request for a setting over the clusters `start` to `end - 1`, or up to the last cluster where
/// `end` is `u32::MAX`.
#[derive(Clone, Copy, PartialEq, Eq, Debug)]
pub struct feature_range_t {
    pub info: feature_info_t,
    pub start: u32,
    pub end: u32,
}

/// The setting that tells groups apart: none where the settings exclude one another, and else the
/// setting without its low bit, since a setting and its opposite stand in one group.
///
/// Apple's TrueType Reference Manual, "The 'feat' table": of exclusive settings one alone is chosen, as
/// with radio buttons; others are chosen each for itself, as with check boxes, and there the even number
/// turns on what the odd one behind it turns off.
pub(crate) fn group_setting(info: &feature_info_t) -> u16
    ensures { result ≡ group_setting info.now }
{
    if info.is_exclusive {
        0
    } else {
        info.setting & 0xFFFE
    }
}

/// The order of groups: by feature type, then settings that do not exclude one another before those
/// that do, and then, where they do not, by the setting without its low bit. Two settings are equal
/// in it exactly where they are of one group, of which one alone is kept at a cluster.
///
/// Exclusiveness is part of the key, since it need not follow the type: an alternate is asked for as
/// exclusive whatever the font's name of its type says. By the type alone such a request would be equal
/// to each of two that are not equal to one another, and settings could not be sorted by that.
pub fn feature_order(a: &feature_info_t, b: &feature_info_t) -> Ordering
    ensures order { result ≡ group_order a.now b.now }
    ensures one_group { (result ≡ Ordering.Equal) ↔ IsTrue (in_group a.now b.now) }
    ensures total { IsTotalOrder group_order }
{
    a.kind
        .cmp(&b.kind)
        .then(a.is_exclusive.cmp(&b.is_exclusive))
        .then(group_setting(a).cmp(&group_setting(b)))
}
