//! The map builder: it gathers requests and compiles them.
ghost use Rattle.std.specs.Prelude.{◌≡◌, ◌≤◌, IfOk, IfErr, None, OnOk, OnErr, is_some, false};
ghost use Rattle.aat_font.specs.Face.{tables_of};
ghost use Rattle.aat_map.specs.Live.{IsRisingByGroup};
ghost use Rattle.aat_map.specs.Requests.{addition, is_too_large, request_of, requests_of};
ghost use Rattle.aat_map.specs.Adding.{RefusesFeature, RefusesFeatures, first_too_large_among};
ghost use Rattle.aat_map.specs.Builder.{builder_with, empty_builder, with_request};

use crate::addition::addition_of;
use crate::feature::{feature_info_t, feature_range_t};
use aat_font::{Feature, hb_font_t};
use aat_run::AatError;
use std::alloc::{Allocator, Global};
use std::marker::Model;

/// Gathers requests for features, and compiles them into the flags of each chain.
///
/// A contract sees it as the record `Builder`: the requests so far, and the range that is compiled
/// with the settings that are kept there.
#[derive(Drop)]
pub struct hb_aat_map_builder_t<A: Allocator + Copy = Global> {
    features: Vec<feature_range_t, A>,
    current_features: Vec<feature_info_t, A>,
    range_first: u32,
    range_last: u32,
}

impl<A: Allocator + Copy> Model for hb_aat_map_builder_t<A> {
    ghost use Rattle.std.specs.Prelude.{◌≤◌};
    ghost use Rattle.aat_map.specs.Live.{IsRisingByGroup};
    ghost use Rattle.aat_map.specs.Builder.{Builder};

    ghost Value = { Builder };

    ghost use Rattle.aat_map.specs.inside.BuilderInside.{builder_of};

    ghost view = { builder_of };

    ghost invariant = { λ a. (a.range_first ≤ a.range_last) × IsRisingByGroup a.current_features.items };
}

impl<A: Allocator + Copy> hb_aat_map_builder_t<A> {
    /// A builder without requests, whose range is the whole text. Takes no memory.
    pub fn default(alloc: A) -> hb_aat_map_builder_t<A>
        ensures { result ≡ empty_builder }
    {
        hb_aat_map_builder_t {
            features: Vec::new(alloc),
            current_features: Vec::new(alloc),
            range_first: 0,
            range_last: u32::MAX,
        }
    }

    /// A builder with the requests that features of the user make, in their order, whose range is the whole text.
    ///
    /// Refused as [`add_feature`](Self::add_feature) is, of the first feature that is refused: as 1, `AaltValue`, with
    /// the first value of alternates that is no setting, and as 3, `OutOfMemory`, only where a feature makes a request
    /// before any with such a value.
    pub fn with_features(
        alloc: A,
        face: &hb_font_t,
        features: &[Feature],
    ) -> Result<hb_aat_map_builder_t<A>, AatError>
        ensures ok { IfOk result (λ builder. builder
            ≡ builder_with (requests_of (tables_of face.now).feat features.now)) }
        ensures fits { OnOk result (first_too_large_among (tables_of face.now).feat features.now ≡ None) }
        ensures refused { IfErr result (RefusesFeatures (tables_of face.now).feat features.now) }
    {
        let mut builder = hb_aat_map_builder_t::default(alloc);
        for feature in features {
            builder.add_feature(face, feature)?;
        }
        Ok(builder)
    }

    /// Adds the request that a feature of the user makes, by the names of the font's features.
    ///
    /// Answers whether the feature is known: `None` for a font without feature names, for a tag
    /// other than `aalt` that no row of [`feature_mappings`](crate::feature_mappings) has, and for
    /// alternates that are appended. A feature that the font does not have with settings appends nothing.
    ///
    /// Refused as 1, `AaltValue`, where the font has character alternatives and the value of `aalt`
    /// is above 65535, and else as 3, `OutOfMemory`, where the request gets no memory. After a
    /// refusal the builder is as it was. Where nothing is appended it is never refused as 3.
    ///
    /// Apple's TrueType Reference Manual, "The 'feat' table" and its font feature registry.
    pub fn add_feature(
        &mut self,
        face: &hb_font_t,
        feature: &Feature,
    ) -> Result<Option<()>, AatError>
        ensures ok { OnOk result (self.new
            ≡ with_request self.old (request_of (tables_of face.now).feat feature.now)) }
        ensures known { IfOk result (λ answer. is_some answer
            ≡ (addition (tables_of face.now).feat feature.now).is_known) }
        ensures refused { IfErr result (RefusesFeature (tables_of face.now).feat feature.now) }
        ensures fits { OnOk result (is_too_large (tables_of face.now).feat feature.now ≡ false) }
        ensures unchanged { OnErr result (self.new ≡ self.old) }
    {
        let added = addition_of(face, feature)?;
        if let Some(info) = added.appended {
            self.features.push(feature_range_t {
                info,
                start: feature.start,
                end: feature.end,
            })?;
        }
        Ok(if added.is_known { Some(()) } else { None })
    }

    /// The requests so far, in the order of adding.
    pub fn features(&self) -> &[feature_range_t]
        ensures { result.now ≡ self.now.features }
    {
        &self.features
    }

    /// The settings that are kept in the range, strictly rising in the order of groups, that of
    /// [`feature_order`](crate::feature_order).
    pub fn current_features(&self) -> &[feature_info_t]
        ensures value { result.now ≡ self.now.current_features }
        ensures rising { IsRisingByGroup result.now }
    {
        &self.current_features
    }

    /// Sets the range and the settings that are kept in it, which have to rise by their group. It stands apart, so that
    /// the loop over starts and ends stays short.
    #[inline(never)]
    pub(crate) fn set_range(&mut self, range: (u32, u32), settings: Vec<feature_info_t, A>)
        requires ordered { range.0 ≤ range.1 }
        requires rising { IsRisingByGroup settings.items }
        ensures { self.new ≡ record self.old {
          current_features = settings.items;
          range_first = range.0;
          range_last = range.1;
        } }
    {
        self.current_features = settings;
        self.range_first = range.0;
        self.range_last = range.1;
    }

    /// The allocator of the requests.
    pub(crate) fn allocator(&self) -> A {
        *self.features.allocator()
    }

    /// The first and the last cluster of the range. The first is at most the last.
    pub fn range(&self) -> (u32, u32)
        ensures range { result ≡ (self.now.range_first, self.now.range_last) }
        ensures ordered { result.0 ≤ result.1 }
    {
        (self.range_first, self.range_last)
    }
}
