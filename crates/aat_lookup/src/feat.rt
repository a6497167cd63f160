//! The feature name table.
ghost use Rattle.std.specs.Prelude.{◌≡◌, IfOk, IfErr, OnOk, None};
ghost use Rattle.aat_lookup.specs.Keys.{first_fall};
ghost use Rattle.aat_lookup.specs.FeatureNames.{kind_of, name_of};
ghost use Rattle.aat_lookup.specs.TableErrors.{RefusesRising};

use crate::error::TableError;
use crate::keys::{Keyed, first_fall, row_at};
use std::alloc::{Allocator, Global};
use std::marker::Model;

/// What a font says of a feature type.
#[derive(Clone, Copy, PartialEq, Eq, Debug)]
pub struct FeatureName {
    /// The feature type.
    pub kind: u16,
    /// The number of its setting names.
    pub settings: u16,
    /// Whether its settings exclude one another.
    pub exclusive: bool,
}

impl FeatureName {
    /// A feature type with so many setting names, which exclude one another or do not.
    pub fn new(kind: u16, settings: u16, exclusive: bool) -> FeatureName
        ensures { result ≡ record { kind = kind; settings = settings; exclusive = exclusive } }
    {
        FeatureName {
            kind,
            settings,
            exclusive,
        }
    }
}

/// The features of a font, strictly rising by type. A contract sees it as the list of its names.
///
/// Apple's TrueType Reference Manual, "The 'feat' table".
#[derive(Drop)]
pub struct Feat<A: Allocator = Global> {
    names: Vec<FeatureName, A>,
}

impl<A: Allocator> Model for Feat<A> {
    ghost use Rattle.std.specs.Prelude.{List};
    ghost use Rattle.aat_lookup.specs.declared.feat.FeatureName.{FeatureName};
    ghost use Rattle.aat_lookup.specs.Keys.{IsRising};
    ghost use Rattle.aat_lookup.specs.FeatureNames.{kind_of};

    ghost Value = { List FeatureName };

    ghost view = { λ m. m.names.items };

    ghost invariant = { λ m. IsRising kind_of m.names.items };
}

impl<A: Allocator> Feat<A> {
    /// Makes the table of names, which have to rise strictly by type.
    ///
    /// Refused as 1, `NotRising`, with the place of the first name that is not above the one before
    /// it, and else as 5, `OutOfMemory`, where the copy gets no memory.
    pub fn new(alloc: A, names: &[FeatureName]) -> Result<Feat<A>, TableError>
        ensures ok { IfOk result (λ feat. feat ≡ names.now) }
        ensures rising { OnOk result (first_fall kind_of names.now ≡ None) }
        ensures refused { IfErr result (RefusesRising (first_fall kind_of names.now)) }
    {
        if let Some(place) = first_fall(names) {
            return Err(TableError::NotRising(place));
        }
        Ok(Feat {
            names: Vec::from_slice(alloc, names)?,
        })
    }

    /// The names, strictly rising by type.
    pub fn names(&self) -> &[FeatureName]
        ensures { result.now ≡ self.now }
    {
        &self.names
    }

    /// The name of a feature type, if there is one, found by bisection.
    pub fn find(&self, kind: u16) -> Option<FeatureName>
        ensures { result ≡ name_of self.now kind }
    {
        row_at(&self.names, kind as u32)
    }
}

impl Keyed for FeatureName {
    ghost use Rattle.aat_lookup.specs.FeatureNames.{kind_of};

    ghost key_of = { kind_of };

    fn key(&self) -> u32 {
        self.kind as u32
    }
}
