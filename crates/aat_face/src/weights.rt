//! What a face weighs: the bytes of memory that it takes at most.

use crate::face::Face;
use aat_bytes::Fault;
use aat_lookup::FeatureName;

/// The bytes of a face, besides what it has in lists.
pub const FACE_SIZE: usize = size_of::<Face<'static>>();

/// The bytes of a fault.
pub const FAULT_SIZE: usize = size_of::<Fault>();

/// The bytes of a feature.
pub const FEATURE_NAME_SIZE: usize = size_of::<FeatureName>();
