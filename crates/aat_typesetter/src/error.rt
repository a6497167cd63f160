//! Why a text is not typeset, and why a list of features is refused.
ghost use Rattle.std.specs.Prelude.{◌≡◌};
ghost use Rattle.aat_typesetter.specs.FeatureLists.{number_of_list_error};
ghost use Rattle.aat_typesetter.specs.TypesetErrors.{number_of_typeset_error};

use aat_layout::FeatureError;
use aat_run::AatError;
use aat_text::TextError;
use std::alloc::{AllocError, AllocFailed};
use thiserror::Error;

/// Why a text is not typeset. The typesetter has no glyphs then.
#[derive(Clone, Copy, PartialEq, Eq, Debug, Error)]
pub enum TypesetError {
    /// 1: the text has more than 4,294,967,295 bytes.
    #[error("the text has more than 4294967295 bytes")]
    TextTooLong,
    /// 2: the shaper refuses the glyphs of the text, or of a part of it: as `AaltValue`, or as `TooLong`, where they
    /// are more than 2^24, or substitution makes their line too long. It is never `BufferFailed`.
    #[error("{0}")]
    Refused(AatError),
    /// 3: memory is wanting.
    #[error("out of memory")]
    OutOfMemory,
}

impl TypesetError {
    /// The error's number, from 1 to 3.
    pub fn number(self) -> u8
        ensures { result ≡ number_of_typeset_error self }
    {
        match self {
            TypesetError::TextTooLong => 1,
            TypesetError::Refused(_) => 2,
            TypesetError::OutOfMemory => 3,
        }
    }
}

impl From<AatError> for TypesetError {
    ghost use Rattle.std.specs.Prelude.{◌≡◌};
    ghost use Rattle.aat_typesetter.specs.TypesetErrors.{error_of_shaper};

    ghost from_gives = { λ a e. e ≡ error_of_shaper a };

    fn from(error: AatError) -> TypesetError {
        match error {
            AatError::OutOfMemory => TypesetError::OutOfMemory,
            AatError::AaltValue(value) => TypesetError::Refused(AatError::AaltValue(value)),
            AatError::TooLong => TypesetError::Refused(AatError::TooLong),
            AatError::BufferFailed => TypesetError::Refused(AatError::BufferFailed),
        }
    }
}

impl From<TextError> for TypesetError {
    ghost use Rattle.std.specs.Prelude.{◌≡◌};
    ghost use Rattle.aat_typesetter.specs.TypesetErrors.{error_of_text};

    ghost from_gives = { λ t e. e ≡ error_of_text t };

    fn from(error: TextError) -> TypesetError {
        match error {
            TextError::TooLong => TypesetError::TextTooLong,
            TextError::OutOfMemory => TypesetError::OutOfMemory,
        }
    }
}

impl From<AllocError> for TypesetError {
    ghost use Rattle.std.specs.Prelude.{◌≡◌};
    ghost use Rattle.aat_typesetter.specs.declared.error.TypesetError.TheVariants.{OutOfMemory};

    ghost from_gives = { λ _ e. e ≡ OutOfMemory };

    fn from(_: AllocError) -> TypesetError {
        TypesetError::OutOfMemory
    }
}

impl<T: Drop> From<AllocFailed<T>> for TypesetError {
    ghost use Rattle.std.specs.Prelude.{◌≡◌};
    ghost use Rattle.aat_typesetter.specs.declared.error.TypesetError.TheVariants.{OutOfMemory};

    ghost from_gives = { λ _ e. e ≡ OutOfMemory };

    fn from(_: AllocFailed<T>) -> TypesetError {
        TypesetError::OutOfMemory
    }
}

/// Why a list of features is refused. Nothing is made of it then.
#[derive(Clone, Copy, PartialEq, Eq, Debug, Error)]
pub enum FeatureListError {
    /// 1: the text of this number in the list, from 0, is no feature, for this reason, whose place counts from the
    /// start of that text. No text before it is refused.
    #[error("feature {0}: {1}")]
    NoFeature(usize, FeatureError),
    /// 2: memory is wanting.
    #[error("out of memory")]
    OutOfMemory,
}

impl FeatureListError {
    /// The error's number, 1 or 2.
    pub fn number(self) -> u8
        ensures { result ≡ number_of_list_error self }
    {
        match self {
            FeatureListError::NoFeature(_, _) => 1,
            FeatureListError::OutOfMemory => 2,
        }
    }
}

impl From<AllocError> for FeatureListError {
    ghost use Rattle.std.specs.Prelude.{◌≡◌};
    ghost use Rattle.aat_typesetter.specs.declared.error.FeatureListError.TheVariants.{OutOfMemory};

    ghost from_gives = { λ _ e. e ≡ OutOfMemory };

    fn from(_: AllocError) -> FeatureListError {
        FeatureListError::OutOfMemory
    }
}

impl<T: Drop> From<AllocFailed<T>> for FeatureListError {
    ghost use Rattle.std.specs.Prelude.{◌≡◌};
    ghost use Rattle.aat_typesetter.specs.declared.error.FeatureListError.TheVariants.{OutOfMemory};

    ghost from_gives = { λ _ e. e ≡ OutOfMemory };

    fn from(_: AllocFailed<T>) -> FeatureListError {
        FeatureListError::OutOfMemory
    }
}
