//! Why a file is no capture.

ghost use Rattle.std.specs.Prelude.{◌≡◌};
ghost use Rattle.capture_file.specs.declared.error.CaptureErr.TheVariants as errors;

use std::alloc::{AllocError, AllocFailed};
use thiserror::Error;

/// Why a file gives no records.
#[derive(Clone, Copy, Debug, PartialEq, Eq, Error)]
pub enum CaptureErr {
    /// The file begins as none of the forms that are read.
    #[error("not a capture")]
    NotCapture,
    /// The file has an interface of this link type, and the frames of another are read.
    #[error("link type {0}")]
    OtherLink(u32),
    /// Memory ran out.
    #[error("no memory")]
    NoMemory,
}

impl From<AllocError> for CaptureErr {
    ghost from_gives = { λ _ e. e ≡ errors.NoMemory };

    fn from(_error: AllocError) -> CaptureErr {
        CaptureErr::NoMemory
    }
}

impl<T: Drop> From<AllocFailed<T>> for CaptureErr {
    ghost from_gives = { λ _ e. e ≡ errors.NoMemory };

    fn from(_error: AllocFailed<T>) -> CaptureErr {
        CaptureErr::NoMemory
    }
}
