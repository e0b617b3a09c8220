//! Why octets could not be read.

ghost use Rattle.std.specs.Prelude.{◌≡◌};
ghost use Rattle.mrpdu_codec.specs.declared.error.DecodeErr.TheVariants as decode_errors;
ghost use Rattle.mrpdu_codec.specs.declared.error.ReadErr.TheVariants as read_errors;

use srp_base::NoMemory;
use std::alloc::{AllocError, AllocFailed};
use thiserror::Error;

/// Why octets give no PDU.
#[derive(Clone, Copy, Debug, PartialEq, Eq, Error)]
pub enum DecodeErr {
    /// The octets are no MRPDU. The number is the offset, in octets from 0, of the first field that
    /// breaks its rule or that the octets are too short for.
    #[error("malformed at octet {0}")]
    Malformed(u32),
    /// Memory ran out.
    #[error("no memory")]
    NoMemory,
}

impl From<NoMemory> for DecodeErr {
    ghost from_gives = { λ _ e. e ≡ decode_errors.NoMemory };

    fn from(_error: NoMemory) -> DecodeErr {
        DecodeErr::NoMemory
    }
}

/// Why a reader gives nothing: what a reader answers, from which `decode` alone makes a place.
#[derive(Clone, Copy)]
pub(crate) enum ReadErr {
    /// A field is malformed, and so many octets are left from its first one on.
    Left(usize),
    /// Memory ran out.
    NoMemory,
}

impl ReadErr {
    ghost use Rattle.std.specs.Prelude.{◌-◌, ◌<◌, ◌≤◌, ◌^◌};
    ghost use Rattle.mrpdu_codec.specs.ReadErr.{IsWithin, behind, decode_err_of};

    /// The same where the octets that were read are the first ones of all.
    pub(crate) fn behind(self, here: usize, all: usize) -> ReadErr
        requires within { IsWithin self here }
        requires first { here ≤ all }
        ensures { result ≡ behind self (all - here) }
    {
        match self {
            ReadErr::Left(left) => ReadErr::Left(all - (here - left)),
            ReadErr::NoMemory => ReadErr::NoMemory,
        }
    }

    /// The same with the place of the field, in so many octets.
    pub(crate) fn placed(self, all: usize) -> DecodeErr
        requires within { IsWithin self all }
        requires few { all < 2 ^ 32 }
        ensures { result ≡ decode_err_of self all }
    {
        match self {
            ReadErr::Left(left) => DecodeErr::Malformed((all - left) as u32),
            ReadErr::NoMemory => DecodeErr::NoMemory,
        }
    }
}

impl From<NoMemory> for ReadErr {
    ghost from_gives = { λ _ e. e ≡ read_errors.NoMemory };

    fn from(_error: NoMemory) -> ReadErr {
        ReadErr::NoMemory
    }
}

impl From<AllocError> for ReadErr {
    ghost from_gives = { λ _ e. e ≡ read_errors.NoMemory };

    fn from(_error: AllocError) -> ReadErr {
        ReadErr::NoMemory
    }
}

impl<T: Drop> From<AllocFailed<T>> for ReadErr {
    ghost from_gives = { λ _ e. e ≡ read_errors.NoMemory };

    fn from(_error: AllocFailed<T>) -> ReadErr {
        ReadErr::NoMemory
    }
}
