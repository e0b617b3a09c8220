//! The numbers of a declaration fit in their fields, as their types have it. These are laws, and do
//! nothing.

ghost use Rattle.std.specs.Prelude.{◌<◌, ◌^◌};
ghost use Rattle.msrp_codec.specs.FirstValue.{IsTalker, IsFailure, IsFirst};
ghost use Rattle.msrp_codec.specs.Content.{value_of};

use crate::pdu::{MsrpContent, MsrpKey, class_of, stream_of};
use srp_base::{Failure, StreamId, Talker};

/// The numbers of a Talker fit in its fields.
fn talker_fits(_t: Talker)
    ensures { IsTalker _t }
{}

/// The numbers of a Talker and of FailureInformation fit in their fields.
fn failed_fits(t: Talker, _failure: Failure)
    ensures { IsTalker t × IsFailure _failure }
{
    talker_fits(t);
}

/// A StreamID fits in its field.
fn stream_fits(_stream: StreamId)
    ensures { _stream.0 < 2 ^ 64 }
{}

/// The numbers of a Domain fit in its fields.
fn domain_fits(_class: u8, _priority: u8, _vid: u16)
    ensures { (_class < 2 ^ 8) × (_priority < 2 ^ 8) × (_vid < 2 ^ 16) }
{}

/// The numbers of a declaration fit in their fields.
pub(crate) fn numbers_fit(key: MsrpKey, content: &MsrpContent)
    ensures { IsFirst (value_of key content.now) }
{
    match content {
        MsrpContent::Advertise(t) => talker_fits(*t),
        MsrpContent::Failed(t, failure) => failed_fits(*t, *failure),
        MsrpContent::Listener(_) => stream_fits(stream_of(key)),
        MsrpContent::Domain { priority, vid } => domain_fits(class_of(key), *priority, *vid),
    }
}
