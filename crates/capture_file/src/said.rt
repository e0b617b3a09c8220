//! What a piece of a file says.

use crate::capture::Record;
use crate::setting::{ByteOrder, Interface};

/// What a record or a block says.
#[derive(Clone, Copy, Debug)]
pub(crate) enum Said<'a> {
    /// A frame.
    Frame(Record<'a>),
    /// A section begins, in this byte order and with no interfaces.
    Section(ByteOrder),
    /// There is one more interface.
    Described(Interface),
    /// An interface has a link type that isn't read.
    OtherLink(u32),
    /// Nothing of frames.
    PassedOver,
}
