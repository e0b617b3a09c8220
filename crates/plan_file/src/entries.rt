//! The streams of a plan, with defaults filled in and names replaced by numbers.

use srp_base::{Class, Mac, NodeNo, Rank, Seq, StreamId, Vid};

/// Who talks in a stream, and who listens: stations, each once.
#[derive(Clone, Drop)]
pub struct Ends {
    pub talker: NodeNo,
    /// In the order of the file, one at least.
    pub listeners: Seq<NodeNo>,
}

/// The values of a stream that its Talker declares, as far as the file says them.
#[derive(Clone, Copy)]
pub struct PlanValues {
    /// The SR class, by which the frames have their priority.
    pub class: Class,
    /// MaxFrameSize, the most octets of a frame's data: 0 to 1,500.
    pub octets: u16,
    /// MaxIntervalFrames, the most frames in a class measurement interval: 1 to 64.
    pub frames: u16,
    pub vid: Vid,
    pub rank: Rank,
    /// The StreamID, where the file gives one.
    pub id: Option<StreamId>,
    /// The destination address, where the file gives one.
    pub dest: Option<Mac>,
}

/// A stream of a plan.
#[derive(Drop)]
pub struct PlanStream {
    /// The bytes of its name: 1 to 32 characters a to z, 0 to 9, `-` and `_`.
    pub name: Seq<u8>,
    pub ends: Ends,
    pub values: PlanValues,
}

/// A stream entry that has its form; its ends are missing where they aren't stations, each once.
#[derive(Drop)]
pub(crate) struct PlanForm {
    pub(crate) name: Seq<u8>,
    pub(crate) ends: Option<Ends>,
    pub(crate) values: PlanValues,
}
