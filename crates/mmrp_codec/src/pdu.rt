//! What MMRP reads and writes.

use srp_base::{Mac, MrpEvent, Seq};

/// What an MRPDU of MMRP says.
#[derive(Clone, PartialEq, Eq, Drop)]
pub struct GroupPdu {
    /// Whether any vector has a LeaveAll, which counts for all MAC addresses and acts before all
    /// events.
    pub leave_all: bool,
    /// The events of MAC addresses, in the order of the octets.
    pub events: Seq<(MrpEvent, Mac)>,
}
