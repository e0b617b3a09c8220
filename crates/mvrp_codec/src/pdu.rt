//! What MVRP reads and writes.

use srp_base::{MrpEvent, Seq, Vid};

/// What an MRPDU of MVRP says.
#[derive(Clone, PartialEq, Eq, Drop)]
pub struct MvrpPdu {
    /// Whether any vector has a LeaveAll, which counts for all VIDs and acts before all events.
    pub leave_all: bool,
    /// The events of VIDs, in the order of the octets.
    pub events: Seq<(MrpEvent, Vid)>,
}
