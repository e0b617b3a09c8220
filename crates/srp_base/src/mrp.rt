//! The words of MRP that every application shares (IEEE Std 802.1Q-2018, clause 10).

/// An application of MRP: VLAN registration (clause 11) or stream reservation (clause 35).
#[derive(Clone, Copy, PartialEq, Eq)]
pub enum App {
    /// The Multiple VLAN Registration Protocol.
    Mvrp,
    /// The Multiple Stream Registration Protocol.
    Msrp,
}

/// The attribute events that a vector encodes, numbered from 0 as they stand here
/// (IEEE Std 802.1Q-2018, 10.8.2). The standard's In and Mt are `OnlyIn` and `OnlyMt`.
#[derive(Clone, Copy, PartialEq, Eq, PartialOrd, Ord)]
pub enum MrpEvent {
    New,
    JoinIn,
    OnlyIn,
    JoinMt,
    OnlyMt,
    Lv,
}
