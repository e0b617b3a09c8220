//! The events of a group scenario.

use srp_base::{Mac, NodeNo};

/// An event of a tick.
#[derive(Clone, Copy, PartialEq, Eq)]
pub struct GroupEntry {
    /// The tick in cs from the start, below the scenario's ticks.
    pub tick: u64,
    pub kind: GroupKind,
}

/// What happens.
#[derive(Clone, Copy, PartialEq, Eq)]
pub enum GroupKind {
    /// A station's application joins the group of a MAC address.
    Join {
        station: NodeNo,
        mac: Mac,
    },
    /// A station's application parts from it.
    Part {
        station: NodeNo,
        mac: Mac,
    },
    /// The PDU of this index, from 0 to 65,535, is lost: of those that wait at `to` and come from
    /// `from`.
    Lose {
        from: NodeNo,
        to: NodeNo,
        index: u32,
    },
    /// The PDU of this index comes twice.
    Repeat {
        from: NodeNo,
        to: NodeNo,
        index: u32,
    },
}

/// An event entry that has its form; what happens is missing where what it names isn't there.
#[derive(Clone, Copy)]
pub(crate) struct GroupForm {
    pub(crate) tick: u64,
    pub(crate) kind: Option<GroupKind>,
}
