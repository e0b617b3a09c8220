//! The side of MVRP.

use crate::app::MvrpApp;
use flat_side::FlatSide;

/// MVRP at a node (IEEE Std 802.1Q-2018, 11.2): a participant at each link port, the VIDs that
/// await settling there, and the VIDs that the application declares. Contracts see a `SideHolding`:
/// its state, a `Vlans`, and the link port at which the side is ready, if it is at one.
pub type MvrpSide = FlatSide<MvrpApp>;
