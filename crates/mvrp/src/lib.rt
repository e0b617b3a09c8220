//! MVRP at a node (IEEE Std 802.1Q-2018, 11.2): a participant at each link port, the VIDs that
//! await settling there, and the VIDs that the application of a station declares.
//!
//! ```text
//!  MvrpApp = FlatApp: keys are VIDs, 1 to 4,094; PDUs as mvrp_codec reads and writes them
//!  MvrpSide = FlatSide<MvrpApp>: receive, due, leave_now, settle, send, request ..
//! ```
//!
//! MVRP is a flat application: what one port has registered is declared at every other. So its side
//! is `flat_side`'s, and here stand what is MVRP's own: the octets that VIDs take, which numbers
//! are VIDs, and its codec. Contracts see a `SideHolding`: its state, a `Vlans` (`specs/Side.antt`,
//! where the words on a flat side have their names for VIDs), and the link port at which the side
//! is ready, if it is at one.
//!
//! What every side keeps, by its type, is `IsKept`: at each port each VID that doesn't await is
//! declared exactly where another port or the application has it registered. `laws` says that a
//! side keeps VIDs alone, and that what is sent reads as what was to be said.
//!
//! A further call on a port belongs into `flat_side`, and its state after it gets a name for VIDs
//! in `specs/Side.antt`. Another flat application is a crate like this one.
#![tactic(auto)]

mod app;
pub mod laws;
mod side;

pub use app::MvrpApp;
pub use side::MvrpSide;
