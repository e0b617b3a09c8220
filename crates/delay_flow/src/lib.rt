//! How long frames of a class wait at each port of a network, and take on their way: the theorem
//! over the flow of frames, by numbers that keep local rules (this project's own; over the shaper
//! of IEEE Std 802.1Q-2018, 8.6.8.2).
//!
//! ```text
//!   Talker --- x conforms ---> p1 ---------------> p2 ---------------> p3 ---> Listener
//!                              late x              late x = late + wait + bit times
//!                              groups, peak        groups, peak
//!                              wait x              wait x
//!                              spent x             spent x = spent + bit time + wait + bits
//! ```
//!
//! - `specs/Streams.antt`: `ClassStream`, a stream of a class with what its Talker may send, and
//!   `AreStreams`, that each frame of the class is one of a stream and that the streams conform, by
//!   windows of time.
//! - `specs/Places.antt`: the copies at a port that may be sent, `there_at`, when a frame is at a
//!   port, and `IsSteady`, that bookings and slopes stay as they are from a tick on.
//! - `specs/Rules.antt`: `Numbers`, what is reckoned for each port and stream, and `KeepRules`, the
//!   rules of each port by those that send into its node. The rules ask for no order of reckoning.
//! - `specs/Delays.antt`: `HoldsAt`, what holds of a class at a port.
//! - `laws`: `each_frame_goes_in_time`, all that by the rules, of each copy that may be sent; and
//!   `no_frame_is_unbooked_where_its_stream_is_fed`, by which that is each of a fed stream's copies
//!   whose VID is registered.
//!
//! The proof goes from port to port against the way of the frames (`along` of frame_flow). At a
//! port each stream's frames keep its burst and slope with what they may have moved
//! (`proofs/Ports.antt`); so the groups bring in no more than their bounds, counted frame by frame
//! (`proofs/Sums.antt`, `proofs/Groups.antt`); and what a wait is owed to, by class_service, is
//! within that (`proofs/Waits.antt`).
//!
//! To extend it: a further bound of what comes by a port is one more entry of `more`, for which
//! `KeepFurther` is shown; what else is spent on a frame is a summand of `spent_first` and
//! `spent_on`.
#![tactic(auto)]

pub mod laws;
