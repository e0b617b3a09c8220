//! A capture of a link replayed: what stands at its two ends, what is owed there, what is broken,
//! and which streams are booked, told from the frames alone (IEEE Std 802.1Q-2018, 10, 11, 35).
//!
//! ```text
//! file:   rate = 1000                 the head, in TOML (rules 61 to 64)
//!         delta_a = 75
//!         === capture                 the first such line ends it
//!         d4c3b2a1 ..                 the octets of a capture file
//!
//! octets --parts_of--> head, capture --reading--> frames --frame_in--> address, application, PDU
//!                        |                                 |
//!                        caps, leave time, ends            by moment, in order
//!                                                          v
//!                        LinkSeen: the link of MVRP, of MSRP and of MMRP, each with its ways and what
//!                        is on its way, and counts
//! ```
//!
//! `replayed_text` has as its contract that its text is `replayed` of the octets (`specs/Replay`),
//! and which of the causes without a text comes when; want of memory alone is free. A moment is
//! that of the capture in cs, rounded down, and never falls. What an end sends at a moment is with the
//! other end by the next: so PDUs of one cs may cross, or not. `specs/Seen` has what that makes of
//! each frame:
//!
//! ```text
//! a frame at t, behind one at s     where s < t, time goes on first:
//!                                     all that was sent at s arrives at s + 1, application by
//!                                     application, with what followed of the streams; the words
//!                                     that disagreed at s are judged anew; then, at each moment up
//!                                     to t at which leave timers end, they fire, with what followed
//!                                   then the frame is seen: its LeaveAll acts at its own end, its
//!                                   words are looked at, and what it says is on its way
//! the end of the capture            what is on its way arrives and the words are judged, and no
//!                                   timer fires any more
//! ```
//!
//! A malformed PDU, one that the capture has cut, and a Talker that is declared twice in one PDU are
//! told when they are seen. Each application's part in all this is link_replay's (`specs/Watched`). T
//! is a moment in seconds; that of a broken word is the one at which it was said:
//!
//! ```text
//! T a>b KEY IN CONTENT                    the lines of link_replay, where KEY is `vlan 2`, `group
//! ..                                      01005e000001`, `talker ID`, `listener ID` or `domain 6`
//! T a says talker ID advertise and failed a PDU declares both of one stream
//! T a msrp malformed P                    a PDU breaks at its octet P, and is passed over
//! T a msrp cut G of A                     the capture has G of the frame's A octets; it isn't read
//! T other ADDRESS                         a frame of MRP is of neither end, and is passed over
//! T a>b booked ID A slope S               a stream takes S bit/s of the port at a, in class A
//! T a>b dropped ID                        it takes that no more
//! T a>b passes cap C by N                 what is booked there comes to N bit/s more than the cap C
//! broken at P                             the file breaks off there
//! owed N                                  so many attributes were let go
//! broken N                                words against an observer, double Talkers, malformed PDUs
//! frames N other M                        frames of MRP of the ends, and all others
//! ```
//!
//! Each line ends with its line feed. Of octets that are no capture the text is `not a capture`, and
//! of an interface whose frames aren't read `link type T`, as pdu_words has them.
//!
//! The ends are those that the head names, or else the first two source addresses of frames of MRP
//! (`specs/Ends`). A stream is booked at a port (`specs/Bookings`) where its Talker Advertise stands
//! at the other end and a Listener Ready or Ready Failed at this one: what two ends that keep to the
//! standard have booked (law `what_is_booked_stands`), as the lines tell it frame by frame
//! (`the_lines_tell_the_bookings`). Where that passes a cap, an end granted more than it may.
//!
//! A Talker or a Domain whose value changes in one PDU, a Talker from Failed to Advertise too, is
//! told as what that declares (`specs/Replaced`). What two nodes of this project say over a link,
//! with nothing lost, is never broken, whichever of them comes first in a moment:
//! `what_this_core_sends_is_never_broken`, of the link and its capture in `specs/CoreLink`.
//!
//! A further application is a `WatchedApp` in `apps`, with its ways in `specs/Watched` and its
//! reading in `watched`. A further key of the head is a rule in `specs/Head`, with its words in
//! `specs/HeadKeys`. A further line is a definition in `specs/Lines` with its writer in `lines`; it
//! has its place in a text of `specs/Seen`, and is a kind of `Line` in `specs/Printed`.
#![tactic(auto)]

mod apps;
mod booking;
mod counts;
mod cut;
mod document;
mod doubles;
mod ends;
mod error;
mod followed;
mod head;
pub mod laws;
mod lines;
mod replaced;
mod replay;
mod seen;
mod watched;

pub use apps::{Groups, Streams, Vlans};
pub use booking::Booking;
pub use counts::Counts;
pub use ends::Ends;
pub use error::ReplayErr;
pub use head::Head;
pub use laws::{
    a_replay_goes_on, moments_never_fall, the_lines_tell_the_bookings, what_is_booked_stands,
    what_this_core_sends_is_never_broken,
};
pub use replay::replayed_text;
