//! What came of what the stations of a plan want, and what a planner may have overlooked.
//!
//! ```text
//!   wishes 3 granted 1 refused 1 silent 1              a wish: a stream and a station that listens to it
//!   refused s2 l3 at b1>b2 code 1 short 2440000        by which port, why, and by how many bit/s it misses
//!   silent s3 l1                                       nothing is heard, or the way isn't booked whole
//!   granted s1 l2 ports 3 vlan yes within 389660       the ports of the way, whether its VLAN is there,
//!                                                      and in how many ns a frame is through the last
//!
//!   doubt l1 listens to stream s3 and doesn't declare its VID 7      what is allowed and hardly meant
//!   settled 61                                         the tick from whose end on nothing changes
//!   quiet from 12 to 19                                ticks at whose ends nothing is pending
//!   quiet from 61 to 999
//!   quiet yes                                          how the network is at the end
//!   in step yes
//! ```
//!
//! `wishes_in` (`specs/Wishes.antt`) is the list of wishes as a function of the scenario and a
//! network, each with what came of it, in the words of network_laws: what a station's application
//! hears, and whether each egress port of the way from the Talker has booked the stream. So a wish
//! is granted by what the network does, and none of it is what the file would have one expect.
//! `lines_of` (`specs/Text.antt`) is their text. Behind `within` stands the bound of `delays`, from
//! what is known of the run's delays (`DelayFacts` of scenario_delays; `specs/Within.antt`). `laws`
//! says that in a network at rest a wish is granted exactly where its application hears Ready, and
//! in any network only where each port of its way has booked; and that `within` is the number of
//! `delays`. `need_laws` joins wishes with what port_needs asks of the ports for them (`needs_of` of
//! `specs/Needs.antt`): at rest, where nothing is needed all of them are granted, each port that is
//! too small has one on its way that isn't, and one that stands under `never` isn't.
//!
//! `doubts_text` (`specs/Doubts.antt`) has a line exactly where its fact holds, and `moments_of`
//! (`specs/RunMoments.antt`) are functions of the networks at the ends of all ticks, of which a run
//! keeps none but the last: `run_with_moments` is the plain run under the eyes of one who keeps of
//! each what is printed (`watch.rt`). `outlook_text` (`specs/Outlook.antt`) is made of both.
//!
//! A further kind of answer is a variant of `Answer` with its case in `answer_to`, and its line in
//! `specs/Text.antt` with its writer in `lines.rt`; a further word of a line is a piece of the line
//! with its writer there. A further doubt is a line and a fact in `specs/Doubts.antt`, a piece of
//! `entry_doubts`, `station_doubts` or `doubts_by`, with its writer in `doubt_lines.rt` and its call
//! in `doubts.rt`. A further moment is a field of `Moments` with its definition in
//! `specs/RunMoments.antt`, and what has to be kept for it in `specs/Watching.antt` and `watch.rt`.
//! What `settled` compares more of a node is a field of `Standing` (`standing.rt`) with its part of
//! `standing_at` and `same_standing`.
#![tactic(auto)]

pub mod copy_laws;
mod disturbing;
mod doubt_lines;
mod doubts;
pub mod laws;
mod lines;
mod listeners;
mod moments;
pub mod need_laws;
mod outlook;
mod resting;
mod standing;
mod text;
mod watch;
mod way;
mod wish;
mod within;

pub use moments::{Moments, Span, run_with_moments};
pub use outlook::outlook_text;
pub use text::{ungranted, wishes_text};
pub use wish::{Answer, Wish, wishes_in};
