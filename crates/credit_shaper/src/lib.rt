//! The credit-based shaper at one egress port (IEEE Std 802.1Q-2018, 8.6.8.2): which of the frames
//! that reach the port start, and when, and which are left at the end.
//!
//! ```text
//!  credit of class A
//!   hiCredit . . . . . . . . . . . . . . . . . . .*. . . . . .   12,336 x idleSlope
//!                                             *     *
//!          0 *--------------------*---------*---------*------    class A may start at 0 and above
//!              *              *                         *
//!   loCredit . . *. . . . * . . . . . . . . . . . . . . . * .    12,336 x (idleSlope - rate)
//!            | A sends | A waits  |  | another  | A sends |
//!                                    | one sends
//! ```
//!
//! Time goes by bit times of the port's rate, from 0 to before the input's end, and credits are in
//! units of 1/rate bit: a bit time adds idleSlope, and takes the rate while a frame of the class is
//! on the line.
//!
//! - `shaper`: `Shaper`, both credits; `bit_step`, one bit time, and `jump`, many that are alike.
//! - `port`: `PortInput`, what a port is given, and `Departures`, what leaves it.
//! - `trace`: `PortTrace::run`, the one from the other, from moment to moment; and
//!   `PortTrace::pieces`, the same way in pieces in which the port is alike, for what else is to be
//!   known of a run.
//! - `piece`: `Piece`, some bit times in a row that are alike.
//! - `laws`: what is true of every run.
//!
//! What `run` answers is a function of its input, `departures_of` of `specs/Trace.antt`: the three
//! queues, the line and both credits, bit time by bit time, in the words of 8.6.8.2. Above it stand
//! two promises for each input: class A's credit stays between loCredit and hiCredit, and over each
//! window class A has the line for no more than the area of idleSlope plus hiCredit minus loCredit
//! (`specs/Bounds.antt`). `run` carries them with the bounds of a whole run, and with the tight
//! ones of 8.6.8.2 for each stretch in which the slope stays; `laws` has them for slopes between
//! any two numbers, and says what becomes of each frame.
//!
//! What stands above this crate argues bit time by bit time, by these laws: each bit time is one of
//! three (the frame on the line goes on, one starts and with what credit, or the line rests), the
//! credits of class A and of class B go on by their step, and the slopes keep the caps that their
//! changes keep. A frame of class A at the head of its queue, with credit, waits for one frame of
//! other traffic at most: 12,335 bit times.
//!
//! To extend it: something else that is given to a port at a bit time is a list of `PortInput`, a
//! line of `with_arrivals` in `specs/Trace.antt`, and in the code a count beside `came` with its
//! next moment in `next_moment`. Another shaped class is a variant of `Traffic` with a credit in
//! `Shaper`, an index in `Heads`, a case of `turn_of`, and a moment in `next_start`. A bound on
//! another class is a crate above this one, over the laws of a bit time, as `class_b_bound` is for
//! class B; what it says of a whole input it finds from piece to piece.
#![tactic(auto)]

pub mod laws;
mod moments;
mod piece;
mod port;
mod queues;
mod shaper;
mod trace;

pub use piece::Piece;
pub use port::{Arrival, Departure, Departures, PortInput, SlopeChange};
pub use shaper::{Line, Shaper, Traffic};
pub use trace::PortTrace;
