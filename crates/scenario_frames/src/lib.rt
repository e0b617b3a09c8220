//! The frames of a scenario's file as a flow is asked of them, and the flow of a run.
//!
//! ```text
//!   an entry of the file, with its route ---> its way: where its frames start, as what they go
//!        |                                       |
//!        '--> its copies: at + i * every         |
//!                  |                             |
//!                  '--> Frames, numbered on <----'
//!                         |
//!   tree, rates, ticks ---+--> Setting ---> frame_flow::flow ---> FlowResult
//!                         |
//!   a run's changes ------'
//! ```
//!
//! - `way`: where the frames of a route start, which route a flow sends them on, and their VID.
//! - `frames`: `frames_of`.
//! - `setting`: `rates_of` and `flow_of`.
//! - `laws`: what is true of the flow of every scenario.
//!
//! The definition `plan_frames` numbers the copies from 1, in the order of the file and copy by
//! copy. `setting_of` is all that a flow is asked of. A scenario keeps the rules of its file
//! (`KeepsRules`), and these leave two things to ask of a run's timeline: its changes are in order,
//! and at each port both slopes together are below the rate. The law `a_scenario_asks_a_valid_flow`
//! says that no more is needed, so the laws of frame_flow hold of each scenario's flow;
//! `every_window_stays_within` says the one on class A's windows in the words of a scenario, with
//! the greatest slope of each port or with any cap on its slopes, and `every_input_keeps_its_caps`
//! what a bound on class B asks for: that both caps hold of each port's input.
//!
//! To extend it: a new way for a frame of the file to go is a variant of topology_file's
//! `FrameRoute`, an arm of `way_of` in `way` and its case in `specs/PlanFrames.antt`, and a case of
//! `known-way` in `proofs/FrameLemmas.antt`. What else a frame carries is a field in `frame` of
//! `frames` and in `copy_of`.
#![tactic(auto)]

mod frames;
pub mod laws;
mod setting;
mod way;

pub use frames::frames_of;
pub use setting::{flow_of, rates_of};
