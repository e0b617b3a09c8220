//! Worked cases of a run with a thread for each port: what it ends with beside the plain run, and
//! gates that hold one node, or one port, until another has answered.
//!
//! To add one: a test in the module of its network; a gate that holds elsewhere is another `Place`
//! of `gate`.

mod gate;
#[cfg(test)]
mod listeners;
#[cfg(test)]
mod pair;
mod scene;
#[cfg(test)]
mod wanting;
