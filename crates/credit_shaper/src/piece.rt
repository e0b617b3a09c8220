//! Bit times in a row in which a port is alike.

use crate::shaper::{Line, Shaper};

/// Bit times in a row in which a port is alike: the line, the classes that wait and the slopes
/// stay, and the credits go on by their steps alone.
#[derive(Clone, Copy)]
pub struct Piece {
    /// The first of them.
    pub bit: u64,
    /// How many they are; at least 1.
    pub bits: u64,
    /// The slopes in force, and the credits as the first begins.
    pub shaper: Shaper,
    /// What the line does.
    pub line: Line,
    /// Whether a frame of class A waits.
    pub waits_a: bool,
    /// Whether a frame of class B waits.
    pub waits_b: bool,
}
