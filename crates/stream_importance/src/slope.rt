//! How much of a port a stream takes, and how much of it a port may give away.

ghost use Rattle.std.specs.Prelude.{◌≡◌};
ghost use Rattle.stream_importance.specs.Bandwidth.{slope_of_frames, caps_of, cap_of};

use srp_base::{Class, Percent, Rate};

/// What the booked slopes of an egress port may come to.
#[derive(Clone, Copy, PartialEq, Eq)]
pub struct Caps {
    /// Those of class A, in bit/s.
    pub class_a: u64,
    /// Those of both classes together, in bit/s.
    pub both: u64,
}

impl Caps {
    /// The caps of a port of this rate, of which class A may take `delta_a` percent, and class B
    /// `delta_b` percent and what class A leaves (IEEE Std 802.1Q-2018, 34.3).
    pub fn new(rate: Rate, delta_a: Percent, delta_b: Percent) -> Caps
        ensures { result ≡ caps_of rate delta_a delta_b }
    {
        let bits = rate.bits();
        Caps {
            class_a: delta_a.get() * bits / 100,
            both: (delta_a.get() + delta_b.get()) * bits / 100,
        }
    }

    /// The cap in bit/s that a stream of this class has to keep: for class A that of class A, for
    /// class B that of both classes.
    pub fn of(&self, class: Class) -> u64
        ensures { result ≡ cap_of self.now class }
    {
        match class {
            Class::A => self.class_a,
            Class::B => self.both,
        }
    }
}

/// The slope in bit/s of a stream of this class whose TSpec has the MaxFrameSize `max_frame`, in
/// octets, and the MaxIntervalFrames `frames`, the most frames in each class measurement interval
/// (IEEE Std 802.1Q-2018, 35.2.2.8.4). Each frame counts with 42 octets of overhead (34.4). The
/// greatest is 275,045,676,480,000.
pub fn slope_of(class: Class, max_frame: u16, frames: u16) -> u64
    ensures { result ≡ slope_of_frames class max_frame frames }
{
    let intervals: u64 = match class {
        Class::A => 8_000,
        Class::B => 4_000,
    };
    u64::from(frames) * (u64::from(max_frame) + 42) * 8 * intervals
}
