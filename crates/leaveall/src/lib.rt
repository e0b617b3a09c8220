//! The two machines of MRP that each participant has once: LeaveAll (IEEE Std 802.1Q-2018, 10.7.9)
//! and periodic transmission (10.7.10).
//!
//! ```text
//!              timer                          on: at 100, 200, 300 .. cs each attribute that is
//!   Passive ----------> Active                    quietly declared becomes anxious again
//!      ^                  |
//!      +------------------+
//!       LeaveAll sent or received
//! ```
//!
//! `LeaveAll::step` is the table in `specs/Table.antt`. Its timer restarts at its own expiry and at
//! a received LeaveAll; it is kept by the participant. `Periodic` keeps its own next moment.
//!
//! A new event is a variant, its cells of `specs/Table.antt`, and its arms of `step`; what restarts
//! the timer stands there too.
#![tactic(auto)]

ghost use Rattle.std.specs.Prelude.{◌≡◌, ℕ, ◌%◌, ◌^◌, ◌<◌, ◌≤◌};
ghost use Rattle.leaveall.specs.Table.{table, restarts, is_due, hundred_after};

use srp_base::Cs;

/// The states of the LeaveAll machine: Active where a LeaveAll is still to be sent.
#[derive(Clone, Copy, PartialEq, Eq)]
pub enum LeaveAll {
    Active,
    Passive,
}

/// What happens to the LeaveAll machine (IEEE Std 802.1Q-2018, 10.7.9; its names stand beside).
#[derive(Clone, Copy, PartialEq, Eq)]
pub enum LaEvent {
    /// leavealltimer!, the end of its timer
    Timer,
    /// rLA!, a LeaveAll received
    Rx,
    /// tx!, at which a LeaveAll is sent where the machine is Active
    Tx,
}

impl LaEvent {
    /// Whether the machine's timer starts anew: at its own end and at a received LeaveAll
    /// (IEEE Std 802.1Q-2018, 10.7.9).
    pub fn restarts(self) -> bool
        ensures { result ≡ restarts self }
    {
        self != LaEvent::Tx
    }
}

impl LeaveAll {
    /// The new state: Active at the timer's end, Passive where a LeaveAll was received or sent
    /// (IEEE Std 802.1Q-2018, 10.7.9).
    pub fn step(self, event: LaEvent) -> LeaveAll
        ensures { result ≡ table event self }
    {
        match event {
            LaEvent::Timer => LeaveAll::Active,
            LaEvent::Rx | LaEvent::Tx => LeaveAll::Passive,
        }
    }
}

/// The periodic machine: whether it is on, and the next moment at which it fires, in cs.
#[derive(Clone, Copy, PartialEq, Eq)]
pub struct Periodic {
    pub on: bool,
    pub next: Cs,
}

impl Periodic {
    /// Whether the machine is on and its next moment is at or before `now`, in cs
    /// (IEEE Std 802.1Q-2018, 10.7.10).
    pub fn due(&self, now: Cs) -> bool
        ensures { result ≡ is_due now.0 self.now }
    {
        self.on && self.next.0 <= now.0
    }

    /// Sets the next moment to the first one above `now` that is divisible by 100 cs; whether the
    /// machine is on stays. `now` is in cs, and below 2^62 (IEEE Std 802.1Q-2018, 10.7.10).
    pub fn fire(&mut self, now: Cs)
        requires { now.0 < 2 ^ 62 }

        ensures moment { self.new.next.0 ≡ hundred_after now.0 }
        ensures above { now.0 < self.new.next.0 }
        ensures divisible { self.new.next.0 % 100 ≡ 0 }
        ensures first { (k : ℕ) → now.0 < k → k % 100 ≡ 0 → self.new.next.0 ≤ k }
        ensures kept { self.new.on ≡ self.old.on }
    {
        self.next = Cs((now.0 / 100 + 1) * 100);
    }
}
