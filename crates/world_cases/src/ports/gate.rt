//! Gates that hold one port: until another has answered, or inside its turn while another asks for
//! its own.

use bridge_book::Gate;
use srp_base::{NodeNo, PortNo};
use std::sync::atomic::{AtomicBool, AtomicU64, Ordering};

// How many times a port that is held looks whether the other has answered.
const TURNS: u64 = 100_000_000;

// How many times a port that is held in its turn looks whether another is in its own.
const LOOKS: u64 = 50_000_000;

/// Where a port is held: before its first step of a tick, or inside its turn.
#[derive(Clone, Copy, PartialEq, Eq)]
pub(crate) enum Place {
    Arriving,
    Within,
}

/// Holds a port until another has answered, once or in each tick anew, for at most so many looks.
#[derive(Drop)]
pub(crate) struct Holding {
    place: Place,
    held: (u16, u8),
    other: (u16, u8),
    // Whether the port is held in each tick in which it comes by, and not only until the other's
    // first answer.
    anew: bool,
    // In how many ticks the other has answered.
    answers: AtomicU64,
    // How often all looks were spent.
    spent: AtomicU64,
    // How often the port came by.
    calls: AtomicU64,
}

impl Holding {
    /// Holds port `held` of a node there until port `other` of a node has answered.
    pub(crate) fn new(place: Place, held: (u16, u8), other: (u16, u8)) -> Holding {
        Holding {
            place,
            held,
            other,
            anew: false,
            answers: AtomicU64::new(0),
            spent: AtomicU64::new(0),
            calls: AtomicU64::new(0),
        }
    }

    /// Holds port `held` of a node before its steps of each tick until port `other` of a node has
    /// answered in that tick. Both have to have steps in the same ticks.
    pub(crate) fn in_each_tick(held: (u16, u8), other: (u16, u8)) -> Holding {
        Holding {
            place: Place::Arriving,
            held,
            other,
            anew: true,
            answers: AtomicU64::new(0),
            spent: AtomicU64::new(0),
            calls: AtomicU64::new(0),
        }
    }

    /// Whether the port came by, and never was held until the looks were spent.
    pub(crate) fn was_let_go(&self) -> bool {
        self.calls.load(Ordering::SeqCst) > 0 && self.spent.load(Ordering::SeqCst) == 0
    }

    /// Whether both ports came by in as many ticks, in more than these.
    pub(crate) fn was_passed_more_than(&self, ticks: u64) -> bool {
        let calls = self.calls.load(Ordering::SeqCst);
        calls > ticks && self.answers.load(Ordering::SeqCst) == calls
    }

    // Holds the port that is to be held at a place, until all looks were spent once.
    fn hold(&self, place: Place, node: NodeNo, port: PortNo) {
        let is_spent = self.spent.load(Ordering::SeqCst) > 0;
        if !is_spent && place == self.place && self.held == (node.0, port.0) {
            let earlier = self.calls.fetch_add(1, Ordering::SeqCst);
            self.wait(if self.anew { earlier } else { 0 });
        }
    }

    // Looks until the other port has answered in more ticks than these.
    fn wait(&self, earlier: u64) {
        for _ in 0..TURNS {
            if self.answers.load(Ordering::SeqCst) > earlier {
                return;
            }
        }
        self.spent.fetch_add(1, Ordering::SeqCst);
    }
}

impl Gate for Holding {
    fn arrive(&self, node: NodeNo, port: PortNo) {
        self.hold(Place::Arriving, node, port);
    }

    fn within(&self, node: NodeNo, port: PortNo) {
        self.hold(Place::Within, node, port);
    }

    fn answered(&self, node: NodeNo, port: PortNo) {
        if self.other == (node.0, port.0) {
            self.answers.fetch_add(1, Ordering::SeqCst);
        }
    }
}

/// Holds a port once inside its turn: until another port of its node asks for its own, and then for
/// many looks more, or until some port of the node is inside its turn too. The other doesn't ask
/// before the port is held.
#[derive(Drop)]
pub(crate) struct Alone {
    held: (u16, u8),
    other: (u16, u8),
    // Whether the port has come inside its turn.
    came: AtomicBool,
    // Whether it is held there.
    inside: AtomicBool,
    // Whether the other asks for its turn.
    asks: AtomicBool,
    // Whether the other did so while the port was held.
    asked: AtomicBool,
    // Whether another port of its node was inside its turn then.
    met: AtomicBool,
}

impl Alone {
    /// Holds port `held` of a node in its turn while port `other` of a node asks for its own.
    pub(crate) fn new(held: (u16, u8), other: (u16, u8)) -> Alone {
        Alone {
            held,
            other,
            came: AtomicBool::new(false),
            inside: AtomicBool::new(false),
            asks: AtomicBool::new(false),
            asked: AtomicBool::new(false),
            met: AtomicBool::new(false),
        }
    }

    /// Whether the other asked for its turn while the port was held in its own, and no other port
    /// of the node came inside its turn before the port went on.
    pub(crate) fn was_alone(&self) -> bool {
        self.asked.load(Ordering::SeqCst) && !self.met.load(Ordering::SeqCst)
    }

    // Holds the port in its turn.
    fn hold(&self) {
        self.inside.store(true, Ordering::SeqCst);
        if is_set_within(&self.asks, TURNS) {
            self.asked.store(true, Ordering::SeqCst);
            let _ = is_set_within(&self.met, LOOKS);
        }
        self.inside.store(false, Ordering::SeqCst);
    }
}

// Whether a flag is set, at one of so many looks.
fn is_set_within(flag: &AtomicBool, looks: u64) -> bool {
    for _ in 0..looks {
        if flag.load(Ordering::SeqCst) {
            return true;
        }
    }
    false
}

impl Gate for Alone {
    fn arrive(&self, node: NodeNo, port: PortNo) {
        if self.other == (node.0, port.0) {
            let _ = is_set_within(&self.inside, TURNS);
            self.asks.store(true, Ordering::SeqCst);
        }
    }

    fn within(&self, node: NodeNo, port: PortNo) {
        if self.held == (node.0, port.0) && !self.came.swap(true, Ordering::SeqCst) {
            self.hold();
        } else if self.held.0 == node.0 && self.inside.load(Ordering::SeqCst) {
            self.met.store(true, Ordering::SeqCst);
        }
    }

    fn answered(&self, _node: NodeNo, _port: PortNo) {}
}
