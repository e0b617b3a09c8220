//! The Registrar of MRP (IEEE Std 802.1Q-2018, 10.7.8): what the neighbour has said of one
//! attribute.
//!
//! ```text
//!   Empty ---- New, Join ----> Held ---- Lv, LeaveAll ----> Leaving ---- leave timer ----> Empty
//!                               ^       (starts the timer)     |
//!                               +---------- New, Join ---------+
//! ```
//!
//! `Held`, `Leaving` and `Empty` are the standard's IN, LV and MT. An attribute is registered in IN
//! and LV. `step` is one cell of the table in `specs/Table.antt`: the new state, and what its user
//! is told. The leave timer itself is kept where the row is.
//!
//! A new event is a variant, a column of `specs/Table.antt`, and its arms of `step`. What follows
//! from the table alone, whoever stands on it, is a law in `laws`.
#![tactic(auto)]

pub mod laws;

ghost use Rattle.std.specs.Prelude.{◌≡◌};
ghost use Rattle.registrar.specs.Table.{table, is_registered_in, starts_leave_timer};

/// The states: the standard's IN, LV and MT.
#[derive(Clone, Copy, PartialEq, Eq)]
pub enum Registrar {
    Held,
    Leaving,
    Empty,
}

/// What happens to a Registrar: something received, an own LeaveAll sent, or the end of its leave
/// timer (IEEE Std 802.1Q-2018, 10.7.8; its names stand beside).
#[derive(Clone, Copy, PartialEq, Eq)]
pub enum RegEvent {
    /// rNew!
    RxNew,
    /// rJoinIn! or rJoinMt!
    RxJoin,
    /// rLv!
    RxLv,
    /// rLA!
    RxLeaveAll,
    /// txLA!
    TxLeaveAll,
    /// leavetimer!
    LeaveTimer,
}

/// What the user is told of its attribute (IEEE Std 802.1Q-2018, 10.7.8).
#[derive(Clone, Copy, PartialEq, Eq)]
pub enum Tell {
    Nothing,
    /// It wasn't registered and now is.
    Joined,
    /// It was registered and now isn't.
    Left,
}

impl Registrar {
    /// The new state, and what the user is told: one cell of the table (IEEE Std 802.1Q-2018,
    /// 10.7.8).
    pub fn step(self, event: RegEvent) -> (Registrar, Tell)
        ensures { result ≡ table event self }
    {
        use RegEvent::*;
        use Registrar::*;
        match (event, self) {
            (RxNew | RxJoin, Held | Leaving) => (Held, Tell::Nothing),
            (RxNew | RxJoin, Empty) => (Held, Tell::Joined),
            (RxLv | RxLeaveAll | TxLeaveAll, Held) => (Leaving, Tell::Nothing),
            (LeaveTimer, Leaving) => (Empty, Tell::Left),
            _ => (self, Tell::Nothing),
        }
    }

    /// Whether the event starts the leave timer: where it takes IN to LV (IEEE Std 802.1Q-2018,
    /// 10.7.8).
    pub fn starts_leave_timer(self, event: RegEvent) -> bool
        ensures { result ≡ starts_leave_timer event self }
    {
        self == Registrar::Held
            && matches!(
                event,
                RegEvent::RxLv | RegEvent::RxLeaveAll | RegEvent::TxLeaveAll
            )
    }

    /// Whether the attribute is registered: in IN and LV.
    pub fn is_registered(self) -> bool
        ensures { result ≡ is_registered_in self }
    {
        self != Registrar::Empty
    }
}
