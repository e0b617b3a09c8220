//! The cells of the Registrar's table (IEEE Std 802.1Q-2018, 10.7.8).

use registrar::RegEvent::*;
use registrar::Registrar::*;
use registrar::Tell::{Joined, Left, Nothing};
use registrar::{RegEvent, Registrar, Tell};

// Whether the cell of a state and an event names this state, and tells this.
fn has_cell(state: Registrar, event: RegEvent, cell: (Registrar, Tell)) -> bool {
    let (next, told) = state.step(event);
    next == cell.0 && told == cell.1
}

// Whether the cells of IN, LV and MT at an event are these.
fn has_row(event: RegEvent, cells: &[(Registrar, Tell); 3]) -> bool {
    let [held, leaving, empty] = *cells;
    has_cell(Held, event, held)
        && has_cell(Leaving, event, leaving)
        && has_cell(Empty, event, empty)
}

// Whether an event starts the leave timer of IN just where it makes IN leave, and no other.
fn starts_in_time(event: RegEvent, makes_leave: bool) -> bool {
    Held.starts_leave_timer(event) == makes_leave
        && !Leaving.starts_leave_timer(event)
        && !Empty.starts_leave_timer(event)
}

const HEARD: [(Registrar, Tell); 3] = [(Held, Nothing), (Held, Nothing), (Held, Joined)];

const LEFT: [(Registrar, Tell); 3] = [(Leaving, Nothing), (Leaving, Nothing), (Empty, Nothing)];

const TIMED: [(Registrar, Tell); 3] = [(Held, Nothing), (Empty, Left), (Empty, Nothing)];

// Whether an event has these cells, and starts the leave timer or not.
fn acts(event: RegEvent, cells: &[(Registrar, Tell); 3], starts: bool) -> bool {
    has_row(event, cells) && starts_in_time(event, starts)
}

#[test]
fn cells_of_the_table(rt: HostRuntime) {
    assert!(rt; acts(RxNew, &HEARD, false) && acts(RxJoin, &HEARD, false));
    assert!(rt; acts(RxLv, &LEFT, true) && acts(RxLeaveAll, &LEFT, true));
    assert!(rt; acts(TxLeaveAll, &LEFT, true) && acts(LeaveTimer, &TIMED, false));
}

#[test]
fn held_and_leaving_are_registered(rt: HostRuntime) {
    assert!(rt; Held.is_registered() && Leaving.is_registered() && !Empty.is_registered());
}
