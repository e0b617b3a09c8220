//! The cells of LeaveAll's table (IEEE Std 802.1Q-2018, 10.7.9), and the moments of periodic
//! transmission (10.7.10).

use leaveall::LeaveAll::{Active, Passive};
use leaveall::{LaEvent, LeaveAll, Periodic};
use srp_base::Cs;

fn has_cells(state: LeaveAll) -> bool {
    state.step(LaEvent::Timer) == Active
        && state.step(LaEvent::Rx) == Passive
        && state.step(LaEvent::Tx) == Passive
}

#[test]
fn cells_of_the_table(rt: HostRuntime) {
    assert!(rt; has_cells(Active) && has_cells(Passive));
    assert!(rt; LaEvent::Timer.restarts() && LaEvent::Rx.restarts() && !LaEvent::Tx.restarts());
}

// Whether periodic transmission, whose next moment is 100, is due at a moment.
fn is_due(on: bool, now: u64) -> bool {
    let next = Cs(100);
    Periodic { on, next }.due(Cs(now))
}

// Whether what is due at 100 fires at a moment, and is then due at the next one and not before.
fn fires(now: u32, next: u64) -> bool {
    let now = Cs(u64::from(now));
    let mut periodic = Periodic {
        on: true,
        next: Cs(100),
    };
    let due = periodic.due(now);
    periodic.fire(now);
    due && periodic.next.0 == next && !periodic.due(now)
}

// The machine begins at 100 and fires at moments divisible by 100.
#[test]
fn periodic_moments(rt: HostRuntime) {
    for (now, next) in [(100, 200), (101, 200), (199, 200), (200, 300), (250, 300)] {
        assert!(rt; fires(now, next));
    }
    assert!(rt; !is_due(true, 99) && !is_due(false, 100));
}
