//! The cells of the Applicant's table (IEEE Std 802.1Q-2018, 10.7.7), row by row, and its user's
//! requests.

use applicant::Applicant::*;
use applicant::{AppEvent, Applicant, Say};

const STATES: [Applicant; 7] = [Vo, Vp, Vn, An, Aa, Qa, La];

// Whether the cell of a state and an event names this state, and says this.
fn has_cell(state: Applicant, event: AppEvent, held: bool, wanted: Applicant, says: Say) -> bool {
    let (next, said) = state.step(event, held);
    next == wanted && said == says
}

// Whether the cells of one event, in the order of the states, name these states, and say this.
fn has_row(event: AppEvent, held: bool, next: &[Applicant; 7], said: &[Say; 7]) -> bool {
    for i in 0..7usize {
        if !has_cell(STATES[i], event, held, next[i], said[i]) {
            return false;
        }
    }
    true
}

const QUIET: [Say; 7] = [Say::Quiet; 7];

// Whether the cells name these states, and nothing is said, with the attribute held at the port and
// without.
fn has_quiet_row(event: AppEvent, next: &[Applicant; 7]) -> bool {
    has_row(event, false, next, &QUIET) && has_row(event, true, next, &QUIET)
}

const QUIET_ROWS: [(AppEvent, [Applicant; 7]); 9] = [
    (AppEvent::NewReq, [Vn, Vn, Vn, Vn, Vn, Vn, Vn]),
    (AppEvent::JoinReq, [Vp, Vp, Vn, An, Aa, Qa, Aa]),
    (AppEvent::LvReq, [Vo, Vo, La, La, La, La, La]),
    (AppEvent::RxIn, [Vo, Vp, Vn, An, Qa, Qa, La]),
    (AppEvent::RxMt, [Vo, Vp, Vn, An, Aa, Aa, La]),
    (AppEvent::RxLv, [Vo, Vp, Vn, Vn, Vp, Vp, La]),
    (AppEvent::RxLeaveAll, [Vo, Vp, Vn, Vn, Vp, Vp, La]),
    (AppEvent::Periodic, [Vo, Vp, Vn, An, Aa, Aa, La]),
    (AppEvent::TxLeaveAllFull, [Vo, Vp, Vn, Vn, Vp, Vp, Vo]),
];

fn has_quiet_rows() -> bool {
    for (event, next) in QUIET_ROWS.iter() {
        if !has_quiet_row(*event, next) {
            return false;
        }
    }
    true
}

#[test]
fn cells_at_which_nothing_is_said(rt: HostRuntime) {
    assert!(rt; has_quiet_rows());
}

const SENT: [Say; 7] = [
    Say::Quiet,
    Say::Join,
    Say::New,
    Say::New,
    Say::Join,
    Say::Quiet,
    Say::Lv,
];

// An's cell depends on whether the attribute is held.
#[test]
fn cells_of_a_transmission_opportunity(rt: HostRuntime) {
    assert!(rt; has_row(AppEvent::Tx, false, &[Vo, Aa, An, Aa, Qa, Qa, Vo], &SENT));
    assert!(rt; has_row(AppEvent::Tx, true, &[Vo, Aa, An, Qa, Qa, Qa, Vo], &SENT));
}

const SENT_WITH_LEAVE_ALL: [Say; 7] = [
    Say::Quiet,
    Say::Join,
    Say::New,
    Say::New,
    Say::Join,
    Say::Join,
    Say::Quiet,
];

const AFTER_LEAVE_ALL: [Applicant; 7] = [Vo, Aa, An, Qa, Qa, Qa, Vo];

#[test]
fn cells_of_a_sent_leave_all(rt: HostRuntime) {
    assert!(rt;
        has_row(
            AppEvent::TxLeaveAll,
            false,
            &AFTER_LEAVE_ALL,
            &SENT_WITH_LEAVE_ALL
        )
    );
    assert!(rt;
        has_row(
            AppEvent::TxLeaveAll,
            true,
            &AFTER_LEAVE_ALL,
            &SENT_WITH_LEAVE_ALL
        )
    );
}

// A state, what declaring, redeclaring and withdrawing make of it, and whether it is declared.
const REQUESTS: [(Applicant, Applicant, Applicant, Applicant, bool); 7] = [
    (Vo, Vp, Vn, Vo, false),
    (Vp, Vp, Vn, La, true),
    (Vn, Vn, Vn, La, true),
    (An, An, Vn, La, true),
    (Aa, Aa, Vn, La, true),
    (Qa, Qa, Vn, La, true),
    (La, Vn, Vn, La, false),
];

fn has_requests() -> bool {
    for (state, declared, redeclared, withdrawn, is_declared) in REQUESTS.iter() {
        let next = state.declare() == *declared && state.redeclare() == *redeclared;
        let last = state.withdraw() == *withdrawn && state.is_declared() == *is_declared;
        if !next || !last {
            return false;
        }
    }
    true
}

#[test]
fn requests_of_the_user(rt: HostRuntime) {
    assert!(rt; has_requests());
}
