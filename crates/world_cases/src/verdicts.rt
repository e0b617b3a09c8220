//! Two stations on a link, of which one declares a VID and loses what it sends, and texts that are
//! or aren't their journal.

use journal_audit::{Verdict, audit};
use std::alloc::Global;
use topology_file::{Scenario, read_scenario};

/// Station s1 declares VID 7, and the first PDU that it sends is lost, and the one at tick 20.
const SCENE: &str = "ticks = 22\n\
    node = [{ name = 's1', kind = 'station' }, { name = 's2', kind = 'station' }]\n\
    link = [{ a = 's1', b = 's2' }]\n\
    event = [{ tick = 0, kind = 'declare', station = 's1', vid = 7 },\n\
    { tick = 1, kind = 'lose', from = 's1', to = 's2', index = 0 },\n\
    { tick = 21, kind = 'lose', from = 's1', to = 's2', index = 0 }]\n";

const FRONT: &str = "0 event 1 done\n\
    0 s1>s2 due fired 0\n";

const SETTLED: &str = "0 s1>s2 settle settled 1\n";

const SENDS: &str = "0 s1>s2 send mvrp sent 12\n\
    0 s1>s2 send msrp silent\n";

const BEHIND: &str = "0 s2>s1 send mvrp silent\n\
    0 s2>s1 send msrp silent\n\
    1 event 2 done\n\
    20 s1>s2 send mvrp sent 12\n\
    20 s1>s2 send msrp silent\n\
    20 s2>s1 send mvrp silent\n\
    20 s2>s1 send msrp silent\n\
    21 event 3 done\n";

fn scene(alloc: Global) -> Option<Scenario> {
    match toml::table_from_str(alloc, SCENE) {
        Ok(table) => read_scenario(alloc, &table).ok(),
        Err(_) => None,
    }
}

// The line and the cause with which a text is refused, in place of both (0, 0) where it is legal.
fn refused(alloc: Global, pieces: &[&str]) -> Option<(u64, u8)> {
    let scenario = scene(alloc)?;
    let mut text = Vec::new(alloc);
    for piece in pieces {
        text.extend_from_slice(piece.as_bytes()).ok()?;
    }
    match audit(alloc, &scenario, text.as_slice()) {
        Ok(Verdict::Legal(_)) => Some((0, 0)),
        Ok(Verdict::No { line, why }) => Some((line, why)),
        Err(_) => None,
    }
}

#[test]
fn the_journal_of_a_run_is_legal(rt: HostRuntime) {
    assert!(rt; refused(rt.alloc(), &[FRONT, SETTLED, SENDS, BEHIND]) == Some((0, 0)));
}

#[test]
fn another_number_is_no_line_of_a_legal_journal(rt: HostRuntime) {
    let sent = "0 s1>s2 send mvrp sent 13\n0 s1>s2 send msrp silent\n";
    assert!(rt; refused(rt.alloc(), &[FRONT, SETTLED, sent, BEHIND]) == Some((4, 3)));
}

#[test]
fn a_line_left_out_is_missed_at_its_place(rt: HostRuntime) {
    assert!(rt; refused(rt.alloc(), &[FRONT, SENDS, BEHIND]) == Some((3, 3)));
}

#[test]
fn a_journal_that_ends_too_early_is_refused_past_its_last_line(rt: HostRuntime) {
    assert!(rt; refused(rt.alloc(), &[FRONT, SETTLED]) == Some((4, 3)));
}

#[test]
fn the_form_of_all_lines_is_judged_first(rt: HostRuntime) {
    let late = "21 event 4 done\n";
    assert!(rt; refused(rt.alloc(), &[FRONT, SENDS, BEHIND, late]) == Some((13, 2)));
}
