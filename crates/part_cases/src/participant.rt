//! Full PDUs, requests, registrations and timers, over an application whose keys and contents are
//! numbers: a PDU's base is 11 octets, a row takes 5, so that 297 rows fill a PDU. Contents are ten
//! times the key.
//!
//! The calls stand in functions of their own without contracts, so that a test's own proof is
//! short.

use applicant::Applicant;
use mrp_participant::{MrpApp, Msgs, Participant};
use registrar::Registrar;
use srp_base::{Cs, MrpEvent, Seq};
use std::alloc::Global;

struct Numbers;

impl MrpApp for Numbers {
    ghost use Rattle.std.proofs.Common.{arith};
    ghost use Rattle.std.proofs.lemmas.Bool.Decides.{nat_tests};

    type Key = u32;

    type Content = u32;

    ghost base = { 11 };

    ghost octets = { λ _. 5 };

    fn base_octets() -> usize {
        11
    }

    fn row_octets(_content: &u32) -> usize {
        5
    }

    ghost one_key = { λ a b h. Prim.grind (arith, nat_tests) };

    ghost one_content = { λ a b h. Prim.grind (arith, nat_tests) };

    ghost base_fits = { Prim.omega arith };

    ghost row_fits = { λ c. Prim.omega arith };
}

// A participant whose first LeaveAll is at 100 with periodic transmission, or at 1,001 without.
fn new_participant(alloc: Global, often: bool) -> Participant<Numbers> {
    if often {
        Participant::new(alloc, Cs(100), Cs(60), true)
    } else {
        Participant::new(alloc, Cs(1001), Cs(60), false)
    }
}

// Whether keys can be declared.
fn declares(participant: &mut Participant<Numbers>, first: u32, last: u32) -> bool {
    for key in first..=last {
        if participant.declare(key, key.wrapping_mul(10)).is_err() {
            return false;
        }
    }
    true
}

// Whether a send at a moment gives so many events, with LeaveAll or not, and which the first and
// the last are.
fn sends(
    participant: &mut Participant<Numbers>,
    now: u32,
    leave_all: bool,
    count: usize,
    ends: (MrpEvent, u32, u32),
) -> bool {
    match participant.send(Cs(u64::from(now))) {
        Ok(Some(msgs)) => are_sent(&msgs, leave_all, count, ends),
        _ => false,
    }
}

fn are_sent(
    msgs: &Msgs<Numbers>,
    leave_all: bool,
    count: usize,
    ends: (MrpEvent, u32, u32),
) -> bool {
    let events = msgs.events.as_slice();
    msgs.leave_all == leave_all && events.len() == count && has_ends(events, ends)
}

// Whether the first event and the last one are of this kind and of these keys.
fn has_ends(events: &[(MrpEvent, u32, u32)], ends: (MrpEvent, u32, u32)) -> bool {
    let (event, first, last) = ends;
    events.first().copied() == Some((event, first, first.wrapping_mul(10)))
        && events.last().copied() == Some((event, last, last.wrapping_mul(10)))
}

fn is_silent(participant: &mut Participant<Numbers>, now: u32) -> bool {
    match participant.send(Cs(u64::from(now))) {
        Ok(None) => true,
        _ => false,
    }
}

// Whether what is received at a moment tells these keys in this order.
fn hears(
    participant: &mut Participant<Numbers>,
    now: u32,
    msgs: &Msgs<Numbers>,
    keys: &[u32],
) -> bool {
    match participant.receive(Cs(u64::from(now)), msgs) {
        Ok(told) => told.as_slice() == keys,
        Err(_) => false,
    }
}

// Whether a list of events tells, at a moment, these keys in this order.
fn tells(
    alloc: Global,
    participant: &mut Participant<Numbers>,
    now: u32,
    leave_all: bool,
    list: &[(MrpEvent, u32, u32)],
    keys: &[u32],
) -> bool {
    match Vec::from_slice(alloc, list) {
        Ok(events) => {
            let events = Seq::from_vec(events);
            hears(participant, now, &Msgs { leave_all, events }, keys)
        }
        Err(_) => false,
    }
}

// Whether so many timers fire at a moment, and these keys leave in this order.
fn fires(participant: &mut Participant<Numbers>, now: u32, fired: u32, keys: &[u32]) -> bool {
    match participant.due(Cs(u64::from(now))) {
        Ok((number, left)) => number == fired && left.as_slice() == keys,
        Err(_) => false,
    }
}

fn is_declared(
    participant: &Participant<Numbers>,
    key: u32,
    content: Option<u32>,
    applicant: Applicant,
) -> bool {
    participant.declared(key) == content && participant.applicant(key) == applicant
}

fn is_registered(
    participant: &Participant<Numbers>,
    key: u32,
    content: Option<u32>,
    registrar: Registrar,
) -> bool {
    participant.registered(key) == content && participant.registrar(key) == registrar
}

// Whether three PDUs say 300 keys.
fn fills_three(participant: &mut Participant<Numbers>) -> bool {
    declares(participant, 1, 300)
        && sends(participant, 20, false, 297, (MrpEvent::JoinMt, 1, 297))
        && sends(participant, 40, false, 297, (MrpEvent::JoinMt, 1, 300))
        && sends(participant, 60, false, 6, (MrpEvent::JoinMt, 295, 300))
        && is_silent(participant, 80)
}

// 300 keys take three PDUs.
#[test]
fn full_pdus(rt: HostRuntime) {
    let mut participant = new_participant(rt.alloc(), false);
    assert!(rt; fills_three(&mut participant));
}

// Whether messages say, without LeaveAll, that two keys are joined.
fn says_two(msgs: &Msgs<Numbers>, first: u32, last: u32) -> bool {
    are_sent(msgs, false, 2, (MrpEvent::JoinMt, first, last))
}

// Whether what is planned at a moment is two keys, and is then sent.
fn sends_as_planned(participant: &mut Participant<Numbers>, now: u32, keys: (u32, u32)) -> bool {
    let (first, last) = keys;
    match participant.plan(Cs(u64::from(now))) {
        Ok(Some(msgs)) => {
            says_two(&msgs, first, last)
                && sends(participant, now, false, 2, (MrpEvent::JoinMt, first, last))
        }
        _ => false,
    }
}

// Whether two keys are declared in the room that was made for them.
fn declares_in_room(participant: &mut Participant<Numbers>, first: u32, last: u32) -> bool {
    participant.room(2).is_ok()
        && declares(participant, first, first)
        && declares(participant, last, last)
}

// Two keys are declared in room made ahead, and planned and sent alike; the timers of a participant
// that was made ready fire.
#[test]
fn memory_taken_first(rt: HostRuntime) {
    let mut participant = new_participant(rt.alloc(), false);
    assert!(rt; declares_in_room(&mut participant, 7, 9));
    assert!(rt; sends_as_planned(&mut participant, 20, (7, 9)));
    assert!(rt; participant.due_room().is_ok() && fires(&mut participant, 1001, 1, &[]));
}

fn is_sound_and_busy(participant: &Participant<Numbers>) -> bool {
    participant.sound() && !participant.still()
}

// Whether a LeaveAll is said before 297 keys of 300, and the other three by the next PDU.
fn says_leave_all(participant: &mut Participant<Numbers>) -> bool {
    let declared = declares(participant, 1, 300);
    participant.spoil();
    participant.leaveall_due(Cs(1001));
    declared
        && sends(participant, 20, true, 297, (MrpEvent::JoinMt, 1, 297))
        && sends(participant, 40, false, 297, (MrpEvent::JoinMt, 1, 300))
        && is_sound_and_busy(participant)
}

// A LeaveAll leaves three keys of 300 very anxious, and makes the participant sound.
#[test]
fn leave_all_without_room(rt: HostRuntime) {
    let mut participant = new_participant(rt.alloc(), false);
    assert!(rt; says_leave_all(&mut participant));
}

// Whether a key that is withdrawn is said to leave, once, and is then forgotten.
fn leaves_once(participant: &mut Participant<Numbers>, key: u32) -> bool {
    participant.withdraw(key);
    is_declared(participant, key, None, Applicant::La)
        && sends(participant, 20, false, 1, (MrpEvent::Lv, key, key))
        && participant.rows() == 0
        && is_silent(participant, 40)
}

// Whether a key is the only one, and has just been declared.
fn is_alone(participant: &Participant<Numbers>, key: u32) -> bool {
    participant.key_at(0) == Some(key)
        && participant.key_at(1).is_none()
        && is_declared(participant, key, Some(key.wrapping_mul(10)), Applicant::Vp)
}

// A key that is declared and withdrawn with nothing sent between still says Lv, once.
#[test]
fn withdrawn_in_time(rt: HostRuntime) {
    let mut participant = new_participant(rt.alloc(), false);
    assert!(rt; declares(&mut participant, 7, 7) && is_alone(&participant, 7));
    assert!(rt; leaves_once(&mut participant, 7));
}

// Whether two lists of events tell the keys that they change.
fn tells_changes(alloc: Global, participant: &mut Participant<Numbers>) -> bool {
    use MrpEvent::*;
    let joins = [(JoinIn, 9, 90), (OnlyMt, 8, 80), (JoinMt, 5, 50)];
    let news = [(JoinIn, 5, 50), (New, 9, 91), (Lv, 7, 70), (New, 3, 30)];
    tells(alloc, participant, 6, false, &joins, &[5, 9])
        && tells(alloc, participant, 6, true, &news, &[3, 9])
        && is_registered(participant, 9, Some(91), Registrar::Held)
}

// Receiving tells the keys whose registration or content changed, in ascending order, and acts on
// LeaveAll first.
#[test]
fn registrations(rt: HostRuntime) {
    let mut participant = new_participant(rt.alloc(), false);
    assert!(rt; tells_changes(rt.alloc(), &mut participant));
}

// Whether three keys join, and a LeaveAll with one key that is declared elsewhere tells nothing.
fn hears_leave_all(alloc: Global, participant: &mut Participant<Numbers>) -> bool {
    use MrpEvent::*;
    let joins = [(JoinIn, 9, 90), (JoinIn, 3, 30), (JoinIn, 5, 50)];
    tells(alloc, participant, 6, false, &joins, &[3, 5, 9])
        && tells(alloc, participant, 7, true, &[(OnlyIn, 5, 51)], &[])
}

// Whether a key's leave timer is made to end, once.
fn is_let_go(participant: &mut Participant<Numbers>, key: u32) -> bool {
    participant.leave_due(key) && !participant.leave_due(key)
}

// Whether some timer is due at a moment, and none the moment before.
fn is_due_at(participant: &Participant<Numbers>, before: u32, now: u32) -> bool {
    !participant.any_due(Cs(u64::from(before))) && participant.any_due(Cs(u64::from(now)))
}

// Whether one key leaves when the user says so, and two when their timers end.
fn leaves_in_time(participant: &mut Participant<Numbers>) -> bool {
    is_registered(participant, 5, Some(50), Registrar::Leaving)
        && is_let_go(participant, 5)
        && is_due_at(participant, 66, 67)
        && fires(participant, 67, 2, &[3, 9])
}

// What a LeaveAll left leaves 60 cs later, or when the user says so.
#[test]
fn leave_timers(rt: HostRuntime) {
    let mut participant = new_participant(rt.alloc(), false);
    assert!(rt; hears_leave_all(rt.alloc(), &mut participant) && leaves_in_time(&mut participant));
}

// Whether a key that is quiet is anxious after the periodic event.
fn turns_anxious(participant: &mut Participant<Numbers>, key: u32) -> bool {
    let content = Some(key.wrapping_mul(10));
    let quiet = is_declared(participant, key, content, Applicant::Qa);
    participant.periodic_due();
    quiet && is_declared(participant, key, content, Applicant::Aa)
}

// Whether both timers fire at 100 and at 200, and none just before.
fn fires_each_second(participant: &mut Participant<Numbers>) -> bool {
    fires(participant, 100, 2, &[])
        && fires(participant, 199, 0, &[])
        && fires(participant, 200, 2, &[])
}

// Whether a key is said twice, and then by the LeaveAll that the timers make.
fn says_at_each_timer(participant: &mut Participant<Numbers>, key: u32) -> bool {
    let join = (MrpEvent::JoinMt, key, key);
    declares(participant, key, key)
        && sends(participant, 20, false, 1, join)
        && sends(participant, 40, false, 1, join)
        && turns_anxious(participant, key)
        && fires_each_second(participant)
        && sends(participant, 200, true, 1, join)
}

// The timers fire together, and the periodic event makes what is quiet anxious.
#[test]
fn timers(rt: HostRuntime) {
    let mut participant = new_participant(rt.alloc(), true);
    assert!(rt; says_at_each_timer(&mut participant, 1));
}
