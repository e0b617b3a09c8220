//! What a port declares of a Talker, and the failure that it names.

use msrp_talker::{PortConfig, check, class_of, talker_out};
use srp_base::{BridgeId, Class, Failure, Mac, Priority, Rank, StreamId, Talker, TalkerReg};
use stream_importance::Fit;

fn talker(priority: u8, max_frame: u16, latency: u32) -> Option<Talker> {
    Some(Talker {
        stream: StreamId(0x0200_0000_0001_0001),
        dest: Mac::new(0x91e0_f000_fe01)?,
        vid: 2,
        max_frame,
        frames: 1,
        priority: Priority::new(priority)?,
        rank: Rank::Normal,
        latency,
    })
}

const PORT: PortConfig = PortConfig {
    bridge: BridgeId(3),
    latency: 500,
};

const TOO_LITTLE: Fit = Fit::TooLittle {
    more_important: 0,
    cap: 10_000_000,
    code: 1,
};

#[test]
fn only_priorities_3_and_2_have_a_class(rt: HostRuntime) {
    for priority in 0..=255u8 {
        let class = match priority {
            3 => Some(Class::A),
            2 => Some(Class::B),
            _ => None,
        };
        assert!(rt; class_of(priority) == class);
    }
}

fn is_checked(priority: u8, max_frame: u16, code: Option<u8>) -> bool {
    match talker(priority, max_frame, 0) {
        Some(talker) => check(&talker) == code,
        None => false,
    }
}

#[test]
fn the_priority_is_checked_before_the_size(rt: HostRuntime) {
    for (priority, max_frame, code) in [
        (3, 1_501, Some(14)),
        (4, 1_501, Some(13)),
        (2, 1_500, None),
    ] {
        assert!(rt; is_checked(priority, max_frame, code));
    }
}

/// Whether a latency near its greatest is declared as the greatest, and no Talker as none.
fn stands_still() -> Option<bool> {
    let near = TalkerReg::Advertise(talker(3, 200, 4_294_967_290)?);
    let greatest = TalkerReg::Advertise(talker(3, 200, 4_294_967_295)?);
    let declared = talker_out(near, &PORT, false, Fit::Fits);
    let none = talker_out(TalkerReg::Absent, &PORT, false, Fit::Fits);
    Some(declared == greatest && none == TalkerReg::Absent)
}

#[test]
fn latency_stands_still_at_its_greatest(rt: HostRuntime) {
    assert!(rt; stands_still() == Some(true));
}

fn failure(bridge: u64, code: u8) -> Failure {
    Failure {
        bridge: BridgeId(bridge),
        code,
    }
}

/// A Talker as it is registered, with a failure or none.
fn registered(talker: Talker, failure: Option<Failure>) -> TalkerReg {
    match failure {
        Some(failure) => TalkerReg::Failed(talker, failure),
        None => TalkerReg::Advertise(talker),
    }
}

/// Whether a Talker, registered with a failure or none, is declared with one where too little is
/// free.
fn fails(priority: u8, max_frame: u16, before: Option<Failure>, after: Failure) -> Option<bool> {
    let heard = registered(talker(priority, max_frame, 0)?, before);
    let said = TalkerReg::Failed(talker(priority, max_frame, 500)?, after);
    Some(talker_out(heard, &PORT, false, TOO_LITTLE) == said)
}

#[test]
fn a_failure_names_where_it_was_found(rt: HostRuntime) {
    for (priority, max_frame, before, after) in [
        (3, 200, None, failure(3, 1)),
        (3, 1_501, None, failure(3, 14)),
        (4, 200, Some(failure(9, 8)), failure(9, 8)),
    ] {
        assert!(rt; fails(priority, max_frame, before, after) == Some(true));
    }
}
