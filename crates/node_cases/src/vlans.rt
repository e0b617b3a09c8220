//! A bridge with two ports: what comes in at one is declared at the other, and what is withdrawn
//! leaves. One that is made ready before does and answers the same.
//!
//! The calls stand in functions of their own without contracts, so that a test's own proof is
//! short.

ghost use Rattle.std.specs.Prelude.{◌≡◌, length, IfSome};
ghost use Rattle.attribute_propagation.specs.Ports.{IsLinkPort};

use mvrp::MvrpSide;
use srp_base::{Cs, NoMemory, Percent, PortNo, PortSetup, Rate, Vid};
use std::alloc::Global;
use std::test::Fail;

// A PDU with JoinMt of VID 7, one with a Lv of it, and a LeaveAll alone.
const JOIN: [u8; 12] = [0, 1, 2, 0, 1, 0, 7, 0x6c, 0, 0, 0, 0];

const LEAVE: [u8; 12] = [0, 1, 2, 0, 1, 0, 7, 0xb4, 0, 0, 0, 0];

pub(crate) fn setup(period: u64) -> Option<PortSetup>
    ensures { IfSome result (λ s. s.period.0 ≡ period) }
{
    let delta_a = Percent::new(75)?;
    let delta_b = Percent::new(0)?;
    Some(PortSetup {
        rate: Rate::M100,
        delta_a,
        delta_b,
        latency: 0,
        period: Cs(period),
    })
}

fn bridge(alloc: Global) -> Result<Option<MvrpSide>, NoMemory> {
    match (setup(1_008), setup(1_015)) {
        (Some(one), Some(two)) => {
            let side = MvrpSide::new(alloc, Cs(60), false, [one, two].as_slice())?;
            Ok(Some(side))
        }
        _ => Ok(None),
    }
}

// Whether the participant of a port has VID 7 registered, and whether it declares it.
fn states(side: &MvrpSide, port: PortNo, vid: Vid) -> (bool, bool)
    requires { IsLinkPort port (length side.now.state.parts) }
{
    let part = side.participant(port);
    (part.registered(vid).is_some(), part.declared(vid).is_some())
}

// What is seen when a Join comes in at port 1, is settled at port 2 and sent there.
fn join(side: &mut MvrpSide, vid: Vid) -> Result<[bool; 6], NoMemory>
    requires { length side.old.state.parts ≡ 2 }
{
    let (one, two) = (PortNo(1), PortNo(2));
    let received = side.receive(Cs(1), one, JOIN.as_slice()) == Ok(1);
    let registered = states(side, one, vid) == (true, false);
    let settled = side.awaiting(two) == 1 && side.settle(Cs(1), two)? == 1;
    let declared = states(side, two, vid) == (false, true);
    let sent = side.send(Cs(20), two)?;
    let said = sent.is_some_and(|octets| octets.as_slice() == JOIN.as_slice());
    let silent = side.send(Cs(20), one)?.is_none();
    Ok([received, registered, settled, declared, said, silent])
}

// What is seen when a Lv comes in there, and its leave timer ends.
fn leave(side: &mut MvrpSide, vid: Vid) -> Result<[bool; 5], NoMemory>
    requires { length side.old.state.parts ≡ 2 }
{
    let (one, two) = (PortNo(1), PortNo(2));
    let received = side.receive(Cs(21), one, LEAVE.as_slice()) == Ok(1);
    let early = side.due(Cs(80), one)? == 0;
    let fired = side.due(Cs(81), one)? == 1;
    let settled = side.settle(Cs(81), two)? == 1;
    let gone = states(side, two, vid) == (false, false);
    Ok([received, early, fired, settled, gone])
}

#[test]
fn a_vid_goes_from_port_to_port_and_leaves(rt: HostRuntime) -> Result<(), Fail> {
    let side = bridge(rt.alloc())?;
    if let (Some(mut side), Some(vid)) = (side, Vid::new(7)) {
        assert!(rt; side.ports() == 2);
        assert_eq!(rt; join(&mut side, vid)?, [true; 6]);
        assert!(rt; side.ports() == 2);
        assert_eq!(rt; leave(&mut side, vid)?, [true; 5]);
    }
    Ok(())
}

// A side is made ready at a port, where that is asked for.
fn make_ready(side: &mut MvrpSide, port: PortNo, is_asked: bool) -> Result<(), NoMemory>
    requires { IsLinkPort port (length side.old.state.parts) }
    ensures { side.new.state ≡ side.old.state }
{
    if is_asked {
        side.room(port)?;
    }
    Ok(())
}

// What is answered where a Join comes in at port 1 and is settled at port 2, for which the side is
// made ready or not, and what port 2 states then.
fn settled(
    side: &mut MvrpSide,
    vid: Vid,
    is_ready: bool,
) -> Result<(bool, u32, (bool, bool)), NoMemory>
    requires { length side.old.state.parts ≡ 2 }
{
    let (one, two) = (PortNo(1), PortNo(2));
    let received = side.receive(Cs(1), one, JOIN.as_slice()) == Ok(1);
    make_ready(side, two, is_ready)?;
    let count = side.settle(Cs(1), two)?;
    Ok((received, count, states(side, two, vid)))
}

// What is answered where a Lv comes in at port 1 and its leave timer ends, for which the side is
// made ready or not, and how many VIDs await at port 2 then.
fn fired(side: &mut MvrpSide, is_ready: bool) -> Result<(bool, u32, usize), NoMemory>
    requires { length side.old.state.parts ≡ 2 }
{
    let (one, two) = (PortNo(1), PortNo(2));
    let received = side.receive(Cs(21), one, LEAVE.as_slice()) == Ok(1);
    make_ready(side, one, is_ready)?;
    let count = side.due(Cs(81), one)?;
    Ok((received, count, side.awaiting(two)))
}

// Whether a side of two ports that is made ready or not answers as it should.
fn answers(side: &mut MvrpSide, vid: Vid, is_ready: bool) -> Result<bool, NoMemory> {
    if side.ports() != 2 {
        return Ok(false);
    }
    let joined = settled(side, vid, is_ready)? == (true, 1, (false, true));
    Ok(joined && side.ports() == 2 && fired(side, is_ready)? == (true, 1, 1))
}

// Whether a new one does.
fn new_one_answers(alloc: Global, is_ready: bool) -> bool {
    let mut side = bridge(alloc);
    let answered = match (&mut side, Vid::new(7)) {
        (Ok(Some(side)), Some(vid)) => answers(side, vid, is_ready) == Ok(true),
        _ => false,
    };
    drop(side);
    answered
}

#[test]
fn a_side_that_is_made_ready_answers_as_one_that_is_not(rt: HostRuntime) {
    assert!(rt; new_one_answers(rt.alloc(), false));
    assert!(rt; new_one_answers(rt.alloc(), true));
}
