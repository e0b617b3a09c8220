//! The clock of a node's ledgers.

ghost use Rattle.std.specs.Prelude.{◌≡◌, ◌≤◌, true, false, length, map, if◌then◌else◌, IsOk, OnOk, OnErr};
ghost use Rattle.std.specs.List.{AllByRecursion, list_any};
ghost use Rattle.attribute_propagation.specs.{Dirty.all_marked, Ports.HasRoom, Ports.keys_in};
ghost use Rattle.msrp.specs.Part.{key_cmp};
ghost use Rattle.msrp.specs.Holding.{ports_in};
ghost use Rattle.msrp.specs.Settling.{talker_keys};
ghost use Rattle.msrp.specs.Side.{clocked_port, clocked_sets, clocked_streams, shows_at};

use crate::laws::every_call_keeps_a_side;
use crate::port::Port;
use crate::side::MsrpSide;
use crate::talker_keys::{mark_talkers, talker_count};
use attribute_propagation::{Dirty, room_everywhere};
use msrp_codec::MsrpKey;
use srp_base::{Cs, NoMemory, Talker};

impl MsrpSide {
    /// Makes the side ready for the clock: afterwards `clock` takes no memory, and all else is as
    /// before. Each call that changes the side ends its readiness; `due`, `settle`, `send` and
    /// `request` leave it where they change nothing. After want of memory the state is as it was.
    pub fn clock_room(&mut self) -> Result<(), NoMemory>
        ensures state { self.new.state ≡ self.old.state }
        ensures ready { OnOk result (self.new.ready ≡ true) }
        ensures again { self.old.ready ≡ true → IsOk result }
    {
        if self.ready {
            return Ok(());
        }
        talker_room(
            &mut self.awaiting,
            self.talks.as_slice(),
            self.ports.as_slice(),
        )?;
        self.ready = true;
        Ok(())
    }

    /// Sets the moment of all ledgers, in cs, to one that isn't before the last. Where a booking is
    /// older now than what isn't booked, so that a want may fit otherwise than before, the Talker
    /// keys of all streams with a registered Talker await. Want of memory comes only where the side
    /// isn't ready.
    pub fn clock(&mut self, now: Cs) -> Result<(), NoMemory>
        requires { self.old.state.moment ≤ now.0 }
        ensures ok { OnOk result (self.new.state ≡ clocked_streams now.0 self.old.state) }
        ensures err { OnErr result (self.new.state ≡ self.old.state) }
        ensures room { self.old.ready ≡ true → IsOk result }
        // A clock that shows nothing at any port takes no memory.
        ensures none { list_any (shows_at now.0) self.old.state.ports ≡ false → IsOk result }
        ensures ready { OnOk result (self.new.ready ≡ false) }
    {
        if !self.clock_shows(now) {
            self.pass(now);
            return Ok(());
        }
        self.clock_room()?;
        self.show(now);
        Ok(())
    }

    /// Whether a clock that is set to a moment, in cs, shows at some port that a want which isn't
    /// booked may fit otherwise than before.
    pub fn clock_shows(&self, now: Cs) -> bool
        ensures { result ≡ list_any (shows_at now.0) self.now.state.ports }
    {
        any_shows(self.ports.as_slice(), now)
    }

    // Sets the moment where the clock shows nothing at any port.
    fn pass(&mut self, now: Cs)
        requires moment { self.old.state.moment ≤ now.0 }
        requires still { list_any (shows_at now.0) self.old.state.ports ≡ false }
        ensures state { self.new.state ≡ clocked_streams now.0 self.old.state }
        ensures ready { self.new.ready ≡ false }
    {
        every_call_keeps_a_side();
        clock_all(&mut self.ports, now);
        self.moment = now;
        self.ready = false;
    }

    // Sets the moment of a side that is ready, and puts the Talker keys in at each port where the
    // clock shows.
    fn show(&mut self, now: Cs)
        requires moment { self.old.state.moment ≤ now.0 }
        requires ready { self.old.ready ≡ true }
        ensures state { self.new.state ≡ clocked_streams now.0 self.old.state }
        ensures ready { self.new.ready ≡ false }
    {
        every_call_keeps_a_side();
        show_all(
            &mut self.awaiting,
            self.talks.as_slice(),
            self.ports.as_slice(),
            now,
        );
        clock_all(&mut self.ports, now);
        self.moment = now;
        self.ready = false;
    }
}

// Whether a clock shows at one of these ports.
fn any_shows(ports: &[Port], now: Cs) -> bool
    ensures { result ≡ list_any (shows_at now.0) (ports_in ports.now) }
{
    some_shows(ports, now)
}

fn some_shows(ports: &[Port], now: Cs) -> bool
    ensures { result ≡ list_any (λ p. shows_at now.0 p.state) ports.now }
{
    ports.iter().any(|port| port.shows_at(now))
}

// Makes room at each port for the Talker keys of all streams with a Talker. The keys there stay.
fn talker_room(
    sets: &mut Vec<Dirty<MsrpKey>>,
    talks: &[Talker],
    ports: &[Port],
) -> Result<(), NoMemory>
    ensures room { OnOk result
        (HasRoom (length (talker_keys talks.now (ports_in ports.now))) sets.new.items) }
    ensures keys { keys_in sets.new.items ≡ keys_in sets.old.items }
{
    let count = talker_count(talks, ports)?;
    room_everywhere(sets, count)
}

// Puts the Talker keys of all streams with a Talker in at each port where the clock shows. There is
// room for them.
fn show_all(sets: &mut Vec<Dirty<MsrpKey>>, talks: &[Talker], ports: &[Port], now: Cs)
    requires count { length sets.old.items ≡ length ports.now }
    requires room { HasRoom (length (talker_keys talks.now (ports_in ports.now))) sets.old.items }
    ensures { keys_in sets.new.items ≡ clocked_sets now.0
        (talker_keys talks.now (ports_in ports.now)) (ports_in ports.now) (keys_in sets.old.items) }
{
    for place in 0..sets.len() {
        show_at(&mut sets[place], ports[place].shows_at(now), talks, ports);
    }
}

// Puts the Talker keys of all streams with a Talker in where the clock shows.
fn show_at(set: &mut Dirty<MsrpKey>, shows: bool, talks: &[Talker], ports: &[Port])
    requires { length (talker_keys talks.now (ports_in ports.now)) ≤ set.old.spare }
    ensures { set.new.keys ≡ (if shows
        then all_marked key_cmp (talker_keys talks.now (ports_in ports.now)) set.old.keys
        else set.old.keys) }
{
    if shows {
        mark_talkers(set, talks, ports);
    }
}

// Sets the moment of each port's ledger.
pub(crate) fn clock_all(ports: &mut Vec<Port>, now: Cs)
    requires { AllByRecursion (λ p. p.ledger.moment ≤ now.0) (ports_in ports.old.items) }
    ensures { ports_in ports.new.items ≡ map (clocked_port now.0) (ports_in ports.old.items) }
{
    for port in ports.iter_mut() {
        port.clock(now);
    }
}
