//! A link port of a node as MSRP has it.

ghost use Rattle.std.specs.Prelude.{◌≡◌, ◌+◌, ◌≤◌, ◌<◌, ◌^◌, ◌++◌, false, length, vec_capacity, vec_len, IfOk, OnOk, OnErr};
ghost use Rattle.mrp_participant.specs.{Lookup.find, Row.is_leaving_in, State.IsTime, State.changed_keys, State.due_count, State.due_state, State.leave_all_state, State.left_keys, State.left_state, State.periodic_state, State.received_state};
ghost use Rattle.attribute_propagation.specs.Ports.{count_of};
ghost use Rattle.msrp.specs.Part.{Part, key_cmp, same_content, sent_part};
ghost use Rattle.msrp.specs.Holding.{PortHolding};
ghost use Rattle.msrp.specs.Plan.{asked_book, new_rows, stated_part};
ghost use Rattle.port_ledger.specs.{Book.booked_only_in, Decision.IsAscending};
ghost use Rattle.msrp.specs.Side.{clocked_port, new_port, shows_at, with_part};

use crate::app::MsrpApp;
use crate::domain::{DomainSet, declare_domains};
use crate::plan::{Asked, Stated};
use crate::settling::{declare_all, enter_all, take_out_all};
use mrp_participant::{Msgs, Participant};
use msrp_codec::MsrpKey;
use msrp_talker::PortConfig;
use port_ledger::Ledger;
use registrar::Registrar;
use srp_base::{BridgeId, Cs, NoMemory, PortSetup, Seq, StreamId};
use std::alloc::Global;
use std::marker::Model;
use stream_importance::Entry;

// A link port of a node as MSRP has it (IEEE Std 802.1Q-2018, 35.2). Contracts see a `PortHolding`:
// the `PortState`, and for how many new keys and streams there is room.
#[derive(Drop)]
pub(crate) struct Port {
    // The node's bridge, and the latency in ns that the port adds to a Talker's.
    config: PortConfig,
    // The Domain values that the node declares at each of its link ports.
    domain: DomainSet,
    // What the port declares, and what its neighbour has declared.
    part: Participant<MsrpApp>,
    // The streams that want the port, and which of them are booked.
    ledger: Ledger,
}

impl Model for Port {
    ghost use Rattle.msrp.specs.Holding.{PortHolding};

    ghost Value = { PortHolding };

    ghost view = { λ p. record {
      state = record
          { config = p.config; domain = p.domain; part = p.part.state; ledger = p.ledger.book };
      rows = p.part.spare;
      wants = p.ledger.spare;
    } };
}

impl Port {
    // A new port.
    pub(crate) fn new(
        alloc: Global,
        bridge: BridgeId,
        leave_time: Cs,
        periodic: bool,
        setup: &PortSetup,
        domain: DomainSet,
    ) -> Result<Port, NoMemory>
        requires leave_time { IsTime leave_time }
        requires period { IsTime setup.now.period }
        requires shares { setup.now.delta_a + setup.now.delta_b ≤ 90 }
        ensures { IfOk result (λ p. p.state
            ≡ new_port bridge leave_time periodic domain setup.now) }
    {
        let mut part = Participant::new(alloc, setup.period, leave_time, periodic);
        declare_domains(&mut part, domain)?;
        Ok(Port {
            config: PortConfig {
                bridge,
                latency: setup.latency,
            },
            domain,
            part,
            ledger: Ledger::new(alloc, setup.rate, setup.delta_a, setup.delta_b),
        })
    }

    pub(crate) fn config(&self) -> &PortConfig
        ensures { result.now ≡ self.now.state.config }
    {
        &self.config
    }

    pub(crate) fn domain(&self) -> DomainSet
        ensures { result ≡ self.now.state.domain }
    {
        self.domain
    }

    pub(crate) fn part(&self) -> &Participant<MsrpApp>
        ensures { result.now.state ≡ self.now.state.part }
    {
        &self.part
    }

    pub(crate) fn ledger(&self) -> &Ledger
        ensures { result.now.book ≡ self.now.state.ledger }
    {
        &self.ledger
    }

    // Whether a clock that is set to a moment shows that a want which isn't booked may fit
    // otherwise than before.
    pub(crate) fn shows_at(&self, now: Cs) -> bool
        ensures { result ≡ shows_at now.0 self.now.state }
    {
        self.ledger.shows_at(now)
    }

    // Whether the participant's registrar of a key is LV.
    #[tactic(auto, using(crate::proofs::Places::leaving_is))]
    pub(crate) fn is_leaving(&self, key: MsrpKey) -> bool
        ensures { result ≡ is_leaving_in (find key_cmp key self.now.state.part.rows) }
    {
        match self.part.registrar(key) {
            Registrar::Held => false,
            Registrar::Leaving => true,
            Registrar::Empty => false,
        }
    }

    // Receives messages. Answers the keys whose registration that changes. After want of memory the
    // state is as it was.
    pub(crate) fn receive(
        &mut self,
        now: Cs,
        msgs: &Msgs<MsrpApp>,
    ) -> Result<Seq<MsrpKey>, NoMemory>
        requires { now.0 < 2 ^ 62 }
        ensures after { OnOk result (self.new.state ≡ with_part
            (received_state key_cmp now msgs.now.leave_all msgs.now.events self.old.state.part)
            self.old.state) }
        ensures keys { IfOk result (λ keys. keys ≡ changed_keys key_cmp same_content
            self.old.state.part.rows self.new.state.part.rows) }
        ensures err { OnErr result (self.new.state ≡ self.old.state) }
    {
        self.part.receive(now, msgs)
    }

    // Fires the timers that are due. Answers how many, and the keys that leave. After want of
    // memory the state is as it was.
    pub(crate) fn due(&mut self, now: Cs) -> Result<(u32, Seq<MsrpKey>), NoMemory>
        requires { now.0 < 2 ^ 62 }
        ensures after { OnOk result (self.new.state
            ≡ with_part (due_state now self.old.state.part) self.old.state) }
        ensures count { IfOk result (λ r. r.0 ≡ count_of (due_count now self.old.state.part)) }
        ensures keys { IfOk result (λ r. r.1 ≡ left_keys now self.old.state.part) }
        ensures err { OnErr result (self.new.state ≡ self.old.state) }
    {
        self.part.due(now)
    }

    // The leave timer of a key ends.
    pub(crate) fn leave_due(&mut self, key: MsrpKey)
        ensures { self.new.state
            ≡ with_part (left_state key_cmp key self.old.state.part) self.old.state }
    {
        let _ = self.part.leave_due(key);
    }

    // What the participant had to say has gone out.
    pub(crate) fn sent(&mut self, now: Cs)
        requires { now.0 < 2 ^ 62 }
        ensures { self.new.state ≡ with_part (sent_part now self.old.state.part) self.old.state }
    {
        self.part.sent(now);
    }

    // The LeaveAll timer fires.
    pub(crate) fn leaveall_due(&mut self, now: Cs)
        requires { now.0 < 2 ^ 62 }
        ensures { self.new.state
            ≡ with_part (leave_all_state now self.old.state.part) self.old.state }
    {
        self.part.leaveall_due(now);
    }

    // Each key takes the periodic event.
    pub(crate) fn periodic_due(&mut self)
        ensures { self.new.state ≡ with_part (periodic_state self.old.state.part) self.old.state }
    {
        self.part.periodic_due();
    }

    // The participant isn't sound any more.
    pub(crate) fn spoil(&mut self)
        ensures { let s : Part = self.old.state.part in
            self.new.state ≡ with_part (record s { sound = false }) self.old.state }
    {
        self.part.spoil();
    }

    // Sets the moment of the ledger.
    pub(crate) fn clock(&mut self, now: Cs)
        requires { self.old.state.ledger.moment ≤ now.0 }
        ensures { self.new.state ≡ clocked_port now.0 self.old.state }
    {
        self.ledger.clock(now);
    }

    // ---- settling

    // Makes room for so many new rows and streams. The state is as it was.
    pub(crate) fn room(&mut self, rows: usize, wants: usize) -> Result<(), NoMemory>
        ensures state { self.new.state ≡ self.old.state }
        ensures rows { OnOk result (rows ≤ self.new.rows) }
        ensures wants { OnOk result (wants ≤ self.new.wants) }
    {
        self.part.room(rows)?;
        self.ledger.room(wants)
    }

    // Those of these streams that want nothing are taken out of the ledger, and then those that
    // want bandwidth entered. What that changed in the booked set, by the bookings before, is put
    // at the end of a list. There is room for all.
    pub(crate) fn decide(&mut self, asked: &[Asked], before: &[Entry], moved: &mut Vec<StreamId>)
        requires wants { length asked.now ≤ self.old.wants }
        requires before { IsAscending before.now }
        requires room { length self.old.state.ledger.entries + length before.now + length asked.now
            + vec_len moved.old ≤ vec_capacity moved.old }
        ensures state { self.new.state
            ≡ record self.old.state { ledger = asked_book asked.now self.old.state.ledger } }
        ensures rows { self.new.rows ≡ self.old.rows }
        ensures moved { moved.new.items ≡ moved.old.items
            ++ (booked_only_in (asked_book asked.now self.old.state.ledger).entries before.now
            ++ booked_only_in before.now (asked_book asked.now self.old.state.ledger).entries) }
    {
        take_out_all(&mut self.ledger, asked);
        enter_all(&mut self.ledger, asked);
        self.ledger.push_moved(before, moved);
    }

    // Each of these keys is declared or withdrawn, in this order. There is room for the rows that
    // come.
    pub(crate) fn restate(&mut self, stated: &[Stated])
        requires { new_rows stated.now self.old.state.part ≤ self.old.rows }
        ensures { self.new.state
            ≡ with_part (stated_part stated.now self.old.state.part) self.old.state }
    {
        declare_all(&mut self.part, stated);
    }
}
