//! An inbox: the PDUs that came in at a link port, in order.

ghost use Rattle.std.specs.Prelude.{◌≡◌, ◌==◌, ◌<◌, ◌≤◌, ◌++◌, [], length, slice_get, slice_index_or, IfOk, IfErr, OnOk, OnErr, option_map};
ghost use Rattle.mrp_participant.specs.Link.{with_repeat};
ghost use Rattle.node_core.specs.State.{are_empty, works};
ghost use Rattle.node_core.specs.Wires.{with_wire, without};

use crate::types::{PortStep, Wire};
use srp_base::{NoMemory, Seq};
use std::alloc::{AllocError, Global};
use std::collections::VecDeque;
use std::marker::Model;

// The PDUs that wait in an inbox, in order: a queue, from whose front one is taken without moving
// the others. Contracts see the list of the PDUs.
#[derive(Drop)]
pub(crate) struct Inbox {
    wires: VecDeque<Wire>,
}

impl Model for Inbox {
    ghost use Rattle.std.specs.Prelude.{List};
    ghost use Rattle.node_core.specs.declared.types.Wire.{Wire};

    ghost Value = { List Wire };

    ghost view = { λ inbox. inbox.wires.items };
}

impl Inbox {
    // An empty inbox. It takes no memory.
    pub(crate) fn new(alloc: Global) -> Inbox
        ensures { result ≡ [] }
    {
        Inbox {
            wires: VecDeque::new(alloc),
        }
    }

    // The number of PDUs.
    pub(crate) fn len(&self) -> usize
        ensures { result ≡ length self.now }
    {
        self.wires.len()
    }

    // Whether no PDU waits.
    pub(crate) fn is_empty(&self) -> bool
        ensures { result ≡ (length self.now == 0) }
    {
        self.wires.is_empty()
    }

    // The PDU of an index, counted from 0.
    pub(crate) fn get(&self, index: usize) -> Option<&Wire>
        ensures { option_map (λ w. w.now) result ≡ slice_get self.now index }
    {
        self.wires.get(index)
    }

    // The PDU of an index that there is.
    pub(crate) fn at(&self, index: usize) -> &Wire
        requires { index < length self.now }
        ensures { result.now ≡ slice_index_or self.now index result.now }
    {
        match self.wires.get(index) {
            Some(wire) => wire,
            None => unreachable!(),
        }
    }

    // A step for each PDU.
    pub(crate) fn works(&self, alloc: Global) -> Result<Vec<PortStep>, AllocError>
        ensures { IfOk result (λ v. v.items ≡ works self.now) }
    {
        self.wires.iter().map(|_| PortStep::Work).collect(alloc)
    }

    // Copies of all PDUs.
    pub(crate) fn copied(&self, alloc: Global) -> Result<Seq<Wire>, NoMemory>
        ensures { IfOk result (λ wires. wires ≡ self.now) }
    {
        let (front, back) = self.wires.as_slices();
        let mut copies = Vec::with_capacity(alloc, self.wires.len())?;
        push_copies(alloc, &mut copies, front)?;
        push_copies(alloc, &mut copies, back)?;
        Ok(Seq::from_vec(copies))
    }

    // Takes the PDU of an index out.
    pub(crate) fn remove(&mut self, index: usize)
        requires { index < length self.old }
        ensures { self.new ≡ without index self.old }
    {
        let _ = self.wires.remove(index);
    }

    // Puts a PDU at the place of an index.
    pub(crate) fn insert(&mut self, index: usize, wire: Wire) -> Result<(), NoMemory>
        requires { index ≤ length self.old }
        ensures ok { OnOk result (self.new ≡ with_wire index wire self.old) }
        ensures err { OnErr result (self.new ≡ self.old) }
    {
        self.wires.insert(index, wire)?;
        Ok(())
    }

    // Puts a copy of the PDU of an index right behind it.
    #[tactic(auto, using(crate::proofs::Boxes::repeated_of))]
    pub(crate) fn repeat(&mut self, alloc: Global, index: usize) -> Result<(), NoMemory>
        requires { index < length self.old }
        ensures ok { OnOk result (self.new ≡ with_repeat index self.old) }
        ensures err { OnErr result (self.new ≡ self.old) }
    {
        let copy = copied_wire(alloc, self.at(index))?;
        self.wires.insert(index, copy)?;
        Ok(())
    }

    // Puts PDUs behind those that wait; hands them back where memory runs out.
    pub(crate) fn append(&mut self, wires: Seq<Wire>) -> Result<(), (NoMemory, Seq<Wire>)>
        ensures ok { OnOk result (self.new ≡ self.old ++ wires) }
        ensures err { OnErr result (self.new ≡ self.old) }
        ensures back { IfErr result (λ e. e.1 ≡ wires) }
    {
        if self.wires.reserve(wires.len()).is_err() {
            return Err((NoMemory, wires));
        }
        let mut more = VecDeque::from(wires.into_vec());
        match self.wires.append(&mut more) {
            Ok(()) => Ok(()),
            Err(_) => unreachable!(),
        }
    }
}

// Whether no PDU waits in any of these inboxes.
pub(crate) fn all_taken(inboxes: &[Inbox]) -> bool
    ensures { result ≡ are_empty inboxes.now }
{
    inboxes.iter().all(|inbox| inbox.is_empty())
}

// Another PDU of the same application with the same octets.
pub(crate) fn copied_wire(alloc: Global, wire: &Wire) -> Result<Wire, AllocError>
    ensures { IfOk result (λ w. w ≡ wire.now) }
{
    let octets = Vec::from_slice(alloc, wire.octets.as_slice())?;
    Ok(Wire {
        app: wire.app,
        octets: Seq::from_vec(octets),
    })
}

// Copies of PDUs go to the end of a list.
fn push_copies(alloc: Global, copies: &mut Vec<Wire>, wires: &[Wire]) -> Result<(), NoMemory>
    ensures { OnOk result (copies.new.items ≡ copies.old.items ++ wires.now) }
{
    for wire in wires {
        copies.push(copied_wire(alloc, wire)?)?;
    }
    Ok(())
}
