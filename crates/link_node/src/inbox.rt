//! An inbox: the PDUs that came in at a link port, in order.

ghost use Rattle.std.specs.Prelude.{◌≡◌, ◌==◌, ◌<◌, ◌≤◌, ◌++◌, [], length, slice_get, option_map, Some, IfOk, IfErr, OnOk, OnErr};
ghost use Rattle.mrp_participant.specs.Link.{with_repeat};
ghost use Rattle.link_net.specs.Meaning.{with_one, without};

use link_app::Wire;
use srp_base::{NoMemory, Seq};
use std::alloc::{AllocError, Global};
use std::collections::VecDeque;
use std::marker::Model;

// The PDUs that wait in an inbox, in order: a queue, from whose front one is taken without moving
// the others. Contracts see the list of the PDUs.
#[derive(Drop)]
pub(crate) struct Inbox<N: Copy> {
    pdus: VecDeque<Wire<N>>,
}

impl<N: Copy> Model for Inbox<N> {
    ghost use Rattle.std.specs.Prelude.{List};
    ghost use Rattle.link_app.specs.Wires.{NamedOctets};

    ghost Value = { List (NamedOctets N) };

    ghost view = { λ inbox. inbox.pdus.items };
}

impl<N: Copy> Inbox<N> {
    // An empty inbox. It takes no memory.
    pub(crate) fn new(alloc: Global) -> Inbox<N>
        ensures { result ≡ [] }
    {
        Inbox {
            pdus: VecDeque::new(alloc),
        }
    }

    // The number of PDUs.
    pub(crate) fn len(&self) -> usize
        ensures { result ≡ length self.now }
    {
        self.pdus.len()
    }

    // Whether no PDU waits.
    pub(crate) fn is_empty(&self) -> bool
        ensures { result ≡ (length self.now == 0) }
    {
        self.pdus.is_empty()
    }

    // The PDU of an index, counted from 0, where there is one.
    pub(crate) fn get(&self, index: usize) -> Option<&Wire<N>>
        ensures { option_map (λ pdu. pdu.now) result ≡ slice_get self.now index }
    {
        self.pdus.get(index)
    }

    // Takes the PDU of an index out. It takes no memory.
    pub(crate) fn remove(&mut self, index: usize)
        requires { index < length self.old }
        ensures { self.new ≡ without index self.old }
    {
        let _ = self.pdus.remove(index);
    }

    // Puts a copy of the PDU of an index right behind it.
    #[tactic(auto, using(crate::proofs::InboxLemmas::repeated_of))]
    pub(crate) fn repeat(&mut self, alloc: Global, index: usize) -> Result<(), NoMemory>
        requires index { index < length self.old }
        ensures ok { OnOk result (self.new ≡ with_repeat index self.old) }
        ensures err { OnErr result (self.new ≡ self.old) }
    {
        let copy = copied(alloc, self.at(index))?;
        self.pdus.insert(index, copy)?;
        Ok(())
    }

    // Puts a PDU at the place of an index, to which the inbox reaches.
    #[tactic(auto, using(crate::proofs::InboxLemmas::inserted))]
    pub(crate) fn insert(&mut self, index: usize, pdu: Wire<N>) -> Result<(), NoMemory>
        requires { index ≤ length self.old }
        ensures ok { OnOk result (self.new ≡ with_one index pdu self.old) }
        ensures err { OnErr result (self.new ≡ self.old) }
    {
        self.pdus.insert(index, pdu)?;
        Ok(())
    }

    // Puts PDUs behind those that wait; hands them back where memory runs out.
    pub(crate) fn append(&mut self, pdus: Seq<Wire<N>>) -> Result<(), (NoMemory, Seq<Wire<N>>)>
        ensures ok { OnOk result (self.new ≡ self.old ++ pdus) }
        ensures err { OnErr result (self.new ≡ self.old) }
        ensures back { IfErr result (λ e. e.1 ≡ pdus) }
    {
        if self.pdus.reserve(pdus.len()).is_err() {
            return Err((NoMemory, pdus));
        }
        let mut more = VecDeque::from(pdus.into_vec());
        match self.pdus.append(&mut more) {
            Ok(()) => Ok(()),
            Err(_) => unreachable!(),
        }
    }

    // The PDU of an index that there is.
    fn at(&self, index: usize) -> &Wire<N>
        requires { index < length self.now }
        ensures { slice_get self.now index ≡ Some result.now }
    {
        match self.pdus.get(index) {
            Some(pdu) => pdu,
            None => unreachable!(),
        }
    }
}

// Another PDU with the same octets.
fn copied<N: Copy>(alloc: Global, pdu: &Wire<N>) -> Result<Wire<N>, AllocError>
    ensures { IfOk result (λ p. p ≡ pdu.now) }
{
    let octets = Vec::from_slice(alloc, pdu.octets())?;
    Ok(Wire::new(pdu.app(), Seq::from_vec(octets)))
}
