//! The inboxes and outboxes of a node's link ports, by the places of the ports.

ghost use Rattle.std.specs.Prelude.{◌≡◌, ◌<◌, ◌≤◌, ◌++◌, [], length, replicate, slice_set, IfOk, IfErr, OnOk, OnErr};
ghost use Rattle.mrp_participant.specs.Link.{with_repeat};
ghost use Rattle.attribute_propagation.specs.Ports.{place_of};
ghost use Rattle.link_net.specs.Meaning.{with_one, without};
ghost use Rattle.link_node.specs.Boxes.{are_empty, box_at};

use crate::inbox::Inbox;
use link_app::Wire;
use srp_base::{NoMemory, PortNo, Seq};
use std::alloc::Global;
use std::mem;

// The place of a link port, counted from 0.
pub(crate) fn place(port: PortNo) -> usize
    requires { 1 ≤ port.0 }
    ensures { result ≡ place_of port }
{
    usize::from(port.0) - 1
}

// So many empty inboxes.
pub(crate) fn new_inboxes<N: Copy>(alloc: Global, count: usize) -> Result<Vec<Inbox<N>>, NoMemory>
    ensures { IfOk result (λ v. v.items ≡ replicate count []) }
{
    let mut boxes = Vec::with_capacity(alloc, count)?;
    for _ in 0..count {
        boxes.push(Inbox::new(alloc))?;
    }
    Ok(boxes)
}

// So many empty outboxes.
pub(crate) fn new_outboxes<N: Copy>(
    alloc: Global,
    count: usize,
) -> Result<Vec<Seq<Wire<N>>>, NoMemory>
    ensures { IfOk result (λ v. v.items ≡ replicate count []) }
{
    let mut boxes = Vec::with_capacity(alloc, count)?;
    for _ in 0..count {
        boxes.push(Seq::new(alloc))?;
    }
    Ok(boxes)
}

// Whether no PDU waits in any of these inboxes.
pub(crate) fn all_taken<N: Copy>(inboxes: &[Inbox<N>]) -> bool
    ensures { result ≡ are_empty inboxes.now }
{
    inboxes.iter().all(|inbox| inbox.is_empty())
}

// Whether no PDU waits in any of these outboxes.
pub(crate) fn all_gone<N: Copy>(outboxes: &[Seq<Wire<N>>]) -> bool
    ensures { result ≡ are_empty outboxes.now }
{
    outboxes.iter().all(|pdus| pdus.len() == 0)
}

// The inbox at a place.
pub(crate) fn inbox_at<N: Copy>(inboxes: &[Inbox<N>], at: usize) -> &Inbox<N>
    requires { at < length inboxes.now }
    ensures { result.now ≡ box_at at inboxes.now }
{
    &inboxes[at]
}

// Takes the PDU of an index out of an inbox.
pub(crate) fn lose_at<N: Copy>(inboxes: &mut Vec<Inbox<N>>, at: usize, index: usize)
    requires place { at < length inboxes.old.items }
    requires there { index < length (box_at at inboxes.old.items) }
    ensures { inboxes.new.items
        ≡ slice_set inboxes.old.items at (without index (box_at at inboxes.old.items)) }
{
    inboxes[at].remove(index);
}

// Puts a copy of the PDU of an index in an inbox right behind it.
pub(crate) fn repeat_at<N: Copy>(
    inboxes: &mut Vec<Inbox<N>>,
    at: usize,
    index: usize,
) -> Result<(), NoMemory>
    requires place { at < length inboxes.old.items }
    requires there { index < length (box_at at inboxes.old.items) }
    ensures ok { OnOk result (inboxes.new.items
        ≡ slice_set inboxes.old.items at (with_repeat index (box_at at inboxes.old.items))) }
    ensures err { OnErr result (inboxes.new.items ≡ inboxes.old.items) }
{
    let alloc = *inboxes.allocator();
    inboxes[at].repeat(alloc, index)
}

// Puts a PDU at the place of an index in an inbox, which reaches so far.
pub(crate) fn insert_at<N: Copy>(
    inboxes: &mut Vec<Inbox<N>>,
    at: usize,
    index: usize,
    pdu: Wire<N>,
) -> Result<(), NoMemory>
    requires place { at < length inboxes.old.items }
    requires reaches { index ≤ length (box_at at inboxes.old.items) }
    ensures ok { OnOk result (inboxes.new.items
        ≡ slice_set inboxes.old.items at (with_one index pdu (box_at at inboxes.old.items))) }
    ensures err { OnErr result (inboxes.new.items ≡ inboxes.old.items) }
{
    inboxes[at].insert(index, pdu)
}

// Puts PDUs behind those that wait in an inbox; hands them back where memory runs out.
pub(crate) fn append_at<N: Copy>(
    inboxes: &mut Vec<Inbox<N>>,
    at: usize,
    pdus: Seq<Wire<N>>,
) -> Result<(), (NoMemory, Seq<Wire<N>>)>
    requires place { at < length inboxes.old.items }
    ensures ok { OnOk result (inboxes.new.items
        ≡ slice_set inboxes.old.items at (box_at at inboxes.old.items ++ pdus)) }
    ensures err { OnErr result (inboxes.new.items ≡ inboxes.old.items) }
    ensures back { IfErr result (λ e. e.1 ≡ pdus) }
{
    inboxes[at].append(pdus)
}

// The PDUs of an outbox, which is empty afterwards.
pub(crate) fn empty_at<N: Copy>(outboxes: &mut Vec<Seq<Wire<N>>>, at: usize) -> Seq<Wire<N>>
    requires { at < length outboxes.old.items }
    ensures taken { result ≡ box_at at outboxes.old.items }
    ensures after { outboxes.new.items ≡ slice_set outboxes.old.items at [] }
{
    let alloc = *outboxes.allocator();
    mem::replace(&mut outboxes[at], Seq::new(alloc))
}

// Makes these PDUs an outbox.
pub(crate) fn fill_at<N: Copy>(outboxes: &mut Vec<Seq<Wire<N>>>, at: usize, pdus: Seq<Wire<N>>)
    requires { at < length outboxes.old.items }
    ensures { outboxes.new.items ≡ slice_set outboxes.old.items at pdus }
{
    outboxes[at] = pdus;
}
