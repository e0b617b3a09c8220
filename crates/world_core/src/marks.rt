//! The marks of a network: where a neighbour's LeaveAll makes a port sound.

ghost use Rattle.std.specs.Prelude.{◌≡◌, ◌<◌, ◌≤◌, ◌+◌, ◌-◌, ◌^◌, ◌++◌, length, drop, replicate, IfOk};
ghost use Rattle.tree_topology.specs.{Topology.HasPort, Ports.peer_of, Ports.neighbours};
ghost use Rattle.attribute_propagation.specs.Ports.{place_of};
ghost use Rattle.world_core.specs.Marks.{IsOfTree, both_at, with_two, no_mark, no_marks, of_app, with_app, rows_from, new_marks, end_in, mark_in, mark_at, row_with, ends_with, with_mark, with_both, both_sent, both_took, both_lost, both_copied, both_forged, after_saying, after_hearing_of, after_taking, with_fewer, with_more, without_mark};

use srp_base::{App, EgressPort, NoMemory, NodeNo, Seq};
use std::alloc::Global;
use std::marker::Model;
use std::mem;
use tree_topology::Tree;

/// The marks of an end of a link in an application: whether its neighbour's LeaveAll has cleared
/// its way, whether it is assured by one that it took then, and how many PDUs are on their way from
/// it.
#[derive(Clone, Copy, PartialEq, Eq)]
pub struct EndMark {
    pub clear: bool,
    pub assured: bool,
    pub flying: u128,
}

/// The marks of an end in both applications.
#[derive(Clone, Copy, PartialEq, Eq)]
pub struct EndMarks {
    pub vlans: EndMark,
    pub streams: EndMark,
}

/// The marks of every port of a tree. Contracts see a `MarksState`.
#[derive(Drop)]
pub struct Marks {
    tree: Tree,
    ends: Vec<Seq<EndMarks>>,
}

impl Model for Marks {
    ghost use Rattle.world_core.specs.Marks.{MarksState, IsOfTree};

    ghost Value = { MarksState };

    ghost view = { λ m. record { tree = m.tree; ends = m.ends.items } };

    ghost invariant = { λ m. IsOfTree (record { tree = m.tree; ends = m.ends.items }) };
}

impl Marks {
    /// The marks of a new network over a tree: none is set, and no PDU is on its way.
    pub fn of(alloc: Global, tree: &Tree) -> Result<Marks, NoMemory>
        ensures { IfOk result (λ marks. marks ≡ new_marks tree.now) }
    {
        let copy = tree.copy()?;
        let ends = new_rows(alloc, tree)?;
        Ok(Marks { tree: copy, ends })
    }

    /// A port has sent a PDU of an application, which may have LeaveAll: its way isn't clear any
    /// more, and with LeaveAll its peer's way is, where nothing of the application is on its way
    /// from there.
    pub fn sent(&mut self, at: EgressPort, app: App, leave_all: bool)
        requires port { HasPort self.old.tree at }
        requires few { (mark_at app at self.old).flying < 2 ^ 100 }
        ensures { self.new ≡ with_both app at (both_sent leave_all) self.old }
    {
        let before = self.both(at, app);
        self.put_both(at, app, two_sent(leave_all, before));
    }

    /// A port has taken a PDU of an application, which may have LeaveAll and was on its way: where
    /// its own way is clear, a LeaveAll assures it.
    pub fn took(&mut self, at: EgressPort, app: App, leave_all: bool)
        requires port { HasPort self.old.tree at }
        requires some { 1 ≤ (mark_at app (peer_of self.old.tree.links at) self.old).flying }
        ensures { self.new ≡ with_both app at (both_took leave_all) self.old }
    {
        let before = self.both(at, app);
        self.put_both(at, app, two_took(leave_all, before));
    }

    /// A PDU of an application that was on its way to a port is lost: neither end has any mark.
    pub fn lost(&mut self, at: EgressPort, app: App)
        requires port { HasPort self.old.tree at }
        requires some { 1 ≤ (mark_at app (peer_of self.old.tree.links at) self.old).flying }
        ensures { self.new ≡ with_both app at both_lost self.old }
    {
        let before = self.both(at, app);
        self.put_both(at, app, two_lost(before));
    }

    /// A PDU of an application that is on its way to a port is there twice.
    pub fn copied(&mut self, at: EgressPort, app: App)
        requires port { HasPort self.old.tree at }
        requires some { 1 ≤ (mark_at app (peer_of self.old.tree.links at) self.old).flying }
        requires few { (mark_at app (peer_of self.old.tree.links at) self.old).flying < 2 ^ 100 }
        ensures { self.new ≡ with_both app at both_copied self.old }
    {
        let before = self.both(at, app);
        self.put_both(at, app, two_copied(before));
    }

    /// A PDU of an application that no neighbour sent is on its way to a port: neither end has any
    /// mark.
    pub fn forged(&mut self, at: EgressPort, app: App)
        requires port { HasPort self.old.tree at }
        requires few { (mark_at app (peer_of self.old.tree.links at) self.old).flying < 2 ^ 100 }
        ensures { self.new ≡ with_both app at both_forged self.old }
    {
        let before = self.both(at, app);
        self.put_both(at, app, two_forged(before));
    }

    /// Whether a port took its neighbour's LeaveAll of an application while its way was clear, so
    /// that it is sound.
    pub fn assured(&self, at: EgressPort, app: App) -> bool
        requires { HasPort self.now.tree at }
        ensures { result ≡ (mark_at app at self.now).assured }
    {
        self.mark(at, app).assured
    }

    // The same of any port, where there is one.
    pub(crate) fn is_assured(&self, at: EgressPort, app: App) -> bool
        ensures { result ≡ (mark_at app at self.now).assured }
    {
        self.mark(at, app).assured
    }

    // Whether the way of a port is clear.
    pub(crate) fn is_clear(&self, at: EgressPort, app: App) -> bool
        ensures { result ≡ (mark_at app at self.now).clear }
    {
        self.mark(at, app).clear
    }

    // The marks of a port in an application.
    fn mark(&self, at: EgressPort, app: App) -> EndMark
        ensures { result ≡ mark_at app at self.now }
    {
        mark_of(&self.ends, at, app)
    }

    // The marks of a port and of its peer.
    fn both(&self, at: EgressPort, app: App) -> (EndMark, EndMark)
        requires { HasPort self.now.tree at }
        ensures { result ≡ both_at app at self.now }
    {
        two_of(&self.tree, &self.ends, at, app)
    }

    // Other marks for both.
    fn put_both(&mut self, at: EgressPort, app: App, marks: (EndMark, EndMark))
        requires { HasPort self.old.tree at }
        ensures { self.new ≡ with_two app at marks self.old }
    {
        put_two(&self.tree, &mut self.ends, at, app, marks);
    }
}

// The marks of a port and of its peer.
fn two_of(tree: &Tree, ends: &Vec<Seq<EndMarks>>, at: EgressPort, app: App) -> (EndMark, EndMark)
    requires { HasPort tree.now at }
    ensures { result ≡ both_at app at (record { tree = tree.now; ends = ends.now.items }) }
{
    let peer = tree.peer(at);
    (mark_of(ends, at, app), mark_of(ends, peer, app))
}

// Other marks for a port and its peer.
fn put_two(
    tree: &Tree,
    ends: &mut Vec<Seq<EndMarks>>,
    at: EgressPort,
    app: App,
    marks: (EndMark, EndMark),
)
    requires port { HasPort tree.now at }
    requires kept { IsOfTree (record { tree = tree.now; ends = ends.old.items }) }
    ensures put { record { tree = tree.now; ends = ends.new.items }
        ≡ with_two app at marks (record { tree = tree.now; ends = ends.old.items }) }
    ensures kept { IsOfTree (record { tree = tree.now; ends = ends.new.items }) }
{
    tree.keeps();
    put_mark(ends, at, app, marks.0);
    put_mark(ends, tree.peer(at), app, marks.1);
}

// The near end has sent a PDU.
fn two_sent(leave_all: bool, marks: (EndMark, EndMark)) -> (EndMark, EndMark)
    requires { marks.0.flying < 2 ^ 100 }
    ensures { result ≡ both_sent leave_all marks }
{
    (marks.0.after_saying(), marks.1.after_hearing_of(leave_all))
}

// It has taken one.
fn two_took(leave_all: bool, marks: (EndMark, EndMark)) -> (EndMark, EndMark)
    ensures { result ≡ both_took leave_all marks }
{
    (marks.0.after_taking(leave_all), marks.1.with_fewer())
}

// One to it is lost.
fn two_lost(marks: (EndMark, EndMark)) -> (EndMark, EndMark)
    ensures { result ≡ both_lost marks }
{
    (marks.0.without_mark(), marks.1.with_fewer().without_mark())
}

// One to it is there twice.
fn two_copied(marks: (EndMark, EndMark)) -> (EndMark, EndMark)
    requires { marks.1.flying < 2 ^ 100 }
    ensures { result ≡ both_copied marks }
{
    (marks.0, marks.1.with_more())
}

// One to it is forged.
fn two_forged(marks: (EndMark, EndMark)) -> (EndMark, EndMark)
    requires { marks.1.flying < 2 ^ 100 }
    ensures { result ≡ both_forged marks }
{
    (marks.0.without_mark(), marks.1.with_more().without_mark())
}

impl EndMark {
    // It has sent a PDU.
    fn after_saying(self) -> EndMark
        requires { self.flying < 2 ^ 100 }
        ensures { result ≡ after_saying self }
    {
        EndMark {
            clear: false,
            assured: self.assured,
            flying: self.flying + 1,
        }
    }

    // Its neighbour has sent one.
    fn after_hearing_of(self, leave_all: bool) -> EndMark
        ensures { result ≡ after_hearing_of leave_all self }
    {
        let clear = self.clear || (leave_all && self.flying == 0);
        EndMark { clear, ..self }
    }

    // It has taken one.
    fn after_taking(self, leave_all: bool) -> EndMark
        ensures { result ≡ after_taking leave_all self }
    {
        let assured = self.assured || (leave_all && self.clear);
        EndMark { assured, ..self }
    }

    // One fewer is on its way.
    fn with_fewer(self) -> EndMark
        ensures { result ≡ with_fewer self }
    {
        let flying = self.flying.saturating_sub(1);
        EndMark { flying, ..self }
    }

    // One more is.
    fn with_more(self) -> EndMark
        requires { self.flying < 2 ^ 100 }
        ensures { result ≡ with_more self }
    {
        let flying = self.flying + 1;
        EndMark { flying, ..self }
    }

    // It has no mark.
    fn without_mark(self) -> EndMark
        ensures { result ≡ without_mark self }
    {
        EndMark {
            clear: false,
            assured: false,
            flying: self.flying,
        }
    }
}

// No marks.
fn new_mark() -> EndMark
    ensures { result ≡ no_mark }
{
    EndMark {
        clear: false,
        assured: false,
        flying: 0,
    }
}

// The marks of an end in an application.
fn mark_of_app(ends: EndMarks, app: App) -> EndMark
    ensures { result ≡ of_app app ends }
{
    match app {
        App::Mvrp => ends.vlans,
        App::Msrp => ends.streams,
    }
}

// An end with other marks in an application.
fn with_mark_of(ends: EndMarks, app: App, mark: EndMark) -> EndMarks
    ensures { result ≡ with_app app mark ends }
{
    match app {
        App::Mvrp => EndMarks {
            vlans: mark,
            ..ends
        },
        App::Msrp => EndMarks {
            streams: mark,
            ..ends
        },
    }
}

// The marks of a port in both applications, where there is one.
fn end_of(ends: &Vec<Seq<EndMarks>>, at: EgressPort) -> Option<EndMarks>
    ensures { result ≡ end_in at ends.now.items }
{
    let row = ends.get(usize::from(at.node.0).saturating_sub(1))?;
    row.as_slice()
        .get(usize::from(at.port.0).saturating_sub(1))
        .copied()
}

// Those in an application.
fn mark_of(ends: &Vec<Seq<EndMarks>>, at: EgressPort, app: App) -> EndMark
    ensures { result ≡ mark_in app at ends.now.items }
{
    match end_of(ends, at) {
        Some(end) => mark_of_app(end, app),
        None => new_mark(),
    }
}

// Other marks at a place of a row, where there is one.
fn put_in_row(row: &mut Vec<EndMarks>, at: usize, app: App, mark: EndMark)
    ensures { row.new.items ≡ row_with app at mark row.old.items }
{
    if at < row.len() {
        row[at] = with_mark_of(row[at], app, mark);
    }
}

// The same of a list.
fn put_in_list(alloc: Global, row: &mut Seq<EndMarks>, at: usize, app: App, mark: EndMark)
    ensures { row.new ≡ row_with app at mark row.old }
{
    let mut all = mem::replace(row, Seq::new(alloc)).into_vec();
    put_in_row(&mut all, at, app, mark);
    *row = Seq::from_vec(all);
}

// Other marks for a port, where there is one.
fn put_mark(ends: &mut Vec<Seq<EndMarks>>, at: EgressPort, app: App, mark: EndMark)
    ensures { ends.new.items ≡ ends_with app at mark ends.old.items }
{
    let alloc = *ends.allocator();
    let node = usize::from(at.node.0).saturating_sub(1);
    let port = usize::from(at.port.0).saturating_sub(1);
    if node < ends.len() {
        put_in_list(alloc, &mut ends[node], port, app, mark);
    }
}

// The ports of every node, without marks.
fn new_rows(alloc: Global, tree: &Tree) -> Result<Vec<Seq<EndMarks>>, NoMemory>
    ensures { IfOk result (λ rows. rows.items ≡ rows_from tree.now.links 1 tree.now.kinds) }
{
    tree.keeps();
    let count = tree.nodes();
    let mut rows = Vec::with_capacity(alloc, usize::from(count))?;
    for i in 0..count {
        rows.push(new_row(alloc, tree.ports(NodeNo(i + 1)))?)?;
    }
    Ok(rows)
}

// So many ports without marks.
fn new_row(alloc: Global, count: u8) -> Result<Seq<EndMarks>, NoMemory>
    ensures { IfOk result (λ row. row ≡ replicate count no_marks) }
{
    let end = EndMarks {
        vlans: new_mark(),
        streams: new_mark(),
    };
    Ok(Seq::from_vec(vec![in alloc; end; usize::from(count)]?))
}
