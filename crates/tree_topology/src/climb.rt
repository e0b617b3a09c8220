//! A path in the making: from both of its ends up to where they meet.

ghost use Rattle.std.specs.Prelude.{◌≡◌, ◌≢◌, ◌+◌, ◌<◌, ◌≤◌, ◌++◌, length, reverse, OnOk, IfOk, slice_index};
ghost use Rattle.tree_topology.specs.Graph.{IsNode};
ghost use Rattle.tree_topology.specs.Walk.{path_between};
ghost use Rattle.tree_topology.specs.Routes.{ports_made};

use crate::routes::Routes;
use srp_base::{EgressPort, NoMemory, NodeNo, Seq};
use std::alloc::Global;

/// The ports of a path from its start up to `here`, and from `there` down to its end, the last
/// first.
#[derive(Drop)]
struct Climb {
    here: u16,
    there: u16,
    ups: Vec<EgressPort>,
    downs: Vec<EgressPort>,
}

impl Climb {
    /// Takes one step from the deeper end.
    fn step(&mut self, routes: &Routes) -> Result<(), NoMemory>
        requires here { IsNode (length routes.now.kinds) self.old.here }
        requires there { IsNode (length routes.now.kinds) self.old.there }
        requires apart { self.old.here ≢ self.old.there }
        ensures here { OnOk result (IsNode (length routes.now.kinds) self.new.here) }
        ensures there { OnOk result (IsNode (length routes.now.kinds) self.new.there) }
        ensures path { OnOk result (
            ports_made routes.now.links self.new.here self.new.there
            self.new.ups.items self.new.downs.items
            ≡ ports_made routes.now.links self.old.here self.old.there
            self.old.ups.items self.old.downs.items) }
        ensures nearer { OnOk result (
            slice_index routes.now.depths self.new.here
            + slice_index routes.now.depths self.new.there
            < slice_index routes.now.depths self.old.here
            + slice_index routes.now.depths self.old.there) }
    {
        if routes.depth(self.there) <= routes.depth(self.here) {
            self.go_up(routes)
        } else {
            self.come_down(routes)
        }
    }

    /// Goes up from the start's side.
    fn go_up(&mut self, routes: &Routes) -> Result<(), NoMemory>
        requires here { IsNode (length routes.now.kinds) self.old.here }
        requires there { IsNode (length routes.now.kinds) self.old.there }
        requires apart { self.old.here ≢ self.old.there }
        requires deeper { slice_index routes.now.depths self.old.there
            ≤ slice_index routes.now.depths self.old.here }
        requires not_first { self.old.here ≢ 1 }
        ensures here { OnOk result (IsNode (length routes.now.kinds) self.new.here) }
        ensures there { OnOk result (self.new.there ≡ self.old.there) }
        ensures path { OnOk result (
            ports_made routes.now.links self.new.here self.new.there
            self.new.ups.items self.new.downs.items
            ≡ ports_made routes.now.links self.old.here self.old.there
            self.old.ups.items self.old.downs.items) }
        ensures nearer { OnOk result (
            slice_index routes.now.depths self.new.here
            < slice_index routes.now.depths self.old.here) }
    {
        let next = routes.parent(self.here);
        let port = routes.port_to(self.here, next);
        self.ups.push(port)?;
        self.here = next;
        Ok(())
    }

    /// Goes up from the end's side.
    fn come_down(&mut self, routes: &Routes) -> Result<(), NoMemory>
        requires here { IsNode (length routes.now.kinds) self.old.here }
        requires there { IsNode (length routes.now.kinds) self.old.there }
        requires apart { self.old.here ≢ self.old.there }
        requires deeper { slice_index routes.now.depths self.old.here
            ≤ slice_index routes.now.depths self.old.there }
        requires not_first { self.old.there ≢ 1 }
        ensures here { OnOk result (self.new.here ≡ self.old.here) }
        ensures there { OnOk result (IsNode (length routes.now.kinds) self.new.there) }
        ensures path { OnOk result (
            ports_made routes.now.links self.new.here self.new.there
            self.new.ups.items self.new.downs.items
            ≡ ports_made routes.now.links self.old.here self.old.there
            self.old.ups.items self.old.downs.items) }
        ensures nearer { OnOk result (
            slice_index routes.now.depths self.new.there
            < slice_index routes.now.depths self.old.there) }
    {
        let next = routes.parent(self.there);
        let port = routes.port_to(next, self.there);
        self.downs.push(port)?;
        self.there = next;
        Ok(())
    }

    /// The whole path, once both sides have met.
    fn finish(self) -> Result<Seq<EgressPort>, NoMemory>
        ensures { IfOk result (λ ports. ports ≡ self.ups.items ++ reverse self.downs.items) }
    {
        let Climb {
            mut ups,
            mut downs,
            ..
        } = self;
        while let Some(port) = downs.pop() {
            ups.push(port)?;
        }
        Ok(Seq::from_vec(ups))
    }
}

/// The egress ports from one node to another, in order.
pub(crate) fn find_path(
    alloc: Global,
    routes: &Routes,
    from: NodeNo,
    to: NodeNo,
) -> Result<Seq<EgressPort>, NoMemory>
    requires from { IsNode (length routes.now.kinds) from.0 }
    requires to { IsNode (length routes.now.kinds) to.0 }
    ensures { IfOk result (λ ports. ports ≡ path_between routes.now.links from.0 to.0) }
{
    let mut climb = Climb {
        here: from.0,
        there: to.0,
        ups: Vec::new(alloc),
        downs: Vec::new(alloc),
    };
    while climb.here != climb.there {
        climb.step(routes)?;
    }
    climb.finish()
}
