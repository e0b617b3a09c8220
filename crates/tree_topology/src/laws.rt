//! Laws of every accepted tree, over the definitions that the methods of `Tree` cite. Each is a
//! function that does nothing and whose clauses are the law.

ghost use Rattle.std.specs.Prelude.{◌≡◌, ◌≢◌, ◌↔◌, ◌+◌, ◌*◌, ◌≤◌, ℕ, List, [], Some, None, IsTrue, length};
ghost use Rattle.srp_base.specs.Firsts.{first_where};
ghost use Rattle.srp_base.specs.declared.numbers.EgressPort.{EgressPort};
ghost use Rattle.tree_topology.specs.declared.graph.TreeErr.{TreeErr};
ghost use Rattle.tree_topology.specs.declared.graph.TreeErr.TheVariants.{NoMemory};
ghost use Rattle.tree_topology.specs.Topology.{Topology, HasNode, HasPort, IsSound};
ghost use Rattle.tree_topology.specs.declared.graph.Link.{Link};
ghost use Rattle.tree_topology.specs.Graph.{IsNode, Connected, IsGraph, IsTree};
ghost use Rattle.tree_topology.specs.Ports.{neighbours, IsPortPath, LiesBehind};
ghost use Rattle.tree_topology.specs.Walk.{component, path_between, is_behind};
ghost use Rattle.tree_topology.specs.PortLaws.{HasPortLaws};
ghost use Rattle.tree_topology.specs.Refusal.{HasNoLoop, IsRefusal, refusal, has_unknown_end, is_self_link, is_second_link};

/// At most one refusal fits nodes and links, and none fits an accepted tree; want of memory aside.
pub fn one_refusal()
    ensures one { (tree : Topology) (e f : TreeErr) → e ≢ NoMemory → f ≢ NoMemory
        → IsRefusal tree.kinds tree.links e → IsRefusal tree.kinds tree.links f → e ≡ f }
    ensures none { (tree : Topology) (e : TreeErr) → IsSound tree
        → IsRefusal tree.kinds tree.links e → e ≡ NoMemory }
{}

/// `refusal` gives the one refusal that fits nodes and links, want of memory aside, and none
/// exactly for an accepted tree.
pub fn refusals()
    ensures gives { (tree : Topology) (e : TreeErr) → refusal tree.kinds tree.links ≡ Some e
        → IsRefusal tree.kinds tree.links e × (e ≢ NoMemory) }
    ensures fits { (tree : Topology) (e : TreeErr) → IsRefusal tree.kinds tree.links e
        → e ≢ NoMemory
        → refusal tree.kinds tree.links ≡ Some e }
    ensures accepted { (tree : Topology) → refusal tree.kinds tree.links ≡ None ↔ IsSound tree }
    ensures graph { (tree : Topology)
        → first_where (has_unknown_end (length tree.kinds)) [] tree.links ≡ None
        → first_where is_self_link [] tree.links ≡ None
        → first_where is_second_link [] tree.links ≡ None
        → IsGraph (length tree.kinds) tree.links }
{}

/// `path_between` is the egress ports of the one walk without a repeated node, and `is_behind`
/// tells whose walk begins with the port's link.
pub fn the_walk()
    ensures path { (tree : Topology) (x y : ℕ) (ports : List EgressPort) → IsSound tree
        → HasNode tree x → HasNode tree y
        → (IsPortPath tree.links x y ports ↔ (ports ≡ path_between tree.links x y)) }
    ensures behind { (tree : Topology) (p : EgressPort) (y : ℕ) → IsSound tree → HasPort tree p
        → HasNode tree y
        → (LiesBehind tree.links p y ↔ IsTrue (is_behind tree.links p y)) }
{}

/// What every accepted tree keeps of its ports: which there are, whose peers they are, what lies
/// behind them, how paths begin and end, and what is propagated from port to port. `HasPortLaws`
/// lists it.
pub fn ports()
    ensures { (tree : Topology) → IsSound tree → HasPortLaws tree }
{}

/// Nodes are in one component exactly where links connect them.
pub fn components()
    ensures { (links : List Link) (x y : ℕ) → (component links x
        ≡ component links y) ↔ Connected links x y }
{}

/// A graph has few links for its nodes: a node at most one for each node and one, all together at
/// most as many as pairs of such numbers.
pub fn few_links()
    ensures node { (count : ℕ) (links : List Link) (x : ℕ) → IsGraph count links
        → length (neighbours links x) ≤ count + 1 }
    ensures all { (count : ℕ) (links : List Link) → IsGraph count links
        → length links ≤ (count + 1) * (count + 1) }
{}

/// In a tree no link closes a loop, and all nodes are connected; and a graph of which this is true
/// is a tree.
pub fn one_component()
    ensures no_loop { (count : ℕ) (links : List Link) → IsTree count links → HasNoLoop links }
    ensures connected { (count : ℕ) (links : List Link) (x y : ℕ) → IsTree count links
        → IsNode count x → IsNode count y
        → Connected links x y }
    ensures tree { (count : ℕ) (links : List Link) → IsGraph count links → HasNoLoop links
        → ((x : ℕ) → IsNode count x → Connected links 1 x) → IsTree count links }
{}
