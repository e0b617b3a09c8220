//! What the lines of a journal tell, and how each ends: laws over what is printed. Each is a
//! function that does nothing; calling it brings the law to a proof.

ghost use Rattle.std.specs.Prelude.{◌≡◌, ◌++◌, ℕ, Bool, List};
ghost use Rattle.srp_base.specs.declared.{numbers.EgressPort.EgressPort, numbers.NodeNo.NodeNo};
ghost use Rattle.tree_topology.specs.Topology.{HasPort};
ghost use Rattle.topology_file.specs.{Plan.Plan, Scenario.KeepsRules};
ghost use Rattle.report_words.specs.Names.{port_name};
ghost use Rattle.node_core.specs.declared.types.NodeStep.{NodeStep};
ghost use Rattle.journal_lines.specs.Lines.{event_line, place_text, line_at, IsLine};

use tree_topology::laws::ports;

/// Two lines that begin with a tick and a port of one node are of one port, whatever follows: no
/// name has a space in it, and the ports of a node lead to different nodes, which have different
/// names.
pub fn a_line_tells_its_port()
    ensures { (plan : Plan) (t : ℕ) (p q : EgressPort) (a b : List ℕ) → KeepsRules plan
        → HasPort plan.tree p → HasPort plan.tree q → p.node ≡ q.node
        → place_text t (port_name plan.nodes plan.tree.links p) ++ a
        ≡ place_text t (port_name plan.nodes plan.tree.links q) ++ b → p ≡ q }
{
    ports();
}

/// Each line ends with its only line feed.
pub fn a_line_ends_with_its_line_feed()
    ensures event { (t entry : ℕ) (missed : Bool) → IsLine (event_line t entry missed) }
    ensures step { (plan : Plan) (t : ℕ) (n : NodeNo) (st : NodeStep) → KeepsRules plan
        → HasPort plan.tree (record { node = n; port = st.port })
        → IsLine (line_at plan t n st) }
{
    ports();
}
