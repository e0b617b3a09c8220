//! What holds of every history of a node's steps.

ghost use Rattle.std.specs.Prelude.{◌≡◌, true};
ghost use Rattle.node_core.specs.State.{NodeState, ports_of};
ghost use Rattle.turn_lock.specs.History.{last_state};
ghost use Rattle.bridge_book.specs.declared.shared.PortAsk.{PortAsk};
ghost use Rattle.bridge_book.specs.Steps.{is_port, node_does, port_does};
ghost use Rattle.bridge_book.specs.Hub.{Steps};

use node_core::laws::steps_keep_what_a_node_is;

/// A history changes no number of ports, so a step of a link port is the node's own, wherever it
/// stands in one.
pub fn ports_make_their_steps()
    ensures ports { (node : NodeState) (history : Steps)
        → ports_of (last_state node_does node history) ≡ ports_of node }
    ensures step { (node : NodeState) (history : Steps) (ask : PortAsk)
        → is_port ask.port (ports_of node) ≡ true
        → node_does (last_state node_does node history) ask
        ≡ port_does (last_state node_does node history) ask }
{
    steps_keep_what_a_node_is();
}
