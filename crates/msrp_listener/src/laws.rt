//! What merging comes to, over every list of ports: laws over the definitions that the contracts
//! cite. Each is a function that does nothing; calling it brings the law to a proof.

ghost use Rattle.std.specs.Prelude.{◌≡◌, ◌≢◌, ◌↔◌, List, [], Some, None, IsPermutation};
ghost use Rattle.srp_base.specs.declared.streams.ListenerKind.{ListenerKind};
ghost use Rattle.srp_base.specs.declared.streams.ListenerKind.TheVariants.{AskingFailed, Ready, ReadyFailed};
ghost use Rattle.msrp_listener.specs.declared.port_listener.PortListener.{PortListener};
ghost use Rattle.msrp_listener.specs.Merging.{AreAskingFailed, AreReady, listener_out, merge_of};

/// Kinds are merged in any order and grouping, and a kind with itself stays.
pub fn merging_has_no_order()
    ensures commutative { (x y : ListenerKind) → merge_of x y ≡ merge_of y x }
    ensures associative { (x y z : ListenerKind)
        → merge_of (merge_of x y) z ≡ merge_of x (merge_of y z) }
    ensures idempotent { (x : ListenerKind) → merge_of x x ≡ x }
{}

/// What is declared doesn't depend on the order of the ports.
pub fn ports_have_no_order()
    ensures { (rows others : List PortListener) → IsPermutation rows others
        → listener_out rows ≡ listener_out others }
{}

/// Nothing is declared exactly where no port has a Listener.
pub fn none_without_listeners()
    ensures { (rows : List PortListener) → (listener_out rows ≡ None) ↔ (rows ≡ []) }
{}

/// Ready is declared exactly where some port has a Listener, and each has Ready registered and the
/// stream booked.
pub fn ready_where_all_ports_are()
    ensures { (rows : List PortListener)
        → (listener_out rows ≡ Some Ready) ↔ ((rows ≢ []) × AreReady rows) }
{}

/// AskingFailed is declared exactly where some port has a Listener, and none can have the stream.
pub fn asking_failed_where_no_port_can()
    ensures { (rows : List PortListener)
        → (listener_out rows ≡ Some AskingFailed) ↔ ((rows ≢ []) × AreAskingFailed rows) }
{}

/// ReadyFailed is declared exactly in between: some port has a Listener, not all are Ready and
/// booked, and not all count as AskingFailed.
pub fn ready_failed_in_between()
    ensures { (rows : List PortListener)
        → (listener_out rows ≡ Some ReadyFailed)
        ↔ ((rows ≢ []) × ¬ AreReady rows × ¬ AreAskingFailed rows) }
{}
