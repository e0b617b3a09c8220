//! Laws of what a file's events name. Each is a function that does nothing; calling it brings the
//! law to a proof.

ghost use Rattle.std.specs.Prelude.{◌≤◌, List, ℕ, IfSome};
ghost use Rattle.toml.specs.Data.{Members};
ghost use Rattle.topology_file.specs.declared.entries.LinkEntry.{LinkEntry};
ghost use Rattle.topology_file.specs.declared.entries.NodeEntry.{NodeEntry};
ghost use Rattle.topology_file.specs.Entries.{station_named};
ghost use Rattle.topology_file.specs.Kinds.{AreJoinedNumbers, IsStationNumber, pdu_at};

/// The station of a name is a station, and the two nodes of an event on a link are joined by a
/// link, with an index of at most 65,535.
pub fn what_events_name_is_known()
    ensures station { (nodes : List NodeEntry) (name : List ℕ)
        → IfSome (station_named nodes name) (λ x. IsStationNumber nodes x.0) }
    ensures pdu { (nodes : List NodeEntry) (links : List LinkEntry) (ms : Members)
        → IfSome (pdu_at nodes links ms) (λ p.
        IfSome p.0 (λ e. AreJoinedNumbers nodes links e.0.0 e.1.0) × (p.1 ≤ 65535)) }
{}
