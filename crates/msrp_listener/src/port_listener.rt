//! A port with a Listener registered, and what all such ports come to.

ghost use Rattle.std.specs.Prelude.{◌≡◌, fold, map};
ghost use Rattle.msrp_listener.specs.Merging.{counted_kind, listener_out as listener_out_spec, merge_of};

use crate::merging::merge;
use srp_base::ListenerKind;

/// A port with a Listener of a stream registered.
#[derive(Clone, Copy, PartialEq, Eq)]
pub struct PortListener {
    /// What is registered.
    pub kind: ListenerKind,
    /// Whether the port has the stream booked, so that it forwards it.
    pub booked: bool,
}

/// What the Talker's port declares for the Listeners at all other ports (IEEE Std 802.1Q-2018,
/// 35.2.4.4), each row one such port, in any order; None exactly where there are no rows. A row
/// that isn't booked counts as AskingFailed, and the counted kinds are merged.
pub fn listener_out(rows: &[PortListener]) -> Option<ListenerKind>
    ensures { result ≡ listener_out_spec rows.now }
{
    match rows {
        [] => None,
        [first, rest @ ..] => Some(merged_with(counted_kind(first), rest)),
    }
}

/// A kind merged with what the rows count as.
fn merged_with(kind: ListenerKind, rows: &[PortListener]) -> ListenerKind
    ensures { result ≡ fold merge_of kind (map counted_kind rows.now) }
{
    rows.iter()
        .map(|row| counted_kind(row))
        .fold(kind, |all, one| merge(all, one))
}

/// What a row counts as.
fn counted_kind(row: &PortListener) -> ListenerKind
    ensures { result ≡ counted_kind row.now }
{
    if row.booked {
        row.kind
    } else {
        ListenerKind::AskingFailed
    }
}
