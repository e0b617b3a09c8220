//! Two kinds of Listener as one.

ghost use Rattle.std.specs.Prelude.{◌≡◌};
ghost use Rattle.msrp_listener.specs.Merging.{merge_of};

use srp_base::ListenerKind;

/// What the Listeners behind two ports come to together (IEEE Std 802.1Q-2018, 35.2.4.4): Ready
/// where both are, AskingFailed where both are, else ReadyFailed.
pub fn merge(x: ListenerKind, y: ListenerKind) -> ListenerKind
    ensures { result ≡ merge_of x y }
{
    match (x, y) {
        (ListenerKind::Ready, ListenerKind::Ready) => ListenerKind::Ready,
        (ListenerKind::AskingFailed, ListenerKind::AskingFailed) => ListenerKind::AskingFailed,
        _ => ListenerKind::ReadyFailed,
    }
}
