//! Which class a Talker asks for, and whether a port can serve it at all.

ghost use Rattle.std.specs.Prelude.{◌≡◌};
ghost use Rattle.msrp_talker.specs.TalkerOut.{check_of, class_of_priority};

use srp_base::{Class, Talker};

/// The SR class of a priority: A for 3, B for 2, None for any other (IEEE Std 802.1Q-2018, 34.5,
/// the default priorities of two classes).
pub fn class_of(priority: u8) -> Option<Class>
    ensures { result ≡ class_of_priority priority }
{
    match priority {
        3 => Some(Class::A),
        2 => Some(Class::B),
        _ => None,
    }
}

/// Why no port can serve what the Talker asks for: the failure code 13 where its priority has no SR
/// class, else 14 where its MaxFrameSize is above 1,500 octets (IEEE Std 802.1Q-2018, 35.2.2.8.7);
/// else None.
pub fn check(talker: &Talker) -> Option<u8>
    ensures { result ≡ check_of talker.now }
{
    if class_of(talker.priority.get()).is_none() {
        Some(13)
    } else if talker.max_frame > 1_500 {
        Some(14)
    } else {
        None
    }
}
