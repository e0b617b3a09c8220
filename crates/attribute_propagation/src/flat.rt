//! The flat rule.

ghost use Rattle.std.specs.Prelude.{◌≡◌, ◌↔◌, take, drop, IsTrue};
ghost use Rattle.attribute_propagation.specs.Flat.{is_any, elsewhere, IsElsewhere};

/// Whether a place other than `port` is true: a port declares what another port, the application
/// side included, has registered (IEEE Std 802.1Q-2018, 11.2). The places count from 0, the
/// application side.
pub fn flat_declares(registered: &[bool], port: usize) -> bool
    ensures value { result ≡ elsewhere port registered.now }
    ensures meaning { IsTrue result ↔ IsElsewhere port registered.now }
{
    is_any_before(registered, port) || is_any_after(registered, port)
}

// Whether a place before the port is true.
fn is_any_before(registered: &[bool], port: usize) -> bool
    ensures { result ≡ is_any (take port registered.now) }
{
    registered
        .iter()
        .take(port)
        .any(|is_registered| *is_registered)
}

// Whether a place after the port is true.
fn is_any_after(registered: &[bool], port: usize) -> bool
    ensures { result ≡ is_any (drop 1 (drop port registered.now)) }
{
    registered
        .iter()
        .skip(port)
        .skip(1)
        .any(|is_registered| *is_registered)
}
