//! What an application of MRP states of its attributes, and the lists of messages that travel.

ghost use Rattle.std.specs.Prelude.{◌≡◌, ℕ, ◌+◌, ◌≤◌, true};
ghost use Rattle.std.specs.declared.cmp.Ordering.TheVariants.{Equal};

use srp_base::{MrpEvent, Seq};

/// An application of MRP (IEEE Std 802.1Q-2018, 10.2): its attributes' keys and contents, and how
/// many octets they take in a PDU.
pub trait MrpApp {
    /// What tells two attributes apart.
    type Key: Copy + Ord;

    /// What is declared and registered of an attribute besides its key.
    type Content: Copy + Eq;

    ghost base: { ℕ };

    ghost octets: { Self.Content → ℕ };

    /// The octets that a PDU takes besides its rows.
    fn base_octets() -> usize
        ensures { result ≡ base };

    /// The octets that a row with this content takes in a PDU.
    fn row_octets(content: &Self::Content) -> usize
        ensures { result ≡ octets content.now };

    // Keys that compare equal are one key, and equal contents are one content.
    ghost one_key: { (a b : Self.Key) → Self.Key.cmp a b ≡ Equal → a ≡ b };

    ghost one_content: { (a b : Self.Content) → Self.Content.eq a b ≡ true → a ≡ b };

    // The base alone, and with any row, is within the 1,500 octets of a PDU.
    ghost base_fits: { base ≤ 1500 };

    ghost row_fits: { (c : Self.Content) → base + octets c ≤ 1500 };
}

/// A list of messages of an application: whether it has LeaveAll, and the attribute events with
/// their keys and contents, in order (IEEE Std 802.1Q-2018, 10.8).
#[derive(Drop)]
pub struct Msgs<A: MrpApp> {
    pub leave_all: bool,
    pub events: Seq<(MrpEvent, A::Key, A::Content)>,
}
