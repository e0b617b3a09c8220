//! What a port sent and discarded.

ghost use Rattle.std.specs.Prelude.{◌≡◌};
ghost use Rattle.report_words.specs.Tally.{with_discarded, with_sent, with_tally, zero_tally};

/// What a port sent and discarded in a run. Each count stands still at the end of its type.
#[derive(Clone, Copy, PartialEq, Eq)]
pub struct Tally {
    /// The PDUs that it sent.
    pub sent: u64,
    /// Their octets, all together.
    pub octets: u64,
    /// The malformed PDUs that it took from its inbox.
    pub discarded: u64,
}

impl Tally {
    /// Nothing was sent or discarded.
    pub fn zero() -> Tally
        ensures { result ≡ zero_tally }
    {
        Tally {
            sent: 0,
            octets: 0,
            discarded: 0,
        }
    }

    /// The tally with a PDU more that was sent, of so many octets.
    pub fn with_sent(self, octets: u32) -> Tally
        ensures { result ≡ with_sent self octets }
    {
        Tally {
            sent: self.sent.saturating_add(1),
            octets: self.octets.saturating_add(u64::from(octets)),
            discarded: self.discarded,
        }
    }

    /// The tally with a PDU more that was discarded.
    pub fn with_discarded(self) -> Tally
        ensures { result ≡ with_discarded self }
    {
        Tally {
            sent: self.sent,
            octets: self.octets,
            discarded: self.discarded.saturating_add(1),
        }
    }

    /// The tally with another one, of other steps.
    pub fn with(self, more: Tally) -> Tally
        ensures { result ≡ with_tally self more }
    {
        Tally {
            sent: self.sent.saturating_add(more.sent),
            octets: self.octets.saturating_add(more.octets),
            discarded: self.discarded.saturating_add(more.discarded),
        }
    }
}
