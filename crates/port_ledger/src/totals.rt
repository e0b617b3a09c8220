//! What a ledger keeps beside its entries, so that neither the clock nor who asks for a slope goes
//! over them.

ghost use Rattle.std.specs.Prelude.{◌≡◌, ◌+◌, ◌<◌, ◌≤◌, ◌^◌, length};
ghost use Rattle.srp_base.specs.declared.bandwidth.Class.TheVariants.{A, B};
ghost use Rattle.port_ledger.specs.Book.{booked_slope, is_since};
ghost use Rattle.port_ledger.specs.Totals.{later_totals, new_within, slope_of, slope_within, together, totals_of};

use srp_base::{Class, Cs};
use stream_importance::Entry;

/// The booked slopes of each class together, in bit/s, and how many bookings are of the ledger's
/// moment.
#[derive(Clone, Copy)]
pub(crate) struct Totals {
    pub class_a: u64,
    pub class_b: u64,
    pub new_count: usize,
}

impl Totals {
    /// The totals where there is no entry.
    pub(crate) fn empty() -> Totals
        ensures { result ≡ record { class_a = 0; class_b = 0; new_count = 0 } }
    {
        Totals {
            class_a: 0,
            class_b: 0,
            new_count: 0,
        }
    }

    /// The slopes of one class.
    pub(crate) fn slope(self, class: Class) -> u128
        ensures { result ≡ slope_of self class }
    {
        match class {
            Class::A => u128::from(self.class_a),
            Class::B => u128::from(self.class_b),
        }
    }

    /// The totals where the moment alone has moved, or not.
    pub(crate) fn later(self, moved: bool) -> Totals
        ensures { result ≡ later_totals moved self }
    {
        Totals {
            new_count: if moved { 0 } else { self.new_count },
            ..self
        }
    }

    /// What both classes take, in bit/s.
    pub(crate) fn taken(&self) -> u64
        requires { self.now.class_a + self.now.class_b < 2 ^ 64 }
        ensures { result ≡ self.now.class_a + self.now.class_b }
    {
        self.class_a + self.class_b
    }

    /// These totals and those of further entries together.
    pub(crate) fn plus(self, more: Totals) -> Totals
        requires class_a { self.class_a + more.class_a < 2 ^ 64 }
        requires class_b { self.class_b + more.class_b < 2 ^ 64 }
        requires new_count { self.new_count + more.new_count < 2 ^ 64 }
        ensures { result ≡ together self more }
    {
        Totals {
            class_a: self.class_a + more.class_a,
            class_b: self.class_b + more.class_b,
            new_count: self.new_count + more.new_count,
        }
    }

    /// These totals without those of a part of the entries.
    pub(crate) fn less(self, part: Totals) -> Totals
        requires class_a { part.class_a ≤ self.class_a }
        requires class_b { part.class_b ≤ self.class_b }
        requires new_count { part.new_count ≤ self.new_count }
        ensures { together result part ≡ self }
    {
        Totals {
            class_a: self.class_a - part.class_a,
            class_b: self.class_b - part.class_b,
            new_count: self.new_count - part.new_count,
        }
    }
}

/// The totals of these entries at a moment: one walk over them.
pub(crate) fn totals_of(entries: &[Entry], moment: Cs) -> Totals
    requires { booked_slope entries.now A + booked_slope entries.now B < 2 ^ 64 }
    ensures { result ≡ totals_of moment.0 entries.now }
{
    let mut class_a: u64 = 0;
    let mut class_b: u64 = 0;
    let mut new_count = 0;
    for x in entries {
        class_a += slope_within(x, Class::A);
        class_b += slope_within(x, Class::B);
        new_count += new_within(x, moment);
    }
    Totals {
        class_a,
        class_b,
        new_count,
    }
}

fn slope_within(x: &Entry, class: Class) -> u64
    ensures { result ≡ slope_within x.now class }
{
    if x.since.is_some() && x.want.class == class {
        x.want.slope
    } else {
        0
    }
}

fn new_within(x: &Entry, moment: Cs) -> usize
    ensures { result ≡ new_within moment.0 x.now }
{
    if is_since(x.since, moment) { 1 } else { 0 }
}

fn is_since(since: Option<Cs>, moment: Cs) -> bool
    ensures { result ≡ is_since moment.0 since }
{
    match since {
        Some(since) => since == moment,
        None => false,
    }
}
