//! Bounds of what comes to a port, and the groups that keep them.

ghost use Rattle.std.specs.Prelude.{◌≡◌, ℕ, ◌+◌, ◌*◌, ◌≤◌, ◌↔◌, min, IsTrue};
ghost use Rattle.delay_bound.specs.Bounds.{given_in, least_in, bases_with};

use srp_base::Seq;

/// A bound of what comes to a port: over each span of so many ps no more than the base and what the
/// slope gives.
#[derive(Clone, Copy, PartialEq, Eq)]
pub struct Bound {
    /// What may come at once, in bits × 10^12.
    pub base: u128,
    /// What may come in time, in bit/s, which is bits × 10^12 a ps.
    pub slope: u64,
}

/// The bounds of what comes to a port from one origin: the station itself, or the port of one link
/// that sends into its node. Each of them holds.
#[derive(Clone, PartialEq, Eq, Drop)]
pub struct Group {
    /// The bound of its streams by what their Talkers may send.
    pub first: Bound,
    /// Those of the port that they come by.
    pub more: Seq<Bound>,
}

impl Bound {
    /// Whether this bound is no higher than a flatter one over a span in ps.
    fn is_below(&self, flat: &Bound, span: u128) -> bool
        requires { flat.now.slope ≤ self.now.slope }
        ensures { IsTrue result ↔ (given_in span self.now ≤ given_in span flat.now) }
    {
        if flat.base < self.base {
            return false;
        }
        is_no_more(
            u128::from(self.slope - flat.slope),
            span,
            flat.base - self.base,
        )
    }

    /// The lower of two bounds over a span in ps.
    fn lower(&self, other: &Bound, span: u128) -> Bound
        ensures least { given_in span result
            ≡ min (given_in span other.now) (given_in span self.now) }
        ensures small { result.base ≤ self.now.base + other.now.base }
    {
        if self.slope <= other.slope {
            if other.is_below(self, span) {
                *other
            } else {
                *self
            }
        } else {
            if self.is_below(other, span) {
                *self
            } else {
                *other
            }
        }
    }
}

/// The lowest of a bound and more of them over a span in ps.
pub(crate) fn lowest(first: Bound, more: &[Bound], span: u128) -> Bound
    ensures least { given_in span result ≡ least_in span first more.now }
    ensures small { result.base ≤ bases_with first more.now }
{
    let mut lowest = first;
    for bound in more {
        lowest = lowest.lower(bound, span);
    }
    lowest
}

/// Whether a slope gives no more than so much over a span.
pub(crate) fn is_no_more(slope: u128, span: u128, most: u128) -> bool
    ensures { IsTrue result ↔ (slope * span ≤ most) }
{
    slope == 0 || span <= most / slope
}
