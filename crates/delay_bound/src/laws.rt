//! What holds of bounds by numbers, whatever comes to the ports. Each is a function that does
//! nothing; calling it brings the law to a proof.

ghost use Rattle.std.specs.Prelude.{◌≡◌, ℕ, ◌+◌, ◌-◌, ◌*◌, ◌<◌, ◌≤◌, Bool, true, List, Option, All, Any, sum_by, filter};
ghost use Rattle.delay_bound.specs.declared.bound.Group.{Group};
ghost use Rattle.delay_bound.specs.declared.stream.SentFrame.{SentFrame};
ghost use Rattle.delay_bound.specs.Bounds.{second, brought_in, IsPeak};
ghost use Rattle.delay_bound.specs.Frames.{Keep, ComeOn};
ghost use Rattle.delay_bound.specs.Waits.{wait_of};
ghost use Rattle.delay_bound.specs.Windows.{bits_within, IsBoundBy, bits_from, ComesFrom, AreGroups, IsOwed};

/// A frame waits no longer than `wait`, and a longer one less by at least what it is longer than
/// the least.
pub fn a_wait_is_within()
    ensures { (groups : List Group) (rate bit slope idle height least own ahead s t u : ℕ)
        → IsPeak groups slope height → rate * bit ≡ second → 0 < slope → slope ≤ rate → least ≤ own
        → IsOwed groups rate bit slope idle own ahead s t u
        → (u - t) + own ≤ wait_of rate slope idle height least + least }
{}

/// What keeps each bound of its group brings in, over a window, no more than the groups do.
pub fn groups_bring_no_more<F>()
    ensures { (bits : F → ℕ) (at : F → Option ℕ) (tests : List (F → Bool))
        (groups : List Group) (fs : List F) (from to : ℕ) → AreGroups bits at fs tests groups
        → from ≤ to
        → sum_by (λ test. bits_within bits at from to (filter test fs)) tests * second
        ≤ brought_in groups (to - from) }
{}

/// Where each of some things passes the test of a group, what comes in a window is at most what
/// comes of the groups together.
pub fn each_comes_in_a_group<F>()
    ensures { (bits : F → ℕ) (at : F → Option ℕ) (tests : List (F → Bool)) (fs : List F)
        (from to : ℕ)
        → All (λ f. Any (λ test. test f ≡ true) tests) fs
        → bits_within bits at from to fs
        ≤ sum_by (λ test. bits_within bits at from to (filter test fs)) tests }
{}

/// Frames that keep a base and a slope keep them at a further place, with what the slope gives in
/// the time by which two of them may have moved towards each other.
pub fn a_stream_is_handed_on()
    ensures { (base slope least gap : ℕ) (xs ys : List SentFrame) → Keep base slope xs
        → ComeOn least gap xs ys
        → Keep (base + slope * gap) slope ys }
{}

/// Frames that keep a base and a slope by pairs keep them in each window.
pub fn a_stream_brings_no_more()
    ensures { (base slope from to : ℕ) (xs : List SentFrame) → Keep base slope xs → from ≤ to
        → bits_from from to xs * second ≤ base + slope * (to - from) }
{}

/// The same by windows, in whatever order things come: a bound holds at a further place, with what
/// the slope gives in the time by which two of them may have moved towards each other.
pub fn a_bound_is_handed_on<F>()
    ensures { (bits : F → ℕ) (here there : F → Option ℕ) (base slope least gap : ℕ) (fs : List F)
        → IsBoundBy bits here base slope fs → All (λ f. ComesFrom least gap (here f) (there f)) fs
        → IsBoundBy bits there (base + slope * gap) slope fs }
{}
