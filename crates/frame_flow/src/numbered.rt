//! Lists whose elements ascend by a number of theirs, and what is found in them: at once where the
//! caller's guess is right, and else by halves.

ghost use Rattle.std.specs.Prelude.{◌≡◌, ◌-◌, ◌<◌, ◌≤◌, ◌==◌, ◌↔◌, HoldsAt, IsTrue, find, length, option_map};
ghost use Rattle.std.specs.{List.AllWithin, List.Sorted.IsNonDecreasingBy};

use crate::frame::Frame;
use credit_shaper::Departure;
use srp_base::PortChange;

/// What has a number, by which lists of it ascend.
pub(crate) trait Numbered {
    ghost use Rattle.std.specs.Prelude.{ℕ};

    /// Its number, as contracts see it.
    ghost number: { Self → ℕ };

    /// Its number.
    fn number(&self) -> u64
        ensures { result ≡ number self.now };
}

impl Numbered for Frame {
    ghost number = { λ f. f.number };

    fn number(&self) -> u64 {
        u64::from(self.number)
    }
}

impl Numbered for Departure {
    ghost number = { λ d. d.frame };

    fn number(&self) -> u64 {
        u64::from(self.frame)
    }
}

impl Numbered for &PortChange {
    ghost number = { λ c. c.now.tick };

    fn number(&self) -> u64 {
        self.tick
    }
}

/// The first element of a number.
pub(crate) fn find_first<T: Numbered>(items: &[T], number: u64, guess: usize) -> Option<&T>
    requires { IsNonDecreasingBy T.number items.now }
    ensures { option_map (λ x. x.now) result ≡ find (λ x. T.number x == number) items.now }
{
    let at = first_from(items, number, guess);
    if is_at(items, number, at) {
        Some(&items[at])
    } else {
        None
    }
}

/// How many elements have a lower number.
fn first_from<T: Numbered>(items: &[T], number: u64, guess: usize) -> usize
    requires { IsNonDecreasingBy T.number items.now }
    ensures within { result ≤ length items.now }
    ensures before { AllWithin (λ x. T.number x < number) items.now 0 result }
    ensures after { AllWithin (λ x. number ≤ T.number x) items.now result (length items.now) }
{
    if begins_at(items, number, guess) {
        guess
    } else {
        count_below(items, number)
    }
}

/// Whether the elements of a number begin at an index.
fn begins_at<T: Numbered>(items: &[T], number: u64, at: usize) -> bool
    ensures here { IsTrue result
        → (at < length items.now) × HoldsAt (λ x. T.number x ≡ number) items.now at }
    ensures before { IsTrue result → 0 < at
        → HoldsAt (λ x. T.number x < number) items.now (at - 1) }
{
    is_at(items, number, at) && (at == 0 || is_below(items, number, at - 1))
}

/// Whether the element of an index has a number.
fn is_at<T: Numbered>(items: &[T], number: u64, at: usize) -> bool
    ensures { IsTrue result
        ↔ (at < length items.now) × HoldsAt (λ x. T.number x ≡ number) items.now at }
{
    match items.get(at) {
        Some(x) => x.number() == number,
        None => false,
    }
}

/// Whether the element of an index has a lower number.
fn is_below<T: Numbered>(items: &[T], number: u64, at: usize) -> bool
    ensures { IsTrue result → HoldsAt (λ x. T.number x < number) items.now at }
{
    match items.get(at) {
        Some(x) => x.number() < number,
        None => false,
    }
}

/// How many elements have a lower number, by halves.
pub(crate) fn count_below<T: Numbered>(items: &[T], number: u64) -> usize
    requires { IsNonDecreasingBy T.number items.now }
    ensures within { result ≤ length items.now }
    ensures before { AllWithin (λ x. T.number x < number) items.now 0 result }
    ensures after { AllWithin (λ x. number ≤ T.number x) items.now result (length items.now) }
{
    items.partition_point(|x| x.number() < number)
}
