//! The StreamIDs and the addresses of streams that a plan doesn't number.

ghost use Rattle.std.specs.Prelude.{◌≡◌, ◌+◌, ◌<◌, ◌≤◌, ◌^◌, ◌∷◌, ◌++◌, [], ℕ, Bool, List, Option, if◌then◌else◌, drop, filter, map, length, option_map, IfOk, OnOk};
ghost use Rattle.std.proofs.Common.{get_or};
ghost use Rattle.plan_file.specs.Events.{numbers_from};
ghost use Rattle.plan_file.specs.Numbers.{is_number as is_number_spec, is_given as is_given_spec, free_numbers as free_numbers_spec, filled as filled_spec, numbered as numbered_spec, given_ids as given_ids_spec, given_dests as given_dests_spec, ids_of as ids_of_spec, dests_of as dests_of_spec};

use crate::entries::PlanStream;
use srp_base::NoMemory;
use std::alloc::Global;

/// Those of so many numbers, from one on, that a test passes.
pub(crate) fn numbers_where<F: Fn(u64) -> bool>(
    alloc: Global,
    from: u64,
    count: u64,
    test: F,
) -> Result<Vec<u64>, NoMemory>
    requires callable { F.IsAlwaysCallable test }
    requires room { from + count < 2 ^ 64 }
    ensures { (said : ℕ → Bool) → ((n : ℕ) (r : Bool) → F.post test n r → r ≡ said n)
        → IfOk result (λ v. v.items ≡ filter said (numbers_from from count)) }
{
    let mut found = Vec::new(alloc);
    for i in 0..count {
        let passes = test(from + i);
        put_where(&mut found, from + i, passes)?;
    }
    Ok(found)
}

// A number that passes.
fn put_where(found: &mut Vec<u64>, n: u64, passes: bool) -> Result<(), NoMemory>
    ensures { OnOk result (found.new.items
        ≡ found.old.items ++ (if passes then n ∷ [] else [])) }
{
    if passes {
        found.push(n)?;
    }
    Ok(())
}

fn is_number(n: u64, given: Option<u64>) -> bool
    ensures { result ≡ is_number_spec n given }
{
    match given {
        Some(m) => m == n,
        None => false,
    }
}

fn is_given(given: &[Option<u64>], n: u64) -> bool
    ensures { result ≡ is_given_spec given.now n }
{
    given.iter().any(|m| is_number(n, *m))
}

/// The lowest numbers from one on that aren't given.
fn free_numbers(alloc: Global, from: u64, given: &[Option<u64>]) -> Result<Vec<u64>, NoMemory>
    requires { from + 256 < 2 ^ 64 }
    ensures { IfOk result (λ v. v.items ≡ free_numbers_spec from given.now) }
{
    numbers_where(alloc, from, 256, |n| !is_given(given, n))
}

fn number_at(free: &[u64], place: usize) -> u64
    ensures { result ≡ get_or free.now place 0 }
{
    match free.get(place) {
        Some(n) => *n,
        None => 0,
    }
}

/// Each number that is given, and in place of one that is missing the next free one.
fn filled(alloc: Global, free: &[u64], given: &[Option<u64>]) -> Result<Vec<u64>, NoMemory>
    ensures { IfOk result (λ v. v.items ≡ filled_spec free.now given.now) }
{
    let mut numbers = Vec::with_capacity(alloc, given.len())?;
    let mut place = 0;
    for i in 0..given.len() {
        let (n, next) = next_number(given[i], free, place);
        numbers.push(n)?;
        place = next;
    }
    Ok(numbers)
}

/// A number that is given, or the free one at a place; and the place of the next free one.
#[tactic(auto, using(crate::proofs::NumberLemmas::filled_missing))]
fn next_number(number: Option<u64>, free: &[u64], place: usize) -> (u64, usize)
    requires { place < 2 ^ 63 }
    ensures number { (rest : List (Option ℕ)) → filled_spec (drop place free.now) (number ∷ rest)
        ≡ result.0 ∷ filled_spec (drop result.1 free.now) rest }
    ensures place { result.1 ≤ place + 1 }
{
    match number {
        Some(n) => (n, place),
        None => (number_at(free, place), place + 1),
    }
}

/// Each number that is given, and the lowest free ones from one on.
#[tactic(auto, using(crate::proofs::NumberLemmas::length_filled))]
fn numbered(alloc: Global, from: u64, given: &[Option<u64>]) -> Result<Vec<u64>, NoMemory>
    requires { from + 256 < 2 ^ 64 }
    ensures numbers { IfOk result (λ v. v.items ≡ numbered_spec from given.now) }
    ensures one_each { IfOk result (λ v. length v.items ≡ length given.now) }
{
    let free = free_numbers(alloc, from, given)?;
    filled(alloc, &free, given)
}

fn given_id(stream: &PlanStream) -> Option<u64>
    ensures { result ≡ option_map (λ id. id.0) stream.now.values.id }
{
    match stream.values.id {
        Some(id) => Some(id.0),
        None => None,
    }
}

fn given_dest(stream: &PlanStream) -> Option<u64>
    ensures { result ≡ stream.now.values.dest }
{
    match stream.values.dest {
        Some(dest) => Some(dest.get()),
        None => None,
    }
}

fn given_ids(alloc: Global, streams: &[PlanStream]) -> Result<Vec<Option<u64>>, NoMemory>
    ensures given { IfOk result (λ v. v.items ≡ given_ids_spec streams.now) }
    ensures one_each { IfOk result (λ v. length v.items ≡ length streams.now) }
{
    Ok(
        streams
            .iter()
            .map(|stream| given_id(stream))
            .collect(alloc)?,
    )
}

fn given_dests(alloc: Global, streams: &[PlanStream]) -> Result<Vec<Option<u64>>, NoMemory>
    ensures given { IfOk result (λ v. v.items ≡ given_dests_spec streams.now) }
    ensures one_each { IfOk result (λ v. length v.items ≡ length streams.now) }
{
    Ok(
        streams
            .iter()
            .map(|stream| given_dest(stream))
            .collect(alloc)?,
    )
}

/// The first StreamID for a stream without one.
const FIRST_ID: u64 = 0x0200_0000_0001_0001;

/// The first destination address for a stream without one.
const FIRST_DEST: u64 = 0x91e0_f000_0001;

/// The StreamIDs of the streams.
pub(crate) fn ids_of(alloc: Global, streams: &[PlanStream]) -> Result<Vec<u64>, NoMemory>
    ensures numbers { IfOk result (λ v. v.items ≡ ids_of_spec streams.now) }
    ensures one_each { IfOk result (λ v. length v.items ≡ length streams.now) }
{
    let given = given_ids(alloc, streams)?;
    numbered(alloc, FIRST_ID, &given)
}

/// The destination addresses of the streams.
pub(crate) fn dests_of(alloc: Global, streams: &[PlanStream]) -> Result<Vec<u64>, NoMemory>
    ensures numbers { IfOk result (λ v. v.items ≡ dests_of_spec streams.now) }
    ensures one_each { IfOk result (λ v. length v.items ≡ length streams.now) }
{
    let given = given_dests(alloc, streams)?;
    numbered(alloc, FIRST_DEST, &given)
}
