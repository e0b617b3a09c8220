//! What is printed of the wishes at the end of a run.

ghost use Rattle.std.specs.Prelude.{◌≡◌, ◌++◌, All, not, IfOk, OnOk};
ghost use Rattle.std.specs.List.{AllByRecursion};
ghost use Rattle.tree_topology.specs.Topology.{HasNode};
ghost use Rattle.wishes.specs.Text.{count_that, counts_of, granted_by, granted_line, granted_lines, lines_of, named_wish, refused_by, refused_lines, silent_by, silent_lines, ungranted_in};
ghost use Rattle.wishes.specs.Wishes.{grants as grants_spec, is_silent as is_silent_spec, refuses as refuses_spec};
ghost use Rattle.wishes.specs.Within.{within_of as within_of_spec};

use crate::lines::{Counts, put_counts, put_granted, put_refused, put_silent};
use crate::wish::{Answer, Wish};
use crate::within::within_of;
use scenario_delays::DelayFacts;
use srp_base::NoMemory;
use std::alloc::Global;
use topology_file::Scenario;

/// What came of these wishes at the end of a run of a scenario, in octets. A wish is a stream and a
/// station that listens to it then, in the order of the file's streams, then of the nodes. First
/// how many there are, and how many of each kind; then those that are refused, with the port of the
/// way from the Talker whose node the Talker Failed at the station's port names, the failure code
/// (IEEE Std 802.1Q-2018, 35.2.2.8.7), and for want of bandwidth by how many bit/s the stream's
/// slope passes what more important bookings leave of the cap; then those of which nothing came: the
/// station's application hears nothing of the stream, or hears it and the way isn't booked whole;
/// then those that are granted, each egress port of the way having booked the stream, with how many
/// these are, whether the stream's VID is registered at each of them, and, by what is known of the
/// run's delays, in ns the most that a frame of the stream takes from its moment through the last of
/// them, where `delays` prints a number.
pub fn wishes_text(
    alloc: Global,
    scenario: &Scenario,
    wishes: &[Wish],
    facts: &DelayFacts,
) -> Result<Vec<u8>, NoMemory>
    requires talkers { All (λ a. HasNode scenario.now.tree a.stream.talker.0) facts.now.answers }
    requires stations { AllByRecursion (λ wish. HasNode scenario.now.tree wish.station.0)
        wishes.now }
    ensures { IfOk result (λ text. text.items ≡ lines_of scenario.now facts.now wishes.now) }
{
    let mut out = Vec::new(alloc);
    put_lines(&mut out, scenario, wishes, facts)?;
    Ok(out)
}

/// How many of these wishes aren't granted.
pub fn ungranted(wishes: &[Wish]) -> u64
    ensures { result ≡ ungranted_in wishes.now }
{
    count_ungranted(wishes) as u64
}

fn count_ungranted(wishes: &[Wish]) -> usize
    ensures { result ≡ count_that (λ answer. not (grants_spec answer)) wishes.now }
{
    let mut count = 0;
    for wish in wishes {
        if !grants(wish.answer) {
            count += 1;
        }
    }
    count
}

// The lines of these wishes.
fn put_lines(
    out: &mut Vec<u8>,
    scenario: &Scenario,
    wishes: &[Wish],
    facts: &DelayFacts,
) -> Result<(), NoMemory>
    requires talkers { All (λ a. HasNode scenario.now.tree a.stream.talker.0) facts.now.answers }
    requires stations { AllByRecursion (λ wish. HasNode scenario.now.tree wish.station.0)
        wishes.now }
    ensures { OnOk result (out.new.items
        ≡ out.old.items ++ lines_of scenario.now facts.now wishes.now) }
{
    put_numbers(out, wishes)?;
    put_all_refused(out, scenario, wishes)?;
    put_all_silent(out, scenario, wishes)?;
    put_all_granted(out, scenario, wishes, facts)
}

// How many there are, and how many of each kind.
fn put_numbers(out: &mut Vec<u8>, wishes: &[Wish]) -> Result<(), NoMemory>
    ensures { OnOk result (out.new.items ≡ out.old.items ++ counts_of wishes.now) }
{
    let counts = Counts {
        all: wishes.len(),
        granted: count_granted(wishes),
        refused: count_refused(wishes),
        silent: count_silent(wishes),
    };
    put_counts(out, counts)
}

fn count_granted(wishes: &[Wish]) -> usize
    ensures { result ≡ count_that grants_spec wishes.now }
{
    let mut count = 0;
    for wish in wishes {
        if grants(wish.answer) {
            count += 1;
        }
    }
    count
}

fn count_refused(wishes: &[Wish]) -> usize
    ensures { result ≡ count_that refuses_spec wishes.now }
{
    let mut count = 0;
    for wish in wishes {
        if refuses(wish.answer) {
            count += 1;
        }
    }
    count
}

fn count_silent(wishes: &[Wish]) -> usize
    ensures { result ≡ count_that is_silent_spec wishes.now }
{
    let mut count = 0;
    for wish in wishes {
        if is_silent(wish.answer) {
            count += 1;
        }
    }
    count
}

fn grants(answer: Answer) -> bool
    ensures { result ≡ grants_spec answer }
{
    matches!(answer, Answer::Granted { .. })
}

fn refuses(answer: Answer) -> bool
    ensures { result ≡ refuses_spec answer }
{
    matches!(answer, Answer::Refused { .. })
}

fn is_silent(answer: Answer) -> bool
    ensures { result ≡ is_silent_spec answer }
{
    matches!(answer, Answer::Silent)
}

// The lines of those that are refused.
fn put_all_refused(out: &mut Vec<u8>, scenario: &Scenario, wishes: &[Wish]) -> Result<(), NoMemory>
    ensures { OnOk result (out.new.items
        ≡ out.old.items ++ refused_lines scenario.now wishes.now) }
{
    for wish in wishes {
        put_if_refused(out, scenario, wish)?;
    }
    Ok(())
}

fn put_if_refused(out: &mut Vec<u8>, scenario: &Scenario, wish: &Wish) -> Result<(), NoMemory>
    ensures { OnOk result (out.new.items
        ≡ out.old.items ++ refused_by scenario.now wish.now wish.now.answer) }
{
    match wish.answer {
        Answer::Refused { at, code, short } => put_refused(out, scenario, wish, at, code, short),
        Answer::Granted { .. } | Answer::Silent => Ok(()),
    }
}

// Of those of which nothing came.
fn put_all_silent(out: &mut Vec<u8>, scenario: &Scenario, wishes: &[Wish]) -> Result<(), NoMemory>
    ensures { OnOk result (out.new.items
        ≡ out.old.items ++ silent_lines scenario.now wishes.now) }
{
    for wish in wishes {
        put_if_silent(out, scenario, wish)?;
    }
    Ok(())
}

fn put_if_silent(out: &mut Vec<u8>, scenario: &Scenario, wish: &Wish) -> Result<(), NoMemory>
    ensures { OnOk result (out.new.items
        ≡ out.old.items ++ silent_by scenario.now wish.now wish.now.answer) }
{
    match wish.answer {
        Answer::Silent => put_silent(out, scenario, wish),
        Answer::Granted { .. } | Answer::Refused { .. } => Ok(()),
    }
}

// Of those that are granted.
fn put_all_granted(
    out: &mut Vec<u8>,
    scenario: &Scenario,
    wishes: &[Wish],
    facts: &DelayFacts,
) -> Result<(), NoMemory>
    requires talkers { All (λ a. HasNode scenario.now.tree a.stream.talker.0) facts.now.answers }
    requires stations { AllByRecursion (λ wish. HasNode scenario.now.tree wish.station.0)
        wishes.now }
    ensures { OnOk result (out.new.items
        ≡ out.old.items ++ granted_lines scenario.now facts.now wishes.now) }
{
    for i in 0..wishes.len() {
        put_if_granted(out, scenario, &wishes[i], facts)?;
    }
    Ok(())
}

fn put_if_granted(
    out: &mut Vec<u8>,
    scenario: &Scenario,
    wish: &Wish,
    facts: &DelayFacts,
) -> Result<(), NoMemory>
    requires talkers { All (λ a. HasNode scenario.now.tree a.stream.talker.0) facts.now.answers }
    requires station { HasNode scenario.now.tree wish.now.station.0 }
    ensures { OnOk result (out.new.items
        ≡ out.old.items ++ granted_by scenario.now facts.now wish.now wish.now.answer) }
{
    match wish.answer {
        Answer::Granted { ports, vlan } => {
            put_with_bound(out, scenario, wish, facts, ports, vlan)
        }
        Answer::Refused { .. } | Answer::Silent => Ok(()),
    }
}

// The line of one that is granted, with the bound on its frames' delay.
fn put_with_bound(
    out: &mut Vec<u8>,
    scenario: &Scenario,
    wish: &Wish,
    facts: &DelayFacts,
    ports: usize,
    vlan: bool,
) -> Result<(), NoMemory>
    requires talkers { All (λ a. HasNode scenario.now.tree a.stream.talker.0) facts.now.answers }
    requires station { HasNode scenario.now.tree wish.now.station.0 }
    ensures { OnOk result (out.new.items ≡ out.old.items ++ granted_line
        (named_wish scenario.now wish.now) ports vlan
        (within_of_spec scenario.now facts.now wish.now)) }
{
    let within = within_of(*out.allocator(), scenario, facts, wish)?;
    put_granted(out, scenario, wish, ports, vlan, within)
}
