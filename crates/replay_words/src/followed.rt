//! What changes in the bookings of the ports at the ends of a link.

ghost use Rattle.std.specs.Prelude.{◌≡◌, ◌++◌, flat_map, OnOk, string_bytes};
ghost use Rattle.replay_words.specs.Bookings.{port_front, class_name as class_name_spec, dropped_text, booked_text, passes_text, slope_in_a as slope_in_a_spec, sum_in_a, sum_of, caps_text, has_new as has_new_spec, changes_text};

use crate::booking::{Booked, Booking};
use attribute_propagation::Dirty;
use link_replay::{End, write_moment};
use srp_base::{Class, Cs};
use std::alloc::AllocError;
use std::fmt::Write;
use stream_importance::Caps;

/// Says what changes in the bookings of the ports at both ends.
pub(crate) fn write_followed(
    out: &mut String,
    at: Cs,
    caps: &Caps,
    before: &Booked,
    after: &Booked,
) -> Result<(), AllocError>
    ensures { OnOk result (string_bytes out.new ≡ string_bytes out.old
        ++ (changes_text at End.A caps.now before.now.a.keys after.now.a.keys
        ++ changes_text at End.B caps.now before.now.b.keys after.now.b.keys)) }
{
    write_changes(out, at, End::A, caps, &before.a, &after.a)?;
    write_changes(out, at, End::B, caps, &before.b, &after.b)
}

// Says which bookings of the port at an end are gone and which are new, and where some are new,
// which caps they pass.
#[tactic(auto, unfolding(crate::specs::Bookings::changes_text))]
fn write_changes(
    out: &mut String,
    at: Cs,
    who: End,
    caps: &Caps,
    before: &Dirty<Booking>,
    after: &Dirty<Booking>,
) -> Result<(), AllocError>
    ensures { OnOk result (string_bytes out.new ≡ string_bytes out.old
        ++ changes_text at who caps.now before.now.keys after.now.keys) }
{
    write_all_dropped(out, at, who, after, before.as_slice())?;
    write_all_booked(out, at, who, before, after.as_slice())?;
    if !has_new(before, after.as_slice()) {
        return Ok(());
    }
    write_caps(out, at, who, caps, after.as_slice())
}

// Says which bookings are gone.
fn write_all_dropped(
    out: &mut String,
    at: Cs,
    who: End,
    after: &Dirty<Booking>,
    before: &[Booking],
) -> Result<(), AllocError>
    ensures { OnOk result (string_bytes out.new
        ≡ string_bytes out.old ++ flat_map (dropped_text at who after.now.keys) before.now) }
{
    for booking in before {
        write_dropped(out, at, who, after, booking)?;
    }
    Ok(())
}

// Says that a booking is gone, where it is.
fn write_dropped(
    out: &mut String,
    at: Cs,
    who: End,
    after: &Dirty<Booking>,
    booking: &Booking,
) -> Result<(), AllocError>
    ensures { OnOk result (string_bytes out.new
        ≡ string_bytes out.old ++ dropped_text at who after.now.keys booking.now) }
{
    if after.awaits(*booking) {
        return Ok(());
    }
    write_front(out, at, who)?;
    let stream = booking.stream;
    writeln!(out, "dropped {stream}")
}

// Says which bookings are new.
fn write_all_booked(
    out: &mut String,
    at: Cs,
    who: End,
    before: &Dirty<Booking>,
    after: &[Booking],
) -> Result<(), AllocError>
    ensures { OnOk result (string_bytes out.new
        ≡ string_bytes out.old ++ flat_map (booked_text at who before.now.keys) after.now) }
{
    for booking in after {
        write_booked(out, at, who, before, booking)?;
    }
    Ok(())
}

// Says that a booking is new, where it is.
fn write_booked(
    out: &mut String,
    at: Cs,
    who: End,
    before: &Dirty<Booking>,
    booking: &Booking,
) -> Result<(), AllocError>
    ensures { OnOk result (string_bytes out.new
        ≡ string_bytes out.old ++ booked_text at who before.now.keys booking.now) }
{
    if before.awaits(*booking) {
        return Ok(());
    }
    write_front(out, at, who)?;
    let Booking {
        stream,
        class,
        slope,
    } = *booking;
    let name = class_name(class);
    writeln!(out, "booked {stream} {name} slope {slope}")
}

// An SR class by its name.
fn class_name(class: Class) -> &'static str
    ensures { result.now ≡ class_name_spec class }
{
    match class {
        Class::A => "A",
        Class::B => "B",
    }
}

// The port of which something is said.
fn write_front(out: &mut String, at: Cs, who: End) -> Result<(), AllocError>
    ensures { OnOk result (string_bytes out.new ≡ string_bytes out.old ++ port_front at who) }
{
    write_moment(out, at)?;
    let from = who.name();
    let to = who.other().name();
    write!(out, " {from}>{to} ")
}

// Whether a booking is new.
fn has_new(before: &Dirty<Booking>, after: &[Booking]) -> bool
    ensures { result ≡ has_new_spec before.now.keys after.now }
{
    for booking in after {
        if !before.awaits(*booking) {
            return true;
        }
    }
    false
}

// Says which caps of a port the bookings pass.
#[tactic(auto, unfolding(crate::specs::Bookings::caps_text))]
fn write_caps(
    out: &mut String,
    at: Cs,
    who: End,
    caps: &Caps,
    bookings: &[Booking],
) -> Result<(), AllocError>
    ensures { OnOk result (string_bytes out.new
        ≡ string_bytes out.old ++ caps_text at who caps.now bookings.now) }
{
    let in_a = slopes_in_a(bookings);
    let both = slopes(bookings);
    write_passes(out, at, who, caps.class_a, in_a)?;
    write_passes(out, at, who, caps.both, both)
}

// Says by how much slopes pass a cap, where they do.
#[tactic(auto, unfolding(crate::specs::Bookings::passes_text))]
fn write_passes(out: &mut String, at: Cs, who: End, cap: u64, sum: u128) -> Result<(), AllocError>
    ensures { OnOk result (string_bytes out.new
        ≡ string_bytes out.old ++ passes_text at who cap sum) }
{
    let most = u128::from(cap);
    if sum <= most {
        return Ok(());
    }
    let over = sum - most;
    write_front(out, at, who)?;
    writeln!(out, "passes cap {cap} by {over}")
}

// The slopes of the bookings in class A together, in bit/s.
#[tactic(auto, unfolding(crate::specs::Bookings::sum_in_a))]
fn slopes_in_a(bookings: &[Booking]) -> u128
    ensures { result ≡ sum_in_a bookings.now }
{
    let mut sum: u128 = 0;
    for booking in bookings {
        sum += u128::from(slope_in_a(booking));
    }
    sum
}

// The slope of a booking in class A, else 0.
fn slope_in_a(booking: &Booking) -> u64
    ensures { result ≡ slope_in_a_spec booking.now }
{
    match booking.class {
        Class::A => booking.slope,
        Class::B => 0,
    }
}

// The slopes of the bookings together, in bit/s.
#[tactic(auto, unfolding(crate::specs::Bookings::sum_of))]
fn slopes(bookings: &[Booking]) -> u128
    ensures { result ≡ sum_of bookings.now }
{
    let mut sum: u128 = 0;
    for booking in bookings {
        sum += u128::from(booking.slope);
    }
    sum
}
