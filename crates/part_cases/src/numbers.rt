//! Identifiers as digits, numbers at the ends of their ranges, and lists.

use srp_base::{
    BridgeId, Mac, NoMemory, Percent, Priority, Rate, Seq, StreamId, Vid, read_hex12, read_hex16,
};
use std::alloc::Global;

fn is_stream(text: &str, id: u64) -> bool {
    read_hex16(text) == Some(id)
}

fn is_no_stream(text: &str) -> bool {
    read_hex16(text).is_none()
}

#[test]
fn sixteen_digits_and_no_other_text_are_an_identifier(rt: HostRuntime) {
    assert!(rt;
        is_stream("0200000000010001", 0x0200_0000_0001_0001)
            && is_stream("ffffffffffffffff", 0xffff_ffff_ffff_ffff)
            && is_stream("FfFf0000aAaA9999", 0xffff_0000_aaaa_9999)
    );
    assert!(rt;
        is_no_stream("000000000000000g")
            && is_no_stream("00000000000000001")
            && is_no_stream("000000000000001")
            && is_no_stream("+00000000000001a")
            && is_no_stream("")
    );
}

/// The address that a text is, as a number.
fn address_of(text: &str) -> Option<u64> {
    Some(read_hex12(text)?.get())
}

#[test]
fn twelve_digits_are_an_address(rt: HostRuntime) {
    assert!(rt; address_of("91e0f000fe01") == Some(0x91e0_f000_fe01));
    assert!(rt; address_of("FFFFFFFFFFFF") == Some(0xffff_ffff_ffff));
    assert!(rt; address_of("91e0f000fe0").is_none() && address_of("91e0f000fe0x").is_none());
}

fn is_stream_text(alloc: Global, stream: StreamId, digits: &str) -> bool {
    match format!(in alloc; "{stream}") {
        Ok(text) => text.as_str() == digits,
        Err(_) => false,
    }
}

fn is_bridge_text(alloc: Global, bridge: BridgeId, digits: &str) -> bool {
    match format!(in alloc; "{bridge}") {
        Ok(text) => text.as_str() == digits,
        Err(_) => false,
    }
}

#[test]
fn identifiers_are_written_as_sixteen_digits(rt: HostRuntime) {
    let stream = StreamId(0x0200_0000_0001_0001);
    assert!(rt; is_stream_text(rt.alloc(), stream, "0200000000010001"));
    assert!(rt; is_bridge_text(rt.alloc(), BridgeId(0xA), "000000000000000a"));
}

fn vids_are_1_to_4094() -> bool {
    Vid::new(0).is_none()
        && Vid::new(1).is_some()
        && Vid::new(4_094).is_some()
        && Vid::new(4_095).is_none()
}

fn percentages_end_at_90() -> bool {
    Percent::new(90).is_some() && Percent::new(91).is_none()
}

fn priorities_end_at_7() -> bool {
    Priority::new(7).is_some() && Priority::new(8).is_none()
}

fn addresses_end_at_48_bits() -> bool {
    Mac::new(0xffff_ffff_ffff).is_some() && Mac::new(0x1_0000_0000_0000).is_none()
}

#[test]
fn numbers_have_their_ranges(rt: HostRuntime) {
    assert!(rt; vids_are_1_to_4094());
    assert!(rt; percentages_end_at_90() && priorities_end_at_7() && addresses_end_at_48_bits());
}

/// The bit/s of a rate in Mb/s.
fn bits_of(mbit: u64) -> Option<u64> {
    Some(Rate::of_mbit(mbit)?.bits())
}

#[test]
fn there_are_three_rates(rt: HostRuntime) {
    for (mbit, bits) in [
        (100, Some(100_000_000)),
        (1_000, Some(1_000_000_000)),
        (10_000, Some(10_000_000_000)),
        (99, None),
    ] {
        assert!(rt; bits_of(mbit) == bits);
    }
}

/// A list of 7 and 9, pushed one by one.
fn pushed(alloc: Global) -> Result<Seq<u8>, NoMemory> {
    let mut list = Seq::new(alloc);
    list.push(7u8)?;
    list.push(9)?;
    Ok(list)
}

/// Whether a list and its copy are this one.
fn is_list(list: &Seq<u8>, wanted: &Seq<u8>) -> bool {
    match list.clone() {
        Ok(copy) => *list == *wanted && copy == *wanted,
        Err(_) => false,
    }
}

fn is_made_of_a_vec(alloc: Global, list: &Seq<u8>) -> bool {
    match vec![in alloc; 7u8, 9] {
        Ok(wanted) => is_list(list, &Seq::from_vec(wanted)),
        Err(_) => false,
    }
}

fn gives_its_vec(list: Seq<u8>) -> bool {
    list.into_vec().as_slice() == [7, 9].as_slice()
}

fn is_its_elements(alloc: Global) -> bool {
    match pushed(alloc) {
        Ok(list) => is_made_of_a_vec(alloc, &list) && gives_its_vec(list),
        Err(_) => false,
    }
}

#[test]
fn a_list_is_its_elements(rt: HostRuntime) {
    assert!(rt; is_its_elements(rt.alloc()));
}
