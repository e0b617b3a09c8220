//! Lines of octets and hex dumps, of each application.

use mrpdu_codec::AppForm;
use pdu_words::decoded_text;
use std::alloc::Global;

// Whether a text says this, as PDUs of an application.
fn says(alloc: Global, form: AppForm, text: &str, wanted: &str) -> bool {
    if 1500 < text.len() {
        return false;
    }
    match decoded_text(alloc, form, text.as_bytes()) {
        Ok(said) => said.as_str() == wanted,
        Err(_) => false,
    }
}

// VID 5 with LeaveAll and JoinMt; a PDU that lacks the octet of its last three events; and an octet
// that a hyphen splits. The last line has no line feed.
const VLANS: &str = "00:01:02:20:01:00:05:6c:00:00:00:00\n\
    # a remark\n\
    \n\
    000102 0006 0001 d7\r\n\
    00-01-02-0001-0005-6-c\n\
    000102 0002 0FFD 2a 0000 0000";

const VLANS_SAID: &str = "line 1 leaveall yes\n\
    joinmt vid 5\n\
    line 4 malformed 8\n\
    line 5 no octets\n\
    line 6 leaveall no\n\
    joinin vid 4093\n\
    joinin vid 4094\n";

#[test]
fn a_line_says_what_its_octets_declare(rt: HostRuntime) {
    assert!(rt; says(rt.alloc(), AppForm::Mvrp, VLANS, VLANS_SAID));
    assert!(rt; says(rt.alloc(), AppForm::Mvrp, "", ""));
}

// A Listener Ready with JoinIn, and the Domain of class A with New.
const STREAMS: &str = "000308 000e 0001 0200000000010001 24 80 0000\n\
    00 03 08 000e 0001 0200000000010001 24 80 0000 04 04 0009 0001 06 03 0002 00 0000 0000\n";

const STREAMS_SAID: &str = "line 1 leaveall no\n\
    joinin listener 0200000000010001 ready\n\
    line 2 leaveall no\n\
    joinin listener 0200000000010001 ready\n\
    new domain 6 priority 3 vid 2\n";

#[test]
fn listeners_and_domains_have_their_words(rt: HostRuntime) {
    assert!(rt; says(rt.alloc(), AppForm::Msrp, STREAMS, STREAMS_SAID));
}

// A group address with Lv.
const GROUP: &str = "00 02 06 0001 01005E000001 b4 0000 0000\n";

#[test]
fn a_group_has_its_address(rt: HostRuntime) {
    assert!(rt;
        says(
            rt.alloc(),
            AppForm::Mmrp,
            GROUP,
            "line 1 leaveall no\nlv mac 01005e000001\n"
        )
    );
}

// A frame of MVRP as tcpdump prints it, and a PDU as xxd does, whose second line ends in characters
// that look like octets; behind it stands a line of its own.
const DUMPS: &str = "12:00:01.5 01:80:c2:00:00:21, length 26\n\
    \t0x0000:  0180 c200 0021 0200 0000 0001 88f5 0001\n\
    \t0x0010:  0200 0100 056c 0000 0000\n\
    00000000: 0001 0200 0100 0a00                      ........\n\
    00000008: 0000 0000                                00000000\n\
    0001020001000b000000\n";

const DUMPS_SAID: &str = "line 1 no octets\n\
    line 2 leaveall no\n\
    joinmt vid 5\n\
    line 4 leaveall no\n\
    new vid 10\n\
    line 6 leaveall no\n\
    new vid 11\n";

#[test]
fn a_dump_is_one_pdu(rt: HostRuntime) {
    assert!(rt; says(rt.alloc(), AppForm::Mvrp, DUMPS, DUMPS_SAID));
}

#[test]
fn what_has_no_octets_has_one_line(rt: HostRuntime) {
    let none = "no text of octets\n";
    assert!(rt; says(rt.alloc(), AppForm::Mvrp, "a page\nof words\n", none));
    assert!(rt; says(rt.alloc(), AppForm::Msrp, "0001\u{0}", none));
}
