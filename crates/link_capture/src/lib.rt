//! What crosses a link in a run, as a capture file that Wireshark and tcpdump read.
//!
//! ```text
//!   link 1, s1 to s2            a scenario and its run
//!   0 s1>s2 send mvrp sent 12   tick 0: what `s1` has sent is carried at the tick's end
//!
//!   a1b23c4d 0002 0004 .. 00000001                        the file's head: pcap in ns, Ethernet
//!   00000000 00000000 0000003c 0000003c                   a record: 0 s, 0 ns, 60 octets of 60
//!   0180c2000021 020000000101 88f5 00 01020001 .. 00..    from s1's port 1: the PDU, filled up
//!
//!   link_capture   scenario, run, link -> the file
//! ```
//!
//! The capture is that of a tap at both ends of the link, each at the port that sends: it has each
//! PDU that an end sent, of both applications, as it was sent. So a PDU that is lost on its way is
//! there, since it was sent; one that comes in twice is there once, and one that was forged isn't
//! there, since no end sent them. A PDU's moment is its tick, in ns; in a tick the PDUs of end `a`
//! stand before those of end `b`, each in the order in which they were sent, as the network carries
//! them (`crossings` of `specs/Crossings.antt`).
//!
//! A journal tells how many octets a PDU had, and not which. So the ticks of the run are made
//! again, each step as the journal has it, whatever the order in which a schedule made them, and
//! what waits in the outboxes of the two ports is read where it is carried. `link_capture` asks
//! that the ticks are legal, as each run's are, and answers `captured` of `specs/Captured.antt`:
//! the file of the frames of the crossings. A port sends from an address that tells its node's
//! number and its own, `02:00:00:NN:NN:PP`. By the law `what_is_captured_is_read` the file is read
//! as exactly the crossings, each whole, with its moment, its port's address, its application and
//! its PDU.
//!
//! `ticks` makes a tick again, `ends` reads what the two ports have to send, and `frames` writes
//! it; `specs/Laws.antt` is what the ticks rest on. A further application of MRP is a case of
//! `form_of` of `frames` and of `specs/Captured.antt`. What else is to stand in a capture, as
//! forged PDUs, is a further list in `crossed_at`, with its writer beside `put_end` in `ends`.
#![tactic(auto)]

mod capture;
mod ends;
mod frames;
pub mod laws;
mod ticks;

pub use capture::link_capture;
pub use laws::what_is_captured_is_read;
