//! Worked cases of what PDUs, capture files and replayed links say in words, a file for each call of
//! pdu_words and replay_words:
//!
//! ```text
//! texts    decoded_text: lines of octets, hex dumps, and files that are no text of octets
//! files    captured_text: files of pcap and pcapng with whole, tagged, cut and other frames, files
//!          that break off, and files that are no capture
//! replays  replayed_text: small captures, made frame by frame
//! ```
//!
//! The crate has tests alone, called as a user calls, since a crate with tests beside its code is
//! proved once more with them.
//!
//! To add one: octets that are written down by hand, by the tables of IEEE Std 802.1Q-2018 and the
//! descriptions of the two forms of capture files, with the text that a reader of these would
//! write. Many octets of one kind are better shown by a line of `examples/pdus/`, and a whole
//! capture by a file of `examples/captures/`.
#![tactic(auto)]

#[cfg(test)]
mod files;
#[cfg(test)]
mod replays;
#[cfg(test)]
mod texts;
