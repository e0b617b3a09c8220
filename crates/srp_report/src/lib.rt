//! The texts of a run: its report, which tells what each port of the network sent, what is
//! registered and booked there at the end, what the stations hear, what became of the frames, and
//! how the network is then; the run in short; and its journal.
//!
//! ```text
//!   ticks 1062
//!   port s1>s2 sent 5 octets 60 discarded 0      each port, link by link, end `a` first
//!   listener s1>s2 0200000000010001 ready IN     what is registered there: VIDs, Talkers, Listeners, each ascending
//!   domain s1>s2 6 priority 3 vid 2 IN           and where there are SRP domains, Domains by SRclassID
//!   booked s1>s2 0200000000010001 A slope 15488000 since 41     the booked streams, in bit/s and cs, ascending
//!   port s2>s1 sent 1 octets 11 discarded 0
//!   vlan s2>s1 7 IN
//!   talker s2>s1 0200000000010001 advertise latency 0 IN
//!   heard s2 0200000000010001 ready              each station, each stream that it listens to, in file order
//!   frames s1>s2 departed 1 unbooked 0 novlan 0 left 0     where there are frames: how many came to which fate
//!   depart s1>s2 frame 1 start 100 end 900       each that departed, in order, in bit times of its port
//!   quiet yes                                    nothing is pending
//!   in step yes                                  each port is sound, by a LeaveAll since the last loss
//!
//!   journal
//!   0 event 1 done                               in tick 0: an event of the file, by its number
//!   0 s1>s2 send mvrp sent 12                    and then each step, with its port and its answer
//! ```
//!
//! `report_text` (`specs/Report.antt`) is the text as a function of the scenario, the network at
//! the end of its run, the ticks of the journal and the flow of the frames. It is made of the lines
//! that every report has (`report_words`) and of those of `specs/Lines.antt` and
//! `specs/FrameLines.antt`, one definition each. What a port sent is counted over the answers of
//! the port's own steps in the journal (`specs/Counts.antt`); what is registered is asked of the
//! port's Registrars, what is booked of its ledger, and what a station hears of the station; what
//! became of the frames is the fates of the port's flow. So the report tells what happened, and
//! none of it is what the tree or the stations would have one expect. `journal_text`
//! (`specs/JournalText.antt`) is a function of the scenario and any ticks.
//!
//! `summary_text` (`specs/Summary.antt`) is the run in short: the sizes of its scenario, what all
//! ports sent together, how many bookings there are and how often Ready is heard at its end, each
//! by the same counts and questions, over all ports and nodes.
//!
//! The report can be made whole (`report`), or piece by piece as it goes out (`Printout` of
//! `printout.rt`): the lines of a port's frames are then made when they are asked for, so that only
//! one port's are kept at a time.
//!
//! The journal is read once for the report, for all ports together: a tally for each port, at the
//! place of its numbers, in `tallies.rt`. The report asks for the tally of a port when it comes to
//! its line. The fates of a port are read once too, in `departures.rt`; its departures are then
//! sorted by start at once, where the definition puts each in its place.
//!
//! A further kind of attribute is a line in `specs/Lines.antt` with its case of `key_line` or
//! `srp_line`, and its writer in `lines.rt` with its arm of `put_key` or `put_srp`. A further line
//! of a port is a definition there and a piece at the end of `place_lines`, with its writer in
//! `registered.rt`; one of the network is a piece of `before_frames` or `behind_frames`, which
//! `report_text` is made of, with its writer in `text.rt`. A further count is a field of `Tally` of
//! `report_words`, with an arm of `counted` in `tally.rt`. The lines of a journal's events and
//! steps are those of `journal_lines`. A further sum of a summary is a definition over the ports or
//! nodes of the network with its loop in `totals.rt`, and a piece of `summary_text` with its writer
//! in `short.rt`.
#![tactic(auto)]

mod departures;
mod flows;
mod heard;
mod journal;
mod lines;
mod ports;
mod printout;
mod registered;
mod short;
mod tallies;
mod tally;
mod text;
mod totals;

pub use departures::SentFrame;
pub use journal::journal_text;
pub use printout::Printout;
pub use short::summary;
pub use text::report;
