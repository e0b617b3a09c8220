//! What stands at the two ends of a link, told from the PDUs that went over it alone (IEEE Std
//! 802.1Q-2018, 10.7).
//!
//! ```text
//!        end a                          link                           end b
//!   participant  <------------------  PDUs of b  -------------------  participant
//!        :                                |                                :
//!        :  holds the same    hears       |       says                     :  holds the same
//!        :            +-------------------+--------------------+           :
//!        v            v                                        v           v
//!   observer of a: Registrars, no Applicant         observer of b: LeaveAll alone
//! ```
//!
//! An observer of an end is a participant that declares nothing (`specs/Observer.antt`). It hears
//! what the other end said, a LeaveAll of its own end acts on its registrars too, and its leave
//! timers fire as time passes. Registrars don't look at applicants: so an observer holds of each
//! key what the end's own registrar holds, the state, the content, and the end of the leave timer,
//! as long as it sees all that comes to its end. That is the law
//! `an_observer_holds_what_the_registrar_holds`; and `what_is_said_of_a_registrar_is_its_observers`
//! has it that what such an end says of its registrars is what its observer holds. So where a word
//! disagrees with the observer, a frame is missing among those that were seen, or was lost.
//!
//! Each call of an observer says its whole state after it, by the states of mrp_participant. After
//! want of memory an observer is as it was.
//!
//! A `Way` is one way over a link: from the end that declares, the speaker, to the observer of the
//! other. A `LinkWatch` has both, and what is on its way over them. A moment is in cs. What an end
//! sends at a moment is with the other end at the next, whatever that end sends meanwhile: both may
//! send in one hundredth of a second, each before it has what the other sent.
//!
//! ```text
//!   moment t       says       a LeaveAll acts on the observer of the end that sends; a word on a
//!                             registrar that disagrees with that observer is kept; all is on its way
//!   moment t + 1   arrives    all that is on its way is with the other end
//!                  judges     a word that is kept and disagrees still was broken when it was said
//!   later moments  passes     leave timers fire, each at the moment at which it ends (`mark_ends`)
//! ```
//!
//! A word is judged twice since a capture doesn't say in which order things went at an end within a
//! hundredth of a second: one that agrees with what was there before, or with what came meanwhile, is
//! no fault.
//!
//! What goes over the link, of one application, becomes lines (`specs/Lines.antt`), where T and U are
//! moments in seconds:
//!
//! ```text
//! T a>b KEY IN CONTENT              what a declares stands at b, or with another content
//! T a>b KEY LV until U              its leave timer runs: Lv was said, or LeaveAll by either end
//! T a owes KEY until U              so a has to say it anew, after a LeaveAll
//! T a>b KEY MT                      the leave timer ran out
//! T a let KEY go                    and a hadn't said Lv of it last
//! T b says joinmt KEY, it stands    a word of b that isn't what its observer holds
//! T b says joinin KEY, none stands
//! ```
//!
//! Each call's clauses say which link there is after it (`specs/Way.antt`, `specs/BothWays.antt`,
//! `specs/LinkWatch.antt`), exactly which lines it puts at the end of a text, and how many words
//! are broken, or how many attributes are let go. The observer of a way is the one above: law
//! `a_way_holds_what_was_seen`. No word of a participant of this project disagrees where its observer
//! has seen what it has (`no_word_of_a_participant_disagrees`); and in a run of two participants that
//! go by ticks, in which what goes out in one comes in in the next before the timers fire
//! (`specs/Ticks.antt`), the observers hold after every tick what the registrars hold, and no word is
//! ever broken (`no_word_is_broken_in_a_run`). A replay that sees some of the ticks alone follows
//! such a run all the same, whatever further moments it goes to, and whichever end it sees first in a
//! tick (`specs/Following.antt`, law `a_replay_follows_a_run`). No leave timer is late: each that runs ends at a moment that
//! `mark_ends` tells (`each_timer_ends_at_a_known_moment`). After want of memory the text may have
//! a part of the lines.
//!
//! A further thing that an end takes is a `Sight`, with its state in `seen_state`, what is seen of
//! it in `sights` (`specs/Watch.antt`) and its case in `proofs/Watching.antt`. A further
//! application states its words by a `WatchedApp`. A further line is a definition in
//! `specs/Lines.antt` with its writer in `src/lines.rt`, and has its place in a text of
//! `specs/Way.antt`.
#![tactic(auto)]

mod app;
mod both_ways;
pub mod laws;
mod lines;
mod link_watch;
mod observer;
mod way;

pub use app::WatchedApp;
pub use lines::{End, write_end_front, write_moment};
pub use link_watch::LinkWatch;
pub use observer::Observer;
pub use way::Way;
