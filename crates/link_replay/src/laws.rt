//! What an observer of an end of a link holds. Each law is a function that does nothing; calling it
//! brings the law to a proof.

ghost use Rattle.std.specs.Prelude.{◌≡◌, ◌≤◌, Bool, true, List, [], Contains};
ghost use Rattle.srp_base.specs.declared.{numbers.Cs.Cs, mrp.MrpEvent.MrpEvent};
ghost use Rattle.mrp_participant.specs.Lookup.{find};
ghost use Rattle.mrp_participant.specs.Link.{Link, LinkEvent, EndEvent, after_end_event};
ghost use Rattle.mrp_participant.specs.State.{State, Messages, AreRows, new_state, is_active, sent_events, sent_messages};
ghost use Rattle.link_replay.specs.declared.lines.End.{End};
ghost use Rattle.link_replay.specs.Lines.{other_end};
ghost use Rattle.link_replay.specs.Standing.{standing, is_standing, agrees};
ghost use Rattle.link_replay.specs.Observer.{new_observer, seen_state};
ghost use Rattle.link_replay.specs.Observer.Sight.{Comes, Goes, Passes};
ghost use Rattle.link_replay.specs.Watch.{IsObserved, AreObserved, Watched, observer_after, new_watched, all_watched};
ghost use Rattle.link_replay.specs.Way.{WayState, new_way, ends_up_to, passing_way, AreEndsKnown};
ghost use Rattle.link_replay.specs.BothWays.{Ways, way_of, begun_way, said_way, ways_saying};
ghost use Rattle.link_replay.specs.LinkWatch.{LinkState, unseen_link, doubted};
ghost use Rattle.link_replay.specs.Ticks.{Tick, Pair, AreFresh, ReadsWhatIsWritten, new_pair, ready_a, ready_b, pair_after, run_after, run_broken, IsTold, Replayed, unseen, broken_then, is_quiet, IsSentByBoth, said_at, next_moment, replay_broken, AreTicksFrom};
ghost use Rattle.link_replay.specs.Following.{AreMoments, Follows};

use attribute_propagation::laws::each_key_awaits;
use mrp_participant::MrpApp;
use mrp_participant::laws::{
    each_key_after_due, each_key_after_periodic, each_key_after_receive, each_key_after_send,
    one_key_changes, rows_stay_rows, what_a_row_says, what_is_sent_is_declared,
};
use srp_base::Cs;

/// A new observer holds what a new participant's registrars hold. After each thing that happens at
/// an end, its observer holds of each key what the end's registrar holds: the state, the content,
/// and when the leave timer ends.
pub fn what_happens_at_an_end_is_seen<A: MrpApp>()
    ensures new { (period leave_time : Cs) (periodic : Bool)
        → IsObserved {K = A.Key} {C = A.Content} A.Key.cmp (new_observer leave_time)
        (new_state period leave_time periodic) }
    ensures event { (l : Link A.Key A.Content) (observer : State A.Key A.Content)
        (e : EndEvent A.Key A.Content)
        → AreRows A.Key.cmp l.near.rows
        → IsObserved A.Key.cmp observer l.near
        → IsObserved A.Key.cmp (observer_after A.base A.octets A.Key.cmp e l observer)
        (after_end_event A.base A.octets A.Key.cmp A.Content.eq e l).near }
    ensures rows { (l : Link A.Key A.Content) (e : EndEvent A.Key A.Content)
        → AreRows A.Key.cmp l.near.rows
        → AreRows A.Key.cmp
        (after_end_event A.base A.octets A.Key.cmp A.Content.eq e l).near.rows }
{
    each_key_after_due::<A>();
    each_key_after_periodic::<A>();
    each_key_after_receive::<A>();
    each_key_after_send::<A>();
    one_key_changes::<A>();
    rows_stay_rows::<A>();
}

/// After every list of events on a link, the observers of its two ends, which see nothing but what
/// goes out and comes in there and the leave timers, hold of each key what the registrars at those
/// ends hold: the state, the content, and when the leave timer ends.
pub fn an_observer_holds_what_the_registrar_holds<A: MrpApp>()
    ensures new { (near far : Cs × Cs × Bool)
        → AreObserved A.Key.cmp (new_watched {K = A.Key} {C = A.Content} near far) }
    ensures events { (w : Watched A.Key A.Content) (events : List (LinkEvent A.Key A.Content))
        → AreObserved A.Key.cmp w
        → AreObserved A.Key.cmp (all_watched A.base A.octets A.Key.cmp A.Content.eq w events) }
{
    what_happens_at_an_end_is_seen::<A>();
}

/// What a participant says of its registrars in a PDU is what its observer holds once it has seen
/// whether the PDU has LeaveAll: JoinIn exactly where the registrar is IN, JoinMt where it isn't.
pub fn what_is_said_of_a_registrar_is_its_observers<A: MrpApp>()
    ensures { (own observer : State A.Key A.Content) (now : Cs)
        (e : MrpEvent × A.Key × A.Content)
        → AreRows A.Key.cmp own.rows
        → IsObserved A.Key.cmp observer own
        → Contains (sent_events A.base A.octets A.Key.cmp now own) e
        → agrees e.0 (is_standing (standing (find A.Key.cmp e.1
        (seen_state A.Key.cmp observer
        (Goes now (sent_messages A.base A.octets A.Key.cmp now own))).rows))) ≡ true }
{
    each_key_after_due::<A>();
    each_key_after_periodic::<A>();
    each_key_after_receive::<A>();
    each_key_after_send::<A>();
    one_key_changes::<A>();
    rows_stay_rows::<A>();
    what_a_row_says::<A>();
    what_is_sent_is_declared::<A>();
}

/// An observer of a way, after what an end sent has arrived event by event, is the observer after all
/// of it; after a LeaveAll of the other end too, and after a moment.
pub fn a_way_holds_what_was_seen<A: MrpApp>()
    ensures comes { (way : WayState A.Key A.Content) (now : Cs) (m : Messages A.Key A.Content)
        → (said_way A.Key.cmp now m way).observer
        ≡ seen_state A.Key.cmp way.observer (Comes now m) }
    ensures goes { (way : WayState A.Key A.Content) (now : Cs) (m : Messages A.Key A.Content)
        → (begun_way A.Key.cmp now m.leave_all way).observer
        ≡ seen_state A.Key.cmp way.observer (Goes now m) }
    ensures passes { (way : WayState A.Key A.Content) (now : Cs)
        → (passing_way now way).observer ≡ seen_state A.Key.cmp way.observer (Passes now) }
{}

/// No word of a participant on its registrars disagrees when it is said, where its observer has
/// seen what it has, whichever of its words are read there and in whatever order: so none is kept
/// to be judged.
pub fn no_word_of_a_participant_disagrees<A: MrpApp>()
    ensures { (own : State A.Key A.Content) (ways : Ways A.Key A.Content) (who : End) (now : Cs)
        (events : List (MrpEvent × A.Key × A.Content))
        → AreRows A.Key.cmp own.rows
        → IsObserved A.Key.cmp (way_of (other_end who) ways).observer own
        → ((e : MrpEvent × A.Key × A.Content) → Contains events e
        → Contains (sent_events A.base A.octets A.Key.cmp now own) e)
        → doubted A.Key.cmp (ways_saying A.Key.cmp now who
        (record { leave_all = is_active own.leave_all; events = events }) ways) who events ≡ [] }
{
    a_way_holds_what_was_seen::<A>();
    what_is_said_of_a_registrar_is_its_observers::<A>();
}

/// In a run of two participants that go by ticks, what is told of the link from their PDUs is right
/// after every tick: the observers of its ends hold what the registrars there hold, what each end
/// sent is on its way, and no word disagreed with the observer of the end that said it. So none is
/// ever broken. `read` is what is read of the events that an end writes, in whatever order.
pub fn no_word_is_broken_in_a_run<A: MrpApp>()
    ensures new { (leave_time : Cs) (a b : Cs × Bool)
        → IsTold {K = A.Key} {C = A.Content} A.Key.cmp
        (new_pair leave_time a b, unseen_link leave_time) }
    ensures run { (read : List (MrpEvent × A.Key × A.Content)
        → List (MrpEvent × A.Key × A.Content))
        (x : Pair A.Key A.Content × LinkState A.Key A.Content)
        (ticks : List (Tick A.Key A.Content))
        → ReadsWhatIsWritten read
        → IsTold A.Key.cmp x
        → IsTold A.Key.cmp (run_after A.base A.octets A.Key.cmp A.Content.eq read x ticks) }
    ensures broken { (read : List (MrpEvent × A.Key × A.Content)
        → List (MrpEvent × A.Key × A.Content))
        (x : Pair A.Key A.Content × LinkState A.Key A.Content)
        (ticks : List (Tick A.Key A.Content))
        → ReadsWhatIsWritten read
        → IsTold A.Key.cmp x
        → run_broken A.base A.octets A.Key.cmp A.Content.eq read x ticks ≡ 0 }
{
    a_way_holds_what_was_seen::<A>();
    no_word_of_a_participant_disagrees::<A>();
    what_happens_at_an_end_is_seen::<A>();
}

/// A replay of such a run follows it from tick to tick, from one on before which neither end has
/// said anything: once what was said last has arrived, each observer holds what the registrars of
/// its end hold, but for leave timers that have fired since, and no word is kept. It may pass over
/// a tick in which neither end says anything, and in each may go on by further moments than those
/// at which leave timers end, and may see what either end says first. When an end comes to send,
/// its rows are a participant's. No word is broken at any tick.
pub fn a_replay_follows_a_run<A: MrpApp>()
    ensures new { (read : List (MrpEvent × A.Key × A.Content)
        → List (MrpEvent × A.Key × A.Content)) (leave_time first : Cs)
        (pair : Pair A.Key A.Content)
        → 1 ≤ leave_time.0
        → AreFresh leave_time pair
        → Follows A.base A.octets A.Key.cmp A.Content.eq read first pair (unseen leave_time) }
    ensures passed_over { (read : List (MrpEvent × A.Key × A.Content)
        → List (MrpEvent × A.Key × A.Content))
        (tick : Tick A.Key A.Content) (pair : Pair A.Key A.Content)
        (replayed : Replayed A.Key A.Content)
        → ReadsWhatIsWritten read
        → is_quiet A.base A.octets A.Key.cmp A.Content.eq read tick pair ≡ true
        → Follows A.base A.octets A.Key.cmp A.Content.eq read tick.at pair replayed
        → Follows A.base A.octets A.Key.cmp A.Content.eq read (next_moment tick.at)
        (pair_after A.base A.octets A.Key.cmp A.Content.eq read pair tick) replayed }
    ensures gone_to { (read : List (MrpEvent × A.Key × A.Content)
        → List (MrpEvent × A.Key × A.Content))
        (tick : Tick A.Key A.Content) (pair : Pair A.Key A.Content)
        (replayed : Replayed A.Key A.Content) (moments : List Cs)
        (said : List (End × Messages A.Key A.Content))
        → ReadsWhatIsWritten read
        → AreMoments A.Key.cmp tick.at replayed moments
        → IsSentByBoth A.base A.octets A.Key.cmp A.Content.eq read tick pair said
        → Follows A.base A.octets A.Key.cmp A.Content.eq read tick.at pair replayed
        → Follows A.base A.octets A.Key.cmp A.Content.eq read (next_moment tick.at)
        (pair_after A.base A.octets A.Key.cmp A.Content.eq read pair tick)
        (said_at A.Key.cmp tick.at moments said replayed) }
    ensures rows { (read : List (MrpEvent × A.Key × A.Content)
        → List (MrpEvent × A.Key × A.Content))
        (tick : Tick A.Key A.Content) (pair : Pair A.Key A.Content)
        (replayed : Replayed A.Key A.Content)
        → ReadsWhatIsWritten read
        → Follows A.base A.octets A.Key.cmp A.Content.eq read tick.at pair replayed
        → AreRows A.Key.cmp
        (ready_a A.base A.octets A.Key.cmp A.Content.eq read tick pair).rows
        × AreRows A.Key.cmp
        (ready_b A.base A.octets A.Key.cmp A.Content.eq read tick pair).rows }
    ensures unbroken { (read : List (MrpEvent × A.Key × A.Content)
        → List (MrpEvent × A.Key × A.Content)) (next : Cs) (pair : Pair A.Key A.Content)
        (replayed : Replayed A.Key A.Content)
        → Follows A.base A.octets A.Key.cmp A.Content.eq read next pair replayed
        → broken_then A.Key.cmp replayed ≡ 0 }
{
    a_way_holds_what_was_seen::<A>();
    no_word_of_a_participant_disagrees::<A>();
    what_happens_at_an_end_is_seen::<A>();
    each_key_after_due::<A>();
    each_key_after_receive::<A>();
    each_key_awaits::<Cs>();
    rows_stay_rows::<A>();
}

/// So it is in a replay of such a run, which sees those ticks alone in which something is said: time
/// goes on from the one to the next, what was said arrives one cs after it was, leave timers fire at
/// their own moments, and no word is told as broken, up to the capture's end.
pub fn a_replay_of_a_run_breaks_no_word<A: MrpApp>()
    ensures { (read : List (MrpEvent × A.Key × A.Content)
        → List (MrpEvent × A.Key × A.Content))
        (leave_time first : Cs) (a b : Cs × Bool) (ticks : List (Tick A.Key A.Content))
        → ReadsWhatIsWritten read
        → 1 ≤ leave_time.0
        → AreTicksFrom first ticks
        → replay_broken A.base A.octets A.Key.cmp A.Content.eq read
        (new_pair leave_time a b, unseen leave_time) ticks ≡ 0 }
{
    a_way_holds_what_was_seen::<A>();
    no_word_of_a_participant_disagrees::<A>();
    what_happens_at_an_end_is_seen::<A>();
    each_key_after_due::<A>();
    each_key_after_receive::<A>();
    each_key_awaits::<Cs>();
    rows_stay_rows::<A>();
}

/// No leave timer of a way is late: each that runs ends at one of the moments that the way knows, and
/// none of these moments has passed. A moment up to which the way knows none changes nothing of what
/// stands.
pub fn each_timer_ends_at_a_known_moment<A: MrpApp>()
    ensures new { (speaker : End) (leave_time at : Cs)
        → AreEndsKnown {K = A.Key} {C = A.Content} A.Key.cmp at (new_way speaker leave_time) }
    ensures comes { (way : WayState A.Key A.Content) (before at : Cs)
        (m : Messages A.Key A.Content)
        → AreRows A.Key.cmp way.observer.rows
        → 1 ≤ way.leave_time.0
        → way.observer.leave_time ≡ way.leave_time
        → before.0 ≤ at.0
        → AreEndsKnown A.Key.cmp before way
        → AreEndsKnown A.Key.cmp before (said_way A.Key.cmp at m way) }
    ensures goes { (way : WayState A.Key A.Content) (before at : Cs) (leave_all : Bool)
        → AreRows A.Key.cmp way.observer.rows
        → 1 ≤ way.leave_time.0
        → way.observer.leave_time ≡ way.leave_time
        → before.0 ≤ at.0
        → AreEndsKnown A.Key.cmp before way
        → AreEndsKnown A.Key.cmp before (begun_way A.Key.cmp at leave_all way) }
    ensures passes { (way : WayState A.Key A.Content) (before at : Cs)
        → AreRows A.Key.cmp way.observer.rows
        → AreEndsKnown A.Key.cmp before way
        → AreEndsKnown A.Key.cmp at (passing_way at way) }
    ensures none { (way : WayState A.Key A.Content) (before at : Cs) (k : A.Key)
        → AreRows A.Key.cmp way.observer.rows
        → AreEndsKnown A.Key.cmp before way
        → ends_up_to at way ≡ []
        → standing (find A.Key.cmp k (passing_way at way).observer.rows)
        ≡ standing (find A.Key.cmp k way.observer.rows) }
{
    each_key_after_due::<A>();
    each_key_after_receive::<A>();
    each_key_awaits::<Cs>();
    rows_stay_rows::<A>();
}
