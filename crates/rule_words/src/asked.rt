//! What each rule asks, and of which array it names an entry.

ghost use Rattle.std.specs.Prelude.{◌≡◌};
ghost use Rattle.rule_words.specs.Asked.{scenario_asks as scenario_asks_spec, groups_asks as groups_asks_spec, plan_asks as plan_asks_spec, node_form_asks as node_form_asks_spec, node_asks as node_asks_spec, link_asks as link_asks_spec, stream_asks as stream_asks_spec, event_asks as event_asks_spec, frame_asks as frame_asks_spec, ledger_asks as ledger_asks_spec, what_rule_asks as what_rule_asks_spec, array_of as array_of_spec, asks_of_file as asks_of_file_spec};

use crate::keys::Key;
use crate::kinds::FileKind;

// What the rules on a scenario's file as a whole ask.
fn scenario_asks(rule: u8) -> &'static str
    ensures { result.now ≡ scenario_asks_spec rule }
{
    if rule == 1 {
        "ticks, of 10 ms each, is a whole number from 1 to 12000"
    } else if rule == 2 {
        "the keys of the file are known, and node, link, stream, event and frame are arrays of tables"
    } else if rule == 3 {
        "leave_time is a whole number from 60 to 100, and periodic and domains are true or false"
    } else if rule == 5 {
        "there are 2 to 64 nodes, and nodes times ticks are at most 400000"
    } else {
        ""
    }
}

// What those on a file of groups as a whole ask.
fn groups_asks(rule: u8) -> &'static str
    ensures { result.now ≡ groups_asks_spec rule }
{
    if rule == 1 || rule == 5 {
        scenario_asks(rule)
    } else if rule == 2 {
        "node and link are arrays of tables"
    } else if rule == 3 {
        "leave_time is a whole number from 60 to 100, and periodic is true or false"
    } else if rule == 40 {
        "the keys of the file are known, and event is an array of tables"
    } else {
        ""
    }
}

// What those on a plan as a whole ask.
fn plan_asks(rule: u8) -> &'static str
    ensures { result.now ≡ plan_asks_spec rule }
{
    if rule == 2 {
        "node and link are arrays of tables"
    } else if rule == 3 {
        "domains is true or false"
    } else if rule == 5 {
        "there are 2 to 64 nodes"
    } else if rule == 50 {
        "the keys of the file are known, and stream is an array of at most 128 tables"
    } else if rule == 54 {
        "at most 10000 events come of the plan: one for each stream, one for each of its listeners, and one for each VID that a station declares"
    } else {
        ""
    }
}

// What the rule on the form of nodes asks.
fn node_form_asks(kind: FileKind) -> &'static str
    ensures { result.now ≡ node_form_asks_spec kind }
{
    match kind {
        FileKind::Groups => {
            "each node has its form: known keys alone, none missing that has no default, each in its range"
        }
        _ => {
            "each node has its form: known keys alone, domain only where the file has domains = true, none missing that has no default, each in its range"
        }
    }
}

// What those on nodes ask.
fn node_asks(kind: FileKind, rule: u8) -> &'static str
    ensures { result.now ≡ node_asks_spec kind rule }
{
    if rule == 4 {
        node_form_asks(kind)
    } else if rule == 6 {
        "node names differ"
    } else if rule == 7 {
        "node ids differ, defaults included"
    } else if rule == 13 {
        "every node is reached from the first one"
    } else if rule == 14 {
        "each station has exactly one link"
    } else if rule == 15 {
        "each node has at most 16 links"
    } else {
        ""
    }
}

// What those on links ask.
fn link_asks(rule: u8) -> &'static str
    ensures { result.now ≡ link_asks_spec rule }
{
    if rule == 8 {
        "each link has its form: known keys alone, none missing that has no default, each in its range, delta_a and delta_b together at most 90"
    } else if rule == 9 {
        "the ends of each link are names of nodes"
    } else if rule == 10 {
        "no link joins a node with itself"
    } else if rule == 11 {
        "no two links join the same nodes"
    } else if rule == 12 {
        "no link joins nodes that earlier links already join"
    } else {
        ""
    }
}

// What those on streams ask.
fn stream_asks(rule: u8) -> &'static str
    ensures { result.now ≡ stream_asks_spec rule }
{
    if rule == 16 {
        "each stream has its form: known keys alone, none missing that has no default, each in its range; and there are at most 128"
    } else if rule == 17 {
        "stream names differ"
    } else if rule == 18 {
        "stream ids differ"
    } else if rule == 19 {
        "the talker of each stream is a station"
    } else if rule == 51 {
        "each stream has its form: known keys alone, octets or else channels with rate_khz, none missing that has no default, each in its range; and the octets of audio, 24 + channels x bits / 8 x samples, are at most 1500"
    } else if rule == 52 {
        "stream names differ, and so do the stream ids that are given"
    } else if rule == 53 {
        "the talker and the listeners of each stream are stations, each once"
    } else {
        ""
    }
}

// What those on events ask.
fn event_asks(rule: u8) -> &'static str
    ensures { result.now ≡ event_asks_spec rule }
{
    if rule == 20 {
        "each event has its form: the keys of its kind alone, each in its range, its tick below the ticks of the file; and there are at most 10000"
    } else if rule == 21 {
        "the ticks of events do not fall"
    } else if rule == 22 {
        "what events name is known: stations are stations, streams are streams, from and to are joined by a link, and who listens to a stream does not talk in it"
    } else if rule == 41 {
        "each event has its form: the keys of its kind alone, each in its range, its tick below the ticks of the file; and there are at most 10000"
    } else if rule == 42 {
        "the ticks of events do not fall"
    } else if rule == 43 {
        "what events name is known: stations are stations, and from and to are joined by a link"
    } else {
        ""
    }
}

// What those on frames ask.
fn frame_asks(rule: u8) -> &'static str
    ensures { result.now ≡ frame_asks_spec rule }
{
    if rule == 23 {
        "each frame has its form: known keys alone, none missing that has no default, each in its range, its last copy before the end of the run; and the copies so far are at most 100000"
    } else if rule == 24 {
        "the stream of each frame is known, or from and to are two different stations"
    } else {
        ""
    }
}

// What the rules of a ledger file ask.
fn ledger_asks(rule: u8) -> &'static str
    ensures { result.now ≡ ledger_asks_spec rule }
{
    if rule == 31 {
        "the keys of the file are known, and rate is there and is 100, 1000 or 10000"
    } else if rule == 32 {
        "delta_a and delta_b are 0 to 90, and together at most 90"
    } else if rule == 33 {
        "want is an array of at most 10000 tables, each with its form: known keys alone, none missing that has no default, each in its range"
    } else if rule == 34 {
        "the ticks of wants do not fall"
    } else if rule == 35 {
        "there are at most 128 different streams"
    } else {
        ""
    }
}

/// What a rule of a kind of file asks; a number that is no rule's has no words.
pub fn what_rule_asks(kind: FileKind, rule: u8) -> &'static str
    ensures { result.now ≡ what_rule_asks_spec kind rule }
{
    match array_of(rule) {
        Some(Key::Nodes) => node_asks(kind, rule),
        Some(Key::Links) => link_asks(rule),
        Some(Key::Streams) => stream_asks(rule),
        Some(Key::Events) => event_asks(rule),
        Some(Key::Frames) => frame_asks(rule),
        Some(Key::Wants) => ledger_asks(rule),
        _ => asks_of_file(kind, rule),
    }
}

/// The array of the entries that a rule speaks of; None where it speaks of the file as a whole.
pub(crate) fn array_of(rule: u8) -> Option<Key>
    ensures { result ≡ array_of_spec rule }
{
    if rule == 4 || rule == 6 || rule == 7 {
        Some(Key::Nodes)
    } else if 8 <= rule && rule <= 12 {
        Some(Key::Links)
    } else if 13 <= rule && rule <= 15 {
        Some(Key::Nodes)
    } else if 16 <= rule && rule <= 19 {
        Some(Key::Streams)
    } else if 20 <= rule && rule <= 22 {
        Some(Key::Events)
    } else if 23 <= rule && rule <= 24 {
        Some(Key::Frames)
    } else if 33 <= rule && rule <= 35 {
        Some(Key::Wants)
    } else if 41 <= rule && rule <= 43 {
        Some(Key::Events)
    } else if 51 <= rule && rule <= 53 {
        Some(Key::Streams)
    } else {
        None
    }
}

// What a rule on a file as a whole asks.
fn asks_of_file(kind: FileKind, rule: u8) -> &'static str
    ensures { result.now ≡ asks_of_file_spec kind rule }
{
    match kind {
        FileKind::Scenario => scenario_asks(rule),
        FileKind::Ledger => ledger_asks(rule),
        FileKind::Groups => groups_asks(rule),
        FileKind::Plan => plan_asks(rule),
    }
}
