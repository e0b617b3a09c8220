//! What a rule is about in its table: the form of the table, or the values at some keys.

ghost use Rattle.std.specs.Prelude.{◌≡◌};
ghost use Rattle.toml.specs.View.{table_view};
ghost use Rattle.rule_words.specs.Matters.{arrays_form as arrays_form_spec, timers_form as timers_form_spec, plan_stream_form as plan_stream_form_spec, group_form_of_kind as group_form_of_kind_spec, group_event_form as group_event_form_spec, size_keys as size_keys_spec, has as has_spec, is_audio as is_audio_spec, form_of_kind as form_of_kind_spec, has_domains as has_domains_spec, node_form as node_form_spec, event_form as event_form_spec, frame_form as frame_form_spec, form_asked as form_asked_spec, want_form as want_form_spec, names_in as names_in_spec, keys_asked as keys_asked_spec};

use crate::keys::Key;
use crate::kinds::FileKind;
use crate::tables::TableForm;
use toml::Table;
use toml_rules::{text, truth_or, value_at};

// The form of an event, by the word of its kind.
fn form_of_kind(word: &str) -> TableForm
    ensures { result ≡ form_of_kind_spec word.now }
{
    match word {
        "declare" | "withdraw" => TableForm::VlanEvent,
        "talk" | "hush" => TableForm::TalkerEvent,
        "listen" | "unlisten" => TableForm::ListenerEvent,
        "lose" | "repeat" => TableForm::PduEvent,
        "forge" => TableForm::ForgeryEvent,
        _ => TableForm::AnyEvent,
    }
}

// The form of an event.
fn event_form(table: &Table) -> TableForm
    ensures { result ≡ event_form_spec (table_view table.now) }
{
    match text(table, "kind") {
        Some(word) => form_of_kind(word),
        None => TableForm::AnyEvent,
    }
}

// The form of an event of groups, by the word of its kind.
fn group_form_of_kind(word: &str) -> TableForm
    ensures { result ≡ group_form_of_kind_spec word.now }
{
    match word {
        "join" | "part" => TableForm::MemberEvent,
        "lose" | "repeat" => TableForm::PduEvent,
        _ => TableForm::AnyGroupEvent,
    }
}

// The form of an event of groups.
fn group_event_form(table: &Table) -> TableForm
    ensures { result ≡ group_event_form_spec (table_view table.now) }
{
    match text(table, "kind") {
        Some(word) => group_form_of_kind(word),
        None => TableForm::AnyGroupEvent,
    }
}

// Whether a table has a key.
fn has(table: &Table, word: &str) -> bool
    ensures { result ≡ has_spec word.now (table_view table.now) }
{
    value_at(table, word).is_some()
}

// Whether a plan's stream says what its audio is: by its channels, or in place of its octets by what
// goes with channels.
fn is_audio(table: &Table) -> bool
    ensures { result ≡ is_audio_spec (table_view table.now) }
{
    has(table, "channels")
        || !has(table, "octets") && (has(table, "rate_khz") || has(table, "bits"))
}

// The form of a plan's stream.
fn plan_stream_form(table: &Table) -> TableForm
    ensures { result ≡ plan_stream_form_spec (table_view table.now) }
{
    if is_audio(table) {
        TableForm::AudioStream
    } else {
        TableForm::SizedStream
    }
}

// The form of a file, as far as its arrays go.
fn arrays_form(kind: FileKind) -> TableForm
    ensures { result ≡ arrays_form_spec kind }
{
    match kind {
        FileKind::Groups | FileKind::Plan => TableForm::Network,
        _ => TableForm::Scenario,
    }
}

// The form of a file, as far as its times of MRP and its domains go.
fn timers_form(kind: FileKind) -> TableForm
    ensures { result ≡ timers_form_spec kind }
{
    match kind {
        FileKind::Groups => TableForm::GroupTimers,
        FileKind::Plan => TableForm::PlanDomains,
        _ => TableForm::Timers,
    }
}

// The form of a frame: in a stream where it names one.
fn frame_form(table: &Table) -> TableForm
    ensures { result ≡ frame_form_spec (table_view table.now) }
{
    match value_at(table, "stream") {
        Some(_) => TableForm::StreamFrame,
        None => TableForm::PairFrame,
    }
}

fn want_form(entry: u32) -> TableForm
    ensures { result ≡ want_form_spec entry }
{
    if entry == 0 {
        TableForm::WantArray
    } else {
        TableForm::Want
    }
}

/// Whether a file has SRP domains.
pub(crate) fn has_domains(table: &Table) -> bool
    ensures { result ≡ has_domains_spec (table_view table.now) }
{
    match truth_or(table, "domains", false) {
        Some(domains) => domains,
        None => false,
    }
}

fn node_form(domains: bool) -> TableForm
    ensures { result ≡ node_form_spec domains }
{
    if domains {
        TableForm::DomainNode
    } else {
        TableForm::Node
    }
}

/// The form that a rule of a kind of file asks of its table, if it asks one, in a file with or
/// without SRP domains.
pub(crate) fn form_asked(
    kind: FileKind,
    domains: bool,
    rule: u8,
    entry: u32,
    table: &Table,
) -> Option<TableForm>
    ensures { result ≡ form_asked_spec kind domains rule entry (table_view table.now) }
{
    match rule {
        1 => Some(TableForm::Times),
        2 => Some(arrays_form(kind)),
        3 => Some(timers_form(kind)),
        4 => Some(node_form(domains)),
        8 => Some(TableForm::Link),
        16 => Some(TableForm::Stream),
        20 => Some(event_form(table)),
        23 => Some(frame_form(table)),
        31 => Some(TableForm::Port),
        32 => Some(TableForm::Shares),
        33 => Some(want_form(entry)),
        40 => Some(TableForm::Groups),
        41 => Some(group_event_form(table)),
        50 => Some(TableForm::Plan),
        51 => Some(plan_stream_form(table)),
        _ => None,
    }
}

const STATION: [Key; 1] = [Key::Station];

const STREAM: [Key; 1] = [Key::StreamName];

const LISTENER: [Key; 2] = [Key::Station, Key::StreamName];

const FROM_TO: [Key; 2] = [Key::From, Key::To];

const NONE: [Key; 0] = [];

// What an event of this form, or a frame, names.
fn names_in(form: TableForm) -> &'static [Key]
    ensures { result.now ≡ names_in_spec form }
{
    match form {
        TableForm::VlanEvent | TableForm::MemberEvent => STATION.as_slice(),
        TableForm::TalkerEvent | TableForm::StreamFrame => STREAM.as_slice(),
        TableForm::ListenerEvent => LISTENER.as_slice(),
        TableForm::PduEvent | TableForm::ForgeryEvent | TableForm::PairFrame => FROM_TO.as_slice(),
        _ => NONE.as_slice(),
    }
}

const SIZE: [Key; 2] = [Key::Nodes, Key::Ticks];

const COUNT: [Key; 1] = [Key::Nodes];

// The keys of how large a network is.
fn size_keys(kind: FileKind) -> &'static [Key]
    ensures { result.now ≡ size_keys_spec kind }
{
    match kind {
        FileKind::Plan => COUNT.as_slice(),
        _ => SIZE.as_slice(),
    }
}

const NAME: [Key; 1] = [Key::Name];

const NODE_ID: [Key; 1] = [Key::NodeId];

const ENDS: [Key; 2] = [Key::A, Key::B];

const STREAM_ID: [Key; 1] = [Key::StreamId];

const TALKER: [Key; 1] = [Key::Talker];

const TICK: [Key; 1] = [Key::Tick];

const WANT_TICK: [Key; 1] = [Key::WantTick];

const WANT_STREAM: [Key; 1] = [Key::WantStream];

const NAME_AND_ID: [Key; 2] = [Key::Name, Key::NodeId];

const TALKER_AND_LISTENERS: [Key; 2] = [Key::Talker, Key::Listeners];

const WISHES: [Key; 2] = [Key::Nodes, Key::Streams];

/// The keys whose values break a rule of a kind of file that asks no form.
pub(crate) fn keys_asked(kind: FileKind, rule: u8, table: &Table) -> &'static [Key]
    ensures { result.now ≡ keys_asked_spec kind rule (table_view table.now) }
{
    match rule {
        5 => size_keys(kind),
        6 | 13 | 14 | 17 => NAME.as_slice(),
        7 => NODE_ID.as_slice(),
        9..=12 => ENDS.as_slice(),
        18 => STREAM_ID.as_slice(),
        19 => TALKER.as_slice(),
        21 | 42 => TICK.as_slice(),
        22 => names_in(event_form(table)),
        24 => names_in(frame_form(table)),
        34 => WANT_TICK.as_slice(),
        35 => WANT_STREAM.as_slice(),
        43 => names_in(group_event_form(table)),
        52 => NAME_AND_ID.as_slice(),
        53 => TALKER_AND_LISTENERS.as_slice(),
        54 => WISHES.as_slice(),
        _ => NONE.as_slice(),
    }
}
