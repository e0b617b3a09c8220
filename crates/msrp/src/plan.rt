//! What settling a port needs, taken together before anything changes: what its streams want, and
//! lists that have room.

ghost use Rattle.std.specs.Prelude.{◌≡◌, ◌+◌, ◌≤◌, ◌<◌, [], length, map, vec_capacity, vec_len, IfOk};
ghost use Rattle.std.specs.List.{filter_map};
ghost use Rattle.port_ledger.specs.Decision.{IsAscending, booked_of};
ghost use Rattle.msrp.specs.Holding.{ports_in};
ghost use Rattle.msrp.specs.Plan.{IsPlan, asked_at, missing_row, missing_rows};
ghost use Rattle.msrp.specs.Settling.{stream_in, streams_in, talker_keys};

use crate::app::MsrpApp;
use crate::port::Port;
use crate::stream::wanted_at;
use crate::talker_keys::{sum, talker_count};
use crate::told::stream_in;
use crate::view::PortView;
use attribute_propagation::Dirty;
use mrp_participant::Participant;
use msrp_codec::{MsrpContent, MsrpKey};
use msrp_listener::PortListener;
use port_ledger::Ledger;
use srp_base::{NoMemory, Seq, StreamId};
use std::alloc::{AllocError, Global};
use stream_importance::{Entry, Want};

// What a port wants for a stream.
#[derive(Clone, Copy)]
pub(crate) struct Asked {
    pub(crate) stream: StreamId,
    pub(crate) want: Option<Want>,
}

// What a port declares of a key; None where it withdraws it.
#[derive(Clone, Copy)]
pub(crate) struct Stated {
    pub(crate) key: MsrpKey,
    pub(crate) content: Option<MsrpContent>,
}

// All that settling a port needs.
#[derive(Drop)]
pub(crate) struct Plan {
    // What each stream of which a key awaits wants, ascending.
    pub(crate) asked: Vec<Asked>,
    // How many of the awaiting keys have no row at the port.
    pub(crate) missing: usize,
    // The bookings before.
    pub(crate) before: Seq<Entry>,
    // Room for the streams whose booking moves, and for their Listener keys.
    pub(crate) moved: Vec<StreamId>,
    pub(crate) told: Vec<MsrpKey>,
    // Room for the Listeners of a stream.
    pub(crate) rows: Vec<PortListener>,
    // Room for what is declared of each key that is settled.
    pub(crate) stated: Vec<Stated>,
}

// The plan for a port where these keys await.
pub(crate) fn plan_of(
    alloc: Global,
    view: &PortView<'_>,
    port: &Port,
    keys: &[MsrpKey],
) -> Result<Plan, NoMemory>
    ensures { IfOk result (λ plan. IsPlan view.now.at view.now.talks.now
        (ports_in view.now.ports.now) keys.now plan port.now.state) }
{
    let asked = asked_by(alloc, view, port, keys)?;
    let missing = missing_rows(port.part(), keys)?;
    let before = bookings(port.ledger())?;
    let moving = most_moved(port.ledger(), before.as_slice(), asked.len())?;
    let talkers = talker_count(view.talks, view.ports)?;
    let stating = sum(keys.len(), talkers)?;
    let rows = sum(view.ports.len(), 1)?;
    lists(alloc, asked, missing, before, moving, rows, stating)
}

// The booked entries of a ledger.
fn bookings(ledger: &Ledger) -> Result<Seq<Entry>, NoMemory>
    ensures booked { IfOk result (λ s. s ≡ booked_of ledger.now.book.entries) }
    ensures ascending { IfOk result (λ s. IsAscending s) }
{
    ledger.bookings()
}

// How many streams may move where so many are asked for: each that has an entry then, and each that
// was booked.
fn most_moved(ledger: &Ledger, before: &[Entry], asked: usize) -> Result<usize, NoMemory>
    ensures { IfOk result (λ n. n
        ≡ (length ledger.now.book.entries + length before.now) + asked) }
{
    sum(sum(ledger.len(), before.len())?, asked)
}

// How many of these keys have no row.
fn missing_rows(part: &Participant<MsrpApp>, keys: &[MsrpKey]) -> Result<usize, NoMemory>
    ensures { IfOk result (λ n. n ≡ missing_rows keys.now part.now.state) }
{
    let mut count = 0;
    for key in keys {
        count = sum(count, missing_row(part, *key))?;
    }
    Ok(count)
}

fn missing_row(part: &Participant<MsrpApp>, key: MsrpKey) -> usize
    ensures { result ≡ missing_row key part.now.state }
{
    if part.has_row(key) { 0 } else { 1 }
}

// A plan whose lists have room for so many.
fn lists(
    alloc: Global,
    asked: Vec<Asked>,
    missing: usize,
    before: Seq<Entry>,
    moving: usize,
    rows: usize,
    stating: usize,
) -> Result<Plan, NoMemory>
    ensures asked { IfOk result (λ p. p.asked.items ≡ asked.items) }
    ensures missing { IfOk result (λ p. p.missing ≡ missing) }
    ensures before { IfOk result (λ p. p.before ≡ before) }
    ensures moved { IfOk result (λ p. p.moved.items ≡ []) }
    ensures moved_len { IfOk result (λ p. vec_len p.moved ≡ 0) }
    ensures moving { IfOk result (λ p. vec_capacity p.moved ≡ moving) }
    ensures told { IfOk result (λ p. p.told.items ≡ []) }
    ensures told_len { IfOk result (λ p. vec_len p.told ≡ 0) }
    ensures telling { IfOk result (λ p. vec_capacity p.told ≡ moving) }
    ensures rows { IfOk result (λ p. vec_capacity p.rows ≡ rows) }
    ensures stated { IfOk result (λ p. p.stated.items ≡ []) }
    ensures stated_len { IfOk result (λ p. vec_len p.stated ≡ 0) }
    ensures stating { IfOk result (λ p. vec_capacity p.stated ≡ stating) }
{
    let moved = Vec::with_capacity(alloc, moving)?;
    let told = Vec::with_capacity(alloc, moving)?;
    let rows = Vec::with_capacity(alloc, rows)?;
    let stated = Vec::with_capacity(alloc, stating)?;
    Ok(Plan {
        asked,
        missing,
        before,
        moved,
        told,
        rows,
        stated,
    })
}

// ---- what the streams want

// The streams of these keys.
fn streams_of(alloc: Global, keys: &[MsrpKey]) -> Result<Vec<StreamId>, AllocError>
    ensures { IfOk result (λ v. v.items ≡ filter_map stream_in keys.now) }
{
    keys.iter().filter_map(|key| stream_in(*key)).collect(alloc)
}

// The streams of which a key is among these, ascending.
fn streams_in(alloc: Global, keys: &[MsrpKey]) -> Result<Dirty<StreamId>, NoMemory>
    ensures { IfOk result (λ d. d.keys ≡ streams_in keys.now) }
{
    let streams = streams_of(alloc, keys)?;
    let mut all = Dirty::new(alloc);
    all.room(streams.len())?;
    all.mark_all(streams.as_slice());
    Ok(all)
}

// What a port wants for each of these streams.
fn asked_of(
    alloc: Global,
    view: &PortView<'_>,
    port: &Port,
    streams: &[StreamId],
) -> Result<Vec<Asked>, NoMemory>
    ensures { IfOk result (λ v. v.items
        ≡ map (asked_at view.now.at view.now.talks.now (ports_in view.now.ports.now) port.now.state)
        streams.now) }
{
    let mut asked = Vec::with_capacity(alloc, streams.len())?;
    for stream in streams {
        let want = wanted_at(view, port, *stream);
        asked.push(Asked {
            stream: *stream,
            want,
        })?;
    }
    Ok(asked)
}

// What a port wants for each stream of which a key is among these, ascending.
fn asked_by(
    alloc: Global,
    view: &PortView<'_>,
    port: &Port,
    keys: &[MsrpKey],
) -> Result<Vec<Asked>, NoMemory>
    ensures { IfOk result (λ v. v.items
        ≡ map (asked_at view.now.at view.now.talks.now (ports_in view.now.ports.now) port.now.state)
        (streams_in keys.now)) }
{
    let streams = streams_in(alloc, keys)?;
    asked_of(alloc, view, port, streams.as_slice())
}
