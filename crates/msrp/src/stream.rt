//! One stream at a node: its Talker's port, and what each link port declares of it and wants for
//! it.

ghost use Rattle.std.specs.Prelude.{◌≡◌, ◌++◌, ◌∷◌, ◌+◌, ◌<◌, ◌≤◌, suc, List, [], Some, None, if◌then◌else◌, length, map, take, drop, find, position, option_map, option_and_then, vec_capacity, vec_len};
ghost use Rattle.std.specs.{List.filter_map, Option.unwrap_or};
ghost use Rattle.srp_base.specs.declared.{numbers.StreamId.StreamId, streams.Talker.Talker, streams.TalkerReg.TheVariants.Absent, streams.ListenerKind.TheVariants.Ready};
ghost use Rattle.port_ledger.specs.Book.{fit_for};
ghost use Rattle.msrp_talker.specs.TalkerOut.{talker_in};
ghost use Rattle.msrp_codec.specs.declared.pdu.MsrpContent.TheVariants as contents;
ghost use Rattle.msrp.specs.PortState.{PortState};
ghost use Rattle.msrp.specs.Part.{talker_reg_of, listener_kind_of, registered_talker, registered_listener, talker_content};
ghost use Rattle.msrp.specs.Holding.{ports_in};
ghost use Rattle.msrp.specs.View.{registrations_from, talkers_from};
ghost use Rattle.msrp.specs.Stream.{talk_of, is_listened, listener_row, talkers_of, want_in_class, is_number, is_present, first_talker, is_talker_port, want_of_talker, want_of_reg, is_ready, wanted_at, fit_at, talker_at, is_advertised, own_listener, other_listeners, heard_from, listener_at, stated_at};

use crate::app::MsrpApp;
use crate::domain::{domain_stated, is_edge};
use crate::port::Port;
use crate::view::PortView;
use mrp_participant::Participant;
use msrp_codec::{MsrpContent, MsrpKey};
use msrp_listener::{PortListener, listener_out};
use msrp_talker::{check, class_of, talker_out};
use port_ledger::Ledger;
use srp_base::{Class, Cs, ListenerKind, StreamId, Talker, TalkerReg};
use stream_importance::{Fit, Want, slope_of};

// ---- what is registered

// What a content says of a Talker.
fn talker_reg_of(content: Option<MsrpContent>) -> TalkerReg
    ensures { result ≡ talker_reg_of content }
{
    match content {
        Some(MsrpContent::Advertise(talker)) => TalkerReg::Advertise(talker),
        Some(MsrpContent::Failed(talker, failure)) => TalkerReg::Failed(talker, failure),
        Some(MsrpContent::Listener(_)) => TalkerReg::Absent,
        Some(MsrpContent::Domain { .. }) => TalkerReg::Absent,
        None => TalkerReg::Absent,
    }
}

// What a content says of Listeners.
fn listener_kind_of(content: Option<MsrpContent>) -> Option<ListenerKind>
    ensures { result ≡ listener_kind_of content }
{
    match content {
        Some(MsrpContent::Listener(kind)) => Some(kind),
        Some(MsrpContent::Advertise(_)) => None,
        Some(MsrpContent::Failed(_, _)) => None,
        Some(MsrpContent::Domain { .. }) => None,
        None => None,
    }
}

// Whether a content is a Talker's.
pub(crate) fn is_talker_content(content: Option<MsrpContent>) -> bool
    ensures { result ≡ is_present (talker_reg_of content) }
{
    let reg = talker_reg_of(content);
    is_present(&reg)
}

// What is registered of a stream's Talker at a port.
pub(crate) fn registered_talker(part: &Participant<MsrpApp>, stream: StreamId) -> TalkerReg
    ensures { result ≡ registered_talker stream part.now.state }
{
    talker_reg_of(part.registered(MsrpKey::Talker(stream)))
}

// What is registered of a stream's Listeners at a port.
fn registered_listener(part: &Participant<MsrpApp>, stream: StreamId) -> Option<ListenerKind>
    ensures { result ≡ registered_listener stream part.now.state }
{
    listener_kind_of(part.registered(MsrpKey::Listener(stream)))
}

// The application's Talker of a stream.
pub(crate) fn talk_of(talks: &[Talker], stream: StreamId) -> Option<Talker>
    ensures { result ≡ talk_of stream talks.now }
{
    for talker in talks {
        if talker.stream == stream {
            return Some(*talker);
        }
    }
    None
}

// Whether the application listens to a stream.
pub(crate) fn is_listened(listens: &[StreamId], stream: StreamId) -> bool
    ensures { result ≡ is_listened stream listens.now }
{
    listens.iter().any(|other| *other == stream)
}

// The Listeners of a stream at a port, with whether it has the stream booked.
fn listener_row(port: &Port, stream: StreamId) -> Option<PortListener>
    ensures { result ≡ listener_row stream port.now.state }
{
    let booked = port.ledger().booked(stream).is_some();
    registered_listener(port.part(), stream).map(|kind| PortListener { kind, booked })
}

// Whether a Talker is registered.
fn is_present(reg: &TalkerReg) -> bool
    ensures { result ≡ is_present reg.now }
{
    match reg {
        TalkerReg::Absent => false,
        TalkerReg::Advertise(_) => true,
        TalkerReg::Failed(_, _) => true,
    }
}

// Whether a Talker is advertised.
fn is_advertised(reg: &TalkerReg) -> bool
    ensures { result ≡ is_advertised reg.now }
{
    match reg {
        TalkerReg::Absent => false,
        TalkerReg::Advertise(_) => true,
        TalkerReg::Failed(_, _) => false,
    }
}

// ---- the Talker's port

// A link port where a stream's Talker is registered, by its place, and what is registered there.
#[derive(Clone, Copy)]
struct TalkerPort {
    place: usize,
    reg: TalkerReg,
}

// The lowest of these link ports where a stream's Talker is registered.
fn talker_port(ports: &[Port], stream: StreamId) -> Option<TalkerPort>
    ensures place { option_map (λ r. r.place) result
        ≡ position is_present (map (λ p. registered_talker stream p.part) (ports_in ports.now)) }
    ensures reg { option_map (λ r. r.reg) result
        ≡ find is_present (map (λ p. registered_talker stream p.part) (ports_in ports.now)) }
{
    for (place, port) in ports.iter().enumerate() {
        let reg = registered_talker(port.part(), stream);
        if is_present(&reg) {
            return Some(TalkerPort { place, reg });
        }
    }
    None
}

// What is registered of a stream at its Talker's port.
pub(crate) fn talker_of(view: &PortView<'_>, stream: StreamId) -> TalkerReg
    ensures { result ≡ first_talker (talkers_from view.now stream) }
{
    seen_from(view, stream).reg
}

// Whether the application is a stream's Talker's port.
pub(crate) fn is_own(talks: &[Talker], stream: StreamId) -> bool
    ensures { (ports : List PortState) → result
        ≡ is_talker_port 0 (talkers_of talks.now ports stream) }
{
    talk_of(talks, stream).is_some()
}

// A stream's Talker as a link port sees it: whether the Talker's port is that port, and what is
// registered there.
#[derive(Clone, Copy)]
struct TalkerSeen {
    is_here: bool,
    reg: TalkerReg,
}

// A stream's Talker as a link port sees it.
fn seen_from(view: &PortView<'_>, stream: StreamId) -> TalkerSeen
    ensures here { result.is_here
        ≡ is_talker_port (suc view.now.at) (talkers_from view.now stream) }
    ensures reg { result.reg ≡ first_talker (talkers_from view.now stream) }
{
    match talk_of(view.talks, stream) {
        Some(talker) => TalkerSeen {
            is_here: false,
            reg: TalkerReg::Advertise(talker),
        },
        None => seen_at(talker_port(view.ports, stream), view.at),
    }
}

// A Talker that is registered at a link port, or nowhere, as the link port at a place sees it.
fn seen_at(port: Option<TalkerPort>, at: usize) -> TalkerSeen
    ensures here { result.is_here ≡ is_number at (option_map (λ r. r.place) port) }
    ensures reg { result.reg ≡ unwrap_or (option_map (λ r. r.reg) port) Absent }
{
    match port {
        Some(port) => TalkerSeen {
            is_here: port.place == at,
            reg: port.reg,
        },
        None => TalkerSeen {
            is_here: false,
            reg: TalkerReg::Absent,
        },
    }
}

// ---- what a link port wants

// What a Talker asks of a port.
fn want_of_talker(talker: &Talker) -> Option<Want>
    ensures { result ≡ want_of_talker talker.now }
{
    class_of(talker.priority.get()).map(|class| want_in_class(talker, class))
}

// What a Talker asks of a port in a class.
fn want_in_class(talker: &Talker, class: Class) -> Want
    ensures { result ≡ want_in_class talker.now class }
{
    Want {
        stream: talker.stream,
        class,
        rank: talker.rank,
        slope: slope_of(class, talker.max_frame, talker.frames),
    }
}

// What is wanted for a registered Talker, at a port that is at the boundary of its domain or not.
fn want_of_reg(edge: bool, reg: TalkerReg) -> Option<Want>
    ensures { result ≡ want_of_reg edge reg }
{
    match reg {
        TalkerReg::Absent => None,
        TalkerReg::Failed(_, _) => None,
        TalkerReg::Advertise(talker) => {
            if !edge && check(&talker).is_none() {
                want_of_talker(&talker)
            } else {
                None
            }
        }
    }
}

// Whether some Listener behind a port can have the stream.
fn is_ready(kind: Option<ListenerKind>) -> bool
    ensures { result ≡ is_ready kind }
{
    match kind {
        None => false,
        Some(ListenerKind::AskingFailed) => false,
        Some(ListenerKind::Ready) => true,
        Some(ListenerKind::ReadyFailed) => true,
    }
}

// What a link port wants for a stream, by what it sees.
pub(crate) fn wanted_at(view: &PortView<'_>, port: &Port, stream: StreamId) -> Option<Want>
    ensures { result
        ≡ wanted_at view.now.at port.now.state (talkers_from view.now stream) stream }
{
    if !is_ready(registered_listener(port.part(), stream)) {
        return None;
    }
    let seen = seen_from(view, stream);
    if seen.is_here {
        return None;
    }
    let edge = is_edge(port.domain(), port.part(), seen.reg);
    want_of_reg(edge, seen.reg)
}

// ---- what a link port declares

// The Talker of what is registered.
pub(crate) fn talker_in(reg: TalkerReg) -> Option<Talker>
    ensures { result ≡ talker_in reg }
{
    match reg {
        TalkerReg::Absent => None,
        TalkerReg::Advertise(talker) => Some(talker),
        TalkerReg::Failed(talker, _) => Some(talker),
    }
}

// Whether what a registered Talker asks for fits, by a ledger at a moment in cs; None where it asks
// for nothing.
fn fit_of(reg: TalkerReg, ledger: &Ledger, now: Cs) -> Option<Fit>
    requires { ledger.now.book.moment ≤ now.0 }
    ensures { result
        ≡ option_map (fit_for now.0 ledger.now.book) (option_and_then want_of_talker
        (talker_in reg)) }
{
    let want = talker_in(reg).and_then(|talker| want_of_talker(&talker));
    match want {
        Some(want) => Some(ledger.fits(now, &want)),
        None => None,
    }
}

// Whether what a stream's Talker asks for fits at a link port, by a ledger at a moment in cs.
pub(crate) fn fit_at(view: &PortView<'_>, ledger: &Ledger, now: Cs, stream: StreamId) -> Option<Fit>
    requires { ledger.now.book.moment ≤ now.0 }
    ensures { result ≡ fit_at now.0 view.now.at ledger.now.book (talkers_from view.now stream) }
{
    let seen = seen_from(view, stream);
    if seen.is_here {
        return None;
    }
    fit_of(seen.reg, ledger, now)
}

// What a link port declares of a stream's Talker.
fn talker_at(view: &PortView<'_>, port: &Port, stream: StreamId) -> TalkerReg
    ensures { result ≡ talker_at view.now.at port.now.state (talkers_from view.now stream) }
{
    let seen = seen_from(view, stream);
    if seen.is_here {
        return TalkerReg::Absent;
    }
    let edge = is_edge(port.domain(), port.part(), seen.reg);
    let ledger = port.ledger();
    let fit = fit_of(seen.reg, ledger, ledger.moment()).unwrap_or(Fit::Fits);
    talker_out(seen.reg, port.config(), edge, fit)
}

// The application as a port with a Listener, by what is registered at the Talker's port.
fn own_listener(listens: &[StreamId], stream: StreamId, talker: &TalkerReg) -> Option<PortListener>
    ensures { result ≡ (if is_listened stream listens.now
        then Some (record { kind = Ready; booked = is_advertised talker.now }) else None) }
{
    if is_listened(listens, stream) {
        Some(PortListener {
            kind: ListenerKind::Ready,
            booked: is_advertised(talker),
        })
    } else {
        None
    }
}

// Puts a row that is there at the end. There is room for it.
fn push_row(out: &mut Vec<PortListener>, row: Option<PortListener>)
    requires { vec_len out.old < vec_capacity out.old }
    ensures items { out.new.items ≡ out.old.items ++ filter_map (λ row. row) (row ∷ []) }
    ensures len { vec_len out.new ≤ vec_len out.old + 1 }
    ensures capacity { vec_capacity out.new ≡ vec_capacity out.old }
{
    if let Some(row) = row {
        out.push_reserved(row);
    }
}

// Puts the Listeners of a stream at each of these ports at the end. There is room for one of each.
fn push_rows(out: &mut Vec<PortListener>, ports: &[Port], stream: StreamId)
    requires { vec_len out.old + length ports.now ≤ vec_capacity out.old }
    ensures items { out.new.items
        ≡ out.old.items
        ++ filter_map (λ row. row) (map (listener_row stream) (ports_in ports.now)) }
    ensures len { vec_len out.new ≤ vec_len out.old + length ports.now }
    ensures capacity { vec_capacity out.new ≡ vec_capacity out.old }
{
    for port in ports {
        push_row(out, listener_row(port, stream));
    }
}

// The ports before a place, and those after it.
fn before(ports: &[Port], at: usize) -> &[Port]
    requires { at < length ports.now }
    ensures { result.now ≡ take at ports.now }
{
    &ports[..at]
}

fn after(ports: &[Port], at: usize) -> &[Port]
    requires { at < length ports.now }
    ensures { result.now ≡ drop (suc at) ports.now }
{
    &ports[at + 1..]
}

// Puts the Listeners of a stream at all ports but one, by what is registered at the Talker's port,
// in the place of what a list has. There is room for one of each port and the application.
fn put_other_listeners(
    rows: &mut Vec<PortListener>,
    view: &PortView<'_>,
    stream: StreamId,
    talker: &TalkerReg,
)
    requires place { view.now.at < length view.now.ports.now }
    requires room { length view.now.ports.now < vec_capacity rows.old }
    ensures rows { talker.now ≡ first_talker (talkers_from view.now stream)
        → rows.new.items ≡ other_listeners view.now.at (registrations_from view.now stream) }
    ensures capacity { vec_capacity rows.new ≡ vec_capacity rows.old }
{
    rows.clear();
    push_row(rows, own_listener(view.listens, stream, talker));
    push_rows(rows, before(view.ports, view.at), stream);
    push_rows(rows, after(view.ports, view.at), stream);
}

// What a link port declares of a stream's Listeners. The list has room for one of each port and the
// application.
fn listener_at(
    rows: &mut Vec<PortListener>,
    view: &PortView<'_>,
    stream: StreamId,
) -> Option<ListenerKind>
    requires place { view.now.at < length view.now.ports.now }
    requires room { length view.now.ports.now < vec_capacity rows.old }
    ensures kind { result ≡ listener_at view.now.at (registrations_from view.now stream) }
    ensures capacity { vec_capacity rows.new ≡ vec_capacity rows.old }
{
    let seen = seen_from(view, stream);
    if !seen.is_here {
        return None;
    }
    put_other_listeners(rows, view, stream, &seen.reg);
    listener_out(rows.as_slice())
}

// The content by which a Talker is declared.
fn talker_content(reg: TalkerReg) -> Option<MsrpContent>
    ensures { result ≡ talker_content reg }
{
    match reg {
        TalkerReg::Absent => None,
        TalkerReg::Advertise(talker) => Some(MsrpContent::Advertise(talker)),
        TalkerReg::Failed(talker, failure) => Some(MsrpContent::Failed(talker, failure)),
    }
}

// The content by which Listeners are declared.
fn listener_content(kind: Option<ListenerKind>) -> Option<MsrpContent>
    ensures { result ≡ option_map contents.Listener kind }
{
    match kind {
        Some(kind) => Some(MsrpContent::Listener(kind)),
        None => None,
    }
}

// What a link port declares of a key. The list has room for one of each port and the application.
pub(crate) fn stated_at(
    rows: &mut Vec<PortListener>,
    view: &PortView<'_>,
    port: &Port,
    key: MsrpKey,
) -> Option<MsrpContent>
    requires place { view.now.at < length view.now.ports.now }
    requires room { length view.now.ports.now < vec_capacity rows.old }
    ensures content { result
        ≡ stated_at view.now.at port.now.state (registrations_from view.now) key }
    ensures capacity { vec_capacity rows.new ≡ vec_capacity rows.old }
{
    match key {
        MsrpKey::Talker(stream) => {
            let reg = talker_at(view, port, stream);
            talker_content(reg)
        }
        MsrpKey::Listener(stream) => {
            let kind = listener_at(rows, view, stream);
            listener_content(kind)
        }
        MsrpKey::Domain(class) => domain_stated(port.domain(), class),
    }
}

// ---- what the application hears

// What a Talker lets the application have.
pub(crate) fn heard_of(reg: TalkerReg) -> Option<ListenerKind>
    ensures { result ≡ heard_from reg }
{
    match reg {
        TalkerReg::Absent => None,
        TalkerReg::Advertise(_) => Some(ListenerKind::Ready),
        TalkerReg::Failed(_, _) => Some(ListenerKind::AskingFailed),
    }
}
