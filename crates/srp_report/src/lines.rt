//! The lines of a network of streams. Each is put at the end of a text.

ghost use Rattle.std.specs.Prelude.{◌≡◌, ◌++◌, OnOk, Some};
ghost use Rattle.srp_report.specs.Lines.{vlan_line, talker_start, failure_text, talker_end, talker_line, listener_line, domain_line, srp_line, want_line, booked_line, heard_line, kind_name as kind_name_spec, heard_name as heard_name_spec};

use msrp_codec::{MsrpContent, MsrpKey};
use registrar::Registrar;
use report_words::{class_name, put, put_octets, state_name};
use srp_base::{Cs, Failure, ListenerKind, NoMemory, StreamId, Talker, Vid};
use stream_importance::{Entry, Want};

/// The line of a VID that is registered at a port.
pub(crate) fn put_vlan(
    out: &mut Vec<u8>,
    port: &[u8],
    vid: Vid,
    state: Registrar,
) -> Result<(), NoMemory>
    ensures { OnOk result (out.new.items ≡ out.old.items ++ vlan_line port.now vid state) }
{
    let alloc = *out.allocator();
    let number = vid.get();
    let name = state_name(state);
    let registered = format!(in alloc; " {number} {name}\n")?;
    put(out, "vlan ")?;
    put_octets(out, port)?;
    put(out, &registered)
}

/// The line of an attribute of MSRP that is registered at a port with this content; where there are
/// no SRP domains a Domain has none.
pub(crate) fn put_srp(
    out: &mut Vec<u8>,
    domains: bool,
    port: &[u8],
    key: MsrpKey,
    content: Option<MsrpContent>,
    state: Registrar,
) -> Result<(), NoMemory>
    ensures { OnOk result (out.new.items ≡ out.old.items
        ++ srp_line domains port.now key content state) }
{
    match key {
        MsrpKey::Talker(stream) => put_talker(out, port, stream, content, state),
        MsrpKey::Listener(stream) => put_listener(out, port, stream, content, state),
        MsrpKey::Domain(class) => {
            if domains {
                put_domain(out, port, class, content, state)
            } else {
                Ok(())
            }
        }
    }
}

// The line of a Talker.
fn put_talker(
    out: &mut Vec<u8>,
    port: &[u8],
    stream: StreamId,
    content: Option<MsrpContent>,
    state: Registrar,
) -> Result<(), NoMemory>
    ensures { OnOk result (out.new.items
        ≡ out.old.items ++ talker_line port.now stream content state) }
{
    match content {
        Some(MsrpContent::Advertise(talker)) => put_advertised(out, port, stream, talker, state),
        Some(MsrpContent::Failed(talker, failure)) => {
            put_failed(out, port, stream, talker, failure, state)
        }
        Some(MsrpContent::Listener(_)) | Some(MsrpContent::Domain { .. }) | None => Ok(()),
    }
}

// The line of a Talker Advertise.
fn put_advertised(
    out: &mut Vec<u8>,
    port: &[u8],
    stream: StreamId,
    talker: Talker,
    state: Registrar,
) -> Result<(), NoMemory>
    ensures { OnOk result (out.new.items
        ≡ out.old.items ++ talker_line port.now stream (Some (MsrpContent.Advertise talker))
        state) }
{
    put_talker_start(out, port, stream)?;
    put(out, " advertise latency ")?;
    put_talker_end(out, talker.latency, state)
}

// The line of a Talker Failed.
fn put_failed(
    out: &mut Vec<u8>,
    port: &[u8],
    stream: StreamId,
    talker: Talker,
    failure: Failure,
    state: Registrar,
) -> Result<(), NoMemory>
    ensures { OnOk result (out.new.items ≡ out.old.items
        ++ talker_line port.now stream (Some (MsrpContent.Failed talker failure)) state) }
{
    put_talker_start(out, port, stream)?;
    put_failure(out, failure)?;
    put_talker_end(out, talker.latency, state)
}

// The port and the stream of a Talker.
fn put_talker_start(out: &mut Vec<u8>, port: &[u8], stream: StreamId) -> Result<(), NoMemory>
    ensures { OnOk result (out.new.items ≡ out.old.items ++ talker_start port.now stream) }
{
    let alloc = *out.allocator();
    let id = format!(in alloc; " {stream}")?;
    put(out, "talker ")?;
    put_octets(out, port)?;
    put(out, &id)
}

// Why a Talker failed, and where.
fn put_failure(out: &mut Vec<u8>, failure: Failure) -> Result<(), NoMemory>
    ensures { OnOk result (out.new.items ≡ out.old.items ++ failure_text failure) }
{
    let alloc = *out.allocator();
    let Failure { bridge, code } = failure;
    let text = format!(in alloc; " failed bridge {bridge} code {code} latency ")?;
    put(out, &text)
}

// The latency of a Talker in ns, and its Registrar.
fn put_talker_end(out: &mut Vec<u8>, latency: u32, state: Registrar) -> Result<(), NoMemory>
    ensures { OnOk result (out.new.items ≡ out.old.items ++ talker_end latency state) }
{
    let alloc = *out.allocator();
    let name = state_name(state);
    let text = format!(in alloc; "{latency} {name}\n")?;
    put(out, &text)
}

// What a Listener declares, in a word.
fn kind_name(kind: ListenerKind) -> &'static str
    ensures { result.now ≡ kind_name_spec kind }
{
    match kind {
        ListenerKind::AskingFailed => "asking-failed",
        ListenerKind::Ready => "ready",
        ListenerKind::ReadyFailed => "ready-failed",
    }
}

// The line of the Listeners of a stream.
fn put_listener(
    out: &mut Vec<u8>,
    port: &[u8],
    stream: StreamId,
    content: Option<MsrpContent>,
    state: Registrar,
) -> Result<(), NoMemory>
    ensures { OnOk result (out.new.items
        ≡ out.old.items ++ listener_line port.now stream content state) }
{
    match content {
        Some(MsrpContent::Listener(kind)) => put_listening(out, port, stream, kind, state),
        Some(MsrpContent::Advertise(_))
        | Some(MsrpContent::Failed(_, _))
        | Some(MsrpContent::Domain { .. })
        | None => Ok(()),
    }
}

// The line of Listeners of this kind.
fn put_listening(
    out: &mut Vec<u8>,
    port: &[u8],
    stream: StreamId,
    kind: ListenerKind,
    state: Registrar,
) -> Result<(), NoMemory>
    ensures { OnOk result (out.new.items
        ≡ out.old.items ++ listener_line port.now stream (Some (MsrpContent.Listener kind)) state) }
{
    let alloc = *out.allocator();
    let word = kind_name(kind);
    let name = state_name(state);
    let registered = format!(in alloc; " {stream} {word} {name}\n")?;
    put(out, "listener ")?;
    put_octets(out, port)?;
    put(out, &registered)
}

// The line of the Domain of an SR class, by its SRclassID.
fn put_domain(
    out: &mut Vec<u8>,
    port: &[u8],
    class: u8,
    content: Option<MsrpContent>,
    state: Registrar,
) -> Result<(), NoMemory>
    ensures { OnOk result (out.new.items
        ≡ out.old.items ++ domain_line port.now class content state) }
{
    match content {
        Some(MsrpContent::Domain { priority, vid }) => {
            put_domain_value(out, port, class, priority, vid, state)
        }
        Some(MsrpContent::Advertise(_))
        | Some(MsrpContent::Failed(_, _))
        | Some(MsrpContent::Listener(_))
        | None => Ok(()),
    }
}

// The line of a Domain of this SRclassPriority and SRclassVID.
fn put_domain_value(
    out: &mut Vec<u8>,
    port: &[u8],
    class: u8,
    priority: u8,
    vid: u16,
    state: Registrar,
) -> Result<(), NoMemory>
    ensures { OnOk result (out.new.items ≡ out.old.items
        ++ domain_line port.now class (Some (MsrpContent.Domain priority vid)) state) }
{
    let alloc = *out.allocator();
    let name = state_name(state);
    let registered = format!(in alloc; " {class} priority {priority} vid {vid} {name}\n")?;
    put(out, "domain ")?;
    put_octets(out, port)?;
    put(out, &registered)
}

/// The line of a stream that is booked at a port.
pub(crate) fn put_booked(out: &mut Vec<u8>, port: &[u8], entry: Entry) -> Result<(), NoMemory>
    ensures { OnOk result (out.new.items ≡ out.old.items ++ booked_line port.now entry) }
{
    match entry.since {
        Some(since) => put_want(out, port, entry.want, since),
        None => Ok(()),
    }
}

// The line of a want that is booked since a moment.
fn put_want(out: &mut Vec<u8>, port: &[u8], want: Want, since: Cs) -> Result<(), NoMemory>
    ensures { OnOk result (out.new.items
        ≡ out.old.items ++ want_line port.now want (Some since)) }
{
    let alloc = *out.allocator();
    let Want {
        stream,
        class,
        slope,
        ..
    } = want;
    let letter = class_name(class);
    let moment = since.0;
    let booked = format!(in alloc; " {stream} {letter} slope {slope} since {moment}\n")?;
    put(out, "booked ")?;
    put_octets(out, port)?;
    put(out, &booked)
}

// What an application hears, in a word.
fn heard_name(heard: Option<ListenerKind>) -> &'static str
    ensures { result.now ≡ heard_name_spec heard }
{
    match heard {
        Some(kind) => kind_name(kind),
        None => "nothing",
    }
}

/// The line of what a station of this name hears of a stream.
pub(crate) fn put_heard(
    out: &mut Vec<u8>,
    name: &[u8],
    stream: StreamId,
    heard: Option<ListenerKind>,
) -> Result<(), NoMemory>
    ensures { OnOk result (out.new.items ≡ out.old.items ++ heard_line name.now stream heard) }
{
    let alloc = *out.allocator();
    let word = heard_name(heard);
    let line = format!(in alloc; " {stream} {word}\n")?;
    put(out, "heard ")?;
    put_octets(out, name)?;
    put(out, &line)
}
