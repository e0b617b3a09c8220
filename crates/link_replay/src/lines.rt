//! The lines of what goes over a link.

ghost use Rattle.std.specs.Prelude.{◌≡◌, ◌++◌, OnOk, string_bytes};
ghost use Rattle.link_replay.specs.Moments.{moment_text};
ghost use Rattle.link_replay.specs.Lines.{other_end as other_end_spec, end_name as end_name_spec, event_name as event_name_spec, word_end as word_end_spec, way_front, end_front, stands_line, leaves_line, gone_line, owes_line, let_go_line, word_line};

use crate::app::WatchedApp;
use srp_base::{Cs, MrpEvent};
use std::alloc::AllocError;
use std::fmt::Write;

/// An end of a link.
#[derive(Clone, Copy, PartialEq, Eq)]
pub enum End {
    A,
    B,
}

impl End {
    /// The other end of the link.
    pub fn other(self) -> End
        ensures { result ≡ other_end_spec self }
    {
        match self {
            End::A => End::B,
            End::B => End::A,
        }
    }

    /// The end by its name.
    pub fn name(self) -> &'static str
        ensures { result.now ≡ end_name_spec self }
    {
        match self {
            End::A => "a",
            End::B => "b",
        }
    }
}

// An attribute event by its name.
fn event_name(event: MrpEvent) -> &'static str
    ensures { result.now ≡ event_name_spec event }
{
    match event {
        MrpEvent::New => "new",
        MrpEvent::JoinIn => "joinin",
        MrpEvent::OnlyIn => "in",
        MrpEvent::JoinMt => "joinmt",
        MrpEvent::OnlyMt => "mt",
        MrpEvent::Lv => "lv",
    }
}

/// Puts a moment, in cs, at the end of a text, in seconds.
pub fn write_moment(out: &mut String, at: Cs) -> Result<(), AllocError>
    ensures { OnOk result (string_bytes out.new ≡ string_bytes out.old ++ moment_text at) }
{
    let seconds = at.0 / 100;
    let cs = at.0 % 100;
    write!(out, "{seconds}.{cs:02}")
}

// What the end `speaker` declares of a key, as it stands at the other.
fn write_way_front<A: WatchedApp>(
    out: &mut String,
    at: Cs,
    speaker: End,
    key: A::Key,
) -> Result<(), AllocError>
    ensures { OnOk result (string_bytes out.new
        ≡ string_bytes out.old ++ way_front at speaker (A.key_text key)) }
{
    write_moment(out, at)?;
    let from = speaker.name();
    let to = speaker.other().name();
    write!(out, " {from}>{to} ")?;
    A::write_key(out, key)
}

/// Puts at the end of a text the moment, in cs, of what an end does, and the end.
pub fn write_end_front(out: &mut String, at: Cs, who: End) -> Result<(), AllocError>
    ensures { OnOk result (string_bytes out.new ≡ string_bytes out.old ++ end_front at who) }
{
    write_moment(out, at)?;
    let name = who.name();
    write!(out, " {name} ")
}

/// The attribute stands.
pub(crate) fn write_stands<A: WatchedApp>(
    out: &mut String,
    at: Cs,
    speaker: End,
    key: A::Key,
    content: A::Content,
) -> Result<(), AllocError>
    ensures { OnOk result (string_bytes out.new ≡ string_bytes out.old
        ++ stands_line at speaker (A.key_text key) (A.content_text content)) }
{
    write_way_front::<A>(out, at, speaker, key)?;
    out.push_str(" IN")?;
    A::write_content(out, content)?;
    out.push_str("\n")
}

/// Its leave timer runs until a moment.
pub(crate) fn write_leaves<A: WatchedApp>(
    out: &mut String,
    at: Cs,
    speaker: End,
    key: A::Key,
    until: Cs,
) -> Result<(), AllocError>
    ensures { OnOk result (string_bytes out.new
        ≡ string_bytes out.old ++ leaves_line at speaker (A.key_text key) until) }
{
    write_way_front::<A>(out, at, speaker, key)?;
    out.push_str(" LV until ")?;
    write_moment(out, until)?;
    out.push_str("\n")
}

/// It stands no more.
pub(crate) fn write_gone<A: WatchedApp>(
    out: &mut String,
    at: Cs,
    speaker: End,
    key: A::Key,
) -> Result<(), AllocError>
    ensures { OnOk result (string_bytes out.new
        ≡ string_bytes out.old ++ gone_line at speaker (A.key_text key)) }
{
    write_way_front::<A>(out, at, speaker, key)?;
    out.push_str(" MT\n")
}

/// An end has to say an attribute anew until a moment.
pub(crate) fn write_owes<A: WatchedApp>(
    out: &mut String,
    at: Cs,
    who: End,
    key: A::Key,
    until: Cs,
) -> Result<(), AllocError>
    ensures { OnOk result (string_bytes out.new
        ≡ string_bytes out.old ++ owes_line at who (A.key_text key) until) }
{
    write_end_front(out, at, who)?;
    out.push_str("owes ")?;
    A::write_key(out, key)?;
    out.push_str(" until ")?;
    write_moment(out, until)?;
    out.push_str("\n")
}

/// It hasn't, and hasn't withdrawn it either.
pub(crate) fn write_let_go<A: WatchedApp>(
    out: &mut String,
    at: Cs,
    who: End,
    key: A::Key,
) -> Result<(), AllocError>
    ensures { OnOk result (string_bytes out.new
        ≡ string_bytes out.old ++ let_go_line at who (A.key_text key)) }
{
    write_end_front(out, at, who)?;
    out.push_str("let ")?;
    A::write_key(out, key)?;
    out.push_str(" go\n")
}

// What the observer holds.
fn word_end(held: bool) -> &'static str
    ensures { result.now ≡ word_end_spec held }
{
    if held {
        ", it stands\n"
    } else {
        ", none stands\n"
    }
}

/// What an end says of its registrar isn't what its observer holds.
pub(crate) fn write_word<A: WatchedApp>(
    out: &mut String,
    at: Cs,
    who: End,
    event: MrpEvent,
    key: A::Key,
    held: bool,
) -> Result<(), AllocError>
    ensures { OnOk result (string_bytes out.new
        ≡ string_bytes out.old ++ word_line at who event (A.key_text key) held) }
{
    write_end_front(out, at, who)?;
    let name = event_name(event);
    write!(out, "says {name} ")?;
    A::write_key(out, key)?;
    out.push_str(word_end(held))
}
