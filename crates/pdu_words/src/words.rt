//! The words of the lines.

ghost use Rattle.std.specs.Prelude.{◌≡◌, ◌++◌, OnOk, string_bytes};
ghost use Rattle.pdu_words.specs.Events.{event_name as event_name_spec, kind_name as kind_name_spec, rank_digit as rank_digit_spec, yes_or_no as yes_or_no_spec, app_name as app_name_spec, leaveall_text, malformed_text, no_octets_text};

use mrpdu_codec::AppForm;
use srp_base::{ListenerKind, MrpEvent, Rank};
use std::alloc::AllocError;
use std::fmt::Write;

/// An attribute event by its name.
pub(crate) fn event_name(event: MrpEvent) -> &'static str
    ensures { result.now ≡ event_name_spec event }
{
    match event {
        MrpEvent::New => "new",
        MrpEvent::JoinIn => "joinin",
        MrpEvent::OnlyIn => "in",
        MrpEvent::JoinMt => "joinmt",
        MrpEvent::OnlyMt => "mt",
        MrpEvent::Lv => "lv",
    }
}

/// What a Listener declares, in a word.
pub(crate) fn kind_name(kind: ListenerKind) -> &'static str
    ensures { result.now ≡ kind_name_spec kind }
{
    match kind {
        ListenerKind::AskingFailed => "asking-failed",
        ListenerKind::Ready => "ready",
        ListenerKind::ReadyFailed => "ready-failed",
    }
}

/// The Rank bit, as a digit.
pub(crate) fn rank_digit(rank: Rank) -> &'static str
    ensures { result.now ≡ rank_digit_spec rank }
{
    match rank {
        Rank::Emergency => "0",
        Rank::Normal => "1",
    }
}

// The word of an answer.
fn yes_or_no(answer: bool) -> &'static str
    ensures { result.now ≡ yes_or_no_spec answer }
{
    if answer { "yes" } else { "no" }
}

/// What a PDU that can be read says first.
pub(crate) fn write_leaveall(out: &mut String, leave_all: bool) -> Result<(), AllocError>
    ensures { OnOk result (string_bytes out.new ≡ string_bytes out.old ++ leaveall_text leave_all) }
{
    let word = yes_or_no(leave_all);
    writeln!(out, " leaveall {word}")
}

/// Puts at the end of a text that a PDU breaks at an offset in octets, from 0.
pub fn write_malformed(out: &mut String, place: u32) -> Result<(), AllocError>
    ensures { OnOk result (string_bytes out.new ≡ string_bytes out.old ++ malformed_text place) }
{
    writeln!(out, " malformed {place}")
}

/// What is said of a text that has no octets.
pub(crate) fn write_no_octets(out: &mut String) -> Result<(), AllocError>
    ensures { OnOk result (string_bytes out.new ≡ string_bytes out.old ++ no_octets_text) }
{
    out.push_str(" no octets\n")
}

/// An application by its name.
pub fn app_name(app: AppForm) -> &'static str
    ensures { result.now ≡ app_name_spec app }
{
    match app {
        AppForm::Mvrp => "mvrp",
        AppForm::Msrp => "msrp",
        AppForm::Mmrp => "mmrp",
    }
}
