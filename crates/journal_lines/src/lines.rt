//! The lines of a journal. Each is put at the end of a text.

ghost use Rattle.std.specs.Prelude.{◌≡◌, ◌++◌, OnOk};
ghost use Rattle.std.specs.Fmt.{decimal};
ghost use Rattle.report_words.specs.Names.{port_name};
ghost use Rattle.journal_lines.specs.Lines.{app_name as app_name_spec, step_name, reply_name, event_name as event_name_spec, event_line, place_text, made_text, line_at};

use node_core::{NodeStep, PortStep, StepReply};
use report_words::{put, put_number, put_port_name};
use srp_base::{App, EgressPort, NoMemory, NodeNo};
use topology_file::Scenario;

/// Puts down the line of a scripted event: its tick, the number of its entry, and `missed` or
/// `done`.
pub fn put_event(out: &mut Vec<u8>, t: u64, entry: u32, missed: bool) -> Result<(), NoMemory>
    ensures { OnOk result (out.new.items ≡ out.old.items ++ event_line t entry missed) }
{
    let alloc = *out.allocator();
    let name = event_name(missed);
    let line = format!(in alloc; "{t} event {entry} {name}\n")?;
    put(out, &line)
}

// What became of an event.
fn event_name(missed: bool) -> &'static str
    ensures { result.now ≡ event_name_spec missed }
{
    if missed { "missed" } else { "done" }
}

/// Puts down the line of a step of a node: its tick, its port, the step and its answer.
pub fn put_step(
    out: &mut Vec<u8>,
    scenario: &Scenario,
    t: u64,
    node: NodeNo,
    made: &NodeStep,
) -> Result<(), NoMemory>
    ensures { OnOk result (out.new.items
        ≡ out.old.items ++ line_at scenario.now t node made.now) }
{
    let at = EgressPort {
        node,
        port: made.port,
    };
    put_place(out, scenario, t, at)?;
    put_made(out, made)
}

/// Puts down how the line of a step begins: its tick and its port.
pub fn put_place(
    out: &mut Vec<u8>,
    scenario: &Scenario,
    t: u64,
    at: EgressPort,
) -> Result<(), NoMemory>
    ensures { OnOk result (out.new.items
        ≡ out.old.items ++ place_text t (port_name scenario.now.nodes scenario.now.tree.links at)) }
{
    put_number(out, t)?;
    put(out, " ")?;
    put_port_name(out, scenario.nodes.as_slice(), &scenario.tree, at)?;
    put(out, " ")
}

// A step and its answer.
fn put_made(out: &mut Vec<u8>, made: &NodeStep) -> Result<(), NoMemory>
    ensures { OnOk result (out.new.items ≡ out.old.items ++ made_text made.now) }
{
    put_step_name(out, made.step)?;
    put(out, " ")?;
    put_reply(out, made.reply)?;
    put(out, "\n")
}

// What a step does, in words.
fn put_step_name(out: &mut Vec<u8>, step: PortStep) -> Result<(), NoMemory>
    ensures { OnOk result (out.new.items ≡ out.old.items ++ step_name step) }
{
    match step {
        PortStep::Work => put(out, "work"),
        PortStep::LeaveNow(_) => put(out, "leave"),
        PortStep::LeaveAllNow(app) => put_with_app(out, "leaveall ", app),
        PortStep::PeriodicNow(app) => put_with_app(out, "periodic ", app),
        PortStep::Due => put(out, "due"),
        PortStep::Settle => put(out, "settle"),
        PortStep::Send(app) => put_with_app(out, "send ", app),
    }
}

// A word with the name of an application.
fn put_with_app(out: &mut Vec<u8>, word: &str, app: App) -> Result<(), NoMemory>
    ensures { OnOk result (out.new.items ≡ out.old.items ++ word.now ++ app_name_spec app) }
{
    put(out, word)?;
    put(out, app_name(app))
}

// The name of an application.
fn app_name(app: App) -> &'static str
    ensures { result.now ≡ app_name_spec app }
{
    match app {
        App::Mvrp => "mvrp",
        App::Msrp => "msrp",
    }
}

// What a step answers, in words.
fn put_reply(out: &mut Vec<u8>, reply: StepReply) -> Result<(), NoMemory>
    ensures { OnOk result (out.new.items ≡ out.old.items ++ reply_name reply) }
{
    match reply {
        StepReply::Nothing => put(out, "nothing"),
        StepReply::Discarded(place) => put_with_number(out, "discarded ", place),
        StepReply::Received(count) => put_with_number(out, "received ", count),
        StepReply::Fired(count) => put_with_number(out, "fired ", count),
        StepReply::Settled(count) => put_with_number(out, "settled ", count),
        StepReply::Silent => put(out, "silent"),
        StepReply::Sent(octets) => put_with_number(out, "sent ", octets),
        StepReply::Taken => put(out, "taken"),
    }
}

// A word with a number.
fn put_with_number(out: &mut Vec<u8>, word: &str, number: u32) -> Result<(), NoMemory>
    ensures { OnOk result (out.new.items ≡ out.old.items ++ word.now ++ decimal number) }
{
    put(out, word)?;
    put_number(out, u64::from(number))
}
