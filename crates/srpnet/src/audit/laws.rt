//! What an audit's answers rest on: laws over what contracts see of runs. Each is a function that
//! does nothing; calling it brings the law to a proof.

ghost use Rattle.std.specs.Prelude.{◌≡◌, ◌↔◌, ◌≤◌, ◌+◌, ◌++◌, ℕ, List, Some, codes, length};
ghost use Rattle.srp_base.specs.declared.ports.PortChange.{PortChange};
ghost use Rattle.frame_flow.specs.declared.result.PortFlow.{PortFlow};
ghost use Rattle.topology_file.specs.{Plan.Plan, Scenario.KeepsRules};
ghost use Rattle.world_core.specs.declared.journal.Tick.{Tick};
ghost use Rattle.world_core.specs.{Ticks.AreCanonicalTicks, Ticks.AreLegalTicks, World.WorldState};
ghost use Rattle.journal_audit.specs.{Texts.lines_of, Form.AreFormed, Form.IsFirstUnformed, Journal.journal_text, Audit.known_of, Audit.IsFirstIllegal};
ghost use Rattle.srp_report.specs.{JournalText.journal_text as printed_journal, Report.report_text};
ghost use Rattle.srpnet.specs.AuditParts.{AuditParts, audit_parts};
ghost use Rattle.srpnet.specs.AuditParts.{EndsItsLines, LacksLine, LacksPart, put_together};
ghost use Rattle.srpnet.specs.AuditText.{IsApproved, IsAudited, IsAuditEnding};
ghost use Rattle.srpnet.specs.AuditText.{IsReportRefused, RefusesBehind};
ghost use Rattle.srpnet.specs.declared.outcome.Cause.{Cause};
ghost use Rattle.srpnet.specs.declared.outcome.Cause.TheVariants.{AuditNo, Done};
ghost use Rattle.srpnet.specs.RunText.{HoldsThroughout, IsRun, RunOutput, report_and_journal};

use frame_flow::laws::{one_flow, what_is_in_force_decides_a_flow};
use journal_audit::laws::{each_why_has_its_line, one_text_has_one_journal};
use topology_file::read_scenarios_keep_the_rules;
use world_core::laws::canonical_ticks_are_legal;

/// The frames of a legal run of a scenario have one flow, whichever of its timelines it is asked
/// of: a run has one report.
pub fn a_run_has_one_flow()
    ensures { (plan : Plan) (ticks : List Tick) (world : WorldState)
        (changes others : List PortChange) (flows last : List PortFlow) → KeepsRules plan
        → IsRun AreLegalTicks plan ticks world changes flows
        → IsRun AreLegalTicks plan ticks world others last → flows ≡ last }
{
    one_flow();
    what_is_in_force_decides_a_flow();
}

/// What `run journal` and `ports journal` print of a run's ticks behind its report is the line
/// `journal` and the text that an audit reads as the journal; and where an audit's parts have the
/// report of a legal run, of which as much holds as of every run that is printed
/// (`HoldsThroughout`), and that text, the answer is yes. So it is yes of a scenario, the cut, and
/// what is printed of a run of the scenario, where the scenario ends with a line feed and has no
/// line that is the cut.
pub fn what_is_printed_is_approved()
    ensures text { (plan : Plan) (ticks : List Tick)
        → printed_journal plan ticks ≡ codes "journal\n" ++ journal_text plan ticks }
    ensures yes { (plan : Plan) (ticks : List Tick) (world : WorldState) (changes : List PortChange)
        (flows : List PortFlow) (parts : AuditParts)
        → IsRun AreLegalTicks plan ticks world changes flows → HoldsThroughout plan ticks flows
        → parts.report ≡ report_text plan world ticks flows
        → parts.journal ≡ journal_text plan ticks → IsApproved plan parts }
    ensures ports { (scenario text : List ℕ) (ticks : List Tick) → EndsItsLines scenario
        → LacksLine (codes "=== output") scenario
        → RunOutput AreLegalTicks report_and_journal scenario ticks text
        → IsAuditEnding (scenario ++ (codes "=== output\n" ++ text)) Done }
    ensures run { (scenario text : List ℕ) (ticks : List Tick) → EndsItsLines scenario
        → LacksLine (codes "=== output") scenario
        → RunOutput AreCanonicalTicks report_and_journal scenario ticks text
        → IsAuditEnding (scenario ++ (codes "=== output\n" ++ text)) Done }
{
    canonical_ticks_are_legal();
    read_scenarios_keep_the_rules();
    no_line_of_a_report_is_journal();
}

/// Each line of a report of a scenario ends with its line feed, and none is the line `journal`.
pub fn no_line_of_a_report_is_journal()
    ensures { (plan : Plan) (world : WorldState) (ticks : List Tick) (flows : List PortFlow)
        → KeepsRules plan → EndsItsLines (report_text plan world ticks flows)
        × LacksLine (codes "journal") (report_text plan world ticks flows) }
{}

/// A scenario, the cut, a report, the line `journal` and a journal are parted so again, where
/// scenario and report end with a line feed, no line of the scenario is the cut, and none of the
/// report is `journal`.
pub fn what_is_put_together_is_parted()
    ensures { (scenario report journal : List ℕ) → EndsItsLines scenario → EndsItsLines report
        → LacksLine (codes "=== output") scenario → LacksLine (codes "journal") report
        → audit_parts (put_together scenario report journal)
        ≡ Some (record {
          scenario = scenario;
          cut = length (lines_of scenario) + 1;
          report = report;
          marked = length (lines_of report) + 1;
          journal = journal;
        }) }
{}

/// An audit ends one way: yes or no, and where no, at which line and why, is told by its parts
/// alone.
pub fn an_audit_ends_one_way()
    ensures { (plan : Plan) (parts : AuditParts) (one other : Cause) → KeepsRules plan
        → IsAudited plan parts one → IsAudited plan parts other → one ≡ other }
{
    each_why_has_its_line();
    one_text_has_one_journal();
    a_run_has_one_flow();
}

/// The octets of an input tell alone how its audit ends, if nothing fails and memory lasts.
pub fn an_input_has_one_answer()
    ensures { (octets : List ℕ) (one other : Cause) → IsAuditEnding octets one
        → IsAuditEnding octets other → one ≡ other }
{
    read_scenarios_keep_the_rules();
    an_audit_ends_one_way();
}

/// An audit ends each way exactly where its cause is, and there are four whys of a no. It refuses
/// with why 1, at line 0, where a line is missing that parts the input: there is no cut, or no line
/// `journal` behind it. Of an input whose first part is a scenario it refuses a line of the journal
/// with why 2 where this is the first that isn't of the form, and with why 3 where all lines are of
/// the form and this is the first with which no legal journal agrees, or the one past the last. It
/// refuses a line of the report with why 4 where the journal is that of a legal run, and this is
/// the first line in which the report isn't that of the run, or the line `journal` where the report
/// ends too early. It is yes where the journal is that of a legal run, and the report is that of
/// this run. Of a run that an audit speaks of as much holds as of every run that is printed
/// (`HoldsThroughout`); and of a report and a journal of a legal run the answer is yes, whatever
/// else is known of the run (`complete`).
pub fn each_why_of_an_audit_has_its_line()
    ensures whys { (octets : List ℕ) (cause : Cause) (line why : ℕ) → IsAuditEnding octets cause
        → cause ≡ AuditNo line why → (1 ≤ why) × (why ≤ 4) }
    ensures parts { (octets : List ℕ) (cause : Cause) (line : ℕ) → IsAuditEnding octets cause
        → (cause ≡ AuditNo line 1 ↔ (line ≡ 0) × LacksPart octets) }
    ensures form { (plan : Plan) (parts : AuditParts) (cause : Cause) (count : ℕ)
        → KeepsRules plan → IsAudited plan parts cause
        → (RefusesBehind parts 2 cause count
        ↔ IsFirstUnformed (known_of plan) parts.journal count) }
    ensures run { (plan : Plan) (parts : AuditParts) (cause : Cause) (count : ℕ)
        → KeepsRules plan → IsAudited plan parts cause
        → (RefusesBehind parts 3 cause count
        ↔ (AreFormed (known_of plan) 0 (lines_of parts.journal)
        × IsFirstIllegal plan parts.journal count)) }
    ensures report { (plan : Plan) (parts : AuditParts) (cause : Cause) (line : ℕ)
        → KeepsRules plan → IsAudited plan parts cause
        → (cause ≡ AuditNo line 4 ↔ IsReportRefused plan parts line 4) }
    ensures yes { (plan : Plan) (parts : AuditParts) (cause : Cause)
        → KeepsRules plan → IsAudited plan parts cause
        → (cause ≡ Done ↔ IsApproved plan parts) }
    ensures complete { (plan : Plan) (parts : AuditParts) (cause : Cause) (ticks : List Tick)
        (world : WorldState) (changes : List PortChange) (flows : List PortFlow)
        → KeepsRules plan → IsAudited plan parts cause
        → IsRun AreLegalTicks plan ticks world changes flows
        → parts.journal ≡ journal_text plan ticks
        → parts.report ≡ report_text plan world ticks flows → cause ≡ Done }
{
    each_why_has_its_line();
    one_text_has_one_journal();
    a_run_has_one_flow();
}
