//! What an audit finds of its parts: yes, or the line at which it is no, and where a line is known
//! that would be right there, that line.

ghost use Rattle.std.specs.Prelude.{◌≡◌, ◌<◌, ◌+◌, ◌^◌, IfOk};
ghost use Rattle.journal_audit.specs.Journal.{journal_text};
ghost use Rattle.world_core.specs.{Ticks.AreLegalTicks, Timeline.IsTimelineOf};
ghost use Rattle.srpnet.specs.Account.{cause_of as cause_of_spec, HasLine, TellsLegal};
ghost use Rattle.srpnet.specs.AuditText.{IsAudited};
ghost use Rattle.srpnet.specs.declared.outcome.Cause.TheVariants.{AuditNo};

use crate::audit::differ::differing_line;
use crate::audit::laws::a_run_has_one_flow;
use crate::audit::parts::AuditParts;
use crate::outcome::Cause;
use crate::run::text::run_text;
use crate::run::with_flow;
use audit_words::line_at;
use journal_audit::laws::one_text_has_one_journal;
use journal_audit::{Finding, examine};
use srp_base::{NoMemory, Seq};
use srp_report::report;
use std::alloc::Global;
use topology_file::Scenario;
use world_core::Run;

/// What an audit finds. Lines count from 1, behind the cut.
#[derive(Drop)]
pub enum Account {
    /// Yes.
    Approved,
    /// This line isn't of the form of a journal's lines: why 2.
    Unformed { line: u64 },
    /// No legal journal agrees with this line: why 3. A legal run has this one there, or ends.
    Illegal { line: u64, legal: Option<Seq<u8>> },
    /// The report of the journal's run differs in this line: why 4. It has this one there, or ends.
    Differing { line: u64, legal: Option<Seq<u8>> },
}

impl Account {
    /// How the audit ends by it.
    pub fn cause(&self) -> Cause
        ensures { result ≡ cause_of_spec self.now }
    {
        match self {
            Account::Approved => Cause::Done,
            Account::Unformed { line } => Cause::AuditNo {
                line: *line,
                why: 2,
            },
            Account::Illegal { line, .. } => Cause::AuditNo {
                line: *line,
                why: 3,
            },
            Account::Differing { line, .. } => Cause::AuditNo {
                line: *line,
                why: 4,
            },
        }
    }
}

/// What is found of these parts, whose scenario this is.
pub fn account_of(
    alloc: Global,
    scenario: &Scenario,
    parts: &AuditParts<'_>,
) -> Result<Account, NoMemory>
    ensures audited { IfOk result (λ a. IsAudited scenario.now parts.now (cause_of_spec a)) }
    ensures legal { IfOk result (λ a. TellsLegal scenario.now parts.now a) }
    ensures line { IfOk result HasLine }
{
    let marked = parts.marked();
    match examine(alloc, scenario, parts.journal())? {
        Finding::Replayed(run) => compared(alloc, scenario, run, parts),
        Finding::Unformed { line } => Ok(Account::Unformed {
            line: marked + line,
        }),
        Finding::Parted { line, legal } => Ok(Account::Illegal {
            line: marked + line,
            legal,
        }),
    }
}

// Whether the report is that of the journal's run.
fn compared(
    alloc: Global,
    scenario: &Scenario,
    run: Run,
    parts: &AuditParts<'_>,
) -> Result<Account, NoMemory>
    requires legal { AreLegalTicks scenario.now run.journal.ticks run.world }
    requires timeline { IsTimelineOf scenario.now run.journal.ticks run.timeline.changes }
    requires spelled { parts.now.journal ≡ journal_text scenario.now run.journal.ticks }
    ensures audited { IfOk result (λ a. IsAudited scenario.now parts.now (cause_of_spec a)) }
    ensures legal { IfOk result (λ a. TellsLegal scenario.now parts.now a) }
    ensures line { IfOk result HasLine }
{
    one_text_has_one_journal();
    a_run_has_one_flow();
    scenario.keeps_rules();
    let ran = with_flow(alloc, scenario, run)?;
    let flow = ran.flow;
    let wanted = run_text(alloc, scenario, &ran.run, flow)?;
    match differing_line(parts.report(), wanted)? {
        None => Ok(Account::Approved),
        Some(count) => differing(alloc, scenario, ran.run, parts, count),
    }
}

// What is found where the report and that of the journal's run have so many first lines in common,
// and not one more.
fn differing(
    alloc: Global,
    scenario: &Scenario,
    run: Run,
    parts: &AuditParts<'_>,
    count: u64,
) -> Result<Account, NoMemory>
    requires legal { AreLegalTicks scenario.now run.journal.ticks run.world }
    requires timeline { IsTimelineOf scenario.now run.journal.ticks run.timeline.changes }
    requires spelled { parts.now.journal ≡ journal_text scenario.now run.journal.ticks }
    requires differs { IsAudited scenario.now parts.now (AuditNo (count + 1) 4) }
    requires few { count < 2 ^ 63 }
    ensures audited { IfOk result (λ a. IsAudited scenario.now parts.now (cause_of_spec a)) }
    ensures legal { IfOk result (λ a. TellsLegal scenario.now parts.now a) }
    ensures line { IfOk result HasLine }
{
    let ran = with_flow(alloc, scenario, run)?;
    let text = report(alloc, scenario, &ran.run, &ran.flow)?;
    let legal = line_at(alloc, text.as_slice(), count)?;
    Ok(Account::Differing {
        line: count + 1,
        legal,
    })
}
