//! What a text tells of a run: laws over the states that contracts see. Each is a function that
//! does nothing; calling it brings the law to a proof.

ghost use Rattle.std.specs.Prelude.{◌≡◌, ◌≤◌, ◌↔◌, ℕ, List, length, Err};
ghost use Rattle.mvrp_codec.specs.Meaning.{mvrp_reading};
ghost use Rattle.msrp_codec.specs.Meaning.{msrp_reading};
ghost use Rattle.topology_file.specs.{Plan.Plan, Scenario.KeepsRules};
ghost use Rattle.world_core.specs.declared.journal.Tick.{Tick};
ghost use Rattle.world_core.specs.{World.WorldState, Ticks.AreLegalTicks};
ghost use Rattle.journal_audit.specs.Texts.{lines_of};
ghost use Rattle.journal_audit.specs.Form.{AreFormed, IsFirstUnformed};
ghost use Rattle.journal_audit.specs.Journal.{ticks_lines, journal_text};
ghost use Rattle.journal_audit.specs.Audit.{known_of, IsJournalOf, IsFirstIllegal};
ghost use Rattle.journal_audit.specs.Audit.{IsVerdict, RefusesBehind};
ghost use Rattle.journal_audit.specs.Replay.{ReplayLaws};

use crate::verdict::Verdict;
use journal_lines::laws::{a_line_ends_with_its_line_feed, a_line_tells_its_port};
use topology_file::Scenario;
use world_core::laws::what_is_allowed_may_happen;
use world_core::tick_laws::{
    a_legal_run_goes_on, a_legal_tick_is_made_one_by_one, a_tick_can_be_made_to_its_end,
};

/// A text is the journal of one run of a scenario at most: two legal journals with one text are
/// one, and so are the networks at their ends.
pub fn one_text_has_one_journal()
    ensures ticks { (plan : Plan) (text : List ℕ) (ticks others : List Tick) (end last : WorldState)
        → KeepsRules plan → IsJournalOf plan text ticks end → IsJournalOf plan text others last
        → ticks ≡ others }
    ensures ends { (plan : Plan) (text : List ℕ) (ticks others : List Tick) (end last : WorldState)
        → KeepsRules plan → IsJournalOf plan text ticks end → IsJournalOf plan text others last
        → end ≡ last }
{
    laws_of_replays();
}

/// Each line of a legal journal is of the form of a journal's lines, and its tick isn't below that
/// of the line before: the numbers in answers are small, since a PDU has at most 1,500 octets and a
/// count stands still at 4,294,967,295.
pub fn a_legal_journal_is_of_the_form()
    ensures lines { (plan : Plan) (ticks : List Tick) (end : WorldState) → KeepsRules plan
        → AreLegalTicks plan ticks end
        → lines_of (journal_text plan ticks) ≡ ticks_lines plan 0 ticks }
    ensures ticks { (plan : Plan) (ticks : List Tick) (end : WorldState) → KeepsRules plan
        → AreLegalTicks plan ticks end
        → AreFormed (known_of plan) 0 (ticks_lines plan 0 ticks) }
    ensures text { (plan : Plan) (text : List ℕ) (ticks : List Tick) (end : WorldState)
        → KeepsRules plan → IsJournalOf plan text ticks end
        → AreFormed (known_of plan) 0 (lines_of text) }
{
    laws_of_replays();
    what_is_malformed_lies_within();
}

/// A verdict refuses a line with why 2 exactly where this is the first that isn't of the form, and
/// with why 3 exactly where all lines are of the form and this is the first with which no legal
/// journal agrees, or the one past the last. A legal journal has neither line.
pub fn each_why_has_its_line()
    ensures form { (plan : Plan) (text : List ℕ) (verdict : Verdict) (count : ℕ)
        → KeepsRules plan → IsVerdict plan text verdict
        → (RefusesBehind 2 verdict count ↔ IsFirstUnformed (known_of plan) text count) }
    ensures run { (plan : Plan) (text : List ℕ) (verdict : Verdict) (count : ℕ)
        → KeepsRules plan → IsVerdict plan text verdict
        → (RefusesBehind 3 verdict count
        ↔ (AreFormed (known_of plan) 0 (lines_of text) × IsFirstIllegal plan text count)) }
    ensures formed { (plan : Plan) (text : List ℕ) (ticks : List Tick) (end : WorldState)
        (count : ℕ) → KeepsRules plan → IsJournalOf plan text ticks end
        → IsFirstUnformed (known_of plan) text count → ⊥ }
    ensures agrees { (plan : Plan) (text : List ℕ) (ticks : List Tick) (end : WorldState)
        (count : ℕ) → KeepsRules plan → IsJournalOf plan text ticks end
        → IsFirstIllegal plan text count → ⊥ }
{
    laws_of_replays();
    a_legal_journal_is_of_the_form();
}

// What the replay of each scenario rests on. It does nothing.
fn laws_of_replays()
    ensures { (plan : Plan) → KeepsRules plan → ReplayLaws plan }
{
    what_is_allowed_may_happen();
    a_legal_tick_is_made_one_by_one();
    a_legal_run_goes_on();
    a_tick_can_be_made_to_its_end();
    a_line_tells_its_port();
    a_line_ends_with_its_line_feed();
}

/// What the replay of a scenario rests on. It does nothing.
pub(crate) fn laws_of_replay(scenario: &Scenario)
    ensures { ReplayLaws scenario.now }
{
    scenario.keeps_rules();
    laws_of_replays();
}

// The place where octets are malformed lies within them. It does nothing.
fn what_is_malformed_lies_within()
    ensures vlans { (octets : List ℕ) (place : ℕ) → mvrp_reading octets ≡ Err place
        → place ≤ length octets }
    ensures streams { (octets : List ℕ) (place : ℕ) → msrp_reading octets ≡ Err place
        → place ≤ length octets }
{
    mvrp_codec::reading_is_the_grammar();
    msrp_codec::laws::reading_is_the_grammar();
}
