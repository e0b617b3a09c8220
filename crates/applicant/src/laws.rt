//! What the table means for a user: laws over the definitions that the machine's contracts cite.
//! Each is a function that does nothing; calling it brings the law to a proof.

ghost use Rattle.std.specs.Prelude.{◌≡◌, ◌⊎◌, Bool, true, false};
ghost use Rattle.applicant.specs.declared.Applicant.{Applicant};
ghost use Rattle.applicant.specs.declared.Applicant.TheVariants.{Vo, La};
ghost use Rattle.applicant.specs.declared.AppEvent.{AppEvent};
ghost use Rattle.applicant.specs.declared.AppEvent.TheVariants.{TxLeaveAll, TxLeaveAllFull};
ghost use Rattle.applicant.specs.declared.Say.TheVariants.{Lv};
ghost use Rattle.applicant.specs.Table.{next, say_of, is_request, declare_of, redeclare_of, withdraw_of, is_declared_in};

/// What the user's calls do: after declaring and redeclaring the attribute is declared, after
/// withdrawing it isn't; and what was declared and is withdrawn is in LA.
pub fn uses()
    ensures declared { (s : Applicant) → is_declared_in (declare_of s) ≡ true }
    ensures redeclared { (s : Applicant) → is_declared_in (redeclare_of s) ≡ true }
    ensures withdrawn { (s : Applicant) → is_declared_in (withdraw_of s) ≡ false }
    ensures leaves { (s : Applicant) → is_declared_in s ≡ true → withdraw_of s ≡ La }
{}

/// Nothing but a request of the user declares an attribute or takes a declaration back.
pub fn events_keep_declarations()
    ensures { (event : AppEvent) (held : Bool) (s : Applicant)
        → is_request event ≡ false
        → is_declared_in (next event held s) ≡ is_declared_in s }
{}

/// LA is left for VO only where Lv is said, or in a PDU with LeaveAll, which says it of every
/// attribute. So no withdrawal is silent.
pub fn leaving_is_said()
    ensures { (event : AppEvent) (held : Bool)
        → next event held La ≡ Vo
        → (say_of event held La ≡ Lv) ⊎ ((event ≡ TxLeaveAll) ⊎ (event ≡ TxLeaveAllFull)) }
{}
