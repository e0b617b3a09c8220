//! What the table means for a user: laws over the definitions that the machine's contracts cite.
//! Each is a function that does nothing; calling it brings the law to a proof.

ghost use Rattle.std.specs.Prelude.{◌≡◌, true, false};
ghost use Rattle.registrar.specs.declared.Registrar.{Registrar};
ghost use Rattle.registrar.specs.declared.Registrar.TheVariants.{Held, Leaving};
ghost use Rattle.registrar.specs.declared.RegEvent.{RegEvent};
ghost use Rattle.registrar.specs.declared.RegEvent.TheVariants.{RxLeaveAll, TxLeaveAll};
ghost use Rattle.registrar.specs.declared.Tell.TheVariants.{Joined, Left};
ghost use Rattle.registrar.specs.Table.{next, tell_of, is_registered_in, starts_leave_timer};

/// The user is told Joined exactly where the attribute wasn't registered and now is, and Left
/// exactly where it was and now isn't.
pub fn what_is_told()
    ensures joined { (event : RegEvent) (s : Registrar)
        → tell_of event s ≡ Joined
        → (is_registered_in s ≡ false) × (is_registered_in (next event s) ≡ true) }
    ensures joins { (event : RegEvent) (s : Registrar)
        → is_registered_in s ≡ false
        → is_registered_in (next event s) ≡ true
        → tell_of event s ≡ Joined }
    ensures left { (event : RegEvent) (s : Registrar)
        → tell_of event s ≡ Left
        → (is_registered_in s ≡ true) × (is_registered_in (next event s) ≡ false) }
    ensures leaves { (event : RegEvent) (s : Registrar)
        → is_registered_in s ≡ true
        → is_registered_in (next event s) ≡ false
        → tell_of event s ≡ Left }
{}

/// The leave timer starts exactly where IN becomes LV.
pub fn leave_timer_starts()
    ensures starts { (event : RegEvent) (s : Registrar)
        → starts_leave_timer event s ≡ true
        → (s ≡ Held) × (next event s ≡ Leaving) }
    ensures only { (event : RegEvent) → next event Held ≡ Leaving
        → starts_leave_timer event Held ≡ true }
{}

/// A LeaveAll, received or an own one that is sent, leaves a Registrar as registered as it was.
pub fn leave_all_keeps_registrations()
    ensures received { (s : Registrar) → is_registered_in (next RxLeaveAll s) ≡ is_registered_in s }
    ensures sent { (s : Registrar) → is_registered_in (next TxLeaveAll s) ≡ is_registered_in s }
{}
