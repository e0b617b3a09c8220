//! What the cases come to along a path of ports: laws over the definitions that the contracts cite.
//! Each is a function that does nothing; calling it brings the law to a proof.

ghost use Rattle.std.specs.Prelude.{◌≡◌, ◌↔◌, ◌⊎◌, ◌≤◌, ◌<◌, ◌+◌, ◌^◌, ℕ, Bool, true, false, Some, None};
ghost use Rattle.srp_base.specs.declared.{streams.Failure.Failure, streams.Talker.Talker, streams.TalkerReg.TalkerReg};
ghost use Rattle.srp_base.specs.declared.streams.TalkerReg.TheVariants.{Absent, Advertise, Failed};
ghost use Rattle.stream_importance.specs.declared.{entry.Fit.Fit, entry.Fit.TheVariants.Fits};
ghost use Rattle.msrp_talker.specs.declared.port_config.PortConfig.{PortConfig};
ghost use Rattle.msrp_talker.specs.TalkerOut.{check_of, fit_code, delayed_by, IsCarriedOn, IsOfPort, refusal_of, statement_of, talker_in, talker_out};

/// A Talker is advertised onwards exactly where it is advertised, `check` finds nothing, the port
/// is no boundary for it, and it fits.
pub fn advertised_where_it_fits()
    ensures onwards { (talker : Talker) (config : PortConfig) (boundary : Bool) (fit : Fit)
        → (talker_out (Advertise talker) config boundary fit
        ≡ Advertise (delayed_by config.latency talker))
        ↔ ((check_of talker ≡ None) × (boundary ≡ false) × (fit ≡ Fits)) }
    ensures only { (reg : TalkerReg) (config : PortConfig) (boundary : Bool) (fit : Fit)
        (talker : Talker)
        → talker_out reg config boundary fit ≡ Advertise talker
        → (before : Talker) × (reg ≡ Advertise before)
        × (talker ≡ delayed_by config.latency before) }
{}

/// A failure that a port declares is the one that was registered, or the port's own refusal, which
/// names its bridge.
pub fn a_failure_is_carried_on_or_of_the_port()
    ensures { (reg : TalkerReg) (config : PortConfig) (boundary : Bool) (fit : Fit)
        (talker : Talker)
        (failure : Failure)
        → talker_out reg config boundary fit ≡ Failed talker failure
        → IsCarriedOn reg failure ⊎ IsOfPort config boundary fit reg failure }
{}

/// The codes of bandwidth, 1 and 6, come of the fit alone, at a port that is no boundary.
pub fn bandwidth_codes_come_of_the_fit()
    ensures { (talker : Talker) (boundary : Bool) (fit : Fit) (code : ℕ)
        → (code ≡ 1) ⊎ (code ≡ 6)
        → refusal_of talker boundary fit ≡ Some code
        → (check_of talker ≡ None) × (boundary ≡ false) × (fit_code fit ≡ Some code) }
{}

/// A boundary refuses with code 8 each advertised Talker for which `check` finds nothing, whether
/// it fits or not. Where `check` finds something its code comes first, and inside a domain the fit
/// alone decides.
pub fn a_boundary_refuses_with_code_8()
    ensures boundary { (talker : Talker) (fit : Fit) → check_of talker ≡ None
        → refusal_of talker true fit ≡ Some 8 }
    ensures checked { (talker : Talker) (boundary : Bool) (fit : Fit) (code : ℕ)
        → check_of talker ≡ Some code → refusal_of talker boundary fit ≡ Some code }
    ensures inside { (talker : Talker) (fit : Fit) → check_of talker ≡ None
        → refusal_of talker false fit ≡ fit_code fit }
{}

/// A port declares a Talker exactly where one is registered, and changes nothing that the Talker
/// states.
pub fn only_the_latency_changes()
    ensures absent { (reg : TalkerReg) (config : PortConfig) (boundary : Bool) (fit : Fit)
        → (talker_out reg config boundary fit ≡ Absent) ↔ (reg ≡ Absent) }
    ensures stated { (reg : TalkerReg) (config : PortConfig) (boundary : Bool) (fit : Fit)
        → statement_of (talker_in (talker_out reg config boundary fit))
        ≡ statement_of (talker_in reg) }
    ensures checked { (talker : Talker) (latency : ℕ)
        → check_of (delayed_by latency talker) ≡ check_of talker }
{}

/// Two ports add the sum of their latencies, and a latency never falls and keeps to 32 bits.
pub fn latencies_add_up()
    ensures sum { (talker : Talker) (first second : ℕ)
        → delayed_by second (delayed_by first talker) ≡ delayed_by (first + second) talker }
    ensures grows { (talker : Talker) (latency : ℕ)
        → talker.latency < 2 ^ 32
        → talker.latency ≤ (delayed_by latency talker).latency }
    ensures range { (talker : Talker) (latency : ℕ) → (delayed_by latency talker).latency < 2 ^ 32 }
{}
