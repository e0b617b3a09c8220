//! Laws of what octets say, and of the streaks in which VIDs are written. A crate above that needs
//! one calls it, and its proof has the clauses.

ghost use Rattle.std.specs.Prelude.{◌≡◌, ◌≤◌, ◌↔◌, List, ℕ, length, Ok, Err};
ghost use Rattle.srp_base.specs.declared.mrp.MrpEvent.{MrpEvent};
ghost use Rattle.mrpdu_codec.specs.declared.form.AppForm.TheVariants.{Mvrp};
ghost use Rattle.mrpdu_codec.specs.Grammar.{Breaks};
ghost use Rattle.mvrp_codec.specs.declared.pdu.MvrpPdu.{MvrpPdu};
ghost use Rattle.mvrp_codec.specs.Meaning.{SaysMvrp, mvrp_reading};
ghost use Rattle.mvrp_codec.specs.Writing.{streaks, AreMaximal, events_of_streaks, mvrp_spelling, IsWritable, AreVids};

/// The reading as a function is the grammar with the meaning of a PDU: octets read as exactly what
/// the PDU that they spell says, or as exactly the place where they break.
pub fn reading_is_the_grammar()
    ensures reads { (octets : List ℕ) (read : MvrpPdu)
        → (mvrp_reading octets ≡ Ok read) ↔ SaysMvrp octets read }
    ensures broken { (octets : List ℕ) (place : ℕ)
        → (mvrp_reading octets ≡ Err place) ↔ Breaks Mvrp octets place }
{
    mrpdu_codec::reading_is_the_grammar();
}

/// The law of the streaks: one after another they are the events, they are maximal, and no other
/// streaks are both.
pub fn streaks_are_maximal()
    ensures whole { (events : List (MrpEvent × ℕ)) → events_of_streaks (streaks events) ≡ events }
    ensures maximal { (events : List (MrpEvent × ℕ)) → AreMaximal (streaks events) }
    ensures only { (ss : List (List (MrpEvent × ℕ))) → AreMaximal ss → streaks (events_of_streaks ss) ≡ ss }
{}

/// What is written of VIDs reads as what was written, and has at most 1,500 octets.
pub fn what_is_written_is_read()
    ensures reads { (read : MvrpPdu) → IsWritable read → AreVids read.events
        → mvrp_reading (mvrp_spelling read) ≡ Ok read }
    ensures few { (read : MvrpPdu) → IsWritable read → length (mvrp_spelling read) ≤ 1500 }
{
    mrpdu_codec::written_is_read();
    mrpdu_codec::written_size();
}

/// What octets say has events of VIDs alone, 1 to 4,094 (IEEE Std 802.1Q-2018, 9.6).
pub fn what_is_read_has_vids()
    ensures { (octets : List ℕ) (read : MvrpPdu) → mvrp_reading octets ≡ Ok read
        → AreVids read.events }
{}
