//! The laws of what octets of MSRP say.

ghost use Rattle.std.specs.Prelude.{◌≡◌, ◌↔◌, ◌≤◌, List, ℕ, Bool, length, Ok, Err, IsPermutation};
ghost use Rattle.msrp_codec.specs.declared.pdu.MsrpKey.{MsrpKey};
ghost use Rattle.msrp_codec.specs.declared.pdu.MsrpPdu.{MsrpPdu};
ghost use Rattle.std.specs.List.{AllByRecursion};
ghost use Rattle.mrpdu_codec.specs.Octets.{AreOctets};
ghost use Rattle.msrp_codec.specs.Content.{Belongs};
ghost use Rattle.msrp_codec.specs.Key.{compare_keys};
ghost use Rattle.msrp_codec.specs.Meaning.{KeyEvent, SaysMsrp, MsrpBreaks, msrp_reading};
ghost use Rattle.msrp_codec.specs.Writing.{AreInRange, IsWritable, as_written, in_type_order, msrp_spelling, of_key, stated_octets};

use crate::pdu::MsrpKey;

/// The reading as a function is the grammar with the meaning of a PDU: octets read as exactly what
/// the PDU that they spell says, where its values stay within their fields, or as exactly the place
/// where they are malformed: where the grammar breaks, or else the first FirstValue whose values
/// pass the end of a field.
pub fn reading_is_the_grammar()
    ensures reads { (octets : List ℕ) (read : MsrpPdu) → (msrp_reading octets
        ≡ Ok read) ↔ SaysMsrp octets read }
    ensures broken { (octets : List ℕ) (place : ℕ) → (msrp_reading octets
        ≡ Err place) ↔ MsrpBreaks octets place }
{
    mrpdu_codec::reading_is_the_grammar();
    mrpdu_codec::first_values_have_places();
}

/// What is written takes at most the stated octets of its events, with the base.
pub fn stated_octets_suffice()
    ensures { (pdu : MsrpPdu) → length (msrp_spelling pdu) ≤ stated_octets pdu.events }
{
    mrpdu_codec::written_size();
}

/// What is written reads as what was written, its events in the order of types, where their values
/// fit in their fields.
pub fn what_is_written_is_read()
    ensures { (pdu : MsrpPdu) → IsWritable pdu → AreInRange pdu.events
        → msrp_reading (msrp_spelling pdu) ≡ Ok (as_written pdu) }
{
    mrpdu_codec::written_is_read();
    mrpdu_codec::written_list_size();
    mrpdu_codec::numbers_are_read_back();
}

/// The order of types keeps what each key says: where at most one event is of a key, the events of
/// that key are the same before and after. `is_key` tells the key from others.
pub fn each_key_keeps_its_event()
    ensures { (events : List KeyEvent) (is_key : MsrpKey → Bool)
        → length (of_key is_key events) ≤ 1 → of_key is_key (in_type_order events)
        ≡ of_key is_key events }
{}

/// The order of types has all events, each as often as it was given.
pub fn the_order_of_types_is_a_permutation()
    ensures { (events : List KeyEvent) → IsPermutation events (in_type_order events) }
{}

/// Keys are ordered by kind, Talkers before Listeners before Domains, and then by number.
pub fn keys_are_ordered()
    ensures { (x y : MsrpKey) → ⟦<MsrpKey as Ord>⟧.cmp x y ≡ compare_keys x y }
{}

/// Of what octets say, each content belongs to its key: a Talker states the stream of its key.
pub fn what_is_read_belongs_to_its_keys()
    ensures { (octets : List ℕ) (read : MsrpPdu) → SaysMsrp octets read
        → AllByRecursion (λ e. Belongs e.1 e.2) read.events }
{}

/// What octets say fits in the fields in which it stands: each event's numbers do, those of a
/// Talker, of a failure, of a Listener's stream and of a Domain. It is so of all octets, also those
/// that no participant of this project wrote.
pub fn what_is_read_is_in_range()
    ensures { (octets : List ℕ) (read : MsrpPdu)
        → AreOctets octets → msrp_reading octets ≡ Ok read → AreInRange read.events }
{
    reading_is_the_grammar();
    mrpdu_codec::first_values_are_octets();
}
