//! Laws of what octets of MMRP say. A crate above that needs one calls it, and its proof has the
//! clauses.

ghost use Rattle.std.specs.Prelude.{◌≡◌, ◌≤◌, ◌↔◌, List, ℕ, length, Ok, Err};
ghost use Rattle.mmrp_codec.specs.declared.pdu.GroupPdu.{GroupPdu};
ghost use Rattle.mmrp_codec.specs.Meaning.{AreMacs, SaysMmrp, MmrpBreaks, mmrp_reading};
ghost use Rattle.mmrp_codec.specs.Writing.{IsWritable, mmrp_spelling};

/// The reading as a function is the grammar with the meaning of a PDU: octets read as exactly what
/// the PDU that they spell says, where its MAC addresses stay within 48 bits, or as exactly the
/// place where they are malformed: where the grammar breaks, or else the first FirstValue whose
/// values pass 48 bits.
pub fn reading_is_the_grammar()
    ensures reads { (octets : List ℕ) (read : GroupPdu) → (mmrp_reading octets
        ≡ Ok read) ↔ SaysMmrp octets read }
    ensures broken { (octets : List ℕ) (place : ℕ) → (mmrp_reading octets
        ≡ Err place) ↔ MmrpBreaks octets place }
{
    mrpdu_codec::reading_is_the_grammar();
    mrpdu_codec::first_values_have_places();
}

/// What is written of MAC addresses reads as what was written, and has at most 1,500 octets.
pub fn what_is_written_is_read()
    ensures reads { (read : GroupPdu) → IsWritable read → AreMacs read.events
        → mmrp_reading (mmrp_spelling read) ≡ Ok read }
    ensures few { (read : GroupPdu) → IsWritable read → length (mmrp_spelling read) ≤ 1500 }
{
    mrpdu_codec::written_is_read();
    mrpdu_codec::written_size();
    mrpdu_codec::numbers_are_read_back();
}

/// What octets say has events of MAC addresses alone, below 2^48.
pub fn what_is_read_has_macs()
    ensures { (octets : List ℕ) (read : GroupPdu) → mmrp_reading octets ≡ Ok read
        → AreMacs read.events }
{}
