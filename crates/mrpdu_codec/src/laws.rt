//! Laws of the grammar, of the spelling that is written, and of numbers in octets. A crate above
//! that needs one calls it, and its proof has the clauses.

ghost use Rattle.std.specs.Prelude.{◌≡◌, ◌⊎◌, ◌↔◌, ◌<◌, ◌^◌, ◌∷◌, [], ℕ, List, length, Ok, Err, IsTrue};
ghost use Rattle.std.specs.Int.{bytes_high_first};
ghost use Rattle.srp_base.specs.Hexadecimal.{number_high_first};
ghost use Rattle.mrpdu_codec.specs.declared.form.AppForm.{AppForm};
ghost use Rattle.mrpdu_codec.specs.declared.pdu.Pdu.{Pdu};
ghost use Rattle.mrpdu_codec.specs.declared.pdu.VectorAttr.{VectorAttr};
ghost use Rattle.mrpdu_codec.specs.Octets.{AreOctets, number};
ghost use Rattle.mrpdu_codec.specs.Tree.{vectors_octets};
ghost use Rattle.mrpdu_codec.specs.Grammar.{Spells, Breaks};
ghost use Rattle.mrpdu_codec.specs.Reading.{reading};
ghost use Rattle.mrpdu_codec.specs.Shape.{HasOctets};
ghost use Rattle.mrpdu_codec.specs.Canonical.{two_octets, vectors_for, spelling, well_formed, vectors_size, pdu_size};

/// The law of the grammar: all octets spell exactly one PDU, or break at exactly one place.
pub fn one_reading()
    ensures some { (form : AppForm) (octets : List ℕ)
        → ((pdu : Pdu) × Spells form octets pdu) ⊎ ((place : ℕ) × Breaks form octets place) }
    ensures one_pdu { (form : AppForm) (octets : List ℕ) (p q : Pdu)
        → Spells form octets p → Spells form octets q → p ≡ q }
    ensures one_place { (form : AppForm) (octets : List ℕ) (m n : ℕ)
        → Breaks form octets m → Breaks form octets n → m ≡ n }
    ensures never_both { (form : AppForm) (octets : List ℕ) (pdu : Pdu) (place : ℕ)
        → Spells form octets pdu → Breaks form octets place → ⊥ }
{}

/// The reading as a function is the grammar: octets read as exactly the PDU that they spell, or as
/// exactly the place where they break.
pub fn reading_is_the_grammar()
    ensures spelled { (form : AppForm) (octets : List ℕ) (pdu : Pdu)
        → (reading form octets ≡ Ok pdu) ↔ Spells form octets pdu }
    ensures broken { (form : AppForm) (octets : List ℕ) (place : ℕ)
        → (reading form octets ≡ Err place) ↔ Breaks form octets place }
{}

/// What octets spell has octets in its FirstValues. A list of numbers is a text of octets where
/// each is below 256, which the grammar itself doesn't ask of them.
pub fn first_values_are_octets()
    ensures { (form : AppForm) (octets : List ℕ) (pdu : Pdu)
        → AreOctets octets → Spells form octets pdu → HasOctets pdu }
{}

/// The round trip: the octets in which a PDU is written spell that PDU, and are read as it.
pub fn written_is_read()
    ensures spelled { (form : AppForm) (pdu : Pdu)
        → IsTrue (well_formed form pdu) → Spells form (spelling form pdu) pdu }
    ensures read { (form : AppForm) (pdu : Pdu)
        → IsTrue (well_formed form pdu) → reading form (spelling form pdu) ≡ Ok pdu }
{}

/// The law of the lengths: how many octets `encode` writes, from the numbers of events and
/// parameters.
pub fn written_size()
    ensures { (form : AppForm) (pdu : Pdu) → length (spelling form pdu) ≡ pdu_size form pdu }
{}

/// The law of the lists' lengths: how many octets the vectors of an AttributeList take.
pub fn written_list_size()
    ensures { (vs : List VectorAttr) → length (vectors_octets (vectors_for vs)) ≡ vectors_size vs }
{}

/// The law of the numbers: those that fit in n octets are read from what is written of them, and
/// two octets are as any others.
pub fn numbers_are_read_back()
    ensures read { (n number : ℕ)
        → number < 256 ^ n → number_high_first (bytes_high_first n number) ≡ number }
    ensures length { (n number : ℕ) → length (bytes_high_first n number) ≡ n }
    ensures pair { (high low : ℕ) → number_high_first (high ∷ low ∷ []) ≡ number high low }
    ensures two { (number : ℕ) → number < 65536 → bytes_high_first 2 number ≡ two_octets number }
{}
