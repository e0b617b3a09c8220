//! Laws of the grammar of capture files, and of moments. A crate above that needs one calls it, and
//! its proof has the clauses.

ghost use Rattle.std.specs.Prelude.{◌≡◌, ◌↔◌, ◌<◌, ◌^◌, ◌++◌, ℕ, List, Ok, None};
ghost use Rattle.std.specs.List.{AllByRecursion};
ghost use Rattle.capture_file.specs.declared.setting.ByteOrder.{ByteOrder};
ghost use Rattle.capture_file.specs.declared.setting.LinkType.{LinkType};
ghost use Rattle.capture_file.specs.Packets.{Packet};
ghost use Rattle.capture_file.specs.Settings.{per_second, units_of, ns_of};
ghost use Rattle.capture_file.specs.Options.{IsOtherOption, resolution_in};
ghost use Rattle.capture_file.specs.Grammar.{Outcome, IsReading, Spells};
ghost use Rattle.capture_file.specs.Reading.{reading};
ghost use Rattle.capture_file.specs.Writing.{Fits, file_text};

/// The law of the grammar: all octets have exactly one outcome. They spell a capture of exactly one
/// list of frames, or break off at exactly one place behind exactly one list, or are none for
/// exactly one cause.
pub fn one_reading()
    ensures some { (octets : List ℕ) → (outcome : Outcome) × IsReading octets outcome }
    ensures one { (octets : List ℕ) (a b : Outcome)
        → IsReading octets a → IsReading octets b → a ≡ b }
{}

/// The reading as a function is the grammar.
pub fn reading_is_the_grammar()
    ensures { (octets : List ℕ) (outcome : Outcome)
        → (reading octets ≡ outcome) ↔ IsReading octets outcome }
{}

/// The law of the clock: a moment of 64 bits is the same by the units that are kept as by those of
/// the resolution.
pub fn moments_are_exact()
    ensures { (resolution ticks : ℕ) → ticks < 2 ^ 64
        → ns_of (units_of resolution) ticks ≡ ns_of (per_second resolution) ticks }
{}

/// The law of options: an option of another code than 9 doesn't tell the resolution.
pub fn other_options_are_passed_over()
    ensures { (order : ByteOrder) (text more : List ℕ) → IsOtherOption order text
        → resolution_in order 0 (text ++ more) ≡ resolution_in order 0 more }
{}

/// The round trip: a file of frames that fit spells these frames, whole, with their moments, and is
/// read as them to its end.
pub fn what_is_written_is_read()
    ensures spelled { (order : ByteOrder) (link : LinkType) (packets : List Packet)
        → AllByRecursion (Fits link) packets → Spells (file_text order link packets) packets }
    ensures read { (order : ByteOrder) (link : LinkType) (packets : List Packet)
        → AllByRecursion (Fits link) packets
        → reading (file_text order link packets) ≡ Ok (packets, None) }
{}
