//! Laws of what is printed. A crate above that needs one calls it, and its proof has the clauses.

ghost use Rattle.std.specs.Prelude.{◌≡◌, ◌≤◌, ◌++◌, ℕ, List, length, Some, true, false, nat_eq};
ghost use Rattle.std.specs.List.{starts_with};
ghost use Rattle.capture_file.specs.Packets.{Packet};
ghost use Rattle.mrpdu_codec.specs.declared.form.AppForm.{AppForm};
ghost use Rattle.mrp_frames.specs.Frames.{Seen, frame_in};
ghost use Rattle.pdu_words.specs.Capture.{is_passed_over, octets_in};
ghost use Rattle.pdu_words.specs.Captured.{frame_front, frame_said};
ghost use Rattle.pdu_words.specs.Decoded.{dump_said, frame_of_octets, group_front, line_front, line_said, octets_said};

/// What `captured_text` has of a whole frame of MRP, behind its front, is what `decoded_text` has
/// of a line with the digits of its PDU, behind the line's.
pub fn a_frame_says_what_its_line_says()
    ensures frame { (n : ℕ) (p : Packet) (seen : Seen)
        → frame_in p ≡ Some seen → p.whole ≤ length p.octets
        → frame_said n p (frame_in p)
        ≡ frame_front n p.at_ns seen ++ octets_said seen.app seen.pdu }
    ensures line { (n : ℕ) (app : AppForm) (line octets : List ℕ)
        → is_passed_over line ≡ false → octets_in line ≡ Some octets
        → line_said app n line ≡ line_front n ++ octets_said app octets }
{}

/// What `decoded_text` has of a hex dump of a whole frame of MRP to one of its group addresses,
/// behind the line's front, is what `captured_text` has of that frame, behind the frame's.
pub fn a_dump_says_what_its_frame_says()
    ensures { (n : ℕ) (octets : List ℕ) (seen : Seen)
        → starts_with nat_eq octets group_front ≡ true
        → frame_in (frame_of_octets octets) ≡ Some seen
        → dump_said seen.app n octets ≡ line_front n ++ octets_said seen.app seen.pdu }
{}
