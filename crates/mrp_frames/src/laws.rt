//! Laws of frames. A crate above that needs one calls it, and its proof has the clauses.

ghost use Rattle.std.specs.Prelude.{◌≡◌, ◌↔◌, ◌<◌, ◌≤◌, ◌+◌, ◌^◌, ◌++◌, ℕ, List, Some, length};
ghost use Rattle.capture_file.specs.declared.setting.LinkType.TheVariants.{Ethernet};
ghost use Rattle.capture_file.specs.Packets.{Packet};
ghost use Rattle.mrpdu_codec.specs.declared.form.AppForm.{AppForm};
ghost use Rattle.mrp_frames.specs.Frames.{Seen, frame_in};
ghost use Rattle.mrp_frames.specs.Grammar.{IsFrame};
ghost use Rattle.mrp_frames.specs.Writing.{frame_text, padding_of};

use mrpdu_codec::numbers_are_read_back;

/// The law of frames: what is read of a frame of MRP is what its octets spell, a head, tags one
/// after another and the PDU. So they spell one at most.
pub fn frames_are_the_grammar()
    ensures { (packet : Packet) (seen : Seen)
        → (frame_in packet ≡ Some seen) ↔ IsFrame packet.link packet.octets seen }
{}

/// The round trip: a frame that was written is seen as of its application, from its address, with
/// its PDU and what fills it up behind. It has 14 octets more than its PDU, or 60 in all where
/// these are more.
pub fn what_is_written_is_seen()
    ensures seen { (app : AppForm) (address : ℕ) (pdu : List ℕ) (packet : Packet)
        → address < 2 ^ 48 → packet.link ≡ Ethernet → packet.octets ≡ frame_text app address pdu
        → frame_in packet ≡ Some (record {
          address = address;
          app = app;
          pdu = pdu ++ padding_of pdu;
        }) }
    ensures least { (app : AppForm) (address : ℕ) (pdu : List ℕ)
        → 60 ≤ length (frame_text app address pdu) }
    ensures most { (app : AppForm) (address : ℕ) (pdu : List ℕ)
        → length (frame_text app address pdu) ≤ 60 + length pdu }
{
    numbers_are_read_back();
}
