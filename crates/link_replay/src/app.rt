//! What an application of MRP states of its attributes' words.

ghost use Rattle.std.specs.Prelude.{◌≡◌, ◌++◌, ℕ, List, OnOk, string_bytes};

use mrp_participant::MrpApp;
use std::alloc::AllocError;

/// An application of MRP whose attributes are printed.
pub trait WatchedApp: MrpApp {
    // A key in words, as `vlan 2`.
    ghost key_text: { Self.Key → List ℕ };

    // A content in words, with a blank in front where it has any.
    ghost content_text: { Self.Content → List ℕ };

    /// Puts a key at the end of a text.
    fn write_key(out: &mut String, key: Self::Key) -> Result<(), AllocError>
        ensures { OnOk result (string_bytes out.new ≡ string_bytes out.old ++ key_text key) };

    /// Puts a content at the end of a text.
    fn write_content(out: &mut String, content: Self::Content) -> Result<(), AllocError>
        ensures { OnOk result (string_bytes out.new
            ≡ string_bytes out.old ++ content_text content) };
}
