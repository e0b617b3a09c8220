//! What stands before and behind a part of a text, and its first line.

ghost use Rattle.std.specs.Prelude.{◌≡◌, ◌≢◌, ◌<◌, ◌≤◌, ◌==◌, ◌∷◌, ◌++◌, ℕ, List, length, IfSome, IfNone};
ghost use Rattle.std.specs.List.{position};
ghost use Rattle.journal_audit.specs.Texts.{lines_of};

/// What stands behind a front in a text, where the text begins with it.
pub(crate) fn behind<'a>(text: &'a [u8], front: &[u8]) -> Option<&'a [u8]>
    ensures some { IfSome result (λ rest. text.now ≡ front.now ++ rest.now) }
    ensures none { IfNone result ((rest : List ℕ) → text.now ≢ front.now ++ rest) }
{
    text.strip_prefix(front)
}

/// What stands before an end in a text, where the text ends with it.
pub fn before<'a>(text: &'a [u8], end: &[u8]) -> Option<&'a [u8]>
    ensures some { IfSome result (λ rest. text.now ≡ rest.now ++ end.now) }
    ensures none { IfNone result ((rest : List ℕ) → text.now ≢ rest ++ end.now) }
{
    text.strip_suffix(end)
}

/// What stands behind a word and a space in a text, where the text begins with them.
pub(crate) fn behind_word<'a>(text: &'a [u8], word: &[u8]) -> Option<&'a [u8]>
    ensures some { IfSome result (λ rest. text.now ≡ word.now ++ 32 ∷ rest.now) }
    ensures none { IfNone result ((rest : List ℕ) → text.now ≢ word.now ++ 32 ∷ rest) }
{
    let rest = behind(text, word)?;
    behind(rest, b" ")
}

// The place of the first line feed.
fn line_feed(text: &[u8]) -> Option<usize>
    ensures { result ≡ position (λ c. c == 10) text.now }
{
    text.iter().position(|c| *c == b'\n')
}

/// The first line of a text that isn't empty, with its line feed, if it has one, and what stands
/// behind it.
pub fn first_line(text: &[u8]) -> (&[u8], &[u8])
    requires { 1 ≤ length text.now }
    ensures lines { lines_of text.now ≡ result.0.now ∷ lines_of result.1.now }
    ensures less { length result.1.now < length text.now }
{
    match line_feed(text) {
        Some(place) => text.split_at(place + 1),
        None => (text, &[]),
    }
}
