//! The number that a word writes.

ghost use Rattle.std.specs.Prelude.{◌≡◌, ◌<◌, ◌^◌, ℕ, IfNone, IfSome};
ghost use Rattle.std.specs.Fmt.{decimal};
ghost use Rattle.report_words.specs.Number.{number_of_word as number_of_word_spec};

use itoa::Buffer;
use std::str;

/// The number of 32 bits that a word writes in decimal, without a sign and without a leading zero;
/// None where it writes none.
pub fn number_of_word(word: &[u8]) -> Option<u32>
    ensures number { result ≡ number_of_word_spec word.now }
    ensures some { IfSome result (λ n. word.now ≡ decimal n) }
    ensures none { IfNone result ((n : ℕ) → n < 2 ^ 32 → word.now ≡ decimal n → ⊥) }
{
    match str::from_utf8(word) {
        Ok(text) => number_of_text(text),
        Err(_) => None,
    }
}

// The number that a text writes: the one that is read of it, where the text is what is written of
// that number.
fn number_of_text(text: &str) -> Option<u32>
    ensures number { result ≡ number_of_word_spec text.now }
    ensures some { IfSome result (λ n. text.now ≡ decimal n) }
    ensures none { IfNone result ((n : ℕ) → n < 2 ^ 32 → text.now ≡ decimal n → ⊥) }
{
    let Ok(number) = text.parse::<u32>() else {
        return None;
    };
    let mut digits = Buffer::new();
    if text == digits.format(number) {
        Some(number)
    } else {
        None
    }
}
