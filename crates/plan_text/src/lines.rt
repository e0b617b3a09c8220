//! The lines of keys.

ghost use Rattle.std.specs.Prelude.{◌≡◌, ◌++◌, OnOk};
ghost use Rattle.plan_text.specs.Lines.{number_line, text_line, truth_line, truth_word as truth_word_spec};

use report_words::{put, put_number, put_octets};
use srp_base::NoMemory;

/// A key with a number.
#[tactic(auto, unfolding(crate::specs::Lines::number_line))]
pub(crate) fn put_number_line(out: &mut Vec<u8>, key: &str, number: u64) -> Result<(), NoMemory>
    ensures { OnOk result (out.new.items ≡ out.old.items ++ number_line key.now number) }
{
    put(out, key)?;
    put(out, " = ")?;
    put_number(out, number)?;
    put(out, "\n")
}

/// A key with a text, which needs no escape.
#[tactic(auto, unfolding(crate::specs::Lines::text_line))]
pub(crate) fn put_text_line(out: &mut Vec<u8>, key: &str, text: &[u8]) -> Result<(), NoMemory>
    ensures { OnOk result (out.new.items ≡ out.old.items ++ text_line key.now text.now) }
{
    put(out, key)?;
    put(out, " = \"")?;
    put_octets(out, text)?;
    put(out, "\"\n")
}

/// A key with a truth value.
#[tactic(auto, unfolding(crate::specs::Lines::truth_line))]
pub(crate) fn put_truth_line(out: &mut Vec<u8>, key: &str, truth: bool) -> Result<(), NoMemory>
    ensures { OnOk result (out.new.items ≡ out.old.items ++ truth_line key.now truth) }
{
    put(out, key)?;
    put(out, " = ")?;
    put(out, truth_word(truth))?;
    put(out, "\n")
}

// A truth value by its word.
fn truth_word(truth: bool) -> &'static str
    ensures { result.now ≡ truth_word_spec truth }
{
    if truth { "true" } else { "false" }
}
