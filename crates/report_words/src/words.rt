//! Single words.

ghost use Rattle.std.specs.Prelude.{◌≡◌};
ghost use Rattle.report_words.specs.Words.{class_name as class_name_spec, state_name as state_name_spec, yes_or_no as yes_or_no_spec};

use registrar::Registrar;
use srp_base::Class;

/// A Registrar's state by its name, IN, LV or MT (IEEE Std 802.1Q-2018, 10.7.8).
pub fn state_name(state: Registrar) -> &'static str
    ensures { result.now ≡ state_name_spec state }
{
    match state {
        Registrar::Held => "IN",
        Registrar::Leaving => "LV",
        Registrar::Empty => "MT",
    }
}

/// An SR class by its letter.
pub fn class_name(class: Class) -> &'static str
    ensures { result.now ≡ class_name_spec class }
{
    match class {
        Class::A => "A",
        Class::B => "B",
    }
}

/// What a test says, as a word.
pub fn yes_or_no(test: bool) -> &'static str
    ensures { result.now ≡ yes_or_no_spec test }
{
    if test { "yes" } else { "no" }
}
