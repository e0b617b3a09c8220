//! What is said of octets that are no TOML document.

ghost use Rattle.std.specs.Prelude.{◌≡◌, ◌++◌, None, IfOk, OnOk};
ghost use Rattle.file_places.specs.Document.{document};
ghost use Rattle.file_places.specs.Places.{place_line, IsFaultPlace};
ghost use Rattle.rule_words.specs.NotToml.{not_toml_at, not_toml_words, IsNotTomlText};

use crate::pieces::put;
use file_places::{Place, put_place, toml_place};
use srp_base::NoMemory;
use std::alloc::Global;

// What is said of octets that are no document, with a place at which they stop being one.
fn text_at(alloc: Global, place: &Place) -> Result<Vec<u8>, NoMemory>
    ensures { IfOk result (λ text. text.items ≡ not_toml_at place.now) }
{
    let mut out = Vec::new(alloc);
    put(
        &mut out,
        "not TOML\nasks: the octets are UTF-8 and a TOML document\n",
    )?;
    put_place(&mut out, place)?;
    Ok(out)
}

// The same, where the octets stop being a document there.
fn fault_text(alloc: Global, octets: &[u8], place: &Place) -> Result<Vec<u8>, NoMemory>
    requires { IsFaultPlace octets.now place.now }
    ensures { IfOk result (λ text. IsNotTomlText octets.now text.items) }
{
    let text = text_at(alloc, place)?;
    Ok(text)
}

/// What is said of octets that are no TOML document: that, and by line and column where they stop
/// being one, with what the reader says of it.
pub fn not_toml_text(alloc: Global, octets: &[u8]) -> Result<Vec<u8>, NoMemory>
    requires { document octets.now ≡ None }
    ensures { IfOk result (λ text. IsNotTomlText octets.now text.items) }
{
    match toml_place(alloc, octets)? {
        Some(place) => fault_text(alloc, octets, &place),
        None => unreachable!(),
    }
}
