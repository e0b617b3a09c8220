//! Where the FirstValues of a PDU stand. A crate that reads them may find one at fault, and says by
//! its place which. Nothing here takes memory, and nothing is walked that has no fault.

ghost use Rattle.std.specs.Prelude.{◌≡◌, ◌≤◌, ◌<◌, ◌-◌, ◌^◌, ◌==◌, ◌&&◌, ℕ, List, [], length, drop, slice_get, is_some, IfSome};
ghost use Rattle.std.specs.Option.{option_map};
ghost use Rattle.mrpdu_codec.specs.declared.form.AppForm.{AppForm};
ghost use Rattle.mrpdu_codec.specs.declared.form.AppForm.TheVariants.{Mvrp, Msrp};
ghost use Rattle.mrpdu_codec.specs.declared.pdu.Pdu.{Pdu};
ghost use Rattle.mrpdu_codec.specs.Tree.{MrpduTree, IsPduTree, tree_octets};
ghost use Rattle.mrpdu_codec.specs.Grammar.{Spells};
ghost use Rattle.mrpdu_codec.specs.Places.{span_of, header_in, places_in, behind_vectors, body_places, behind_body, known_places, kind_in, places_from, first_places, tree_places, first_value_place, AllStandAt};

use crate::fields::{fours_for, thirds};
use crate::form::{AppForm, TypeForm};
use crate::numbers::number;

/// The octets behind so many; none where there are fewer.
fn behind(octets: &[u8], n: usize) -> &[u8]
    ensures { result.now ≡ drop n octets.now }
{
    octets.split_at(n.min(octets.len())).1
}

/// How many octets a vector has behind its header.
fn span_of(row: Option<TypeForm>, len: u8, header: u16) -> usize
    ensures { result ≡ span_of row len header }
{
    let n = usize::from(header % 8192);
    usize::from(len) + (thirds(n) + fours_for(row, n))
}

/// A vector's header and the octets behind it; none where vectors end.
fn header_in(octets: &[u8]) -> Option<(u16, &[u8])>
    ensures { option_map (λ x. (x.0, x.1.now)) result ≡ header_in octets.now }
{
    match octets {
        [high, low, rest @ ..] => {
            let header = number(*high, *low);
            if header == 0 {
                None
            } else {
                Some((header, rest))
            }
        }
        _ => None,
    }
}

/// The place of the FirstValue of the vector of this number, in octets that end at an offset.
fn place_in(
    octets: &[u8],
    row: Option<TypeForm>,
    len: u8,
    end: usize,
    vector: usize,
) -> Option<usize>
    requires { length octets.now ≤ end }
    ensures place { result ≡ slice_get (places_in row len end 0 octets.now) vector }
    ensures within { IfSome result (λ p. p ≤ end) }
{
    let mut rest = octets;
    let mut before = vector;
    'more: loop {
        match header_in(rest) {
            None => return None,
            Some((header, after)) => {
                if before == 0 {
                    return Some(end - after.len());
                }
                before -= 1;
                rest = behind(after, span_of(row, len, header));
            }
        }
    }
}

/// The octets from the end of vectors on.
fn behind_vectors(octets: &[u8], row: Option<TypeForm>, len: u8) -> &[u8]
    ensures { result.now ≡ behind_vectors row len 0 octets.now }
{
    let mut rest = octets;
    'more: loop {
        match header_in(rest) {
            None => return rest,
            Some((header, after)) => rest = behind(after, span_of(row, len, header)),
        }
    }
}

/// The place in vectors that an EndMark ends, of octets from AttributeLength on.
fn listed_place(octets: &[u8], row: Option<TypeForm>, end: usize, vector: usize) -> Option<usize>
    requires { length octets.now ≤ end }
    ensures place { result ≡ slice_get (body_places Mvrp row end octets.now) vector }
    ensures within { IfSome result (λ p. p ≤ end) }
{
    match octets {
        [] => None,
        [len, rest @ ..] => place_in(rest, row, *len, end, vector),
    }
}

/// The place in vectors that AttributeListLength counts, of octets from AttributeLength on.
fn counted_place(octets: &[u8], row: Option<TypeForm>, end: usize, vector: usize) -> Option<usize>
    requires { length octets.now ≤ end }
    ensures place { result ≡ slice_get (body_places Msrp row end octets.now) vector }
    ensures within { IfSome result (λ p. p ≤ end) }
{
    match octets {
        [len, high, low, rest @ ..] => {
            let size = usize::from(number(*high, *low)).saturating_sub(2);
            let (here, beyond) = rest.split_at(size.min(rest.len()));
            place_in(here, row, *len, end - beyond.len(), vector)
        }
        _ => None,
    }
}

/// The place in a Message, of octets from AttributeLength on.
fn body_place(
    form: AppForm,
    octets: &[u8],
    row: Option<TypeForm>,
    end: usize,
    vector: usize,
) -> Option<usize>
    requires { length octets.now ≤ end }
    ensures place { result ≡ slice_get (body_places form row end octets.now) vector }
    ensures within { IfSome result (λ p. p ≤ end) }
{
    match form {
        AppForm::Mvrp => listed_place(octets, row, end, vector),
        AppForm::Msrp => counted_place(octets, row, end, vector),
        AppForm::Mmrp => listed_place(octets, row, end, vector),
    }
}

/// The octets behind vectors and the EndMark that ends them, of octets from AttributeLength on.
fn behind_list(octets: &[u8], row: Option<TypeForm>) -> &[u8]
    ensures { result.now ≡ behind_body Mvrp row octets.now }
{
    match octets {
        [] => &[],
        [len, rest @ ..] => behind(behind_vectors(rest, row, *len), 2),
    }
}

/// The octets behind what AttributeListLength counts, of octets from AttributeLength on.
fn behind_counted(octets: &[u8], row: Option<TypeForm>) -> &[u8]
    ensures { result.now ≡ behind_body Msrp row octets.now }
{
    match octets {
        [_, high, low, rest @ ..] => behind(rest, usize::from(number(*high, *low))),
        _ => &[],
    }
}

/// The octets behind the EndMark of a Message, of octets from AttributeLength on.
fn behind_body(form: AppForm, octets: &[u8], row: Option<TypeForm>) -> &[u8]
    ensures { result.now ≡ behind_body form row octets.now }
{
    match form {
        AppForm::Mvrp => behind_list(octets, row),
        AppForm::Msrp => behind_counted(octets, row),
        AppForm::Mmrp => behind_list(octets, row),
    }
}

/// An AttributeType that isn't 0, and the octets behind it.
fn kind_in(octets: &[u8]) -> Option<(u8, &[u8])>
    ensures { option_map (λ x. (x.0, x.1.now)) result ≡ kind_in octets.now }
{
    match octets {
        [] => None,
        [kind, rest @ ..] => {
            if *kind == 0 {
                None
            } else {
                Some((*kind, rest))
            }
        }
    }
}

/// Whether a Message is of a known type, and no others of one are to be passed.
fn is_here(row: Option<TypeForm>, before: usize) -> bool
    ensures { result ≡ (is_some row && (before == 0)) }
{
    row.is_some() && before == 0
}

/// How many Messages of known types are to be passed behind one.
fn still_before(row: Option<TypeForm>, before: usize) -> usize
    ensures { result ≡ before - length (known_places row []) }
{
    match row {
        Some(_) => before.saturating_sub(1),
        None => before,
    }
}

/// The place in Messages, of octets that end at an offset.
fn place_from(
    form: AppForm,
    octets: &[u8],
    end: usize,
    message: usize,
    vector: usize,
) -> Option<usize>
    requires { length octets.now ≤ end }
    ensures place { result
        ≡ first_value_place (places_from (length octets.now) form end octets.now) message vector }
    ensures within { IfSome result (λ p. p ≤ end) }
{
    let mut rest = octets;
    let mut before = message;
    'more: loop {
        match kind_in(rest) {
            None => return None,
            Some((kind, after)) => {
                let row = form.known(kind);
                if is_here(row, before) {
                    return body_place(form, after, row, end, vector);
                }
                before = still_before(row, before);
                rest = behind_body(form, after, row);
            }
        }
    }
}

/// The offset, in octets from 0, of the FirstValue of a vector in octets that `decode` reads: of
/// the vector of this number in the Message of this number, both counted from 0 as they stand in
/// the `Pdu`. None exactly where the PDU has no such Message, or no such vector in it. It takes no
/// memory. Of octets that are no PDU it says nothing of use. There are fewer than 2^32 octets.
#[tactic(auto, unfolding(crate::specs::Places::first_places))]
pub fn first_value_at(form: AppForm, octets: &[u8], message: usize, vector: usize) -> Option<u32>
    requires { length octets.now < 2 ^ 32 }
    ensures { result ≡ first_value_place (first_places form octets.now) message vector }
{
    match octets {
        [] => None,
        [_, rest @ ..] => {
            match place_from(form, rest, octets.len(), message, vector) {
                None => None,
                Some(place) => Some(place as u32),
            }
        }
    }
}

/// The law of the places. They are those of the syntax tree; and there is one for each vector of
/// the PDU, in order, at which its FirstValue stands.
pub fn first_values_have_places()
    ensures of_tree { (form : AppForm) (tree : MrpduTree) → IsPduTree form tree
        → first_places form (tree_octets tree) ≡ tree_places form tree }
    ensures one_each { (form : AppForm) (octets : List ℕ) (pdu : Pdu) → Spells form octets pdu
        → AllStandAt octets (first_places form octets) pdu.messages }
{}
