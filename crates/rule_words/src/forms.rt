//! What the value at a key has to be: a form, whether a value has it, and its words.

ghost use Rattle.std.specs.Prelude.{◌≡◌, ◌++◌, Some, IfOk, OnOk};
ghost use Rattle.std.specs.Option.{is_some};
ghost use Rattle.toml.specs.View.{table_view};
ghost use Rattle.topology_file.specs.{Entries.kind_of_text, Entries.domain_of_text, Kinds.app_of_text, Kinds.octets_of_text};
ghost use Rattle.rule_words.specs.Forms.{class_is_known as class_is_known_spec, event_kind_is_known as event_kind_is_known_spec, group_kind_is_known as group_kind_is_known_spec, is_one_of, khz_rates, sample_bits, passes as passes_spec, has_form as has_form_spec, fixed_words as fixed_words_spec, form_words as form_words_spec, range_words};

use crate::names::has_names;
use crate::pieces::put;
use hex::FromHexError;
use srp_base::{NoMemory, Rate, read_hex12, read_hex16};
use std::alloc::{AllocError, Global};
use toml::Table;
use toml_rules::{number, tables, text, truth_or, within};
use topology_file::read_name;

/// What the value at a key has to be.
#[derive(Clone, Copy, PartialEq, Eq)]
pub(crate) enum ValueForm {
    Name,
    Digits16,
    Digits12,
    PduDigits,
    Number,
    Within { low: u64, high: u64 },
    Rate,
    Truth,
    NodeKind,
    Domain,
    EventKind,
    App,
    Class,
    Tables,
    GroupKind,
    Names,
    Khz,
    Bits,
}

// An end station or a bridge.
fn is_node_kind(word: &str) -> bool
    ensures { result ≡ is_some (kind_of_text word.now) }
{
    matches!(word, "station" | "bridge")
}

// The SR classes of an SRP domain.
fn is_domain(word: &str) -> bool
    ensures { result ≡ is_some (domain_of_text word.now) }
{
    matches!(word, "both" | "a" | "none")
}

// An application whose PDUs may be forged.
fn is_app(word: &str) -> bool
    ensures { result ≡ is_some (app_of_text word.now) }
{
    matches!(word, "mvrp" | "msrp")
}

fn class_is_known(word: &str) -> bool
    ensures { result ≡ class_is_known_spec word.now }
{
    matches!(word, "A" | "B")
}

fn event_kind_is_known(word: &str) -> bool
    ensures { result ≡ event_kind_is_known_spec word.now }
{
    matches!(
        word,
        "declare"
            | "withdraw"
            | "talk"
            | "hush"
            | "listen"
            | "unlisten"
            | "lose"
            | "repeat"
            | "forge"
    )
}

fn group_kind_is_known(word: &str) -> bool
    ensures { result ≡ group_kind_is_known_spec word.now }
{
    matches!(word, "join" | "part" | "lose" | "repeat")
}

/// The most digits of a PDU.
const MOST_DIGITS: usize = 3_000;

// Whether digits spell the octets of a PDU.
fn is_pdu(alloc: Global, digits: &str) -> Result<bool, NoMemory>
    ensures { IfOk result (λ b. b ≡ is_some (octets_of_text digits.now)) }
{
    if digits.len() > MOST_DIGITS {
        return Ok(false);
    }
    match hex::decode(alloc, digits) {
        Ok(_) => Ok(true),
        Err(FromHexError::OutOfMemory) => Err(NoMemory),
        Err(_) => Ok(false),
    }
}

// Whether the text at a key is a PDU's octets.
fn has_pdu(alloc: Global, table: &Table, key: &str) -> Result<bool, NoMemory>
    ensures { IfOk result
        (λ b. b ≡ has_form_spec ValueForm.PduDigits key.now (table_view table.now)) }
{
    match text(table, key) {
        Some(digits) => is_pdu(alloc, digits),
        None => Ok(false),
    }
}

// Whether there is an array of tables at a key.
fn has_tables(alloc: Global, table: &Table, key: &str) -> Result<bool, NoMemory>
    ensures { IfOk result (λ b. b ≡ has_form_spec ValueForm.Tables key.now (table_view table.now)) }
{
    let found = tables(alloc, table, key)?;
    Ok(found.is_some())
}

fn has_digits16(table: &Table, key: &str) -> bool
    ensures { result ≡ has_form_spec ValueForm.Digits16 key.now (table_view table.now) }
{
    match text(table, key) {
        Some(digits) => read_hex16(digits).is_some(),
        None => false,
    }
}

fn has_digits12(table: &Table, key: &str) -> bool
    ensures { result ≡ has_form_spec ValueForm.Digits12 key.now (table_view table.now) }
{
    match text(table, key) {
        Some(digits) => read_hex12(digits).is_some(),
        None => false,
    }
}

fn has_rate(table: &Table, key: &str) -> bool
    ensures { result ≡ has_form_spec ValueForm.Rate key.now (table_view table.now) }
{
    match number(table, key) {
        Some(mbit) => Rate::of_mbit(mbit).is_some(),
        None => false,
    }
}

fn has_node_kind(table: &Table, key: &str) -> bool
    ensures { result ≡ has_form_spec ValueForm.NodeKind key.now (table_view table.now) }
{
    match text(table, key) {
        Some(word) => is_node_kind(word),
        None => false,
    }
}

fn has_domain(table: &Table, key: &str) -> bool
    ensures { result ≡ has_form_spec ValueForm.Domain key.now (table_view table.now) }
{
    match text(table, key) {
        Some(word) => is_domain(word),
        None => false,
    }
}

fn has_event_kind(table: &Table, key: &str) -> bool
    ensures { result ≡ has_form_spec ValueForm.EventKind key.now (table_view table.now) }
{
    match text(table, key) {
        Some(word) => event_kind_is_known(word),
        None => false,
    }
}

fn has_app(table: &Table, key: &str) -> bool
    ensures { result ≡ has_form_spec ValueForm.App key.now (table_view table.now) }
{
    match text(table, key) {
        Some(word) => is_app(word),
        None => false,
    }
}

fn has_class(table: &Table, key: &str) -> bool
    ensures { result ≡ has_form_spec ValueForm.Class key.now (table_view table.now) }
{
    match text(table, key) {
        Some(word) => class_is_known(word),
        None => false,
    }
}

fn has_group_kind(table: &Table, key: &str) -> bool
    ensures { result ≡ has_form_spec ValueForm.GroupKind key.now (table_view table.now) }
{
    match text(table, key) {
        Some(word) => group_kind_is_known(word),
        None => false,
    }
}

// Whether a rate of samples is one that plans have.
fn is_khz(khz: u64) -> bool
    ensures { result ≡ is_one_of khz_rates (Some khz) }
{
    khz == 48 || khz == 96 || khz == 192
}

fn has_khz(table: &Table, key: &str) -> bool
    ensures { result ≡ has_form_spec ValueForm.Khz key.now (table_view table.now) }
{
    match number(table, key) {
        Some(khz) => is_khz(khz),
        None => false,
    }
}

// Whether a sample may have so many bits.
fn is_bits(bits: u64) -> bool
    ensures { result ≡ is_one_of sample_bits (Some bits) }
{
    bits == 16 || bits == 24 || bits == 32
}

fn has_bits(table: &Table, key: &str) -> bool
    ensures { result ≡ has_form_spec ValueForm.Bits key.now (table_view table.now) }
{
    match number(table, key) {
        Some(bits) => is_bits(bits),
        None => false,
    }
}

/// Whether there is a value of this form at a key.
pub(crate) fn has_form(
    alloc: Global,
    form: ValueForm,
    table: &Table,
    key: &str,
) -> Result<bool, NoMemory>
    ensures { IfOk result (λ b. b ≡ has_form_spec form key.now (table_view table.now)) }
{
    match form {
        ValueForm::Name => Ok(read_name(table, key).is_some()),
        ValueForm::Digits16 => Ok(has_digits16(table, key)),
        ValueForm::Digits12 => Ok(has_digits12(table, key)),
        ValueForm::PduDigits => has_pdu(alloc, table, key),
        ValueForm::Number => Ok(number(table, key).is_some()),
        ValueForm::Within { low, high } => Ok(within(low, high, number(table, key)).is_some()),
        ValueForm::Rate => Ok(has_rate(table, key)),
        ValueForm::Truth => Ok(truth_or(table, key, false).is_some()),
        ValueForm::NodeKind => Ok(has_node_kind(table, key)),
        ValueForm::Domain => Ok(has_domain(table, key)),
        ValueForm::EventKind => Ok(has_event_kind(table, key)),
        ValueForm::App => Ok(has_app(table, key)),
        ValueForm::Class => Ok(has_class(table, key)),
        ValueForm::Tables => has_tables(alloc, table, key),
        ValueForm::GroupKind => Ok(has_group_kind(table, key)),
        ValueForm::Names => Ok(has_names(table, key)),
        ValueForm::Khz => Ok(has_khz(table, key)),
        ValueForm::Bits => Ok(has_bits(table, key)),
    }
}

// The words of a form that are the same at each time.
fn fixed_words(form: ValueForm) -> &'static str
    ensures { result.now ≡ fixed_words_spec form }
{
    match form {
        ValueForm::Name => "a text of 1 to 32 characters out of a to z, 0 to 9, - and _",
        ValueForm::Digits16 => "a text of 16 hexadecimal digits",
        ValueForm::Digits12 => "a text of 12 hexadecimal digits",
        ValueForm::PduDigits => "a text of at most 3000 hexadecimal digits, two an octet",
        ValueForm::Number => "a whole number, 0 or more",
        ValueForm::Within { .. } => "",
        ValueForm::Rate => "100, 1000 or 10000",
        ValueForm::Truth => "true or false",
        ValueForm::NodeKind => "station or bridge, as a text",
        ValueForm::Domain => "both, a or none, as a text",
        ValueForm::EventKind => {
            "declare, withdraw, talk, hush, listen, unlisten, lose, repeat or forge, as a text"
        }
        ValueForm::App => "mvrp or msrp, as a text",
        ValueForm::Class => "A or B, as a text",
        ValueForm::Tables => "an array of tables",
        ValueForm::GroupKind => "join, part, lose or repeat, as a text",
        ValueForm::Names => {
            "an array of at least one text of 1 to 32 characters out of a to z, 0 to 9, - and _"
        }
        ValueForm::Khz => "48, 96 or 192",
        ValueForm::Bits => "16, 24 or 32",
    }
}

// A whole number of a range, in words.
fn put_range(out: &mut Vec<u8>, low: u64, high: u64) -> Result<(), AllocError>
    ensures { OnOk result (out.new.items ≡ out.old.items ++ range_words low high) }
{
    let alloc = *out.allocator();
    let words = format!(in alloc; "from {low} to {high}, a whole number")?;
    put(out, &words)
}

/// What a form asks of a value, in words.
pub(crate) fn put_form(out: &mut Vec<u8>, form: ValueForm) -> Result<(), AllocError>
    ensures { OnOk result (out.new.items ≡ out.old.items ++ form_words_spec form) }
{
    match form {
        ValueForm::Within { low, high } => put_range(out, low, high),
        _ => put(out, fixed_words(form)),
    }
}
