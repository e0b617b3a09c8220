//! What is said of files that a rule refuses.

use rule_words::{FileKind, refusal_text};
use std::alloc::Global;

/// Two nodes of one name.
const TWICE: &str =
    "ticks = 5\n[[node]]\nname = 'a'\nkind = 'bridge'\n[[node]]\nname = 'a'\nkind = 'bridge'\n";

/// A stream of a plan, with a key of a scenario.
const PLAN: &str =
    "[[stream]]\nname = 's'\ntalker = 'a'\nlisteners = ['b']\noctets = 64\npriority = 3\n";

/// Whether this is said of a rule that a text breaks.
fn is_said(alloc: Global, kind: FileKind, rule: u8, entry: u32, text: &str, wanted: &str) -> bool {
    match toml::table_from_str(alloc, text) {
        Ok(table) => match refusal_text(alloc, kind, rule, entry, &table, text.as_bytes()) {
            Ok(said) => said.as_slice() == wanted.as_bytes(),
            Err(_) => false,
        },
        Err(_) => false,
    }
}

#[test]
fn an_earlier_node_has_the_name(rt: HostRuntime) {
    let wanted = "rule 6 entry 2\nasks: node names differ\nentry: [[node]] 2 \"a\"\nline: 5\n\
        there: name = \"a\"\nother: [[node]] 1 \"a\" has this name\n";
    assert!(rt; is_said(rt.alloc(), FileKind::Scenario, 6, 2, TWICE, wanted));
}

#[test]
fn a_stream_of_a_plan_has_other_keys(rt: HostRuntime) {
    let wanted = "rule 51 entry 1\nasks: each stream has its form: known keys alone, octets or \
        else channels with rate_khz, none missing that has no default, each in its range; and the \
        octets of audio, 24 + channels x bits / 8 x samples, are at most 1500\n\
        entry: [[stream]] 1 \"s\"\nline: 1\nkey: \"priority\" is unknown; known are name talker \
        listeners octets frames class vid rank id dest\n";
    assert!(rt; is_said(rt.alloc(), FileKind::Plan, 51, 1, PLAN, wanted));
}
