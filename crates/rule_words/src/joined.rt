//! The earlier links that already join the nodes of a link: those of the walk between them.

ghost use Rattle.std.specs.Prelude.{◌≡◌, ◌≤◌, ◌-◌, ◌++◌, ◌∷◌, ℕ, List, map, length, take, option_map, Some, IfOk, IfSome, OnOk};
ghost use Rattle.std.specs.List.{AllByRecursion, range_with_len};
ghost use Rattle.toml.specs.View.{table_view};
ghost use Rattle.rule_words.specs.declared.joined.Ends.{Ends};
ghost use Rattle.rule_words.specs.Joined.{all_ends as all_ends_spec, are_joined as are_joined_spec, ends_at as ends_at_spec, IsWithin, joined_line, labels_of, moved as moved_spec, walk_line, walk_word, walk_words};
ghost use Rattle.rule_words.specs.Others.{already_line, lines_of_two};
ghost use Rattle.rule_words.specs.Search.{entries_of as entries_of_spec};

use crate::keys::Key;
use crate::named::first_called;
use crate::pieces::{put, put_number};
use crate::search::entries_of;
use srp_base::NoMemory;
use std::alloc::Global;
use toml::Table;
use toml_rules::text;

// ---- links by the places of their nodes

/// The ends of a link, by their places among the nodes, counted from 0.
#[derive(Clone, Copy)]
struct Ends {
    a: usize,
    b: usize,
}

// The ends of a link, where they are names of nodes.
fn ends_at(nodes: &[&Table], link: &Table) -> Option<Ends>
    ensures ends { result
        ≡ ends_at_spec (map (λ t. table_view t.now) nodes.now) (table_view link.now) }
    ensures within { IfSome result (λ e. IsWithin (length nodes.now) e) }
{
    let a = first_called(text(link, "a")?, nodes)?;
    let b = first_called(text(link, "b")?, nodes)?;
    Some(Ends { a: a - 1, b: b - 1 })
}

// Those of each of these links, where all of them are.
fn all_ends(
    alloc: Global,
    nodes: &[&Table],
    links: &[&Table],
) -> Result<Option<Vec<Ends>>, NoMemory>
    ensures ends { IfOk result (λ found. option_map (λ v. v.items) found
        ≡ all_ends_spec (map (λ t. table_view t.now) nodes.now)
        (map (λ t. table_view t.now) links.now)) }
    ensures within { IfOk result (λ found.
        IfSome found (λ v. AllByRecursion (IsWithin (length nodes.now)) v.items)) }
{
    let mut found = Vec::with_capacity(alloc, links.len())?;
    for link in links {
        match ends_at(nodes, link) {
            Some(ends) => found.push(ends)?,
            None => return Ok(None),
        }
    }
    Ok(Some(found))
}

// The links before the one of this number.
fn earlier<'a, 'b>(links: &'b [&'a Table], number: usize) -> &'b [&'a Table]
    requires { 1 ≤ number }
    ensures { result.now ≡ take (number - 1) links.now }
{
    &links[..(number - 1).min(links.len())]
}

// ---- labels of nodes

// Each node by itself.
fn own_labels(alloc: Global, count: usize) -> Result<Vec<usize>, NoMemory>
    ensures { IfOk result (λ v. v.items ≡ range_with_len 0 count) }
{
    let mut labels = Vec::with_capacity(alloc, count)?;
    for i in 0..count {
        labels.push(i)?;
    }
    Ok(labels)
}

fn moved(from: usize, to: usize, label: usize) -> usize
    ensures { result ≡ moved_spec from to label }
{
    if label == from { to } else { label }
}

// Makes two components one.
fn relabel(labels: &mut [usize], from: usize, to: usize)
    ensures { labels.new ≡ map (moved_spec from to) labels.old }
{
    for label in labels.iter_mut() {
        *label = moved(from, to, *label);
    }
}

// The components with one more link in front of the others.
fn join(labels: &mut [usize], ends: Ends)
    requires { IsWithin (length labels.old) ends }
    ensures { (n : ℕ) (links : List Ends) → labels.old ≡ labels_of n links
        → labels.new ≡ labels_of n (ends ∷ links) }
{
    let to = labels[ends.a];
    let from = labels[ends.b];
    relabel(labels, from, to);
}

// Those with these links in front of the others.
fn join_all(labels: &mut [usize], links: &[Ends])
    requires { AllByRecursion (IsWithin (length labels.old)) links.now }
    ensures { (n : ℕ) (more : List Ends) → labels.old ≡ labels_of n more
        → labels.new ≡ labels_of n (links.now ++ more) }
{
    let mut rest = links.len();
    while rest > 0 {
        rest -= 1;
        join(labels, links[rest]);
    }
}

// ---- the walk between two nodes

// Whether links in two pieces join the ends of a further one, seen from labels that put each node
// by itself.
fn are_joined_from(labels: &mut [usize], front: &[Ends], back: &[Ends], ends: Ends) -> bool
    requires own { labels.old ≡ range_with_len 0 (length labels.old) }
    requires front { AllByRecursion (IsWithin (length labels.old)) front.now }
    requires back { AllByRecursion (IsWithin (length labels.old)) back.now }
    requires ends { IsWithin (length labels.old) ends }
    ensures { result ≡ are_joined_spec (front.now ++ back.now) ends.a ends.b }
{
    join_all(labels, back);
    join_all(labels, front);
    labels[ends.a] == labels[ends.b]
}

// Whether they do, of so many nodes.
fn are_joined(
    alloc: Global,
    count: usize,
    front: &[Ends],
    back: &[Ends],
    ends: Ends,
) -> Result<bool, NoMemory>
    requires front { AllByRecursion (IsWithin count) front.now }
    requires back { AllByRecursion (IsWithin count) back.now }
    requires ends { IsWithin count ends }
    ensures { IfOk result (λ r. r
        ≡ are_joined_spec (front.now ++ back.now) ends.a ends.b) }
{
    let mut labels = own_labels(alloc, count)?;
    Ok(are_joined_from(&mut labels, front, back, ends))
}

// The number of a link, where it is on the walk between the ends of a further one.
fn put_walk_number(
    out: &mut Vec<u8>,
    count: usize,
    links: &[Ends],
    ends: Ends,
    number: usize,
) -> Result<(), NoMemory>
    requires within { AllByRecursion (IsWithin count) links.now }
    requires ends { IsWithin count ends }
    requires number { (1 ≤ number) × (number ≤ length links.now) }
    ensures { OnOk result (out.new.items
        ≡ out.old.items ++ walk_word links.now ends.a ends.b number) }
{
    let alloc = *out.allocator();
    if are_joined(alloc, count, &links[..number - 1], &links[number..], ends)? {
        return Ok(());
    }
    put(out, " ")?;
    Ok(put_number(out, number as u64)?)
}

// Those of all links on it.
fn put_walk_numbers(
    out: &mut Vec<u8>,
    count: usize,
    links: &[Ends],
    ends: Ends,
) -> Result<(), NoMemory>
    requires within { AllByRecursion (IsWithin count) links.now }
    requires ends { IsWithin count ends }
    ensures { OnOk result (out.new.items
        ≡ out.old.items ++ walk_words links.now ends.a ends.b) }
{
    for i in 0..links.len() {
        put_walk_number(out, count, links, ends, i + 1)?;
    }
    Ok(())
}

// The links of the walk.
fn put_walk(out: &mut Vec<u8>, count: usize, links: &[Ends], ends: Ends) -> Result<(), NoMemory>
    requires within { AllByRecursion (IsWithin count) links.now }
    requires ends { IsWithin count ends }
    ensures { OnOk result (out.new.items
        ≡ out.old.items ++ walk_line links.now ends.a ends.b) }
{
    put(out, "other: [[link]]")?;
    put_walk_numbers(out, count, links, ends)?;
    Ok(put(out, " join them already\n")?)
}

// Where these links join its ends.
fn put_joined(out: &mut Vec<u8>, count: usize, links: &[Ends], ends: Ends) -> Result<(), NoMemory>
    requires within { AllByRecursion (IsWithin count) links.now }
    requires ends { IsWithin count ends }
    ensures { OnOk result (out.new.items ≡ out.old.items ++ joined_line ends links.now) }
{
    let alloc = *out.allocator();
    if are_joined(alloc, count, &links[..0], links, ends)? {
        put_walk(out, count, links, ends)
    } else {
        Ok(())
    }
}

// Where the ends of each of these links are names of nodes.
fn put_joined_by(
    out: &mut Vec<u8>,
    nodes: &[&Table],
    links: &[&Table],
    ends: Ends,
) -> Result<(), NoMemory>
    requires { IsWithin (length nodes.now) ends }
    ensures { OnOk result (out.new.items ≡ out.old.items
        ++ lines_of_two joined_line (Some ends)
        (all_ends_spec (map (λ t. table_view t.now) nodes.now)
        (map (λ t. table_view t.now) links.now))) }
{
    let alloc = *out.allocator();
    match all_ends(alloc, nodes, links)? {
        Some(links) => put_joined(out, nodes.len(), &links, ends),
        None => Ok(()),
    }
}

// Where those of the link are, too.
fn put_joined_at(
    out: &mut Vec<u8>,
    nodes: &[&Table],
    links: &[&Table],
    link: &Table,
) -> Result<(), NoMemory>
    ensures { OnOk result (out.new.items ≡ out.old.items
        ++ lines_of_two joined_line
        (ends_at_spec (map (λ t. table_view t.now) nodes.now) (table_view link.now))
        (all_ends_spec (map (λ t. table_view t.now) nodes.now)
        (map (λ t. table_view t.now) links.now))) }
{
    match ends_at(nodes, link) {
        Some(ends) => put_joined_by(out, nodes, links, ends),
        None => Ok(()),
    }
}

/// The links before the one of this number that join its nodes already.
pub(crate) fn put_already(
    out: &mut Vec<u8>,
    number: usize,
    table: &Table,
    link: &Table,
) -> Result<(), NoMemory>
    requires { 1 ≤ number }
    ensures { OnOk result (out.new.items ≡ out.old.items
        ++ already_line number (table_view table.now) (table_view link.now)) }
{
    let alloc = *out.allocator();
    let nodes = entries_of(alloc, Key::Nodes, table)?;
    let links = entries_of(alloc, Key::Links, table)?;
    put_joined_at(out, &nodes, earlier(&links, number), link)
}
