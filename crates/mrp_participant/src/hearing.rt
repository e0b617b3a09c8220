//! What a list of messages makes of the rows, in the time of what it speaks of: the rows of its
//! keys are found beside the participant's rows, which are then changed in place. Where a key had
//! no row the rows are merged with them, in place too and from the back, which takes the time of
//! all rows, as a LeaveAll does. What wants memory comes first.

ghost use Rattle.std.specs.Prelude.{◌≡◌, ◌<◌, ◌≤◌, ◌+◌, [], ◌∷◌, ◌++◌, ◌⊎◌, map, length, take, drop, true, Some, IsSome, option_map, OnOk, OnErr, IfOk};
ghost use Rattle.std.specs.{Option.is_some, List.AllByRecursion, List.list_all};
ghost use Rattle.mrp_participant.specs.Lookup.{Ascends, key_of, find, put};
ghost use Rattle.mrp_participant.specs.Row.{after_hear, row_after_receive};
ghost use Rattle.mrp_participant.specs.Outlook.{IsOutlook, Tells};
ghost use Rattle.mrp_participant.specs.State.{AreRows};
ghost use Rattle.mrp_participant.specs.Hearing.{first_of, begun_row, row_so_far, heard_with, rows_as_one, put_over};

use crate::lookup::{fill_at, find_near, place, place_near, replace_at};
use crate::outlook::{Outlook, exchange_row, outlook_of};
use crate::row::{Row, makes_row};
use srp_base::{Cs, MrpEvent, NoMemory};
use std::alloc::Global;
use std::cmp::Ordering;

/// The rows of the keys that events speak of, after LeaveAll and then the events in order.
pub(crate) fn rows_heard<K: Copy + Ord, C: Copy>(
    alloc: Global,
    rows: &[Row<K, C>],
    leave_all: bool,
    events: &[(MrpEvent, K, C)],
    leave: Cs,
) -> Result<Vec<Row<K, C>>, NoMemory>
    requires { AreRows K.cmp rows.now }
    ensures are_rows { IfOk result (λ v. AreRows K.cmp v.items) }
    ensures each_key { IfOk result (λ v. (k : K)
        → row_so_far K.cmp leave_all leave rows.now v.items k
        ≡ row_after_receive K.cmp leave leave_all events.now k (find K.cmp k rows.now)) }
{
    let mut heard = Vec::new(alloc);
    let mut near = 0;
    for event in events {
        hear_beside(&mut heard, rows, &mut near, leave_all, *event, leave)?;
    }
    Ok(heard)
}

/// Lets the row of a key hear an event, beside the rows, in which it may stand at `near`.
fn hear_beside<K: Copy + Ord, C: Copy>(
    heard: &mut Vec<Row<K, C>>,
    rows: &[Row<K, C>],
    near: &mut usize,
    leave_all: bool,
    said: (MrpEvent, K, C),
    leave: Cs,
) -> Result<(), NoMemory>
    requires heard { Ascends K.cmp key_of heard.old.items }
    requires rows { Ascends K.cmp key_of rows.now }
    ensures { OnOk result (heard.new.items
        ≡ heard_with K.cmp leave_all leave rows.now heard.old.items said) }
{
    let (event, key, content) = said;
    match place(heard.as_slice(), &key) {
        Ok(at) => {
            let row = heard[at];
            replace_at(heard, at, Some(row.hears(event, content, leave)));
            Ok(())
        }
        Err(at) => match first_heard(rows, near, leave_all, event, key, content, leave) {
            Some(row) => fill_at(heard, at, row),
            None => Ok(()),
        },
    }
}

/// The row of a key, which may stand at `near`, after the first event of it.
fn first_heard<K: Copy + Ord, C: Copy>(
    rows: &[Row<K, C>],
    near: &mut usize,
    leave_all: bool,
    event: MrpEvent,
    key: K,
    content: C,
    leave: Cs,
) -> Option<Row<K, C>>
    requires { Ascends K.cmp key_of rows.now }
    ensures { result
        ≡ after_hear event key content leave
        (option_map (begun_row leave_all leave) (find K.cmp key rows.now)) }
{
    match find_near(rows, &key, near) {
        Some(row) => Some(row.begun(leave_all, leave).hears(event, content, leave)),
        None => {
            if makes_row(event) {
                Some(Row::fresh(key, content).hears(event, content, leave))
            } else {
                None
            }
        }
    }
}

/// Puts the rows of the keys that were heard of over the rows, after LeaveAll where there is one.
/// After want of memory the rows are as they were.
pub(crate) fn put_heard<K: Copy + Ord, C: Copy>(
    rows: &mut Vec<Row<K, C>>,
    outlook: &mut Outlook,
    leave_all: bool,
    heard: &[Row<K, C>],
    leave: Cs,
) -> Result<(), NoMemory>
    requires rows { Ascends K.cmp key_of rows.old.items }
    requires heard { Ascends K.cmp key_of heard.now }
    requires outlook { IsOutlook outlook.old rows.old.items }
    ensures each_key { OnOk result ((k : K) → find K.cmp k rows.new.items
        ≡ row_so_far K.cmp leave_all leave rows.old.items heard.now k) }
    ensures ascends { OnOk result (Ascends K.cmp key_of rows.new.items) }
    ensures err { OnErr result (rows.new.items ≡ rows.old.items) }
    ensures outlook { IsOutlook outlook.new rows.new.items }
{
    add_unknown(rows, outlook, heard)?;
    begin_all(rows, outlook, leave_all, leave);
    put_known(rows, outlook, heard);
    Ok(())
}

/// Puts the rows of keys that have none in, in place. After want of memory the rows are as they
/// were.
fn add_unknown<K: Copy + Ord, C: Copy>(
    rows: &mut Vec<Row<K, C>>,
    outlook: &mut Outlook,
    heard: &[Row<K, C>],
) -> Result<(), NoMemory>
    requires rows { Ascends K.cmp key_of rows.old.items }
    requires heard { Ascends K.cmp key_of heard.now }
    requires outlook { IsOutlook outlook.old rows.old.items }
    ensures known { OnOk result (AllByRecursion
        (λ u. IsSome (find K.cmp u.key rows.new.items)) heard.now) }
    ensures each_key { OnOk result ((k : K)
        → first_of (find K.cmp k heard.now) (find K.cmp k rows.new.items)
        ≡ first_of (find K.cmp k heard.now) (find K.cmp k rows.old.items)) }
    ensures ascends { OnOk result (Ascends K.cmp key_of rows.new.items) }
    ensures err { OnErr result (rows.new.items ≡ rows.old.items) }
    ensures outlook { IsOutlook outlook.new rows.new.items }
{
    if are_known(rows.as_slice(), heard) {
        return Ok(());
    }
    merge(rows, heard)?;
    *outlook = outlook_of(rows.as_slice());
    Ok(())
}

/// Whether each of some rows has a row of its key among others.
fn are_known<K: Copy + Ord, C: Copy>(rows: &[Row<K, C>], heard: &[Row<K, C>]) -> bool
    requires { Ascends K.cmp key_of rows.now }
    ensures { result ≡ list_all (λ u. is_some (find K.cmp u.key rows.now)) heard.now }
{
    let mut near = 0;
    for row in heard {
        if find_near(rows, &row.key, &mut near).is_none() {
            return false;
        }
    }
    true
}

/// Two lists of rows as one, in the place of the first; of two rows of one key that of `heard`
/// stays. Room is taken before a row moves: after want of memory the rows are as they were.
fn merge<K: Copy + Ord, C: Copy>(
    rows: &mut Vec<Row<K, C>>,
    heard: &[Row<K, C>],
) -> Result<(), NoMemory>
    requires rows { Ascends K.cmp key_of rows.old.items }
    requires heard { Ascends K.cmp key_of heard.now }
    ensures ok { OnOk result (rows.new.items ≡ rows_as_one K.cmp heard.now rows.old.items) }
    ensures err { OnErr result (rows.new.items ≡ rows.old.items) }
{
    if heard.is_empty() {
        return Ok(());
    }
    let count = rows.len();
    let len = merged_len(rows.as_slice(), heard)?;
    rows.resize(len, heard[0])?;
    merge_back(rows, count, heard);
    Ok(())
}

/// How many rows two lists are as one.
fn merged_len<K: Copy + Ord, C: Copy>(
    rows: &[Row<K, C>],
    heard: &[Row<K, C>],
) -> Result<usize, NoMemory>
    ensures { IfOk result (λ n. n ≡ length (rows_as_one K.cmp heard.now rows.now)) }
{
    let mut count = 0usize;
    let mut i = 0;
    let mut j = 0;
    while i < rows.len() || j < heard.len() {
        let (_, after, after_heard) = next_row(rows, i, heard, j);
        count = count.checked_add(1).ok_or(NoMemory)?;
        i = after;
        j = after_heard;
    }
    Ok(count)
}

/// The next row of two lists that are merged, from a place in each, and the places after it.
fn next_row<K: Copy + Ord, C: Copy>(
    rows: &[Row<K, C>],
    i: usize,
    heard: &[Row<K, C>],
    j: usize,
) -> (Row<K, C>, usize, usize)
    requires within { (i ≤ length rows.now) × (j ≤ length heard.now) }
    requires more { (i < length rows.now) ⊎ (j < length heard.now) }
    ensures next { rows_as_one K.cmp (drop j heard.now) (drop i rows.now)
        ≡ result.0 ∷ rows_as_one K.cmp (drop result.2 heard.now) (drop result.1 rows.now) }
    ensures within { (result.1 ≤ length rows.now) × (result.2 ≤ length heard.now) }
    ensures further { i + j < result.1 + result.2 }
{
    if j == heard.len() {
        return (rows[i], i + 1, j);
    }
    if i == rows.len() {
        return (heard[j], i, j + 1);
    }
    let row = &rows[i];
    let over = &heard[j];
    match over.key.cmp(&row.key) {
        Ordering::Less => (*over, i, j + 1),
        Ordering::Equal => (*over, i + 1, j + 1),
        Ordering::Greater => (*row, i + 1, j),
    }
}

/// The first `count` rows and those of `heard` as one, where there are as many rows as that has:
/// from the back, so that no row is overwritten before it has moved.
fn merge_back<K: Copy + Ord, C: Copy>(rows: &mut Vec<Row<K, C>>, count: usize, heard: &[Row<K, C>])
    requires rows { Ascends K.cmp key_of (take count rows.old.items) }
    requires heard { Ascends K.cmp key_of heard.now }
    requires within { count ≤ length rows.old.items }
    requires room { length rows.old.items
        ≡ length (rows_as_one K.cmp heard.now (take count rows.old.items)) }
    ensures { rows.new.items ≡ rows_as_one K.cmp heard.now (take count rows.old.items) }
{
    let mut i = count;
    let mut j = heard.len();
    let mut end = rows.len();
    while 0 < j {
        let (row, before, before_heard) = last_row(rows.as_slice(), i, heard, j);
        end -= 1;
        rows[end] = row;
        i = before;
        j = before_heard;
    }
}

/// The last row of the first `i` rows and the first `j` of `heard` as one, and how many of each are
/// before it.
fn last_row<K: Copy + Ord, C: Copy>(
    rows: &[Row<K, C>],
    i: usize,
    heard: &[Row<K, C>],
    j: usize,
) -> (Row<K, C>, usize, usize)
    requires rows { Ascends K.cmp key_of (take i rows.now) }
    requires heard { Ascends K.cmp key_of (take j heard.now) }
    requires within { (i ≤ length rows.now) × (j ≤ length heard.now) }
    requires more { 0 < j }
    ensures last { rows_as_one K.cmp (take j heard.now) (take i rows.now)
        ≡ rows_as_one K.cmp (take result.2 heard.now) (take result.1 rows.now) ++ result.0 ∷ [] }
    ensures within { (result.1 ≤ i) × (result.2 ≤ j) }
    ensures fewer { result.1 + result.2 < i + j }
{
    if i == 0 {
        return (heard[j - 1], i, j - 1);
    }
    let row = &rows[i - 1];
    let over = &heard[j - 1];
    match over.key.cmp(&row.key) {
        Ordering::Less => (*row, i - 1, j),
        Ordering::Equal => (*over, i - 1, j - 1),
        Ordering::Greater => (*over, i, j - 1),
    }
}

/// The rows as the events find them.
fn begin_all<K: Copy, C: Copy>(
    rows: &mut Vec<Row<K, C>>,
    outlook: &mut Outlook,
    leave_all: bool,
    leave: Cs,
)
    requires { IsOutlook outlook.old rows.old.items }
    ensures rows { rows.new.items ≡ map (begun_row leave_all leave) rows.old.items }
    ensures outlook { IsOutlook outlook.new rows.new.items }
{
    if leave_all {
        leave_all_in(rows, leave);
        *outlook = outlook_of(rows.as_slice());
    }
}

/// Lets every row hear a LeaveAll.
fn leave_all_in<K: Copy, C: Copy>(rows: &mut Vec<Row<K, C>>, leave: Cs)
    ensures { rows.new.items ≡ map (begun_row true leave) rows.old.items }
{
    for row in rows.iter_mut() {
        *row = row.hears_leave_all(leave);
    }
}

/// Puts rows in the places of those of their keys. The next moment at which a leave timer ends is
/// looked for once, at the end.
fn put_known<K: Copy + Ord, C: Copy>(
    rows: &mut Vec<Row<K, C>>,
    outlook: &mut Outlook,
    heard: &[Row<K, C>],
)
    requires rows { Ascends K.cmp key_of rows.old.items }
    requires known { AllByRecursion (λ u. IsSome (find K.cmp u.key rows.old.items)) heard.now }
    requires outlook { IsOutlook outlook.old rows.old.items }
    ensures rows { rows.new.items ≡ put_over K.cmp heard.now rows.old.items }
    ensures outlook { IsOutlook outlook.new rows.new.items }
{
    let mut near = 0;
    for row in heard {
        near = put_in(rows, outlook, near, *row);
    }
    *outlook = outlook.or_anew(rows.as_slice());
}

/// Puts a row in the place of that of its key, which may stand at `near`, and answers the place
/// behind it.
fn put_in<K: Copy + Ord, C: Copy>(
    rows: &mut Vec<Row<K, C>>,
    outlook: &mut Outlook,
    near: usize,
    row: Row<K, C>,
) -> usize
    requires rows { Ascends K.cmp key_of rows.old.items }
    requires known { IsSome (find K.cmp row.key rows.old.items) }
    requires tells { Tells outlook.old rows.old.items }
    ensures rows { rows.new.items ≡ put K.cmp row.key (Some row) rows.old.items }
    ensures tells { Tells outlook.new rows.new.items }
{
    match place_near(rows.as_slice(), &row.key, near) {
        Ok(at) => {
            exchange_row(rows, outlook, at, Some(row));
            at + 1
        }
        Err(at) => at,
    }
}
