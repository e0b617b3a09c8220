//! Rows ascending by key: where a key has its place, and the rows with another row for a key.

ghost use Rattle.std.specs.Prelude.{◌≡◌, suc, ◌+◌, ◌<◌, ◌≤◌, ◌++◌, take, drop, length, true, Some, vec_capacity, vec_len, IfOk, IfErr, OnOk, OnErr};
ghost use Rattle.std.specs.List.{cons_option};
ghost use Rattle.mrp_participant.specs.Lookup.{Ascends, key_of, find, IsRowAt, IsGapAt};

use crate::row::Row;
use srp_base::NoMemory;
use std::cmp::Ordering;

/// The place of a key's row, or the place at which a row of it would stand.
pub(crate) fn place<K: Copy + Ord, C: Copy>(rows: &[Row<K, C>], key: &K) -> Result<usize, usize>
    requires { Ascends K.cmp key_of rows.now }
    ensures row { IfOk result (λ i. IsRowAt K.cmp key.now rows.now i) }
    ensures gap { IfErr result (λ i. IsGapAt K.cmp key.now rows.now i) }
{
    rows.binary_search_by_key(key, |row| row.key)
}

/// The row of a key.
pub(crate) fn find_row<K: Copy + Ord, C: Copy>(rows: &[Row<K, C>], key: &K) -> Option<Row<K, C>>
    requires { Ascends K.cmp key_of rows.now }
    ensures { result ≡ find K.cmp key.now rows.now }
{
    match place(rows, key) {
        Ok(at) => Some(rows[at]),
        Err(_) => None,
    }
}

/// The same, where the row may stand at `near`: then it isn't searched for.
pub(crate) fn place_near<K: Copy + Ord, C: Copy>(
    rows: &[Row<K, C>],
    key: &K,
    near: usize,
) -> Result<usize, usize>
    requires { Ascends K.cmp key_of rows.now }
    ensures row { IfOk result (λ i. IsRowAt K.cmp key.now rows.now i) }
    ensures gap { IfErr result (λ i. IsGapAt K.cmp key.now rows.now i) }
{
    if stands_at(rows, key, near) {
        Ok(near)
    } else {
        place(rows, key)
    }
}

/// Whether a key's row stands at a place.
fn stands_at<K: Copy + Ord, C: Copy>(rows: &[Row<K, C>], key: &K, at: usize) -> bool
    requires { Ascends K.cmp key_of rows.now }
    ensures { result ≡ true → IsRowAt K.cmp key.now rows.now at }
{
    if rows.len() <= at {
        return false;
    }
    match rows[at].key.cmp(key) {
        Ordering::Equal => true,
        _ => false,
    }
}

/// The row of a key that may stand at `near`, which is afterwards the place behind the key's: where
/// keys come in order, most aren't searched for.
pub(crate) fn find_near<K: Copy + Ord, C: Copy>(
    rows: &[Row<K, C>],
    key: &K,
    near: &mut usize,
) -> Option<Row<K, C>>
    requires { Ascends K.cmp key_of rows.now }
    ensures { result ≡ find K.cmp key.now rows.now }
{
    match place_near(rows, key, *near) {
        Ok(at) => {
            *near = at + 1;
            Some(rows[at])
        }
        Err(at) => {
            *near = at;
            None
        }
    }
}

/// Puts another row, or none, in the place of the row at `at`.
pub(crate) fn replace_at<K: Copy, C: Copy>(
    rows: &mut Vec<Row<K, C>>,
    at: usize,
    new: Option<Row<K, C>>,
)
    requires { at < length rows.old.items }
    ensures rows { rows.new.items
        ≡ take at rows.old.items ++ cons_option new (drop (suc at) rows.old.items) }
    ensures capacity { vec_capacity rows.new ≡ vec_capacity rows.old }
    ensures len { vec_len rows.new ≤ vec_len rows.old }
{
    match new {
        Some(row) => {
            rows[at] = row;
        }
        None => {
            rows.remove(at);
        }
    }
}

/// Puts a row before the row at `at`. After want of memory the rows are as they were.
pub(crate) fn fill_at<K: Copy, C: Copy>(
    rows: &mut Vec<Row<K, C>>,
    at: usize,
    new: Row<K, C>,
) -> Result<(), NoMemory>
    requires { at ≤ length rows.old.items }
    ensures ok { OnOk result (rows.new.items
        ≡ take at rows.old.items ++ cons_option (Some new) (drop at rows.old.items)) }
    ensures err { OnErr result (rows.new.items ≡ rows.old.items) }
    ensures full { OnErr result (vec_capacity rows.old ≤ vec_len rows.old) }
    ensures capacity { vec_capacity rows.old ≤ vec_capacity rows.new }
    ensures len { vec_len rows.new ≤ vec_len rows.old + 1 }
{
    rows.insert(at, new)?;
    Ok(())
}
