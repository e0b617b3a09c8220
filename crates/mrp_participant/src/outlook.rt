//! What is known of all rows without a look at them: when the first leave timer ends and how many
//! end then, and how many rows are tried. So a participant at which nothing happens costs the same
//! however many rows it has, and a row that changes costs no walk over the others, but where it was
//! the last one whose leave timer ends first.

ghost use Rattle.std.specs.Prelude.{◌≡◌, ◌<◌, ◌≤◌, ◌+◌, ◌^◌, ◌++◌, suc, take, drop, length, Some, vec_capacity, vec_len, OnOk, OnErr};
ghost use Rattle.std.specs.List.{cons_option, list_any};
ghost use Rattle.mrp_participant.specs.Row.{leave_is_due};
ghost use Rattle.mrp_participant.specs.Outlook.{Counts, HasRoom, IsCounted, IsOutlook, Tells, empty_outlook, ends_at, first_with, first_without, firsts, has_due, has_one, is_at_rest, outlook_with, outlook_without};
ghost use Rattle.mrp_participant.specs.State.{all_settled, none_tried};

use crate::lookup::{fill_at, replace_at};
use crate::row::Row;
use registrar::Registrar;
use srp_base::{Cs, NoMemory};

/// What is known of all rows.
#[derive(Clone, Copy)]
pub(crate) struct Outlook {
    /// The moment at which the first leave timer ends, in cs, and how many end then; None where
    /// none runs.
    pub first_leave: Option<(Cs, usize)>,
    /// How many rows are tried without LeaveAll.
    pub tried: usize,
}

impl Outlook {
    /// The outlook where there is no row.
    pub(crate) fn empty() -> Outlook
        ensures { result ≡ empty_outlook }
    {
        Outlook {
            first_leave: None,
            tried: 0,
        }
    }

    /// The outlook for one more row.
    fn with<K: Copy, C: Copy>(self, row: &Row<K, C>) -> Outlook
        requires { HasRoom self }
        ensures { result ≡ outlook_with self row.now }
    {
        let first_leave = match row.registrar {
            Registrar::Leaving => Some(first_with(self.first_leave, row.leave)),
            _ => self.first_leave,
        };
        Outlook {
            first_leave,
            tried: self.tried + usize::from(row.is_tried(false)),
        }
    }

    /// The outlook for one row less. Of the moment that it knows no leave timer may be left.
    fn without<K: Copy, C: Copy>(self, row: &Row<K, C>) -> Outlook
        requires { Counts self row.now }
        ensures { result ≡ outlook_without self row.now }
    {
        Outlook {
            first_leave: first_without(self.first_leave, row),
            tried: self.tried - usize::from(row.is_tried(false)),
        }
    }

    /// The outlook, or one taken anew where no leave timer is left of the moment that is known.
    pub(crate) fn or_anew<K: Copy, C: Copy>(self, rows: &[Row<K, C>]) -> Outlook
        requires { Tells self rows.now }
        ensures { IsOutlook result rows.now }
    {
        if has_one(self.first_leave) {
            self
        } else {
            outlook_of(rows)
        }
    }

    /// Whether a leave timer is due at a moment.
    pub(crate) fn has_due(self, now: Cs) -> bool
        ensures { result ≡ has_due now.0 self }
    {
        match self.first_leave {
            None => false,
            Some((first, _)) => first.0 <= now.0,
        }
    }

    /// Whether every row is at rest.
    fn is_at_rest(self) -> bool
        ensures { result ≡ is_at_rest self }
    {
        self.tried == 0 && self.first_leave.is_none()
    }
}

/// The first of some moments and how many timers end then, with one more.
fn first_with(first: Option<(Cs, usize)>, leave: Cs) -> (Cs, usize)
    requires { firsts first + 1 < 2 ^ 64 }
    ensures { result ≡ first_with first leave }
{
    match first {
        None => (leave, 1),
        Some((moment, count)) => {
            if leave.0 < moment.0 {
                (leave, 1)
            } else if leave.0 == moment.0 {
                (moment, count + 1)
            } else {
                (moment, count)
            }
        }
    }
}

/// The same moment and one timer less, where a row's ends then.
fn first_without<K: Copy, C: Copy>(
    first: Option<(Cs, usize)>,
    row: &Row<K, C>,
) -> Option<(Cs, usize)>
    requires { IsCounted first row.now }
    ensures { result ≡ first_without first row.now }
{
    let (moment, count) = first?;
    Some((moment, count - usize::from(ends_at(moment, row))))
}

/// Whether a row's leave timer runs and ends at a moment.
fn ends_at<K: Copy, C: Copy>(moment: Cs, row: &Row<K, C>) -> bool
    ensures { result ≡ ends_at moment row.now }
{
    row.registrar == Registrar::Leaving && moment.0 == row.leave.0
}

/// Whether some timer ends at the first moment, where there is one.
fn has_one(first: Option<(Cs, usize)>) -> bool
    ensures { result ≡ has_one first }
{
    match first {
        None => true,
        Some((_, count)) => 0 < count,
    }
}

/// The outlook for some rows: one walk over them.
pub(crate) fn outlook_of<K: Copy, C: Copy>(rows: &[Row<K, C>]) -> Outlook
    ensures { IsOutlook result rows.now }
{
    let mut outlook = Outlook::empty();
    for row in rows {
        outlook = outlook.with(row);
    }
    outlook
}

/// Puts another row, or none, in the place of the row at `at`. Of the moment that the outlook knows
/// no leave timer may be left.
pub(crate) fn exchange_row<K: Copy, C: Copy>(
    rows: &mut Vec<Row<K, C>>,
    outlook: &mut Outlook,
    at: usize,
    new: Option<Row<K, C>>,
)
    requires within { at < length rows.old.items }
    requires tells { Tells outlook.old rows.old.items }
    ensures rows { rows.new.items
        ≡ take at rows.old.items ++ cons_option new (drop (suc at) rows.old.items) }
    ensures capacity { vec_capacity rows.new ≡ vec_capacity rows.old }
    ensures len { vec_len rows.new ≤ vec_len rows.old }
    ensures tells { Tells outlook.new rows.new.items }
{
    let others = outlook.without(&rows[at]);
    replace_at(rows, at, new);
    *outlook = match new {
        Some(row) => others.with(&row),
        None => others,
    };
}

/// Puts another row, or none, in the place of the row at `at`. Where no leave timer is left of the
/// first moment, the next is looked for.
pub(crate) fn replace_row<K: Copy, C: Copy>(
    rows: &mut Vec<Row<K, C>>,
    outlook: &mut Outlook,
    at: usize,
    new: Option<Row<K, C>>,
)
    requires within { at < length rows.old.items }
    requires outlook { IsOutlook outlook.old rows.old.items }
    ensures rows { rows.new.items
        ≡ take at rows.old.items ++ cons_option new (drop (suc at) rows.old.items) }
    ensures capacity { vec_capacity rows.new ≡ vec_capacity rows.old }
    ensures len { vec_len rows.new ≤ vec_len rows.old }
    ensures outlook { IsOutlook outlook.new rows.new.items }
{
    exchange_row(rows, outlook, at, new);
    *outlook = outlook.or_anew(rows.as_slice());
}

/// Puts a row before the row at `at`. After want of memory the rows are as they were.
pub(crate) fn fill_row<K: Copy, C: Copy>(
    rows: &mut Vec<Row<K, C>>,
    outlook: &mut Outlook,
    at: usize,
    new: Row<K, C>,
) -> Result<(), NoMemory>
    requires within { at ≤ length rows.old.items }
    requires outlook { IsOutlook outlook.old rows.old.items }
    ensures ok { OnOk result (rows.new.items
        ≡ take at rows.old.items ++ cons_option (Some new) (drop at rows.old.items)) }
    ensures err { OnErr result (rows.new.items ≡ rows.old.items) }
    ensures full { OnErr result (vec_capacity rows.old ≤ vec_len rows.old) }
    ensures capacity { vec_capacity rows.old ≤ vec_capacity rows.new }
    ensures len { vec_len rows.new ≤ vec_len rows.old + 1 }
    ensures outlook { IsOutlook outlook.new rows.new.items }
{
    fill_at(rows, at, new)?;
    *outlook = outlook.with(&new);
    Ok(())
}

/// Whether a leave timer of some rows is due.
pub(crate) fn is_leave_due<K: Copy, C: Copy>(rows: &[Row<K, C>], outlook: Outlook, now: Cs) -> bool
    requires { IsOutlook outlook rows.now }
    ensures { result ≡ list_any (leave_is_due now.0) rows.now }
{
    outlook.has_due(now)
}

/// Whether no row is tried without LeaveAll.
pub(crate) fn is_none_tried<K: Copy, C: Copy>(rows: &[Row<K, C>], outlook: Outlook) -> bool
    requires { IsOutlook outlook rows.now }
    ensures { result ≡ none_tried rows.now }
{
    outlook.tried == 0
}

/// Whether every row's machines are at rest.
pub(crate) fn are_settled<K: Copy, C: Copy>(rows: &[Row<K, C>], outlook: Outlook) -> bool
    requires { IsOutlook outlook rows.now }
    ensures { result ≡ all_settled rows.now }
{
    outlook.is_at_rest()
}
