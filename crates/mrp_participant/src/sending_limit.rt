//! Which rows find room in the PDU that is sent: those before the first one that doesn't fit.

ghost use Rattle.std.specs.Prelude.{◌≡◌, List, ◌++◌, ◌≤◌, Some};
ghost use Rattle.std.specs.Result.{MatchResult};
ghost use Rattle.mrp_participant.specs.declared.row.Row.{Row};
ghost use Rattle.mrp_participant.specs.Sending.{order, rows_of_round};
ghost use Rattle.mrp_participant.specs.SendingLimit.{first_limit};

use crate::application::MrpApp;
use crate::row::{Row, round};

/// A place in the order in which rows are tried: a round, and a key in it.
#[derive(Clone, Copy)]
pub(crate) struct SendingLimit<K> {
    pub round: u8,
    pub key: K,
}

/// The place of the first row that finds no room in a PDU, if there is one.
pub(crate) fn find_limit<A: MrpApp>(
    rows: &[Row<A::Key, A::Content>],
    leave_all: bool,
) -> Option<SendingLimit<A::Key>>
    ensures { result ≡ first_limit leave_all A.octets A.base (order leave_all rows.now) }
{
    let used = match fill::<A>(rows, leave_all, 1, A::base_octets()) {
        Ok(used) => used,
        Err(limit) => return Some(limit),
    };
    let used = match fill::<A>(rows, leave_all, 2, used) {
        Ok(used) => used,
        Err(limit) => return Some(limit),
    };
    match fill::<A>(rows, leave_all, 3, used) {
        Ok(_) => None,
        Err(limit) => Some(limit),
    }
}

/// Tries the rows of one round where so many octets are used: how many are used afterwards, or the
/// place of the first row that finds no room.
fn fill<A: MrpApp>(
    rows: &[Row<A::Key, A::Content>],
    leave_all: bool,
    n: u8,
    used: usize,
) -> Result<usize, SendingLimit<A::Key>>
    requires { used ≤ 1500 }
    ensures bound { MatchResult result (λ more. more ≤ 1500) (λ limit. Unit {0}) }
    ensures filled { MatchResult result (λ more. (rest : List (Row A.Key A.Content))
        → first_limit leave_all A.octets used (rows_of_round leave_all n rows.now ++ rest)
        ≡ first_limit leave_all A.octets more rest) (λ limit. (rest : List (Row A.Key A.Content))
        → first_limit leave_all A.octets used (rows_of_round leave_all n rows.now ++ rest)
        ≡ Some limit) }
{
    let mut total = used;
    for row in rows {
        if round(leave_all, row.applicant) != n {
            continue;
        }
        let more = total + A::row_octets(&row.content);
        if more > 1500 {
            return Err(SendingLimit {
                round: n,
                key: row.key,
            });
        }
        total = more;
    }
    Ok(total)
}
