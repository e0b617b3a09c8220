//! Lists of what is kept of some rows, made row by row, beside the rows or in their place.

ghost use Rattle.std.specs.Prelude.{◌≡◌, ◌<◌, ◌≤◌, ◌+◌, ◌++◌, ℕ, [], take, drop, length, suc, vec_capacity, vec_len, OnOk};
ghost use Rattle.std.specs.List.{cons_option};

use srp_base::NoMemory;

/// Adds an element at the end, if there is one.
pub(crate) fn push_some<T: Copy>(items: &mut Vec<T>, item: Option<T>) -> Result<(), NoMemory>
    ensures { OnOk result (items.new.items ≡ items.old.items ++ cons_option item []) }
{
    if let Some(item) = item {
        items.push(item)?;
    }
    Ok(())
}

/// Adds an element at the end, if there is one, where there is room for it.
pub(crate) fn push_within<T: Copy>(items: &mut Vec<T>, item: Option<T>)
    requires { vec_len items.old < vec_capacity items.old }
    ensures items { items.new.items ≡ items.old.items ++ cons_option item [] }
    ensures len { vec_len items.new ≤ vec_len items.old + 1 }
    ensures capacity { vec_capacity items.new ≡ vec_capacity items.old }
{
    if let Some(item) = item {
        items.push_reserved(item);
    }
}

/// Puts an element, if there is one, at the end of the first `kept`, and answers how many those are
/// then. The elements after that place stay.
pub(crate) fn keep_at<T: Copy>(items: &mut Vec<T>, kept: usize, item: Option<T>) -> usize
    requires { kept < length items.old.items }
    ensures kept { take result items.new.items ≡ take kept items.old.items ++ cons_option item [] }
    ensures few { result ≤ suc kept }
    ensures rest { (n : ℕ) → kept < n → drop n items.new.items ≡ drop n items.old.items }
    ensures length { length items.new.items ≡ length items.old.items }
{
    match item {
        Some(item) => {
            items[kept] = item;
            kept + 1
        }
        None => kept,
    }
}
