//! Laws of the words of rules. Each is a function that does nothing and whose clauses are the law.

ghost use Rattle.std.specs.Prelude.{◌≡◌, ◌≤◌, ℕ, List, Option, Ok, IfOk, sum_by};
ghost use Rattle.toml_rules.specs.Rules.{each_entry, each_within};

/// A rule with weights lets through what the rule on each entry lets through, where the values
/// weigh no more than there is room for.
pub fn weighing<A, B>()
    ensures values { (rule n room : ℕ) (weight : B → ℕ) (read : ℕ → A → Option B) (xs : List A)
        → IfOk (each_within rule weight read n room xs)
        (λ ys. (each_entry rule read n xs ≡ Ok ys) × (sum_by weight ys ≤ room)) }
    ensures fits { (rule n room : ℕ) (weight : B → ℕ) (read : ℕ → A → Option B) (xs : List A)
        → IfOk (each_entry rule read n xs)
        (λ ys. sum_by weight ys ≤ room → each_within rule weight read n room xs ≡ Ok ys) }
{}
