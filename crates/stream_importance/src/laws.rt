//! What importance is as an order: a law over the definitions that the contracts cite.

ghost use Rattle.std.specs.Prelude.{ℕ};
ghost use Rattle.stream_importance.specs.Importance.{IsImportanceOrder};

/// At every moment, in cs, more important is a strict order: of two entries at most one is more
/// important than the other, of two entries of different streams exactly one is, and what is more
/// important than a more important entry is more important.
pub fn importance_is_an_order()
    ensures { (now : ℕ) → IsImportanceOrder now }
{}
