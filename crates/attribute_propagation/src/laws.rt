//! What awaits after a set has changed, key by key: laws over the lists of keys. Each is a function
//! that does nothing; calling it brings the law to a proof.

ghost use Rattle.std.specs.Prelude.{◌≡◌, ◌&&◌, ◌||◌, not, List};
ghost use Rattle.std.specs.Ordering.{is_eq};
ghost use Rattle.attribute_propagation.specs.Dirty.{IsAscending, is_awaiting, with_key, all_marked, without_key};
ghost use Rattle.attribute_propagation.specs.Ports.{HasTold};

/// A key awaits once it, or a key that is the same, was marked; others await as before.
pub fn each_key_awaits<K: Copy + Ord>()
    ensures marked { (k x : K) (keys : List K)
        → is_awaiting K.cmp k (with_key K.cmp x keys)
        ≡ (is_eq (K.cmp x k) || is_awaiting K.cmp k keys) }
    ensures all_marked { (k : K) (new keys : List K)
        → is_awaiting K.cmp k (all_marked K.cmp new keys)
        ≡ (is_awaiting K.cmp k new || is_awaiting K.cmp k keys) }
    ensures cleared { (k x : K) (keys : List K)
        → is_awaiting K.cmp k (without_key K.cmp x keys)
        ≡ (not (is_eq (K.cmp x k)) && is_awaiting K.cmp k keys) }
{}

/// Keys that ascend strictly do so after one was marked, and after one was cleared.
pub fn keys_stay_ascending<K: Copy + Ord>()
    ensures marked { (x : K) (keys : List K) → IsAscending K.cmp keys
        → IsAscending K.cmp (with_key K.cmp x keys) }
    ensures cleared { (x : K) (keys : List K) → IsAscending K.cmp keys
        → IsAscending K.cmp (without_key K.cmp x keys) }
{}

/// Keys that are told await at every port but the one that told them, or at every port, beside
/// those that awaited there; where none is told all stay.
pub fn each_port_is_told<K: Copy + Ord>()
    ensures { HasTold K.cmp }
{}
