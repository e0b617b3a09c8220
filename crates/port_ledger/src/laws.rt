//! What a decision comes to, and what every step of a ledger keeps: laws over lists of entries and
//! over the models of ledgers, for those who speak of whole runs. Each is a function that does
//! nothing; calling it brings the law to a proof.

ghost use Rattle.std.specs.List.{list_any};
ghost use Rattle.std.specs.Prelude.{◌≡◌, is_some, ◌↔◌, ◌≤◌, ◌+◌, ◌==◌, ◌&&◌, ℕ, Bool, false, nat_lt, List, [], Some, None, IfSome, IsSome, if◌then◌else◌};
ghost use Rattle.srp_base.specs.declared.{bandwidth.Class.TheVariants.A, bandwidth.Class.TheVariants.B, numbers.StreamId.StreamId};
ghost use Rattle.stream_importance.specs.declared.{entry.Entry.Entry, entry.Fit.TheVariants.Fits, entry.Want.Want, slope.Caps.Caps};
ghost use Rattle.port_ledger.specs.Book.{Book, booked_only_in, booked_slope, clocked_book, empty_book, entry_of, fit_for, has_new_booking, IsFitWithin, IsKept, since_of, unwanted_book, want_of, wanted_book};
ghost use Rattle.port_ledger.specs.Decision.{AreOfDifferentStreams, booked_of, decided_entries, Decides, does_fit, is_booked, IsAscending, IsDecision, marks_of};

use stream_importance::importance_is_an_order;

/// Of entries of different streams there is exactly one decided set, at every moment and under any
/// caps.
pub fn one_decision()
    ensures exists { (now : ℕ) (caps : Caps) (entries : List Entry) → AreOfDifferentStreams entries
        → (marks : List Bool) × IsDecision now caps entries marks }
    ensures unique { (now : ℕ) (caps : Caps) (entries : List Entry) (marks others : List Bool)
        → AreOfDifferentStreams entries → IsDecision now caps entries marks
        → IsDecision now caps entries others → marks ≡ others }
{
    importance_is_an_order();
}

/// What a deciding call leaves is a function of the entries: `decided_entries` is one outcome of
/// deciding, and the only one.
pub fn one_outcome()
    ensures decides { (now : ℕ) (caps : Caps) (entries : List Entry) → AreOfDifferentStreams entries
        → Decides now caps entries (decided_entries now caps entries) }
    ensures only { (now : ℕ) (caps : Caps) (before after : List Entry)
        → AreOfDifferentStreams before
        → Decides now caps before after → after ≡ decided_entries now caps before }
{
    importance_is_an_order();
}

/// Each step of a ledger leads from what holds of every ledger to what holds of every ledger.
pub fn every_step_keeps_a_book()
    ensures empty { (caps : Caps) → caps.class_a ≤ caps.both → IsKept (empty_book caps) }
    ensures wanted { (book : Book) (now : ℕ) (want : Want) → IsKept book → book.moment ≤ now
        → IsKept (wanted_book now want book) }
    ensures unwanted { (book : Book) (now : ℕ) (stream : StreamId) → IsKept book → book.moment ≤ now
        → IsKept (unwanted_book now stream book) }
    ensures clocked { (book : Book) (now : ℕ) → IsKept book → book.moment ≤ now
        → IsKept (clocked_book now book) }
{
    importance_is_an_order();
}

/// The booked slopes of every ledger stay within its caps, and so does what every fit carries.
pub fn bookings_are_within_caps()
    ensures class_a { (book : Book) → IsKept book
        → booked_slope book.entries A ≤ book.caps.class_a }
    ensures both { (book : Book) → IsKept book
        → booked_slope book.entries A + booked_slope book.entries B ≤ book.caps.both }
    ensures fits { (book : Book) (now : ℕ) (want : Want) → IsKept book
        → IsFitWithin book.caps.both (fit_for now book want) }
{
    importance_is_an_order();
}

/// The booked set of every ledger is the decided set of its entries at its moment and at every
/// later one: time that passes changes no booking. Of every stream, its entry is booked exactly
/// where it fits among the booked ones, and a want that is kept fits exactly where it is booked.
pub fn decisions_stand()
    ensures decided { (book : Book) (later : ℕ) → IsKept book → book.moment ≤ later
        → IsDecision later book.caps book.entries (marks_of book.entries) }
    ensures booked { (book : Book) (later : ℕ) (s : StreamId) → IsKept book → book.moment ≤ later
        → IfSome (entry_of book.entries s)
        (λ x. is_booked x ≡ does_fit later book.caps (booked_of book.entries) x) }
    ensures kept { (book : Book) (later : ℕ) (want : Want) → IsKept book → book.moment ≤ later
        → want_of book.entries want.stream ≡ Some want
        → (fit_for later book want ≡ Fits) ↔ IsSome (since_of book.entries want.stream) }
{}

/// No booking is of a moment after its ledger's.
pub fn no_booking_is_ahead()
    ensures { (book : Book) (s : StreamId) → IsKept book
        → IfSome (since_of book.entries s) (λ since. since.0 ≤ book.moment) }
{}

/// What leaves every want's fit as it was: a clock that shows nothing, and a booked set that is the
/// same.
pub fn fits_stay()
    ensures clocked { (book : Book) (now : ℕ) (want : Want) → IsKept book → book.moment ≤ now
        → (nat_lt book.moment now && has_new_booking book) ≡ false
        → fit_for now book want ≡ fit_for book.moment book want }
    ensures booked { (book other : Book) (now : ℕ) (want : Want)
        → IsAscending book.entries → IsAscending other.entries
        → book.caps ≡ other.caps → booked_of book.entries ≡ booked_of other.entries
        → fit_for now book want ≡ fit_for now other want }
{}

/// A step changes the want of its own stream alone.
pub fn other_wants_stay()
    ensures wanted { (book : Book) (now : ℕ) (want : Want) (s : StreamId)
        → want_of (wanted_book now want book).entries s
        ≡ (if s.0 == want.stream.0 then Some want else want_of book.entries s) }
    ensures unwanted { (book : Book) (now : ℕ) (stream s : StreamId)
        → want_of (unwanted_book now stream book).entries s
        ≡ (if s.0 == stream.0 then None else want_of book.entries s) }
{}

/// A want that is kept already, and a stream that has none, change nothing but the moment. A stream
/// that isn't booked is taken out without a trace: the booked set changes exactly where it was
/// booked.
pub fn idle_steps_only_pass_time()
    ensures wanted { (book : Book) (now : ℕ) (want : Want) → IsKept book → book.moment ≤ now
        → want_of book.entries want.stream ≡ Some want
        → wanted_book now want book ≡ clocked_book now book }
    ensures unwanted { (book : Book) (now : ℕ) (stream : StreamId) → IsKept book → book.moment ≤ now
        → want_of book.entries stream ≡ None
        → unwanted_book now stream book ≡ clocked_book now book }
    ensures unbooked { (book : Book) (now : ℕ) (stream : StreamId) → IsKept book → book.moment ≤ now
        → (booked_of (unwanted_book now stream book).entries ≡ booked_of book.entries)
        ↔ (since_of book.entries stream ≡ None) }
{
    importance_is_an_order();
}

/// Both lists of what changed are empty exactly where the booked set is the same, and they depend
/// on the booked sets alone.
pub fn nothing_changed_where_both_lists_are_empty()
    ensures empty { (before after : List Entry) → IsAscending before → IsAscending after
        → ((booked_only_in after before ≡ []) × (booked_only_in before after ≡ []))
        ↔ (booked_of after ≡ booked_of before) }
    ensures bookings { (these those : List Entry)
        → booked_only_in (booked_of these) (booked_of those) ≡ booked_only_in these those }
{}

/// A stream whose booking isn't among what changed between two lists of entries is booked after
/// exactly where it was booked before.
pub fn what_has_not_moved_is_booked_as_before()
    ensures { (before after : List Entry) (s : StreamId) → IsAscending before → IsAscending after
        → list_any (λ x. x.0 == s.0) (booked_only_in after before) ≡ false
        → list_any (λ x. x.0 == s.0) (booked_only_in before after) ≡ false
        → is_some (since_of after s) ≡ is_some (since_of before s) }
{}
