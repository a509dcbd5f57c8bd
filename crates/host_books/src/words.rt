//! The laws of words for deeds: what each turn's deeds are in other words, put together as the order says.
ghost use Rattle.std.specs.Prelude.{◌≡◌, ◌≢◌, ℕ, Bool, List, [], length, map, filter, IsPermutation};
ghost use mathlib.Core.Option as O;
ghost use lib.ListN.{get_elem?};
ghost use Rattle.flow_lock.specs.Orders.{Order, of};
ghost use Rattle.flow_lock.specs.declared.view.Deed.{Deed};
ghost use Rattle.host_books.specs.Books.{Book};
ghost use Rattle.host_books.specs.Leavings.{leavings_in, books_after, scripts_after, LeaveAlike};
ghost use Rattle.host_books.specs.Tries.{Word, deed_of};
ghost use Rattle.host_books.specs.Words.{merged, AreWords, deed_in, AreOf, AreBelow, joined, joined_below, AreAllPairs};

/// Where each turn has a word for each of its deeds, the words have one order, too. Each word stands where its deed
/// does, and those that pass a test, where they are all of one turn, stand as they do there.
pub fn orders_are_merged<M>()
    ensures len { (order : Order) (words : ℕ → List M) → AreWords order words
        → length (merged order words) ≡ length order }
    ensures placed { (order : Order) (words : ℕ → List M) → AreWords order words
        → (k : ℕ) (x : ℕ × Deed) → get_elem? order k ≡ O.some x
        → (j : ℕ) × (get_elem? (of x.0 order) j ≡ O.some x.1)
        × (get_elem? (merged order words) k ≡ get_elem? (words x.0) j) }
    ensures filtered { (order : Order) (words : ℕ → List M) → AreWords order words
        → (test : M → Bool) (p : ℕ) → ((q : ℕ) → q ≢ p → filter test (words q) ≡ [])
        → filter test (merged order words) ≡ filter test (words p) }
{}

/// Words of each turn's deeds, put together as the order says, are the words of all its deeds, and have what the words
/// of all turns have.
pub fn words_are_gathered<M, B>()
    ensures deeds { (deed : M → Deed) (order : Order) (words : ℕ → List M) → AreOf deed order words
        → map deed (merged order words) ≡ map deed_in order }
    ensures moved { (deed : M → Deed) (has : M → List B) (turns : ℕ) (order : Order) (words : ℕ → List M)
        → AreBelow turns order → AreOf deed order words
        → IsPermutation (joined_below has turns words) (joined has (merged order words)) }
{}

/// Where what tries leave is of different flows, and it doesn't matter which of their scripts goes on first, the words
/// of all turns leave in the order of their deeds what they leave turn by turn.
pub fn turns_leave_alike<S, A>()
    ensures books { (t : ℕ) (order : Order) (turns : ℕ) (words : ℕ → List (Word S A)) → AreBelow turns order
        → AreOf deed_of order words → AreAllPairs (LeaveAlike t) words → (books : List Book) (state : S)
        → books_after (joined (leavings_in t) (merged order words)) books
        ≡ books_after (joined_below (leavings_in t) turns words) books }
    ensures scripts { (t : ℕ) (order : Order) (turns : ℕ) (words : ℕ → List (Word S A)) → AreBelow turns order
        → AreOf deed_of order words → AreAllPairs (LeaveAlike t) words → (books : List Book) (state : S)
        → scripts_after (joined (leavings_in t) (merged order words)) state
        ≡ scripts_after (joined_below (leavings_in t) turns words) state }
{}
