//! Where holders of sockets change.
ghost use Rattle.std.specs.Prelude.{◌≡◌, ◌∷◌, ℕ, [], List, true, map};
ghost use Rattle.std.specs.List.{list_any};
ghost use Rattle.tas_model.specs.declared.entry.FlowId.{FlowId};
ghost use Rattle.host_rounds.specs.Hosts.{Holder, Application, GivenUp};
ghost use Rattle.host_books.specs.Books.{Book, IsAt};
ghost use Rattle.host_books.specs.Deeds.{with_holder};
ghost use Rattle.sound_hosts.specs.Leaving.{books_left, has_flow, reheld};
ghost use Rattle.sound_calls.specs.Handing.{accepted_by};

/// Where a socket is given up, or a flow accepted, the holder changes at the flow's place among the books, and nowhere
/// else: so it is what a run does with the books (`with_holder` of `host_books`).
pub fn holders_change_at_a_place()
    ensures left { (app place : ℕ) (id : FlowId) (books : List Book) → IsAt place id books
        → list_any (has_flow app id) books ≡ true
        → books_left app (id ∷ []) books ≡ with_holder place (λ (x : Holder). GivenUp) books }
    ensures accepted { (app place : ℕ) (id : FlowId) (books : List Book) → IsAt place id books
        → map (reheld (accepted_by app id)) books ≡ with_holder place (λ (x : Holder). Application app) books }
{}
