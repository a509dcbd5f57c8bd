//! The laws of what lanes do: their deeds are words of a run, and cores' deeds leave running flows running.
ghost use Rattle.std.specs.Prelude.{◌≡◌, ◌∷◌, ℕ, Bool, true, List, []};
ghost use Rattle.tas_model.specs.declared.entry.FlowId.{FlowId};
ghost use Rattle.flow_lock.specs.declared.view.Deed.{Deed};
ghost use Rattle.host_books.specs.Books.{Book};
ghost use Rattle.host_books.specs.Tries.{Try, IsFrameWord, IsSendWord, IsTryWord};
ghost use Rattle.core_worker.specs.declared.frames.Frame.{Frame};
ghost use Rattle.core_phase.specs.Attempts.{AreOfTry, is_busy};
ghost use Rattle.core_phase.specs.declared.attempt.Attempt.{Attempt};
ghost use Rattle.core_phase.specs.declared.attempt.Answered.{Answered};
ghost use Rattle.core_phase.specs.Deeds.{IsRx, IsSend, KeepsColumn};
ghost use Rattle.core_phase.specs.Words.{frame_word, send_word, try_word, IsTryOf};

/// Each deed of a lane is a word of a run: a frame that a core took, a segment that it sent, or a call that an
/// application asked, as its script has it.
pub fn deeds_are_words<S, A>()
    ensures frame { (check : Bool) (core t : ℕ) (f : Frame) (d : Deed) → IsRx check core t f d
        → IsFrameWord {S = S} {A = A} t (frame_word check core f d) }
    ensures send { (core t : ℕ) (books : List Book) (d : Deed) → IsSend core t d
        → IsSendWord {S = S} {A = A} t books (send_word books core d) }
    ensures asked { (app t : ℕ) (id : FlowId) (before after : Attempt) (answer : Answered) (d : Deed) (x : Try S A)
        → IsTryOf app id before x → AreOfTry app id t before after answer (d ∷ []) → IsTryWord t (try_word x d) }
{}

/// What was answered Busy put nothing into the turn.
pub fn busy_attempts_do_nothing()
    ensures { (app t : ℕ) (id : FlowId) (before after : Attempt) (answer : Answered) (ds : List Deed)
        → is_busy answer ≡ true → AreOfTry app id t before after answer ds → ds ≡ [] }
{}

/// What a core does leaves an opening flow opening, a running one running, and a closed one closed.
pub fn deeds_leave_the_column()
    ensures frame { (check : Bool) (core t : ℕ) (f : Frame) (d : Deed) → IsRx check core t f d → KeepsColumn d }
    ensures send { (core t : ℕ) (d : Deed) → IsSend core t d → KeepsColumn d }
{}
