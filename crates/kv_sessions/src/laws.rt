//! The laws of streams that are cut.

ghost use Rattle.std.specs.Prelude.{◌≡◌, ◌++◌, List, ℕ};
ghost use Rattle.kv_sessions.specs.Stored.{Map};
ghost use Rattle.kv_sessions.specs.Answers.{answers, and_more};
ghost use Rattle.kv_sessions.specs.Sessions.{standing, is_over};

/// What a stream is answered goes on from what its beginning was answered: the bytes that were left then, and what
/// comes behind them, are answered over the map that the beginning left.
pub fn answers_go_on()
    ensures { (m : Map) (front back : List ℕ) → answers m (front ++ back) ≡ and_more (answers m front) back }
{}

/// A session is over exactly where what its stream is answered ends it.
pub fn sessions_end_with_their_streams()
    ensures { (m : Map) (stream : List ℕ) → (answers m stream).ended ≡ is_over (standing (answers m stream)) }
{}
