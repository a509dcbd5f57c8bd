//! Laws of pictures.

ghost use Rattle.std.specs.Prelude.{◌≡◌, ◌+◌, ℕ, Bool, List, Option, count_by};
ghost use Rattle.std.specs.List.{filter};
ghost use Rattle.host_rounds.specs.Lists.{Each};
ghost use Rattle.ladder_picture.specs.Arrows.{passes, sent_arrows};
ghost use Rattle.ladder_picture.specs.Drawing.{End, drawing};
ghost use Rattle.ladder_picture.specs.Kept as kept;
ghost use Rattle.ladder_picture.specs.OneArrow.{StandOnce, AreJoined, AreOfOneFrame};
ghost use Rattle.ladder_picture.specs.Rungs.{rungs_of, tells, with_log};
ghost use Rattle.ladder_picture.specs.WellFormed.{IsWellFormed};
ghost use Rattle.ladder_picture.specs.declared.arrows.Look.{Look};
ghost use Rattle.ladder_picture.specs.declared.row.Row.{Row};
ghost use Rattle.ladder_picture.specs.declared.rungs.Rung.{Rung};

/// Each drawing is a well-formed document: its elements are balanced and its texts are escaped, whatever the names are.
pub fn drawings_are_well_formed()
    ensures { (look : Look) (absolute : Bool) (left right : End) (rungs : List Rung)
        → IsWellFormed (drawing look absolute left right rungs) }
{}

/// Each entry with a segment stands in exactly one arrow, which is one of its frame, and no arrow shows anything else.
pub fn entries_stand_in_one_arrow()
    ensures { (rungs : List Rung) → StandOnce rungs }
{}

/// An emission is joined to where its frame comes, and to nothing else: an arrow goes from it to each place where the
/// other side has or meets a frame of its name, and ends nowhere else.
pub fn emissions_join_their_arrivals()
    ensures joined { (rungs : List Rung) → AreJoined rungs }
    ensures alone { (rungs : List Rung) → AreOfOneFrame rungs }
{}

/// Each row stands on exactly one rung, which is of its tick; each rung stands below the one above it, and where the
/// rows are in order of time, the rungs are.
pub fn rows_stand_on_rungs()
    ensures left { (left right : List Row) → kept.lefts (rungs_of left right) ≡ left }
    ensures right { (left right : List Row) → kept.rights (rungs_of left right) ≡ right }
    ensures ticks { (left right : List Row) → Each kept.HasItsTick (rungs_of left right) }
    ensures down { (left right : List Row) → kept.GoDown 0 (rungs_of left right) }
    ensures order { (left right : List Row) → kept.AreInOrder 0 left → kept.AreInOrder 0 right
        → kept.TicksAreInOrder 0 (rungs_of left right) }
{}

/// No arrow ends above where it begins.
pub fn arrows_go_down()
    ensures { (left right : List Row) → Each kept.GoesDown (sent_arrows (passes (rungs_of left right))) }
{}

/// Rows with those of a log are the given ones and those of the log that tell of frames of the host's flow, each as
/// often as there; and where both are in order of time, they are.
pub fn log_rows_are_kept()
    ensures kept { (rows log : List Row) (host : ℕ) (flow : Option ℕ) (test : Row → Bool)
        → count_by test (with_log rows log host flow)
        ≡ count_by test rows + count_by test (filter (tells host flow) log) }
    ensures order { (rows log : List Row) (host : ℕ) (flow : Option ℕ) (tick : ℕ) → kept.AreInOrder tick rows
        → kept.AreInOrder tick log → kept.AreInOrder tick (with_log rows log host flow) }
{}
