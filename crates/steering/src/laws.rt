//! The laws of groups and their cores.

ghost use Rattle.std.specs.Prelude.{◌≡◌, ◌≢◌, ◌%◌, ◌<◌, ℕ, length};
ghost use Rattle.steering.specs.Tables.{Table, core_in, moved, first_table};

/// An assign puts its group on its core and moves no other group.
pub fn an_assign_moves_one_group()
    ensures moved { (t : Table) (group core : ℕ) → group < length t → core_in (moved t group core) group ≡ core }
    ensures stays { (t : Table) (group core h : ℕ) → h ≢ group → core_in (moved t group core) h ≡ core_in t h }
    ensures size { (t : Table) (group core : ℕ) → length (moved t group core) ≡ length t }
{}

/// At first there are 64 groups, and each is on the core of its own number modulo the cores.
pub fn groups_start_on_their_numbers()
    ensures starts { (cores group : ℕ) → group < 64 → core_in (first_table cores) group ≡ group % cores }
    ensures size { (cores : ℕ) → length (first_table cores) ≡ 64 }
{}
