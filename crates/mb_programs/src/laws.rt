// What follows of reading: a law over the definitions, so the body is empty.
ghost use Rattle.std.specs.Prelude.{List, ℕ};
ghost use Rattle.mb_programs.specs.Read.{CanStart, WasRead};
ghost use Rattle.mb_world.specs.Data.{Script};

/// Where the bytes of a script were read, its nodes have their parts, the script's own node stands last, no scope binds
/// a name twice, and its texts are there.
pub fn what_was_read_can_start()
    ensures { (texts : List (List ℕ)) (p : Script) → WasRead texts p → CanStart texts p }
{}
