// The laws of the engine, of entries, and of the rounds of turns.
ghost use Rattle.std.specs.Prelude.{◌≡◌, ℕ, ◌+◌, ◌≤◌, List, ◌++◌, Bool, true, false};
ghost use Rattle.mb_world.specs.Value.{Val};
ghost use Rattle.mb_world.specs.Graph.{Graph, Program, Rule};
ghost use Rattle.mb_world.specs.Objects.{thing_at};
ghost use Rattle.mb_model.specs.Engine.{Res, Prog, Ret, Again, Doing, meaning, and_then, exec, given, means, left_of, state_of, under, leading, charged_row, ending, ends_with};
ghost use Rattle.mb_model.specs.Task.{Task, Method, Request, Perform, Access};
ghost use Rattle.mb_model.specs.BuiltIns.Collections.{access_row};
ghost use Rattle.mb_model.specs.Trace.Lawful.{TestTellsLawful};
ghost use Rattle.mb_model.specs.Trace.Entries.{makes_entry, is_foreign_at, method_noted, access_noted};
ghost use Rattle.mb_model.specs.Meaning.{row, finished, entries_made, Means, KeepsGiven};
ghost use Rattle.mb_model.specs.Story.{Stage, Letter, is_over, letters, first_stage, rounds, enough, Story};

/// What a task gives, its charge being paid, is what its row gives, done by the meaning itself: how deep uses are
/// nested doesn't matter.
pub fn a_task_is_done_by_its_row<T, O, S>()
    ensures { (row : T → S → Prog T O S) (t : T) (s : S) (f : ℕ) →
        given row t s f ≡ exec (meaning row) false (row t s) f }
{}

/// A task pays a unit, and then its row is done.
pub fn a_task_pays_first<T, O, S>()
    ensures { (row : T → S → Prog T O S) (t : T) (s : S) (f : ℕ) →
        means row t s f ≡ exec (meaning row) false (charged_row row t s) f }
{}

/// No task leaves more fuel than it got.
pub fn fuel_never_grows<T, O, S>()
    ensures { (row : T → S → Prog T O S) (t : T) (s : S) (f : ℕ) → left_of (means row t s f) ≤ f }
{}

/// The frames of a stack take what those above them give, as if these stood alone.
pub fn stacks_are_put_on_stacks<F, O, S>()
    ensures { (hand : F → O → S → ℕ → Res O S) (below above : List F) (r : Res O S) →
        under hand (below ++ above) r ≡ under hand below (under hand above r) }
{}

/// A row with one more change at its end is the row, and then that change, as a frame below all of the row's;
/// whatever tasks do. It charges nothing.
pub fn an_end_is_a_frame_below<T, O, S>()
    ensures done { (m : Doing T O S) (h : O → S → S) (begun : Bool) (p : Prog T O S) (f : ℕ) →
        exec m begun (ending h p) f ≡ and_then (exec m begun p f) (ends_with h) }
    ensures free { (h : O → S → S) (p : Prog T O S) → leading (ending h p) ≡ leading p }
{}

/// A task whose row is another's with one more change at its end does what the other does, and then that change;
/// whatever tasks do, and at the same charge.
pub fn an_end_is_added_to_a_task<T, O, S>()
    ensures { (m : Doing T O S) (row : T → S → Prog T O S) (h : O → S → S) (t u : T) (s : S) (f : ℕ) →
        row t s ≡ ending h (row u s) →
        exec m false (charged_row row t s) f ≡ and_then (exec m false (charged_row row u s) f) (ends_with h) }
{}

/// A row that starts anew as its last step is that row alone; whatever tasks do.
pub fn a_row_takes_the_place<T, O, S>()
    ensures { (m : Doing T O S) (t : T) (s : S) (f : ℕ) (k : O → S → Prog T O S) →
        ((o : O) (s' : S) → k o s' ≡ Ret o s') → exec m true (Again t s k) f ≡ m.anew t s f }
{}

/// The row of a method that makes an entry is the row of the method without, with the entry at its end; where the
/// object isn't foreign to the side that acts, it is that row.
pub fn entries_of_methods()
    ensures foreign { (s v : ℕ) (m : Method) (o : Val) (g : Graph) → makes_entry true s o g ≡ true →
        row (Perform s m o v true) g ≡ ending (method_noted (entries_made g) s o m) (row (Perform s m o v false) g) }
    ensures own { (s v : ℕ) (m : Method) (o : Val) (g : Graph) → makes_entry true s o g ≡ false →
        row (Perform s m o v true) g ≡ row (Perform s m o v false) g }
{}

/// So it is with the accesses of a collection.
pub fn entries_of_accesses()
    ensures foreign { (s p : ℕ) (c : Val) (q : Request) (g : Graph) → is_foreign_at s (thing_at g c) ≡ true →
        row (Access s p c q) g ≡ ending (access_noted (entries_made g) s p c q) (access_row s c q finished g) }
    ensures own { (s p : ℕ) (c : Val) (q : Request) (g : Graph) → is_foreign_at s (thing_at g c) ≡ false →
        row (Access s p c q) g ≡ access_row s c q finished g }
{}

/// No task changes the scripts, the policy, whether the membrane is revoked, or how many queues there are; however it
/// ends.
pub fn a_task_keeps_what_the_run_was_given()
    ensures { (task : Task) (graph : Graph) (fuel : ℕ) → KeepsGiven graph (state_of (Means task graph fuel)) }
{}

/// Entries that pass the test are lawful: none contradicts what was told before it began.
pub fn what_passes_the_test_is_lawful()
    ensures { TestTellsLawful }
{}

/// Where turns went round until the story was over, a larger count gives the same.
pub fn more_rounds_change_nothing()
    ensures { (count more side : ℕ) (stage : Stage) → is_over (rounds count side stage) ≡ true →
        rounds (count + more) side stage ≡ rounds count side stage }
{}

/// A story is told to its end: its queues are empty or its fuel is spent. The count of its rounds is never used up,
/// so a larger one gives the same.
pub fn a_story_is_told_to_its_end()
    ensures over { (programs : List Program) (rules : List Rule) (word : List Letter) (fuel : ℕ) →
        is_over (Story programs rules word fuel) ≡ true }
    ensures enough { (programs : List Program) (rules : List Rule) (word : List Letter) (fuel more : ℕ) →
        let stage = letters word (first_stage programs rules fuel) in
        rounds (enough stage + more) 0 stage ≡ Story programs rules word fuel }
{}
