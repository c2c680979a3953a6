// Parts of rows that go over to other parts, or go on with an answer: laws over the definitions, so the bodies are
// empty.
ghost use Rattle.std.specs.Prelude.{◌+◌, ◌<◌, ◌≡◌, Bool, Err, List, Ok, Result, true, ℕ};
ghost use Rattle.mb_base.specs.declared.value.ObjId.{ObjId};
ghost use Rattle.mb_base.specs.declared.value.ScopeId.{ScopeId};
ghost use Rattle.mb_base.specs.declared.value.Side.{Side};
ghost use Rattle.mb_frames.specs.Going.{Changes, Enters, Makes, WentOn};
ghost use Rattle.mb_frames.specs.Passing.{Part, Passes, TextsGrew};
ghost use Rattle.mb_frames.specs.Stepping.{PutsNone, Step, Sure, Written, charged_by};
ghost use Rattle.mb_frames.specs.declared.frame.Move.{Move};
ghost use Rattle.mb_frames.specs.declared.machine.Halt.{Halt};
ghost use Rattle.mb_frames.specs.declared.machine.Halt.TheVariants as halt;
ghost use Rattle.mb_model.specs.Task.{Answer, Nothing};
ghost use Rattle.mb_model.specs.Writing.{Does, Row};
ghost use Rattle.mb_world.specs.Data.{Data};
ghost use Rattle.mb_world.specs.Graph.{Graph, Item};
ghost use Rattle.mb_world.specs.Image.{Image, entries_in, names_of, object_in};
ghost use Rattle.mb_world.specs.Laws.{Becomes};
ghost use Rattle.mb_world.specs.Value.{Val};

/// A part goes over to another way to write it, over a third part, past a charge that was paid, and where the world
/// changed as its image did.
pub fn parts_go_over()
    ensures by { (d : Data) (f : ℕ) (p q : Graph → Row) →
        ((log : List Item) → p (Image d log) ≡ q (Image d log)) → Passes d d f f p q }
    ensures then { (d1 d2 d3 : Data) (f1 f2 f3 : ℕ) (p q r : Graph → Row) → Passes d1 d2 f1 f2 p q →
        Passes d2 d3 f2 f3 q r → Passes d1 d3 f1 f3 p r }
    ensures paid { (d : Data) (n f f' : ℕ) (p : Graph → Row) → f' + n ≡ f → Passes d d f f' (charged_by n p) p }
    ensures texts { (d d' : Data) (f : ℕ) (p q : Graph → Row) → TextsGrew d d' →
        ((log : List Item) → p (Image d log) ≡ q (Image d log)) → Passes d d' f f p q }
    ensures becomes { (d d' : Data) (f : ℕ) (change : Graph → Graph) (p q : Graph → Row) → Becomes d d' change →
        entries_in d' ≡ entries_in d → d'.programs ≡ d.programs → d'.sides ≡ d.sides → d'.joined ≡ d.joined →
        ((log : List Item) → p (Image d log) ≡ q (change (Image d log))) → Passes d d' f f p q }
{}

/// A step of what a part went over to is a step of the part; it may add a line, unless nobody asks whether the row was
/// under way.
pub fn steps_begin_with_parts()
    ensures step { (home : Side) (begun : Bool) (r : Result Move Halt) (d1 d2 d3 : Data) (f1 f2 f3 : ℕ)
        (l l' : Written) → (p q : Graph → Row) → PutsNone r → Passes d1 d2 f1 f2 p q →
        Step home begun r d2 d3 f2 f3 l l' q → Step home begun r d1 d3 f1 f3 l l' p }
    ensures part { (home : Side) (r : Result Move Halt) (d1 d2 d3 : Data) (f1 f2 f3 : ℕ) (p q : Graph → Row) →
        Passes d1 d2 f1 f2 p q → Part home r d2 d3 f2 f3 q → Part home r d1 d3 f1 f3 p }
    ensures sure { (home : Side) (d : Data) (f : ℕ) (p : Graph → Row) (m : Move) → Sure home d p m →
        Part home (Ok m) d d f f p }
    ensures unpaid { (home : Side) (d : Data) (n f : ℕ) (p : Graph → Row) → f < n →
        Part home (Err halt.Spent) d d f f (charged_by n p) }
    ensures none { (home : Side) (r : Result Move Halt) (d d' : Data) (f f' : ℕ) (l l' : Written) →
        (p : Graph → Row) → Step home true r d d' f f' l l' p → PutsNone r }
{}

/// What goes on with an answer goes over to what follows the answer: a part that charges, a scope that is entered, a
/// change, and an object that is made. Where a scope couldn't be paid, nothing that follows it matters.
pub fn parts_go_on_with_answers()
    ensures answer { (d d' : Data) (f f' : ℕ) (p : Does Answer) (y : Answer) (k : Answer → Graph → Row) →
        WentOn Answer d d' f f' p y → Passes d d' f f' (p k) (k y) }
    ensures entered { (d d' : Data) (f f' : ℕ) (p : Does ℕ) (id : ScopeId) (k : ℕ → Graph → Row) →
        Enters (Ok id) d d' f f' p → Passes d d' f f' (p k) (k id.0) }
    ensures changed { (d d' : Data) (f : ℕ) (p : Does Answer) (k : Answer → Graph → Row) →
        Changes (Ok tt) d d' p → Passes d d' f f (p k) (k Nothing) }
    ensures made { (d d' : Data) (f : ℕ) (p : Does Val) (id : ObjId) (k : Val → Graph → Row) →
        Makes (Ok id) d d' p → Passes d d' f f (p k) (k (object_in (names_of d') id)) }
    ensures stuck { (home : Side) (d d' : Data) (f f' : ℕ) (p : Does ℕ) (k : ℕ → Graph → Row) →
        Enters (Err halt.Spent) d d' f f' p → Part home (Err halt.Spent) d d' f f' (p k) }
{}
