// What follows for a machine from what its steps did: laws over the definitions, so the bodies are empty.
ghost use Rattle.std.specs.Prelude.{All, Option, Some, ◌≡◌, ◌<◌, ◌≤◌, ◌-◌, ◌++◌, ◌∷◌, [], List, ℕ, Bool, true, false, Result, Ok, Err};
ghost use Rattle.mb_base.specs.declared.value.Side.{Side};
ghost use Rattle.mb_base.specs.declared.value.Value.{Value};
ghost use Rattle.mb_model.specs.Engine.{meaning, exec, Spent, Do, ending, charged_row};
ghost use Rattle.mb_model.specs.Meaning.{row, finished};
ghost use Rattle.mb_model.specs.Task as model;
ghost use Rattle.mb_model.specs.Writing.{Row, is_value, throw, answer, again};
ghost use Rattle.mb_model.specs.Trace.Entries.{with_entry};
ghost use Rattle.mb_world.specs.Graph.{Graph, Item};
ghost use Rattle.mb_text.specs.Texts.{with_text};
ghost use Rattle.mb_world.specs.Contained.{Contained, IsOwn, Paired, in_cell, in_job, in_kind, in_scope, in_value};
ghost use Rattle.mb_world.specs.Data.{Data, cell_at, is_counted, kind_stand, made, scope_at, set_cell, set_scope, with_queue, with_scope, with_texts};
ghost use Rattle.mb_world.specs.Formed.{is_of_membrane};
ghost use Rattle.mb_world.specs.declared.cell.Cell.{Cell};
ghost use Rattle.mb_world.specs.declared.cell.CellKind.{CellKind};
ghost use Rattle.mb_world.specs.declared.scope.Scope.{Scope};
ghost use Rattle.mb_world.specs.declared.scope.Job.{Job};
ghost use Rattle.mb_base.specs.declared.value.ObjId.{ObjId};
ghost use Rattle.mb_base.specs.declared.value.ScopeId.{ScopeId};
ghost use Rattle.mb_base.specs.declared.value.StrId.{StrId};
ghost use Rattle.mb_world.specs.Ids.{HasItsIds, KindIn, ObjIn, ValueIn};
ghost use Rattle.mb_world.specs.Image.{Image, Resolve, names_of};
ghost use Rattle.mb_frames.specs.declared.task.Task.{Task};
ghost use Rattle.mb_frames.specs.declared.task.Outcome.{Outcome};
ghost use Rattle.mb_world.specs.declared.cell.ErrorKind.{ErrorKind};
ghost use Rattle.mb_frames.specs.declared.task.Answer.TheVariants as a;
ghost use Rattle.mb_frames.specs.declared.task.Outcome.TheVariants as o;
ghost use Rattle.mb_frames.specs.declared.frame.Entering.{Entering};
ghost use Rattle.mb_frames.specs.declared.frame.Frame.{Frame};
ghost use Rattle.mb_frames.specs.declared.frame.Frame.TheVariants as x;
ghost use Rattle.mb_frames.specs.declared.frame.Move.{Move};
ghost use Rattle.mb_frames.specs.declared.frame.Move.TheVariants as move;
ghost use Rattle.mb_frames.specs.declared.machine.Halt.{Halt};
ghost use Rattle.mb_frames.specs.declared.machine.Halt.TheVariants as halt;
ghost use Rattle.mb_frames.specs.declared.machine.Machine.{Machine};
ghost use Rattle.mb_frames.specs.declared.machine.Waiting.{Waiting};
ghost use Rattle.mb_frames.specs.Failing.{HasItsBuiltIns, HasErrorPrototype};
ghost use Rattle.mb_frames.specs.Holding.{StackIn, MachineIn, task_held, move_held, frame_held, outcome_held};
ghost use Rattle.mb_frames.specs.Held.{AreIn};
ghost use Rattle.mb_frames.specs.Resolved.{done_in, task_in};
ghost use Rattle.mb_frames.specs.Ready.{IsReady};
ghost use Rattle.mb_frames.specs.Making.{HasPrototypes};
ghost use Rattle.mb_frames.specs.Running.{CanRun};
ghost use Rattle.mb_frames.specs.Standing.{Tasks, ByRows, Logged, Passage, Here, left_by, hands, row_of, under_way, stack_gives, RestBy, forms_at, frame_row, entry_by};
ghost use Rattle.mb_frames.specs.Sorts.{Sort, IsOfSort, fits, frame_sort, task_gives, waits_for};
ghost use Rattle.mb_frames.specs.Wholeness.{AreOwn, AreSound, FormedMachine, GoesOnFormed, IsFitBegun, IsFitFrame, IsFitTask, IsOwnBy, IsStackSound, KeepsCell, KeptWorld, MachineContained, StandsAt, StaysFound, StaysOwn, StepsKept, sort_by};
ghost use Rattle.mb_frames.specs.Stepping.{Written, Stepped, Stopped, Sure, Step, PutsNone, charged_by, IsWait, weight, HasItsOutcome};

/// The meaning does each task's row, and so does what starts anew.
pub fn the_meaning_does_rows()
    ensures { ByRows (meaning row) }
{}

/// A step leaves what the machine still gives, where tasks do their rows: the outcome, the graph, the units and the
/// log, of which the step itself added its part. So it does for each upper part of the stack.
pub fn a_step_leaves_the_rest()
    ensures rest { (w : Tasks) → ByRows w → (m m' : Machine) (d d' : Data) (f f' : ℕ) (l l' : Written) →
        (q : Stepped m m' d d' f f' l l') (log : List Item) → Logged d log → HasItsIds d → MachineIn d m →
        RestBy w m' d' f' (log ++ q.step.added) ≡ RestBy w m d f log }
    ensures parts { (w : Tasks) → ByRows w → (m m' : Machine) (d d' : Data) (f f' : ℕ) (l l' : Written) →
        (q : Stepped m m' d d' f f' l l') (log : List Item) → Logged d log → HasItsIds d →
        (part : List Waiting) → StackIn d part →
        stack_gives w d' (part ++ left_by q.passage) m'.done (Image d' (log ++ q.step.added)) f'
        ≡ stack_gives w d (part ++ (q.top ∷ [])) m.done (Image d log) f }
    ensures logged { (m m' : Machine) (d d' : Data) (f f' : ℕ) (l l' : Written) →
        (q : Stepped m m' d d' f f' l l') (log : List Item) → Logged d log → Logged d' (log ++ q.step.added) }
{}

/// So it does whatever tasks do, if the top frame gives what its row does; and so the rest is spent where a step can't
/// pay.
pub fn a_step_needs_only_its_own_row()
    ensures rest { (w : Tasks) (m m' : Machine) (d d' : Data) (f f' : ℕ) (l l' : Written) →
        (q : Stepped m m' d d' f f' l l') (log : List Item) → Logged d log → HasItsIds d →
        ((g : Graph) → hands w d q.top (done_in (names_of d) m.done) g f
        ≡ exec w (under_way q.top.frame) (row_of d q.top m.done g) f) →
        MachineIn d m → RestBy w m' d' f' (log ++ q.step.added) ≡ RestBy w m d f log }
    ensures spent { (w : Tasks) (m : Machine) (d d' : Data) (f f' : ℕ) (l l' : Written) →
        (q : Stopped m d d' f f' l l') (log : List Item) → Logged d log →
        ((g : Graph) → hands w d q.top (done_in (names_of d) m.done) g f
        ≡ exec w (under_way q.top.frame) (row_of d q.top m.done g) f) →
        RestBy w m d f log ≡ Spent (Image d' log) f' }
{}

/// Where a step can't pay, what the machine still gives is spent, with the world that the step leaves, the units that
/// are left, and nothing added to the log.
pub fn a_step_that_cannot_pay_is_spent()
    ensures { (w : Tasks) → ByRows w → (m : Machine) (d d' : Data) (f f' : ℕ) (l l' : Written) →
        Stopped m d d' f f' l l' → (log : List Item) → Logged d log →
        RestBy w m d f log ≡ Spent (Image d' log) f' }
{}

/// After a step each id of the machine is one of the world again, and the outcome is missing exactly where something
/// starts on top, and nothing starts below.
pub fn a_step_keeps_the_machine_whole()
    ensures ids { (m m' : Machine) (d d' : Data) (f f' : ℕ) (l l' : Written) → Stepped m m' d d' f f' l l' →
        MachineIn d m → MachineIn d' m' }
    ensures outcome { (m m' : Machine) (d d' : Data) (f f' : ℕ) (l l' : Written) → Stepped m m' d d' f f' l l' →
        (log : List Item) → Logged d log → HasItsOutcome m.stack.items m.done →
        HasItsOutcome m'.stack.items m'.done }
{}

/// Each step lowers the weight of its machine: 16 a unit, 2 a frame, 9 an outcome, 8 or 3 what starts on top.
pub fn each_step_lowers_the_weight()
    ensures { (m m' : Machine) (d d' : Data) (f f' : ℕ) (l l' : Written) → Stepped m m' d d' f f' l l' →
        (log : List Item) → Logged d log → HasItsOutcome m.stack.items m.done → weight m' f' < weight m f }
{}

/// A formed machine stays formed, where what was found stays found, and what goes on in the place of the top frame is
/// formed: a step says nothing of the frames below it.
pub fn a_formed_machine_stays_formed()
    ensures { (m m' : Machine) (d d' : Data) (f f' : ℕ) (l l' : Written) → (q : Stepped m m' d d' f f' l l') →
        (log : List Item) → Logged d log → (h : FormedMachine d m) → HasItsIds d → StaysFound d d' →
        GoesOnFormed d' (sort_by d q.top h.sort) q.passage → FormedMachine d' m' }
{}

/// What goes on is formed: an outcome of a sort that fits, a task that gives one, and a frame that waits for what its
/// task gives.
pub fn what_goes_on_is_formed()
    ensures ends { (d : Data) (home : Side) (wanted given : Sort) (y : Outcome) → home.0 < d.sides →
        AreSound d home (outcome_held y) → IsOfSort given y → fits given wanted ≡ true →
        GoesOnFormed d wanted (Here home (move.Done y)) }
    ensures goes_on { (d : Data) (home : Side) (wanted : Sort) (t : Task) → home.0 < d.sides →
        AreSound d home (task_held t) → IsFitTask d t → fits (task_gives (forms_at d home) t) wanted ≡ true →
        GoesOnFormed d wanted (Here home (move.Next t)) }
    ensures anew { (d : Data) (home : Side) (wanted : Sort) (t : Task) → home.0 < d.sides →
        AreSound d home (task_held t) → IsFitBegun d t → fits (task_gives (forms_at d home) t) wanted ≡ true →
        GoesOnFormed d wanted (Here home (move.Anew t)) }
    ensures waits { (d : Data) (home : Side) (wanted : Sort) (y : Frame) (t : Task) → home.0 < d.sides →
        AreSound d home (frame_held y) → AreSound d home (task_held t) →
        IsFitFrame d y → IsFitTask d t → waits_for y (task_gives (forms_at d home) t) ≡ true →
        fits (frame_sort (forms_at d home) y (task_gives (forms_at d home) t)) wanted ≡ true →
        GoesOnFormed d wanted (Here home (move.Wait y t)) }
    ensures entered { (d : Data) (home : Side) (wanted : Sort) (y : Frame) (t : Task) → home.0 < d.sides →
        AreSound d home (frame_held y) → AreSound d home (task_held t) →
        IsFitFrame d y → IsFitBegun d t → waits_for y (task_gives (forms_at d home) t) ≡ true →
        fits (frame_sort (forms_at d home) y (task_gives (forms_at d home) t)) wanted ≡ true →
        GoesOnFormed d wanted (Here home (move.Entered y t)) }
{}

/// A contained machine stays contained, where its world does, homes keep what they own, and what goes on stands at the
/// home of the top frame and holds only what its homes own. A step that stays at that home keeps all that it is to
/// keep.
pub fn a_contained_machine_stays_contained()
    ensures machine { (m m' : Machine) (d d' : Data) (f f' : ℕ) (l l' : Written) → (q : Stepped m m' d d' f f' l l') →
        (log : List Item) → Logged d log → MachineIn d m → MachineContained d m → Contained d' → StaysOwn d d' →
        StandsAt q.top.home q.passage → IsOwnBy d' q.passage → MachineContained d' m' }
    ensures kept { (m m' : Machine) (d d' : Data) (f f' : ℕ) (l l' : Written) → (q : Stepped m m' d d' f f' l l') →
        (log : List Item) → Logged d log → MachineIn d m → MachineContained d m → KeptWorld q.top.home d d' →
        (y : Move) → q.passage ≡ Here q.top.home y → AreOwn d' q.top.home (move_held y) →
        StepsKept (Ok tt) m m' d d' }
    ensures own { (home : Side) (d d' : Data) → KeptWorld home d d' → StaysOwn d d' }
{}

/// A world is kept where nothing changes, and over two changes of one home.
pub fn a_world_is_kept_in_steps()
    ensures stays { (home : Side) (d : Data) → Contained d → Paired d → KeptWorld home d d }
    ensures goes_on { (home : Side) (a b c : Data) → KeptWorld home a b → KeptWorld home b c → KeptWorld home a c }
{}

/// Each call that changes a world at one home keeps it: a text, an object that is made, a cell that changed, a scope,
/// one that changed, and the jobs of a side.
pub fn calls_keep_their_worlds()
    ensures text { (home : Side) (d : Data) (t : List ℕ) → HasItsIds d → Contained d → Paired d →
        KeptWorld home d (with_texts d (with_text d.texts t)) }
    ensures made { (home : Side) (d : Data) (k : CellKind) (proto : Value) (label : Option StrId) → HasItsIds d →
        Contained d → Paired d → is_counted (kind_stand k) ≡ true → KindIn d k → ValueIn d proto →
        All (IsOwn d home) (in_kind k) → All (IsOwn d home) (in_value proto) →
        KeptWorld home d (made d home k proto label) }
    ensures changed { (home : Side) (d : Data) (id : ObjId) (c e : Cell) → HasItsIds d → Contained d → Paired d →
        cell_at d id ≡ Some c → c.home ≡ home → is_of_membrane c.kind ≡ false →
        KeepsCell d (set_cell d id e) c e → All (IsOwn d home) (in_cell e) → All (ObjIn d) (in_cell e) →
        KeptWorld home d (set_cell d id e) }
    ensures scope { (home : Side) (d : Data) (s : Scope) → HasItsIds d → Contained d → Paired d → s.home ≡ home →
        All (IsOwn d s.home) (in_scope s) → KeptWorld home d (with_scope d s) }
    ensures changed_scope { (home : Side) (d : Data) (id : ScopeId) (s t : Scope) → HasItsIds d → Contained d →
        Paired d → scope_at d id ≡ Some s → s.home ≡ home → t.home ≡ home → All (IsOwn d t.home) (in_scope t) →
        KeptWorld home d (set_scope d id t) }
    ensures queue { (home : Side) (d : Data) (jobs : List Job) → HasItsIds d → Contained d → Paired d →
        All (λ (x : Job). All (IsOwn d home) (in_job x)) jobs → KeptWorld home d (with_queue d home jobs) }
{}

/// A side that has the built-ins has the prototypes of errors.
pub fn a_side_can_throw_errors()
    ensures { (d : Data) → HasItsBuiltIns d → (side : Side) → side.0 < d.sides → (error : ErrorKind) →
        HasErrorPrototype d side error }
{}

/// What was found stays found where nothing changes, and over two changes.
pub fn what_was_found_is_found_in_steps()
    ensures stays { (d : Data) → StaysFound d d }
    ensures goes_on { (a b c : Data) → StaysFound a b → StaysFound b c → StaysFound a c }
{}

/// What was found of what stands in frames stays found, in a world in which it does for each value, scope and proxy.
pub fn what_was_found_stays_found()
    ensures { (d d' : Data) → HasItsIds d → StaysFound d d' → (stack : List Waiting) → StackIn d stack →
        IsStackSound d stack → IsStackSound d' stack }
{}

/// Parts of rows that charge nothing and change nothing: a row gives a value, throws one, or ends with a task; and such
/// a part is a step, whether the row was under way or not.
pub fn parts_that_change_nothing()
    ensures gives { (home : Side) (d : Data) (y : Value) → ValueIn d y →
        Sure home d (is_value (Resolve (names_of d) y) finished) (move.Done (o.Normal (a.Value y))) }
    ensures throws { (home : Side) (d : Data) (y : Value) → ValueIn d y →
        Sure home d (throw (Resolve (names_of d) y) finished) (move.Done (o.Throw y)) }
    ensures goes_on { (home : Side) (d : Data) (t : Task) → AreIn d (task_held t) →
        Sure home d (answer (task_in (names_of d) home.0 t) finished) (move.Next t) }
    ensures waits { (home : Side) (d : Data) (y : Frame) (t : Task) (p : Graph → Row) →
        (r : model.Outcome → Graph → Row) →
        ((log : List Item) → p (Image d log) ≡ Do (task_in (names_of d) home.0 t) (Image d log) r) → IsWait y →
        ((q : model.Outcome) (g : Graph) → r q g ≡ frame_row (names_of d) (forms_at d home) home.0 y q g) →
        AreIn d (move_held (move.Wait y t)) → Sure home d p (move.Wait y t) }
    ensures steps { (home : Side) (begun : Bool) (d : Data) (p : Graph → Row) (m : Move) (f : ℕ) (l : Written) →
        Sure home d p m → Step home begun (Ok m) d d f f l l p }
{}

/// Parts of rows that charge, or that go on without ending: a charge is paid or can't be paid, a row starts anew, and
/// an entry is put below a task that begins.
pub fn parts_that_charge()
    ensures paid { (home : Side) (begun : Bool) (r : Result Move Halt) (d d' : Data) (n f k f' : ℕ) (l l' : Written) →
        (p : Graph → Row) → n ≤ f → k ≡ f - n → PutsNone r → Step home begun r d d' k f' l l' p →
        Step home begun r d d' f f' l l' (charged_by n p) }
    ensures unpaid { (home : Side) (begun : Bool) (d : Data) (n f : ℕ) (l : Written) (p : Graph → Row) → f < n →
        Step home begun (Err halt.Spent) d d f f l l (charged_by n p) }
    ensures anew { (home : Side) (d : Data) (t : Task) (f : ℕ) (l : Written) → AreIn d (task_held t) →
        Step home true (Ok (move.Anew t)) d d f f l l (again (task_in (names_of d) home.0 t) finished) }
    ensures entered { (home : Side) (d : Data) (t u : Task) (y : Entering) (f : ℕ) (l : Written) →
        ((log : List Item) → Logged d log → row (task_in (names_of d) home.0 t) (Image d log)
        ≡ ending (λ q g. with_entry (entry_by (names_of d) home.0 y q) g)
        (row (task_in (names_of d) home.0 u) (Image d log))) →
        AreIn d (move_held (move.Entered (x.Entry y) u)) →
        Step home false (Ok (move.Entered (x.Entry y) u)) d d f f l l
        (λ g. charged_row row (task_in (names_of d) home.0 t) g) }
{}

/// A world between the steps is one in which each side that takes part can run and make functions.
pub fn a_ready_world_can_run()
    ensures runs { (d : Data) (home : Side) → IsReady d → home.0 < d.sides → CanRun d home }
    ensures prototypes { (d : Data) (home : Side) → IsReady d → home.0 < d.sides → HasPrototypes d home }
{}
