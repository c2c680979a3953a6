// Worlds and machines between the steps: laws over the definitions, so the bodies are empty.
ghost use Rattle.std.specs.Prelude.{All, Option, Some, slice_get, ◌≡◌, ◌<◌, ◌≤◌, ◌++◌, ◌∷◌, [], List, ℕ, Bool, true, false, is_some, length, Result, Ok, Err};
ghost use Rattle.mb_base.specs.declared.value.Key.{Key};
ghost use Rattle.mb_base.specs.declared.value.NodeId.{NodeId};
ghost use Rattle.mb_base.specs.declared.value.ObjId.{ObjId};
ghost use Rattle.mb_base.specs.declared.value.ScopeId.{ScopeId};
ghost use Rattle.mb_base.specs.declared.value.Side.{Side};
ghost use Rattle.mb_base.specs.declared.value.StrId.{StrId};
ghost use Rattle.mb_base.specs.declared.value.Value.{Value};
ghost use Rattle.mb_base.specs.declared.value.Value.TheVariants as v;
ghost use Rattle.mb_desc.specs.declared.descriptor.Full.{Full};
ghost use Rattle.mb_text.specs.Texts.{with_text};
ghost use Rattle.mb_world.specs.Contained.{IsOwn, in_cell, in_job, in_kind, in_scope, in_value, is_shadow};
ghost use Rattle.mb_world.specs.Data.{Data, built_in_of, cell_at, is_counted, kind_stand, made, new_cell, property_at, queue_of, scope_at, set_cell, set_scope, with_entry, with_queue, with_scope, with_symbol, with_texts};
ghost use Rattle.mb_world.specs.Formed.{FormedCell, FormedScope, IsCallable, as_standard, job_values};
ghost use Rattle.mb_world.specs.Image.{names_of, thing_in};
ghost use Rattle.mb_world.specs.Standard.{standard_at};
ghost use Rattle.mb_world.specs.declared.entry.Entry.{Entry};
ghost use Rattle.mb_world.specs.Ids.{EntryIn, JobIn, KindIn, Maybe, ScopeOf, TextIn, ValueIn, CellIn};
ghost use Rattle.mb_world.specs.declared.cell.Cell.{Cell};
ghost use Rattle.mb_world.specs.declared.cell.CellKind.{CellKind};
ghost use Rattle.mb_world.specs.declared.cell.CellKind.TheVariants.{BuiltIn, Function};
ghost use Rattle.mb_world.specs.declared.cell.Code.{Code};
ghost use Rattle.mb_world.specs.declared.cell.ErrorKind.{ErrorKind};
ghost use Rattle.mb_world.specs.declared.rule.Rule.{Rule};
ghost use Rattle.mb_world.specs.declared.rule.RuleKind.TheVariants.{Substitute};
ghost use Rattle.mb_world.specs.declared.scope.Job.{Job};
ghost use Rattle.mb_world.specs.declared.scope.Scope.{Scope};
ghost use Rattle.mb_frames.specs.Failing.{HasErrorPrototype, HasItsBuiltIns};
ghost use Rattle.mb_frames.specs.Found.{HoldsBuiltIn, HoldsCell, HoldsCode, HoldsJob, HoldsScope, IsHeldAs};
ghost use Rattle.mb_frames.specs.Held.{AreIn, Held, HeldCallable, HeldFull, HeldFunction, HeldObject, HeldValue};
ghost use Rattle.mb_frames.specs.Holding.{done_held, frame_held, move_held};
ghost use Rattle.mb_frames.specs.Ready.{Changed, Gives, Holds, IsMade, IsReady, IsReadyMachine, IsWritten, Leaves, MayHold};
ghost use Rattle.mb_frames.specs.Kinds.{is_expression};
ghost use Rattle.mb_frames.specs.Real.{AreApart, HasRealNames, IsReal};
ghost use Rattle.mb_frames.specs.Sorts.{ACompletion, AValue, IsOfSort, Sort, fits, frame_sort, waits_for};
ghost use Rattle.mb_frames.specs.Standing.{Here, forms_at};
ghost use Rattle.mb_frames.specs.Stepping.{IsWait, MayCross, Stepped, Stopped, Written};
ghost use Rattle.mb_frames.specs.Wholeness.{AreOwn, GoesOnFormed, IsFitFrame, KeepsCell, StaysFound, StepsKept, sort_by};
ghost use Rattle.mb_frames.specs.declared.frame.Frame.{Frame};
ghost use Rattle.mb_frames.specs.declared.frame.Move.{Move};
ghost use Rattle.mb_frames.specs.declared.frame.Move.TheVariants as move;
ghost use Rattle.mb_frames.specs.declared.machine.Halt.{Halt};
ghost use Rattle.mb_frames.specs.declared.machine.Machine.{Machine};
ghost use Rattle.mb_frames.specs.declared.machine.Waiting.{Waiting};
ghost use Rattle.mb_frames.specs.declared.task.Context.{Context};
ghost use Rattle.mb_frames.specs.declared.task.Outcome.{Outcome};
ghost use Rattle.mb_frames.specs.declared.task.Outcome.TheVariants as o;
ghost use Rattle.mb_frames.specs.declared.task.Task.{Task};
ghost use Rattle.mb_frames.specs.declared.task.Task.TheVariants as task;

/// A world stays ready, and what was found stays found, where nothing changes, over two changes, and over each change
/// that a home may make: a text, a symbol, an object that is made, one that is written, a scope, one that is written,
/// and its jobs.
pub fn changes_keep_a_world_ready()
    ensures stays { (home : Side) (d : Data) → IsReady d → Changed home d d }
    ensures goes_on { (home : Side) (a b c : Data) → Changed home a b → Changed home b c → Changed home a c }
    ensures text { (home : Side) (d : Data) (t : List ℕ) → IsReady d →
        Changed home d (with_texts d (with_text d.texts t)) }
    ensures symbol { (home : Side) (d : Data) (x : Option StrId) → IsReady d → Maybe (TextIn d) x →
        Changed home d (with_symbol d x) }
    ensures made { (home : Side) (d : Data) (k : CellKind) (proto : Value) (label : Option StrId) → IsReady d →
        home.0 < d.sides → IsMade d home k proto label → Changed home d (made d home k proto label) }
    ensures written { (home : Side) (d : Data) (id : ObjId) (c e : Cell) → IsReady d → cell_at d id ≡ Some c →
        IsWritten d home id c e → Changed home d (set_cell d id e) }
    ensures scope { (home : Side) (d : Data) (s : Scope) → IsReady d → s.home ≡ home → ScopeOf d s →
        FormedScope d (length d.scopes) s → (d.joined ≡ false → All (IsOwn d home) (in_scope s)) →
        Changed home d (with_scope d s) }
    ensures written_scope { (home : Side) (d : Data) (id : ScopeId) (s t : Scope) → IsReady d →
        scope_at d id ≡ Some s → s.home ≡ home → t.home ≡ home → ScopeOf d t → FormedScope d id.0 t →
        (d.joined ≡ false → All (IsOwn d home) (in_scope t)) → Changed home d (set_scope d id t) }
    ensures queue { (home : Side) (d : Data) (jobs : List Job) → IsReady d → All (JobIn d) jobs →
        All (λ x. All (IsCallable d) (job_values x)) jobs →
        (d.joined ≡ false → All (λ x. All (IsOwn d home) (in_job x)) jobs) → Changed home d (with_queue d home jobs) }
{}

/// What a home may hold it may hold after a change.
pub fn what_is_held_stays_held()
    ensures { (home : Side) (d d' : Data) (held : List Held) → IsReady d → Changed home d d' → Holds d home held →
        Holds d' home held }
{}

/// A frame on top of a ready machine may hold what it holds, and so may it hold the outcome that is handed to it, but
/// for a frame that crosses. What starts there is fit.
pub fn what_a_ready_machine_holds()
    ensures frame { (d : Data) (m : Machine) (below : List Waiting) (top : Waiting) → IsReadyMachine d m →
        m.stack.items ≡ below ++ (top ∷ []) → Holds d top.home (frame_held top.frame) }
    ensures done { (d : Data) (m : Machine) (below : List Waiting) (top : Waiting) → IsReadyMachine d m →
        m.stack.items ≡ below ++ (top ∷ []) → (MayCross top.frame → ⊥) → Holds d top.home (done_held m.done) }
    ensures fit { (d : Data) (m : Machine) (below : List Waiting) (top : Waiting) → IsReadyMachine d m →
        m.stack.items ≡ below ++ (top ∷ []) → IsFitFrame d top.frame }
    ensures home { (d : Data) (m : Machine) (below : List Waiting) (top : Waiting) → IsReadyMachine d m →
        m.stack.items ≡ below ++ (top ∷ []) → top.home.0 < d.sides }
{}

/// What a part leaves goes on formed, with ids that are there, and holds only what its home owns.
pub fn what_a_part_leaves()
    ensures formed { (d : Data) (home : Side) (wanted : Sort) (m : Move) → home.0 < d.sides →
        Leaves d home wanted m → GoesOnFormed d wanted (Here home m) }
    ensures ids { (d : Data) (home : Side) (held : List Held) → Holds d home held → AreIn d held }
    ensures own { (d : Data) (home : Side) (held : List Held) → d.joined ≡ false → Holds d home held →
        AreOwn d home held }
{}

/// A step at the home of the top frame, or in a joined world at any, leaves a ready machine, and keeps all that it is
/// to keep in a world that isn't joined, where its part of the row keeps the world and leaves what is wanted. So does
/// one that notes an entry in a joined world.
pub fn a_step_leaves_a_ready_machine()
    ensures machine { (m m' : Machine) (d d' : Data) (f f' : ℕ) (l l' : Written) → (q : Stepped m m' d d' f f' l l') →
        (h : IsReadyMachine d m) → (y : Move) → q.passage ≡ Here q.top.home y → Changed q.top.home d d' →
        Leaves d' q.top.home (sort_by d q.top h.formed.sort) y → IsReadyMachine d' m' }
    ensures joined { (m m' : Machine) (d d' : Data) (f f' : ℕ) (l l' : Written) → (q : Stepped m m' d d' f f' l l') →
        (h : IsReadyMachine d m) → (side : Side) (y : Move) → q.passage ≡ Here side y → d.joined ≡ true →
        side.0 < d.sides → Changed side d d' → Leaves d' side (sort_by d q.top h.formed.sort) y →
        IsReadyMachine d' m' }
    ensures noted { (m m' : Machine) (d d' : Data) (f f' : ℕ) (l l' : Written) → (q : Stepped m m' d d' f f' l l') →
        (h : IsReadyMachine d m) → (side : Side) (y : Move) → q.passage ≡ Here side y → d.joined ≡ true →
        side.0 < d.sides → IsReady d' → StaysFound d d' → Leaves d' side (sort_by d q.top h.formed.sort) y →
        IsReadyMachine d' m' }
    ensures kept { (m m' : Machine) (d d' : Data) (f f' : ℕ) (l l' : Written) → (q : Stepped m m' d d' f f' l l') →
        (h : IsReadyMachine d m) → (y : Move) → q.passage ≡ Here q.top.home y → Changed q.top.home d d' →
        Leaves d' q.top.home (sort_by d q.top h.formed.sort) y → StepsKept (Ok tt) m m' d d' }
    ensures halted { (halt : Halt) (m m' : Machine) (d d' : Data) (below : List Waiting) (top : Waiting) →
        m.stack.items ≡ below ++ (top ∷ []) → Changed top.home d d' → StepsKept (Err halt) m m' d d' }
{}

/// In a joined world an entry whose ids are there, of a side that takes part, which began when no more entries were
/// complete, leaves the world ready; what was found stays found.
pub fn an_entry_leaves_a_world_ready()
    ensures ready { (d : Data) (e : Entry) → IsReady d → d.joined ≡ true → EntryIn d e → e.side.0 < d.sides →
        e.began ≤ length d.entries → IsReady (with_entry d e) }
    ensures found { (d : Data) (e : Entry) → IsReady d → StaysFound d (with_entry d e) }
{}

/// In a ready world a side that takes part has the built-ins, and so the prototypes of errors.
pub fn a_ready_world_has_its_built_ins()
    ensures built_ins { (d : Data) → IsReady d → HasItsBuiltIns d }
    ensures errors { (d : Data) → IsReady d → (side : Side) → side.0 < d.sides → (kind : ErrorKind) →
        HasErrorPrototype d side kind }
{}

/// An object that a home makes it may hold, as what its kind says.
pub fn what_is_made_may_be_held()
    ensures { (home : Side) (d : Data) (k : CellKind) (proto : Value) (label : Option StrId) (id : ObjId) →
        is_counted (kind_stand k) ≡ true → id.0 ≡ length d.cells →
        IsHeldAs (made d home k proto label) home id (new_cell d.texts home k proto label) }
{}

/// A home may hold what stands in its part of a ready world, as it finds it there; in a joined world each part is its.
/// What may be entered may be called. A built-in is as the table has it, and so is fixed.
pub fn what_a_ready_world_holds()
    ensures object { (home : Side) (d : Data) (id : ObjId) (c : Cell) → cell_at d id ≡ Some c →
        (d.joined ≡ false → c.home ≡ home) → is_shadow c.kind ≡ false → IsHeldAs d home id c }
    ensures home { (home : Side) (d : Data) (id : ObjId) (c : Cell) → MayHold d home (HeldObject id) →
        cell_at d id ≡ Some c → d.joined ≡ false → c.home ≡ home }
    ensures cell { (home : Side) (d : Data) (id : ObjId) (c : Cell) → IsReady d → cell_at d id ≡ Some c →
        (d.joined ≡ false → c.home ≡ home) → HoldsCell d home c }
    ensures property { (home : Side) (d : Data) (id : ObjId) (key : Key) (full : Full Value) → IsReady d →
        MayHold d home (HeldObject id) → property_at d id key ≡ Some full → MayHold d home (HeldFull full) }
    ensures code { (d : Data) (id : ObjId) (c : Cell) (code : Code) → IsReady d → cell_at d id ≡ Some c →
        c.kind ≡ Function code → HoldsCode d c.home code }
    ensures scope { (home : Side) (d : Data) (id : ScopeId) (s : Scope) → IsReady d → scope_at d id ≡ Some s →
        (d.joined ≡ false → s.home ≡ home) → HoldsScope d home s }
    ensures jobs { (home : Side) (d : Data) → IsReady d → home.0 < 8 → All (HoldsJob d home) (queue_of d home) }
    ensures function { (home : Side) (d : Data) (id : ObjId) → MayHold d home (HeldFunction id) →
        MayHold d home (HeldCallable (v.Object id)) }
    ensures standard { (d : Data) (id : ObjId) (c : Cell) (place : ℕ) → IsReady d → cell_at d id ≡ Some c →
        c.kind ≡ BuiltIn place → Some (as_standard (thing_in (names_of d) c)) ≡ standard_at place }
    ensures fixed { (d : Data) (id : ObjId) (c : Cell) (place : ℕ) → IsReady d → cell_at d id ≡ Some c →
        c.kind ≡ BuiltIn place → c.extensible ≡ false }
    ensures constant { (home : Side) (d : Data) (place : ℕ) (r : Rule) (key : StrId) (value : Value) → IsReady d →
        slice_get d.rules place ≡ Some r → r.kind ≡ Substitute key value → MayHold d home (HeldValue value) }
    ensures built_in { (home : Side) (d : Data) (place : ℕ) (id : ObjId) →
        built_in_of d.joined d.cells home place ≡ Some id → HoldsBuiltIn d home place id }
{}

/// In a ready world what a home may hold names no shadow, and what is behind a proxy of the membrane is an object with
/// a number; so it is with the values of scopes. Two objects that a home may hold stand for the same only where they
/// are the same.
pub fn what_references_stand_for()
    ensures real { (home : Side) (d : Data) (x : Value) → IsReady d → MayHold d home (HeldValue x) → IsReal d x }
    ensures names { (d : Data) → IsReady d → HasRealNames d }
    ensures apart { (home : Side) (d : Data) (x y : Value) → IsReady d → MayHold d home (HeldValue x) →
        MayHold d home (HeldValue y) → AreApart d x y }
{}

/// What a move gives is what is wanted: an outcome of that sort, a throw whatever is wanted, anything where any
/// completion is, and the node of an expression where a value is; a frame may wait for such a node that waits for a
/// value.
pub fn what_moves_give()
    ensures outcome { (d : Data) (home : Side) (wanted : Sort) (y : Outcome) → IsOfSort wanted y →
        Gives d home wanted (move.Done y) }
    ensures throw { (d : Data) (home : Side) (wanted : Sort) (x : Value) → Gives d home wanted (move.Done (o.Throw x)) }
    ensures any { (d : Data) (home : Side) (y : Outcome) → Gives d home ACompletion (move.Done y) }
    ensures goes_on { (d : Data) (home : Side) (t : Task) → Gives d home ACompletion (move.Next t) }
    ensures anew { (d : Data) (home : Side) (t : Task) → Gives d home ACompletion (move.Anew t) }
    ensures expression { (d : Data) (home : Side) (node : NodeId) (at : Context) →
        is_expression (slice_get (forms_at d home) node.0) ≡ true →
        Gives d home AValue (move.Next (task.Evaluate node at)) }
    ensures waits { (d : Data) (home : Side) (wanted : Sort) (y : Frame) (node : NodeId) (at : Context) →
        is_expression (slice_get (forms_at d home) node.0) ≡ true → waits_for y AValue ≡ true →
        fits (frame_sort (forms_at d home) y AValue) wanted ≡ true →
        Gives d home wanted (move.Wait y (task.Evaluate node at)) }
{}
