// The laws of what a script's bytes are, and of how a command ends.
ghost use Rattle.std.specs.Prelude.{◌≡◌, ◌≢◌, ◌⊎◌, ◌↔◌, ℕ, List};
ghost use Rattle.mb_base.specs.declared.value.Side.{Side};
ghost use Rattle.mb_cli.specs.declared.status.ScriptKind.{ScriptKind};
ghost use Rattle.mb_cli.specs.declared.status.Status.{Status};
ghost use Rattle.mb_cli.specs.declared.status.Status.TheVariants.{ReadFault, WriteFault, BadScript, TooLong, NoMemory};
ghost use Rattle.mb_cli.specs.declared.status.Which.{Which};
ghost use Rattle.mb_cli.specs.Serving.{IsAnswer};
ghost use Rattle.mb_cli.specs.Sharing.{IsProgramOf};
ghost use Rattle.mb_cli.specs.Tasks.{Task, Ends, IsEnd, Writes};
ghost use Rattle.mb_load_tree.specs.Trees.{HasTree};
ghost use Rattle.mb_cli.specs.Trees.{ScriptFault};
ghost use Rattle.mb_world.specs.Graph.{Program};

/// No bytes have a tree and a fault.
pub fn never_a_tree_and_a_fault()
    ensures { (bytes : List ℕ) (kind : ScriptKind) → HasTree bytes → ScriptFault bytes kind → ⊥ }
{}

/// Bytes have at most one fault.
pub fn a_script_has_one_fault()
    ensures { (bytes : List ℕ) (a b : ScriptKind) → ScriptFault bytes a → ScriptFault bytes b → a ≡ b }
{}

/// All bytes have a tree or a fault.
pub fn a_script_has_a_tree_or_a_fault()
    ensures { (bytes : List ℕ) → HasTree bytes ⊎ ((kind : ScriptKind) × ScriptFault bytes kind) }
{}

/// Bytes that have a tree have one program.
pub fn a_script_has_one_program()
    ensures some { (bytes : List ℕ) → HasTree bytes → (program : Program) × IsProgramOf bytes program }
    ensures one { (bytes : List ℕ) (a b : Program) → IsProgramOf bytes a → IsProgramOf bytes b → a ≡ b }
{}

/// The scripts of a command give one answer at most, and one text; they give a text exactly where each is accepted.
pub fn a_task_ends_one_way()
    ensures end { (task : Task) (a b : Status) → Ends task a → Ends task b → a ≡ b }
    ensures text { (task : Task) (a b : List ℕ) → Writes task a → Writes task b → a ≡ b }
    ensures accepted { (task : Task) (end : Status) → IsEnd end → Ends task end → (text : List ℕ) × Writes task text }
    ensures only_accepted { (task : Task) (text : List ℕ) → Writes task text
        → (end : Status) × IsEnd end × Ends task end }
{}

/// Where no fault and no want of memory is answered, each answer comes exactly where the scripts give it.
pub fn answers_are_exact()
    ensures whole { (task : Task) (answer end : Status) → IsAnswer task answer → IsEnd end
        → answer ≢ ReadFault → answer ≢ WriteFault → answer ≢ NoMemory → (answer ≡ end) ↔ Ends task end }
    ensures refused { (task : Task) (answer : Status) (side : Side) (kind : ScriptKind) → IsAnswer task answer
        → answer ≢ ReadFault → answer ≢ NoMemory → (answer ≡ BadScript side kind) ↔ Ends task (BadScript side kind) }
    ensures too_long { (task : Task) (answer : Status) (which : Which) → IsAnswer task answer
        → answer ≢ ReadFault → answer ≢ NoMemory → (answer ≡ TooLong which) ↔ Ends task (TooLong which) }
{}
