// `if`, `while` and `do`.
ghost use Rattle.std.specs.Prelude.{◌≡◌, ℕ, Ok, false, true};
ghost use Rattle.mb_base.specs.declared.value.Side.{Side};
ghost use Rattle.mb_frames.specs.Resolved.{context_in, node_in, outcome_in};
ghost use Rattle.mb_frames.specs.Stepping.{Step, Sure, Written};
ghost use Rattle.mb_model.specs.Meaning.{finished};
ghost use Rattle.mb_model.specs.Nodes.Evaluation.{branch, task};
ghost use Rattle.mb_model.specs.Nodes.Statements.{body_ended, do_test, do_tested, while_tested};
ghost use Rattle.mb_model.specs.Task.{Answer as AnAnswer};
ghost use Rattle.mb_model.specs.Writing.{Does, again};
ghost use Rattle.mb_world.specs.Data.{Data};
ghost use Rattle.mb_world.specs.Image.{names_of};
ghost use Rattle.mb_eval_stmt.specs.machine.Plain.{OutcomeIn, goes_round};
ghost use Rattle.mb_parts.specs.Standing.{ContextIn};
ghost use Rattle.mb_frames.specs.Holding.{outcome_held, stmt_held};
ghost use Rattle.mb_frames.specs.Ready.{Holds, Leaves};
ghost use Rattle.mb_frames.specs.Sorts.{ACompletion};
ghost use Rattle.mb_frames.specs.declared.statements.StmtFrame.TheVariants as stmt;

use mb_base::NodeId;
use mb_frames::{Answer, Context, Frame, Move, Outcome, StmtFrame, Task};

// One of two statements, the second of which may be missing.
pub(crate) fn branch(at: Context, main: NodeId, other: Option<NodeId>, test: bool) -> Move
    ensures row { (home : Side) (d : Data) → ContextIn d at →
        Sure home d (branch (context_in (names_of d) home.0 at) main.0 (node_in other) test finished) result }
    ensures leaves { (home : Side) (d : Data) → Holds d home (stmt_held (stmt.If at main other)) →
        Leaves d home ACompletion result }
{
    if test {
        return Move::Next(Task::Evaluate { node: main, at });
    }
    match other {
        Some(other) => Move::Next(Task::Evaluate { node: other, at }),
        None => Move::Done(Outcome::Normal(Answer::Nothing)),
    }
}

// Whether a loop goes on behind its body (ECMA-262, 14.7.1.1).
pub(crate) fn goes_round(outcome: &Outcome) -> bool
    ensures { result ≡ goes_round outcome.now }
{
    matches!(outcome, Outcome::Normal(_) | Outcome::Continue)
}

// A loop is left by its body.
pub(crate) fn leaves(outcome: Outcome) -> Move
    requires { goes_round outcome ≡ false }
    ensures row { (home : Side) (d : Data) (next : Does AnAnswer) → OutcomeIn d outcome →
        Sure home d (body_ended next (outcome_in (names_of d) outcome) finished) result }
    ensures leaves { (home : Side) (d : Data) → Holds d home (outcome_held outcome) →
        Leaves d home ACompletion result }
{
    match outcome {
        Outcome::Break => Move::Done(Outcome::Normal(Answer::Nothing)),
        Outcome::Throw(x) => Move::Done(Outcome::Throw(x)),
        Outcome::Return(x) => Move::Done(Outcome::Return(x)),
        _ => unreachable!(),
    }
}

// The test of a `while` gave its value.
pub(crate) fn while_tested(at: Context, node: NodeId, body: NodeId, test: bool) -> Move
    ensures row { (home : Side) (d : Data) → ContextIn d at →
        Sure home d (while_tested (context_in (names_of d) home.0 at) (task (context_in (names_of d) home.0 at) node.0)
        body.0 test finished) result }
    ensures leaves { (home : Side) (d : Data) → Holds d home (stmt_held (stmt.WhileTest at node body)) →
        Leaves d home ACompletion result }
{
    if test {
        Move::Wait(
            Frame::Stmt(StmtFrame::WhileBody { at, node }),
            Task::Evaluate { node: body, at },
        )
    } else {
        Move::Done(Outcome::Normal(Answer::Nothing))
    }
}

// The body of a `while` ended.
pub(crate) fn while_ended(at: Context, node: NodeId, outcome: Outcome) -> Move
    ensures row { (home : Side) (d : Data) (f : ℕ) (l : Written) → ContextIn d at → OutcomeIn d outcome →
        Step home true (Ok result) d d f f l l
        (body_ended (again (task (context_in (names_of d) home.0 at) node.0)) (outcome_in (names_of d) outcome)
        finished) }
    ensures leaves { (home : Side) (d : Data) → Holds d home (stmt_held (stmt.WhileBody at node)) →
        Holds d home (outcome_held outcome) → Leaves d home ACompletion result }
{
    if goes_round(&outcome) {
        Move::Anew(Task::Evaluate { node, at })
    } else {
        leaves(outcome)
    }
}

// The test of a `do` follows.
fn do_test(at: Context, node: NodeId, test: NodeId) -> Move
    ensures row { (home : Side) (d : Data) → ContextIn d at →
        Sure home d (do_test (context_in (names_of d) home.0 at) (task (context_in (names_of d) home.0 at) node.0)
        test.0 finished) result }
    ensures leaves { (home : Side) (d : Data) → Holds d home (stmt_held (stmt.DoBody at node test)) →
        Leaves d home ACompletion result }
{
    Move::Wait(
        Frame::Stmt(StmtFrame::DoTest { at, node }),
        Task::Evaluate { node: test, at },
    )
}

// The body of a `do` ended.
pub(crate) fn do_ended(at: Context, node: NodeId, test: NodeId, outcome: Outcome) -> Move
    ensures row { (home : Side) (d : Data) (f : ℕ) (l : Written) → ContextIn d at → OutcomeIn d outcome →
        Step home true (Ok result) d d f f l l
        (body_ended
        (do_test (context_in (names_of d) home.0 at) (task (context_in (names_of d) home.0 at) node.0) test.0)
        (outcome_in (names_of d) outcome) finished) }
    ensures leaves { (home : Side) (d : Data) → Holds d home (stmt_held (stmt.DoBody at node test)) →
        Holds d home (outcome_held outcome) → Leaves d home ACompletion result }
{
    if goes_round(&outcome) {
        do_test(at, node, test)
    } else {
        leaves(outcome)
    }
}

// The test of a `do` gave its value.
pub(crate) fn do_tested(at: Context, node: NodeId, test: bool) -> Move
    ensures row { (home : Side) (d : Data) (f : ℕ) (l : Written) → ContextIn d at →
        Step home true (Ok result) d d f f l l
        (do_tested (task (context_in (names_of d) home.0 at) node.0) test finished) }
    ensures leaves { (home : Side) (d : Data) → Holds d home (stmt_held (stmt.DoTest at node)) →
        Leaves d home ACompletion result }
{
    if test {
        Move::Anew(Task::Evaluate { node, at })
    } else {
        Move::Done(Outcome::Normal(Answer::Nothing))
    }
}
