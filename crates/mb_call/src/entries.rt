// Entries of the trace: one is put below a method that begins, and made where that ends.
ghost use Rattle.std.specs.Prelude.{◌≡◌, ◌≢◌, [], ℕ, List, IfOk, length, false, true};
ghost use Rattle.mb_base.specs.declared.value.Side.{Side as ASide};
ghost use Rattle.mb_frames.specs.Holding.{entering_held, outcome_held, task_held};
ghost use Rattle.mb_frames.specs.Ready.{Holds, LeavesBy};
ghost use Rattle.mb_frames.specs.Resolved.{method_in, outcome_in, task_in};
ghost use Rattle.mb_frames.specs.Sorts.{IsOfSort, Sort, fits, task_gives};
ghost use Rattle.mb_frames.specs.Standing.{entry_by, forms_at};
ghost use Rattle.mb_frames.specs.Stepping.{Step, Written, written};
ghost use Rattle.mb_model.specs.Engine.{Ret, charged_row};
ghost use Rattle.mb_model.specs.Meaning.{row};
ghost use Rattle.mb_model.specs.Trace.Entries.{with_entry};
ghost use Rattle.mb_model.specs.Trace.Ops.{op_of};
ghost use Rattle.mb_world.specs.Ids.{EntryIn};
ghost use Rattle.mb_world.specs.Image.{Names, entry_in, names_of, seen_in};
ghost use Rattle.mb_world.specs.Value.{number_of};
ghost use Rattle.mb_call.specs.Ours.{Acts};
ghost use Rattle.mb_call.specs.Due.{IsForeignTask, IsMethodTask};
ghost use Rattle.mb_call.specs.Lines.{IsLineOfLast, WritesLast};
ghost use Rattle.mb_call.specs.machine.Noting.{KeepsNoting, key_given, method_given};

use crate::saying::{said_given, said_outcome, seen_object};
use mb_base::{Key, NoMemory, Side};
use mb_frames::{Entering, Frame, Given, Halt, Lines, Method, Move, Outcome, Task};
use mb_trace::line;
use mb_world::{Entry, Op, Seen, World};

/// Puts the entry of a method of a foreign object below it, with how many entries there are so far; the method has begun
/// then, and its unit and row are still to come.
pub fn entered(w: &World, task: Task) -> Result<Move, Halt>
    requires { IsMethodTask task }
    ensures step { (home : ASide) (f : ℕ) (l : Written) → Acts w.now home (task_held task) →
        IsForeignTask w.now home task →
        Step home false result w.now w.now f f l l (charged_row row (task_in (names_of w.now) home.0 task)) }
    ensures leaves { (home : ASide) → Acts w.now home (task_held task) → IsForeignTask w.now home task →
        LeavesBy w.now home (task_gives (forms_at w.now home) task) result }
{
    match task {
        Task::Perform {
            method,
            object,
            viewer,
            ..
        } => {
            let entering = Entering {
                began: entries_made(w)?,
                object,
                op: op_of(&method),
                key: key_of(&method),
                given: given_of(&method),
            };
            let enters = false;
            let begun = Task::Perform {
                method,
                object,
                viewer,
                enters,
            };
            Ok(Move::Entered(Frame::Entry(entering), begun))
        }
        _ => unreachable!(),
    }
}

fn entries_made(w: &World) -> Result<u32, NoMemory>
    ensures { IfOk result (λ made. made ≡ length w.now.entries) }
{
    let made = w.trace().len();
    if made > u32::MAX as usize {
        return Err(NoMemory);
    }
    Ok(made as u32)
}

// The function of Reflect that performs a method (ECMA-262, 28.1).
fn op_of(method: &Method) -> Op
    ensures { (n : Names) → result ≡ op_of (method_in n method.now) }
{
    match method {
        Method::GetPrototypeOf => Op::GetPrototypeOf,
        Method::SetPrototypeOf(_) => Op::SetPrototypeOf,
        Method::IsExtensible => Op::IsExtensible,
        Method::PreventExtensions => Op::PreventExtensions,
        Method::GetOwnProperty(_) => Op::GetOwnPropertyDescriptor,
        Method::DefineOwnProperty(_, _) => Op::DefineProperty,
        Method::HasProperty(_) => Op::Has,
        Method::Get { .. } => Op::Get,
        Method::Set { .. } => Op::Set,
        Method::Delete(_) => Op::DeleteProperty,
        Method::OwnPropertyKeys => Op::OwnKeys,
        Method::Call { .. } => Op::Apply,
        Method::Construct { .. } => Op::Construct,
    }
}

// The key of a method's entry.
fn key_of(method: &Method) -> Option<Key>
    ensures { result ≡ key_given method.now }
{
    match method {
        Method::GetOwnProperty(key) => Some(*key),
        Method::DefineOwnProperty(key, _) => Some(*key),
        Method::HasProperty(key) => Some(*key),
        Method::Get { key, .. } => Some(*key),
        Method::Set { key, .. } => Some(*key),
        Method::Delete(key) => Some(*key),
        _ => None,
    }
}

// What a method's entry gives.
fn given_of(method: &Method) -> Given
    ensures { result ≡ method_given method.now }
{
    match method {
        Method::SetPrototypeOf(given) => Given::Value(*given),
        Method::DefineOwnProperty(_, given) => Given::Desc(*given),
        Method::Set { value, .. } => Given::Value(*value),
        _ => Given::Nothing,
    }
}

// What stood above ended: the entry is made, and the outcome is handed on.
pub(crate) fn note(
    w: &mut World,
    lines: &mut Lines,
    home: Side,
    entering: Entering,
    outcome: Outcome,
) -> Result<Move, Halt>
    requires acts { Acts w.old home (entering_held entering) }
    requires outcome { Holds w.old home (outcome_held outcome) }
    requires joined { w.old.joined ≡ true }
    ensures step { (f : ℕ) → Step home true result w.old w.new f f (written lines.old) (written lines.new)
        (λ g. Ret (outcome_in (names_of w.old) outcome)
        (with_entry (entry_by (names_of w.old) home.0 entering (outcome_in (names_of w.old) outcome)) g)) }
    ensures keeps { (wanted given : Sort) → IsOfSort given outcome → fits given wanted ≡ true →
        KeepsNoting home wanted result w.old w.new }
{
    let entry = entry_by(w, home, entering, &outcome)?;
    w.add_entry(entry)?;
    write_last(w, lines)?;
    Ok(Move::Done(outcome))
}

/// Writes the line of the last entry, where the trace is written. The time is linear in the line.
pub fn write_last(w: &World, lines: &mut Lines) -> Result<(), NoMemory>
    requires two_sides { lines.old.lettered ≡ false → w.now.sides ≡ 2 }
    requires some { w.now.entries ≢ [] }
    ensures written { WritesLast result w.now (written lines.old) (written lines.new) }
{
    if !lines.traced {
        return Ok(());
    }
    let line = last_line(w, lines.lettered)?;
    lines.all.push(line)?;
    Ok(())
}

/// The entry that an outcome completes, as that side made it.
pub fn entry_by(
    w: &World,
    side: Side,
    entering: Entering,
    outcome: &Outcome,
) -> Result<Entry, NoMemory>
    requires acts { Acts w.now side (entering_held entering) }
    requires outcome { Holds w.now side (outcome_held outcome.now) }
    ensures entry { IfOk result (λ e. entry_in w.now.texts e
        ≡ entry_by (names_of w.now) side.0 entering (outcome_in (names_of w.now) outcome.now)) }
    ensures within { IfOk result (EntryIn w.now) }
{
    let answer = said_outcome(w, outcome)?;
    Ok(Entry {
        began: entering.began,
        side,
        object: number_of(seen_object(w, entering.object)),
        op: entering.op,
        key: entering.key,
        given: said_given(w, entering.given),
        answer,
    })
}

// The number of an object of the graph.
fn number_of(seen: Seen) -> u32
    ensures { (texts : List (List ℕ)) → result ≡ number_of (seen_in texts seen) }
{
    match seen {
        Seen::Object(number) => number,
        _ => 0,
    }
}

// The line of the last entry.
fn last_line(w: &World, lettered: bool) -> Result<Vec<u8>, NoMemory>
    requires two_sides { lettered ≡ false → w.now.sides ≡ 2 }
    requires some { w.now.entries ≢ [] }
    ensures { IfOk result (λ line. IsLineOfLast w.now lettered line.items) }
{
    let mut out = Vec::new(*w.trace().allocator());
    match w.trace().last() {
        Some(entry) => {
            line(entry, w, lettered, &mut out)?;
            Ok(out)
        }
        None => unreachable!(),
    }
}
