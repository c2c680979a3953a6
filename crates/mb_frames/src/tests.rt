// Machines by their moves, and an error that is thrown.
ghost use Rattle.std.specs.Prelude.{◌<◌};
ghost use Rattle.mb_world.specs.Ids.{HasItsIds};
ghost use Rattle.mb_world.specs.declared.cell.ErrorKind.TheVariants.{TypeError};
ghost use Rattle.mb_frames.specs.Failing.{HasErrorPrototype};

mod small;

use super::*;
use mb_base::{NoMemory, NodeId, ObjId, ScopeId, Side, Value};
use mb_world::{CellKind, ErrorKind, World};
use std::alloc::Global;
use std::process::Abort;
use std::test::Fail;

const AT: Context = Context {
    scope: ScopeId(0),
    this: Value::Undefined,
};

// A machine of a side without frames.
fn idle(alloc: Global, now: Side) -> Machine {
    Machine {
        stack: Vec::new(alloc),
        now,
        done: None,
    }
}

// The evaluation of a node.
fn evaluate(node: u32) -> Task {
    Task::Evaluate {
        node: NodeId(node),
        at: AT,
    }
}

// One more frame of that home, and whether there was memory for it.
fn put(machine: &mut Machine, home: Side) -> bool {
    let frame = Frame::Expr(ExprFrame::Got);
    machine.push(Waiting { home, frame }).is_ok()
}

// The home of the top frame, which is taken.
fn taken(machine: &mut Machine) -> Option<Side> {
    match machine.pop() {
        Some(top) => Some(top.home),
        None => None,
    }
}

#[test]
fn the_last_frame_is_on_top(rt: HostRuntime) {
    let mut machine = idle(rt.alloc(), Side(0));
    assert_eq!(rt; taken(&mut machine), None);
    assert!(rt; put(&mut machine, Side(3)));
    assert!(rt; put(&mut machine, Side(4)));
    assert_eq!(rt; taken(&mut machine), Some(Side(4)));
    assert_eq!(rt; taken(&mut machine), Some(Side(3)));
}

#[test]
fn lists_take_more_at_their_end(rt: HostRuntime) -> Result<(), Fail> {
    let mut values = Values::new(rt.alloc());
    values.push(Value::Bool(true))?;
    values.push(Value::Null)?;
    assert_eq!(rt; values.len(), 2);
    assert_eq!(rt; values.at(1), Some(Value::Null));
    assert_eq!(rt; values.at(2), None);
    let mut units = Units::new(rt.alloc());
    units.extend(&[104, 105])?;
    units.extend(&[33])?;
    assert_eq!(rt; units.items().len(), 3);
    Ok(())
}

// The frames that a move leaves, and whether an outcome is there.
fn left_by(alloc: Global, step: Move) -> (usize, bool) {
    let mut machine = idle(alloc, Side(0));
    match machine.make(Side(1), step) {
        Ok(()) => (machine.stack.len(), machine.done.is_some()),
        Err(_) => (99, false),
    }
}

#[test]
fn moves_are_made(rt: HostRuntime) {
    let alloc = rt.alloc();
    let waits = Frame::Stmt(StmtFrame::Return);
    assert_eq!(rt; left_by(alloc, Move::Done(Outcome::Break)), (0, true));
    assert_eq!(rt; left_by(alloc, Move::Wait(waits, evaluate(1))), (2, false));
    assert_eq!(rt; left_by(alloc, Move::Next(evaluate(1))), (1, false));
    assert_eq!(rt; left_by(alloc, Move::Anew(evaluate(1))), (1, false));
    let entry = Frame::Entry(Entering {
        began: 0,
        object: ObjId(0),
        op: mb_world::Op::IsExtensible,
        key: None,
        given: Given::Nothing,
    });
    assert_eq!(rt;
        left_by(alloc, Move::Entered(entry, evaluate(1))),
        (2, false)
    );
}

// A world in which the first side has the prototype of one kind of errors.
fn with_prototype(alloc: Global) -> Result<World, NoMemory> {
    let mut world = World::new(alloc)?;
    world.make(Side::LEFT, CellKind::BuiltIn(50), Value::Null, None)?;
    Ok(world)
}

fn has_prototype(rt: &impl Abort, world: &World, home: Side)
    ensures home { home.0 < 8 }
    ensures prototype { HasErrorPrototype world.now home TypeError }
    ensures ids { HasItsIds world.now }
{
    let _texts = world.texts();
    assert!(rt; home.0 < 8);
    assert!(rt; world.built_in(home, 50).is_some());
}

fn throws(world: &mut World, home: Side) -> bool
    requires home { home.0 < 8 }
    requires prototype { HasErrorPrototype world.old home TypeError }
    requires ids { HasItsIds world.old }
{
    fail(world, home, ErrorKind::TypeError).is_ok()
}

#[test]
fn an_error_is_a_new_object(rt: HostRuntime) -> Result<(), Fail> {
    let mut world = with_prototype(rt.alloc())?;
    has_prototype(&rt, &world, Side::LEFT);
    assert!(rt; throws(&mut world, Side::LEFT));
    assert_eq!(rt; world.objects(), 1);
    Ok(())
}
