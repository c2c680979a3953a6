// The steps of a turn, each by the crate to which the top frame belongs.
ghost use Rattle.std.specs.Prelude.{◌≡◌, [], List, OnOk};
ghost use Rattle.mb_engine.specs.machine.Advancing.{Advances, Reaches, meant};
ghost use Rattle.mb_frames.specs.Ready.{IsReadyMachine, ReadyAfter};
ghost use Rattle.mb_frames.specs.Standing.{Logged, RestBy};
ghost use Rattle.mb_frames.specs.Stepping.{written};
ghost use Rattle.mb_frames.specs.Wholeness.{StaysFound};
ghost use Rattle.mb_world.specs.Graph.{Item};

use crate::owners::{Owner, owner_of_top};
use mb_arrayapi::step_arrayapi;
use mb_base::Fuel;
use mb_call::step_call;
use mb_eval_expr::step_expr;
use mb_eval_stmt::step_stmt;
use mb_frames::{Halt, Lines, Machine};
use mb_intrinsics::step_intrinsic;
use mb_reflect::step_reflect;
use mb_scriptproxy::step_scriptproxy;
use mb_world::World;

/// Steps until no frame is left.
pub(crate) fn run(
    m: &mut Machine,
    w: &mut World,
    fuel: &mut Fuel,
    lines: &mut Lines,
) -> Result<(), Halt>
    requires ready { IsReadyMachine w.old m.old }
    ensures rest { (log : List Item) → Logged w.old log → Reaches result m.new w.new fuel.new (written lines.old)
        (written lines.new) log (RestBy meant m.old w.old fuel.old log) }
    ensures ready { ReadyAfter result w.new m.new }
    ensures found { StaysFound w.old w.new }
    ensures over { OnOk result (m.new.stack.items ≡ []) }
{
    'steps: while !m.stack.is_empty() {
        advance(m, w, fuel, lines)?;
    }
    Ok(())
}

// One step. What nobody owns is answered as where memory is wanting: no script of a joined world reaches it, since no
// scope binds a name of a collection and there is no membrane, but no contract says so.
fn advance(m: &mut Machine, w: &mut World, fuel: &mut Fuel, lines: &mut Lines) -> Result<(), Halt>
    requires ready { IsReadyMachine w.old m.old }
    ensures rest { Advances result m.old m.new w.old w.new fuel.old fuel.new (written lines.old) (written lines.new) }
    ensures ready { ReadyAfter result w.new m.new }
    ensures found { StaysFound w.old w.new }
{
    match owner_of_top(w, m) {
        Owner::Expressions => step_expr(m, w, fuel, lines),
        Owner::Statements => step_stmt(m, w, fuel, lines),
        Owner::Calls => step_call(m, w, fuel, lines),
        Owner::Intrinsics => step_intrinsic(m, w, fuel, lines),
        Owner::Reflecting => step_reflect(m, w, fuel, lines),
        Owner::Arrays => step_arrayapi(m, w, fuel, lines),
        Owner::Proxies => step_scriptproxy(m, w, fuel, lines),
        Owner::Nobody => Err(Halt::NoMemory),
    }
}
