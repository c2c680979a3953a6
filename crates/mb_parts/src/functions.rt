// Functions of declarations (ECMA-262, 10.2, 14.2.3).
ghost use Rattle.std.specs.Prelude.{◌≡◌, ℕ, None, slice_get, IfSome, OnOk};
ghost use Rattle.mb_frames.specs.Going.{Changes};
ghost use Rattle.mb_frames.specs.Keeping.{KeepsOn, none_held, scope_held};
ghost use Rattle.mb_frames.specs.Making.{HasPrototypes};
ghost use Rattle.mb_frames.specs.Running.{CanRun};
ghost use Rattle.mb_frames.specs.Standing.{forms_at};
ghost use Rattle.mb_model.specs.Nodes.Scopes.{declare_one};
ghost use Rattle.mb_model.specs.Task.{Nothing};
ghost use Rattle.mb_model.specs.Writing.{give};
ghost use Rattle.mb_world.specs.Ids.{HasItsIds, ScopeIn};
ghost use Rattle.mb_parts.specs.machine.Declaring.{IsDeclared};

use crate::scopes::initialize;
use mb_base::{NodeId, ScopeId, Side, StrId, Value};
use mb_frames::{Halt, form_at, make_function};
use mb_tree::Form;
use mb_world::{Code, World};

// No tree has more nodes, and so no function more Params.
const MOST_PARAMS: usize = 1 << 31;

/// Makes the function of a statement that declares one, and gives it to its name in the scope; for any other node it
/// does nothing (ECMA-262, 14.2.3, 15.2.4). After `NoMemory` the name isn't given.
pub fn declare_one(w: &mut World, home: Side, scope: ScopeId, statement: NodeId) -> Result<(), Halt>
    requires world { CanRun w.old home }
    requires built_ins { HasPrototypes w.old home }
    requires scope { ScopeIn w.old scope }
    ensures changes { Changes result w.old w.new
        (declare_one home.0 scope.0 statement.0 (slice_get (forms_at w.old home) statement.0)) }
    ensures keeps { KeepsOn home (scope_held scope) none_held result w.old w.new }
    ensures ids { HasItsIds w.new }
    ensures built_ins { OnOk result (HasPrototypes w.new home) }
{
    match declared_function(w, home, statement) {
        Some((name, params)) => {
            if params > MOST_PARAMS {
                return Err(Halt::NoMemory);
            }
            let code = Code {
                side: home,
                node: statement,
                scope,
                constructs: true,
                bound_this: None,
            };
            let function = make_function(w, code, Some(name), params, name)?;
            initialize(w, scope, name, Value::Object(function))
        }
        None => {
            let _texts = w.texts();
            Ok(())
        }
    }
}

// The name of a node that declares a function, and the number of its Params.
fn declared_function(w: &World, home: Side, statement: NodeId) -> Option<(StrId, usize)>
    requires { CanRun w.now home }
    ensures function { IfSome result (λ found. IsDeclared w.now home statement found.0 found.1) }
    ensures none { result ≡ None → (side scope : ℕ) →
        declare_one side scope statement.0 (slice_get (forms_at w.now home) statement.0) ≡ give Nothing }
{
    match form_at(w, home, statement) {
        Some(Form::FunctionDecl { name, parts }) => Some((name, parts.params.len())),
        _ => None,
    }
}
