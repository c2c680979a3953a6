// A small script: its nodes are read, and its function is made.
ghost use Rattle.std.specs.Prelude.{◌≡◌, ◌<◌, ◌∷◌, [], length};
ghost use Rattle.mb_base.specs.declared.value.StrId.{StrId as AStrId};
ghost use Rattle.mb_frames.specs.Grammatical.{IsProgram};
ghost use Rattle.mb_frames.specs.Making.{HasPrototypes};
ghost use Rattle.mb_frames.specs.Running.{CanRun};
ghost use Rattle.mb_tree.specs.Roses.{bare, id_of, named, shape, shapes};
ghost use Rattle.mb_tree.specs.declared.kind.Kind.TheVariants as AKind;
ghost use Rattle.mb_world.specs.Data.{Data, script_of};
ghost use Rattle.mb_world.specs.Ids.{ScriptIn};

use crate::{after, built_in, count_of, declares, form_at, make_function, name_of, part_at, put};
use mb_base::{NodeId, ObjId, ScopeId, Side, StrId, Value};
use mb_desc::Full;
use mb_tree::{Form, Kind, Label, Program, Scopes, Tree};
use mb_world::{CellKind, Code, Names, Scope, World};
use std::alloc::Global;
use std::process::Abort;

const MEMORY: &str = "there is memory";

// The name of the function and of its Param, the first text.
const NAME: StrId = StrId(0);

// The nodes of `function a(a) {}` and of a list without declarations: a Param, the function, the list, the script.
fn small_tree(rt: &impl Abort, alloc: Global) -> Tree
    ensures { (a : AStrId) → a.0 ≡ 0 → shapes result ≡ shape (named AKind.Param a) []
        ∷ shape (named (AKind.FunctionDecl 1) a) (id_of 0 ∷ [])
        ∷ shape (bare AKind.Let) [] ∷ shape (bare AKind.Script) (id_of 1 ∷ id_of 2 ∷ []) ∷ [] }
{
    let mut tree = Tree {
        nodes: Vec::new(alloc),
    };
    let mut operands = Vec::new(alloc);
    let function = Kind::FunctionDecl { params: 1 };
    tree.build(alloc, Label::named(Kind::Param, NAME), &mut operands, 0)
        .expect(rt, MEMORY);
    tree.build(alloc, Label::named(function, NAME), &mut operands, 1)
        .expect(rt, MEMORY);
    tree.build(alloc, Label::bare(Kind::Let), &mut operands, 0)
        .expect(rt, MEMORY);
    tree.build(alloc, Label::bare(Kind::Script), &mut operands, 2)
        .expect(rt, MEMORY);
    tree
}

fn small_program(rt: &impl Abort, alloc: Global) -> Program
    ensures program { IsProgram (script_of result) }
    ensures names { (d : Data) → 0 < length d.texts → ScriptIn d (script_of result) }
{
    let tree = small_tree(rt, alloc);
    let scopes = Scopes::new(alloc, Vec::new(alloc)).expect(rt, MEMORY);
    Program { tree, scopes }
}

fn prototype(rt: &impl Abort, w: &mut World, home: Side, place: u16) {
    assert!(rt; home.0 < 8);
    w.make(home, CellKind::BuiltIn(place), Value::Null, None)
        .expect(rt, MEMORY);
}

fn scope(rt: &impl Abort, alloc: Global, w: &mut World, home: Side) {
    assert!(rt; home.0 < 8);
    let outermost = Scope {
        home,
        parent: None,
        names: Names::new(alloc),
    };
    w.add_scope(outermost).expect(rt, MEMORY);
}

// A world of two sides with the text `a`, the prototypes of functions and objects, and a scope.
fn bare_world(rt: &impl Abort, alloc: Global, home: Side) -> World {
    let mut w = World::new(alloc).expect(rt, MEMORY);
    w.set_sides(2);
    w.intern(&[97]).expect(rt, MEMORY);
    prototype(rt, &mut w, home, 12);
    prototype(rt, &mut w, home, 13);
    scope(rt, alloc, &mut w, home);
    w
}

// The side gets the small script.
fn small_world(rt: &impl Abort, alloc: Global, home: Side) -> World
    ensures { CanRun result home }
{
    let mut w = bare_world(rt, alloc, home);
    assert!(rt; w.sides() == 2);
    assert!(rt; home.0 < 2);
    assert!(rt; w.texts().len() > 0);
    w.set_program(home, small_program(rt, alloc));
    let _texts = w.texts();
    w
}

// Its nodes are read by their parts.
pub(crate) fn reads(rt: &impl Abort, w: &World, home: Side)
    requires { CanRun w.now home }
{
    let script = NodeId(3);
    assert_eq!(rt; count_of(w, home, script), 2);
    assert_eq!(rt; part_at(w, home, script, 1), Some(NodeId(2)));
    assert_eq!(rt; part_at(w, home, script, 2), None);
    assert!(rt; declares(w, home, Some(NodeId(2))));
    assert!(rt; !declares(w, home, Some(NodeId(1))));
    assert_eq!(rt; after(3), Ok(4));
}

// The name of the first Param of a function.
fn first_name(w: &World, home: Side, node: NodeId) -> Option<StrId>
    requires { CanRun w.now home }
{
    match form_at(w, home, node) {
        Some(Form::FunctionDecl { parts, .. }) => {
            let param = parts.params.first()?;
            Some(name_of(w, home, *param))
        }
        _ => None,
    }
}

fn has_prototypes(rt: &impl Abort, w: &World, home: Side)
    ensures { HasPrototypes w.now home }
{
    assert!(rt; w.built_in(home, 12).is_some());
    assert!(rt; w.built_in(home, 13).is_some());
}

// The function is made.
fn function(rt: &impl Abort, w: &mut World, home: Side) -> ObjId
    requires { CanRun w.old home }
{
    has_prototypes(rt, w, home);
    assert!(rt; w.texts().len() > 0);
    assert!(rt; w.scopes() > 0);
    let code = Code {
        side: home,
        node: NodeId(1),
        scope: ScopeId(0),
        constructs: true,
        bound_this: None,
    };
    make_function(w, code, Some(NAME), 1, NAME).expect(rt, MEMORY)
}

// Whether an object has so many properties.
fn has_properties(rt: &impl Abort, w: &World, id: ObjId, count: u32) -> bool {
    assert!(rt; id.0 < w.cells());
    assert!(rt; 0 < count);
    let props = &w.cell(id).props;
    props.at(count - 1).is_some() && props.at(count).is_none()
}

fn named_again(rt: &impl Abort, w: &mut World, id: ObjId) {
    assert!(rt; id.0 < w.cells());
    let full = Full::Datum {
        value: Value::Null,
        writable: true,
        enumerable: false,
        configurable: true,
    };
    put(w, id, &[110, 97, 109, 101], full).expect(rt, MEMORY);
}

fn function_prototype(rt: &impl Abort, w: &World, home: Side) -> Value {
    has_prototypes(rt, w, home);
    built_in(w, home, 12)
}

#[test]
fn the_nodes_of_a_script_are_read(rt: HostRuntime) {
    let home = Side(0);
    let w = small_world(&rt, rt.alloc(), home);
    reads(&rt, &w, home);
    assert_eq!(rt; first_name(&w, home, NodeId(1)), Some(NAME));
    assert_eq!(rt; first_name(&w, home, NodeId(2)), None);
}

#[test]
fn a_function_is_made_with_its_prototype(rt: HostRuntime) {
    let home = Side(0);
    let mut w = small_world(&rt, rt.alloc(), home);
    assert_eq!(rt; function_prototype(&rt, &w, home), Value::Object(ObjId(0)));
    let id = function(&rt, &mut w, home);
    assert_eq!(rt; w.objects(), 2);
    assert!(rt; has_properties(&rt, &w, id, 3));
    named_again(&rt, &mut w, id);
    assert!(rt; has_properties(&rt, &w, id, 3));
}
