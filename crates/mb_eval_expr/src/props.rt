// Literals of objects (ECMA-262, 13.2.5).
ghost use Rattle.std.specs.Prelude.{◌<◌, ◌+◌, ◌∷◌, [], IfOk, None, drop, slice_get};
ghost use Rattle.mb_frames.specs.Held.{HeldDesc, HeldNode, HeldPlain, HeldValue};
ghost use Rattle.mb_frames.specs.Holding.{expr_held};
ghost use Rattle.mb_frames.specs.Kinds.{is_object_form};
ghost use Rattle.mb_frames.specs.Passing.{Part};
ghost use Rattle.mb_frames.specs.Ready.{Changed, Holds, IsReady, Keeps, Leaves, LeavesBy};
ghost use Rattle.mb_frames.specs.Resolved.{context_in};
ghost use Rattle.mb_frames.specs.Rest.Expressions.{prop_keyed_at};
ghost use Rattle.mb_frames.specs.Rest.Parts.{parts_at};
ghost use Rattle.mb_frames.specs.Sorts.{AValue};
ghost use Rattle.mb_frames.specs.Standing.{forms_at};
ghost use Rattle.mb_frames.specs.declared.expressions.ExprFrame.TheVariants as TheFrame;
ghost use Rattle.mb_model.specs.Meaning.{finished};
ghost use Rattle.mb_model.specs.Nodes.Literals.{prop_defined, prop_of, prop_value, props};
ghost use Rattle.mb_model.specs.Operations.Conversions.{to_key};
ghost use Rattle.mb_model.specs.Operations.Makings.{make_plain};
ghost use Rattle.mb_model.specs.Writing.{◌>>=◌ as after_that};
ghost use Rattle.mb_world.specs.Ids.{KeyIn, Maybe};
ghost use Rattle.mb_world.specs.Image.{Resolve, desc_in, key_in, names_of, object_in};
ghost use Rattle.mb_world.specs.Standard.{object_prototype};
ghost use Rattle.mb_eval_expr.specs.machine.Keeping.{context_held};
ghost use Rattle.mb_eval_expr.specs.machine.Literals.{Defines, IsDefinitionAt, IsMethodOf, literal_held};
ghost use Rattle.mb_parts.specs.Standing.{Acts, ContextIn};
ghost use Rattle.mb_parts.specs.Storing.{Stores};

use crate::definitions::{Definition, definition_at, method_desc};
use crate::functions::keyed_function;
use crate::giving::value;
use crate::making::make_plain;
use mb_base::{Fuel, Key, NodeId, ObjId, Side, Value};
use mb_desc::Desc;
use mb_frames::{Context, ExprFrame, Frame, Halt, Move, Task, count_of, part_at};
use mb_ordinary::define;
use mb_parts::{digits, key_from, open_desc, throws, type_error};
use mb_tree::PropName;
use mb_world::{ErrorKind, World};

// The units of what stands before the names of getters and setters.
const GET: [u16; 4] = [103, 101, 116, 32];

const SET: [u16; 4] = [115, 101, 116, 32];

// The literal that is made, and which of its properties is at hand.
#[derive(Clone, Copy)]
pub(crate) struct Literal {
    pub at: Context,
    pub node: NodeId,
    pub object: ObjId,
    pub place: u32,
}

// An object literal begins.
pub(crate) fn object_row(
    w: &mut World,
    fuel: &mut Fuel,
    home: Side,
    at: Context,
    node: NodeId,
) -> Result<Move, Halt>
    requires acts { Acts w.old home }
    requires ready { IsReady w.old }
    requires at { ContextIn w.old at }
    requires holds { Holds w.old home (HeldNode is_object_form node.0 ∷ context_held at) }
    ensures row { Part home result w.old w.new fuel.old fuel.new (after_that (make_plain home.0 None object_prototype)
        (λ o. props (context_in (names_of w.old) home.0 at) o (parts_at (forms_at w.old home) node.0)) finished) }
    ensures keeps { Keeps home AValue (HeldNode is_object_form node.0 ∷ context_held at) result w.old w.new }
{
    let object = make_plain(w, home)?;
    let literal = Literal {
        at,
        node,
        object,
        place: 0,
    };
    props_from(w, fuel, home, literal, 0)
}

// The properties of an object literal from that place on, each with its unit: those that take no part's value are
// defined in turn, up to the first that waits for one.
fn props_from(
    w: &mut World,
    fuel: &mut Fuel,
    home: Side,
    literal: Literal,
    from: usize,
) -> Result<Move, Halt>
    requires ready { IsReady w.old }
    requires inside { home.0 < w.old.sides }
    requires holds { Holds w.old home (literal_held literal) }
    ensures row { Part home result w.old w.new fuel.old fuel.new
        (props (context_in (names_of w.old) home.0 literal.at) (object_in (names_of w.old) literal.object)
        (drop from (parts_at (forms_at w.old home) literal.node.0)) finished) }
    ensures changed { Changed home w.old w.new }
    ensures leaves { LeavesBy w.new home AValue result }
{
    for place in from..count_of(w, home, literal.node) {
        match part_at(w, home, literal.node, place) {
            Some(property) => {
                fuel.charge(1)?;
                if place >= u32::MAX as usize {
                    return Err(Halt::NoMemory);
                }
                let here = Literal {
                    at: literal.at,
                    node: literal.node,
                    object: literal.object,
                    place: place as u32,
                };
                match prop_row(w, home, here, property)? {
                    Some(step) => return Ok(step),
                    None => {}
                }
            }
            None => unreachable!(),
        }
    }
    Ok(value(Value::Object(literal.object)))
}

// A property begins: the move where it waits for a part or throws, `None` where it was defined.
fn prop_row(
    w: &mut World,
    home: Side,
    literal: Literal,
    property: NodeId,
) -> Result<Option<Move>, Halt>
    requires ready { IsReady w.old }
    requires inside { home.0 < w.old.sides }
    requires holds { Holds w.old home (literal_held literal) }
    ensures row { Defines home literal result w.old w.new (prop_of (context_in (names_of w.old) home.0 literal.at)
        (object_in (names_of w.old) literal.object) property.0 (slice_get (forms_at w.old home) property.0)) }
    ensures changed { Changed home w.old w.new }
    ensures leaves { IfOk result (λ step. Maybe (Leaves w.new home AValue) step) }
{
    match definition_at(w, home, property) {
        Some((name, definition)) => match name {
            PropName::Computed(key) => Ok(Some(Move::Wait(
                Frame::Expr(ExprFrame::PropKey {
                    at: literal.at,
                    node: literal.node,
                    object: literal.object,
                    property,
                    place: literal.place,
                }),
                Task::Evaluate {
                    node: key,
                    at: literal.at,
                },
            ))),
            PropName::Written(name) => {
                let key = w.texts().key(name);
                prop_keyed(w, home, literal, property, definition, key)
            }
            PropName::Whole(n) => {
                let text = digits(w, n)?;
                let key = w.texts().key(text);
                prop_keyed(w, home, literal, property, definition, key)
            }
        },
        None => Ok(None),
    }
}

// The key of a property was found.
fn prop_keyed(
    w: &mut World,
    home: Side,
    literal: Literal,
    property: NodeId,
    definition: Definition,
    key: Key,
) -> Result<Option<Move>, Halt>
    requires ready { IsReady w.old }
    requires inside { home.0 < w.old.sides }
    requires holds { Holds w.old home (literal_held literal) }
    requires definition { IsDefinitionAt w.old home property definition }
    requires key { KeyIn w.old key }
    ensures row { Defines home literal result w.old w.new
        (prop_keyed_at (forms_at w.old home) (context_in (names_of w.old) home.0 literal.at)
        (object_in (names_of w.old) literal.object) property.0 (key_in (names_of w.old) key)) }
    ensures changed { Changed home w.old w.new }
    ensures leaves { IfOk result (λ step. Maybe (Leaves w.new home AValue) step) }
{
    match definition {
        Definition::Value(node) => Ok(Some(Move::Wait(
            Frame::Expr(ExprFrame::PropValue {
                at: literal.at,
                node: literal.node,
                object: literal.object,
                place: literal.place,
                key,
            }),
            Task::Evaluate {
                node,
                at: literal.at,
            },
        ))),
        Definition::Method(params) => {
            prop_method(w, home, literal, property, definition, &[], params, key)
        }
        Definition::Getter(params) => {
            prop_method(w, home, literal, property, definition, &GET, params, key)
        }
        Definition::Setter(params) => {
            prop_method(w, home, literal, property, definition, &SET, params, key)
        }
    }
}

// The key of a method, getter or setter was found.
fn prop_method(
    w: &mut World,
    home: Side,
    literal: Literal,
    property: NodeId,
    definition: Definition,
    prefix: &[u16],
    params: usize,
    key: Key,
) -> Result<Option<Move>, Halt>
    requires ready { IsReady w.old }
    requires inside { home.0 < w.old.sides }
    requires holds { Holds w.old home (literal_held literal) }
    requires definition { IsDefinitionAt w.old home property definition }
    requires method { IsMethodOf definition prefix.now params }
    requires key { KeyIn w.old key }
    ensures row { Defines home literal result w.old w.new
        (prop_keyed_at (forms_at w.old home) (context_in (names_of w.old) home.0 literal.at)
        (object_in (names_of w.old) literal.object) property.0 (key_in (names_of w.old) key)) }
    ensures changed { Changed home w.old w.new }
    ensures leaves { IfOk result (λ step. Maybe (Leaves w.new home AValue) step) }
{
    match keyed_function(w, home, literal.at, property, params, prefix, key)? {
        Some(function) => {
            defined(
                w,
                home,
                literal.object,
                key,
                method_desc(definition, Value::Object(function)),
            )?;
            Ok(None)
        }
        None => {
            let step = throws(w, home, ErrorKind::RangeError)?;
            Ok(Some(step))
        }
    }
}

// A property of an object that a literal makes is defined, whatever that answers.
fn defined(
    w: &mut World,
    home: Side,
    object: ObjId,
    key: Key,
    desc: Desc<Value>,
) -> Result<(), Halt>
    requires ready { IsReady w.old }
    requires inside { home.0 < w.old.sides }
    requires holds { Holds w.old home (HeldPlain object ∷ HeldDesc desc ∷ []) }
    requires key { KeyIn w.old key }
    ensures stored { Stores result w.old w.new (prop_defined home.0 (object_in (names_of w.old) object)
        (key_in (names_of w.old) key) (desc_in (Resolve (names_of w.old)) desc)) }
    ensures changed { Changed home w.old w.new }
{
    let _texts = w.texts();
    let _there = w.cell(object).props.get(key);
    define(w, object, key, desc)?;
    let _after = w.texts();
    Ok(())
}

// The computed key of a property is there.
pub(crate) fn prop_key_got(
    w: &mut World,
    fuel: &mut Fuel,
    home: Side,
    literal: Literal,
    property: NodeId,
    x: Value,
) -> Result<Move, Halt>
    requires acts { Acts w.old home }
    requires ready { IsReady w.old }
    requires holds { Holds w.old home (HeldValue x ∷ expr_held
        (TheFrame.PropKey literal.at literal.node literal.object property literal.place)) }
    ensures row { Part home result w.old w.new fuel.old fuel.new (after_that (after_that
        (to_key home.0 (Resolve (names_of w.old) x))
        (prop_keyed_at (forms_at w.old home) (context_in (names_of w.old) home.0 literal.at)
        (object_in (names_of w.old) literal.object) property.0))
        (λ b. props (context_in (names_of w.old) home.0 literal.at) (object_in (names_of w.old) literal.object)
        (drop (literal.place + 1) (parts_at (forms_at w.old home) literal.node.0))) finished) }
    ensures keeps { Keeps home AValue (HeldValue x ∷ expr_held
        (TheFrame.PropKey literal.at literal.node literal.object property literal.place)) result w.old w.new }
{
    match key_from(w, x)? {
        Some(key) => match definition_at(w, home, property) {
            Some((_, definition)) => {
                match prop_keyed(w, home, literal, property, definition, key)? {
                    Some(step) => Ok(step),
                    None => props_from(w, fuel, home, literal, literal.place as usize + 1),
                }
            }
            None => props_from(w, fuel, home, literal, literal.place as usize + 1),
        },
        None => type_error(w, home),
    }
}

// The value of a property is there.
pub(crate) fn prop_value_got(
    w: &mut World,
    fuel: &mut Fuel,
    home: Side,
    literal: Literal,
    key: Key,
    x: Value,
) -> Result<Move, Halt>
    requires acts { Acts w.old home }
    requires ready { IsReady w.old }
    requires holds { Holds w.old home (HeldValue x ∷ expr_held
        (TheFrame.PropValue literal.at literal.node literal.object literal.place key)) }
    ensures row { Part home result w.old w.new fuel.old fuel.new (after_that
        (prop_value home.0 (object_in (names_of w.old) literal.object) (key_in (names_of w.old) key)
        (Resolve (names_of w.old) x))
        (λ b. props (context_in (names_of w.old) home.0 literal.at) (object_in (names_of w.old) literal.object)
        (drop (literal.place + 1) (parts_at (forms_at w.old home) literal.node.0))) finished) }
    ensures keeps { Keeps home AValue (HeldValue x ∷ expr_held
        (TheFrame.PropValue literal.at literal.node literal.object literal.place key)) result w.old w.new }
{
    defined(w, home, literal.object, key, open_desc(x))?;
    props_from(w, fuel, home, literal, literal.place as usize + 1)
}
