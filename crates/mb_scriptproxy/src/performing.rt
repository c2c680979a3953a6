// A method of a Proxy is performed (ECMA-262, 10.5): its trap is looked up.
ghost use Rattle.std.specs.Prelude.{◌≡◌, ◌≤◌, ◌^◌, ◌∷◌, [], ℕ, IfOk, OnErr, OnOk, length, true};
ghost use Rattle.mb_frames.specs.Held.{HeldObject};
ghost use Rattle.mb_frames.specs.Holding.{method_held, proxy_held};
ghost use Rattle.mb_frames.specs.Passing.{Part, TextsGrew};
ghost use Rattle.mb_frames.specs.Ready.{KeepsBy};
ghost use Rattle.mb_frames.specs.Resolved.{method_in};
ghost use Rattle.mb_frames.specs.Sorts.{method_gives};
ghost use Rattle.mb_frames.specs.declared.proxies.ProxyFrame.TheVariants as TheFrame;
ghost use Rattle.mb_model.specs.Meaning.{finished, perform_row};
ghost use Rattle.mb_model.specs.Objects.Proxies.{proxy_method};
ghost use Rattle.mb_model.specs.Trace.Ops.{op_of};
ghost use Rattle.mb_world.specs.Data.{cell_at};
ghost use Rattle.mb_world.specs.EntryLine.{op_name};
ghost use Rattle.mb_world.specs.Ids.{KeyIn};
ghost use Rattle.mb_world.specs.Image.{Names, key_in, names_of, object_in};
ghost use Rattle.mb_world.specs.Key.{Named};
ghost use Rattle.mb_call.specs.Ours.{Acts};
ghost use Rattle.mb_scriptproxy.specs.Ours.{IsProxy};
ghost use Rattle.mb_scriptproxy.specs.machine.Acting.{performing_side};
ghost use Rattle.mb_scriptproxy.specs.machine.Trapping.{proxy_parts};

use crate::errors::type_error;
use mb_base::{Key, NoMemory, ObjId, Side, Value};
use mb_frames::{Frame, Halt, Method, Move, ProxyFrame, Task};
use mb_parts::word;
use mb_rules::cut;
use mb_world::{CellKind, World};

// The row of a method of a Proxy. Where that is cut off for the viewing side it answers with a TypeError of the side
// that asked; else its owner acts.
pub(crate) fn perform(
    w: &mut World,
    home: Side,
    side: Side,
    viewer: Side,
    object: ObjId,
    method: Method,
) -> Result<Move, Halt>
    requires acts { Acts w.old home (HeldObject object ∷ method_held object method) }
    requires proxy { IsProxy (cell_at w.old object) }
    requires side { side ≡ performing_side w.old home viewer object }
    ensures part { (f : ℕ) → Part side result w.old w.new f f (perform_row home.0 viewer.0
        (object_in (names_of w.old) object) (method_in (names_of w.old) method) finished) }
    ensures keeps { KeepsBy side (method_gives method) result w.old w.new }
{
    if cut(w, viewer, object) {
        return type_error(w, home);
    }
    match proxy_parts(&w.cell(object).kind) {
        Some((target, handler)) => look_up(w, side, home, target, handler, method),
        None => type_error(w, side),
    }
}

// The target and the handler of a Proxy, where it isn't revoked.
fn proxy_parts(kind: &CellKind) -> Option<(ObjId, ObjId)>
    ensures { result ≡ proxy_parts kind.now }
{
    match kind {
        CellKind::Proxy {
            target: Some(target),
            handler: Some(handler),
            ..
        } => Some((*target, *handler)),
        _ => None,
    }
}

// The owner gets the trap of the handler, for a method that another side or it itself asked.
fn look_up(
    w: &mut World,
    home: Side,
    asked: Side,
    target: ObjId,
    handler: ObjId,
    method: Method,
) -> Result<Move, Halt>
    requires acts { Acts w.old home (proxy_held (TheFrame.TrapGot asked target handler method)) }
    ensures part { (f : ℕ) → Part home result w.old w.new f f (proxy_method asked.0 home.0
        (object_in (names_of w.old) target) (object_in (names_of w.old) handler)
        (method_in (names_of w.old) method) finished) }
    ensures keeps { KeepsBy home (method_gives method) result w.old w.new }
{
    let key = trap_key(w, &method)?;
    Ok(Move::Wait(
        Frame::Proxy(ProxyFrame::TrapGot {
            side: asked,
            target,
            handler,
            method,
        }),
        Task::Perform {
            method: Method::Get {
                key,
                receiver: Value::Object(handler),
            },
            object: handler,
            viewer: home,
            enters: true,
        },
    ))
}

/// The key of a method's trap, whose text is added where it isn't there yet.
pub fn trap_key(w: &mut World, method: &Method) -> Result<Key, NoMemory>
    ensures key { (n : Names) →
        IfOk result (λ key. key_in (names_of w.new) key ≡ Named (op_name (op_of (method_in n method.now)))) }
    ensures within { IfOk result (KeyIn w.new) }
    ensures grew { OnOk result (TextsGrew w.old w.new) }
    ensures kept { OnErr result (w.new ≡ w.old) }
{
    let text = word(w, trap_name(method))?;
    Ok(w.texts().key(text))
}

const GET_PROTOTYPE_OF: [u16; 14] = [
    103, 101, 116, 80, 114, 111, 116, 111, 116, 121, 112, 101, 79, 102,
];

const SET_PROTOTYPE_OF: [u16; 14] = [
    115, 101, 116, 80, 114, 111, 116, 111, 116, 121, 112, 101, 79, 102,
];

const IS_EXTENSIBLE: [u16; 12] = [105, 115, 69, 120, 116, 101, 110, 115, 105, 98, 108, 101];

const PREVENT_EXTENSIONS: [u16; 17] = [
    112, 114, 101, 118, 101, 110, 116, 69, 120, 116, 101, 110, 115, 105, 111, 110, 115,
];

const GET_OWN_PROPERTY_DESCRIPTOR: [u16; 24] = [
    103, 101, 116, 79, 119, 110, 80, 114, 111, 112, 101, 114, 116, 121, 68, 101, 115, 99, 114, 105,
    112, 116, 111, 114,
];

const DEFINE_PROPERTY: [u16; 14] = [
    100, 101, 102, 105, 110, 101, 80, 114, 111, 112, 101, 114, 116, 121,
];

const HAS: [u16; 3] = [104, 97, 115];

const GET: [u16; 3] = [103, 101, 116];

const SET: [u16; 3] = [115, 101, 116];

const DELETE_PROPERTY: [u16; 14] = [
    100, 101, 108, 101, 116, 101, 80, 114, 111, 112, 101, 114, 116, 121,
];

const OWN_KEYS: [u16; 7] = [111, 119, 110, 75, 101, 121, 115];

const APPLY: [u16; 5] = [97, 112, 112, 108, 121];

const CONSTRUCT: [u16; 9] = [99, 111, 110, 115, 116, 114, 117, 99, 116];

// The name of a method's trap, which is that of the function of Reflect that performs it.
fn trap_name(method: &Method) -> &'static [u16]
    ensures name { (n : Names) → result.now ≡ op_name (op_of (method_in n method.now)) }
    ensures short { length result.now ≤ 2 ^ 20 }
{
    match method {
        Method::GetPrototypeOf => &GET_PROTOTYPE_OF,
        Method::SetPrototypeOf(_) => &SET_PROTOTYPE_OF,
        Method::IsExtensible => &IS_EXTENSIBLE,
        Method::PreventExtensions => &PREVENT_EXTENSIONS,
        Method::GetOwnProperty(_) => &GET_OWN_PROPERTY_DESCRIPTOR,
        Method::DefineOwnProperty(_, _) => &DEFINE_PROPERTY,
        Method::HasProperty(_) => &HAS,
        Method::Get { .. } => &GET,
        Method::Set { .. } => &SET,
        Method::Delete(_) => &DELETE_PROPERTY,
        Method::OwnPropertyKeys => &OWN_KEYS,
        Method::Call { .. } => &APPLY,
        Method::Construct { .. } => &CONSTRUCT,
    }
}
