// A member that waits takes how its part ended.
ghost use Rattle.std.specs.Prelude.{◌≡◌, ◌∷◌, ℕ};
ghost use Rattle.mb_call.specs.Ours.{Acts};
ghost use Rattle.mb_call.specs.machine.Resuming.{IsAwaited};
ghost use Rattle.mb_frames.specs.Held.{HeldKeys, HeldReal, HeldValue};
ghost use Rattle.mb_frames.specs.Holding.{outcome_held, reflect_held};
ghost use Rattle.mb_frames.specs.Passing.{Part};
ghost use Rattle.mb_frames.specs.Ready.{Holds, KeepsBy};
ghost use Rattle.mb_frames.specs.Resolved.{keys_of, outcome_in, real_in};
ghost use Rattle.mb_frames.specs.Rest.Parts.{with_answer};
ghost use Rattle.mb_frames.specs.Rest.Reflecting.{reflect_rest};
ghost use Rattle.mb_frames.specs.Sorts.{AFlag, AProperty, AValue, SomeKeys, reflect_gives, reflect_waits};
ghost use Rattle.mb_model.specs.Meaning.{finished};
ghost use Rattle.mb_model.specs.Task.{Flag, Keys, Prop, Value as ValueAnswer};
ghost use Rattle.mb_world.specs.Image.{Resolve, names_of};

use crate::asking::given_back;
use crate::failures::error_from;
use crate::freezing::{frozen_from, frozen_open, frozen_read};
use crate::giving::value;
use crate::listing::{key_read, keys_listed, own_keys_listed, symbols_listed};
use crate::objects::{described, object_from};
use crate::settling::{closed, freeze_found, settle_from, settled};
use mb_base::{Fuel, Side, Value};
use mb_desc::Full;
use mb_frames::{Answer, Halt, Move, Outcome, ReflectFrame};
use mb_world::{KeyList, World};

pub(crate) fn resume(
    w: &mut World,
    fuel: &mut Fuel,
    home: Side,
    frame: ReflectFrame,
    outcome: Outcome,
) -> Result<Move, Halt>
    requires acts { Acts w.old home (reflect_held frame) }
    requires outcome { Holds w.old home (outcome_held outcome) }
    requires sort { IsAwaited (reflect_waits frame) outcome }
    ensures part { Part home result w.old w.new fuel.old fuel.new (with_answer
        (outcome_in (names_of w.old) outcome) (reflect_rest (names_of w.old) home.0 frame) finished) }
    ensures keeps { KeepsBy home (reflect_gives frame) result w.old w.new }
{
    match outcome {
        Outcome::Normal(answer) => match answer {
            Answer::Value(x) => value_got(w, home, frame, x),
            Answer::Flag(b) => flag_got(w, fuel, home, frame, b),
            Answer::Prop(found) => property_got(w, fuel, home, frame, found),
            Answer::Keys(keys) => keys_got(w, fuel, home, frame, keys),
            _ => unreachable!(),
        },
        Outcome::Throw(x) => Ok(Move::Done(Outcome::Throw(x))),
        _ => unreachable!(),
    }
}

// The `prototype` of a new target.
fn value_got(w: &mut World, home: Side, frame: ReflectFrame, x: Value) -> Result<Move, Halt>
    requires acts { Acts w.old home (HeldValue x ∷ reflect_held frame) }
    requires waits { reflect_waits frame ≡ AValue }
    ensures part { (f : ℕ) → Part home result w.old w.new f f (reflect_rest (names_of w.old) home.0 frame
        (ValueAnswer (Resolve (names_of w.old) x)) finished) }
    ensures keeps { KeepsBy home (reflect_gives frame) result w.old w.new }
{
    match frame {
        ReflectFrame::ObjectPrototype => object_from(w, home, x),
        ReflectFrame::ErrorPrototype { kind, message } => error_from(w, home, kind, message, x),
        _ => unreachable!(),
    }
}

// A method answered yes or no.
fn flag_got(
    w: &mut World,
    fuel: &mut Fuel,
    home: Side,
    frame: ReflectFrame,
    b: bool,
) -> Result<Move, Halt>
    requires acts { Acts w.old home (reflect_held frame) }
    requires waits { reflect_waits frame ≡ AFlag }
    ensures part { Part home result w.old w.new fuel.old fuel.new (reflect_rest (names_of w.old) home.0 frame
        (Flag b) finished) }
    ensures keeps { KeepsBy home (reflect_gives frame) result w.old w.new }
{
    match frame {
        ReflectFrame::Closed { object, frozen } => closed(w, home, object, frozen, b),
        ReflectFrame::Settled {
            object,
            frozen,
            keys,
            next,
        } => settled(w, fuel, home, object, frozen, keys, next, b),
        ReflectFrame::FrozenExtensible { object } => Ok(frozen_open(home, object, b)),
        ReflectFrame::GivenBack { object } => given_back(w, home, object, b),
        ReflectFrame::Truth => Ok(value(Value::Bool(b))),
        _ => unreachable!(),
    }
}

// A property was read.
fn property_got(
    w: &mut World,
    fuel: &mut Fuel,
    home: Side,
    frame: ReflectFrame,
    found: Option<Full<Value>>,
) -> Result<Move, Halt>
    requires acts { Acts w.old home (HeldReal found ∷ reflect_held frame) }
    requires waits { reflect_waits frame ≡ AProperty }
    ensures part { Part home result w.old w.new fuel.old fuel.new (reflect_rest (names_of w.old) home.0 frame
        (Prop (real_in (names_of w.old) found)) finished) }
    ensures keeps { KeepsBy home (reflect_gives frame) result w.old w.new }
{
    match frame {
        ReflectFrame::KeyRead {
            object,
            key,
            keys,
            next,
            found: list,
        } => key_read(w, fuel, home, object, key, keys, next, list, found),
        ReflectFrame::FreezeRead {
            object,
            key,
            keys,
            next,
        } => freeze_found(fuel, home, object, key, keys, next, found),
        ReflectFrame::FrozenRead { object, keys, next } => {
            frozen_read(fuel, home, object, keys, next, found)
        }
        ReflectFrame::Described => described(w, home, found),
        ReflectFrame::HasOwn => Ok(value(Value::Bool(found.is_some()))),
        _ => unreachable!(),
    }
}

// An object's keys.
fn keys_got(
    w: &mut World,
    fuel: &mut Fuel,
    home: Side,
    frame: ReflectFrame,
    keys: KeyList,
) -> Result<Move, Halt>
    requires acts { Acts w.old home (HeldKeys keys ∷ reflect_held frame) }
    requires waits { reflect_waits frame ≡ SomeKeys }
    ensures part { Part home result w.old w.new fuel.old fuel.new (reflect_rest (names_of w.old) home.0 frame
        (Keys (keys_of (names_of w.old) keys)) finished) }
    ensures keeps { KeepsBy home (reflect_gives frame) result w.old w.new }
{
    match frame {
        ReflectFrame::KeysListed { object } => keys_listed(w, fuel, home, object, &keys),
        ReflectFrame::SymbolsListed => symbols_listed(w, fuel, home, &keys),
        ReflectFrame::SettledKeys { object, frozen } => {
            settle_from(fuel, home, object, frozen, keys, 0)
        }
        ReflectFrame::FrozenKeys { object } => frozen_from(fuel, home, object, keys, 0),
        ReflectFrame::OwnKeys => own_keys_listed(w, fuel, home, &keys),
        _ => unreachable!(),
    }
}
