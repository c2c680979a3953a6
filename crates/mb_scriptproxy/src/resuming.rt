// A method of a Proxy that waits takes how its part ended (ECMA-262, 10.5).
ghost use Rattle.std.specs.Prelude.{◌≡◌, ◌∷◌, ℕ, Some, true};
ghost use Rattle.mb_frames.specs.Held.{HeldKeys, HeldReal, HeldValue};
ghost use Rattle.mb_frames.specs.Holding.{answer_held, outcome_held, proxy_held};
ghost use Rattle.mb_frames.specs.Passing.{Part};
ghost use Rattle.mb_frames.specs.Ready.{Holds, KeepsBy};
ghost use Rattle.mb_frames.specs.Resolved.{answer_in, keys_of, outcome_in, real_in};
ghost use Rattle.mb_frames.specs.Rest.Parts.{with_answer};
ghost use Rattle.mb_frames.specs.Rest.Proxying.{proxy_rest};
ghost use Rattle.mb_frames.specs.Sorts.{AFlag, AProperty, SomeKeys, proxy_gives, proxy_waits};
ghost use Rattle.mb_model.specs.Meaning.{finished};
ghost use Rattle.mb_model.specs.Task.{Flag, Keys, Prop, Value as AValue};
ghost use Rattle.mb_world.specs.Image.{Resolve, names_of};
ghost use Rattle.mb_call.specs.Ours.{Acts};
ghost use Rattle.mb_scriptproxy.specs.machine.Acting.{waiting_side};
ghost use Rattle.mb_scriptproxy.specs.machine.Resuming.{IsAwaited, is_valued};

use crate::absent::{absent_extensible, absent_read};
use crate::extensions::{extensible_read, prevent_read};
use crate::keys::{Parting, key_read, keys_extensible, keys_read};
use crate::properties::{
    define_extensible, define_read, get_read, own_extensible, own_read, set_read,
};
use crate::prototypes::{
    prototype_extensible, prototype_read, set_prototype_extensible, set_prototype_read,
};
use crate::said::trap_said;
use crate::traps::trap_got;
use mb_base::{Side, Value};
use mb_desc::Full;
use mb_frames::{Answer, Halt, Move, Outcome, ProxyFrame};
use mb_world::{KeyList, World};

pub(crate) fn resume(
    w: &mut World,
    home: Side,
    frame: ProxyFrame,
    outcome: Outcome,
) -> Result<Move, Halt>
    requires acts { Acts w.old home (proxy_held frame) }
    requires outcome { Holds w.old home (outcome_held outcome) }
    requires sort { IsAwaited (proxy_waits frame) outcome }
    ensures part { (f : ℕ) → Part (waiting_side home frame (Some outcome)) result w.old w.new f f
        (with_answer (outcome_in (names_of w.old) outcome) (proxy_rest (names_of w.old) home.0 frame) finished) }
    ensures keeps { KeepsBy (waiting_side home frame (Some outcome)) (proxy_gives frame) result w.old w.new }
{
    match outcome {
        Outcome::Normal(answer) => answered(w, home, frame, answer),
        Outcome::Throw(x) => Ok(Move::Done(Outcome::Throw(x))),
        _ => unreachable!(),
    }
}

// Its part gave an answer.
fn answered(w: &mut World, home: Side, frame: ProxyFrame, answer: Answer) -> Result<Move, Halt>
    requires acts { Acts w.old home (proxy_held frame) }
    requires answer { Holds w.old home (answer_held answer) }
    requires sort { IsAwaited (proxy_waits frame) (Outcome.Normal answer) }
    ensures part { (f : ℕ) → Part (waiting_side home frame (Some (Outcome.Normal answer))) result w.old w.new f f
        (proxy_rest (names_of w.old) home.0 frame (answer_in (names_of w.old) answer) finished) }
    ensures keeps { KeepsBy (waiting_side home frame (Some (Outcome.Normal answer))) (proxy_gives frame) result w.old
        w.new }
{
    match answer {
        Answer::Value(x) => with_value(w, home, frame, x),
        Answer::Flag(b) => with_flag(w, home, frame, b),
        Answer::Prop(real) => with_property(w, home, frame, real),
        Answer::Keys(keys) => with_keys(w, home, frame, keys),
        _ => unreachable!(),
    }
}

// A trap, what it gave, or the target's prototype.
fn with_value(w: &mut World, home: Side, frame: ProxyFrame, x: Value) -> Result<Move, Halt>
    requires acts { Acts w.old home (HeldValue x ∷ proxy_held frame) }
    requires waits { is_valued (proxy_waits frame) ≡ true }
    ensures part { (f : ℕ) → Part (waiting_side home frame (Some (Outcome.Normal (Answer.Value x)))) result w.old w.new
        f f (proxy_rest (names_of w.old) home.0 frame (AValue (Resolve (names_of w.old) x)) finished) }
    ensures keeps { KeepsBy (waiting_side home frame (Some (Outcome.Normal (Answer.Value x)))) (proxy_gives frame)
        result w.old w.new }
{
    match frame {
        ProxyFrame::TrapGot {
            side,
            target,
            handler,
            method,
        } => trap_got(w, home, side, target, handler, method, x),
        ProxyFrame::Said { target, method } => trap_said(w, home, target, method, x),
        ProxyFrame::PrototypeRead { said } => prototype_read(w, home, said, x),
        ProxyFrame::SetPrototypeRead { given } => set_prototype_read(w, home, given, x),
        _ => unreachable!(),
    }
}

// Whether the target is extensible.
fn with_flag(w: &mut World, home: Side, frame: ProxyFrame, yes: bool) -> Result<Move, Halt>
    requires acts { Acts w.old home (proxy_held frame) }
    requires waits { proxy_waits frame ≡ AFlag }
    ensures part { (f : ℕ) → Part home result w.old w.new f f
        (proxy_rest (names_of w.old) home.0 frame (Flag yes) finished) }
    ensures keeps { KeepsBy home (proxy_gives frame) result w.old w.new }
{
    match frame {
        ProxyFrame::PrototypeExtensible { target, said } => {
            Ok(prototype_extensible(home, target, said, yes))
        }
        ProxyFrame::SetPrototypeExtensible { target, given } => {
            Ok(set_prototype_extensible(home, target, given, yes))
        }
        ProxyFrame::ExtensibleRead { said } => extensible_read(w, home, said, yes),
        ProxyFrame::PreventRead => prevent_read(w, home, yes),
        ProxyFrame::AbsentExtensible { real, absent } => {
            absent_extensible(w, home, real, absent, yes)
        }
        ProxyFrame::OwnExtensible { said, real } => own_extensible(w, home, said, real, yes),
        ProxyFrame::DefineExtensible { given, real } => define_extensible(
            w, home, given, real, yes,
        ),
        ProxyFrame::KeysExtensible { target, said } => Ok(keys_extensible(home, target, said, yes)),
        _ => unreachable!(),
    }
}

// What the target has at a key.
fn with_property(
    w: &mut World,
    home: Side,
    frame: ProxyFrame,
    real: Option<Full<Value>>,
) -> Result<Move, Halt>
    requires acts { Acts w.old home (HeldReal real ∷ proxy_held frame) }
    requires waits { proxy_waits frame ≡ AProperty }
    ensures part { (f : ℕ) → Part home result w.old w.new f f
        (proxy_rest (names_of w.old) home.0 frame (Prop (real_in (names_of w.old) real)) finished) }
    ensures keeps { KeepsBy home (proxy_gives frame) result w.old w.new }
{
    match frame {
        ProxyFrame::AbsentRead { target, absent } => absent_read(w, home, target, absent, real),
        ProxyFrame::OwnRead { target, said } => Ok(own_read(home, target, said, real)),
        ProxyFrame::DefineRead { target, given } => Ok(define_read(home, target, given, real)),
        ProxyFrame::GetRead { said } => get_read(w, home, said, real),
        ProxyFrame::SetRead { given } => set_read(w, home, given, real),
        ProxyFrame::KeyRead {
            target,
            said,
            extensible,
            key,
            keys,
            next,
            fixed,
            loose,
        } => {
            let at = Parting {
                said,
                extensible,
                keys,
                next,
                fixed,
                loose,
            };
            key_read(w, home, target, at, key, real)
        }
        _ => unreachable!(),
    }
}

// The target's keys.
fn with_keys(w: &mut World, home: Side, frame: ProxyFrame, keys: KeyList) -> Result<Move, Halt>
    requires acts { Acts w.old home (HeldKeys keys ∷ proxy_held frame) }
    requires waits { proxy_waits frame ≡ SomeKeys }
    ensures part { (f : ℕ) → Part home result w.old w.new f f
        (proxy_rest (names_of w.old) home.0 frame (Keys (keys_of (names_of w.old) keys)) finished) }
    ensures keeps { KeepsBy home (proxy_gives frame) result w.old w.new }
{
    match frame {
        ProxyFrame::KeysListed {
            target,
            said,
            extensible,
        } => keys_read(w, home, target, said, extensible, keys),
        _ => unreachable!(),
    }
}
