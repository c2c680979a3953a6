// [[OwnPropertyKeys]] of a Proxy (ECMA-262, 10.5.11), once its trap was called.
ghost use Rattle.std.specs.Prelude.{◌≡◌, ◌+◌, ◌∷◌, [], ℕ, IfOk, IsPermutation, drop, slice_get};
ghost use Rattle.mb_check.specs.Rules.{own_keys};
ghost use Rattle.mb_desc.specs.Descriptors.{is_fixed, property_is};
ghost use Rattle.mb_frames.specs.Held.{HeldKey, HeldKeys, HeldObject, HeldReal, HeldValue};
ghost use Rattle.mb_frames.specs.Passing.{Part};
ghost use Rattle.mb_frames.specs.Ready.{KeepsBy, Leaves};
ghost use Rattle.mb_frames.specs.Resolved.{keys_of, real_in};
ghost use Rattle.mb_frames.specs.Rest.Proxying.{parted};
ghost use Rattle.mb_frames.specs.Sorts.{SomeKeys};
ghost use Rattle.mb_frames.specs.Stepping.{Sure};
ghost use Rattle.mb_model.specs.Meaning.{finished};
ghost use Rattle.mb_model.specs.Objects.Proxies.{keys_extensible, keys_parted, keys_read, keys_said, with_parted};
ghost use Rattle.mb_text.specs.Texts.{AreDistinct};
ghost use Rattle.mb_world.specs.Data.{Data};
ghost use Rattle.mb_world.specs.Image.{Names, Resolve, key_in, names_of, object_in};
ghost use Rattle.mb_world.specs.Key.{same_key};
ghost use Rattle.mb_call.specs.Ours.{Acts};
ghost use Rattle.mb_scriptproxy.specs.machine.Parting.{AreKeysIn, IsParted, parting_held};

use crate::giving::{asks, judged};
use mb_base::{Key, NoMemory, ObjId, Side, Value};
use mb_call::list_of;
use mb_check::{Verdict, keys_in_any_order, own_keys};
use mb_desc::Full;
use mb_frames::{AfterList, Answer, Halt, Method, Move, ProxyFrame, after};
use mb_world::{KeyList, World};
use std::alloc::Global;

/// The target's keys as they are read, from the place `next` on: those of properties that aren't configurable, and the
/// others. `said` is what the trap gave.
#[derive(Drop)]
pub(crate) struct Parting {
    pub(crate) said: KeyList,
    pub(crate) extensible: bool,
    pub(crate) keys: KeyList,
    pub(crate) next: u32,
    pub(crate) fixed: KeyList,
    pub(crate) loose: KeyList,
}

// The trap gave a value, of which a list of keys is made.
pub(crate) fn keys_said(w: &mut World, home: Side, target: ObjId, said: Value) -> Result<Move, Halt>
    requires acts { Acts w.old home (HeldObject target ∷ HeldValue said ∷ []) }
    ensures part { (f : ℕ) → Part home result w.old w.new f f (keys_said home.0
        (object_in (names_of w.old) target) (Resolve (names_of w.old) said) finished) }
    ensures keeps { KeepsBy home SomeKeys result w.old w.new }
{
    list_of(w, home, said, AfterList::Keys { target })
}

// The target told whether it is extensible.
pub(crate) fn keys_extensible(home: Side, target: ObjId, said: KeyList, extensible: bool) -> Move
    ensures sure { (d : Data) → Acts d home (HeldObject target ∷ HeldKeys said ∷ []) →
        Sure home d (keys_extensible home.0 (object_in (names_of d) target) (keys_of (names_of d) said) extensible
        finished) result }
    ensures leaves { (d : Data) → Acts d home (HeldObject target ∷ HeldKeys said ∷ []) →
        Leaves d home SomeKeys result }
{
    let frame = ProxyFrame::KeysListed {
        target,
        said,
        extensible,
    };
    asks(home, frame, Method::OwnPropertyKeys, target)
}

// The target's keys were listed: they are read one after the other.
pub(crate) fn keys_read(
    w: &mut World,
    home: Side,
    target: ObjId,
    said: KeyList,
    extensible: bool,
    keys: KeyList,
) -> Result<Move, Halt>
    requires acts { Acts w.old home (HeldObject target ∷ HeldKeys said ∷ HeldKeys keys ∷ []) }
    ensures part { (f : ℕ) → Part home result w.old w.new f f (keys_read home.0 (object_in (names_of w.old) target)
        (keys_of (names_of w.old) said) extensible (keys_of (names_of w.old) keys) finished) }
    ensures keeps { KeepsBy home SomeKeys result w.old w.new }
{
    let alloc = *w.trace().allocator();
    let at = Parting {
        said,
        extensible,
        keys,
        next: 0,
        fixed: KeyList::from(Vec::new(alloc)),
        loose: KeyList::from(Vec::new(alloc)),
    };
    keys_parted(w, home, target, at)
}

// The next key's property is read, or else the rules are judged.
fn keys_parted(w: &mut World, home: Side, target: ObjId, at: Parting) -> Result<Move, Halt>
    requires acts { Acts w.old home (HeldObject target ∷ parting_held at) }
    ensures part { (f : ℕ) → Part home result w.old w.new f f (keys_parted home.0 (object_in (names_of w.old) target)
        (keys_of (names_of w.old) at.said) at.extensible (drop at.next (keys_of (names_of w.old) at.keys))
        (parted (names_of w.old) at.fixed at.loose) finished) }
    ensures keeps { KeepsBy home SomeKeys result w.old w.new }
{
    match key_at(&at.keys, at.next) {
        Some(key) => {
            let frame = next_key(target, at, key)?;
            Ok(asks(home, frame, Method::GetOwnProperty(key), target))
        }
        None => {
            let _texts = w.texts();
            let verdict = keys_verdict(*w.trace().allocator(), &at)?;
            judged(w, home, verdict, Answer::Keys(at.said))
        }
    }
}

// The key at that place.
fn key_at(keys: &KeyList, place: u32) -> Option<Key>
    ensures { result ≡ slice_get keys.now place }
{
    keys.items().get(place as usize).copied()
}

// A key's property is read, and the place of the key after it is kept.
fn next_key(target: ObjId, at: Parting, key: Key) -> Result<ProxyFrame, NoMemory>
    ensures { IfOk result (λ frame. frame ≡ ProxyFrame.KeyRead target at.said at.extensible key at.keys (at.next + 1)
        at.fixed at.loose) }
{
    let next = after(at.next as usize)?;
    let Parting {
        said,
        extensible,
        keys,
        fixed,
        loose,
        ..
    } = at;
    Ok(ProxyFrame::KeyRead {
        target,
        said,
        extensible,
        key,
        keys,
        next,
        fixed,
        loose,
    })
}

// A key's property was read.
pub(crate) fn key_read(
    w: &mut World,
    home: Side,
    target: ObjId,
    at: Parting,
    key: Key,
    real: Option<Full<Value>>,
) -> Result<Move, Halt>
    requires acts { Acts w.old home (HeldObject target ∷ HeldKey key ∷ parting_held at) }
    ensures part { (f : ℕ) → Part home result w.old w.new f f (keys_parted home.0 (object_in (names_of w.old) target)
        (keys_of (names_of w.old) at.said) at.extensible (drop at.next (keys_of (names_of w.old) at.keys))
        (with_parted (key_in (names_of w.old) key) (parted (names_of w.old) at.fixed at.loose)
        (real_in (names_of w.old) real)) finished) }
    ensures keeps { KeepsBy home SomeKeys result w.old w.new }
{
    let at = with_parted(at, key, is_fixed(real))?;
    keys_parted(w, home, target, at)
}

// Whether there is a property that isn't configurable.
fn is_fixed(real: Option<Full<Value>>) -> bool
    ensures { (n : Names) → property_is is_fixed (real_in n real) ≡ result }
{
    match real {
        Some(property) => match property {
            Full::Datum { configurable, .. } => !configurable,
            Full::Accessor { configurable, .. } => !configurable,
        },
        None => false,
    }
}

// A key stands with those of properties that aren't configurable, or with the others.
fn with_parted(at: Parting, key: Key, fixed: bool) -> Result<Parting, NoMemory>
    ensures { IfOk result (IsParted at key fixed) }
{
    let mut more = at;
    if fixed {
        more.fixed.push(key)?;
        Ok(more)
    } else {
        more.loose.push(key)?;
        Ok(more)
    }
}

// What the rules say of the keys, in n log n.
fn keys_verdict(alloc: Global, at: &Parting) -> Result<Verdict, NoMemory>
    ensures { IfOk result (λ verdict. (d : Data) → AreDistinct d.texts → AreKeysIn d at.now → verdict
        ≡ own_keys same_key (keys_of (names_of d) at.now.said) (keys_of (names_of d) at.now.fixed)
        (keys_of (names_of d) at.now.loose) at.now.extensible) }
{
    let said = sorted(alloc, &at.said)?;
    let fixed = sorted(alloc, &at.fixed)?;
    let loose = sorted(alloc, &at.loose)?;
    keys_in_any_order::<Key>();
    Ok(own_keys(&said, &fixed, &loose, at.extensible))
}

// The same keys in ascending order.
fn sorted(alloc: Global, keys: &KeyList) -> Result<Vec<Key>, NoMemory>
    ensures { IfOk result (λ in_order. IsPermutation keys.now in_order.items) }
{
    let mut in_order = keys.items().to_vec(alloc)?;
    in_order.sort()?;
    Ok(in_order)
}
