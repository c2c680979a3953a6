// A property that a trap said to be absent (ECMA-262, 10.5.5, 10.5.7, 10.5.10): the target is asked for it.
ghost use Rattle.std.specs.Prelude.{◌≡◌, ◌∷◌, [], ℕ, Some};
ghost use Rattle.mb_base.specs.declared.value.Side.{Side as ASide};
ghost use Rattle.mb_frames.specs.Held.{HeldFull, HeldKey, HeldObject, HeldReal};
ghost use Rattle.mb_frames.specs.Holding.{answer_held};
ghost use Rattle.mb_frames.specs.Passing.{Part};
ghost use Rattle.mb_frames.specs.Ready.{Holds, KeepsBy, Leaves};
ghost use Rattle.mb_frames.specs.Resolved.{answer_in, real_in};
ghost use Rattle.mb_frames.specs.Rest.Proxying.{absent_answer, absent_verdict};
ghost use Rattle.mb_frames.specs.Sorts.{IsAnswer, absent_gives};
ghost use Rattle.mb_frames.specs.Stepping.{Sure};
ghost use Rattle.mb_model.specs.Meaning.{finished};
ghost use Rattle.mb_model.specs.Objects.Proxies.{absent_extensible, absent_read, absent_said};
ghost use Rattle.mb_world.specs.Data.{Data};
ghost use Rattle.mb_world.specs.Image.{Names, full_in, key_in, names_of, object_in};
ghost use Rattle.mb_call.specs.Ours.{Acts};

use crate::errors::type_error;
use crate::giving::{asks, gives, judged};
use mb_base::{Key, ObjId, Side, Value};
use mb_check::{Verdict, delete, has_not, own_absent};
use mb_desc::Full;
use mb_frames::{Absent, Answer, Halt, Method, Move, ProxyFrame};
use mb_world::World;

// The rules on a property that was said to be absent.
fn absent_verdict(absent: Absent, real: Option<Full<Value>>, extensible: bool) -> Verdict
    ensures { (n : Names) → absent_verdict absent (real_in n real) extensible ≡ result }
{
    match absent {
        Absent::Own => own_absent(real, extensible),
        Absent::Has => has_not(real, extensible),
        Absent::Delete => delete(real, extensible),
    }
}

// The answer where no rule is broken.
fn absent_answer(absent: Absent) -> Answer
    ensures answer { (n : Names) → answer_in n result ≡ absent_answer absent }
    ensures sort { IsAnswer (absent_gives absent) result }
    ensures held { (home : ASide) (d : Data) → Holds d home (answer_held result) }
{
    match absent {
        Absent::Own => Answer::Prop(None),
        Absent::Has => Answer::Flag(false),
        Absent::Delete => Answer::Flag(true),
    }
}

// The trap said that the property is absent.
pub(crate) fn absent_said(home: Side, target: ObjId, key: Key, absent: Absent) -> Move
    ensures sure { (d : Data) → Acts d home (HeldObject target ∷ HeldKey key ∷ []) →
        Sure home d (absent_said home.0 (object_in (names_of d) target) (key_in (names_of d) key)
        (absent_verdict absent) (absent_answer absent) finished) result }
    ensures leaves { (d : Data) → Acts d home (HeldObject target ∷ HeldKey key ∷ []) →
        Leaves d home (absent_gives absent) result }
{
    let frame = ProxyFrame::AbsentRead { target, absent };
    asks(home, frame, Method::GetOwnProperty(key), target)
}

// What the target has was read: where it lacks the property no rule is broken.
pub(crate) fn absent_read(
    w: &mut World,
    home: Side,
    target: ObjId,
    absent: Absent,
    real: Option<Full<Value>>,
) -> Result<Move, Halt>
    requires acts { Acts w.old home (HeldObject target ∷ HeldReal real ∷ []) }
    ensures part { (f : ℕ) → Part home result w.old w.new f f (absent_read home.0
        (object_in (names_of w.old) target) (absent_verdict absent) (absent_answer absent)
        (real_in (names_of w.old) real) finished) }
    ensures keeps { KeepsBy home (absent_gives absent) result w.old w.new }
{
    match real {
        None => Ok(gives(absent_answer(absent))),
        Some(found) => absent_found(w, home, target, absent, found),
    }
}

// The target has the property: the rule that asks no flag is judged, and then the flag is read.
fn absent_found(
    w: &mut World,
    home: Side,
    target: ObjId,
    absent: Absent,
    real: Full<Value>,
) -> Result<Move, Halt>
    requires acts { Acts w.old home (HeldObject target ∷ HeldFull real ∷ []) }
    ensures part { (f : ℕ) → Part home result w.old w.new f f (absent_read home.0
        (object_in (names_of w.old) target) (absent_verdict absent) (absent_answer absent)
        (Some (full_in (names_of w.old) real)) finished) }
    ensures keeps { KeepsBy home (absent_gives absent) result w.old w.new }
{
    match absent_verdict(absent, Some(real), true) {
        Verdict::Pass => {
            let frame = ProxyFrame::AbsentExtensible { real, absent };
            Ok(asks(home, frame, Method::IsExtensible, target))
        }
        Verdict::Broken(_) => type_error(w, home),
    }
}

// The target told whether it is extensible.
pub(crate) fn absent_extensible(
    w: &mut World,
    home: Side,
    real: Full<Value>,
    absent: Absent,
    extensible: bool,
) -> Result<Move, Halt>
    requires acts { Acts w.old home (HeldFull real ∷ []) }
    ensures part { (f : ℕ) → Part home result w.old w.new f f (absent_extensible home.0
        (absent_verdict absent (Some (full_in (names_of w.old) real))) (absent_answer absent) extensible finished) }
    ensures keeps { KeepsBy home (absent_gives absent) result w.old w.new }
{
    let verdict = absent_verdict(absent, Some(real), extensible);
    judged(w, home, verdict, absent_answer(absent))
}
