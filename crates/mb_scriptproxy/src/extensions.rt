// [[IsExtensible]] and [[PreventExtensions]] of a Proxy (ECMA-262, 10.5.3, 10.5.4), once their traps were called.
ghost use Rattle.std.specs.Prelude.{◌≡◌, ◌∷◌, [], ℕ};
ghost use Rattle.mb_frames.specs.Held.{HeldObject};
ghost use Rattle.mb_frames.specs.Passing.{Part};
ghost use Rattle.mb_frames.specs.Ready.{KeepsBy, Leaves};
ghost use Rattle.mb_frames.specs.Sorts.{AFlag};
ghost use Rattle.mb_frames.specs.Stepping.{Sure};
ghost use Rattle.mb_model.specs.Meaning.{finished};
ghost use Rattle.mb_model.specs.Objects.Proxies.{extensible_read, extensible_said, prevent_read, prevent_said};
ghost use Rattle.mb_world.specs.Data.{Data};
ghost use Rattle.mb_world.specs.Image.{names_of, object_in};
ghost use Rattle.mb_call.specs.Ours.{Acts};

use crate::giving::{asks, judged, yes_or_no};
use mb_base::{ObjId, Side};
use mb_check::{is_extensible, prevent_extensions};
use mb_frames::{Answer, Halt, Method, Move, ProxyFrame};
use mb_world::World;

// The trap of isExtensible answered.
pub(crate) fn extensible_said(home: Side, target: ObjId, said: bool) -> Move
    ensures sure { (d : Data) → Acts d home (HeldObject target ∷ []) →
        Sure home d (extensible_said home.0 (object_in (names_of d) target) said finished) result }
    ensures leaves { (d : Data) → Acts d home (HeldObject target ∷ []) → Leaves d home AFlag result }
{
    let frame = ProxyFrame::ExtensibleRead { said };
    asks(home, frame, Method::IsExtensible, target)
}

// The target told whether it is extensible.
pub(crate) fn extensible_read(
    w: &mut World,
    home: Side,
    said: bool,
    real: bool,
) -> Result<Move, Halt>
    requires acts { Acts w.old home [] }
    ensures part { (f : ℕ) → Part home result w.old w.new f f (extensible_read home.0 said real finished) }
    ensures keeps { KeepsBy home AFlag result w.old w.new }
{
    judged(w, home, is_extensible(said, real), Answer::Flag(said))
}

// The trap of preventExtensions answered yes or no.
pub(crate) fn prevent_said(home: Side, target: ObjId, said: bool) -> Move
    ensures sure { (d : Data) → Acts d home (HeldObject target ∷ []) →
        Sure home d (prevent_said home.0 (object_in (names_of d) target) said finished) result }
    ensures leaves { (d : Data) → Acts d home (HeldObject target ∷ []) → Leaves d home AFlag result }
{
    if said {
        asks(home, ProxyFrame::PreventRead, Method::IsExtensible, target)
    } else {
        yes_or_no(false)
    }
}

// The target told whether it is extensible.
pub(crate) fn prevent_read(w: &mut World, home: Side, extensible: bool) -> Result<Move, Halt>
    requires acts { Acts w.old home [] }
    ensures part { (f : ℕ) → Part home result w.old w.new f f (prevent_read home.0 extensible finished) }
    ensures keeps { KeepsBy home AFlag result w.old w.new }
{
    judged(w, home, prevent_extensions(extensible), Answer::Flag(true))
}
