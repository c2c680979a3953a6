// The members of Array.prototype are entered: each asks for the length of its `this` (ECMA-262, 23.1.3, 7.3.19).
ghost use Rattle.std.specs.Prelude.{◌≡◌, ◌∷◌, [], ℕ, true};
ghost use Rattle.mb_base.specs.declared.value.Side.{Side as ASide};
ghost use Rattle.mb_call.specs.Ours.{Acts};
ghost use Rattle.mb_frames.specs.Held.{HeldValue, HeldValues};
ghost use Rattle.mb_frames.specs.Holding.{member_held};
ghost use Rattle.mb_frames.specs.Passing.{Part};
ghost use Rattle.mb_frames.specs.Ready.{Holds, KeepsBy};
ghost use Rattle.mb_frames.specs.Rest.Arraying.{member_from};
ghost use Rattle.mb_frames.specs.Sorts.{AValue};
ghost use Rattle.mb_model.specs.BuiltIns.Arrays.{array_start};
ghost use Rattle.mb_model.specs.Meaning.{finished};
ghost use Rattle.mb_model.specs.Writing.{◌>>=◌ as after_that};
ghost use Rattle.mb_world.specs.Data.{Data};
ghost use Rattle.mb_world.specs.Image.{Resolve, names_of};
ghost use Rattle.mb_world.specs.Intrinsics.{intrinsic};
ghost use Rattle.mb_arrayapi.specs.machine.Membering.{DoesMember, argument, is_member};

use crate::errors::type_error;
use crate::giving::waits;
use crate::keys::length_key;
use crate::places::{FILTER, FOR_EACH, INDEX_OF, JOIN, MAP, POP, PUSH, REDUCE, SLICE};
use mb_base::{Side, Value};
use mb_frames::{ArrayFrame, Halt, Member, Method, Move, Values};
use mb_world::World;

// The argument at a place, or undefined.
pub(crate) fn argument(arguments: &Values, place: usize) -> Value
    ensures { result ≡ argument arguments.now place }
{
    match arguments.at(place) {
        Some(x) => x,
        None => Value::Undefined,
    }
}

// The member at a place of the table.
#[tactic(auto, using(crate::proofs::TablePlaces::no_other_member))]
pub(crate) fn member_at(place: u16, arguments: Values) -> Member
    requires { is_member (intrinsic place) ≡ true }
    ensures row { DoesMember place arguments result }
    ensures held { (d : Data) (home : ASide) → Holds d home (HeldValues arguments ∷ []) →
        Holds d home (member_held result) }
{
    let first = argument(&arguments, 0);
    let second = argument(&arguments, 1);
    let given = arguments.at(1);
    match place {
        PUSH => Member::Push { arguments },
        POP => Member::Pop,
        MAP => Member::Map {
            function: first,
            this: second,
        },
        FOR_EACH => Member::ForEach {
            function: first,
            this: second,
        },
        FILTER => Member::Filter {
            function: first,
            this: second,
        },
        REDUCE => Member::Reduce {
            function: first,
            first: given,
        },
        INDEX_OF => Member::IndexOf {
            value: first,
            from: second,
        },
        SLICE => Member::Slice {
            from: first,
            to: second,
        },
        JOIN => Member::Join { separator: first },
        _ => unreachable!(),
    }
}

// A member is entered: `this` must be an object, whose length is got.
pub(crate) fn member_row(
    w: &mut World,
    home: Side,
    this: Value,
    member: Member,
) -> Result<Move, Halt>
    requires acts { Acts w.old home (HeldValue this ∷ member_held member) }
    ensures part { (f : ℕ) → Part home result w.old w.new f f (after_that
        (array_start home.0 (Resolve (names_of w.old) this))
        (member_from (names_of w.old) home.0 (Resolve (names_of w.old) this) member) finished) }
    ensures keeps { KeepsBy home AValue result w.old w.new }
{
    match this {
        Value::Object(object) => {
            let key = length_key(w)?;
            Ok(waits(
                home,
                ArrayFrame::Length { object, member },
                Method::Get {
                    key,
                    receiver: this,
                },
                object,
            ))
        }
        _ => type_error(w, home),
    }
}
