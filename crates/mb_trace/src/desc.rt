// The fields of a descriptor. Each call appends its part; where memory ends, what was appended stays.
ghost use Rattle.std.specs.Prelude.{◌≡◌, ◌++◌, ◌∷◌, [], ℕ, List, IfOk, OnOk, option_map};
ghost use Rattle.mb_world.specs.Value.{truth_text};
ghost use Rattle.mb_world.specs.Ids.{Maybe};
ghost use Rattle.mb_world.specs.Image.{seen_in, desc_in};
ghost use Rattle.mb_world.specs.EntryLine.{seen, seen_desc, with_field};
ghost use Rattle.mb_trace.specs.machine.Told.{numbered, SeenTold, DescTold, led, comma_if};

use crate::part::{push_flag, push_seen};
use mb_base::NoMemory;
use mb_desc::Desc;
use mb_world::{Seen, World};

/// A descriptor.
pub(crate) fn push_desc(w: &World, desc: Desc<Seen>, out: &mut Vec<u8>) -> Result<(), NoMemory>
    requires { DescTold w.now desc }
    ensures { OnOk result (out.new.items ≡ out.old.items ++
        seen_desc (numbered w.now) (desc_in (seen_in w.now.texts) desc)) }
{
    out.push(b'{')?;
    let later = push_value_field(w, false, b"value", desc.value, out)?;
    let later = push_flag_field(later, b"writable", desc.writable, out)?;
    let later = push_value_field(w, later, b"get", desc.get, out)?;
    let later = push_value_field(w, later, b"set", desc.set, out)?;
    let later = push_flag_field(later, b"enumerable", desc.enumerable, out)?;
    push_flag_field(later, b"configurable", desc.configurable, out)?;
    out.push(b'}')?;
    Ok(())
}

// A field that is there. `later` tells whether a field stands before it, and the answer whether one stands there now.
fn push_value_field(
    w: &World,
    later: bool,
    name: &[u8],
    field: Option<Seen>,
    out: &mut Vec<u8>,
) -> Result<bool, NoMemory>
    requires { Maybe (SeenTold w.now) field }
    ensures { IfOk result (λ after. (rest : List (List ℕ)) → out.new.items ++ led after rest ≡ out.old.items ++
        led later (with_field name.now (seen (numbered w.now)) (option_map (seen_in w.now.texts) field) rest)) }
{
    match field {
        Some(value) => {
            push_name(later, name, out)?;
            push_seen(w, value, out)?;
            Ok(true)
        }
        None => Ok(later),
    }
}

fn push_flag_field(
    later: bool,
    name: &[u8],
    field: Option<bool>,
    out: &mut Vec<u8>,
) -> Result<bool, NoMemory>
    ensures { IfOk result (λ after. (rest : List (List ℕ)) → out.new.items ++ led after rest ≡ out.old.items ++
        led later (with_field name.now truth_text field rest)) }
{
    match field {
        Some(flag) => {
            push_name(later, name, out)?;
            push_flag(flag, out)?;
            Ok(true)
        }
        None => Ok(later),
    }
}

fn push_name(later: bool, name: &[u8], out: &mut Vec<u8>) -> Result<(), NoMemory>
    ensures { OnOk result (out.new.items ≡ out.old.items ++ comma_if later ++ name.now ++ (61 ∷ [])) }
{
    if later {
        out.push(b',')?;
    }
    out.extend_from_slice(name)?;
    out.push(b'=')?;
    Ok(())
}
